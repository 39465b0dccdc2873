//! Orders to a server that runs, by the socket in the folder of its journals.
use order_runs::run_order;
use pcp_base::Memory;
use pcp_io::StdSink;
use program_links::UnixOrders;
use tool_commands::ToolStatus;

/// Whether the words may be an order.
pub(crate) fn may_order(words: &[String]) -> bool {
    match words {
        [command, ..] => ["stop", "lose", "status"].contains(&command.as_str()),
        [] => false,
    }
}

/// The folder of the journals that the words name; none where they name none.
fn folder_in(words: &[String]) -> &str {
    match words {
        [_command, journals, ..] => journals.as_str(),
        _ => "",
    }
}

/// Runs an order: how it ended, and, where the system told it, why there was no answer.
pub(crate) fn order_over(
    rt: &HostRuntime,
    words: &[String],
) -> Result<(ToolStatus, Option<String>), Memory> {
    let alloc = rt.alloc();
    let folder = folder_in(words);
    let path = format!(in alloc; "{folder}/orders")?;
    let mut link = UnixOrders::new(rt, path);
    let mut out = StdSink::new(rt.stdout());
    let status = run_order(alloc, words, &mut link, &mut out);
    let told = match link.last_error() {
        Some(error) => Some(format!(in alloc; "{folder}/orders: {error}")?),
        None => None,
    };
    Ok((status, told))
}
