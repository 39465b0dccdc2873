//! The help of each command.
ghost use Rattle.std.specs.Prelude.{◌≡◌, IfOk, is_some, map, string_bytes};
ghost use Rattle.proxy_commands.specs.Helps.{asks_help};

use pcp_base::Memory;
use std::alloc::Global;

/// The options that may stand among those of both.
const MORE: &str = "
Options of both relays, each with its value in the next word:
      --inner <ADDRESS>         Up to 16 times: clients ask at each, and are answered from there
      --key-file <FILE>         A file with the key, in place of --key; one of the two must be given
      --rate <N>                Requests a second of all clients together, 1 to 100000, else 20; more are dropped
";

/// The one that a relay alone has that isn't beside a translator of its own.
const THIRD_PARTY: &str =
    "      --third-party <PREFIX>    Up to 16 times: whose THIRD_PARTY is passed on; without it nobody's
";

/// The text of a command's help, where the words are the name of one and `--help` or `-h`.
pub fn help_of(alloc: Global, words: &[String]) -> Result<Option<String>, Memory>
    ensures { IfOk result (λ help. is_some help ≡ asks_help (map string_bytes words.now)) }
{
    let Some(help) = proxy_commands::help_of(alloc, words)? else {
        return Ok(None);
    };
    let mut text = help;
    push_more(&mut text, words)?;
    Ok(Some(text))
}

/// Appends the options that may stand among those of the command.
fn push_more(text: &mut String, words: &[String]) -> Result<(), Memory> {
    text.push_str(MORE)?;
    if let [name, ..] = words
        && name.as_str() == "proxy"
    {
        text.push_str(THIRD_PARTY)?;
    }
    Ok(())
}
