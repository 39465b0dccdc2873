//! The lines that `serve` writes at its end.
ghost use Rattle.std.specs.Prelude.{◌≡◌, ◌++◌, IfOk, OnOk};
ghost use Rattle.serve_runs.specs.TallyTexts.{count_text, done_text, row_line, rows_text, undone_text};

use job_workers::TallyRow;
use pcp_base::Memory;
use std::alloc::{AllocError, Global};

/// Appends a name and a number, each behind a space.
fn push_count(alloc: Global, out: &mut Vec<u8>, name: &str, count: u64) -> Result<(), AllocError>
    ensures { OnOk result (out.new.items ≡ out.old.items ++ count_text name.now count) }
{
    let text = format!(in alloc; " {name} {count}")?;
    out.extend_from_slice(text.as_bytes())
}

fn push_done(alloc: Global, out: &mut Vec<u8>, row: &TallyRow) -> Result<(), AllocError>
    ensures { OnOk result (out.new.items ≡ out.old.items ++ done_text row.now) }
{
    push_count(alloc, out, "taken", row.taken)?;
    push_count(alloc, out, "replied", row.replied)?;
    push_count(alloc, out, "silent", row.silent)?;
    push_count(alloc, out, "unsent", row.unsent)
}

fn push_undone(alloc: Global, out: &mut Vec<u8>, row: &TallyRow) -> Result<(), AllocError>
    ensures { OnOk result (out.new.items ≡ out.old.items ++ undone_text row.now) }
{
    push_count(alloc, out, "faulted", row.faulted)?;
    push_count(alloc, out, "full", row.full)?;
    push_count(alloc, out, "starved", row.starved)
}

/// Appends the line of one external address.
fn push_row(
    alloc: Global,
    out: &mut Vec<u8>,
    place: usize,
    row: &TallyRow,
) -> Result<(), AllocError>
    ensures { OnOk result (out.new.items ≡ out.old.items ++ row_line place row.now) }
{
    let shard = format!(in alloc; "shard {place}")?;
    out.extend_from_slice(shard.as_bytes())?;
    push_done(alloc, out, row)?;
    push_undone(alloc, out, row)?;
    out.extend_from_slice(b"\n")
}

/// The lines of all external addresses, in order.
pub(crate) fn tally_text(alloc: Global, rows: &[TallyRow]) -> Result<Vec<u8>, Memory>
    ensures { IfOk result (λ text. text.items ≡ rows_text 0 rows.now) }
{
    let mut text = Vec::new(alloc);
    for (place, row) in rows.iter().enumerate() {
        push_row(alloc, &mut text, place, row)?;
    }
    Ok(text)
}
