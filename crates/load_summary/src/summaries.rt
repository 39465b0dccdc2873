//! The text of a summary.
ghost use Rattle.std.specs.Prelude.{◌≡◌, ℕ, ◌++◌, List, IfOk, OnOk, OnErr};
ghost use Rattle.sha2.specs.Sha256.{sha256};
ghost use Rattle.load_summary.specs.declared.counts.LoadKind.{LoadKind};
ghost use Rattle.load_summary.specs.Counts.{AreCountsOf};
ghost use Rattle.load_summary.specs.Summaries.{changes_text, count_line, digest_line, rest_text, summary_of, summary_text, totals_text};

use crate::counts::LoadCounts;
use pcp_base::Memory;
use std::alloc::{AllocError, Global};

/// Appends the summary: how the requests counted, how many leases were live and how many ports owned
/// in the end, and the SHA-256 of all octets of the replies. Nothing is appended where no memory was
/// found.
pub fn write_summary(
    alloc: Global,
    out: &mut Vec<u8>,
    counts: LoadCounts,
    leases: u32,
    owned: u32,
    digest: &[u8; 32],
) -> Result<(), Memory>
    ensures ok { (kinds : List LoadKind) (replies : List ℕ) →
        AreCountsOf counts kinds → digest.now ≡ sha256 replies →
        OnOk result (out.new.items ≡ out.old.items ++ summary_text kinds leases owned replies) }
    ensures err { OnErr result (out.new.items ≡ out.old.items) }
{
    let text = text_of(alloc, counts, leases, owned, digest)?;
    out.extend_from_slice(&text)?;
    Ok(())
}

fn text_of(
    alloc: Global,
    counts: LoadCounts,
    leases: u32,
    owned: u32,
    digest: &[u8; 32],
) -> Result<Vec<u8>, Memory>
    ensures { IfOk result (λ text. text.items ≡ summary_of counts leases owned digest.now) }
{
    let mut text = Vec::new(alloc);
    push_changes(alloc, &mut text, counts)?;
    push_rest(alloc, &mut text, counts)?;
    push_totals(alloc, &mut text, leases, owned)?;
    push_digest(alloc, &mut text, digest)?;
    Ok(text)
}

fn push_changes(alloc: Global, out: &mut Vec<u8>, counts: LoadCounts) -> Result<(), AllocError>
    ensures { OnOk result (out.new.items ≡ out.old.items ++ changes_text counts) }
{
    push_count(alloc, out, "requests", counts.requests)?;
    push_count(alloc, out, "granted", counts.granted)?;
    push_count(alloc, out, "renewed", counts.renewed)
}

fn push_rest(alloc: Global, out: &mut Vec<u8>, counts: LoadCounts) -> Result<(), AllocError>
    ensures { OnOk result (out.new.items ≡ out.old.items ++ rest_text counts) }
{
    push_count(alloc, out, "deleted", counts.deleted)?;
    push_count(alloc, out, "absent", counts.absent)?;
    push_count(alloc, out, "refused", counts.refused)
}

fn push_totals(alloc: Global, out: &mut Vec<u8>, leases: u32, owned: u32) -> Result<(), AllocError>
    ensures { OnOk result (out.new.items ≡ out.old.items ++ totals_text leases owned) }
{
    push_count(alloc, out, "leases", leases)?;
    push_count(alloc, out, "owned", owned)
}

fn push_digest(alloc: Global, out: &mut Vec<u8>, digest: &[u8; 32]) -> Result<(), AllocError>
    ensures { OnOk result (out.new.items ≡ out.old.items ++ digest_line digest.now) }
{
    let digits = hex::encode(alloc, *digest)?;
    let line = format!(in alloc; "digest {digits}\n")?;
    out.extend_from_slice(line.as_bytes())
}

// Appends a line of a name and a number.
fn push_count(alloc: Global, out: &mut Vec<u8>, name: &str, count: u32) -> Result<(), AllocError>
    ensures { OnOk result (out.new.items ≡ out.old.items ++ count_line name.now count) }
{
    let line = format!(in alloc; "{name} {count}\n")?;
    out.extend_from_slice(line.as_bytes())
}
