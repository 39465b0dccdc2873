//! What is told of all journals.
ghost use Rattle.std.specs.Prelude.{◌≡◌, ℕ, ◌≤◌, ◌<◌, List, length, Err, IfOk, OnOk};
ghost use Rattle.std.specs.Io.KnownBytes.{append_known};
ghost use Rattle.pcp_base.specs.declared.configs.TheConstants.{MOST_EXTERNALS};
ghost use Rattle.pcp_io.specs.Faults.{HasRisen};
ghost use Rattle.pcp_io.specs.Writes.{WritesPart};
ghost use Rattle.journal_dump.specs.Turns.{ChangesAt};
ghost use Rattle.watch_runs.specs.Looks.{FailsFrom, IsToldFrom};
ghost use Rattle.watch_runs.specs.Runs.{AreTold, FailsAt, IsWatched, leases_told, watch_text};
ghost use Rattle.watch_runs.specs.declared.links.LookFault.TheVariants as Faults;
ghost use Rattle.watch_runs.specs.declared.faults.WatchFault.TheVariants.{File, Memory as Starved, Write};
ghost use Rattle.watch_runs.specs.declared.tellings.TheConstants.{MOST_LOOKS};

use crate::faults::WatchFault;
use crate::links::{JournalLooks, LookFault};
use crate::tellings::told_behind;
use pcp_base::{External, Memory};
use pcp_io::{Sink, write_all};
use std::alloc::Global;
use watch_lines::ready_line_of;
use watch_readings::Told;

/// What is told of the journal at this place.
fn told_at<L: JournalLooks>(
    alloc: Global,
    external: &External,
    links: &mut [L],
    place: usize,
) -> Result<Told, LookFault>
    requires within { place < length links.old }
    requires few { place < MOST_EXTERNALS }
    ensures { ChangesAt place links.old links.new (λ before after.
        IfOk result (IsToldFrom MOST_LOOKS external.now place (L.left before) (L.left after))
        × (result ≡ Err Faults.File → FailsFrom MOST_LOOKS (L.left before) (L.left after))) }
{
    told_behind(alloc, external, place as u32, &mut links[place])
}

/// What is told of all journals, in order.
fn told_all<L: JournalLooks>(
    alloc: Global,
    externals: &[External],
    links: &mut [L],
) -> Result<Vec<Told>, WatchFault>
    requires one_each { length links.old ≡ length externals.now }
    requires few { length externals.now ≤ MOST_EXTERNALS }
    ensures told { IfOk result (λ told.
        AreTold L.left MOST_LOOKS externals.now links.old links.new told.items) }
    ensures file { (shard : ℕ) → result ≡ Err (File shard) →
        FailsAt L.left MOST_LOOKS links.old links.new shard }
    ensures write { ¬ (result ≡ Err Write) }
{
    let mut all = Vec::new(alloc);
    for (place, external) in externals.iter().enumerate() {
        match told_at(alloc, external, links, place) {
            Ok(told) => all.push(told)?,
            Err(LookFault::File) => return Err(WatchFault::File(place as u32)),
            Err(LookFault::Memory) => return Err(WatchFault::Memory),
        }
    }
    Ok(all)
}

/// How many leases are told; at most 2^64 - 1.
fn leases_of(all: &[Told]) -> u64
    ensures { result ≡ leases_told all.now }
{
    let mut leases = 0_u64;
    for told in all {
        leases = leases.saturating_add(told.leases as u64);
    }
    leases
}

/// The lines of all journals, and the one that says that these are all.
fn text_of(alloc: Global, all: &[Told]) -> Result<Vec<u8>, Memory>
    ensures { IfOk result (λ text. text.items ≡ watch_text all.now) }
{
    let mut text = Vec::new(alloc);
    for told in all {
        text.extend_from_slice(told.lines.items())?;
    }
    let ready = ready_line_of(alloc, leases_of(all))?;
    text.extend_from_slice(&ready)?;
    Ok(text)
}

/// Writes to `out` what is told of each journal, in order, and how many leases that are. Link `i` looks
/// at the journal of external address `i`. All journals are looked at before anything is written.
pub fn run_watch<L: JournalLooks, W: Sink>(
    alloc: Global,
    externals: &[External],
    links: &mut [L],
    out: &mut W,
) -> Result<(), WatchFault>
    requires one_each { length links.old ≡ length externals.now }
    requires few { length externals.now ≤ MOST_EXTERNALS }

    // The whole text is written, or where the sink fails a part of it, and else nothing.
    ensures done { OnOk result ((text : List ℕ)
        × IsWatched L.left MOST_LOOKS externals.now links.old links.new text
        × (W.held out.new ≡ append_known (W.held out.old) text)) }
    ensures part { result ≡ Err Write → (text : List ℕ)
        × IsWatched L.left MOST_LOOKS externals.now links.old links.new text
        × WritesPart (W.held out.old) (W.held out.new) text }
    ensures memory { result ≡ Err Starved → out.new ≡ out.old }
    ensures file { (shard : ℕ) → result ≡ Err (File shard) → out.new ≡ out.old }

    // A journal that can't be read is told by its place, and a fault of the sink was counted.
    ensures cause { (shard : ℕ) → result ≡ Err (File shard) →
        FailsAt L.left MOST_LOOKS links.old links.new shard }
    ensures risen { result ≡ Err Write → HasRisen (W.faults out.old) (W.faults out.new) }
{
    let all = match told_all(alloc, externals, links) {
        Ok(all) => all,
        Err(fault) => return Err(fault),
    };
    let text = text_of(alloc, &all)?;
    match write_all(out, &text) {
        Ok(()) => Ok(()),
        Err(_) => Err(WatchFault::Write),
    }
}
