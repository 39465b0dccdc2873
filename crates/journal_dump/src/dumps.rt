//! What the journals of all external addresses hold, as one text.
ghost use Rattle.std.specs.Prelude.{◌≡◌, ℕ, ◌≤◌, ◌<◌, ◌++◌, [], ◌∷◌, false, List, map, length, Err, IfOk, OnOk};
ghost use Rattle.std.specs.Io.KnownBytes.{append_known};
ghost use Rattle.std.specs.List.{AllZip};
ghost use Rattle.serde_json.specs.Data.{array};
ghost use Rattle.serde_json.specs.View.{items_of, view};
ghost use Rattle.serde_json.specs.Written.{compact_text, has_float};
ghost use Rattle.pcp_base.specs.declared.configs.TheConstants.{MOST_EXTERNALS};
ghost use Rattle.pcp_io.specs.Faults.{HasRisen};
ghost use Rattle.pcp_io.specs.Writes.{WritesPart};
ghost use Rattle.lease_disk.specs.Pairs.{PairHasCause};
ghost use Rattle.journal_sides.specs.declared.errors.JournalFault.TheVariants.{Disk as DiskFailed};
ghost use Rattle.journal_dump.specs.Dumps.{HasPairFault, IsDump, IsOnlyRead};
ghost use Rattle.journal_dump.specs.Turns.{AreReadAs, ChangesAt, IsReadAs};
ghost use Rattle.journal_dump.specs.declared.faults.DumpFault.TheVariants.{Disk, Memory, Write};

use crate::faults::DumpFault;
use crate::readings::reading_in;
use lease_disk::{DiskPair, LeaseDisk};
use lease_journal::JournalFault;
use pcp_base::External;
use pcp_io::{Sink, write_all};
use serde_json::Value;
use std::alloc::{AllocError, Global};

/// Reads the pair at this place.
fn reading_at<D: LeaseDisk>(
    alloc: Global,
    external: &External,
    pairs: &mut [DiskPair<D>],
    place: usize,
) -> Result<Value, JournalFault>
    requires { place < length pairs.old }
    ensures { ChangesAt place pairs.old pairs.new (λ before after.
        IsOnlyRead D.tells D.seen D.moment D.left_since D.may_leave D.faults before after
        × PairHasCause D.faults before after (result ≡ Err DiskFailed)
        × IfOk result (λ v. IsReadAs D.tells D.seen external.now before (view v))) }
{
    reading_in(alloc, external, &mut pairs[place])
}

/// Reads the pairs, one for each external address.
fn readings_of<D: LeaseDisk>(
    alloc: Global,
    externals: &[External],
    pairs: &mut [DiskPair<D>],
) -> Result<Vec<Value>, DumpFault>
    requires one_each { length pairs.old ≡ length externals.now }
    requires few { length externals.now ≤ MOST_EXTERNALS }
    ensures values { IfOk result (λ values.
        AreReadAs D.tells D.seen externals.now pairs.old (map view values.items)) }
    ensures read { AllZip
        (IsOnlyRead D.tells D.seen D.moment D.left_since D.may_leave D.faults)
        pairs.old pairs.new }
    ensures disk_fault { (shard : ℕ) → result ≡ Err (Disk shard) →
        HasPairFault D.faults pairs.old pairs.new shard }
    ensures write { ¬ (result ≡ Err Write) }
{
    let mut values = Vec::new(alloc);
    for (place, external) in externals.iter().enumerate() {
        match reading_at(alloc, external, pairs, place) {
            Ok(value) => values.push(value)?,
            Err(JournalFault::Disk) => return Err(DumpFault::Disk(place as u32)),
            Err(JournalFault::Memory) => return Err(DumpFault::Memory),
        }
    }
    Ok(values)
}

/// The values as one JSON array, with a line feed.
fn text_of(alloc: Global, values: Vec<Value>) -> Result<Vec<u8>, AllocError>
    requires { has_float (array (items_of (map view values.items))) ≡ false }
    ensures { IfOk result (λ text. text.items
        ≡ compact_text (array (items_of (map view values.items))) ++ 10 ∷ []) }
{
    let mut text = Value::Array(values).to_string(alloc)?.into_bytes();
    text.push(b'\n')?;
    Ok(text)
}

/// Writes what the journals hold to `out`, as one JSON array without spaces and a line feed: one object
/// for each external address, in order. Pair `i` has the journal of external address `i`. Every journal
/// is read before anything is written, and no disk is written, cut or synced.
pub fn dump<D: LeaseDisk, W: Sink>(
    alloc: Global,
    externals: &[External],
    pairs: &mut [DiskPair<D>],
    out: &mut W,
) -> Result<(), DumpFault>
    requires one_each { length pairs.old ≡ length externals.now }
    requires few { length externals.now ≤ MOST_EXTERNALS }

    // The whole text is written, or where the sink fails a part of it, and else nothing.
    ensures done { OnOk result ((text : List ℕ)
        × IsDump D.tells D.seen externals.now pairs.old text
        × (W.held out.new ≡ append_known (W.held out.old) text)) }
    ensures part { result ≡ Err Write → (text : List ℕ)
        × IsDump D.tells D.seen externals.now pairs.old text
        × WritesPart (W.held out.old) (W.held out.new) text }
    ensures memory { result ≡ Err Memory → out.new ≡ out.old }
    ensures disk { (shard : ℕ) → result ≡ Err (Disk shard) → out.new ≡ out.old }

    // The disks are only read.
    ensures read { AllZip
        (IsOnlyRead D.tells D.seen D.moment D.left_since D.may_leave D.faults)
        pairs.old pairs.new }

    // A fault is told only where a count of faults rose.
    ensures disk_fault { (shard : ℕ) → result ≡ Err (Disk shard) →
        HasPairFault D.faults pairs.old pairs.new shard }
    ensures write_fault { result ≡ Err Write → HasRisen (W.faults out.old) (W.faults out.new) }
    ensures writes { W.faults out.old ≤ W.faults out.new }
{
    let values = match readings_of(alloc, externals, pairs) {
        Ok(values) => values,
        Err(fault) => return Err(fault),
    };
    let text = text_of(alloc, values)?;
    match write_all(out, &text) {
        Ok(()) => Ok(()),
        Err(_) => Err(DumpFault::Write),
    }
}
