//! Writing records to a journal, together with what stands for them.
ghost use Rattle.std.specs.Prelude.{◌≡◌, ◌≢◌, ◌≤◌, ◌<◌, ◌+◌, ◌-◌, ◌*◌, ◌^◌, [], ◌∷◌, ◌++◌, length, true, false, if◌then◌else◌, Ok, Err, IfOk, IfErr, OnOk};
ghost use Rattle.std.specs.List.{AllByRecursion};
ghost use Rattle.pcp_base.specs.Apply.{apply, apply_all, state_of};
ghost use Rattle.pcp_base.specs.Fits.{AllFit, Fits};
ghost use Rattle.pcp_base.specs.Reached.{IsReached};
ghost use Rattle.pcp_base.specs.Records.{IsWellFormedRecord};
ghost use Rattle.pcp_base.specs.Snapshots.{snapshot};
ghost use Rattle.pcp_base.specs.States.{State, empty_state};
ghost use Rattle.lease_disk.specs.Pairs.{PairHasCause, PairIsQuiet, PairLeavesOnly};
ghost use Rattle.lease_journal.specs.declared.errors.Found.TheVariants.{Recovered};
ghost use Rattle.journal_sides.specs.declared.errors.JournalFault.TheVariants.{Disk};
ghost use Rattle.journal_sides.specs.declared.formats.Format.TheVariants.{Second};
ghost use Rattle.journal_sides.specs.declared.layout.TheConstants.{MOST_APPENDED};
ghost use Rattle.journal_sides.specs.Formats.{HasNext};
ghost use Rattle.journal_sides.specs.Frames.{frames_octets};
ghost use Rattle.journal_sides.specs.Journals.{StandsFor, StandsForWithOrWithout};
ghost use Rattle.journal_sides.specs.Quiet.{UnlessDisk};
ghost use Rattle.journal_sides.specs.Texts.{AreTexts, records_in};
ghost use Rattle.lease_journal.specs.Views.{IsSettled};
ghost use Rattle.shard_book.specs.Books.{IsWritable};
ghost use Rattle.shard_book.specs.Insides.{IsKnownAs};
ghost use Rattle.shard_book.specs.Keepings.{IsAppended, IsBeside, is_overlong, unsure_after};
ghost use Rattle.shard_book.specs.Openings.{IsOnOther};

use crate::lengths::LONGEST_SIDE;
use crate::snapshots::texts_of_state;
use crate::texts::KeptTexts;
use lease_core::LeaseCore;
use lease_disk::LeaseDisk;
use lease_journal::{Found, Journal, JournalFault, one_journal};
use lease_store::LeaseStore;
use pcp_base::{Memory, Record, snapshots_stand};
use std::alloc::Global;
use std::slice;

/// Whether a journal is to be compacted before a batch.
fn is_overlong<D: LeaseDisk>(journal: &Journal<D>) -> bool
    requires { journal.now.unread ≡ false }
    ensures { result ≡ is_overlong journal.now }
{
    let length = journal.length();
    length > LONGEST_SIDE
        && length > journal.first_length().saturating_mul(2)
        && journal.generation() < u64::MAX
}

/// Whether a journal is to be compacted before a batch. Where it is, the texts are those of a
/// snapshot from then on, in place of those that stood for the same.
pub(crate) fn renew_if_overlong<D: LeaseDisk, S: LeaseStore>(
    alloc: Global,
    core: &LeaseCore<S>,
    journal: &Journal<D>,
    texts: &mut KeptTexts,
) -> Result<bool, Memory>
    requires read { journal.now.unread ≡ false }
    requires reached { IsReached (S.state core.now) }
    requires started { (S.state core.now).started ≡ true }
    requires fit { AllFit empty_state texts.old.sure }
    requires state { state_of texts.old.sure ≡ S.state core.now }
    requires none { texts.old.added ≡ [] }
    ensures overlong { IfOk result (λ anew. anew ≡ is_overlong journal.now) }
    ensures snapshot { IfOk result
        (λ anew. anew ≡ true → texts.new.sure ≡ snapshot (S.state core.now)) }
    ensures fit { AllFit empty_state texts.new.sure }
    ensures state { state_of texts.new.sure ≡ S.state core.now }
    ensures none { texts.new.added ≡ [] }
{
    snapshots_stand();
    if !is_overlong(journal) {
        return Ok(false);
    }
    *texts = texts_of_state(alloc, core)?;
    Ok(true)
}

/// Compacts a journal with a snapshot, of which these are the texts, if that is to be done.
fn compact_by<D: LeaseDisk>(
    alloc: Global,
    journal: &mut Journal<D>,
    anew: bool,
    snapshot: &[u8],
) -> Result<(), JournalFault>
    requires read { journal.old.unread ≡ false }
    requires second { journal.old.standing.format ≡ Second }
    requires texts { AreTexts snapshot.now (records_in snapshot.now) }
    requires some { anew ≡ true → 1 ≤ length (records_in snapshot.now) }
    requires fit { anew ≡ true → AllFit empty_state (records_in snapshot.now) }
    requires same { D.tells → anew ≡ true → (s : State)
        → IsSettled D.seen D.may_leave journal.old s → state_of (records_in snapshot.now) ≡ s }
    requires next { anew ≡ true → journal.old.standing.generation < 2 ^ 64 - 1 }
    ensures moments { D.tells → (s : State) → IsSettled D.seen D.may_leave journal.old s
        → PairLeavesOnly D.moment D.left_since D.may_leave journal.old.pair journal.new.pair
        (StandsFor s) }
    ensures settled { D.tells → (s : State) → IsSettled D.seen D.may_leave journal.old s
        → OnOk result (IsSettled D.seen D.may_leave journal.new s) }
    ensures idle { anew ≡ false → journal.new ≡ journal.old }
    ensures read { OnOk result (journal.new.unread ≡ false) }
    ensures second { OnOk result (journal.new.standing.format ≡ Second) }
    ensures generation { anew ≡ true → OnOk result
        (journal.new.standing.generation ≡ journal.old.standing.generation + 1) }
    ensures short { anew ≡ true → OnOk result
        (journal.new.first_length ≡ journal.new.standing.length) }
    ensures memory { result ≡ Err JournalFault.Memory → journal.new ≡ journal.old }
    ensures cause { PairHasCause D.faults journal.old.pair journal.new.pair
        (result ≡ Err Disk) }
    ensures quiet { UnlessDisk result (PairIsQuiet D.faults journal.old.pair journal.new.pair) }
{
    if anew {
        return journal.compact(alloc, snapshot);
    }
    Ok(())
}

/// Appends records in frames, if there are any.
fn append_all<D: LeaseDisk>(
    alloc: Global,
    journal: &mut Journal<D>,
    records: &[Record],
) -> Result<(), JournalFault>
    requires few { length records.now ≤ MOST_APPENDED }
    requires formed { AllByRecursion IsWellFormedRecord records.now }
    requires read { journal.old.unread ≡ false }
    requires second { journal.old.standing.format ≡ Second }
    requires fit { D.tells → (s : State) → IsSettled D.seen D.may_leave journal.old s
        → AllFit s records.now }
    ensures moments { D.tells → (s : State) → IsSettled D.seen D.may_leave journal.old s
        → PairLeavesOnly D.moment D.left_since D.may_leave journal.old.pair journal.new.pair
        (StandsForWithOrWithout s records.now) }
    ensures settled { D.tells → (s : State) → IsSettled D.seen D.may_leave journal.old s
        → OnOk result (IsSettled D.seen D.may_leave journal.new (apply_all s records.now)) }
    ensures idle { records.now ≡ [] → journal.new ≡ journal.old }
    ensures read { OnOk result (journal.new.unread ≡ false) }
    ensures second { OnOk result (journal.new.standing.format ≡ Second) }
    ensures side { OnOk result (journal.new.side ≡ journal.old.side) }
    ensures generation { OnOk result
        (journal.new.standing.generation ≡ journal.old.standing.generation) }
    ensures first_length { OnOk result (journal.new.first_length ≡ journal.old.first_length) }
    ensures beside { D.tells → OnOk result (IsBeside D.seen journal.old journal.new) }
    ensures grown { D.tells → (s : State) → IsSettled D.seen D.may_leave journal.old s
        → OnOk result (journal.new.standing.length
        ≤ journal.old.standing.length + frames_octets records.now) }
    ensures memory { result ≡ Err JournalFault.Memory → journal.new ≡ journal.old }
    ensures cause { PairHasCause D.faults journal.old.pair journal.new.pair
        (result ≡ Err Disk) }
    ensures quiet { UnlessDisk result (PairIsQuiet D.faults journal.old.pair journal.new.pair) }
{
    if records.is_empty() {
        return Ok(());
    }
    journal.append(alloc, records)
}

/// Compacts a journal with a snapshot, of which these are the texts, if that is to be done, and then
/// appends records in frames, if there are any.
fn write<D: LeaseDisk>(
    alloc: Global,
    journal: &mut Journal<D>,
    anew: bool,
    snapshot: &[u8],
    records: &[Record],
) -> Result<(), JournalFault>
    requires few { length records.now ≤ MOST_APPENDED }
    requires formed { AllByRecursion IsWellFormedRecord records.now }
    requires read { journal.old.unread ≡ false }
    requires second { journal.old.standing.format ≡ Second }
    requires snapshot_texts { AreTexts snapshot.now (records_in snapshot.now) }
    requires snapshot_some { anew ≡ true → 1 ≤ length (records_in snapshot.now) }
    requires snapshot_fit { anew ≡ true → AllFit empty_state (records_in snapshot.now) }
    requires next { anew ≡ true → journal.old.standing.generation < 2 ^ 64 - 1 }
    requires known { D.tells → IsKnownAs D.seen D.may_leave journal.old anew
        (records_in snapshot.now) records.now }
    ensures moments { D.tells → (s : State) → IsSettled D.seen D.may_leave journal.old s
        → PairLeavesOnly D.moment D.left_since D.may_leave journal.old.pair journal.new.pair
        (StandsForWithOrWithout s records.now) }
    ensures before { D.tells → (s : State) → IsSettled D.seen D.may_leave journal.old s
        → result ≡ Err JournalFault.Memory
        → PairLeavesOnly D.moment D.left_since D.may_leave journal.old.pair journal.new.pair
        (StandsFor s) }
    ensures settled { D.tells → (s : State) → IsSettled D.seen D.may_leave journal.old s
        → OnOk result (IsSettled D.seen D.may_leave journal.new (apply_all s records.now)) }
    ensures idle { anew ≡ false → records.now ≡ [] → journal.new ≡ journal.old }
    ensures read { OnOk result (journal.new.unread ≡ false) }
    ensures second { OnOk result (journal.new.standing.format ≡ Second) }
    ensures plain { anew ≡ false → OnOk result
        (journal.new.standing.generation ≡ journal.old.standing.generation) }
    ensures plain_first { anew ≡ false → OnOk result
        (journal.new.first_length ≡ journal.old.first_length) }
    ensures grown { D.tells → (s : State) → IsSettled D.seen D.may_leave journal.old s
        → anew ≡ false → OnOk result (journal.new.standing.length
        ≤ journal.old.standing.length + frames_octets records.now) }
    ensures compacted { anew ≡ true → OnOk result
        (journal.new.standing.generation ≡ journal.old.standing.generation + 1) }
    ensures short { D.tells → (s : State) → IsSettled D.seen D.may_leave journal.old s
        → anew ≡ true → OnOk result
        (journal.new.standing.length ≤ journal.new.first_length + frames_octets records.now) }
    ensures cause { PairHasCause D.faults journal.old.pair journal.new.pair
        (result ≡ Err Disk) }
    ensures quiet { UnlessDisk result (PairIsQuiet D.faults journal.old.pair journal.new.pair) }
{
    one_journal();
    compact_by(alloc, journal, anew, snapshot)?;
    append_all(alloc, journal, records)
}

/// Compacts a journal with the snapshot that is kept for good, if that is to be done, and then appends
/// records in frames, if there are any. Keeps the texts of the records for good. After `Memory`
/// they are forgotten, since the journal has none of them.
pub(crate) fn commit<D: LeaseDisk>(
    alloc: Global,
    journal: &mut Journal<D>,
    texts: &mut KeptTexts,
    anew: bool,
    records: &[Record],
) -> Result<(), JournalFault>
    requires few { length records.now ≤ MOST_APPENDED }
    requires writable { IsWritable D.tells D.seen D.may_leave journal.old
        (state_of texts.old.sure) }
    requires fit { AllFit (state_of texts.old.sure) records.now }
    requires added { texts.old.added ≡ records.now }
    requires reached { IsReached (state_of texts.old.sure) }
    requires started { (state_of texts.old.sure).started ≡ true }
    requires snapshot { anew ≡ true → texts.old.sure ≡ snapshot (state_of texts.old.sure) }
    requires next { anew ≡ true → journal.old.standing.generation < 2 ^ 64 - 1 }
    ensures writable { OnOk result (IsWritable D.tells D.seen D.may_leave journal.new
        (apply_all (state_of texts.old.sure) records.now)) }
    ensures moments { D.tells
        → PairLeavesOnly D.moment D.left_since D.may_leave journal.old.pair journal.new.pair
        (StandsForWithOrWithout (state_of texts.old.sure) records.now) }
    ensures refused_moments { D.tells → IfErr result (λ fault.
        PairLeavesOnly D.moment D.left_since D.may_leave journal.old.pair journal.new.pair
        (StandsForWithOrWithout (state_of texts.old.sure) (unsure_after fault records.now))) }
    ensures kept { OnOk result (texts.new
        ≡ record { sure = texts.old.sure ++ records.now; added = [] }) }
    ensures refused { IfErr result (λ fault. texts.new
        ≡ record { sure = texts.old.sure; added = unsure_after fault records.now }) }
    ensures idle { anew ≡ false → records.now ≡ [] → journal.new ≡ journal.old }
    ensures plain { anew ≡ false → OnOk result
        (journal.new.standing.generation ≡ journal.old.standing.generation) }
    ensures plain_first { anew ≡ false → OnOk result
        (journal.new.first_length ≡ journal.old.first_length) }
    ensures grown { D.tells → anew ≡ false → OnOk result (journal.new.standing.length
        ≤ journal.old.standing.length + frames_octets records.now) }
    ensures compacted { anew ≡ true → OnOk result
        (journal.new.standing.generation ≡ journal.old.standing.generation + 1) }
    ensures short { D.tells → anew ≡ true → OnOk result
        (journal.new.standing.length ≤ journal.new.first_length + frames_octets records.now) }
    ensures cause { PairHasCause D.faults journal.old.pair journal.new.pair
        (result ≡ Err Disk) }
    ensures quiet { UnlessDisk result (PairIsQuiet D.faults journal.old.pair journal.new.pair) }
{
    one_journal();
    snapshots_stand();
    match write(alloc, journal, anew, texts.sure(), records) {
        Ok(()) => {
            texts.confirm();
            Ok(())
        }
        Err(JournalFault::Memory) => {
            texts.forget();
            Err(JournalFault::Memory)
        }
        Err(JournalFault::Disk) => Err(JournalFault::Disk),
    }
}

/// Compacts a journal of the first format in the second one.
pub(crate) fn use_second<D: LeaseDisk, S: LeaseStore>(
    alloc: Global,
    journal: &mut Journal<D>,
    core: &LeaseCore<S>,
) -> Result<(), JournalFault>
    requires read { journal.old.unread ≡ false }
    requires next { HasNext journal.old.standing.format journal.old.standing.generation }
    requires reached { IsReached (S.state core.now) }
    requires started { (S.state core.now).started ≡ true }
    requires settled { D.tells
        → IsSettled D.seen D.may_leave journal.old (S.state core.now) }
    ensures writable { OnOk result
        (IsWritable D.tells D.seen D.may_leave journal.new (S.state core.now)) }
    ensures moments { D.tells
        → PairLeavesOnly D.moment D.left_since D.may_leave journal.old.pair journal.new.pair
        (StandsFor (S.state core.now)) }
    ensures cause { PairHasCause D.faults journal.old.pair journal.new.pair
        (result ≡ Err Disk) }
    ensures quiet { UnlessDisk result (PairIsQuiet D.faults journal.old.pair journal.new.pair) }
{
    if journal.format() == 2 {
        return Ok(());
    }
    one_journal();
    snapshots_stand();
    let texts = texts_of_state(alloc, core)?;
    journal.compact(alloc, texts.sure())
}

/// Compacts a journal whose records an opening found, unless it has no next generation: what was read
/// of it may stand in the system's memory alone, where a sync failed in a process before.
pub(crate) fn write_anew<D: LeaseDisk, S: LeaseStore>(
    alloc: Global,
    journal: &mut Journal<D>,
    core: &LeaseCore<S>,
    found: Found,
) -> Result<(), JournalFault>
    requires read { journal.old.unread ≡ false }
    requires next { HasNext journal.old.standing.format journal.old.standing.generation }
    requires second { found ≢ Recovered → journal.old.standing.format ≡ Second }
    requires first_length { journal.old.first_length ≡ journal.old.standing.length }
    requires reached { IsReached (S.state core.now) }
    requires started { (S.state core.now).started ≡ true }
    requires settled { D.tells
        → IsSettled D.seen D.may_leave journal.old (S.state core.now) }
    ensures writable { OnOk result
        (IsWritable D.tells D.seen D.may_leave journal.new (S.state core.now)) }
    ensures anew { found ≡ Recovered → journal.old.standing.generation < 2 ^ 64 - 1
        → OnOk result
        (IsOnOther journal.old.side journal.old.standing.generation journal.new) }
    ensures idle { found ≢ Recovered → journal.new ≡ journal.old }
    ensures first_length { OnOk result
        (journal.new.first_length ≡ journal.new.standing.length) }
    ensures moments { D.tells
        → PairLeavesOnly D.moment D.left_since D.may_leave journal.old.pair journal.new.pair
        (StandsFor (S.state core.now)) }
    ensures cause { PairHasCause D.faults journal.old.pair journal.new.pair
        (result ≡ Err Disk) }
    ensures quiet { UnlessDisk result (PairIsQuiet D.faults journal.old.pair journal.new.pair) }
{
    if found != Found::Recovered {
        return Ok(());
    }
    if journal.generation() == u64::MAX {
        return Ok(());
    }
    one_journal();
    snapshots_stand();
    let texts = texts_of_state(alloc, core)?;
    journal.compact(alloc, texts.sure())
}

/// Applies a record that fits to a core, and appends it.
pub(crate) fn keep<D: LeaseDisk, S: LeaseStore>(
    alloc: Global,
    journal: &mut Journal<D>,
    core: &mut LeaseCore<S>,
    kept: &Record,
) -> Result<(), JournalFault>
    requires writable { IsWritable D.tells D.seen D.may_leave journal.old (S.state core.old) }
    requires reached { IsReached (S.state core.old) }
    requires fits { Fits (S.state core.old) kept.now }
    requires later { S.reached core.old ≤ kept.now.moment }
    ensures state { OnOk result (S.state core.new ≡ apply (S.state core.old) kept.now) }
    ensures past { OnOk result (S.reached core.new ≡ kept.now.moment) }
    ensures terms { S.terms core.new ≡ S.terms core.old }
    ensures writable { OnOk result (IsWritable D.tells D.seen D.may_leave journal.new
        (apply (S.state core.old) kept.now)) }
    ensures appended { OnOk result
        (IsAppended D.tells D.seen (kept.now ∷ []) journal.old journal.new) }
    ensures moments { D.tells
        → PairLeavesOnly D.moment D.left_since D.may_leave journal.old.pair journal.new.pair
        (StandsForWithOrWithout (S.state core.old) (kept.now ∷ [])) }
    ensures cause { PairHasCause D.faults journal.old.pair journal.new.pair
        (result ≡ Err Disk) }
    ensures quiet { UnlessDisk result (PairIsQuiet D.faults journal.old.pair journal.new.pair) }
{
    one_journal();
    core.apply(alloc, kept)?;
    append_all(alloc, journal, slice::from_ref(kept))
}
