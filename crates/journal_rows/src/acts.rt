//! Deeds on an opened journal, beside a replay of its records.
ghost use Rattle.std.specs.Prelude.{◌≡◌, Ok, false, true, IsSome, IfOk};
ghost use Rattle.lease_journal.specs.Views.{IsSettled};

use crate::deeds::{Deed, Seen, moment, record_of, standing};
use crate::disks::images;
use crate::snapshots::snapshot_of;
use journal_sides::texts_of;
use lease_disk::{DiskPair, LeaseDisk, MemoryDisk};
use lease_journal::{Journal, one_journal, snapshots_take_over};
use pcp_base::{Moment, Record, Replay};
use plain_replay::PlainReplay;
use std::alloc::Global;
use std::test::Fail;

/// Appends a record that fits. Whether that went well.
fn append<D: LeaseDisk>(
    alloc: Global,
    journal: &mut Journal<D>,
    replay: &mut PlainReplay,
    kept: &Record,
) -> Result<bool, Fail>
    requires told { D.tells }
    requires read { journal.old.unread ≡ false }
    requires settled { IsSettled D.seen D.may_leave journal.old replay.old }
    ensures read_now { result ≡ Ok true → journal.new.unread ≡ false }
    ensures settled { result ≡ Ok true → IsSettled D.seen D.may_leave journal.new replay.new }
{
    snapshots_take_over();
    one_journal();
    if journal.format() != 2 {
        return Ok(false);
    }
    if !replay.admit(alloc, kept)? {
        return Ok(false);
    }
    let Ok(()) = journal.append(alloc, &[*kept]) else {
        return Ok(false);
    };
    Ok(true)
}

/// Compacts the journal. Whether that went well.
fn compact<D: LeaseDisk>(
    alloc: Global,
    journal: &mut Journal<D>,
    replay: &PlainReplay,
) -> Result<bool, Fail>
    requires told { D.tells }
    requires read { journal.old.unread ≡ false }
    requires settled { IsSettled D.seen D.may_leave journal.old replay.now }
    ensures read_now { result ≡ Ok true → journal.new.unread ≡ false }
    ensures settled { result ≡ Ok true → IsSettled D.seen D.may_leave journal.new replay.now }
{
    snapshots_take_over();
    one_journal();
    let records = snapshot_of(alloc, replay)?;
    let texts = texts_of(alloc, &records)?;
    if journal.generation() == u64::MAX {
        return Ok(false);
    }
    let Ok(()) = journal.compact(alloc, &texts) else {
        return Ok(false);
    };
    Ok(true)
}

/// Does this at `m`. Whether that went well.
fn act<D: LeaseDisk>(
    alloc: Global,
    journal: &mut Journal<D>,
    replay: &mut PlainReplay,
    m: u64,
    deed: &Deed,
) -> Result<bool, Fail>
    requires told { D.tells }
    requires read { journal.old.unread ≡ false }
    requires settled { IsSettled D.seen D.may_leave journal.old replay.old }
    ensures read_now { result ≡ Ok true → journal.new.unread ≡ false }
    ensures settled { result ≡ Ok true → IsSettled D.seen D.may_leave journal.new replay.new }
{
    match record_of(m, deed)? {
        Some(kept) => append(alloc, journal, replay, &kept),
        None => compact(alloc, journal, replay),
    }
}

/// Does the deeds one after the other, until one fails. How many went well.
pub(crate) fn act_all<D: LeaseDisk>(
    alloc: Global,
    journal: &mut Journal<D>,
    replay: &mut PlainReplay,
    deeds: &[(u64, Deed)],
) -> Result<usize, Fail>
    requires told { D.tells }
    requires read { journal.old.unread ≡ false }
    requires settled { IsSettled D.seen D.may_leave journal.old replay.old }
{
    for (number, (m, deed)) in deeds.iter().enumerate() {
        if !act(alloc, journal, replay, *m, deed)? {
            return Ok(number);
        }
    }
    Ok(deeds.len())
}

/// Opens a journal at `m`, and does these deeds until a device call fails. The pair, what stood after
/// the opening, and how many of the opening and the deeds went well.
fn run_from<D: LeaseDisk + Drop>(
    alloc: Global,
    pair: DiskPair<D>,
    m: Moment,
    deeds: &[(u64, Deed)],
    replay: &mut PlainReplay,
) -> Result<(DiskPair<D>, Option<Seen>, usize), Fail>
    requires told { D.tells }
{
    match Journal::recover(alloc, pair, m, replay) {
        Ok((mut journal, found)) => {
            let seen = standing(found, replay);
            let done = act_all(alloc, &mut journal, replay, deeds)?;
            Ok((journal.close(), Some(seen), done.saturating_add(1)))
        }
        Err(unopened) => Ok((unopened.pair, None, 0)),
    }
}

/// The same with a replay of its own.
pub(crate) fn run<D: LeaseDisk + Drop>(
    alloc: Global,
    pair: DiskPair<D>,
    m: u64,
    deeds: &[(u64, Deed)],
) -> Result<(DiskPair<D>, Option<Seen>, usize), Fail>
    requires told { D.tells }
{
    run_from(alloc, pair, moment(m)?, deeds, &mut PlainReplay::new(alloc))
}

/// What stands after an opening at `m`.
pub(crate) fn opened<D: LeaseDisk + Drop>(
    alloc: Global,
    pair: DiskPair<D>,
    m: u64,
) -> Result<Option<Seen>, Fail>
    requires told { D.tells }
{
    let (_pair, seen, _done) = run(alloc, pair, m, &[])?;
    Ok(seen)
}

/// What stands after an opening at `m` of the images of this choice.
pub(crate) fn found(
    alloc: Global,
    pair: &DiskPair<MemoryDisk>,
    choice: u8,
    m: u64,
) -> Result<Option<Seen>, Fail> {
    opened(alloc, images(alloc, pair, choice)?, m)
}

/// Reads a journal again at 2000, and once more where that failed.
pub(crate) fn read_again<D: LeaseDisk>(
    alloc: Global,
    journal: &mut Journal<D>,
    replay: &mut PlainReplay,
) -> Result<Option<Seen>, Fail>
    requires told { D.tells }
    ensures read_now { IfOk result (λ left. IsSome left → journal.new.unread ≡ false) }
    ensures settled { IfOk result (λ left. IsSome left
        → IsSettled D.seen D.may_leave journal.new replay.new) }
{
    let m = moment(2000)?;
    if let Ok(found) = journal.again(alloc, m, replay) {
        return Ok(Some(standing(found, replay)));
    }
    match journal.again(alloc, m, replay) {
        Ok(found) => Ok(Some(standing(found, replay))),
        Err(_) => Ok(None),
    }
}
