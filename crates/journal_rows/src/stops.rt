//! Openings and runs of which each device call in turn is the last one, or fails.
ghost use Rattle.std.specs.Prelude.{◌≡◌, false};
ghost use Rattle.lease_journal.specs.Views.{IsSettled};

use crate::acts::{act_all, found, read_again, run};
use crate::deeds::{ANEW, Deed, RUN, STATES, Seen, is_among, moment};
use crate::disks::{Side, blank, pair_of, stop_at};
use crate::octets::{COMPACTED, LEASED};
use lease_disk::{DiskPair, LeaseDisk, MemoryDisk};
use lease_journal::Journal;
use pcp_base::Moment;
use plain_replay::PlainReplay;
use std::alloc::Global;
use std::test::Fail;

/// An opening of two sides, deeds after it, and what may stand then.
#[derive(Clone, Copy)]
struct Row {
    a: Side,
    b: Side,
    /// When they are opened.
    opened: u64,
    deeds: &'static [(u64, Deed)],
    /// The states that are passed through, of which this many stand before the opening.
    states: &'static [Seen],
    before: usize,
}

/// Whether this may be left where so many of the opening and the deeds went well: the state that they
/// made, or the next one; and before the opening all up to that.
fn may_be(row: &Row, done: usize, left: &Seen) -> bool {
    let (skipped, taken) = match done.checked_sub(1) {
        Some(deeds) => (row.before.saturating_add(deeds), 2),
        None => (0, row.before.saturating_add(1)),
    };
    is_among(row.states, skipped, taken, left)
}

/// Whether each image may be left.
fn are_kept(
    alloc: Global,
    row: &Row,
    pair: &DiskPair<MemoryDisk>,
    done: usize,
) -> Result<bool, Fail> {
    for choice in 0..3 {
        let Some(left) = found(alloc, pair, choice, 3000)? else {
            return Ok(false);
        };
        if !may_be(row, done, &left) {
            return Ok(false);
        }
    }
    Ok(true)
}

/// Goes through a row where this device call of a side is the last one. Whether that leaves what it
/// may, and whether all went well.
fn stop(alloc: Global, row: &Row, stops_b: bool, call: u64) -> Result<(bool, bool), Fail> {
    let mut pair = pair_of(alloc, row.a, row.b)?;
    stop_at(&mut pair, stops_b, call);
    let (pair, _seen, done) = run(alloc, pair, row.opened, row.deeds)?;
    Ok((are_kept(alloc, row, &pair, done)?, done > row.deeds.len()))
}

/// Whether that is so at each call.
fn is_kept(alloc: Global, row: &Row, stops_b: bool) -> Result<bool, Fail> {
    for call in 0..200 {
        let (kept, all) = stop(alloc, row, stops_b, call)?;
        if !kept || all {
            return Ok(kept);
        }
    }
    Ok(false)
}

#[test]
fn stops(rt: HostRuntime) -> Result<(), Fail> {
    let alloc = rt.alloc();
    let blank = Side(&[], 0, 0);
    let damaged = Row {
        a: Side(&LEASED, 88, 0x03),
        b: blank,
        opened: 2000,
        deeds: &[],
        states: &ANEW,
        before: 2,
    };
    let rows = [
        // a blank start, appends and compactions
        Row {
            a: blank,
            b: blank,
            opened: 1000,
            deeds: &RUN,
            states: &STATES,
            before: 1,
        },
        // a damaged start: a lease's protocol is changed on one side, on the newer one, and on both
        damaged,
        Row {
            a: Side(&LEASED, 88, 0),
            b: Side(&COMPACTED, 87, 0x03),
            ..damaged
        },
        Row {
            b: Side(&COMPACTED, 87, 0x03),
            ..damaged
        },
    ];
    for (number, row) in rows.iter().enumerate() {
        for stops_b in [false, true] {
            let kept = is_kept(alloc, row, stops_b)?;
            assert!(rt; kept, "{number}, side b {stops_b}");
        }
    }
    Ok(())
}

/// Whether this is the state of this number, or the one after it.
fn is_at(number: usize, left: &Seen) -> bool {
    is_among(&STATES, number, 2, left)
}

/// The deeds that are left, where this was read after so many went well.
fn rest_after(done: usize, left: &Seen) -> &'static [(u64, Deed)] {
    let next = usize::from(is_at(done.saturating_add(2), left));
    RUN.get(done.saturating_add(next)..).unwrap_or(&[])
}

/// Does the run in an opened journal, one of whose device calls may fail; reads the journal again, and
/// does the rest. Whether the deeds that went well were read, and all others went well then.
fn is_resumed<D: LeaseDisk>(
    alloc: Global,
    journal: &mut Journal<D>,
    replay: &mut PlainReplay,
) -> Result<bool, Fail>
    requires told { D.tells }
    requires read { journal.old.unread ≡ false }
    requires settled { IsSettled D.seen D.may_leave journal.old replay.old }
{
    let done = act_all(alloc, journal, replay, &RUN)?;
    let Some(left) = read_again(alloc, journal, replay)? else {
        return Ok(false);
    };
    let rest = rest_after(done, &left);
    Ok(is_at(done.saturating_add(1), &left) && act_all(alloc, journal, replay, rest)? == rest.len())
}

/// The same with an opening at `m`, which is made again where it fails.
fn is_mended<D: LeaseDisk + Drop>(
    alloc: Global,
    pair: DiskPair<D>,
    m: Moment,
    replay: &mut PlainReplay,
) -> Result<bool, Fail>
    requires told { D.tells }
{
    match Journal::recover(alloc, pair, m, replay) {
        Ok((mut journal, _found)) => is_resumed(alloc, &mut journal, replay),
        Err(unopened) => {
            let (_pair, _seen, done) = run(alloc, unopened.pair, m.get(), &RUN)?;
            Ok(done > RUN.len())
        }
    }
}

/// A blank pair of which this device call of a side fails.
fn failing(alloc: Global, fails_b: bool, call: u64) -> Result<DiskPair<MemoryDisk>, Fail> {
    let mut pair = blank(alloc)?;
    if fails_b {
        pair.b.fail_at(alloc, call)?;
    } else {
        pair.a.fail_at(alloc, call)?;
    }
    Ok(pair)
}

/// Whether the run goes on after a fault of this device call.
fn goes_on(alloc: Global, fails_b: bool, call: u64) -> Result<bool, Fail> {
    let m = moment(1000)?;
    let pair = failing(alloc, fails_b, call)?;
    is_mended(alloc, pair, m, &mut PlainReplay::new(alloc))
}

#[test]
fn faults(rt: HostRuntime) -> Result<(), Fail> {
    for fails_b in [false, true] {
        for call in 0..120 {
            let goes_on = goes_on(rt.alloc(), fails_b, call)?;
            assert!(rt; goes_on, "side b {fails_b}, call {call}");
        }
    }
    Ok(())
}
