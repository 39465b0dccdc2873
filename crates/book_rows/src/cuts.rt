//! A lease and openings that are cut at a device call: what they leave, and what an opening then finds.

use crate::acts::{Seen, Went};
use crate::doings::{Done, done_of, run};
use crate::octets::{COMPACTED, LEASED};
use crate::rows::{GOES_ON, LEASE};
use crate::sides::{NOTHING, Side, is_closed, stopped, stopping};
use lease_disk::{DiskPair, LeaseDisk, MemoryDisk};
use shard_book::Found;
use std::alloc::Global;
use std::test::Fail;

/// How many device calls of side a there are until a lease at 1010 is answered.
fn calls_until_leased(alloc: Global) -> Result<u64, Fail> {
    for call in 0..100 {
        let pair = stopping(alloc, NOTHING, NOTHING, false, call)?;
        if done_of(alloc, pair, 1000, &LEASE)?.went == Went::AsSaid {
            return Ok(call);
        }
    }
    Err("no lease is answered".into())
}

/// Whether so many leases stand in a book that is opened at 1500 and is asked then, where the epoch
/// is 500.
fn stand_at_1500<D: LeaseDisk + Drop>(
    alloc: Global,
    pair: DiskPair<D>,
    leases: u32,
) -> Result<bool, Fail> {
    match done_of(alloc, pair, 1500, &GOES_ON)?.stands {
        Some(stands) => Ok(stands.2 == leases),
        None => Ok(false),
    }
}

/// Whether so many leases stand in each image.
fn are_leases(alloc: Global, pair: &DiskPair<MemoryDisk>, leases: &[u32; 3]) -> Result<bool, Fail> {
    for (choice, count) in leases.iter().enumerate() {
        if !stand_at_1500(alloc, stopped(alloc, pair, choice as u8)?, *count)? {
            return Ok(false);
        }
    }
    Ok(true)
}

/// Whether that is so after a lease at 1010 where this device call of side a is the last one.
fn are_left(alloc: Global, call: u64, leases: &[u32; 3]) -> Result<bool, Fail> {
    let pair = stopping(alloc, NOTHING, NOTHING, false, call)?;
    are_leases(alloc, &run(alloc, pair, 1000, &LEASE)?.1, leases)
}

#[test]
fn cut_calls(rt: HostRuntime) -> Result<(), Fail> {
    let alloc = rt.alloc();
    let calls = calls_until_leased(alloc)?;
    // after the frame's write, after its sync, in the gate's write, and after the gate's sync
    let rows = [
        (3, [0, 0, 0]),
        (2, [0, 0, 0]),
        (1, [0, 1, 0]),
        (0, [1, 1, 1]),
    ];
    for (left_out, leases) in &rows {
        let call = calls.saturating_sub(*left_out);
        let left = are_left(alloc, call, leases)?;
        assert!(rt; left, "{left_out} calls are left out");
    }
    Ok(())
}

/// What an opening at 1500 leaves durable, where it stops at this device call of a side.
fn opened_until(
    alloc: Global,
    a: Side,
    b: Side,
    stops_b: bool,
    call: u64,
) -> Result<DiskPair<MemoryDisk>, Fail> {
    let pair = stopping(alloc, a, b, stops_b, call)?;
    let (_done, pair) = run(alloc, pair, 1500, &[])?;
    stopped(alloc, &pair, 0)
}

/// What comes of an opening at 1600, if the gate of side a is closed.
fn opened_closed<D: LeaseDisk + Drop>(
    alloc: Global,
    pair: DiskPair<D>,
) -> Result<Option<Done>, Fail> {
    let mut pair = pair;
    if !is_closed(&mut pair.a)? {
        return Ok(None);
    }
    Ok(Some(done_of(alloc, pair, 1600, &[])?))
}

/// What comes of an opening at 1600 of what one at 1500 leaves durable, where that is cut as soon as
/// the gate of side a is closed: it stops at a device call of that side, or of the other one.
fn cut_when_closed(alloc: Global, a: Side, b: Side, stops_b: bool) -> Result<Done, Fail> {
    for call in 0..100 {
        let left = opened_until(alloc, a, b, stops_b, call)?;
        if let Some(done) = opened_closed(alloc, left)? {
            return Ok(done);
        }
    }
    Err("no gate is closed".into())
}

/// Whether an opening that is cut as soon as the gate of side a is closed leaves what is found so,
/// and begins anew at 1600.
fn begins_anew(alloc: Global, a: Side, b: Side, stops_b: bool, found: Found) -> Result<bool, Fail> {
    let done = cut_when_closed(alloc, a, b, stops_b)?;
    Ok(done.found == Some(found) && done.stands == Some(Seen(1600, 1600, 0, 0, 0)))
}

#[test]
fn cut_openings(rt: HostRuntime) -> Result<(), Fail> {
    let alloc = rt.alloc();
    let damaged = Side(&LEASED, 88, 0x03);
    assert!(rt; begins_anew(alloc, damaged, NOTHING, false, Found::Blank)?);
    let (a, b) = (Side(&LEASED, 88, 0), Side(&COMPACTED, 87, 0x03));
    assert!(rt; begins_anew(alloc, a, b, true, Found::Damaged)?);
    Ok(())
}
