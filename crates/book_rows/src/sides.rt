//! Sides of journals in memory.

use lease_disk::{DiskPair, LeaseDisk, MemoryDisk};
use pcp_base::Failed;
use std::alloc::Global;
use std::test::Fail;

/// The octets of a side, and the place of the one that is changed by a mask.
#[derive(Clone, Copy)]
pub(crate) struct Side(pub(crate) &'static [u8], pub(crate) usize, pub(crate) u8);

/// No octet.
pub(crate) static NOTHING: Side = Side(&[], 0, 0);

/// How many octets a side may have.
const ROOM: u64 = 2_000_000;

/// Writes the octets of a side.
fn fill<D: LeaseDisk>(disk: &mut D, side: Side) -> Result<(), Failed> {
    let Side(octets, place, mask) = side;
    disk.write_at(0, octets)?;
    if let Some(octet) = octets.get(place) {
        disk.write_at(place as u64, &[*octet ^ mask])?;
    }
    Ok(())
}

/// The disk of a side, synced. The device calls of this one are numbered anew.
fn disk_of(alloc: Global, side: Side) -> Result<MemoryDisk, Fail> {
    let mut disk = MemoryDisk::new(alloc, ROOM)?;
    fill(&mut disk, side)?;
    Ok(disk.stopped(alloc, 1)?)
}

/// The disks of two sides.
pub(crate) fn pair_of(alloc: Global, a: Side, b: Side) -> Result<DiskPair<MemoryDisk>, Fail> {
    Ok(DiskPair {
        a: disk_of(alloc, a)?,
        b: disk_of(alloc, b)?,
    })
}

/// What a crash may leave of both sides.
pub(crate) fn stopped(
    alloc: Global,
    pair: &DiskPair<MemoryDisk>,
    choice: u8,
) -> Result<DiskPair<MemoryDisk>, Fail> {
    Ok(DiskPair {
        a: pair.a.stopped(alloc, choice)?,
        b: pair.b.stopped(alloc, choice)?,
    })
}

/// The disks of two sides, of which this device call of one, and all its later ones, fail.
pub(crate) fn stopping(
    alloc: Global,
    a: Side,
    b: Side,
    stops_b: bool,
    call: u64,
) -> Result<DiskPair<MemoryDisk>, Fail> {
    let mut pair = pair_of(alloc, a, b)?;
    if stops_b {
        pair.b.stop_at(call);
    } else {
        pair.a.stop_at(call);
    }
    Ok(pair)
}

/// The disks of a side and a blank one, of which this device call of one fails.
pub(crate) fn failing(
    alloc: Global,
    a: Side,
    fails_b: bool,
    call: u64,
) -> Result<DiskPair<MemoryDisk>, Fail> {
    let mut pair = pair_of(alloc, a, NOTHING)?;
    if fails_b {
        pair.b.fail_at(alloc, call)?;
    } else {
        pair.a.fail_at(alloc, call)?;
    }
    Ok(pair)
}

/// Whether a side is as long as these octets, of which there are at most 200, and has them.
pub(crate) fn holds<D: LeaseDisk>(disk: &mut D, octets: &[u8]) -> Result<bool, Failed> {
    let mut piece = [0; 200];
    let count = disk.read_at(0, &mut piece)?;
    Ok(&piece[..count] == octets)
}

/// Whether the gate of a side is a zero.
pub(crate) fn is_closed<D: LeaseDisk>(disk: &mut D) -> Result<bool, Failed> {
    let mut piece = [1; 1];
    let _count = disk.read_at(0, &mut piece)?;
    Ok(piece == [0])
}
