//! Pairs of disks in memory, and the octets that they hold.

use lease_disk::{DiskPair, LeaseDisk, MemoryDisk};
use pcp_base::Failed;
use std::alloc::{AllocError, Global};
use std::test::Fail;

/// A side: its octets, and the place of the one that is changed by a mask.
#[derive(Clone, Copy)]
pub(crate) struct Side(pub(crate) &'static [u8], pub(crate) usize, pub(crate) u8);

/// A pair without an octet.
pub(crate) fn blank(alloc: Global) -> Result<DiskPair<MemoryDisk>, Fail> {
    Ok(DiskPair {
        a: MemoryDisk::new(alloc, 10_000)?,
        b: MemoryDisk::new(alloc, 10_000)?,
    })
}

/// Writes these octets, and syncs them.
fn fill<D: LeaseDisk>(disk: &mut D, octets: &[u8]) -> Result<(), Failed> {
    disk.write_at(0, octets)?;
    disk.sync()
}

/// A pair whose sides hold these octets, synced.
pub(crate) fn pair_with(alloc: Global, a: &[u8], b: &[u8]) -> Result<DiskPair<MemoryDisk>, Fail> {
    let mut pair = blank(alloc)?;
    fill(&mut pair.a, a)?;
    fill(&mut pair.b, b)?;
    Ok(pair)
}

/// The octets of a side, as they are changed.
fn octets_of(alloc: Global, side: Side) -> Result<Vec<u8>, AllocError> {
    let Side(octets, place, mask) = side;
    let mut octets = octets.to_vec(alloc)?;
    if let Some(octet) = octets.get_mut(place) {
        *octet ^= mask;
    }
    Ok(octets)
}

/// A pair of these sides, synced.
pub(crate) fn pair_of(alloc: Global, a: Side, b: Side) -> Result<DiskPair<MemoryDisk>, Fail> {
    let a = octets_of(alloc, a)?;
    let b = octets_of(alloc, b)?;
    pair_with(alloc, &a, &b)
}

/// Lets this device call of a side, and all later ones, fail.
pub(crate) fn stop_at(pair: &mut DiskPair<MemoryDisk>, stops_b: bool, call: u64) {
    if stops_b {
        pair.b.stop_at(call);
    } else {
        pair.a.stop_at(call);
    }
}

/// The images of this choice.
pub(crate) fn images(
    alloc: Global,
    pair: &DiskPair<MemoryDisk>,
    choice: u8,
) -> Result<DiskPair<MemoryDisk>, Fail> {
    Ok(DiskPair {
        a: pair.a.stopped(alloc, choice)?,
        b: pair.b.stopped(alloc, choice)?,
    })
}

/// Whether a disk holds these octets, of which there are fewer than 200.
pub(crate) fn holds<D: LeaseDisk>(disk: &mut D, octets: &[u8]) -> bool {
    let mut piece = [0; 200];
    match disk.read_at(0, &mut piece) {
        Ok(count) => &piece[..count] == octets,
        Err(_) => false,
    }
}

/// Whether the sides hold these octets.
pub(crate) fn hold<D: LeaseDisk>(pair: &mut DiskPair<D>, a: &[u8], b: &[u8]) -> bool {
    holds(&mut pair.a, a) && holds(&mut pair.b, b)
}
