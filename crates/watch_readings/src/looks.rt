//! What is told of a journal that was looked at.
ghost use Rattle.std.specs.Prelude.{◌≡◌, ⊤, IfOk};
ghost use Rattle.lease_disk.specs.Steps.{octets_after};
ghost use Rattle.watch_readings.specs.Copies.{sides_of};
ghost use Rattle.watch_readings.specs.Readings.{IsToldAs, IsToldBy};

use crate::copies::{SideLook, sides_of};
use crate::readings::{Place, Told, told_in, unsettled_told};
use lease_disk::{DiskPair, LeaseDisk, MemoryDisk};
use pcp_base::Memory;
use std::alloc::Global;

/// A disk that holds these octets.
fn disk_of(alloc: Global, octets: &[u8]) -> Result<MemoryDisk, Memory>
    ensures { IfOk result (λ disk. octets_after disk.steps ≡ octets.now) }
{
    let mut disk = MemoryDisk::new(alloc, octets.len() as u64)?;
    // no call of it is named to fail, and it has room
    match disk.write_at(0, octets) {
        Ok(()) => Ok(disk),
        Err(_) => Err(Memory),
    }
}

/// What is told of a journal whose sides were looked at beside whoever writes them: its live leases, or
/// why there are none. What it is by is what both sides held at a moment while they were copied.
pub fn told_of(alloc: Global, place: &Place, a: &SideLook, b: &SideLook) -> Result<Told, Memory>
    ensures { IfOk result (IsToldBy (sides_of a.now b.now)
        place.now.external place.now.shard place.now.time) }
{
    match sides_of(alloc, a, b)? {
        Some(sides) => told_of_octets(alloc, place, sides.0.items(), sides.1.items()),
        None => unsettled_told(alloc, place),
    }
}

/// The same where both sides hold these octets.
fn told_of_octets(alloc: Global, place: &Place, a: &[u8], b: &[u8]) -> Result<Told, Memory>
    ensures { IfOk result (IsToldAs ⊤ a.now b.now
        place.now.external place.now.shard place.now.time) }
{
    let disk_a = disk_of(alloc, a)?;
    let disk_b = disk_of(alloc, b)?;
    let mut pair = DiskPair {
        a: disk_a,
        b: disk_b,
    };
    match told_in(alloc, place, &mut pair) {
        Ok(told) => Ok(told),
        // disks in memory of which no call is to fail fail only for want of memory
        Err(_) => Err(Memory),
    }
}
