//! Disks, clocks, outboxes and links in memory.

use lease_disk::{DiskPair, MemoryDisk};
use pcp_base::{MOST_EXTERNALS, Memory};
use pcp_io::{MemoryLane, MemoryOutbox, StepClock};
use std::alloc::Global;

const ROOM: u64 = 1 << 24;

/// So many pairs of blank disks.
pub(crate) fn disks(alloc: Global, count: usize) -> Result<Vec<DiskPair<MemoryDisk>>, Memory> {
    let mut disks = Vec::new(alloc);
    for _ in 0..count {
        disks.push(DiskPair {
            a: MemoryDisk::new(alloc, ROOM)?,
            b: MemoryDisk::new(alloc, ROOM)?,
        })?;
    }
    Ok(disks)
}

/// A clock that stands still.
pub(crate) fn still_clock(alloc: Global) -> Result<StepClock, Memory> {
    let times = Vec::from_array(alloc, [1_000_000])?;
    StepClock::new(alloc, times)
}

/// So many clocks that stand still.
pub(crate) fn clocks(alloc: Global, count: usize) -> Result<Vec<StepClock>, Memory> {
    let mut clocks = Vec::new(alloc);
    for _ in 0..count {
        clocks.push(still_clock(alloc)?)?;
    }
    Ok(clocks)
}

/// An outbox for each external address that may be, and one for the dispatcher.
pub(crate) fn outboxes(alloc: Global) -> Result<Vec<MemoryOutbox>, Memory> {
    let mut outs = Vec::new(alloc);
    for _ in 0..MOST_EXTERNALS + 1 {
        outs.push(MemoryOutbox::new(alloc, ROOM)?)?;
    }
    Ok(outs)
}

/// Links that ask nothing.
pub(crate) fn silent_links(alloc: Global) -> Result<Vec<MemoryLane>, Memory> {
    let mut links = Vec::new(alloc);
    for _ in 0..MOST_EXTERNALS {
        links.push(MemoryLane::new(alloc, Vec::new(alloc))?)?;
    }
    Ok(links)
}
