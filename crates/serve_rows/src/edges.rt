//! Disks, clocks, outboxes and links in memory.

use lease_disk::{DiskPair, MemoryDisk};
use pcp_base::{MOST_EXTERNALS, Memory};
use pcp_io::{MemoryLane, MemoryOutbox, StepClock};
use std::alloc::Global;

/// A number that no call has.
pub(crate) const NEVER: u64 = u64::MAX;

const ROOM: u64 = 1 << 16;

/// A pair of blank disks, of whose first side this device call fails.
fn pair(alloc: Global, failing: u64) -> Result<DiskPair<MemoryDisk>, Memory> {
    let mut a = MemoryDisk::new(alloc, ROOM)?;
    a.fail_at(alloc, failing)?;
    Ok(DiskPair {
        a,
        b: MemoryDisk::new(alloc, ROOM)?,
    })
}

/// Pairs of blank disks for all external addresses that may be. The first device call of the one at
/// this place fails.
pub(crate) fn pairs_failing(
    alloc: Global,
    failing: usize,
) -> Result<Vec<DiskPair<MemoryDisk>>, Memory> {
    let mut pairs = Vec::new(alloc);
    for place in 0..MOST_EXTERNALS {
        let call = if place == failing { 0 } else { NEVER };
        pairs.push(pair(alloc, call)?)?;
    }
    Ok(pairs)
}

/// Pairs of blank disks for all external addresses that may be.
pub(crate) fn blank_pairs(alloc: Global) -> Result<Vec<DiskPair<MemoryDisk>>, Memory> {
    pairs_failing(alloc, MOST_EXTERNALS)
}

/// The milliseconds that the clocks give: those of workers and lanes, and the dispatcher's.
#[derive(Clone, Copy)]
pub(crate) struct Times {
    pub at: u32,
    pub dispatching: [u32; 5],
}

fn clock_at(alloc: Global, at: u32) -> Result<StepClock, Memory> {
    StepClock::new(alloc, Vec::from_array(alloc, [u64::from(at)])?)
}

fn dispatching_clock(alloc: Global, times: &[u32; 5]) -> Result<StepClock, Memory> {
    let [start, begun, first, second, later] = *times;
    let times = [
        u64::from(start),
        u64::from(begun),
        u64::from(first),
        u64::from(second),
        u64::from(later),
    ];
    StepClock::new(alloc, Vec::from_array(alloc, times)?)
}

/// The clocks of the workers, of the lanes and of the dispatcher.
pub(crate) fn clocks(alloc: Global, times: &Times) -> Result<Vec<StepClock>, Memory> {
    let mut clocks = Vec::new(alloc);
    for _ in 0..2 * MOST_EXTERNALS {
        clocks.push(clock_at(alloc, times.at)?)?;
    }
    clocks.push(dispatching_clock(alloc, &times.dispatching)?)?;
    Ok(clocks)
}

/// An outbox for each external address that may be, and one for the dispatcher.
pub(crate) fn outboxes(alloc: Global) -> Result<Vec<MemoryOutbox>, Memory> {
    let mut outs = Vec::new(alloc);
    for _ in 0..MOST_EXTERNALS + 1 {
        outs.push(MemoryOutbox::new(alloc, ROOM)?)?;
    }
    Ok(outs)
}

/// Links that ask nothing.
pub(crate) fn silent_links(alloc: Global) -> Result<Vec<MemoryLane>, Memory> {
    let mut links = Vec::new(alloc);
    for _ in 0..MOST_EXTERNALS {
        links.push(MemoryLane::new(alloc, Vec::new(alloc))?)?;
    }
    Ok(links)
}
