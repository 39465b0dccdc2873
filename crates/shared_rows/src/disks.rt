//! Pairs of disks in memory.

use lease_disk::{DiskPair, MemoryDisk};
use pcp_base::Memory;
use std::alloc::Global;

/// A number that no call has.
pub(crate) const NEVER: u64 = u64::MAX;

const ROOM: u64 = 1 << 24;

/// A disk that holds nothing, of which a device call fails.
fn blank(alloc: Global, failing: u64) -> Result<MemoryDisk, Memory> {
    let mut disk = MemoryDisk::new(alloc, ROOM)?;
    disk.fail_at(alloc, failing)?;
    Ok(disk)
}

/// So many blank pairs. Of disk a of each this device call fails.
pub(crate) fn pairs(
    alloc: Global,
    count: u32,
    failing: u64,
) -> Result<Vec<DiskPair<MemoryDisk>>, Memory> {
    let mut pairs = Vec::new(alloc);
    for _ in 0..count {
        pairs.push(DiskPair {
            a: blank(alloc, failing)?,
            b: blank(alloc, NEVER)?,
        })?;
    }
    Ok(pairs)
}
