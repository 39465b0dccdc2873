//! Pairs of disks in memory.
ghost use Rattle.std.specs.Prelude.{◌≡◌, ◌+◌, length, IfOk, OnOk};

use lease_disk::{DiskPair, LeaseDisk, MemoryDisk};
use pcp_base::{Failed, Memory};
use std::alloc::Global;

/// A number that no call has.
pub(crate) const NEVER: u64 = u64::MAX;

/// A disk of this room that holds nothing, of which a device call fails.
pub(crate) fn blank(alloc: Global, room: u64, failing: u64) -> Result<MemoryDisk, Memory> {
    let mut disk = MemoryDisk::new(alloc, room)?;
    disk.fail_at(alloc, failing)?;
    Ok(disk)
}

fn write<D: LeaseDisk>(disk: &mut D, octets: &[u8]) -> Result<(), Failed> {
    disk.write_at(0, octets)?;
    disk.sync()
}

/// A disk that holds these octets, of which a device call fails. It was written and synced.
pub(crate) fn written(alloc: Global, octets: &[u8], failing: u64) -> Result<MemoryDisk, Memory> {
    let mut disk = blank(alloc, 4_096, failing)?;
    if write(&mut disk, octets).is_err() {
        return Err(Memory);
    }
    Ok(disk)
}

pub(crate) fn pair<D: Drop>(
    a: Result<D, Memory>,
    b: Result<D, Memory>,
) -> Result<DiskPair<D>, Memory> {
    Ok(DiskPair { a: a?, b: b? })
}

fn push<T: Drop>(items: &mut Vec<T>, item: Result<T, Memory>) -> Result<(), Memory>
    ensures { OnOk result (length items.new.items ≡ length items.old.items + 1) }
{
    items.push(item?)?;
    Ok(())
}

pub(crate) fn one<T: Drop>(alloc: Global, first: Result<T, Memory>) -> Result<Vec<T>, Memory>
    ensures { IfOk result (λ items. length items.items ≡ 1) }
{
    let mut items = Vec::new(alloc);
    push(&mut items, first)?;
    Ok(items)
}

pub(crate) fn two<T: Drop>(
    alloc: Global,
    first: Result<T, Memory>,
    second: Result<T, Memory>,
) -> Result<Vec<T>, Memory>
    ensures { IfOk result (λ items. length items.items ≡ 2) }
{
    let mut items = one(alloc, first)?;
    push(&mut items, second)?;
    Ok(items)
}

pub(crate) fn three<T: Drop>(
    alloc: Global,
    first: Result<T, Memory>,
    second: Result<T, Memory>,
    third: Result<T, Memory>,
) -> Result<Vec<T>, Memory>
    ensures { IfOk result (λ items. length items.items ≡ 3) }
{
    let mut items = two(alloc, first, second)?;
    push(&mut items, third)?;
    Ok(items)
}
