//! Commands over journals in memory.
use crate::in_memory::{Ended, Failing, run_in_memory};
use lease_disk::{DiskPair, LeaseDisk, MemoryDisk};
use pcp_base::{Failed, MOST_EXTERNALS, Memory};
use pcp_server::Status;
use std::alloc::Global;

/// A command: its words with a space between each two, what it reads, how it ends and what it puts
/// out.
pub(crate) struct Step {
    pub(crate) words: &'static str,
    pub(crate) config: &'static str,
    pub(crate) script: &'static str,
    pub(crate) status: Status,
    pub(crate) output: &'static str,
}

/// A number that no call has.
pub(crate) const NEVER: u64 = 1_000_000;

/// No read and no write fails.
pub(crate) const NO_FAULT: Failing = Failing {
    read: NEVER,
    write: NEVER,
};

fn words_of(alloc: Global, line: &str) -> Result<Vec<String>, Memory> {
    let mut words = Vec::new(alloc);
    for word in line.split(' ') {
        words.push(String::from_str(alloc, word)?)?;
    }
    Ok(words)
}

/// Runs a command over these journals.
pub(crate) fn run<D: LeaseDisk + Drop>(
    alloc: Global,
    step: &Step,
    pairs: Result<Vec<DiskPair<D>>, Memory>,
    failing: Failing,
) -> Result<Ended<D>, Memory> {
    let pairs = pairs?;
    if pairs.len() < MOST_EXTERNALS {
        return Err(Memory);
    }
    let words = words_of(alloc, step.words)?;
    let config = step.config.as_bytes().to_vec(alloc)?;
    let script = step.script.as_bytes().to_vec(alloc)?;
    run_in_memory(alloc, &words, config, script, pairs, failing)
}

fn write<D: LeaseDisk>(disk: &mut D, octets: &[u8]) -> Result<(), Failed> {
    disk.write_at(0, octets)?;
    disk.sync()
}

/// The disk after these octets were written at its beginning and synced.
pub(crate) fn holding<D: LeaseDisk + Drop>(
    disk: Result<D, Memory>,
    octets: &[u8],
) -> Result<D, Memory> {
    let mut disk = disk?;
    if write(&mut disk, octets).is_err() {
        return Err(Memory);
    }
    Ok(disk)
}

/// The disk, of which this call fails.
pub(crate) fn failing(
    alloc: Global,
    disk: Result<MemoryDisk, Memory>,
    call: u64,
) -> Result<MemoryDisk, Memory> {
    let mut disk = disk?;
    disk.fail_at(alloc, call)?;
    Ok(disk)
}

/// The disk, of which the calls from this one on fail.
pub(crate) fn stopping(disk: Result<MemoryDisk, Memory>, call: u64) -> Result<MemoryDisk, Memory> {
    let mut disk = disk?;
    disk.stop_at(call);
    Ok(disk)
}

pub(crate) fn pair<D: Drop>(
    a: Result<D, Memory>,
    b: Result<D, Memory>,
) -> Result<DiskPair<D>, Memory> {
    Ok(DiskPair { a: a?, b: b? })
}

/// An image of both sides.
pub(crate) fn image(
    alloc: Global,
    pair: &DiskPair<MemoryDisk>,
    choice: u8,
) -> Result<DiskPair<MemoryDisk>, Memory> {
    self::pair(pair.a.stopped(alloc, choice), pair.b.stopped(alloc, choice))
}

fn push<T: Drop>(items: &mut Vec<T>, item: Result<T, Memory>) -> Result<(), Memory> {
    items.push(item?)?;
    Ok(())
}

fn fill(alloc: Global, pairs: &mut Vec<DiskPair<MemoryDisk>>) -> Result<(), Memory> {
    for _ in 1..MOST_EXTERNALS {
        let a = MemoryDisk::new(alloc, 4_096);
        push(pairs, pair(a, MemoryDisk::new(alloc, 4_096)))?;
    }
    Ok(())
}

/// Blank journals behind this pair.
pub(crate) fn pairs_behind(
    alloc: Global,
    first: Result<DiskPair<MemoryDisk>, Memory>,
) -> Result<Vec<DiskPair<MemoryDisk>>, Memory> {
    let mut pairs = Vec::new(alloc);
    push(&mut pairs, first)?;
    fill(alloc, &mut pairs)?;
    Ok(pairs)
}
