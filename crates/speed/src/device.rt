//! The device calls of records that are appended to a journal, and nothing else, to time `pcp load`
//! beside it: for each record a write of its octets, a sync, a write of the gate before it, one octet,
//! and a sync. The words are a path, a count of records, and how many octets a record has; the file at
//! the path is written anew, and removed. A line tells the count of records and of the octets that
//! were written.

use anyhow::{Context, bail};
use lease_disk::{FileDisk, LeaseDisk};
use pcp_base::Failed;
use std::fs;

/// A gate that is open.
static OPEN: [u8; 1] = [1];

/// Appends a record, with its gate at `place`.
fn append<D: LeaseDisk>(disk: &mut D, place: u64, record: &[u8]) -> Result<(), Failed> {
    disk.write_at(place.saturating_add(1), record)?;
    disk.sync()?;
    disk.write_at(place, &OPEN)?;
    disk.sync()
}

/// Appends so many records, and tells how many octets they have with their gates.
fn append_all<D: LeaseDisk>(disk: &mut D, records: u32, record: &[u8]) -> Result<u64, Failed> {
    let mut place = 0u64;
    for _ in 0..records {
        append(disk, place, record)?;
        place = place.saturating_add(1).saturating_add(record.len() as u64);
    }
    Ok(place)
}

/// Appends so many records of so many octets to a new file, which is removed.
fn append_to(rt: &HostRuntime, path: &str, records: u32, octets: u16) -> anyhow::Result<u64> {
    let record = vec![in rt.alloc(); 0u8; usize::from(octets)]?;
    let path_of_disk = String::from_str(rt.alloc(), path)?;
    let written = append_all(&mut FileDisk::new(rt, path_of_disk), records, &record)?;
    fs::remove_file(rt, path)?;
    Ok(written)
}

/// Appends the records that the words tell of.
pub(crate) fn run(rt: &HostRuntime, words: &[String]) -> anyhow::Result<()> {
    let [path, records, octets] = words else {
        bail!("a path, a count of records and a count of octets are wanted");
    };
    let records = records.parse::<u32>().context("reading the records")?;
    let octets = octets.parse::<u16>().context("reading the octets")?;
    println!(rt; "{records} {}", append_to(rt, path, records, octets)?)?;
    Ok(())
}
