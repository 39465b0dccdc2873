//! A dump of journals in memory of which a device call fails.

use crate::disks::{NEVER, pair, three, written};
use crate::opening::LEASED;
use journal_dump::{DumpFault, dump};
use lease_disk::{DiskPair, LeaseDisk, MemoryDisk};
use pcp_base::{Address, External, Memory};
use pcp_io::MemorySink;
use std::alloc::Global;

// An open side with another format.
static DAMAGED: &[u8] = b"\x01PCPJ\x03\0\0\0\0\0\0\0\0\0\0\0";

fn external(last: u8) -> External {
    External {
        address: Address::v4(192, 0, 2, last),
        low: 1024,
        high: 65_535,
    }
}

// A journal with leases, a blank one of which the next device call of side b fails, and a damaged one.
fn pairs(alloc: Global) -> Result<Vec<DiskPair<MemoryDisk>>, Memory> {
    three(
        alloc,
        pair(written(alloc, &LEASED, NEVER), written(alloc, &[], NEVER)),
        pair(written(alloc, &[], NEVER), written(alloc, &[], 2)),
        pair(written(alloc, DAMAGED, NEVER), written(alloc, &[], NEVER)),
    )
}

// Whether the disk of the second of three pairs fails a dump, one for each of three external
// addresses, and nothing is put out.
fn is_refused<D: LeaseDisk>(alloc: Global, pairs: &mut [DiskPair<D>]) -> Result<bool, Memory> {
    let mut sink = MemorySink::new(alloc, 4_096)?;
    if pairs.len() != 3 {
        return Ok(false);
    }
    let externals = [external(1), external(2), external(3)];
    let done = dump(alloc, &externals, pairs, &mut sink);
    Ok(done == Err(DumpFault::Disk(1)) && sink.held().is_empty())
}

#[test]
fn faults_leave_the_sink_as_it_is(rt: HostRuntime) -> Result<(), Memory> {
    let mut pairs = pairs(rt.alloc())?;
    assert!(rt; is_refused(rt.alloc(), &mut pairs) == Ok(true));
    Ok(())
}
