//! Tests: a journal that is looked at until it stays, and one that can't be read.
use crate::{Look, LookFault, MemoryLooks, WatchFault, run_watch};
use pcp_base::{Address, External, Moment, Octets};
use pcp_io::MemorySink;
use std::alloc::Global;
use std::test::Fail;
use watch_readings::{Front, SideLook};

const ROOM: u64 = 10_000;

const EXTERNAL: External = External {
    address: Address([0, 0, 0, 0, 0, 0, 0, 0, 0, 0, 0xff, 0xff, 192, 0, 2, 1]),
    low: 1024,
    high: 60_999,
};

// The front of a file without an octet.
fn front(alloc: Global, inode: u64) -> Front {
    Front {
        device: 1,
        inode,
        octets: Octets::of(Vec::new(alloc)),
    }
}

// An empty side, whose file is another one behind the look where it moves.
fn side(alloc: Global, moves: bool) -> SideLook {
    SideLook {
        before: front(alloc, 1),
        first: Octets::of(Vec::new(alloc)),
        second: Octets::of(Vec::new(alloc)),
        behind: front(alloc, if moves { 2 } else { 1 }),
    }
}

fn look(alloc: Global) -> Result<Look, LookFault> {
    let Some(time) = Moment::of(1_800_000_000) else {
        return Err(LookFault::File);
    };
    Ok(Look {
        time,
        a: side(alloc, false),
        b: side(alloc, true),
    })
}

// How a watch ends over a journal that moves at so many looks, and what it writes.
fn watched(alloc: Global, moves: usize) -> Result<(Result<(), WatchFault>, Vec<u8>), Fail> {
    let mut looks = Vec::new(alloc);
    for _ in 0..moves {
        looks.push(look(alloc))?;
    }
    let mut links = Vec::new(alloc);
    links.push(MemoryLooks::new(looks))?;
    let mut out = MemorySink::new(alloc, ROOM)?;
    let ended = run_watch(alloc, &[EXTERNAL], &mut links, &mut out);
    Ok((ended, out.held().to_vec(alloc)?))
}

#[test]
fn a_journal_is_looked_at_until_it_stays(rt: HostRuntime) -> Result<(), Fail> {
    let unsettled = br#"{"address":"192.0.2.1","moment":1800000000,"shard":0,"what":"unsettled"}
{"leases":0,"what":"ready"}
"#;
    let (ended, text) = watched(rt.alloc(), 60)?;
    assert!(rt; ended == Ok(()) && text.as_slice() == unsettled.as_slice());
    Ok(())
}

#[test]
fn a_journal_that_cannot_be_read_is_told_by_its_place(rt: HostRuntime) -> Result<(), Fail> {
    let (ended, text) = watched(rt.alloc(), 7)?;
    assert!(rt; ended == Err(WatchFault::File(0)) && text.is_empty());
    Ok(())
}
