//! How long sides may be, and get.

use crate::acts::{Step, Went};
use crate::doings::{done_of, run};
use crate::rows::LEASE;
use crate::sides::{NOTHING, pair_of};
use Step::Renewed;
use lease_disk::{DiskPair, LeaseDisk, MemoryDisk};
use pcp_base::Failed;
use shard_book::BookFault;
use std::alloc::Global;
use std::test::Fail;

/// Opens a book on sides of which the first has this room, and leases at 1010. Whether it was
/// opened, and what came of the last call.
fn with_room(alloc: Global, room: u64) -> Result<(bool, Went), Fail> {
    let pair = DiskPair {
        a: MemoryDisk::new(alloc, room)?,
        b: MemoryDisk::new(alloc, 4096)?,
    };
    let done = done_of(alloc, pair, 1000, &LEASE)?;
    Ok((done.found.is_some(), done.went))
}

#[test]
fn rooms(rt: HostRuntime) -> Result<(), Fail> {
    let refused = Went::Refused(BookFault::Disk);
    let rows = [
        (28, (false, refused)),
        (40, (false, refused)),
        (70, (true, refused)),
        (4096, (true, Went::AsSaid)),
    ];
    for (room, came) in rows {
        assert!(rt; with_room(rt.alloc(), room)? == came, "room {room}");
    }
    Ok(())
}

fn lengths<D: LeaseDisk>(pair: &mut DiskPair<D>) -> Result<(u64, u64), Failed> {
    Ok((pair.a.len()?, pair.b.len()?))
}

/// The pair after a lease at 1010 and so many batches of renewals.
fn renewed<D: LeaseDisk + Drop>(
    alloc: Global,
    pair: DiskPair<D>,
    batches: u16,
) -> Result<DiskPair<D>, Fail> {
    let (done, pair) = run(alloc, pair, 1000, &[LEASE[0], (1010, Renewed(batches))])?;
    if done.went != Went::AsSaid {
        return Err("a batch is refused".into());
    }
    Ok(pair)
}

/// How long the sides are then, and once they are opened again at 1500.
fn lengths_after<D: LeaseDisk + Drop>(
    alloc: Global,
    pair: DiskPair<D>,
    batches: u16,
) -> Result<[(u64, u64); 2], Fail> {
    let mut pair = renewed(alloc, pair, batches)?;
    let before = lengths(&mut pair)?;
    let (_done, mut pair) = run(alloc, pair, 1500, &[])?;
    Ok([before, lengths(&mut pair)?])
}

// The side is one octet longer than may be before the last batch.
#[test]
fn a_long_side_is_compacted(rt: HostRuntime) -> Result<(), Fail> {
    let alloc = rt.alloc();
    let [before, _opened] = lengths_after(alloc, pair_of(alloc, NOTHING, NOTHING)?, 1070)?;
    assert!(rt; before == (1, 1105));
    Ok(())
}

#[test]
fn a_shorter_one_is_compacted_at_its_opening(rt: HostRuntime) -> Result<(), Fail> {
    let alloc = rt.alloc();
    let lengths = lengths_after(alloc, pair_of(alloc, NOTHING, NOTHING)?, 1069)?;
    assert!(rt; lengths == [(1_048_814, 0), (1, 124)]);
    Ok(())
}
