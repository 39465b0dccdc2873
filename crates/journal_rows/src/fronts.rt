//! The octet that is written first to a side that takes over.

use crate::acts::run;
use crate::deeds::Deed;
use crate::disks::{Side, holds, pair_of, stop_at};
use crate::octets::LEASED;
use lease_disk::MemoryDisk;
use std::alloc::Global;
use std::test::Fail;

/// Side b before a compaction, and the place of that octet: the gate or, where that is shut, the one
/// behind it.
#[derive(Clone, Copy)]
struct Front(&'static [u8], usize);

static FRONTS: [Front; 4] = [
    Front(b"", 0),
    Front(b"\0", 1),
    Front(b"\xffPCPJ", 1),
    // an open gate in front of too few octets
    Front(b"\x01PCPJ", 0),
];

/// The octets with this one at this place.
fn with_octet(alloc: Global, octets: &[u8], place: usize, octet: u8) -> Result<Vec<u8>, Fail> {
    let mut copy = octets.to_vec(alloc)?;
    copy.resize(octets.len().max(place.saturating_add(1)), 0)?;
    if let Some(there) = copy.get_mut(place) {
        *there = octet;
    }
    Ok(copy)
}

/// Side b, which held these octets, after a compaction of the lease on side a, until its device call of
/// this number.
fn side_b(alloc: Global, b: &'static [u8], call: u64) -> Result<MemoryDisk, Fail> {
    let mut pair = pair_of(alloc, Side(&LEASED, 0, 0), Side(b, 0, 0))?;
    stop_at(&mut pair, true, call);
    let (pair, _seen, _done) = run(alloc, pair, 1500, &[(1010, Deed::Compacted)])?;
    Ok(pair.b)
}

/// Whether it holds these octets in the image of this choice.
fn is_left(
    alloc: Global,
    b: &'static [u8],
    call: u64,
    choice: u8,
    octets: &[u8],
) -> Result<bool, Fail> {
    let disk = side_b(alloc, b, call)?;
    Ok(holds(&mut disk.stopped(alloc, choice)?, octets))
}

/// The first device call before which side b was changed.
fn first_change(alloc: Global, b: &'static [u8]) -> Result<u64, Fail> {
    for call in 0..100 {
        if !is_left(alloc, b, call, 1, b)? {
            return Ok(call);
        }
    }
    Err("nothing is written".into())
}

/// Whether it is this octet that is written first: a read then gives a zero there, and where the
/// write is torn an `ff`.
fn is_written(alloc: Global, front: &Front) -> Result<bool, Fail> {
    let Front(b, place) = *front;
    let call = first_change(alloc, b)?;
    let zero = with_octet(alloc, b, place, 0)?;
    let other = with_octet(alloc, b, place, 0xff)?;
    Ok(is_left(alloc, b, call, 1, &zero)? && is_left(alloc, b, call, 2, &other)?)
}

#[test]
fn a_side_is_shut_before_it_is_filled(rt: HostRuntime) -> Result<(), Fail> {
    for (number, front) in FRONTS.iter().enumerate() {
        assert!(rt; is_written(rt.alloc(), front)?, "{number}");
    }
    Ok(())
}
