//! The append of a lease, of which each device call in turn is the last one, octet by octet.

use crate::acts::{opened, run};
use crate::deeds::{LEASES, Seen};
use crate::disks::{blank, hold, images, pair_with};
use crate::octets::{LEASED, LEASING};
use lease_disk::{DiskPair, LeaseDisk, MemoryDisk};
use std::alloc::Global;
use std::test::Fail;

/// Where the gate of the lease's frame stands.
const GATE: usize = 58;

/// A journal that is left: how many of the octets are there, what the gate is, whether those behind it
/// are torn, and how many leases that makes.
#[derive(Clone, Copy)]
struct Left(usize, u8, bool, usize);

// The three images after a stop before the frame's write, after it, after its sync, after the gate's
// write, and after the gate's sync.
static IMAGES: [[Left; 3]; 5] = [
    [
        Left(59, 0x00, false, 0),
        Left(59, 0x00, false, 0),
        Left(59, 0x00, false, 0),
    ],
    [
        Left(59, 0x00, false, 0),
        Left(125, 0x00, false, 0),
        Left(125, 0x00, true, 0),
    ],
    [
        Left(125, 0x00, false, 0),
        Left(125, 0x00, false, 0),
        Left(125, 0x00, false, 0),
    ],
    [
        Left(125, 0x00, false, 0),
        Left(125, 0x01, false, 1),
        Left(125, 0xff, false, 0),
    ],
    [
        Left(125, 0x01, false, 1),
        Left(125, 0x01, false, 1),
        Left(125, 0x01, false, 1),
    ],
];

/// The octets of a journal that is left.
fn octets_of(alloc: Global, left: &Left) -> Result<Vec<u8>, Fail> {
    let Left(size, gate, torn, _leases) = *left;
    let mut octets = LEASED.to_vec(alloc)?;
    if torn {
        octets.truncate(GATE + 1);
    }
    octets.resize(size, 0xff)?;
    if let Some(octet) = octets.get_mut(GATE) {
        *octet = gate;
    }
    Ok(octets)
}

/// Leases a port where this device call of side a is the last one. The pair, and how many of the
/// opening, its Renumber and the lease went well.
fn leased(alloc: Global, call: u64) -> Result<(DiskPair<MemoryDisk>, usize), Fail> {
    let mut pair = blank(alloc)?;
    pair.a.stop_at(call);
    let (pair, _seen, done) = run(alloc, pair, 1000, &LEASING)?;
    Ok((pair, done))
}

/// The first device call of the lease.
fn first_call(alloc: Global) -> Result<u64, Fail> {
    for call in 0..200 {
        if leased(alloc, call)?.1 == 2 {
            return Ok(call);
        }
    }
    Err("no call".into())
}

/// Whether an opening at 1500 finds so many leases.
fn has<D: LeaseDisk + Drop>(alloc: Global, pair: DiskPair<D>, leases: usize) -> Result<bool, Fail>
    requires told { D.tells }
{
    let seen = opened(alloc, pair, 1500)?;
    Ok(seen.is_some() && seen.as_ref() == LEASES.get(leases))
}

/// Whether the pair holds these octets on side a alone, and so many leases.
fn is_image<D: LeaseDisk + Drop>(
    alloc: Global,
    pair: DiskPair<D>,
    octets: &[u8],
    leases: usize,
) -> Result<bool, Fail>
    requires told { D.tells }
{
    let mut pair = pair;
    Ok(hold(&mut pair, octets, &[]) && has(alloc, pair, leases)?)
}

/// Whether this is left at this choice.
fn is_left(
    alloc: Global,
    pair: &DiskPair<MemoryDisk>,
    choice: u8,
    left: &Left,
) -> Result<bool, Fail> {
    let octets = octets_of(alloc, left)?;
    is_image(alloc, images(alloc, pair, choice)?, &octets, left.3)
}

/// The same at each choice.
fn are_left(alloc: Global, call: u64, left: &[Left; 3]) -> Result<bool, Fail> {
    let (pair, _done) = leased(alloc, call)?;
    for (choice, left) in left.iter().enumerate() {
        if !is_left(alloc, &pair, choice as u8, left)? {
            return Ok(false);
        }
    }
    Ok(true)
}

/// Whether so many leases stand behind this gate.
fn stand_behind(alloc: Global, gate: u8, leases: usize) -> Result<bool, Fail> {
    let octets = octets_of(alloc, &Left(125, gate, false, 0))?;
    has(alloc, pair_with(alloc, &octets, &[])?, leases)
}

#[test]
fn a_stopped_lease_leaves_these_images(rt: HostRuntime) -> Result<(), Fail> {
    let alloc = rt.alloc();
    let first = first_call(alloc)?;
    for (number, images) in IMAGES.iter().enumerate() {
        let left = are_left(alloc, first.saturating_add(number as u64), images)?;
        assert!(rt; left, "{number}");
    }
    Ok(())
}

#[test]
fn a_lease_stands_behind_its_gate(rt: HostRuntime) -> Result<(), Fail> {
    for gate in 0..=0xff {
        let stand = stand_behind(rt.alloc(), gate, usize::from(gate == 0x01))?;
        assert!(rt; stand, "{gate}");
    }
    Ok(())
}
