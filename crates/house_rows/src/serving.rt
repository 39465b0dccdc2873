//! A house of one external address over disks in memory, with the octets of its replies.

use crate::configs::{begun, moment};
use crate::disks::{NEVER, blank, one, pair};
use lease_disk::{LeaseDisk, MemoryDisk};
use lease_house::{HouseFault, SoloHouse};
use pcp_base::{Address, Datagram, Memory, Octets};
use std::alloc::Global;
use std::test::Fail;

// A MAP request of 10.0.0.5 for its UDP port 5000, for an hour, and its reply at 10 seconds.
const REQUEST: &str = "0201000000000e1000000000000000000000ffff0a000005\
    000102030405060708090a0b110000001388000000000000000000000000ffff00000000";

const REPLY: &str = "0281000000000e100000000a000000000000000000000000\
    000102030405060708090a0b110000001388040000000000000000000000ffffc0000201";

// A datagram at a moment, and what it is told; nothing where it is silent.
struct Line {
    now: u32,
    request: &'static str,
    reply: &'static str,
}

static LINES: [Line; 8] = [
    Line {
        now: 1_010,
        request: "02",
        reply: "",
    },
    Line {
        now: 1_010,
        request: "0101",
        reply: "02810001000007080000000a000000000000000000000000",
    },
    Line {
        now: 1_010,
        request: REQUEST,
        reply: REPLY,
    },
    Line {
        now: 1_015,
        request: REQUEST,
        reply: "0281000000000e100000000f000000000000000000000000\
            000102030405060708090a0b110000001388040000000000000000000000ffffc0000201",
    },
    // with the shortest lifetime, at a moment that counts as 1015
    Line {
        now: 1_000,
        request: "020100000000007800000000000000000000ffff0a000005\
            000102030405060708090a0b110000001388000000000000000000000000ffff00000000",
        reply: "02810000000000780000000f000000000000000000000000\
            000102030405060708090a0b110000001388040000000000000000000000ffffc0000201",
    },
    // ANNOUNCE
    Line {
        now: 1_020,
        request: "020000000000000000000000000000000000ffff0a000005",
        reply: "028000000000000000000014000000000000000000000000",
    },
    // NAT-PMP: the external address, and the port of a lease that PCP made
    Line {
        now: 1_020,
        request: "0000",
        reply: "0080000000000014c0000201",
    },
    Line {
        now: 1_020,
        request: "000100001388000000000e10",
        reply: "00810002000000141388000000000000",
    },
];

/// A house over a blank pair, of which disk a fails at a call, at 1000; none where that call is one
/// of the opening.
fn house(alloc: Global, failing: u64) -> Result<Option<SoloHouse<MemoryDisk>>, Memory> {
    let sides = pair(blank(alloc, 4_096, failing), blank(alloc, 4_096, NEVER));
    begun(alloc, one(alloc, sides)?)
}

/// A request of 10.0.0.5 in these octets.
fn datagram(alloc: Global, request: &str) -> Result<Datagram, Fail> {
    Ok(Datagram {
        peer: Address::v4(10, 0, 0, 5),
        port: 40_000,
        door: 0,
        octets: Octets::of(hex::decode(alloc, request.as_bytes())?),
    })
}

/// What it is told at `now`.
fn told<D: LeaseDisk + Drop>(
    alloc: Global,
    house: &mut SoloHouse<D>,
    now: u32,
    request: &str,
) -> Result<Result<Option<Octets>, HouseFault>, Fail> {
    let datagram = datagram(alloc, request)?;
    Ok(house.serve(alloc, &datagram, moment(now)))
}

/// Whether these octets are told; none where they are empty.
fn is_told(
    alloc: Global,
    told: &Result<Option<Octets>, HouseFault>,
    reply: &str,
) -> Result<bool, Fail> {
    let reply = hex::decode(alloc, reply.as_bytes())?;
    Ok(match told {
        Ok(Some(octets)) => octets.items() == reply.as_slice(),
        Ok(None) => reply.is_empty(),
        Err(_) => false,
    })
}

/// Whether the request is told these octets at `now`.
fn is_answered<D: LeaseDisk + Drop>(
    alloc: Global,
    house: &mut SoloHouse<D>,
    now: u32,
    request: &str,
    reply: &str,
) -> Result<bool, Fail> {
    let told = told(alloc, house, now, request)?;
    is_told(alloc, &told, reply)
}

/// Whether so many leases are lost at `now`.
fn loses<D: LeaseDisk + Drop>(
    alloc: Global,
    house: &mut SoloHouse<D>,
    now: u32,
    count: u32,
) -> bool {
    if house.config().externals.items().is_empty() {
        return false;
    }
    house.lose(alloc, 0, moment(now)) == Ok(count)
}

// It is told 3 seconds after its leases were lost.
const AFTER_LOSS: &str = "028000000000000000000003000000000000000000000000";

const ANNOUNCE: &str = "020000000000000000000000000000000000ffff0a000005";

/// Whether the one lease is lost, and none is left then.
fn is_lost<D: LeaseDisk + Drop>(alloc: Global, house: &mut SoloHouse<D>) -> Result<bool, Fail> {
    if !loses(alloc, house, 1_030, 1) || !loses(alloc, house, 2_000, 0) {
        return Ok(false);
    }
    is_answered(alloc, house, 2_003, ANNOUNCE, AFTER_LOSS)
}

/// The first line that is told something else; the number of all, where the loss goes otherwise.
fn first_other<D: LeaseDisk + Drop>(
    alloc: Global,
    house: &mut SoloHouse<D>,
) -> Result<Option<usize>, Fail> {
    for (i, line) in LINES.iter().enumerate() {
        if !is_answered(alloc, house, line.now, line.request, line.reply)? {
            return Ok(Some(i));
        }
    }
    if !is_lost(alloc, house)? {
        return Ok(Some(LINES.len()));
    }
    Ok(None)
}

fn first_other_of_new(alloc: Global) -> Result<Option<usize>, Fail> {
    let Some(mut house) = house(alloc, NEVER)? else {
        return Err("no house".into());
    };
    first_other(alloc, &mut house)
}

#[test]
fn answers_and_loses(rt: HostRuntime) -> Result<(), Fail> {
    let other = first_other_of_new(rt.alloc())?;
    assert!(rt; other.is_none(), "{other:?}");
    Ok(())
}

/// Whether the request meets a fault of a disk, and is answered when it comes again.
fn settles<D: LeaseDisk + Drop>(alloc: Global, house: &mut SoloHouse<D>) -> Result<bool, Fail> {
    let Err(HouseFault::Disk(_)) = told(alloc, house, 1_010, REQUEST)? else {
        return Ok(false);
    };
    is_answered(alloc, house, 1_010, REQUEST, REPLY)
}

/// The same of a house of which a call of disk a fails.
fn settles_at(alloc: Global, failing: u64) -> Result<bool, Fail> {
    let Some(mut house) = house(alloc, failing)? else {
        return Ok(false);
    };
    settles(alloc, &mut house)
}

#[test]
fn settles_after_a_fault(rt: HostRuntime) -> Result<(), Fail> {
    let mut settled = 0_u32;
    for failing in 0..32 {
        if settles_at(rt.alloc(), failing)? {
            settled = settled.saturating_add(1);
        }
    }
    // a frame and its gate, each written and synced
    assert!(rt; settled == 4);
    Ok(())
}
