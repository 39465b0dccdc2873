//! Four clients, two relays in a row, a cascade, and a house. A packet that was sent comes whenever, as
//! often as it likes or never.

use crate::dice::Dice;
use crate::hosts::Counts;
use crate::houses::{begun, blank, loses, moment};
use crate::packets::Came;
use crate::places::{FAR, SERVER};
use crate::worlds::{
    World, announces, are_granted, asks, begins_anew, chosen, comes, has_lost, new_world, passes,
    replies, restarts, want_all,
};
use lease_disk::{DiskPair, LeaseDisk, MemoryDisk};
use lease_house::SoloHouse;
use pcp_base::Memory;
use std::alloc::Global;
use std::test::Fail;

// the second at which the first schedule begins
const BEGINS: u32 = 1_000;

fn to_house<D: LeaseDisk + Drop>(
    alloc: Global,
    world: &mut World,
    house: &mut SoloHouse<D>,
    came: &Came,
) -> Result<(), Memory> {
    match house.serve(alloc, &came.datagram, moment(world.wire.clock_ms / 1000)) {
        Ok(Some(octets)) => replies(alloc, world, came.datagram.peer, octets),
        Ok(None) => Ok(()),
        Err(_) => {
            world.wire.right = false;
            Ok(())
        }
    }
}

fn delivers<D: LeaseDisk + Drop>(
    alloc: Global,
    world: &mut World,
    house: &mut SoloHouse<D>,
    dice: &mut Dice,
) -> Result<(), Memory> {
    let Some(came) = chosen(alloc, world, dice)? else {
        return Ok(());
    };
    if came.to == SERVER {
        return to_house(alloc, world, house, &came);
    }
    comes(alloc, world, &came, dice)
}

fn fails<D: LeaseDisk + Drop>(
    alloc: Global,
    world: &mut World,
    house: &mut SoloHouse<D>,
) -> Result<(), Memory> {
    let lost = loses(alloc, house, world.wire.clock_ms / 1000);
    world.wire.right = world.wire.right && lost;
    has_lost(alloc, world)
}

// What comes rarely: the cascade is begun again, or the house loses its leases.
fn breaks<D: LeaseDisk + Drop>(
    alloc: Global,
    world: &mut World,
    house: &mut SoloHouse<D>,
    dice: &mut Dice,
) -> Result<(), Memory> {
    if dice.roll(4) == 0 {
        restarts(alloc, world)
    } else {
        fails(alloc, world, house)
    }
}

// One event.
fn turns<D: LeaseDisk + Drop>(
    alloc: Global,
    world: &mut World,
    house: &mut SoloHouse<D>,
    dice: &mut Dice,
) -> Result<(), Memory> {
    let event = dice.roll(64);
    if event < 44 {
        return delivers(alloc, world, house, dice);
    }
    if event < 54 {
        return asks(alloc, world, dice);
    }
    if event < 59 {
        passes(world, dice);
        return Ok(());
    }
    if event < 63 {
        return announces(alloc, world);
    }
    breaks(alloc, world, house, dice)
}

/// What was counted of the clients behind two relays, and of those behind the cascade, and how many times
/// that one asked for another local port.
#[derive(Clone, Copy)]
struct Played {
    near: Counts,
    beside: Counts,
    moved: u32,
}

// What came of a schedule, added to that of those before.
fn counted(world: &World, before: Played) -> Played {
    let mut all = before;
    for (place, host) in world.hosts.iter().enumerate() {
        if place < 2 {
            all.near = all.near.and(host.counts);
        } else {
            all.beside = all.beside.and(host.counts);
        }
    }
    all.moved = world.beside.moved;
    all
}

/// Plays the schedule of a seed, at whose beginning all leases are lost; whether all was told and held as
/// it should be.
fn plays<D: LeaseDisk + Drop>(
    alloc: Global,
    world: &mut World,
    house: &mut SoloHouse<D>,
    seed: u32,
) -> Result<bool, Memory> {
    let mut dice = Dice::of(seed);
    begins_anew(alloc, world)?;
    fails(alloc, world, house)?;
    if !want_all(alloc, world) {
        return Ok(false);
    }
    for _turn in 0..500 {
        turns(alloc, world, house, &mut dice)?;
        if !world.wire.right || !are_granted(world) {
            return Ok(false);
        }
    }
    Ok(true)
}

/// What comes of 24 schedules, one after the other; none where something else was told or held.
fn plays_all<D: LeaseDisk + Drop>(
    alloc: Global,
    world: &mut World,
    house: &mut SoloHouse<D>,
) -> Result<Option<Played>, Memory> {
    let mut all = Played {
        near: Counts::none(),
        beside: Counts::none(),
        moved: 0,
    };
    for seed in 0..24_u32 {
        if !plays(alloc, world, house, seed)? {
            return Ok(None);
        }
        all = counted(world, all);
    }
    Ok(Some(all))
}

fn plays_over<D: LeaseDisk + Drop>(
    alloc: Global,
    disks: DiskPair<D>,
) -> Result<Option<Played>, Memory> {
    let Some(mut house) = begun(alloc, FAR, disks, BEGINS)? else {
        return Ok(None);
    };
    plays_all(alloc, &mut new_world(alloc, BEGINS)?, &mut house)
}

#[test]
fn schedules(rt: HostRuntime) -> Result<(), Fail> {
    let alloc = rt.alloc();
    let played = plays_over(alloc, blank(alloc)?)?.ok_or("something else was told or held")?;
    assert!(rt; played.near.are(20), "{}", played.near.held);
    assert!(rt; played.beside.are(20), "{}", played.beside.held);
    assert!(rt; played.moved > 1, "{}", played.moved);
    Ok(())
}
