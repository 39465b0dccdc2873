//! A lookup while the sync of a batch waits for its answer.
ghost use Rattle.std.specs.Prelude.{◌≡◌};
ghost use Rattle.shared_house.specs.Endings.{AreLanesOf};
ghost use Rattle.shared_house.specs.HouseCalls.{IsPassOf};
ghost use Rattle.shared_rows.specs.Passes.{ArePasses, Follows, IsFirstLane, IsLaneAt};

use crate::configs::{moment, one_address};
use crate::ends::give_up_all;
use crate::grants::{Host, grant, is_granted};
use crate::held_disks::{Flags, held_pair};
use crate::lanes::{finds, learns_grant};
use lane_index::Lane;
use lease_disk::LeaseDisk;
use pcp_base::{Config, Memory};
use shared_house::{Begun, House, HousePass};
use std::alloc::Global;
use std::sync::Wait;
use std::sync::atomic::Ordering;
use std::test::Fail;
use std::thread::{Threads, join_mut};

// Serves another grant, whose syncs wait. Whether it is granted.
fn serve_held<D: LeaseDisk + Drop, R: Wait>(
    rt: &R,
    alloc: Global,
    flags: &Flags,
    house: &House<D>,
    config: &Config,
    pass: &mut HousePass<D>,
) -> bool
    requires config { house.now.config ≡ config.now }
    requires pass { IsPassOf house.now pass.old }
    ensures { Follows house.now pass.old pass.new }
{
    let host = Host {
        second: 0,
        last: 5,
        port: 6_000,
    };
    flags.holds.store(true, Ordering::SeqCst);
    let told = grant(rt, alloc, house, config, pass, host, 1_020);
    flags.served.store(true, Ordering::SeqCst);
    is_granted(&told, host)
}

// Looks up once a sync waits. Whether the first lease's owner is found.
fn look_held<R: Wait>(rt: &R, flags: &Flags, lane: &mut Lane) -> bool
    ensures { lane.new.index ≡ lane.old.index }
{
    flags.wait_for_sync(rt);
    let found = finds(rt, lane);
    flags.looked.store(true, Ordering::SeqCst);
    found
}

// Both at once, each in a thread of its own. Whether both are answered.
fn look_beside<D: LeaseDisk + Drop, R: Threads + Wait + Sync>(
    rt: &R,
    alloc: Global,
    flags: &Flags,
    house: &House<D>,
    config: &Config,
    pass: &mut HousePass<D>,
    lane: &mut Lane,
) -> bool
    requires config { house.now.config ≡ config.now }
    requires pass { IsPassOf house.now pass.old }
    ensures pass { Follows house.now pass.old pass.new }
    ensures index { lane.new.index ≡ lane.old.index }
{
    let mut looking = move || -> bool
        ensures { lane.exit.now.index ≡ lane.entry.now.index }
    { look_held(rt, flags, lane) };
    let mut serving = move || -> bool
        requires { (house.now.config ≡ config.now) × IsPassOf house.now pass.now }
        ensures { Follows house.entry.now pass.entry.now pass.exit.now }
    { serve_held(rt, alloc, flags, house, config, pass) };
    let (found, granted) = join_mut(rt, &mut looking, &mut serving);
    found && granted
}

// The same once the lane has learnt a first grant.
fn learn_and_look<D: LeaseDisk + Drop, R: Threads + Wait + Sync>(
    rt: &R,
    alloc: Global,
    flags: &Flags,
    house: &House<D>,
    config: &Config,
    pass: &mut HousePass<D>,
    lane: &mut Lane,
) -> bool
    requires config { house.now.config ≡ config.now }
    requires pass { IsPassOf house.now pass.old }
    requires lane { IsLaneAt house.now pass.old.shard lane.old.index }
    ensures pass { Follows house.now pass.old pass.new }
    ensures index { lane.new.index ≡ lane.old.index }
{
    learns_grant(rt, alloc, house, config, pass, lane)
        && look_beside(rt, alloc, flags, house, config, pass, lane)
}

// The same of the first lane and the first pass.
fn look_at_first<D: LeaseDisk + Drop, R: Threads + Wait + Sync>(
    rt: &R,
    alloc: Global,
    flags: &Flags,
    house: &House<D>,
    config: &Config,
    passes: &mut Vec<HousePass<D>>,
    lanes: &mut Vec<Lane>,
) -> bool
    requires config { house.now.config ≡ config.now }
    requires passes { ArePasses house.now passes.old.items }
    requires first { IsFirstLane house.now passes.old.items lanes.old.items }
    requires lanes { AreLanesOf house.now.turns lanes.old.items }
    ensures passes { ArePasses house.now passes.new.items }
    ensures lanes { AreLanesOf house.now.turns lanes.new.items }
{
    if passes.len() == 0 || lanes.len() == 0 {
        return false;
    }
    learn_and_look(
        rt,
        alloc,
        flags,
        house,
        config,
        &mut passes[0],
        &mut lanes[0],
    )
}

fn run<R: Threads + Wait + Sync>(rt: &R, alloc: Global, flags: &Flags) -> Result<bool, Memory> {
    let config = one_address(alloc)?;
    let disks = held_pair(alloc, flags)?;
    if disks.len() < config.externals.items().len() {
        return Ok(false);
    }
    let begun = match House::begin(rt, alloc, &config, disks, moment(1_000)) {
        Ok(begun) => begun,
        Err(_refused) => return Ok(false),
    };
    let Begun {
        house,
        fresh: _,
        mut passes,
        mut lanes,
        updates: _updates,
        update_shards: _update_shards,
    } = begun;
    let answered = look_at_first(rt, alloc, flags, &house, &config, &mut passes, &mut lanes);
    let _disks = house.end(rt, &mut passes, &lanes);
    give_up_all(passes);
    Ok(answered)
}

#[test]
fn a_sync_waits_for_a_look(rt: HostRuntime) -> Result<(), Fail> {
    let flags = Flags::new();
    assert!(rt; run(&rt, rt.alloc(), &flags)?);
    assert!(rt; flags.held.load(Ordering::SeqCst) && !flags.late.load(Ordering::SeqCst));
    Ok(())
}
