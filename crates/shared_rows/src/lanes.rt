//! What a lane learns of a house.
ghost use Rattle.std.specs.Prelude.{◌≡◌};
ghost use Rattle.shared_house.specs.Endings.{AreLanesOf};
ghost use Rattle.shared_house.specs.HouseCalls.{IsPassOf};
ghost use Rattle.shared_rows.specs.Passes.{ArePasses, Follows, IsFirstLane, IsLaneAt};

use crate::configs::{moment, one_address};
use crate::disks::{NEVER, pairs};
use crate::ends::give_up_all;
use crate::grants::{Host, grant};
use lane_index::Lane;
use lease_disk::LeaseDisk;
use pcp_base::{Address, Config, Memory, Protocol};
use shared_house::{Begun, House, HousePass};
use std::alloc::Global;
use std::sync::Wait;
use std::test::Fail;

/// Whether the lane finds 10.0.0.5 with its UDP port 5000 at the first external port.
pub(crate) fn finds<R: Wait>(rt: &R, lane: &mut Lane) -> bool
    ensures { lane.new.index ≡ lane.old.index }
{
    let remote = Address::v4(198, 51, 100, 7);
    match lane.look(rt, Protocol::Udp, 1_024, &remote, 53, moment(1_030)) {
        Some(found) => found.address == Address::v4(10, 0, 0, 5) && found.port == 5_000,
        None => false,
    }
}

/// Whether the lane finds a lease that was granted, once it was told.
pub(crate) fn learns_grant<D: LeaseDisk + Drop, R: Wait>(
    rt: &R,
    alloc: Global,
    house: &House<D>,
    config: &Config,
    pass: &mut HousePass<D>,
    lane: &mut Lane,
) -> bool
    requires config { house.now.config ≡ config.now }
    requires pass { IsPassOf house.now pass.old }
    requires lane { IsLaneAt house.now pass.old.shard lane.old.index }
    ensures pass { Follows house.now pass.old pass.new }
    ensures index { lane.new.index ≡ lane.old.index }
{
    let host = Host {
        second: 0,
        last: 5,
        port: 5_000,
    };
    match grant(rt, alloc, house, config, pass, host, 1_010) {
        Some(Ok(served)) => {
            lane.learn(&served.told);
            finds(rt, lane)
        }
        _ => false,
    }
}

// Whether one lease is lost, and the lane finds none once it was told.
fn learns_loss<D: LeaseDisk + Drop, R: Wait>(
    rt: &R,
    alloc: Global,
    house: &House<D>,
    pass: &mut HousePass<D>,
    lane: &mut Lane,
) -> bool
    requires pass { IsPassOf house.now pass.old }
    requires lane { IsLaneAt house.now pass.old.shard lane.old.index }
    ensures pass { Follows house.now pass.old pass.new }
    ensures index { lane.new.index ≡ lane.old.index }
{
    match house.lose(rt, alloc, pass, moment(1_020)) {
        Ok((count, told)) => {
            lane.learn(&told);
            count == 1 && !finds(rt, lane)
        }
        Err(_) => false,
    }
}

// Whether the lane learns a grant and a loss, of the pass.
fn learns_both<D: LeaseDisk + Drop, R: Wait>(
    rt: &R,
    alloc: Global,
    house: &House<D>,
    config: &Config,
    pass: &mut HousePass<D>,
    lane: &mut Lane,
) -> bool
    requires config { house.now.config ≡ config.now }
    requires pass { IsPassOf house.now pass.old }
    requires lane { IsLaneAt house.now pass.old.shard lane.old.index }
    ensures pass { Follows house.now pass.old pass.new }
    ensures index { lane.new.index ≡ lane.old.index }
{
    learns_grant(rt, alloc, house, config, pass, lane) && learns_loss(rt, alloc, house, pass, lane)
}

// The same of the first lane and the first pass.
fn learns<D: LeaseDisk + Drop, R: Wait>(
    rt: &R,
    alloc: Global,
    house: &House<D>,
    config: &Config,
    passes: &mut Vec<HousePass<D>>,
    lanes: &mut Vec<Lane>,
) -> bool
    requires config { house.now.config ≡ config.now }
    requires passes { ArePasses house.now passes.old.items }
    requires first { IsFirstLane house.now passes.old.items lanes.old.items }
    requires lanes { AreLanesOf house.now.turns lanes.old.items }
    ensures passes { ArePasses house.now passes.new.items }
    ensures lanes { AreLanesOf house.now.turns lanes.new.items }
{
    if passes.len() == 0 || lanes.len() == 0 {
        return false;
    }
    learns_both(rt, alloc, house, config, &mut passes[0], &mut lanes[0])
}

fn run<R: Wait>(rt: &R, alloc: Global) -> Result<bool, Memory> {
    let config = one_address(alloc)?;
    let disks = pairs(alloc, 1, NEVER)?;
    if disks.len() < config.externals.items().len() {
        return Ok(false);
    }
    let begun = match House::begin(rt, alloc, &config, disks, moment(1_000)) {
        Ok(begun) => begun,
        Err(_refused) => return Ok(false),
    };
    let Begun {
        house,
        fresh: _,
        mut passes,
        mut lanes,
        updates: _updates,
        update_shards: _update_shards,
    } = begun;
    let learnt = learns(rt, alloc, &house, &config, &mut passes, &mut lanes);
    let _disks = house.end(rt, &mut passes, &lanes);
    give_up_all(passes);
    Ok(learnt)
}

#[test]
fn a_lane_learns_a_grant_and_a_loss(rt: HostRuntime) -> Result<(), Fail> {
    assert!(rt; run(&rt, rt.alloc())?);
    Ok(())
}
