//! Eight passes on two external addresses, each in a thread of its own.
ghost use Rattle.std.specs.Prelude.{◌≡◌};
ghost use Rattle.std.specs.Thread.{IsSync};
ghost use Rattle.shared_house.specs.HouseCalls.{IsPassOf};
ghost use Rattle.shared_rows.specs.Passes.{ArePasses, Follows};

use crate::configs::{moment, two_addresses};
use crate::disks::{NEVER, pairs};
use crate::ends::give_up_all;
use crate::grants::{Host, grant, is_granted};
use crate::reopened::leases;
use lease_disk::MemoryDisk;
use pcp_base::{Config, Memory};
use shared_house::{Begun, House, HousePass};
use std::alloc::Global;
use std::sync::Wait;
use std::test::Fail;
use std::thread::{Threads, join_mut};

// Serves 50 ports of each of 20 hosts from this one on. How many are granted.
fn serve_many<R: Wait>(
    rt: &R,
    alloc: Global,
    house: &House<MemoryDisk>,
    config: &Config,
    pass: &mut HousePass<MemoryDisk>,
    second: u8,
    first: u8,
) -> u32
    requires config { house.now.config ≡ config.now }
    requires pass { IsPassOf house.now pass.old }
    ensures { Follows house.now pass.old pass.new }
{
    let mut count = 0u32;
    for i in 0..1_000u16 {
        let host = Host {
            second,
            last: first.saturating_add((i / 50) as u8),
            port: 5_000 + i % 50,
        };
        let told = grant(rt, alloc, house, config, pass, host, 1_010);
        count = count.saturating_add(u32::from(is_granted(&told, host)));
    }
    count
}

// Two passes serve 20 hosts each, in threads of their own.
fn serve_both<R: Threads + Wait + Sync>(
    rt: &R,
    alloc: Global,
    house: &House<MemoryDisk>,
    config: &Config,
    pass: &mut HousePass<MemoryDisk>,
    other: &mut HousePass<MemoryDisk>,
    second: u8,
    first: u8,
) -> u32
    requires config { house.now.config ≡ config.now }
    requires passes { IsPassOf house.now pass.old × IsPassOf house.now other.old }
    ensures pass { Follows house.now pass.old pass.new }
    ensures other { Follows house.now other.old other.new }
{
    let next = first.saturating_add(20);
    let mut one = move || -> u32
        requires { (house.now.config ≡ config.now) × IsPassOf house.now pass.now }
        ensures { Follows house.entry.now pass.entry.now pass.exit.now }
    { serve_many(rt, alloc, house, config, pass, second, first) };
    let mut two = move || -> u32
        requires { (house.now.config ≡ config.now) × IsPassOf house.now other.now }
        ensures { Follows house.entry.now other.entry.now other.exit.now }
    { serve_many(rt, alloc, house, config, other, second, next) };
    let (count, more) = join_mut(rt, &mut one, &mut two);
    count.saturating_add(more)
}

// A pass and one that is split off it serve 20 hosts each.
fn serve_in_two<R: Threads + Wait + Sync>(
    rt: &R,
    alloc: Global,
    house: &House<MemoryDisk>,
    config: &Config,
    pass: &mut HousePass<MemoryDisk>,
    second: u8,
    first: u8,
) -> u32
    requires config { house.now.config ≡ config.now }
    requires pass { IsPassOf house.now pass.old }
    ensures { Follows house.now pass.old pass.new }
{
    match house.split(alloc, pass) {
        Ok(mut other) => {
            let count = serve_both(rt, alloc, house, config, pass, &mut other, second, first);
            house.meet(pass, other);
            count
        }
        Err(_) => 0,
    }
}

// Two passes serve 40 hosts each, each in two threads.
fn serve_both_in_two<R: Threads + Wait + Sync>(
    rt: &R,
    alloc: Global,
    house: &House<MemoryDisk>,
    config: &Config,
    pass: &mut HousePass<MemoryDisk>,
    other: &mut HousePass<MemoryDisk>,
    second: u8,
) -> u32
    requires config { house.now.config ≡ config.now }
    requires passes { IsPassOf house.now pass.old × IsPassOf house.now other.old }
    ensures pass { Follows house.now pass.old pass.new }
    ensures other { Follows house.now other.old other.new }
{
    let mut one = move || -> u32
        requires { IsSync R.row × (house.now.config ≡ config.now) × IsPassOf house.now pass.now }
        ensures { Follows house.entry.now pass.entry.now pass.exit.now }
    { serve_in_two(rt, alloc, house, config, pass, second, 1) };
    let mut two = move || -> u32
        requires { IsSync R.row × (house.now.config ≡ config.now) × IsPassOf house.now other.now }
        ensures { Follows house.entry.now other.entry.now other.exit.now }
    { serve_in_two(rt, alloc, house, config, other, second, 41) };
    let (count, more) = join_mut(rt, &mut one, &mut two);
    count.saturating_add(more)
}

// A pass and three that are split off it serve 20 hosts each.
fn serve_in_four<R: Threads + Wait + Sync>(
    rt: &R,
    alloc: Global,
    house: &House<MemoryDisk>,
    config: &Config,
    pass: &mut HousePass<MemoryDisk>,
    second: u8,
) -> u32
    requires config { house.now.config ≡ config.now }
    requires pass { IsPassOf house.now pass.old }
    ensures { Follows house.now pass.old pass.new }
{
    match house.split(alloc, pass) {
        Ok(mut other) => {
            let count = serve_both_in_two(rt, alloc, house, config, pass, &mut other, second);
            house.meet(pass, other);
            count
        }
        Err(_) => 0,
    }
}

// A pass of each of two external addresses serves 80 hosts, each in four threads.
fn serve_in_eight<R: Threads + Wait + Sync>(
    rt: &R,
    alloc: Global,
    house: &House<MemoryDisk>,
    config: &Config,
    pass: &mut HousePass<MemoryDisk>,
    other: &mut HousePass<MemoryDisk>,
) -> (u32, u32)
    requires config { house.now.config ≡ config.now }
    requires passes { IsPassOf house.now pass.old × IsPassOf house.now other.old }
    ensures pass { Follows house.now pass.old pass.new }
    ensures other { Follows house.now other.old other.new }
{
    let mut one = move || -> u32
        requires { IsSync R.row × (house.now.config ≡ config.now) × IsPassOf house.now pass.now }
        ensures { Follows house.entry.now pass.entry.now pass.exit.now }
    { serve_in_four(rt, alloc, house, config, pass, 0) };
    let mut two = move || -> u32
        requires { IsSync R.row × (house.now.config ≡ config.now) × IsPassOf house.now other.now }
        ensures { Follows house.entry.now other.entry.now other.exit.now }
    { serve_in_four(rt, alloc, house, config, other, 128) };
    join_mut(rt, &mut one, &mut two)
}

// The first two of the passes serve the hosts of their external addresses.
fn serve_all<R: Threads + Wait + Sync>(
    rt: &R,
    alloc: Global,
    house: &House<MemoryDisk>,
    config: &Config,
    passes: &mut Vec<HousePass<MemoryDisk>>,
) -> (u32, u32)
    requires config { house.now.config ≡ config.now }
    requires passes { ArePasses house.now passes.old.items }
    ensures { ArePasses house.now passes.new.items }
{
    if passes.len() < 2 {
        return (0, 0);
    }
    let (firsts, others) = passes.as_mut_slice().split_at_mut(1);
    serve_in_eight(rt, alloc, house, config, &mut firsts[0], &mut others[0])
}

// How many are granted at each external address, and how many leases the journals then have.
fn run<R: Threads + Wait + Sync>(
    rt: &R,
    alloc: Global,
) -> Result<((u32, u32), Option<(u32, u32)>), Memory> {
    let config = two_addresses(alloc)?;
    let disks = pairs(alloc, 2, NEVER)?;
    if disks.len() < config.externals.items().len() {
        return Err(Memory);
    }
    let begun = match House::begin(rt, alloc, &config, disks, moment(1_000)) {
        Ok(begun) => begun,
        Err(_refused) => return Err(Memory),
    };
    let Begun {
        house,
        fresh: _,
        mut passes,
        lanes,
        updates: _updates,
        update_shards: _update_shards,
    } = begun;
    let granted = serve_all(rt, alloc, &house, &config, &mut passes);
    let disks = house.end(rt, &mut passes, &lanes);
    give_up_all(passes);
    Ok((granted, leases(alloc, &config, disks, 1_030)))
}

#[test]
fn eight_passes_on_two_external_addresses(rt: HostRuntime) -> Result<(), Fail> {
    let (granted, leases) = run(&rt, rt.alloc())?;
    assert!(rt; granted == (4_000, 4_000) && leases == Some(granted));
    Ok(())
}
