//! Two grants of which a journal may fail: the call after a refused one is answered, and no answer is
//! lost.
ghost use Rattle.std.specs.Prelude.{◌≡◌};
ghost use Rattle.shared_house.specs.HouseCalls.{IsPassOf};
ghost use Rattle.shared_rows.specs.Passes.{ArePasses, Follows};

use crate::configs::{moment, one_address};
use crate::disks::pairs;
use crate::ends::give_up_all;
use crate::grants::{Host, grant, is_granted};
use crate::reopened::leases;
use lease_disk::LeaseDisk;
use pcp_base::{Config, Memory};
use shared_house::{Begun, House, HousePass};
use std::alloc::Global;
use std::sync::Wait;
use std::test::Fail;

fn host(port: u16) -> Host {
    Host {
        second: 0,
        last: 5,
        port,
    }
}

// Which of two grants, at 1010 and at 1020, were answered.
fn grant_two<D: LeaseDisk + Drop, R: Wait>(
    rt: &R,
    alloc: Global,
    house: &House<D>,
    config: &Config,
    pass: &mut HousePass<D>,
) -> (bool, bool)
    requires config { house.now.config ≡ config.now }
    requires pass { IsPassOf house.now pass.old }
    ensures { Follows house.now pass.old pass.new }
{
    let (low, high) = (host(5_000), host(6_000));
    let first = grant(rt, alloc, house, config, pass, low, 1_010);
    let second = grant(rt, alloc, house, config, pass, high, 1_020);
    (is_granted(&first, low), is_granted(&second, high))
}

// The same with the first of the passes.
fn grant_by_first<D: LeaseDisk + Drop, R: Wait>(
    rt: &R,
    alloc: Global,
    house: &House<D>,
    config: &Config,
    passes: &mut Vec<HousePass<D>>,
) -> (bool, bool)
    requires config { house.now.config ≡ config.now }
    requires passes { ArePasses house.now passes.old.items }
    ensures { ArePasses house.now passes.new.items }
{
    if passes.len() == 0 {
        return (false, false);
    }
    grant_two(rt, alloc, house, config, &mut passes[0])
}

// Which of two grants were answered, and how many leases the journal then has; none where it can't be
// opened again.
#[derive(Clone, Copy)]
struct Outcome {
    first: bool,
    second: bool,
    leases: Option<u32>,
}

// A run over a pair of which this device call of disk a fails; none where that is one of the opening.
fn run<R: Wait>(rt: &R, alloc: Global, failing: u64) -> Result<Option<Outcome>, Memory> {
    let config = one_address(alloc)?;
    let disks = pairs(alloc, 1, failing)?;
    if disks.len() < config.externals.items().len() {
        return Ok(None);
    }
    let begun = match House::begin(rt, alloc, &config, disks, moment(1_000)) {
        Ok(begun) => begun,
        Err(_refused) => return Ok(None),
    };
    let Begun {
        house,
        fresh: _,
        mut passes,
        lanes,
        updates: _updates,
        update_shards: _update_shards,
    } = begun;
    let (first, second) = grant_by_first(rt, alloc, &house, &config, &mut passes);
    let disks = house.end(rt, &mut passes, &lanes);
    give_up_all(passes);
    Ok(Some(Outcome {
        first,
        second,
        leases: match leases(alloc, &config, disks, 1_030) {
            Some(leases) => Some(leases.0),
            None => None,
        },
    }))
}

// Where one was refused the other was answered. Each that was answered is a lease that the journal
// has; one that was refused may be. Where the journal can't be opened again both were answered before
// that.
fn is_kept(run: Outcome) -> bool {
    match run.leases {
        Some(2) => run.first || run.second,
        Some(1) => run.first != run.second,
        Some(_) => false,
        None => run.first && run.second,
    }
}

// How often a grant is refused, where each of the first 64 device calls of disk a fails; none where
// one isn't kept.
fn refused<R: Wait>(rt: &R, alloc: Global) -> Result<Option<(u32, u32)>, Memory> {
    let mut first = 0u32;
    let mut second = 0u32;
    for failing in 0..64 {
        let Some(run) = run(rt, alloc, failing)? else {
            continue;
        };
        if !is_kept(run) {
            return Ok(None);
        }
        first = first.saturating_add(u32::from(!run.first));
        second = second.saturating_add(u32::from(!run.second));
    }
    Ok(Some((first, second)))
}

#[test]
fn a_batch_whose_journal_fails(rt: HostRuntime) -> Result<(), Fail> {
    let refused = refused(&rt, rt.alloc())?;
    // a frame and its gate, each written and synced
    assert!(rt; refused == Some((4, 4)), "{refused:?}");
    Ok(())
}
