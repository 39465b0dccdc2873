//! What requests cost on a core: so many of one kind, at one moment.
ghost use Rattle.std.specs.Prelude.{◌≡◌, ◌≤◌, IfOk, OnOk};
ghost use Rattle.pcp_base.specs.Asks.{IsWellFormedAsk};
ghost use Rattle.lease_store.specs.LeaseTerms.{AreTerms};
ghost use Rattle.speed.specs.Serving.{MayServe};

use crate::serving::{answer, moment, start};
use crate::wishes::{ask_of, wish_for};
use anyhow::bail;
use lease_core::LeaseCore;
use lease_store::LeaseStore;
use pcp_base::{Answer, Ask, Memory, Moment};
use std::alloc::Global;
use std::time::{CpuClock, Duration};

/// When leases are granted, in seconds.
pub(crate) const GRANTED: u64 = 1000;

/// What the last request was told, and how long one took.
#[derive(Clone, Copy)]
pub(crate) struct Cost {
    /// The external port, 0 where the lease was deleted, or the code of a refusal.
    pub(crate) told: u16,
    /// Nanoseconds of processor time.
    pub(crate) nanos: u64,
}

/// The external port that is told, 0 where a lease is deleted, and else the code.
fn told(answer: &Answer) -> u16 {
    match answer {
        Answer::Mapped { external, .. } => *external,
        Answer::Refused(refusal) => u16::from(refusal.code.number()),
        _ => 0,
    }
}

/// Asks so often at `m`. What was told last.
pub(crate) fn ask_often<S: LeaseStore>(
    alloc: Global,
    core: &mut LeaseCore<S>,
    ask: &Ask,
    m: Moment,
    rounds: u32,
) -> Result<u16, Memory>
    requires may { MayServe (S.state core.old) (S.terms core.old) }
    requires later { S.reached core.old ≤ m }
    requires ask { IsWellFormedAsk ask.now }
    ensures may { OnOk result (MayServe (S.state core.new) (S.terms core.new)) }
    ensures reached { OnOk result (S.reached core.new ≤ m) }
{
    let mut last = 0;
    for _round in 0..rounds {
        last = told(&answer(alloc, core, ask, m)?);
    }
    Ok(last)
}

/// Asks for one thing and then for another, so often, at `m`. What was told last.
fn ask_in_turn<S: LeaseStore>(
    alloc: Global,
    core: &mut LeaseCore<S>,
    first: &Ask,
    second: &Ask,
    m: Moment,
    rounds: u32,
) -> Result<u16, Memory>
    requires may { MayServe (S.state core.old) (S.terms core.old) }
    requires later { S.reached core.old ≤ m }
    requires first { IsWellFormedAsk first.now }
    requires second { IsWellFormedAsk second.now }
    ensures may { OnOk result (MayServe (S.state core.new) (S.terms core.new)) }
    ensures reached { OnOk result (S.reached core.new ≤ m) }
{
    let mut last = 0;
    for _round in 0..rounds {
        answer(alloc, core, first, m)?;
        last = told(&answer(alloc, core, second, m)?);
    }
    Ok(last)
}

/// Grants so many ports for so many seconds to each of so many hosts, from host 1 on.
fn fill<S: LeaseStore>(
    alloc: Global,
    core: &mut LeaseCore<S>,
    hosts: u32,
    ports: u16,
    lifetime: u32,
    m: Moment,
) -> Result<(), Memory>
    requires may { MayServe (S.state core.old) (S.terms core.old) }
    requires reached { S.reached core.old ≤ m }
    ensures may { OnOk result (MayServe (S.state core.new) (S.terms core.new)) }
    ensures reached { OnOk result (S.reached core.new ≤ m) }
{
    for i in 0..hosts {
        let ask = ask_of(alloc, &wish_for(1 + i, ports, lifetime));
        answer(alloc, core, &ask, m)?;
    }
    Ok(())
}

/// The nanoseconds of one of so many, since `start`.
pub(crate) fn nanos_since<C: CpuClock>(
    clock: &C,
    start: Duration,
    count: u32,
) -> anyhow::Result<u64> {
    let took = clock.process_cpu_time()?.abs_diff(start);
    let nanos = took.as_nanos().min(u128::from(u64::MAX)) as u64;
    Ok(nanos / u64::from(count).max(1))
}

/// Asks so often at `m`, and measures it.
pub(crate) fn cost_often<S: LeaseStore, C: CpuClock>(
    clock: &C,
    alloc: Global,
    core: &mut LeaseCore<S>,
    ask: &Ask,
    m: Moment,
    rounds: u32,
) -> anyhow::Result<Cost>
    requires may { MayServe (S.state core.old) (S.terms core.old) }
    requires later { S.reached core.old ≤ m }
    requires ask { IsWellFormedAsk ask.now }
    ensures may { OnOk result (MayServe (S.state core.new) (S.terms core.new)) }
    ensures reached { OnOk result (S.reached core.new ≤ m) }
{
    let start = clock.process_cpu_time()?;
    let told = ask_often(alloc, core, ask, m, rounds)?;
    let nanos = nanos_since(clock, start, rounds)?;
    Ok(Cost { told, nanos })
}

/// Asks for one thing and then for another, so often, and measures both together.
pub(crate) fn cost_in_turn<S: LeaseStore, C: CpuClock>(
    clock: &C,
    alloc: Global,
    core: &mut LeaseCore<S>,
    first: &Ask,
    second: &Ask,
    m: Moment,
    rounds: u32,
) -> anyhow::Result<Cost>
    requires may { MayServe (S.state core.old) (S.terms core.old) }
    requires later { S.reached core.old ≤ m }
    requires first { IsWellFormedAsk first.now }
    requires second { IsWellFormedAsk second.now }
{
    let start = clock.process_cpu_time()?;
    let told = ask_in_turn(alloc, core, first, second, m, rounds)?;
    let nanos = nanos_since(clock, start, rounds)?;
    Ok(Cost { told, nanos })
}

/// A core on which so many hosts have so many ports each for so many seconds.
pub(crate) fn core_with<S: LeaseStore + Drop>(
    alloc: Global,
    core: LeaseCore<S>,
    hosts: u32,
    ports: u16,
    lifetime: u32,
) -> anyhow::Result<LeaseCore<S>>
    requires { AreTerms (S.terms core) }
    ensures may { IfOk result (λ core. MayServe (S.state core) (S.terms core)) }
    ensures reached { IfOk result (λ core. S.reached core ≤ 1000) }
{
    let m = moment(GRANTED)?;
    let mut core = core;
    start(alloc, &mut core)?;
    fill(alloc, &mut core, hosts, ports, lifetime, m)?;
    if core.leases(m) != hosts {
        bail!("a lease isn't granted");
    }
    Ok(core)
}
