//! Rounds of requests, of which what is decided is applied.
ghost use Rattle.std.specs.Prelude.{◌≡◌, ◌≤◌, ◌<◌, IfSome, IfOk, OnOk};
ghost use Rattle.pcp_base.specs.Apply.{apply};
ghost use Rattle.pcp_base.specs.Asks.{IsWellFormedAsk};
ghost use Rattle.pcp_base.specs.Configs.{IsConfig, IsExternal};
ghost use Rattle.pcp_base.specs.Fits.{Fits};
ghost use Rattle.lease_store.specs.LeaseTerms.{AreTerms};
ghost use Rattle.speed.specs.Serving.{MayServe};

use crate::requests::{Order, map_ask, next_number};
use crate::timing::Timed;
use anyhow::{Context, bail};
use lease_core::{Core, LeaseCore, decisions_fit};
use lease_store::LeaseStore;
use pcp_base::{
    Address, Addresses, Answer, Ask, Change, Config, External, Externals, Memory, Moment, Orders,
    Prefixes, Record, Replay, Subscribers, states_are_sound,
};
use std::alloc::Global;
use std::time::CpuClock;

/// The external address 192.0.2.1 with ports 1024 to 65535.
fn external() -> External
    ensures { IsExternal result }
{
    External {
        address: Address::v4(192, 0, 2, 1),
        low: 1024,
        high: 65535,
    }
}

/// A configuration of this external address, with this quota of ports and lifetimes from 120 to
/// 86,400 seconds. A core pairs nothing, so there is no subscriber.
fn config(alloc: Global, external: &External, quota: u32) -> anyhow::Result<Config>
    requires external { IsExternal external.now }
    requires quota { (0 < quota) × (quota ≤ 65535) }
    ensures { IfOk result IsConfig }
{
    let externals = Vec::from_array(alloc, [*external])?;
    Ok(Config {
        quota,
        lifetime_min: 120,
        lifetime_max: 86_400,
        third_party: Prefixes::of(Vec::new(alloc)),
        externals: Externals::of(externals),
        subscribers: Subscribers::of(Vec::new(alloc)),
        listen: Addresses::of(Vec::new(alloc)),
        orders: Orders::Both,
    })
}

/// A core on which a host may own `quota` ports.
pub fn indexed(alloc: Global, quota: u32) -> anyhow::Result<Core>
    requires { (0 < quota) × (quota ≤ 65535) }
    ensures { IfOk result (λ core. AreTerms core.terms) }
{
    let external = external();
    let config = config(alloc, &external, quota)?;
    Ok(Core::new(alloc, &external, &config)?)
}

/// The moment of these seconds.
pub(crate) fn moment(seconds: u64) -> anyhow::Result<Moment>
    ensures { IfOk result (λ m. m ≡ seconds) }
{
    Moment::of(seconds).context("no moment")
}

/// Admits a record of this change at 1000.
fn admit<S: LeaseStore>(
    alloc: Global,
    core: &mut LeaseCore<S>,
    change: Change,
) -> anyhow::Result<()>
    requires ready { S.replaying core.old }
    requires reached { S.reached core.old ≡ (S.state core.old).last }
    ensures applied { OnOk result
        (S.state core.new ≡ apply (S.state core.old) (record { moment = 1000; change = change })) }
    ensures ready { OnOk result (S.replaying core.new) }
    ensures reached { OnOk result (S.reached core.new ≡ (S.state core.new).last) }
    ensures terms { S.terms core.new ≡ S.terms core.old }
{
    let kept = Record {
        moment: moment(1000)?,
        change,
    };
    if !core.admit(alloc, &kept)? {
        bail!("the record doesn't fit");
    }
    Ok(())
}

/// Begins anew with a Start and the external address at 1000.
pub(crate) fn start<S: LeaseStore>(alloc: Global, core: &mut LeaseCore<S>) -> anyhow::Result<()>
    requires { AreTerms (S.terms core.old) }
    ensures may { OnOk result (MayServe (S.state core.new) (S.terms core.new)) }
    ensures reached { OnOk result (S.reached core.new ≡ 1000) }
{
    core.clear();
    admit(alloc, core, Change::Start)?;
    admit(alloc, core, Change::Renumber(Address::v4(192, 0, 2, 1)))
}

/// Applies the record of a decision at `m`, if there is one.
fn keep<S: LeaseStore>(
    alloc: Global,
    core: &mut LeaseCore<S>,
    kept: Option<Record>,
    m: Moment,
) -> Result<(), Memory>
    requires may { MayServe (S.state core.old) (S.terms core.old) }
    requires fits { IfSome kept (λ r. Fits (S.state core.old) r × (r.moment ≡ m)) }
    requires reached { S.reached core.old ≡ m }
    ensures may { OnOk result (MayServe (S.state core.new) (S.terms core.new)) }
    ensures reached { OnOk result (S.reached core.new ≡ m) }
{
    states_are_sound();
    match kept {
        None => Ok(()),
        Some(kept) => core.apply(alloc, &kept),
    }
}

/// The external port that is told, 1 where a lease is deleted, and 0 where nothing is granted.
fn told(answer: &Answer) -> u64 {
    match answer {
        Answer::Mapped { external, .. } => u64::from(*external),
        Answer::Gone => 1,
        _ => 0,
    }
}

/// What is answered to a request at `m`, after what is kept of it was applied.
pub(crate) fn answer<S: LeaseStore>(
    alloc: Global,
    core: &mut LeaseCore<S>,
    ask: &Ask,
    m: Moment,
) -> Result<Answer, Memory>
    requires may { MayServe (S.state core.old) (S.terms core.old) }
    requires later { S.reached core.old ≤ m }
    requires ask { IsWellFormedAsk ask.now }
    ensures may { OnOk result (MayServe (S.state core.new) (S.terms core.new)) }
    ensures reached { OnOk result (S.reached core.new ≡ m) }
{
    decisions_fit();
    let _last = core.last();
    let decided = core.decide(alloc, ask, m)?;
    keep(alloc, core, decided.kept, m)?;
    Ok(decided.answer)
}

/// Answers a request of an endpoint for so many seconds at `m`, and adds what is told to the
/// checksum.
fn serve<S: LeaseStore>(
    alloc: Global,
    core: &mut LeaseCore<S>,
    number: u32,
    lifetime: u32,
    m: Moment,
    sum: &mut u64,
) -> Result<(), Memory>
    requires may { MayServe (S.state core.old) (S.terms core.old) }
    requires later { S.reached core.old ≤ m }
    ensures may { OnOk result (MayServe (S.state core.new) (S.terms core.new)) }
    ensures reached { OnOk result (S.reached core.new ≡ m) }
{
    let answer = answer(alloc, core, &map_ask(alloc, number, lifetime), m)?;
    *sum = 31u64.wrapping_mul(*sum).wrapping_add(told(&answer));
    Ok(())
}

/// Renews three leases, and deletes one and grants it anew.
fn round<S: LeaseStore>(
    alloc: Global,
    core: &mut LeaseCore<S>,
    order: Order,
    leases: u32,
    m: Moment,
    state: &mut u64,
    sum: &mut u64,
) -> Result<(), Memory>
    requires may { MayServe (S.state core.old) (S.terms core.old) }
    requires later { S.reached core.old ≤ m }
    requires some { 0 < leases }
    ensures may { OnOk result (MayServe (S.state core.new) (S.terms core.new)) }
    ensures reached { OnOk result (S.reached core.new ≡ m) }
{
    let number = next_number(order, leases, state);
    serve(alloc, core, number, 3600, m, sum)?;
    let number = next_number(order, leases, state);
    serve(alloc, core, number, 7200, m, sum)?;
    let number = next_number(order, leases, state);
    serve(alloc, core, number, 86_400, m, sum)?;
    let number = next_number(order, leases, state);
    serve(alloc, core, number, 0, m, sum)?;
    serve(alloc, core, number, 86_400, m, sum)
}

/// Grants the leases, at 1000.
fn fill<S: LeaseStore>(
    alloc: Global,
    core: &mut LeaseCore<S>,
    leases: u32,
    m: Moment,
) -> Result<(), Memory>
    requires may { MayServe (S.state core.old) (S.terms core.old) }
    requires reached { S.reached core.old ≤ m }
    ensures may { OnOk result (MayServe (S.state core.new) (S.terms core.new)) }
    ensures reached { OnOk result (S.reached core.new ≤ m) }
{
    let mut sum = 0;
    for number in 0..leases {
        serve(alloc, core, number, 86_400, m, &mut sum)?;
    }
    Ok(())
}

/// The moment of the next round: a second later after each 20.
fn next(m: Moment, rounds: u32) -> Moment
    ensures { m ≤ result }
{
    if rounds % 20 != 19 {
        return m;
    }
    match Moment::of(m.get() + 1) {
        Some(later) => later,
        None => m,
    }
}

/// The checksum of the rounds.
fn sum_of<S: LeaseStore>(
    alloc: Global,
    core: &mut LeaseCore<S>,
    order: Order,
    leases: u32,
    rounds: u32,
    start: Moment,
) -> Result<u64, Memory>
    requires may { MayServe (S.state core.old) (S.terms core.old) }
    requires later { S.reached core.old ≤ start }
    requires some { 0 < leases }
{
    let mut sum = 0;
    let mut state = 1;
    let mut m = start;
    for i in 0..rounds {
        round(alloc, core, order, leases, m, &mut state, &mut sum)?;
        m = next(m, i);
    }
    Ok(sum)
}

/// Makes the rounds, and times them.
fn timed<S: LeaseStore, C: CpuClock>(
    clock: &C,
    alloc: Global,
    core: &mut LeaseCore<S>,
    order: Order,
    leases: u32,
    rounds: u32,
    m: Moment,
) -> anyhow::Result<Timed>
    requires may { MayServe (S.state core.old) (S.terms core.old) }
    requires later { S.reached core.old ≤ m }
    requires some { 0 < leases }
{
    let start = clock.process_cpu_time()?;
    let sum = sum_of(alloc, core, order, leases, rounds, m)?;
    Timed::since(clock, start, sum)
}

/// Grants the leases, and makes the rounds, which alone are timed.
pub fn decided<S: LeaseStore + Drop, C: CpuClock>(
    clock: &C,
    alloc: Global,
    core: LeaseCore<S>,
    order: Order,
    leases: u32,
    rounds: u32,
) -> anyhow::Result<Timed>
    requires { AreTerms (S.terms core) }
{
    if leases == 0 {
        bail!("there is no lease to renew");
    }
    let m = moment(1000)?;
    let mut core = core;
    start(alloc, &mut core)?;
    fill(alloc, &mut core, leases, m)?;
    timed(clock, alloc, &mut core, order, leases, rounds, m)
}
