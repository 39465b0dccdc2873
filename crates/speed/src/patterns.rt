//! Requests that stand beside much that has ended, falls due or belongs to one lease, and the opening
//! of a journal of the first format. The word is a count of rounds. A line tells the name of a
//! pattern, how many ports or leases it has, and what the last request was told: its external port, 0
//! where its lease was deleted, or the code by which it was refused. After a first word `times` a line
//! also tells the nanoseconds of processor time of one request, or of a record that is admitted, and
//! their ratios to a plain request that leaves no record and to the renewal of one port. A request that
//! comes but once on a core, as the first when much falls due, is timed on some cores, one after the
//! other: what is in the middle is told.
ghost use Rattle.std.specs.Prelude.{◌≡◌, ◌<◌, ◌≤◌, IfOk, OnOk};
ghost use Rattle.lease_store.specs.LeaseTerms.{AreTerms};
ghost use Rattle.speed.specs.Serving.{MayServe};

use crate::costs::{Cost, GRANTED, ask_often, core_with, cost_in_turn, cost_often, nanos_since};
use crate::serving::{indexed, moment};
use crate::wishes::{Wish, ask_of, endpoint, filtered_ask, wish_for};
use anyhow::{Context, bail};
use lease_core::{Core, LeaseCore};
use lease_store::LeaseStore;
use pcp_base::{Change, Filters, MapLease, Moment, Nonce, Protocol, Record, Replay};
use std::alloc::Global;
use std::time::CpuClock;

/// As many leases as there may be beside one more.
const MANY: u32 = 32_767;

/// On how many cores a request is timed that comes but once on each.
const CORES: usize = 15;

/// When leases end that are granted for 120 seconds.
const ENDED: u64 = 1120;

/// When their ports rest no more.
const RESTED: u64 = 1240;

/// A request with another nonce than that of the lease: the plain one.
fn plain_cost<S: LeaseStore + Drop, C: CpuClock>(
    clock: &C,
    alloc: Global,
    core: LeaseCore<S>,
    rounds: u32,
) -> anyhow::Result<Cost>
    requires { AreTerms (S.terms core) }
{
    let mut core = core_with(alloc, core, 1, 1, 86_400)?;
    let other = Wish {
        nonce: 8,
        ..wish_for(1, 1, 3600)
    };
    let m = moment(GRANTED)?;
    cost_often(clock, alloc, &mut core, &ask_of(alloc, &other), m, rounds)
}

/// The renewal of a set of so many ports.
fn renewal_cost<S: LeaseStore + Drop, C: CpuClock>(
    clock: &C,
    alloc: Global,
    core: LeaseCore<S>,
    ports: u16,
    rounds: u32,
) -> anyhow::Result<Cost>
    requires { AreTerms (S.terms core) }
{
    let mut core = core_with(alloc, core, 1, ports, 86_400)?;
    let shorter = ask_of(alloc, &wish_for(1, ports, 3600));
    let longer = ask_of(alloc, &wish_for(1, ports, 7200));
    let m = moment(GRANTED)?;
    let both = cost_in_turn(clock, alloc, &mut core, &shorter, &longer, m, rounds)?;
    Ok(Cost {
        nanos: both.nanos / 2,
        ..both
    })
}

/// The grant of a set of so many ports, always the same, and its deletion.
fn grant_cost<S: LeaseStore + Drop, C: CpuClock>(
    clock: &C,
    alloc: Global,
    core: LeaseCore<S>,
    ports: u16,
    rounds: u32,
) -> anyhow::Result<Cost>
    requires { AreTerms (S.terms core) }
{
    let mut core = core_with(alloc, core, 0, 1, 3600)?;
    let suggested = Wish {
        suggested: 2048,
        ..wish_for(1, ports, 3600)
    };
    let grant = ask_of(alloc, &suggested);
    let deletion = ask_of(alloc, &wish_for(1, 1, 0));
    let m = moment(GRANTED)?;
    cost_in_turn(clock, alloc, &mut core, &grant, &deletion, m, rounds)
}

/// A request for two ports elsewhere, of a host whose set of 4,096 ports has ended: refused, over and
/// over, since it leaves no record.
fn ended_ports_cost<S: LeaseStore + Drop, C: CpuClock>(
    clock: &C,
    alloc: Global,
    core: LeaseCore<S>,
    rounds: u32,
) -> anyhow::Result<Cost>
    requires { AreTerms (S.terms core) }
{
    let mut core = core_with(alloc, core, 1, 4096, 120)?;
    let elsewhere = Wish {
        elsewhere: true,
        ..wish_for(1, 2, 3600)
    };
    let ask = ask_of(alloc, &elsewhere);
    let m = moment(RESTED)?;
    ask_often(alloc, &mut core, &ask, m, 1)?;
    cost_often(clock, alloc, &mut core, &ask, m, rounds)
}

/// Grants host 1 a port for each of so many internal ports, from 1 on, for 120 seconds.
fn grant_singles<S: LeaseStore>(
    alloc: Global,
    core: &mut LeaseCore<S>,
    count: u16,
    m: Moment,
) -> anyhow::Result<()>
    requires may { MayServe (S.state core.old) (S.terms core.old) }
    requires reached { S.reached core.old ≤ m }
    ensures may { OnOk result (MayServe (S.state core.new) (S.terms core.new)) }
    ensures reached { OnOk result (S.reached core.new ≤ m) }
{
    for i in 0..count {
        let single = Wish {
            internal: 1 + i,
            ..wish_for(1, 1, 120)
        };
        ask_often(alloc, core, &ask_of(alloc, &single), m, 1)?;
    }
    Ok(())
}

/// A request for a set of so many ports elsewhere, of a host that had a lease for each of them, which
/// have all ended: refused, over and over, since it leaves no record.
fn ended_singles_cost<S: LeaseStore + Drop, C: CpuClock>(
    clock: &C,
    alloc: Global,
    core: LeaseCore<S>,
    ports: u16,
    rounds: u32,
) -> anyhow::Result<Cost>
    requires { AreTerms (S.terms core) }
{
    let mut core = core_with(alloc, core, 0, 1, 120)?;
    grant_singles(alloc, &mut core, ports, moment(GRANTED)?)?;
    let elsewhere = Wish {
        elsewhere: true,
        ..wish_for(1, ports, 3600)
    };
    let ask = ask_of(alloc, &elsewhere);
    let m = moment(RESTED)?;
    ask_often(alloc, &mut core, &ask, m, 1)?;
    cost_often(clock, alloc, &mut core, &ask, m, rounds)
}

/// A request with nine filters, of a new host, beside leases that have ended: refused, over and over.
fn ended_leases_cost<S: LeaseStore + Drop, C: CpuClock>(
    clock: &C,
    alloc: Global,
    core: LeaseCore<S>,
    rounds: u32,
) -> anyhow::Result<Cost>
    requires { AreTerms (S.terms core) }
{
    let mut core = core_with(alloc, core, MANY, 1, 120)?;
    let ask = filtered_ask(alloc, 40_000)?;
    let m = moment(RESTED)?;
    ask_often(alloc, &mut core, &ask, m, 1)?;
    cost_often(clock, alloc, &mut core, &ask, m, rounds)
}

/// The record that grants a port to a host, in a journal of the first format.
fn grant_record(number: u32, m: Moment) -> Record {
    Record {
        moment: m,
        change: Change::Map(MapLease {
            address: endpoint(number).address,
            protocol: Protocol::Udp,
            internal: 1,
            count: 1,
            external: (1024 + number % 64_512) as u16,
            nonce: Nonce([7; 12]),
            granted: m,
            expiry: m.get() + 86_400,
            filters: Filters::none(),
        }),
    }
}

/// Admits a record by the rules of the first format.
fn admit_first<S: LeaseStore>(
    alloc: Global,
    core: &mut LeaseCore<S>,
    kept: &Record,
) -> anyhow::Result<()>
    requires ready { S.replaying_first core.old }
    requires reached { S.reached core.old ≡ (S.state core.old).last }
    ensures ready { OnOk result (S.replaying_first core.new) }
    ensures reached { OnOk result (S.reached core.new ≡ (S.state core.new).last) }
{
    if !core.admit_first(alloc, kept)? {
        bail!("the record doesn't fit");
    }
    Ok(())
}

/// Admits a Start and so many grants, by the rules of the first format.
fn admit_grants<S: LeaseStore>(
    alloc: Global,
    core: &mut LeaseCore<S>,
    grants: u32,
    m: Moment,
) -> anyhow::Result<()>
    requires ready { S.replaying_first core.old }
    requires reached { S.reached core.old ≡ (S.state core.old).last }
{
    let start = Record {
        moment: m,
        change: Change::Start,
    };
    admit_first(alloc, core, &start)?;
    for number in 0..grants {
        admit_first(alloc, core, &grant_record(number, m))?;
    }
    Ok(())
}

/// The opening of a journal of the first format with so many grants, for each of its records.
fn opening_cost<S: LeaseStore + Drop, C: CpuClock>(
    clock: &C,
    alloc: Global,
    core: LeaseCore<S>,
    grants: u32,
) -> anyhow::Result<Cost> {
    let m = moment(GRANTED)?;
    let mut core = core;
    core.clear();
    let start = clock.process_cpu_time()?;
    admit_grants(alloc, &mut core, grants, m)?;
    let nanos = nanos_since(clock, start, grants.saturating_add(1))?;
    Ok(Cost { told: 0, nanos })
}

/// Who asks first when much falls due.
#[derive(Clone, Copy)]
enum Asker {
    /// A host that has a lease of one port, which it renews.
    Renewing,
    /// A new host, for one port.
    New,
    /// A new host, for two ports of the protocol of most leases: it pays for all that is due.
    NewWithSet,
    /// The last host whose lease is among those that end, where its quota is as many ports as it had:
    /// it pays for all that is due.
    AtQuota,
}

impl Asker {
    /// The names of both lines: when leases end, and when their ports rest no more.
    fn names(self) -> [&'static str; 2] {
        match self {
            Asker::Renewing => ["renewal-at-ends", "renewal-at-rests"],
            Asker::New => ["grant-at-ends", "grant-at-rests"],
            Asker::NewWithSet => ["set-at-ends", "set-at-rests"],
            Asker::AtQuota => ["quota-at-ends", "quota-at-rests"],
        }
    }

    /// How many ports a host may own where each set has so many.
    fn quota(self, ports: u16) -> u32
        ensures { (0 < result) × (result ≤ 65535) }
    {
        match self {
            Asker::AtQuota => u32::from(ports.max(1)),
            _ => 65_535,
        }
    }

    /// What is asked for when so many leases end, number 0, and when their ports rest no more, number 1.
    fn wish(self, sets: u32, number: u8) -> Wish {
        let number = u32::from(number);
        match self {
            Asker::Renewing => wish_for(0, 1, 7200),
            Asker::New => wish_for(40_000 + number, 1, 7200),
            Asker::NewWithSet => wish_for(70_000 + number, 2, 7200),
            Asker::AtQuota => wish_for(sets.saturating_sub(number), 1, 7200),
        }
    }
}

/// The first request at the moment at which so many sets of ports end, and the first at the moment at
/// which their ports rest no more.
fn due_costs<S: LeaseStore + Drop, C: CpuClock>(
    clock: &C,
    alloc: Global,
    core: LeaseCore<S>,
    sets: u32,
    ports: u16,
    asker: Asker,
) -> anyhow::Result<[Cost; 2]>
    requires { AreTerms (S.terms core) }
{
    let mut core = core_with(alloc, core, sets, ports, 120)?;
    let granted = moment(GRANTED)?;
    let lasting = ask_of(alloc, &wish_for(0, 1, 86_400));
    ask_often(alloc, &mut core, &lasting, granted, 1)?;
    let ask = ask_of(alloc, &asker.wish(sets, 0));
    let ended = cost_often(clock, alloc, &mut core, &ask, moment(ENDED)?, 1)?;
    let ask = ask_of(alloc, &asker.wish(sets, 1));
    let rested = cost_often(clock, alloc, &mut core, &ask, moment(RESTED)?, 1)?;
    Ok([ended, rested])
}

/// What each line is told by: whether times are, and the nanoseconds of both plain requests.
#[derive(Clone, Copy)]
struct Scale {
    tells: bool,
    plain: u64,
    renewal: u64,
}

/// Tells a ratio with one decimal.
fn print_ratio(rt: &HostRuntime, nanos: u64, one: u64) -> anyhow::Result<()> {
    let tenths = nanos.saturating_mul(10) / one.max(1);
    print!(rt; " {}.{}", tenths / 10, tenths % 10)?;
    Ok(())
}

/// Tells a line.
fn print_line(
    rt: &HostRuntime,
    scale: &Scale,
    name: &str,
    count: u32,
    cost: &Cost,
) -> anyhow::Result<()> {
    print!(rt; "{name} {count} {}", cost.told)?;
    if scale.tells {
        print!(rt; " {}", cost.nanos)?;
        print_ratio(rt, cost.nanos, scale.plain)?;
        print_ratio(rt, cost.nanos, scale.renewal)?;
    }
    println!(rt; "")?;
    Ok(())
}

/// A core on which a host may own as many ports as there are.
fn wide_core(alloc: Global) -> anyhow::Result<Core>
    ensures { IfOk result (λ core. AreTerms core.terms) }
{
    indexed(alloc, 65_535)
}

/// Both plain requests.
fn run_plain(rt: &HostRuntime, tells: bool, rounds: u32) -> anyhow::Result<Scale> {
    let alloc = rt.alloc();
    let refused = plain_cost(rt, alloc, wide_core(alloc)?, rounds)?;
    let renewed = renewal_cost(rt, alloc, wide_core(alloc)?, 1, rounds)?;
    let scale = Scale {
        tells,
        plain: refused.nanos,
        renewal: renewed.nanos,
    };
    print_line(rt, &scale, "plain", 1, &refused)?;
    Ok(scale)
}

/// Requests that leave no record beside what has ended.
fn run_ended(rt: &HostRuntime, scale: &Scale, rounds: u32) -> anyhow::Result<()> {
    let alloc = rt.alloc();
    let cost = ended_ports_cost(rt, alloc, wide_core(alloc)?, rounds)?;
    print_line(rt, scale, "ended-ports", 4096, &cost)?;
    for ports in [64, 4096] {
        let cost = ended_singles_cost(rt, alloc, wide_core(alloc)?, ports, rounds)?;
        print_line(rt, scale, "ended-singles", u32::from(ports), &cost)?;
    }
    let cost = ended_leases_cost(rt, alloc, wide_core(alloc)?, rounds)?;
    print_line(rt, scale, "ended-leases", MANY, &cost)
}

/// Renewals of sets, and their grants with their deletions.
fn run_sets(rt: &HostRuntime, scale: &Scale, rounds: u32) -> anyhow::Result<()> {
    let alloc = rt.alloc();
    for ports in [1, 64, 512, 4096] {
        let count = u32::from(ports);
        let cost = renewal_cost(rt, alloc, wide_core(alloc)?, ports, rounds)?;
        print_line(rt, scale, "renewal", count, &cost)?;
        let cost = grant_cost(rt, alloc, wide_core(alloc)?, ports, rounds)?;
        print_line(rt, scale, "grant-and-deletion", count, &cost)?;
    }
    Ok(())
}

/// Openings of journals of the first format.
fn run_openings(rt: &HostRuntime, scale: &Scale) -> anyhow::Result<()> {
    let alloc = rt.alloc();
    for grants in [4000, 32_768] {
        let cost = opening_cost(rt, alloc, wide_core(alloc)?, grants)?;
        print_line(rt, scale, "opening", grants, &cost)?;
    }
    Ok(())
}

/// The cost in the middle, by its time.
fn middle(mut costs: Vec<Cost>) -> anyhow::Result<Cost> {
    costs.sort_unstable_by_key(|cost| cost.nanos);
    costs
        .get(costs.len() / 2)
        .copied()
        .context("nothing is timed")
}

/// First requests of an asker on so many cores: what is in the middle of each.
fn middle_due_costs(
    rt: &HostRuntime,
    cores: usize,
    sets: u32,
    ports: u16,
    asker: Asker,
) -> anyhow::Result<[Cost; 2]> {
    let alloc = rt.alloc();
    let mut ended = Vec::new(alloc);
    let mut rested = Vec::new(alloc);
    for _core in 0..cores {
        let core = indexed(alloc, asker.quota(ports))?;
        let [first, second] = due_costs(rt, alloc, core, sets, ports, asker)?;
        ended.push(first)?;
        rested.push(second)?;
    }
    Ok([middle(ended)?, middle(rested)?])
}

/// First requests when so many sets of ports fall due.
fn run_due(rt: &HostRuntime, scale: &Scale, sets: u32, ports: u16) -> anyhow::Result<()> {
    let cores = if scale.tells { CORES } else { 1 };
    for asker in [
        Asker::Renewing,
        Asker::New,
        Asker::NewWithSet,
        Asker::AtQuota,
    ] {
        let [ended, rested] = middle_due_costs(rt, cores, sets, ports, asker)?;
        let [at_ends, at_rests] = asker.names();
        print_line(rt, scale, at_ends, sets, &ended)?;
        print_line(rt, scale, at_rests, sets, &rested)?;
    }
    Ok(())
}

/// Makes the requests of each pattern.
pub(crate) fn run(rt: &HostRuntime, words: &[String]) -> anyhow::Result<()> {
    let tells = words.first().is_some_and(|word| word.as_str() == "times");
    let counts = if tells { &words[1..] } else { words };
    let [rounds] = counts else {
        bail!("a count of rounds is wanted");
    };
    let rounds = rounds.parse::<u32>().context("reading the rounds")?;
    let scale = run_plain(rt, tells, rounds)?;
    run_ended(rt, &scale, rounds)?;
    run_sets(rt, &scale, rounds)?;
    run_openings(rt, &scale)?;
    run_due(rt, &scale, 15, 4096)?;
    run_due(rt, &scale, MANY, 2)
}
