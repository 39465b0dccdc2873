//! Requests that numbers choose, which look random and are the same in each run: what comes of
//! them on the core that a server uses, beside what comes of them on a plain one.
ghost use Rattle.std.specs.Prelude.{◌≡◌, ◌<◌, ◌≤◌, IfOk, OnOk};
ghost use Rattle.lease_store.specs.LeaseTerms.{AreTerms};
ghost use Rattle.core_rows.specs.Serving.{MayServe};

use crate::making::{Profile, WIDE, indexed, plain};
use crate::requests::{Request, Told, Wish, ask_of, remote, told_of};
use crate::serving::{begun, moment, serve};
use Told::{Gone, Leased, LeasedSet, Refused};
use Wish::{AllOrNothing, Filters, Nothing, Peer, Set};
use lease_core::LeaseCore;
use lease_store::LeaseStore;
use pcp_base::{End, Endpoint, MapLease, Memory, Moment, Owner, PeerLease, Protocol, Record};
use std::alloc::Global;
use std::test::Fail;

/// The number below `count` that comes next.
fn below(state: &mut u64, count: u16) -> u16
    requires { 0 < count }
    ensures { result < count }
{
    *state = state.wrapping_mul(0x5851_F42D_4C95_7F2D).wrapping_add(1);
    ((*state >> 33) % u64::from(count)) as u16
}

/// 198.51.100.0 to 198.51.100.3
fn any_peer(state: &mut u64) -> [u8; 4] {
    [198, 51, 100, below(state, 4) as u8]
}

/// Six filters, three others, which are too many beside these, or such as begin anew.
fn any_filters(state: &mut u64) -> Wish {
    match below(state, 3) {
        0 => Filters(&[
            (128, [198, 51, 100, 1], 1),
            (128, [198, 51, 100, 1], 2),
            (128, [198, 51, 100, 1], 3),
            (128, [198, 51, 100, 1], 4),
            (128, [198, 51, 100, 1], 5),
            (128, [198, 51, 100, 1], 6),
        ]),
        1 => Filters(&[
            (128, [198, 51, 100, 2], 0),
            (127, [198, 51, 100, 2], 53),
            (128, [198, 51, 100, 3], 54),
        ]),
        _ => Filters(&[(0, [0, 0, 0, 0], 0), (126, [198, 51, 100, 0], 53)]),
    }
}

fn any_wish(state: &mut u64) -> Wish {
    match below(state, 10) {
        0 => AllOrNothing,
        1 => Set(2),
        2 => Set(1 + below(state, 8)),
        3 | 4 => any_filters(state),
        5 => Peer(any_peer(state), 53),
        6 => Peer(any_peer(state), 54 + below(state, 2)),
        _ => Nothing,
    }
}

/// Seconds, of which fewer than 120 are granted as 120; none deletes, which no filter goes with.
fn any_lifetime(state: &mut u64, wish: Wish) -> u32 {
    match below(state, 8) {
        0 | 1 => match wish {
            Filters(_) => 500,
            _ => 0,
        },
        2 => 100,
        n => 100 * u32::from(n),
    }
}

/// No port, or one of those that are given, or the one behind them.
fn any_suggested(state: &mut u64) -> u16 {
    match below(state, 3) {
        0 => 1024 + below(state, 21),
        _ => 0,
    }
}

/// The other nonce in one of eight.
fn any_nonce(state: &mut u64) -> u8 {
    match below(state, 8) {
        0 => 2,
        _ => 1,
    }
}

/// A request of one of four hosts, of one of 8 ports.
fn any_request(state: &mut u64) -> Request {
    let host = 5 + below(state, 4) as u8;
    let port = 6000 + below(state, 8);
    let nonce = any_nonce(state);
    let wish = any_wish(state);
    let lifetime = any_lifetime(state, wish);
    Request(host, port, nonce, lifetime, any_suggested(state), wish)
}

/// `now`, or up to 15 seconds later, or, in one of 32, a time in which leases and rests end.
fn any_later(state: &mut u64, now: u32) -> u32
    ensures { now ≤ result }
{
    let passed = match below(state, 32) {
        0 => below(state, 500),
        n => n / 2,
    };
    now.saturating_add(u32::from(passed))
}

/// What is answered, and then how many leases there are, and who has an external port.
#[derive(Clone, Copy, PartialEq, Eq)]
struct Turn {
    told: Told,
    leases: u32,
    found: Option<Endpoint>,
}

/// What comes of a request and of a look-up at `m`.
fn next_turn<S: LeaseStore>(
    alloc: Global,
    core: &mut LeaseCore<S>,
    m: Moment,
    state: &mut u64,
) -> Result<Turn, Fail>
    requires may { MayServe (S.state core.old) (S.terms core.old) }
    requires later { S.reached core.old ≤ m }
    ensures may { OnOk result (MayServe (S.state core.new) (S.terms core.new)) }
    ensures reached { OnOk result (S.reached core.new ≤ m) }
{
    let ask = ask_of(alloc, &any_request(state))?;
    let answer = serve(alloc, core, &ask, m)?;
    let port = 1024 + below(state, 20);
    let peer = remote(any_peer(state));
    Ok(Turn {
        told: told_of(&answer),
        leases: core.leases(m),
        found: core.look(Protocol::Udp, port, &peer, 53, m),
    })
}

/// What comes of so many requests.
fn turns_of<S: LeaseStore>(
    alloc: Global,
    core: &mut LeaseCore<S>,
    seed: u64,
    count: u32,
) -> Result<Vec<Turn>, Fail>
    requires may { MayServe (S.state core.old) (S.terms core.old) }
    requires reached { S.reached core.old ≡ 1000 }
    ensures may { OnOk result (MayServe (S.state core.new) (S.terms core.new)) }
{
    let mut state = seed;
    let mut now = 1000;
    let mut turns = Vec::new(alloc);
    for _ in 0..count {
        now = any_later(&mut state, now);
        turns.push(next_turn(alloc, core, moment(now), &mut state)?)?;
    }
    Ok(turns)
}

/// The leases that are live.
#[derive(Drop)]
struct Leases {
    maps: Vec<MapLease>,
    peers: Vec<PeerLease>,
}

/// The ports that are owned, and those that may rest.
#[derive(Drop)]
struct Ports {
    owners: Vec<Owner>,
    ends: Vec<End>,
}

/// What comes of requests, and what stands then.
#[derive(Drop)]
struct Run {
    turns: Vec<Turn>,
    leases: Leases,
    ports: Ports,
    records: Vec<Record>,
}

fn leases_of<S: LeaseStore>(alloc: Global, core: &LeaseCore<S>) -> Result<Leases, Memory>
    requires { MayServe (S.state core.now) (S.terms core.now) }
{
    let m = core.last();
    Ok(Leases {
        maps: core.maps(alloc, m)?,
        peers: core.peers(alloc, m)?,
    })
}

fn ports_of<S: LeaseStore>(alloc: Global, core: &LeaseCore<S>) -> Result<Ports, Memory>
    requires { MayServe (S.state core.now) (S.terms core.now) }
{
    let m = core.last();
    Ok(Ports {
        owners: core.owners(alloc, m)?,
        ends: core.ends(alloc)?,
    })
}

fn records_of<S: LeaseStore>(alloc: Global, core: &LeaseCore<S>) -> Result<Vec<Record>, Memory>
    requires { MayServe (S.state core.now) (S.terms core.now) }
{
    let mut records: Vec<Record> = Vec::new(alloc);
    core.add_records(&mut records)?;
    Ok(records)
}

fn run_on<S: LeaseStore + Drop>(
    alloc: Global,
    made: Result<LeaseCore<S>, Fail>,
    seed: u64,
    count: u32,
) -> Result<Run, Fail>
    requires { IfOk made (λ core. AreTerms (S.terms core)) }
{
    let mut core = begun(alloc, made)?;
    Ok(Run {
        turns: turns_of(alloc, &mut core, seed, count)?,
        leases: leases_of(alloc, &core)?,
        ports: ports_of(alloc, &core)?,
        records: records_of(alloc, &core)?,
    })
}

/// A run on the core that a server uses, and the same run on a plain one.
fn runs_of(alloc: Global, profile: Profile, seed: u64, count: u32) -> Result<(Run, Run), Fail> {
    let on_indexed = run_on(alloc, indexed(alloc, profile), seed, count)?;
    let on_plain = run_on(alloc, plain(alloc, profile), seed, count)?;
    Ok((on_indexed, on_plain))
}

/// The first turn in which the runs differ.
fn first_difference(run: &Run, other: &Run) -> Option<usize> {
    if run.turns.len() != other.turns.len() {
        return Some(run.turns.len());
    }
    run.turns
        .iter()
        .zip(other.turns.iter())
        .position(|(a, b)| a != b)
}

fn have_same_leases(leases: &Leases, others: &Leases) -> bool {
    leases.maps.as_slice() == others.maps.as_slice()
        && leases.peers.as_slice() == others.peers.as_slice()
}

fn have_same_ports(ports: &Ports, others: &Ports) -> bool {
    ports.owners.as_slice() == others.owners.as_slice()
        && ports.ends.as_slice() == others.ends.as_slice()
}

/// Whether the runs leave the same.
fn leave_same(run: &Run, other: &Run) -> bool {
    have_same_leases(&run.leases, &other.leases)
        && have_same_ports(&run.ports, &other.ports)
        && run.records.as_slice() == other.records.as_slice()
}

/// How many turns are answered so.
fn refused(turns: &[Turn], code: u8) -> usize {
    turns
        .iter()
        .filter(|turn| matches!(turn.told, Refused(number, _) if number == code))
        .count()
}

/// Whether each kind of success came, and a packet found its way.
fn has_all_kinds(turns: &[Turn]) -> bool {
    turns.iter().any(|turn| matches!(turn.told, Leased(..)))
        && turns.iter().any(|turn| matches!(turn.told, LeasedSet(..)))
        && turns.iter().any(|turn| turn.told == Gone)
        && turns.iter().any(|turn| turn.found != None)
}

#[test]
fn both_cores_answer_alike(rt: HostRuntime) -> Result<(), Fail> {
    let (run, other) = runs_of(rt.alloc(), Profile(1024, 1043, 7), 7, 20_000)?;
    let first = first_difference(&run, &other);
    assert!(rt; first.is_none(), "turn {first:?}");
    assert!(rt; leave_same(&run, &other) && has_all_kinds(&run.turns));
    for code in [2, 8, 10, 11, 13] {
        assert!(rt; refused(&run.turns, code) > 0, "code {code}");
    }
    Ok(())
}

#[test]
fn both_cores_answer_alike_of_all_ports(rt: HostRuntime) -> Result<(), Fail> {
    let (run, other) = runs_of(rt.alloc(), WIDE, 8, 2000)?;
    let first = first_difference(&run, &other);
    assert!(rt; first.is_none(), "turn {first:?}");
    assert!(rt; leave_same(&run, &other));
    Ok(())
}
