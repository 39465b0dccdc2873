//! What is decided on MAP requests (RFC 6887, sections 11.3, 13 and 15; sets of ports: RFC 7753).
ghost use Rattle.std.specs.Prelude.{◌≡◌, ◌+◌, ◌-◌, ◌*◌, ◌<◌, ◌≤◌, ◌^◌, ◌&&◌, ◌==◌, not, is_none, is_some, ℕ, true, false, [], None, Some, Ok, if◌then◌else◌};
ghost use Rattle.pcp_base.specs.declared.asks.Ask.TheVariants.{Map};
ghost use Rattle.pcp_base.specs.States.{State};
ghost use Rattle.pcp_base.specs.Asks.{IsMapAsk};
ghost use Rattle.pcp_base.specs.Reached.{IsReached};
ghost use Rattle.pcp_base.specs.Tables.{IsMapLease, covers};
ghost use Rattle.filter_rules.specs.Filters.{fold_filters as folded};
ghost use Rattle.lease_store.specs.LeaseTerms.{AreTerms};
ghost use Rattle.lease_store.specs.Lookups.{covering, named_port};
ghost use Rattle.pcp_base.specs.declared.codes.Code.TheVariants.{ExcessiveRemotePeers};
ghost use Rattle.lease_core.specs.Answers.{decision, is_address_met, is_port_met, port_within, refused};
ghost use Rattle.lease_core.specs.DecideMap.{covered, decide_map, has_excess, is_wanted, mapped, new_lease, parity_of, port_told, renewed, room_inside, set_told, size_asked, uncovered};
ghost use Rattle.lease_core.specs.Chosen.{chosen, chosen_by, granted_by, pick_ask};
ghost use Rattle.lease_core.specs.Decide.{inside_asked, is_picked, picking, ports_asked};

use crate::answers::{
    code_of, expiry_of, gone, granted_lifetime, is_address_met, is_port_met, port_within, refused,
    refused_until, without_room,
};
use external_pool::{PickAsk, Picked};
use filter_rules::fold_filters;
use lease_store::{LeaseStore, Terms};
use pcp_base::{
    Answer, Change, Code, Filters, MOST_PORTS, MapAsk, MapLease, Moment, PortSet, Record,
};
use std::sync::ledger::Ledger;
use step_count::Steps;

/// The external port that is told.
fn port_told(ask: &MapAsk, lease: &MapLease) -> u16
    requires { port_within ask.now.endpoint lease.now < 2 ^ 16 }
    ensures { result ≡ port_told ask.now lease.now }
{
    match ask.set {
        None => port_within(&ask.endpoint, lease),
        Some(_set) => {
            if lease.count > 1 {
                lease.external
            } else {
                port_within(&ask.endpoint, lease)
            }
        }
    }
}

/// The set that is told, if any.
fn set_told(asked: Option<PortSet>, lease: &MapLease) -> Option<PortSet>
    ensures { result ≡ set_told asked lease.now }
{
    let set = asked?;
    if lease.count <= 1 {
        return None;
    }
    Some(PortSet {
        size: lease.count,
        first: lease.internal,
        parity: set.parity,
    })
}

/// The lease is granted or renewed. It leaves the record in `kept`.
fn mapped(
    terms: &Terms,
    m: Moment,
    ask: &MapAsk,
    lease: MapLease,
    kept: &mut Option<Record>,
) -> Answer
    requires { port_within ask.now.endpoint lease < 2 ^ 16 }
    ensures { decision result kept.new ≡ mapped terms.now m ask.now lease }
{
    let answer = Answer::Mapped {
        lifetime: granted_lifetime(terms, ask.lifetime),
        external: port_told(ask, &lease),
        address: terms.external.address,
        set: set_told(ask.set, &lease),
    };
    *kept = Some(Record {
        moment: m,
        change: Change::Map(lease),
    });
    answer
}

/// Whether the port that would be told and the external address are the suggested ones.
fn is_met(terms: &Terms, ask: &MapAsk, lease: &MapLease) -> bool
    requires { port_within ask.now.endpoint lease.now < 2 ^ 16 }
    ensures { result ≡ (is_port_met ask.now.port (port_told ask.now lease.now)
        && is_address_met ask.now.address terms.now.external.address) }
{
    is_port_met(ask.port, port_told(ask, lease))
        && is_address_met(&ask.address, &terms.external.address)
}

/// The lease is renewed, unless it would have too many filters. It leaves the record in `kept`.
fn renew(
    terms: &Terms,
    m: Moment,
    ask: &MapAsk,
    lease: &MapLease,
    kept: &mut Option<Record>,
) -> Answer
    requires within { port_within ask.now.endpoint lease.now < 2 ^ 16 }
    requires none { kept.old ≡ None }
    ensures { decision result kept.new
        ≡ (if has_excess lease.now.filters ask.now then refused ExcessiveRemotePeers
        else mapped terms.now m ask.now (renewed terms.now m ask.now lease.now)) }
{
    let Ok(filters) = fold_filters(&lease.filters, ask.filters.items()) else {
        return refused(Code::ExcessiveRemotePeers);
    };
    let renewed = MapLease {
        expiry: expiry_of(terms, m, ask.lifetime),
        filters,
        ..*lease
    };
    mapped(terms, m, ask, renewed, kept)
}

/// What is decided where this live lease covers the endpoint. It leaves the record in `kept`.
fn decide_covered(
    terms: &Terms,
    m: Moment,
    ask: &MapAsk,
    lease: &MapLease,
    kept: &mut Option<Record>,
) -> Answer
    requires within { port_within ask.now.endpoint lease.now < 2 ^ 16 }
    requires none { kept.old ≡ None }
    ensures { decision result kept.new ≡ covered terms.now m ask.now lease.now }
{
    if lease.nonce != ask.nonce {
        return refused_until(m, lease.expiry);
    }
    if ask.lifetime == 0 {
        return gone(m, Change::DropMap(lease.first_endpoint()), kept);
    }
    if ask.prefer && !is_met(terms, ask, lease) {
        return refused(Code::CannotProvideExternal);
    }
    renew(terms, m, ask, lease, kept)
}

/// How many ports are asked for.
fn size_asked(ask: &MapAsk) -> u32
    ensures { result ≡ size_asked ask.now }
{
    match ask.set {
        None => 1,
        Some(set) => u32::from(set.size),
    }
}

/// The remainder by 2 that the first external port is to have, if one is asked.
fn parity_of(set: Option<PortSet>, internal: u16) -> Option<u8>
    ensures { result ≡ parity_of set internal }
{
    let set = set?;
    if set.parity {
        Some((internal % 2) as u8)
    } else {
        None
    }
}

/// How many ports may be given from the endpoint on, apart from the quota.
fn room_inside<S: LeaseStore, L: Ledger>(
    store: &S,
    m: Moment,
    ask: &MapAsk,
    steps: &mut Steps<L>,
) -> u32
    requires sound { IsReached (S.state store.now) }
    requires reached { S.reached store.now ≡ m }
    requires ask { IsMapAsk ask.now }
    ensures room { result ≡ room_inside (S.state store.now) m ask.now }
    ensures few { result ≤ ports_asked (Map ask.now) }
    ensures steps { steps.new
        ≤ steps.old + inside_asked (Map ask.now) * S.look_steps (S.state store.now) }
{
    let size = size_asked(ask).min(u32::from(MOST_PORTS));
    if size == 1 {
        return 1;
    }
    let most = size.min(65536 - u32::from(ask.endpoint.port));
    store.room_inside(&ask.endpoint, most, steps)
}

/// What a pool is asked for.
fn pick_ask<S: LeaseStore, L: Ledger>(
    store: &S,
    m: Moment,
    ask: &MapAsk,
    steps: &mut Steps<L>,
) -> PickAsk
    requires sound { IsReached (S.state store.now) }
    requires reached { S.reached store.now ≡ m }
    requires ask { IsMapAsk ask.now }
    ensures asks { result ≡ pick_ask (S.terms store.now) (S.state store.now) m ask.now }
    ensures few { result.room ≤ ports_asked (Map ask.now) }
    ensures steps { steps.new
        ≤ steps.old + inside_asked (Map ask.now) * S.look_steps (S.state store.now) }
{
    let address = store.terms().external.address;
    PickAsk {
        internal: ask.endpoint.port,
        suggested: ask.port,
        asked: size_asked(ask),
        room: room_inside(store, m, ask, steps),
        parity: parity_of(ask.set, ask.endpoint.port),
        must: ask.prefer,
        here: is_address_met(&ask.address, &address),
    }
}

/// The ports that are picked, or why none are.
fn pick_ports<S: LeaseStore, L: Ledger>(
    store: &mut S,
    m: Moment,
    ask: &MapAsk,
    steps: &mut Steps<L>,
) -> Result<Picked, Code>
    requires sound { IsReached (S.state store.old) }
    requires reached { S.reached store.old ≡ m }
    requires ask { IsMapAsk ask.now }
    ensures ports { result ≡ chosen_by None (S.terms store.old) (S.state store.old) m ask.now }
    ensures state { S.state store.new ≡ S.state store.old }
    ensures reached { S.reached store.new ≡ m }
    ensures terms { S.terms store.new ≡ S.terms store.old }
    ensures steps { let s = S.state store.old in steps.new
        ≤ steps.old + picking (S.look_steps s) (S.pick_steps store.old m) (Map ask.now) }
{
    let port_ask = pick_ask(store, m, ask, steps);
    match store.pick(&ask.endpoint, &port_ask, steps) {
        Ok(run) => Ok(run),
        Err(refused) => Err(code_of(refused)),
    }
}

/// Whether the ports are all that was asked for and suggested.
fn is_wanted(terms: &Terms, ask: &MapAsk, run: Picked) -> bool
    ensures { result ≡ is_wanted terms.now ask.now (Some run) }
{
    run.count == size_asked(ask)
        && is_port_met(ask.port, run.start)
        && is_address_met(&ask.address, &terms.external.address)
}

/// The port that a PEER lease gives the endpoint, unless PREFER_FAILURE wants another.
fn judge_named(terms: &Terms, ask: &MapAsk, port: u16) -> Result<Picked, Code>
    ensures { (s : State) (m : ℕ) → result ≡ chosen_by (Some port) terms.now s m ask.now }
{
    let run = Picked {
        start: port,
        count: 1,
    };
    if ask.prefer && !is_wanted(terms, ask, run) {
        return Err(Code::CannotProvideExternal);
    }
    Ok(run)
}

/// The ports that a new lease is given, or why there are none.
fn choose<S: LeaseStore, L: Ledger>(
    store: &mut S,
    m: Moment,
    ask: &MapAsk,
    steps: &mut Steps<L>,
) -> Result<Picked, Code>
    requires sound { IsReached (S.state store.old) }
    requires reached { S.reached store.old ≡ m }
    requires ask { IsMapAsk ask.now }
    ensures ports { result ≡ chosen (S.terms store.old) (S.state store.old) m ask.now }
    ensures state { S.state store.new ≡ S.state store.old }
    ensures reached { S.reached store.new ≡ m }
    ensures terms { S.terms store.new ≡ S.terms store.old }
    ensures steps { let s = S.state store.old in steps.new ≤ steps.old + S.look_steps s
        + (if is_none (named_port s.table m ask.now.endpoint)
        then picking (S.look_steps s) (S.pick_steps store.old m) (Map ask.now) else 0) }
{
    match store.named_port(&ask.endpoint, steps) {
        Some(port) => judge_named(&store.terms(), ask, port),
        None => pick_ports(store, m, ask, steps),
    }
}

/// A lease of these ports, unless it would have too many filters. It leaves the record in `kept`.
fn grant_new(
    terms: &Terms,
    m: Moment,
    ask: &MapAsk,
    run: Picked,
    kept: &mut Option<Record>,
) -> Answer
    requires few { run.count < 2 ^ 16 }
    requires none { kept.old ≡ None }
    ensures { decision result kept.new
        ≡ (if has_excess [] ask.now then refused ExcessiveRemotePeers
        else mapped terms.now m ask.now (new_lease terms.now m ask.now run)) }
{
    let Ok(filters) = fold_filters(&Filters::none(), ask.filters.items()) else {
        return refused(Code::ExcessiveRemotePeers);
    };
    let lease = MapLease {
        address: ask.endpoint.address,
        protocol: ask.endpoint.protocol,
        internal: ask.endpoint.port,
        count: run.count as u16,
        external: run.start,
        nonce: ask.nonce,
        granted: m,
        expiry: expiry_of(terms, m, ask.lifetime),
        filters,
    };
    mapped(terms, m, ask, lease, kept)
}

/// A lease of these ports, unless there is no room for it or it would have too many filters. It
/// leaves the record in `kept`.
fn grant_with_room<S: LeaseStore, L: Ledger>(
    store: &S,
    m: Moment,
    ask: &MapAsk,
    run: Picked,
    kept: &mut Option<Record>,
    steps: &mut Steps<L>,
) -> Answer
    requires sound { IsReached (S.state store.now) }
    requires reached { S.reached store.now ≡ m }
    requires few { run.count < 2 ^ 16 }
    requires none { kept.old ≡ None }
    ensures decided { decision result kept.new
        ≡ granted_by (S.terms store.now) (S.state store.now) m ask.now (Ok run) }
    ensures steps { steps.new ≤ steps.old + S.look_steps (S.state store.now) }
{
    if !store.has_room(steps) {
        return refused(Code::NoResources);
    }
    grant_new(&store.terms(), m, ask, run, kept)
}

/// What is decided where PREFER_FAILURE is asked, which is answered before a want of room. It leaves
/// the record in `kept`.
fn grant_preferred<S: LeaseStore, L: Ledger>(
    store: &mut S,
    m: Moment,
    ask: &MapAsk,
    kept: &mut Option<Record>,
    steps: &mut Steps<L>,
) -> Answer
    requires sound { IsReached (S.state store.old) }
    requires reached { S.reached store.old ≡ m }
    requires ask { IsMapAsk ask.now }
    requires none { kept.old ≡ None }
    ensures decided { decision result kept.new
        ≡ granted_by (S.terms store.old) (S.state store.old) m ask.now
        (chosen (S.terms store.old) (S.state store.old) m ask.now) }
    ensures state { S.state store.new ≡ S.state store.old }
    ensures reached { S.reached store.new ≡ m }
    ensures terms { S.terms store.new ≡ S.terms store.old }
    ensures steps { let s = S.state store.old in steps.new ≤ steps.old + 2 * S.look_steps s
        + (if is_none (named_port s.table m ask.now.endpoint)
        then picking (S.look_steps s) (S.pick_steps store.old m) (Map ask.now) else 0) }
{
    match choose(store, m, ask, steps) {
        Ok(run) => grant_with_room(store, m, ask, run, kept, steps),
        Err(code) => refused(code),
    }
}

/// What is decided where PREFER_FAILURE isn't asked: no port is picked where there is no room for a
/// lease. It leaves the record in `kept`.
fn grant_any<S: LeaseStore, L: Ledger>(
    store: &mut S,
    m: Moment,
    ask: &MapAsk,
    kept: &mut Option<Record>,
    steps: &mut Steps<L>,
) -> Answer
    requires sound { IsReached (S.state store.old) }
    requires reached { S.reached store.old ≡ m }
    requires ask { IsMapAsk ask.now }
    requires any { ask.now.prefer ≡ false }
    requires none { kept.old ≡ None }
    ensures decided { decision result kept.new
        ≡ granted_by (S.terms store.old) (S.state store.old) m ask.now
        (chosen (S.terms store.old) (S.state store.old) m ask.now) }
    ensures state { S.state store.new ≡ S.state store.old }
    ensures reached { S.reached store.new ≡ m }
    ensures terms { S.terms store.new ≡ S.terms store.old }
    ensures steps { let s = S.state store.old in steps.new ≤ steps.old + 2 * S.look_steps s
        + (if is_none (named_port s.table m ask.now.endpoint)
        then picking (S.look_steps s) (S.pick_steps store.old m) (Map ask.now) else 0) }
{
    if !store.has_room(steps) {
        let named = store.named_port(&ask.endpoint, steps);
        return refused(without_room(store, m, &ask.endpoint.address, named, steps));
    }
    match choose(store, m, ask, steps) {
        Ok(run) => grant_new(&store.terms(), m, ask, run, kept),
        Err(code) => refused(code),
    }
}

/// What is decided on a MAP request that no live lease covers, and that is no deletion. It leaves
/// the record in `kept`.
fn grant<S: LeaseStore, L: Ledger>(
    store: &mut S,
    m: Moment,
    ask: &MapAsk,
    kept: &mut Option<Record>,
    steps: &mut Steps<L>,
) -> Answer
    requires sound { IsReached (S.state store.old) }
    requires reached { S.reached store.old ≡ m }
    requires ask { IsMapAsk ask.now }
    requires none { kept.old ≡ None }
    ensures decided { decision result kept.new
        ≡ granted_by (S.terms store.old) (S.state store.old) m ask.now
        (chosen (S.terms store.old) (S.state store.old) m ask.now) }
    ensures state { S.state store.new ≡ S.state store.old }
    ensures reached { S.reached store.new ≡ m }
    ensures terms { S.terms store.new ≡ S.terms store.old }
    ensures steps { let s = S.state store.old in steps.new ≤ steps.old + 2 * S.look_steps s
        + (if is_none (named_port s.table m ask.now.endpoint)
        then picking (S.look_steps s) (S.pick_steps store.old m) (Map ask.now) else 0) }
{
    if ask.prefer {
        return grant_preferred(store, m, ask, kept, steps);
    }
    grant_any(store, m, ask, kept, steps)
}

/// What is decided on a MAP request that no live lease covers. It leaves the record in `kept`.
fn decide_uncovered<S: LeaseStore, L: Ledger>(
    store: &mut S,
    m: Moment,
    ask: &MapAsk,
    kept: &mut Option<Record>,
    steps: &mut Steps<L>,
) -> Answer
    requires sound { IsReached (S.state store.old) }
    requires reached { S.reached store.old ≡ m }
    requires ask { IsMapAsk ask.now }
    requires none { kept.old ≡ None }
    ensures decided { decision result kept.new
        ≡ uncovered (S.terms store.old) (S.state store.old) m ask.now
        (named_port (S.state store.old).table m ask.now.endpoint) }
    ensures state { S.state store.new ≡ S.state store.old }
    ensures reached { S.reached store.new ≡ m }
    ensures terms { S.terms store.new ≡ S.terms store.old }
    ensures steps { let s = S.state store.old in steps.new ≤ steps.old + 2 * S.look_steps s
        + (if not (ask.now.lifetime == 0) && is_none (named_port s.table m ask.now.endpoint)
        then picking (S.look_steps s) (S.pick_steps store.old m) (Map ask.now) else 0) }
{
    if ask.lifetime == 0 {
        return Answer::Gone;
    }
    grant(store, m, ask, kept, steps)
}

/// What is decided on a MAP request that a live lease covers. It leaves the record in `kept`.
#[inline(never)]
fn decide_held<S: LeaseStore, L: Ledger>(
    store: &S,
    m: Moment,
    ask: &MapAsk,
    kept: &mut Option<Record>,
    steps: &mut Steps<L>,
) -> Answer
    requires sound { IsReached (S.state store.now) }
    requires reached { S.reached store.now ≡ m }
    requires ask { IsMapAsk ask.now }
    requires none { kept.old ≡ None }
    requires covered { is_some
        (covering (S.state store.now).table (S.reached store.now) ask.now.endpoint) ≡ true }
    ensures decided { decision result kept.new
        ≡ decide_map (S.terms store.now) (S.state store.now) m ask.now }
    ensures steps { steps.new ≤ steps.old + S.look_steps (S.state store.now) }
{
    match store.covering(&ask.endpoint, steps) {
        Some(lease) => decide_covered(&store.terms(), m, ask, &lease, kept),
        None => unreachable!(),
    }
}

/// What is decided on a MAP request at the moment reached. It leaves the record in `kept`.
pub(crate) fn decide_map<S: LeaseStore, L: Ledger>(
    store: &mut S,
    m: Moment,
    ask: &MapAsk,
    kept: &mut Option<Record>,
    steps: &mut Steps<L>,
) -> Answer
    requires sound { IsReached (S.state store.old) }
    requires reached { S.reached store.old ≡ m }
    requires ask { IsMapAsk ask.now }
    requires none { kept.old ≡ None }
    ensures decided { decision result kept.new
        ≡ decide_map (S.terms store.old) (S.state store.old) m ask.now }
    ensures state { S.state store.new ≡ S.state store.old }
    ensures reached { S.reached store.new ≡ m }
    ensures terms { S.terms store.new ≡ S.terms store.old }
    ensures steps { let s = S.state store.old in steps.new ≤ steps.old + 3 * S.look_steps s
        + (if is_picked s m (Map ask.now)
        then picking (S.look_steps s) (S.pick_steps store.old m) (Map ask.now) else 0) }
{
    // A copy of the lease is made only where there is one.
    if store.is_covered(&ask.endpoint, steps) {
        return decide_held(store, m, ask, kept, steps);
    }
    decide_uncovered(store, m, ask, kept, steps)
}
