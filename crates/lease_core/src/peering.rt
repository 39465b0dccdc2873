//! What is decided on PEER requests (RFC 6887, sections 12.3 and 15).
ghost use Rattle.std.specs.Prelude.{◌≡◌, ◌+◌, ◌*◌, ◌≤◌, true, is_none, None, if◌then◌else◌};
ghost use Rattle.pcp_base.specs.declared.asks.Ask.TheVariants.{Peer};
ghost use Rattle.pcp_base.specs.Reached.{IsReached};
ghost use Rattle.lease_core.specs.Answers.{decision};
ghost use Rattle.lease_core.specs.Decide.{is_picked};
ghost use Rattle.lease_core.specs.DecidePeer.{decide_peer, given_port, known, new_peer, peered, unknown};
ghost use Rattle.lease_core.specs.ChosenPeer.{picked_port, port_chosen, port_granted_by};

use crate::answers::{
    code_of, expiry_of, gone, granted_lifetime, port_within, refused, refused_until, without_room,
};
use external_pool::PickAsk;
use lease_store::{LeaseStore, Terms};
use pcp_base::{Answer, Change, Code, Endpoint, MOST_PEERS, Moment, PeerAsk, PeerLease, Record};
use std::sync::ledger::Ledger;
use step_count::Steps;

/// The lease is granted or renewed. It leaves the record in `kept`.
fn peered(
    terms: &Terms,
    m: Moment,
    ask: &PeerAsk,
    lease: PeerLease,
    kept: &mut Option<Record>,
) -> Answer
    ensures { decision result kept.new ≡ peered terms.now m ask.now lease }
{
    let answer = Answer::Peered {
        lifetime: granted_lifetime(terms, ask.lifetime),
        external: lease.external,
        address: terms.external.address,
    };
    *kept = Some(Record {
        moment: m,
        change: Change::Peer(lease),
    });
    answer
}

/// What is decided where there is this live lease of the endpoint and remote. It leaves the record
/// in `kept`.
fn decide_known(
    terms: &Terms,
    m: Moment,
    ask: &PeerAsk,
    lease: &PeerLease,
    kept: &mut Option<Record>,
) -> Answer
    requires { kept.old ≡ None }
    ensures { decision result kept.new ≡ known terms.now m ask.now lease.now }
{
    if lease.nonce != ask.nonce {
        return refused_until(m, lease.expiry);
    }
    if ask.lifetime == 0 {
        return gone(
            m,
            Change::DropPeer(ask.endpoint, ask.remote, ask.remote_port),
            kept,
        );
    }
    let renewed = PeerLease {
        expiry: expiry_of(terms, m, ask.lifetime),
        ..*lease
    };
    peered(terms, m, ask, renewed, kept)
}

/// A lease of this port. It leaves the record in `kept`.
fn grant_port(
    terms: &Terms,
    m: Moment,
    ask: &PeerAsk,
    port: u16,
    kept: &mut Option<Record>,
) -> Answer
    ensures { decision result kept.new
        ≡ peered terms.now m ask.now (new_peer terms.now m ask.now port) }
{
    let lease = PeerLease {
        endpoint: ask.endpoint,
        external: port,
        remote: ask.remote,
        remote_port: ask.remote_port,
        nonce: ask.nonce,
        granted: m,
        expiry: expiry_of(terms, m, ask.lifetime),
    };
    peered(terms, m, ask, lease, kept)
}

/// The external port that a live lease gives the endpoint.
fn given_port<S: LeaseStore, L: Ledger>(
    store: &S,
    m: Moment,
    endpoint: &Endpoint,
    steps: &mut Steps<L>,
) -> Option<u16>
    requires sound { IsReached (S.state store.now) }
    requires reached { S.reached store.now ≡ m }
    ensures port { result ≡ given_port (S.state store.now).table m endpoint.now }
    ensures steps { steps.new ≤ steps.old + 2 * S.look_steps (S.state store.now) }
{
    match store.covering(endpoint, steps) {
        Some(lease) => Some(port_within(endpoint, &lease)),
        None => store.named_port(endpoint, steps),
    }
}

/// The port that is picked, or why none is.
fn pick_port<S: LeaseStore, L: Ledger>(
    store: &mut S,
    m: Moment,
    ask: &PeerAsk,
    steps: &mut Steps<L>,
) -> Result<u16, Code>
    requires sound { IsReached (S.state store.old) }
    requires reached { S.reached store.old ≡ m }
    ensures port { result ≡ picked_port (S.terms store.old) (S.state store.old) m ask.now }
    ensures state { S.state store.new ≡ S.state store.old }
    ensures reached { S.reached store.new ≡ m }
    ensures terms { S.terms store.new ≡ S.terms store.old }
    ensures steps { steps.new ≤ steps.old
        + S.pick_steps store.old m ask.now.endpoint.address true + 1 }
{
    let port_ask = PickAsk {
        internal: ask.endpoint.port,
        suggested: ask.port,
        asked: 1,
        room: 1,
        parity: None,
        must: false,
        here: true,
    };
    match store.pick(&ask.endpoint, &port_ask, steps) {
        Ok(run) => Ok(run.start),
        Err(refused) => Err(code_of(refused)),
    }
}

/// The port that a new lease is given, or why there is none.
fn choose_port<S: LeaseStore, L: Ledger>(
    store: &mut S,
    m: Moment,
    ask: &PeerAsk,
    steps: &mut Steps<L>,
) -> Result<u16, Code>
    requires sound { IsReached (S.state store.old) }
    requires reached { S.reached store.old ≡ m }
    ensures port { result ≡ port_chosen (S.terms store.old) (S.state store.old) m ask.now }
    ensures state { S.state store.new ≡ S.state store.old }
    ensures reached { S.reached store.new ≡ m }
    ensures terms { S.terms store.new ≡ S.terms store.old }
    ensures steps { let s = S.state store.old in steps.new ≤ steps.old + 2 * S.look_steps s
        + (if is_none (given_port s.table m ask.now.endpoint)
        then S.pick_steps store.old m ask.now.endpoint.address true + 1 else 0) }
{
    match given_port(store, m, &ask.endpoint, steps) {
        Some(port) => Ok(port),
        None => pick_port(store, m, ask, steps),
    }
}

/// A lease of a chosen port, unless there is no room for it: then no port is picked. It leaves the
/// record in `kept`.
fn grant<S: LeaseStore, L: Ledger>(
    store: &mut S,
    m: Moment,
    ask: &PeerAsk,
    kept: &mut Option<Record>,
    steps: &mut Steps<L>,
) -> Answer
    requires sound { IsReached (S.state store.old) }
    requires reached { S.reached store.old ≡ m }
    requires none { kept.old ≡ None }
    ensures decided { decision result kept.new
        ≡ port_granted_by (S.terms store.old) (S.state store.old) m ask.now
        (port_chosen (S.terms store.old) (S.state store.old) m ask.now) }
    ensures state { S.state store.new ≡ S.state store.old }
    ensures reached { S.reached store.new ≡ m }
    ensures terms { S.terms store.new ≡ S.terms store.old }
    ensures steps { let s = S.state store.old in steps.new ≤ steps.old + 3 * S.look_steps s
        + (if is_none (given_port s.table m ask.now.endpoint)
        then S.pick_steps store.old m ask.now.endpoint.address true + 1 else 0) }
{
    if !store.has_room(steps) {
        let given = given_port(store, m, &ask.endpoint, steps);
        return refused(without_room(store, m, &ask.endpoint.address, given, steps));
    }
    match choose_port(store, m, ask, steps) {
        Ok(port) => grant_port(&store.terms(), m, ask, port, kept),
        Err(code) => refused(code),
    }
}

/// What is decided where there is no live lease of the endpoint and remote. It leaves the record in
/// `kept`.
fn decide_unknown<S: LeaseStore, L: Ledger>(
    store: &mut S,
    m: Moment,
    ask: &PeerAsk,
    kept: &mut Option<Record>,
    steps: &mut Steps<L>,
) -> Answer
    requires sound { IsReached (S.state store.old) }
    requires reached { S.reached store.old ≡ m }
    requires none { kept.old ≡ None }
    ensures decided { decision result kept.new
        ≡ unknown (S.terms store.old) (S.state store.old) m ask.now
        (given_port (S.state store.old).table m ask.now.endpoint) }
    ensures state { S.state store.new ≡ S.state store.old }
    ensures reached { S.reached store.new ≡ m }
    ensures terms { S.terms store.new ≡ S.terms store.old }
    ensures steps { let s = S.state store.old in steps.new ≤ steps.old + 4 * S.look_steps s
        + (if is_picked s m (Peer ask.now)
        then S.pick_steps store.old m ask.now.endpoint.address true + 1 else 0) }
{
    if ask.lifetime == 0 {
        return Answer::Gone;
    }
    if store.peer_count(&ask.endpoint, steps) as usize >= MOST_PEERS {
        return refused(Code::UserExQuota);
    }
    grant(store, m, ask, kept, steps)
}

/// What is decided on a PEER request at the moment reached. It leaves the record in `kept`.
#[inline(never)]
pub(crate) fn decide_peer<S: LeaseStore, L: Ledger>(
    store: &mut S,
    m: Moment,
    ask: &PeerAsk,
    kept: &mut Option<Record>,
    steps: &mut Steps<L>,
) -> Answer
    requires sound { IsReached (S.state store.old) }
    requires reached { S.reached store.old ≡ m }
    requires none { kept.old ≡ None }
    ensures decided { decision result kept.new
        ≡ decide_peer (S.terms store.old) (S.state store.old) m ask.now }
    ensures state { S.state store.new ≡ S.state store.old }
    ensures reached { S.reached store.new ≡ m }
    ensures terms { S.terms store.new ≡ S.terms store.old }
    ensures steps { let s = S.state store.old in steps.new ≤ steps.old + 5 * S.look_steps s
        + (if is_picked s m (Peer ask.now)
        then S.pick_steps store.old m ask.now.endpoint.address true + 1 else 0) }
{
    match store.peering(&ask.endpoint, &ask.remote, ask.remote_port, steps) {
        Some(lease) => decide_known(&store.terms(), m, ask, &lease, kept),
        None => decide_unknown(store, m, ask, kept, steps),
    }
}
