//! Whether a record fits, by look-ups of what it touches.
ghost use Rattle.std.specs.Prelude.{◌≡◌, ◌<◌, ◌≤◌, ◌+◌, ◌-◌, ◌↔◌, ◌&&◌, not, nat_lt, is_some, find, None, IsTrue, IfOk};
ghost use Rattle.std.specs.List.{list_all};
ghost use Rattle.pcp_base.specs.declared.leases.TheConstants.{MOST_LEASES, MOST_PEERS};
ghost use Rattle.pcp_base.specs.declared.records.Change.TheVariants.{Map, Peer};
ghost use Rattle.pcp_base.specs.Tables.{HasPorts, IsMapLease, is_map_of, live};
ghost use Rattle.pcp_base.specs.Owners.{map_owners};
ghost use Rattle.indexed_store.specs.Tabled.{AreTabled};
ghost use Rattle.pcp_base.specs.Fits.{IsAllowed, IsRested, renews};
ghost use Rattle.pcp_base.specs.Rooms.{HasRoom, IsNext, Suits};
ghost use Rattle.pcp_base.specs.Records.{IsWellFormedRecord};
ghost use Rattle.lease_store.specs.Lookups.{covering, lease_count, named_port, peer_count};
ghost use Rattle.pcp_base.specs.Reached.{IsReached};
ghost use Rattle.indexed_store.specs.Indexed.{IsKept};
ghost use Rattle.indexed_store.specs.Judging as the;
ghost use Rattle.indexed_store.specs.Judging.{IsCurrent};

use crate::facts::is_start;
use crate::leases::Leases;
use crate::lookups::with_key;
use crate::owning::{add_owners, owner_of_peer};
use crate::state::IndexedState;
use leased_ports::LeasedPorts;
use pcp_base::{
    Change, End, Endpoint, MOST_PEERS, MapLease, Memory, Moment, Owner, PeerLease, REST_SECONDS,
    Record,
};
use std::alloc::{AllocError, Global};

/// Whether no lease that is live at `m` holds the port of this last end for another endpoint.
fn is_unheld(m: Moment, last: Option<End>, endpoint: &Endpoint) -> bool
    ensures { result ≡ the.is_unheld m last endpoint.now }
{
    match last {
        None => true,
        Some(end) => end.end <= m.get() || end.endpoint == *endpoint,
    }
}

/// Whether the port of this last end doesn't rest at `m` for another endpoint.
fn is_unrested(m: Moment, last: Option<End>, endpoint: &Endpoint) -> bool
    ensures { result ≡ the.is_unrested m last endpoint.now }
{
    match last {
        None => true,
        Some(end) => {
            m.get() < end.end
                || m.get().saturating_sub(end.end) >= REST_SECONDS
                || end.endpoint == *endpoint
        }
    }
}

fn is_unheld_by(ports: &LeasedPorts, m: Moment, owner: &Owner) -> bool
    ensures { result ≡ the.unheld_by m ports.now owner.now }
{
    is_unheld(
        m,
        ports.last_end(owner.protocol, owner.external),
        &owner.endpoint,
    )
}

fn is_unrested_by(ports: &LeasedPorts, m: Moment, owner: &Owner) -> bool
    ensures { result ≡ the.unrested_by m ports.now owner.now }
{
    is_unrested(
        m,
        ports.last_end(owner.protocol, owner.external),
        &owner.endpoint,
    )
}

fn are_unrested(ports: &LeasedPorts, m: Moment, owners: &[Owner]) -> bool
    ensures { result ≡ list_all (the.unrested_by m ports.now) owners.now }
{
    owners.iter().all(|owner| is_unrested_by(ports, m, owner))
}

/// Whether there is no port, or it is this one.
fn is_at_most(port: Option<u16>, external: u16) -> bool
    ensures { result ≡ the.is_at_most port external }
{
    match port {
        None => true,
        Some(known) => known == external,
    }
}

/// Whether the second has all fields of the first but the expiry and the filters.
fn is_renewed(held: &MapLease, lease: &MapLease) -> bool
    ensures { result ≡ renews held.now lease.now }
{
    held.first_endpoint() == lease.first_endpoint()
        && held.count == lease.count
        && held.external == lease.external
        && held.nonce == lease.nonce
        && held.granted.get() == lease.granted.get()
}

/// Whether the second has all fields of the first but the expiry.
fn is_renewed_peer(held: &PeerLease, lease: &PeerLease) -> bool
    ensures { IsTrue result ↔ (lease.now ≡ record held.now { expiry = lease.now.expiry }) }
{
    let renewed = PeerLease {
        expiry: lease.expiry,
        ..*held
    };
    *lease == renewed
}

/// The external port of the endpoint by a lease that covers it.
fn port_behind(lease: &MapLease, endpoint: &Endpoint) -> u16
    requires ports { HasPorts lease.now }
    requires from { lease.now.internal ≤ endpoint.now.port }
    requires below { endpoint.now.port < lease.now.internal + lease.now.count }
    ensures { result ≡ lease.now.external + (endpoint.now.port - lease.now.internal) }
{
    lease.external + (endpoint.port - lease.internal)
}

impl Leases {
    /// The live MAP lease with this key: its first endpoint.
    pub(crate) fn map_of(&self, m: Moment, key: &Endpoint) -> Option<MapLease>
        requires { AreTabled self.now.found }
        ensures { result ≡ find (is_map_of key.now) (live self.now.found m).maps }
    {
        with_key(self.covering(m, key), key)
    }

    /// The port of the live MAP lease that covers the endpoint.
    fn covered_port(&self, m: Moment, endpoint: &Endpoint) -> Option<u16>
        requires { AreTabled self.now.found }
        ensures { result ≡ the.covered_port self.now.found m endpoint.now }
    {
        let Some(lease) = self.covering(m, endpoint) else {
            return None;
        };
        Some(port_behind(&lease, endpoint))
    }

    /// Whether the endpoint has no port, or this one, and may have a MAP lease on it.
    fn is_free_inside(&self, m: Moment, owner: &Owner) -> bool
        requires { AreTabled self.now.found }
        ensures { result ≡ (not (is_some (covering self.now.found m owner.now.endpoint))
            && the.is_at_most (named_port self.now.found m owner.now.endpoint) owner.now.external) }
    {
        !self.is_covered(m, &owner.endpoint)
            && is_at_most(self.named_port(m, &owner.endpoint), owner.external)
    }

    /// Whether a new MAP lease may have this port.
    fn has_room_at(&self, ports: &LeasedPorts, m: Moment, owner: &Owner) -> bool
        requires { AreTabled self.now.found }
        ensures { result ≡ the.has_room_at self.now.found m ports.now owner.now }
    {
        self.is_free_inside(m, owner) && is_unheld_by(ports, m, owner)
    }

    fn have_room(&self, ports: &LeasedPorts, m: Moment, owners: &[Owner]) -> bool
        requires { AreTabled self.now.found }
        ensures { result ≡ list_all (the.has_room_at self.now.found m ports.now) owners.now }
    {
        for owner in owners {
            if !self.has_room_at(ports, m, owner) {
                return false;
            }
        }
        true
    }

    /// Whether there are few enough PEER leases of the endpoint, and those that cover it have this
    /// port.
    fn is_few_inside(&self, m: Moment, owner: &Owner) -> bool
        requires { AreTabled self.now.found }
        ensures { result ≡ (nat_lt (peer_count self.now.found m owner.now.endpoint) MOST_PEERS
            && the.is_at_most (the.covered_port self.now.found m owner.now.endpoint)
            owner.now.external) }
    {
        (self.peer_count(m, &owner.endpoint) as usize) < MOST_PEERS
            && is_at_most(self.covered_port(m, &owner.endpoint), owner.external)
    }

    /// The same, and those that name it.
    fn is_one_inside(&self, m: Moment, owner: &Owner) -> bool
        requires { AreTabled self.now.found }
        ensures { result ≡ ((nat_lt (peer_count self.now.found m owner.now.endpoint) MOST_PEERS
            && the.is_at_most (the.covered_port self.now.found m owner.now.endpoint)
            owner.now.external)
            && the.is_at_most (named_port self.now.found m owner.now.endpoint) owner.now.external) }
    {
        self.is_few_inside(m, owner)
            && is_at_most(self.named_port(m, &owner.endpoint), owner.external)
    }

    /// Whether a new PEER lease may have this port.
    fn peer_has_room(&self, ports: &LeasedPorts, m: Moment, owner: &Owner) -> bool
        requires { AreTabled self.now.found }
        ensures { result ≡ the.peer_has_room self.now.found m ports.now owner.now }
    {
        self.is_one_inside(m, owner) && is_unheld_by(ports, m, owner)
    }

    /// Whether a new MAP lease on these ports has room.
    fn has_room_for(&self, ports: &LeasedPorts, m: Moment, owners: &[Owner]) -> bool
        requires { AreTabled self.now.found }
        ensures { result ≡ (nat_lt (lease_count self.now.found m) MOST_LEASES
            && list_all (the.has_room_at self.now.found m ports.now) owners.now) }
    {
        self.has_space(m) && self.have_room(ports, m, owners)
    }

    /// Whether a new PEER lease on this port has room.
    fn has_room_for_peer(&self, ports: &LeasedPorts, m: Moment, owner: &Owner) -> bool
        requires { AreTabled self.now.found }
        ensures { result ≡ (nat_lt (lease_count self.now.found m) MOST_LEASES
            && the.peer_has_room self.now.found m ports.now owner.now) }
    {
        self.has_space(m) && self.peer_has_room(ports, m, owner)
    }
}

/// The ports of a MAP lease.
fn owners_of(alloc: Global, lease: &MapLease) -> Result<Vec<Owner>, AllocError>
    requires { HasPorts lease.now }
    ensures { IfOk result (λ v. v.items ≡ map_owners lease.now) }
{
    let mut owners = Vec::new(alloc);
    add_owners(&mut owners, lease)?;
    Ok(owners)
}

/// Whether a MAP lease renews one, or is new and has room.
fn map_suits_table(
    state: &IndexedState,
    alloc: Global,
    m: Moment,
    lease: &MapLease,
) -> Result<bool, Memory>
    requires current { IsCurrent state.now m }
    requires formed { IsMapLease lease.now }
    ensures { IfOk result (λ b. IsTrue b ↔ (IsAllowed (live state.now.state.table m) (Map lease.now)
        × HasRoom (live state.now.state.table m) (Map lease.now))) }
{
    let Some(held) = state.leases.map_of(m, &lease.first_endpoint()) else {
        let owners = owners_of(alloc, lease)?;
        return Ok(state.leases.has_room_for(&state.ports, m, &owners));
    };
    Ok(is_renewed(&held, lease))
}

/// Whether a PEER lease renews one, or is new and has room.
fn peer_suits_table(state: &IndexedState, m: Moment, lease: &PeerLease) -> bool
    requires { IsCurrent state.now m }
    ensures { IsTrue result ↔ (IsAllowed (live state.now.state.table m) (Peer lease.now)
        × HasRoom (live state.now.state.table m) (Peer lease.now)) }
{
    let Some(held) = state
        .leases
        .peering(m, &lease.endpoint, &lease.remote, lease.remote_port)
    else {
        return state
            .leases
            .has_room_for_peer(&state.ports, m, &owner_of_peer(lease));
    };
    is_renewed_peer(&held, lease)
}

/// Whether the live leases allow the change, and have room for it.
pub(crate) fn suits_table(
    state: &IndexedState,
    alloc: Global,
    kept: &Record,
) -> Result<bool, Memory>
    requires current { IsCurrent state.now kept.now.moment }
    requires formed { IsWellFormedRecord kept.now }
    ensures { IfOk result (λ b. IsTrue b ↔
        (IsAllowed (live state.now.state.table kept.now.moment) kept.now.change
        × HasRoom (live state.now.state.table kept.now.moment) kept.now.change)) }
{
    let m = kept.moment;
    match &kept.change {
        Change::Map(lease) => map_suits_table(state, alloc, m, lease),
        Change::Peer(lease) => Ok(peer_suits_table(state, m, lease)),
        Change::DropMap(key) => Ok(state.leases.map_of(m, key).is_some()),
        Change::DropPeer(endpoint, remote, port) => Ok(
            state.leases.peering(m, endpoint, remote, *port).is_some(),
        ),
        _ => Ok(true),
    }
}

/// Whether a new MAP lease takes no port that rests for another.
fn map_is_rested(
    state: &IndexedState,
    alloc: Global,
    m: Moment,
    lease: &MapLease,
) -> Result<bool, Memory>
    requires current { IsCurrent state.now m }
    requires formed { IsMapLease lease.now }
    ensures { IfOk result (λ b. IsTrue b ↔ IsRested state.now.state m (Map lease.now)) }
{
    let Some(_held) = state.leases.map_of(m, &lease.first_endpoint()) else {
        let owners = owners_of(alloc, lease)?;
        return Ok(are_unrested(&state.ports, m, &owners));
    };
    Ok(true)
}

/// Whether a new PEER lease takes no port that rests for another.
fn peer_is_rested(state: &IndexedState, m: Moment, lease: &PeerLease) -> bool
    requires { IsCurrent state.now m }
    ensures { IsTrue result ↔ IsRested state.now.state m (Peer lease.now) }
{
    let Some(_held) = state
        .leases
        .peering(m, &lease.endpoint, &lease.remote, lease.remote_port)
    else {
        return is_unrested_by(&state.ports, m, &owner_of_peer(lease));
    };
    true
}

/// Whether the change takes no port that rests for another, and a Rest names an unused port.
fn is_rested(state: &IndexedState, alloc: Global, kept: &Record) -> Result<bool, Memory>
    requires current { IsCurrent state.now kept.now.moment }
    requires formed { IsWellFormedRecord kept.now }
    ensures { IfOk result
        (λ b. IsTrue b ↔ IsRested state.now.state kept.now.moment kept.now.change) }
{
    let m = kept.moment;
    match &kept.change {
        Change::Map(lease) => map_is_rested(state, alloc, m, lease),
        Change::Peer(lease) => Ok(peer_is_rested(state, m, lease)),
        Change::Rest(endpoint, port, _) => Ok(is_unused(&state.ports, endpoint, *port)),
        _ => Ok(true),
    }
}

/// Whether the port has no last end.
fn is_unused(ports: &LeasedPorts, endpoint: &Endpoint, port: u16) -> bool
    ensures { IsTrue result ↔ (the.last_told ports.now endpoint.now.protocol port ≡ None) }
{
    match ports.last_end(endpoint.protocol, port) {
        Some(_) => false,
        None => true,
    }
}

/// Whether the record is well formed and comes next, whatever leases there are.
pub(crate) fn is_next(state: &IndexedState, kept: &Record) -> bool
    ensures { IsTrue result ↔ IsNext state.now.state kept.now }
{
    kept.is_well_formed()
        && is_start(&kept.change) != state.started
        && state.last.get() <= kept.moment.get()
}

/// Whether the record fits.
pub(crate) fn suits(state: &IndexedState, alloc: Global, kept: &Record) -> Result<bool, Memory>
    requires reached { IsReached state.now.state }
    requires kept { IsKept state.now }
    requires at_last { state.now.ports.reached ≡ state.now.state.last }
    ensures { IfOk result (λ b. IsTrue b ↔ Suits state.now.state kept.now) }
{
    if !is_next(state, kept) {
        return Ok(false);
    }
    if !suits_table(state, alloc, kept)? {
        return Ok(false);
    }
    is_rested(state, alloc, kept)
}
