//! What is looked up in the leases that are live at a moment.
ghost use Rattle.std.specs.Prelude.{◌≡◌, ◌≤◌, ◌+◌, ◌-◌, ◌||◌, length, is_some, find, filter, nat_lt, count_by, max, IsTrue};
ghost use Rattle.std.specs.List.{AllByRecursion, list_any};
ghost use Rattle.std.specs.Option.{option_map};
ghost use Rattle.pcp_base.specs.declared.leases.TheConstants.{MOST_LEASES};
ghost use Rattle.pcp_base.specs.Tables.{live, names, covers, HasPorts, IsMapLease};
ghost use Rattle.pcp_base.specs.Owners.{is_port, peer_owner, owns, endpoint_behind};
ghost use Rattle.pcp_base.specs.Reached.{IsReached};
ghost use Rattle.filter_rules.specs.Filters.{allows as lets};
ghost use Rattle.filter_rules.specs.Lookups.{is_with, owners_for, look};
ghost use Rattle.lease_store.specs.Lookups.{covering, peering, named_port, peer_count, lease_count, is_taken_inside, next_inside, up_to_next};

use crate::owned::{is_map_owner, is_peer_owner};
use filter_rules::allows;
use pcp_base::{Address, Endpoint, MOST_LEASES, MapLease, Moment, PeerLease, Protocol};
use plain_replay::PlainReplay;

/// The live MAP lease that covers the endpoint.
pub(crate) fn covering(replay: &PlainReplay, m: Moment, endpoint: &Endpoint) -> Option<MapLease>
    ensures { result ≡ covering replay.now.table m endpoint.now }
{
    replay
        .maps()
        .iter()
        .copied()
        .filter(|lease| lease.is_live(m))
        .find(|lease| lease.covers(endpoint))
}

/// The live PEER lease of this endpoint and remote.
pub(crate) fn peering(
    replay: &PlainReplay,
    m: Moment,
    endpoint: &Endpoint,
    remote: &Address,
    remote_port: u16,
) -> Option<PeerLease>
    ensures { result ≡ peering replay.now.table m endpoint.now remote.now remote_port }
{
    replay
        .peers()
        .iter()
        .copied()
        .filter(|lease| lease.is_live(m))
        .find(|lease| lease.is_of(endpoint, remote, remote_port))
}

/// The first live PEER lease that names the endpoint.
fn naming(peers: &[PeerLease], m: Moment, endpoint: &Endpoint) -> Option<PeerLease>
    ensures { result ≡
        find (λ l. names l endpoint.now) (filter (λ l. nat_lt m l.expiry) peers.now) }
{
    peers
        .iter()
        .copied()
        .filter(|lease| lease.is_live(m))
        .find(|lease| lease.endpoint == *endpoint)
}

/// The external port of the live PEER leases that name the endpoint.
pub(crate) fn named_port(replay: &PlainReplay, m: Moment, endpoint: &Endpoint) -> Option<u16>
    ensures { result ≡ named_port replay.now.table m endpoint.now }
{
    naming(replay.peers(), m, endpoint).map(|lease| lease.external)
}

fn naming_count(peers: &[PeerLease], m: Moment, endpoint: &Endpoint) -> usize
    ensures value { result ≡
        count_by (λ l. names l endpoint.now) (filter (λ l. nat_lt m l.expiry) peers.now) }
    ensures few { result ≤ length peers.now }
{
    peers
        .iter()
        .filter(|lease| lease.is_live(m))
        .filter(|lease| lease.endpoint == *endpoint)
        .count()
}

/// How many live PEER leases name the endpoint.
pub(crate) fn peer_count(replay: &PlainReplay, m: Moment, endpoint: &Endpoint) -> u32
    requires { IsReached replay.now }
    ensures { result ≡ peer_count replay.now.table m endpoint.now }
{
    naming_count(replay.peers(), m, endpoint) as u32
}

fn live_maps(maps: &[MapLease], m: Moment) -> usize
    ensures { result ≡ length (filter (λ l. nat_lt m l.expiry) maps.now) }
{
    maps.iter().filter(|lease| lease.is_live(m)).count()
}

fn live_peers(peers: &[PeerLease], m: Moment) -> usize
    ensures { result ≡ length (filter (λ l. nat_lt m l.expiry) peers.now) }
{
    peers.iter().filter(|lease| lease.is_live(m)).count()
}

/// How many leases are live, MAP and PEER together.
pub(crate) fn lease_count(replay: &PlainReplay, m: Moment) -> u32
    requires { IsReached replay.now }
    ensures { result ≡ lease_count replay.now.table m }
{
    live_maps(replay.maps(), m) as u32 + live_peers(replay.peers(), m) as u32
}

/// Whether one more lease may be live.
pub(crate) fn has_room(replay: &PlainReplay, m: Moment) -> bool
    requires { IsReached replay.now }
    ensures { result ≡ nat_lt (lease_count replay.now.table m) MOST_LEASES }
{
    (lease_count(replay, m) as usize) < MOST_LEASES
}

fn is_covered(maps: &[MapLease], m: Moment, endpoint: &Endpoint) -> bool
    ensures { result ≡
        list_any (λ l. covers l endpoint.now) (filter (λ l. nat_lt m l.expiry) maps.now) }
{
    maps.iter()
        .filter(|lease| lease.is_live(m))
        .any(|lease| lease.covers(endpoint))
}

fn is_named(peers: &[PeerLease], m: Moment, endpoint: &Endpoint) -> bool
    ensures { result ≡
        list_any (λ l. names l endpoint.now) (filter (λ l. nat_lt m l.expiry) peers.now) }
{
    peers
        .iter()
        .filter(|lease| lease.is_live(m))
        .any(|lease| lease.endpoint == *endpoint)
}

/// Whether a live lease covers or names this port of the endpoint's address and protocol.
fn is_taken_inside(replay: &PlainReplay, m: Moment, endpoint: &Endpoint, port: u16) -> bool
    ensures { result ≡ is_taken_inside replay.now.table m endpoint.now port }
{
    let inside = Endpoint { port, ..*endpoint };
    is_covered(replay.maps(), m, &inside) || is_named(replay.peers(), m, &inside)
}

/// The next greater internal port, of the endpoint's address and protocol, that a live lease covers
/// or names.
#[tactic(auto, unfolding(lease_store::specs::Lookups::next_inside))]
pub(crate) fn next_inside(replay: &PlainReplay, m: Moment, endpoint: &Endpoint) -> Option<u16>
    ensures { result ≡ next_inside replay.now.table m endpoint.now }
{
    for before in endpoint.port..65535 {
        if is_taken_inside(replay, m, endpoint, before + 1) {
            return Some(before + 1);
        }
    }
    None
}

/// No more ports than up to the next internal port in use.
fn up_to_next(next: Option<u16>, internal: u16, room: u32) -> u32
    ensures { result ≡ up_to_next next internal room }
{
    match next {
        None => room,
        Some(next) => room.min(u32::from(next.saturating_sub(internal))),
    }
}

/// How many of the `most` internal ports from the endpoint's on come before the next one in use.
pub(crate) fn room_inside(replay: &PlainReplay, m: Moment, endpoint: &Endpoint, most: u32) -> u32
    ensures { result ≡ up_to_next (next_inside replay.now.table m endpoint.now)
        endpoint.now.port most }
{
    up_to_next(next_inside(replay, m, endpoint), endpoint.port, most)
}

/// The live MAP lease that owns the port, where its filters allow the remote peer.
fn map_through(
    maps: &[MapLease],
    m: Moment,
    protocol: Protocol,
    port: u16,
    remote: &Address,
    remote_port: u16,
) -> Option<MapLease>
    ensures { result ≡ find (owns protocol port)
        (filter (λ l. lets l.filters remote.now remote_port)
        (filter (λ l. nat_lt m l.expiry) maps.now)) }
{
    maps.iter()
        .copied()
        .filter(|lease| lease.is_live(m))
        .filter(|lease| allows(&lease.filters, remote, remote_port))
        .find(|lease| is_map_owner(lease, protocol, u32::from(port)))
}

/// The live PEER lease that owns the port, where it has exactly this remote.
fn peer_through(
    peers: &[PeerLease],
    m: Moment,
    protocol: Protocol,
    port: u16,
    remote: &Address,
    remote_port: u16,
) -> Option<PeerLease>
    ensures { result ≡ find (λ l. is_port protocol port (peer_owner l))
        (filter (is_with remote.now remote_port) (filter (λ l. nat_lt m l.expiry) peers.now)) }
{
    peers
        .iter()
        .copied()
        .filter(|lease| lease.is_live(m))
        .filter(|lease| lease.remote == *remote && lease.remote_port == remote_port)
        .find(|lease| is_peer_owner(lease, protocol, u32::from(port)))
}

/// The endpoint to which an external port of the lease belongs.
fn endpoint_behind(lease: &MapLease, protocol: Protocol, port: u16) -> Endpoint
    requires ports { HasPorts lease.now }
    requires owned { IsTrue (owns protocol port lease.now) }
    ensures { result ≡ endpoint_behind port lease.now }
{
    Endpoint {
        address: lease.address,
        protocol: lease.protocol,
        port: lease.internal + (port - lease.external),
    }
}

/// The later of both.
fn later(m: Moment, last: Moment) -> Moment
    ensures { result ≡ max m last }
{
    if m.get() < last.get() { last } else { m }
}

/// The endpoint of the MAP lease through which the remote peer may send.
fn behind_map(
    maps: &[MapLease],
    m: Moment,
    protocol: Protocol,
    port: u16,
    remote: &Address,
    remote_port: u16,
) -> Option<Endpoint>
    requires { AllByRecursion IsMapLease maps.now }
    ensures { result ≡ option_map (endpoint_behind port) (find (owns protocol port)
        (filter (λ l. lets l.filters remote.now remote_port)
        (filter (λ l. nat_lt m l.expiry) maps.now))) }
{
    let Some(lease) = map_through(maps, m, protocol, port, remote, remote_port) else {
        return None;
    };
    Some(endpoint_behind(&lease, protocol, port))
}

/// The endpoint of the PEER lease through which the remote peer may send.
fn behind_peer(
    peers: &[PeerLease],
    m: Moment,
    protocol: Protocol,
    port: u16,
    remote: &Address,
    remote_port: u16,
) -> Option<Endpoint>
    ensures { result ≡ option_map (λ l. l.endpoint)
        (find (λ l. is_port protocol port (peer_owner l))
        (filter (is_with remote.now remote_port) (filter (λ l. nat_lt m l.expiry) peers.now))) }
{
    peer_through(peers, m, protocol, port, remote, remote_port).map(|lease| lease.endpoint)
}

/// The endpoint to which a remote peer may send through this port, by the leases live at `m`.
fn look_at(
    replay: &PlainReplay,
    protocol: Protocol,
    port: u16,
    remote: &Address,
    remote_port: u16,
    m: Moment,
) -> Option<Endpoint>
    requires { IsReached replay.now }
    ensures { result ≡ option_map (λ o. o.endpoint) (find (is_port protocol port)
        (owners_for (live replay.now.table m) remote.now remote_port)) }
{
    behind_map(replay.maps(), m, protocol, port, remote, remote_port).or(behind_peer(
        replay.peers(),
        m,
        protocol,
        port,
        remote,
        remote_port,
    ))
}

/// The endpoint to which a remote peer may send through this port. A moment below the last one
/// counts as that.
pub(crate) fn look(
    replay: &PlainReplay,
    protocol: Protocol,
    port: u16,
    remote: &Address,
    remote_port: u16,
    m: Moment,
) -> Option<Endpoint>
    requires { IsReached replay.now }
    ensures { result ≡ look replay.now protocol port remote.now remote_port m }
{
    look_at(
        replay,
        protocol,
        port,
        remote,
        remote_port,
        later(m, replay.last()),
    )
}
