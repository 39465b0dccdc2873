//! Which ports rest at a moment, by the leases that ended and the ends of the state.
ghost use Rattle.std.specs.Prelude.{◌≡◌, ◌||◌, IsTrue};
ghost use Rattle.std.specs.List.{list_any};
ghost use Rattle.pcp_base.specs.Ends.{rests};
ghost use Rattle.pcp_base.specs.Reached.{IsReached};
ghost use Rattle.lease_store.specs.Lookups.{with_port};
ghost use Rattle.lease_store.specs.Picks.{rests_for_another};
ghost use Rattle.plain_store.specs.RecentEnds as recent;

use crate::owned::{is_map_owner, is_owned, is_peer_owner};
use pcp_base::{Address, End, Endpoint, MapLease, Moment, PeerLease, Protocol, REST_SECONDS};
use plain_replay::PlainReplay;

/// Whether it ended less than 120 seconds before `m`, and not after it.
fn has_just_ended(m: Moment, end: u64) -> bool
    ensures { result ≡ recent.has_just_ended m end }
{
    end <= m.get() && m.get().saturating_sub(end) < REST_SECONDS
}

fn map_leaves(lease: &MapLease, m: Moment, protocol: Protocol, port: u32) -> bool
    ensures { result ≡ recent.map_leaves m protocol port lease.now }
{
    has_just_ended(m, lease.expiry) && is_map_owner(lease, protocol, port)
}

fn peer_leaves(lease: &PeerLease, m: Moment, protocol: Protocol, port: u32) -> bool
    ensures { result ≡ recent.peer_leaves m protocol port lease.now }
{
    has_just_ended(m, lease.expiry) && is_peer_owner(lease, protocol, port)
}

/// Whether it is a recent end of the port.
fn end_leaves(rest: &End, m: Moment, protocol: Protocol, port: u32) -> bool
    ensures { result ≡ recent.end_leaves m protocol port rest.now }
{
    rest.endpoint.protocol.number() == protocol.number()
        && u32::from(rest.external) == port
        && m.get().saturating_sub(rest.end) < REST_SECONDS
}

fn maps_leave(maps: &[MapLease], m: Moment, protocol: Protocol, port: u32) -> bool
    ensures { result ≡ list_any (recent.map_leaves m protocol port) maps.now }
{
    maps.iter()
        .any(|lease| map_leaves(lease, m, protocol, port))
}

fn peers_leave(peers: &[PeerLease], m: Moment, protocol: Protocol, port: u32) -> bool
    ensures { result ≡ list_any (recent.peer_leaves m protocol port) peers.now }
{
    peers
        .iter()
        .any(|lease| peer_leaves(lease, m, protocol, port))
}

fn ends_leave(ends: &[End], m: Moment, protocol: Protocol, port: u32) -> bool
    ensures { result ≡ list_any (recent.end_leaves m protocol port) ends.now }
{
    ends.iter().any(|rest| end_leaves(rest, m, protocol, port))
}

/// Whether a lease that has just ended, or an end, leaves the port.
fn is_left(replay: &PlainReplay, m: Moment, protocol: Protocol, port: u32) -> bool
    ensures { result ≡ ((list_any (recent.map_leaves m protocol port) replay.now.table.maps
        || list_any (recent.peer_leaves m protocol port) replay.now.table.peers)
        || list_any (recent.end_leaves m protocol port) replay.now.ends) }
{
    maps_leave(replay.maps(), m, protocol, port)
        || peers_leave(replay.peers(), m, protocol, port)
        || ends_leave(replay.ends(), m, protocol, port)
}

/// Whether the port rests for some endpoint.
pub(crate) fn rests(replay: &PlainReplay, m: Moment, protocol: Protocol, port: u32) -> bool
    ensures { result ≡ rests replay.now m protocol port }
{
    is_left(replay, m, protocol, port) && !is_owned(replay, m, protocol, port)
}

/// Whether it is another endpoint than this one with the internal port `internal`.
fn is_another(
    address: &Address,
    protocol: Protocol,
    port: u64,
    other: &Endpoint,
    internal: u32,
) -> bool
    ensures { result ≡ recent.is_another (record {
      address = address.now;
      protocol = protocol;
      port = port;
    }) (with_port other.now internal) }
{
    *address != other.address || protocol != other.protocol || port != u64::from(internal)
}

fn map_leaves_another(
    lease: &MapLease,
    m: Moment,
    port: u32,
    other: &Endpoint,
    internal: u32,
) -> bool
    ensures { result ≡
        recent.map_leaves_another m port (with_port other.now internal) lease.now }
{
    map_leaves(lease, m, other.protocol, port)
        && is_another(
            &lease.address,
            lease.protocol,
            u64::from(lease.internal) + u64::from(port.saturating_sub(u32::from(lease.external))),
            other,
            internal,
        )
}

fn peer_leaves_another(
    lease: &PeerLease,
    m: Moment,
    port: u32,
    other: &Endpoint,
    internal: u32,
) -> bool
    ensures { result ≡
        recent.peer_leaves_another m port (with_port other.now internal) lease.now }
{
    let named = &lease.endpoint;
    peer_leaves(lease, m, other.protocol, port)
        && is_another(
            &named.address,
            named.protocol,
            u64::from(named.port),
            other,
            internal,
        )
}

fn end_leaves_another(rest: &End, m: Moment, port: u32, other: &Endpoint, internal: u32) -> bool
    ensures { result ≡
        recent.end_leaves_another m port (with_port other.now internal) rest.now }
{
    let named = &rest.endpoint;
    end_leaves(rest, m, other.protocol, port)
        && is_another(
            &named.address,
            named.protocol,
            u64::from(named.port),
            other,
            internal,
        )
}

fn maps_leave_another(
    maps: &[MapLease],
    m: Moment,
    port: u32,
    other: &Endpoint,
    internal: u32,
) -> bool
    ensures { result ≡ list_any
        (recent.map_leaves_another m port (with_port other.now internal)) maps.now }
{
    maps.iter().any(|lease| map_leaves_another(lease, m, port, other, internal))
}

fn peers_leave_another(
    peers: &[PeerLease],
    m: Moment,
    port: u32,
    other: &Endpoint,
    internal: u32,
) -> bool
    ensures { result ≡ list_any
        (recent.peer_leaves_another m port (with_port other.now internal)) peers.now }
{
    peers.iter().any(|lease| peer_leaves_another(lease, m, port, other, internal))
}

fn ends_leave_another(ends: &[End], m: Moment, port: u32, other: &Endpoint, internal: u32) -> bool
    ensures { result ≡ list_any
        (recent.end_leaves_another m port (with_port other.now internal)) ends.now }
{
    ends.iter()
        .any(|rest| end_leaves_another(rest, m, port, other, internal))
}

/// Whether a lease that has just ended, or an end, leaves the port to another endpoint.
fn is_left_to_another(
    replay: &PlainReplay,
    m: Moment,
    port: u32,
    other: &Endpoint,
    internal: u32,
) -> bool
    ensures { result ≡ ((list_any
        (recent.map_leaves_another m port (with_port other.now internal)) replay.now.table.maps
        || list_any
        (recent.peer_leaves_another m port (with_port other.now internal)) replay.now.table.peers)
        || list_any
        (recent.end_leaves_another m port (with_port other.now internal)) replay.now.ends) }
{
    maps_leave_another(replay.maps(), m, port, other, internal)
        || peers_leave_another(replay.peers(), m, port, other, internal)
        || ends_leave_another(replay.ends(), m, port, other, internal)
}

/// Whether the port of the endpoint's protocol rests for another endpoint than this one with the
/// internal port `internal`.
pub(crate) fn rests_for_another(
    replay: &PlainReplay,
    m: Moment,
    port: u32,
    endpoint: &Endpoint,
    internal: u32,
) -> bool
    requires { IsReached replay.now }
    ensures { result ≡ rests_for_another replay.now m port (with_port endpoint.now internal) }
{
    is_left_to_another(replay, m, port, endpoint, internal)
        && !is_owned(replay, m, endpoint.protocol, port)
}
