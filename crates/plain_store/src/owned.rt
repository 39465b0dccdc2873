//! Which ports are owned by leases that are live at a moment.
ghost use Rattle.std.specs.Prelude.{◌≡◌, ◌+◌, ◌-◌, ◌||◌, nat_lt, filter};
ghost use Rattle.std.specs.List.{list_any};
ghost use Rattle.pcp_base.specs.Tables.{live};
ghost use Rattle.pcp_base.specs.Owners.{owners, is_owned, is_port, peer_owner, owns};

use pcp_base::{MapLease, Moment, PeerLease, Protocol};
use plain_replay::PlainReplay;

/// Whether the lease owns the port.
pub(crate) fn is_map_owner(lease: &MapLease, protocol: Protocol, port: u32) -> bool
    ensures { result ≡ owns protocol port lease.now }
{
    lease.protocol == protocol
        && u32::from(lease.external) <= port
        && port < u32::from(lease.external) + u32::from(lease.count)
}

/// Whether the lease owns the port.
pub(crate) fn is_peer_owner(lease: &PeerLease, protocol: Protocol, port: u32) -> bool
    ensures { result ≡ is_port protocol port (peer_owner lease.now) }
{
    lease.endpoint.protocol == protocol && u32::from(lease.external) == port
}

fn has_map_owner(maps: &[MapLease], m: Moment, protocol: Protocol, port: u32) -> bool
    ensures { result ≡ list_any (owns protocol port) (filter (λ l. nat_lt m l.expiry) maps.now) }
{
    maps.iter()
        .filter(|lease| lease.is_live(m))
        .any(|lease| is_map_owner(lease, protocol, port))
}

fn has_peer_owner(peers: &[PeerLease], m: Moment, protocol: Protocol, port: u32) -> bool
    ensures { result ≡ list_any (λ l. is_port protocol port (peer_owner l))
        (filter (λ l. nat_lt m l.expiry) peers.now) }
{
    peers
        .iter()
        .filter(|lease| lease.is_live(m))
        .any(|lease| is_peer_owner(lease, protocol, port))
}

fn has_owner(
    maps: &[MapLease],
    peers: &[PeerLease],
    m: Moment,
    protocol: Protocol,
    port: u32,
) -> bool
    ensures { result ≡ (list_any (owns protocol port) (filter (λ l. nat_lt m l.expiry) maps.now)
        || list_any (λ l. is_port protocol port (peer_owner l))
        (filter (λ l. nat_lt m l.expiry) peers.now)) }
{
    has_map_owner(maps, m, protocol, port) || has_peer_owner(peers, m, protocol, port)
}

/// Whether a live lease owns the port.
pub(crate) fn is_owned(replay: &PlainReplay, m: Moment, protocol: Protocol, port: u32) -> bool
    ensures { result ≡ is_owned protocol port (owners (live replay.now.table m)) }
{
    has_owner(replay.maps(), replay.peers(), m, protocol, port)
}
