//! How many different ports the leases of an address own.
ghost use Rattle.std.specs.Prelude.{◌≡◌, ◌+◌, ◌*◌, ◌≤◌, ◌||◌, ◌∷◌, not, length, filter, count_by};
ghost use Rattle.std.specs.List.{list_any, range_with_len};
ghost use Rattle.pcp_base.specs.Owners.{is_owned, is_port, peer_owner, port_count, owned, owns};
ghost use Rattle.pcp_base.specs.Reached.{IsReached};
ghost use Rattle.pcp_base.specs.declared.leases.TheConstants.{MOST_LEASES};
ghost use Rattle.plain_store.specs.AddressPorts as address_ports;

use crate::owned::{is_map_owner, is_peer_owner};
use pcp_base::{Address, MapLease, Moment, PeerLease, Protocol};
use plain_replay::PlainReplay;

/// Whether the lease is live at `m`, and the address's.
fn is_map_at(lease: &MapLease, m: Moment, who: &Address) -> bool
    ensures { result ≡ address_ports.is_map_at m who.now lease.now }
{
    lease.is_live(m) && lease.address == *who
}

fn is_peer_at(lease: &PeerLease, m: Moment, who: &Address) -> bool
    ensures { result ≡ address_ports.is_peer_at m who.now lease.now }
{
    lease.is_live(m) && lease.endpoint.address == *who
}

fn has_map(maps: &[MapLease], m: Moment, who: &Address, protocol: Protocol, port: u32) -> bool
    ensures { result ≡ list_any (owns protocol port)
        (filter (address_ports.is_map_at m who.now) maps.now) }
{
    maps.iter()
        .filter(|lease| is_map_at(lease, m, who))
        .any(|lease| is_map_owner(lease, protocol, port))
}

fn has_peer(peers: &[PeerLease], m: Moment, who: &Address, protocol: Protocol, port: u32) -> bool
    ensures { result ≡ list_any (λ l. is_port protocol port (peer_owner l))
        (filter (address_ports.is_peer_at m who.now) peers.now) }
{
    peers
        .iter()
        .filter(|lease| is_peer_at(lease, m, who))
        .any(|lease| is_peer_owner(lease, protocol, port))
}

/// Whether a PEER lease of the address owns the port.
fn is_named_port(
    peers: &[PeerLease],
    m: Moment,
    who: &Address,
    protocol: Protocol,
    port: u32,
) -> bool
    ensures { result ≡ is_owned protocol port
        (address_ports.peer_owners_at m who.now peers.now) }
{
    has_peer(peers, m, who, protocol, port)
}

/// Whether a lease of the address owns the port.
fn is_port_at(
    maps: &[MapLease],
    peers: &[PeerLease],
    m: Moment,
    who: &Address,
    protocol: Protocol,
    port: u32,
) -> bool
    ensures { result ≡ (list_any (owns protocol port)
        (filter (address_ports.is_map_at m who.now) maps.now)
        || list_any (λ l. is_port protocol port (peer_owner l))
        (filter (address_ports.is_peer_at m who.now) peers.now)) }
{
    has_map(maps, m, who, protocol, port) || has_peer(peers, m, who, protocol, port)
}

/// Whether a lease of the address owns the i-th port of the lease.
fn is_counted(
    lease: &MapLease,
    maps: &[MapLease],
    peers: &[PeerLease],
    m: Moment,
    who: &Address,
    i: u16,
) -> bool
    ensures { result ≡ is_owned lease.now.protocol (lease.now.external + i)
        (address_ports.owners_at m who.now maps.now peers.now) }
{
    let port = u32::from(lease.external) + u32::from(i);
    is_port_at(maps, peers, m, who, lease.protocol, port)
}

/// How many ports of the lease none of these leases of the address owns.
fn new_ports(
    lease: &MapLease,
    maps: &[MapLease],
    peers: &[PeerLease],
    m: Moment,
    who: &Address,
) -> u32
    ensures value { result ≡ count_by (λ i. not (is_owned lease.now.protocol
        (lease.now.external + i) (address_ports.owners_at m who.now maps.now peers.now)))
        (range_with_len 0 lease.now.count) }
    ensures few { result ≤ 65535 }
{
    let mut count = 0;
    for i in 0..lease.count {
        count += u32::from(!is_counted(lease, maps, peers, m, who, i));
    }
    count
}

/// How many ports this lease adds to those that the later leases of the address own.
fn more_ports(
    lease: &MapLease,
    later: &[MapLease],
    peers: &[PeerLease],
    m: Moment,
    who: &Address,
) -> u32
    ensures value { result + port_count (address_ports.owners_at m who.now later.now peers.now)
        ≡ port_count (address_ports.owners_at m who.now (lease.now ∷ later.now) peers.now) }
    ensures few { result ≤ 65535 }
{
    if !is_map_at(lease, m, who) {
        return 0;
    }
    new_ports(lease, later, peers, m, who)
}

/// How many different ports the MAP leases of the address add to those of the PEER leases.
fn map_ports(maps: &[MapLease], peers: &[PeerLease], m: Moment, who: &Address) -> u32
    requires { length maps.now ≤ MOST_LEASES }
    ensures value { result + port_count (address_ports.peer_owners_at m who.now peers.now)
        ≡ port_count (address_ports.owners_at m who.now maps.now peers.now) }
    ensures few { result ≤ 65535 * length maps.now }
{
    let mut count = 0;
    for (i, lease) in maps.iter().enumerate() {
        count += more_ports(lease, &maps[i + 1..], peers, m, who);
    }
    count
}

/// How many ports this lease adds to those that the later leases of the address own: 0 or 1.
fn more_peer_ports(lease: &PeerLease, later: &[PeerLease], m: Moment, who: &Address) -> u32
    ensures value { result + port_count (address_ports.peer_owners_at m who.now later.now)
        ≡ port_count (address_ports.peer_owners_at m who.now (lease.now ∷ later.now)) }
    ensures few { result ≤ 1 }
{
    if !is_peer_at(lease, m, who) {
        return 0;
    }
    let port = u32::from(lease.external);
    u32::from(!is_named_port(later, m, who, lease.endpoint.protocol, port))
}

/// How many different ports the PEER leases of the address own.
fn peer_ports(peers: &[PeerLease], m: Moment, who: &Address) -> u32
    requires { length peers.now ≤ MOST_LEASES }
    ensures value { result ≡ port_count (address_ports.peer_owners_at m who.now peers.now) }
    ensures few { result ≤ length peers.now }
{
    let mut count = 0;
    for (i, lease) in peers.iter().enumerate() {
        count += more_peer_ports(lease, &peers[i + 1..], m, who);
    }
    count
}

/// How many different ports the live leases of the address own.
pub(crate) fn owned(replay: &PlainReplay, m: Moment, who: &Address) -> u32
    requires { IsReached replay.now }
    ensures { result ≡ owned replay.now.table m who.now }
{
    map_ports(replay.maps(), replay.peers(), m, who) + peer_ports(replay.peers(), m, who)
}
