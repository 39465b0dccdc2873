//! Lists of leases, in the order granted.
ghost use Rattle.std.specs.Prelude.{◌≡◌, filter, find, position, nat_lt, not, is_some, IfOk, OnOk, OnErr};
ghost use Rattle.std.specs.Option.{option_copied};
ghost use Rattle.pcp_base.specs.Tables.{first_endpoint, is_map_of, is_peer_of, put};
ghost use Rattle.pcp_base.specs.Fits.{renews};

use pcp_base::{Address, Endpoint, MapLease, Moment, PeerLease};
use std::alloc::{AllocError, Global};

/// The MAP leases that are live at `m`.
pub(crate) fn live_maps(
    alloc: Global,
    maps: &[MapLease],
    m: Moment,
) -> Result<Vec<MapLease>, AllocError>
    ensures { IfOk result (λ v. v.items ≡ filter (λ l. nat_lt m l.expiry) maps.now) }
{
    maps.iter()
        .copied()
        .filter(|lease| lease.is_live(m))
        .collect(alloc)
}

/// The PEER leases that are live at `m`.
pub(crate) fn live_peers(
    alloc: Global,
    peers: &[PeerLease],
    m: Moment,
) -> Result<Vec<PeerLease>, AllocError>
    ensures { IfOk result (λ v. v.items ≡ filter (λ l. nat_lt m l.expiry) peers.now) }
{
    peers
        .iter()
        .copied()
        .filter(|lease| lease.is_live(m))
        .collect(alloc)
}

/// The MAP leases that aren't live at `m`.
pub(crate) fn dead_maps(
    alloc: Global,
    maps: &[MapLease],
    m: Moment,
) -> Result<Vec<MapLease>, AllocError>
    ensures { IfOk result (λ v. v.items ≡ filter (λ l. not (nat_lt m l.expiry)) maps.now) }
{
    maps.iter()
        .copied()
        .filter(|lease| !lease.is_live(m))
        .collect(alloc)
}

/// The PEER leases that aren't live at `m`.
pub(crate) fn dead_peers(
    alloc: Global,
    peers: &[PeerLease],
    m: Moment,
) -> Result<Vec<PeerLease>, AllocError>
    ensures { IfOk result (λ v. v.items ≡ filter (λ l. not (nat_lt m l.expiry)) peers.now) }
{
    peers
        .iter()
        .copied()
        .filter(|lease| !lease.is_live(m))
        .collect(alloc)
}

/// Whether this is the key of the lease: its first endpoint.
fn has_key(lease: &MapLease, key: &Endpoint) -> bool
    ensures { result ≡ is_map_of key.now lease.now }
{
    lease.first_endpoint() == *key
}

/// The MAP leases with this key.
pub(crate) fn maps_of(
    alloc: Global,
    maps: &[MapLease],
    key: &Endpoint,
) -> Result<Vec<MapLease>, AllocError>
    ensures { IfOk result (λ v. v.items ≡ filter (is_map_of key.now) maps.now) }
{
    maps.iter()
        .copied()
        .filter(|lease| has_key(lease, key))
        .collect(alloc)
}

/// The PEER leases with this key.
pub(crate) fn peers_of(
    alloc: Global,
    peers: &[PeerLease],
    endpoint: &Endpoint,
    remote: &Address,
    port: u16,
) -> Result<Vec<PeerLease>, AllocError>
    ensures { IfOk result
        (λ v. v.items ≡ filter (is_peer_of endpoint.now remote.now port) peers.now) }
{
    peers
        .iter()
        .copied()
        .filter(|lease| lease.is_of(endpoint, remote, port))
        .collect(alloc)
}

/// The first MAP lease with this key.
pub(crate) fn map_of<'a>(maps: &'a [MapLease], key: &Endpoint) -> Option<&'a MapLease>
    ensures { option_copied result ≡ find (is_map_of key.now) maps.now }
{
    maps.iter().find(|lease| has_key(lease, key))
}

/// The first PEER lease with this key.
pub(crate) fn peer_of<'a>(
    peers: &'a [PeerLease],
    endpoint: &Endpoint,
    remote: &Address,
    port: u16,
) -> Option<&'a PeerLease>
    ensures { option_copied result ≡ find (is_peer_of endpoint.now remote.now port) peers.now }
{
    peers
        .iter()
        .find(|lease| lease.is_of(endpoint, remote, port))
}

/// The MAP lease with the key of this one.
pub(crate) fn held_map<'a>(maps: &'a [MapLease], new: &MapLease) -> Option<&'a MapLease>
    ensures { option_copied result ≡ find (is_map_of (first_endpoint new.now)) maps.now }
{
    map_of(maps, &new.first_endpoint())
}

/// The PEER lease with the key of this one.
pub(crate) fn held_peer<'a>(peers: &'a [PeerLease], new: &PeerLease) -> Option<&'a PeerLease>
    ensures { option_copied result ≡
        find (is_peer_of new.now.endpoint new.now.remote new.now.remote_port) peers.now }
{
    peer_of(peers, &new.endpoint, &new.remote, new.remote_port)
}

/// Whether there is a MAP lease with the key of this one.
pub(crate) fn holds_map(maps: &[MapLease], new: &MapLease) -> bool
    ensures { result ≡ is_some (find (is_map_of (first_endpoint new.now)) maps.now) }
{
    held_map(maps, new).is_some()
}

/// Whether there is a PEER lease with the key of this one.
pub(crate) fn holds_peer(peers: &[PeerLease], new: &PeerLease) -> bool
    ensures { result ≡
        is_some (find (is_peer_of new.now.endpoint new.now.remote new.now.remote_port) peers.now) }
{
    held_peer(peers, new).is_some()
}

/// Takes out the MAP leases with this key.
pub(crate) fn drop_map(maps: &mut Vec<MapLease>, key: &Endpoint)
    ensures { maps.new.items ≡ filter (λ l. not (is_map_of key.now l)) maps.old.items }
{
    maps.retain(|lease| !has_key(lease, key));
}

/// Takes out the PEER leases with this key.
pub(crate) fn drop_peer(
    peers: &mut Vec<PeerLease>,
    endpoint: &Endpoint,
    remote: &Address,
    port: u16,
)
    ensures { peers.new.items ≡
        filter (λ l. not (is_peer_of endpoint.now remote.now port l)) peers.old.items }
{
    peers.retain(|lease| !lease.is_of(endpoint, remote, port));
}

/// The place of the first MAP lease with this key.
fn place_of_map(maps: &[MapLease], key: &Endpoint) -> Option<usize>
    ensures { result ≡ position (is_map_of key.now) maps.now }
{
    maps.iter().position(|lease| has_key(lease, key))
}

/// The place of the first PEER lease with the key of this one.
fn place_of_peer(peers: &[PeerLease], new: &PeerLease) -> Option<usize>
    ensures { result ≡
        position (is_peer_of new.now.endpoint new.now.remote new.now.remote_port) peers.now }
{
    peers.iter().position(|lease| lease.is_of(&new.endpoint, &new.remote, new.remote_port))
}

/// Puts a MAP lease in the place of the one with its key, or at the end.
pub(crate) fn put_map(maps: &mut Vec<MapLease>, lease: MapLease) -> Result<(), AllocError>
    ensures ok { OnOk result
        (maps.new.items ≡ put (is_map_of (first_endpoint lease)) lease maps.old.items) }
    ensures err { OnErr result (maps.new.items ≡ maps.old.items) }
{
    match place_of_map(maps, &lease.first_endpoint()) {
        Some(place) => maps[place] = lease,
        None => maps.push(lease)?,
    }
    Ok(())
}

/// Puts a PEER lease in the place of the one with its key, or at the end.
pub(crate) fn put_peer(peers: &mut Vec<PeerLease>, lease: PeerLease) -> Result<(), AllocError>
    ensures ok { OnOk result (peers.new.items ≡
        put (is_peer_of lease.endpoint lease.remote lease.remote_port) lease peers.old.items) }
    ensures err { OnErr result (peers.new.items ≡ peers.old.items) }
{
    match place_of_peer(peers, &lease) {
        Some(place) => peers[place] = lease,
        None => peers.push(lease)?,
    }
    Ok(())
}

/// Whether the second has all fields of the first but the expiry and the filters.
pub(crate) fn is_renewed_map(held: &MapLease, lease: &MapLease) -> bool
    ensures { result ≡ renews held.now lease.now }
{
    held.first_endpoint() == lease.first_endpoint()
        && held.count == lease.count
        && held.external == lease.external
        && held.nonce == lease.nonce
        && held.granted.get() == lease.granted.get()
}
