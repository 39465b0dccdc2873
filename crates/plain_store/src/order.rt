//! Owned ports, in the order of protocol number and port.
ghost use Rattle.std.specs.Prelude.{◌≡◌, ◌++◌, flat_map, map, filter, nat_lt, position, not, ◌||◌, IfOk, OnOk};
ghost use Rattle.std.specs.List.{AllByRecursion};
ghost use Rattle.pcp_base.specs.Tables.{IsMapLease, live};
ghost use Rattle.pcp_base.specs.Owners.{map_owners, peer_owner, owners};
ghost use Rattle.pcp_base.specs.Reached.{IsReached};
ghost use Rattle.lease_store.specs.OwnerOrder.{precedes, with_owner, in_order, owners_in_order};

use pcp_base::{Endpoint, MapLease, Memory, Moment, Owner, PeerLease};
use plain_replay::PlainReplay;
use std::alloc::{AllocError, Global};

/// The MAP leases that are live at `m`.
pub(crate) fn live_maps(
    alloc: Global,
    maps: &[MapLease],
    m: Moment,
) -> Result<Vec<MapLease>, AllocError>
    ensures { IfOk result (λ v. v.items ≡ filter (λ l. nat_lt m l.expiry) maps.now) }
{
    maps.iter()
        .copied()
        .filter(|lease| lease.is_live(m))
        .collect(alloc)
}

/// The PEER leases that are live at `m`.
pub(crate) fn live_peers(
    alloc: Global,
    peers: &[PeerLease],
    m: Moment,
) -> Result<Vec<PeerLease>, AllocError>
    ensures { IfOk result (λ v. v.items ≡ filter (λ l. nat_lt m l.expiry) peers.now) }
{
    peers
        .iter()
        .copied()
        .filter(|lease| lease.is_live(m))
        .collect(alloc)
}

/// The ports of a MAP lease.
fn owners_of_map(alloc: Global, lease: &MapLease) -> Result<Vec<Owner>, AllocError>
    requires { IsMapLease lease.now }
    ensures { IfOk result (λ v. v.items ≡ map_owners lease.now) }
{
    let mut owners = Vec::new(alloc);
    for i in 0..lease.count {
        owners.push(Owner {
            protocol: lease.protocol,
            external: lease.external + i,
            endpoint: Endpoint {
                address: lease.address,
                protocol: lease.protocol,
                port: lease.internal + i,
            },
        })?;
    }
    Ok(owners)
}

/// The ports of MAP leases.
fn owners_of_maps(alloc: Global, maps: &[MapLease]) -> Result<Vec<Owner>, AllocError>
    requires { AllByRecursion IsMapLease maps.now }
    ensures { IfOk result (λ v. v.items ≡ flat_map map_owners maps.now) }
{
    let mut owners = Vec::new(alloc);
    for lease in maps {
        let more = owners_of_map(alloc, lease)?;
        owners.extend_from_slice(&more)?;
    }
    Ok(owners)
}

/// The port of a PEER lease.
fn owner_of_peer(lease: &PeerLease) -> Owner
    ensures { result ≡ peer_owner lease.now }
{
    Owner {
        protocol: lease.endpoint.protocol,
        external: lease.external,
        endpoint: lease.endpoint,
    }
}

/// Adds the ports of PEER leases.
fn add_owners_of_peers(owners: &mut Vec<Owner>, peers: &[PeerLease]) -> Result<(), AllocError>
    ensures { OnOk result (owners.new.items ≡ owners.old.items ++ map peer_owner peers.now) }
{
    for lease in peers {
        owners.push(owner_of_peer(lease))?;
    }
    Ok(())
}

/// The ports that leases own which are live at `m`.
fn live_owners(alloc: Global, replay: &PlainReplay, m: Moment) -> Result<Vec<Owner>, AllocError>
    requires { IsReached replay.now }
    ensures { IfOk result (λ v. v.items ≡ owners (live replay.now.table m)) }
{
    let maps = live_maps(alloc, replay.maps(), m)?;
    let peers = live_peers(alloc, replay.peers(), m)?;
    let mut owners = owners_of_maps(alloc, &maps)?;
    add_owners_of_peers(&mut owners, &peers)?;
    Ok(owners)
}

/// Whether the first stands before the second.
fn stands_before(first: &Owner, second: &Owner) -> bool
    ensures { result ≡ precedes first.now second.now }
{
    let (a, b) = (first.protocol.number(), second.protocol.number());
    a < b || (a == b && first.external < second.external)
}

/// Whether the owner stands before the one held, or that one not before it.
fn ends_search(held: &Owner, owner: &Owner) -> bool
    ensures { result ≡ (precedes owner.now held.now || not (precedes held.now owner.now)) }
{
    stands_before(owner, held) || !stands_before(held, owner)
}

/// The place to which the owner comes, where it isn't the end.
fn place_of(owners: &[Owner], owner: &Owner) -> Option<usize>
    ensures { result ≡
        position (λ x. precedes owner.now x || not (precedes x owner.now)) owners.now }
{
    owners.iter().position(|held| ends_search(held, owner))
}

/// Adds an owned port in its place, unless its port is there.
fn add_owner(owners: &mut Vec<Owner>, owner: Owner) -> Result<(), AllocError>
    ensures { OnOk result (owners.new.items ≡ with_owner owner owners.old.items) }
{
    let Some(place) = place_of(owners, &owner) else {
        owners.push(owner)?;
        return Ok(());
    };
    let held = owners[place];
    if stands_before(&owner, &held) {
        owners.insert(place, owner)?;
    }
    Ok(())
}

/// The owned ports in order, each once.
fn in_order(alloc: Global, mut owners: Vec<Owner>) -> Result<Vec<Owner>, AllocError>
    ensures { IfOk result (λ v. v.items ≡ in_order owners.items) }
{
    let mut ordered = Vec::new(alloc);
    while let Some(owner) = owners.pop() {
        add_owner(&mut ordered, owner)?;
    }
    Ok(ordered)
}

/// The ports that live leases own, each once, in order.
pub(crate) fn owners_in_order(
    alloc: Global,
    replay: &PlainReplay,
    m: Moment,
) -> Result<Vec<Owner>, Memory>
    requires { IsReached replay.now }
    ensures { IfOk result (λ v. v.items ≡ owners_in_order replay.now.table m) }
{
    let owners = live_owners(alloc, replay, m)?;
    Ok(in_order(alloc, owners)?)
}
