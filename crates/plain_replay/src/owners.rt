//! Owned ports, each beside its owner.
ghost use Rattle.std.specs.Prelude.{◌≡◌, ◌++◌, flat_map, map, IfOk, OnOk};
ghost use Rattle.std.specs.List.{AllByRecursion, list_any};
ghost use Rattle.pcp_base.specs.Tables.{IsMapLease};
ghost use Rattle.pcp_base.specs.Owners.{map_owner, map_owners, peer_owner, is_port, is_owned};
ghost use Rattle.pcp_base.specs.Ends.{is_owned_by};

use pcp_base::{End, Endpoint, MapLease, Owner, PeerLease, Protocol};
use std::alloc::{AllocError, Global};

/// The ports of a MAP lease.
pub(crate) fn owners_of_map(alloc: Global, lease: &MapLease) -> Result<Vec<Owner>, AllocError>
    requires { IsMapLease lease.now }
    ensures { IfOk result (λ v. v.items ≡ map_owners lease.now) }
{
    let mut owners = Vec::new(alloc);
    for i in 0..lease.count {
        owners.push(Owner {
            protocol: lease.protocol,
            external: lease.external + i,
            endpoint: Endpoint {
                address: lease.address,
                protocol: lease.protocol,
                port: lease.internal + i,
            },
        })?;
    }
    Ok(owners)
}

/// The port of a PEER lease.
pub(crate) fn owner_of_peer(lease: &PeerLease) -> Owner
    ensures { result ≡ peer_owner lease.now }
{
    Owner {
        protocol: lease.endpoint.protocol,
        external: lease.external,
        endpoint: lease.endpoint,
    }
}

/// The ports of MAP leases.
pub(crate) fn owners_of_maps(alloc: Global, maps: &[MapLease]) -> Result<Vec<Owner>, AllocError>
    requires { AllByRecursion IsMapLease maps.now }
    ensures { IfOk result (λ v. v.items ≡ flat_map map_owners maps.now) }
{
    let mut owners = Vec::new(alloc);
    for lease in maps {
        let more = owners_of_map(alloc, lease)?;
        owners.extend_from_slice(&more)?;
    }
    Ok(owners)
}

/// Adds the ports of PEER leases.
pub(crate) fn add_owners_of_peers(
    owners: &mut Vec<Owner>,
    peers: &[PeerLease],
) -> Result<(), AllocError>
    ensures { OnOk result (owners.new.items ≡ owners.old.items ++ map peer_owner peers.now) }
{
    for lease in peers {
        owners.push(owner_of_peer(lease))?;
    }
    Ok(())
}

/// Whether it is of this port.
pub(crate) fn is_of_port(protocol: Protocol, port: u16, owner: &Owner) -> bool
    ensures { result ≡ is_port protocol port owner.now }
{
    owner.protocol == protocol && owner.external == port
}

/// Whether one of them is of this port.
pub(crate) fn is_port_owned(protocol: Protocol, port: u16, owners: &[Owner]) -> bool
    ensures { result ≡ is_owned protocol port owners.now }
{
    owners.iter().any(|owner| is_of_port(protocol, port, owner))
}

/// Whether the end's port is one of these owned ports.
pub(crate) fn is_end_owned(owners: &[Owner], rest: &End) -> bool
    ensures { result ≡ is_owned_by owners.now rest.now }
{
    is_port_owned(rest.endpoint.protocol, rest.external, owners)
}
