//! The ports that leases own, with their endpoints.
ghost use Rattle.std.specs.Prelude.{◌≡◌, ◌<◌, ◌≤◌, ◌+◌, ◌++◌, OnOk};
ghost use Rattle.pcp_base.specs.Tables.{HasPorts};
ghost use Rattle.pcp_base.specs.Owners.{map_owner, map_owners, peer_owner};
ghost use Rattle.indexed_store.specs.Runs.{IsOwnerRun, map_run, peer_run};
ghost use Rattle.indexed_store.specs.Runs as the;

use pcp_base::{Endpoint, MapLease, Owner, PeerLease};
use std::alloc::AllocError;

/// Ports in a row, each with its owner: the external and the internal port of each is one above
/// those of the one before.
#[derive(Clone, Copy)]
pub(crate) struct OwnerRun {
    pub(crate) first: Owner,
    /// How many they are, at least 1.
    pub(crate) count: u32,
}

impl OwnerRun {
    /// The ports behind the first `n`, fewer than all.
    pub(crate) fn behind(&self, n: u32) -> OwnerRun
        requires formed { IsOwnerRun self.now }
        requires fewer { n < self.now.count }
        ensures value { result ≡ the.behind n self.now }
        ensures formed { IsOwnerRun result }
    {
        let first = &self.first;
        OwnerRun {
            first: Owner {
                protocol: first.protocol,
                external: first.external + n as u16,
                endpoint: Endpoint {
                    address: first.endpoint.address,
                    protocol: first.endpoint.protocol,
                    port: first.endpoint.port + n as u16,
                },
            },
            count: self.count - n,
        }
    }
}

/// The `i`-th port of a MAP lease.
fn owner_at(lease: &MapLease, i: u16) -> Owner
    requires ports { HasPorts lease.now }
    requires among { i < lease.now.count }
    ensures { result ≡ map_owner lease.now i }
{
    Owner {
        protocol: lease.protocol,
        external: lease.external + i,
        endpoint: Endpoint {
            address: lease.address,
            protocol: lease.protocol,
            port: lease.internal + i,
        },
    }
}

/// The port of a PEER lease.
pub(crate) fn owner_of_peer(lease: &PeerLease) -> Owner
    ensures { result ≡ peer_owner lease.now }
{
    Owner {
        protocol: lease.endpoint.protocol,
        external: lease.external,
        endpoint: lease.endpoint,
    }
}

/// Adds the ports of a MAP lease.
pub(crate) fn add_owners(owners: &mut Vec<Owner>, lease: &MapLease) -> Result<(), AllocError>
    requires { HasPorts lease.now }
    ensures { OnOk result (owners.new.items ≡ owners.old.items ++ map_owners lease.now) }
{
    for i in 0..lease.count {
        owners.push(owner_at(lease, i))?;
    }
    Ok(())
}

/// The ports of a MAP lease, as one run.
pub(crate) fn run_of_map(lease: &MapLease) -> OwnerRun
    requires { HasPorts lease.now }
    ensures value { result ≡ map_run lease.now }
    ensures formed { IsOwnerRun result }
{
    OwnerRun {
        first: Owner {
            protocol: lease.protocol,
            external: lease.external,
            endpoint: lease.first_endpoint(),
        },
        count: u32::from(lease.count),
    }
}

/// How many ports one is, of these external and internal ones.
fn one_port(_external: u16, _internal: u16) -> u32
    ensures one { result ≡ 1 }
    ensures external { _external + result ≤ 65536 }
    ensures internal { _internal + result ≤ 65536 }
{
    1
}

/// One port, as a run.
pub(crate) fn run_of_one(owner: &Owner) -> OwnerRun
    requires external { 1 ≤ owner.now.external }
    requires protocol { owner.now.protocol ≡ owner.now.endpoint.protocol }
    ensures value { result ≡ record { first = owner.now; count = 1 } }
    ensures formed { IsOwnerRun result }
{
    OwnerRun {
        first: *owner,
        count: one_port(owner.external, owner.endpoint.port),
    }
}

/// The port of a PEER lease, as a run.
pub(crate) fn run_of_peer(lease: &PeerLease) -> OwnerRun
    requires { 1 ≤ lease.now.external }
    ensures value { result ≡ peer_run lease.now }
    ensures formed { IsOwnerRun result }
{
    run_of_one(&owner_of_peer(lease))
}
