//! What is copied of the leases.
ghost use Rattle.std.specs.Prelude.{◌≡◌, [], ◌∷◌, ◌++◌, flat_map, map, filter, nat_lt, IfOk, OnOk, if◌then◌else◌};
ghost use Rattle.std.specs.List.{AllByRecursion};
ghost use Rattle.std.specs.List.Sorted.{IsSortedBy, IsStableBy};
ghost use Rattle.pcp_base.specs.Tables.{IsMapLease, live};
ghost use Rattle.pcp_base.specs.Owners.{map_owners, peer_owner, owners};
ghost use Rattle.lease_store.specs.OwnerOrder.{precedes, in_order, owners_in_order};
ghost use Rattle.indexed_store.specs.Leading.{leads};

use crate::leases::Leases;
use crate::owning::{add_owners, owner_of_peer};
use pcp_base::{MapLease, Memory, Moment, Owner, PeerLease};
use std::alloc::{AllocError, Global};

/// Adds the ports of MAP leases.
fn add_owners_of_maps(owners: &mut Vec<Owner>, maps: &[MapLease]) -> Result<(), AllocError>
    requires { AllByRecursion IsMapLease maps.now }
    ensures { OnOk result (owners.new.items ≡ owners.old.items ++ flat_map map_owners maps.now) }
{
    for lease in maps {
        add_owners(owners, lease)?;
    }
    Ok(())
}

/// Adds the ports of PEER leases.
fn add_owners_of_peers(owners: &mut Vec<Owner>, peers: &[PeerLease]) -> Result<(), AllocError>
    ensures { OnOk result (owners.new.items ≡ owners.old.items ++ map peer_owner peers.now) }
{
    for lease in peers {
        owners.push(owner_of_peer(lease))?;
    }
    Ok(())
}

/// Whether the first stands before the second.
fn stands_before(first: &Owner, second: &Owner) -> bool
    ensures { result ≡ precedes first.now second.now }
{
    let (a, b) = (first.protocol.number(), second.protocol.number());
    a < b || (a == b && first.external < second.external)
}

/// Puts owned ports in order; those of one port keep theirs.
fn sort(owners: &mut Vec<Owner>) -> Result<(), AllocError>
    ensures sorted { OnOk result (IsSortedBy precedes owners.new.items) }
    ensures stable { IsStableBy precedes owners.old.items owners.new.items }
{
    owners.sort_by_key(|owner| (owner.protocol.number(), owner.external))
}

/// Whether the owner stands before the first of the others, if there is one.
fn leads(owner: &Owner, others: &[Owner]) -> bool
    ensures { result ≡ leads owner.now others.now }
{
    let Some(next) = others.first() else {
        return true;
    };
    stands_before(owner, next)
}

/// Adds the owner where it stands before the first of the others.
fn add_last(owners: &mut Vec<Owner>, owner: Owner, others: &[Owner]) -> Result<(), AllocError>
    ensures { OnOk result (owners.new.items ≡ (if leads owner others.now
        then owners.old.items ++ owner ∷ [] else owners.old.items)) }
{
    if leads(&owner, others) {
        owners.push(owner)?;
    }
    Ok(())
}

/// Of owned ports in order, the last of each port.
fn last_of_each(alloc: Global, owners: &[Owner]) -> Result<Vec<Owner>, AllocError>
    requires { IsSortedBy precedes owners.now }
    ensures { IfOk result (λ v. v.items ≡ in_order owners.now) }
{
    let mut last = Vec::with_capacity(alloc, owners.len())?;
    for (i, owner) in owners.iter().enumerate() {
        add_last(&mut last, *owner, &owners[i + 1..])?;
    }
    Ok(last)
}

/// The owned ports in order, each once: of those of one port the last.
fn in_order(alloc: Global, mut owners: Vec<Owner>) -> Result<Vec<Owner>, AllocError>
    ensures { IfOk result (λ v. v.items ≡ in_order owners.items) }
{
    sort(&mut owners)?;
    last_of_each(alloc, &owners)
}

impl Leases {
    /// The MAP leases that are live at `m`, those that have left among them, in the order granted.
    pub(crate) fn live_maps(&self, alloc: Global, m: Moment) -> Result<Vec<MapLease>, Memory>
        ensures { IfOk result (λ v. v.items ≡ (live self.now.all m).maps) }
    {
        let mut maps = Vec::new(alloc);
        self.maps.copy_live(alloc, m, &mut maps)?;
        Ok(maps)
    }

    /// The PEER leases that are live at `m`, those that have left among them, in the order granted.
    pub(crate) fn live_peers(&self, alloc: Global, m: Moment) -> Result<Vec<PeerLease>, Memory>
        ensures { IfOk result (λ v. v.items ≡ (live self.now.all m).peers) }
    {
        let mut peers = Vec::new(alloc);
        self.peers.copy_live(alloc, m, &mut peers)?;
        Ok(peers)
    }

    /// The ports that leases own which are live at `m`.
    pub(crate) fn live_owners(&self, alloc: Global, m: Moment) -> Result<Vec<Owner>, Memory>
        requires { AllByRecursion IsMapLease (live self.now.all m).maps }
        ensures { IfOk result (λ v. v.items ≡ owners (live self.now.all m)) }
    {
        let maps = self.live_maps(alloc, m)?;
        let peers = self.live_peers(alloc, m)?;
        let mut owners = Vec::new(alloc);
        add_owners_of_maps(&mut owners, &maps)?;
        add_owners_of_peers(&mut owners, &peers)?;
        Ok(owners)
    }

    /// The ports that live leases own, each once, in the order of protocol number and port.
    pub(crate) fn owners_in_order(&self, alloc: Global, m: Moment) -> Result<Vec<Owner>, Memory>
        requires { AllByRecursion IsMapLease (live self.now.all m).maps }
        ensures { IfOk result (λ v. v.items ≡ owners_in_order self.now.all m) }
    {
        let owners = self.live_owners(alloc, m)?;
        Ok(in_order(alloc, owners)?)
    }
}
