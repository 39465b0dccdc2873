//! The plain body: a list that is searched, and nothing beside it.

ghost use Rattle.std.specs.Prelude.{◌≡◌, ◌≤◌, [], ◌∷◌, length, filter, find, count_by, position, not, IfOk, OnOk, OnErr};
ghost use Rattle.std.specs.List.{list_any};
ghost use Rattle.std.specs.Option.{option_copied};
ghost use Rattle.pcp_base.specs.declared.leases.TheConstants.{MOST_LEASES};
ghost use Rattle.pcp_base.specs.Tables.{is_peer_of};
ghost use Rattle.peer_table.specs.PeerLists.{is_live_peer, is_live_of, is_ended_peer, is_ended_of, opens, peer_with_key, peer_opening, IsEndedOf, IsPortUse, IsNextNamed, AreSoundPeers, IsOverlapped, overlaps, with_peer, PutsPeer, RemovesPeer, CopiesLivePeers};

use crate::overlaps::overlaps;
use crate::uses::PortUse;
use ordered_index::lesser;
use pcp_base::{Address, Endpoint, Memory, Moment, PeerLease, Protocol};
use std::alloc::{AllocError, Global};
use std::marker::Model;
use std::sync::ledger::Ledger;
use step_count::Steps;

/// PEER leases in the order granted, which none leaves. Each call that `PeerTable` has too has the
/// same clauses of them. It has no ordered map, so it takes no steps.
#[derive(Drop)]
pub struct PlainPeerTable {
    leases: Vec<PeerLease>,
}

impl Model for PlainPeerTable {
    ghost use Rattle.std.specs.Prelude.{List};
    ghost use Rattle.pcp_base.specs.declared.leases.PeerLease.{PeerLease};
    ghost use Rattle.peer_table.specs.PeerLists.{AreSoundPeers};

    ghost Value = { List PeerLease };

    ghost view = { λ t. t.leases.items };

    ghost invariant = { λ t. AreSoundPeers t.leases.items };
}

/// The first of the leases that the lease overlaps.
fn overlapped_by<'a>(leases: &'a [PeerLease], lease: &PeerLease) -> Option<&'a PeerLease>
    ensures { option_copied result ≡ find (overlaps lease.now) leases.now }
{
    leases.iter().find(|other| overlaps(lease, other))
}

/// The lease with this key.
fn lease_with<'a>(
    leases: &'a [PeerLease],
    endpoint: &Endpoint,
    remote: &Address,
    port: u16,
) -> Option<&'a PeerLease>
    ensures { option_copied result ≡ peer_with_key endpoint.now remote.now port leases.now }
{
    leases
        .iter()
        .find(|lease| lease.is_of(endpoint, remote, port))
}

/// Takes out the leases with this key.
fn drop_from(leases: &mut Vec<PeerLease>, endpoint: &Endpoint, remote: &Address, port: u16)
    ensures { leases.new.items ≡
        filter (λ l. not (is_peer_of endpoint.now remote.now port l)) leases.old.items }
{
    leases.retain(|lease| !lease.is_of(endpoint, remote, port));
}

/// The place of the lease with the key of this one.
fn place_of(leases: &[PeerLease], new: &PeerLease) -> Option<usize>
    ensures { result ≡
        position (is_peer_of new.now.endpoint new.now.remote new.now.remote_port) leases.now }
{
    leases.iter().position(|lease| lease.is_of(&new.endpoint, &new.remote, new.remote_port))
}

/// Puts a lease in the place of the one with its key, or at the end.
pub(crate) fn put_into(leases: &mut Vec<PeerLease>, lease: PeerLease) -> Result<(), AllocError>
    ensures ok { OnOk result (leases.new.items ≡ with_peer lease leases.old.items) }
    ensures err { OnErr result (leases.new.items ≡ leases.old.items) }
{
    match place_of(leases, &lease) {
        Some(place) => leases[place] = lease,
        None => leases.push(lease)?,
    }
    Ok(())
}

/// The leases that are live at `m`.
fn live_of(alloc: Global, leases: &[PeerLease], m: Moment) -> Result<Vec<PeerLease>, AllocError>
    ensures { IfOk result (λ v. v.items ≡ filter (is_live_peer m) leases.now) }
{
    leases
        .iter()
        .copied()
        .filter(|lease| lease.is_live(m))
        .collect(alloc)
}

/// Whether the lease names the endpoint and is live at `m`.
fn is_live_of(lease: &PeerLease, endpoint: &Endpoint, m: Moment) -> bool
    ensures { result ≡ is_live_of endpoint.now m lease.now }
{
    lease.endpoint == *endpoint && lease.is_live(m)
}

/// A lease that names the endpoint and is live at `m`.
fn live_with<'a>(leases: &'a [PeerLease], endpoint: &Endpoint, m: Moment) -> Option<&'a PeerLease>
    ensures { option_copied result ≡ find (is_live_of endpoint.now m) leases.now }
{
    leases.iter().find(|lease| is_live_of(lease, endpoint, m))
}

/// How many leases name the endpoint and are live at `m`.
fn count_of(leases: &[PeerLease], endpoint: &Endpoint, m: Moment) -> u32
    requires { length leases.now ≤ MOST_LEASES }
    ensures { result ≡ count_by (is_live_of endpoint.now m) leases.now }
{
    leases
        .iter()
        .filter(|lease| is_live_of(lease, endpoint, m))
        .count() as u32
}

/// Whether the lease names the endpoint and has ended by `m`.
fn is_ended_of(lease: &PeerLease, endpoint: &Endpoint, m: Moment) -> bool
    ensures { result ≡ is_ended_of endpoint.now m lease.now }
{
    lease.endpoint == *endpoint && !lease.is_live(m)
}

/// A lease that names the endpoint and has ended by `m`.
fn ended_with<'a>(leases: &'a [PeerLease], endpoint: &Endpoint, m: Moment) -> Option<&'a PeerLease>
    ensures { option_copied result ≡ find (is_ended_of endpoint.now m) leases.now }
{
    leases.iter().find(|lease| is_ended_of(lease, endpoint, m))
}

/// Whether the lease owns the external port and has exactly this remote.
fn opens(
    lease: &PeerLease,
    protocol: Protocol,
    port: u16,
    remote: &Address,
    remote_port: u16,
) -> bool
    ensures { result ≡ opens protocol port remote.now remote_port lease.now }
{
    lease.endpoint.protocol == protocol
        && lease.external == port
        && lease.remote == *remote
        && lease.remote_port == remote_port
}

/// The port that the lease names, where it is above the endpoint's and below `end`.
fn next_of(lease: &PeerLease, endpoint: &Endpoint, end: u32) -> Option<u16>
    ensures { IsNextNamed endpoint.now end (lease.now ∷ []) result }
{
    if lease.endpoint.address != endpoint.address
        || lease.endpoint.protocol != endpoint.protocol
        || lease.endpoint.port <= endpoint.port
        || end <= u32::from(lease.endpoint.port)
    {
        return None;
    }
    Some(lease.endpoint.port)
}

/// The least port above the endpoint's and below `end` that a lease names which is live at `m`.
fn next_in(leases: &[PeerLease], endpoint: &Endpoint, end: u32, m: Moment) -> Option<u16>
    ensures { IsNextNamed endpoint.now end (filter (is_live_peer m) leases.now) result }
{
    let [first, rest @ ..] = leases else {
        return None;
    };
    let next = next_in(rest, endpoint, end, m);
    if !first.is_live(m) {
        return next;
    }
    lesser(next_of(first, endpoint, end), next)
}

impl PlainPeerTable {
    /// A table without a lease. The one error is want of memory.
    pub fn new(alloc: Global) -> Result<PlainPeerTable, Memory>
        ensures { IfOk result (λ table. table ≡ []) }
    {
        Ok(PlainPeerTable {
            leases: Vec::new(alloc),
        })
    }

    /// The leases, in the order granted.
    pub fn leases(&self) -> &[PeerLease]
        ensures { result.now ≡ self.now }
    {
        &self.leases
    }

    /// The lease with this endpoint, remote address and remote port.
    pub fn find<L: Ledger>(
        &self,
        endpoint: &Endpoint,
        remote: &Address,
        port: u16,
        _steps: &mut Steps<L>,
    ) -> Option<&PeerLease>
        ensures lease { option_copied result
            ≡ peer_with_key endpoint.now remote.now port self.now }
        ensures steps { _steps.new ≡ _steps.old }
    {
        lease_with(&self.leases, endpoint, remote, port)
    }

    /// The external port of the endpoint's leases that are live at `m`, and how many they are.
    pub fn of_endpoint<L: Ledger>(
        &self,
        endpoint: &Endpoint,
        m: Moment,
        _steps: &mut Steps<L>,
    ) -> Option<PortUse>
        ensures used { IsPortUse endpoint.now m self.now result }
        ensures steps { _steps.new ≡ _steps.old }
    {
        let external = live_with(&self.leases, endpoint, m)?.external;
        let count = count_of(&self.leases, endpoint, m);
        Some(PortUse { external, count })
    }

    /// The first of the endpoint's leases that aren't live at `m`.
    pub fn ended_of<L: Ledger>(
        &self,
        endpoint: &Endpoint,
        m: Moment,
        _steps: &mut Steps<L>,
    ) -> Option<&PeerLease>
        ensures ended { IsEndedOf endpoint.now m self.now (option_copied result) }
        ensures steps { _steps.new ≡ _steps.old }
    {
        ended_with(&self.leases, endpoint, m)
    }

    /// The lease that owns the external port and has exactly this remote.
    pub fn by_external<L: Ledger>(
        &self,
        protocol: Protocol,
        port: u16,
        remote: &Address,
        remote_port: u16,
        _steps: &mut Steps<L>,
    ) -> Option<&PeerLease>
        ensures lease { option_copied result
            ≡ peer_opening protocol port remote.now remote_port self.now }
        ensures steps { _steps.new ≡ _steps.old }
    {
        self.leases
            .iter()
            .find(|lease| opens(lease, protocol, port, remote, remote_port))
    }

    /// The first of the leases that this one overlaps, live or not: those that have its endpoint,
    /// another remote and another external port, or its external port and another endpoint.
    pub fn overlapping<L: Ledger>(
        &self,
        lease: &PeerLease,
        _steps: &mut Steps<L>,
    ) -> Option<&PeerLease>
        ensures overlapped { IsOverlapped lease.now self.now (option_copied result) }
        ensures steps { _steps.new ≡ _steps.old }
    {
        overlapped_by(&self.leases, lease)
    }

    /// The least port above the endpoint's and below `end` that a lease of its address and protocol
    /// names which is live at `m`.
    pub fn next_internal<L: Ledger>(
        &self,
        endpoint: &Endpoint,
        end: u32,
        m: Moment,
        _steps: &mut Steps<L>,
    ) -> Option<u16>
        ensures next { IsNextNamed endpoint.now end (filter (is_live_peer m) self.now) result }
        ensures steps { _steps.new ≡ _steps.old }
    {
        next_in(&self.leases, endpoint, end, m)
    }

    /// Puts a lease in the place of the one with its key, or at the end. The one error is want of
    /// memory, which changes nothing.
    pub fn put<L: Ledger>(
        &mut self,
        _alloc: Global,
        lease: PeerLease,
        _steps: &mut Steps<L>,
    ) -> Result<(), Memory>
        requires { AreSoundPeers (with_peer lease self.old) }
        ensures put { PutsPeer self.old lease result self.new }
        ensures steps { _steps.new ≡ _steps.old }
    {
        put_into(&mut self.leases, lease)?;
        Ok(())
    }

    /// Takes out the lease with this endpoint, remote address and remote port.
    pub fn remove<L: Ledger>(
        &mut self,
        endpoint: &Endpoint,
        remote: &Address,
        port: u16,
        _steps: &mut Steps<L>,
    ) -> Option<PeerLease>
        ensures removed { RemovesPeer self.old endpoint.now remote.now port result self.new }
        ensures steps { _steps.new ≡ _steps.old }
    {
        let found = lease_with(&self.leases, endpoint, remote, port).copied();
        drop_from(&mut self.leases, endpoint, remote, port);
        found
    }

    /// How many leases are live at `m`.
    pub fn live(&self, m: Moment) -> u32
        ensures live { result ≡ count_by (is_live_peer m) self.now }
    {
        self.leases.iter().filter(|lease| lease.is_live(m)).count() as u32
    }

    /// Whether a lease isn't live at `m`.
    pub fn has_ended<L: Ledger>(&self, m: Moment, _steps: &mut Steps<L>) -> bool
        ensures ended { result ≡ list_any (is_ended_peer m) self.now }
        ensures steps { _steps.new ≡ _steps.old }
    {
        self.leases.iter().any(|lease| !lease.is_live(m))
    }

    /// Appends the leases that are live at `m`, in the order granted. The one error is want of
    /// memory, which changes nothing.
    pub fn copy_live(
        &self,
        alloc: Global,
        m: Moment,
        out: &mut Vec<PeerLease>,
    ) -> Result<(), Memory>
        ensures { CopiesLivePeers self.now m out.old.items result out.new.items }
    {
        let mut live = live_of(alloc, &self.leases, m)?;
        out.append(&mut live)?;
        Ok(())
    }
}
