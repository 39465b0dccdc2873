//! The plain body: a list that is searched, and nothing beside it.

ghost use Rattle.std.specs.Prelude.{◌≡◌, [], ◌∷◌, ◌<◌, ◌≤◌, filter, find, count_by, position, not, IfOk, OnOk, OnErr};
ghost use Rattle.std.specs.Option.{option_copied, option_map};
ghost use Rattle.std.specs.List.{AllByRecursion, list_any};
ghost use Rattle.pcp_base.specs.Owners.{owns};
ghost use Rattle.pcp_base.specs.Tables.{is_map_of, IsMapLease};
ghost use Rattle.mapping_table.specs.MapLists.{is_live_map, some_live_map, map_covering, map_owning, map_with_key, IsNextCovered, AreSoundMaps, IsOverlapped, overlaps, with_map, PutsMap, RemovesMap, CopiesLiveMaps};

use crate::bare::BareLease;
use ordered_index::lesser;
use pcp_base::{Endpoint, MapLease, Memory, Moment, Protocol};
use std::alloc::{AllocError, Global};
use std::marker::Model;
use std::sync::ledger::Ledger;
use step_count::Steps;

/// MAP leases in the order granted, which none leaves. Each call that `MapTable` has too has the same
/// clauses of them. It has no ordered map, so it takes no steps.
#[derive(Drop)]
pub struct PlainMapTable {
    leases: Vec<MapLease>,
}

impl Model for PlainMapTable {
    ghost use Rattle.std.specs.Prelude.{List};
    ghost use Rattle.pcp_base.specs.declared.leases.MapLease.{MapLease};
    ghost use Rattle.mapping_table.specs.MapLists.{AreSoundMaps};

    ghost Value = { List MapLease };

    ghost view = { λ t. t.leases.items };

    ghost invariant = { λ t. AreSoundMaps t.leases.items };
}

/// Whether this is the key of the lease: its first endpoint.
fn has_key(lease: &MapLease, key: &Endpoint) -> bool
    ensures { result ≡ is_map_of key.now lease.now }
{
    lease.first_endpoint() == *key
}

/// Whether the lease owns the external port.
fn owns(lease: &MapLease, protocol: Protocol, port: u16) -> bool
    ensures { result ≡ owns protocol port lease.now }
{
    BareLease::of(lease).owns(protocol, port)
}

/// Whether the other lease has another key and isn't separate from it.
fn overlaps(lease: &MapLease, other: &MapLease) -> bool
    ensures { result ≡ overlaps lease.now other.now }
{
    BareLease::of(lease).overlaps(&BareLease::of(other))
}

/// The first of the leases that the lease overlaps.
fn overlapped_by<'a>(leases: &'a [MapLease], lease: &MapLease) -> Option<&'a MapLease>
    ensures { option_copied result ≡ find (overlaps lease.now) leases.now }
{
    leases.iter().find(|other| overlaps(lease, other))
}

/// The lease with this key.
fn lease_with<'a>(leases: &'a [MapLease], key: &Endpoint) -> Option<&'a MapLease>
    ensures { option_copied result ≡ map_with_key key.now leases.now }
{
    leases.iter().find(|lease| has_key(lease, key))
}

/// The lease that covers the endpoint.
fn lease_covering<'a>(leases: &'a [MapLease], endpoint: &Endpoint) -> Option<&'a MapLease>
    ensures { option_copied result ≡ map_covering endpoint.now leases.now }
{
    leases.iter().find(|lease| lease.covers(endpoint))
}

/// The lease that owns the external port.
fn lease_owning(leases: &[MapLease], protocol: Protocol, port: u16) -> Option<&MapLease>
    ensures { option_copied result ≡ map_owning protocol port leases.now }
{
    leases.iter().find(|lease| owns(lease, protocol, port))
}

/// Takes out the leases with this key.
fn drop_from(leases: &mut Vec<MapLease>, key: &Endpoint)
    ensures { leases.new.items ≡ filter (λ l. not (is_map_of key.now l)) leases.old.items }
{
    leases.retain(|lease| !has_key(lease, key));
}

/// The place of the lease with this key.
fn place_of(leases: &[MapLease], key: &Endpoint) -> Option<usize>
    ensures { result ≡ position (is_map_of key.now) leases.now }
{
    leases.iter().position(|lease| has_key(lease, key))
}

/// Puts a lease in the place of the one with its key, or at the end.
pub(crate) fn put_into(leases: &mut Vec<MapLease>, lease: MapLease) -> Result<(), AllocError>
    ensures ok { OnOk result (leases.new.items ≡ with_map lease leases.old.items) }
    ensures err { OnErr result (leases.new.items ≡ leases.old.items) }
{
    match place_of(leases, &lease.first_endpoint()) {
        Some(place) => leases[place] = lease,
        None => leases.push(lease)?,
    }
    Ok(())
}

/// The leases that are live at `m`.
fn live_of(alloc: Global, leases: &[MapLease], m: Moment) -> Result<Vec<MapLease>, AllocError>
    ensures { IfOk result (λ v. v.items ≡ filter (is_live_map m) leases.now) }
{
    leases
        .iter()
        .copied()
        .filter(|lease| lease.is_live(m))
        .collect(alloc)
}

/// The least port above the endpoint's and below the end that the lease covers.
fn next_of(lease: &MapLease, endpoint: &Endpoint, end: u32) -> Option<u16>
    requires { IsMapLease lease.now }
    ensures { IsNextCovered endpoint.now end (lease.now ∷ []) result }
{
    let last = u32::from(lease.internal) + u32::from(lease.count) - 1;
    if lease.address != endpoint.address
        || lease.protocol != endpoint.protocol
        || last <= u32::from(endpoint.port)
    {
        return None;
    }
    let next = lease.internal.max(endpoint.port + 1);
    if u32::from(next) < end {
        Some(next)
    } else {
        None
    }
}

/// The least port above the endpoint's and below the end that a lease covers which is live at `m`.
fn next_in(leases: &[MapLease], endpoint: &Endpoint, end: u32, m: Moment) -> Option<u16>
    requires { AllByRecursion IsMapLease leases.now }
    ensures { IsNextCovered endpoint.now end (filter (is_live_map m) leases.now) result }
{
    let [first, rest @ ..] = leases else {
        return None;
    };
    let next = next_in(rest, endpoint, end, m);
    if !first.is_live(m) {
        return next;
    }
    lesser(next_of(first, endpoint, end), next)
}

impl PlainMapTable {
    /// A table without a lease. The one error is want of memory.
    pub fn new(alloc: Global) -> Result<PlainMapTable, Memory>
        ensures { IfOk result (λ table. table ≡ []) }
    {
        Ok(PlainMapTable {
            leases: Vec::new(alloc),
        })
    }

    /// The leases, in the order granted.
    pub fn leases(&self) -> &[MapLease]
        ensures { result.now ≡ self.now }
    {
        &self.leases
    }

    /// The lease that covers the endpoint.
    pub fn find<L: Ledger>(&self, endpoint: &Endpoint, _steps: &mut Steps<L>) -> Option<MapLease>
        ensures lease { result ≡ map_covering endpoint.now self.now }
        ensures steps { _steps.new ≡ _steps.old }
    {
        lease_covering(&self.leases, endpoint).copied()
    }

    /// Whether a lease that is live at `m` covers the endpoint.
    pub fn covers<L: Ledger>(&self, endpoint: &Endpoint, m: Moment, _steps: &mut Steps<L>) -> bool
        ensures covers { result ≡ some_live_map m (map_covering endpoint.now self.now) }
        ensures steps { _steps.new ≡ _steps.old }
    {
        match self.find(endpoint, _steps) {
            Some(lease) => lease.is_live(m),
            None => false,
        }
    }

    /// The lease that owns the external port.
    pub fn by_external<L: Ledger>(
        &self,
        protocol: Protocol,
        port: u16,
        _steps: &mut Steps<L>,
    ) -> Option<MapLease>
        ensures lease { result ≡ map_owning protocol port self.now }
        ensures steps { _steps.new ≡ _steps.old }
    {
        lease_owning(&self.leases, protocol, port).copied()
    }

    /// When the lease expires that owns the external port.
    pub fn owner_expiry<L: Ledger>(
        &self,
        protocol: Protocol,
        port: u16,
        _near: &Endpoint,
        _steps: &mut Steps<L>,
    ) -> Option<u64>
        ensures expiry { result
            ≡ option_map (λ l. l.expiry) (map_owning protocol port self.now) }
        ensures steps { _steps.new ≡ _steps.old }
    {
        let Some(lease) = lease_owning(&self.leases, protocol, port) else {
            return None;
        };
        Some(lease.expiry)
    }

    /// The first endpoint of one of the leases that this one overlaps, live or not: those that have
    /// another first endpoint, and cover an endpoint or own an external port that it has too.
    pub fn overlapping<L: Ledger>(
        &self,
        lease: &MapLease,
        _steps: &mut Steps<L>,
    ) -> Option<Endpoint>
        ensures overlapped { IsOverlapped lease.now self.now result }
        ensures steps { _steps.new ≡ _steps.old }
    {
        let Some(other) = overlapped_by(&self.leases, lease) else {
            return None;
        };
        Some(other.first_endpoint())
    }

    /// The least internal port above the endpoint's and below `end`, of its address and protocol,
    /// that a lease covers which is live at `m`.
    pub fn next_internal<L: Ledger>(
        &self,
        endpoint: &Endpoint,
        end: u32,
        m: Moment,
        _steps: &mut Steps<L>,
    ) -> Option<u16>
        requires below { endpoint.now.port < end }
        requires within { end ≤ 65536 }
        ensures next { IsNextCovered endpoint.now end (filter (is_live_map m) self.now) result }
        ensures steps { _steps.new ≡ _steps.old }
    {
        next_in(&self.leases, endpoint, end, m)
    }

    /// Puts a lease in the place of the one with its key, or at the end. The one error is want of
    /// memory, which changes nothing.
    pub fn put<L: Ledger>(
        &mut self,
        _alloc: Global,
        lease: MapLease,
        _steps: &mut Steps<L>,
    ) -> Result<(), Memory>
        requires { AreSoundMaps (with_map lease self.old) }
        ensures put { PutsMap self.old lease result self.new }
        ensures steps { _steps.new ≡ _steps.old }
    {
        put_into(&mut self.leases, lease)?;
        Ok(())
    }

    /// Takes out the lease with this first endpoint.
    pub fn remove<L: Ledger>(&mut self, key: &Endpoint, _steps: &mut Steps<L>) -> Option<MapLease>
        ensures removed { RemovesMap self.old key.now result self.new }
        ensures steps { _steps.new ≡ _steps.old }
    {
        let found = lease_with(&self.leases, key).copied();
        drop_from(&mut self.leases, key);
        found
    }

    /// How many leases are live at `m`.
    pub fn live(&self, m: Moment) -> u32
        ensures { result ≡ count_by (is_live_map m) self.now }
    {
        self.leases.iter().filter(|lease| lease.is_live(m)).count() as u32
    }

    /// Whether a lease isn't live at `m`.
    pub fn has_ended<L: Ledger>(&self, m: Moment, _steps: &mut Steps<L>) -> bool
        ensures ended { result ≡ list_any (λ l. not (is_live_map m l)) self.now }
        ensures steps { _steps.new ≡ _steps.old }
    {
        self.leases.iter().any(|lease| !lease.is_live(m))
    }

    /// Appends the leases that are live at `m`, in the order granted. The one error is want of
    /// memory, which changes nothing.
    pub fn copy_live(&self, alloc: Global, m: Moment, out: &mut Vec<MapLease>) -> Result<(), Memory>
        ensures { CopiesLiveMaps self.now m out.old.items result out.new.items }
    {
        let mut live = live_of(alloc, &self.leases, m)?;
        out.append(&mut live)?;
        Ok(())
    }
}
