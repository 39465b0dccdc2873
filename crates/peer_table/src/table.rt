//! The fast body: leases by numbers that grow, and ordered maps to the numbers beside them.

ghost use Rattle.std.specs.Prelude.{◌≡◌, ◌≤◌, ◌+◌, ◌-◌, ◌*◌, ◌++◌, ◌&&◌, ◌⊎◌, [], ◌∷◌, true, false, find, filter, map, count_by, length, None, Ok, IfOk, OnOk, OnErr};
ghost use Rattle.std.specs.List.{AllByRecursion, list_any};
ghost use Rattle.std.specs.Bool.{OnTrue, OnFalse};
ghost use Rattle.std.specs.Option.{option_copied};
ghost use Rattle.std.specs.BTreeMap.{values};
ghost use Rattle.step_count.specs.Levels.{levels};
ghost use Rattle.pcp_base.specs.declared.leases.PeerLease.{PeerLease};
ghost use Rattle.pcp_base.specs.declared.leases.TheConstants.{MOST_LEASES, MOST_PEERS};
ghost use Rattle.pcp_base.specs.Records.{IsWellFormedRecord};
ghost use Rattle.pcp_base.specs.Snapshots.{peer_record};
ghost use Rattle.peer_table.specs.PeerLists.{is_live_peer, is_ended_peer, peer_with_key, peer_opening, opens, IsDeadPeer, IsEndedOf, IsPortUse, IsLastExpiry, IsNextNamed, IsNextOwned, AreSoundPeers, IsOverlapped, with_peer, PutsPeer, RemovesPeer, CopiesLivePeers, LeavesPeer, first_dead_peer};
ghost use Rattle.ordered_index.specs.Aged.{no_leases, AreTogether};
ghost use Rattle.peer_table.specs.Kept.{AreKeptPeers, StaysApart};

use crate::changes::{append, replace};
use crate::endpoints::{count_live, first_ended, first_live};
use crate::keys::{
    Key, Opening, bound_at, key_at, key_of, opening_at, opening_bound, opening_of, port_of,
};
use crate::lists::{append_live, append_records};
use crate::looks::{lease_at, look, number_under};
use crate::named::next_live;
use crate::overlaps::{of_endpoint, of_port, overlapped};
use crate::ports::last_expiry;
use crate::uses::PortUse;
use ordered_index::{Numbered, first_from};
use pcp_base::{Address, Endpoint, MOST_LEASES, Memory, Moment, PeerLease, Protocol};
use record_sink::RecordSink;
use std::alloc::Global;
use std::collections::BTreeMap;
use std::marker::Model;
use std::sync::ledger::Ledger;
use step_count::laws::levels_grow;
use step_count::{Steps, levels};

/// PEER leases, in the order granted. Those that have ended stay until they are taken out, or
/// leave: then they aren't looked up any more, and stay among all leases until they are forgotten.
///
/// A step is a look at a level of one of its ordered maps, of which each has at most as many levels
/// as its number of leases has binary digits. The tree of their expiries counts as such a map,
/// though it has twelve levels, whatever there is.
#[derive(Drop)]
pub struct PeerTable {
    /// The leases that are looked up, by their endpoints and remotes, and by their external ports
    /// and remotes.
    kept: Numbered<PeerLease, Key, Opening>,
    /// The leases that have left, by the numbers that they had.
    past: BTreeMap<u64, PeerLease>,
    /// No lease that has left is live from this moment on.
    gone: u64,
}

impl Model for PeerTable {
    ghost use Rattle.pcp_base.specs.declared.leases.PeerLease.{PeerLease};
    ghost use Rattle.ordered_index.specs.Aged.{Aged, aged};
    ghost use Rattle.peer_table.specs.Kept.{AreAgedPeers};

    ghost Value = { Aged PeerLease };

    ghost view = { λ t. aged t.kept.leases t.past };

    ghost invariant = { λ t. AreAgedPeers t.kept t.past t.gone };
}

/// How many leases are live at `m`. It looks at blocks of leases of which one has ended alone.
fn count_live_of(kept: &Numbered<PeerLease, Key, Opening>, m: Moment) -> usize
    requires { AreKeptPeers kept.now }
    ensures { result ≡ count_by (is_live_peer m) (values kept.now.leases) }
{
    kept.leases.len() - kept.ended(m)
}

/// Whether the lease owns the external port and has exactly this remote.
fn opens(
    lease: &PeerLease,
    protocol: Protocol,
    port: u16,
    remote: &Address,
    remote_port: u16,
) -> bool
    ensures { result ≡ opens protocol port remote.now remote_port lease.now }
{
    lease.endpoint.protocol == protocol
        && lease.external == port
        && lease.remote == *remote
        && lease.remote_port == remote_port
}

/// Puts a lease in the place of the one with its key, or at the end.
fn put_kept<L: Ledger>(
    kept: &mut Numbered<PeerLease, Key, Opening>,
    lease: PeerLease,
    steps: &mut Steps<L>,
) -> Result<(), Memory>
    requires kept { AreKeptPeers kept.old }
    requires sound { AreSoundPeers (with_peer lease (values kept.old.leases)) }
    ensures kept { AreKeptPeers kept.new }
    ensures put { PutsPeer (values kept.old.leases) lease result (values kept.new.leases) }
    ensures apart { StaysApart kept.old kept.new result }
    ensures steps { steps.new ≤ steps.old + 8 * levels (length (values kept.old.leases) + 1) }
{
    levels_grow();
    match number_under(kept, key_of(&lease), steps) {
        Some(number) => replace(kept, number, lease, steps),
        None => append(kept, lease, steps),
    }
}

impl PeerTable {
    /// A table without a lease. The one error is want of memory.
    pub fn new(alloc: Global) -> Result<PeerTable, Memory>
        ensures { IfOk result (λ table. table ≡ no_leases) }
    {
        Ok(PeerTable {
            kept: Numbered::new(alloc)?,
            past: BTreeMap::new(alloc),
            gone: 0,
        })
    }

    /// Forgets all leases. It takes no memory.
    pub fn clear(&mut self)
        ensures { self.new ≡ no_leases }
    {
        self.kept.clear();
        self.past.clear();
        self.gone = 0;
    }

    /// The lease with this endpoint, remote address and remote port.
    pub fn find<L: Ledger>(
        &self,
        endpoint: &Endpoint,
        remote: &Address,
        port: u16,
        steps: &mut Steps<L>,
    ) -> Option<&PeerLease>
        ensures lease { option_copied result
            ≡ peer_with_key endpoint.now remote.now port self.now.found }
        ensures steps { steps.new ≤ steps.old + 2 * levels (length self.now.found) }
    {
        let kept = &self.kept;
        let key = key_at(endpoint, remote, port);
        let Some(number) = number_under(kept, key, steps) else {
            return None;
        };
        lease_at(kept, number, steps)
    }

    /// The external port of the endpoint's leases that are live at `m`, and how many they are. It
    /// looks at the leases of the endpoint alone, twice at each, and they are few.
    pub fn of_endpoint<L: Ledger>(
        &self,
        endpoint: &Endpoint,
        m: Moment,
        steps: &mut Steps<L>,
    ) -> Option<PortUse>
        ensures used { IsPortUse endpoint.now m self.now.found result }
        ensures steps { steps.new
            ≤ steps.old + (3 + 2 * MOST_PEERS) * levels (length self.now.found) }
    {
        let kept = &self.kept;
        let from = bound_at(endpoint, 0);
        let to = bound_at(endpoint, 2);
        let Some(number) = first_live(kept, from, to, m, steps) else {
            return None;
        };
        look(kept, steps);
        let external = kept.leases[&number].external;
        let count = count_live(kept, from, to, m, steps);
        Some(PortUse { external, count })
    }

    /// One of the endpoint's leases that aren't live at `m`. It looks at the leases of the endpoint
    /// alone, and they are few.
    pub fn ended_of<L: Ledger>(
        &self,
        endpoint: &Endpoint,
        m: Moment,
        steps: &mut Steps<L>,
    ) -> Option<&PeerLease>
        ensures ended { IsEndedOf endpoint.now m self.now.found (option_copied result) }
        ensures steps { steps.new ≤ steps.old + (2 + MOST_PEERS) * levels (length self.now.found) }
    {
        let kept = &self.kept;
        let from = bound_at(endpoint, 0);
        let to = bound_at(endpoint, 2);
        let Some(number) = first_ended(kept, from, to, m, steps) else {
            return None;
        };
        lease_at(kept, number, steps)
    }

    /// The lease that owns the external port and has exactly this remote.
    pub fn by_external<L: Ledger>(
        &self,
        protocol: Protocol,
        port: u16,
        remote: &Address,
        remote_port: u16,
        steps: &mut Steps<L>,
    ) -> Option<&PeerLease>
        ensures lease { option_copied result
            ≡ peer_opening protocol port remote.now remote_port self.now.found }
        ensures steps { steps.new ≤ steps.old + 2 * levels (length self.now.found) }
    {
        let kept = &self.kept;
        let opening = opening_at(protocol, port, remote, remote_port);
        look(kept, steps);
        let Some(number) = kept.ports.get(&opening).copied() else {
            return None;
        };
        lease_at(kept, number, steps)
    }

    /// One of the leases that this one overlaps, live or not: those that have its endpoint, another
    /// remote and another external port, or its external port and another endpoint. It looks at two
    /// leases at most.
    pub fn overlapping<L: Ledger>(
        &self,
        lease: &PeerLease,
        steps: &mut Steps<L>,
    ) -> Option<&PeerLease>
        ensures overlapped { IsOverlapped lease.now self.now.found (option_copied result) }
        ensures steps { steps.new ≤ steps.old + 5 * levels (length self.now.found) }
    {
        let kept = &self.kept;
        if let Some(other) = overlapped(lease, of_endpoint(kept, lease, steps)) {
            return Some(other);
        }
        overlapped(lease, of_port(kept, lease, steps))
    }

    /// The latest expiry of the leases that own the external port, in seconds. It looks at these
    /// leases alone, and they are few, as all of them have one endpoint.
    pub fn last_expiry<L: Ledger>(
        &self,
        protocol: Protocol,
        port: u16,
        steps: &mut Steps<L>,
    ) -> Option<u64>
        ensures last { IsLastExpiry protocol port self.now.found result }
        ensures steps { steps.new ≤ steps.old + (1 + MOST_PEERS) * levels (length self.now.found) }
    {
        let kept = &self.kept;
        let from = opening_bound(protocol, port, 0);
        let to = opening_bound(protocol, port, 2);
        last_expiry(kept, from, to, steps)
    }

    /// The least external port from this one on, itself among them, that a lease owns, live or not.
    /// It looks at one lease alone.
    pub fn next_owned<L: Ledger>(
        &self,
        protocol: Protocol,
        port: u16,
        steps: &mut Steps<L>,
    ) -> Option<u16>
        ensures next { IsNextOwned protocol port self.now.found result }
        ensures steps { steps.new ≤ steps.old + levels (length self.now.found) }
    {
        look(&self.kept, steps);
        let Some(first) = first_from(&self.kept.ports, opening_bound(protocol, port, 0)) else {
            return None;
        };
        port_of(first, protocol)
    }

    /// The least port above the endpoint's and below `end` that a lease of its address and protocol
    /// names which is live at `m`. It looks at the leases of one port after the other, up to that
    /// one.
    pub fn next_internal<L: Ledger>(
        &self,
        endpoint: &Endpoint,
        end: u32,
        m: Moment,
        steps: &mut Steps<L>,
    ) -> Option<u16>
        ensures next { IsNextNamed endpoint.now end
            (filter (is_live_peer m) self.now.found) result }
        ensures steps { steps.new ≤ steps.old
            + ((2 + MOST_PEERS) * (end - endpoint.now.port) + 1) * levels (length self.now.found) }
    {
        next_live(&self.kept, endpoint, end, m, steps)
    }

    /// Puts a lease in the place of the one with its key, or at the end. The one error is want of
    /// memory, or of a slot where there are 32,768 leases, which changes nothing.
    pub fn put<L: Ledger>(
        &mut self,
        _alloc: Global,
        lease: PeerLease,
        steps: &mut Steps<L>,
    ) -> Result<(), Memory>
        requires { AreSoundPeers (with_peer lease self.old.found) }
        ensures put { PutsPeer self.old.found lease result self.new.found }
        ensures past { self.new.past ≡ self.old.past }
        ensures err { OnErr result (self.new.all ≡ self.old.all) }
        ensures steps { steps.new ≤ steps.old + 8 * levels (length self.old.found + 1) }
    {
        put_kept(&mut self.kept, lease, steps)
    }

    /// Takes out the lease with this endpoint, remote address and remote port.
    pub fn remove<L: Ledger>(
        &mut self,
        endpoint: &Endpoint,
        remote: &Address,
        port: u16,
        steps: &mut Steps<L>,
    ) -> Option<PeerLease>
        ensures removed { RemovesPeer self.old.found endpoint.now remote.now port
            result self.new.found }
        ensures past { self.new.past ≡ self.old.past }
        ensures steps { steps.new ≤ steps.old + 6 * levels (length self.old.found) }
    {
        let key = key_at(endpoint, remote, port);
        let Some(number) = number_under(&self.kept, key, steps) else {
            return None;
        };
        let Some(lease) = lease_at(&self.kept, number, steps).copied() else {
            return None;
        };
        // The lease leaves each of the three maps, and the tree of expiries.
        steps.take(4 * levels(self.kept.leases.len()));
        self.kept.forget(number, key, opening_of(&lease));
        Some(lease)
    }

    /// How many leases are live at `m`, those that have left among them. It looks at blocks of leases
    /// of which one has ended, and at those that have left where `m` is before a moment at which one
    /// left.
    pub fn live(&self, m: Moment) -> u32
        ensures live { result ≡ count_by (is_live_peer m) self.now.all }
    {
        count_live_of(&self.kept, m) as u32 + self.live_past(m)
    }

    /// How many of the leases that have left are live at `m`.
    fn live_past(&self, m: Moment) -> u32
        ensures count { result ≡ count_by (is_live_peer m) self.now.past }
        ensures few { result ≤ MOST_LEASES }
    {
        if self.gone <= m.get() {
            return 0;
        }
        self.past.values().filter(|lease| lease.is_live(m)).count() as u32
    }

    /// The first of the leases that have left and are live at `m` that owns the external port and
    /// has exactly this remote. It looks at those that have left where `m` is before a moment at which
    /// one left.
    pub fn past_opening(
        &self,
        protocol: Protocol,
        port: u16,
        remote: &Address,
        remote_port: u16,
        m: Moment,
    ) -> Option<PeerLease>
        ensures { result ≡ find (λ l. is_live_peer m l
            && opens protocol port remote.now remote_port l) self.now.past }
    {
        if self.gone <= m.get() {
            return None;
        }
        self.past
            .values()
            .find(|lease| { lease.is_live(m) && opens(lease, protocol, port, remote, remote_port) })
            .copied()
    }

    /// A law: what all leases tell by those that are looked up and those that have left.
    pub fn tell_all(&self)
        ensures together { AreTogether self.now }
        ensures few { length self.now.past ≤ MOST_LEASES }
    {
        let _ = &self.past;
    }

    /// Lets one of the leases that aren't live at `m` leave: it isn't looked up any more, and stays
    /// among all. False where none has ended, or as many as may be have left. The one error is want
    /// of memory, which changes nothing.
    pub fn retire<L: Ledger>(&mut self, m: Moment, steps: &mut Steps<L>) -> Result<bool, Memory>
        ensures left { result ≡ Ok true → LeavesPeer m self.old self.new }
        ensures none { result ≡ Ok false → self.new ≡ self.old }
        ensures cause { result ≡ Ok false → (first_dead_peer m self.old.found ≡ None)
            ⊎ (MOST_LEASES ≤ length self.old.past) }
        ensures err { OnErr result (self.new ≡ self.old) }
        ensures steps { steps.new ≤ steps.old + 6 * levels (length self.old.found)
            + levels MOST_LEASES }
    {
        if self.past.len() >= MOST_LEASES {
            return Ok(false);
        }
        look(&self.kept, steps);
        let Some(number) = self.kept.one_ended(m) else {
            return Ok(false);
        };
        let lease = self.kept.leases[&number];
        steps.take(5 * levels(self.kept.leases.len()) + levels(MOST_LEASES));
        self.past.insert(number, lease)?;
        self.kept.forget(number, key_of(&lease), opening_of(&lease));
        self.gone = self.gone.max(m.get());
        Ok(true)
    }

    /// Forgets the first of the leases that have left; false where none has.
    pub fn forget_one<L: Ledger>(&mut self, steps: &mut Steps<L>) -> bool
        ensures forgot { OnTrue result ((l : PeerLease) × (self.old.past ≡ l ∷ self.new.past)) }
        ensures none { OnFalse result ((self.old.past ≡ []) × (self.new.past ≡ [])) }
        ensures found { self.new.found ≡ self.old.found }
        ensures steps { steps.new ≡ steps.old + levels MOST_LEASES }
    {
        steps.take(levels(MOST_LEASES));
        self.past.pop_first().is_some()
    }

    /// Whether a lease isn't live at `m`, by the first expiry.
    pub fn has_ended<L: Ledger>(&self, m: Moment, steps: &mut Steps<L>) -> bool
        ensures ended { result ≡ list_any (is_ended_peer m) self.now.found }
        ensures steps { steps.new ≤ steps.old + levels (length self.now.found) }
    {
        look(&self.kept, steps);
        self.kept.one_ended(m).is_some()
    }

    /// How many leases are looked up, live or not.
    pub fn len(&self) -> usize
        ensures { result ≡ length self.now.found }
    {
        self.kept.leases.len()
    }

    /// One of the leases that aren't live at `m`. It looks at one block of them.
    pub fn one_ended<L: Ledger>(&self, m: Moment, steps: &mut Steps<L>) -> Option<&PeerLease>
        ensures ended { IsDeadPeer m self.now.found (option_copied result) }
        ensures steps { steps.new ≤ steps.old + 2 * levels (length self.now.found) }
    {
        let kept = &self.kept;
        look(kept, steps);
        let Some(number) = kept.one_ended(m) else {
            return None;
        };
        lease_at(kept, number, steps)
    }

    /// Appends the leases that are live at `m`, those that have left among them, in the order
    /// granted. The one error is want of memory, which changes nothing.
    pub fn copy_live(
        &self,
        _alloc: Global,
        m: Moment,
        out: &mut Vec<PeerLease>,
    ) -> Result<(), Memory>
        ensures { CopiesLivePeers self.now.all m out.old.items result out.new.items }
    {
        out.reserve(self.live(m) as usize)?;
        let before = out.len();
        let Err(refused) = append_live(&self.kept.leases, &self.past, m, out) else {
            return Ok(());
        };
        out.truncate(before);
        Err(refused.into())
    }

    /// Hands on a record at `m` for each lease that is live then, those that have left among them,
    /// in the order granted. The one error is want of memory.
    pub fn add_records<K: RecordSink>(&self, m: Moment, out: &mut K) -> Result<(), Memory>
        requires { AllByRecursion IsWellFormedRecord
            (map (peer_record m) (filter (is_live_peer m) self.now.all)) }
        ensures { OnOk result (K.taken out.new
            ≡ K.taken out.old ++ map (peer_record m) (filter (is_live_peer m) self.now.all)) }
    {
        append_records(&self.kept.leases, &self.past, m, out)
    }
}
