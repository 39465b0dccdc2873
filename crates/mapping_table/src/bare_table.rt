//! Leases without their filters, by numbers that grow, and what tells the numbers beside them: an
//! ordered map by first endpoints, with a sieve and hints before it, and slots by external ports.

ghost use Rattle.std.specs.Prelude.{◌≡◌, ℕ, ◌≤◌, ◌<◌, ◌+◌, ◌-◌, ◌*◌, [], false, not, filter, count_by, length, Some, None, IfSome, IfNone, IfOk, OnErr};
ghost use Rattle.std.specs.Map.{values_of};
ghost use Rattle.std.specs.List.{list_any};
ghost use Rattle.std.specs.Option.{option_copied, option_map};
ghost use Rattle.std.specs.Ordering.{nat_cmp};
ghost use Rattle.std.specs.BTreeMap.{IsOrdered, get, values};
ghost use Rattle.step_count.specs.Levels.{levels};
ghost use Rattle.pcp_base.specs.declared.leases.MapLease.{MapLease};
ghost use Rattle.pcp_base.specs.Tables.{first_endpoint, is_map_of};
ghost use Rattle.mapping_table.specs.MapLists.{is_live_map, some_live_map, map_covering, map_owning, IsDeadMap, IsNextCovered, AreSoundMaps, IsOverlapped, with_map, PutsMap, RemovesMap, first_dead_map};
ghost use Rattle.ordered_index.specs.MapSteps.{Removes};
ghost use Rattle.ordered_index.specs.Orders.{place_cmp};
ghost use Rattle.mapping_table.specs.Kept.{AreKeptMaps, SievesMaps, AreSievedMaps, KeepsNumbers, place_of_lease, leases_in};

use crate::bare::BareLease;
use crate::begins::first_live;
use crate::changes::{append, replace};
use crate::looks::{lease_at, lease_in, look};
use crate::overlaps::{is_renewed, overlapped_key, overlapping_set};
use ordered_index::{Expires, Hints, Owned, Place, Sieve, Slots, place_of};
use pcp_base::{Endpoint, Memory, Moment, Protocol};
use std::alloc::Global;
use std::marker::Model;
use std::sync::ledger::Ledger;
use step_count::laws::levels_grow;
use step_count::{Steps, levels};

/// MAP leases without their filters, by their numbers.
#[derive(Drop)]
pub(crate) struct BareTable {
    /// The leases, by their first endpoints and by their first external ports.
    kept: Owned<BareLease, Place>,
    /// How many of them are sets of ports. A lease of a single port is found by that port alone.
    sets: u32,
    /// How many of their first endpoints fall on each bucket. Most look-ups that miss end here.
    sieve: Sieve,
    /// A slot for each bucket. Most look-ups that hit end at the lease there.
    hints: Hints,
}

impl Model for BareTable {
    ghost use Rattle.mapping_table.specs.Kept.{BareLeases, AreSievedMaps};

    ghost Value = { BareLeases };

    ghost view = { λ t. record { next = t.kept.next; entries = t.kept.leases.entries } };

    ghost invariant = { λ t. AreSievedMaps t.kept t.sets t.sieve };
}

/// The number and the place of the lease in a slot.
fn entry_in(kept: &Owned<BareLease, Place>, slot: usize) -> Option<(u64, Place)>
    ensures { IfSome result (λ entry. (l : MapLease)
        × (get nat_cmp kept.now.leases entry.0 ≡ Some l) × (place_of_lease l ≡ entry.1)) }
{
    let Some(entry) = kept.in_slot(slot) else {
        return None;
    };
    let (number, lease) = entry;
    Some((*number, lease.place()))
}

/// The number at the place. The ordered map is asked only where neither the sieve nor the lease that
/// is hinted at tells.
fn number_at(
    sieve: &Sieve,
    hints: &Hints,
    kept: &Owned<BareLease, Place>,
    place: &Place,
) -> Option<u64>
    requires kept { AreKeptMaps kept.now }
    requires sieved { SievesMaps sieve.now (values kept.now.leases) }
    ensures { result ≡ get place_cmp kept.now.keys place.now }
{
    let count = sieve.count(place);
    if count == 0 {
        return None;
    }
    if let Some(entry) = entry_in(kept, hints.slot(place)) {
        let (number, held) = entry;
        if held == *place {
            return Some(number);
        }
        if count == 1 && held.falls_with(place) {
            return None;
        }
    }
    kept.keys().get(place).copied()
}

/// When the lease expires that is hinted at for the endpoint, where it owns the external port.
fn hinted_expiry(
    hints: &Hints,
    kept: &Owned<BareLease, Place>,
    endpoint: &Endpoint,
    protocol: Protocol,
    port: u16,
) -> Option<u64>
    requires kept { AreKeptMaps kept.now }
    ensures { IfSome result (λ expiry. Some expiry
        ≡ option_map (λ l. l.expiry) (map_owning protocol port (values kept.now.leases))) }
{
    let Some(entry) = kept.in_slot(hints.slot(&place_of(endpoint))) else {
        return None;
    };
    let (_number, lease) = entry;
    if lease.owns(protocol, port) {
        Some(lease.expires_at())
    } else {
        None
    }
}

/// Whether there is a lease that is live at `m`.
fn is_live_at(found: Option<&BareLease>, m: Moment) -> bool
    ensures { result ≡ some_live_map m (option_copied found.entry) }
{
    match found {
        Some(lease) => lease.is_live(m),
        None => false,
    }
}

/// Puts a lease in the place of the one with its key, or at the end.
fn put_kept<L: Ledger>(
    kept: &mut Owned<BareLease, Place>,
    sieve: &mut Sieve,
    hints: &mut Hints,
    sets: &mut u32,
    lease: BareLease,
    steps: &mut Steps<L>,
) -> Result<(), Memory>
    requires sieved { AreSievedMaps kept.old sets.old sieve.old }
    requires sound { AreSoundMaps (with_map lease (values kept.old.leases)) }
    ensures sieved { AreSievedMaps kept.new sets.new sieve.new }
    ensures put { PutsMap (values kept.old.leases) lease result (values kept.new.leases) }
    ensures numbers { KeepsNumbers kept.old kept.new }
    ensures err { OnErr result (kept.new.leases.entries ≡ kept.old.leases.entries) }
    ensures steps { steps.new ≤ steps.old + 8 * levels (length (values kept.old.leases) + 1) }
{
    levels_grow();
    look(kept, steps);
    let place = lease.place();
    match number_at(sieve, hints, kept, &place) {
        Some(number) => {
            hints.note(&place, number);
            replace(kept, sets, number, lease, steps);
            Ok(())
        }
        None => append(kept, sieve, hints, sets, lease, steps),
    }
}

impl BareTable {
    /// A table without a lease. The one error is want of memory.
    pub(crate) fn new(alloc: Global) -> Result<BareTable, Memory>
        ensures { IfOk result (λ table. table.entries ≡ []) }
    {
        let kept = Owned::new(alloc)?;
        let sieve = Sieve::new(alloc)?;
        let hints = Hints::new(alloc)?;
        Ok(BareTable {
            kept,
            sets: 0,
            sieve,
            hints,
        })
    }

    /// Forgets all leases. It takes no memory.
    pub(crate) fn clear(&mut self)
        ensures { self.new.entries ≡ [] }
    {
        self.kept.clear();
        self.sets = 0;
        self.sieve.clear();
    }

    /// How many leases there are.
    pub(crate) fn len(&self) -> usize
        ensures { result ≡ length (values_of self.now.entries) }
    {
        self.kept.len()
    }

    /// The lease that covers the endpoint.
    pub(crate) fn find<L: Ledger>(
        &self,
        endpoint: &Endpoint,
        steps: &mut Steps<L>,
    ) -> Option<&BareLease>
        ensures lease { option_copied result
            ≡ map_covering endpoint.now (values_of self.now.entries) }
        ensures steps { steps.new ≤ steps.old + 3 * levels (length (values_of self.now.entries)) }
    {
        let kept = &self.kept;
        look(kept, steps);
        if let Some(number) = number_at(&self.sieve, &self.hints, kept, &place_of(endpoint)) {
            return lease_at(kept, number, steps);
        }
        if self.sets == 0 {
            return None;
        }
        self.find_nearest(endpoint, steps)
    }

    /// Whether a lease that is live at `m` covers the endpoint.
    pub(crate) fn covers<L: Ledger>(
        &self,
        endpoint: &Endpoint,
        m: Moment,
        steps: &mut Steps<L>,
    ) -> bool
        ensures covers { result
            ≡ some_live_map m (map_covering endpoint.now (values_of self.now.entries)) }
        ensures steps { steps.new ≤ steps.old + 3 * levels (length (values_of self.now.entries)) }
    {
        is_live_at(self.find(endpoint, steps), m)
    }

    /// The lease that covers the endpoint, by the nearest key up to it.
    fn find_nearest<L: Ledger>(
        &self,
        endpoint: &Endpoint,
        steps: &mut Steps<L>,
    ) -> Option<&BareLease>
        ensures lease { option_copied result
            ≡ map_covering endpoint.now (values_of self.now.entries) }
        ensures steps { steps.new ≤ steps.old + 2 * levels (length (values_of self.now.entries)) }
    {
        let kept = &self.kept;
        look(kept, steps);
        let Some(number) = kept.last_number(place_of(endpoint)) else {
            return None;
        };
        let Some(lease) = lease_at(kept, number, steps) else {
            return None;
        };
        if lease.covers(endpoint) {
            Some(lease)
        } else {
            None
        }
    }

    /// The lease that owns the external port.
    pub(crate) fn by_external<L: Ledger>(
        &self,
        protocol: Protocol,
        port: u16,
        steps: &mut Steps<L>,
    ) -> Option<&BareLease>
        ensures lease { option_copied result
            ≡ map_owning protocol port (values_of self.now.entries) }
        ensures steps { steps.new ≤ steps.old + 3 * levels (length (values_of self.now.entries)) }
    {
        let kept = &self.kept;
        look(kept, steps);
        if let Some(slot) = kept.slot_at((protocol, port)) {
            return lease_in(kept, slot, steps);
        }
        if self.sets == 0 {
            return None;
        }
        self.owner_nearest(protocol, port, steps)
    }

    /// The lease that owns the external port, by the nearest first port up to it.
    fn owner_nearest<L: Ledger>(
        &self,
        protocol: Protocol,
        port: u16,
        steps: &mut Steps<L>,
    ) -> Option<&BareLease>
        ensures lease { option_copied result
            ≡ map_owning protocol port (values_of self.now.entries) }
        ensures steps { steps.new ≤ steps.old + 2 * levels (length (values_of self.now.entries)) }
    {
        let kept = &self.kept;
        look(kept, steps);
        let Some(slot) = kept.last_slot((protocol, port)) else {
            return None;
        };
        let Some(lease) = lease_in(kept, slot, steps) else {
            return None;
        };
        if lease.owns(protocol, port) {
            Some(lease)
        } else {
            None
        }
    }

    /// When the lease expires that owns the external port. The one that is hinted at for the endpoint
    /// is looked at first.
    pub(crate) fn owner_expiry<L: Ledger>(
        &self,
        protocol: Protocol,
        port: u16,
        near: &Endpoint,
        steps: &mut Steps<L>,
    ) -> Option<u64>
        ensures expiry { result
            ≡ option_map (λ l. l.expiry) (map_owning protocol port (values_of self.now.entries)) }
        ensures steps { steps.new ≤ steps.old + 4 * levels (length (values_of self.now.entries)) }
    {
        look(&self.kept, steps);
        let hinted = hinted_expiry(&self.hints, &self.kept, near, protocol, port);
        if hinted.is_some() {
            return hinted;
        }
        let Some(lease) = self.by_external(protocol, port, steps) else {
            return None;
        };
        Some(lease.expires_at())
    }

    /// The first endpoint of a lease that this one of a single port overlaps: of the lease that
    /// covers its endpoint, or of the one that owns its external port, which isn't asked for where
    /// the first has its key and owns its port.
    fn overlapping_single<L: Ledger>(
        &self,
        lease: &BareLease,
        steps: &mut Steps<L>,
    ) -> Option<Endpoint>
        requires single { lease.now.count ≡ 1 }
        requires sound { AreSoundMaps (values_of self.now.entries) }
        ensures overlapped { IsOverlapped lease.now (values_of self.now.entries) result }
        ensures steps { steps.new ≤ steps.old + 6 * levels (length (values_of self.now.entries)) }
    {
        let found = self.find(&lease.first_endpoint(), steps);
        if is_renewed(lease, found) {
            return None;
        }
        let Some(key) = overlapped_key(lease, found) else {
            let owner = self.by_external(lease.protocol(), lease.external(), steps);
            return overlapped_key(lease, owner);
        };
        Some(key)
    }

    /// The first endpoint of a lease that this one overlaps.
    pub(crate) fn overlapping<L: Ledger>(
        &self,
        lease: &BareLease,
        steps: &mut Steps<L>,
    ) -> Option<Endpoint>
        ensures overlapped { IsOverlapped lease.now (values_of self.now.entries) result }
        ensures steps { steps.new ≤ steps.old + 6 * levels (length (values_of self.now.entries)) }
    {
        let kept = &self.kept;
        if lease.is_single() {
            return self.overlapping_single(lease, steps);
        }
        overlapping_set(kept, lease, steps)
    }

    /// How many leases are live at `m`. It looks at blocks of leases of which one has ended alone.
    pub(crate) fn live(&self, m: Moment) -> u32
        ensures { result ≡ count_by (is_live_map m) (values_of self.now.entries) }
    {
        (self.kept.len() - self.kept.ended(m)) as u32
    }

    /// The least internal port above the endpoint's and below the end, of its address and protocol,
    /// that a lease covers which is live at `m`. The leases on the way are looked at one by one.
    pub(crate) fn next_internal<L: Ledger>(
        &self,
        endpoint: &Endpoint,
        end: u32,
        m: Moment,
        steps: &mut Steps<L>,
    ) -> Option<u16>
        requires below { endpoint.now.port < end }
        requires within { end ≤ 65536 }
        ensures next { IsNextCovered endpoint.now end
            (filter (is_live_map m) (values_of self.now.entries)) result }
        ensures steps { steps.new ≤ steps.old
            + (2 * (end - endpoint.now.port) + 1) * levels (length (values_of self.now.entries)) }
    {
        let kept = &self.kept;
        let next = u32::from(endpoint.port) + 1;
        if next == end {
            return None;
        }
        let above = Endpoint {
            port: endpoint.port + 1,
            ..*endpoint
        };
        if self.covers(&above, m, steps) {
            return Some(above.port);
        }
        let Some(lease) = first_live(kept, endpoint, next, end, m, steps) else {
            return None;
        };
        Some(lease.internal())
    }

    /// Puts a lease in the place of the one with its key, or at the end. The one error is want of
    /// memory, which changes nothing.
    pub(crate) fn put<L: Ledger>(
        &mut self,
        lease: BareLease,
        steps: &mut Steps<L>,
    ) -> Result<(), Memory>
        requires { AreSoundMaps (with_map lease (values_of self.old.entries)) }
        ensures put { PutsMap (values_of self.old.entries) lease result
            (values_of self.new.entries) }
        ensures next { self.old.next ≤ self.new.next }
        ensures fresh { (n : ℕ) → n < self.old.next → get nat_cmp (leases_in self.old) n ≡ None
            → get nat_cmp (leases_in self.new) n ≡ None }
        ensures err { OnErr result (self.new.entries ≡ self.old.entries) }
        ensures steps { steps.new
            ≤ steps.old + 8 * levels (length (values_of self.old.entries) + 1) }
    {
        put_kept(
            &mut self.kept,
            &mut self.sieve,
            &mut self.hints,
            &mut self.sets,
            lease,
            steps,
        )
    }

    /// Takes out the lease with a number: its slot, its entry of the ordered map, its port and its
    /// expiry.
    pub(crate) fn take<L: Ledger>(&mut self, number: u64, lease: &BareLease, steps: &mut Steps<L>)
        requires { get nat_cmp (leases_in self.old) number ≡ Some lease.now }
        ensures next { self.new.next ≡ self.old.next }
        ensures leases { Removes nat_cmp (leases_in self.old) (leases_in self.new) number }
        ensures removed { values_of self.new.entries ≡ filter
            (λ l. not (is_map_of (first_endpoint lease.now) l)) (values_of self.old.entries) }
        ensures steps { steps.new ≤ steps.old + 4 * levels (length (values_of self.old.entries)) }
    {
        steps.take(4 * levels(self.kept.len()));
        let place = lease.place();
        self.kept.forget(number, place, lease.port());
        self.sets -= lease.sets();
        self.sieve.take(&place);
    }

    /// Takes out the lease with this first endpoint.
    pub(crate) fn remove<L: Ledger>(
        &mut self,
        key: &Endpoint,
        steps: &mut Steps<L>,
    ) -> Option<BareLease>
        ensures removed { RemovesMap (values_of self.old.entries) key.now result
            (values_of self.new.entries) }
        ensures next { self.new.next ≡ self.old.next }
        ensures fewer { (n : ℕ) → get nat_cmp (leases_in self.old) n ≡ None
            → get nat_cmp (leases_in self.new) n ≡ None }
        ensures steps { steps.new ≤ steps.old + 6 * levels (length (values_of self.old.entries)) }
    {
        look(&self.kept, steps);
        let Some(number) = number_at(&self.sieve, &self.hints, &self.kept, &place_of(key)) else {
            return None;
        };
        let Some(lease) = lease_at(&self.kept, number, steps).copied() else {
            return None;
        };
        self.take(number, &lease, steps);
        Some(lease)
    }

    /// Whether a lease isn't live at `m`, by one look.
    pub(crate) fn has_ended<L: Ledger>(&self, m: Moment, steps: &mut Steps<L>) -> bool
        ensures ended { result
            ≡ list_any (λ l. not (is_live_map m l)) (values_of self.now.entries) }
        ensures steps { steps.new ≤ steps.old + levels (length (values_of self.now.entries)) }
    {
        look(&self.kept, steps);
        self.kept.one_ended(m).is_some()
    }

    /// One of the leases that aren't live at `m`. It looks at one block of them.
    pub(crate) fn one_ended<L: Ledger>(&self, m: Moment, steps: &mut Steps<L>) -> Option<&BareLease>
        ensures ended { IsDeadMap m (values_of self.now.entries) (option_copied result) }
        ensures steps { steps.new ≤ steps.old + 2 * levels (length (values_of self.now.entries)) }
    {
        let kept = &self.kept;
        look(kept, steps);
        let Some(number) = kept.one_ended(m) else {
            return None;
        };
        lease_at(kept, number, steps)
    }

    /// The same with its number.
    pub(crate) fn ended_entry<L: Ledger>(
        &self,
        m: Moment,
        steps: &mut Steps<L>,
    ) -> Option<(u64, BareLease)>
        ensures there { IfSome result (λ entry.
            get nat_cmp (leases_in self.now) entry.0 ≡ Some entry.1) }
        ensures dead { IfSome result (λ entry. is_live_map m entry.1 ≡ false) }
        ensures none { IfNone result (first_dead_map m (values_of self.now.entries) ≡ None) }
        ensures steps { steps.new ≤ steps.old + 2 * levels (length (values_of self.now.entries)) }
    {
        let kept = &self.kept;
        look(kept, steps);
        let Some(number) = kept.one_ended(m) else {
            return None;
        };
        let Some(lease) = lease_at(kept, number, steps).copied() else {
            return None;
        };
        Some((number, lease))
    }

    /// A law: the leases stand in the order of their numbers, which are below the next one.
    pub(crate) fn tell_order(&self)
        ensures ordered { IsOrdered nat_cmp (leases_in self.now) }
        ensures below { (n : ℕ) (l : MapLease) → get nat_cmp (leases_in self.now) n ≡ Some l
            → n < self.now.next }
    {
        let _ = &self.kept;
    }

    /// The leases by their numbers.
    pub(crate) fn leases(&self) -> &Slots<BareLease>
        ensures { result.now.entries ≡ self.now.entries }
    {
        self.kept.leases()
    }
}
