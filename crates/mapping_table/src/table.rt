//! The fast body: leases without their filters, and beside them the filters of those that have any.

ghost use Rattle.std.specs.Prelude.{◌≡◌, ◌≤◌, ◌<◌, ◌+◌, ◌-◌, ◌*◌, ◌++◌, ◌&&◌, ◌⊎◌, [], ◌∷◌, not, true, false, filter, find, map, count_by, length, Some, None, Ok, IfOk, OnOk, OnErr};
ghost use Rattle.std.specs.Map.{values_of};
ghost use Rattle.std.specs.Ordering.{nat_cmp};
ghost use Rattle.std.specs.BTreeMap.{get, values};
ghost use Rattle.std.specs.List.{AllByRecursion, list_any};
ghost use Rattle.std.specs.Bool.{OnTrue, OnFalse};
ghost use Rattle.std.specs.Option.{option_copied, option_map};
ghost use Rattle.step_count.specs.Levels.{levels};
ghost use Rattle.pcp_base.specs.declared.leases.MapLease.{MapLease};
ghost use Rattle.pcp_base.specs.declared.leases.TheConstants.{MOST_LEASES};
ghost use Rattle.pcp_base.specs.Owners.{owns};
ghost use Rattle.pcp_base.specs.Records.{IsWellFormedRecord};
ghost use Rattle.pcp_base.specs.Snapshots.{map_record};
ghost use Rattle.pcp_base.specs.Tables.{covers};
ghost use Rattle.ordered_index.specs.Aged.{no_leases, AreTogether};
ghost use Rattle.mapping_table.specs.MapLists.{is_live_map, some_live_map, map_covering, map_owning, IsDeadMap, IsNextCovered, AreSoundMaps, IsOverlapped, with_map, PutsMap, RemovesMap, CopiesLiveMaps, LeavesMap, first_dead_map};
ghost use Rattle.mapping_table.specs.Kept.{Leaves, leases_in};

use crate::bare::BareLease;
use crate::bare_table::BareTable;
use crate::filters::{filters_of, leave_room, make_room, whole, whole_by_look, write};
use crate::lists::{append_live, append_records};
use crate::past::{PastLease, whole_past};
use ordered_index::{Place, place_of};
use pcp_base::{Endpoint, Filters, MOST_LEASES, MapLease, Memory, Moment, Protocol};
use record_sink::RecordSink;
use std::alloc::{AllocError, Global};
use std::collections::BTreeMap;
use std::marker::Model;
use std::sync::ledger::Ledger;
use step_count::{Steps, levels};

/// MAP leases, in the order granted. Those that have ended stay until they are taken out, or leave:
/// then they aren't looked up any more, and stay among all leases until they are forgotten.
///
/// A step is a look at a level of an ordered map, which has at most as many levels as the number of
/// leases has binary digits. A slot, the array of external ports and the tree of expiries count as
/// such a map each, though that tree has twelve levels, whatever there is.
#[derive(Drop)]
pub struct MapTable {
    /// The leases that are looked up, without their filters.
    leases: BareTable,
    /// The filters of these leases that have any, by the places of their first endpoints.
    filters: BTreeMap<Place, Filters>,
    /// The leases that have left, with their filters, by the numbers that they had.
    past: BTreeMap<u64, PastLease>,
    /// No lease that has left is live from this moment on.
    gone: u64,
    /// Where memory for the filters of those that leave is taken.
    alloc: Global,
}

impl Model for MapTable {
    ghost use Rattle.pcp_base.specs.declared.leases.MapLease.{MapLease};
    ghost use Rattle.ordered_index.specs.Aged.{Aged};
    ghost use Rattle.mapping_table.specs.Kept.{aged_maps, AreAgedMaps};

    ghost Value = { Aged MapLease };

    ghost view = { λ t. aged_maps t.leases t.filters t.past };

    ghost invariant = { λ t. AreAgedMaps t.leases t.filters t.past t.gone };
}

/// Whether the lease is live at `m` and owns the external port.
fn is_live_owner(lease: &PastLease, protocol: Protocol, port: u16, m: Moment) -> bool
    ensures { result ≡ (is_live_map m lease.now && owns protocol port lease.now) }
{
    lease.is_live(m) && lease.owns(protocol, port)
}

/// The first of the leases that are live at `m` that owns the external port.
fn owner_in(
    past: &BTreeMap<u64, PastLease>,
    protocol: Protocol,
    port: u16,
    m: Moment,
) -> Option<&PastLease>
    ensures { option_copied result
        ≡ find (λ l. is_live_map m l && owns protocol port l) (values past.now) }
{
    past.values()
        .find(|lease| is_live_owner(lease, protocol, port, m))
}

/// Lets the lease with a number leave, with its filters. The one error is want of memory, which
/// changes nothing.
fn leave<L: Ledger>(
    alloc: Global,
    leases: &mut BareTable,
    filters: &mut BTreeMap<Place, Filters>,
    past: &mut BTreeMap<u64, PastLease>,
    number: u64,
    lease: &BareLease,
    steps: &mut Steps<L>,
) -> Result<(), AllocError>
    requires { get nat_cmp (leases_in leases.old) number ≡ Some lease.now }
    ensures ok { OnOk result (Leaves leases.old filters.old past.old number lease.now
        leases.new filters.new past.new) }
    ensures leases { OnErr result (leases.new ≡ leases.old) }
    ensures filters { OnErr result (filters.new ≡ filters.old) }
    ensures past { OnErr result (past.new.entries ≡ past.old.entries) }
    ensures steps { steps.new ≤ steps.old
        + 7 * levels (length (values_of leases.old.entries)) + levels MOST_LEASES }
{
    steps.take(3 * levels(leases.len()) + levels(MOST_LEASES));
    let left = PastLease::of(alloc, lease, filters_of(filters, lease))?;
    past.insert(number, left)?;
    leases.take(number, lease, steps);
    write(filters, lease.place(), Filters::none());
    Ok(())
}

impl MapTable {
    /// A table without a lease. The one error is want of memory.
    pub fn new(alloc: Global) -> Result<MapTable, Memory>
        ensures { IfOk result (λ table. table ≡ no_leases) }
    {
        Ok(MapTable {
            leases: BareTable::new(alloc)?,
            filters: BTreeMap::new(alloc),
            past: BTreeMap::new(alloc),
            gone: 0,
            alloc,
        })
    }

    /// Forgets all leases. It takes no memory.
    pub fn clear(&mut self)
        ensures { self.new ≡ no_leases }
    {
        self.leases.clear();
        self.filters.clear();
        self.past.clear();
        self.gone = 0;
    }

    /// How many leases are looked up, live or not.
    pub fn len(&self) -> usize
        ensures { result ≡ length self.now.found }
    {
        self.leases.len()
    }

    /// The lease that covers the endpoint.
    pub fn find<L: Ledger>(&self, endpoint: &Endpoint, steps: &mut Steps<L>) -> Option<MapLease>
        ensures lease { result ≡ map_covering endpoint.now self.now.found }
        ensures steps { steps.new ≤ steps.old + 4 * levels (length self.now.found) }
    {
        let found = self.leases.find(endpoint, steps);
        whole_by_look(&self.filters, found, self.leases.len(), steps)
    }

    /// Whether a lease that is live at `m` covers the endpoint. It looks at no filters.
    pub fn covers<L: Ledger>(&self, endpoint: &Endpoint, m: Moment, steps: &mut Steps<L>) -> bool
        ensures covers { result ≡ some_live_map m (map_covering endpoint.now self.now.found) }
        ensures steps { steps.new ≤ steps.old + 3 * levels (length self.now.found) }
    {
        self.leases.covers(endpoint, m, steps)
    }

    /// The lease that owns the external port.
    pub fn by_external<L: Ledger>(
        &self,
        protocol: Protocol,
        port: u16,
        steps: &mut Steps<L>,
    ) -> Option<MapLease>
        ensures lease { result ≡ map_owning protocol port self.now.found }
        ensures steps { steps.new ≤ steps.old + 4 * levels (length self.now.found) }
    {
        let found = self.leases.by_external(protocol, port, steps);
        whole_by_look(&self.filters, found, self.leases.len(), steps)
    }

    /// When the lease expires that owns the external port. It looks at no filters, and first at a
    /// lease that begins near the endpoint, as the owner does where it begins there.
    pub fn owner_expiry<L: Ledger>(
        &self,
        protocol: Protocol,
        port: u16,
        near: &Endpoint,
        steps: &mut Steps<L>,
    ) -> Option<u64>
        ensures expiry { result
            ≡ option_map (λ l. l.expiry) (map_owning protocol port self.now.found) }
        ensures steps { steps.new ≤ steps.old + 4 * levels (length self.now.found) }
    {
        self.leases.owner_expiry(protocol, port, near, steps)
    }

    /// The first endpoint of one of the leases that this one overlaps, live or not: those that have
    /// another first endpoint, and cover an endpoint or own an external port that it has too. It
    /// looks at three leases at most, however many ports they have.
    pub fn overlapping<L: Ledger>(&self, lease: &MapLease, steps: &mut Steps<L>) -> Option<Endpoint>
        ensures overlapped { IsOverlapped lease.now self.now.found result }
        ensures steps { steps.new ≤ steps.old + 6 * levels (length self.now.found) }
    {
        self.leases.overlapping(&BareLease::of(lease), steps)
    }

    /// How many leases are live at `m`, those that have left among them. It looks at blocks of leases
    /// of which one has ended, and at those that have left where `m` is before a moment at which one
    /// left.
    pub fn live(&self, m: Moment) -> u32
        ensures { result ≡ count_by (is_live_map m) self.now.all }
    {
        self.leases.tell_order();
        self.leases.live(m) + self.live_past(m)
    }

    /// How many of the leases that have left are live at `m`.
    fn live_past(&self, m: Moment) -> u32
        ensures count { result ≡ count_by (is_live_map m) self.now.past }
        ensures few { result ≤ MOST_LEASES }
    {
        if self.gone <= m.get() {
            return 0;
        }
        self.past.values().filter(|lease| lease.is_live(m)).count() as u32
    }

    /// Whether a lease that has left and is live at `m` covers the endpoint. It looks at those that
    /// have left where `m` is before a moment at which one left.
    pub fn past_covers(&self, endpoint: &Endpoint, m: Moment) -> bool
        ensures { result ≡ list_any (λ l. is_live_map m l && covers l endpoint.now) self.now.past }
    {
        if self.gone <= m.get() {
            return false;
        }
        self.past
            .values()
            .any(|lease| lease.is_live(m) && lease.covers(endpoint))
    }

    /// The first of the leases that have left and are live at `m` that owns the external port. It
    /// looks at those that have left where `m` is before a moment at which one left.
    pub fn past_owner(&self, protocol: Protocol, port: u16, m: Moment) -> Option<MapLease>
        ensures { result
            ≡ find (λ l. is_live_map m l && owns protocol port l) self.now.past }
    {
        if self.gone <= m.get() {
            return None;
        }
        whole_past(owner_in(&self.past, protocol, port, m))
    }

    /// A law: what all leases tell by those that are looked up and those that have left.
    pub fn tell_all(&self)
        ensures together { AreTogether self.now }
        ensures few { length self.now.past ≤ MOST_LEASES }
    {
        self.leases.tell_order();
    }

    /// The least internal port above the endpoint's and below `end`, of its address and protocol,
    /// that a lease covers which is live at `m`. It looks at each lease that begins on the way.
    pub fn next_internal<L: Ledger>(
        &self,
        endpoint: &Endpoint,
        end: u32,
        m: Moment,
        steps: &mut Steps<L>,
    ) -> Option<u16>
        requires below { endpoint.now.port < end }
        requires within { end ≤ 65536 }
        ensures next { IsNextCovered endpoint.now end
            (filter (is_live_map m) self.now.found) result }
        ensures steps { steps.new ≤ steps.old
            + (2 * (end - endpoint.now.port) + 1) * levels (length self.now.found) }
    {
        self.leases.next_internal(endpoint, end, m, steps)
    }

    /// Puts a lease in the place of the one with its key, or at the end. The one error is want of
    /// memory, which changes nothing. Four of its looks are at filters.
    pub fn put<L: Ledger>(
        &mut self,
        _alloc: Global,
        lease: MapLease,
        steps: &mut Steps<L>,
    ) -> Result<(), Memory>
        requires { AreSoundMaps (with_map lease self.old.found) }
        ensures put { PutsMap self.old.found lease result self.new.found }
        ensures past { self.new.past ≡ self.old.past }
        ensures err { OnErr result (self.new.all ≡ self.old.all) }
        ensures steps { steps.new ≤ steps.old + 12 * levels (length self.old.found + 1) }
    {
        steps.take(4 * levels(self.leases.len() + 1));
        let place = place_of(&lease.first_endpoint());
        make_room(&mut self.filters, place, &lease.filters)?;
        let Err(refused) = self.leases.put(BareLease::of(&lease), steps) else {
            write(&mut self.filters, place, lease.filters);
            return Ok(());
        };
        leave_room(&mut self.filters, place);
        Err(refused)
    }

    /// Takes out the lease with this first endpoint. Two of its looks are at filters.
    pub fn remove<L: Ledger>(&mut self, key: &Endpoint, steps: &mut Steps<L>) -> Option<MapLease>
        ensures removed { RemovesMap self.old.found key.now result self.new.found }
        ensures past { self.new.past ≡ self.old.past }
        ensures steps { steps.new ≤ steps.old + 8 * levels (length self.old.found) }
    {
        steps.take(2 * levels(self.leases.len()));
        let Some(bare) = self.leases.remove(key, steps) else {
            return None;
        };
        let lease = whole(&self.filters, &bare);
        write(&mut self.filters, place_of(key), Filters::none());
        Some(lease)
    }

    /// Lets one of the leases that aren't live at `m` leave: it isn't looked up any more, and stays
    /// among all. False where none has ended, or as many as may be have left. The one error is want
    /// of memory, which changes nothing.
    pub fn retire<L: Ledger>(&mut self, m: Moment, steps: &mut Steps<L>) -> Result<bool, Memory>
        ensures left { result ≡ Ok true → LeavesMap m self.old self.new }
        ensures none { result ≡ Ok false → self.new ≡ self.old }
        ensures cause { result ≡ Ok false → (first_dead_map m self.old.found ≡ None)
            ⊎ (MOST_LEASES ≤ length self.old.past) }
        ensures err { OnErr result (self.new ≡ self.old) }
        ensures steps { steps.new ≤ steps.old + 9 * levels (length self.old.found)
            + levels MOST_LEASES }
    {
        if self.past.len() >= MOST_LEASES {
            return Ok(false);
        }
        self.leases.tell_order();
        let Some(entry) = self.leases.ended_entry(m, steps) else {
            return Ok(false);
        };
        let (number, lease) = entry;
        leave(
            self.alloc,
            &mut self.leases,
            &mut self.filters,
            &mut self.past,
            number,
            &lease,
            steps,
        )?;
        self.gone = self.gone.max(m.get());
        Ok(true)
    }

    /// Forgets the first of the leases that have left; false where none has.
    pub fn forget_one<L: Ledger>(&mut self, steps: &mut Steps<L>) -> bool
        ensures forgot { OnTrue result ((l : MapLease) × (self.old.past ≡ l ∷ self.new.past)) }
        ensures none { OnFalse result ((self.old.past ≡ []) × (self.new.past ≡ [])) }
        ensures found { self.new.found ≡ self.old.found }
        ensures steps { steps.new ≡ steps.old + levels MOST_LEASES }
    {
        steps.take(levels(MOST_LEASES));
        let Some(_) = self.past.pop_first() else {
            return false;
        };
        true
    }

    /// Whether a lease isn't live at `m`, by one look.
    pub fn has_ended<L: Ledger>(&self, m: Moment, steps: &mut Steps<L>) -> bool
        ensures ended { result ≡ list_any (λ l. not (is_live_map m l)) self.now.found }
        ensures steps { steps.new ≤ steps.old + levels (length self.now.found) }
    {
        self.leases.has_ended(m, steps)
    }

    /// One of the leases that aren't live at `m`. It looks at one block of them.
    pub fn one_ended<L: Ledger>(&self, m: Moment, steps: &mut Steps<L>) -> Option<MapLease>
        ensures ended { IsDeadMap m self.now.found result }
        ensures steps { steps.new ≤ steps.old + 3 * levels (length self.now.found) }
    {
        let found = self.leases.one_ended(m, steps);
        whole_by_look(&self.filters, found, self.leases.len(), steps)
    }

    /// Appends the leases that are live at `m`, those that have left among them, in the order
    /// granted. The one error is want of memory, which changes nothing.
    pub fn copy_live(
        &self,
        _alloc: Global,
        m: Moment,
        out: &mut Vec<MapLease>,
    ) -> Result<(), Memory>
        ensures { CopiesLiveMaps self.now.all m out.old.items result out.new.items }
    {
        out.reserve(self.live(m) as usize)?;
        let before = out.len();
        self.leases.tell_order();
        let leases = self.leases.leases();
        let Err(refused) = append_live(leases, &self.filters, &self.past, m, out) else {
            return Ok(());
        };
        out.truncate(before);
        Err(refused.into())
    }

    /// Hands on a record at `m` for each lease that is live then, those that have left among them,
    /// in the order granted. The one error is want of memory.
    pub fn add_records<K: RecordSink>(&self, m: Moment, out: &mut K) -> Result<(), Memory>
        requires { AllByRecursion IsWellFormedRecord
            (map (map_record m) (filter (is_live_map m) self.now.all)) }
        ensures { OnOk result (K.taken out.new
            ≡ K.taken out.old ++ map (map_record m) (filter (is_live_map m) self.now.all)) }
    {
        self.leases.tell_order();
        append_records(self.leases.leases(), &self.filters, &self.past, m, out)
    }
}
