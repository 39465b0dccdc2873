//! Leases that have ended make way for one that is put.
ghost use Rattle.std.specs.Prelude.{◌≡◌, ◌<◌, ◌≤◌, ◌+◌, ◌*◌, ◌⊎◌, length, count_by, find, is_some, nat_lt, not, Bool, true, false, Contains, Ok, IfSome, OnOk};
ghost use Rattle.std.specs.List.{list_any};
ghost use Rattle.std.specs.Bool.{OnTrue, OnFalse};
ghost use Rattle.pcp_base.specs.declared.leases.TheConstants.{MOST_LEASES};
ghost use Rattle.pcp_base.specs.declared.leases.MapLease.{MapLease};
ghost use Rattle.pcp_base.specs.declared.leases.PeerLease.{PeerLease};
ghost use Rattle.pcp_base.specs.declared.records.Change.TheVariants.{Map, Peer};
ghost use Rattle.pcp_base.specs.Apply.{table_changed};
ghost use Rattle.pcp_base.specs.Sound.{Sound};
ghost use Rattle.pcp_base.specs.Tables.{empty_table, is_map_of, is_peer_of, live, names};
ghost use Rattle.mapping_table.specs.MapLists.{is_live_map, overlaps as overlaps_map};
ghost use Rattle.peer_table.specs.PeerLists.{overlaps as overlaps_peer, is_ended_of, is_ended_peer};
ghost use Rattle.indexed_store.specs.MakingWay.{HasWayForMap, HasWayForPeer};
ghost use Rattle.indexed_store.specs.Tabled.{ArePart, AreTabled, NoneMayLeave, Retires, count_of};
ghost use Rattle.indexed_store.specs.Looks.{most_levels};

use crate::leases::Leases;
use mapping_table::laws::{fewer_maps_are_sound, sound_tables_have_sound_maps};
use pcp_base::{Endpoint, MOST_LEASES, MapLease, Memory, Moment, PeerLease};
use peer_table::laws::{fewer_peers_are_sound, sound_tables_have_sound_peers};
use std::sync::ledger::Ledger;
use step_count::Steps;
use step_count::laws::levels_grow;

/// How many leases a record takes out that have ended, or forgets that have left, beside those in the
/// way of one and one where as many are kept as may be.
const MOST_DROPPED: u32 = 2;

/// How many leases that have ended leave when a moment is reached.
const MOST_RETIRED: u32 = 2;

impl Leases {
    /// Takes out a lease that has ended by `m`; false where there is none.
    pub(crate) fn drop_one<L: Ledger>(&mut self, m: Moment, steps: &mut Steps<L>) -> bool
        requires { AreTabled self.old.found }
        ensures tabled { AreTabled self.new.found }
        ensures live { live self.new.found m ≡ live self.old.found m }
        ensures fewer { OnTrue result (length self.new.found.maps + length self.new.found.peers
            < length self.old.found.maps + length self.old.found.peers) }
        ensures all { OnFalse result (self.new.found ≡ live self.new.found m) }
        ensures maps_from { (l : MapLease) → Contains self.new.found.maps l
            → Contains self.old.found.maps l }
        ensures peers_from { (l : PeerLease) → Contains self.new.found.peers l
            → Contains self.old.found.peers l }
        ensures past { self.new.past ≡ self.old.past }
        ensures steps { steps.new ≤ steps.old + 11 * most_levels }
    {
        levels_grow();
        fewer_maps_are_sound();
        fewer_peers_are_sound();
        if let Some(lease) = self.maps.one_ended(m, steps) {
            self.maps.remove(&lease.first_endpoint(), steps);
            return true;
        }
        let Some(lease) = self.peers.one_ended(m, steps).copied() else {
            return false;
        };
        self.peers
            .remove(&lease.endpoint, &lease.remote, lease.remote_port, steps);
        true
    }

    /// Forgets a lease that has left; false where there is none.
    fn forget_one<L: Ledger>(&mut self, steps: &mut Steps<L>) -> bool
        ensures found { self.new.found ≡ self.old.found }
        ensures past { ArePart self.new.past self.old.past }
        ensures fewer { OnTrue result (count_of self.new.past < count_of self.old.past) }
        ensures none { OnFalse result (self.new.past ≡ empty_table) }
        ensures steps { steps.new ≤ steps.old + 2 * most_levels }
    {
        levels_grow();
        self.maps.forget_one(steps) || self.peers.forget_one(steps)
    }

    /// Forgets a lease that has left, or else takes out one that has ended by `m`; false where there is
    /// neither.
    fn drop_any<L: Ledger>(&mut self, m: Moment, steps: &mut Steps<L>) -> bool
        requires { AreTabled self.old.found }
        ensures tabled { AreTabled self.new.found }
        ensures live { live self.new.found m ≡ live self.old.found m }
        ensures past { ArePart self.new.past self.old.past }
        ensures fewer { OnTrue result (count_of self.new.found + count_of self.new.past
            < count_of self.old.found + count_of self.old.past) }
        ensures none { OnFalse result ((self.new.past ≡ empty_table)
            × (self.new.found ≡ live self.new.found m)) }
        ensures steps { steps.new ≤ steps.old + 13 * most_levels }
    {
        self.forget_one(steps) || self.drop_one(m, steps)
    }

    /// Forgets two leases that have left, or takes out as many that have ended by `m`, or all where they
    /// are fewer.
    pub(crate) fn drop_some<L: Ledger>(&mut self, m: Moment, steps: &mut Steps<L>)
        requires { AreTabled self.old.found }
        ensures tabled { AreTabled self.new.found }
        ensures live { live self.new.found m ≡ live self.old.found m }
        ensures past { ArePart self.new.past self.old.past }
        ensures some { ((self.new.past ≡ empty_table) × (self.new.found ≡ live self.new.found m))
            ⊎ (count_of self.new.found + count_of self.new.past + 2
            ≤ count_of self.old.found + count_of self.old.past) }
        ensures steps { steps.new ≤ steps.old + 26 * most_levels }
    {
        let mut left = MOST_DROPPED;
        while left > 0 {
            if !self.drop_any(m, steps) {
                return;
            }
            left -= 1;
        }
    }

    /// Lets a lease leave that has ended by `m`; false where none has, or as many have left as may. The
    /// one error is want of memory.
    fn retire_one<L: Ledger>(&mut self, m: Moment, steps: &mut Steps<L>) -> Result<bool, Memory>
        requires { AreTabled self.old.found }
        ensures retires { Retires m self.old self.new }
        ensures fewer { result ≡ Ok true →
            count_of self.new.found < count_of self.old.found }
        ensures all { result ≡ Ok false → NoneMayLeave m self.new }
        ensures steps { steps.new ≤ steps.old + 17 * most_levels }
    {
        levels_grow();
        fewer_maps_are_sound();
        fewer_peers_are_sound();
        if self.maps.retire(m, steps)? {
            return Ok(true);
        }
        self.peers.retire(m, steps)
    }

    /// Lets two leases leave that have ended by `m`, or all that may where they are fewer. The one error
    /// is want of memory; one may have left before.
    pub(crate) fn retire_some<L: Ledger>(
        &mut self,
        m: Moment,
        steps: &mut Steps<L>,
    ) -> Result<(), Memory>
        requires { AreTabled self.old.found }
        ensures retires { Retires m self.old self.new }
        ensures some { OnOk result (NoneMayLeave m self.new
            ⊎ (count_of self.new.found + 2 ≤ count_of self.old.found)) }
        ensures steps { steps.new ≤ steps.old + 34 * most_levels }
    {
        let mut left = MOST_RETIRED;
        while left > 0 {
            if !self.retire_one(m, steps)? {
                return Ok(());
            }
            left -= 1;
        }
        Ok(())
    }

    /// Where there are as many leases as may be, takes out one that has ended by `m`: then fewer than
    /// that are live.
    fn make_room<L: Ledger>(&mut self, m: Moment, steps: &mut Steps<L>)
        requires tabled { AreTabled self.old.found }
        requires some { length (live self.old.found m).maps + length (live self.old.found m).peers
            < MOST_LEASES }
        ensures tabled { AreTabled self.new.found }
        ensures live { live self.new.found m ≡ live self.old.found m }
        ensures room { length self.new.found.maps + length self.new.found.peers < MOST_LEASES }
        ensures maps_from { (l : MapLease) → Contains self.new.found.maps l
            → Contains self.old.found.maps l }
        ensures peers_from { (l : PeerLease) → Contains self.new.found.peers l
            → Contains self.old.found.peers l }
        ensures past { self.new.past ≡ self.old.past }
        ensures steps { steps.new ≤ steps.old + 11 * most_levels }
    {
        if self.maps.len() + self.peers.len() < MOST_LEASES {
            return;
        }
        self.drop_one(m, steps);
    }

    /// The same, where a lease isn't put in the place of another.
    fn make_room_unless<L: Ledger>(&mut self, m: Moment, there: bool, steps: &mut Steps<L>)
        requires tabled { AreTabled self.old.found }
        requires some { OnFalse there (length (live self.old.found m).maps
            + length (live self.old.found m).peers < MOST_LEASES) }
        ensures tabled { AreTabled self.new.found }
        ensures live { live self.new.found m ≡ live self.old.found m }
        ensures room { OnFalse there (length self.new.found.maps + length self.new.found.peers
            < MOST_LEASES) }
        ensures same { OnTrue there (self.new.found ≡ self.old.found) }
        ensures maps_from { (l : MapLease) → Contains self.new.found.maps l
            → Contains self.old.found.maps l }
        ensures peers_from { (l : PeerLease) → Contains self.new.found.peers l
            → Contains self.old.found.peers l }
        ensures past { self.new.past ≡ self.old.past }
        ensures steps { steps.new ≤ steps.old + 11 * most_levels }
    {
        if !there {
            self.make_room(m, steps);
        }
    }

    /// Whether a MAP lease has ended by `m`.
    fn has_ended_map<L: Ledger>(&self, m: Moment, steps: &mut Steps<L>) -> bool
        requires { AreTabled self.now.found }
        ensures ended { result ≡ list_any (λ l. not (is_live_map m l)) self.now.found.maps }
        ensures steps { steps.new ≤ steps.old + most_levels }
    {
        levels_grow();
        self.maps.has_ended(m, steps)
    }

    /// Whether a PEER lease has ended by `m`.
    fn has_ended_peer<L: Ledger>(&self, m: Moment, steps: &mut Steps<L>) -> bool
        requires { AreTabled self.now.found }
        ensures ended { result ≡ list_any (is_ended_peer m) self.now.found.peers }
        ensures steps { steps.new ≤ steps.old + most_levels }
    {
        levels_grow();
        self.peers.has_ended(m, steps)
    }

    /// Takes out the MAP leases that this one overlaps. None of them is live at `m`, so there are none
    /// where no lease has ended.
    fn drop_overlapped_maps<L: Ledger>(&mut self, m: Moment, lease: &MapLease, steps: &mut Steps<L>)
        requires tabled { AreTabled self.old.found }
        requires after { Sound (table_changed (Map lease.now) (live self.old.found m)) }
        ensures tabled { AreTabled self.new.found }
        ensures live { live self.new.found m ≡ live self.old.found m }
        ensures apart { list_any (overlaps_map lease.now) self.new.found.maps ≡ false }
        ensures peers { self.new.found.peers ≡ self.old.found.peers }
        ensures past { self.new.past ≡ self.old.past }
        ensures steps { steps.new ≤ steps.old + 7 * most_levels
            + 14 * (count_by (overlaps_map lease.now) self.old.found.maps * most_levels) }
    {
        levels_grow();
        sound_tables_have_sound_maps();
        fewer_maps_are_sound();
        if !self.has_ended_map(m, steps) {
            return;
        }
        while let Some(key) = self.maps.overlapping(lease, steps) {
            self.maps.remove(&key, steps);
        }
    }

    /// The same of PEER leases.
    fn drop_overlapped_peers<L: Ledger>(
        &mut self,
        m: Moment,
        lease: &PeerLease,
        steps: &mut Steps<L>,
    )
        requires tabled { AreTabled self.old.found }
        requires after { Sound (table_changed (Peer lease.now) (live self.old.found m)) }
        ensures tabled { AreTabled self.new.found }
        ensures live { live self.new.found m ≡ live self.old.found m }
        ensures apart { list_any (overlaps_peer lease.now) self.new.found.peers ≡ false }
        ensures fewer { (test : PeerLease → Bool) →
            count_by test self.new.found.peers ≤ count_by test self.old.found.peers }
        ensures past { self.new.past ≡ self.old.past }
        ensures steps { steps.new ≤ steps.old + 5 * most_levels
            + 11 * (count_by (overlaps_peer lease.now) self.old.found.peers * most_levels) }
    {
        levels_grow();
        sound_tables_have_sound_peers();
        fewer_peers_are_sound();
        while let Some(other) = self.peers.overlapping(lease, steps).copied() {
            self.peers
                .remove(&other.endpoint, &other.remote, other.remote_port, steps);
        }
    }

    /// Takes out the PEER leases of an endpoint that have ended by `m`.
    fn drop_ended_of<L: Ledger>(&mut self, m: Moment, endpoint: &Endpoint, steps: &mut Steps<L>)
        requires { AreTabled self.old.found }
        ensures tabled { AreTabled self.new.found }
        ensures live { live self.new.found m ≡ live self.old.found m }
        ensures of_endpoint { count_by (λ l. names l endpoint.now) self.new.found.peers
            ≡ count_by (λ l. names l endpoint.now) (live self.new.found m).peers }
        ensures peers_from { (l : PeerLease) → Contains self.new.found.peers l
            → Contains self.old.found.peers l }
        ensures past { self.new.past ≡ self.old.past }
        ensures steps { steps.new ≤ steps.old + 18 * most_levels
            + 24 * (count_by (is_ended_of endpoint.now m) self.old.found.peers * most_levels) }
    {
        levels_grow();
        fewer_peers_are_sound();
        while let Some(other) = self.peers.ended_of(endpoint, m, steps).copied() {
            self.peers
                .remove(&other.endpoint, &other.remote, other.remote_port, steps);
        }
    }

    /// Takes out the PEER leases that this one overlaps, and those of its endpoint that have ended by
    /// `m`. None of them is live, so there are none where no lease has ended.
    fn drop_peers_in_way<L: Ledger>(&mut self, m: Moment, lease: &PeerLease, steps: &mut Steps<L>)
        requires tabled { AreTabled self.old.found }
        requires after { Sound (table_changed (Peer lease.now) (live self.old.found m)) }
        ensures tabled { AreTabled self.new.found }
        ensures live { live self.new.found m ≡ live self.old.found m }
        ensures apart { list_any (overlaps_peer lease.now) self.new.found.peers ≡ false }
        ensures of_endpoint { count_by (λ l. names l lease.now.endpoint) self.new.found.peers
            ≡ count_by (λ l. names l lease.now.endpoint) (live self.new.found m).peers }
        ensures past { self.new.past ≡ self.old.past }
        ensures steps { steps.new ≤ steps.old + 24 * most_levels
            + 11 * (count_by (overlaps_peer lease.now) self.old.found.peers * most_levels)
            + 24 * (count_by (is_ended_of lease.now.endpoint m) self.old.found.peers
            * most_levels) }
    {
        sound_tables_have_sound_peers();
        if !self.has_ended_peer(m, steps) {
            return;
        }
        self.drop_overlapped_peers(m, lease, steps);
        self.drop_ended_of(m, &lease.endpoint, steps);
    }

    /// Whether there is a MAP lease with this key. One that has ended by `m` is taken out.
    fn keeps_map<L: Ledger>(&mut self, m: Moment, key: &Endpoint, steps: &mut Steps<L>) -> bool
        requires { AreTabled self.old.found }
        ensures tabled { AreTabled self.new.found }
        ensures live { live self.new.found m ≡ live self.old.found m }
        ensures own { IfSome (find (is_map_of key.now) self.new.found.maps)
            (λ l. nat_lt m l.expiry ≡ true) }
        ensures there { result ≡ is_some (find (is_map_of key.now) self.new.found.maps) }
        ensures maps_from { (l : MapLease) → Contains self.new.found.maps l
            → Contains self.old.found.maps l }
        ensures peers { self.new.found.peers ≡ self.old.found.peers }
        ensures past { self.new.past ≡ self.old.past }
        ensures steps { steps.new ≤ steps.old + 12 * most_levels }
    {
        levels_grow();
        fewer_maps_are_sound();
        if self.map_of_counted(m, key, steps).is_some() {
            return true;
        }
        self.maps.remove(key, steps);
        false
    }

    /// Whether there is a PEER lease with this key, where none of its endpoint has ended by `m`.
    fn keeps_peer<L: Ledger>(&self, m: Moment, lease: &PeerLease, steps: &mut Steps<L>) -> bool
        requires { AreTabled self.now.found }
        ensures there { result ≡ is_some (find (is_peer_of lease.now.endpoint lease.now.remote
            lease.now.remote_port) (live self.now.found m).peers) }
        ensures steps { steps.new ≤ steps.old + 2 * most_levels }
    {
        levels_grow();
        self.peering_counted(m, &lease.endpoint, &lease.remote, lease.remote_port, steps)
            .is_some()
    }

    /// Takes out the MAP leases that this one overlaps, and the one with its key if it has ended: none
    /// of them is live at `m`. Where as many leases are kept as may be, another one goes that has ended.
    pub(crate) fn make_way_for_map<L: Ledger>(
        &mut self,
        m: Moment,
        lease: &MapLease,
        steps: &mut Steps<L>,
    )
        requires tabled { AreTabled self.old.found }
        requires after { Sound (table_changed (Map lease.now) (live self.old.found m)) }
        ensures way { HasWayForMap m lease.now self.new.found }
        ensures live { live self.new.found m ≡ live self.old.found m }
        ensures peers_from { (l : PeerLease) → Contains self.new.found.peers l
            → Contains self.old.found.peers l }
        ensures past { self.new.past ≡ self.old.past }
        ensures steps { steps.new ≤ steps.old + 30 * most_levels
            + 14 * (count_by (overlaps_map lease.now) self.old.found.maps * most_levels) }
    {
        self.drop_overlapped_maps(m, lease, steps);
        let there = self.keeps_map(m, &lease.first_endpoint(), steps);
        self.make_room_unless(m, there, steps);
    }

    /// The same for a PEER lease; those of its endpoint that have ended go too.
    pub(crate) fn make_way_for_peer<L: Ledger>(
        &mut self,
        m: Moment,
        lease: &PeerLease,
        steps: &mut Steps<L>,
    )
        requires tabled { AreTabled self.old.found }
        requires after { Sound (table_changed (Peer lease.now) (live self.old.found m)) }
        ensures way { HasWayForPeer m lease.now self.new.found }
        ensures live { live self.new.found m ≡ live self.old.found m }
        ensures past { self.new.past ≡ self.old.past }
        ensures steps { steps.new ≤ steps.old + 37 * most_levels
            + 11 * (count_by (overlaps_peer lease.now) self.old.found.peers * most_levels)
            + 24 * (count_by (is_ended_of lease.now.endpoint m) self.old.found.peers
            * most_levels) }
    {
        self.drop_peers_in_way(m, lease, steps);
        let there = self.keeps_peer(m, lease, steps);
        self.make_room_unless(m, there, steps);
    }
}
