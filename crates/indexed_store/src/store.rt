//! The store: a state in tables, its ports, the terms, and the moment that is reached.
ghost use Rattle.std.specs.Prelude.{◌≡◌, ◌<◌, ◌≤◌, ◌+◌, ℕ, max, OnOk, OnErr, IfOk};
ghost use Rattle.pcp_base.specs.States.{empty_state};
ghost use Rattle.pcp_base.specs.Reached.{IsReached, IsReachedFirst};
ghost use Rattle.pcp_base.specs.Fits.{Fits, FitsFirst};
ghost use Rattle.pcp_base.specs.Apply as by_apply;
ghost use Rattle.lease_store.specs.declared.terms.Terms.{Terms};
ghost use Rattle.lease_store.specs.LeaseTerms.{AreTerms};
ghost use Rattle.leased_ports.specs.Leased.{IsOnTerms};
ghost use Rattle.indexed_store.specs.Tabled.{IsNew};
ghost use Rattle.indexed_store.specs.Indexed.{IsKept, IsReplaying, IsReplayingFirst};
ghost use Rattle.indexed_store.specs.Looks.{apply_steps};

use crate::applying::apply;
use crate::first::{apply_first, suits_first};
use crate::judging::suits;
use crate::state::{IndexedState, zero};
use external_pool::{PickAsk, PickRefused, Picked};
use lease_store::{LeaseStore, Terms};
use leased_ports::laws::ports_follow_states;
use mapping_table::laws::sound_tables_have_sound_maps;
use pcp_base::{
    Address, End, Endpoint, MapLease, Memory, Moment, Owner, PeerLease, Protocol, Record,
    first_states_are_sound, new_leases_need_room, states_are_sound,
};
use peer_table::laws::sound_tables_have_sound_peers;
use record_sink::RecordSink;
use std::alloc::Global;
use std::marker::{Brand, Model};
use std::sync::ledger::{Blank, Ledger};
use step_count::Steps;

/// The state that records made, at a moment that is reached. What is looked up, picked and applied
/// takes logarithmic time in the number of leases, for each lease and each run of ports that it
/// touches, and for each lease that has ended and is in the way of one that is put: the ports of a
/// MAP lease are one run, parted where PEER leases own some of them. What has ended is seen to two
/// leases and two runs at a time, and what is left waits for later calls. But a pick of a set or with
/// a parity sees to the runs that are due before what it picks, and one for an address whose quota by
/// the counts leaves less than it asks for to all that are due, as a look at the quota of an address
/// that is at it. `admit_first` takes out all leases that have ended and haven't left. `admit` and
/// `admit_first` look at each port of a new lease besides. Room inside takes a look for each port.
/// Calls that copy lists or count leases take more, and so do `look` and `covered` at a moment before
/// that at which the last lease left.
#[derive(Drop)]
pub struct IndexedStore {
    state: IndexedState,
    reached: Moment,
    terms: Terms,
}

impl Model for IndexedStore {
    ghost use Rattle.indexed_store.specs.Indexed.{Indexed, IsIndexed};

    ghost Value = { Indexed };

    ghost view = { λ s. record { kept = s.state; reached = s.reached; terms = s.terms } };

    ghost invariant = { λ s. IsIndexed s.state s.reached s.terms };
}

/// Forgets all.
fn vacate(state: &mut IndexedState)
    ensures terms { (terms : Terms) → IsOnTerms state.old.ports terms
        → IsOnTerms state.new.ports terms }
    ensures new { IsNew state.new }
    ensures kept { IsKept state.new }
{
    ports_follow_states();
    state.clear();
}

/// Applies a record that fits. Where memory is wanting, all is forgotten.
fn take<L: Ledger>(
    state: &mut IndexedState,
    alloc: Global,
    kept: &Record,
    steps: &mut Steps<L>,
) -> Result<(), Memory>
    requires sound { IsReached state.old.state }
    requires kept { IsKept state.old }
    requires fits { Fits state.old.state kept.now }
    requires later { state.old.ports.reached ≤ kept.now.moment }
    ensures terms { (terms : Terms) → IsOnTerms state.old.ports terms
        → IsOnTerms state.new.ports terms }
    ensures applied { OnOk result (state.new.state ≡ by_apply.apply state.old.state kept.now) }
    ensures kept { IsKept state.new }
    ensures reached { OnOk result (state.new.ports.reached ≡ kept.now.moment) }
    ensures new { OnErr result (IsNew state.new) }
    ensures steps { steps.new ≤ steps.old + apply_steps state.old kept.now }
{
    let Err(refused) = apply(state, alloc, kept, steps) else {
        return Ok(());
    };
    vacate(state);
    Err(refused)
}

/// The same, where nobody counts.
fn take_uncounted<L: Ledger>(
    state: &mut IndexedState,
    alloc: Global,
    kept: &Record,
    blank: Blank,
) -> Result<(), Memory>
    requires name { blank.name ≡ L.name }
    requires parts { blank.parts ≡ L.parts }
    requires some { 0 < L.parts }
    requires sound { IsReached state.old.state }
    requires kept { IsKept state.old }
    requires fits { Fits state.old.state kept.now }
    requires later { state.old.ports.reached ≤ kept.now.moment }
    ensures terms { (terms : Terms) → IsOnTerms state.old.ports terms
        → IsOnTerms state.new.ports terms }
    ensures applied { OnOk result (state.new.state ≡ by_apply.apply state.old.state kept.now) }
    ensures kept { IsKept state.new }
    ensures reached { OnOk result (state.new.ports.reached ≡ kept.now.moment) }
    ensures new { OnErr result (IsNew state.new) }
{
    take(state, alloc, kept, &mut Steps::<L>::begin(blank))
}

/// The same in the first format, where nobody counts.
fn take_first<L: Ledger>(
    state: &mut IndexedState,
    alloc: Global,
    kept: &Record,
    blank: Blank,
) -> Result<(), Memory>
    requires name { blank.name ≡ L.name }
    requires parts { blank.parts ≡ L.parts }
    requires some { 0 < L.parts }
    requires sound { IsReachedFirst state.old.state }
    requires kept { IsKept state.old }
    requires fits { FitsFirst state.old.state kept.now }
    requires at_last { state.old.ports.reached ≡ state.old.state.last }
    ensures terms { (terms : Terms) → IsOnTerms state.old.ports terms
        → IsOnTerms state.new.ports terms }
    ensures applied { OnOk result
        (state.new.state ≡ by_apply.apply_first state.old.state kept.now) }
    ensures kept { IsKept state.new }
    ensures reached { OnOk result (state.new.ports.reached ≡ kept.now.moment) }
    ensures new { OnErr result (IsNew state.new) }
{
    let mut steps = Steps::<L>::begin(blank);
    let Err(refused) = apply_first(state, alloc, kept, &mut steps) else {
        return Ok(());
    };
    vacate(state);
    Err(refused)
}

/// The later of both.
fn later(m: Moment, last: Moment) -> Moment
    ensures { result ≡ max m last }
{
    if m.get() < last.get() { last } else { m }
}

impl IndexedStore {
    /// The store of no record, on these terms. The one error is want of memory.
    pub fn new(alloc: Global, terms: Terms) -> Result<IndexedStore, Memory>
        requires { AreTerms terms }
        ensures state { IfOk result (λ s. s.kept.state ≡ empty_state) }
        ensures reached { IfOk result (λ s. s.reached ≡ 0) }
        ensures terms { IfOk result (λ s. s.terms ≡ terms) }
        ensures ready { IfOk result IsReplaying }
        ensures ready_first { IfOk result IsReplayingFirst }
    {
        states_are_sound();
        first_states_are_sound();
        ports_follow_states();
        Ok(IndexedStore {
            state: IndexedState::new(alloc, &terms)?,
            reached: zero(),
            terms,
        })
    }
}

impl LeaseStore for IndexedStore {
    ghost use Rattle.indexed_store.specs.Indexed.{IsReplaying, IsReplayingFirst};
    ghost use Rattle.indexed_store.specs.Looks.{apply_steps, look_steps, pick_steps, plain-fewer, reach_steps};

    ghost state = { λ s. s.kept.state };

    ghost reached = { λ s. s.reached };

    ghost terms = { λ s. s.terms };

    ghost look_steps = { look_steps };

    ghost pick_steps = { λ s m who plain. pick_steps s.kept.ports m who plain };

    ghost picks_grow = { λ s m who. plain-fewer s.kept.ports m who };

    ghost reach_steps = { reach_steps };

    ghost apply_steps = { λ s kept. apply_steps s.kept kept };

    ghost replaying = { IsReplaying };

    ghost replaying_first = { IsReplayingFirst };

    ghost made = { λ s made. made.reached };

    ghost made_first = { λ s made. made.reached };

    fn clear(&mut self) {
        states_are_sound();
        first_states_are_sound();
        vacate(&mut self.state);
        self.reached = zero();
    }

    fn admit(&mut self, alloc: Global, kept: &Record) -> Result<bool, Memory> {
        states_are_sound();
        new_leases_need_room();
        if !suits(&self.state, alloc, kept)? {
            return Ok(false);
        }
        let Err(refused) = take_uncounted::<Brand>(&mut self.state, alloc, kept, Blank::new(1))
        else {
            self.reached = kept.moment;
            return Ok(true);
        };
        self.reached = zero();
        Err(refused)
    }

    fn admit_first(&mut self, alloc: Global, kept: &Record) -> Result<bool, Memory> {
        states_are_sound();
        first_states_are_sound();
        new_leases_need_room();
        if !suits_first(&self.state, alloc, kept)? {
            return Ok(false);
        }
        let Err(refused) = take_first::<Brand>(&mut self.state, alloc, kept, Blank::new(1)) else {
            self.reached = kept.moment;
            return Ok(true);
        };
        self.reached = zero();
        Err(refused)
    }

    fn apply<L: Ledger>(
        &mut self,
        alloc: Global,
        kept: &Record,
        steps: &mut Steps<L>,
    ) -> Result<(), Memory> {
        states_are_sound();
        let Err(refused) = take(&mut self.state, alloc, kept, steps) else {
            self.reached = kept.moment;
            return Ok(());
        };
        self.reached = zero();
        Err(refused)
    }

    fn reach<L: Ledger>(&mut self, m: Moment, steps: &mut Steps<L>) {
        ports_follow_states();
        self.state.reach(m, steps);
        self.reached = m;
    }

    fn terms(&self) -> Terms {
        self.terms
    }

    fn covering<L: Ledger>(&self, endpoint: &Endpoint, steps: &mut Steps<L>) -> Option<MapLease> {
        self.state.covering(self.reached, endpoint, steps)
    }

    fn is_covered<L: Ledger>(&self, endpoint: &Endpoint, steps: &mut Steps<L>) -> bool {
        self.state.is_covered(self.reached, endpoint, steps)
    }

    fn peering<L: Ledger>(
        &self,
        endpoint: &Endpoint,
        remote: &Address,
        remote_port: u16,
        steps: &mut Steps<L>,
    ) -> Option<PeerLease> {
        self.state
            .peering(self.reached, endpoint, remote, remote_port, steps)
    }

    fn named_port<L: Ledger>(&self, endpoint: &Endpoint, steps: &mut Steps<L>) -> Option<u16> {
        self.state.named_port(self.reached, endpoint, steps)
    }

    fn peer_count<L: Ledger>(&self, endpoint: &Endpoint, steps: &mut Steps<L>) -> u32 {
        self.state.peer_count(self.reached, endpoint, steps)
    }

    fn next_inside(&self, endpoint: &Endpoint) -> Option<u16> {
        self.state.next_inside(self.reached, endpoint)
    }

    fn room_inside<L: Ledger>(&self, endpoint: &Endpoint, most: u32, steps: &mut Steps<L>) -> u32 {
        self.state.room_inside(self.reached, endpoint, most, steps)
    }

    fn lease_count(&self) -> u32 {
        self.leases(self.reached)
    }

    fn has_room<L: Ledger>(&self, steps: &mut Steps<L>) -> bool {
        self.state.has_room(self.reached, steps)
    }

    fn is_at_quota<L: Ledger>(&mut self, who: &Address, steps: &mut Steps<L>) -> bool {
        self.state.ports.is_at_quota(who, steps)
    }

    fn pick<L: Ledger>(
        &mut self,
        endpoint: &Endpoint,
        ask: &PickAsk,
        steps: &mut Steps<L>,
    ) -> Result<Picked, PickRefused> {
        self.state.ports.pick(endpoint, ask, steps)
    }

    fn look(
        &self,
        protocol: Protocol,
        port: u16,
        remote: &Address,
        remote_port: u16,
        m: Moment,
    ) -> Option<Endpoint> {
        sound_tables_have_sound_maps();
        sound_tables_have_sound_peers();
        let m = later(m, self.state.last);
        self.state
            .leases
            .look(m, protocol, port, remote, remote_port)
    }

    fn covered(&self, endpoint: &Endpoint, m: Moment) -> bool {
        let m = later(m, self.state.last);
        self.state.leases.covered(m, endpoint)
    }

    fn leases(&self, m: Moment) -> u32 {
        let m = later(m, self.state.last);
        self.state.leases.count(m)
    }

    fn maps(&self, alloc: Global, m: Moment) -> Result<Vec<MapLease>, Memory> {
        let m = later(m, self.state.last);
        self.state.leases.live_maps(alloc, m)
    }

    fn peers(&self, alloc: Global, m: Moment) -> Result<Vec<PeerLease>, Memory> {
        let m = later(m, self.state.last);
        self.state.leases.live_peers(alloc, m)
    }

    fn owners(&self, alloc: Global, m: Moment) -> Result<Vec<Owner>, Memory> {
        let m = later(m, self.state.last);
        self.state.leases.owners_in_order(alloc, m)
    }

    fn ends(&self, alloc: Global) -> Result<Vec<End>, Memory> {
        self.state.ports.copy_ends(alloc, self.state.last)
    }

    fn add_records<K: RecordSink>(&self, out: &mut K) -> Result<(), Memory> {
        self.state.add_records(out)
    }

    fn base(&self) -> Moment {
        self.state.base
    }

    fn last(&self) -> Moment {
        self.state.last
    }

    fn address(&self) -> Option<Address> {
        self.state.address
    }
}
