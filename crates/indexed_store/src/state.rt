//! The state that records made, in tables and ports.
ghost use Rattle.std.specs.Prelude.{◌≡◌, ℕ, ◌≤◌, ◌+◌, ◌++◌, ◌||◌, IfOk, OnOk, if◌then◌else◌};
ghost use Rattle.pcp_base.specs.Tables.{live};
ghost use Rattle.indexed_store.specs.Tabled.{ArePast, AreTabled, IsNew, state_in};
ghost use Rattle.indexed_store.specs.Looks.{reach_steps};
ghost use Rattle.pcp_base.specs.Apply as the;
ghost use Rattle.lease_store.specs.declared.terms.Terms.{Terms};
ghost use Rattle.pcp_base.specs.Reached.{IsReached};
ghost use Rattle.lease_store.specs.HeldRecords.{held_records};
ghost use Rattle.leased_ports.specs.Leased.{IsOnTerms, at_moment, fresh_ports, vacated};

use crate::facts::{address_after, base_after, is_start};
use crate::leases::Leases;
use lease_store::Terms;
use leased_ports::LeasedPorts;
use mapping_table::MapTable;
use pcp_base::{Address, Memory, Moment, Record};
use peer_table::PeerTable;
use record_sink::RecordSink;
use std::alloc::Global;
use std::marker::Model;
use std::sync::ledger::Ledger;
use step_count::Steps;

/// The state that records made. Leases that had ended by the last moment aren't of it, but stay for
/// a while; those that ended since are of it, also where they have left; and its ends are the last
/// ends of ports that came by then.
#[derive(Drop)]
pub(crate) struct IndexedState {
    pub(crate) leases: Leases,
    pub(crate) ports: LeasedPorts,
    pub(crate) base: Moment,
    pub(crate) address: Option<Address>,
    pub(crate) last: Moment,
    pub(crate) started: bool,
}

impl Model for IndexedState {
    ghost use Rattle.indexed_store.specs.Tabled.{TabledState, tabled_state};

    ghost Value = { TabledState };

    ghost view = { λ s. tabled_state s.leases s.ports s.base s.address s.last s.started };
}

/// The moment 0.
pub(crate) fn zero() -> Moment
    ensures { result ≡ 0 }
{
    match Moment::of(0) {
        Some(moment) => moment,
        None => unreachable!(),
    }
}

impl IndexedState {
    /// The state of no record, on these terms. The one error is want of memory.
    pub(crate) fn new(alloc: Global, terms: &Terms) -> Result<IndexedState, Memory>
        requires some { 1 ≤ terms.now.external.low }
        requires ordered { terms.now.external.low ≤ terms.now.external.high }
        ensures new { IfOk result IsNew }
        ensures ports { IfOk result (λ s. s.ports
            ≡ fresh_ports terms.now.external.low terms.now.external.high terms.now.quota) }
    {
        let external = &terms.external;
        Ok(IndexedState {
            leases: Leases {
                maps: MapTable::new(alloc)?,
                peers: PeerTable::new(alloc)?,
            },
            ports: LeasedPorts::new(alloc, external.low, external.high, terms.quota)?,
            base: zero(),
            address: None,
            last: zero(),
            started: false,
        })
    }

    /// Begins anew, without a record.
    pub(crate) fn clear(&mut self)
        ensures new { IsNew self.new }
        ensures ports { self.new.ports ≡ vacated self.old.ports }
    {
        self.leases.clear();
        self.ports.clear();
        self.base = zero();
        self.address = None;
        self.last = zero();
        self.started = false;
    }

    /// Moves on to a moment that isn't below the one reached: some leases that have ended leave, and some
    /// runs of ports that are due are seen to. The state stays.
    pub(crate) fn reach<L: Ledger>(&mut self, m: Moment, steps: &mut Steps<L>)
        requires later { self.old.ports.reached ≤ m }
        requires tabled { AreTabled self.old.leases }
        ensures state { self.new.state ≡ self.old.state }
        ensures tabled { AreTabled self.new.leases }
        ensures live { (n : ℕ) → m ≤ n → live self.new.leases n ≡ live self.old.leases n }
        ensures past { ArePast m self.old.past → ArePast m self.new.past }
        ensures all { self.new.all ≡ self.old.all }
        ensures ports { self.new.ports
            ≡ record (at_moment m self.old.ports) { settled = self.new.ports.settled } }
        ensures from { self.old.ports.settled ≤ self.new.ports.settled }
        ensures steps { steps.new ≤ steps.old + reach_steps }
    {
        // Where memory is wanting the leases stay until it isn't.
        let _ = self.leases.retire_some(m, steps);
        self.ports.reach(m, steps);
    }

    /// Hands on a record at the last moment for each end and each lease.
    pub(crate) fn add_records<K: RecordSink>(&self, out: &mut K) -> Result<(), Memory>
        requires { IsReached self.now.state }
        ensures { OnOk result
            (K.taken out.new ≡ K.taken out.old ++ held_records self.now.state) }
    {
        self.ports.add_end_records(self.last, out)?;
        self.leases.maps.add_records(self.last, out)?;
        self.leases.peers.add_records(self.last, out)
    }

    /// Notes what a record makes of the base, the address and the last moment.
    pub(crate) fn note(&mut self, kept: &Record)
        ensures state { self.new.state ≡ state_in self.old.all self.old.ports
            (if the.rebases kept.now.change self.old.state.address
            then kept.now.moment else self.old.state.base)
            (the.address_changed kept.now.change self.old.state.address) kept.now.moment
            (the.is_start kept.now.change || self.old.state.started) }
        ensures leases { self.new.leases ≡ self.old.leases }
        ensures past { self.new.past ≡ self.old.past }
        ensures all { self.new.all ≡ self.old.all }
        ensures ports { self.new.ports ≡ self.old.ports }
    {
        self.base = base_after(kept, self.address, self.base);
        self.address = address_after(&kept.change, self.address);
        self.last = kept.moment;
        self.started = is_start(&kept.change) || self.started;
    }
}
