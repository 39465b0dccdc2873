//! The store: a plain replay, the terms, and the moment that is reached.
ghost use Rattle.std.specs.Prelude.{◌≡◌, Ok, IfOk};
ghost use Rattle.pcp_base.specs.States.{empty_state};
ghost use Rattle.pcp_base.specs.Reached.{IsReached, IsReachedFirst};
ghost use Rattle.lease_store.specs.LeaseTerms.{AreTerms};

use crate::lookups;
use crate::order::{live_maps, live_peers, owners_in_order};
use crate::records::{add_end_records, add_map_records, add_peer_records};
use external_pool::{PickAsk, PickRefused, Picked};
use lease_store::{LeaseStore, Terms};
use pcp_base::{
    Address, End, Endpoint, MapLease, Memory, Moment, Owner, PeerLease, Protocol, Record, Replay,
};
use plain_replay::PlainReplay;
use record_sink::RecordSink;
use std::alloc::Global;
use std::marker::Model;
use std::sync::ledger::Ledger;
use step_count::Steps;

/// The state that records made, at a moment that is reached, in lists that are searched. It has no
/// ordered map and no tree, so it takes no steps.
#[derive(Debug, Drop)]
pub struct PlainStore {
    pub(crate) replay: PlainReplay,
    pub(crate) reached: Moment,
    pub(crate) terms: Terms,
}

impl Model for PlainStore {
    ghost use Rattle.lease_store.specs.Stores.{Stored, IsStored};

    ghost Value = { Stored };

    ghost view = { λ s. record { state = s.replay; reached = s.reached; terms = s.terms } };

    ghost invariant = { λ s. IsStored (record {
      state = s.replay;
      reached = s.reached;
      terms = s.terms;
    }) };
}

impl PlainStore {
    /// The store of no record, on these terms. It takes no memory, and so is not refused.
    pub fn new(alloc: Global, terms: Terms) -> Result<PlainStore, Memory>
        requires { AreTerms terms }
        ensures value { result ≡ Ok (record { state = empty_state; reached = 0; terms = terms }) }
        ensures ready { IfOk result (λ s. IsReached s.state) }
        ensures ready_first { IfOk result (λ s. IsReachedFirst s.state) }
    {
        let replay = PlainReplay::new(alloc);
        let reached = replay.last();
        Ok(PlainStore {
            replay,
            reached,
            terms,
        })
    }
}

impl LeaseStore for PlainStore {
    ghost use Rattle.std.proofs.Common.{arith};
    ghost use Rattle.pcp_base.specs.Reached.{IsReached, IsReachedFirst};

    ghost state = { λ s. s.state };

    ghost reached = { λ s. s.reached };

    ghost terms = { λ s. s.terms };

    ghost look_steps = { λ s. 0 };

    ghost pick_steps = { λ s m who plain. 0 };

    ghost picks_grow = { λ s m who. omega arith };

    ghost reach_steps = { 0 };

    ghost apply_steps = { λ s kept. 0 };

    ghost replaying = { λ s. IsReached s.state };

    ghost replaying_first = { λ s. IsReachedFirst s.state };

    ghost made = { λ s made. made };

    ghost made_first = { λ s made. made };

    fn clear(&mut self) {
        self.replay.clear();
        self.reached = self.replay.last();
    }

    fn admit(&mut self, alloc: Global, kept: &Record) -> Result<bool, Memory> {
        let fits = self.replay.admit(alloc, kept);
        self.reached = self.replay.last();
        fits
    }

    fn admit_first(&mut self, alloc: Global, kept: &Record) -> Result<bool, Memory> {
        let fits = self.replay.admit_first(alloc, kept);
        self.reached = self.replay.last();
        fits
    }

    fn apply<L: Ledger>(
        &mut self,
        alloc: Global,
        kept: &Record,
        _steps: &mut Steps<L>,
    ) -> Result<(), Memory> {
        let fits = self.replay.admit(alloc, kept);
        self.reached = self.replay.last();
        fits.map(|_| ())
    }

    fn reach<L: Ledger>(&mut self, m: Moment, _steps: &mut Steps<L>) {
        self.reached = m;
    }

    fn terms(&self) -> Terms {
        self.terms
    }

    fn covering<L: Ledger>(&self, endpoint: &Endpoint, _steps: &mut Steps<L>) -> Option<MapLease> {
        lookups::covering(&self.replay, self.reached, endpoint)
    }

    fn is_covered<L: Ledger>(&self, endpoint: &Endpoint, _steps: &mut Steps<L>) -> bool {
        lookups::covering(&self.replay, self.reached, endpoint).is_some()
    }

    fn peering<L: Ledger>(
        &self,
        endpoint: &Endpoint,
        remote: &Address,
        remote_port: u16,
        _steps: &mut Steps<L>,
    ) -> Option<PeerLease> {
        lookups::peering(&self.replay, self.reached, endpoint, remote, remote_port)
    }

    fn named_port<L: Ledger>(&self, endpoint: &Endpoint, _steps: &mut Steps<L>) -> Option<u16> {
        lookups::named_port(&self.replay, self.reached, endpoint)
    }

    fn peer_count<L: Ledger>(&self, endpoint: &Endpoint, _steps: &mut Steps<L>) -> u32 {
        lookups::peer_count(&self.replay, self.reached, endpoint)
    }

    fn next_inside(&self, endpoint: &Endpoint) -> Option<u16> {
        lookups::next_inside(&self.replay, self.reached, endpoint)
    }

    fn room_inside<L: Ledger>(&self, endpoint: &Endpoint, most: u32, _steps: &mut Steps<L>) -> u32 {
        lookups::room_inside(&self.replay, self.reached, endpoint, most)
    }

    fn lease_count(&self) -> u32 {
        lookups::lease_count(&self.replay, self.reached)
    }

    fn has_room<L: Ledger>(&self, _steps: &mut Steps<L>) -> bool {
        lookups::has_room(&self.replay, self.reached)
    }

    fn is_at_quota<L: Ledger>(&mut self, who: &Address, _steps: &mut Steps<L>) -> bool {
        self.owns_quota(who)
    }

    fn pick<L: Ledger>(
        &mut self,
        endpoint: &Endpoint,
        ask: &PickAsk,
        _steps: &mut Steps<L>,
    ) -> Result<Picked, PickRefused> {
        self.answer(endpoint, ask)
    }

    fn look(
        &self,
        protocol: Protocol,
        port: u16,
        remote: &Address,
        remote_port: u16,
        m: Moment,
    ) -> Option<Endpoint> {
        lookups::look(&self.replay, protocol, port, remote, remote_port, m)
    }

    fn covered(&self, endpoint: &Endpoint, m: Moment) -> bool {
        lookups::covering(&self.replay, m, endpoint).is_some()
    }

    fn leases(&self, m: Moment) -> u32 {
        lookups::lease_count(&self.replay, m)
    }

    fn maps(&self, alloc: Global, m: Moment) -> Result<Vec<MapLease>, Memory> {
        Ok(live_maps(alloc, self.replay.maps(), m)?)
    }

    fn peers(&self, alloc: Global, m: Moment) -> Result<Vec<PeerLease>, Memory> {
        Ok(live_peers(alloc, self.replay.peers(), m)?)
    }

    fn owners(&self, alloc: Global, m: Moment) -> Result<Vec<Owner>, Memory> {
        owners_in_order(alloc, &self.replay, m)
    }

    fn ends(&self, alloc: Global) -> Result<Vec<End>, Memory> {
        Ok(Vec::from_slice(alloc, self.replay.ends())?)
    }

    fn add_records<K: RecordSink>(&self, out: &mut K) -> Result<(), Memory> {
        let m = self.replay.last();
        add_end_records(self.replay.ends(), m, out)?;
        add_map_records(self.replay.maps(), m, out)?;
        add_peer_records(self.replay.peers(), m, out)
    }

    fn base(&self) -> Moment {
        self.replay.base()
    }

    fn last(&self) -> Moment {
        self.replay.last()
    }

    fn address(&self) -> Option<Address> {
        self.replay.address()
    }
}
