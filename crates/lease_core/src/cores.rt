//! The leases of an external address, and what is decided on them.
ghost use Rattle.std.specs.Prelude.{◌≡◌, ◌++◌, ◌≤◌, None, Ok, true, false, is_some, OnOk, IfOk};
ghost use Rattle.pcp_base.specs.Asks.{IsWellFormedAsk};
ghost use Rattle.pcp_base.specs.Tables.{live};
ghost use Rattle.pcp_base.specs.States.{empty_state};
ghost use Rattle.pcp_base.specs.Apply.{apply, apply_first};
ghost use Rattle.pcp_base.specs.Fits.{Fits, FitsFirst};
ghost use Rattle.pcp_base.specs.Reached.{IsReached};
ghost use Rattle.filter_rules.specs.Lookups.{look};
ghost use Rattle.lease_store.specs.declared.terms.Terms.{Terms};
ghost use Rattle.lease_store.specs.HeldRecords.{held_records};
ghost use Rattle.lease_store.specs.Lookups.{covering, lease_count};
ghost use Rattle.lease_store.specs.OwnerOrder.{owners_in_order};
ghost use Rattle.lease_core.specs.Answers.{decision};
ghost use Rattle.lease_core.specs.Decide.{decide as decided};

use crate::applying::apply_uncounted;
use crate::decided::Decided;
use crate::deciding::decide_uncounted;
use lease_store::LeaseStore;
use pcp_base::{
    Address, Answer, Ask, End, Endpoint, MapLease, Memory, Moment, Owner, PeerLease, Protocol,
    Record, Replay,
};
use record_sink::RecordSink;
use std::alloc::Global;
use std::marker::{Brand, Model};
use std::sync::ledger::Blank;

/// The leases of an external address, and what is decided on them, over a store of the state that
/// records made. Contracts see it as its store. After `Memory` it is to be cleared.
#[derive(Drop)]
pub struct LeaseCore<S> {
    store: S,
}

impl<S> Model for LeaseCore<S> {
    ghost Value = { S };

    ghost view = { λ core. core.store };
}

impl<S: LeaseStore> LeaseCore<S> {
    /// Decides over this store.
    pub fn over(store: S) -> LeaseCore<S>
        ensures { result ≡ store }
    {
        LeaseCore { store }
    }

    /// What is decided on a request at a moment that isn't below the one reached, which it becomes.
    /// The state stays: a record that is told is to be applied by `apply`. Want of memory changes
    /// none of this.
    pub fn decide(&mut self, _alloc: Global, ask: &Ask, m: Moment) -> Result<Decided, Memory>
        requires sound { IsReached (S.state self.old) }
        requires later { S.reached self.old ≤ m }
        requires ask { IsWellFormedAsk ask.now }
        ensures decided { result ≡ Ok (decided (S.terms self.old) (S.state self.old) m ask.now) }
        ensures state { S.state self.new ≡ S.state self.old }
        ensures reached { S.reached self.new ≡ m }
        ensures terms { S.terms self.new ≡ S.terms self.old }
    {
        let mut kept = None;
        let answer = self.decide_kept(ask, m, &mut kept);
        Ok(Decided { answer, kept })
    }

    /// What is decided on a request, as by `decide`. It leaves the record in `kept`.
    pub fn decide_kept(&mut self, ask: &Ask, m: Moment, kept: &mut Option<Record>) -> Answer
        requires sound { IsReached (S.state self.old) }
        requires later { S.reached self.old ≤ m }
        requires ask { IsWellFormedAsk ask.now }
        requires none { kept.old ≡ None }
        ensures decided { decision result kept.new
            ≡ decided (S.terms self.old) (S.state self.old) m ask.now }
        ensures state { S.state self.new ≡ S.state self.old }
        ensures reached { S.reached self.new ≡ m }
        ensures terms { S.terms self.new ≡ S.terms self.old }
    {
        decide_uncounted::<S, Brand>(&mut self.store, ask, m, kept, Blank::new(1))
    }

    /// Applies a record that fits, and whose moment isn't below the one reached.
    #[inline(never)]
    pub fn apply(&mut self, alloc: Global, kept: &Record) -> Result<(), Memory>
        requires sound { IsReached (S.state self.old) }
        requires fits { Fits (S.state self.old) kept.now }
        requires later { S.reached self.old ≤ kept.now.moment }
        ensures applied { OnOk result (S.state self.new ≡ apply (S.state self.old) kept.now) }
        ensures reached { OnOk result (S.reached self.new ≡ kept.now.moment) }
        ensures terms { S.terms self.new ≡ S.terms self.old }
    {
        apply_uncounted::<S, Brand>(&mut self.store, alloc, kept, Blank::new(1))
    }

    /// The endpoint to which a remote peer may send through this external port. A moment below the
    /// last one counts as that.
    pub fn look(
        &self,
        protocol: Protocol,
        port: u16,
        remote: &Address,
        remote_port: u16,
        m: Moment,
    ) -> Option<Endpoint>
        requires { IsReached (S.state self.now) }
        ensures { result ≡ look (S.state self.now) protocol port remote.now remote_port m }
    {
        self.store.look(protocol, port, remote, remote_port, m)
    }

    /// Whether a MAP lease that is live at `m` covers the endpoint.
    pub fn covered(&self, endpoint: &Endpoint, m: Moment) -> bool
        requires { IsReached (S.state self.now) }
        ensures { result ≡ is_some (covering (S.state self.now).table m endpoint.now) }
    {
        self.store.covered(endpoint, m)
    }

    /// How many leases are live at `m`, MAP and PEER together.
    pub fn leases(&self, m: Moment) -> u32
        requires { IsReached (S.state self.now) }
        ensures { result ≡ lease_count (S.state self.now).table m }
    {
        self.store.leases(m)
    }

    /// The MAP leases that are live at `m`, in the order granted.
    pub fn maps(&self, alloc: Global, m: Moment) -> Result<Vec<MapLease>, Memory>
        requires { IsReached (S.state self.now) }
        ensures { IfOk result (λ v. v.items ≡ (live (S.state self.now).table m).maps) }
    {
        self.store.maps(alloc, m)
    }

    /// The PEER leases that are live at `m`, in the order granted.
    pub fn peers(&self, alloc: Global, m: Moment) -> Result<Vec<PeerLease>, Memory>
        requires { IsReached (S.state self.now) }
        ensures { IfOk result (λ v. v.items ≡ (live (S.state self.now).table m).peers) }
    {
        self.store.peers(alloc, m)
    }

    /// The ports that leases own which are live at `m`, in the order of protocol number and port.
    pub fn owners(&self, alloc: Global, m: Moment) -> Result<Vec<Owner>, Memory>
        requires { IsReached (S.state self.now) }
        ensures { IfOk result (λ v. v.items ≡ owners_in_order (S.state self.now).table m) }
    {
        self.store.owners(alloc, m)
    }

    /// The ends of the state, in the order of protocol number and port.
    pub fn ends(&self, alloc: Global) -> Result<Vec<End>, Memory>
        requires { IsReached (S.state self.now) }
        ensures { IfOk result (λ v. v.items ≡ (S.state self.now).ends) }
    {
        self.store.ends(alloc)
    }

    /// Hands on a record at the last moment for each end and each lease of the state, in the order in
    /// which a snapshot has them. The one error is want of memory.
    pub fn add_records<K: RecordSink>(&self, out: &mut K) -> Result<(), Memory>
        requires { IsReached (S.state self.now) }
        ensures { OnOk result
            (K.taken out.new ≡ K.taken out.old ++ held_records (S.state self.now)) }
    {
        self.store.add_records(out)
    }

    /// The base of the state, 0 before a Start.
    pub fn base(&self) -> Moment
        requires { IsReached (S.state self.now) }
        ensures { result ≡ (S.state self.now).base }
    {
        self.store.base()
    }

    /// The moment of the last record, 0 before a Start.
    pub fn last(&self) -> Moment
        requires { IsReached (S.state self.now) }
        ensures value { result ≡ (S.state self.now).last }
        ensures passed { result ≤ S.reached self.now }
    {
        self.store.last()
    }

    /// The external address of the state, if a record told one.
    pub fn address(&self) -> Option<Address>
        requires { IsReached (S.state self.now) }
        ensures { result ≡ (S.state self.now).address }
    {
        self.store.address()
    }
}

impl<S: LeaseStore> Replay for LeaseCore<S> {
    ghost state = { S.state };

    ghost replaying = { λ core. S.replaying core × (S.reached core ≡ (S.state core).last) };

    ghost replaying_first = { λ core. S.replaying_first core
        × (S.reached core ≡ (S.state core).last) };

    ghost Lasting = { Terms };

    ghost lasting = { S.terms };

    fn clear(&mut self)
        ensures empty { S.state self.new ≡ empty_state }
        ensures reached { S.reached self.new ≡ 0 }
        ensures lasting { S.terms self.new ≡ S.terms self.old }
        ensures ready { S.replaying self.new × (S.reached self.new ≡ (S.state self.new).last) }
        ensures ready_first { S.replaying_first self.new
            × (S.reached self.new ≡ (S.state self.new).last) }
    {
        self.store.clear();
    }

    fn admit(&mut self, alloc: Global, kept: &Record) -> Result<bool, Memory>
        requires { S.replaying self.old × (S.reached self.old ≡ (S.state self.old).last) }
        ensures fits { result ≡ Ok true → Fits (S.state self.old) kept.now }
        ensures applied { result ≡ Ok true → S.state self.new ≡ apply (S.state self.old) kept.now }
        ensures refused { result ≡ Ok false → ¬ (Fits (S.state self.old) kept.now) }
        ensures unchanged { result ≡ Ok false → S.state self.new ≡ S.state self.old }
        ensures lasting { S.terms self.new ≡ S.terms self.old }
        ensures ready { OnOk result
            (S.replaying self.new × (S.reached self.new ≡ (S.state self.new).last)) }
    {
        self.store.admit(alloc, kept)
    }

    fn admit_first(&mut self, alloc: Global, kept: &Record) -> Result<bool, Memory>
        requires { S.replaying_first self.old × (S.reached self.old ≡ (S.state self.old).last) }
        ensures fits { result ≡ Ok true → FitsFirst (S.state self.old) kept.now }
        ensures applied { result ≡ Ok true →
            S.state self.new ≡ apply_first (S.state self.old) kept.now }
        ensures refused { result ≡ Ok false → ¬ (FitsFirst (S.state self.old) kept.now) }
        ensures unchanged { result ≡ Ok false → S.state self.new ≡ S.state self.old }
        ensures lasting { S.terms self.new ≡ S.terms self.old }
        ensures ready { OnOk result
            (S.replaying_first self.new × (S.reached self.new ≡ (S.state self.new).last)) }
    {
        self.store.admit_first(alloc, kept)
    }
}
