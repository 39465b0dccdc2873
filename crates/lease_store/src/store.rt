//! The state that records made, as decisions ask for it.
ghost use Rattle.std.specs.Prelude.{◌≡◌, ◌++◌, ℕ, ◌≤◌, ◌+◌, ◌*◌, nat_le, nat_lt, Bool, Ok, true, false, is_some, OnOk, IfOk};
ghost use Rattle.pcp_base.specs.declared.addresses.Address.{Address};
ghost use Rattle.pcp_base.specs.declared.leases.TheConstants.{MOST_LEASES};
ghost use Rattle.pcp_base.specs.declared.records.Record.{Record};
ghost use Rattle.pcp_base.specs.Tables.{live};
ghost use Rattle.pcp_base.specs.Owners.{owned};
ghost use Rattle.pcp_base.specs.States.{State, empty_state};
ghost use Rattle.pcp_base.specs.Apply.{apply, apply_first};
ghost use Rattle.pcp_base.specs.Fits.{Fits, FitsFirst};
ghost use Rattle.pcp_base.specs.Reached.{IsReached, IsReachedFirst};
ghost use Rattle.external_pool.specs.Calls.{IsAsk};
ghost use Rattle.filter_rules.specs.Lookups.{look};
ghost use Rattle.lease_store.specs.declared.terms.Terms.{Terms};
ghost use Rattle.lease_store.specs.LeaseTerms.{AreTerms};
ghost use Rattle.lease_store.specs.HeldRecords.{held_records};
ghost use Rattle.lease_store.specs.Lookups.{covering, peering, named_port, peer_count, lease_count, next_inside, up_to_next};
ghost use Rattle.lease_store.specs.OwnerOrder.{owners_in_order};
ghost use Rattle.lease_store.specs.Picks.{is_plain, pick_answer};

use crate::terms::Terms;
use external_pool::{PickAsk, PickRefused, Picked};
use pcp_base::{
    Address, End, Endpoint, MapLease, Memory, Moment, Owner, PeerLease, Protocol, Record,
};
use record_sink::RecordSink;
use std::alloc::Global;
use std::sync::ledger::Ledger;
use step_count::Steps;

/// A value that stands for the state that records have made, at a moment that is reached. Leases
/// that ended since the last record stay in the state until a record is applied, but at the moment
/// reached they count as ended, and their ports as resting. After `Memory` it is to be cleared; no
/// other call but `terms` may be made before.
///
/// A step is a look at a level of an ordered map or at a node of a tree, or at a port that is
/// suggested.
pub trait LeaseStore {
    /// The table, the ends, the base, the address, the last moment, and whether a Start came.
    ghost state: { Self → State };

    /// The greatest of the last moment and of the moments that were reached since it was new or
    /// cleared.
    ghost reached: { Self → ℕ };

    /// The terms on which ports are leased; they never change.
    ghost terms: { Self → Terms };

    /// How many steps one look-up in a state takes at most.
    ghost look_steps: { State → ℕ };

    /// How many steps a pick takes at most at a moment, for an address, and whether the ask is for one
    /// port of any parity, beside one for each port that is suggested.
    ghost pick_steps: { Self → ℕ → Address → Bool → ℕ };

    // An ask for one port of any parity takes no more than another.
    ghost picks_grow: { (store : Self) (m : ℕ) (who : Address) →
        pick_steps store m who true ≤ pick_steps store m who false };

    /// How many steps `reach` takes at most, whatever fell due.
    ghost reach_steps: { ℕ };

    /// How many steps it takes at most to apply a record.
    ghost apply_steps: { Self → Record → ℕ };

    /// It is new or was cleared, and nothing but `admit` changed it since.
    ghost replaying: { Self → Type 0 };

    /// It is new or was cleared, and nothing but `admit_first` changed it since.
    ghost replaying_first: { Self → Type 0 };

    // Then records that fit have made the state.
    ghost made: { (store : Self) → replaying store → IsReached (state store) };

    // So they have in the first format.
    ghost made_first: { (store : Self) → replaying_first store → IsReachedFirst (state store) };

    /// Begins anew, without a record.
    fn clear(&mut self)
        ensures empty { state self.new ≡ empty_state }
        ensures reached { reached self.new ≡ 0 }
        ensures terms { terms self.new ≡ terms self.old }
        ensures ready { replaying self.new }
        ensures ready_first { replaying_first self.new };

    /// Applies a record that fits; false, and nothing changes, exactly where it doesn't fit.
    fn admit(&mut self, alloc: Global, kept: &Record) -> Result<bool, Memory>
        requires { replaying self.old }
        ensures fits { result ≡ Ok true → Fits (state self.old) kept.now }
        ensures applied { result ≡ Ok true → state self.new ≡ apply (state self.old) kept.now }
        ensures refused { result ≡ Ok false → ¬ (Fits (state self.old) kept.now) }
        ensures unchanged { result ≡ Ok false → state self.new ≡ state self.old }
        ensures reached { OnOk result (reached self.new ≡ (state self.new).last) }
        ensures terms { terms self.new ≡ terms self.old }
        ensures ready { OnOk result (replaying self.new) };

    /// `admit` by the rules of the first format, which knows no ends and no address.
    fn admit_first(&mut self, alloc: Global, kept: &Record) -> Result<bool, Memory>
        requires { replaying_first self.old }
        ensures fits { result ≡ Ok true → FitsFirst (state self.old) kept.now }
        ensures applied { result ≡ Ok true →
            state self.new ≡ apply_first (state self.old) kept.now }
        ensures refused { result ≡ Ok false → ¬ (FitsFirst (state self.old) kept.now) }
        ensures unchanged { result ≡ Ok false → state self.new ≡ state self.old }
        ensures reached { OnOk result (reached self.new ≡ (state self.new).last) }
        ensures terms { terms self.new ≡ terms self.old }
        ensures ready { OnOk result (replaying_first self.new) };

    /// Applies a record that fits, and whose moment isn't below the one reached.
    fn apply<L: Ledger>(
        &mut self,
        alloc: Global,
        kept: &Record,
        steps: &mut Steps<L>,
    ) -> Result<(), Memory>
        requires sound { IsReached (state self.old) }
        requires fits { Fits (state self.old) kept.now }
        requires later { reached self.old ≤ kept.now.moment }
        ensures applied { OnOk result (state self.new ≡ apply (state self.old) kept.now) }
        ensures reached { OnOk result (reached self.new ≡ kept.now.moment) }
        ensures terms { terms self.new ≡ terms self.old }
        ensures steps { steps.new ≤ steps.old + apply_steps self.old kept.now };

    /// Moves on to a moment that isn't below the one reached. The state stays, and no pick takes more
    /// steps than before.
    fn reach<L: Ledger>(&mut self, m: Moment, steps: &mut Steps<L>)
        requires sound { IsReached (state self.old) }
        requires later { reached self.old ≤ m }
        ensures state { state self.new ≡ state self.old }
        ensures reached { reached self.new ≡ m }
        ensures terms { terms self.new ≡ terms self.old }
        ensures picks { (who : Address) (plain : Bool) →
            pick_steps self.new m who plain ≤ pick_steps self.old m who plain }
        ensures steps { steps.new ≤ steps.old + reach_steps };

    /// The terms on which ports are leased.
    fn terms(&self) -> Terms
        ensures value { result ≡ terms self.now }
        ensures allowed { AreTerms result };

    /// The MAP lease, live at the moment reached, that covers the endpoint.
    fn covering<L: Ledger>(&self, endpoint: &Endpoint, steps: &mut Steps<L>) -> Option<MapLease>
        requires { IsReached (state self.now) }
        ensures lease { result ≡ covering (state self.now).table (reached self.now) endpoint.now }
        ensures steps { steps.new ≤ steps.old + look_steps (state self.now) };

    /// Whether a MAP lease, live at the moment reached, covers the endpoint.
    fn is_covered<L: Ledger>(&self, endpoint: &Endpoint, steps: &mut Steps<L>) -> bool
        requires { IsReached (state self.now) }
        ensures covered { result
            ≡ is_some (covering (state self.now).table (reached self.now) endpoint.now) }
        ensures steps { steps.new ≤ steps.old + look_steps (state self.now) };

    /// The PEER lease, live at the moment reached, of this endpoint and remote.
    fn peering<L: Ledger>(
        &self,
        endpoint: &Endpoint,
        remote: &Address,
        remote_port: u16,
        steps: &mut Steps<L>,
    ) -> Option<PeerLease>
        requires { IsReached (state self.now) }
        ensures lease { result ≡ peering (state self.now).table (reached self.now)
            endpoint.now remote.now remote_port }
        ensures steps { steps.new ≤ steps.old + look_steps (state self.now) };

    /// The external port of the PEER leases, live at the moment reached, that name the endpoint.
    fn named_port<L: Ledger>(&self, endpoint: &Endpoint, steps: &mut Steps<L>) -> Option<u16>
        requires { IsReached (state self.now) }
        ensures port { result ≡ named_port (state self.now).table (reached self.now) endpoint.now }
        ensures steps { steps.new ≤ steps.old + look_steps (state self.now) };

    /// How many PEER leases, live at the moment reached, name the endpoint.
    fn peer_count<L: Ledger>(&self, endpoint: &Endpoint, steps: &mut Steps<L>) -> u32
        requires { IsReached (state self.now) }
        ensures count { result ≡ peer_count (state self.now).table (reached self.now) endpoint.now }
        ensures steps { steps.new ≤ steps.old + look_steps (state self.now) };

    /// The next greater internal port, of the endpoint's address and protocol, that a lease covers
    /// or names which is live at the moment reached. It counts no steps.
    fn next_inside(&self, endpoint: &Endpoint) -> Option<u16>
        requires { IsReached (state self.now) }
        ensures { result ≡ next_inside (state self.now).table (reached self.now) endpoint.now };

    /// How many of the `most` internal ports from the endpoint's on, 1 to all that there are, come
    /// before the next greater one, of the endpoint's address and protocol, that a lease covers or
    /// names which is live at the moment reached.
    fn room_inside<L: Ledger>(&self, endpoint: &Endpoint, most: u32, steps: &mut Steps<L>) -> u32
        requires sound { IsReached (state self.now) }
        requires some { 1 ≤ most }
        requires ports { endpoint.now.port + most ≤ 65536 }
        ensures room { result ≡ up_to_next
            (next_inside (state self.now).table (reached self.now) endpoint.now)
            endpoint.now.port most }
        ensures steps { steps.new ≤ steps.old + most * look_steps (state self.now) };

    /// How many leases are live at the moment reached. It counts no steps.
    fn lease_count(&self) -> u32
        requires { IsReached (state self.now) }
        ensures { result ≡ lease_count (state self.now).table (reached self.now) };

    /// Whether fewer than [`MOST_LEASES`](pcp_base::MOST_LEASES) leases are live at the moment
    /// reached.
    fn has_room<L: Ledger>(&self, steps: &mut Steps<L>) -> bool
        requires { IsReached (state self.now) }
        ensures room { result
            ≡ nat_lt (lease_count (state self.now).table (reached self.now)) MOST_LEASES }
        ensures steps { steps.new ≤ steps.old + look_steps (state self.now) };

    /// Whether the address owns, at the moment reached, as many ports as its quota allows. It may see
    /// to what fell due; the state stays. It takes no more steps than a pick of one port of any parity.
    fn is_at_quota<L: Ledger>(&mut self, who: &Address, steps: &mut Steps<L>) -> bool
        requires sound { IsReached (state self.old) }
        ensures quota { result ≡ nat_le (terms self.old).quota
            (owned (state self.old).table (reached self.old) who.now) }
        ensures state { state self.new ≡ state self.old }
        ensures reached { reached self.new ≡ reached self.old }
        ensures terms { terms self.new ≡ terms self.old }
        ensures steps { steps.new ≤ steps.old
            + pick_steps self.old (reached self.old) who.now true };

    /// The ports that would be given at the moment reached, the first one to this endpoint, by the
    /// rules of [`Pool::pick`](external_pool::Pool::pick). The ask is for at least one port, with
    /// room for one. It may see to what fell due; the state stays.
    fn pick<L: Ledger>(
        &mut self,
        endpoint: &Endpoint,
        ask: &PickAsk,
        steps: &mut Steps<L>,
    ) -> Result<Picked, PickRefused>
        requires sound { IsReached (state self.old) }
        requires ask { IsAsk ask.now }
        requires internal { ask.now.internal ≡ endpoint.now.port }
        ensures pick { result ≡ pick_answer (terms self.old) (state self.old) (reached self.old)
            endpoint.now ask.now }
        ensures state { state self.new ≡ state self.old }
        ensures reached { reached self.new ≡ reached self.old }
        ensures terms { terms self.new ≡ terms self.old }
        ensures steps { steps.new ≤ steps.old
            + pick_steps self.old (reached self.old) endpoint.now.address (is_plain ask.now)
            + ask.now.room };

    /// The endpoint to which a remote peer may send through this external port. A moment below the
    /// last one counts as that.
    fn look(
        &self,
        protocol: Protocol,
        port: u16,
        remote: &Address,
        remote_port: u16,
        m: Moment,
    ) -> Option<Endpoint>
        requires { IsReached (state self.now) }
        ensures { result ≡ look (state self.now) protocol port remote.now remote_port m };

    /// Whether a MAP lease that is live at `m` covers the endpoint.
    fn covered(&self, endpoint: &Endpoint, m: Moment) -> bool
        requires { IsReached (state self.now) }
        ensures { result ≡ is_some (covering (state self.now).table m endpoint.now) };

    /// How many leases are live at `m`, MAP and PEER together.
    fn leases(&self, m: Moment) -> u32
        requires { IsReached (state self.now) }
        ensures { result ≡ lease_count (state self.now).table m };

    /// The MAP leases that are live at `m`, in the order granted.
    fn maps(&self, alloc: Global, m: Moment) -> Result<Vec<MapLease>, Memory>
        requires { IsReached (state self.now) }
        ensures { IfOk result (λ v. v.items ≡ (live (state self.now).table m).maps) };

    /// The PEER leases that are live at `m`, in the order granted.
    fn peers(&self, alloc: Global, m: Moment) -> Result<Vec<PeerLease>, Memory>
        requires { IsReached (state self.now) }
        ensures { IfOk result (λ v. v.items ≡ (live (state self.now).table m).peers) };

    /// The ports that leases own which are live at `m`, in the order of protocol number and port.
    fn owners(&self, alloc: Global, m: Moment) -> Result<Vec<Owner>, Memory>
        requires { IsReached (state self.now) }
        ensures { IfOk result (λ v. v.items ≡ owners_in_order (state self.now).table m) };

    /// The ends of the state, in the order of protocol number and port.
    fn ends(&self, alloc: Global) -> Result<Vec<End>, Memory>
        requires { IsReached (state self.now) }
        ensures { IfOk result (λ v. v.items ≡ (state self.now).ends) };

    /// Hands on a record at the last moment for each end and each lease of the state, in the order in
    /// which a snapshot has them. The one error is want of memory.
    fn add_records<K: RecordSink>(&self, out: &mut K) -> Result<(), Memory>
        requires { IsReached (state self.now) }
        ensures { OnOk result
            (K.taken out.new ≡ K.taken out.old ++ held_records (state self.now)) };

    /// The base of the state, 0 before a Start.
    fn base(&self) -> Moment
        requires { IsReached (state self.now) }
        ensures { result ≡ (state self.now).base };

    /// The moment of the last record, 0 before a Start.
    fn last(&self) -> Moment
        requires { IsReached (state self.now) }
        ensures value { result ≡ (state self.now).last }
        ensures passed { result ≤ reached self.now };

    /// The external address of the state, if a record told one.
    fn address(&self) -> Option<Address>
        requires { IsReached (state self.now) }
        ensures { result ≡ (state self.now).address };
}
