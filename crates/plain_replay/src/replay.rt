//! The state that records make, in three lists.
ghost use Rattle.std.specs.Prelude.{◌≡◌, ◌↔◌, ◌||◌, ⊤, if◌then◌else◌, IsTrue, IfOk, OnOk};
ghost use Rattle.pcp_base.specs.declared.records.Change.TheVariants.{Map, Peer};
ghost use Rattle.pcp_base.specs.States.{empty_state};
ghost use Rattle.pcp_base.specs.Tables.{live, IsMapLease};
ghost use Rattle.pcp_base.specs.Owners.{owners as owned_ports};
ghost use Rattle.pcp_base.specs.Ends.{ends_by, resting};
ghost use Rattle.pcp_base.specs.Records.{IsWellFormedRecord};
ghost use Rattle.pcp_base.specs.Apply.{apply, apply_first, is_start, rebases, address_changed, left_2, table_2, ends_2, ends_3, ends_4};
ghost use Rattle.pcp_base.specs.Fits.{IsRested, IsUnused, RestForNoOther};
ghost use Rattle.pcp_base.specs.Rooms.{Suits};
ghost use Rattle.pcp_base.specs.Reached.{IsReached, IsReachedFirst};
ghost use Rattle.pcp_base.specs.Rooms.{IsNext, SuitsTable, SuitsFirst};

use crate::changes::{address_after, base_after, begins, is_loss, is_of_first};
use crate::ends::{add_ended, add_left, change_ends, drop_old, drop_over, has_end};
use crate::judging::are_left;
use crate::leases::{holds_map, holds_peer};
use crate::owners::{is_port_owned, owner_of_peer, owners_of_map};
use crate::table::PlainTable;
use pcp_base::{
    Address, Change, End, Endpoint, MapLease, Memory, Moment, Owner, PeerLease, Record, Replay,
    first_states_are_sound, new_leases_need_room, states_are_sound,
};
use std::alloc::Global;
use std::marker::Model;

/// The state that records have made: leases and ends in lists that are searched, and all of them
/// looked through at each record.
#[derive(Debug, Drop)]
pub struct PlainReplay {
    table: PlainTable,
    ends: Vec<End>,
    base: Moment,
    address: Option<Address>,
    last: Moment,
    is_started: bool,
}

impl Model for PlainReplay {
    ghost use Rattle.pcp_base.specs.States.{State};

    ghost Value = { State };

    ghost view = { λ r. record {
      table = r.table;
      ends = r.ends.items;
      base = r.base;
      address = r.address;
      last = r.last;
      started = r.is_started;
    } };
}

/// The moment 0.
fn zero() -> Moment
    ensures { result ≡ 0 }
{
    match Moment::of(0) {
        Some(moment) => moment,
        None => unreachable!(),
    }
}

impl PlainReplay {
    /// The state before any record.
    pub fn new(alloc: Global) -> PlainReplay
        ensures value { result ≡ empty_state }
        ensures ready { IsReached result }
        ensures ready_first { IsReachedFirst result }
    {
        states_are_sound();
        first_states_are_sound();
        PlainReplay {
            table: PlainTable::new(alloc),
            ends: Vec::new(alloc),
            base: zero(),
            address: None,
            last: zero(),
            is_started: false,
        }
    }

    /// The MAP leases of the state, in the order granted. Those that ended since the last record are
    /// among them.
    pub fn maps(&self) -> &[MapLease]
        ensures { result.now ≡ self.now.table.maps }
    {
        self.table.maps()
    }

    /// The PEER leases of the state, in the order granted. Those that ended since the last record are
    /// among them.
    pub fn peers(&self) -> &[PeerLease]
        ensures { result.now ≡ self.now.table.peers }
    {
        self.table.peers()
    }

    /// The ends of the state, in the order of protocol number and port.
    pub fn ends(&self) -> &[End]
        ensures { result.now ≡ self.now.ends }
    {
        &self.ends
    }

    /// The moment of the last Start, Lose, or Renumber that found another address; 0 before a Start.
    pub fn base(&self) -> Moment
        ensures { result ≡ self.now.base }
    {
        self.base
    }

    /// The external address, where a Renumber told it.
    pub fn address(&self) -> Option<Address>
        ensures { result ≡ self.now.address }
    {
        self.address
    }

    /// The moment of the last record, 0 before a Start.
    pub fn last(&self) -> Moment
        ensures { result ≡ self.now.last }
    {
        self.last
    }

    /// Whether a Start came.
    pub fn is_started(&self) -> bool
        ensures { result ≡ self.now.started }
    {
        self.is_started
    }

    /// Whether the record may come next, whatever leases there are.
    fn is_next(&self, kept: &Record) -> bool
        ensures { IsTrue result ↔ IsNext self.now kept.now }
    {
        kept.is_well_formed()
            && begins(&kept.change) != self.is_started
            && self.last.get() <= kept.moment.get()
    }

    /// Whether the record suits the live leases of the table, whatever ends there are.
    fn suits_table(&self, alloc: Global, kept: &Record) -> Result<bool, Memory>
        ensures { IfOk result (λ b. IsTrue b ↔ SuitsTable self.now kept.now) }
    {
        if !self.is_next(kept) {
            return Ok(false);
        }
        let live = self.table.live(alloc, kept.moment)?;
        if !live.is_allowed(&kept.change) {
            return Ok(false);
        }
        live.has_room(alloc, kept)
    }

    /// The ends at `m`, where these are the ports that live leases own then.
    fn ends_by(&self, alloc: Global, m: Moment, owners: &[Owner]) -> Result<Vec<End>, Memory>
        requires { owners.now ≡ owned_ports (live self.now.table m) }
        ensures { IfOk result (λ v. v.items ≡ ends_by self.now m) }
    {
        let dead = self.table.dead(alloc, m)?;
        let left = dead.ends_at_expiry(alloc)?;
        let mut ends = Vec::from_slice(alloc, &self.ends)?;
        add_left(&mut ends, owners, left)?;
        Ok(ends)
    }

    /// The ends by which ports rest at `m`.
    fn resting(&self, alloc: Global, m: Moment) -> Result<Vec<End>, Memory>
        ensures { IfOk result (λ v. v.items ≡ resting self.now m) }
    {
        let live = self.table.live(alloc, m)?;
        let owners = live.owners(alloc)?;
        let mut ends = self.ends_by(alloc, m, &owners)?;
        drop_over(&mut ends, m, &owners);
        Ok(ends)
    }

    /// Whether each of these ports rests at `m` for no endpoint other than the one beside it.
    fn are_free(&self, alloc: Global, m: Moment, owners: &[Owner]) -> Result<bool, Memory>
        ensures { IfOk result (λ b. IsTrue b ↔ RestForNoOther self.now m owners.now) }
    {
        let ends = self.resting(alloc, m)?;
        Ok(are_left(&ends, owners))
    }

    /// Whether no lease owns the port, and it has no end.
    fn is_unused(&self, alloc: Global, endpoint: &Endpoint, port: u16) -> Result<bool, Memory>
        ensures { IfOk result (λ b. IsTrue b ↔ IsUnused self.now endpoint.now port) }
    {
        let owners = self.table.owners(alloc)?;
        let owned = is_port_owned(endpoint.protocol, port, &owners);
        Ok(!owned && !has_end(&self.ends, endpoint.protocol, port))
    }

    /// Whether a new lease takes no port that rests for another endpoint, and a Rest an unused port.
    fn is_rested(&self, alloc: Global, kept: &Record) -> Result<bool, Memory>
        requires { IsWellFormedRecord kept.now }
        ensures { IfOk result (λ b. IsTrue b ↔ IsRested self.now kept.now.moment kept.now.change) }
    {
        match &kept.change {
            Change::Map(lease) => self.is_rested_map(alloc, kept.moment, lease),
            Change::Peer(lease) => self.is_rested_peer(alloc, kept.moment, lease),
            Change::Rest(endpoint, port, _) => self.is_unused(alloc, endpoint, *port),
            _ => Ok(true),
        }
    }

    fn is_rested_map(&self, alloc: Global, m: Moment, lease: &MapLease) -> Result<bool, Memory>
        requires { IsMapLease lease.now }
        ensures { IfOk result (λ b. IsTrue b ↔ IsRested self.now m (Map lease.now)) }
    {
        let live = self.table.live(alloc, m)?;
        if holds_map(live.maps(), lease) {
            return Ok(true);
        }
        let owners = owners_of_map(alloc, lease)?;
        self.are_free(alloc, m, &owners)
    }

    fn is_rested_peer(&self, alloc: Global, m: Moment, lease: &PeerLease) -> Result<bool, Memory>
        ensures { IfOk result (λ b. IsTrue b ↔ IsRested self.now m (Peer lease.now)) }
    {
        let live = self.table.live(alloc, m)?;
        if holds_peer(live.peers(), lease) {
            return Ok(true);
        }
        self.are_free(alloc, m, &[owner_of_peer(lease)])
    }

    /// Whether the record suits the state.
    fn suits(&self, alloc: Global, kept: &Record) -> Result<bool, Memory>
        ensures { IfOk result (λ b. IsTrue b ↔ Suits self.now kept.now) }
    {
        if !self.suits_table(alloc, kept)? {
            return Ok(false);
        }
        self.is_rested(alloc, kept)
    }

    /// Whether the record suits the state in the first format.
    fn suits_first(&self, alloc: Global, kept: &Record) -> Result<bool, Memory>
        ensures { IfOk result (λ b. IsTrue b ↔ SuitsFirst self.now kept.now) }
    {
        if !is_of_first(&kept.change) {
            return Ok(false);
        }
        self.suits_table(alloc, kept)
    }

    /// The table after a record.
    fn table_after(&self, alloc: Global, kept: &Record) -> Result<PlainTable, Memory>
        requires { IsWellFormedRecord kept.now }
        ensures { IfOk result (λ t. t ≡ table_2 self.now kept.now) }
    {
        let mut table = self.table.live(alloc, kept.moment)?;
        table.change(kept)?;
        Ok(table)
    }

    /// The ports of the leases that a record takes out, and when these ended.
    fn left_by(&self, alloc: Global, kept: &Record) -> Result<Vec<End>, Memory>
        ensures { IfOk result (λ v. v.items ≡ left_2 self.now kept.now) }
    {
        let dead = self.table.dead(alloc, kept.moment)?;
        let mut left = dead.ends_at_expiry(alloc)?;
        let live = self.table.live(alloc, kept.moment)?;
        let deleted = live.deleted(alloc, &kept.change)?;
        let owners = deleted.owners(alloc)?;
        add_ended(&mut left, &owners, kept.moment.get())?;
        Ok(left)
    }

    /// The ends as the change of a record makes them.
    fn changed_ends(&self, alloc: Global, kept: &Record) -> Result<Vec<End>, Memory>
        requires { IsWellFormedRecord kept.now }
        ensures { IfOk result (λ v. v.items ≡ ends_2 self.now kept.now) }
    {
        let mut ends = Vec::from_slice(alloc, &self.ends)?;
        change_ends(alloc, &mut ends, kept)?;
        Ok(ends)
    }

    /// The ends after a record, old ones among them.
    fn ends_after(
        &self,
        alloc: Global,
        table: &PlainTable,
        kept: &Record,
    ) -> Result<Vec<End>, Memory>
        requires formed { IsWellFormedRecord kept.now }
        requires table { table.now ≡ table_2 self.now kept.now }
        ensures { IfOk result (λ v. v.items ≡ ends_3 self.now kept.now) }
    {
        let mut ends = self.changed_ends(alloc, kept)?;
        if is_loss(&kept.change) {
            return Ok(ends);
        }
        let owners = table.owners(alloc)?;
        let left = self.left_by(alloc, kept)?;
        add_left(&mut ends, &owners, left)?;
        Ok(ends)
    }

    /// Takes the table and the ends that a record leaves, without the old ones.
    fn settle(&mut self, table: PlainTable, ends: Vec<End>, kept: &Record)
        ensures { self.new ≡ record {
          table = table;
          ends = ends_4 kept.now.moment ends.items;
          base = if rebases kept.now.change self.old.address
              then kept.now.moment
              else self.old.base;
          address = address_changed kept.now.change self.old.address;
          last = kept.now.moment;
          started = is_start kept.now.change || self.old.started;
        } }
    {
        self.table = table;
        self.ends = ends;
        drop_old(&mut self.ends, kept.moment);
        self.base = base_after(kept, self.address, self.base);
        self.address = address_after(&kept.change, self.address);
        self.last = kept.moment;
        self.is_started = begins(&kept.change) || self.is_started;
    }

    /// Applies a record.
    fn apply(&mut self, alloc: Global, kept: &Record) -> Result<(), Memory>
        requires { IsWellFormedRecord kept.now }
        ensures { OnOk result (self.new ≡ apply self.old kept.now) }
    {
        let table = self.table_after(alloc, kept)?;
        let ends = self.ends_after(alloc, &table, kept)?;
        self.settle(table, ends, kept);
        Ok(())
    }

    /// Applies a record of the first format.
    fn apply_first(&mut self, alloc: Global, kept: &Record) -> Result<(), Memory>
        requires { IsWellFormedRecord kept.now }
        ensures { OnOk result (self.new ≡ apply_first self.old kept.now) }
    {
        let table = self.table_after(alloc, kept)?;
        let ends = self.changed_ends(alloc, kept)?;
        self.settle(table, ends, kept);
        Ok(())
    }
}

impl Replay for PlainReplay {
    ghost state = { λ r. r };

    ghost replaying = { IsReached };

    ghost replaying_first = { IsReachedFirst };

    ghost Lasting = { ⊤ };

    ghost lasting = { λ _. tt };

    fn clear(&mut self) {
        states_are_sound();
        first_states_are_sound();
        self.table.clear();
        self.ends.clear();
        self.base = zero();
        self.address = None;
        self.last = zero();
        self.is_started = false;
    }

    fn admit(&mut self, alloc: Global, kept: &Record) -> Result<bool, Memory> {
        states_are_sound();
        new_leases_need_room();
        let fits = self.suits(alloc, kept)?;
        if fits {
            self.apply(alloc, kept)?;
        }
        Ok(fits)
    }

    fn admit_first(&mut self, alloc: Global, kept: &Record) -> Result<bool, Memory> {
        first_states_are_sound();
        new_leases_need_room();
        let fits = self.suits_first(alloc, kept)?;
        if fits {
            self.apply_first(alloc, kept)?;
        }
        Ok(fits)
    }
}
