//! A house on one thread.

use crate::book_calls::{ask_at, lose_at, settle_at, told_at};
use crate::faults::{HouseFault, Unbegun};
use crate::moments::{greatest_base, later};
use crate::opening::{copy_of, hand_back, open_books};
use crate::replying::{address_at, reply_of};
use crate::routes::{Routed, read_datagram};
use crate::updates::updates_of;
use lease_core::Core;
use lease_disk::{DiskPair, LeaseDisk};
use pcp_base::{Address, Ask, Config, Datagram, Endpoint, Memory, Moment, Octets, Owner, Protocol};
use shard_book::{Book, DatedAnswer};
use std::alloc::Global;
use std::marker::Model;

/// All external addresses of a server, each with its leases and its journal, for one thread. After a
/// fault the next `serve` or `lose` of that external address finds out what its journal has.
#[derive(Drop)]
pub struct SoloHouse<D: LeaseDisk> {
    config: Config,
    /// one for each external address
    books: Vec<Book<D>>,
    /// the vector that the house began with, less the pairs of the books
    spare: Vec<DiskPair<D>>,
}

impl<D: LeaseDisk> Model for SoloHouse<D> {
    ghost use Rattle.std.specs.Prelude.{◌+◌, ◌≤◌, length, vec_capacity};
    ghost use Rattle.lease_house.specs.SoloHouses.{HouseView, IsHouse};

    ghost Value = { HouseView D };

    ghost view = { λ h. record {
      config = h.config;
      books = h.books.items;
      spare = h.spare.items;
    } };

    ghost invariant = { λ h. IsHouse D.tells D.seen D.may_leave (record {
      config = h.config;
      books = h.books.items;
      spare = h.spare.items;
    }) × (length h.books.items + length h.spare.items ≤ vec_capacity h.spare) };
}

impl<D: LeaseDisk + Drop> SoloHouse<D> {
    ghost use Rattle.std.specs.Prelude.{◌≡◌, ◌<◌, ◌≤◌, ◌++◌, length, map, None, Some, Err, IfOk, IfErr, OnOk};
    ghost use Rattle.std.specs.List.{AllByRecursion, slice_get};
    ghost use Rattle.std.specs.Option.{option_map};
    ghost use Rattle.pcp_base.specs.Configs.{IsConfig};
    ghost use Rattle.pcp_base.specs.Reached.{IsReached};
    ghost use Rattle.pcp_base.specs.Asks.{IsWellFormedAsk};
    ghost use Rattle.shard_book.specs.Books.{IsBook};
    ghost use Rattle.lease_histories.specs.PlainHouses.{covering_in, leases_in, look_in, owners_in};
    ghost use Rattle.lease_house.specs.BookCalls.{AnswersAsk};
    ghost use Rattle.lease_house.specs.Routings.{MayBeAsked, routed_by};
    ghost use Rattle.lease_house.specs.SoloCalls.{AnswersPacket, IsDoubtKept, IsLineRefused, LosesAt, RefusesPacket, ServesPacket, SettlesAt, ask_records, loss_records};
    ghost use Rattle.lease_house.specs.SoloHouses.{HaveCauses, IsHouse, IsSettledAt, last_in, plain_house};
    ghost use Rattle.lease_house.specs.SoloOpenings.{HandsBackAll, IsOfPlace, OpensAll, updates_of};
    ghost use Rattle.lease_house.specs.declared.faults.HouseFault.TheVariants.{Disk};

    /// Opens the journals of the first pairs, one for each external address in order, as
    /// [`LeaseBook::begin`](shard_book::LeaseBook::begin) does. Pairs past these get no call. After a
    /// fault all pairs are handed back in their order.
    pub fn begin(
        alloc: Global,
        config: &Config,
        disks: Vec<DiskPair<D>>,
        m: Moment,
    ) -> Result<SoloHouse<D>, Unbegun<D>>
        requires config { IsConfig config.now }
        requires enough { length config.now.externals ≤ length disks.items }
        ensures config { IfOk result (λ house. house.config ≡ config.now) }
        ensures opened { IfOk result (λ house. OpensAll D.tells D.seen D.moment D.left_since
            D.may_leave D.faults config.now m config.now.externals disks.items house.books
            house.spare) }
        ensures house { IfOk result (λ house. IsHouse D.tells D.seen D.may_leave house) }
        ensures refused { IfErr result (λ refused. HandsBackAll D.tells D.seen D.moment
            D.left_since D.may_leave D.faults m 0 refused.fault config.now.externals disks.items
            refused.disks.items) }
        ensures place { IfErr result
            (λ refused. IsOfPlace (length config.now.externals) refused.fault) }
    {
        let copy = match copy_of(alloc, config) {
            Ok(copy) => copy,
            Err(_) => {
                return Err(Unbegun {
                    fault: HouseFault::Memory,
                    disks,
                });
            }
        };
        match open_books(alloc, config, disks, m) {
            Ok(opened) => Ok(SoloHouse {
                config: copy,
                books: opened.books,
                spare: opened.spare,
            }),
            Err(refused) => Err(refused),
        }
    }

    /// The configuration with which the house began.
    pub fn config(&self) -> &Config
        ensures value { result.now ≡ self.now.config }
        ensures config { IsConfig result.now }
        ensures house { IsHouse D.tells D.seen D.may_leave self.now }
    {
        &self.config
    }

    /// What clients are told of the external addresses that the opening found renumbered: an update
    /// for each lease that was live at the Renumber, by door 0. It is to be called before `serve` and
    /// `lose`.
    pub fn updates(&self, alloc: Global) -> Result<Vec<Datagram>, Memory>
        requires settled { AllByRecursion (λ b. b.fault ≡ None) self.now.books }
        ensures { IfOk result (λ updates. updates.items ≡ updates_of self.now) }
    {
        let base = greatest_base(&self.books);
        updates_of(alloc, &self.books, base)
    }

    /// Answers a datagram; none where it is silent. Its external address is settled first, where its
    /// last call was refused. After a fault the request's record is in the journal or it isn't; it
    /// is where memory was wanting for the reply alone. The other external addresses are as before.
    pub fn serve(
        &mut self,
        alloc: Global,
        datagram: &Datagram,
        now: Moment,
    ) -> Result<Option<Octets>, HouseFault>
        ensures served { IfOk result
            (ServesPacket D.tells D.moment D.left_since D.may_leave now datagram.now
            self.old self.new) }
        ensures refused { IfErr result
            (RefusesPacket D.tells D.moment D.left_since D.may_leave now datagram.now
            self.old self.new) }
        ensures house { IsHouse D.tells D.seen D.may_leave self.new }
        ensures cause { HaveCauses D.faults self.old self.new
            (λ place. result ≡ Err (Disk place)) }
    {
        let Some(request) = read_datagram(alloc, self.config(), datagram)? else {
            return Ok(None);
        };
        let reply = self.serve_read(alloc, datagram, &request, now)?;
        Ok(Some(reply))
    }

    /// Answers what was read of a datagram by [`read_datagram`], as `serve` does: for a caller that
    /// wants to know what is asked.
    pub fn serve_read(
        &mut self,
        alloc: Global,
        datagram: &Datagram,
        request: &Routed,
        now: Moment,
    ) -> Result<Octets, HouseFault>
        requires read { routed_by self.old.config datagram.now ≡ Some request.now }
        requires may_be_asked { MayBeAsked self.old.config datagram.now
            request.now.place request.now.ask }
        ensures served { IfOk result
            (AnswersPacket D.tells D.moment D.left_since D.may_leave now datagram.now
            self.old self.new) }
        ensures refused { IfErr result
            (RefusesPacket D.tells D.moment D.left_since D.may_leave now datagram.now
            self.old self.new) }
        ensures house { IsHouse D.tells D.seen D.may_leave self.new }
        ensures cause { HaveCauses D.faults self.old self.new
            (λ place. result ≡ Err (Disk place)) }
    {
        let address = address_at(self.config(), request.place);
        let answer = self.answer(alloc, request.place, &request.ask, now)?;
        let octets = datagram.octets.items();
        let reply = reply_of(
            alloc,
            octets,
            &address,
            &request.ask,
            &request.items,
            &answer,
        )?;
        Ok(reply)
    }

    /// Loses all leases of an external address, and says how many were live. It is settled first,
    /// where its last call was refused. After a fault the loss is in the journal or it isn't. The
    /// other external addresses are as before.
    pub fn lose(&mut self, alloc: Global, shard: u32, now: Moment) -> Result<u32, HouseFault>
        requires { shard < length self.old.config.externals }
        ensures lost { IfOk result
            (LosesAt D.tells D.moment D.left_since D.may_leave now shard self.old self.new) }
        ensures refused { IfErr result
            (IsLineRefused D.tells D.moment D.left_since D.may_leave now shard
            (loss_records now) self.old self.new) }
        ensures house { IsHouse D.tells D.seen D.may_leave self.new }
        ensures cause { HaveCauses D.faults self.old self.new
            (λ place. result ≡ Err (Disk place)) }
    {
        self.settle(alloc, shard, now)?;
        told_at(shard, lose_at(alloc, &mut self.books, shard, now))
    }

    /// The endpoint to which a remote peer may send through an external port. A moment below that of
    /// the last record counts as that.
    pub fn look(
        &self,
        shard: u32,
        protocol: Protocol,
        port: u16,
        remote: &Address,
        remote_port: u16,
        m: Moment,
    ) -> Option<Endpoint>
        requires shard { shard < length self.now.config.externals }
        requires settled { IsSettledAt shard self.now }
        ensures { result
            ≡ look_in (plain_house self.now) shard protocol port remote.now remote_port m }
    {
        self.books[shard as usize]
            .core()
            .look(protocol, port, remote, remote_port, m)
    }

    /// The ports that live leases own, in the order of protocol number and port. A moment below that
    /// of the last record counts as that.
    pub fn owners(&self, alloc: Global, shard: u32, m: Moment) -> Result<Vec<Owner>, Memory>
        requires shard { shard < length self.now.config.externals }
        requires settled { IsSettledAt shard self.now }
        ensures { IfOk result
            (λ owners. owners.items ≡ owners_in (plain_house self.now) shard m) }
    {
        let core = self.core_at(shard);
        core.owners(alloc, later(m, core.last()))
    }

    /// Whether a live MAP lease covers the endpoint. A moment below that of the last record counts as
    /// that.
    pub fn covered(&self, shard: u32, endpoint: &Endpoint, m: Moment) -> bool
        requires shard { shard < length self.now.config.externals }
        requires settled { IsSettledAt shard self.now }
        ensures { result ≡ covering_in (plain_house self.now) shard endpoint.now m }
    {
        let core = self.core_at(shard);
        core.covered(endpoint, later(m, core.last()))
    }

    /// How many leases are live, MAP and PEER together. A moment below that of the last record counts
    /// as that.
    pub fn leases(&self, shard: u32, m: Moment) -> u32
        requires shard { shard < length self.now.config.externals }
        requires settled { IsSettledAt shard self.now }
        ensures { result ≡ leases_in (plain_house self.now) shard m }
    {
        let core = self.core_at(shard);
        core.leases(later(m, core.last()))
    }

    /// The moment of the last datagram that was answered, of the last loss, or of the last record.
    pub fn last(&self, shard: u32) -> Moment
        requires { shard < length self.now.config.externals }
        ensures { result ≡ last_in (plain_house self.now) shard }
    {
        self.books[shard as usize].last()
    }

    /// All pairs, in the order in which the house got them.
    pub fn end(self) -> Vec<DiskPair<D>>
        ensures { result.items ≡ map (λ b. b.journal.pair) self.books ++ self.spare }
    {
        hand_back(self.books, self.spare)
    }

    /// The lease table of an external address.
    fn core_at(&self, shard: u32) -> &Core
        requires shard { shard < length self.now.config.externals }
        requires settled { IsSettledAt shard self.now }
        ensures state { option_map (λ s. s.state) (slice_get (plain_house self.now).shards shard)
            ≡ Some result.now.kept.state }
        ensures reached { IsReached result.now.kept.state }
    {
        self.books[shard as usize].core()
    }

    /// Settles the book of the external address at this place where its last call was refused.
    fn settle(&mut self, alloc: Global, place: u32, now: Moment) -> Result<(), HouseFault>
        requires { place < length self.old.config.externals }
        ensures settled { OnOk result
            (SettlesAt D.tells D.moment D.left_since D.may_leave now place self.old self.new) }
        ensures refused { IfErr result (λ fault. IsDoubtKept D.tells D.moment D.left_since
            D.may_leave place self.old self.new fault) }
        ensures house { IsHouse D.tells D.seen D.may_leave self.new }
        ensures cause { HaveCauses D.faults self.old self.new
            (λ place. result ≡ Err (Disk place)) }
    {
        told_at(place, settle_at(alloc, &mut self.books, place, now))
    }

    /// Answers a request of the external address at this place, after its book was settled.
    fn answer(
        &mut self,
        alloc: Global,
        place: u32,
        ask: &Ask,
        now: Moment,
    ) -> Result<DatedAnswer, HouseFault>
        requires place { place < length self.old.config.externals }
        requires formed { IsWellFormedAsk ask.now }
        ensures answered { IfOk result (λ answer.
            AnswersAsk D.tells D.moment D.left_since D.may_leave now place ask.now
            self.old self.new answer) }
        ensures refused { IfErr result
            (IsLineRefused D.tells D.moment D.left_since D.may_leave now place
            (ask_records now ask.now) self.old self.new) }
        ensures house { IsHouse D.tells D.seen D.may_leave self.new }
        ensures cause { HaveCauses D.faults self.old self.new
            (λ place. result ≡ Err (Disk place)) }
    {
        self.settle(alloc, place, now)?;
        told_at(place, ask_at(alloc, &mut self.books, place, ask, now))
    }
}
