//! A house whose external addresses are served by any number of threads.

use crate::served::Served;
use crate::serving::{count_behind, lose_behind, serve_behind};
use epoch_word::EpochWord;
use lane_index::Told;
use lease_disk::{DiskPair, LeaseDisk};
use lease_house::{HouseFault, fault_at};
use pcp_base::{Config, Datagram, Moment};
use status_board::ShardNumbers;
use std::alloc::Global;
use std::marker::Model;
use std::sync::Wait;
use turn_lock::Turn;
use turned_shards::{HousePass, Shard};

/// All external addresses of a server, each behind a turn of its own, and the greatest base of all.
/// It isn't `Drop`: end it by `end`.
pub struct House<D: LeaseDisk> {
    pub(crate) config: Config,
    /// one for each external address
    pub(crate) turns: Vec<Turn<Shard<D>>>,
    pub(crate) word: EpochWord,
    /// the vector that the house began with, less the pairs of the shards
    pub(crate) spare: Vec<DiskPair<D>>,
}

impl<D: LeaseDisk> Model for House<D> {
    ghost use Rattle.std.specs.Prelude.{◌+◌, ◌≤◌, length, vec_capacity};
    ghost use Rattle.shared_house.specs.HouseCalls.{HouseView, IsHouse};

    ghost Value = { HouseView D };

    ghost view = { λ h. record {
      config = h.config;
      turns = h.turns.items;
      word = h.word;
      spare = h.spare.items;
    } };

    ghost invariant = { λ h. IsHouse (record {
      config = h.config;
      turns = h.turns.items;
      word = h.word;
      spare = h.spare.items;
    }) × (length h.turns.items + length h.spare.items ≤ vec_capacity h.spare) };
}

impl<D: LeaseDisk + Drop> House<D> {
    ghost use Rattle.std.specs.Prelude.{◌≡◌, ◌≤◌, [], length, IfOk, IfErr, OnErr};
    ghost use Rattle.std.specs.List.{AllByRecursion};
    ghost use Rattle.journal_sides.specs.declared.layout.TheConstants.{MOST_RECORDS};
    ghost use Rattle.lease_histories.specs.Routes.{route_of};
    ghost use Rattle.turned_shards.specs.declared.openings.Opening.{Opening};
    ghost use Rattle.shared_house.specs.Endings.{AreAtHome, EndsAll};
    ghost use Rattle.shared_house.specs.HouseCalls.{BeginsAt, HearsHouse, IsPassOf, IsUsedUp};
    ghost use Rattle.shared_house.specs.HouseCalls.{LosesHouse, MeetsHouse, RefusesAt, ServesHouse};
    ghost use Rattle.shared_house.specs.HouseCalls.{SplitsHouse, batch_behind, loss_behind};
    ghost use Rattle.shared_house.specs.HouseCalls.{raised_behind, raised_by_loss};

    /// Answers the datagrams of a batch in one turn of the pass's external address, at the greater
    /// of `now` and the moment of its last entry. All records of what the pass then has seen are
    /// published, once the journal has them and before the turn is given back. Where the last call
    /// was refused the external address is settled first, and what isn't published yet is. After
    /// `Disk` a fault stands in the history as the call's own, and the batch is in doubt. After
    /// `Memory` the batch is in only where memory was wanting for a reply or for the lane: the pass
    /// tells. It waits for the turn, and for lookups that still have the other copy of the lane's
    /// index.
    pub fn serve<R: Wait>(
        &self,
        rt: &R,
        alloc: Global,
        pass: &mut HousePass<D>,
        batch: &[Datagram],
        now: Moment,
    ) -> Result<Served, HouseFault>
        requires pass { IsPassOf self.now pass.old }
        requires few { length batch.now ≤ MOST_RECORDS }
        requires routed { AllByRecursion (λ d. route_of self.now.config d ≡ pass.old.shard)
            batch.now }
        ensures pass { IsPassOf self.now pass.new }
        ensures shard { pass.new.shard ≡ pass.old.shard }
        ensures served { (o : Opening D) → BeginsAt self.now pass.old.shard o → IfOk result
            (λ served. ServesHouse o D.tells D.seen D.moment D.left_since D.may_leave D.faults
            now batch.now pass.old pass.new served.replies.items served.told) }
        ensures refused { (o : Opening D) → BeginsAt self.now pass.old.shard o → IfErr result
            (RefusesAt o D.tells D.seen D.moment D.left_since D.may_leave D.faults
            pass.old.shard now (λ log. batch_behind o log now pass.new.epoch.heard batch.now)
            (raised_behind o) pass.old pass.new) }
    {
        let place = pass.shard;
        let turn = &self.turns[place as usize];
        match serve_behind(rt, alloc, &self.config, turn, &self.word, pass, batch, now) {
            Ok(served) => Ok(served),
            Err(fault) => Err(fault_at(place, fault)),
        }
    }

    /// Loses all leases of the pass's external address in one turn, and says how many were live,
    /// and what its lane may learn. After `Memory` the loss is in only where memory was wanting for
    /// the lane. For all else it does as `serve`.
    pub fn lose<R: Wait>(
        &self,
        rt: &R,
        alloc: Global,
        pass: &mut HousePass<D>,
        now: Moment,
    ) -> Result<(u32, Told), HouseFault>
        requires pass { IsPassOf self.now pass.old }
        ensures pass { IsPassOf self.now pass.new }
        ensures shard { pass.new.shard ≡ pass.old.shard }
        ensures lost { (o : Opening D) → BeginsAt self.now pass.old.shard o → IfOk result
            (λ lost. LosesHouse o D.tells D.seen D.moment D.left_since D.may_leave D.faults
            now pass.old pass.new lost.0 lost.1) }
        ensures refused { (o : Opening D) → BeginsAt self.now pass.old.shard o → IfErr result
            (RefusesAt o D.tells D.seen D.moment D.left_since D.may_leave D.faults
            pass.old.shard now (λ log. loss_behind o log now pass.new.epoch.heard)
            (raised_by_loss o now) pass.old pass.new) }
    {
        let place = pass.shard;
        let turn = &self.turns[place as usize];
        match lose_behind(rt, alloc, turn, &self.word, pass, now) {
            Ok(lost) => Ok(lost),
            Err(fault) => Err(fault_at(place, fault)),
        }
    }

    /// Counts what the pass's external address has, in one turn, once it is settled: at the greater of
    /// `now` and the moment of its last entry. There is no count where memory was wanting for it. It
    /// says too what its lane may learn. For all else it does as `serve` does with a batch without
    /// datagrams.
    pub fn count<R: Wait>(
        &self,
        rt: &R,
        alloc: Global,
        pass: &mut HousePass<D>,
        now: Moment,
    ) -> Result<(Option<ShardNumbers>, Told), HouseFault>
        requires { IsPassOf self.now pass.old }
        ensures pass { IsPassOf self.now pass.new }
        ensures shard { pass.new.shard ≡ pass.old.shard }
        ensures counted { (o : Opening D) → BeginsAt self.now pass.old.shard o → IfOk result
            (λ counted. ServesHouse o D.tells D.seen D.moment D.left_since D.may_leave D.faults
            now [] pass.old pass.new [] counted.1) }
        ensures refused { (o : Opening D) → BeginsAt self.now pass.old.shard o → IfErr result
            (RefusesAt o D.tells D.seen D.moment D.left_since D.may_leave D.faults
            pass.old.shard now (λ log. batch_behind o log now pass.new.epoch.heard [])
            (raised_behind o) pass.old pass.new) }
    {
        let place = pass.shard;
        let turn = &self.turns[place as usize];
        match count_behind(rt, alloc, &self.config, turn, &self.word, pass, now) {
            Ok(counted) => Ok(counted),
            Err(fault) => Err(fault_at(place, fault)),
        }
    }
}
