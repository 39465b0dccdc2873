//! The end of a house of many threads.
ghost use Rattle.std.specs.Prelude.{◌≡◌, ◌+◌, ◌<◌, ◌≤◌, length, vec_capacity, Some};
ghost use Rattle.std.specs.List.{slice_get};
ghost use Rattle.lease_house.specs.BookCalls.{ChangesAt};
ghost use Rattle.lane_index.specs.Lanes.{LaneKnowledge};
ghost use Rattle.turned_shards.specs.declared.passes.HousePass.{HousePass};
ghost use Rattle.shared_house.specs.Endings.{AllKnowFirst, AreAtHome, AreLanesOf, EndsAll};
ghost use Rattle.shared_house.specs.Endings.{IsAtHome};
ghost use Rattle.turned_shards.specs.Turnings.{EndsOne, KnowsFirst};

use crate::houses::House;
use lane_index::Lane;
use lease_disk::{DiskPair, LeaseDisk};
use lease_house::put_first;
use std::sync::Wait;
use turn_lock::Turn;
use turned_shards::{HousePass, Shard, end_one};

/// Takes a turn for good with the pass and the lane at this place, and hands its pair out.
fn end_at<D: LeaseDisk + Drop, R: Wait>(
    rt: &R,
    turn: Turn<Shard<D>>,
    passes: &mut Vec<HousePass<D>>,
    lanes: &[Lane],
    place: usize,
) -> DiskPair<D>
    requires there { place < length passes.old.items }
    requires home { (pass : HousePass D) → slice_get passes.old.items place ≡ Some pass →
        IsAtHome turn pass }
    requires lanes { place < length lanes.now }
    requires index { (lane : LaneKnowledge) → slice_get lanes.now place ≡ Some lane →
        lane.index ≡ turn.key.lane.index }
    ensures ended { ChangesAt place passes.old.items passes.new.items
        (λ p q. EndsOne D.tells D.seen D.moment D.left_since D.may_leave D.faults turn.key p q
        result) }
    ensures lane { (pass : HousePass D) (lane : LaneKnowledge) →
        slice_get passes.new.items place ≡ Some pass → slice_get lanes.now place ≡ Some lane →
        KnowsFirst turn.key pass.history.seen lane }
{
    end_one(rt, turn, &mut passes[place], &lanes[place])
}

/// Takes each turn for good with the pass and the lane of its place. All pairs come before the
/// spare ones, in the vector that has those.
fn end_all<D: LeaseDisk + Drop, R: Wait>(
    rt: &R,
    turns: Vec<Turn<Shard<D>>>,
    passes: &mut Vec<HousePass<D>>,
    lanes: &[Lane],
    spare: Vec<DiskPair<D>>,
) -> Vec<DiskPair<D>>
    requires home { AreAtHome turns.items passes.old.items }
    requires lanes { AreLanesOf turns.items lanes.now }
    requires room { length turns.items + length spare.items ≤ vec_capacity spare }
    ensures ended { EndsAll D.tells D.seen D.moment D.left_since D.may_leave D.faults turns.items
        passes.old.items passes.new.items spare.items result.items }
    ensures lanes { AllKnowFirst turns.items passes.new.items lanes.now }
{
    let mut turns = turns;
    let mut pairs = spare;
    for _ in 0..turns.len() {
        let turn = turns.pop().unwrap();
        let place = turns.len();
        let pair = end_at(rt, turn, passes, lanes, place);
        put_first(&mut pairs, pair);
    }
    turns.destroy_empty();
    pairs
}

impl<D: LeaseDisk + Drop> House<D> {
    ghost use Rattle.std.specs.Prelude.{◌≡◌, ◌+◌, length};
    ghost use Rattle.shared_house.specs.Endings.{AllKnowFirst, AreAtHome, AreLanesOf, EndsAll};

    /// Takes each turn for good with the pass of its place, which then has seen the whole history
    /// of its external address, of whose records its lane knows some first ones, and ends that
    /// lane. All pairs come back in the order in which the house got them. It takes no memory.
    /// Every later `serve` or `lose` of another pass waits for ever, and every later lookup of a
    /// lane may.
    pub fn end<R: Wait>(
        self,
        rt: &R,
        passes: &mut Vec<HousePass<D>>,
        lanes: &[Lane],
    ) -> Vec<DiskPair<D>>
        requires home { AreAtHome self.turns passes.old.items }
        requires lanes { AreLanesOf self.turns lanes.now }
        ensures ended { EndsAll D.tells D.seen D.moment D.left_since D.may_leave D.faults self.turns
            passes.old.items passes.new.items self.spare result.items }
        ensures lanes { AllKnowFirst self.turns passes.new.items lanes.now }
        ensures count { length result.items ≡ length self.turns + length self.spare }
    {
        let House {
            config: _config,
            turns,
            word: _word,
            spare,
        } = self;
        end_all(rt, turns, passes, lanes, spare)
    }
}
