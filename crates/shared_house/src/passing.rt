//! What the passes of a house know, and how they are split and met.

use crate::houses::House;
use lease_disk::LeaseDisk;
use pcp_base::{Memory, Moment};
use std::alloc::Global;
use turned_shards::HousePass;

impl<D: LeaseDisk + Drop> House<D> {
    ghost use Rattle.std.specs.Prelude.{◌≡◌, IfOk, OnErr};
    ghost use Rattle.shared_house.specs.HouseCalls.{HearsHouse, IsPassOf, IsUsedUp, MeetsHouse};
    ghost use Rattle.shared_house.specs.HouseCalls.{SplitsHouse};

    /// What the epoch word tells: the greatest base that any pass raised. It takes no memory and
    /// waits for nobody.
    pub fn told(&self, pass: &mut HousePass<D>) -> Moment
        requires pass { IsPassOf self.now pass.old }
        ensures pass { IsPassOf self.now pass.new }
        ensures shard { pass.new.shard ≡ pass.old.shard }
        ensures history { pass.new.history ≡ pass.old.history }
        ensures heard { HearsHouse pass.old.epoch pass.new.epoch result }
    {
        self.word.told(&mut pass.epoch)
    }

    /// Another pass of the same external address, which knows as much and has noted nothing. It is
    /// refused, as for want of memory, where the right of this pass to make others is used up.
    pub fn split(&self, alloc: Global, pass: &mut HousePass<D>) -> Result<HousePass<D>, Memory>
        requires pass { IsPassOf self.now pass.old }
        ensures pass { IsPassOf self.now pass.new }
        ensures new { IfOk result (SplitsHouse self.now pass.old pass.new) }
        ensures refused { OnErr result (IsUsedUp pass.old) }
        ensures unchanged { OnErr result (pass.new ≡ pass.old) }
    {
        let place = pass.shard;
        let turn = &self.turns[place as usize];
        let Ok(history) = turn.split(alloc, &mut pass.history) else {
            return Err(Memory);
        };
        match self.word.split(alloc, &mut pass.epoch) {
            Ok(epoch) => Ok(HousePass {
                shard: place,
                history,
                epoch,
            }),
            Err(memory) => {
                turn.meet(&mut pass.history, history);
                Err(memory)
            }
        }
    }

    /// Takes in another pass of the same external address.
    pub fn meet(&self, pass: &mut HousePass<D>, other: HousePass<D>)
        requires pass { IsPassOf self.now pass.old }
        requires other { IsPassOf self.now other }
        requires same { other.shard ≡ pass.old.shard }
        ensures pass { IsPassOf self.now pass.new }
        ensures shard { pass.new.shard ≡ pass.old.shard }
        ensures met { MeetsHouse pass.old other pass.new }
    {
        let HousePass {
            shard: place,
            history,
            epoch,
        } = other;
        let turn = &self.turns[place as usize];
        turn.meet(&mut pass.history, history);
        self.word.join(&mut pass.epoch, epoch);
    }
}
