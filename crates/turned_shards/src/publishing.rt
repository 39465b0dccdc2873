//! Publishing the records of a history to the lane of its external address.
ghost use Rattle.std.specs.Prelude.{◌≡◌, ◌++◌, [], IfOk, IfErr, OnOk};
ghost use Rattle.journal_sides.specs.declared.errors.JournalFault.TheVariants as Faults;
ghost use Rattle.lane_index.specs.Lanes.{told_records};
ghost use Rattle.turned_shards.specs.HeldShards.{IsHeldBy};
ghost use Rattle.turned_shards.specs.Publishing.{IsWithLane, KeepsRecords, MayPush, told_of};
ghost use Rattle.turned_shards.specs.Shards.{all_records};

use crate::shards::Shard;
use crate::waiting::{drop_first, push_each};
use lane_index::Told;
use lease_disk::LeaseDisk;
use lease_histories::states_stand;
use lease_journal::JournalFault;
use pcp_base::Memory;
use shard_book::BookFault;
use std::alloc::Global;
use std::sync::Wait;
use turn_lock::{Held, Pass, Turn};

impl<D: LeaseDisk + Drop> Shard<D> {
    /// Pushes what the writer of the lane hasn't got yet, publishes it, and tells all that is
    /// published then. Without memory what was pushed stays so, and the rest waits.
    pub(crate) fn publish<R: Wait>(&mut self, rt: &R, alloc: Global) -> Result<Told, Memory>
        requires { MayPush self.old.writer self.old.unpushed.items }
        ensures same { IsWithLane self.old self.new }
        ensures records { KeepsRecords self.old self.new }
        ensures told { IfOk result (λ told. told
            ≡ told_records self.old.writer.index (all_records self.old)) }
        ensures published { OnOk result (self.new.writer.published ≡ all_records self.old) }
    {
        let count = push_each(alloc, &mut self.writer, &self.unpushed);
        if count < self.unpushed.len() {
            drop_first(&mut self.unpushed, count);
            return Err(Memory);
        }
        self.unpushed.clear();
        Ok(self.writer.publish(rt))
    }

    /// Whether some records wait to be published.
    pub(crate) fn waits(&self) -> bool {
        !self.unpushed.is_empty()
    }
}

/// Publishes all records of the history that the pass has seen, and tells what its lane may learn:
/// all of them. What the held shard added was noted before. It waits for lookups that still have
/// the other copy of the lane's index. After `Memory`, the one fault that it answers, what isn't
/// published yet waits in the shard.
pub fn publish_held<D: LeaseDisk + Drop, R: Wait>(
    rt: &R,
    alloc: Global,
    _turn: &Turn<Shard<D>>,
    _pass: &Pass<Shard<D>>,
    held: &mut Held<Shard<D>>,
) -> Result<Told, BookFault>
    requires { IsHeldBy D.tells D.seen D.moment D.left_since D.may_leave D.faults _turn.now held.old _pass.now }
    ensures held { IsHeldBy D.tells D.seen D.moment D.left_since D.may_leave D.faults _turn.now held.new _pass.now }
    ensures same { IsWithLane held.old held.new }
    ensures told { IfOk result (λ told. told ≡ told_of _turn.now.key _pass.now.seen) }
    ensures memory { IfErr result (λ fault. fault ≡ Faults.Memory) }
{
    states_stand();
    match held.value().publish(rt, alloc) {
        Ok(told) => Ok(told),
        Err(_memory) => Err(JournalFault::Memory),
    }
}

/// Publishes as `publish_held` does where some records wait in the held shard, as after a call that
/// was refused for want of memory, and else does nothing.
pub fn publish_rest<D: LeaseDisk + Drop, R: Wait>(
    rt: &R,
    alloc: Global,
    turn: &Turn<Shard<D>>,
    pass: &Pass<Shard<D>>,
    held: &mut Held<Shard<D>>,
) -> Result<(), BookFault>
    requires { IsHeldBy D.tells D.seen D.moment D.left_since D.may_leave D.faults turn.now held.old pass.now }
    ensures held { IsHeldBy D.tells D.seen D.moment D.left_since D.may_leave D.faults turn.now held.new pass.now }
    ensures same { IsWithLane held.old held.new }
    ensures memory { IfErr result (λ fault. fault ≡ Faults.Memory) }
{
    if !held.value().waits() {
        return Ok(());
    }
    match publish_held(rt, alloc, turn, pass, held) {
        Ok(_told) => Ok(()),
        Err(fault) => Err(fault),
    }
}
