//! What holds of replies. A proof that needs a law calls its function.
ghost use Rattle.shared_house.specs.Laws.{RepliesAreNotedOnce};

use lease_disk::LeaseDisk;
use turn_lock::noted_entries_stand_once;
use turned_shards::Shard;

/// Each reply of `House::serve` is that of an entry that was noted once, as its pass knows from
/// then on, and whoever it meets.
pub fn replies_are_noted_once<D: LeaseDisk>()
    ensures { RepliesAreNotedOnce D D.tells D.seen D.moment D.left_since D.may_leave D.faults }
{
    noted_entries_stand_once::<Shard<D>>();
}
