//! What lanes answer while a house is served. A proof that needs a law calls its function.
ghost use Rattle.house_workers.specs.Lookups.{LookupsAreOfHistories};

use lane_index::looks_depend_on_tables;
use lease_disk::LeaseDisk;

/// What a lane answers is *Look* after some first records of the history that the end finds, from
/// the state of the opening on, and never after fewer records than it answered by before.
pub fn lookups_are_of_histories<D: LeaseDisk>()
    ensures { LookupsAreOfHistories D D.tells D.seen D.moment D.left_since D.may_leave D.faults }
{
    looks_depend_on_tables();
}
