//! What holds of the passes of an external address, and of what is published. A proof that needs a
//! law calls its function.
ghost use Rattle.turned_shards.specs.Laws.{JournalsHaveNoted, PassesShareHistories};
ghost use Rattle.turned_shards.specs.Laws.{PublishedWereNoted};

use crate::shards::Shard;
use lease_disk::LeaseDisk;
use turn_lock::passes_share_one_history;

/// Of two passes of one external address, what one has seen begins what the other has seen.
pub fn passes_share_histories<D: LeaseDisk>()
    ensures { PassesShareHistories D D.tells D.seen D.moment D.left_since D.may_leave D.faults }
{
    passes_share_one_history::<Shard<D>>();
}

/// What a lane's writer has published are the records of the first noted entries, whatever was
/// added since: so it is whenever the turn is free. Of a noted entry the journal has the record.
pub fn published_records_were_noted<D: LeaseDisk>()
    ensures { PublishedWereNoted D D.tells D.seen D.moment D.left_since D.may_leave D.faults }
{}

/// Whenever the turn is free the journal has the records of all noted entries: a crash leaves the
/// state to which these lead, or that with all that is in doubt.
pub fn journals_have_what_is_noted<D: LeaseDisk>()
    ensures { JournalsHaveNoted D D.tells D.seen D.moment D.left_since D.may_leave D.faults }
{}
