//! A copy of an index, and the beginning of the history that it has.
ghost use Rattle.std.specs.Prelude.{◌≡◌, max};

use crate::history::SeenHistory;
use crate::index::Index;
use crate::laws::looks_are_the_tables;
use crate::senders::Sender;
use pcp_base::{Endpoint, Moment};

/// A copy of an index.
#[derive(Drop)]
pub struct Replica {
    pub(crate) index: Index,
    /// The moment of the last record.
    pub(crate) last: Moment,
    /// The history so far.
    pub(crate) seen: SeenHistory,
    /// How many entries the history has so far.
    pub(crate) count: u64,
}

impl Replica {
    ghost use Rattle.std.specs.Prelude.{◌≡◌};
    ghost use Rattle.filter_rules.specs.Lookups.{look};
    ghost use Rattle.lane_index.specs.Histories.{state_left};
    ghost use Rattle.lane_index.specs.Replicas.{IsReplica};

    /// Whose is what the remote peer sends to the external port at `m`; a moment below that of the
    /// last record counts as that.
    pub(crate) fn look(&self, sender: &Sender, m: Moment) -> Option<Endpoint>
        requires { IsReplica self.now.seen.book self.now }
        ensures { result ≡ look (state_left self.now.seen.log) sender.now.protocol sender.now.port
            sender.now.remote sender.now.remote_port m }
    {
        looks_are_the_tables();
        sender.port_is_small();
        self.index.look(sender, later_of(m, self.last))
    }
}

/// The later of two moments.
fn later_of(a: Moment, b: Moment) -> Moment
    ensures { result ≡ max a b }
{
    if a.get() < b.get() { b } else { a }
}
