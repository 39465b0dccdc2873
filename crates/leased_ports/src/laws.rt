//! Laws about the definitions. A proof that needs a law calls its function.

ghost use Rattle.leased_ports.specs.Laws.{PoolsPickForStates, LastEndsTellPools, NewPortsAreFree, PortsFollowMoments, PortsTellLastEnds, RecordsTellLastEnds, NothingIsKept, PortsFollowRecords, PortsBeginAnew, EndsAreLastEnds, EndsAreTold};

/// The pool of a state answers an ask for ports as the state does.
pub fn pools_pick_for_states()
    ensures { PoolsPickForStates }
{}

/// A port is held until its last end, and then it rests.
pub fn last_ends_tell_pools()
    ensures { LastEndsTellPools }
{}

/// The ports of a state at a moment, and then at a later one.
pub fn ports_follow_states()
    ensures new { NewPortsAreFree }
    ensures later { PortsFollowMoments }
    ensures told { PortsTellLastEnds }
{}

/// What a record does to the last ends of ports.
pub fn records_tell_last_ends()
    ensures recorded { RecordsTellLastEnds }
    ensures forgotten { NothingIsKept }
    ensures ports { PortsFollowRecords }
    ensures anew { PortsBeginAnew }
{}

/// A state is told by its leases and by the last ends of ports.
pub fn ends_are_last_ends()
    ensures last { EndsAreLastEnds }
    ensures told { EndsAreTold }
{}
