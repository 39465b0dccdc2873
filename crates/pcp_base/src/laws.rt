//! What holds of the states that fitting records make. A proof that needs a law calls its function.
ghost use Rattle.pcp_base.specs.Laws.{RecordsReach, ReachedIsKept, FirstRecordsReach, FirstReachedIsKept, PortsHaveOneOwner, TablesDecide, RoomDecides, SuitingFits, SuitingFitsFirst, EndsAtAMoment, PortsRestForOne, RestingIsUnowned, MarksTellRests, EndsComeInSteps, RecordsComeLast, SnapshotsStand};

/// A state that records which fit have made is sound: no lease owns a port with an end, each lease is
/// live at the last moment, and no end is older than 120 seconds. Each record that fits keeps this.
pub fn states_are_sound()
    ensures made { RecordsReach }
    ensures kept { ReachedIsKept }
{}

/// The same of records of the first format; they make no end and tell no address.
pub fn first_states_are_sound()
    ensures made { FirstRecordsReach }
    ensures kept { FirstReachedIsKept }
{}

/// At each moment each external port has one owner.
pub fn ports_have_one_owner()
    ensures { PortsHaveOneOwner }
{}

/// Whether a record leaves a sound state sound, its table alone decides.
pub fn tables_decide()
    ensures { TablesDecide }
{}

/// A sound table stays sound under an allowed change exactly where it has room for it, and so a record
/// fits after a sound state exactly where it suits it, in both formats.
pub fn new_leases_need_room()
    ensures sound { RoomDecides }
    ensures fits { SuitingFits }
    ensures fits_first { SuitingFitsFirst }
{}

/// Which ends there are at a moment.
pub fn ends_at_a_moment()
    ensures { EndsAtAMoment }
{}

/// A port rests for one endpoint at most, and only while no live lease owns it. By the ends that a
/// record leaves the ports rest at its moment.
pub fn ports_rest_for_one()
    ensures one { PortsRestForOne }
    ensures unowned { RestingIsUnowned }
    ensures marked { MarksTellRests }
{}

/// What ended by a moment may leave in steps: by an earlier moment, and then by this one; and before a
/// record, which then changes the ends by itself alone.
pub fn ends_come_in_steps()
    ensures later { EndsComeInSteps }
    ensures recorded { RecordsComeLast }
{}

/// The records of a snapshot fit, and they stand for the state that it was made of.
pub fn snapshots_stand()
    ensures { SnapshotsStand }
{}
