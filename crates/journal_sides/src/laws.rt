//! What two sides stand for. A proof that needs a law calls its function.
ghost use Rattle.journal_sides.specs.Laws.{OneReading, OneState, RecoveredAlone, BlankIsWhole, OctetsTellFormats, FirstHasNext, FirstStandsBare, StandingIsReached, StandingHasSnapshot};

use pcp_base::{first_states_are_sound, snapshots_stand, states_are_sound};

/// Two sides stand for one list of records in one format at most, and then they are neither blank
/// nor damaged. Nor are blank ones damaged.
pub fn one_journal()
    ensures one { OneReading }
    ensures state { OneState }
    ensures alone { RecoveredAlone }
    ensures apart { BlankIsWhole }
{}

/// Octet 5 of a side tells its format. One of the first format has a next generation, and stands
/// for a state with no ends and no address.
pub fn formats_differ()
    ensures octet { OctetsTellFormats }
    ensures next { FirstHasNext }
    ensures first { FirstStandsBare }
{
    first_states_are_sound();
}

/// What a journal of either format stands for has a snapshot, which may take over.
pub fn snapshots_take_over()
    ensures reached { StandingIsReached }
    ensures stands { StandingHasSnapshot }
{
    states_are_sound();
    first_states_are_sound();
    snapshots_stand();
}
