//! What holds of the lines of a script. A proof that needs a law calls its function.
ghost use Rattle.house_lines.specs.LineLaws.{HousesAreOfEntries, LinesAreCalls, LinesMakeHistories};

use lease_histories::calls_make_histories;

/// Lines do to a house what their datagrams and losses do. The entries of these are a history of
/// the house: of each external address they are legal, and the base told is the greatest so far.
/// Each house along the lines is that after some first ones of them: the state of each external
/// address is that of their entries.
pub fn lines_make_histories()
    ensures calls { LinesAreCalls }
    ensures histories { LinesMakeHistories }
    ensures states { HousesAreOfEntries }
{
    calls_make_histories();
}
