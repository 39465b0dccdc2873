//! Why a line has no result.
ghost use Rattle.std.specs.Prelude.{◌≡◌};
ghost use Rattle.house_lines.specs.Answers.{fault_told};

use lease_house::HouseFault;
use script_player::AnswerFault;

/// A fault of a house, as a player of lines is told.
pub(crate) fn fault_told(fault: HouseFault) -> AnswerFault
    ensures { result ≡ fault_told fault }
{
    match fault {
        HouseFault::Disk(place) => AnswerFault::Disk(place),
        HouseFault::Memory => AnswerFault::Memory,
    }
}
