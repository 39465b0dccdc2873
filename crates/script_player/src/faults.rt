//! Why a run ends before its script does.
use crate::answerers::AnswerFault;
use pcp_base::Memory;
use pcp_script::LineRefused;
use std::alloc::AllocFailed;

/// Why a line wasn't read, or has no result, or not the whole of it.
#[derive(Clone, Copy, Debug, PartialEq, Eq)]
pub(crate) enum LineFault {
    /// The source failed, and counted that.
    Read,
    /// There is no such line of a script.
    NotLine,
    /// The sink failed, and counted that.
    Write,
    /// A disk of this shard failed, and counted that.
    Disk(u32),
    /// No memory was found.
    Memory,
}

impl From<LineRefused> for LineFault {
    ghost use Rattle.std.specs.Prelude.{◌≡◌};
    ghost use Rattle.script_player.specs.Playing.{fault_of_line};

    ghost from_gives = { λ refused fault. fault ≡ fault_of_line refused };

    fn from(refused: LineRefused) -> LineFault {
        match refused {
            LineRefused::NotLine => LineFault::NotLine,
            LineRefused::Memory => LineFault::Memory,
        }
    }
}

impl From<AnswerFault> for LineFault {
    ghost use Rattle.std.specs.Prelude.{◌≡◌};
    ghost use Rattle.script_player.specs.Playing.{fault_of_answer};

    ghost from_gives = { λ told fault. fault ≡ fault_of_answer told };

    fn from(told: AnswerFault) -> LineFault {
        match told {
            AnswerFault::Disk(shard) => LineFault::Disk(shard),
            AnswerFault::Memory => LineFault::Memory,
        }
    }
}

impl From<Memory> for LineFault {
    ghost use Rattle.std.specs.Prelude.{◌≡◌};
    ghost use Rattle.script_player.specs.declared.faults.LineFault.TheVariants.{Memory};

    ghost from_gives = { λ _ fault. fault ≡ Memory };

    fn from(_starved: Memory) -> LineFault {
        LineFault::Memory
    }
}

impl From<AllocFailed<u8>> for LineFault {
    ghost use Rattle.std.specs.Prelude.{◌≡◌};
    ghost use Rattle.script_player.specs.declared.faults.LineFault.TheVariants.{Memory};

    ghost from_gives = { λ _ fault. fault ≡ Memory };

    fn from(_starved: AllocFailed<u8>) -> LineFault {
        LineFault::Memory
    }
}
