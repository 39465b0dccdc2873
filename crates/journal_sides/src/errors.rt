//! Why a call on a journal had no result.
use pcp_base::{Failed, Memory};
use thiserror::Error;

/// Why a call on a journal had no result.
#[derive(Clone, Copy, Debug, PartialEq, Eq, Error)]
pub enum JournalFault {
    /// A call of a disk of the pair failed, which that disk counted.
    #[error("a disk failed")]
    Disk,
    /// No memory was found.
    #[error("out of memory")]
    Memory,
}

impl From<Failed> for JournalFault {
    ghost use Rattle.std.specs.Prelude.{◌≡◌};
    ghost use Rattle.journal_sides.specs.declared.errors.JournalFault.TheVariants.{Disk};

    ghost from_gives = { λ _ fault. fault ≡ Disk };

    fn from(_failed: Failed) -> JournalFault {
        JournalFault::Disk
    }
}

impl From<Memory> for JournalFault {
    ghost use Rattle.std.specs.Prelude.{◌≡◌};
    ghost use Rattle.journal_sides.specs.declared.errors.JournalFault.TheVariants.{Memory};

    ghost from_gives = { λ _ fault. fault ≡ Memory };

    fn from(_memory: Memory) -> JournalFault {
        JournalFault::Memory
    }
}
