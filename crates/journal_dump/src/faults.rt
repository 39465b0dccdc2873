//! Why there is no whole dump.
use pcp_base::Memory;
use std::alloc::{AllocError, AllocFailed};

/// Why there is no whole dump.
#[derive(Clone, Copy, Debug, PartialEq, Eq)]
pub enum DumpFault {
    /// A disk of this pair failed, and counted that. Pairs are numbered from 0.
    Disk(u32),
    /// The sink failed, and counted that.
    Write,
    /// No memory was found.
    Memory,
}

impl From<Memory> for DumpFault {
    ghost use Rattle.std.specs.Prelude.{◌≡◌};
    ghost use Rattle.journal_dump.specs.declared.faults.DumpFault.TheVariants.{Memory};

    ghost from_gives = { λ _ fault. fault ≡ Memory };

    fn from(_starved: Memory) -> DumpFault {
        DumpFault::Memory
    }
}

impl From<AllocError> for DumpFault {
    ghost use Rattle.std.specs.Prelude.{◌≡◌};
    ghost use Rattle.journal_dump.specs.declared.faults.DumpFault.TheVariants.{Memory};

    ghost from_gives = { λ _ fault. fault ≡ Memory };

    fn from(_starved: AllocError) -> DumpFault {
        DumpFault::Memory
    }
}

impl<T: Drop> From<AllocFailed<T>> for DumpFault {
    ghost use Rattle.std.specs.Prelude.{◌≡◌};
    ghost use Rattle.journal_dump.specs.declared.faults.DumpFault.TheVariants.{Memory};

    ghost from_gives = { λ _ fault. fault ≡ Memory };

    fn from(_starved: AllocFailed<T>) -> DumpFault {
        DumpFault::Memory
    }
}
