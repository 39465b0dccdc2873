//! Why the leases aren't told.
use pcp_base::Memory;
use std::alloc::{AllocError, AllocFailed};

/// Why the leases aren't told.
#[derive(Clone, Copy, Debug, PartialEq, Eq)]
pub enum WatchFault {
    /// The journal of the external address with this index can't be read.
    File(u32),
    /// The sink failed, and counted that.
    Write,
    /// No memory was found.
    Memory,
}

impl From<Memory> for WatchFault {
    ghost use Rattle.std.specs.Prelude.{◌≡◌};
    ghost use Rattle.watch_runs.specs.declared.faults.WatchFault.TheVariants.{Memory};

    ghost from_gives = { λ _ fault. fault ≡ Memory };

    fn from(_starved: Memory) -> WatchFault {
        WatchFault::Memory
    }
}

impl From<AllocError> for WatchFault {
    ghost use Rattle.std.specs.Prelude.{◌≡◌};
    ghost use Rattle.watch_runs.specs.declared.faults.WatchFault.TheVariants.{Memory};

    ghost from_gives = { λ _ fault. fault ≡ Memory };

    fn from(_starved: AllocError) -> WatchFault {
        WatchFault::Memory
    }
}

impl<T: Drop> From<AllocFailed<T>> for WatchFault {
    ghost use Rattle.std.specs.Prelude.{◌≡◌};
    ghost use Rattle.watch_runs.specs.declared.faults.WatchFault.TheVariants.{Memory};

    ghost from_gives = { λ _ fault. fault ≡ Memory };

    fn from(_starved: AllocFailed<T>) -> WatchFault {
        WatchFault::Memory
    }
}
