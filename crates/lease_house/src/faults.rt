//! Why a call of a house had no result.
use lease_disk::DiskPair;
use pcp_base::Memory;
use thiserror::Error;

/// Why a call of a house had no result.
#[derive(Clone, Copy, Debug, PartialEq, Eq, Error)]
pub enum HouseFault {
    /// A call of a disk of the external address with this index failed, which that disk counted.
    #[error("a disk of shard {0} failed")]
    Disk(u32),
    /// No memory was found.
    #[error("out of memory")]
    Memory,
}

impl From<Memory> for HouseFault {
    ghost use Rattle.std.specs.Prelude.{◌≡◌};
    ghost use Rattle.lease_house.specs.declared.faults.HouseFault.TheVariants.{Memory};

    ghost from_gives = { λ _ fault. fault ≡ Memory };

    fn from(_memory: Memory) -> HouseFault {
        HouseFault::Memory
    }
}

/// An opening that failed, with the pairs that it was handed, in their order.
#[derive(Drop)]
pub struct Unbegun<D> {
    pub fault: HouseFault,
    pub disks: Vec<DiskPair<D>>,
}
