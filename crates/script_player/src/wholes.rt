//! A source that is read whole.
ghost use Rattle.std.specs.Prelude.{◌≡◌, ◌≤◌, Err, IfErr, IfOk};
ghost use Rattle.pcp_io.specs.Faults.{HasRisen};
ghost use Rattle.script_player.specs.Wholes.{ReadsWhole, StopsWhole};
ghost use Rattle.script_player.specs.declared.wholes.WholeFault.TheVariants.{Read};

use crate::readers::PIECE;
use pcp_base::Failed;
use pcp_io::Source;
use std::alloc::{AllocError, Global};

/// Why a source wasn't read whole.
#[derive(Clone, Copy, Debug, PartialEq, Eq)]
pub enum WholeFault {
    /// It has more octets than may be.
    TooLong,
    /// It failed, and counted that.
    Read,
    /// No memory was found.
    Memory,
}

impl From<Failed> for WholeFault {
    ghost use Rattle.std.specs.Prelude.{◌≡◌};
    ghost use Rattle.script_player.specs.declared.wholes.WholeFault.TheVariants.{Read};

    ghost from_gives = { λ _ fault. fault ≡ Read };

    fn from(_failed: Failed) -> WholeFault {
        WholeFault::Read
    }
}

impl From<AllocError> for WholeFault {
    ghost use Rattle.std.specs.Prelude.{◌≡◌};
    ghost use Rattle.script_player.specs.declared.wholes.WholeFault.TheVariants.{Memory};

    ghost from_gives = { λ _ fault. fault ≡ Memory };

    fn from(_starved: AllocError) -> WholeFault {
        WholeFault::Memory
    }
}

/// Reads a source to its end, or until it gave more than `most` octets, in pieces of 4,096.
/// `TooLong` exactly where it has more, unless it fails or memory runs out before.
pub fn read_whole<S: Source>(
    alloc: Global,
    input: &mut S,
    most: usize,
) -> Result<Vec<u8>, WholeFault>
    ensures whole { IfOk result
        (λ text. ReadsWhole most (S.left input.old) (S.left input.new) text.items) }
    ensures stops { IfErr result (StopsWhole most (S.left input.old) (S.left input.new)) }
    ensures cause { result ≡ Err Read → HasRisen (S.faults input.old) (S.faults input.new) }
    ensures later { S.faults input.old ≤ S.faults input.new }
{
    let mut text = Vec::new(alloc);
    let mut piece = [0; PIECE];
    loop {
        let count = input.read(&mut piece)?;
        if count == 0 {
            return Ok(text);
        }
        if count > most - text.len() {
            return Err(WholeFault::TooLong);
        }
        text.extend_from_slice(&piece[..count])?;
    }
}
