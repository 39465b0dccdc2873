//! Appending to the side that counts.
ghost use Rattle.std.specs.Prelude.{◌≡◌, ◌+◌, ◌<◌, ◌≤◌, ◌^◌, List, length, OnOk, IsErr, max};
ghost use Rattle.pcp_base.specs.declared.records.Record.{Record};
ghost use Rattle.pcp_base.specs.Apply.{apply_all};
ghost use Rattle.pcp_base.specs.Fits.{AllFit};
ghost use Rattle.pcp_base.specs.States.{State};
ghost use Rattle.lease_disk.specs.Pairs.{PairHasCause, PairIsQuiet, PairLeavesOnly};
ghost use Rattle.journal_sides.specs.declared.formats.Format.TheVariants.{Second};
ghost use Rattle.journal_sides.specs.declared.walks.Standing.{Standing};
ghost use Rattle.journal_sides.specs.Journals.{StandsForWithOrWithout};
ghost use Rattle.journal_sides.specs.Settled.{IsSettledBy, with_frame};
ghost use Rattle.journal_sides.specs.Shut.{AreAppended};
ghost use Rattle.journal_sides.specs.Writes.{of_side, other};

use crate::writes::write_side;
use journal_sides::Side;
use lease_disk::{DiskPair, LeaseDisk};
use pcp_base::Failed;

/// Writes frames behind the closed gate at this place of the side that counts, all of them but the
/// first behind a gate that is open already, and opens the gate.
pub(crate) fn put_frames<D: LeaseDisk>(
    pair: &mut DiskPair<D>,
    side: Side,
    end: u64,
    frames: &[u8],
) -> Result<(), Failed>
    requires { end < 2 ^ 62 }
    ensures moments { D.tells → (standing : Standing) (s : State) (batch : List Record)
        → IsSettledBy D.seen D.may_leave side standing pair.old s
        → standing.format ≡ Second → end ≡ standing.end → AllFit s batch
        → AreAppended batch frames.now
        → PairLeavesOnly D.moment D.left_since D.may_leave pair.old pair.new
        (StandsForWithOrWithout s batch) }
    ensures settled { D.tells → (standing : Standing) (s : State) (batch : List Record)
        → IsSettledBy D.seen D.may_leave side standing pair.old s
        → standing.format ≡ Second → end ≡ standing.end → AllFit s batch
        → AreAppended batch frames.now
        → OnOk result (IsSettledBy D.seen D.may_leave side
        (with_frame standing (length frames.now)) pair.new (apply_all s batch)) }
    ensures beside { D.tells → OnOk result
        (of_side (other side) (D.seen pair.new.a) (D.seen pair.new.b)
        ≡ of_side (other side) (D.seen pair.old.a) (D.seen pair.old.b)) }
    ensures most { OnOk result (end + 1 + length frames.now ≤ 2 ^ 62) }
    ensures cause { PairHasCause D.faults pair.old pair.new (IsErr result) }
    ensures quiet { OnOk result (PairIsQuiet D.faults pair.old pair.new) }
{
    write_side(pair, side, end + 1, frames)?;
    write_side(pair, side, end, &[1])?;
    Ok(())
}
