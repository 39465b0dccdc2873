//! Letting one side take over from the other.
ghost use Rattle.std.specs.Prelude.{◌≡◌, ◌<◌, ◌≤◌, ◌^◌, ℕ, [], ◌∷◌, get_or, length, IfOk, OnOk, IsErr};
ghost use Rattle.pcp_base.specs.States.{State};
ghost use Rattle.lease_disk.specs.Pairs.{PairHasCause, PairIsQuiet, PairLeavesOnly};
ghost use Rattle.journal_sides.specs.declared.formats.Format.TheVariants.{Second};
ghost use Rattle.journal_sides.specs.declared.walks.Standing.{Standing};
ghost use Rattle.lease_journal.specs.Compactions.{TakesOver};
ghost use Rattle.journal_sides.specs.Journals.{StandsFor};
ghost use Rattle.journal_sides.specs.Settled.{IsSettledBy};
ghost use Rattle.journal_sides.specs.Sides.{IsOpenSide};
ghost use Rattle.journal_sides.specs.Writes.{of_side, other, side_parity};

use crate::openings::begin_side;
use crate::writes::{cut_side, write_side};
use journal_sides::Side;
use lease_disk::{DiskPair, LeaseDisk};
use pcp_base::Failed;

/// Shuts an open side beside the one that counts, and cuts it to its gate.
fn retire_side<D: LeaseDisk>(pair: &mut DiskPair<D>, side: Side) -> Result<(), Failed>
    ensures moments { D.tells → (standing : Standing) (s : State)
        → IsSettledBy D.seen D.may_leave (other side) standing pair.old s
        → get_or (of_side side (D.seen pair.old.a) (D.seen pair.old.b)) 0 0 ≡ 1
        → PairLeavesOnly D.moment D.left_since D.may_leave pair.old pair.new (StandsFor s) }
    ensures settled { D.tells → (standing : Standing) (s : State)
        → IsSettledBy D.seen D.may_leave (other side) standing pair.old s
        → OnOk result (IsSettledBy D.seen D.may_leave (other side) standing pair.new s) }
    ensures cut { D.tells → OnOk result
        (of_side side (D.seen pair.new.a) (D.seen pair.new.b) ≡ 0 ∷ []) }
    ensures beside { D.tells → OnOk result
        (of_side (other side) (D.seen pair.new.a) (D.seen pair.new.b)
        ≡ of_side (other side) (D.seen pair.old.a) (D.seen pair.old.b)) }
    ensures cause { PairHasCause D.faults pair.old pair.new (IsErr result) }
    ensures quiet { OnOk result (PairIsQuiet D.faults pair.old pair.new) }
{
    write_side(pair, side, 0, &[0])?;
    cut_side(pair, side, 1)
}

/// Writes the other side, behind its gate this text, and opens it; then shuts the side that
/// counted. Says how many octets the other side has then.
pub(crate) fn take_over<D: LeaseDisk>(
    pair: &mut DiskPair<D>,
    side: Side,
    text: &[u8],
) -> Result<u64, Failed>
    ensures moments { D.tells → (standing : Standing) (s : State) (generation : ℕ)
        → IsSettledBy D.seen D.may_leave side standing pair.old s
        → TakesOver side standing.generation generation s text.now
        → PairLeavesOnly D.moment D.left_since D.may_leave pair.old pair.new (StandsFor s) }
    ensures settled { D.tells → (standing : Standing) (s : State) (generation : ℕ)
        → IsSettledBy D.seen D.may_leave side standing pair.old s
        → TakesOver side standing.generation generation s text.now
        → IfOk result
        (λ size. IsSettledBy D.seen D.may_leave (other side)
        (record {
          format = Second;
          generation = generation;
          end = length text.now;
          length = size;
        }) pair.new s) }
    ensures filled { D.tells → (standing : Standing) (s : State) (generation : ℕ)
        → IsSettledBy D.seen D.may_leave side standing pair.old s
        → (over : TakesOver side standing.generation generation s text.now)
        → OnOk result (IsOpenSide Second (side_parity (other side))
        (of_side (other side) (D.seen pair.new.a) (D.seen pair.new.b)) generation
        over.batches) }
    ensures cut { D.tells → OnOk result
        (of_side side (D.seen pair.new.a) (D.seen pair.new.b) ≡ 0 ∷ []) }
    ensures most { IfOk result (λ size. size ≤ 2 ^ 62) }
    ensures within { OnOk result (length text.now < 2 ^ 62) }
    ensures cause { PairHasCause D.faults pair.old pair.new (IsErr result) }
    ensures quiet { OnOk result (PairIsQuiet D.faults pair.old pair.new) }
{
    let size = begin_side(pair, side.other(), text)?;
    retire_side(pair, side)?;
    Ok(size)
}
