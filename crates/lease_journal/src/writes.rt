//! Writing to a side, durably.
ghost use Rattle.std.specs.Prelude.{◌≡◌, ◌+◌, ◌^◌, ◌≤◌, length, take, OnOk, IsErr};
ghost use Rattle.pcp_io.specs.Faults.{HasCause};
ghost use Rattle.lease_disk.specs.Contents.{after_write};
ghost use Rattle.lease_disk.specs.Images.{CutOrNot, Only, Torn};
ghost use Rattle.lease_disk.specs.Moments.{LeavesOnly};
ghost use Rattle.lease_disk.specs.Pairs.{PairHasCause, PairIsQuiet, PairLeavesOnly};
ghost use Rattle.journal_sides.specs.Writes.{AreDurable, ChangesSide};

use journal_sides::Side;
use lease_disk::{DiskPair, LeaseDisk};
use pcp_base::Failed;

/// Writes the piece at this place and syncs.
fn write_durably<D: LeaseDisk>(disk: &mut D, place: u64, piece: &[u8]) -> Result<(), Failed>
    ensures moments { Only (D.seen disk.old) (D.may_leave disk.old)
        → LeavesOnly D.moment D.left_since disk.old disk.new
        (Torn place (length piece.now) (D.seen disk.old)) }
    ensures written { D.tells → OnOk result
        (D.seen disk.new ≡ after_write (D.seen disk.old) place piece.now) }
    ensures durable { OnOk result (Only (D.seen disk.new) (D.may_leave disk.new)) }
    ensures most { OnOk result (place + length piece.now ≤ 2 ^ 62) }
    ensures cause { HasCause (D.faults disk.old) (D.faults disk.new) result }
    ensures quiet { OnOk result (D.faults disk.new ≡ D.faults disk.old) }
{
    disk.write_at(place, piece)?;
    disk.sync()?;
    Ok(())
}

/// Cuts the octets to this length and syncs.
fn cut_durably<D: LeaseDisk>(disk: &mut D, size: u64) -> Result<(), Failed>
    ensures moments { Only (D.seen disk.old) (D.may_leave disk.old)
        → LeavesOnly D.moment D.left_since disk.old disk.new
        (CutOrNot size (D.seen disk.old)) }
    ensures cut { D.tells → OnOk result (D.seen disk.new ≡ take size (D.seen disk.old)) }
    ensures durable { OnOk result (Only (D.seen disk.new) (D.may_leave disk.new)) }
    ensures cause { HasCause (D.faults disk.old) (D.faults disk.new) result }
    ensures quiet { OnOk result (D.faults disk.new ≡ D.faults disk.old) }
{
    disk.cut(size)?;
    disk.sync()
}

/// Writes the piece at this place of a side and syncs it.
pub(crate) fn write_side<D: LeaseDisk>(
    pair: &mut DiskPair<D>,
    side: Side,
    place: u64,
    piece: &[u8],
) -> Result<(), Failed>
    ensures moments { AreDurable D.seen D.may_leave pair.old
        → PairLeavesOnly D.moment D.left_since D.may_leave pair.old pair.new
        (ChangesSide side (Torn place (length piece.now))
        (D.seen pair.old.a) (D.seen pair.old.b)) }
    ensures written { D.tells → OnOk result
        (ChangesSide side (λ old new. new ≡ after_write old place piece.now)
        (D.seen pair.old.a) (D.seen pair.old.b) (D.seen pair.new.a) (D.seen pair.new.b)) }
    ensures durable { AreDurable D.seen D.may_leave pair.old
        → OnOk result (AreDurable D.seen D.may_leave pair.new) }
    ensures most { OnOk result (place + length piece.now ≤ 2 ^ 62) }
    ensures cause { PairHasCause D.faults pair.old pair.new (IsErr result) }
    ensures quiet { OnOk result (PairIsQuiet D.faults pair.old pair.new) }
{
    match side {
        Side::A => write_durably(&mut pair.a, place, piece),
        Side::B => write_durably(&mut pair.b, place, piece),
    }
}

/// Cuts a side to this length and syncs it.
pub(crate) fn cut_side<D: LeaseDisk>(
    pair: &mut DiskPair<D>,
    side: Side,
    size: u64,
) -> Result<(), Failed>
    ensures moments { AreDurable D.seen D.may_leave pair.old
        → PairLeavesOnly D.moment D.left_since D.may_leave pair.old pair.new
        (ChangesSide side (CutOrNot size) (D.seen pair.old.a) (D.seen pair.old.b)) }
    ensures cut { D.tells → OnOk result
        (ChangesSide side (λ old new. new ≡ take size old)
        (D.seen pair.old.a) (D.seen pair.old.b) (D.seen pair.new.a) (D.seen pair.new.b)) }
    ensures durable { AreDurable D.seen D.may_leave pair.old
        → OnOk result (AreDurable D.seen D.may_leave pair.new) }
    ensures cause { PairHasCause D.faults pair.old pair.new (IsErr result) }
    ensures quiet { OnOk result (PairIsQuiet D.faults pair.old pair.new) }
{
    match side {
        Side::A => cut_durably(&mut pair.a, size),
        Side::B => cut_durably(&mut pair.b, size),
    }
}
