//! Judging both sides of a journal.
ghost use Rattle.std.specs.Prelude.{◌≡◌, ◌≤◌, Err, length, IfOk};
ghost use Rattle.pcp_io.specs.Faults.{HasRisen};
ghost use Rattle.lease_disk.specs.Pairs.{PairHasCause, PairIsQuiet};
ghost use Rattle.journal_sides.specs.declared.errors.JournalFault.TheVariants.{Disk};
ghost use Rattle.journal_sides.specs.Quiet.{UnlessDisk};
ghost use Rattle.journal_sides.specs.Reads.{ArePairRead, AreSeenStill};
ghost use Rattle.journal_sides.specs.Verdicts.{AreFound, IsFoundBegun, IsFoundInReach, IsFoundReplaying, IsFoundWithNext};

use crate::errors::JournalFault;
use crate::sides::Side;
use crate::walks::{Judged, Standing, judge_side};
use lease_disk::{DiskPair, LeaseDisk};
use pcp_base::{Memory, Replay};
use std::alloc::Global;

/// What both sides are.
#[derive(Clone, Copy, Debug, PartialEq, Eq)]
pub enum Verdict {
    /// this side counts
    Counting(Side, Standing),
    /// both are closed
    Neither,
    /// an open one isn't in the grammar
    Broken(Judged, Judged),
}

/// How many octets of a side are read at a time.
const PIECE: usize = 65536;

/// A piece of so many octets.
fn piece_of(alloc: Global, size: usize) -> Result<Vec<u8>, Memory>
    ensures { IfOk result (λ piece. length piece.items ≡ size) }
{
    Ok(vec![in alloc; 0; size]?)
}

/// Reads both sides, and lets the replay hold the records of the one that counts.
pub fn judge<D: LeaseDisk, R: Replay>(
    alloc: Global,
    pair: &mut DiskPair<D>,
    replay: &mut R,
) -> Result<Verdict, JournalFault>
    ensures found { D.tells → IfOk result
        (AreFound (D.seen pair.old.a) (D.seen pair.old.b) (R.state replay.new)) }
    ensures reach { IfOk result IsFoundInReach }
    ensures next { IfOk result IsFoundWithNext }
    ensures begun { IfOk result (λ verdict. IsFoundBegun verdict (R.state replay.new)) }
    ensures ready { IfOk result (IsFoundReplaying R.replaying R.replaying_first replay.new) }
    ensures read { ArePairRead D.moment D.left_since D.may_leave pair.old pair.new }
    ensures seen { D.tells → AreSeenStill D.seen pair.old pair.new }
    ensures cause { PairHasCause D.faults pair.old pair.new (result ≡ Err Disk) }
    ensures quiet { UnlessDisk result (PairIsQuiet D.faults pair.old pair.new) }
    ensures lasting { R.lasting replay.new ≡ R.lasting replay.old }
{
    let mut buffer = piece_of(alloc, PIECE)?;
    let a = judge_side(alloc, Side::A, &mut pair.a, &mut buffer, replay)?;
    let b = judge_side(alloc, Side::B, &mut pair.b, &mut buffer, replay)?;
    match (a, b) {
        (Judged::Closed, Judged::Closed) => Ok(Verdict::Neither),
        (Judged::Good(standing), Judged::Closed) => Ok(Verdict::Counting(Side::A, standing)),
        (Judged::Closed, Judged::Good(standing)) => Ok(Verdict::Counting(Side::B, standing)),
        (Judged::Good(x), Judged::Good(y)) if x.generation < y.generation => {
            Ok(Verdict::Counting(Side::B, y))
        }
        (Judged::Good(_), Judged::Good(_)) => {
            match judge_side(alloc, Side::A, &mut pair.a, &mut buffer, replay)? {
                Judged::Good(standing) => Ok(Verdict::Counting(Side::A, standing)),
                other => Ok(Verdict::Broken(other, b)),
            }
        }
        _ => Ok(Verdict::Broken(a, b)),
    }
}
