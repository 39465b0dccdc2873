//! Opening a journal: both sides are synced and read, and where no records are found it starts.
ghost use Rattle.std.specs.Prelude.{◌≡◌, ◌⊎◌, ◌<◌, ◌≤◌, ◌^◌, ℕ, List, [], ◌∷◌, ◌++◌, length, true, Err, IfOk, OnOk, IsErr};
ghost use Rattle.pcp_io.specs.Faults.{HasCause};
ghost use Rattle.pcp_base.specs.declared.records.Record.{Record};
ghost use Rattle.pcp_base.specs.Records.{IsWellFormedRecord};
ghost use Rattle.lease_disk.specs.Pairs.{PairHasCause, PairIsQuiet, PairLeavesOnly};
ghost use Rattle.journal_sides.specs.declared.errors.JournalFault.TheVariants.{Disk};
ghost use Rattle.journal_sides.specs.declared.formats.Format.TheVariants.{Second};
ghost use Rattle.journal_sides.specs.declared.sides.Side.TheVariants.{A};
ghost use Rattle.lease_journal.specs.Beginnings.{GateMeans, IsBegun, IsPrepared, MayBegin, MayShut};
ghost use Rattle.journal_sides.specs.Formats.{HasNext, IsReplaying};
ghost use Rattle.journal_sides.specs.Journals.{IsBlank, IsDamaged, IsStarting, IsStartingAnew, fresh_state};
ghost use Rattle.journal_sides.specs.Judging.{IsSideJudged};
ghost use Rattle.lease_journal.specs.Openings.{FoundMeans, HasStarted, IsNew, IsShutAnew, IsStillOrShut, LeavesOld, MayOpen, Opens};
ghost use Rattle.journal_sides.specs.Quiet.{UnlessDisk};
ghost use Rattle.journal_sides.specs.Reads.{ArePairRead, AreSeenStill, IsRead};
ghost use Rattle.journal_sides.specs.Settled.{IsSettledBy, IsInReach};
ghost use Rattle.journal_sides.specs.Shut.{IsHidden, IsShut, hidden_text};
ghost use Rattle.journal_sides.specs.Sides.{AreBatches, IsClosedSide};
ghost use Rattle.journal_sides.specs.Verdicts.{AreBroken, AreFound, IsFoundBegun, IsFoundInReach, IsFoundReplaying, IsFoundWithNext};
ghost use Rattle.journal_sides.specs.Writes.{AreDurable, ChangesSide, of_side, side_parity};

use crate::errors::Found;
use crate::writes::write_side;
use journal_sides::{
    Format, JournalFault, Judged, Side, Standing, Verdict, fill, hidden_of, judge, texts_of,
};
use lease_disk::{DiskPair, LeaseDisk};
use pcp_base::{Change, Failed, Memory, Moment, Record, Replay};
use std::alloc::Global;

/// How many octets a side has, and whether a gate that isn't open stands in front.
#[derive(Clone, Copy, Debug, PartialEq, Eq)]
struct Front {
    size: u64,
    is_shut: bool,
}

/// What stands in front of a disk.
fn front_of<D: LeaseDisk>(disk: &mut D) -> Result<Front, Failed>
    ensures size { D.tells → IfOk result (λ front. front.size ≡ length (D.seen disk.old)) }
    ensures gate { D.tells → IfOk result (λ front. GateMeans (D.seen disk.old) front.is_shut) }
    ensures most { IfOk result (λ front. front.size ≤ 2 ^ 62) }
    ensures read { IsRead D.moment D.left_since D.may_leave disk.old disk.new }
    ensures seen { D.tells → D.seen disk.new ≡ D.seen disk.old }
    ensures cause { HasCause (D.faults disk.old) (D.faults disk.new) result }
    ensures quiet { OnOk result (D.faults disk.new ≡ D.faults disk.old) }
{
    let size = disk.len()?;
    let mut gate = [0];
    let count = fill(disk, 0, &mut gate)?;
    if count == 0 {
        return Ok(Front {
            size,
            is_shut: false,
        });
    }
    Ok(Front {
        size,
        is_shut: gate[0] != 1,
    })
}

/// What stands in front of a side.
fn front_of_side<D: LeaseDisk>(pair: &mut DiskPair<D>, side: Side) -> Result<Front, Failed>
    ensures size { D.tells → IfOk result
        (λ front. front.size ≡ length (of_side side (D.seen pair.old.a) (D.seen pair.old.b))) }
    ensures gate { D.tells → IfOk result
        (λ front. GateMeans (of_side side (D.seen pair.old.a) (D.seen pair.old.b))
        front.is_shut) }
    ensures most { IfOk result (λ front. front.size ≤ 2 ^ 62) }
    ensures read { ArePairRead D.moment D.left_since D.may_leave pair.old pair.new }
    ensures seen { D.tells → AreSeenStill D.seen pair.old pair.new }
    ensures cause { PairHasCause D.faults pair.old pair.new (IsErr result) }
    ensures quiet { OnOk result (PairIsQuiet D.faults pair.old pair.new) }
{
    match side {
        Side::A => front_of(&mut pair.a),
        Side::B => front_of(&mut pair.b),
    }
}

/// Writes the octet behind a gate that isn't open, on a side of this size, and says how many octets
/// it has then. The gate's sector goes to the disk with it, and whatever a crash leaves of that
/// octet, the side stays shut.
fn shut_again<D: LeaseDisk>(pair: &mut DiskPair<D>, side: Side, size: u64) -> Result<u64, Failed>
    requires most { size ≤ 2 ^ 62 }
    ensures moments { D.tells → AreDurable D.seen D.may_leave pair.old
        → IsShut (of_side side (D.seen pair.old.a) (D.seen pair.old.b))
        → PairLeavesOnly D.moment D.left_since D.may_leave pair.old pair.new
        (ChangesSide side MayShut (D.seen pair.old.a) (D.seen pair.old.b)) }
    ensures shut { D.tells → IsShut (of_side side (D.seen pair.old.a) (D.seen pair.old.b))
        → size ≡ length (of_side side (D.seen pair.old.a) (D.seen pair.old.b))
        → IfOk result (λ now. IsPrepared side now (D.seen pair.old.a) (D.seen pair.old.b)
        (D.seen pair.new.a) (D.seen pair.new.b)) }
    ensures durable { D.tells → AreDurable D.seen D.may_leave pair.old
        → OnOk result (AreDurable D.seen D.may_leave pair.new) }
    ensures most { IfOk result (λ now. now ≤ 2 ^ 62) }
    ensures cause { PairHasCause D.faults pair.old pair.new (IsErr result) }
    ensures quiet { OnOk result (PairIsQuiet D.faults pair.old pair.new) }
{
    write_side(pair, side, 1, &[0])?;
    Ok(size.max(2))
}

/// Shuts a side in front of which this stands, and says how many octets it has then. Where a gate that
/// isn't open stands there already, the octet behind it is written: what was read of the gate may
/// stand in the system's memory alone.
fn shut_front<D: LeaseDisk>(pair: &mut DiskPair<D>, side: Side, front: Front) -> Result<u64, Failed>
    requires most { front.size ≤ 2 ^ 62 }
    ensures moments { D.tells → AreDurable D.seen D.may_leave pair.old
        → GateMeans (of_side side (D.seen pair.old.a) (D.seen pair.old.b)) front.is_shut
        → PairLeavesOnly D.moment D.left_since D.may_leave pair.old pair.new
        (ChangesSide side MayShut (D.seen pair.old.a) (D.seen pair.old.b)) }
    ensures shut { D.tells
        → GateMeans (of_side side (D.seen pair.old.a) (D.seen pair.old.b)) front.is_shut
        → front.size ≡ length (of_side side (D.seen pair.old.a) (D.seen pair.old.b))
        → IfOk result
        (λ size. IsPrepared side size (D.seen pair.old.a) (D.seen pair.old.b)
        (D.seen pair.new.a) (D.seen pair.new.b)) }
    ensures durable { D.tells → AreDurable D.seen D.may_leave pair.old
        → OnOk result (AreDurable D.seen D.may_leave pair.new) }
    ensures most { IfOk result (λ size. size ≤ 2 ^ 62) }
    ensures cause { PairHasCause D.faults pair.old pair.new (IsErr result) }
    ensures quiet { OnOk result (PairIsQuiet D.faults pair.old pair.new) }
{
    if front.is_shut {
        return shut_again(pair, side, front.size);
    }
    write_side(pair, side, 0, &[0])?;
    Ok(front.size.max(1))
}

/// Shuts a side before it is filled, whatever its gate is, and says how many octets it has then.
fn prepare<D: LeaseDisk>(pair: &mut DiskPair<D>, side: Side) -> Result<u64, Failed>
    ensures moments { D.tells → AreDurable D.seen D.may_leave pair.old
        → PairLeavesOnly D.moment D.left_since D.may_leave pair.old pair.new
        (ChangesSide side MayShut (D.seen pair.old.a) (D.seen pair.old.b)) }
    ensures shut { D.tells → IfOk result
        (λ size. IsPrepared side size (D.seen pair.old.a) (D.seen pair.old.b)
        (D.seen pair.new.a) (D.seen pair.new.b)) }
    ensures durable { D.tells → AreDurable D.seen D.may_leave pair.old
        → OnOk result (AreDurable D.seen D.may_leave pair.new) }
    ensures most { IfOk result (λ size. size ≤ 2 ^ 62) }
    ensures cause { PairHasCause D.faults pair.old pair.new (IsErr result) }
    ensures quiet { OnOk result (PairIsQuiet D.faults pair.old pair.new) }
{
    let front = front_of_side(pair, side)?;
    shut_front(pair, side, front)
}

/// Shuts a side that isn't to be filled, whatever its gate is, where it has octets.
fn shut_beside<D: LeaseDisk>(pair: &mut DiskPair<D>, side: Side) -> Result<(), Failed>
    ensures moments { D.tells → AreDurable D.seen D.may_leave pair.old
        → PairLeavesOnly D.moment D.left_since D.may_leave pair.old pair.new
        (ChangesSide side MayShut (D.seen pair.old.a) (D.seen pair.old.b)) }
    ensures shut { D.tells → OnOk result
        (ChangesSide side IsShutAnew (D.seen pair.old.a) (D.seen pair.old.b)
        (D.seen pair.new.a) (D.seen pair.new.b)) }
    ensures durable { D.tells → AreDurable D.seen D.may_leave pair.old
        → OnOk result (AreDurable D.seen D.may_leave pair.new) }
    ensures cause { PairHasCause D.faults pair.old pair.new (IsErr result) }
    ensures quiet { OnOk result (PairIsQuiet D.faults pair.old pair.new) }
{
    let front = front_of_side(pair, side)?;
    if front.size == 0 {
        return Ok(());
    }
    shut_front(pair, side, front)?;
    Ok(())
}

/// Writes all that stands behind the gate of a side that gives way, and opens it. Says how many
/// octets the side has then.
pub(crate) fn begin_side<D: LeaseDisk>(
    pair: &mut DiskPair<D>,
    side: Side,
    text: &[u8],
) -> Result<u64, Failed>
    ensures moments { D.tells → (generation : ℕ) (batches : List (List Record))
        → AreDurable D.seen D.may_leave pair.old
        → AreBatches Second (side_parity side) generation batches
        → text.now ≡ hidden_text generation batches ++ 0 ∷ []
        → PairLeavesOnly D.moment D.left_since D.may_leave pair.old pair.new
        (ChangesSide side (MayBegin (side_parity side) generation batches)
        (D.seen pair.old.a) (D.seen pair.old.b)) }
    ensures begun { D.tells → (generation : ℕ) (batches : List (List Record))
        → AreDurable D.seen D.may_leave pair.old
        → AreBatches Second (side_parity side) generation batches
        → text.now ≡ hidden_text generation batches ++ 0 ∷ []
        → IfOk result
        (λ size. IsBegun side size generation batches (D.seen pair.old.a)
        (D.seen pair.old.b) (D.seen pair.new.a) (D.seen pair.new.b)) }
    ensures durable { D.tells → AreDurable D.seen D.may_leave pair.old
        → OnOk result (AreDurable D.seen D.may_leave pair.new) }
    ensures most { IfOk result (λ size. size ≤ 2 ^ 62) }
    ensures within { OnOk result (length text.now < 2 ^ 62) }
    ensures cause { PairHasCause D.faults pair.old pair.new (IsErr result) }
    ensures quiet { OnOk result (PairIsQuiet D.faults pair.old pair.new) }
{
    let size = prepare(pair, side)?;
    write_side(pair, side, 1, text)?;
    write_side(pair, side, 0, &[1])?;
    Ok(size.max(1 + text.len() as u64))
}

/// All that stands behind the gate of a side that begins the journal with this record.
fn hidden_start(alloc: Global, start: Record) -> Result<Vec<u8>, Memory>
    requires { IsWellFormedRecord start }
    ensures { IfOk result (λ text. IsHidden 0 (start ∷ []) text.items) }
{
    let texts = texts_of(alloc, &[start])?;
    hidden_of(alloc, 0, &texts)
}

/// Starts a journal at `m` on side a, where both sides are closed.
fn start<D: LeaseDisk, R: Replay>(
    alloc: Global,
    pair: &mut DiskPair<D>,
    m: Moment,
    replay: &mut R,
) -> Result<Standing, JournalFault>
    ensures replayed { OnOk result (R.state replay.new ≡ fresh_state m) }
    ensures ready { OnOk result (R.replaying replay.new) }
    ensures written { IfOk result IsNew }
    ensures moments { D.tells → AreDurable D.seen D.may_leave pair.old
        → IsBlank (D.seen pair.old.a) (D.seen pair.old.b)
        → PairLeavesOnly D.moment D.left_since D.may_leave pair.old pair.new (IsStarting m) }
    ensures settled { D.tells → AreDurable D.seen D.may_leave pair.old
        → IsBlank (D.seen pair.old.a) (D.seen pair.old.b)
        → IfOk result
        (λ standing. IsSettledBy D.seen D.may_leave A standing pair.new (fresh_state m)) }
    ensures left { D.tells → AreDurable D.seen D.may_leave pair.old
        → OnOk result (D.seen pair.new.b ≡ D.seen pair.old.b) }
    ensures reach { IfOk result IsInReach }
    ensures cause { PairHasCause D.faults pair.old pair.new (result ≡ Err Disk) }
    ensures quiet { UnlessDisk result (PairIsQuiet D.faults pair.old pair.new) }
    ensures lasting { R.lasting replay.new ≡ R.lasting replay.old }
{
    let start = Record {
        moment: m,
        change: Change::Start,
    };
    let text = hidden_start(alloc, start)?;
    let length = begin_side(pair, Side::A, &text)?;
    replay.clear();
    let _fits = replay.admit(alloc, &start)?;
    Ok(Standing {
        format: Format::Second,
        generation: 0,
        end: text.len() as u64,
        length,
    })
}

/// Starts a journal at `m` on side a, where both sides are closed: shuts side b first, if it has
/// octets, since what was read of it may stand in the system's memory alone.
fn start_blank<D: LeaseDisk, R: Replay>(
    alloc: Global,
    pair: &mut DiskPair<D>,
    m: Moment,
    replay: &mut R,
) -> Result<Standing, JournalFault>
    ensures replayed { OnOk result (R.state replay.new ≡ fresh_state m) }
    ensures ready { OnOk result (R.replaying replay.new) }
    ensures written { IfOk result IsNew }
    ensures moments { D.tells → AreDurable D.seen D.may_leave pair.old
        → IsBlank (D.seen pair.old.a) (D.seen pair.old.b)
        → PairLeavesOnly D.moment D.left_since D.may_leave pair.old pair.new (IsStarting m) }
    ensures settled { D.tells → AreDurable D.seen D.may_leave pair.old
        → IsBlank (D.seen pair.old.a) (D.seen pair.old.b)
        → IfOk result
        (λ standing. IsSettledBy D.seen D.may_leave A standing pair.new (fresh_state m)) }
    ensures shut { D.tells → AreDurable D.seen D.may_leave pair.old
        → OnOk result (IsShutAnew (D.seen pair.old.b) (D.seen pair.new.b)) }
    ensures reach { IfOk result IsInReach }
    ensures cause { PairHasCause D.faults pair.old pair.new (result ≡ Err Disk) }
    ensures quiet { UnlessDisk result (PairIsQuiet D.faults pair.old pair.new) }
    ensures lasting { R.lasting replay.new ≡ R.lasting replay.old }
{
    shut_beside(pair, Side::B)?;
    start(alloc, pair, m, replay)
}

/// Shuts a side that was judged: an open one, or one that has octets.
fn shut_judged<D: LeaseDisk>(
    pair: &mut DiskPair<D>,
    side: Side,
    judged: Judged,
) -> Result<(), Failed>
    ensures moments { D.tells → AreDurable D.seen D.may_leave pair.old
        → IsSideJudged (side_parity side) (of_side side (D.seen pair.old.a) (D.seen pair.old.b))
        judged
        → PairLeavesOnly D.moment D.left_since D.may_leave pair.old pair.new
        (ChangesSide side MayShut (D.seen pair.old.a) (D.seen pair.old.b)) }
    ensures shut { D.tells
        → IsSideJudged (side_parity side) (of_side side (D.seen pair.old.a) (D.seen pair.old.b))
        judged
        → OnOk result
        (ChangesSide side IsShutAnew (D.seen pair.old.a) (D.seen pair.old.b)
        (D.seen pair.new.a) (D.seen pair.new.b)) }
    ensures durable { D.tells → AreDurable D.seen D.may_leave pair.old
        → OnOk result (AreDurable D.seen D.may_leave pair.new) }
    ensures cause { PairHasCause D.faults pair.old pair.new (IsErr result) }
    ensures quiet { OnOk result (PairIsQuiet D.faults pair.old pair.new) }
{
    if let Judged::Closed = judged {
        return shut_beside(pair, side);
    }
    write_side(pair, side, 0, &[0])
}

/// Shuts each side that is open or has octets: first one in the grammar, then a before b.
fn shut_all<D: LeaseDisk>(pair: &mut DiskPair<D>, a: Judged, b: Judged) -> Result<(), Failed>
    ensures moments { D.tells → AreDurable D.seen D.may_leave pair.old
        → AreBroken (D.seen pair.old.a) (D.seen pair.old.b) a b
        → PairLeavesOnly D.moment D.left_since D.may_leave pair.old pair.new
        (λ x y. IsDamaged x y ⊎ IsBlank x y) }
    ensures blank { D.tells → AreDurable D.seen D.may_leave pair.old
        → AreBroken (D.seen pair.old.a) (D.seen pair.old.b) a b
        → OnOk result (IsBlank (D.seen pair.new.a) (D.seen pair.new.b)) }
    ensures shut { D.tells → AreBroken (D.seen pair.old.a) (D.seen pair.old.b) a b
        → OnOk result (IsShutAnew (D.seen pair.old.b) (D.seen pair.new.b)) }
    ensures durable { D.tells → AreDurable D.seen D.may_leave pair.old
        → OnOk result (AreDurable D.seen D.may_leave pair.new) }
    ensures cause { PairHasCause D.faults pair.old pair.new (IsErr result) }
    ensures quiet { OnOk result (PairIsQuiet D.faults pair.old pair.new) }
{
    match b {
        Judged::Good(_) => {
            shut_judged(pair, Side::B, b)?;
            shut_judged(pair, Side::A, a)
        }
        _ => {
            shut_judged(pair, Side::A, a)?;
            shut_judged(pair, Side::B, b)
        }
    }
}

/// Syncs both sides.
fn sync_both<D: LeaseDisk>(pair: &mut DiskPair<D>) -> Result<(), Failed>
    ensures moments { LeavesOld D.moment D.left_since D.may_leave pair.old pair.new }
    ensures seen { D.tells → OnOk result (AreSeenStill D.seen pair.old pair.new) }
    ensures durable { OnOk result (AreDurable D.seen D.may_leave pair.new) }
    ensures cause { PairHasCause D.faults pair.old pair.new (IsErr result) }
    ensures quiet { OnOk result (PairIsQuiet D.faults pair.old pair.new) }
{
    pair.a.sync()?;
    pair.b.sync()?;
    Ok(())
}

/// Starts a journal at `m` on side a, where an open side isn't in the grammar: shuts both sides first.
fn start_anew<D: LeaseDisk, R: Replay>(
    alloc: Global,
    pair: &mut DiskPair<D>,
    m: Moment,
    replay: &mut R,
    a: Judged,
    b: Judged,
) -> Result<Standing, JournalFault>
    ensures replayed { OnOk result (R.state replay.new ≡ fresh_state m) }
    ensures ready { OnOk result (R.replaying replay.new) }
    ensures written { IfOk result IsNew }
    ensures moments { D.tells → AreDurable D.seen D.may_leave pair.old
        → AreBroken (D.seen pair.old.a) (D.seen pair.old.b) a b
        → PairLeavesOnly D.moment D.left_since D.may_leave pair.old pair.new
        (IsStartingAnew m) }
    ensures settled { D.tells → AreDurable D.seen D.may_leave pair.old
        → AreBroken (D.seen pair.old.a) (D.seen pair.old.b) a b
        → IfOk result
        (λ standing. IsSettledBy D.seen D.may_leave A standing pair.new (fresh_state m)) }
    ensures shut { D.tells → AreDurable D.seen D.may_leave pair.old
        → AreBroken (D.seen pair.old.a) (D.seen pair.old.b) a b
        → OnOk result (IsShutAnew (D.seen pair.old.b) (D.seen pair.new.b)) }
    ensures reach { IfOk result IsInReach }
    ensures cause { PairHasCause D.faults pair.old pair.new (result ≡ Err Disk) }
    ensures quiet { UnlessDisk result (PairIsQuiet D.faults pair.old pair.new) }
    ensures lasting { R.lasting replay.new ≡ R.lasting replay.old }
{
    shut_all(pair, a, b)?;
    start(alloc, pair, m, replay)
}

/// An open journal: the side that counts, what it is, and what was found.
#[derive(Clone, Copy, Debug, PartialEq, Eq)]
pub(crate) struct Opened {
    pub(crate) side: Side,
    pub(crate) standing: Standing,
    pub(crate) found: Found,
}

/// Makes a start at `m` where the sides that were judged are blank or damaged.
fn start_by<D: LeaseDisk, R: Replay>(
    alloc: Global,
    pair: &mut DiskPair<D>,
    m: Moment,
    replay: &mut R,
    verdict: Verdict,
) -> Result<Opened, JournalFault>
    ensures started { IfOk result
        (λ opened. HasStarted m opened.side opened.standing (R.state replay.new) opened.found) }
    ensures found { D.tells
        → AreFound (D.seen pair.old.a) (D.seen pair.old.b) (R.state replay.old) verdict
        → IfOk result
        (λ opened. FoundMeans m (D.seen pair.old.a) (D.seen pair.old.b)
        (R.state replay.new) opened.found) }
    ensures still { D.tells → AreDurable D.seen D.may_leave pair.old
        → AreFound (D.seen pair.old.a) (D.seen pair.old.b) (R.state replay.old) verdict
        → IfOk result
        (λ opened. IsStillOrShut D.seen pair.old pair.new opened.found) }
    ensures settled { D.tells → AreDurable D.seen D.may_leave pair.old
        → AreFound (D.seen pair.old.a) (D.seen pair.old.b) (R.state replay.old) verdict
        → IfOk result
        (λ opened. IsSettledBy D.seen D.may_leave opened.side opened.standing pair.new
        (R.state replay.new)) }
    ensures moments { D.tells → AreDurable D.seen D.may_leave pair.old
        → AreFound (D.seen pair.old.a) (D.seen pair.old.b) (R.state replay.old) verdict
        → PairLeavesOnly D.moment D.left_since D.may_leave pair.old pair.new
        (MayOpen m (D.seen pair.old.a) (D.seen pair.old.b)) }
    ensures reach { IsFoundInReach verdict → IfOk result (λ opened. IsInReach opened.standing) }
    ensures next { IsFoundWithNext verdict
        → IfOk result (λ opened. HasNext opened.standing.format opened.standing.generation) }
    ensures begun { IsFoundBegun verdict (R.state replay.old)
        → OnOk result ((R.state replay.new).started ≡ true) }
    ensures ready { IsFoundReplaying R.replaying R.replaying_first replay.old verdict
        → IfOk result
        (λ opened. IsReplaying opened.standing.format R.replaying R.replaying_first
        replay.new) }
    ensures cause { PairHasCause D.faults pair.old pair.new (result ≡ Err Disk) }
    ensures quiet { UnlessDisk result (PairIsQuiet D.faults pair.old pair.new) }
    ensures lasting { R.lasting replay.new ≡ R.lasting replay.old }
{
    match verdict {
        Verdict::Counting(side, standing) => Ok(Opened {
            side,
            standing,
            found: Found::Recovered,
        }),
        Verdict::Neither => {
            let standing = start_blank(alloc, pair, m, replay)?;
            Ok(Opened {
                side: Side::A,
                standing,
                found: Found::Blank,
            })
        }
        Verdict::Broken(a, b) => {
            let standing = start_anew(alloc, pair, m, replay, a, b)?;
            Ok(Opened {
                side: Side::A,
                standing,
                found: Found::Damaged,
            })
        }
    }
}

/// Syncs both sides, reads them, and makes a start at `m` where they are blank or damaged.
pub(crate) fn open<D: LeaseDisk, R: Replay>(
    alloc: Global,
    pair: &mut DiskPair<D>,
    m: Moment,
    replay: &mut R,
) -> Result<Opened, JournalFault>
    ensures found { D.tells → IfOk result
        (λ opened. FoundMeans m (D.seen pair.old.a) (D.seen pair.old.b) (R.state replay.new)
        opened.found) }
    ensures still { D.tells → IfOk result
        (λ opened. IsStillOrShut D.seen pair.old pair.new opened.found) }
    ensures started { IfOk result
        (λ opened. HasStarted m opened.side opened.standing (R.state replay.new) opened.found) }
    ensures settled { D.tells → IfOk result
        (λ opened. IsSettledBy D.seen D.may_leave opened.side opened.standing pair.new
        (R.state replay.new)) }
    ensures reach { IfOk result (λ opened. IsInReach opened.standing) }
    ensures next { IfOk result
        (λ opened. HasNext opened.standing.format opened.standing.generation) }
    ensures begun { OnOk result ((R.state replay.new).started ≡ true) }
    ensures ready { IfOk result
        (λ opened. IsReplaying opened.standing.format R.replaying R.replaying_first
        replay.new) }
    ensures opens { D.tells → OnOk result
        (Opens D.seen D.moment D.left_since D.may_leave m pair.old pair.new) }
    ensures moments { D.tells
        → Opens D.seen D.moment D.left_since D.may_leave m pair.old pair.new
        ⊎ LeavesOld D.moment D.left_since D.may_leave pair.old pair.new }
    ensures cause { PairHasCause D.faults pair.old pair.new (result ≡ Err Disk) }
    ensures quiet { UnlessDisk result (PairIsQuiet D.faults pair.old pair.new) }
    ensures lasting { R.lasting replay.new ≡ R.lasting replay.old }
{
    sync_both(pair)?;
    let verdict = judge(alloc, pair, replay)?;
    start_by(alloc, pair, m, replay, verdict)
}
