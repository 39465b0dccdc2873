//! Reading a side.
ghost use Rattle.std.specs.Prelude.{◌≡◌, ◌+◌, ◌<◌, ◌≤◌, ◌^◌, Ok, Err, true, false, drop, length, take, IfOk, IfSome, OnOk};
ghost use Rattle.pcp_io.specs.Faults.{HasCause, HasRisen};
ghost use Rattle.pcp_base.specs.States.{empty_state};
ghost use Rattle.journal_sides.specs.declared.layout.TheConstants.{LONGEST_FRAME, SIDE_HEAD};
ghost use Rattle.journal_sides.specs.declared.errors.JournalFault.TheVariants.{Disk};
ghost use Rattle.journal_sides.specs.Formats.{FitsBy, apply_by, IsReplaying};
ghost use Rattle.journal_sides.specs.Judging.{IsSideJudged, Replayed, ReplaysOn};
ghost use Rattle.journal_sides.specs.Quiet.{UnlessDisk};
ghost use Rattle.journal_sides.specs.Reads.{IsRead};
ghost use Rattle.journal_sides.specs.Verdicts.{IsJudgedBegun, IsJudgedInReach, IsJudgedWithNext};
ghost use Rattle.journal_sides.specs.Walks.{BatchMeans, PieceMeans, TurnMeans, WalkMeans};
ghost use Rattle.journal_sides.specs.Writes.{side_parity};

use crate::errors::JournalFault;
use crate::formats::Format;
use crate::heads::read_head;
use crate::layout::{MOST_FRAMED, MOST_RECORDS, SHORTEST_SIDE, SIDE_HEAD};
use crate::sides::Side;
use lease_disk::LeaseDisk;
use lease_records::read_record;
use pcp_base::{Failed, Memory, Record, Replay};
use std::alloc::Global;

/// A side in the grammar.
#[derive(Clone, Copy, Debug, PartialEq, Eq)]
pub struct Standing {
    pub format: Format,
    pub generation: u64,
    /// the place of the closed gate that ends its walk
    pub end: u64,
    /// all its octets, also those past the closed gate
    pub length: u64,
}

impl Standing {
    ghost use Rattle.std.specs.Prelude.{◌≡◌, ◌+◌, ◌≤◌, ◌^◌};
    ghost use Rattle.journal_sides.specs.Settled.{with_frame};

    /// With so many octets written behind the closed gate, which is then open.
    pub fn with_frame(self, count: u64) -> Standing
        requires { self.end + 1 + count ≤ 2 ^ 62 }
        ensures { result ≡ with_frame self count }
    {
        Standing {
            end: self.end + count,
            length: self.length.max(self.end + 1 + count),
            ..self
        }
    }
}

/// What a side is.
#[derive(Clone, Copy, Debug, PartialEq, Eq)]
pub enum Judged {
    Closed,
    /// open, and not in the grammar
    Bad,
    Good(Standing),
}

/// Why a walk goes no further than some octets.
#[derive(Clone, Copy, Debug, PartialEq, Eq)]
enum Stop {
    /// a closed gate stands there
    Ended,
    /// an open gate with no frame that may stand there, whatever follows the octets
    Stuck,
    /// less than a whole frame
    Short,
}

/// What stands in front of octets.
#[derive(Clone, Copy, Debug, PartialEq, Eq)]
enum Turn {
    /// a frame of so many octets with its gate
    Framed(usize),
    Over(Stop),
}

/// Reads octets from this place on until the piece is full or the side ends, and says how many.
pub fn fill<D: LeaseDisk>(disk: &mut D, place: u64, piece: &mut [u8]) -> Result<usize, Failed>
    requires { place + length piece.old ≤ 2 ^ 62 }
    ensures bound { IfOk result (λ n. n ≤ length piece.new) }
    ensures reads { D.tells → IfOk result
        (λ n. take n piece.new ≡ take (length piece.new) (drop place (D.seen disk.old))) }
    ensures read { IsRead D.moment D.left_since D.may_leave disk.old disk.new }
    ensures seen { D.tells → D.seen disk.new ≡ D.seen disk.old }
    ensures cause { HasCause (D.faults disk.old) (D.faults disk.new) result }
    ensures quiet { OnOk result (D.faults disk.new ≡ D.faults disk.old) }
{
    let mut filled = 0;
    while filled < piece.len() {
        let count = disk.read_at(place + filled as u64, &mut piece[filled..])?;
        if count == 0 {
            return Ok(filled);
        }
        filled += count;
    }
    Ok(filled)
}

/// Hands a record to a replay by the rules of the format.
fn admit<R: Replay>(
    alloc: Global,
    format: Format,
    replay: &mut R,
    entry: &Record,
) -> Result<bool, Memory>
    requires { IsReplaying format R.replaying R.replaying_first replay.old }
    ensures fits { result ≡ Ok true → FitsBy format (R.state replay.old) entry.now }
    ensures applied { result ≡ Ok true
        → R.state replay.new ≡ apply_by format (R.state replay.old) entry.now }
    ensures refused { result ≡ Ok false → ¬ (FitsBy format (R.state replay.old) entry.now) }
    ensures ready { OnOk result (IsReplaying format R.replaying R.replaying_first replay.new) }
    ensures lasting { R.lasting replay.new ≡ R.lasting replay.old }
{
    match format {
        Format::First => replay.admit_first(alloc, entry),
        Format::Second => replay.admit(alloc, entry),
    }
}

/// Hands the records of a frame to a replay. False where the octets aren't 1 to
/// [`MOST_RECORDS`] records that fit.
fn read_batch<R: Replay>(
    alloc: Global,
    format: Format,
    octets: &[u8],
    replay: &mut R,
) -> Result<bool, Memory>
    requires { IsReplaying format R.replaying R.replaying_first replay.old }
    ensures means { IfOk result
        (BatchMeans format (R.state replay.old) (R.state replay.new) octets.now) }
    ensures ready { OnOk result (IsReplaying format R.replaying R.replaying_first replay.new) }
    ensures lasting { R.lasting replay.new ≡ R.lasting replay.old }
{
    let mut at = 0;
    let mut count = 0_usize;
    while at < octets.len() {
        if count == MOST_RECORDS {
            return Ok(false);
        }
        let Ok((record, size)) = read_record(&octets[at..]) else {
            return Ok(false);
        };
        if !admit(alloc, format, replay, &record)? {
            return Ok(false);
        }
        at += size;
        count += 1;
    }
    Ok(true)
}

/// Walks over one frame in front of the octets, and hands its records to a replay.
fn walk_frame<R: Replay>(
    alloc: Global,
    format: Format,
    octets: &[u8],
    replay: &mut R,
) -> Result<Turn, Memory>
    requires { IsReplaying format R.replaying R.replaying_first replay.old }
    ensures means { IfOk result
        (TurnMeans format (R.state replay.old) (R.state replay.new) octets.now) }
    ensures ready { OnOk result (IsReplaying format R.replaying R.replaying_first replay.new) }
    ensures lasting { R.lasting replay.new ≡ R.lasting replay.old }
{
    let [gate, rest @ ..] = octets else {
        return Ok(Turn::Over(Stop::Short));
    };
    if *gate != 1 {
        return Ok(Turn::Over(Stop::Ended));
    }
    let Some((length, rest)) = rest.split_first_chunk::<4>() else {
        return Ok(Turn::Over(Stop::Short));
    };
    let size = u32::from_be_bytes(*length) as usize;
    if size == 0 {
        return Ok(Turn::Over(Stop::Stuck));
    }
    if size > MOST_FRAMED {
        return Ok(Turn::Over(Stop::Stuck));
    }
    if rest.len() < size {
        return Ok(Turn::Over(Stop::Short));
    }
    if read_batch(alloc, format, &rest[..size], replay)? {
        Ok(Turn::Framed(5 + size))
    } else {
        Ok(Turn::Over(Stop::Stuck))
    }
}

/// Walks over the whole frames in front of the octets. Says how many octets they have, and what
/// stands behind them.
fn walk_piece<R: Replay>(
    alloc: Global,
    format: Format,
    octets: &[u8],
    replay: &mut R,
) -> Result<(usize, Stop), Memory>
    requires { IsReplaying format R.replaying R.replaying_first replay.old }
    ensures means { IfOk result
        (λ found. PieceMeans format (R.state replay.old) (R.state replay.new) octets.now
        found.0 found.1) }
    ensures within { IfOk result (λ found. found.0 ≤ length octets.now) }
    ensures ready { OnOk result (IsReplaying format R.replaying R.replaying_first replay.new) }
    ensures lasting { R.lasting replay.new ≡ R.lasting replay.old }
{
    let mut at = 0;
    while at < octets.len() {
        match walk_frame(alloc, format, &octets[at..], replay)? {
            Turn::Framed(count) => at += count,
            Turn::Over(stop) => return Ok((at, stop)),
        }
    }
    Ok((at, Stop::Short))
}

/// Walks over a side of this size from the gate of its first frame on, and hands its records to a
/// replay. Gives the place of the closed gate at which the walk ends, or none where the side isn't
/// in the grammar.
fn walk<D: LeaseDisk, R: Replay>(
    alloc: Global,
    format: Format,
    disk: &mut D,
    size: u64,
    buffer: &mut [u8],
    replay: &mut R,
) -> Result<Option<u64>, JournalFault>
    requires past { SIDE_HEAD ≤ size }
    requires most { size ≤ 2 ^ 62 }
    requires room { LONGEST_FRAME ≤ length buffer.old }
    requires ready { IsReplaying format R.replaying R.replaying_first replay.old }
    requires empty { R.state replay.old ≡ empty_state }
    ensures means { D.tells → size ≡ length (D.seen disk.old)
        → IfOk result (WalkMeans format (R.state replay.new) (D.seen disk.old)) }
    ensures most { IfOk result (λ end. IfSome end (λ place. place < size)) }
    ensures begun { IfOk result (λ end. IfSome end
        (λ place. SIDE_HEAD < place → (R.state replay.new).started ≡ true)) }
    ensures ready { OnOk result (IsReplaying format R.replaying R.replaying_first replay.new) }
    ensures read { IsRead D.moment D.left_since D.may_leave disk.old disk.new }
    ensures seen { D.tells → D.seen disk.new ≡ D.seen disk.old }
    ensures later { D.faults disk.old ≤ D.faults disk.new }
    ensures cause { result ≡ Err Disk → HasRisen (D.faults disk.old) (D.faults disk.new) }
    ensures quiet { UnlessDisk result (D.faults disk.new ≡ D.faults disk.old) }
    ensures lasting { R.lasting replay.new ≡ R.lasting replay.old }
{
    let mut place = SIDE_HEAD as u64;
    while place < size {
        let wanted = (size - place).min(buffer.len() as u64) as usize;
        let count = fill(disk, place, &mut buffer[..wanted])?;
        let (used, stop) = walk_piece(alloc, format, &buffer[..count], replay)?;
        place += used as u64;
        match stop {
            Stop::Ended => return Ok(Some(place)),
            Stop::Stuck => return Ok(None),
            Stop::Short if used == 0 => return Ok(None),
            Stop::Short => {}
        }
    }
    Ok(None)
}

/// Judges a side. Where it is in the grammar the replay then holds its records and takes more of its
/// format, and where it is closed nothing has changed in the replay.
pub(crate) fn judge_side<D: LeaseDisk, R: Replay>(
    alloc: Global,
    side: Side,
    disk: &mut D,
    buffer: &mut [u8],
    replay: &mut R,
) -> Result<Judged, JournalFault>
    requires room { LONGEST_FRAME ≤ length buffer.old }
    ensures judged { D.tells → IfOk result (IsSideJudged (side_parity side) (D.seen disk.old)) }
    ensures replayed { D.tells → IfOk result
        (λ judged. Replayed (side_parity side) (D.seen disk.old) judged
        (R.state replay.old) (R.state replay.new)) }
    ensures reach { IfOk result IsJudgedInReach }
    ensures next { IfOk result IsJudgedWithNext }
    ensures begun { IfOk result (λ judged. IsJudgedBegun judged (R.state replay.new)) }
    ensures ready { IfOk result (ReplaysOn R.replaying R.replaying_first replay.old replay.new) }
    ensures room { length buffer.new ≡ length buffer.old }
    ensures read { IsRead D.moment D.left_since D.may_leave disk.old disk.new }
    ensures seen { D.tells → D.seen disk.new ≡ D.seen disk.old }
    ensures later { D.faults disk.old ≤ D.faults disk.new }
    ensures cause { result ≡ Err Disk → HasRisen (D.faults disk.old) (D.faults disk.new) }
    ensures quiet { UnlessDisk result (D.faults disk.new ≡ D.faults disk.old) }
    ensures lasting { R.lasting replay.new ≡ R.lasting replay.old }
{
    let size = disk.len()?;
    let mut head = [0; SIDE_HEAD];
    let count = fill(disk, 0, &mut head)?;
    if size < SHORTEST_SIDE as u64 {
        return Ok(Judged::Closed);
    }
    if count < SIDE_HEAD {
        return Ok(Judged::Closed);
    }
    if head[0] != 1 {
        return Ok(Judged::Closed);
    }
    let Some((format, generation)) = read_head(side, &head) else {
        return Ok(Judged::Bad);
    };
    replay.clear();
    match walk(alloc, format, disk, size, buffer, replay)? {
        Some(end) if end > SIDE_HEAD as u64 => Ok(Judged::Good(Standing {
            format,
            generation,
            end,
            length: size,
        })),
        _ => Ok(Judged::Bad),
    }
}
