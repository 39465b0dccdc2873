//! A journal over a pair of disks.
ghost use Rattle.std.specs.Prelude.{◌≡◌};

use crate::appending::put_frames;
use crate::compacting::take_over;
use crate::errors::{Found, Unopened};
use crate::openings::open;
use journal_sides::{
    Format, JournalFault, MOST_APPENDED, MOST_RECORDS, Side, Standing, Verdict, frames_of,
    hidden_of, judge,
};
use lease_disk::{DiskPair, LeaseDisk};
use pcp_base::{Moment, Record, Replay};
use std::alloc::Global;
use std::marker::Model;

/// The records of a lease table on two sides, of which one counts. After `Disk` it is to be read
/// `again`.
#[derive(Drop)]
pub struct Journal<D> {
    pair: DiskPair<D>,
    side: Side,
    standing: Standing,
    first_length: u64,
    unread: bool,
}

impl<D> Model for Journal<D> {
    ghost use Rattle.journal_sides.specs.Settled.{IsInReach};
    ghost use Rattle.lease_journal.specs.Views.{JournalView};

    ghost Value = { JournalView D };

    ghost view = { λ j. record {
      pair = j.pair;
      side = j.side;
      standing = j.standing;
      first_length = j.first_length;
      unread = j.unread;
    } };

    ghost invariant = { λ j. IsInReach j.standing };
}

impl<D: LeaseDisk> Journal<D> {
    ghost use Rattle.std.specs.Prelude.{◌≡◌, ◌⊎◌, ◌+◌, ◌-◌, ◌^◌, ◌<◌, ◌≤◌, [], ◌∷◌, true, false, length, Err, IsErr, IfOk, IfErr, OnOk};
    ghost use Rattle.std.specs.List.{AllByRecursion};
    ghost use Rattle.pcp_base.specs.Apply.{apply_all, state_of};
    ghost use Rattle.pcp_base.specs.Fits.{AllFit};
    ghost use Rattle.pcp_base.specs.Records.{IsWellFormedRecord};
    ghost use Rattle.pcp_base.specs.States.{State, empty_state};
    ghost use Rattle.lease_disk.specs.Pairs.{PairHasCause, PairIsQuiet, PairLeavesOnly};
    ghost use Rattle.journal_sides.specs.declared.errors.JournalFault.TheVariants.{Disk, Memory};
    ghost use Rattle.journal_sides.specs.declared.formats.Format.TheVariants.{Second};
    ghost use Rattle.journal_sides.specs.declared.layout.TheConstants.{MOST_APPENDED};
    ghost use Rattle.journal_sides.specs.Formats.{HasNext, IsReplaying, format_octet};
    ghost use Rattle.journal_sides.specs.Frames.{frames_octets};
    ghost use Rattle.journal_sides.specs.Journals.{StandsFor, StandsForWithOrWithout};
    ghost use Rattle.lease_journal.specs.Openings.{FoundMeans, HasStarted, IsClearedUnless, IsStillOrShut, LeavesOld, Opens, ViewMeans, ViewReplays};
    ghost use Rattle.journal_sides.specs.Quiet.{UnlessDisk};
    ghost use Rattle.journal_sides.specs.Reads.{ArePairRead, AreSeenStill};
    ghost use Rattle.journal_sides.specs.Texts.{AreTexts, records_in};
    ghost use Rattle.lease_journal.specs.Views.{IsFilled, IsSettled};
    ghost use Rattle.journal_sides.specs.Writes.{of_side, other, side_parity};

    /// Appends 1 to [`MOST_APPENDED`] well formed records that fit to a journal of format 2, in frames
    /// that are full but for the last, by two syncs. At each moment a crash leaves all of them or
    /// none; from `Ok` on all. After `Memory` nothing has changed; after `Disk` the journal is to be
    /// read `again`.
    pub fn append(&mut self, alloc: Global, batch: &[Record]) -> Result<(), JournalFault>
        requires some { 1 ≤ length batch.now }
        requires few { length batch.now ≤ MOST_APPENDED }
        requires formed { AllByRecursion IsWellFormedRecord batch.now }
        requires read { self.old.unread ≡ false }
        requires second { self.old.standing.format ≡ Second }
        requires fit { D.tells → (s : State) → IsSettled D.seen D.may_leave self.old s
            → AllFit s batch.now }
        ensures moments { D.tells → (s : State) → IsSettled D.seen D.may_leave self.old s
            → PairLeavesOnly D.moment D.left_since D.may_leave self.old.pair self.new.pair
            (StandsForWithOrWithout s batch.now) }
        ensures settled { D.tells → (s : State) → IsSettled D.seen D.may_leave self.old s
            → OnOk result (IsSettled D.seen D.may_leave self.new (apply_all s batch.now)) }
        ensures read_now { OnOk result (self.new.unread ≡ false) }
        ensures side { OnOk result (self.new.side ≡ self.old.side) }
        ensures format { OnOk result (self.new.standing.format ≡ self.old.standing.format) }
        ensures generation { OnOk result
            (self.new.standing.generation ≡ self.old.standing.generation) }
        ensures first_length { OnOk result (self.new.first_length ≡ self.old.first_length) }
        ensures beside { D.tells → OnOk result
            (of_side (other self.old.side) (D.seen self.new.pair.a) (D.seen self.new.pair.b)
            ≡ of_side (other self.old.side) (D.seen self.old.pair.a) (D.seen self.old.pair.b)) }
        ensures grown { D.tells → (s : State) → IsSettled D.seen D.may_leave self.old s
            → OnOk result (self.new.standing.length
            ≤ self.old.standing.length + frames_octets batch.now) }
        ensures memory { result ≡ Err Memory → self.new ≡ self.old }
        ensures doubt { result ≡ Err Disk → self.new.unread ≡ true }
        ensures cause { PairHasCause D.faults self.old.pair self.new.pair (result ≡ Err Disk) }
        ensures quiet { UnlessDisk result (PairIsQuiet D.faults self.old.pair self.new.pair) }
    {
        let frames = frames_of(alloc, batch)?;
        self.unread = true;
        put_frames(&mut self.pair, self.side, self.standing.end, &frames)?;
        self.standing = self.standing.with_frame(frames.len() as u64);
        self.unread = false;
        Ok(())
    }

    /// Opens the journal of a pair: syncs both sides, reads them, and where they are blank or damaged
    /// makes a start at `m` on side a, beside a side b that is shut anew if it has octets. After `Ok`
    /// the replay stands for the journal and takes more records of its format; after a fault it is to
    /// be cleared, and the pair is handed back.
    pub fn recover<R: Replay>(
        alloc: Global,
        pair: DiskPair<D>,
        m: Moment,
        replay: &mut R,
    ) -> Result<(Journal<D>, Found), Unopened<D>>
        ensures found { D.tells → IfOk result
            (λ opened. FoundMeans m (D.seen pair.a) (D.seen pair.b) (R.state replay.new)
            opened.1) }
        ensures still { D.tells → IfOk result
            (λ opened. IsStillOrShut D.seen pair opened.0.pair opened.1) }
        ensures started { IfOk result
            (λ opened. HasStarted m opened.0.side opened.0.standing (R.state replay.new)
            opened.1) }
        ensures settled { D.tells → IfOk result
            (λ opened. IsSettled D.seen D.may_leave opened.0 (R.state replay.new)) }
        ensures moments { D.tells → IfOk result
            (λ opened. Opens D.seen D.moment D.left_since D.may_leave m pair opened.0.pair) }
        ensures refused_moments { D.tells → IfErr result
            (λ refused. Opens D.seen D.moment D.left_since D.may_leave m pair refused.pair
            ⊎ LeavesOld D.moment D.left_since D.may_leave pair refused.pair) }
        ensures ready { IfOk result (λ opened. opened.0.unread ≡ false) }
        ensures replaying { IfOk result
            (λ opened. IsReplaying opened.0.standing.format R.replaying R.replaying_first
            replay.new) }
        ensures next { IfOk result
            (λ opened. HasNext opened.0.standing.format opened.0.standing.generation) }
        ensures begun { OnOk result ((R.state replay.new).started ≡ true) }
        ensures first_length { IfOk result
            (λ opened. opened.0.first_length ≡ opened.0.standing.length) }
        ensures later { IfOk result (λ opened. PairHasCause D.faults pair opened.0.pair ⊥) }
        ensures cause { IfErr result
            (λ refused. PairHasCause D.faults pair refused.pair (refused.fault ≡ Disk)) }
        ensures lasting { R.lasting replay.new ≡ R.lasting replay.old }
    {
        let mut pair = pair;
        match open(alloc, &mut pair, m, replay) {
            Ok(opened) => Ok((
                Journal {
                    pair,
                    side: opened.side,
                    standing: opened.standing,
                    first_length: opened.standing.length,
                    unread: false,
                },
                opened.found,
            )),
            Err(fault) => Err(Unopened { fault, pair }),
        }
    }

    /// Opens the journal again, on its own pair, as `recover` does.
    pub fn again<R: Replay>(
        &mut self,
        alloc: Global,
        m: Moment,
        replay: &mut R,
    ) -> Result<Found, JournalFault>
        ensures found { D.tells → IfOk result
            (FoundMeans m (D.seen self.old.pair.a) (D.seen self.old.pair.b)
            (R.state replay.new)) }
        ensures still { D.tells → IfOk result
            (IsStillOrShut D.seen self.old.pair self.new.pair) }
        ensures started { IfOk result
            (HasStarted m self.new.side self.new.standing (R.state replay.new)) }
        ensures settled { D.tells → OnOk result
            (IsSettled D.seen D.may_leave self.new (R.state replay.new)) }
        ensures opens { D.tells → OnOk result
            (Opens D.seen D.moment D.left_since D.may_leave m self.old.pair self.new.pair) }
        ensures moments { D.tells
            → Opens D.seen D.moment D.left_since D.may_leave m self.old.pair self.new.pair
            ⊎ LeavesOld D.moment D.left_since D.may_leave self.old.pair self.new.pair }
        ensures ready { OnOk result (self.new.unread ≡ false) }
        ensures replaying { OnOk result
            (IsReplaying self.new.standing.format R.replaying R.replaying_first replay.new) }
        ensures next { OnOk result (HasNext self.new.standing.format self.new.standing.generation) }
        ensures begun { OnOk result ((R.state replay.new).started ≡ true) }
        ensures first_length { OnOk result (self.new.first_length ≡ self.new.standing.length) }
        ensures doubt { IsErr result → self.new.unread ≡ true }
        ensures cause { PairHasCause D.faults self.old.pair self.new.pair (result ≡ Err Disk) }
        ensures quiet { UnlessDisk result (PairIsQuiet D.faults self.old.pair self.new.pair) }
        ensures lasting { R.lasting replay.new ≡ R.lasting replay.old }
    {
        self.unread = true;
        let opened = open(alloc, &mut self.pair, m, replay)?;
        self.side = opened.side;
        self.standing = opened.standing;
        self.first_length = opened.standing.length;
        self.unread = false;
        Ok(opened.found)
    }

    /// Reads the journal of a pair and writes nothing. After `Recovered` the replay takes more
    /// records of the format that was read. Where it is blank or damaged the replay is left cleared;
    /// after a fault it is to be cleared.
    pub fn view<R: Replay>(
        alloc: Global,
        pair: &mut DiskPair<D>,
        replay: &mut R,
    ) -> Result<Found, JournalFault>
        ensures found { D.tells → IfOk result
            (ViewMeans (D.seen pair.old.a) (D.seen pair.old.b) (R.state replay.new)) }
        ensures cleared { IfOk result (IsClearedUnless (R.state replay.new)) }
        ensures replaying { IfOk result (ViewReplays R.replaying R.replaying_first replay.new) }
        ensures read { ArePairRead D.moment D.left_since D.may_leave pair.old pair.new }
        ensures seen { D.tells → AreSeenStill D.seen pair.old pair.new }
        ensures cause { PairHasCause D.faults pair.old pair.new (result ≡ Err Disk) }
        ensures lasting { R.lasting replay.new ≡ R.lasting replay.old }
    {
        match judge(alloc, pair, replay)? {
            Verdict::Counting(..) => Ok(Found::Recovered),
            Verdict::Neither => {
                replay.clear();
                Ok(Found::Blank)
            }
            Verdict::Broken(..) => {
                replay.clear();
                Ok(Found::Damaged)
            }
        }
    }

    /// Writes the records of a snapshot, of which these are the texts, to the other side, with the
    /// next generation and in frames of [`MOST_RECORDS`] records but for the last, and shuts the side
    /// that counted. At each moment the journal stands for the same state. After `Memory` nothing
    /// has changed; after `Disk` the journal is to be read `again`.
    pub fn compact(&mut self, alloc: Global, snapshot: &[u8]) -> Result<(), JournalFault>
        requires some { 1 ≤ length (records_in snapshot.now) }
        requires texts { AreTexts snapshot.now (records_in snapshot.now) }
        requires read { self.old.unread ≡ false }
        requires fit { D.tells → AllFit empty_state (records_in snapshot.now) }
        requires same { D.tells → (s : State) → IsSettled D.seen D.may_leave self.old s
            → state_of (records_in snapshot.now) ≡ s }
        requires next { self.old.standing.generation < 2 ^ 64 - 1 }
        ensures moments { D.tells → (s : State) → IsSettled D.seen D.may_leave self.old s
            → PairLeavesOnly D.moment D.left_since D.may_leave self.old.pair self.new.pair
            (StandsFor s) }
        ensures settled { D.tells → (s : State) → IsSettled D.seen D.may_leave self.old s
            → OnOk result (IsSettled D.seen D.may_leave self.new s) }
        ensures ready { OnOk result (self.new.unread ≡ false) }
        ensures side { OnOk result (self.new.side ≡ other self.old.side) }
        ensures format { OnOk result (self.new.standing.format ≡ Second) }
        ensures generation { OnOk result
            (self.new.standing.generation ≡ self.old.standing.generation + 1) }
        ensures first_length { OnOk result (self.new.first_length ≡ self.new.standing.length) }
        ensures filled { D.tells → (s : State) → IsSettled D.seen D.may_leave self.old s
            → OnOk result (IsFilled (side_parity (other self.old.side))
            (self.old.standing.generation + 1) (records_in snapshot.now)
            (of_side (other self.old.side) (D.seen self.new.pair.a) (D.seen self.new.pair.b))) }
        ensures cut { D.tells → (s : State) → IsSettled D.seen D.may_leave self.old s
            → OnOk result
            (of_side self.old.side (D.seen self.new.pair.a) (D.seen self.new.pair.b)
            ≡ 0 ∷ []) }
        ensures memory { result ≡ Err Memory → self.new ≡ self.old }
        ensures doubt { result ≡ Err Disk → self.new.unread ≡ true }
        ensures cause { PairHasCause D.faults self.old.pair self.new.pair (result ≡ Err Disk) }
        ensures quiet { UnlessDisk result (PairIsQuiet D.faults self.old.pair self.new.pair) }
    {
        let generation = self.standing.generation + 1;
        let text = hidden_of(alloc, generation, snapshot)?;
        self.unread = true;
        let length = take_over(&mut self.pair, self.side, &text)?;
        self.side = self.side.other();
        self.standing = Standing {
            format: Format::Second,
            generation,
            end: text.len() as u64,
            length,
        };
        self.first_length = length;
        self.unread = false;
        Ok(())
    }

    /// The pair, as it is.
    pub fn close(self) -> DiskPair<D>
        ensures { result ≡ self.pair }
    {
        self.pair
    }

    /// How many octets the side that counts has, also those past its closed gate.
    pub fn length(&self) -> u64
        requires { self.now.unread ≡ false }
        ensures { result ≡ self.now.standing.length }
    {
        self.standing.length
    }

    /// The same as the last compaction or opening left it.
    pub fn first_length(&self) -> u64
        requires { self.now.unread ≡ false }
        ensures { result ≡ self.now.first_length }
    {
        self.first_length
    }

    /// The generation of the side that counts.
    pub fn generation(&self) -> u64
        requires { self.now.unread ≡ false }
        ensures { result ≡ self.now.standing.generation }
    {
        self.standing.generation
    }

    /// The format of the side that counts, 1 or 2.
    pub fn format(&self) -> u8
        requires { self.now.unread ≡ false }
        ensures { result ≡ format_octet self.now.standing.format }
    {
        self.standing.format.octet()
    }
}
