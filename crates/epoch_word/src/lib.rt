//! The greatest moment that any thread has raised, in one word.
#![tactic(auto)]

ghost use Rattle.std.specs.Prelude.{◌≡◌, ◌+◌, ◌<◌, ◌≤◌, max, IfOk, OnErr};
ghost use Rattle.epoch_word.specs.Rule.{AreSplit, new_share, seat_knowledge};

mod laws;
#[cfg(test)]
mod tests;
mod views;

use crate::views::{Raise, SplitAndJoin, Tell, Weigh, WordRule, WordView};
use atomic_table::{Seat, Table};
pub use laws::word_is_the_greatest;
use pcp_base::{Memory, Moment};
use std::alloc::Global;
use std::marker::Model;

/// The one word of the table.
const EPOCH: usize = 0;

/// The share of the first seat.
const FIRST_SHARE: u64 = u64::MAX;

/// The share of a seat that is split off one with more than twice as much.
const NEW_SHARE: u64 = 1 << 32;

/// A moment that only rises. To contracts it is a name.
#[derive(Drop)]
pub struct EpochWord {
    table: Table<u8, WordView, u64, WordRule, Global>,
    ghost sized: { table.shared.table_id.words ≡ 1 },
}

impl Model for EpochWord {
    ghost use Rattle.atomic_table.specs.Seated.{TableId, table_id_coded};

    ghost Value = { TableId };

    ghost coded = { table_id_coded };

    ghost view = { λ e. e.table.shared.table_id };
}

/// What one caller knows of a word: the greatest moment that was raised with this seat, the
/// greatest that it was told, and how often it asked. It has a share of the right to raise, which
/// alone takes octets.
#[derive(Drop)]
pub struct EpochSeat {
    seat: Seat<u8, WordView>,
    share: u64,
}

impl Model for EpochSeat {
    ghost use Rattle.std.specs.Prelude.{◌≡◌, ◌<◌, []};
    ghost use Rattle.epoch_word.specs.Rule.{SeatKnowledge, seat_knowledge};

    ghost Value = { SeatKnowledge };

    ghost view = { λ e.
        seat_knowledge e.seat.table_id e.seat.me.0.raised e.seat.me.0.heard
        e.seat.me.0.asked e.share };

    ghost invariant = { λ e.
        (e.seat.me.1 ≡ []) × (e.share ≡ e.seat.me.0.share) × (0 < e.share) };
}

impl EpochWord {
    /// A word that stands at the first moment, and the first seat, which counts as having raised
    /// that and been told it, has never asked, and has the whole share. The one error is want of
    /// memory.
    pub fn new(alloc: Global, first: Moment) -> Result<(EpochWord, EpochSeat), Memory>
        ensures { IfOk result (λ made. made.1 ≡ seat_knowledge made.0 first first 0 FIRST_SHARE) }
    {
        let moment = first.get();
        let (table, seat) = Table::of_words(alloc, &[moment], &moment)?;
        let seat = EpochSeat {
            seat,
            share: FIRST_SHARE,
        };
        Ok((EpochWord { table }, seat))
    }

    /// Raises the word to this moment, where it is below. The seat must be of this word. It takes
    /// no memory and waits for nobody.
    pub fn raise(&self, seat: &mut EpochSeat, to: Moment)
        requires word { seat.old.word ≡ self.now }
        ensures { seat.new ≡ record seat.old { raised = max seat.old.raised to } }
    {
        self.table
            .shared
            .fetch_max::<Raise>(&mut seat.seat, EPOCH, to.get());
    }

    /// Where the word stands: the greatest of the first moment and all that were raised so far. The
    /// word is asked in this call, once. The seat must be of this word. It takes no memory and
    /// waits for nobody.
    pub fn told(&self, seat: &mut EpochSeat) -> Moment
        requires word { seat.old.word ≡ self.now }
        ensures seat { seat.new ≡ record seat.old { heard = result; asked = seat.old.asked + 1 } }
        ensures raised { seat.old.raised ≤ result }
        ensures heard { seat.old.heard ≤ result }
    {
        let seconds = self.table.shared.load::<Tell>(&mut seat.seat, EPOCH);
        Moment::of(seconds).unwrap()
    }

    /// Another seat, which knows as much, has never asked, and gets a part of this one's share:
    /// 2^32, but at most a half. The seat must be of this word. It takes no memory. It is refused,
    /// as for want of memory, where the share can't be divided any more.
    pub fn split(&self, _alloc: Global, seat: &mut EpochSeat) -> Result<EpochSeat, Memory>
        requires word { seat.old.word ≡ self.now }
        ensures ok { IfOk result (AreSplit seat.old seat.new) }
        ensures refused { OnErr result (seat.old.share < 2) }
        ensures unchanged { OnErr result (seat.new ≡ seat.old) }
    {
        if seat.share < 2 {
            return Err(Memory);
        }
        let other = self.table.shared.split_seat::<SplitAndJoin>(&mut seat.seat);
        let share = new_share_of(seat.share);
        seat.share -= share;
        Ok(EpochSeat { seat: other, share })
    }

    /// Takes in what another seat knows, how often it asked, and its share. Both must be of this
    /// word. It takes no memory and waits for nobody.
    pub fn join(&self, seat: &mut EpochSeat, other: EpochSeat)
        requires word { seat.old.word ≡ self.now }
        requires other { other.word ≡ self.now }
        ensures word { seat.new.word ≡ seat.old.word }
        ensures raised { seat.new.raised ≡ max seat.old.raised other.raised }
        ensures heard { seat.new.heard ≡ max seat.old.heard other.heard }
        ensures asked { seat.new.asked ≡ seat.old.asked + other.asked }
        ensures share { seat.new.share ≡ seat.old.share + other.share }
    {
        let EpochSeat { seat: other, share } = other;
        self.table
            .shared
            .join_seat::<SplitAndJoin>(&mut seat.seat, other);
        self.table.shared.load::<Weigh>(&mut seat.seat, EPOCH);
        seat.share += share;
    }
}

// How much of this share a new seat gets: `NEW_SHARE`, but at most a half.
fn new_share_of(share: u64) -> u64
    requires { 2 ≤ share }
    ensures exact { result ≡ new_share share }
    ensures some { (0 < result) × (result < share) }
{
    if 2 * NEW_SHARE < share {
        NEW_SHARE
    } else {
        share / 2
    }
}
