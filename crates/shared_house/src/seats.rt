//! The seats of the epoch word with which a house begins.
ghost use Rattle.std.specs.Prelude.{◌≡◌, ◌<◌, IfOk};
ghost use Rattle.shared_house.specs.Seats.{AreSeats};

use epoch_word::{EpochSeat, EpochWord};
use pcp_base::Memory;
use std::alloc::Global;

/// So many seats, which have the share of this one together, itself among them.
pub(crate) fn seats_of(
    alloc: Global,
    word: &EpochWord,
    first: EpochSeat,
    count: usize,
) -> Result<Vec<EpochSeat>, Memory>
    requires word { first.word ≡ word.now }
    requires some { 0 < count }
    ensures { IfOk result (λ seats. AreSeats count first seats.items) }
{
    let mut seats = Vec::with_capacity(alloc, count)?;
    let mut last = first;
    for _ in 1..count {
        let seat = word.split(alloc, &mut last)?;
        seats.push_reserved(seat);
    }
    seats.push_reserved(last);
    Ok(seats)
}
