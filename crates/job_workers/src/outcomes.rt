//! How calls of the house end, and what is left of them on the board.
use crate::tallies::TallyRow;
use lease_house::HouseFault;
use pcp_base::Moment;
use status_board::{Board, ShardNumbers};

/// Whether a disk failed in the last call of the house.
#[derive(Clone, Copy, Debug, PartialEq, Eq)]
pub enum Outcome {
    /// No call was made.
    Idle,
    /// No disk failed.
    Fine,
    /// A disk failed.
    Fault,
}

impl Outcome {
    /// That of a call which was refused.
    pub fn of(fault: HouseFault) -> Outcome {
        match fault {
            HouseFault::Disk(_) => Outcome::Fault,
            HouseFault::Memory => Outcome::Fine,
        }
    }

    /// That of calls one after the other: the last one's, if one was made.
    pub fn followed_by(self, later: Outcome) -> Outcome {
        match later {
            Outcome::Idle => self,
            Outcome::Fine | Outcome::Fault => later,
        }
    }
}

/// When a call was made, and how it ended.
#[derive(Clone, Copy, Debug)]
pub(crate) struct CallEnd {
    pub(crate) moment: Moment,
    pub(crate) outcome: Outcome,
}

/// Leaves on the board what the jobs of an external address have come to, and how the last call
/// ended.
pub(crate) fn leave_end(board: &Board, shard: u32, row: &TallyRow, end: CallEnd) -> Outcome {
    board.count(shard, &row.counts());
    board.call_ended(shard, end.moment, end.outcome == Outcome::Fault);
    end.outcome
}

/// The same behind a call without jobs. It writes nothing, so that it was made doesn't say that a fault
/// is over.
pub(crate) fn leave_count(board: &Board, shard: u32, row: &TallyRow, end: CallEnd) -> Outcome {
    if end.outcome == Outcome::Fault {
        return leave_end(board, shard, row, end);
    }
    board.count(shard, &row.counts());
    end.outcome
}

/// Leaves the numbers of an external address as the answer of this ask. Where the call had none, those
/// that were left before stand.
pub(crate) fn leave_numbers(board: &Board, shard: u32, asked: u64, numbers: Option<ShardNumbers>) {
    match numbers {
        Some(numbers) => board.leave(shard, asked, &numbers),
        None => board.keep(shard, asked),
    }
}
