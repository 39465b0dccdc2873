//! Runs with a grant, a renewal, a deletion, a loss and a compaction.

use crate::acts::{Seen, Step};
use crate::octets::FIRST;
use crate::requests::{Request, Told};
use crate::sides::{NOTHING, Side};
use Request::Map;
use Step::{Asked, Lost, Renewed};
use Told::{Gone, Leased};

/// What side a holds, when it is opened, what is done then, what an opening at 2000 may find before
/// the first one went well, and what it finds after that and after each step.
#[derive(Clone, Copy)]
pub(crate) struct Run {
    pub(crate) side: Side,
    pub(crate) at: u64,
    pub(crate) steps: &'static [(u64, Step)],
    pub(crate) before: &'static [Seen],
    pub(crate) states: &'static [Seen],
    /// the calls of side a in the middle of the renewals, which are alike
    pub(crate) renewals: (u64, u64),
}

impl Run {
    /// Whether a call of side a is one in the middle of the renewals.
    pub(crate) fn is_skipped(&self, call: u64) -> bool {
        self.renewals.0 <= call && call < self.renewals.1
    }
}

static STEPS: [(u64, Step); 5] = [
    (
        1110,
        Asked(Map(5, 5001, 3600, 0, 0), Leased(3600, 1025), 110),
    ),
    (
        1120,
        Asked(Map(5, 5000, 3600, 0, 0), Leased(3600, 1024), 120),
    ),
    (1130, Asked(Map(5, 5001, 0, 0, 0), Gone, 130)),
    (1140, Lost(1)),
    (
        1150,
        Asked(Map(5, 5002, 3600, 0, 0), Leased(3600, 1024), 10),
    ),
];

static BEFORE: [Seen; 1] = [Seen(1000, 2000, 1, 4610, 0)];

static STATES: [Seen; 6] = [
    Seen(1000, 1100, 1, 4610, 0),
    Seen(1000, 1110, 2, 4610, 0),
    Seen(1000, 1120, 2, 4720, 0),
    Seen(1000, 1130, 1, 4720, 1),
    Seen(1140, 1140, 0, 0, 0),
    Seen(1140, 1150, 1, 4750, 0),
];

// The lease has eight filters, so that 308 batches of its renewals are longer than a journal gets.
static LONG_STEPS: [(u64, Step); 6] = [
    (
        1010,
        Asked(Map(5, 5000, 3600, 0, 8), Leased(3600, 1024), 10),
    ),
    (
        1020,
        Asked(Map(5, 5001, 3600, 0, 0), Leased(3600, 1025), 20),
    ),
    (1030, Renewed(308)),
    (1040, Asked(Map(5, 5001, 0, 0, 0), Gone, 40)),
    (1050, Lost(1)),
    (
        1060,
        Asked(Map(5, 5002, 3600, 0, 0), Leased(3600, 1024), 10),
    ),
];

static LONG_BEFORE: [Seen; 2] = [Seen(2000, 2000, 0, 0, 0), Seen(1000, 2000, 0, 0, 0)];

static LONG_STATES: [Seen; 7] = [
    Seen(1000, 1000, 0, 0, 0),
    Seen(1000, 1010, 1, 4610, 0),
    Seen(1000, 1020, 2, 4610, 0),
    Seen(1000, 1030, 2, 4630, 0),
    Seen(1000, 1040, 1, 4630, 1),
    Seen(1050, 1050, 0, 0, 0),
    Seen(1050, 1060, 1, 4660, 0),
];

/// Compacted at its opening, since its journal is of format 1.
pub(crate) fn short() -> Run {
    Run {
        side: Side(&FIRST, 0, 0),
        at: 1100,
        steps: &STEPS,
        before: &BEFORE,
        states: &STATES,
        renewals: (0, 0),
    }
}

/// Compacted by a batch, since its journal has grown long.
pub(crate) fn long() -> Run {
    Run {
        side: NOTHING,
        at: 1000,
        steps: &LONG_STEPS,
        before: &LONG_BEFORE,
        states: &LONG_STATES,
        renewals: (60, 1244),
    }
}
