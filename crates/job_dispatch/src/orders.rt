//! Orders whose answers are still to come. Which numbers wait changes nothing of what is dispatched.
ghost use Rattle.std.specs.Prelude.{◌≡◌, ◌≤◌};

use pcp_base::{Config, MOST_EXTERNALS, Memory, Moment};
use pcp_io::Inbox;
use status_board::Board;
use std::alloc::Global;

/// How many orders of a kind wait at most.
const MOST_WAITING: usize = 8;

/// How long workers are waited for that are to leave their numbers, in milliseconds.
const LONGEST_ASK: u64 = 500;

/// What is told of an order that was done, in full.
pub(crate) const DONE: &[u8] = b"done\n";

/// What is told of an order that isn't done.
pub(crate) const REFUSED: &[u8] = b"refused\n";

/// Tells whoever gave the order of this number what became of it. Nobody waits for order 0.
pub(crate) fn tell<I: Inbox>(inbox: &mut I, order: u32, text: &[u8])
    ensures left { I.left inbox.new ≡ I.left inbox.old }
    ensures later { I.faults inbox.old ≤ I.faults inbox.new }
{
    if order != 0 {
        inbox.answered(order, text);
    }
}

/// Orders of a kind that wait, with 0 where there is none.
#[derive(Clone, Copy, Debug)]
struct Waiting {
    orders: [u32; MOST_WAITING],
}

impl Waiting {
    fn new() -> Waiting {
        Waiting {
            orders: [0; MOST_WAITING],
        }
    }

    /// One more waits. False where as many wait as may. Order 0 waits for nothing.
    fn add(&mut self, order: u32) -> bool {
        if order == 0 {
            return true;
        }
        for place in &mut self.orders {
            if *place == 0 {
                *place = order;
                return true;
            }
        }
        false
    }

    fn is_empty(&self) -> bool {
        self.orders.iter().all(|order| *order == 0)
    }

    /// Answers all, so that none waits.
    fn answer<I: Inbox>(&mut self, inbox: &mut I, text: &[u8])
        ensures left { I.left inbox.new ≡ I.left inbox.old }
        ensures later { I.faults inbox.old ≤ I.faults inbox.new }
    {
        for order in &self.orders {
            tell(inbox, *order, text);
        }
        self.orders = [0; MOST_WAITING];
    }
}

/// The numbers of a board as text, at a time in milliseconds.
fn status_text(
    alloc: Global,
    config: &Config,
    board: &Board,
    time: u64,
) -> Result<Vec<u8>, Memory> {
    let Some(moment) = Moment::of(time / 1_000) else {
        return Err(Memory);
    };
    board.text(alloc, config, moment)
}

/// The orders that wait for an answer.
#[derive(Clone, Copy, Debug)]
pub(crate) struct Orders {
    /// those of losses that wait for room in their queues, by external address
    losses: [Waiting; MOST_EXTERNALS],
    /// those that ask how the server is
    statuses: Waiting,
    /// when the first of these asked, in milliseconds
    asked: u64,
    /// the clock's time that was told last, in milliseconds
    time: u64,
}

impl Orders {
    /// None waits.
    pub(crate) fn new() -> Orders {
        Orders {
            losses: [Waiting::new(); MOST_EXTERNALS],
            statuses: Waiting::new(),
            asked: 0,
            time: 0,
        }
    }

    /// The order of a loss for this external address waits. False where as many wait as may.
    pub(crate) fn add_loss(&mut self, shard: usize, order: u32) -> bool {
        match self.losses.get_mut(shard) {
            Some(waiting) => waiting.add(order),
            None => false,
        }
    }

    /// Answers the orders of losses for this external address, which was put.
    pub(crate) fn answer_losses<I: Inbox>(&mut self, inbox: &mut I, shard: usize)
        ensures left { I.left inbox.new ≡ I.left inbox.old }
        ensures later { I.faults inbox.old ≤ I.faults inbox.new }
    {
        if let Some(waiting) = self.losses.get_mut(shard) {
            waiting.answer(inbox, DONE);
        }
    }

    /// An order asks now how the server is. False where as many wait as may.
    pub(crate) fn add_status(&mut self, order: u32) -> bool {
        if self.statuses.is_empty() {
            self.asked = self.time;
        }
        self.statuses.add(order)
    }

    /// Whether whoever asked how the server is gets an answer now: all workers have left their numbers
    /// since, or they were asked long enough ago.
    fn is_due(&self, board: &Board) -> bool {
        !self.statuses.is_empty()
            && (board.is_answered() || self.time.saturating_sub(self.asked) >= LONGEST_ASK)
    }

    /// It is this time. Whoever asked how the server is is answered where that is due.
    pub(crate) fn reach<I: Inbox>(
        &mut self,
        alloc: Global,
        config: &Config,
        board: &Board,
        inbox: &mut I,
        time: u64,
    )
        ensures left { I.left inbox.new ≡ I.left inbox.old }
        ensures later { I.faults inbox.old ≤ I.faults inbox.new }
    {
        self.time = time;
        if self.is_due(board) {
            self.answer_statuses(alloc, config, board, inbox);
        }
    }

    /// Answers whoever asked how the server is, by what the board tells at the time that was told last.
    pub(crate) fn answer_statuses<I: Inbox>(
        &mut self,
        alloc: Global,
        config: &Config,
        board: &Board,
        inbox: &mut I,
    )
        ensures left { I.left inbox.new ≡ I.left inbox.old }
        ensures later { I.faults inbox.old ≤ I.faults inbox.new }
    {
        if self.statuses.is_empty() {
            return;
        }
        match status_text(alloc, config, board, self.time) {
            Ok(text) => self.statuses.answer(inbox, &text),
            Err(_memory) => self.statuses.answer(inbox, REFUSED),
        }
    }
}
