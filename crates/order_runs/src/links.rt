//! How a server that runs is asked.
ghost use Rattle.std.specs.Prelude.{ℕ, List, Option, Result};
ghost use Rattle.order_runs.specs.Orders.{Asks};
ghost use Rattle.order_runs.specs.declared.links.OrderAsk.{OrderAsk};
ghost use Rattle.order_runs.specs.declared.links.OrderFault.{OrderFault};

use pcp_base::Octets;
use std::alloc::Global;

/// What a server is asked.
#[derive(Drop)]
pub struct OrderAsk {
    /// The line, with its line feed.
    pub line: Octets,
    /// Whether its answer is waited for however long it takes.
    pub without_limit: bool,
}

/// Why there is no answer.
#[derive(Clone, Copy, Debug, PartialEq, Eq)]
pub enum OrderFault {
    /// There is no server, it isn't for this caller, or it didn't answer in time.
    Silent,
    /// The connection broke, or its answer is longer than any.
    Broken,
    /// No memory was found.
    Memory,
}

/// Asks a server that runs.
pub trait OrderLink {
    // What it will answer from here on, an answer or a fault for each ask, where the link tells it.
    // Behind these it is silent, for ever.
    ghost left: { Self → Option (List (Result (List ℕ) OrderFault)) };

    // What it was asked, in order, where the link tells it.
    ghost asked: { Self → Option (List OrderAsk) };

    // How many faults it has counted.
    ghost faults: { Self → ℕ };

    /// Hands this line to the server, and gives all that it answers until it closes the connection; with
    /// or without a limit to how long that may take. After each fault one was counted. After `Memory`
    /// what is left stays, and whether the server was asked isn't said.
    fn ask(&mut self, alloc: Global, line: &[u8], without_limit: bool) -> Result<Octets, OrderFault>
        ensures { Asks (record { line = line.now; without_limit = without_limit })
            (record {
              left = left self.old;
              asked = asked self.old;
              faults = faults self.old;
            })
            (record {
              left = left self.new;
              asked = asked self.new;
              faults = faults self.new;
            }) result };
}
