//! Who asks for the owners of external ports, and is answered.
ghost use Rattle.std.specs.Prelude.{◌≡◌, ℕ, List, Option, IfOk, OnOk, OnErr};
ghost use Rattle.pcp_base.specs.declared.leases.Endpoint.{Endpoint};
ghost use Rattle.pcp_io.specs.declared.lane_links.LaneAsk.{LaneAsk};
ghost use Rattle.pcp_io.specs.Asks.{answers_with, IsNextAsk};
ghost use Rattle.pcp_io.specs.Faults.{HasCause};

use pcp_base::{Address, Endpoint, Failed, Protocol};

/// What a lane is asked.
#[derive(Clone, Copy, PartialEq, Eq)]
pub enum LaneAsk {
    /// Whose is what this remote peer sends to this external port?
    Look {
        protocol: Protocol,
        port: u16,
        remote: Address,
        remote_port: u16,
    },
    /// Nothing was asked in the link's own waiting time.
    Quiet,
    /// Nothing is asked any more.
    Stop,
}

/// Asks for the owners of external ports, and takes the answers.
pub trait LaneLink {
    // What it will ask from here on, where the link tells it. A stop follows, for ever.
    ghost asks: { Self → Option (List LaneAsk) };

    // The answers that it took, in order, where the link tells them.
    ghost answers: { Self → Option (List (Option Endpoint)) };

    // How many faults it has counted.
    ghost faults: { Self → ℕ };

    /// Gives what is asked next. It is told whether the server's work is over, so that a link may stop
    /// although it is asked on. After `Failed` nothing was taken, and a fault was counted.
    fn ask(&mut self, over: bool) -> Result<LaneAsk, Failed>
        ensures asks { IfOk result (IsNextAsk (asks self.old) (asks self.new)) }
        ensures unchanged { OnErr result (asks self.new ≡ asks self.old) }
        ensures answers { answers self.new ≡ answers self.old }
        ensures cause { HasCause (faults self.old) (faults self.new) result };

    /// Takes the answer to the last ask: the owner, if any. After `Failed` it wasn't taken, and a fault
    /// was counted.
    fn answer(&mut self, owner: Option<Endpoint>) -> Result<(), Failed>
        ensures answers { OnOk result
            (answers self.new ≡ answers_with (answers self.old) owner) }
        ensures unchanged { OnErr result (answers self.new ≡ answers self.old) }
        ensures asks { asks self.new ≡ asks self.old }
        ensures cause { HasCause (faults self.old) (faults self.new) result };
}
