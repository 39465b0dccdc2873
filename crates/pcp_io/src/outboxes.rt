//! Where datagrams go.
ghost use Rattle.std.specs.Prelude.{◌≡◌, ℕ, List, Option, OnOk, OnErr};
ghost use Rattle.pcp_base.specs.declared.datagrams.Datagram.{Datagram};
ghost use Rattle.pcp_io.specs.Faults.{HasCause};
ghost use Rattle.pcp_io.specs.Sends.{sent_after};

use pcp_base::{Address, Failed};

/// Takes datagrams to the outside, each once.
pub trait Outbox {
    // The datagrams that it took, in order, where the outbox tells them.
    ghost sent: { Self → Option (List Datagram) };

    // How many faults it has counted.
    ghost faults: { Self → ℕ };

    /// Takes a datagram to this peer, by this door. After `Failed` it wasn't taken, and a fault was counted.
    fn send(&mut self, door: u8, peer: Address, port: u16, octets: &[u8]) -> Result<(), Failed>
        ensures sends { OnOk result
            (sent self.new ≡ sent_after (sent self.old) door peer port octets.now) }
        ensures unchanged { OnErr result (sent self.new ≡ sent self.old) }
        ensures cause { HasCause (faults self.old) (faults self.new) result };
}
