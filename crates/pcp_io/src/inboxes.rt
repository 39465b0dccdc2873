//! Where datagrams come from.
ghost use Rattle.std.specs.Prelude.{◌≡◌, ℕ, ◌≤◌, List, Option, length, IfOk, OnErr};
ghost use Rattle.pcp_io.specs.declared.inboxes.InboxItem.{InboxItem};
ghost use Rattle.pcp_io.specs.declared.inboxes.TheConstants.{LONGEST_DATAGRAM};
ghost use Rattle.pcp_io.specs.Faults.{HasCause};
ghost use Rattle.pcp_io.specs.Takes.{Takes};

use pcp_base::{Address, Datagram, Failed};

/// The most octets of a datagram that an inbox gives. A longer one is cut there.
pub const LONGEST_DATAGRAM: usize = 2048;

/// What comes into an inbox.
#[derive(Drop)]
pub enum InboxItem {
    Packet(Datagram),
    /// All leases of this external address are to be lost, by the order of this number.
    Lose(u32, Address),
    /// The order of this number asks how the server is.
    Status(u32),
    /// Nothing came in the inbox's own waiting time.
    Quiet,
}

/// What a take gave.
#[derive(Clone, Copy, PartialEq, Eq)]
pub enum Incoming {
    /// A datagram that came by this door, whose octets stand in the front of the room.
    Packet {
        peer: Address,
        port: u16,
        door: u8,
        length: usize,
    },
    /// All leases of this external address are to be lost, by the order of this number: 0 where nobody
    /// waits for an answer.
    Lose(u32, Address),
    /// The order of this number asks how the server is.
    Status(u32),
    /// Nothing came in the inbox's own waiting time.
    Quiet,
    /// Nothing comes any more.
    Stop,
}

/// Datagrams that come from outside, and orders of the one who runs the server.
pub trait Inbox {
    // The items that takes will give from here on, where the inbox tells them. A stop follows them,
    // for ever.
    ghost left: { Self → Option (List InboxItem) };

    // How many faults it has counted.
    ghost faults: { Self → ℕ };

    /// Gives what comes next, a datagram's octets in the front of the room. After `Failed` nothing was
    /// taken, and a fault was counted.
    fn take(&mut self, room: &mut [u8]) -> Result<Incoming, Failed>
        requires { LONGEST_DATAGRAM ≤ length room.old }
        ensures takes { IfOk result (Takes (left self.old) (left self.new) room.new) }
        ensures unchanged { OnErr result (left self.new ≡ left self.old) }
        ensures cause { HasCause (faults self.old) (faults self.new) result };

    /// Tells whoever gave the order of this number what became of it.
    fn answered(&mut self, order: u32, text: &[u8])
        ensures left { left self.new ≡ left self.old }
        ensures later { faults self.old ≤ faults self.new };
}
