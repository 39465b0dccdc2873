//! An outbox over a UDP socket. It tells nothing of content.
use crate::outboxes::Outbox;
use crate::sockets::{ready_to_send, sends};
use pcp_base::{Address, Failed};
use std::marker::Model;
use std::net::UdpSocket;

/// Datagrams that a socket sends, whatever door they are to leave by. A send never waits: each that the
/// system doesn't take whole at once is a fault that it counts, and nothing else is. A count that stands
/// at 2^64 - 1 stands still.
#[derive(Drop)]
pub struct UdpOutbox {
    socket: Option<UdpSocket>,
    // the link of peers and groups that stand on a link of their own; 0 where the system picks it
    scope: u32,
    faults: u64,
}

impl Model for UdpOutbox {
    ghost use Rattle.std.specs.Prelude.{ℕ};

    // How many faults it has counted.
    ghost Value = { ℕ };

    ghost view = { λ b. b.faults };
}

impl UdpOutbox {
    ghost use Rattle.std.specs.Prelude.{◌≡◌};

    /// An outbox of this socket that has counted no fault. Without one each send fails.
    pub fn of(socket: Option<UdpSocket>) -> UdpOutbox
        ensures { result ≡ 0 }
    {
        UdpOutbox::on_link(socket, 0)
    }

    /// The same, where link-local peers and groups of hosts are on the link with this number.
    pub fn on_link(socket: Option<UdpSocket>, scope: u32) -> UdpOutbox
        ensures { result ≡ 0 }
    {
        UdpOutbox {
            socket: ready_to_send(socket),
            scope,
            faults: 0,
        }
    }

    /// Whether the datagram went out.
    fn goes_out(&self, peer: &Address, port: u16, octets: &[u8]) -> bool {
        match &self.socket {
            Some(socket) => sends(socket, peer, port, self.scope, octets),
            None => false,
        }
    }
}

impl Outbox for UdpOutbox {
    ghost use Rattle.std.specs.Prelude.{◌≡◌, None, OnOk, OnErr};
    ghost use Rattle.pcp_io.specs.CallLogs.{one_more};
    ghost use Rattle.pcp_io.specs.Faults.{HasCause};

    ghost sent = { λ _. None };

    ghost faults = { λ b. b };

    fn send(&mut self, _door: u8, peer: Address, port: u16, octets: &[u8]) -> Result<(), Failed>
        ensures cause { HasCause self.old self.new result }
        ensures same { OnOk result (self.new ≡ self.old) }
        ensures counted { OnErr result (self.new ≡ one_more self.old) }
    {
        if self.goes_out(&peer, port, octets) {
            return Ok(());
        }
        self.faults = self.faults.saturating_add(1);
        Err(Failed)
    }
}
