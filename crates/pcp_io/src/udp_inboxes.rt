//! An inbox over a UDP socket. It tells nothing of content.
ghost use Rattle.std.specs.Prelude.{◌≡◌, ◌≤◌, length, IfOk};
ghost use Rattle.pcp_io.specs.declared.inboxes.Incoming.TheVariants.{Quiet};
ghost use Rattle.pcp_io.specs.declared.inboxes.TheConstants.{LONGEST_DATAGRAM};
ghost use Rattle.pcp_io.specs.Arrivals.{Arrives, ComesBy};
ghost use Rattle.pcp_io.specs.Takes.{filled};

use crate::controls::read_control;
use crate::inboxes::{Inbox, Incoming, LONGEST_DATAGRAM};
use crate::sockets::{Trouble, ready, receive, sender_of};
use pcp_base::Failed;
use std::marker::Model;
use std::net::{IpAddr, UdpSocket};

/// Datagrams that come by a door, the socket of one family, and, where it is the door of orders, orders of
/// this host. A take waits for at most 100 milliseconds. An IPv6 packet whose source is an IPv4-mapped
/// address is passed over, as if nothing had come. Each error of the socket is a fault that it counts, and
/// nothing else is. Where the error tells that a packet sent before is lost, the take gives `Quiet`. A
/// count that stands at 2^64 - 1 stands still.
#[derive(Drop)]
pub struct UdpInbox {
    door: u8,
    socket: Option<UdpSocket>,
    faults: u64,
}

impl Model for UdpInbox {
    ghost use Rattle.pcp_io.specs.Arrivals.{DoorInbox};

    ghost Value = { DoorInbox };

    ghost view = { λ b. record { door = b.door; faults = b.faults } };
}

impl UdpInbox {
    ghost use Rattle.std.specs.Prelude.{◌≡◌};

    /// An inbox of this door and its socket that has counted no fault. Without a socket, or where it takes
    /// no waiting time, each take fails.
    pub fn of(door: u8, socket: Option<UdpSocket>) -> UdpInbox
        ensures { result ≡ record { door = door; faults = 0 } }
    {
        UdpInbox {
            door,
            socket: ready(socket),
            faults: 0,
        }
    }
}

/// What these octets from there are: an order of this host, or a datagram.
fn incoming_of(door: u8, source: IpAddr, port: u16, octets: &[u8]) -> Incoming
    ensures arrives { Arrives door source port octets.now result }
    ensures comes { ComesBy door result }
    ensures filled { filled result ≤ length octets.now }
{
    let Some(peer) = sender_of(source) else {
        return Incoming::Quiet;
    };
    match read_control(door, &peer, octets) {
        Some(incoming) => incoming,
        None => Incoming::Packet {
            peer,
            port,
            door,
            length: octets.len(),
        },
    }
}

/// Takes what comes next, a datagram's first `LONGEST_DATAGRAM` octets at most.
fn take_by(door: u8, socket: &Option<UdpSocket>, room: &mut [u8]) -> Result<Incoming, Trouble>
    requires { LONGEST_DATAGRAM ≤ length room.old }
    ensures same { length room.new ≡ length room.old }
    ensures comes { IfOk result (ComesBy door) }
    ensures most { IfOk result (λ incoming. filled incoming ≤ LONGEST_DATAGRAM) }
{
    let Some(found) = receive(socket, &mut room[..LONGEST_DATAGRAM])? else {
        return Ok(Incoming::Quiet);
    };
    let (length, from) = found;
    Ok(incoming_of(door, from.ip(), from.port(), &room[..length]))
}

/// What a take gives after an error.
fn given_after(trouble: Trouble) -> Result<Incoming, Failed>
    ensures { IfOk result (λ incoming. incoming ≡ Quiet) }
{
    match trouble {
        Trouble::Lost => Ok(Incoming::Quiet),
        Trouble::Broken => Err(Failed),
    }
}

impl Inbox for UdpInbox {
    ghost use Rattle.std.specs.Prelude.{◌≡◌, ◌⊎◌, None, OnErr};
    ghost use Rattle.pcp_io.specs.declared.inboxes.Incoming.TheVariants.{Quiet};
    ghost use Rattle.pcp_io.specs.Arrivals.{ComesBy, with_one_fault};
    ghost use Rattle.pcp_io.specs.Faults.{HasCause};
    ghost use Rattle.pcp_io.specs.Takes.{Takes};

    ghost left = { λ _. None };

    ghost faults = { λ b. b.faults };

    fn take(&mut self, room: &mut [u8]) -> Result<Incoming, Failed>
        requires { LONGEST_DATAGRAM ≤ length room.old }
        ensures takes { IfOk result (Takes None None room.new) }
        ensures comes { IfOk result (ComesBy self.old.door) }
        ensures cause { HasCause self.old.faults self.new.faults result }
        ensures same { IfOk result (λ incoming. (self.new ≡ self.old)
            ⊎ ((incoming ≡ Quiet) × (self.new ≡ with_one_fault self.old))) }
        ensures counted { OnErr result (self.new ≡ with_one_fault self.old) }
    {
        match take_by(self.door, &self.socket, room) {
            Ok(incoming) => Ok(incoming),
            Err(trouble) => {
                self.faults = self.faults.saturating_add(1);
                given_after(trouble)
            }
        }
    }

    // Who orders by a datagram hears nothing.
    fn answered(&mut self, _order: u32, _text: &[u8])
        ensures { self.new ≡ self.old }
    {}
}
