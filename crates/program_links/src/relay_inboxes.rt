//! What comes to a relay.
ghost use Rattle.std.specs.Prelude.{◌≡◌, ◌≤◌};
ghost use Rattle.pcp_io.specs.Takes.{filled};
ghost use Rattle.program_links.specs.Links.{from_clients, from_orders, from_upstream, heard_at};

use crate::ears::{push_ear, told_by_v6};
use crate::inboxes::{DoorsInbox, Ear};
use pcp_base::{Address, Failed, Memory};
use pcp_io::{Inbox, Incoming, LONGEST_DATAGRAM, ORDER_DOOR};
use std::alloc::Global;
use std::net::UdpSocket;

/// The first door of a relay that isn't an inner one, of which there are 16 at most: there the server
/// answers.
const OWN_DOOR: u8 = 16;

/// What clients send to the inner addresses of a relay, and what the server sends to its own address or
/// announces. What has the server's address counts from upstream alone, and from there nothing else
/// counts. Orders come by 127.0.0.1, port 5350, alone.
#[derive(Drop)]
pub struct RelayInbox {
    server: Address,
    ears: DoorsInbox,
}

impl RelayInbox {
    /// The inbox of these sockets: the inner ones, at most 16, whose doors count from 0, the own one, and
    /// those of `told_and_ordered`, without which no announcements of IPv4 are heard, and no orders. Without
    /// one of the inner ones or the own one, each take fails. The one error is want of memory.
    pub fn of(
        alloc: Global,
        server: Address,
        inner: Vec<Option<UdpSocket>>,
        own: Option<UdpSocket>,
        told: Option<(UdpSocket, UdpSocket)>,
    ) -> Result<RelayInbox, Memory> {
        let mut ears = Vec::new(alloc);
        if let Some((told, ordered)) = told {
            ears.push(Ear::of(ORDER_DOOR, Some(ordered)))?;
            ears.push(Ear::of(OWN_DOOR + 1, Some(told)))?;
        }
        push_ear(&mut ears, OWN_DOOR + 2, told_by_v6())?;
        let mut door = 0u8;
        for socket in inner {
            ears.push(Ear::of(door, socket))?;
            door = door.saturating_add(1);
        }
        ears.push(Ear::of(OWN_DOOR, own))?;
        let ears = DoorsInbox::of(alloc, ears)?;
        Ok(RelayInbox { server, ears })
    }
}

/// What counts of what came by this door.
fn heard_at(door: u8, server: &Address, incoming: Incoming) -> Incoming
    ensures gives { result ≡ heard_at door server.now incoming }
    ensures fits { filled result ≤ filled incoming }
{
    if door == ORDER_DOOR {
        from_orders(server, incoming)
    } else if door < OWN_DOOR {
        from_clients(server, incoming)
    } else {
        from_upstream(server, incoming)
    }
}

/// What counts by the door of orders: these, and datagrams of the server.
fn from_orders(server: &Address, incoming: Incoming) -> Incoming
    ensures gives { result ≡ from_orders server.now incoming }
    ensures fits { filled result ≤ filled incoming }
{
    match incoming {
        Incoming::Packet { .. } => from_upstream(server, incoming),
        order => order,
    }
}

/// What counts of what came from upstream: datagrams of the server.
fn from_upstream(server: &Address, incoming: Incoming) -> Incoming
    ensures gives { result ≡ from_upstream server.now incoming }
    ensures fits { filled result ≤ filled incoming }
{
    match incoming {
        Incoming::Packet { peer, .. } if peer == *server => incoming,
        _ => Incoming::Quiet,
    }
}

/// What counts of what came to an inner address: datagrams of others than the server.
fn from_clients(server: &Address, incoming: Incoming) -> Incoming
    ensures gives { result ≡ from_clients server.now incoming }
    ensures fits { filled result ≤ filled incoming }
{
    match incoming {
        Incoming::Packet { peer, .. } if peer != *server => incoming,
        _ => Incoming::Quiet,
    }
}

impl Inbox for RelayInbox {
    ghost use Rattle.std.specs.Prelude.{None};
    ghost use Rattle.program_links.specs.Ears.{all_faults};

    ghost left = { λ _. None };

    ghost faults = { λ b. all_faults b.ears.ears.items };

    fn take(&mut self, room: &mut [u8]) -> Result<Incoming, Failed> {
        let incoming = self.ears.take(room)?;
        Ok(heard_at(self.ears.last_door(), &self.server, incoming))
    }

    // Who orders by a datagram hears nothing.
    fn answered(&mut self, _order: u32, _text: &[u8]) {}
}
