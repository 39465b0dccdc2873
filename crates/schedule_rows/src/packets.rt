//! Packets, and what the house or the cascade told whose epochs they carry.

use crate::places::ALL;
use pcp_base::{Address, Datagram, Memory, Octets};
use std::alloc::Global;

/// What the house said, or the cascade to its clients: how many losses came before, and when it told
/// which epoch. In seconds.
#[derive(Clone, Copy)]
pub(crate) struct Origin {
    pub(crate) losses: u32,
    pub(crate) second: u32,
    pub(crate) epoch: u32,
}

/// A packet that was sent, and its origin where it is a response.
#[derive(Drop)]
pub(crate) struct Packet {
    pub(crate) from: Address,
    pub(crate) out: Datagram,
    pub(crate) origin: Option<Origin>,
}

/// A packet as it comes.
#[derive(Drop)]
pub(crate) struct Came {
    pub(crate) to: Address,
    pub(crate) datagram: Datagram,
    pub(crate) origin: Option<Origin>,
}

/// The clock, all packets ever sent, and whether all was told as it should be.
#[derive(Drop)]
pub(crate) struct Wire {
    pub(crate) clock_ms: u32,
    pub(crate) packets: Vec<Packet>,
    pub(crate) right: bool,
}

pub(crate) fn datagram(alloc: Global, peer: Address, octets: &[u8]) -> Result<Datagram, Memory> {
    Ok(Datagram {
        peer,
        port: 5_351,
        door: 0,
        octets: Octets::of(octets.to_vec(alloc)?),
    })
}

pub(crate) fn received(alloc: Global, packet: &Packet) -> Result<Came, Memory> {
    Ok(Came {
        to: packet.out.peer,
        datagram: datagram(alloc, packet.from, packet.out.octets.items())?,
        origin: packet.origin,
    })
}

/// What a host asks its server.
pub(crate) fn request(from: Address, server: Address, octets: Octets) -> Packet {
    Packet {
        from,
        out: Datagram {
            peer: server,
            port: 5_351,
            door: 0,
            octets,
        },
        origin: None,
    }
}

/// Whether it comes to the host of an address with this server: it is for that one, or its server told
/// all.
pub(crate) fn is_reached(came: &Came, own: Address, server: Address) -> bool {
    came.to == own || (came.to == ALL && came.datagram.peer == server)
}

/// The number of the four octets from a place on.
pub(crate) fn number_at(octets: &[u8], place: usize) -> u32 {
    match octets.get(place..) {
        Some([a, b, c, d, ..]) => u32::from_be_bytes([*a, *b, *c, *d]),
        _ => 0,
    }
}

/// The number of the two octets from a place on.
pub(crate) fn port_at(octets: &[u8], place: usize) -> u16 {
    match octets.get(place..) {
        Some([a, b, ..]) => u16::from_be_bytes([*a, *b]),
        _ => 0,
    }
}

/// Whether these octets stand at a place.
pub(crate) fn is_at(octets: &[u8], place: usize, wanted: &[u8]) -> bool {
    match octets.get(place..) {
        Some(rest) => rest.starts_with(wanted),
        None => false,
    }
}

fn is_response(octets: &[u8]) -> bool {
    match octets.get(1) {
        Some(opcode) => *opcode >= 128,
        None => false,
    }
}

// Whether a packet that is sent at a second tells at most the epoch of its origin and the seconds since;
// a request has no origin.
fn is_bound(packet: &Packet, second: u32) -> bool {
    let octets = packet.out.octets.items();
    match packet.origin {
        None => !is_response(octets),
        Some(origin) => {
            let since = second.saturating_sub(origin.second);
            is_response(octets) && number_at(octets, 8) <= origin.epoch.saturating_add(since)
        }
    }
}

/// A packet is sent.
pub(crate) fn sends(wire: &mut Wire, packet: Packet) -> Result<(), Memory> {
    wire.right = wire.right && is_bound(&packet, wire.clock_ms / 1000);
    wire.packets.push(packet)?;
    Ok(())
}
