//! Requests for ports.

use pcp_base::{Address, Datagram, Memory, Octets};
use pcp_io::InboxItem;
use std::alloc::Global;

/// The nonces `000102030405060708090a0b`, and twelve octets `ff`.
#[derive(Clone, Copy)]
pub(crate) enum Client {
    First,
    Second,
}

/// A request of the host 10.`second`.0.5 for an external port of this port of its own.
#[derive(Clone, Copy)]
pub(crate) struct Ask {
    pub second: u8,
    pub port: u16,
    pub client: Client,
}

// A MAP request for an hour and any external port of UDP (RFC 6887, sections 7.1 and 11.1).
static MAP: [u8; 60] = [
    0x02, 0x01, 0x00, 0x00, 0x00, 0x00, 0x0e, 0x10, 0x00, 0x00, 0x00, 0x00, 0x00, 0x00, 0x00, 0x00,
    0x00, 0x00, 0xff, 0xff, 0x0a, 0x00, 0x00, 0x05, 0x00, 0x01, 0x02, 0x03, 0x04, 0x05, 0x06, 0x07,
    0x08, 0x09, 0x0a, 0x0b, 0x11, 0x00, 0x00, 0x00, 0x00, 0x00, 0x00, 0x00, 0x00, 0x00, 0x00, 0x00,
    0x00, 0x00, 0x00, 0x00, 0x00, 0x00, 0xff, 0xff, 0x00, 0x00, 0x00, 0x00,
];

/// These octets from the host 10.`second`.0.5, which come by this door.
fn datagram(second: u8, door: u8, octets: Vec<u8>) -> Datagram {
    Datagram {
        peer: Address::v4(10, second, 0, 5),
        port: 40_000,
        door,
        octets: Octets::of(octets),
    }
}

/// Appends the request, which comes by door 0, to what comes in.
pub(crate) fn push_ask(alloc: Global, items: &mut Vec<InboxItem>, ask: Ask) -> Result<(), Memory> {
    push_ask_by(alloc, items, ask, 0)
}

/// Appends the request, which comes by this door.
pub(crate) fn push_ask_by(
    alloc: Global,
    items: &mut Vec<InboxItem>,
    ask: Ask,
    door: u8,
) -> Result<(), Memory> {
    let port = ask.port.to_be_bytes();
    let mut octets = MAP;
    octets[21] = ask.second;
    octets[40] = port[0];
    octets[41] = port[1];
    if matches!(ask.client, Client::Second) {
        octets[24..36].copy_from_slice(&[0xff; 12]);
    }
    let octets = Vec::from_array(alloc, octets)?;
    items.push(InboxItem::Packet(datagram(ask.second, door, octets)))?;
    Ok(())
}

/// Appends a datagram of one octet, which nobody answers.
pub(crate) fn push_stub(alloc: Global, items: &mut Vec<InboxItem>) -> Result<(), Memory> {
    let octets = Vec::from_array(alloc, [2])?;
    items.push(InboxItem::Packet(datagram(0, 0, octets)))?;
    Ok(())
}

/// Whether these octets grant a port.
pub(crate) fn is_grant(octets: &[u8]) -> bool {
    octets.len() == 60 && octets[1] == 0x81 && octets[3] == 0
}

/// Whether these octets refuse a request for the nonce of another client (RFC 6887, section 11.3).
pub(crate) fn is_others(octets: &[u8]) -> bool {
    octets.len() == 60 && octets[1] == 0x81 && octets[3] == 2
}
