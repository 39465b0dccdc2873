//! Requests for ports, each with a nonce of its own, and what replies tell of them.

use pcp_base::{Address, Datagram, Memory, Octets};
use std::alloc::Global;

/// A request at this external address, with this number there.
#[derive(Clone, Copy, PartialEq, Eq)]
pub(crate) struct Ask {
    pub shard: u8,
    pub number: u16,
}

// A MAP request of 10.100.0.0 for UDP port 0 (RFC 6887, sections 7.1 and 11.1).
static MAP: [u8; 60] = [
    0x02, 0x01, 0x00, 0x00, 0x00, 0x00, 0x00, 0x00, 0x00, 0x00, 0x00, 0x00, 0x00, 0x00, 0x00, 0x00,
    0x00, 0x00, 0xff, 0xff, 0x0a, 0x64, 0x00, 0x00, 0x00, 0x00, 0x00, 0x00, 0x04, 0x05, 0x06, 0x07,
    0x08, 0x09, 0x0a, 0x0b, 0x11, 0x00, 0x00, 0x00, 0x00, 0x00, 0x00, 0x00, 0x00, 0x00, 0x00, 0x00,
    0x00, 0x00, 0x00, 0x00, 0x00, 0x00, 0xff, 0xff, 0x00, 0x00, 0x00, 0x00,
];

/// The request, for one of 50 ports of a host. Its nonce tells which one it is.
pub(crate) fn request(alloc: Global, ask: Ask) -> Result<Datagram, Memory> {
    request_for(alloc, ask, 3_600)
}

/// The request that ends what `request` asked for.
pub(crate) fn deletion(alloc: Global, ask: Ask) -> Result<Datagram, Memory> {
    request_for(alloc, ask, 0)
}

/// The request for so many seconds.
fn request_for(alloc: Global, ask: Ask, lifetime: u16) -> Result<Datagram, Memory> {
    let second = ask.shard.saturating_add(100);
    let host = (ask.number / 50).to_be_bytes();
    let port = (5_000 + ask.number % 50).to_be_bytes();
    let number = ask.number.to_be_bytes();
    let lifetime = lifetime.to_be_bytes();
    let mut octets = MAP;
    octets[6] = lifetime[0];
    octets[7] = lifetime[1];
    octets[21] = second;
    octets[22] = host[0];
    octets[23] = host[1];
    octets[24] = ask.shard;
    octets[26] = number[0];
    octets[27] = number[1];
    octets[40] = port[0];
    octets[41] = port[1];
    Ok(Datagram {
        peer: Address::v4(10, second, host[0], host[1]),
        port: 40_000,
        door: 0,
        octets: Octets::of(Vec::from_array(alloc, octets)?),
    })
}

/// The request that a reply grants; none where it is no success.
pub(crate) fn granted_by(octets: &[u8]) -> Option<Ask> {
    if octets.len() != 60 || octets[1] != 0x81 || octets[3] != 0 {
        return None;
    }
    Some(Ask {
        shard: octets[24],
        number: u16::from_be_bytes([octets[26], octets[27]]),
    })
}
