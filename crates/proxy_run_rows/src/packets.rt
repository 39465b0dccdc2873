//! The octets of requests and replies.
use pcp_base::{Address, Datagram, Memory, Octets};
use std::alloc::Global;

/// The upstream server.
pub(crate) const SERVER: Address = Address([
    0, 0, 0, 0, 0, 0, 0, 0, 0, 0, 0xff, 0xff, 192, 0, 2, 9,
]);

/// The port of each client.
pub(crate) const CLIENT_PORT: u16 = 40_000;

/// The door by which clients ask.
pub(crate) const CLIENT_DOOR: u8 = 3;

// A MAP request for an hour, in front of the client address.
static REQUEST_FRONT: [u8; 20] = [
    2, 1, 0, 0, 0, 0, 0x0e, 0x10, 0, 0, 0, 0, 0, 0, 0, 0, 0, 0, 0xff, 0xff,
];

// A success of MAP with an hour and epoch 10.
static SUCCESS_HEAD: [u8; 24] = [
    2, 0x81, 0, 0, 0, 0, 0x0e, 0x10, 0, 0, 0, 10, 0, 0, 0, 0, 0, 0, 0, 0, 0, 0, 0, 0,
];

// An error of MAP with code 5, 30 seconds and epoch 11.
static OPTION_HEAD: [u8; 24] = [
    2, 0x81, 0, 5, 0, 0, 0, 30, 0, 0, 0, 11, 0, 0, 0, 0, 0, 0, 0, 0, 0, 0, 0, 0,
];

// What the client is told of that error: code 2, half an hour.
static AUTHORIZED_HEAD: [u8; 24] = [
    2, 0x81, 0, 2, 0, 0, 0x07, 0x08, 0, 0, 0, 11, 0, 0, 0, 0, 0, 0, 0, 0, 0, 0, 0, 0,
];

// The nonce of both clients.
const NONCE: [u8; 12] = [0, 1, 2, 3, 4, 5, 6, 7, 8, 9, 10, 11];

// UDP port 5000 with no suggestion, behind the nonce.
static REQUEST_END: [u8; 24] = [
    17, 0, 0, 0, 0x13, 0x88, 0, 0, 0, 0, 0, 0, 0, 0, 0, 0, 0, 0, 0xff, 0xff, 0, 0, 0, 0,
];

// The same with port 1024 of 192.0.2.1, which the server grants.
static GRANT_END: [u8; 24] = [
    17, 0, 0, 0, 0x13, 0x88, 4, 0, 0, 0, 0, 0, 0, 0, 0, 0, 0, 0, 0xff, 0xff, 192, 0, 2, 1,
];

// THIRD_PARTY in front of the last four octets of its address.
static THIRD_FRONT: [u8; 16] = [1, 0, 0, 16, 0, 0, 0, 0, 0, 0, 0, 0, 0, 0, 0xff, 0xff];

// The first octets of SHA-256 over 32 octets 7, the client's address and its nonce, for 10.0.0.5 and
// for 10.0.0.6.
const UPSTREAM_NONCES: [[u8; 12]; 2] = [
    [
        0xc0, 0x10, 0xef, 0x27, 0x2f, 0x3f, 0xcf, 0x39, 0x2c, 0x56, 0x10, 0x48,
    ],
    [
        0xee, 0x23, 0x42, 0x43, 0x15, 0xf6, 0xf2, 0x7d, 0xce, 0xe4, 0x68, 0x4d,
    ],
];

fn joined(alloc: Global, parts: &[&[u8]]) -> Result<Octets, Memory> {
    let mut octets = Vec::new(alloc);
    for part in parts {
        octets.extend_from_slice(part)?;
    }
    Ok(Octets::of(octets))
}

fn upstream_nonce(last: u8) -> [u8; 12] {
    let [of_five, of_six] = UPSTREAM_NONCES;
    if last == 5 { of_five } else { of_six }
}

/// What 10.0.0.last asks.
pub(crate) fn request(alloc: Global, last: u8) -> Result<Octets, Memory> {
    joined(
        alloc,
        &[&REQUEST_FRONT, &[10, 0, 0, last], &NONCE, &REQUEST_END],
    )
}

/// What the relay at 10.0.0.2 asks upstream for it.
pub(crate) fn request_up(alloc: Global, last: u8) -> Result<Octets, Memory> {
    let nonce = upstream_nonce(last);
    let third = [10, 0, 0, last];
    joined(
        alloc,
        &[
            &REQUEST_FRONT,
            &[10, 0, 0, 2],
            &nonce,
            &REQUEST_END,
            &THIRD_FRONT,
            &third,
        ],
    )
}

/// The server's grant of that.
pub(crate) fn grant_up(alloc: Global, last: u8) -> Result<Octets, Memory> {
    let nonce = upstream_nonce(last);
    let third = [10, 0, 0, last];
    joined(
        alloc,
        &[&SUCCESS_HEAD, &nonce, &GRANT_END, &THIRD_FRONT, &third],
    )
}

/// The server's refusal of THIRD_PARTY.
pub(crate) fn refusal_up(alloc: Global, last: u8) -> Result<Octets, Memory> {
    let nonce = upstream_nonce(last);
    let third = [10, 0, 0, last];
    joined(
        alloc,
        &[&OPTION_HEAD, &nonce, &REQUEST_END, &THIRD_FRONT, &third],
    )
}

/// The grant as the client gets it.
pub(crate) fn grant_down(alloc: Global) -> Result<Octets, Memory> {
    joined(alloc, &[&SUCCESS_HEAD, &NONCE, &GRANT_END])
}

/// The refusal as the client gets it.
pub(crate) fn refusal_down(alloc: Global) -> Result<Octets, Memory> {
    joined(alloc, &[&AUTHORIZED_HEAD, &NONCE, &REQUEST_END])
}

/// A datagram of 10.0.0.last, by the door of clients.
pub(crate) fn from_client(last: u8, octets: Octets) -> Datagram {
    Datagram {
        peer: Address::v4(10, 0, 0, last),
        port: CLIENT_PORT,
        door: CLIENT_DOOR,
        octets,
    }
}

/// A datagram of the server.
pub(crate) fn from_server(octets: Octets) -> Datagram {
    Datagram {
        peer: SERVER,
        port: 5_351,
        door: 0,
        octets,
    }
}
