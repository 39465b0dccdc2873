//! The octets of requests and replies.
use pcp_base::{Address, Datagram, Memory, Octets};
use std::alloc::Global;

/// The upstream server.
pub(crate) const SERVER: Address = Address([
    0, 0, 0, 0, 0, 0, 0, 0, 0, 0, 0xff, 0xff, 192, 0, 2, 9,
]);

/// The port of each client.
pub(crate) const CLIENT_PORT: u16 = 40_000;

/// The door by which clients ask.
pub(crate) const CLIENT_DOOR: u8 = 3;

// A MAP request for an hour, in front of the last four octets of the client address.
static REQUEST_FRONT: [u8; 20] = [
    2, 1, 0, 0, 0, 0, 0x0e, 0x10, 0, 0, 0, 0, 0, 0, 0, 0, 0, 0, 0xff, 0xff,
];

// A success of MAP with an hour and epoch 10.
static UPSTREAM_HEAD: [u8; 24] = [
    2, 0x81, 0, 0, 0, 0, 0x0e, 0x10, 0, 0, 0, 10, 0, 0, 0, 0, 0, 0, 0, 0, 0, 0, 0, 0,
];

// The same with epoch 3.
static SUCCESS_HEAD: [u8; 24] = [
    2, 0x81, 0, 0, 0, 0, 0x0e, 0x10, 0, 0, 0, 3, 0, 0, 0, 0, 0, 0, 0, 0, 0, 0, 0, 0,
];

// Code 8 with 30 seconds and epoch 1.
static FULL_HEAD: [u8; 24] = [
    2, 0x81, 0, 8, 0, 0, 0, 30, 0, 0, 0, 1, 0, 0, 0, 0, 0, 0, 0, 0, 0, 0, 0, 0,
];

// A success of ANNOUNCE in front of its epoch.
static ANNOUNCE_FRONT: [u8; 8] = [2, 0x80, 0, 0, 0, 0, 0, 0];

// The nonce of all clients.
const NONCE: [u8; 12] = [0, 1, 2, 3, 4, 5, 6, 7, 8, 9, 10, 11];

// UDP, in front of the internal port.
static UDP: [u8; 4] = [17, 0, 0, 0];

// Port 5000.
const PORT: [u8; 2] = [0x13, 0x88];

// No external port is suggested, and no address.
static UNSUGGESTED: [u8; 18] = [0, 0, 0, 0, 0, 0, 0, 0, 0, 0, 0, 0, 0xff, 0xff, 0, 0, 0, 0];

// Port 1024 of 192.0.2.1.
static GRANTED: [u8; 18] = [4, 0, 0, 0, 0, 0, 0, 0, 0, 0, 0, 0, 0xff, 0xff, 192, 0, 2, 1];

// The first octets of SHA-256 over 32 octets 7, the client's address and its nonce, for
// 192.168.1.5 and for 192.168.1.6.
const UPSTREAM_NONCES: [[u8; 12]; 2] = [
    [
        0x3c, 0x94, 0xfb, 0xab, 0x1c, 0xc1, 0xa1, 0x67, 0xd1, 0xab, 0xb5, 0xc4,
    ],
    [
        0xd7, 0x47, 0xfa, 0x5b, 0x8f, 0x37, 0xa7, 0x9f, 0x29, 0x22, 0x85, 0x03,
    ],
];

// Ports 20000 and 20001.
const LOCALS: [[u8; 2]; 2] = [[0x4e, 0x20], [0x4e, 0x21]];

fn joined(alloc: Global, parts: &[&[u8]]) -> Result<Octets, Memory> {
    let mut octets = Vec::new(alloc);
    for part in parts {
        octets.extend_from_slice(part)?;
    }
    Ok(Octets::of(octets))
}

// The nonce by which the cascade asks for 192.168.1.last, and the local port.
fn upstream(last: u8) -> ([u8; 12], [u8; 2]) {
    let [of_five, of_six] = UPSTREAM_NONCES;
    let [lowest, highest] = LOCALS;
    if last == 5 {
        (of_five, lowest)
    } else {
        (of_six, highest)
    }
}

/// What 192.168.1.last asks.
pub(crate) fn request(alloc: Global, last: u8) -> Result<Octets, Memory> {
    let client = [192, 168, 1, last];
    joined(
        alloc,
        &[&REQUEST_FRONT, &client, &NONCE, &UDP, &PORT, &UNSUGGESTED],
    )
}

/// What the cascade at 198.51.100.2 asks upstream for it.
pub(crate) fn request_up(alloc: Global, last: u8) -> Result<Octets, Memory> {
    let own = [198, 51, 100, 2];
    let (nonce, local) = upstream(last);
    joined(
        alloc,
        &[&REQUEST_FRONT, &own, &nonce, &UDP, &local, &UNSUGGESTED],
    )
}

/// The server's grant of that.
pub(crate) fn grant_up(alloc: Global, last: u8) -> Result<Octets, Memory> {
    let (nonce, local) = upstream(last);
    joined(alloc, &[&UPSTREAM_HEAD, &nonce, &UDP, &local, &GRANTED])
}

/// The grant as the client gets it.
pub(crate) fn grant_down(alloc: Global) -> Result<Octets, Memory> {
    joined(alloc, &[&SUCCESS_HEAD, &NONCE, &UDP, &PORT, &GRANTED])
}

/// What a client gets for whom no port is left.
pub(crate) fn full_down(alloc: Global) -> Result<Octets, Memory> {
    joined(alloc, &[&FULL_HEAD, &NONCE, &UDP, &PORT, &UNSUGGESTED])
}

/// What all clients hear of this epoch, below 256.
pub(crate) fn announcement(alloc: Global, epoch: u8) -> Result<Octets, Memory> {
    joined(alloc, &[&ANNOUNCE_FRONT, &[0, 0, 0, epoch], &[0; 12]])
}

/// A datagram of 192.168.1.last, by the door of clients.
pub(crate) fn from_client(last: u8, octets: Octets) -> Datagram {
    Datagram {
        peer: Address::v4(192, 168, 1, last),
        port: CLIENT_PORT,
        door: CLIENT_DOOR,
        octets,
    }
}

/// A datagram of the server.
pub(crate) fn from_server(octets: Octets) -> Datagram {
    Datagram {
        peer: SERVER,
        port: 5_351,
        door: 0,
        octets,
    }
}
