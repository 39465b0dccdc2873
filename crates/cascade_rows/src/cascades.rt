//! That a cascade's texts mean these octets, and that its calls succeed with ample memory.
ghost use Rattle.std.specs.Prelude.{◌≤◌, ◌<◌, ◌*◌, ◌^◌};

use pcp_base::{Address, Datagram, Memory, Octets};
use proxy_cascade::{Cascade, CascadeOut, Tie};
use proxy_core::ProxyOut;
use std::alloc::Global;
use std::test::Fail;

const OWN: Address = Address([0, 0, 0, 0, 0, 0, 0, 0, 0, 0, 255, 255, 198, 51, 100, 2]);

const SERVER: Address = Address([0, 0, 0, 0, 0, 0, 0, 0, 0, 0, 255, 255, 192, 0, 2, 9]);

const EXTERNAL: Address = Address([0, 0, 0, 0, 0, 0, 0, 0, 0, 0, 255, 255, 192, 0, 2, 1]);

// MAP of UDP port 5000 for an hour, from 192.168.1.5 with the nonce 000102..0b; the last octet of the
// client address is octet 23
static REQUEST: [u8; 60] = [
    2, 1, 0, 0, 0, 0, 0x0e, 0x10, 0, 0, 0, 0, 0, 0, 0, 0, 0, 0, 0xff, 0xff, 192, 168, 1, 5, 0, 1,
    2, 3, 4, 5, 6, 7, 8, 9, 10, 11, 17, 0, 0, 0, 0x13, 0x88, 0, 0, 0, 0, 0, 0, 0, 0, 0, 0, 0, 0,
    0xff, 0xff, 0, 0, 0, 0,
];

// as 198.51.100.2 asks it for local port 20000, with the first octets of SHA-256 over 32 octets 7,
// 192.168.1.5 and the nonce
static UP_FIVE: [u8; 60] = [
    2, 1, 0, 0, 0, 0, 0x0e, 0x10, 0, 0, 0, 0, 0, 0, 0, 0, 0, 0, 0xff, 0xff, 198, 51, 100, 2, 0x3c,
    0x94, 0xfb, 0xab, 0x1c, 0xc1, 0xa1, 0x67, 0xd1, 0xab, 0xb5, 0xc4, 17, 0, 0, 0, 0x4e, 0x20, 0,
    0, 0, 0, 0, 0, 0, 0, 0, 0, 0, 0, 0xff, 0xff, 0, 0, 0, 0,
];

// that of 192.168.1.6, for local port 20001
static UP_SIX: [u8; 60] = [
    2, 1, 0, 0, 0, 0, 0x0e, 0x10, 0, 0, 0, 0, 0, 0, 0, 0, 0, 0, 0xff, 0xff, 198, 51, 100, 2, 0xd7,
    0x47, 0xfa, 0x5b, 0x8f, 0x37, 0xa7, 0x9f, 0x29, 0x22, 0x85, 0x03, 17, 0, 0, 0, 0x4e, 0x21, 0,
    0, 0, 0, 0, 0, 0, 0, 0, 0, 0, 0, 0xff, 0xff, 0, 0, 0, 0,
];

// code 8 for half a minute, with epoch 1
static NO_ROOM_HEAD: [u8; 24] = [
    2, 0x81, 0, 8, 0, 0, 0, 30, 0, 0, 0, 1, 0, 0, 0, 0, 0, 0, 0, 0, 0, 0, 0, 0,
];

// 192.0.2.1 port 1024 for an hour, to the first request that went up, with epoch 10
static UPSTREAM: [u8; 60] = [
    2, 0x81, 0, 0, 0, 0, 0x0e, 0x10, 0, 0, 0, 10, 0, 0, 0, 0, 0, 0, 0, 0, 0, 0, 0, 0, 0x3c, 0x94,
    0xfb, 0xab, 0x1c, 0xc1, 0xa1, 0x67, 0xd1, 0xab, 0xb5, 0xc4, 17, 0, 0, 0, 0x4e, 0x20, 4, 0, 0,
    0, 0, 0, 0, 0, 0, 0, 0, 0, 0xff, 0xff, 192, 0, 2, 1,
];

// the same refusal of that request: the local port is leased to another nonce for a quarter of an hour
static TAKEN: [u8; 60] = [
    2, 0x81, 0, 2, 0, 0, 3, 0x84, 0, 0, 0, 10, 0, 0, 0, 0, 0, 0, 0, 0, 0, 0, 0, 0, 0x3c, 0x94,
    0xfb, 0xab, 0x1c, 0xc1, 0xa1, 0x67, 0xd1, 0xab, 0xb5, 0xc4, 17, 0, 0, 0, 0x4e, 0x20, 0, 0, 0,
    0, 0, 0, 0, 0, 0, 0, 0, 0, 0xff, 0xff, 0, 0, 0, 0,
];

// what 192.168.1.5 asks then, for local port 20001
static UP_FIVE_AGAIN: [u8; 60] = [
    2, 1, 0, 0, 0, 0, 0x0e, 0x10, 0, 0, 0, 0, 0, 0, 0, 0, 0, 0, 0xff, 0xff, 198, 51, 100, 2, 0x3c,
    0x94, 0xfb, 0xab, 0x1c, 0xc1, 0xa1, 0x67, 0xd1, 0xab, 0xb5, 0xc4, 17, 0, 0, 0, 0x4e, 0x21, 0,
    0, 0, 0, 0, 0, 0, 0, 0, 0, 0, 0, 0xff, 0xff, 0, 0, 0, 0,
];

// as 192.168.1.5 is told it, with epoch 3
static TOLD: [u8; 60] = [
    2, 0x81, 0, 0, 0, 0, 0x0e, 0x10, 0, 0, 0, 3, 0, 0, 0, 0, 0, 0, 0, 0, 0, 0, 0, 0, 0, 1, 2, 3, 4,
    5, 6, 7, 8, 9, 10, 11, 17, 0, 0, 0, 0x13, 0x88, 4, 0, 0, 0, 0, 0, 0, 0, 0, 0, 0, 0, 0xff, 0xff,
    192, 0, 2, 1,
];

// ANNOUNCE, from 192.168.1.5
static ANNOUNCE: [u8; 24] = [
    2, 0, 0, 0, 0, 0, 0, 0, 0, 0, 0, 0, 0, 0, 0, 0, 0, 0, 0xff, 0xff, 192, 168, 1, 5,
];

// an ANNOUNCE response with this epoch
fn announced(epoch: u16) -> [u8; 24] {
    let [high, low] = epoch.to_be_bytes();
    [
        2, 0x80, 0, 0, 0, 0, 0, 0, 0, 0, high, low, 0, 0, 0, 0, 0, 0, 0, 0, 0, 0, 0, 0,
    ]
}

// the door by which clients ask
const DOOR: u8 = 3;

fn datagram(alloc: Global, peer: Address, door: u8, octets: &[u8]) -> Result<Datagram, Memory> {
    Ok(Datagram {
        peer,
        port: 40_000,
        door,
        octets: Octets::of(octets.to_vec(alloc)?),
    })
}

// the request from 192.168.1.last by this door
fn request(alloc: Global, last: u8, door: u8) -> Result<Datagram, Memory> {
    let mut octets = REQUEST.to_vec(alloc)?;
    if let Some(octet) = octets.get_mut(23) {
        *octet = last;
    }
    datagram(alloc, Address::v4(192, 168, 1, last), door, &octets)
}

// a cascade with these two local ports, at time 0
fn new_cascade(alloc: Global, low: u16, high: u16) -> Result<Cascade, Memory>
    requires some { 1 ≤ low }
    requires ordered { low ≤ high }
{
    Cascade::new(alloc, OWN, SERVER, [7; 32], low, high, 0)
}

fn is_to(d: &Datagram, peer: Address, port: u16, door: u8, octets: &[u8]) -> bool {
    d.peer == peer && d.port == port && d.door == door && d.octets.items() == octets
}

fn goes_up(out: &ProxyOut, octets: &[u8]) -> bool {
    match out {
        ProxyOut::Up(text) => text.items() == octets,
        _ => false,
    }
}

// whether 192.168.1.last is told these octets, by the door by which it asked
fn is_told(out: &ProxyOut, last: u8, octets: &[u8]) -> bool {
    match out {
        ProxyOut::Reply(d) => is_to(d, Address::v4(192, 168, 1, last), 40_000, DOOR, octets),
        _ => false,
    }
}

// What is given for the request from 192.168.1.last, which comes by another door first.
fn asked(alloc: Global, cascade: &mut Cascade, last: u8) -> Result<ProxyOut, Memory> {
    cascade.from_client(alloc, &request(alloc, last, 4)?, 1_000)?;
    cascade.from_client(alloc, &request(alloc, last, DOOR)?, 1_000)
}

fn is_asked_up(alloc: Global, cascade: &mut Cascade, last: u8, up: &[u8]) -> Result<bool, Memory> {
    Ok(goes_up(&asked(alloc, cascade, last)?, up))
}

// the error reply to the request, with this head
fn refused(alloc: Global, head: &[u8; 24]) -> Result<Vec<u8>, Memory> {
    let mut octets = head.to_vec(alloc)?;
    octets.extend_from_slice(REQUEST.get(24..).unwrap_or(&[]))?;
    Ok(octets)
}

fn is_refused(alloc: Global, cascade: &mut Cascade, last: u8) -> Result<bool, Memory> {
    let out = asked(alloc, cascade, last)?;
    Ok(is_told(&out, last, &refused(alloc, &NO_ROOM_HEAD)?))
}

// Whether two clients with one port get two local ports, and the third gets none.
fn are_tied(alloc: Global, cascade: &mut Cascade) -> Result<bool, Memory> {
    let five = is_asked_up(alloc, cascade, 5, &UP_FIVE)?;
    let six = is_asked_up(alloc, cascade, 6, &UP_SIX)?;
    let seven = is_refused(alloc, cascade, 7)?;
    Ok(five && six && seven)
}

// what is given for the upstream server's answer
fn answered(alloc: Global, cascade: &mut Cascade) -> Result<CascadeOut, Memory> {
    cascade.from_server(alloc, &datagram(alloc, SERVER, 0, &UPSTREAM)?, 3_000)
}

fn is_sent(sent: &CascadeOut, peer: Address, port: u16, door: u8, octets: &[u8]) -> bool {
    match sent {
        CascadeOut::Down(d) => is_to(d, peer, port, door, octets),
        _ => false,
    }
}

fn is_nothing(sent: &CascadeOut) -> bool {
    match sent {
        CascadeOut::Nothing => true,
        _ => false,
    }
}

// Whether the upstream server's answer is told to the client as this, once, by the door of its later
// request.
fn is_answered(alloc: Global, cascade: &mut Cascade, told: &[u8]) -> Result<bool, Memory> {
    let first = answered(alloc, cascade)?;
    let again = answered(alloc, cascade)?;
    let client = Address::v4(192, 168, 1, 5);
    Ok(is_sent(&first, client, 40_000, DOOR, told) && is_nothing(&again))
}

fn is_granted(tie: &Tie) -> bool {
    tie.granted
        && tie.local == 20_000
        && tie.address == EXTERNAL
        && tie.external == 1_024
        && tie.until_ms == 3_603_000
}

// Whether there are two ties, of which the first is granted.
fn are_listed(ties: &[Tie]) -> bool {
    match ties {
        [first, second] => is_granted(first) && !second.granted && second.local == 20_001,
        _ => false,
    }
}

fn tells_the_upstream_port(alloc: Global, cascade: &mut Cascade) -> Result<bool, Memory> {
    let tied = are_tied(alloc, cascade)?;
    let answered = is_answered(alloc, cascade, &TOLD)?;
    let ties = cascade.ties(alloc)?;
    Ok(tied && answered && are_listed(&ties))
}

#[test]
fn the_upstream_port_is_told(rt: HostRuntime) -> Result<(), Fail> {
    let alloc = rt.alloc();
    assert!(rt; tells_the_upstream_port(alloc, &mut new_cascade(alloc, 20_000, 20_001)?)?);
    Ok(())
}

// Whether an upstream ANNOUNCE with this epoch gives an ANNOUNCE reply with epoch 0 to all clients.
fn announces(alloc: Global, cascade: &mut Cascade, epoch: u16, now_ms: u64) -> Result<bool, Memory>
    requires { now_ms < 1000 * 2 ^ 40 }
{
    let reply = datagram(alloc, SERVER, 0, &announced(epoch))?;
    let sent = cascade.from_server(alloc, &reply, now_ms)?;
    let everyone = Address::v4(224, 0, 0, 1);
    Ok(is_sent(&sent, everyone, 5_350, 0, &announced(0)))
}

// whether 192.168.1.5 is told this epoch
fn tells(alloc: Global, cascade: &mut Cascade, epoch: u16) -> Result<bool, Memory> {
    let asked = datagram(alloc, Address::v4(192, 168, 1, 5), DOOR, &ANNOUNCE)?;
    let out = cascade.from_client(alloc, &asked, 112_000)?;
    Ok(is_told(&out, 5, &announced(epoch)))
}

// Whether the server's epoch 5 after 600 is a loss, from which on epochs count.
fn announces_a_loss(alloc: Global, cascade: &mut Cascade) -> Result<bool, Memory> {
    let first = announces(alloc, cascade, 600, 100_000)?;
    let second = announces(alloc, cascade, 5, 110_000)?;
    let told = tells(alloc, cascade, 2)?;
    Ok(!first && second && told)
}

#[test]
fn a_loss_upstream_is_announced(rt: HostRuntime) -> Result<(), Fail> {
    let alloc = rt.alloc();
    assert!(rt; announces_a_loss(alloc, &mut new_cascade(alloc, 20_000, 20_001)?)?);
    Ok(())
}

fn goes_up_again(sent: &CascadeOut, octets: &[u8]) -> bool {
    match sent {
        CascadeOut::Up(text) => text.items() == octets,
        _ => false,
    }
}

// Whether another local port is asked for where the first is leased to another nonce upstream, and the
// first one is no other client's before that lease has ended.
fn asks_for_another_port(alloc: Global, cascade: &mut Cascade) -> Result<bool, Memory> {
    let first = is_asked_up(alloc, cascade, 5, &UP_FIVE)?;
    let sent = cascade.from_server(alloc, &datagram(alloc, SERVER, 0, &TAKEN)?, 3_000)?;
    let full = cascade.from_client(alloc, &request(alloc, 6, DOOR)?, 3_500)?;
    let free = cascade.from_client(alloc, &request(alloc, 6, DOOR)?, 903_000)?;
    let refused = match full {
        ProxyOut::Reply(_reply) => true,
        _ => false,
    };
    let up = match free {
        ProxyOut::Up(_text) => true,
        _ => false,
    };
    Ok(first && goes_up_again(&sent, &UP_FIVE_AGAIN) && refused && up)
}

#[test]
fn another_local_port_is_asked_for(rt: HostRuntime) -> Result<(), Fail> {
    let alloc = rt.alloc();
    assert!(rt; asks_for_another_port(alloc, &mut new_cascade(alloc, 20_000, 20_001)?)?);
    Ok(())
}

// the request from 192.168.1.5 for UDP port 5000 + n, whose last octet is octet 41
fn request_for(alloc: Global, n: u8) -> Result<Datagram, Memory> {
    let mut octets = REQUEST.to_vec(alloc)?;
    if let Some(octet) = octets.get_mut(41) {
        *octet = octet.wrapping_add(n);
    }
    datagram(alloc, Address::v4(192, 168, 1, 5), DOOR, &octets)
}

// Whether 64 requests of a client go up, and one more doesn't.
fn fills_its_quota(alloc: Global, cascade: &mut Cascade) -> Result<bool, Memory> {
    for n in 0..64 {
        cascade.from_client(alloc, &request_for(alloc, n)?, 1_000)?;
    }
    let beyond = cascade.from_client(alloc, &request_for(alloc, 64)?, 1_000)?;
    let refused = match beyond {
        ProxyOut::Reply(_reply) => true,
        _ => false,
    };
    Ok(refused && cascade.ties(alloc)?.len() == 64)
}

// Whether a client with as many ties as it may have gets another local port for one of them too.
fn asks_at_the_quota(alloc: Global, cascade: &mut Cascade) -> Result<bool, Memory> {
    let full = fills_its_quota(alloc, cascade)?;
    let sent = cascade.from_server(alloc, &datagram(alloc, SERVER, 0, &TAKEN)?, 3_000)?;
    let mut up = UP_FIVE_AGAIN;
    up[41] = 0x60;
    Ok(full && goes_up_again(&sent, &up))
}

#[test]
fn another_local_port_is_asked_for_at_the_quota(rt: HostRuntime) -> Result<(), Fail> {
    let alloc = rt.alloc();
    assert!(rt; asks_at_the_quota(alloc, &mut new_cascade(alloc, 20_000, 20_064)?)?);
    Ok(())
}
