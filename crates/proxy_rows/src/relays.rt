//! That a relay's texts mean these octets, and that its calls succeed with ample memory.
use pcp_base::{Address, Code, Datagram, Memory, Nonce, Octets, Prefix, Prefixes};
use proxy_core::{Proxy, ProxyOut, upstream_nonce, write_relayed};
use std::alloc::Global;
use std::test::Fail;

const OWN: Address = Address([0, 0, 0, 0, 0, 0, 0, 0, 0, 0, 255, 255, 10, 0, 0, 2]);

const SERVER: Address = Address([0, 0, 0, 0, 0, 0, 0, 0, 0, 0, 255, 255, 192, 0, 2, 9]);

const NONCE: Nonce = Nonce([0, 1, 2, 3, 4, 5, 6, 7, 8, 9, 10, 11]);

// MAP of UDP port 5000 for an hour, from 10.0.0.5; the last octet of the client address is octet 23
static REQUEST: [u8; 60] = [
    2, 1, 0, 0, 0, 0, 0x0e, 0x10, 0, 0, 0, 0, 0, 0, 0, 0, 0, 0, 0xff, 0xff, 10, 0, 0, 5, 0, 1, 2,
    3, 4, 5, 6, 7, 8, 9, 10, 11, 17, 0, 0, 0, 0x13, 0x88, 0, 0, 0, 0, 0, 0, 0, 0, 0, 0, 0, 0, 0xff,
    0xff, 0, 0, 0, 0,
];

// the first octets of SHA-256 over 32 octets 7, 10.0.0.5 and the nonce
const UPSTREAM_NONCE: [u8; 12] = [
    0xc0, 0x10, 0xef, 0x27, 0x2f, 0x3f, 0xcf, 0x39, 0x2c, 0x56, 0x10, 0x48,
];

// the request as 10.0.0.2 asks it for 10.0.0.5, with that nonce
static UPSTREAM: [u8; 80] = [
    2, 1, 0, 0, 0, 0, 0x0e, 0x10, 0, 0, 0, 0, 0, 0, 0, 0, 0, 0, 0xff, 0xff, 10, 0, 0, 2, 0xc0,
    0x10, 0xef, 0x27, 0x2f, 0x3f, 0xcf, 0x39, 0x2c, 0x56, 0x10, 0x48, 17, 0, 0, 0, 0x13, 0x88, 0,
    0, 0, 0, 0, 0, 0, 0, 0, 0, 0, 0, 0xff, 0xff, 0, 0, 0, 0, 1, 0, 0, 16, 0, 0, 0, 0, 0, 0, 0, 0,
    0, 0, 0xff, 0xff, 10, 0, 0, 5,
];

// a success of MAP with an hour and epoch 10, and an error of MAP with code 5
static SUCCESS_HEAD: [u8; 24] = [
    2, 0x81, 0, 0, 0, 0, 0x0e, 0x10, 0, 0, 0, 10, 0, 0, 0, 0, 0, 0, 0, 0, 0, 0, 0, 0,
];

static OPTION_HEAD: [u8; 24] = [
    2, 0x81, 0, 5, 0, 0, 0, 30, 0, 0, 0, 11, 0, 0, 0, 0, 0, 0, 0, 0, 0, 0, 0, 0,
];
// what the client is told of that error: code 2, half an hour
static AUTHORIZED_HEAD: [u8; 24] = [
    2, 0x81, 0, 2, 0, 0, 0x07, 0x08, 0, 0, 0, 11, 0, 0, 0, 0, 0, 0, 0, 0, 0, 0, 0, 0,
];

// the door by which clients ask
const DOOR: u8 = 3;

fn datagram(alloc: Global, peer: Address, door: u8, octets: &[u8]) -> Result<Datagram, Memory> {
    Ok(Datagram {
        peer,
        port: 40_000,
        door,
        octets: Octets::of(octets.to_vec(alloc)?),
    })
}

// the request from 10.0.0.last by this door
fn request(alloc: Global, last: u8, door: u8) -> Result<Datagram, Memory> {
    let mut octets = REQUEST.to_vec(alloc)?;
    if let Some(octet) = octets.get_mut(23) {
        *octet = last;
    }
    datagram(alloc, Address::v4(10, 0, 0, last), door, &octets)
}

// this head, and what stands behind the head of a message
fn under(alloc: Global, head: &[u8; 24], message: &[u8]) -> Result<Vec<u8>, Memory> {
    let mut octets = head.to_vec(alloc)?;
    octets.extend_from_slice(message.get(24..).unwrap_or(&[]))?;
    Ok(octets)
}

// The relay passes on the THIRD_PARTY of 10.0.0.7.
fn new_relay(alloc: Global) -> Result<Proxy, Memory> {
    let trusted = Prefix {
        bits: 128,
        address: Address::v4(10, 0, 0, 7),
    };
    let third_party = Prefixes::of(vec![in alloc; trusted]?);
    Proxy::new(alloc, OWN, SERVER, [7; 32], third_party)
}

// What goes up of the request of 10.0.0.last by this door; nothing is an empty text.
fn asked_up(
    alloc: Global,
    relay: &mut Proxy,
    last: u8,
    door: u8,
    now_ms: u64,
) -> Result<Octets, Memory> {
    match relay.from_client(alloc, &request(alloc, last, door)?, now_ms)? {
        ProxyOut::Up(octets) => Ok(octets),
        _ => Ok(Octets::of(Vec::new(alloc))),
    }
}

fn is_to(down: &Option<Datagram>, peer: Address, port: u16, door: u8, octets: &[u8]) -> bool {
    match down {
        Some(d) => {
            d.peer == peer && d.port == port && d.door == door && d.octets.items() == octets
        }
        None => false,
    }
}

// Whether 10.0.0.last is told, once, the second head over its request where the server says the first one
// over what went up, twice. It asks by another door first, and is told by the one of its later request.
fn is_answered(
    alloc: Global,
    relay: &mut Proxy,
    last: u8,
    said: &[u8; 24],
    told: &[u8; 24],
) -> Result<bool, Memory> {
    asked_up(alloc, relay, last, 4, 1_000)?;
    let up = asked_up(alloc, relay, last, DOOR, 1_000)?;
    let reply = datagram(alloc, SERVER, 0, &under(alloc, said, up.items())?)?;
    let first = relay.from_server(alloc, &reply, 2_000)?;
    let again = relay.from_server(alloc, &reply, 2_000)?;
    let wanted = under(alloc, told, &REQUEST)?;
    let peer = Address::v4(10, 0, 0, last);
    Ok(is_to(&first, peer, 40_000, DOOR, &wanted) && again.is_none())
}

fn is_written(alloc: Global, wanted: &[u8]) -> Result<bool, Memory> {
    let mut out = Vec::new(alloc);
    write_relayed(alloc, &mut out, &REQUEST, Code::NotAuthorized, 1_800, 11)?;
    Ok(out.as_slice() == wanted)
}

#[test]
fn texts(rt: HostRuntime) -> Result<(), Fail> {
    let alloc = rt.alloc();
    assert!(rt; upstream_nonce(&[7; 32], &Address::v4(10, 0, 0, 5), &NONCE).0 == UPSTREAM_NONCE);
    assert!(rt; is_written(alloc, &under(alloc, &AUTHORIZED_HEAD, &REQUEST)?)?);
    let up = asked_up(alloc, &mut new_relay(alloc)?, 5, DOOR, 1_000)?;
    assert!(rt; up.items() == UPSTREAM.as_slice());
    Ok(())
}

// Two clients with one nonce and one port; then an upstream server that doesn't let the relay ask for
// others.
fn are_pairs(alloc: Global, relay: &mut Proxy) -> Result<bool, Memory> {
    let five = is_answered(alloc, relay, 5, &SUCCESS_HEAD, &SUCCESS_HEAD)?;
    let six = is_answered(alloc, relay, 6, &SUCCESS_HEAD, &SUCCESS_HEAD)?;
    let refused = is_answered(alloc, relay, 5, &OPTION_HEAD, &AUTHORIZED_HEAD)?;
    Ok(five && six && refused)
}

#[test]
fn pairs(rt: HostRuntime) -> Result<(), Fail> {
    let alloc = rt.alloc();
    assert!(rt; are_pairs(alloc, &mut new_relay(alloc)?)?);
    Ok(())
}

// Whether the relay answers with this epoch, by the door by which it was asked.
fn tells_epoch(out: &ProxyOut, epoch: u8) -> bool {
    match out {
        ProxyOut::Reply(reply) => {
            reply.door == DOOR && reply.octets.items().get(11) == Some(&epoch)
        }
        _ => false,
    }
}

// It says nothing before it heard an epoch; then the announcement goes on, and two seconds later, by whole
// seconds, the relay answers by itself.
fn is_announced(alloc: Global, relay: &mut Proxy) -> Result<bool, Memory> {
    let asked = datagram(alloc, Address::v4(10, 0, 0, 5), DOOR, &ASKED)?;
    let told = datagram(alloc, SERVER, 0, &TOLD)?;
    let before = relay.from_client(alloc, &asked, 0)?;
    let down = relay.from_server(alloc, &told, 1_900)?;
    let after = relay.from_client(alloc, &asked, 3_100)?;
    let everyone = Address::v4(224, 0, 0, 1);
    Ok(is_nothing(&before) && is_to(&down, everyone, 5_350, 0, &TOLD) && tells_epoch(&after, 12))
}

fn is_nothing(out: &ProxyOut) -> bool {
    match out {
        ProxyOut::Nothing => true,
        _ => false,
    }
}

#[test]
fn announcements(rt: HostRuntime) -> Result<(), Fail> {
    let alloc = rt.alloc();
    assert!(rt; is_announced(alloc, &mut new_relay(alloc)?)?);
    Ok(())
}

// The request of 10.0.0.last for 10.0.0.9.
fn for_another(alloc: Global, last: u8) -> Result<Datagram, Memory> {
    let mut octets = request(alloc, last, DOOR)?.octets.items().to_vec(alloc)?;
    octets.extend_from_slice(&[1, 0, 0, 16])?;
    octets.extend_from_slice(&Address::v4(10, 0, 0, 9).0)?;
    datagram(alloc, Address::v4(10, 0, 0, last), DOOR, &octets)
}

// The code of the relay's own reply to that; none where the request goes up.
fn refused(alloc: Global, relay: &mut Proxy, last: u8) -> Result<Option<u8>, Memory> {
    match relay.from_client(alloc, &for_another(alloc, last)?, 2_000)? {
        ProxyOut::Reply(reply) => Ok(reply.octets.items().get(3).copied()),
        _ => Ok(None),
    }
}

// 10.0.0.7 may ask for another host, and nobody else.
#[test]
fn third_parties(rt: HostRuntime) -> Result<(), Fail> {
    let alloc = rt.alloc();
    let mut relay = new_relay(alloc)?;
    relay.from_server(alloc, &datagram(alloc, SERVER, 0, &TOLD)?, 1_900)?;
    assert!(rt; refused(alloc, &mut relay, 7)? == None);
    assert!(rt; refused(alloc, &mut relay, 6)? == Some(5));
    Ok(())
}

// How many requests go at these times of one that was asked at 4,000 milliseconds.
fn dropped(alloc: Global, relay: &mut Proxy) -> Result<[u32; 3], Memory> {
    asked_up(alloc, relay, 5, DOOR, 4_000)?;
    let early = relay.tick(63_999);
    let due = relay.tick(64_000);
    let late = relay.tick(64_000);
    Ok([early, due, late])
}

#[test]
fn waits(rt: HostRuntime) -> Result<(), Fail> {
    let alloc = rt.alloc();
    assert!(rt; dropped(alloc, &mut new_relay(alloc)?)? == [0, 1, 0]);
    Ok(())
}

// ANNOUNCE from 10.0.0.5, and the response to one with epoch 10
static ASKED: [u8; 24] = [
    2, 0, 0, 0, 0, 0, 0, 0, 0, 0, 0, 0, 0, 0, 0, 0, 0, 0, 0xff, 0xff, 10, 0, 0, 5,
];

static TOLD: [u8; 24] = [
    2, 0x80, 0, 0, 0, 0, 0, 0, 0, 0, 0, 10, 0, 0, 0, 0, 0, 0, 0, 0, 0, 0, 0, 0,
];
