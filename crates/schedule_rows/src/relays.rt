//! Relays with two inner addresses, and what they make of packets.

use crate::packets::{Came, Origin, Packet, Wire, datagram, is_reached, request, sends};
use crate::places::ALL;
use pcp_base::{Address, Datagram, Memory, Prefixes};
use proxy_core::{Proxy, ProxyOut};
use std::alloc::Global;

/// A relay, and the origin of the last epoch that it heard.
#[derive(Drop)]
pub(crate) struct Relay {
    proxy: Proxy,
    own: Address,
    /// Each that of a door.
    inner: [Address; 2],
    server: Address,
    origin: Option<Origin>,
}

/// A relay with a key of octets that are all the same, which passes on the THIRD_PARTY of these.
pub(crate) fn new_relay(
    alloc: Global,
    own: Address,
    inner: [Address; 2],
    server: Address,
    key: u8,
    third_party: Prefixes,
) -> Result<Relay, Memory> {
    Ok(Relay {
        proxy: Proxy::new(alloc, own, server, [key; 32], third_party)?,
        own,
        inner,
        server,
        origin: None,
    })
}

fn sent(from: Address, out: Datagram, origin: Option<Origin>) -> Packet {
    Packet { from, out, origin }
}

// A reply leaves from the inner address of its door.
fn replies(
    relay: &Relay,
    wire: &mut Wire,
    out: Datagram,
    origin: Option<Origin>,
) -> Result<(), Memory> {
    let [first, second] = relay.inner;
    match out.door {
        0 => sends(wire, sent(first, out, origin)),
        1 => sends(wire, sent(second, out, origin)),
        _ => {
            wire.right = false;
            Ok(())
        }
    }
}

// An announcement leaves from both.
fn announces(
    alloc: Global,
    relay: &Relay,
    wire: &mut Wire,
    out: Datagram,
    origin: Option<Origin>,
) -> Result<(), Memory> {
    let [first, second] = relay.inner;
    let again = datagram(alloc, ALL, out.octets.items())?;
    sends(wire, sent(first, again, origin))?;
    sends(wire, sent(second, out, origin))
}

fn hears_server(
    alloc: Global,
    relay: &mut Relay,
    wire: &mut Wire,
    came: &Came,
) -> Result<(), Memory> {
    let passed = relay
        .proxy
        .from_server(alloc, &came.datagram, u64::from(wire.clock_ms))?;
    relay.origin = came.origin;
    let Some(out) = passed else {
        return Ok(());
    };
    if out.peer == ALL {
        announces(alloc, relay, wire, out, came.origin)
    } else {
        replies(relay, wire, out, came.origin)
    }
}

fn hears_client(
    alloc: Global,
    relay: &mut Relay,
    wire: &mut Wire,
    came: &Came,
    door: u8,
) -> Result<(), Memory> {
    let mut asked = datagram(alloc, came.datagram.peer, came.datagram.octets.items())?;
    asked.door = door;
    let out = relay
        .proxy
        .from_client(alloc, &asked, u64::from(wire.clock_ms))?;
    match out {
        ProxyOut::Nothing => Ok(()),
        ProxyOut::Reply(out) => replies(relay, wire, out, relay.origin),
        ProxyOut::Up(octets) => sends(wire, request(relay.own, relay.server, octets)),
    }
}

/// What the relay sends for a packet that may come to it.
pub(crate) fn hears(
    alloc: Global,
    relay: &mut Relay,
    wire: &mut Wire,
    came: &Came,
) -> Result<(), Memory> {
    let [first, second] = relay.inner;
    if came.datagram.peer == relay.server && is_reached(came, relay.own, relay.server) {
        return hears_server(alloc, relay, wire, came);
    }
    if came.to == first {
        return hears_client(alloc, relay, wire, came, 0);
    }
    if came.to == second {
        return hears_client(alloc, relay, wire, came, 1);
    }
    Ok(())
}

/// What waited for its whole time waits no more.
pub(crate) fn ticks(relay: &mut Relay, now_ms: u32) {
    relay.proxy.tick(u64::from(now_ms));
}
