//! Clients, what they hold, and what they find of epochs.
ghost use Rattle.client_core.specs.Wants.{CanBeWanted};

use crate::epochs::{Told, goes_on, must_be_found};
use crate::packets::{Came, Wire, is_at, is_reached, number_at, port_at, request, sends};
use crate::places::{ALL, FAR_KEY, PORT, Way};
use client_core::{Client, EpochFound, HeldLease, WantRefused};
use pcp_base::{Address, Ask, Endpoint, FilterList, MapAsk, Memory, Nonce, Octets, Protocol};
use proxy_core::upstream_nonce;
use std::alloc::Global;

/// How many leases were compared with what granted them, how many losses had to be found, and how many
/// announcements were heard.
#[derive(Clone, Copy)]
pub(crate) struct Counts {
    pub(crate) held: u32,
    pub(crate) found: u32,
    pub(crate) announced: u32,
}

impl Counts {
    pub(crate) fn none() -> Counts {
        Counts {
            held: 0,
            found: 0,
            announced: 0,
        }
    }

    pub(crate) fn and(self, more: Counts) -> Counts {
        Counts {
            held: self.held.saturating_add(more.held),
            found: self.found.saturating_add(more.found),
            announced: self.announced.saturating_add(more.announced),
        }
    }

    /// Whether each is at least so great.
    pub(crate) fn are(self, least: u32) -> bool {
        self.held >= least && self.found >= least && self.announced >= least
    }
}

/// A client that wants one mapping, the nonce by which the house is asked for it, and the epoch that it
/// heard last.
#[derive(Drop)]
pub(crate) struct Host {
    client: Client,
    way: Way,
    upstream: Nonce,
    told: Option<Told>,
    /// The lease that was compared last.
    compared: Option<HeldLease>,
    pub(crate) counts: Counts,
}

fn ask(alloc: Global, own: Address, nonce: Nonce) -> Ask
    ensures { CanBeWanted result }
{
    Ask::Map(MapAsk {
        endpoint: Endpoint {
            address: own,
            protocol: Protocol::Udp,
            port: PORT,
        },
        nonce,
        lifetime: 3_600,
        port: 0,
        address: Address([0; 16]),
        prefer: false,
        set: None,
        filters: FilterList::of(Vec::new(alloc)),
    })
}

fn own_nonce(way: &Way) -> Nonce {
    Nonce([way.own.0[15]; 12])
}

// its nonce as both relays on the way rewrite it
fn rewritten(way: &Way) -> Nonce {
    let (relay, key) = way.relay;
    let nonce = upstream_nonce(&[key; 32], &way.own, &own_nonce(way));
    upstream_nonce(&[FAR_KEY; 32], &relay, &nonce)
}

/// The client that is there at the beginning.
pub(crate) fn new_host(alloc: Global, way: &Way) -> Result<Host, Memory> {
    Ok(Host {
        client: Client::new(alloc, way.server, way.own)?,
        way: *way,
        upstream: rewritten(way),
        told: None,
        compared: None,
        counts: Counts::none(),
    })
}

/// It begins to want its mapping.
pub(crate) fn wants(alloc: Global, host: &mut Host, now_ms: u32) -> Result<u32, WantRefused> {
    let ask = ask(alloc, host.way.own, own_nonce(&host.way));
    host.client.want(alloc, None, ask, u64::from(now_ms))
}

/// The request that is due, if one is.
pub(crate) fn asks(
    alloc: Global,
    host: &mut Host,
    wire: &mut Wire,
    word: u32,
) -> Result<(), Memory> {
    let due = host.client.tick(alloc, u64::from(wire.clock_ms), word)?;
    match due {
        Some(octets) => sends(wire, request(host.way.own, host.way.server, octets)),
        None => Ok(()),
    }
}

/// ANNOUNCE, which the relay answers by itself.
pub(crate) fn announces(alloc: Global, host: &Host, wire: &mut Wire) -> Result<(), Memory> {
    let mut octets = Vec::new(alloc);
    octets.extend_from_slice(&[2, 0, 0, 0, 0, 0, 0, 0])?;
    octets.extend_from_slice(&host.way.own.0)?;
    let octets = Octets::of(octets);
    sends(wire, request(host.way.own, host.way.server, octets))
}

fn is_right(host: &mut Host, now: Told, found: EpochFound) -> bool {
    let valid = found == EpochFound::Valid;
    let Some(before) = host.told else {
        return valid;
    };
    if must_be_found(before, now) {
        host.counts.found = host.counts.found.saturating_add(1);
        return !valid && !goes_on(before, now);
    }
    valid == goes_on(before, now)
}

// whether the client finds of a packet's epoch what it should
fn is_found(
    alloc: Global,
    host: &mut Host,
    came: &Came,
    now_ms: u32,
    word: u32,
) -> Result<bool, Memory> {
    let heard = host
        .client
        .heard(alloc, &came.datagram, u64::from(now_ms), word)?;
    if heard.epoch == EpochFound::Unread {
        return Ok(true);
    }
    let Some(origin) = came.origin else {
        return Ok(false);
    };
    let now = Told {
        epoch: number_at(came.datagram.octets.items(), 8),
        second: now_ms / 1000,
        origin,
    };
    let right = is_right(host, now, heard.epoch);
    host.told = Some(now);
    Ok(right)
}

/// The client hears a packet that may come to it.
pub(crate) fn hears(
    alloc: Global,
    host: &mut Host,
    wire: &mut Wire,
    came: &Came,
    word: u32,
) -> Result<(), Memory> {
    if is_reached(came, host.way.own, host.way.server) {
        if came.to == ALL {
            host.counts.announced = host.counts.announced.saturating_add(1);
        }
        let right = is_found(alloc, host, came, wire.clock_ms, word)?;
        wire.right = wire.right && right;
    }
    Ok(())
}

// Whether a reply of the house grants this lease to the host, by the rewritten nonce and for one of the
// ports for which it may be asked.
fn grants(reply: &[u8], host: &Host, lease: &HeldLease) -> bool {
    let success = is_at(reply, 0, &[2, 0x81, 0, 0]) && number_at(reply, 4) > 0;
    let (low, high) = host.way.ports;
    let internal = port_at(reply, 40);
    let asked = is_at(reply, 24, &host.upstream.0)
        && is_at(reply, 36, &[17])
        && low <= internal
        && internal <= high;
    let given = is_at(reply, 42, &lease.external.to_be_bytes())
        && is_at(reply, 44, &lease.address.0);
    let third = is_at(reply, 60, &[1, 0, 0, 16]) && is_at(reply, 64, &host.way.asked_for.0);
    success && asked && given && third
}

/// Whether the lease that the client holds, if it holds one, was granted by one of these replies.
pub(crate) fn is_granted(host: &mut Host, replies: &[Octets]) -> bool {
    let Some(lease) = host.client.held(0) else {
        return true;
    };
    if host.compared == Some(lease) {
        return true;
    }
    host.compared = Some(lease);
    host.counts.held = host.counts.held.saturating_add(1);
    for reply in replies {
        if grants(reply.items(), host, &lease) {
            return true;
        }
    }
    false
}
