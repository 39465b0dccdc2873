//! A cascade, and what it makes of packets. To its clients it is the server.

use crate::epochs::{Told, goes_on, must_be_found};
use crate::packets::{Came, Origin, Packet, Wire, is_reached, number_at, request, sends};
use crate::places::{BESIDE, BESIDE_INNER, BESIDE_KEY, FAR_SECOND, HIGH, LOW};
use pcp_base::{Datagram, Memory};
use proxy_cascade::{Cascade, CascadeOut};
use proxy_core::ProxyOut;
use std::alloc::Global;

/// A cascade, what it heard last, and since when it must count its epoch.
#[derive(Drop)]
pub(crate) struct Beside {
    cascade: Cascade,
    told: Option<Told>,
    base_ms: u32,
    /// How many times it was begun, or heard an epoch that doesn't go on.
    losses: u32,
    /// How many times it asked for another local port.
    pub(crate) moved: u32,
}

fn new_cascade(alloc: Global, now_ms: u32) -> Result<Cascade, Memory> {
    let key = [BESIDE_KEY; 32];
    Cascade::new(alloc, BESIDE, FAR_SECOND, key, LOW, HIGH, u64::from(now_ms))
}

/// A cascade that is begun now.
pub(crate) fn new_beside(alloc: Global, now_ms: u32) -> Result<Beside, Memory> {
    Ok(Beside {
        cascade: new_cascade(alloc, now_ms)?,
        told: None,
        base_ms: now_ms,
        losses: 0,
        moved: 0,
    })
}

/// It is begun again, with the same key.
pub(crate) fn restarts(alloc: Global, beside: &mut Beside, now_ms: u32) -> Result<(), Memory> {
    beside.cascade = new_cascade(alloc, now_ms)?;
    beside.told = None;
    counts_anew(beside, now_ms);
    Ok(())
}

fn counts_anew(beside: &mut Beside, now_ms: u32) {
    beside.base_ms = now_ms;
    beside.losses = beside.losses.saturating_add(1);
}

// What it sends down tells the whole seconds since its base.
fn tells(beside: &Beside, wire: &mut Wire, out: Datagram) -> Result<(), Memory> {
    let epoch = number_at(out.octets.items(), 8);
    let since = wire.clock_ms.saturating_sub(beside.base_ms);
    wire.right = wire.right && epoch == since / 1000;
    let origin = Origin {
        losses: beside.losses,
        second: wire.clock_ms / 1000,
        epoch,
    };
    let packet = Packet {
        from: BESIDE_INNER,
        out,
        origin: Some(origin),
    };
    sends(wire, packet)
}

// It hears an epoch, and finds each loss that must be found.
fn finds(beside: &mut Beside, wire: &mut Wire, now: Told) {
    if let Some(before) = beside.told {
        let valid = goes_on(before, now);
        wire.right = wire.right && !(valid && must_be_found(before, now));
        if !valid {
            counts_anew(beside, wire.clock_ms);
        }
    }
    beside.told = Some(now);
}

fn hears_server(
    alloc: Global,
    beside: &mut Beside,
    wire: &mut Wire,
    came: &Came,
    origin: Origin,
) -> Result<(), Memory> {
    let now = Told {
        epoch: number_at(came.datagram.octets.items(), 8),
        second: wire.clock_ms / 1000,
        origin,
    };
    finds(beside, wire, now);
    let out = beside
        .cascade
        .from_server(alloc, &came.datagram, u64::from(wire.clock_ms))?;
    match out {
        CascadeOut::Nothing => Ok(()),
        CascadeOut::Down(out) => tells(beside, wire, out),
        CascadeOut::Up(octets) => {
            beside.moved = beside.moved.saturating_add(1);
            sends(wire, request(BESIDE, FAR_SECOND, octets))
        }
    }
}

fn hears_client(
    alloc: Global,
    beside: &mut Beside,
    wire: &mut Wire,
    came: &Came,
) -> Result<(), Memory> {
    let out = beside
        .cascade
        .from_client(alloc, &came.datagram, u64::from(wire.clock_ms))?;
    match out {
        ProxyOut::Nothing => Ok(()),
        ProxyOut::Reply(out) => tells(beside, wire, out),
        ProxyOut::Up(octets) => sends(wire, request(BESIDE, FAR_SECOND, octets)),
    }
}

/// What the cascade sends for a packet that may come to it.
pub(crate) fn hears(
    alloc: Global,
    beside: &mut Beside,
    wire: &mut Wire,
    came: &Came,
) -> Result<(), Memory> {
    if came.datagram.peer == FAR_SECOND && is_reached(came, BESIDE, FAR_SECOND) {
        let Some(origin) = came.origin else {
            wire.right = false;
            return Ok(());
        };
        return hears_server(alloc, beside, wire, came, origin);
    }
    if came.to == BESIDE_INNER {
        return hears_client(alloc, beside, wire, came);
    }
    Ok(())
}

/// Ties whose time has come are dropped.
pub(crate) fn ticks(beside: &mut Beside, now_ms: u32) {
    beside.cascade.tick(u64::from(now_ms));
}
