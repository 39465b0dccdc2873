//! All that is there but the house, and what comes to it.

use crate::cascades::{self, Beside, new_beside};
use crate::dice::Dice;
use crate::hosts::{self, Host, new_host};
use crate::houses::moment;
use crate::packets::{Came, Origin, Packet, Wire, number_at, received, sends};
use crate::places::{
    ALL, FAR, FAR_FIRST, FAR_KEY, FAR_SECOND, NEAR, NEAR_FIRST, NEAR_KEY, NEAR_SECOND, SERVER, WAYS,
};
use crate::relays::{self, Relay, new_relay};
use pcp_announce::Announcer;
use pcp_base::{Address, Datagram, Memory, Octets, Prefix, Prefixes};
use std::alloc::Global;

#[derive(Drop)]
pub(crate) struct World {
    pub(crate) wire: Wire,
    /// How many losses of the house there were, and the second of the last one.
    losses: u32,
    base: u32,
    announcer: Announcer,
    far: Relay,
    near: Relay,
    pub(crate) beside: Beside,
    pub(crate) hosts: Vec<Host>,
    /// All replies of the house.
    pub(crate) replies: Vec<Octets>,
}

// The far relay passes on the THIRD_PARTY of the near one.
fn new_far(alloc: Global) -> Result<Relay, Memory> {
    let near = Prefix {
        bits: 128,
        address: NEAR,
    };
    let trusted = Prefixes::of(vec![in alloc; near]?);
    let inner = [FAR_FIRST, FAR_SECOND];
    new_relay(alloc, FAR, inner, SERVER, FAR_KEY, trusted)
}

fn new_near(alloc: Global) -> Result<Relay, Memory> {
    let none = Prefixes::of(Vec::new(alloc));
    let inner = [NEAR_FIRST, NEAR_SECOND];
    new_relay(alloc, NEAR, inner, FAR_FIRST, NEAR_KEY, none)
}

fn new_hosts(alloc: Global) -> Result<Vec<Host>, Memory> {
    let mut hosts = Vec::new(alloc);
    for way in &WAYS {
        hosts.push(new_host(alloc, way)?)?;
    }
    Ok(hosts)
}

fn new_wire(alloc: Global, clock_ms: u32) -> Wire {
    Wire {
        clock_ms,
        packets: Vec::new(alloc),
        right: true,
    }
}

/// A world that begins at a second.
pub(crate) fn new_world(alloc: Global, second: u32) -> Result<World, Memory> {
    let clock_ms = second.saturating_mul(1000);
    Ok(World {
        wire: new_wire(alloc, clock_ms),
        losses: 0,
        base: second,
        announcer: Announcer::new(moment(second), false, u64::from(clock_ms)),
        far: new_far(alloc)?,
        near: new_near(alloc)?,
        beside: new_beside(alloc, clock_ms)?,
        hosts: new_hosts(alloc)?,
        replies: Vec::new(alloc),
    })
}

/// The relays and the cascade go on; the clients are new, and no packet is left.
pub(crate) fn begins_anew(alloc: Global, world: &mut World) -> Result<(), Memory> {
    world.hosts = new_hosts(alloc)?;
    world.wire.packets = Vec::new(alloc);
    world.replies = Vec::new(alloc);
    Ok(())
}

/// All clients begin to want; whether each could.
pub(crate) fn want_all(alloc: Global, world: &mut World) -> bool {
    let now_ms = world.wire.clock_ms;
    for host in &mut world.hosts {
        if hosts::wants(alloc, host, now_ms) != Ok(0) {
            return false;
        }
    }
    true
}

/// Whether each lease that a client holds was granted by the house.
pub(crate) fn are_granted(world: &mut World) -> bool {
    let replies = world.replies.as_slice();
    for host in &mut world.hosts {
        if !hosts::is_granted(host, replies) {
            return false;
        }
    }
    true
}

// The house sends octets, whose epoch is the seconds since its last loss.
fn tells(world: &mut World, peer: Address, port: u16, octets: Octets) -> Result<(), Memory> {
    let second = world.wire.clock_ms / 1000;
    let epoch = number_at(octets.items(), 8);
    world.wire.right = world.wire.right && epoch == second.saturating_sub(world.base);
    let packet = Packet {
        from: SERVER,
        out: Datagram {
            peer,
            port,
            door: 0,
            octets,
        },
        origin: Some(Origin {
            losses: world.losses,
            second,
            epoch,
        }),
    };
    sends(&mut world.wire, packet)
}

/// The house sends a reply, which is kept.
pub(crate) fn replies(
    alloc: Global,
    world: &mut World,
    peer: Address,
    octets: Octets,
) -> Result<(), Memory> {
    let kept = Octets::of(octets.items().to_vec(alloc)?);
    world.replies.push(kept)?;
    tells(world, peer, 5_351, octets)
}

/// The house announces where it is due.
pub(crate) fn announces(alloc: Global, world: &mut World) -> Result<(), Memory> {
    let mut head = [0; 24];
    if !world
        .announcer
        .due(u64::from(world.wire.clock_ms), &mut head)
    {
        return Ok(());
    }
    tells(world, ALL, 5_350, Octets::of(head.to_vec(alloc)?))
}

/// The house lost its leases, and announces so.
pub(crate) fn has_lost(alloc: Global, world: &mut World) -> Result<(), Memory> {
    let second = world.wire.clock_ms / 1000;
    world.losses = world.losses.saturating_add(1);
    world.base = second;
    world
        .announcer
        .seen(moment(second), u64::from(world.wire.clock_ms));
    announces(alloc, world)
}

/// The cascade is begun again.
pub(crate) fn restarts(alloc: Global, world: &mut World) -> Result<(), Memory> {
    cascades::restarts(alloc, &mut world.beside, world.wire.clock_ms)
}

/// A packet comes to the host to which it was sent. What was sent to all comes to some of those whose
/// server sent it.
pub(crate) fn comes(
    alloc: Global,
    world: &mut World,
    came: &Came,
    dice: &mut Dice,
) -> Result<(), Memory> {
    let wire = &mut world.wire;
    if is_heard(came, dice) {
        relays::hears(alloc, &mut world.far, wire, came)?;
    }
    if is_heard(came, dice) {
        relays::hears(alloc, &mut world.near, wire, came)?;
    }
    if is_heard(came, dice) {
        cascades::hears(alloc, &mut world.beside, wire, came)?;
    }
    for host in &mut world.hosts {
        if is_heard(came, dice) {
            hosts::hears(alloc, host, wire, came, dice.roll(65_536))?;
        }
    }
    Ok(())
}

// What was sent to all comes to half of those to which it may.
fn is_heard(came: &Came, dice: &mut Dice) -> bool {
    came.to != ALL || dice.roll(2) == 0
}

/// Of the packets one of the last three, or any.
pub(crate) fn chosen(
    alloc: Global,
    world: &World,
    dice: &mut Dice,
) -> Result<Option<Came>, Memory> {
    let packets = world.wire.packets.as_slice();
    let count = u32::try_from(packets.len()).unwrap_or(u32::MAX);
    let among = if dice.roll(4) > 0 {
        count.min(3)
    } else {
        count
    };
    let back = dice.roll(among).saturating_add(1);
    match packets.get(count.saturating_sub(back) as usize) {
        Some(packet) => Ok(Some(received(alloc, packet)?)),
        None => Ok(None),
    }
}

/// A client asks for what is due, or for the epoch alone.
pub(crate) fn asks(alloc: Global, world: &mut World, dice: &mut Dice) -> Result<(), Memory> {
    let word = dice.roll(65_536);
    let which = dice.roll(4);
    let Some(host) = world.hosts.get_mut(which as usize) else {
        return Ok(());
    };
    if dice.roll(4) == 0 {
        hosts::announces(alloc, host, &mut world.wire)
    } else {
        hosts::asks(alloc, host, &mut world.wire, word)
    }
}

/// Up to a minute passes, and now and then up to half an hour.
pub(crate) fn passes(world: &mut World, dice: &mut Dice) {
    let most = if dice.roll(8) == 0 { 1_800_000 } else { 60_000 };
    let now_ms = world.wire.clock_ms.saturating_add(dice.roll(most));
    world.wire.clock_ms = now_ms;
    relays::ticks(&mut world.far, now_ms);
    relays::ticks(&mut world.near, now_ms);
    cascades::ticks(&mut world.beside, now_ms);
}
