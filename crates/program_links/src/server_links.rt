//! What `serve` is asked through, and what it answers by.
ghost use Rattle.std.specs.Prelude.{◌≡◌, ◌+◌, ◌≤◌, IfOk, IfSome, length};
ghost use Rattle.pcp_base.specs.Configs.{IsConfig};
ghost use Rattle.pcp_base.specs.declared.configs.TheConstants.{MOST_EXTERNALS};

use crate::doors::{LinksFault, OpenDoor, Opened, open_all, places_of};
use crate::inboxes::{DoorsInbox, Ear};
use crate::order_doors::MOST_ASKED;
use crate::outboxes::{DoorsOutbox, Mouth};
use crate::server_lanes::ServerLane;
use crate::sockets::{loopback_at, socket_at};
use pcp_base::{Config, MOST_EXTERNALS, Orders};
use pcp_io::{UdpLane, UdpOutbox};
use std::alloc::{AllocError, Global};
use std::io;
use std::net::SocketAddr;

/// What a server is asked through, and what it answers by.
#[derive(Drop)]
pub struct ServerLinks<'a> {
    /// what comes by its doors
    pub ears: DoorsInbox,
    /// by which it answers: those of the workers, and behind them the dispatcher's
    pub outs: Vec<DoorsOutbox>,
    /// where lanes are asked, one for each external address that there may be
    pub lanes: Vec<ServerLane<'a>>,
    /// the addresses and ports at which it is asked
    pub places: Vec<SocketAddr>,
    /// why it isn't asked by IPv6, where this host has none
    pub lacking: Option<io::Error>,
}

/// The links of a server with this configuration that is asked at this port, and whose lanes are asked at
/// `lane_port` of the loopback and those above it; or which of them can't be had. All sends of one worker
/// leave by sockets of its own, but for refusals, which share one for each door.
pub fn links_of<'a>(
    rt: &'a HostRuntime,
    config: &Config,
    port: u16,
    lane_port: u16,
) -> Result<ServerLinks<'a>, LinksFault>
    requires { IsConfig config.now }
    ensures outs { IfOk result (λ links. length links.outs.items ≡ MOST_EXTERNALS + 1) }
    ensures lanes { IfOk result (λ links. length links.lanes.items ≡ MOST_EXTERNALS) }
{
    let alloc = rt.alloc();
    let count = config.externals.items().len();
    let places = places_of(rt, config, port)?;
    let Opened { mut doors, lacking } = open_all(alloc, &places, count.saturating_add(1))?;
    let lanes = lanes_from(rt, config.orders, lane_port, count)?;
    let outs = outs_by(alloc, &mut doors, count)?;
    let places = places_in(alloc, &doors)?;
    let ears = DoorsInbox::beside(alloc, ears_of(alloc, doors)?, MOST_ASKED)?;
    Ok(ServerLinks {
        ears,
        outs,
        lanes,
        places,
        lacking,
    })
}

/// The links of a server that has none.
pub fn no_links<'a>(rt: &'a HostRuntime) -> Result<ServerLinks<'a>, LinksFault>
    ensures outs { IfOk result (λ links. length links.outs.items ≡ MOST_EXTERNALS + 1) }
    ensures lanes { IfOk result (λ links. length links.lanes.items ≡ MOST_EXTERNALS) }
{
    let alloc = rt.alloc();
    let mut none = Vec::new(alloc);
    let outs = outs_by(alloc, &mut none, 0)?;
    Ok(ServerLinks {
        ears: DoorsInbox::beside(alloc, Vec::new(alloc), MOST_ASKED)?,
        outs,
        lanes: lanes_from(rt, Orders::Folder, 0, 0)?,
        places: Vec::new(alloc),
        lacking: None,
    })
}

/// What comes by these doors.
fn ears_of(alloc: Global, doors: Vec<OpenDoor>) -> Result<Vec<Ear>, AllocError> {
    let mut ears = Vec::new(alloc);
    for door in doors {
        let OpenDoor { place, hears, .. } = door;
        ears.push(Ear::of(place.number, Some(hears)))?;
    }
    Ok(ears)
}

/// The addresses and ports of these doors.
fn places_in(alloc: Global, doors: &[OpenDoor]) -> Result<Vec<SocketAddr>, AllocError> {
    let mut places = Vec::new(alloc);
    for door in doors {
        places.push(door.place.at)?;
    }
    Ok(places)
}

/// The outboxes of so many workers and of the dispatcher, the last one. Those between them have no door.
fn outs_by(
    alloc: Global,
    doors: &mut [OpenDoor],
    count: usize,
) -> Result<Vec<DoorsOutbox>, AllocError>
    ensures { IfOk result (λ outs. length outs.items ≡ MOST_EXTERNALS + 1) }
{
    let mut outs = Vec::new(alloc);
    for place in 0..MOST_EXTERNALS + 1 {
        if place < count || place == MOST_EXTERNALS {
            outs.push(next_out(alloc, doors)?)?;
        } else {
            outs.push(DoorsOutbox::of(Vec::new(alloc)))?;
        }
    }
    Ok(outs)
}

/// An outbox by sockets of these doors that nobody has yet.
fn next_out(alloc: Global, doors: &mut [OpenDoor]) -> Result<DoorsOutbox, AllocError> {
    let mut mouths = Vec::new(alloc);
    for door in doors.iter_mut() {
        mouths.push(next_mouth(door))?;
    }
    Ok(DoorsOutbox::of(mouths))
}

/// The same of this door.
fn next_mouth(door: &mut OpenDoor) -> Mouth {
    let scope = door.place.scope();
    let refuses = door.refuses.try_clone().ok();
    Mouth {
        door: door.place.number,
        speaks: UdpOutbox::on_link(door.speak.pop(), scope),
        refuses: UdpOutbox::on_link(refuses, scope),
    }
}

/// The links of the lanes of so many external addresses, at this port of the loopback and those above it.
/// Those behind them are asked nothing. They take stops where orders come by the loopback.
fn lanes_from<'a>(
    rt: &'a HostRuntime,
    orders: Orders,
    port: u16,
    count: usize,
) -> Result<Vec<ServerLane<'a>>, LinksFault>
    ensures { IfOk result (λ lanes. length lanes.items ≡ MOST_EXTERNALS) }
{
    let takes_stops = orders == Orders::Both;
    let mut lanes = Vec::new(rt.alloc());
    for place in 0..MOST_EXTERNALS as u16 {
        let lane = if usize::from(place) < count {
            lane_at(loopback_at(port.saturating_add(place)))?
        } else {
            UdpLane::of(None)
        };
        lanes.push(ServerLane::of(rt, lane, u32::from(place), takes_stops))?;
    }
    Ok(lanes)
}

/// The link of the lane at this address and port.
fn lane_at(at: SocketAddr) -> Result<UdpLane, LinksFault> {
    match socket_at(at) {
        Ok(socket) => Ok(UdpLane::of(Some(socket))),
        Err(error) => Err(LinksFault::Refused(at, error)),
    }
}
