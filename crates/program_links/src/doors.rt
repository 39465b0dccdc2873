//! The doors of a server, opened.
ghost use Rattle.std.specs.Prelude.{◌≡◌, IfOk};
ghost use Rattle.pcp_base.specs.Configs.{IsConfig};

use crate::host_links::{Links, links_of};
use crate::sockets::{first_socket_at, ip_of, keep, loopback_at, shared_socket_at};
use pcp_announce::{Door, ORDER_DOOR, door_at, door_count};
use pcp_base::{Config, Orders};
use std::alloc::{AllocError, AllocFailed, Global};
use std::io;
use std::io::ErrorKind;
use std::net::{IpAddr, SocketAddr, SocketAddrV6, UdpSocket};

/// Why the links of a server can't be had.
#[derive(Clone, Copy)]
pub enum LinksFault {
    /// What the system said of this address and port.
    Refused(SocketAddr, io::Error),
    /// No memory was found.
    Memory,
}

impl From<AllocError> for LinksFault {
    fn from(_: AllocError) -> LinksFault {
        LinksFault::Memory
    }
}

impl<T: Drop> From<AllocFailed<T>> for LinksFault {
    fn from(_: AllocFailed<T>) -> LinksFault {
        LinksFault::Memory
    }
}

/// The number of a door, and where its sockets are bound.
#[derive(Clone, Copy)]
pub(crate) struct Place {
    pub(crate) number: u8,
    pub(crate) at: SocketAddr,
    /// Whether a door before it is at all addresses of this host, so that it shares the port with that.
    pub(crate) within: bool,
}

impl Place {
    /// The number of the link of hosts without a router between; 0 where the system picks it.
    pub(crate) fn scope(&self) -> u32 {
        match self.at {
            SocketAddr::V4(_) => 0,
            SocketAddr::V6(at) => at.scope_id(),
        }
    }
}

/// A door with its sockets: one at which datagrams come, one for each who sends, and one for refusals.
#[derive(Drop)]
pub(crate) struct OpenDoor {
    pub(crate) place: Place,
    pub(crate) hears: UdpSocket,
    pub(crate) speak: Vec<UdpSocket>,
    pub(crate) refuses: UdpSocket,
}

/// Where the doors of this configuration are.
pub(crate) fn places_of(
    rt: &HostRuntime,
    config: &Config,
    port: u16,
) -> Result<Vec<Place>, LinksFault>
    requires { IsConfig config.now }
{
    let mut places = Vec::new(rt.alloc());
    for place in 0..door_count(config) {
        let door = door_at(config, place);
        places.push(Place {
            number: door.number,
            at: place_at(rt, config, place, &door, port)?,
            within: false,
        })?;
    }
    if config.orders == Orders::Both && !has_orders(&places) {
        places.push(Place {
            number: ORDER_DOOR,
            at: loopback_at(port),
            within: config.listen.items().is_empty(),
        })?;
    }
    Ok(places)
}

/// Whether the door of orders is among these.
fn has_orders(places: &[Place]) -> bool {
    places.iter().any(|place| place.number == ORDER_DOOR)
}

/// Where the sockets of this door are bound, an IPv6 address with the number of its link. On several links
/// none is the one; a link-local address that stands on none can't be bound.
fn place_at(
    rt: &HostRuntime,
    config: &Config,
    place: usize,
    door: &Door,
    port: u16,
) -> Result<SocketAddr, LinksFault> {
    let IpAddr::V6(ip) = ip_of(door.address) else {
        return Ok(SocketAddr::new(ip_of(door.address), port));
    };
    let name = match config.listen.items().get(place) {
        Some(listen) => listen.link.items(),
        None => &[],
    };
    match links_of(rt, &door.address, name) {
        Links::One(link) => Ok(SocketAddr::V6(SocketAddrV6::new(ip, port, 0, link))),
        Links::None if !ip.is_unicast_link_local() => Ok(SocketAddr::V6(SocketAddrV6::new(
            ip, port, 0, 0,
        ))),
        Links::None | Links::Several => Err(not_on_one_link(SocketAddr::V6(SocketAddrV6::new(
            ip, port, 0, 0,
        )))),
    }
}

/// Why nothing is bound at an address that doesn't stand on one link.
fn not_on_one_link(at: SocketAddr) -> LinksFault {
    let error = io::Error::new(
        ErrorKind::NotFound,
        "it stands on no such link, or on several",
    );
    LinksFault::Refused(at, error)
}

/// Opens a door for so many who send.
fn open_at(alloc: Global, place: Place, senders: usize) -> Result<OpenDoor, LinksFault> {
    let first = first_at(place)?;
    let speak = several_at(alloc, place, senders)?;
    let last = shared_at(place)?;
    // Of several sockets at one place the system hands datagrams to the first one by IPv6, and to the last
    // one by IPv4.
    let (hears, refuses) = if place.at.is_ipv6() {
        (first, last)
    } else {
        (last, first)
    };
    Ok(OpenDoor {
        place,
        hears,
        speak,
        refuses,
    })
}

/// The first socket at this place.
fn first_at(place: Place) -> Result<UdpSocket, LinksFault> {
    if place.within {
        return shared_at(place);
    }
    match first_socket_at(place.at) {
        Ok(socket) => Ok(socket),
        Err(error) => Err(LinksFault::Refused(place.at, error)),
    }
}

/// A further socket at this place.
fn shared_at(place: Place) -> Result<UdpSocket, LinksFault> {
    match shared_socket_at(place.at) {
        Ok(socket) => Ok(socket),
        Err(error) => Err(LinksFault::Refused(place.at, error)),
    }
}

fn several_at(alloc: Global, place: Place, count: usize) -> Result<Vec<UdpSocket>, LinksFault> {
    let mut sockets = Vec::new(alloc);
    for _ in 0..count {
        sockets.push(shared_at(place)?)?;
    }
    Ok(sockets)
}

/// From now on nobody else gets the address and port of this door.
fn keep_door(door: &OpenDoor) -> io::Result<()> {
    keep(&door.hears)?;
    keep(&door.refuses)?;
    for socket in &door.speak {
        keep(socket)?;
    }
    Ok(())
}

/// The doors at these places, and why one of all IPv6 addresses isn't among them, where the host has none.
#[derive(Drop)]
pub(crate) struct Opened {
    pub(crate) doors: Vec<OpenDoor>,
    pub(crate) lacking: Option<io::Error>,
}

/// Opens the doors at these places for so many who send.
pub(crate) fn open_all(
    alloc: Global,
    places: &[Place],
    senders: usize,
) -> Result<Opened, LinksFault> {
    let mut opened = Opened {
        doors: Vec::new(alloc),
        lacking: None,
    };
    for place in places {
        match open_at(alloc, *place, senders) {
            Ok(door) => opened.doors.push(door)?,
            Err(LinksFault::Refused(at, error)) if is_lacking(at, &error) => {
                opened.lacking = Some(error);
            }
            Err(fault) => return Err(fault),
        }
    }
    for door in &opened.doors {
        if let Err(error) = keep_door(door) {
            return Err(LinksFault::Refused(door.place.at, error));
        }
    }
    Ok(opened)
}

/// What the system says where it has no IPv6.
const NO_V6: [Option<i32>; 2] = [Some(libc::EAFNOSUPPORT), Some(libc::EADDRNOTAVAIL)];

/// Whether this host has no IPv6, so that it isn't asked at all addresses of that.
fn is_lacking(at: SocketAddr, error: &io::Error) -> bool {
    at.is_ipv6() && at.ip().is_unspecified() && NO_V6.contains(&error.raw_os_error())
}
