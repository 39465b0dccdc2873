//! What a relay sends.
ghost use Rattle.std.specs.Prelude.{◌≡◌};
ghost use Rattle.program_links.specs.Relays.{aim_at, group_at};

use crate::host_links::{Links, links_of};
use crate::outboxes::Mouth;
use crate::sockets::{ip_of, same_socket};
use pcp_announce::{ALL_HOSTS_V4, ALL_HOSTS_V6, Group};
use pcp_base::{Address, Failed, Memory};
use pcp_io::{Outbox, UdpOutbox};
use std::alloc::Global;
use std::marker::Model;
use std::net::{IpAddr, SocketAddr, SocketAddrV6, UdpSocket};

/// Where the socket of an inner address is bound: an IPv6 one with the number of the link on which it stands,
/// where that is one alone.
pub fn inner_place(rt: &HostRuntime, address: Address, port: u16) -> SocketAddr {
    let IpAddr::V6(ip) = ip_of(address) else {
        return SocketAddr::new(ip_of(address), port);
    };
    let link = match links_of(rt, &address, &[]) {
        Links::One(link) => link,
        Links::None | Links::Several => 0,
    };
    SocketAddr::V6(SocketAddrV6::new(ip, port, 0, link))
}

/// By which a relay sends from one of its addresses.
#[derive(Drop)]
struct RelayMouth {
    /// the number of the door, and all hosts there
    group: Group,
    mouth: Mouth,
}

/// The mouth of this door, whose socket is bound there.
fn mouth_of(door: u8, at: SocketAddr, socket: &Option<UdpSocket>) -> RelayMouth {
    let scope = match at {
        SocketAddr::V4(_) => 0,
        SocketAddr::V6(at) => at.scope_id(),
    };
    RelayMouth {
        group: group_at(door, at),
        mouth: Mouth {
            door,
            speaks: UdpOutbox::on_link(same_socket(socket), scope),
            refuses: UdpOutbox::on_link(same_socket(socket), scope),
        },
    }
}

/// All hosts at a door that is bound there, by its family.
fn group_at(door: u8, at: SocketAddr) -> Group
    ensures { result ≡ group_at door at }
{
    let hosts = match at {
        SocketAddr::V4(_) => ALL_HOSTS_V4,
        SocketAddr::V6(_) => ALL_HOSTS_V6,
    };
    Group { door, hosts }
}

/// To whom what is for this peer by this door leaves by the door of the group; none where it doesn't.
fn aim_at(group: &Group, door: u8, peer: Address) -> Option<Address>
    ensures { result ≡ aim_at group.now door peer }
{
    if peer == ALL_HOSTS_V4 {
        Some(group.hosts)
    } else if door == group.door {
        Some(peer)
    } else {
        None
    }
}

/// Datagrams of a relay, to its clients or to its server. Each leaves by the door that it is told, but what
/// goes to 224.0.0.1, an announcement: that leaves by each door, by one of IPv6 to ff02::1. A send never
/// waits: each that the system doesn't take whole at once, by any of its doors, or for which there is no
/// such door, is a fault that it counts, and nothing else is. A count that stands at 2^64 - 1 stands still.
#[derive(Drop)]
pub struct RelayOutbox {
    mouths: Vec<RelayMouth>,
    faults: u64,
}

impl Model for RelayOutbox {
    ghost use Rattle.std.specs.Prelude.{ℕ};

    // How many faults it has counted.
    ghost Value = { ℕ };

    ghost view = { λ b. b.faults };
}

impl RelayOutbox {
    /// An outbox by these sockets, whose doors count from 0, each with the place where it is bound. By a
    /// door without a socket each send fails. The one error is want of memory.
    pub fn of(
        alloc: Global,
        places: &[SocketAddr],
        sockets: &[Option<UdpSocket>],
    ) -> Result<RelayOutbox, Memory> {
        let mut mouths = Vec::new(alloc);
        let mut door = 0u8;
        for (at, socket) in places.iter().zip(sockets) {
            mouths.push(mouth_of(door, *at, socket))?;
            door = door.saturating_add(1);
        }
        Ok(RelayOutbox { mouths, faults: 0 })
    }
}

/// Whether the datagram went out by each door by which it leaves, and it leaves by one.
fn goes_by(mouths: &mut [RelayMouth], door: u8, peer: Address, port: u16, octets: &[u8]) -> bool {
    let (mut leaves, mut lost) = (false, false);
    for RelayMouth { group, mouth } in mouths.iter_mut() {
        if let Some(host) = aim_at(group, door, peer) {
            leaves = true;
            lost |= !mouth.goes_out(host, port, octets);
        }
    }
    leaves && !lost
}

impl Outbox for RelayOutbox {
    ghost use Rattle.std.specs.Prelude.{◌≡◌, None, OnOk, OnErr};
    ghost use Rattle.pcp_io.specs.CallLogs.{one_more};
    ghost use Rattle.pcp_io.specs.Faults.{HasCause};

    ghost sent = { λ _. None };

    ghost faults = { λ b. b };

    fn send(&mut self, door: u8, peer: Address, port: u16, octets: &[u8]) -> Result<(), Failed>
        ensures cause { HasCause self.old self.new result }
        ensures same { OnOk result (self.new ≡ self.old) }
        ensures counted { OnErr result (self.new ≡ one_more self.old) }
    {
        if goes_by(&mut self.mouths, door, peer, port, octets) {
            return Ok(());
        }
        self.faults = self.faults.saturating_add(1);
        Err(Failed)
    }
}
