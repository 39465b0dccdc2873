//! What clients and relays hear, at port 5350 too.
use crate::inboxes::{DoorsInbox, Ear};
use crate::sockets::{
    CLIENT_PORT, all_v4_at, all_v6_at, common_socket_at, first_socket_at, ip_of, keep, loopback_at,
    shared_socket_at, socket_at,
};
use pcp_base::{Address, Memory};
use std::alloc::{AllocError, Global};
use std::io;
use std::net::{IpAddr, SocketAddr, UdpSocket};

/// Where a client hears what this server announces: port 5350 at all addresses of the server's family.
pub fn told_place(server: Address) -> SocketAddr {
    match ip_of(server) {
        IpAddr::V4(_) => all_v4_at(CLIENT_PORT),
        IpAddr::V6(_) => all_v6_at(CLIENT_PORT),
    }
}

/// A socket at that place, which all clients of this host have, or why the system gives none.
pub fn told_socket(at: SocketAddr) -> io::Result<UdpSocket> {
    common_socket_at(at)
}

/// The socket of port 5350 at all IPv6 addresses; none where another program has it.
pub(crate) fn told_by_v6() -> Option<UdpSocket> {
    socket_at(all_v6_at(CLIENT_PORT)).ok()
}

/// The sockets of port 5350 at all IPv4 addresses, and at 127.0.0.1 alone, which nobody else has, or why
/// the system gives none.
pub fn told_and_ordered() -> io::Result<(UdpSocket, UdpSocket)> {
    let told = first_socket_at(all_v4_at(CLIENT_PORT))?;
    let ordered = shared_socket_at(loopback_at(CLIENT_PORT))?;
    keep(&told)?;
    keep(&ordered)?;
    Ok((told, ordered))
}

/// Adds the ear of this door, where it has a socket.
pub(crate) fn push_ear(
    ears: &mut Vec<Ear>,
    door: u8,
    socket: Option<UdpSocket>,
) -> Result<(), AllocError> {
    if socket.is_some() {
        ears.push(Ear::of(door, socket))?;
    }
    Ok(())
}

/// What comes to a client's own socket, and to that at which it hears announcements, where it has one. No
/// order comes there. Without a socket of its own each take fails. The one error is want of memory.
pub fn client_inbox(
    alloc: Global,
    own: Option<UdpSocket>,
    told: Option<UdpSocket>,
) -> Result<DoorsInbox, Memory> {
    let mut ears = Vec::new(alloc);
    ears.push(Ear::of(0, own))?;
    push_ear(&mut ears, 1, told)?;
    Ok(DoorsInbox::of(alloc, ears)?)
}
