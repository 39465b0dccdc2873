//! What the links over UDP sockets share: how they wait, what a read of a socket gives, how a send never
//! waits, and the addresses of peers.
ghost use Rattle.std.specs.Prelude.{◌≡◌, ◌≤◌, nat_eq, length, IfSome, IfOk};
ghost use Rattle.std.specs.List.{starts_with};
ghost use Rattle.pcp_base.specs.AddressTexts.{v4_front};
ghost use Rattle.pcp_io.specs.Arrivals.{IsSender};

use libc::net as c;
use pcp_base::Address;
use std::io::ErrorKind;
use std::net::{IpAddr, SocketAddr, UdpSocket};
use std::os::fd::AsRawFd;
use std::time::Duration;

/// How long a socket waits for a datagram, in milliseconds.
const WAITING_MS: u64 = 100;

/// What a read ends with where nothing came in the waiting time, or a signal ended that early.
const QUIET: [ErrorKind; 3] = [
    ErrorKind::WouldBlock,
    ErrorKind::TimedOut,
    ErrorKind::Interrupted,
];

/// What a read ends with where the network tells that a packet that was sent before is lost: its port
/// can't be reached, or its route is broken.
const LOST: [ErrorKind; 4] = [
    ErrorKind::ConnectionRefused,
    ErrorKind::HostUnreachable,
    ErrorKind::NetworkUnreachable,
    ErrorKind::NetworkDown,
];

/// What an error of a link is. Each is counted.
pub(crate) enum Trouble {
    /// A packet is lost. The link goes on.
    Lost,
    /// The socket is of no use, or there is none.
    Broken,
}

/// The socket with its waiting time, and with as much room for datagrams that wait as the system gives;
/// none where it takes no waiting time.
pub(crate) fn ready(socket: Option<UdpSocket>) -> Option<UdpSocket> {
    let socket = socket?;
    let waits = Some(Duration::from_millis(WAITING_MS));
    if socket.set_read_timeout(waits).is_err() {
        return None;
    }
    let most = most_room();
    let fd = socket.as_raw_fd();
    let _status = unsafe { c::setsockopt(fd, c::SOL_SOCKET, c::SO_RCVBUF, &most, 4) };
    Some(socket)
}

/// The socket with as much room for datagrams that wait to be sent as the system gives.
pub(crate) fn ready_to_send(socket: Option<UdpSocket>) -> Option<UdpSocket> {
    let socket = socket?;
    let most = most_room();
    let fd = socket.as_raw_fd();
    let _status = unsafe { c::setsockopt(fd, c::SOL_SOCKET, c::SO_SNDBUF, &most, 4) };
    Some(socket)
}

/// The most room that a socket can be asked to have. The system gives what it has, and a socket that gets
/// no more than it had is used as it is.
fn most_room() -> [u8; 16] {
    let mut most = [0u8; 16];
    most[..4].copy_from_slice(&i32::MAX.to_ne_bytes());
    most
}

/// Takes the next datagram: its length, and who sent it; none where none came in the waiting time.
/// What passes the room is cut off.
pub(crate) fn receive(
    socket: &Option<UdpSocket>,
    room: &mut [u8],
) -> Result<Option<(usize, SocketAddr)>, Trouble>
    ensures same { length room.new ≡ length room.old }
    ensures fits { IfOk result (λ found. IfSome found (λ f. f.0 ≤ length room.new)) }
{
    let Some(socket) = socket else {
        return Err(Trouble::Broken);
    };
    match socket.recv_from(room) {
        Ok(found) => Ok(Some(found)),
        Err(fault) => match trouble_of(fault.kind()) {
            Some(trouble) => Err(trouble),
            None => Ok(None),
        },
    }
}

/// What it means that a read ended so; none where nothing came.
fn trouble_of(kind: ErrorKind) -> Option<Trouble> {
    if QUIET.contains(&kind) {
        None
    } else if LOST.contains(&kind) {
        Some(Trouble::Lost)
    } else {
        Some(Trouble::Broken)
    }
}

/// Whether the system took the whole datagram at once: a send never waits. A peer on a link of its own,
/// or a group of hosts of a link, is on the link of this scope, where it isn't 0.
pub(crate) fn sends(
    socket: &UdpSocket,
    peer: &Address,
    port: u16,
    scope: u32,
    octets: &[u8],
) -> bool {
    let place = place_of(peer, port, scope);
    let length = place_length(peer);
    let flags = c::MSG_DONTWAIT | c::MSG_NOSIGNAL;
    let fd = socket.as_raw_fd();
    let count = unsafe { c::sendto(fd, octets, flags, &place, length) };
    usize::try_from(count) == Ok(octets.len())
}

/// The address of the sender, an IPv4 one in its IPv4-mapped form (RFC 6887, section 5). None where an
/// IPv6 packet has such an address itself: anyone can write that, and it is nobody's.
pub(crate) fn sender_of(ip: IpAddr) -> Option<Address>
    ensures { IsSender ip result }
{
    match ip {
        IpAddr::V4(v4) => {
            let [a, b, c, d] = v4.octets();
            Some(Address::v4(a, b, c, d))
        }
        IpAddr::V6(v6) => {
            let address = Address(v6.octets());
            if is_v4(&address) { None } else { Some(address) }
        }
    }
}

/// Whether a peer is reached by IPv4.
fn is_v4(peer: &Address) -> bool
    ensures { result ≡ starts_with nat_eq peer.now.0 v4_front }
{
    peer.0
        .starts_with(&[0, 0, 0, 0, 0, 0, 0, 0, 0, 0, 255, 255])
}

/// How many octets the system's form of an address has.
fn place_length(peer: &Address) -> u32
    ensures { result ≤ 28 }
{
    if is_v4(peer) { 16 } else { 28 }
}

/// A peer and its port in the system's form: an IPv4 one by its IPv4 address.
fn place_of(peer: &Address, port: u16, scope: u32) -> [u8; 128] {
    let mut place = [0u8; 128];
    place[2..4].copy_from_slice(&port.to_be_bytes());
    if is_v4(peer) {
        place[..2].copy_from_slice(&(c::AF_INET as u16).to_ne_bytes());
        place[4..8].copy_from_slice(&peer.0[12..]);
    } else {
        place[..2].copy_from_slice(&(c::AF_INET6 as u16).to_ne_bytes());
        place[8..24].copy_from_slice(&peer.0);
        place[24..28].copy_from_slice(&scope.to_ne_bytes());
    }
    place
}
