//! The sockets of the commands that use the network. Each is of one family.
ghost use Rattle.std.specs.Prelude.{◌≡◌, ◌≤◌, ℤ, pos};

use libc::net as c;
use os::FromRawFd;
use pcp_base::Address;
use std::io;
use std::net::{IpAddr, Ipv4Addr, Ipv6Addr, SocketAddr, UdpSocket};
use std::os::fd::AsRawFd;

/// The port at which clients hear announcements and updates (RFC 6887, section 19.1).
pub const CLIENT_PORT: u16 = 5350;

/// 127.0.0.1 with this port.
pub fn loopback_at(port: u16) -> SocketAddr {
    SocketAddr::new(IpAddr::V4(Ipv4Addr::LOCALHOST), port)
}

/// All IPv4 addresses of this host with this port.
pub(crate) fn all_v4_at(port: u16) -> SocketAddr {
    SocketAddr::new(IpAddr::V4(Ipv4Addr::UNSPECIFIED), port)
}

/// All IPv6 addresses of this host with this port.
pub(crate) fn all_v6_at(port: u16) -> SocketAddr {
    SocketAddr::new(IpAddr::V6(Ipv6Addr::UNSPECIFIED), port)
}

/// The address as sockets take it.
pub fn ip_of(address: Address) -> IpAddr {
    let v6 = Ipv6Addr::from_octets(address.0);
    match v6.to_ipv4_mapped() {
        Some(v4) => IpAddr::V4(v4),
        None => IpAddr::V6(v6),
    }
}

/// The address of a socket, an IPv4 one in its IPv4-mapped form (RFC 6887, section 5).
fn address_of(ip: IpAddr) -> Address {
    match ip {
        IpAddr::V4(v4) => {
            let [a, b, c, d] = v4.octets();
            Address::v4(a, b, c, d)
        }
        IpAddr::V6(v6) => Address(v6.octets()),
    }
}

/// A socket of this address and port that nobody else has, or why the system gives none. One of IPv6
/// takes nothing of IPv4.
pub fn socket_at(at: SocketAddr) -> io::Result<UdpSocket> {
    let socket = new_socket(at)?;
    bind(&socket, at)?;
    Ok(socket)
}

/// A socket of this address and port, which nobody else had, and to which others are added by
/// [`shared_socket_at`] until [`keep`] ends that. What is shared from the first on the system gives where
/// another program has it, too.
pub(crate) fn first_socket_at(at: SocketAddr) -> io::Result<UdpSocket> {
    let socket = socket_at(at)?;
    set_shared(&socket, true)?;
    Ok(socket)
}

/// A socket of this address and port, which others have too that ask for it so: each hears what is sent
/// to a group of hosts, and one of them what is sent to it alone.
pub(crate) fn common_socket_at(at: SocketAddr) -> io::Result<UdpSocket> {
    let socket = new_socket(at)?;
    set_common(&socket)?;
    bind(&socket, at)?;
    Ok(socket)
}

/// The address of this host from which it sends to that one.
pub fn own_address_to(server: Address, port: u16) -> io::Result<Address> {
    let at = SocketAddr::new(ip_of(server), port);
    let socket = new_socket(at)?;
    socket.connect(at)?;
    Ok(address_of(socket.local_addr()?.ip()))
}

/// A further socket where one is shared.
pub(crate) fn shared_socket_at(at: SocketAddr) -> io::Result<UdpSocket> {
    let socket = new_socket(at)?;
    set_shared(&socket, true)?;
    bind(&socket, at)?;
    Ok(socket)
}

/// From now on nobody else gets the address and port of this socket. Those who have them keep them.
pub(crate) fn keep(socket: &UdpSocket) -> io::Result<()> {
    set_shared(socket, false)
}

/// The same socket once more; none where the system gives none.
pub fn same_socket(socket: &Option<UdpSocket>) -> Option<UdpSocket> {
    match socket {
        Some(socket) => socket.try_clone().ok(),
        None => None,
    }
}

/// A socket of the family of this address, of IPv6 alone where it is of that.
fn new_socket(at: SocketAddr) -> io::Result<UdpSocket> {
    let kind = c::SOCK_DGRAM | c::SOCK_CLOEXEC;
    let fd = match at {
        SocketAddr::V4(_) => unsafe { c::socket(c::AF_INET, kind, 0) },
        SocketAddr::V6(_) => unsafe { c::socket(c::AF_INET6, kind, 0) },
    };
    if fd < 0 {
        return Err(last_error());
    }
    let socket = unsafe { UdpSocket::from_raw_fd(fd) };
    if at.is_ipv6() {
        set_v6_alone(&socket)?;
    }
    Ok(socket)
}

/// The error of the system's last call.
fn last_error() -> io::Error {
    io::Error::from_raw_os_error(os::errno())
}

/// What the system answered to a call.
pub(crate) fn ended(status: i32) -> io::Result<()> {
    if status < 0 {
        Err(last_error())
    } else {
        Ok(())
    }
}

/// An option's value.
fn switch(on: bool) -> [u8; 16] {
    let mut value = [0u8; 16];
    value[..4].copy_from_slice(&i32::from(on).to_ne_bytes());
    value
}

/// The socket takes nothing of IPv4.
fn set_v6_alone(socket: &UdpSocket) -> io::Result<()> {
    let fd = socket.as_raw_fd();
    let on = switch(true);
    ended(unsafe { c::setsockopt(fd, c::IPPROTO_IPV6, c::IPV6_V6ONLY, &on, 4) })
}

/// Whether others of this user may be bound where the socket is.
fn set_shared(socket: &UdpSocket, shared: bool) -> io::Result<()> {
    let fd = socket.as_raw_fd();
    let value = switch(shared);
    ended(unsafe { c::setsockopt(fd, c::SOL_SOCKET, c::SO_REUSEPORT, &value, 4) })
}

/// Others that ask for it too may be bound where the socket will be.
fn set_common(socket: &UdpSocket) -> io::Result<()> {
    let fd = socket.as_raw_fd();
    let on = switch(true);
    ended(unsafe { c::setsockopt(fd, c::SOL_SOCKET, c::SO_REUSEADDR, &on, 4) })
}

/// Gives the socket its address and port.
fn bind(socket: &UdpSocket, at: SocketAddr) -> io::Result<()> {
    let (place, length) = place_of(at);
    let fd = socket.as_raw_fd();
    ended(unsafe { c::bind(fd, &place, length) })
}

/// An address and port in the system's form, and how many octets that has.
fn place_of(at: SocketAddr) -> ([u8; 128], u32)
    ensures { result.1 ≤ 128 }
{
    let mut place = [0u8; 128];
    place[2..4].copy_from_slice(&at.port().to_be_bytes());
    match at {
        SocketAddr::V4(at) => {
            place[..2].copy_from_slice(&(c::AF_INET as u16).to_ne_bytes());
            place[4..8].copy_from_slice(&at.ip().octets());
            (place, 16)
        }
        SocketAddr::V6(at) => {
            place[..2].copy_from_slice(&(c::AF_INET6 as u16).to_ne_bytes());
            place[8..24].copy_from_slice(&at.ip().octets());
            place[24..28].copy_from_slice(&at.scope_id().to_ne_bytes());
            (place, 28)
        }
    }
}
