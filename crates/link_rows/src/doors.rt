//! What comes and leaves by several doors, of this host to itself.
use pcp_base::Address;
use pcp_io::{Inbox, Incoming, ORDER_DOOR, Outbox, UdpOutbox};
use program_links::{DoorsInbox, DoorsOutbox, Ear, Mouth, RelayInbox, loopback_at, socket_at};
use std::alloc::Global;
use std::io;
use std::net::{Ipv4Addr, UdpSocket};
use std::test::Fail;
use std::time::Duration;

// 127.0.0.1.
const THIS_HOST: Address = Address([0, 0, 0, 0, 0, 0, 0, 0, 0, 0, 0xff, 0xff, 127, 0, 0, 1]);

// A socket of a port that is free.
fn socket() -> io::Result<UdpSocket> {
    socket_at(loopback_at(0))
}

// An inbox of these doors, and the ports at which it hears.
fn inbox_of(alloc: Global, doors: &[u8]) -> io::Result<(DoorsInbox, Vec<u16>)> {
    let mut ears = Vec::new(alloc);
    let mut ports = Vec::new(alloc);
    for door in doors {
        let socket = socket()?;
        ports.push(socket.local_addr()?.port())?;
        ears.push(Ear::of(*door, Some(socket)))?;
    }
    Ok((DoorsInbox::of(alloc, ears)?, ports))
}

// By which door a datagram comes within so many takes, where its length is this one.
fn door_of<I: Inbox>(inbox: &mut I, length: usize, takes: u32) -> Option<u8> {
    let mut room = [0; 2048];
    for _ in 0..takes {
        match inbox.take(&mut room) {
            Ok(
                Incoming::Packet {
                    door,
                    length: n,
                    ..
                },
            ) if n == length => return Some(door),
            _ => {}
        }
    }
    None
}

#[test]
fn no_door_waits_for_another(rt: HostRuntime) -> Result<(), Fail> {
    let (mut inbox, ports) = inbox_of(rt.alloc(), &[ORDER_DOOR, 0, 1])?;
    let host = socket()?;
    let [orders, first, second] = ports.as_slice() else {
        return Err("ports".into());
    };
    for _ in 0..100 {
        host.send_to(b"a", ("127.0.0.1", *first))?;
    }
    host.send_to(b"bb", ("127.0.0.1", *second))?;
    host.send_to(b"\xffstop", ("127.0.0.1", *second))?;
    assert!(rt; door_of(&mut inbox, 1, 1) == Some(0));
    assert!(rt; door_of(&mut inbox, 2, 17) == Some(1));
    host.send_to(b"\xffstop", ("127.0.0.1", *orders))?;
    let mut room = [0; 2048];
    for _ in 0..16 {
        if inbox.take(&mut room).ok() == Some(Incoming::Stop) {
            return Ok(());
        }
    }
    Err("no stop".into())
}

// A relay hears its server and announcements while its clients send more than it takes.
#[test]
fn no_side_of_a_relay_waits_for_the_other(rt: HostRuntime) -> Result<(), Fail> {
    let (inner, own, told, orders) = (socket()?, socket()?, socket()?, socket()?);
    let ports = [
        inner.local_addr()?.port(),
        own.local_addr()?.port(),
        told.local_addr()?.port(),
    ];
    let mut inners = Vec::new(rt.alloc());
    inners.push(Some(inner))?;
    let sides = Some((told, orders));
    let mut inbox = RelayInbox::of(rt.alloc(), THIS_HOST, inners, Some(own), sides)?;
    let server = socket()?;
    let client = UdpSocket::bind(&rt, (Ipv4Addr::new(127, 0, 0, 2), 0))?;
    for _ in 0..200 {
        client.send_to(b"a", ("127.0.0.1", ports[0]))?;
    }
    server.send_to(b"bb", ("127.0.0.1", ports[1]))?;
    server.send_to(b"ccc", ("127.0.0.1", ports[2]))?;
    // In turn: what is announced, some datagrams of clients, then the server's own.
    for (length, door) in [(3, 17), (1, 0), (2, 16)] {
        assert!(rt; door_of(&mut inbox, length, 17) == Some(door), "{length}");
    }
    Ok(())
}

#[test]
fn what_comes_is_told_with_its_door(rt: HostRuntime) -> Result<(), Fail> {
    let (mut inbox, ports) = inbox_of(rt.alloc(), &[3, 5, 7])?;
    let host = socket()?;
    let texts = [b"x".as_slice(), b"xx".as_slice(), b"xxx".as_slice()];
    for (octets, port) in texts.iter().zip(&ports) {
        host.send_to(octets, ("127.0.0.1", *port))?;
    }
    // In turn, beginning behind the first one.
    for (length, told) in [(2, 5), (3, 7), (1, 3)] {
        assert!(rt; door_of(&mut inbox, length, 1) == Some(told), "{told}");
    }
    Ok(())
}

#[test]
fn an_ear_without_a_socket_fails(rt: HostRuntime) -> Result<(), Fail> {
    let alloc = rt.alloc();
    let mut ears = Vec::new(alloc);
    ears.push(Ear::of(0, socket().ok()))?;
    ears.push(Ear::of(1, None))?;
    let mut inbox = DoorsInbox::of(alloc, ears)?;
    let mut room = [0; 2048];
    assert!(rt; inbox.take(&mut room).is_err() && inbox.take(&mut room).is_err());
    Ok(())
}

// The mouth of a door, and the ports from which it speaks and refuses.
fn mouth_of(door: u8) -> io::Result<(Mouth, u16, u16)> {
    let speaks = socket()?;
    let refuses = socket()?;
    let ports = (speaks.local_addr()?.port(), refuses.local_addr()?.port());
    let mouth = Mouth {
        door,
        speaks: UdpOutbox::of(Some(speaks)),
        refuses: UdpOutbox::of(Some(refuses)),
    };
    Ok((mouth, ports.0, ports.1))
}

// What is sent, and whether it tells an error.
static SENT: [(&[u8], bool); 9] = [
    (&[2, 0x81, 0, 0, 7], false),
    (&[2, 0x81, 0, 2, 7], true),
    (&[2, 0x81, 3, 0, 7], false),
    (&[1, 0x81, 0, 1], true),
    (&[0, 0x81, 0, 0], false),
    (&[0, 0x81, 0, 2], true),
    (&[0, 0x81, 1, 0], true),
    (&[2, 0x81, 7], false),
    (&[], false),
];

#[test]
fn each_door_sends_by_its_own_sockets(rt: HostRuntime) -> Result<(), Fail> {
    let alloc = rt.alloc();
    let host = socket()?;
    host.set_read_timeout(Some(Duration::from_secs(20)))?;
    let port = host.local_addr()?.port();
    let mut mouths = Vec::new(alloc);
    let mut ports = Vec::new(alloc);
    for door in [4, 9] {
        let (mouth, speaks, refuses) = mouth_of(door)?;
        mouths.push(mouth)?;
        ports.push((door, speaks, refuses))?;
    }
    let mut outbox = DoorsOutbox::of(mouths);
    let mut room = [0; 64];
    for (door, speaks, refuses) in &ports {
        for (octets, is_refusal) in &SENT {
            assert!(rt; outbox.send(*door, THIS_HOST, port, octets).is_ok());
            let (length, from) = host.recv_from(&mut room)?;
            let own = if *is_refusal { *refuses } else { *speaks };
            assert!(rt;
                length == octets.len() && from.port() == own,
                "{door} {}",
                octets.escape_ascii()
            );
        }
    }
    assert!(rt; outbox.send(5, THIS_HOST, port, b"abcd").is_err());
    Ok(())
}
