//! What links over sockets give, of this host to itself.
use pcp_base::{Address, Endpoint, Protocol};
use pcp_io::{
    Inbox, Incoming, LaneAsk, LaneLink, ORDER_DOOR, Outbox, SystemClock, UdpInbox, UdpLane,
    UdpOutbox,
};
use std::net::{Net, UdpSocket};
use std::test::Fail;
use std::time::Duration;
use std::{io, time};

// 192.0.2.1, 127.0.0.1, 127.0.0.2, ::1, 198.51.100.7, 10.0.0.5 and 2001:db8::5.
const EXTERNAL: Address = Address([0, 0, 0, 0, 0, 0, 0, 0, 0, 0, 0xff, 0xff, 192, 0, 2, 1]);

const THIS_HOST: Address = Address([0, 0, 0, 0, 0, 0, 0, 0, 0, 0, 0xff, 0xff, 127, 0, 0, 1]);

const OTHER_HOST: Address = Address([0, 0, 0, 0, 0, 0, 0, 0, 0, 0, 0xff, 0xff, 127, 0, 0, 2]);

const THIS_HOST_V6: Address = Address([0, 0, 0, 0, 0, 0, 0, 0, 0, 0, 0, 0, 0, 0, 0, 1]);

const REMOTE: Address = Address([0, 0, 0, 0, 0, 0, 0, 0, 0, 0, 0xff, 0xff, 198, 51, 100, 7]);

const CLIENT: Address = Address([0, 0, 0, 0, 0, 0, 0, 0, 0, 0, 0xff, 0xff, 10, 0, 0, 5]);

const CLIENT_V6: Address = Address([0x20, 1, 0xd, 0xb8, 0, 0, 0, 0, 0, 0, 0, 0, 0, 0, 0, 5]);

// A socket that sends to this port of this host, and waits long for what comes back.
fn host_to<R: Net>(rt: &R, own: &str, server: &str, port: u16) -> io::Result<UdpSocket> {
    let host = UdpSocket::bind(rt, (own, 0))?;
    host.connect((server, port))?;
    host.set_read_timeout(Some(Duration::from_secs(20)))?;
    Ok(host)
}

// Whether an inbox gives this next.
fn gives(inbox: &mut UdpInbox, wanted: Incoming) -> bool {
    let mut room = [b'.'; 2048];
    inbox.take(&mut room).ok() == Some(wanted)
}

// What is sent to an inbox from 127.0.0.1, and what comes of it.
static ORDERS: [(&[u8], Incoming); 7] = [
    (b"\xffstop", Incoming::Stop),
    (b"\xfflose 192.0.2.1", Incoming::Lose(0, EXTERNAL)),
    (
        b"\xfflose 00000000000000000000ffffc0000201",
        Incoming::Lose(0, EXTERNAL),
    ),
    (b"\xfflose 192.0.2", Incoming::Quiet),
    (b"\xfflose  192.0.2.1", Incoming::Quiet),
    (b"\xffstop ", Incoming::Quiet),
    (b"\xff", Incoming::Quiet),
];

#[test]
fn orders(rt: HostRuntime) -> Result<(), Fail> {
    let server = UdpSocket::bind(&rt, "127.0.0.1:0")?;
    let port = server.local_addr()?.port();
    let host = host_to(&rt, "127.0.0.1", "127.0.0.1", port)?;
    let mut inbox = UdpInbox::of(ORDER_DOOR, Some(server));
    for (octets, wanted) in &ORDERS {
        host.send(octets)?;
        assert!(rt; gives(&mut inbox, *wanted), "{}", octets.escape_ascii());
    }
    Ok(())
}

// Addresses from which `ff` and `stop` are sent, the door by which they come, and how the sender is told.
static NO_ORDERS: [(&str, u8, Address); 3] = [
    ("127.0.0.2", ORDER_DOOR, OTHER_HOST),
    ("127.0.0.1", 0, THIS_HOST),
    ("127.0.0.1", 254, THIS_HOST),
];

#[test]
fn an_order_of_another_host_or_by_another_door_is_a_datagram(rt: HostRuntime) -> Result<(), Fail> {
    for (own, door, peer) in &NO_ORDERS {
        let server = UdpSocket::bind(&rt, "127.0.0.1:0")?;
        let host = host_to(&rt, own, "127.0.0.1", server.local_addr()?.port())?;
        host.send(b"\xffstop")?;
        let datagram = Incoming::Packet {
            peer: *peer,
            port: host.local_addr()?.port(),
            door: *door,
            length: 5,
        };
        assert!(rt;
            gives(&mut UdpInbox::of(*door, Some(server)), datagram),
            "{own} {door}"
        );
    }
    Ok(())
}

// A socket of both families tells IPv4 senders in the form that an IPv6 packet may have by itself.
#[test]
fn a_mapped_source_is_passed_over(rt: HostRuntime) -> Result<(), Fail> {
    let Ok(server) = UdpSocket::bind(&rt, "[::]:0") else {
        // A host without IPv6 has no such socket.
        return Ok(());
    };
    let port = server.local_addr()?.port();
    let host = host_to(&rt, "127.0.0.1", "127.0.0.1", port)?;
    let host_v6 = host_to(&rt, "::1", "::1", port)?;
    let mut inbox = UdpInbox::of(ORDER_DOOR, Some(server));
    for octets in [b"\xffstop".as_slice(), b"abc".as_slice()] {
        host.send(octets)?;
        assert!(rt;
            gives(&mut inbox, Incoming::Quiet),
            "{}",
            octets.escape_ascii()
        );
    }
    host_v6.send(b"abc")?;
    let datagram = Incoming::Packet {
        peer: THIS_HOST_V6,
        port: host_v6.local_addr()?.port(),
        door: ORDER_DOOR,
        length: 3,
    };
    assert!(rt; gives(&mut inbox, datagram));
    Ok(())
}

// What nobody reads is lost behind the sender, who goes on.
#[test]
fn sends_go_on_where_nobody_reads(rt: HostRuntime) -> Result<(), Fail> {
    let deaf = UdpSocket::bind(&rt, "127.0.0.1:0")?;
    let port = deaf.local_addr()?.port();
    let mut outbox = UdpOutbox::of(UdpSocket::bind(&rt, "127.0.0.1:0").ok());
    for count in 0..20_000 {
        assert!(rt;
            outbox.send(0, THIS_HOST, port, &[b'x'; 1000]).is_ok(),
            "{count}"
        );
    }
    Ok(())
}

// Whether a datagram of 2,049 octets of the host comes in cut, then none, and one goes back.
fn exchanges(server: UdpSocket, host: &UdpSocket, peer: Address) -> io::Result<bool> {
    let port = host.local_addr()?.port();
    let mut outbox = UdpOutbox::of(server.try_clone().ok());
    let mut inbox = UdpInbox::of(2, Some(server));
    host.send(&[b'x'; 2049])?;
    let cut = Incoming::Packet {
        peer,
        port,
        door: 2,
        length: 2048,
    };
    let comes = gives(&mut inbox, cut) && gives(&mut inbox, Incoming::Quiet);
    let goes = outbox.send(2, peer, port, b"abc").is_ok();
    let mut back = [b'.'; 8];
    Ok(comes && goes && host.recv(&mut back)? == 3 && back.starts_with(b"abc."))
}

// Hosts, by the address where the server is bound, their own, and how they are told.
static HOSTS: [(&str, &str, Address); 2] = [
    ("127.0.0.1", "127.0.0.1", THIS_HOST),
    ("::", "::1", THIS_HOST_V6),
];

#[test]
fn datagrams(rt: HostRuntime) -> Result<(), Fail> {
    for (bound, own, peer) in &HOSTS {
        let Ok(server) = UdpSocket::bind(&rt, (*bound, 0)) else {
            // A host without IPv6 has no such socket.
            assert!(rt; *bound == "::");
            continue;
        };
        let host = host_to(&rt, own, own, server.local_addr()?.port())?;
        assert!(rt; exchanges(server, &host, *peer)?, "{bound} {own}");
    }
    Ok(())
}

const LOOK: LaneAsk = LaneAsk::Look {
    protocol: Protocol::Udp,
    port: 1024,
    remote: REMOTE,
    remote_port: 53,
};

// What a lane is asked, and what comes of it.
static ASKS: [(&[u8], LaneAsk); 8] = [
    (b"look 17 1024 198.51.100.7 53", LOOK),
    (b"look 17 0 198.51.100.7 53", LaneAsk::Quiet),
    (b"look 1 1024 198.51.100.7 53", LaneAsk::Quiet),
    (b"look 17 1024 198.51.100.7 65536", LaneAsk::Quiet),
    (b"look 17 1024 198.51.100.7 53 ", LaneAsk::Quiet),
    (b"look 17 1024 198.51.100.7", LaneAsk::Quiet),
    (b"stop", LaneAsk::Stop),
    (b"look 17 1024 00000000000000000000ffffc6336407 53", LOOK),
];

#[test]
fn asks(rt: HostRuntime) -> Result<(), Fail> {
    let server = UdpSocket::bind(&rt, "127.0.0.1:0")?;
    let port = server.local_addr()?.port();
    let host = host_to(&rt, "127.0.0.1", "127.0.0.1", port)?;
    let mut lane = UdpLane::of(Some(server));
    for (text, ask) in &ASKS {
        host.send(text)?;
        assert!(rt;
            lane.ask(false).ok() == Some(*ask),
            "{}",
            text.escape_ascii()
        );
    }
    Ok(())
}

// Whose port 5000 for UDP a look finds, and what is answered.
static ANSWERS: [(Option<Address>, &[u8]); 3] = [
    (Some(CLIENT), b"owner 10.0.0.5 17 5000"),
    (
        Some(CLIENT_V6),
        b"owner 20010db8000000000000000000000005 17 5000",
    ),
    (None, b"none"),
];

// The endpoint of that port.
fn endpoint_of(owner: Option<Address>) -> Option<Endpoint> {
    match owner {
        Some(address) => Some(Endpoint {
            address,
            protocol: Protocol::Udp,
            port: 5000,
        }),
        None => None,
    }
}

// Whether a host that asks gets this answer.
fn is_answered(
    lane: &mut UdpLane,
    host: &UdpSocket,
    owner: Option<Address>,
    text: &[u8],
) -> io::Result<bool> {
    let mut back = [0; 64];
    host.send(b"look 17 1024 198.51.100.7 53")?;
    let asked = lane.ask(false).ok() == Some(LOOK) && lane.answer(endpoint_of(owner)).is_ok();
    let length = host.recv(&mut back)?;
    Ok(asked && back.get(..length) == Some(text))
}

#[test]
fn answers(rt: HostRuntime) -> Result<(), Fail> {
    let server = UdpSocket::bind(&rt, "127.0.0.1:0")?;
    let port = server.local_addr()?.port();
    let host = host_to(&rt, "127.0.0.1", "127.0.0.1", port)?;
    let mut lane = UdpLane::of(Some(server));
    for (owner, text) in &ANSWERS {
        assert!(rt;
            is_answered(&mut lane, &host, *owner, text)?,
            "{}",
            text.escape_ascii()
        );
    }
    Ok(())
}

// A socket of which the network will tell that what it sent is lost, since its peer is gone.
fn refused<R: Net>(rt: &R) -> io::Result<UdpSocket> {
    let gone = UdpSocket::bind(rt, "127.0.0.1:0")?;
    let socket = host_to(rt, "127.0.0.1", "127.0.0.1", gone.local_addr()?.port())?;
    drop(gone);
    socket.send(b"x")?;
    Ok(socket)
}

#[test]
fn lost_packets_are_no_end(rt: HostRuntime) -> Result<(), Fail> {
    let mut inbox = UdpInbox::of(0, Some(refused(&rt)?));
    let mut lane = UdpLane::of(Some(refused(&rt)?));
    assert!(rt; gives(&mut inbox, Incoming::Quiet));
    assert!(rt; lane.ask(false).ok() == Some(LaneAsk::Quiet));
    Ok(())
}

#[test]
fn links_without_sockets_fail(rt: HostRuntime) -> Result<(), Fail> {
    let mut room = [0; 2048];
    let mut lane = UdpLane::of(None);
    assert!(rt; UdpInbox::of(0, None).take(&mut room).is_err());
    assert!(rt;
        UdpOutbox::of(None)
            .send(0, THIS_HOST, 5351, b"abc")
            .is_err()
    );
    assert!(rt; lane.ask(false).is_err() && lane.answer(None).is_err());
    Ok(())
}

// Once the work is over a lane asks for the end, however fast it is asked.
#[test]
fn a_lane_ends(rt: HostRuntime) -> Result<(), Fail> {
    let server = UdpSocket::bind(&rt, "127.0.0.1:0")?;
    let host = host_to(&rt, "127.0.0.1", "127.0.0.1", server.local_addr()?.port())?;
    let mut lane = UdpLane::of(Some(server));
    for _ in 0..64 {
        host.send(b"look 17 1024 198.51.100.7 53")?;
        assert!(rt; lane.ask(true).ok() == Some(LOOK));
    }
    host.send(b"look 17 1024 198.51.100.7 53")?;
    assert!(rt; lane.ask(true).ok() == Some(LaneAsk::Stop));
    Ok(())
}

fn sends<T: Send>() {}

// Threads may take these with them.
fn crosses_threads<C: time::Clock + Drop + Send>() {
    sends::<UdpInbox>();
    sends::<UdpOutbox>();
    sends::<UdpLane>();
    sends::<SystemClock<C>>();
}
