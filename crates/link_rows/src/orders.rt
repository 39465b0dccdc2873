//! What lines of the socket of orders say, and which asks of a lane pass.
use pcp_base::Address;
use pcp_io::{LaneAsk, LaneLink, UdpLane};
use program_links::{OrderLine, ServerLane, loopback_at, read_order_line, socket_at};
use std::test::Fail;

// 192.0.2.1 and 2001:db8::1.
const V4: Address = Address([0, 0, 0, 0, 0, 0, 0, 0, 0, 0, 0xff, 0xff, 192, 0, 2, 1]);

const V6: Address = Address([0x20, 1, 0xd, 0xb8, 0, 0, 0, 0, 0, 0, 0, 0, 0, 0, 0, 1]);

// Lines, and what they say.
static LINES: [(&[u8], Option<OrderLine>); 15] = [
    (b"stop\n", Some(OrderLine::Stop)),
    (b"status\n", Some(OrderLine::Status)),
    (b"lose 192.0.2.1\n", Some(OrderLine::Lose(V4))),
    (
        b"lose 20010db8000000000000000000000001\n",
        Some(OrderLine::Lose(V6)),
    ),
    (b"", None),
    (b"\n", None),
    (b"stop", None),
    (b"stop\n\n", None),
    (b"stop \n", None),
    (b" stop\n", None),
    (b"STOP\n", None),
    (b"\xffstop\n", None),
    (b"lose\n", None),
    (b"lose 192.0.2\n", None),
    (b"status\nstatus\n", None),
];

#[test]
fn lines_of_orders(rt: HostRuntime) {
    for (line, order) in &LINES {
        assert!(rt; read_order_line(line) == *order, "{}", line.escape_ascii());
    }
}

// Whether the link takes stops, whether the work is over, and what comes of a stop then.
static STOPS: [(bool, bool, LaneAsk); 4] = [
    (true, false, LaneAsk::Stop),
    (true, true, LaneAsk::Stop),
    (false, false, LaneAsk::Quiet),
    (false, true, LaneAsk::Stop),
];

#[test]
fn stops_of_lanes(rt: HostRuntime) -> Result<(), Fail> {
    for (takes_stops, over, asked) in &STOPS {
        let socket = socket_at(loopback_at(0))?;
        let port = socket.local_addr()?.port();
        let mut lane = ServerLane::of(&rt, UdpLane::of(Some(socket)), 0, *takes_stops);
        let host = socket_at(loopback_at(0))?;
        host.send_to(b"stop", ("127.0.0.1", port))?;
        assert!(rt;
            lane.ask(*over).ok() == Some(*asked),
            "{takes_stops} {over}"
        );
    }
    Ok(())
}
