//! Runs of `map`, `peer` and `announce`: what they send and print, and their statuses.
use crate::links::{Came, Ended, Failing, SOUND, run_in_memory};
use client_runs::{SERVER_PORT, ToolStatus};
use pcp_base::{Address, Code, Memory};
use std::alloc::Global;
use std::test::Fail;

const SERVER: Address = Address([0, 0, 0, 0, 0, 0, 0, 0, 0, 0, 0xff, 0xff, 192, 0, 2, 9]);

const OTHER: Address = Address([0, 0, 0, 0, 0, 0, 0, 0, 0, 0, 0xff, 0xff, 192, 0, 2, 10]);

const MAP: &str =
    "map --server 192.0.2.9 --own 10.0.0.5 --protocol udp --port 5000 --lifetime 3600";

// MAP of UDP port 5000 from 10.0.0.5, for an hour.
static MAP_REQUEST: [u8; 60] = [
    2, 1, 0, 0, 0, 0, 0x0e, 0x10, 0, 0, 0, 0, 0, 0, 0, 0, 0, 0, 0xff, 0xff, 10, 0, 0, 5, 0, 1, 2,
    3, 4, 5, 6, 7, 8, 9, 10, 11, 17, 0, 0, 0, 0x13, 0x88, 0, 0, 0, 0, 0, 0, 0, 0, 0, 0, 0, 0, 0xff,
    0xff, 0, 0, 0, 0,
];

// 192.0.2.1, port 1024, for an hour, at epoch 10.
static MAP_REPLY: [u8; 60] = [
    2, 0x81, 0, 0, 0, 0, 0x0e, 0x10, 0, 0, 0, 10, 0, 0, 0, 0, 0, 0, 0, 0, 0, 0, 0, 0, 0, 1, 2, 3,
    4, 5, 6, 7, 8, 9, 10, 11, 17, 0, 0, 0, 0x13, 0x88, 4, 0, 0, 0, 0, 0, 0, 0, 0, 0, 0, 0, 0xff,
    0xff, 192, 0, 2, 1,
];

// The same with another nonce.
static STRAY_REPLY: [u8; 60] = [
    2, 0x81, 0, 0, 0, 0, 0x0e, 0x10, 0, 0, 0, 10, 0, 0, 0, 0, 0, 0, 0, 0, 0, 0, 0, 0, 1, 1, 2, 3,
    4, 5, 6, 7, 8, 9, 10, 11, 17, 0, 0, 0, 0x13, 0x88, 4, 0, 0, 0, 0, 0, 0, 0, 0, 0, 0, 0, 0xff,
    0xff, 192, 0, 2, 1,
];

// No lifetime, and nothing granted.
static NO_LIFETIME: [u8; 60] = [
    2, 0x81, 0, 0, 0, 0, 0, 0, 0, 0, 0, 10, 0, 0, 0, 0, 0, 0, 0, 0, 0, 0, 0, 0, 0, 1, 2, 3, 4, 5,
    6, 7, 8, 9, 10, 11, 17, 0, 0, 0, 0x13, 0x88, 0, 0, 0, 0, 0, 0, 0, 0, 0, 0, 0, 0, 0, 0, 0, 0, 0,
    0,
];

// Code 8 for 30 seconds.
static NO_RESOURCES: [u8; 60] = [
    2, 0x81, 0, 8, 0, 0, 0, 30, 0, 0, 0, 10, 0, 0, 0, 0, 0, 0, 0, 0, 0, 0, 0, 0, 0, 1, 2, 3, 4, 5,
    6, 7, 8, 9, 10, 11, 17, 0, 0, 0, 0x13, 0x88, 0, 0, 0, 0, 0, 0, 0, 0, 0, 0, 0, 0, 0xff, 0xff, 0,
    0, 0, 0,
];

// A reply with a PORT_SET of 5 ports from 5000 on.
static SET_REPLY: [u8; 72] = [
    2, 0x81, 0, 0, 0, 0, 0x0e, 0x10, 0, 0, 0, 10, 0, 0, 0, 0, 0, 0, 0, 0, 0, 0, 0, 0, 0, 1, 2, 3,
    4, 5, 6, 7, 8, 9, 10, 11, 17, 0, 0, 0, 0x13, 0x88, 4, 0, 0, 0, 0, 0, 0, 0, 0, 0, 0, 0, 0xff,
    0xff, 192, 0, 2, 1, 130, 0, 0, 5, 0, 5, 0x13, 0x88, 0, 0, 0, 0,
];

// MAP that prefers to fail, of 8 ports from 5000 on, with port 1024 as its suggestion.
static SET_REQUEST: [u8; 76] = [
    2, 1, 0, 0, 0, 0, 0x0e, 0x10, 0, 0, 0, 0, 0, 0, 0, 0, 0, 0, 0xff, 0xff, 10, 0, 0, 5, 0, 1, 2,
    3, 4, 5, 6, 7, 8, 9, 10, 11, 17, 0, 0, 0, 0x13, 0x88, 4, 0, 0, 0, 0, 0, 0, 0, 0, 0, 0, 0, 0xff,
    0xff, 0, 0, 0, 0, 2, 0, 0, 0, 130, 0, 0, 5, 0, 8, 0x13, 0x88, 0, 0, 0, 0,
];

// PEER of TCP port 5000 towards port 443 of 198.51.100.7, for two hours.
static PEER_REQUEST: [u8; 80] = [
    2, 2, 0, 0, 0, 0, 0x1c, 0x20, 0, 0, 0, 0, 0, 0, 0, 0, 0, 0, 0xff, 0xff, 10, 0, 0, 5, 0, 1, 2,
    3, 4, 5, 6, 7, 8, 9, 10, 11, 6, 0, 0, 0, 0x13, 0x88, 0, 0, 0, 0, 0, 0, 0, 0, 0, 0, 0, 0, 0xff,
    0xff, 0, 0, 0, 0, 1, 0xbb, 0, 0, 0, 0, 0, 0, 0, 0, 0, 0, 0, 0, 0xff, 0xff, 198, 51, 100, 7,
];

static PEER_REPLY: [u8; 80] = [
    2, 0x82, 0, 0, 0, 0, 0x1c, 0x20, 0, 0, 0, 10, 0, 0, 0, 0, 0, 0, 0, 0, 0, 0, 0, 0, 0, 1, 2, 3,
    4, 5, 6, 7, 8, 9, 10, 11, 6, 0, 0, 0, 0x13, 0x88, 4, 1, 0, 0, 0, 0, 0, 0, 0, 0, 0, 0, 0xff,
    0xff, 192, 0, 2, 1, 1, 0xbb, 0, 0, 0, 0, 0, 0, 0, 0, 0, 0, 0, 0, 0xff, 0xff, 198, 51, 100, 7,
];

static ANNOUNCE_REQUEST: [u8; 24] = [
    2, 0, 0, 0, 0, 0, 0, 0, 0, 0, 0, 0, 0, 0, 0, 0, 0, 0, 0xff, 0xff, 10, 0, 0, 5,
];

static ANNOUNCE_REPLY: [u8; 24] = [
    2, 0x80, 0, 0, 0, 0, 0, 0, 0, 0, 0, 10, 0, 0, 0, 0, 0, 0, 0, 0, 0, 0, 0, 0,
];

/// What a run is to come to.
#[derive(Drop)]
struct Expected {
    status: ToolStatus,
    line: &'static str,
    /// The request, and how often it is sent.
    request: &'static [u8],
    sent: usize,
}

// Whether it sent this request so often, to the server's port, and nothing else.
fn has_sent(ended: &Ended, request: &[u8], sent: usize) -> bool {
    for datagram in ended.up.sent() {
        let to_server = datagram.peer == SERVER && datagram.port == SERVER_PORT;
        if !to_server || datagram.octets.items() != request {
            return false;
        }
    }
    ended.up.sent().len() == sent
}

fn comes_to(
    alloc: Global,
    words: &str,
    turns: &[(u32, Came)],
    failing: &Failing,
    expected: &Expected,
) -> Result<bool, Memory> {
    let ended = run_in_memory(alloc, words, turns, failing)?;
    if ended.out.held() != expected.line.as_bytes() {
        return Ok(false);
    }
    Ok(ended.status == expected.status && has_sent(&ended, expected.request, expected.sent))
}

// The row of a client's run.
#[test]
fn a_mapping_is_asked_for(rt: HostRuntime) -> Result<(), Fail> {
    let turns = [(20, Came::Packet(SERVER, &MAP_REPLY))];
    let expected = Expected {
        status: ToolStatus::Done,
        line: "mapped 192.0.2.1 1024 3600 10\n",
        request: &MAP_REQUEST,
        sent: 1,
    };
    assert!(rt; comes_to(rt.alloc(), MAP, &turns, &SOUND, &expected) == Ok(true));
    Ok(())
}

// Waits of 3 and 6 seconds. What isn't the answer is passed over.
#[test]
fn silence_ends_it(rt: HostRuntime) -> Result<(), Fail> {
    let words =
        "map --server 192.0.2.9 --own 10.0.0.5 --protocol udp --port 5000 --lifetime 3600 --tries 2";
    let turns = [
        (10, Came::Packet(SERVER, &STRAY_REPLY)),
        (2_999, Came::Packet(OTHER, &MAP_REPLY)),
        (3_000, Came::Quiet),
        (8_999, Came::Packet(SERVER, &ANNOUNCE_REPLY)),
        (9_000, Came::Quiet),
        (9_001, Came::Packet(SERVER, &MAP_REPLY)),
    ];
    let mut expected = Expected {
        status: ToolStatus::Silence,
        line: "",
        request: &MAP_REQUEST,
        sent: 2,
    };
    assert!(rt; comes_to(rt.alloc(), words, &turns, &SOUND, &expected) == Ok(true));
    // A stop comes before the last wait is over.
    expected.status = ToolStatus::Stopped;
    assert!(rt; comes_to(rt.alloc(), words, &turns[..4], &SOUND, &expected) == Ok(true));
    Ok(())
}

#[test]
fn refusals_are_told(rt: HostRuntime) -> Result<(), Fail> {
    let mut expected = Expected {
        status: ToolStatus::Refused(Code::NoResources),
        line: "refused 8 30\n",
        request: &MAP_REQUEST,
        sent: 1,
    };
    let turns = [(20, Came::Packet(SERVER, &NO_RESOURCES))];
    assert!(rt; comes_to(rt.alloc(), MAP, &turns, &SOUND, &expected) == Ok(true));
    expected.status = ToolStatus::Refused(Code::Success);
    expected.line = "refused 0 0\n";
    let turns = [(20, Came::Packet(SERVER, &NO_LIFETIME))];
    assert!(rt; comes_to(rt.alloc(), MAP, &turns, &SOUND, &expected) == Ok(true));
    Ok(())
}

#[test]
fn sets_are_asked_for(rt: HostRuntime) -> Result<(), Fail> {
    let words =
        "map --server 192.0.2.9 --own 10.0.0.5 --protocol udp --port 5000 --lifetime 3600 --external-port 1024 --prefer-failure --size 8";
    let mut expected = Expected {
        status: ToolStatus::Done,
        line: "mapped 192.0.2.1 1024 3600 10 5\n",
        request: &SET_REQUEST,
        sent: 1,
    };
    let turns = [(20, Came::Packet(SERVER, &SET_REPLY))];
    assert!(rt; comes_to(rt.alloc(), words, &turns, &SOUND, &expected) == Ok(true));
    expected.line = "mapped 192.0.2.1 1024 3600 10 1\n";
    let turns = [(20, Came::Packet(SERVER, &MAP_REPLY))];
    assert!(rt; comes_to(rt.alloc(), words, &turns, &SOUND, &expected) == Ok(true));
    Ok(())
}

#[test]
fn a_peer_is_asked_for(rt: HostRuntime) -> Result<(), Fail> {
    let words =
        "peer --server 192.0.2.9 --own 10.0.0.5 --protocol tcp --port 5000 --remote 198.51.100.7 --remote-port 443";
    let expected = Expected {
        status: ToolStatus::Done,
        line: "mapped 192.0.2.1 1025 7200 10\n",
        request: &PEER_REQUEST,
        sent: 2,
    };
    let turns = [
        (3_000, Came::Quiet),
        (3_020, Came::Packet(SERVER, &PEER_REPLY)),
    ];
    assert!(rt; comes_to(rt.alloc(), words, &turns, &SOUND, &expected) == Ok(true));
    Ok(())
}

// `announce` draws no words for a nonce: that of the first wait is 00010203, which leaves 18 by 2001. So the
// wait is 3000 - 294 milliseconds.
#[test]
fn the_epoch_is_asked_for(rt: HostRuntime) -> Result<(), Fail> {
    let words = "announce --server 192.0.2.9 --own 10.0.0.5";
    let expected = Expected {
        status: ToolStatus::Done,
        line: "epoch 10\n",
        request: &ANNOUNCE_REQUEST,
        sent: 2,
    };
    let turns = [
        (10, Came::Packet(SERVER, &MAP_REPLY)),
        (20, Came::Packet(OTHER, &ANNOUNCE_REPLY)),
        (2_705, Came::Quiet),
        (2_706, Came::Quiet),
        (2_750, Came::Packet(SERVER, &ANNOUNCE_REPLY)),
    ];
    assert!(rt; comes_to(rt.alloc(), words, &turns, &SOUND, &expected) == Ok(true));
    Ok(())
}

#[test]
fn faults_are_told(rt: HostRuntime) -> Result<(), Fail> {
    let turns = [(20, Came::Packet(SERVER, &MAP_REPLY))];
    let mut expected = Expected {
        status: ToolStatus::LinkFault,
        line: "",
        request: &MAP_REQUEST,
        sent: 1,
    };
    let take = Failing { take: 0, ..SOUND };
    assert!(rt; comes_to(rt.alloc(), MAP, &turns, &take, &expected) == Ok(true));
    expected.status = ToolStatus::WriteFault;
    let write = Failing { write: 0, ..SOUND };
    assert!(rt; comes_to(rt.alloc(), MAP, &turns, &write, &expected) == Ok(true));
    expected.status = ToolStatus::EntropyFault;
    expected.sent = 0;
    let word = Failing { word: 2, ..SOUND };
    assert!(rt; comes_to(rt.alloc(), MAP, &turns, &word, &expected) == Ok(true));
    let word = Failing { word: 3, ..SOUND };
    assert!(rt; comes_to(rt.alloc(), MAP, &turns, &word, &expected) == Ok(true));
    expected.status = ToolStatus::WordsRefused;
    assert!(rt; comes_to(rt.alloc(), "map --size", &turns, &SOUND, &expected) == Ok(true));
    Ok(())
}

// A request whose send fails is lost, and counts as a try.
#[test]
fn lost_requests_are_tries(rt: HostRuntime) -> Result<(), Fail> {
    let turns = [
        (3_000, Came::Quiet),
        (3_020, Came::Packet(SERVER, &MAP_REPLY)),
    ];
    let expected = Expected {
        status: ToolStatus::Done,
        line: "mapped 192.0.2.1 1024 3600 10\n",
        request: &MAP_REQUEST,
        sent: 1,
    };
    let send = Failing { send: 0, ..SOUND };
    assert!(rt; comes_to(rt.alloc(), MAP, &turns, &send, &expected) == Ok(true));
    Ok(())
}
