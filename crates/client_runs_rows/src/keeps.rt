//! Runs of `keep`: what it prints, and how often it asks.
use crate::links::{Came, Ended, Failing, SOUND, keep_in_memory};
use client_runs::ToolStatus;
use pcp_base::{Address, Memory};
use std::alloc::Global;
use std::test::Fail;

const SERVER: Address = Address([0, 0, 0, 0, 0, 0, 0, 0, 0, 0, 0xff, 0xff, 192, 0, 2, 9]);

const KEEP: &str =
    "keep --server 192.0.2.9 --own 10.0.0.5 --protocol udp --port 5000 --lifetime 3600";

// 192.0.2.1, port 1024, for an hour.
static GRANT: [u8; 60] = [
    2, 0x81, 0, 0, 0, 0, 0x0e, 0x10, 0, 0, 0, 10, 0, 0, 0, 0, 0, 0, 0, 0, 0, 0, 0, 0, 0, 1, 2, 3,
    4, 5, 6, 7, 8, 9, 10, 11, 17, 0, 0, 0, 0x13, 0x88, 4, 0, 0, 0, 0, 0, 0, 0, 0, 0, 0, 0, 0xff,
    0xff, 192, 0, 2, 1,
];

// Port 1025.
static OTHER_PORT: [u8; 60] = [
    2, 0x81, 0, 0, 0, 0, 0x0e, 0x10, 0, 0, 0, 10, 0, 0, 0, 0, 0, 0, 0, 0, 0, 0, 0, 0, 0, 1, 2, 3,
    4, 5, 6, 7, 8, 9, 10, 11, 17, 0, 0, 0, 0x13, 0x88, 4, 1, 0, 0, 0, 0, 0, 0, 0, 0, 0, 0, 0xff,
    0xff, 192, 0, 2, 1,
];

// Code 2 for 30 seconds.
static NOT_AUTHORIZED: [u8; 60] = [
    2, 0x81, 0, 2, 0, 0, 0, 30, 0, 0, 0, 10, 0, 0, 0, 0, 0, 0, 0, 0, 0, 0, 0, 0, 0, 1, 2, 3, 4, 5,
    6, 7, 8, 9, 10, 11, 17, 0, 0, 0, 0x13, 0x88, 0, 0, 0, 0, 0, 0, 0, 0, 0, 0, 0, 0, 0xff, 0xff, 0,
    0, 0, 0,
];

// Code 8 for 30 seconds.
static NO_RESOURCES: [u8; 60] = [
    2, 0x81, 0, 8, 0, 0, 0, 30, 0, 0, 0, 10, 0, 0, 0, 0, 0, 0, 0, 0, 0, 0, 0, 0, 0, 1, 2, 3, 4, 5,
    6, 7, 8, 9, 10, 11, 17, 0, 0, 0, 0x13, 0x88, 0, 0, 0, 0, 0, 0, 0, 0, 0, 0, 0, 0, 0xff, 0xff, 0,
    0, 0, 0,
];

static ANNOUNCE: [u8; 24] = [
    2, 0x80, 0, 0, 0, 0, 0, 0, 0, 0, 0, 10, 0, 0, 0, 0, 0, 0, 0, 0, 0, 0, 0, 0,
];

/// What comes in a turn; a response has this epoch.
#[derive(Clone, Copy)]
enum Said {
    Nothing,
    Grant(u32),
    OtherPort(u32),
    NoResources(u32),
    NotAuthorized(u32),
    Announce(u32),
}

fn came_of(said: Said) -> Came {
    match said {
        Said::Nothing => Came::Quiet,
        Said::Grant(epoch) => Came::At(SERVER, &GRANT, epoch),
        Said::OtherPort(epoch) => Came::At(SERVER, &OTHER_PORT, epoch),
        Said::NoResources(epoch) => Came::At(SERVER, &NO_RESOURCES, epoch),
        Said::NotAuthorized(epoch) => Came::At(SERVER, &NOT_AUTHORIZED, epoch),
        Said::Announce(epoch) => Came::At(SERVER, &ANNOUNCE, epoch),
    }
}

fn turns_of(alloc: Global, said: &[(u32, Said)]) -> Result<Vec<(u32, Came)>, Memory> {
    let mut turns = Vec::new(alloc);
    for (time, said) in said {
        turns.push((*time, came_of(*said)))?;
    }
    Ok(turns)
}

/// What is said at which milliseconds, what is printed for it, and how many requests are sent.
struct Row {
    said: &'static [(u32, Said)],
    lines: &'static str,
    sent: usize,
}

// Every word behind those of the nonce is 1000. So the first renewal comes 1,800,000 and 6,866 milliseconds
// behind a grant, and what is asked anew 76 behind an invalid epoch.
static ROWS: [Row; 12] = [
    // Nothing answers: it asks at once, and after 3 seconds.
    Row {
        said: &[
            (0, Said::Nothing),
            (2_999, Said::Nothing),
            (3_000, Said::Nothing),
        ],
        lines: "",
        sent: 2,
    },
    // A renewal isn't told.
    Row {
        said: &[
            (0, Said::Nothing),
            (20, Said::Grant(10)),
            (1_806_885, Said::Nothing),
            (1_806_886, Said::Nothing),
            (1_806_900, Said::Grant(1_816)),
        ],
        lines: "mapped 192.0.2.1 1024 3600 10\n",
        sent: 2,
    },
    // Another port is.
    Row {
        said: &[
            (0, Said::Nothing),
            (20, Said::Grant(10)),
            (1_806_886, Said::Nothing),
            (1_806_900, Said::OtherPort(1_816)),
        ],
        lines: "mapped 192.0.2.1 1024 3600 10\nmapped 192.0.2.1 1025 3600 1816\n",
        sent: 2,
    },
    // The lease ends, and it asks anew.
    Row {
        said: &[
            (0, Said::Nothing),
            (20, Said::Grant(10)),
            (3_600_020, Said::Nothing),
            (3_600_040, Said::Grant(3_610)),
        ],
        lines: "mapped 192.0.2.1 1024 3600 10\nlost\nmapped 192.0.2.1 1024 3600 3610\n",
        sent: 2,
    },
    // The server lost its leases, and gives the same port again, which is told; its next renewal isn't.
    Row {
        said: &[
            (0, Said::Nothing),
            (20, Said::Grant(10)),
            (60_020, Said::Announce(0)),
            (60_095, Said::Nothing),
            (60_096, Said::Nothing),
            (60_110, Said::Grant(0)),
            (1_866_976, Said::Nothing),
            (1_866_990, Said::Grant(1_806)),
        ],
        lines: "mapped 192.0.2.1 1024 3600 10\ninvalid\nmapped 192.0.2.1 1024 3600 0\n",
        sent: 3,
    },
    // It gives another port.
    Row {
        said: &[
            (0, Said::Nothing),
            (20, Said::Grant(10)),
            (60_020, Said::Announce(0)),
            (60_096, Said::Nothing),
            (60_110, Said::OtherPort(0)),
        ],
        lines: "mapped 192.0.2.1 1024 3600 10\ninvalid\nmapped 192.0.2.1 1025 3600 0\n",
        sent: 2,
    },
    // A refusal is told once.
    Row {
        said: &[
            (0, Said::Nothing),
            (20, Said::NoResources(10)),
            (30_020, Said::Nothing),
            (30_040, Said::NoResources(40)),
            (60_040, Said::Nothing),
            (60_060, Said::Grant(70)),
        ],
        lines: "refused 8 30\nmapped 192.0.2.1 1024 3600 70\n",
        sent: 3,
    },
    // One with another code is told too.
    Row {
        said: &[
            (0, Said::Nothing),
            (20, Said::NoResources(10)),
            (30_020, Said::Nothing),
            (30_040, Said::NotAuthorized(40)),
            (60_040, Said::Nothing),
            (60_060, Said::NoResources(70)),
        ],
        lines: "refused 8 30\nrefused 2 30\nrefused 8 30\n",
        sent: 3,
    },
    // A renewal is refused and granted then: the same port is told again.
    Row {
        said: &[
            (0, Said::Nothing),
            (20, Said::Grant(10)),
            (1_806_886, Said::Nothing),
            (1_806_900, Said::NoResources(1_816)),
            (1_836_900, Said::Nothing),
            (1_836_920, Said::Grant(1_846)),
        ],
        lines: "mapped 192.0.2.1 1024 3600 10\nrefused 8 30\nmapped 192.0.2.1 1024 3600 1846\n",
        sent: 3,
    },
    // Behind an invalid epoch a refusal is told again.
    Row {
        said: &[
            (0, Said::Nothing),
            (20, Said::NoResources(10)),
            (30_020, Said::NoResources(2)),
        ],
        lines: "refused 8 30\ninvalid\nrefused 8 30\n",
        sent: 1,
    },
    // An invalid epoch, and then what the same response says.
    Row {
        said: &[
            (0, Said::Nothing),
            (20, Said::Grant(100)),
            (1_806_886, Said::Nothing),
            (1_806_900, Said::OtherPort(5)),
        ],
        lines: "mapped 192.0.2.1 1024 3600 100\ninvalid\nmapped 192.0.2.1 1025 3600 5\n",
        sent: 2,
    },
    // The same, of a response that grants the port of before.
    Row {
        said: &[
            (0, Said::Nothing),
            (20, Said::Grant(100)),
            (1_806_886, Said::Nothing),
            (1_806_900, Said::Grant(5)),
        ],
        lines: "mapped 192.0.2.1 1024 3600 100\ninvalid\nmapped 192.0.2.1 1024 3600 5\n",
        sent: 2,
    },
];

fn went_so(ended: &Ended, row: &Row) -> bool {
    ended.status == ToolStatus::Done
        && ended.out.held() == row.lines.as_bytes()
        && ended.up.sent().len() == row.sent
}

#[test]
fn changes_are_told(rt: HostRuntime) -> Result<(), Fail> {
    for row in &ROWS {
        let turns = turns_of(rt.alloc(), row.said)?;
        let ended = keep_in_memory(&rt, rt.alloc(), KEEP, &turns, &SOUND)?;
        assert!(rt; went_so(&ended, row), "{}", row.lines);
    }
    Ok(())
}

// How it ends where a take, a word or a write fails, or its words are none.
fn ends() -> [(&'static str, Failing, ToolStatus); 4] {
    [
        (KEEP, Failing { take: 1, ..SOUND }, ToolStatus::LinkFault),
        (KEEP, Failing { word: 4, ..SOUND }, ToolStatus::EntropyFault),
        (KEEP, Failing { write: 0, ..SOUND }, ToolStatus::WriteFault),
        ("keep --tries 2", SOUND, ToolStatus::WordsRefused),
    ]
}

#[test]
fn faults_end_it(rt: HostRuntime) -> Result<(), Fail> {
    let turns = [(0, Came::Quiet), (20, Came::At(SERVER, &GRANT, 10))];
    for (words, failing, status) in &ends() {
        let ended = keep_in_memory(&rt, rt.alloc(), words, &turns, failing)?;
        assert!(rt; ended.status == *status);
        assert!(rt; ended.out.held().is_empty());
    }
    Ok(())
}
