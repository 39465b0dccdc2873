//! Calls of the ports of an address, with answers that are worked out by hand: which are picked where
//! others are held or rest.

ghost use Rattle.std.specs.Prelude.{◌≡◌, ◌≤◌, ◌<◌, ◌+◌, OnOk};
ghost use Rattle.std.specs.Bool.{OnTrue};
ghost use Rattle.external_pool.specs.Calls.{IsAsk};
ghost use Rattle.leased_ports.specs.Leased.{IsLastEnd, AreLastEnds};

use crate::making::{all_are_so, at, moment};
use Call::{FreeRun, LastEnd, Pick, Put, PutRun, Reach};
use PickRefused::{CannotProvide, NoPort, Quota};
use Protocol::{Tcp, Udp};
use Wish::{Any, Away, First, Must};
use external_pool::{PickAsk, PickRefused, Picked};
use leased_ports::LeasedPorts;
use pcp_base::{End, Endpoint, Memory, Moment, Protocol};
use std::alloc::Global;
use std::marker::Brand;
use std::sync::ledger::{Blank, Ledger};
use step_count::Steps;

/// What is wished of the ports that are asked for.
#[derive(Clone, Copy)]
enum Wish {
    Any,
    /// The remainder by 2 of the first one.
    First(u8),
    /// All of what is asked for, or nothing.
    Must,
    /// The same, of another external address.
    Away,
}

/// A call of the host 10.0.0.H, and the answer that is wanted.
#[derive(Clone, Copy)]
enum Call {
    /// Host, protocol, internal port, external port, how many from both on, and their end.
    Put(u8, Protocol, u16, u16, u16, u32),
    Reach(u32),
    /// Host, protocol, internal port, suggestion, how many, and the first and the number of those
    /// picked.
    Pick(u8, Protocol, u16, u16, u32, Wish, Result<(u16, u32), PickRefused>),
    /// An external port over UDP, and host, internal port and end.
    LastEnd(u16, Option<(u8, u16, u64)>),
    /// As `Put`, in one call.
    PutRun(u8, Protocol, u16, u16, u32, u32),
    /// A protocol, an external port, and how many from it on.
    FreeRun(Protocol, u16, u32),
}

static SUGGESTED: [Call; 11] = [
    Pick(5, Udp, 5000, 0, 1, Any, Ok((1024, 1))),
    Put(5, Udp, 5000, 1024, 1, 1000),
    Pick(6, Udp, 5000, 1024, 1, Any, Ok((1025, 1))),
    Pick(6, Udp, 5000, 2000, 1, Any, Ok((2000, 1))),
    Pick(6, Tcp, 5000, 1024, 1, Any, Ok((1024, 1))),
    Pick(6, Udp, 5000, 80, 1, Any, Ok((1025, 1))),
    Pick(7, Udp, 5000, 1024, 1, Must, Err(CannotProvide)),
    Pick(7, Udp, 5000, 1025, 1, Must, Ok((1025, 1))),
    Pick(7, Udp, 5000, 1025, 1, Away, Err(CannotProvide)),
    Pick(7, Udp, 5000, 0, 1, Must, Ok((1025, 1))),
    // A port changes its owner.
    Put(6, Udp, 5000, 1024, 1, 1000),
];

// Of the ports 10 to 20.
static LONGEST: [Call; 26] = [
    Pick(1, Udp, 6000, 0, 8, Any, Ok((10, 8))),
    Pick(1, Udp, 6000, 0, 12, Any, Ok((10, 11))),
    Put(1, Udp, 6000, 13, 1, 500),
    Pick(1, Udp, 6000, 0, 3, Any, Ok((10, 3))),
    Pick(1, Udp, 6000, 0, 4, Any, Ok((14, 4))),
    Pick(1, Udp, 6000, 0, 8, Any, Ok((14, 7))),
    Pick(1, Udp, 6000, 0, 4, First(0), Ok((14, 4))),
    Pick(1, Udp, 6000, 0, 4, First(1), Ok((15, 4))),
    Pick(1, Udp, 6000, 0, 2, First(1), Ok((11, 2))),
    Pick(1, Udp, 6000, 11, 2, First(0), Ok((10, 2))),
    Pick(1, Udp, 6000, 11, 2, First(1), Ok((11, 2))),
    Pick(1, Udp, 6000, 0, 8, Must, Err(CannotProvide)),
    Pick(1, Udp, 6000, 0, 7, Must, Ok((14, 7))),
    Put(1, Udp, 6001, 14, 1, 500),
    Put(1, Udp, 6002, 15, 6, 2000),
    Pick(1, Udp, 6000, 0, 8, Any, Ok((10, 3))),
    Put(1, Udp, 7000, 10, 1, 2000),
    Put(1, Udp, 7002, 12, 1, 2000),
    Pick(1, Udp, 6000, 0, 8, Any, Ok((11, 1))),
    Pick(1, Udp, 6000, 0, 8, First(0), Err(NoPort)),
    Put(2, Udp, 7000, 11, 1, 2000),
    Pick(1, Udp, 6000, 0, 1, Any, Err(NoPort)),
    Pick(1, Udp, 6000, 0, 1, Must, Err(CannotProvide)),
    Pick(1, Tcp, 6000, 0, 8, Any, Ok((10, 8))),
    Reach(620),
    Pick(1, Udp, 6000, 0, 8, Any, Ok((13, 2))),
];

// Of a quota of 4.
static QUOTA: [Call; 19] = [
    Pick(1, Udp, 5000, 0, 4, Any, Ok((1024, 4))),
    Pick(1, Udp, 5000, 0, 5, Any, Ok((1024, 4))),
    Put(1, Udp, 5000, 1024, 2, 300),
    Put(1, Tcp, 5000, 1024, 1, 2000),
    Pick(1, Udp, 7000, 0, 4, Any, Ok((1026, 1))),
    Pick(1, Udp, 7000, 0, 2, Must, Err(CannotProvide)),
    // Outside the range.
    Put(1, Tcp, 5080, 80, 1, 100),
    Pick(1, Udp, 7000, 0, 1, Any, Err(Quota(4))),
    Pick(1, Udp, 7000, 0, 1, Away, Err(Quota(4))),
    Pick(2, Udp, 7000, 0, 1, Any, Ok((1026, 1))),
    Reach(100),
    Pick(1, Tcp, 7000, 80, 1, Any, Ok((1025, 1))),
    Put(1, Udp, 5030, 1030, 2, 300),
    Put(1, Udp, 5032, 1032, 1, 2000),
    Pick(1, Udp, 7000, 0, 1, Any, Err(Quota(6))),
    // Ports that rest aren't owned.
    Reach(300),
    Pick(1, Udp, 7000, 0, 9, Any, Ok((1026, 2))),
    Reach(420),
    Pick(1, Udp, 7000, 0, 9, Any, Ok((1024, 2))),
];

static RESTS: [Call; 26] = [
    Put(5, Udp, 5000, 1024, 1, 10),
    Put(5, Udp, 5001, 1025, 1, 20),
    LastEnd(1024, Some((5, 5000, 10))),
    Pick(5, Udp, 5000, 1024, 1, Any, Ok((1026, 1))),
    Reach(20),
    Pick(6, Udp, 5000, 1024, 1, Any, Ok((1026, 1))),
    Pick(6, Udp, 5000, 0, 1, Any, Ok((1026, 1))),
    Pick(5, Udp, 5000, 0, 1, Any, Ok((1026, 1))),
    Pick(5, Udp, 5000, 1024, 1, Any, Ok((1024, 1))),
    Pick(5, Udp, 5001, 1024, 1, Any, Ok((1026, 1))),
    Pick(5, Tcp, 5001, 1024, 1, Any, Ok((1024, 1))),
    Pick(5, Udp, 5000, 1024, 2, Any, Ok((1024, 2))),
    Pick(5, Udp, 5000, 1024, 3, Any, Ok((1024, 3))),
    Pick(5, Udp, 4999, 1023, 2, Any, Ok((1026, 2))),
    Pick(5, Udp, 5000, 1024, 2, First(1), Ok((1027, 2))),
    Pick(5, Udp, 5001, 1025, 2, First(1), Ok((1025, 2))),
    Reach(129),
    LastEnd(1024, Some((5, 5000, 10))),
    Pick(6, Udp, 5000, 1024, 1, Any, Ok((1026, 1))),
    Reach(130),
    LastEnd(1024, None),
    Pick(6, Udp, 5000, 1024, 1, Any, Ok((1024, 1))),
    // A lease ends the rest.
    Put(6, Udp, 5000, 1025, 1, 1000),
    Pick(5, Udp, 5001, 1025, 1, Any, Ok((1024, 1))),
    // Outside the range.
    Put(5, Udp, 5000, 80, 1, 130),
    Pick(5, Udp, 5000, 80, 1, Any, Ok((1024, 1))),
];

static SETS: [Call; 12] = [
    Pick(1, Tcp, 1, 0, 4096, First(1), Ok((1025, 4096))),
    Put(1, Tcp, 1, 5121, 1, 10),
    Pick(1, Tcp, 1, 0, 4096, First(0), Ok((1024, 4096))),
    Pick(1, Tcp, 1, 0, 4096, First(1), Ok((1025, 4096))),
    Put(1, Tcp, 1, 5120, 1, 10),
    Pick(1, Tcp, 1, 0, 4096, First(0), Ok((1024, 4096))),
    Pick(1, Tcp, 1, 0, 4096, First(1), Ok((5123, 4096))),
    Put(1, Tcp, 1, 5122, 60414, 10),
    Pick(1, Tcp, 1, 0, 4096, First(1), Ok((1025, 4095))),
    Reach(130),
    Put(1, Tcp, 1, 1024, 64512, 200),
    Pick(2, Tcp, 1, 0, 1, Any, Err(NoPort)),
];

// Of all ports, and a quota as large.
static WHOLE: [Call; 5] = [
    Put(1, Udp, 1, 1, 65535, 10),
    Pick(1, Udp, 1, 0, 1, Any, Err(Quota(65535))),
    Pick(2, Udp, 1, 0, 1, Any, Err(NoPort)),
    Reach(130),
    Pick(1, Udp, 1, 0, 4096, Any, Ok((1, 4096))),
];

// Of the ports 65533 to 65535.
static LAST: [Call; 9] = [
    Put(1, Udp, 7, 65533, 3, 10),
    Reach(10),
    Pick(2, Udp, 7, 0, 3, Any, Err(NoPort)),
    Pick(1, Udp, 7, 0, 3, Any, Err(NoPort)),
    Pick(1, Udp, 7, 65533, 3, Any, Ok((65533, 3))),
    Pick(1, Udp, 7, 65533, 4, Any, Err(NoPort)),
    Pick(1, Udp, 9, 65535, 1, Any, Ok((65535, 1))),
    Reach(130),
    Pick(2, Udp, 7, 0, 4, Any, Ok((65533, 3))),
];

static RUNS: [Call; 26] = [
    LastEnd(1024, None),
    LastEnd(65535, None),
    PutRun(5, Udp, 5000, 1030, 4, 100),
    LastEnd(1033, Some((5, 5003, 100))),
    LastEnd(1034, None),
    LastEnd(1024, None),
    LastEnd(1030, Some((5, 5000, 100))),
    LastEnd(1032, Some((5, 5002, 100))),
    LastEnd(1034, None),
    // A part gets another end.
    PutRun(5, Udp, 5001, 1031, 2, 50),
    LastEnd(1030, Some((5, 5000, 100))),
    LastEnd(1031, Some((5, 5001, 50))),
    LastEnd(1033, Some((5, 5003, 100))),
    // All get one, and then another.
    PutRun(5, Udp, 5000, 1030, 4, 200),
    LastEnd(1030, Some((5, 5000, 200))),
    PutRun(5, Udp, 5000, 1030, 4, 300),
    LastEnd(1031, Some((5, 5001, 300))),
    FreeRun(Udp, 1031, 2),
    LastEnd(1030, Some((5, 5000, 300))),
    LastEnd(1031, None),
    LastEnd(1033, Some((5, 5003, 300))),
    Pick(6, Udp, 5000, 1031, 2, Must, Ok((1031, 2))),
    Pick(6, Udp, 5000, 1030, 1, Must, Err(CannotProvide)),
    // Over several runs and what lies between.
    FreeRun(Udp, 1029, 9),
    LastEnd(1030, None),
    Pick(6, Udp, 5000, 1029, 9, Must, Ok((1029, 9))),
];

static RESTING_RUNS: [Call; 19] = [
    PutRun(5, Udp, 5000, 1030, 4, 300),
    Reach(299),
    Pick(5, Udp, 5001, 1031, 1, Must, Err(CannotProvide)),
    // Each port rests for its own endpoint.
    Reach(300),
    LastEnd(1031, Some((5, 5001, 300))),
    Pick(5, Udp, 5001, 1031, 1, Must, Ok((1031, 1))),
    Pick(5, Udp, 5000, 1031, 1, Must, Err(CannotProvide)),
    Pick(6, Udp, 5001, 1031, 1, Must, Err(CannotProvide)),
    // Ports that rest from the first on.
    PutRun(7, Tcp, 7000, 2000, 3, 250),
    Pick(7, Tcp, 7001, 2001, 2, Must, Ok((2001, 2))),
    Pick(6, Tcp, 7001, 2001, 1, Must, Err(CannotProvide)),
    Reach(370),
    // What is over is told no more.
    LastEnd(1030, Some((5, 5000, 300))),
    Reach(420),
    LastEnd(1030, None),
    // It gets others, in place and in part.
    PutRun(5, Udp, 5000, 1030, 4, 900),
    Pick(6, Udp, 5000, 1030, 1, Must, Err(CannotProvide)),
    PutRun(8, Tcp, 7000, 2001, 1, 410),
    Pick(7, Tcp, 7000, 2000, 3, Must, Err(CannotProvide)),
];

// Of all ports: the last ones of TCP, and the first ones of UDP.
static EDGES: [Call; 5] = [
    PutRun(8, Tcp, 8000, 65534, 2, 900),
    PutRun(8, Udp, 8000, 1, 2, 900),
    LastEnd(0, None),
    LastEnd(1, Some((8, 8000, 900))),
    FreeRun(Tcp, 0, 65536),
];

// Of the ports from 1024 on; more runs fall due at once than `reach` sees to.
static UNSEEN: [Call; 22] = [
    Put(1, Udp, 2000, 2000, 70, 5),
    PutRun(1, Tcp, 1, 1024, 64512, 2000),
    // It begins below the range.
    PutRun(2, Udp, 5000, 1000, 30, 10),
    PutRun(2, Udp, 6000, 1030, 970, 2000),
    Reach(125),
    // Four of the 70 ports are free, and the others too, though nobody saw to them.
    Pick(3, Udp, 9000, 0, 1, Any, Ok((2000, 1))),
    Pick(3, Udp, 9000, 2069, 1, Must, Ok((2069, 1))),
    Put(3, Udp, 9000, 2000, 64, 3000),
    Pick(3, Udp, 9000, 0, 1, Any, Ok((2064, 1))),
    // A port that rests is open to its own endpoint alone.
    Pick(2, Udp, 5026, 1026, 1, Must, Ok((1026, 1))),
    Pick(2, Udp, 5000, 1026, 1, Must, Err(CannotProvide)),
    Pick(3, Udp, 5026, 1026, 1, Any, Ok((2064, 1))),
    Reach(129),
    Pick(3, Udp, 9000, 0, 1, Any, Ok((2064, 1))),
    // They are due before the run that begins below the range.
    Put(1, Udp, 300, 300, 70, 10),
    Reach(130),
    Pick(3, Udp, 9000, 0, 1, Any, Ok((1024, 1))),
    Pick(3, Udp, 9000, 1029, 1, Must, Ok((1029, 1))),
    Pick(3, Udp, 9000, 1023, 1, Any, Ok((1024, 1))),
    Pick(3, Tcp, 9000, 0, 1, Any, Err(NoPort)),
    Pick(3, Tcp, 9000, 0, 1, Must, Err(CannotProvide)),
    Pick(3, Udp, 9000, 0, 2, First(1), Ok((1025, 2))),
];

// Of the ports from 1024 on; sets are picked where more runs fall due than `reach` sees to.
static UNSEEN_SETS: [Call; 17] = [
    // Each is a run of its own, and those of TCP come first.
    Put(1, Tcp, 7000, 7000, 20, 5),
    Put(1, Udp, 3000, 1024, 20, 5),
    PutRun(2, Udp, 4000, 1044, 4, 2000),
    Put(1, Udp, 5000, 1048, 20, 5),
    PutRun(2, Udp, 1, 1068, 64468, 2000),
    Reach(124),
    Pick(3, Udp, 9000, 0, 4, Any, Err(NoPort)),
    // All but the first two wait to be seen to.
    Reach(125),
    Pick(3, Udp, 9000, 0, 4, Any, Ok((1024, 4))),
    Pick(3, Udp, 9000, 0, 4, First(1), Ok((1025, 4))),
    Pick(3, Udp, 9000, 1049, 4, Must, Ok((1049, 4))),
    Pick(3, Udp, 9000, 0, 24, Any, Ok((1024, 20))),
    PutRun(3, Udp, 9000, 1026, 4, 3000),
    Pick(3, Udp, 9000, 0, 4, Any, Ok((1030, 4))),
    Pick(3, Udp, 9000, 0, 15, Any, Ok((1048, 15))),
    Pick(3, Tcp, 9000, 0, 6000, Any, Ok((1024, 6000))),
    Pick(3, Tcp, 9000, 0, 6000, First(1), Ok((1025, 6000))),
];

// Of a quota of 70; what the counts say is more than is held.
static LATE: [Call; 6] = [
    Put(2, Udp, 3000, 1100, 64, 5),
    Put(1, Udp, 2000, 2000, 70, 5),
    Pick(1, Udp, 9000, 0, 1, Any, Err(Quota(70))),
    Reach(125),
    Pick(1, Udp, 9000, 2069, 1, Must, Ok((2069, 1))),
    Pick(1, Udp, 9000, 0, 1, Any, Ok((1024, 1))),
];

/// Whether a port may have this last end.
fn is_last_end(last: &End) -> bool
    ensures { OnTrue result (IsLastEnd last.now) }
{
    last.external >= 1 && last.end < 1 << 41
}

/// Gives a port its last end for a caller that counts no steps.
fn put_from<L: Ledger>(
    alloc: Global,
    ports: &mut LeasedPorts,
    last: &End,
    blank: Blank,
) -> Result<(), Memory>
    requires name { blank.name ≡ L.name }
    requires parts { blank.parts ≡ L.parts }
    requires some { 0 < L.parts }
    requires last { IsLastEnd last.now }
    ensures { OnOk result (ports.new.reached ≡ ports.old.reached) }
{
    ports.put(alloc, last, &mut Steps::<L>::begin(blank))
}

/// Gives `n` ports, from this one on, the last end of it.
fn put_all(alloc: Global, ports: &mut LeasedPorts, first: &End, n: u16) -> Result<bool, Memory>
    ensures { OnOk result (ports.new.reached ≡ ports.old.reached) }
{
    for i in 0..n {
        let mut last = *first;
        last.external = first.external.wrapping_add(i);
        last.endpoint.port = first.endpoint.port.wrapping_add(i);
        if !is_last_end(&last) {
            return Ok(false);
        }
        put_from::<Brand>(alloc, ports, &last, Blank::new(1))?;
    }
    Ok(true)
}

/// How many ports there are from this one on.
fn ports_from(start: u16) -> u32
    ensures { start + result ≡ 65536 }
{
    65536 - u32::from(start)
}

/// Whether so many ports may have this last end and those along it.
fn are_last_ends(first: &End, count: u32) -> bool
    ensures { OnTrue result (AreLastEnds first.now count) }
{
    is_last_end(first)
        && count >= 1
        && count <= ports_from(first.external)
        && count <= ports_from(first.endpoint.port)
}

/// Gives ports in a row their last ends for a caller that counts no steps.
fn put_run_from<L: Ledger>(
    alloc: Global,
    ports: &mut LeasedPorts,
    first: &End,
    count: u32,
    blank: Blank,
) -> Result<(), Memory>
    requires name { blank.name ≡ L.name }
    requires parts { blank.parts ≡ L.parts }
    requires some { 0 < L.parts }
    requires ends { AreLastEnds first.now count }
    ensures { OnOk result (ports.new.reached ≡ ports.old.reached) }
{
    ports.put_run(alloc, first, count, &mut Steps::<L>::begin(blank))
}

/// Gives `count` ports, from this one on, the last end of it and those along it.
fn put_run(alloc: Global, ports: &mut LeasedPorts, first: &End, count: u32) -> Result<bool, Memory>
    ensures { OnOk result (ports.new.reached ≡ ports.old.reached) }
{
    if !are_last_ends(first, count) {
        return Ok(false);
    }
    put_run_from::<Brand>(alloc, ports, first, count, Blank::new(1))?;
    Ok(true)
}

/// Takes the last ends from ports in a row for a caller that counts no steps.
fn free_run_from<L: Ledger>(
    alloc: Global,
    ports: &mut LeasedPorts,
    protocol: Protocol,
    start: u16,
    count: u32,
    blank: Blank,
) -> Result<(), Memory>
    requires name { blank.name ≡ L.name }
    requires parts { blank.parts ≡ L.parts }
    requires some { 0 < L.parts }
    requires within { start + count ≤ 65536 }
    ensures { OnOk result (ports.new.reached ≡ ports.old.reached) }
{
    ports.free_run(alloc, protocol, start, count, &mut Steps::<L>::begin(blank))
}

/// Takes the last ends from `count` ports.
fn free_run(
    alloc: Global,
    ports: &mut LeasedPorts,
    protocol: Protocol,
    start: u16,
    count: u32,
) -> Result<bool, Memory>
    ensures { OnOk result (ports.new.reached ≡ ports.old.reached) }
{
    if count > ports_from(start) {
        return Ok(false);
    }
    free_run_from::<Brand>(alloc, ports, protocol, start, count, Blank::new(1))?;
    Ok(true)
}

/// What is picked for a caller that counts no steps.
fn pick_from<L: Ledger>(
    ports: &mut LeasedPorts,
    endpoint: &Endpoint,
    ask: &PickAsk,
    blank: Blank,
) -> Result<Picked, PickRefused>
    requires name { blank.name ≡ L.name }
    requires parts { blank.parts ≡ L.parts }
    requires some { 0 < L.parts }
    requires ask { IsAsk ask.now }
    requires internal { ask.now.internal ≡ endpoint.now.port }
    ensures { ports.new.reached ≡ ports.old.reached }
{
    ports.pick(endpoint, ask, &mut Steps::<L>::begin(blank))
}

/// What is picked for the endpoint, with room for as many ports as are asked for.
fn pick(
    ports: &mut LeasedPorts,
    endpoint: &Endpoint,
    suggested: u16,
    asked: u32,
    wish: Wish,
) -> Result<(u16, u32), PickRefused>
    requires { 1 ≤ asked }
    ensures { ports.new.reached ≡ ports.old.reached }
{
    let ask = PickAsk {
        internal: endpoint.port,
        suggested,
        asked,
        room: asked,
        parity: if let First(remainder) = wish {
            Some(remainder)
        } else {
            None
        },
        must: matches!(wish, Must | Away),
        here: !matches!(wish, Away),
    };
    let picked = pick_from::<Brand>(ports, endpoint, &ask, Blank::new(1))?;
    Ok((picked.start, picked.count))
}

/// Moves on for a caller that counts no steps.
fn reach_from<L: Ledger>(ports: &mut LeasedPorts, m: Moment, blank: Blank)
    requires name { blank.name ≡ L.name }
    requires parts { blank.parts ≡ L.parts }
    requires some { 0 < L.parts }
    requires later { ports.old.reached ≤ m }
    ensures { ports.new.reached ≡ m }
{
    ports.reach(m, &mut Steps::<L>::begin(blank));
}

/// Moves on to a moment. Whether it isn't below the one reached.
fn reaches(ports: &mut LeasedPorts, now: &mut u32, m: u32) -> bool
    requires { ports.old.reached ≡ now.old }
    ensures { ports.new.reached ≡ now.new }
{
    if m < *now {
        return false;
    }
    reach_from::<Brand>(ports, moment(m), Blank::new(1));
    *now = m;
    true
}

/// The last end of an external port, for a port of the host 10.0.0.H.
fn end_of(protocol: Protocol, external: u16, row: Option<(u8, u16, u64)>) -> Option<End> {
    let (host, internal, end) = row?;
    Some(End {
        endpoint: at(protocol, host, internal),
        external,
        end,
    })
}

/// Makes a call at the moment reached. Whether it is answered so.
fn is_answered(
    alloc: Global,
    ports: &mut LeasedPorts,
    now: &mut u32,
    call: &Call,
) -> Result<bool, Memory>
    requires { ports.old.reached ≡ now.old }
    ensures { OnOk result (ports.new.reached ≡ now.new) }
{
    Ok(match *call {
        Put(host, protocol, internal, external, n, end) => {
            let first = End {
                endpoint: at(protocol, host, internal),
                external,
                end: u64::from(end),
            };
            put_all(alloc, ports, &first, n)?
        }
        Reach(m) => reaches(ports, now, m),
        Pick(host, protocol, internal, suggested, asked, wish, wanted) => {
            let endpoint = at(protocol, host, internal);
            asked >= 1 && pick(ports, &endpoint, suggested, asked, wish) == wanted
        }
        LastEnd(port, wanted) => ports.last_end(Udp, port) == end_of(Udp, port, wanted),
        PutRun(host, protocol, internal, external, n, end) => {
            let first = End {
                endpoint: at(protocol, host, internal),
                external,
                end: u64::from(end),
            };
            put_run(alloc, ports, &first, n)?
        }
        FreeRun(protocol, start, n) => free_run(alloc, ports, protocol, start, n)?,
    })
}

/// Whether the ports are vacant when they were cleared.
fn forgets(ports: &mut LeasedPorts, low: u16) -> bool {
    ports.clear();
    pick(ports, &at(Udp, 1, 1), 0, 1, Any) == Ok((low, 1))
}

/// Makes calls, one after the other, of ports from `low` on, from the moment 0 on, and clears them
/// then. The first that is answered otherwise.
fn first_other(
    alloc: Global,
    ports: &mut LeasedPorts,
    low: u16,
    calls: &[Call],
) -> Result<Option<usize>, Memory>
    requires { ports.old.reached ≡ 0 }
{
    let mut now = 0;
    for (i, call) in calls.iter().enumerate() {
        if !is_answered(alloc, ports, &mut now, call)? {
            return Ok(Some(i));
        }
    }
    if !forgets(ports, low) {
        return Ok(Some(calls.len()));
    }
    Ok(None)
}

/// The same of the ports from `low` to `high`, of which none is held.
fn first_other_of_new(
    alloc: Global,
    low: u16,
    high: u16,
    quota: u32,
    calls: &[Call],
) -> Result<Option<usize>, Memory>
    requires some { 1 ≤ low }
    requires ordered { low ≤ high }
{
    let mut ports = LeasedPorts::new(alloc, low, high, quota)?;
    first_other(alloc, &mut ports, low, calls)
}

#[test]
fn a_taken_suggestion_gives_the_least_vacant_port(rt: HostRuntime) {
    all_are_so(
        &rt,
        first_other_of_new(rt.alloc(), 1024, 65535, 100, &SUGGESTED),
    );
}

#[test]
fn the_longest_run_is_picked(rt: HostRuntime) {
    all_are_so(&rt, first_other_of_new(rt.alloc(), 10, 20, 100, &LONGEST));
}

#[test]
fn the_quota_counts_ports(rt: HostRuntime) {
    all_are_so(&rt, first_other_of_new(rt.alloc(), 1024, 65535, 4, &QUOTA));
}

#[test]
fn a_port_is_held_and_rests_for_its_endpoint(rt: HostRuntime) {
    all_are_so(
        &rt,
        first_other_of_new(rt.alloc(), 1024, 65535, 100, &RESTS),
    );
}

#[test]
fn runs_get_their_last_ends_together(rt: HostRuntime) {
    all_are_so(&rt, first_other_of_new(rt.alloc(), 1024, 65535, 100, &RUNS));
}

#[test]
fn runs_rest_and_awake(rt: HostRuntime) {
    all_are_so(
        &rt,
        first_other_of_new(rt.alloc(), 1024, 65535, 100, &RESTING_RUNS),
    );
}

#[test]
fn no_run_crosses_from_tcp_to_udp(rt: HostRuntime) {
    all_are_so(&rt, first_other_of_new(rt.alloc(), 1, 65535, 100, &EDGES));
}

#[test]
fn one_port_is_picked_though_nobody_saw_to_it(rt: HostRuntime) {
    all_are_so(
        &rt,
        first_other_of_new(rt.alloc(), 1024, 65535, 2000, &UNSEEN),
    );
}

#[test]
fn sets_are_picked_though_nobody_saw_to_all(rt: HostRuntime) {
    all_are_so(
        &rt,
        first_other_of_new(rt.alloc(), 1024, 65535, u32::MAX, &UNSEEN_SETS),
    );
}

#[test]
fn a_quota_by_counts_that_lag_is_no_refusal(rt: HostRuntime) {
    all_are_so(&rt, first_other_of_new(rt.alloc(), 1024, 65535, 70, &LATE));
}

#[test]
fn sets_of_4096_ports_with_parity(rt: HostRuntime) {
    all_are_so(
        &rt,
        first_other_of_new(rt.alloc(), 1024, 65535, u32::MAX, &SETS),
    );
}

#[test]
fn a_whole_range_is_held_and_rests(rt: HostRuntime) {
    all_are_so(&rt, first_other_of_new(rt.alloc(), 1, 65535, 65535, &WHOLE));
    all_are_so(&rt, first_other_of_new(rt.alloc(), 65533, 65535, 5, &LAST));
}
