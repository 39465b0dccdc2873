//! Records with the state that each leaves, in both formats.
ghost use Rattle.std.specs.Prelude.{OnOk};
ghost use Rattle.pcp_base.specs.Reached.{IsReached, IsReachedFirst};

use crate::making::{all_are_so, at};
use crate::records::{Act, Ports, record};
use pcp_base::Protocol::Udp;
use pcp_base::{Address, End, Memory, Replay};
use plain_replay::PlainReplay;
use std::alloc::Global;

/// A record at a moment, whether it fits, and what the state is after it: the number of MAP and of PEER
/// leases, the ends (host, external port, end), the base, and the N of the address.
#[derive(Clone, Copy)]
struct Row(
    u32,
    Act,
    bool,
    [usize; 2],
    &'static [(u8, u16, u64)],
    u64,
    Option<u8>,
);

const OVER: &[(u8, u16, u64)] = &[(5, 1024, 1130)];

static ROWS: [Row; 26] = [
    Row(1000, Act::Mark, false, [0, 0], &[], 0, None),
    Row(1000, Act::Start, true, [0, 0], &[], 1000, None),
    Row(1000, Act::Renumber(1), true, [0, 0], &[], 1000, Some(1)),
    // A lease of 120 seconds ends at 1130; its port rests for its host until 1250.
    Row(
        1010,
        Act::Map(Ports(Udp, 5, 5000, 1, 1024, 1010, 1130)),
        true,
        [1, 0],
        &[],
        1000,
        Some(1),
    ),
    Row(1009, Act::Mark, false, [1, 0], &[], 1000, Some(1)),
    Row(1129, Act::Mark, true, [1, 0], &[], 1000, Some(1)),
    Row(
        1130,
        Act::DropMap(5, 5000),
        false,
        [1, 0],
        &[],
        1000,
        Some(1),
    ),
    Row(1130, Act::Mark, true, [0, 0], OVER, 1000, Some(1)),
    Row(
        1249,
        Act::Map(Ports(Udp, 6, 5000, 1, 1024, 1249, 4849)),
        false,
        [0, 0],
        OVER,
        1000,
        Some(1),
    ),
    Row(
        1249,
        Act::Map(Ports(Udp, 6, 5000, 1, 1025, 1249, 4849)),
        true,
        [1, 0],
        OVER,
        1000,
        Some(1),
    ),
    Row(
        1249,
        Act::Map(Ports(Udp, 5, 5000, 1, 1024, 1249, 4849)),
        true,
        [2, 0],
        &[],
        1000,
        Some(1),
    ),
    // An endpoint has one port for all its leases, and it is owned until the last of them goes.
    Row(
        1250,
        Act::Peer(5, 5000, 1026, 7, 1250, 4850),
        false,
        [2, 0],
        &[],
        1000,
        Some(1),
    ),
    Row(
        1250,
        Act::Peer(5, 5000, 1024, 7, 1250, 4850),
        true,
        [2, 1],
        &[],
        1000,
        Some(1),
    ),
    Row(
        1260,
        Act::DropMap(5, 5000),
        true,
        [1, 1],
        &[],
        1000,
        Some(1),
    ),
    Row(
        1270,
        Act::DropPeer(5, 5000),
        true,
        [1, 0],
        &[(5, 1024, 1270)],
        1000,
        Some(1),
    ),
    Row(
        1270,
        Act::Rest(7, 5000, 1024, 1270),
        false,
        [1, 0],
        &[(5, 1024, 1270)],
        1000,
        Some(1),
    ),
    Row(
        1270,
        Act::Rest(7, 5000, 1025, 1270),
        false,
        [1, 0],
        &[(5, 1024, 1270)],
        1000,
        Some(1),
    ),
    Row(
        1389,
        Act::Mark,
        true,
        [1, 0],
        &[(5, 1024, 1270)],
        1000,
        Some(1),
    ),
    Row(1390, Act::Mark, true, [1, 0], &[], 1000, Some(1)),
    Row(
        1390,
        Act::Rest(7, 5000, 1026, 1270),
        false,
        [1, 0],
        &[],
        1000,
        Some(1),
    ),
    Row(
        1390,
        Act::Rest(7, 5000, 1026, 1271),
        true,
        [1, 0],
        &[(7, 1026, 1271)],
        1000,
        Some(1),
    ),
    Row(
        1390,
        Act::Renumber(1),
        true,
        [1, 0],
        &[(7, 1026, 1271)],
        1000,
        Some(1),
    ),
    Row(
        1390,
        Act::Renumber(2),
        true,
        [1, 0],
        &[(7, 1026, 1271)],
        1390,
        Some(2),
    ),
    Row(
        1390,
        Act::Start,
        false,
        [1, 0],
        &[(7, 1026, 1271)],
        1390,
        Some(2),
    ),
    // A lease with another expiry is renewed, and one on another port isn't.
    Row(
        1390,
        Act::Map(Ports(Udp, 6, 5000, 1, 1027, 1249, 9000)),
        false,
        [1, 0],
        &[(7, 1026, 1271)],
        1390,
        Some(2),
    ),
    Row(1391, Act::Lose, true, [0, 0], &[], 1391, Some(2)),
];

// At the end of the rest another host may have the port.
static FREED: [Row; 3] = [
    Row(1000, Act::Start, true, [0, 0], &[], 1000, None),
    Row(
        1010,
        Act::Map(Ports(Udp, 5, 5000, 1, 1024, 1010, 1130)),
        true,
        [1, 0],
        &[],
        1000,
        None,
    ),
    Row(
        1250,
        Act::Map(Ports(Udp, 6, 5000, 1, 1024, 1250, 4850)),
        true,
        [1, 0],
        &[],
        1000,
        None,
    ),
];

// The first format has no ends and no address.
static FIRST: [Row; 8] = [
    Row(1000, Act::Start, true, [0, 0], &[], 1000, None),
    Row(1000, Act::Renumber(1), false, [0, 0], &[], 1000, None),
    Row(
        1010,
        Act::Map(Ports(Udp, 5, 5000, 1, 1024, 1010, 1130)),
        true,
        [1, 0],
        &[],
        1000,
        None,
    ),
    Row(
        1010,
        Act::Map(Ports(Udp, 6, 5000, 1, 1024, 1010, 1130)),
        false,
        [1, 0],
        &[],
        1000,
        None,
    ),
    Row(
        1130,
        Act::Map(Ports(Udp, 6, 5000, 1, 1024, 1130, 1250)),
        true,
        [1, 0],
        &[],
        1000,
        None,
    ),
    Row(1140, Act::DropMap(6, 5000), true, [0, 0], &[], 1000, None),
    Row(
        1140,
        Act::Rest(7, 5000, 1026, 1130),
        false,
        [0, 0],
        &[],
        1000,
        None,
    ),
    Row(1141, Act::Lose, true, [0, 0], &[], 1141, None),
];

fn is_end(rest: &End, want: (u8, u16, u64)) -> bool {
    rest.endpoint == at(Udp, want.0, 5000) && rest.external == want.1 && rest.end == want.2
}

/// Whether the state is the row's.
fn is_told(replay: &PlainReplay, row: &Row) -> bool {
    let [maps, peers] = row.3;
    let ends = replay.ends();
    replay.maps().len() == maps
        && replay.peers().len() == peers
        && ends.len() == row.4.len()
        && ends
            .iter()
            .zip(row.4)
            .all(|(rest, want)| is_end(rest, *want))
        && replay.base().get() == row.5
        && replay.address() == row.6.map(|n| Address::v4(192, 0, 2, n))
}

/// Whether the record of the row fits, as the row says, and leaves its state.
fn is_so(alloc: Global, replay: &mut PlainReplay, row: &Row) -> Result<bool, Memory>
    requires { IsReached replay.old }
    ensures { OnOk result (IsReached replay.new) }
{
    let kept = record(row.0, row.1);
    Ok(replay.admit(alloc, &kept)? == row.2 && is_told(replay, row))
}

/// The same by the rules of the first format.
fn is_so_in_first(alloc: Global, replay: &mut PlainReplay, row: &Row) -> Result<bool, Memory>
    requires { IsReachedFirst replay.old }
    ensures { OnOk result (IsReachedFirst replay.new) }
{
    let kept = record(row.0, row.1);
    Ok(replay.admit_first(alloc, &kept)? == row.2 && is_told(replay, row))
}

/// The first row that comes out otherwise.
fn first_other(
    alloc: Global,
    replay: &mut PlainReplay,
    rows: &[Row],
) -> Result<Option<usize>, Memory>
    requires { IsReached replay.old }
{
    for (i, row) in rows.iter().enumerate() {
        if !is_so(alloc, replay, row)? {
            return Ok(Some(i));
        }
    }
    Ok(None)
}

/// The same by the rules of the first format, in a replay that is cleared after a Start.
fn first_other_in_first(
    alloc: Global,
    replay: &mut PlainReplay,
    rows: &[Row],
) -> Result<Option<usize>, Memory>
    requires { IsReached replay.old }
{
    let start = record(1000, Act::Start);
    replay.admit(alloc, &start)?;
    replay.clear();
    for (i, row) in rows.iter().enumerate() {
        if !is_so_in_first(alloc, replay, row)? {
            return Ok(Some(i));
        }
    }
    Ok(None)
}

/// The first row that comes out otherwise in a new replay.
fn first_other_of_new(alloc: Global, rows: &[Row]) -> Result<Option<usize>, Memory> {
    let mut replay = PlainReplay::new(alloc);
    first_other(alloc, &mut replay, rows)
}

#[test]
fn records_leave_these_states(rt: HostRuntime) {
    all_are_so(&rt, first_other_of_new(rt.alloc(), &ROWS));
    all_are_so(&rt, first_other_of_new(rt.alloc(), &FREED));
}

#[test]
fn records_of_the_first_format_leave_these(rt: HostRuntime) {
    let mut replay = PlainReplay::new(rt.alloc());
    all_are_so(&rt, first_other_in_first(rt.alloc(), &mut replay, &FIRST));
}

/// Whether a Start begins.
fn begins(alloc: Global, replay: &mut PlainReplay) -> Result<bool, Memory>
    requires { IsReached replay.old }
{
    if replay.is_started() || replay.last().get() != 0 {
        return Ok(false);
    }
    let start = record(1000, Act::Start);
    let fits = replay.admit(alloc, &start)?;
    Ok(fits && replay.is_started() && replay.last().get() == 1000)
}

#[test]
fn a_start_begins(rt: HostRuntime) {
    let mut replay = PlainReplay::new(rt.alloc());
    assert!(rt; begins(rt.alloc(), &mut replay) == Ok(true));
}
