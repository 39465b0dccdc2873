//! Single runs: their answers, what they find and leave, and their octets.

use crate::acts::{Seen, Step};
use crate::doings::run;
use crate::octets::{AGAIN, COMPACTED, FIRST, LAST, LEASED, MOVED, STARTED};
use crate::requests::{Request, Told};
use crate::sides::{NOTHING, Side, holds, pair_of};
use Request::{Announce, Map};
use Step::{Alone, Asked};
use Told::{Announced, Leased};
use lease_disk::{DiskPair, LeaseDisk};
use pcp_base::Failed;
use shard_book::Found;
use std::alloc::Global;
use std::test::Fail;

/// The octets that the sides have, where they are told.
type Left = Option<(&'static [u8], &'static [u8])>;

/// Two sides, when they are opened, what is found, what is done then, what stands after that, and
/// the octets that the sides have then.
#[derive(Clone, Copy)]
struct Row {
    a: Side,
    b: Side,
    at: u64,
    found: Found,
    renumbered: bool,
    steps: &'static [(u64, Step)],
    stands: Seen,
    left: Left,
}

/// Blank sides that are opened at 1000.
fn blank(steps: &'static [(u64, Step)], stands: Seen, left: Left) -> Row {
    Row {
        a: NOTHING,
        b: NOTHING,
        at: 1000,
        found: Found::Blank,
        renumbered: false,
        steps,
        stands,
        left,
    }
}

/// Damaged sides that are opened at 1500.
fn damaged(a: Side, b: Side) -> Row {
    Row {
        a,
        b,
        at: 1500,
        found: Found::Damaged,
        renumbered: false,
        steps: &ANEW,
        stands: Seen(1500, 1500, 0, 0, 0),
        left: None,
    }
}

/// Sides with a lease that are opened at 1500, and the last moment then.
fn leased(a: Side, b: Side, last: u64, left: Left) -> Row {
    Row {
        a,
        b,
        at: 1500,
        found: Found::Recovered,
        renumbered: false,
        steps: &GOES_ON,
        stands: Seen(1000, last, 1, 4610, 0),
        left,
    }
}

/// A lease at 1010.
pub(crate) static LEASE: [(u64, Step); 1] = [(
    1010,
    Asked(Map(5, 5000, 3600, 0, 0), Leased(3600, 1024), 10),
)];

// A request that leaves a record, and one that leaves none, each without a batch.
static ALONE: [(u64, Step); 2] = [
    (
        1010,
        Alone(Map(5, 5000, 3600, 0, 0), Leased(3600, 1024), 10),
    ),
    (1500, Alone(Announce, Announced, 500)),
];

// A port rests for its last endpoint until 120 seconds after its lease.
static RESTING: [(u64, Step); 3] = [
    (1010, Asked(Map(5, 5000, 120, 0, 0), Leased(120, 1024), 10)),
    (
        1249,
        Asked(Map(6, 5000, 3600, 1024, 0), Leased(3600, 1025), 249),
    ),
    (
        1249,
        Asked(Map(5, 5000, 3600, 1024, 0), Leased(3600, 1024), 249),
    ),
];

static RESTED: [(u64, Step); 2] = [
    (1010, Asked(Map(5, 5000, 120, 0, 0), Leased(120, 1024), 10)),
    (
        1250,
        Asked(Map(6, 5000, 3600, 0, 0), Leased(3600, 1024), 250),
    ),
];

static ANEW: [(u64, Step); 1] = [(1500, Asked(Announce, Announced, 0))];

/// A request at 1500, where the epoch is 500.
pub(crate) static GOES_ON: [(u64, Step); 1] = [(1500, Asked(Announce, Announced, 500))];

fn are_left<D: LeaseDisk>(pair: &mut DiskPair<D>, left: Left) -> Result<bool, Failed> {
    match left {
        Some((a, b)) => Ok(holds(&mut pair.a, a)? && holds(&mut pair.b, b)?),
        None => Ok(true),
    }
}

/// Whether that comes of the row's sides.
fn is_row<D: LeaseDisk + Drop>(alloc: Global, pair: DiskPair<D>, row: &Row) -> Result<bool, Fail> {
    let (done, mut pair) = run(alloc, pair, row.at, row.steps)?;
    Ok(
        done.found == Some(row.found)
            && done.renumbered == row.renumbered
            && done.stands == Some(row.stands)
            && are_left(&mut pair, row.left)?,
    )
}

/// The number of the first row of which something else comes.
fn first_other(alloc: Global, rows: &[Row]) -> Result<Option<usize>, Fail> {
    for (number, row) in rows.iter().enumerate() {
        if !is_row(alloc, pair_of(alloc, row.a, row.b)?, row)? {
            return Ok(Some(number));
        }
    }
    Ok(None)
}

#[test]
fn steps_on_blank_sides(rt: HostRuntime) -> Result<(), Fail> {
    let rows = [
        blank(&[], Seen(1000, 1000, 0, 0, 0), Some((&STARTED, &[]))),
        blank(&LEASE, Seen(1000, 1010, 1, 4610, 0), Some((&LEASED, &[]))),
        blank(&ALONE, Seen(1000, 1010, 1, 4610, 0), Some((&LEASED, &[]))),
        blank(&RESTING, Seen(1000, 1249, 2, 4849, 0), None),
        blank(&RESTED, Seen(1000, 1250, 1, 4850, 0), None),
    ];
    let other = first_other(rt.alloc(), &rows)?;
    assert!(rt; other == None, "row {other:?}");
    Ok(())
}

// The protocol of the lease is another, alone and on the newer side; and the address is.
#[test]
fn sides_that_begin_anew(rt: HostRuntime) -> Result<(), Fail> {
    let rows = [
        damaged(Side(&LEASED, 88, 0x03), NOTHING),
        damaged(Side(&LEASED, 88, 0), Side(&COMPACTED, 87, 0x03)),
        Row {
            renumbered: true,
            steps: &ANEW,
            stands: Seen(1500, 1500, 1, 4610, 0),
            ..leased(Side(&LEASED, 57, 0x03), NOTHING, 1500, None)
        },
    ];
    let other = first_other(rt.alloc(), &rows)?;
    assert!(rt; other == None, "row {other:?}");
    Ok(())
}

// What is found is written anew on the other side, each time, but for the last generation; and what
// is of the first format.
#[test]
fn sides_that_are_written_anew(rt: HostRuntime) -> Result<(), Fail> {
    let first = Side(&FIRST, 0, 0);
    let closed = Side(b"\0", 0, 0);
    let compacted = Side(&COMPACTED, 0, 0);
    let last = Side(&LAST, 0, 0);
    let rows = [
        leased(
            Side(&LEASED, 0, 0),
            NOTHING,
            1010,
            Some((b"\0", &COMPACTED)),
        ),
        leased(closed, compacted, 1010, Some((&AGAIN, b"\0"))),
        leased(NOTHING, last, 1010, Some((&[], &LAST))),
        leased(first, NOTHING, 1500, Some((b"\0", &MOVED))),
    ];
    let other = first_other(rt.alloc(), &rows)?;
    assert!(rt; other == None, "row {other:?}");
    Ok(())
}
