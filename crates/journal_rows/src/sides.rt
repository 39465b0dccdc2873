//! Two sides of octets, and what reading and opening them finds.

use crate::acts::run;
use crate::deeds::{Seen, standing};
use crate::disks::{Side, pair_of, pair_with};
use crate::octets::{COMPACTED, LEASED};
use lease_disk::{DiskPair, LeaseDisk};
use lease_journal::{Found, Journal};
use plain_replay::PlainReplay;
use std::alloc::{AllocError, Global};
use std::test::Fail;

/// What is seen of two sides that are read; nothing of what is blank or damaged.
fn view_of<D: LeaseDisk>(alloc: Global, pair: &mut DiskPair<D>) -> Option<Seen> {
    let mut replay = PlainReplay::new(alloc);
    match Journal::view(alloc, pair, &mut replay) {
        Ok(found) => Some(standing(found, &replay)),
        Err(_) => None,
    }
}

// A blank start at 1000, 29 octets.
static STARTED: [u8; 29] = [
    0x01, 0x50, 0x43, 0x50, 0x4a, 0x02, 0x00, 0x00, 0x00, 0x00, 0x00, 0x00, 0x00, 0x00, 0x01, 0x00,
    0x00, 0x00, 0x09, 0x01, 0x00, 0x00, 0x00, 0x00, 0x00, 0x00, 0x03, 0xe8, 0x00,
];

// A lease after a start in the first format, 95 octets.
static FIRST: [u8; 95] = [
    0x01, 0x50, 0x43, 0x50, 0x4a, 0x01, 0x00, 0x00, 0x00, 0x00, 0x00, 0x00, 0x00, 0x00, 0x01, 0x00,
    0x00, 0x00, 0x09, 0x01, 0x00, 0x00, 0x00, 0x00, 0x00, 0x00, 0x03, 0xe8, 0x01, 0x00, 0x00, 0x00,
    0x3d, 0x02, 0x00, 0x00, 0x00, 0x00, 0x00, 0x00, 0x03, 0xf2, 0x00, 0x00, 0x00, 0x00, 0x00, 0x00,
    0x00, 0x00, 0x00, 0x00, 0xff, 0xff, 0x0a, 0x00, 0x00, 0x05, 0x11, 0x13, 0x88, 0x00, 0x01, 0x04,
    0x00, 0x00, 0x01, 0x02, 0x03, 0x04, 0x05, 0x06, 0x07, 0x08, 0x09, 0x0a, 0x0b, 0x00, 0x00, 0x00,
    0x00, 0x00, 0x00, 0x03, 0xf2, 0x00, 0x00, 0x00, 0x00, 0x00, 0x00, 0x12, 0x02, 0x00, 0x00,
];

/// Two sides, when they are opened, and what is found.
#[derive(Clone, Copy)]
struct Opened(Side, Side, u64, Found);

/// What stands where this was found: the lease, or nothing since `m`.
fn seen_at(found: Found, m: u64) -> Seen {
    match found {
        Found::Recovered => Seen(found, 1000, 1010, 1, 0),
        _ => Seen(found, m, m, 0, 0),
    }
}

/// Whether that is seen of the pair before it is opened, at its opening, and after it, when it is a
/// journal.
fn is_opened<D: LeaseDisk + Drop>(
    alloc: Global,
    pair: DiskPair<D>,
    m: u64,
    found: Found,
) -> Result<bool, Fail>
    requires told { D.tells }
{
    let mut pair = pair;
    let before = view_of(alloc, &mut pair);
    let (mut pair, opened, _done) = run(alloc, pair, m, &[])?;
    let after = view_of(alloc, &mut pair);
    let stands = seen_at(found, m);
    Ok(
        before == Some(seen_at(found, 0))
            && opened == Some(stands)
            && after == Some(Seen(Found::Recovered, stands.1, stands.2, stands.3, stands.4)),
    )
}

#[test]
fn opened_sides(rt: HostRuntime) -> Result<(), Fail> {
    let alloc = rt.alloc();
    let none = Side(&[], 0, 0);
    let leased = Side(&LEASED, 0, 0);
    let compacted = Side(&COMPACTED, 0, 0);
    // a side whose gate is closed, and those whose lease has another protocol
    let closed = Side(&LEASED, 0, 0x01);
    let torn = Side(&COMPACTED, 87, 0x03);
    let rows = [
        Opened(leased, none, 1500, Found::Recovered),
        Opened(Side(&LEASED, 88, 0x03), none, 1500, Found::Damaged),
        Opened(closed, none, 1600, Found::Blank),
        // a compaction that was stopped before side a was shut
        Opened(leased, compacted, 1500, Found::Recovered),
        Opened(leased, torn, 1500, Found::Damaged),
        Opened(closed, torn, 1600, Found::Damaged),
        // the first format, in which a record of kind 8 isn't known, nor the last generation
        Opened(Side(&FIRST, 0, 0), none, 1500, Found::Recovered),
        Opened(Side(&FIRST, 33, 0x0a), none, 1500, Found::Damaged),
        Opened(none, Side(&FIRST, 13, 0x01), 1500, Found::Recovered),
    ];
    for (number, row) in rows.iter().enumerate() {
        let Opened(a, b, m, found) = *row;
        let opened = is_opened(alloc, pair_of(alloc, a, b)?, m, found)?;
        assert!(rt; opened, "{number}");
    }
    Ok(())
}

// Sides that are cut to so many octets of a start, of which at most two are changed by masks; and
// whether they are closed (0), not in the grammar (1), or in it (2).
static SIDES: [[u8; 6]; 33] = [
    [0, 0, 0, 0, 0, 0],
    [1, 0, 0, 0, 0, 0],
    [2, 0, 0, 0, 0, 0],
    [3, 0, 0, 0, 0, 0],
    [4, 0, 0, 0, 0, 0],
    [5, 0, 0, 0, 0, 0],
    [6, 0, 0, 0, 0, 0],
    [7, 0, 0, 0, 0, 0],
    [8, 0, 0, 0, 0, 0],
    [9, 0, 0, 0, 0, 0],
    [10, 0, 0, 0, 0, 0],
    [11, 0, 0, 0, 0, 0],
    [12, 0, 0, 0, 0, 0],
    [13, 0, 0, 0, 0, 0],
    [14, 0, 0, 0, 0, 0],
    // `00` and `ff`, alone and in front of the rest
    [1, 0, 0x01, 0, 0, 0],
    [1, 0, 0xfe, 0, 0, 0],
    [29, 0, 0x01, 0, 0, 0],
    [29, 0, 0xfe, 0, 0, 0],
    // the letters, the format, the parity of the generation, the gate of the first frame
    [29, 1, 0x01, 0, 0, 1],
    [29, 5, 0x01, 0, 0, 1],
    [29, 13, 0x01, 0, 0, 1],
    [29, 14, 0x01, 0, 0, 1],
    // a frame of no octets, of 8, of 4097, and one past the end
    [29, 18, 0x09, 0, 0, 1],
    [29, 18, 0x01, 0, 0, 1],
    [29, 17, 0x10, 18, 0x08, 1],
    [29, 18, 0x80, 0, 0, 1],
    // a Mark in place of the Start
    [29, 19, 0x06, 0, 0, 1],
    // cut behind the gate of the first frame, in it, and behind it
    [15, 0, 0, 0, 0, 1],
    [27, 0, 0, 0, 0, 1],
    [28, 0, 0, 0, 0, 1],
    [29, 28, 0x01, 0, 0, 1],
    [29, 0, 0, 0, 0, 2],
];

fn change(octets: &mut [u8], place: u8, mask: u8) {
    if let Some(octet) = octets.get_mut(usize::from(place)) {
        *octet ^= mask;
    }
}

/// Such a side before it is cut, with this generation.
fn side_of(row: &[u8; 6], generation: u8) -> [u8; 29] {
    let [_count, place, mask, second_place, second_mask, _kind] = *row;
    let mut octets = STARTED;
    change(&mut octets, 13, generation);
    change(&mut octets, place, mask);
    change(&mut octets, second_place, second_mask);
    octets
}

/// The first so many octets.
fn cut(octets: &[u8], count: u8) -> &[u8] {
    &octets[..octets.len().min(usize::from(count))]
}

// What is seen of a start at 1000, and of what is blank or damaged.
const STANDS: Seen = Seen(Found::Recovered, 1000, 1000, 0, 0);

const BLANK: Seen = Seen(Found::Blank, 0, 0, 0, 0);

const DAMAGED: Seen = Seen(Found::Damaged, 0, 0, 0, 0);

/// What is seen of two sides of these kinds.
fn seen_by(kind_a: u8, kind_b: u8) -> Seen {
    if kind_a == 1 || kind_b == 1 {
        return DAMAGED;
    }
    if kind_a == 0 && kind_b == 0 {
        return BLANK;
    }
    STANDS
}

/// Whether this is seen of these sides.
fn is_seen(alloc: Global, a: &[u8], b: &[u8], seen: Seen) -> Result<bool, Fail> {
    Ok(view_of(alloc, &mut pair_with(alloc, a, b)?) == Some(seen))
}

/// Whether beside each side b this side a is seen as it is to be.
fn are_seen(alloc: Global, row_a: &[u8; 6]) -> Result<bool, Fail> {
    let a = side_of(row_a, 0);
    for row_b in &SIDES {
        let b = side_of(row_b, 1);
        let seen = seen_by(row_a[5], row_b[5]);
        if !is_seen(alloc, cut(&a, row_a[0]), cut(&b, row_b[0]), seen)? {
            return Ok(false);
        }
    }
    Ok(true)
}

#[test]
fn sides_of_every_kind(rt: HostRuntime) -> Result<(), Fail> {
    for (number, row) in SIDES.iter().enumerate() {
        assert!(rt; are_seen(rt.alloc(), row)?, "{number}");
    }
    Ok(())
}

/// Adds one frame of a Start at 1000 and so many Marks.
fn add_marked(side: &mut Vec<u8>, marks: u8) -> Result<(), AllocError> {
    let size = 9 + 9 * u32::from(marks);
    side.extend_from_slice(&size.to_be_bytes())?;
    side.extend_from_slice(&STARTED[19..28])?;
    for _ in 0..marks {
        side.push(7)?;
        side.extend_from_slice(&STARTED[20..28])?;
    }
    side.push(0)?;
    Ok(())
}

/// Whether this is seen of a side with one such frame.
fn is_seen_marked(alloc: Global, marks: u8, seen: Seen) -> Result<bool, Fail> {
    let mut side = STARTED[..15].to_vec(alloc)?;
    add_marked(&mut side, marks)?;
    is_seen(alloc, &side, &[], seen)
}

#[test]
fn most_records(rt: HostRuntime) -> Result<(), Fail> {
    for (marks, seen) in [(15, STANDS), (16, DAMAGED)] {
        assert!(rt; is_seen_marked(rt.alloc(), marks, seen)?, "{marks} marks");
    }
    Ok(())
}
