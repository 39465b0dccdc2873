//! Calls of both bodies of a wheel, with answers that are worked out by hand, and generated ones.

ghost use Rattle.std.specs.Prelude.{◌≡◌, ◌<◌};
ghost use Rattle.expiry_wheel.specs.declared.TheConstants.{NEVER};

use expiry_wheel::plain::PlainWheel;
use expiry_wheel::{IDS, NEVER, Wheel};
use pcp_base::Memory;
use std::alloc::Global;
use std::marker::Brand;
use std::process::Abort;
use std::sync::ledger::{Blank, Ledger};
use std::test::*;
use step_count::Steps;

/// A call with the answer that is wanted.
#[derive(Clone, Copy)]
enum Call {
    Put(u32, u64),
    Remove(u32, bool),
    Due(u64, Option<u32>),
    Expiry(u32, Option<u64>),
    Move(u32, u32, bool),
    Next(u64, Option<u32>),
    First(u32, u64, Option<u32>),
}

static CALLS: [Call; 34] = [
    // An empty wheel.
    Call::Due(u64::MAX, None),
    Call::Remove(7, false),
    // A lease that expires at 1130.
    Call::Put(7, 1130),
    Call::Due(1129, None),
    Call::Due(1130, Some(7)),
    Call::Due(1130, None),
    Call::Remove(7, false),
    // The least expiry first, and among equal ones the least id.
    Call::Put(9, 50),
    Call::Put(3, 50),
    Call::Put(8, 40),
    Call::Put(4, 50),
    Call::Due(60, Some(8)),
    Call::Due(60, Some(3)),
    Call::Due(60, Some(4)),
    Call::Due(60, Some(9)),
    Call::Due(60, None),
    // A second put of an id replaces its expiry, to a later and to an earlier one.
    Call::Put(1, 10),
    Call::Put(2, 30),
    Call::Put(1, 20),
    Call::Due(19, None),
    Call::Put(2, 15),
    Call::Due(30, Some(2)),
    Call::Due(30, Some(1)),
    // What is removed doesn't fall due.
    Call::Put(5, 1),
    Call::Put(6, 2),
    Call::Remove(5, true),
    Call::Remove(5, false),
    Call::Due(9, Some(6)),
    // The ends of both ranges.
    Call::Put(IDS - 1, NEVER - 1),
    Call::Put(0, 0),
    Call::Due(0, Some(0)),
    Call::Due(NEVER - 2, None),
    Call::Due(NEVER, Some(IDS - 1)),
    Call::Due(NEVER, None),
];

static MOVES: [Call; 22] = [
    // What isn't there has no expiry, isn't moved and isn't next.
    Call::Expiry(7, None),
    Call::Move(7, 50, false),
    Call::Expiry(7, None),
    Call::Next(u64::MAX, None),
    Call::Put(7, 40),
    Call::Put(3, 60),
    Call::Expiry(7, Some(40)),
    Call::Expiry(4, None),
    Call::Next(39, None),
    // The next one stays.
    Call::Next(40, Some(7)),
    Call::Next(100, Some(7)),
    // Behind the other one, to the same expiry, and before it.
    Call::Move(7, 70, true),
    Call::Expiry(7, Some(70)),
    Call::Next(100, Some(3)),
    Call::Next(59, None),
    Call::Move(7, 60, true),
    Call::Next(60, Some(3)),
    Call::Move(7, 10, true),
    Call::Next(60, Some(7)),
    Call::Due(60, Some(7)),
    Call::Move(7, 10, false),
    Call::Due(60, Some(3)),
];

static FIRSTS: [Call; 20] = [
    // An empty wheel.
    Call::First(0, NEVER, None),
    // One block, from before it, at each id, and after it.
    Call::Put(18, 50),
    Call::Put(20, 40),
    Call::First(0, 49, Some(20)),
    Call::First(0, 50, Some(18)),
    Call::First(18, 50, Some(18)),
    Call::First(19, 50, Some(20)),
    Call::First(20, 39, None),
    Call::First(21, 50, None),
    Call::First(24, 50, None),
    // Other blocks, near and far, and the ends of the range.
    Call::Put(40, 30),
    Call::Put(IDS - 1, 60),
    Call::Put(0, 70),
    Call::First(21, 50, Some(40)),
    Call::First(41, 60, Some(IDS - 1)),
    Call::First(IDS - 1, 60, Some(IDS - 1)),
    Call::First(IDS, 60, None),
    Call::First(0, 69, Some(18)),
    Call::First(0, 70, Some(0)),
    // All stay.
    Call::Due(69, Some(40)),
];

/// Puts a pair into both.
fn put_both(
    wheel: &mut Wheel,
    plain: &mut PlainWheel,
    alloc: Global,
    id: u32,
    expiry: u64,
) -> Result<(), Memory> {
    wheel.put(alloc, id, expiry)?;
    plain.put(alloc, id, expiry)?;
    Ok(())
}

/// Removes an id from both, which are to answer alike.
fn remove_both<R: Abort>(rt: &R, wheel: &mut Wheel, plain: &mut PlainWheel, id: u32) -> bool {
    let removed = wheel.remove(id);
    let expected = plain.remove(id);
    assert!(rt; removed == expected, "remove {id}");
    removed
}

/// What falls due next in both, which are to answer alike.
fn due_both<L: Ledger, R: Abort>(
    rt: &R,
    wheel: &mut Wheel,
    plain: &mut PlainWheel,
    m: u64,
    steps: &mut Steps<L>,
) -> Option<u32> {
    let found = wheel.due(m, steps);
    let expected = plain.due(m);
    assert!(rt; found == expected, "due at {m}");
    found
}

/// Gives an id another expiry in both, which are to answer alike.
fn move_both<R: Abort>(
    rt: &R,
    wheel: &mut Wheel,
    plain: &mut PlainWheel,
    id: u32,
    expiry: u64,
) -> bool
    requires { expiry < NEVER }
{
    let moved = wheel.reschedule(id, expiry);
    let expected = plain.reschedule(id, expiry);
    assert!(rt; moved == expected, "move {id}");
    moved
}

/// What both tell of an id's expiry.
fn expiry_of(wheel: &Wheel, plain: &PlainWheel, id: u32) -> (Option<u64>, Option<u64>) {
    (wheel.expiry(id), plain.expiry(id))
}

/// What both tell of the id that falls due next.
fn next_of<L: Ledger>(
    wheel: &Wheel,
    plain: &PlainWheel,
    m: u64,
    steps: &mut Steps<L>,
) -> (Option<u32>, Option<u32>) {
    (wheel.next_due(m, steps), plain.next_due(m))
}

/// What both tell of the first id that is due.
fn first_of<L: Ledger>(
    wheel: &Wheel,
    plain: &PlainWheel,
    from: u32,
    m: u64,
    steps: &mut Steps<L>,
) -> (Option<u32>, Option<u32>) {
    (wheel.first_due(from, m, steps), plain.first_due(from, m))
}

/// One call on both.
fn answer<L: Ledger, R: Abort>(
    rt: &R,
    alloc: Global,
    wheel: &mut Wheel,
    plain: &mut PlainWheel,
    steps: &mut Steps<L>,
    call: Call,
) -> Result<(), Fail> {
    match call {
        Call::Put(id, expiry) => {
            put_both(wheel, plain, alloc, id, expiry)?;
            Ok(())
        }
        Call::Remove(id, want) => {
            let removed = remove_both(rt, wheel, plain, id);
            assert!(rt; removed == want, "remove {id}");
            Ok(())
        }
        Call::Due(m, want) => {
            let found = due_both(rt, wheel, plain, m, steps);
            assert!(rt; found == want, "due at {m}");
            Ok(())
        }
        Call::Expiry(id, want) => {
            let found = expiry_of(wheel, plain, id);
            assert!(rt; found == (want, want), "expiry of {id}");
            Ok(())
        }
        Call::Move(id, expiry, want) => {
            let moved = move_both(rt, wheel, plain, id, u64::from(expiry));
            assert!(rt; moved == want, "move {id}");
            Ok(())
        }
        Call::Next(m, want) => {
            let found = next_of(wheel, plain, m, steps);
            assert!(rt; found == (want, want), "next at {m}");
            Ok(())
        }
        Call::First(from, m, want) => {
            let found = first_of(wheel, plain, from, m, steps);
            assert!(rt; found == (want, want), "first from {from} at {m}");
            Ok(())
        }
    }
}

fn answer_all<L: Ledger, R: Abort>(
    rt: &R,
    alloc: Global,
    blank: Blank,
    calls: &[Call],
) -> Result<(), Fail>
    requires name { blank.name ≡ L.name }
    requires parts { blank.parts ≡ L.parts }
    requires some { 0 < L.parts }
{
    let mut wheel = Wheel::new(alloc)?;
    let mut plain = PlainWheel::new(alloc)?;
    let mut steps = Steps::<L>::begin(blank);
    for call in calls {
        answer(rt, alloc, &mut wheel, &mut plain, &mut steps, *call)?;
    }
    Ok(())
}

#[test]
fn calls_have_these_answers(rt: HostRuntime) -> Result<(), Fail> {
    answer_all::<Brand, HostRuntime>(&rt, rt.alloc(), Blank::new(1), &CALLS)
}

#[test]
fn ids_are_moved_and_told(rt: HostRuntime) -> Result<(), Fail> {
    answer_all::<Brand, HostRuntime>(&rt, rt.alloc(), Blank::new(1), &MOVES)
}

#[test]
fn the_first_from_an_id_is_found(rt: HostRuntime) -> Result<(), Fail> {
    answer_all::<Brand, HostRuntime>(&rt, rt.alloc(), Blank::new(1), &FIRSTS)
}

#[test]
fn ids_and_expiries_are_below_a_bound(rt: HostRuntime) -> Result<(), Fail> {
    let mut wheel = Wheel::new(rt.alloc())?;
    assert!(rt; wheel.put(rt.alloc(), IDS, 1).is_err());
    assert!(rt; wheel.put(rt.alloc(), 1, NEVER).is_err());
    Ok(())
}

/// Whether both tell the same first id that is due.
fn agree<L: Ledger>(
    wheel: &Wheel,
    plain: &PlainWheel,
    from: u32,
    m: u64,
    steps: &mut Steps<L>,
) -> bool {
    let (found, expected) = first_of(wheel, plain, from, m, steps);
    found == expected
}

/// Changes both by a number below 1,000, and asks both.
fn turn<L: Ledger, R: Abort>(
    rt: &R,
    alloc: Global,
    wheel: &mut Wheel,
    plain: &mut PlainWheel,
    steps: &mut Steps<L>,
    i: u32,
) -> Result<(), Memory>
    requires { i < 1000 }
{
    put_both(
        wheel,
        plain,
        alloc,
        i * 7 % 600 * 218,
        u64::from(i * 317 % 211),
    )?;
    move_both(
        rt,
        wheel,
        plain,
        i * 11 % 600 * 218,
        u64::from(i * 97 % 211),
    );
    if i % 5 == 0 {
        remove_both(rt, wheel, plain, i * 13 % 600 * 218);
    }
    assert!(rt;
        agree(wheel, plain, i * 131, u64::from(i * 53 % 211), steps),
        "first in turn {i}"
    );
    Ok(())
}

/// Fills both by many calls, and takes all out again.
fn fill_both<L: Ledger, R: Abort>(rt: &R, alloc: Global, blank: Blank) -> Result<(), Fail>
    requires name { blank.name ≡ L.name }
    requires parts { blank.parts ≡ L.parts }
    requires some { 0 < L.parts }
{
    let mut wheel = Wheel::new(alloc)?;
    let mut plain = PlainWheel::new(alloc)?;
    let mut steps = Steps::<L>::begin(blank);
    for i in 0..1000u32 {
        turn(rt, alloc, &mut wheel, &mut plain, &mut steps, i)?;
    }
    for _ in 0..600u32 {
        due_both(rt, &mut wheel, &mut plain, u64::MAX, &mut steps);
    }
    assert!(rt; wheel.due(u64::MAX, &mut steps) == None);
    Ok(())
}

#[test]
fn many_ids_fall_due_in_order(rt: HostRuntime) -> Result<(), Fail> {
    fill_both::<Brand, HostRuntime>(&rt, rt.alloc(), Blank::new(1))
}
