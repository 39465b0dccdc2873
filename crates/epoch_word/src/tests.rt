//! What one thread is told, and that two threads that raise and ask never see the word fall.
ghost use Rattle.std.specs.Prelude.{◌≡◌, ◌≤◌, true};

use crate::{EpochSeat, EpochWord};
use pcp_base::Moment;
use std::alloc::Global;
use std::test::Fail;
use std::thread::{Threads, join};

fn moment(seconds: u32) -> Moment {
    Moment::of(u64::from(seconds)).unwrap()
}

// Raises and asks, and says whether what it was told never fell.
fn raise_and_ask(word: &EpochWord, mut seat: EpochSeat, from: u32) -> (EpochSeat, bool)
    requires { seat.word ≡ word.now }
    ensures word { result.0.word ≡ seat.word }
    ensures raised { seat.raised ≤ result.0.raised }
    ensures heard { seat.heard ≤ result.0.heard }
    ensures rises { result.1 ≡ true }
{
    let mut last = word.told(&mut seat);
    let mut rises = true;
    for i in 0..1000 {
        word.raise(&mut seat, moment(from.wrapping_add(2 * i)));
        let now = word.told(&mut seat);
        if now.get() < last.get() {
            rises = false;
        }
        last = now;
    }
    (seat, rises)
}

// Two threads raise and ask. What is told in the end is at least all that both raised.
fn raise_in_two<R: Threads + Sync>(rt: &R, alloc: Global) -> Option<(bool, bool, Moment)> {
    let (word, mut seat) = EpochWord::new(alloc, moment(5)).ok()?;
    let other = word.split(alloc, &mut seat).ok()?;
    let shared = &word;
    let ((mut seat, first), (other, second)) = join(
        rt,
        move || -> (EpochSeat, bool)
            requires { seat.word ≡ shared.now }
            ensures { result.0.word ≡ shared.entry.now }
        { raise_and_ask(shared, seat, 0) },
        move || -> (EpochSeat, bool)
            requires { other.word ≡ shared.now }
            ensures { result.0.word ≡ shared.entry.now }
        { raise_and_ask(shared, other, 1) },
    );
    word.join(&mut seat, other);
    let last = word.told(&mut seat);
    Some((first, second, last))
}

#[test]
fn two_threads_never_see_it_fall(rt: HostRuntime) -> Result<(), Fail> {
    let (first, second, last) = raise_in_two(&rt, rt.alloc()).ok_or("there is memory")?;
    assert!(rt; first && second);
    assert!(rt; last.get() == 1999);
    Ok(())
}

#[test]
fn the_greatest_is_told(rt: HostRuntime) -> Result<(), Fail> {
    let alloc = rt.alloc();
    let (word, mut seat) = EpochWord::new(alloc, moment(5)).ok().ok_or("word")?;
    assert!(rt; word.told(&mut seat).get() == 5);
    let mut other = word.split(alloc, &mut seat).ok().ok_or("seat")?;
    word.raise(&mut other, moment(9));
    word.raise(&mut seat, moment(3));
    assert!(rt; word.told(&mut seat).get() == 9);
    word.raise(&mut seat, moment(20));
    word.join(&mut other, seat);
    assert!(rt; word.told(&mut other).get() == 20);
    Ok(())
}
