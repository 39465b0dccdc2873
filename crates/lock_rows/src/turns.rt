//! Numbers behind a turn.
ghost use Rattle.std.specs.Prelude.{◌≡◌, ◌+◌, ◌≤◌, [], ◌∷◌, ◌++◌, false, length, drop, IfOk, IfSome, MatchBool};
ghost use Rattle.std.specs.Bool.{OnTrue};
ghost use Rattle.turn_lock.specs.Places.{one_if};

use std::alloc::Global;
use std::sync::Wait;
use std::test::Fail;
use std::thread::{Threads, join};
use turn_lock::{Held, Kept, Pass, Turn};

// A list of numbers, of which the last may not be noted yet.
#[derive(Drop)]
struct Numbers {
    list: Vec<u32>,
    noted: usize,
    ghost order: { noted ≤ length list.items },
}

impl Kept for Numbers {
    ghost use Rattle.std.specs.Prelude.{◌≡◌, drop};

    type Entry = u32;

    type Mark = ();

    type Key = ();

    type Lasting = ();

    ghost stands = { λ key n log marks. n.list.items ≡ log };

    ghost added = { λ n. drop n.noted n.list.items };

    ghost mark = { λ n. tt };

    ghost lasts = { λ n. tt };

    fn noted(&mut self) {
        self.noted = self.list.len();
    }
}

impl Numbers {
    fn none(alloc: Global) -> Numbers
        ensures { (result.list.items ≡ []) × (result.noted ≡ 0) }
    {
        Numbers {
            list: Vec::new(alloc),
            noted: 0,
        }
    }

    fn add(&mut self, x: u32) -> bool
        ensures noted { self.new.noted ≡ self.old.noted }
        ensures list { MatchBool result
            (self.new.list.items ≡ self.old.list.items ++ x ∷ [])
            (self.new.list.items ≡ self.old.list.items) }
    {
        if self.list.reserve(1).is_err() {
            return false;
        }
        self.list.push_reserved(x);
        true
    }
}

// Adds a number in a turn of its own, as one of the pass's own or of a settling, and says whether
// there was memory.
fn add_one<R: Wait>(
    rt: &R,
    turn: &Turn<Numbers>,
    pass: &mut Pass<Numbers>,
    x: u32,
    own: bool,
) -> bool
    requires { (pass.old.turn ≡ turn.now.id) × (pass.old.out ≡ false) }
    ensures pass { (pass.new.turn ≡ pass.old.turn) × (pass.new.out ≡ false) }
    ensures room { pass.new.room ≡ pass.old.room }
    ensures mine { OnTrue result (length pass.new.mine ≡ length pass.old.mine + one_if own) }
{
    let mut held = turn.take(rt, pass);
    let added = held.value().add(x);
    if added {
        turn.note(pass, &mut held, 1, own);
    }
    turn.give(pass, held);
    added
}

// Adds numbers, each in a turn of its own.
fn add_many<R: Wait>(
    rt: &R,
    turn: &Turn<Numbers>,
    mut pass: Pass<Numbers>,
    count: u32,
) -> Option<Pass<Numbers>>
    requires { (pass.turn ≡ turn.now.id) × (pass.out ≡ false) × (pass.mine ≡ []) }
    ensures { IfSome result (λ p.
        (p.turn ≡ turn.entry.now.id) × (p.out ≡ false) × (length p.mine ≡ count)) }
{
    for i in 0..count {
        if !add_one(rt, turn, &mut pass, i, true) {
            return None;
        }
    }
    Some(pass)
}

// Two threads add numbers. What they have noted stands in the history at as many places.
fn add_in_two<R: Threads + Wait + Sync>(
    rt: &R,
    alloc: Global,
    count: u32,
) -> Option<(Turn<Numbers>, Pass<Numbers>)>
    ensures pass { IfSome result (λ t. (t.1.turn ≡ t.0.id) × (t.1.out ≡ false)) }
    ensures mine { IfSome result (λ t. length t.1.mine ≡ count + count) }
    ensures seen { IfSome result (λ t. count + count ≤ length t.1.seen) }
{
    let (turn, mut pass) = Turn::new(alloc, Numbers::none(alloc), &()).ok()?;
    let other = turn.split(alloc, &mut pass).ok()?;
    let shared = &turn;
    let (first, second) = join(
        rt,
        move || -> Option<Pass<Numbers>>
            requires { (pass.turn ≡ shared.now.id) × (pass.out ≡ false) × (pass.mine ≡ []) }
            ensures { IfSome result (λ p.
                (p.turn ≡ shared.entry.now.id) × (p.out ≡ false) × (length p.mine ≡ count)) }
        { add_many(rt, shared, pass, count) },
        move || -> Option<Pass<Numbers>>
            requires { (other.turn ≡ shared.now.id) × (other.out ≡ false) × (other.mine ≡ []) }
            ensures { IfSome result (λ p.
                (p.turn ≡ shared.entry.now.id) × (p.out ≡ false) × (length p.mine ≡ count)) }
        { add_many(rt, shared, other, count) },
    );
    let mut first = first?;
    let second = second?;
    turn.meet(&mut first, second);
    first.places_stand_once();
    Some((turn, first))
}

fn sum_of(list: &[u32]) -> u64 {
    let mut sum = 0u64;
    for x in list {
        sum = sum.wrapping_add(u64::from(*x));
    }
    sum
}

#[test]
fn two_threads_take_turns(rt: HostRuntime) -> Result<(), Fail> {
    let (turn, mut pass) = add_in_two(&rt, rt.alloc(), 1000).ok_or("there is memory")?;
    let numbers = turn.take(&rt, &mut pass).keep();
    assert!(rt; numbers.list.len() == 2000 && numbers.noted == 2000);
    assert!(rt; sum_of(&numbers.list) == 999_000);
    Ok(())
}

// Splits a pass until it is refused, at most `most` times, and says how often it was split.
fn split_often(alloc: Global, turn: &Turn<Numbers>, pass: &mut Pass<Numbers>, most: u32) -> u32
    requires { (pass.old.turn ≡ turn.now.id) × (pass.old.out ≡ false) }
    ensures { (pass.new.turn ≡ pass.old.turn) × (pass.new.out ≡ false) }
{
    let mut splits = 0;
    for i in 0..most {
        if turn.split(alloc, pass).is_err() {
            return i;
        }
        splits = i + 1;
    }
    splits
}

// A turn of no number, and two passes of it.
fn with_two_passes(alloc: Global) -> Result<(Turn<Numbers>, Pass<Numbers>, Pass<Numbers>), Fail>
    ensures { IfOk result (λ t. (t.1.turn ≡ t.0.id) × (t.1.out ≡ false)
        × (t.2.turn ≡ t.0.id) × (t.2.out ≡ false)) }
{
    let (turn, mut pass) = Turn::new(alloc, Numbers::none(alloc), &())
        .ok()
        .ok_or("turn")?;
    let other = turn.split(alloc, &mut pass)?;
    Ok((turn, pass, other))
}

#[test]
fn settlings_are_noted(rt: HostRuntime) -> Result<(), Fail> {
    let (turn, mut pass, mut other) = with_two_passes(rt.alloc())?;
    assert!(rt; add_one(&rt, &turn, &mut pass, 7, true));
    assert!(rt; add_one(&rt, &turn, &mut other, 8, false));
    let numbers = turn.take(&rt, &mut other).keep();
    assert!(rt; numbers.list.as_slice() == [7, 8].as_slice() && numbers.noted == 2);
    Ok(())
}

// A pass may be parted into 2^32, and so by halves 32 times.
#[test]
fn splits_are_refused(rt: HostRuntime) -> Result<(), Fail> {
    let (turn, pass, mut other) = with_two_passes(rt.alloc())?;
    assert!(rt; split_often(rt.alloc(), &turn, &mut other, 100) == 32);
    turn.meet(&mut other, pass);
    assert!(rt; turn.split(rt.alloc(), &mut other).is_ok());
    Ok(())
}

#[test]
fn a_turn_that_nobody_shares_gives_its_value(rt: HostRuntime) -> Result<(), Fail> {
    let alloc = rt.alloc();
    let (turn, mut pass) = Turn::new(alloc, Numbers::none(alloc), &())
        .ok()
        .ok_or("turn")?;
    let mut other = turn.split(alloc, &mut pass)?;
    assert!(rt; add_one(&rt, &turn, &mut pass, 7, true));
    assert!(rt; add_one(&rt, &turn, &mut other, 8, false));
    turn.meet(&mut pass, other);
    let numbers = turn.into_value(pass);
    assert!(rt; numbers.list.as_slice() == [7, 8].as_slice());
    assert!(rt; numbers.noted == 2);
    Ok(())
}

fn shares<T: Sync>() {}

fn sends<T: Send>() {}

// Where a value may cross threads, its turn may be shared by them, and its passes may cross.
fn crosses_threads<V: Kept + Send>() {
    shares::<Turn<V>>();
    sends::<Turn<V>>();
    sends::<Pass<V>>();
    sends::<Held<V>>();
}
