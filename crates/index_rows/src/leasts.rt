//! Least moments of blocks by a tree, beside a list that is searched.

ghost use Rattle.std.specs.Prelude.{◌≡◌, ◌<◌, length};

use expiry_wheel::{Leasts, NEVER};
use std::alloc::Global;
use std::process::Abort;
use std::test::*;

/// How many blocks there are.
const BLOCKS: usize = 16;

/// The first block from one on whose moment is at most `m`.
fn first_plain(plain: &[u64], from: usize, m: u64) -> Option<usize> {
    for block in from..plain.len() {
        if plain[block] <= m {
            return Some(block);
        }
    }
    None
}

/// The least moment of all.
fn least_plain(plain: &[u64]) -> u64 {
    let mut least = NEVER;
    for block in 0..plain.len() {
        least = least.min(plain[block]);
    }
    least
}

/// The first block with the least moment of all, if that one is at most `m`.
fn next_plain(plain: &[u64], m: u64) -> Option<usize> {
    let least = least_plain(plain);
    if m < least {
        return None;
    }
    first_plain(plain, 0, least)
}

/// The block that the tree tells as the next.
fn next_told(leasts: &Leasts, m: u64) -> Option<usize> {
    let Some(due) = leasts.next_uncounted(m) else {
        return None;
    };
    Some(due.block)
}

/// Sets a moment of both.
fn set_both(leasts: &mut Leasts, plain: &mut [u64], block: usize, least: u64)
    requires alike { length leasts.old ≡ length plain.old }
    requires block { block < length plain.old }
    ensures alike { length leasts.new ≡ length plain.new }
{
    leasts.set_uncounted(block, least);
    plain[block] = least;
}

/// Whether both tell the same from a block on and in all.
fn agree(leasts: &Leasts, plain: &[u64], from: usize, m: u64) -> bool {
    leasts.first_uncounted(from, m) == first_plain(plain, from, m)
        && next_told(leasts, m) == next_plain(plain, m)
}

/// Sets a moment of both by a number, and asks both.
fn turn<R: Abort>(rt: &R, leasts: &mut Leasts, plain: &mut [u64], i: usize)
    requires alike { length leasts.old ≡ length plain.old }
    requires all { length plain.old ≡ BLOCKS }
    requires few { i < 500 }
    ensures alike { length leasts.new ≡ length plain.new }
    ensures all { length plain.new ≡ BLOCKS }
{
    let moment = if i % 3 == 0 {
        NEVER
    } else {
        (i * 317 % 211) as u64
    };
    set_both(leasts, plain, i * 7 % BLOCKS, moment);
    assert!(rt;
        agree(leasts, plain, i * 5 % 18, (i * 53 % 211) as u64),
        "turn {i}"
    );
}

/// Sets both many times.
fn turns<R: Abort>(rt: &R, leasts: &mut Leasts, plain: &mut [u64])
    requires alike { length leasts.old ≡ length plain.old }
    requires all { length plain.old ≡ BLOCKS }
{
    for i in 0..500usize {
        turn(rt, leasts, plain, i);
    }
}

#[test]
fn the_first_block_and_the_next_are_those_of_a_search(rt: HostRuntime) -> Result<(), Fail> {
    let mut leasts = Leasts::new(rt.alloc(), 4)?;
    let mut plain = vec![in rt.alloc(); NEVER; BLOCKS]?;
    turns(&rt, &mut leasts, &mut plain);
    Ok(())
}

/// What a tree of so many levels tells that has no moment.
fn blank_tells(alloc: Global, levels: u32) -> Result<bool, Fail>
    requires { levels < 15 }
{
    let leasts = Leasts::new(alloc, levels)?;
    Ok(leasts.next_uncounted(NEVER - 1).is_none() && leasts.first_uncounted(0, 0).is_none())
}

#[test]
fn a_tree_may_have_one_block_or_all(rt: HostRuntime) -> Result<(), Fail> {
    assert!(rt; blank_tells(rt.alloc(), 0)? && blank_tells(rt.alloc(), 14)?);
    Ok(())
}
