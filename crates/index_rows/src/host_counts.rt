//! How many ports hosts hold, three of which share a slot, with answers worked out by hand.

use Turn::{Clear, Fewer, More};
use external_pool::host_counts::HostCounts;
use pcp_base::{Address, Memory};
use std::alloc::Global;

/// A host, by its number, holds so many ports more or fewer.
#[derive(Clone, Copy)]
enum Turn {
    More(usize, u16),
    Fewer(usize, u16),
    Clear,
}

/// Turns, and after them how many ports each host holds, and how many looks a count takes: one, and
/// the binary digits of how many hosts stand beside the slots.
static TURNS: [(Turn, [u32; 4], u64); 21] = [
    // The first takes the slot, the second stands beside it, the last has one of its own.
    (More(0, 2), [2, 0, 0, 0], 1),
    (More(1, 3), [2, 3, 0, 0], 2),
    (More(3, 1), [2, 3, 0, 1], 2),
    (More(0, 5), [7, 3, 0, 1], 2),
    (More(1, 1), [7, 4, 0, 1], 2),
    // The slot is free, and the second stays beside it.
    (Fewer(0, 7), [0, 4, 0, 1], 2),
    (More(1, 1), [0, 5, 0, 1], 2),
    (Fewer(1, 2), [0, 3, 0, 1], 2),
    // The third takes it, and the first stands beside it.
    (More(2, 7), [0, 3, 7, 1], 2),
    (More(0, 1), [1, 3, 7, 1], 3),
    (Fewer(1, 3), [1, 0, 7, 1], 2),
    (Fewer(2, 3), [1, 0, 4, 1], 2),
    (Fewer(2, 4), [1, 0, 0, 1], 2),
    // The second takes it, and the third stands beside it.
    (More(1, 65_535), [1, 65_535, 0, 1], 2),
    (More(2, 1), [1, 65_535, 1, 1], 3),
    (More(1, 65_535), [1, 131_070, 1, 1], 3),
    (Clear, [0, 0, 0, 0], 1),
    (More(2, 9), [0, 0, 9, 0], 1),
    (More(0, 8), [8, 0, 9, 0], 2),
    (Fewer(2, 9), [8, 0, 0, 0], 2),
    (Fewer(3, 0), [8, 0, 0, 0], 2),
];

/// The host with a number. The first three share a slot, and the last has one of its own.
fn host(number: usize) -> Address {
    match number {
        0 => Address::v4(10, 0, 0, 1),
        1 => Address::v4(10, 0, 10, 25),
        2 => Address::v4(10, 0, 26, 110),
        _ => Address::v4(10, 0, 0, 2),
    }
}

/// Whether a host holds so many: by its count, and by what it is below.
fn is_held(counts: &HostCounts, who: &Address, wanted: u32) -> bool {
    counts.count(who) == wanted
        && !counts.is_below(who, wanted)
        && counts.is_below(who, wanted.saturating_add(1))
}

/// Whether each host holds so many.
fn are_held(counts: &HostCounts, wanted: &[u32; 4]) -> bool {
    for number in 0..4 {
        if !is_held(counts, &host(number), wanted[number]) {
            return false;
        }
    }
    true
}

/// Counts `n` more of a host that holds few.
fn raise(counts: &mut HostCounts, who: &Address, n: u16) -> Result<(), Memory> {
    if counts.count(who) > 1_000_000 {
        return Ok(());
    }
    counts.raise(who, u32::from(n))
}

/// Counts `n` fewer of a host that holds so many.
fn lower(counts: &mut HostCounts, who: &Address, n: u16) {
    if counts.count(who) >= u32::from(n) {
        counts.lower(who, u32::from(n));
    }
}

fn take(counts: &mut HostCounts, turn: &Turn) -> Result<(), Memory> {
    match *turn {
        More(number, n) => raise(counts, &host(number), n)?,
        Fewer(number, n) => lower(counts, &host(number), n),
        Clear => counts.clear(),
    }
    Ok(())
}

/// The first turn after which some host holds another number, or a count takes more looks or fewer.
fn first_other(alloc: Global) -> Result<Option<usize>, Memory> {
    let mut counts = HostCounts::new(alloc)?;
    for (number, row) in TURNS.iter().enumerate() {
        take(&mut counts, &row.0)?;
        if !are_held(&counts, &row.1) || counts.looks() != row.2 {
            return Ok(Some(number));
        }
    }
    Ok(None)
}

#[test]
fn hosts_that_share_a_slot_are_counted_apart(rt: HostRuntime) -> Result<(), Memory> {
    let other = first_other(rt.alloc())?;
    assert!(rt; other.is_none(), "{other:?}");
    Ok(())
}
