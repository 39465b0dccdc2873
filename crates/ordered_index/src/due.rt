//! Which slots have a lease that has ended, by the least expiry of each block of them.

ghost use Rattle.std.specs.Prelude.{◌≡◌, ◌≢◌, ◌<◌, ◌≤◌, ◌+◌, ◌*◌, ◌/◌, ℕ, true, false, if◌then◌else◌, is_some, length, Some, IfSome, IfNone};
ghost use Rattle.slab.specs.Slab.{get};
ghost use Rattle.expiry_wheel.specs.Blocks.{least_at, AreLeasts};
ghost use Rattle.expiry_wheel.specs.declared.TheConstants.{NEVER};
ghost use Rattle.ordered_index.specs.declared.slots.TheConstants.{BLOCKS, MOST_SLOTS};
ghost use Rattle.ordered_index.specs.Ended.{has_ended};
ghost use Rattle.ordered_index.specs.Slots.{held_below, holds, moment_at};

use crate::expires::Expires;
use crate::slots::{BLOCKS, MOST_SLOTS};
use expiry_wheel::{Leasts, NEVER};
use slab::Slab;

/// How many slots a block has.
const BLOCK: usize = 8;

/// The expiry of what stands in a slot, `NEVER` where nothing does.
pub(crate) fn moment_at<L: Expires>(slots: &Slab<(u64, L)>, slot: usize) -> u64
    ensures moment { result ≡ moment_at L.expiry slots.now slot }
    ensures low { result ≤ NEVER }
{
    let Some(entry) = slots.get(slot) else {
        return NEVER;
    };
    let (_, lease) = entry;
    lease.expires_at()
}

/// The least of the expiries in a block.
fn least_of<L: Expires>(slots: &Slab<(u64, L)>, block: usize) -> u64
    requires { block < BLOCKS }
    ensures { result ≡ least_at (moment_at L.expiry slots.now) (8 * block) 8 }
{
    let mut least = NEVER;
    for i in 0..BLOCK {
        least = least.min(moment_at(slots, BLOCK * block + i));
    }
    least
}

/// Sees to the least expiry of a slot's block, where another moment stands in the slot than was
/// there. It looks through the block only where its least may have gone.
pub(crate) fn tell_least<L: Expires>(
    slots: &Slab<(u64, L)>,
    leasts: &mut Leasts,
    slot: usize,
    was: u64,
)
    requires slot { slot < MOST_SLOTS }
    requires all { length leasts.old ≡ BLOCKS }
    ensures { (before : ℕ → ℕ) → AreLeasts BLOCKS before leasts.old → before slot ≡ was
        → ((i : ℕ) → i ≢ slot → moment_at L.expiry slots.now i ≡ before i)
        → AreLeasts BLOCKS (moment_at L.expiry slots.now) leasts.new }
{
    let block = slot / BLOCK;
    let moment = moment_at(slots, slot);
    let least = leasts.least_of(block);
    if moment <= least {
        leasts.set_uncounted(block, moment);
        return;
    }
    if was != least {
        return;
    }
    let anew = least_of(slots, block);
    leasts.set_uncounted(block, anew);
}

/// The number of the lease in a slot, if its expiry is at most `m`.
fn ended_at<L: Expires>(slots: &Slab<(u64, L)>, slot: usize, m: u64) -> Option<u64>
    ensures tells { is_some result ≡ holds (has_ended L.expiry m) (get slots.now slot) }
    ensures number { IfSome result (λ n. (l : L) × (get slots.now slot ≡ Some (n, l))) }
{
    let Some(entry) = slots.get(slot) else {
        return None;
    };
    let (number, lease) = entry;
    let expiry = lease.expires_at();
    if m < expiry {
        return None;
    }
    Some(*number)
}

/// The number of the first lease in some slots, from one on up to another that isn't among them,
/// whose expiry is at most `m`.
fn ended_among<L: Expires>(slots: &Slab<(u64, L)>, from: usize, to: usize, m: u64) -> Option<u64>
    ensures number { IfSome result (λ n. (slot : ℕ) × (l : L)
        × (get slots.now slot ≡ Some (n, l)) × (has_ended L.expiry m l ≡ true)) }
    ensures none { IfNone result ((slot : ℕ) → from ≤ slot → slot < to
        → holds (has_ended L.expiry m) (get slots.now slot) ≡ false) }
{
    for slot in from..to {
        let found = ended_at(slots, slot, m);
        if found.is_some() {
            return found;
        }
    }
    None
}

/// The number of one of the leases that expire first, where their expiry is at most `m`.
pub(crate) fn first_ended<L: Expires>(
    slots: &Slab<(u64, L)>,
    leasts: &Leasts,
    m: u64,
) -> Option<u64>
    requires { AreLeasts BLOCKS (moment_at L.expiry slots.now) leasts.now }
    ensures number { IfSome result (λ n. (slot : ℕ) × (l : L)
        × (get slots.now slot ≡ Some (n, l)) × (has_ended L.expiry m l ≡ true)) }
    ensures none { IfNone result ((slot : ℕ) → slot < MOST_SLOTS
        → holds (has_ended L.expiry m) (get slots.now slot) ≡ false) }
{
    if m == NEVER {
        return ended_among(slots, 0, BLOCK * BLOCKS, m);
    }
    let Some(due) = leasts.next_uncounted(m) else {
        return None;
    };
    let from = BLOCK * due.block;
    ended_among(slots, from, from + BLOCK, due.least)
}

/// One for a lease in the slot whose expiry is at most `m`, and none for anything else.
fn count_at<L: Expires>(slots: &Slab<(u64, L)>, slot: usize, m: u64) -> usize
    ensures { result
        ≡ (if holds (has_ended L.expiry m) (get slots.now slot) then 1 else 0) }
{
    let Some(_number) = ended_at(slots, slot, m) else {
        return 0;
    };
    1
}

/// How many leases of a block have an expiry of at most `m`.
fn ended_in<L: Expires>(slots: &Slab<(u64, L)>, block: usize, m: u64) -> usize
    requires { block < BLOCKS }
    ensures ended { held_below (has_ended L.expiry m) slots.now (8 * block) + result
        ≡ held_below (has_ended L.expiry m) slots.now (8 * block + 8) }
    ensures few { result ≤ 8 }
{
    let mut count = 0;
    for i in 0..BLOCK {
        count += count_at(slots, BLOCK * block + i, m);
    }
    count
}

/// How many leases have an expiry of at most `m`. It looks at the blocks in which one has alone.
pub(crate) fn count_ended<L: Expires>(slots: &Slab<(u64, L)>, leasts: &Leasts, m: u64) -> usize
    requires { AreLeasts BLOCKS (moment_at L.expiry slots.now) leasts.now }
    ensures { result ≡ held_below (has_ended L.expiry m) slots.now MOST_SLOTS }
{
    let mut count = 0;
    let mut from = 0;
    while from < BLOCKS {
        let Some(block) = leasts.first_uncounted(from, m) else {
            return count;
        };
        count += ended_in(slots, block, m);
        from = block + 1;
    }
    count
}
