//! Numbers of places, each of which names the run that has the place.

ghost use Rattle.std.specs.Prelude.{◌≡◌, ◌≤◌, ◌+◌, ℕ, IfOk, length, replicate, if◌then◌else◌};
ghost use Rattle.port_spans.specs.Runs.{has_place};
ghost use Rattle.port_spans.specs.Kept.{key_of, slot_at};

use crate::runs::Run;
use pcp_base::Memory;
use slab::Slab;
use std::alloc::Global;

/// As many numbers that name no run.
pub(crate) fn zeros(alloc: Global, count: usize) -> Result<Vec<u32>, Memory>
    ensures { IfOk result (λ slots. slots.items ≡ replicate count 0) }
{
    let slots = vec![in alloc; 0; count]?;
    Ok(slots)
}

/// The key of the run that has a place.
pub(crate) fn key_at(slots: &[u32], place: u32) -> Option<usize>
    ensures { result ≡ key_of (slot_at slots.now place) }
{
    let Some(slot) = slots.get(place as usize) else {
        return None;
    };
    if *slot == 0 {
        return None;
    }
    Some(*slot as usize - 1)
}

/// The number of the run that comes next. Where it would have more than 32 bits, that is a want of
/// memory.
pub(crate) fn next_slot<V>(runs: &Slab<Run<V>>) -> Result<u32, Memory>
    ensures { IfOk result (λ slot. slot ≡ runs.now.vacant_key + 1) }
{
    let key = runs.vacant_key();
    if key < u32::MAX as usize {
        Ok(key as u32 + 1)
    } else {
        Err(Memory)
    }
}

/// Gives all places of a run a number.
pub(crate) fn fill<V>(slots: &mut [u32], run: &Run<V>, slot: u32)
    requires { run.now.first + run.now.count ≤ length slots.old }
    ensures places { length slots.new ≡ length slots.old }
    ensures slots { (at : ℕ) → slot_at slots.new at
        ≡ (if has_place at run.now then slot else slot_at slots.old at) }
{
    let first = run.first as usize;
    slots[first..first + run.count as usize].fill(slot);
}
