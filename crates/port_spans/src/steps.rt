//! Runs that are found, come, change and go.

ghost use Rattle.std.specs.Prelude.{◌≡◌, ◌≤◌, ◌<◌, ◌+◌, ◌^◌, ℕ, true, Some, None, OnOk, OnErr, if◌then◌else◌};
ghost use Rattle.std.specs.Option.{option_map};
ghost use Rattle.slab.specs.Slab.{ContainsKey, Updates, get, values};
ghost use Rattle.port_spans.specs.Runs as the;
ghost use Rattle.port_spans.specs.Runs.{IsNextRun, but_from, has_place, part_at, with_value};
ghost use Rattle.port_spans.specs.Kept.{AreKept};

use crate::runs::{PLACES, Run};
use crate::slots::{fill, key_at, next_slot};
use pcp_base::Memory;
use slab::Slab;

/// The run that has a place.
pub(crate) fn run_at<V: Copy>(slots: &[u32], runs: &Slab<Run<V>>, place: u32) -> Option<Run<V>>
    requires { AreKept slots.now runs.now }
    ensures { result ≡ the.run_at (values runs.now) place }
{
    let Some(key) = key_at(slots, place) else {
        return None;
    };
    Some(runs[key])
}

/// The first run that begins from a place on and before an end.
pub(crate) fn first_run<V: Copy>(
    slots: &[u32],
    runs: &Slab<Run<V>>,
    place: u32,
    end: u32,
) -> Option<Run<V>>
    requires { AreKept slots.now runs.now }
    ensures { IsNextRun (values runs.now) place end result }
{
    for at in place..end.min(PLACES as u32) {
        let Some(run) = run_at(slots, runs, at) else {
            continue;
        };
        if run.first == at {
            return Some(run);
        }
    }
    None
}

/// Writes a run in the place of the one under a key.
fn overwrite<V: Copy>(runs: &mut Slab<Run<V>>, key: usize, run: Run<V>)
    requires { ContainsKey runs.old key }
    ensures { Updates runs.old runs.new key (Some run) }
{
    if let Some(kept) = runs.get_mut(key) {
        *kept = run;
    }
}

/// Puts a run whose places have no value.
pub(crate) fn put<V: Copy>(
    slots: &mut [u32],
    runs: &mut Slab<Run<V>>,
    run: Run<V>,
) -> Result<(), Memory>
    requires kept { AreKept slots.old runs.old }
    requires some { 1 ≤ run.count }
    requires small { run.first + run.count ≤ PLACES }
    requires free { (at : ℕ) → has_place at run ≡ true → the.run_at (values runs.old) at ≡ None }
    ensures kept { AreKept slots.new runs.new }
    ensures ok { OnOk result ((at : ℕ) → the.run_at (values runs.new) at
        ≡ (if has_place at run then Some run else the.run_at (values runs.old) at)) }
    ensures err { OnErr result (values runs.new ≡ values runs.old) }
{
    let slot = next_slot(runs)?;
    runs.insert(run)?;
    fill(slots, &run, slot);
    Ok(())
}

/// Parts the run under a key at one of its places, which isn't its first.
fn part<V: Copy>(
    slots: &mut [u32],
    runs: &mut Slab<Run<V>>,
    key: usize,
    run: Run<V>,
    place: u32,
) -> Result<(), Memory>
    requires kept { AreKept slots.old runs.old }
    requires there { get runs.old key ≡ Some run }
    requires behind { run.first < place }
    requires within { place < run.first + run.count }
    ensures kept { AreKept slots.new runs.new }
    ensures ok { OnOk result ((at : ℕ) → the.run_at (values runs.new) at
        ≡ option_map (part_at place at) (the.run_at (values runs.old) at)) }
    ensures err { OnErr result (values runs.new ≡ values runs.old) }
{
    let before = place - run.first;
    let rest = Run {
        first: place,
        count: run.count - before,
        value: run.value,
    };
    let start = Run {
        first: run.first,
        count: before,
        value: run.value,
    };
    let slot = next_slot(runs)?;
    runs.insert(rest)?;
    overwrite(runs, key, start);
    fill(slots, &rest, slot);
    Ok(())
}

/// Parts the run that has a place, so that one begins there.
pub(crate) fn cut<V: Copy>(
    slots: &mut [u32],
    runs: &mut Slab<Run<V>>,
    place: u32,
) -> Result<(), Memory>
    requires { AreKept slots.old runs.old }
    ensures kept { AreKept slots.new runs.new }
    ensures ok { OnOk result ((at : ℕ) → the.run_at (values runs.new) at
        ≡ option_map (part_at place at) (the.run_at (values runs.old) at)) }
    ensures err { OnErr result (values runs.new ≡ values runs.old) }
{
    let Some(key) = key_at(slots, place) else {
        return Ok(());
    };
    let run = runs[key];
    if run.first == place {
        return Ok(());
    }
    part(slots, runs, key, run, place)
}

/// Gives the run that begins at a place another value, if one begins there.
pub(crate) fn set_value<V: Copy>(slots: &[u32], runs: &mut Slab<Run<V>>, first: u32, value: V)
    requires { AreKept slots.now runs.old }
    ensures kept { AreKept slots.now runs.new }
    ensures ok { (at : ℕ) → the.run_at (values runs.new) at
        ≡ option_map (with_value first value) (the.run_at (values runs.old) at) }
{
    let Some(key) = key_at(slots, first) else {
        return;
    };
    let run = runs[key];
    if run.first == first {
        let renewed = Run {
            first: run.first,
            count: run.count,
            value,
        };
        overwrite(runs, key, renewed);
    }
}

/// Takes out the run that begins at a place, if one begins there.
pub(crate) fn remove<V: Copy>(slots: &mut [u32], runs: &mut Slab<Run<V>>, first: u32)
    requires { AreKept slots.old runs.old }
    ensures kept { AreKept slots.new runs.new }
    ensures ok { (at : ℕ) → the.run_at (values runs.new) at
        ≡ but_from first (the.run_at (values runs.old) at) }
{
    let Some(key) = key_at(slots, first) else {
        return;
    };
    let run = runs[key];
    if run.first != first {
        return;
    }
    runs.remove(key);
    fill(slots, &run, 0);
}
