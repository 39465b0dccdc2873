//! Runs of last ends, with when the rest of each is over.

ghost use Rattle.std.specs.Prelude.{◌≡◌, ◌≢◌, ◌≤◌, ◌<◌, ◌==◌, ◌+◌, ◌-◌, ◌*◌, ◌^◌, ℕ, [], length, true, Some, None, IfSome, IfNone, IfOk, OnOk, if◌then◌else◌};
ghost use Rattle.std.specs.Option.{option_map};
ghost use Rattle.expiry_wheel.specs.Moments.{IsFirstOf};
ghost use Rattle.expiry_wheel.specs.Blocks.{AreLeasts, least_at};
ghost use Rattle.port_spans.specs.Runs as the;
ghost use Rattle.port_spans.specs.Runs.{AreRuns, IsRunAt, IsNextRun, has_place, part_at, but_from, with_value};
ghost use Rattle.port_spans.specs.declared.runs.TheConstants.{PLACES};
ghost use Rattle.leased_ports.specs.Frees.{AreNear, AreTimed, IsFirst, IsNear, free_at, is_over, is_over_from};

use expiry_wheel::{Leasts, MOST_LEVELS, NEVER, latest};
use pcp_base::{End, Memory, REST_SECONDS};
use port_spans::{Ends, Run, Spans};
use std::alloc::Global;
use std::marker::Model;
use std::sync::ledger::Ledger;
use step_count::Steps;

/// How many spots a block has.
const BLOCK: u32 = 8;

/// How many blocks there are.
const BLOCKS: u32 = 16_384;

/// Runs of ports with their last ends, as [`Ends`] keeps them, and a tree that tells which of them
/// is the first whose rest is over.
///
/// It is seen as the list of runs.
#[derive(Drop)]
pub struct TimedEnds {
    ends: Ends,
    // Of each block of spots the least moment at which the ports of a run that begins there are
    // free again.
    frees: Leasts,
}

impl Model for TimedEnds {
    ghost use Rattle.std.specs.Prelude.{List};
    ghost use Rattle.pcp_base.specs.declared.leases.End.{End};
    ghost use Rattle.port_spans.specs.declared.runs.Run.{Run};
    ghost use Rattle.leased_ports.specs.Frees.{AreTimed};

    ghost Value = { List (Run End) };

    ghost view = { λ s. s.ends };

    ghost invariant = { λ s. AreTimed s.ends s.frees };
}

/// The run that has a spot.
fn run_at(ends: &Ends, at: u32) -> Option<Run<End>>
    requires { AreNear ends.now }
    ensures run { result ≡ the.run_at ends.now at }
    ensures near { IfSome result IsNear }
{
    ends.run_at(at)
}

/// When the ports of the run that begins at a spot are free again, `NEVER` where none begins there.
fn free_at(ends: &Ends, at: u32) -> u64
    requires { AreNear ends.now }
    ensures { result ≡ free_at ends.now at }
{
    let Some(run) = run_at(ends, at) else {
        return NEVER;
    };
    if run.first == at {
        run.value.end + REST_SECONDS
    } else {
        NEVER
    }
}

/// When the ports of a run are free again that gets another end, `NEVER` where there is no run.
fn free_then(before: u64, end: u64) -> u64
    requires { end < 2 ^ 41 }
    ensures { result ≡ (if before == NEVER then NEVER else end + REST_SECONDS) }
{
    if before == NEVER {
        NEVER
    } else {
        end + REST_SECONDS
    }
}

/// When the ports of the run are free again that begins at a spot, where it is known of one.
fn free_beside(ends: &Ends, at: u32, known: u32, free: u64) -> u64
    requires near { AreNear ends.now }
    requires known { free ≡ free_at ends.now known }
    ensures { result ≡ free_at ends.now at }
{
    if at == known { free } else { free_at(ends, at) }
}

/// The least moment at which the ports of a run that begins in a block are free again. It is known
/// at one spot.
fn least_in(ends: &Ends, block: u32, known: u32, free: u64) -> u64
    requires near { AreNear ends.now }
    requires block { block < BLOCKS }
    requires known { free ≡ free_at ends.now known }
    ensures { result ≡ least_at (free_at ends.now) (8 * block) 8 }
{
    let mut least = NEVER;
    for i in 0..BLOCK {
        least = least.min(free_beside(ends, BLOCK * block + i, known, free));
    }
    least
}

/// Tells the tree the moment of a spot, which was `before`, where no other spot's was changed. The
/// block is looked through only where its least moment may have gone: that takes 7 looks at spots,
/// and the tree 30 at nodes.
fn retell(ends: &Ends, frees: &mut Leasts, at: u32, before: u64, free: u64)
    requires near { AreNear ends.now }
    requires all { length frees.old ≡ BLOCKS }
    requires free { free ≡ free_at ends.now at }
    ensures { (was : ℕ → ℕ) → AreLeasts BLOCKS was frees.old → was at ≡ before
        → ((i : ℕ) → i ≢ at → free_at ends.now i ≡ was i)
        → AreLeasts BLOCKS (free_at ends.now) frees.new }
{
    let block = at / BLOCK;
    if block >= BLOCKS {
        return;
    }
    let least = frees.least_of(block as usize);
    if free <= least {
        frees.set_uncounted(block as usize, free);
        return;
    }
    if before == least {
        frees.set_uncounted(block as usize, least_in(ends, block, at, free));
    }
}

/// Parts the run that has a spot, so that one begins there.
fn cut(ends: &mut Ends, frees: &mut Leasts, at: u32) -> Result<(), Memory>
    requires { AreTimed ends.old frees.old }
    ensures timed { AreTimed ends.new frees.new }
    ensures ok { OnOk result ((other : ℕ) → the.run_at ends.new other
        ≡ option_map (part_at at other) (the.run_at ends.old other)) }
{
    let before = free_at(ends, at);
    ends.cut(at)?;
    let free = free_at(ends, at);
    retell(ends, frees, at, before, free);
    Ok(())
}

/// Gives a run of spots that have no last end its own.
fn insert(ends: &mut Ends, frees: &mut Leasts, run: Run<End>) -> Result<(), Memory>
    requires timed { AreTimed ends.old frees.old }
    requires some { 1 ≤ run.count }
    requires small { run.first + run.count ≤ PLACES }
    requires near { run.value.end < 2 ^ 41 }
    requires free { (at : ℕ) → has_place at run ≡ true → the.run_at ends.old at ≡ None }
    ensures timed { AreTimed ends.new frees.new }
    ensures ok { OnOk result ((at : ℕ) → the.run_at ends.new at
        ≡ (if has_place at run then Some run else the.run_at ends.old at)) }
{
    let before = free_at(ends, run.first);
    ends.insert(run)?;
    let free = free_at(ends, run.first);
    retell(ends, frees, run.first, before, free);
    Ok(())
}

/// Whether a spot is of a run whose rest is over at `m`.
fn is_over_at(ends: &Ends, at: u32, m: u64) -> bool
    requires { AreNear ends.now }
    ensures { result ≡ is_over m (the.run_at ends.now at) }
{
    let Some(run) = run_at(ends, at) else {
        return false;
    };
    run.value.end + REST_SECONDS <= m
}

/// The first spot from `from` up to `to`, which isn't among them, at which a run begins whose ports
/// are free again by `m`. A step is a spot that is looked at.
fn first_in<L: Ledger>(ends: &Ends, from: u32, to: u32, m: u64, steps: &mut Steps<L>) -> Option<u32>
    requires near { AreNear ends.now }
    requires ordered { from ≤ to }
    ensures found { IfSome result (IsFirstOf (free_at ends.now) from m) }
    ensures below { IfSome result (λ at. at < to) }
    ensures none { IfNone result ((at : ℕ) → from ≤ at → at < to → m < free_at ends.now at) }
    ensures cost { steps.new ≤ steps.old + (to - from) }
{
    for at in from..to {
        steps.tick();
        if free_at(ends, at) <= m {
            return Some(at);
        }
    }
    None
}

/// The first spot from one on at which a run begins whose ports are free again by `m`: in the spot's
/// own block, or in the next that has one.
fn first_free<L: Ledger>(
    ends: &Ends,
    frees: &Leasts,
    from: u32,
    m: u64,
    steps: &mut Steps<L>,
) -> Option<u32>
    requires timed { AreTimed ends.now frees.now }
    requires from { from < PLACES }
    requires sometime { m < NEVER }
    ensures found { IfSome result (IsFirstOf (free_at ends.now) from m) }
    ensures none { IfNone result (
        (at : ℕ) → from ≤ at → at < PLACES → m < free_at ends.now at) }
    ensures cost { steps.new ≤ steps.old + 43 }
{
    let block = from / BLOCK;
    let found = first_in(ends, from, BLOCK * block + BLOCK, m, steps);
    if found.is_some() {
        return found;
    }
    let Some(later) = frees.first_from(block as usize + 1, m, steps) else {
        return None;
    };
    let first = BLOCK * later as u32;
    first_in(ends, first, first + BLOCK, m, steps)
}

/// The first spot from this one on that is of a run whose rest is over at `m`. The run that has the
/// spot may begin before it, so it is looked at by itself.
fn first_over<L: Ledger>(
    ends: &Ends,
    frees: &Leasts,
    from: u32,
    m: u64,
    steps: &mut Steps<L>,
) -> Option<u32>
    requires { AreTimed ends.now frees.now }
    ensures first { IsFirst (is_over_from from m ends.now) result }
    ensures steps { steps.new ≤ steps.old + 44 }
{
    steps.tick();
    if is_over_at(ends, from, m) {
        return Some(from);
    }
    if from >= BLOCK * BLOCKS {
        return None;
    }
    first_free(ends, frees, from, latest(m), steps)
}

impl TimedEnds {
    /// No spot has a last end. The one error is want of memory.
    pub fn new(alloc: Global) -> Result<TimedEnds, Memory>
        ensures { IfOk result (λ ends. ends ≡ []) }
    {
        Ok(TimedEnds {
            ends: Spans::new(alloc)?,
            frees: Leasts::new(alloc, MOST_LEVELS)?,
        })
    }

    /// Takes the last ends from all spots. It takes no memory.
    pub fn clear(&mut self)
        ensures { self.new ≡ [] }
    {
        self.ends.clear();
        self.frees.clear();
    }

    /// The run that has a spot, as [`Spans::run_at`] tells it.
    pub fn run_at(&self, at: u32) -> Option<Run<End>>
        ensures run { result ≡ the.run_at self.now at }
        ensures whole { IfSome result (IsRunAt self.now at) }
    {
        self.ends.run_at(at)
    }

    /// The first run that begins at a spot or behind it, and before another, as [`Spans::next_run`]
    /// tells it.
    pub fn next_run(&self, at: u32, end: u32) -> Option<Run<End>>
        ensures { IsNextRun self.now at end result }
    {
        self.ends.next_run(at, end)
    }

    /// The first spot from this one on that is of a run whose rest is over at `m`. It takes at most
    /// 44 steps.
    pub fn first_over<L: Ledger>(&self, from: u32, m: u64, steps: &mut Steps<L>) -> Option<u32>
        ensures first { IsFirst (is_over_from from m self.now) result }
        ensures steps { steps.new ≤ steps.old + 44 }
    {
        first_over(&self.ends, &self.frees, from, m, steps)
    }

    /// Parts the run that has a spot, so that one begins there, as [`Spans::cut`] does. The one
    /// error is want of memory.
    pub fn cut(&mut self, _alloc: Global, at: u32) -> Result<(), Memory>
        ensures runs { AreRuns self.new }
        ensures ok { OnOk result ((other : ℕ) → the.run_at self.new other
            ≡ option_map (part_at at other) (the.run_at self.old other)) }
    {
        cut(&mut self.ends, &mut self.frees, at)
    }

    /// Gives a run of spots that have no last end its own, as [`Spans::insert`] does. The one error
    /// is want of memory.
    pub fn insert(&mut self, _alloc: Global, run: Run<End>) -> Result<(), Memory>
        requires some { 1 ≤ run.count }
        requires small { run.first + run.count ≤ PLACES }
        requires near { run.value.end < 2 ^ 41 }
        requires free { (at : ℕ) → has_place at run ≡ true → the.run_at self.old at ≡ None }
        ensures runs { AreRuns self.new }
        ensures ok { OnOk result ((at : ℕ) → the.run_at self.new at
            ≡ (if has_place at run then Some run else the.run_at self.old at)) }
    {
        insert(&mut self.ends, &mut self.frees, run)
    }

    /// Gives the run that begins at a spot another last end, if one begins there. It takes no
    /// memory.
    pub fn set_value(&mut self, first: u32, value: End)
        requires near { value.end < 2 ^ 41 }
        ensures runs { AreRuns self.new }
        ensures ok { (at : ℕ) →
            the.run_at self.new at ≡ option_map (with_value first value) (the.run_at self.old at) }
    {
        let before = free_at(&self.ends, first);
        self.ends.set_value(first, value);
        let free = free_then(before, value.end);
        retell(&self.ends, &mut self.frees, first, before, free);
    }

    /// Takes the last ends from the run that begins at a spot, if one begins there. It takes no
    /// memory.
    pub fn remove(&mut self, first: u32)
        ensures runs { AreRuns self.new }
        ensures ok { (at : ℕ) → the.run_at self.new at ≡ but_from first (the.run_at self.old at) }
    {
        let before = free_at(&self.ends, first);
        self.ends.remove(first);
        retell(&self.ends, &mut self.frees, first, before, NEVER);
    }
}
