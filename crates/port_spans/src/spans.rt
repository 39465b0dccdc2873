//! Values of places.

ghost use Rattle.std.specs.Prelude.{◌≡◌, ◌≤◌, ◌+◌, ℕ, [], true, Some, None, IfSome, IfOk, OnOk, OnErr, if◌then◌else◌};
ghost use Rattle.std.specs.Option.{option_map};
ghost use Rattle.port_spans.specs.Runs as the;
ghost use Rattle.port_spans.specs.Runs.{AreRuns, IsRunAt, IsNextRun, has_place, part_at, but_from, with_value};

use crate::runs::{PLACES, Run};
use crate::slots::zeros;
use crate::steps::{cut, first_run, put, remove, run_at, set_value};
use pcp_base::Memory;
use slab::Slab;
use std::alloc::Global;
use std::marker::Model;

/// Values of the places from 0 to 131,071.
///
/// It is seen as a list of runs, of which no two have a place in common; a place that no run has is
/// without a value. It takes 524,288 octets, and for each run those of a `Run<V>` and 8 more, which
/// are 48 where the value is an end. Room for a run of each place is asked for at once, so that no
/// run waits while others are moved; what no run needs isn't touched. A look-up is one look into an
/// array by place and one at the run.
#[derive(Drop)]
pub struct Spans<V> {
    /// For each place one more than the key of its run, and 0 where it has none.
    slots: Vec<u32>,
    /// The runs.
    runs: Slab<Run<V>>,
}

impl<V> Model for Spans<V> {
    ghost use Rattle.std.specs.Prelude.{List};
    ghost use Rattle.slab.specs.Slab.{values};
    ghost use Rattle.port_spans.specs.declared.runs.Run.{Run};
    ghost use Rattle.port_spans.specs.Kept.{AreKept};

    ghost Value = { List (Run V) };

    ghost view = { λ s. values s.runs };

    ghost invariant = { λ s. AreKept s.slots.items s.runs };
}

impl<V: Copy> Spans<V> {
    /// No place has a value. The one error is want of memory.
    pub fn new(alloc: Global) -> Result<Spans<V>, Memory>
        ensures { IfOk result (λ spans. spans ≡ []) }
    {
        Ok(Spans {
            slots: zeros(alloc, PLACES)?,
            runs: Slab::with_capacity(alloc, PLACES)?,
        })
    }

    /// Takes the values from all places. It takes no memory, and writes to each place.
    pub fn clear(&mut self)
        ensures { self.new ≡ [] }
    {
        self.slots.fill(0);
        self.runs.clear();
    }

    /// The run that has a place, None where the place has no value.
    pub fn run_at(&self, place: u32) -> Option<Run<V>>
        ensures run { result ≡ the.run_at self.now place }
        ensures whole { IfSome result (IsRunAt self.now place) }
    {
        run_at(&self.slots, &self.runs, place)
    }

    /// The first run that begins at a place or behind it, and before the place `end`. It looks at
    /// the places from the one to the run's first, or to `end` where there is none.
    pub fn next_run(&self, place: u32, end: u32) -> Option<Run<V>>
        ensures { IsNextRun self.now place end result }
    {
        first_run(&self.slots, &self.runs, place, end)
    }

    /// Parts the run that has a place, so that one begins there. All places keep their values. It
    /// writes to the places of the part behind. The one error is want of memory, which changes
    /// nothing.
    pub fn cut(&mut self, place: u32) -> Result<(), Memory>
        ensures runs { AreRuns self.new }
        ensures ok { OnOk result ((at : ℕ) →
            the.run_at self.new at ≡ option_map (part_at place at) (the.run_at self.old at)) }
        ensures err { OnErr result (self.new ≡ self.old) }
    {
        cut(&mut self.slots, &mut self.runs, place)
    }

    /// Gives a run of places that have no value its value. It writes to these places. The one error
    /// is want of memory, which changes nothing.
    pub fn insert(&mut self, run: Run<V>) -> Result<(), Memory>
        requires some { 1 ≤ run.count }
        requires small { run.first + run.count ≤ PLACES }
        requires free { (at : ℕ) → has_place at run ≡ true → the.run_at self.old at ≡ None }
        ensures runs { AreRuns self.new }
        ensures ok { OnOk result ((at : ℕ) →
            the.run_at self.new at
            ≡ (if has_place at run then Some run else the.run_at self.old at)) }
        ensures err { OnErr result (self.new ≡ self.old) }
    {
        put(&mut self.slots, &mut self.runs, run)
    }

    /// Gives all places of the run that begins at a place another value, if one begins there. It
    /// takes no memory, and writes to the run alone.
    pub fn set_value(&mut self, first: u32, value: V)
        ensures runs { AreRuns self.new }
        ensures ok { (at : ℕ) →
            the.run_at self.new at ≡ option_map (with_value first value) (the.run_at self.old at) }
    {
        set_value(&self.slots, &mut self.runs, first, value);
    }

    /// Takes the value from all places of the run that begins at a place, if one begins there. It
    /// takes no memory, and writes to these places.
    pub fn remove(&mut self, first: u32)
        ensures runs { AreRuns self.new }
        ensures ok { (at : ℕ) → the.run_at self.new at ≡ but_from first (the.run_at self.old at) }
    {
        remove(&mut self.slots, &mut self.runs, first);
    }
}
