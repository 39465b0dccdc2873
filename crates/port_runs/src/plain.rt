//! The plain body of free runs: the flags of the ports are searched from the lowest on.

ghost use Rattle.std.specs.Prelude.{◌≡◌, ◌≤◌, ◌+◌, IfOk, IfSome, IfNone};

use crate::flags;
use crate::flags::FLAGS;
use pcp_base::Memory;
use std::alloc::Global;
use std::marker::Model;

/// A range of ports and which of them are taken, kept as a flag for each port.
#[derive(Drop)]
pub struct PlainRuns {
    low: u16,
    high: u16,
    free: Vec<bool>,
}

impl Model for PlainRuns {
    ghost use Rattle.port_runs.specs.Ports.{Ports};
    ghost use Rattle.port_runs.specs.Flags.{shown};
    ghost use Rattle.port_runs.specs.Flags.{AreOfRange};

    ghost Value = { Ports };

    ghost view = { λ a. shown a.low a.high a.free.items };

    ghost invariant = { λ a. AreOfRange a.low a.high a.free.items };
}

impl PlainRuns {
    ghost use Rattle.port_runs.specs.Ports.{untaken, TakesRun, GivesRun, IsCountAt, IsFittingRun, HasFittingRun, IsLeast, IsGreatest};

    /// The range from `low` to `high`, with no port taken. The one error is want of memory.
    pub fn new(alloc: Global, low: u16, high: u16) -> Result<PlainRuns, Memory>
        requires some { 1 ≤ low }
        requires ordered { low ≤ high }
        ensures { IfOk result (λ runs. runs ≡ untaken low high) }
    {
        let mut free = flags::cleared(alloc, FLAGS)?;
        flags::mark(&mut free, low as usize, high as usize + 1, true);
        Ok(PlainRuns { low, high, free })
    }

    /// Takes the `n` ports from `start` on, where all of them are free; else nothing changes.
    pub fn take(&mut self, start: u16, n: u32) -> bool
        requires some { 1 ≤ n }
        requires low { self.old.low ≤ start }
        requires high { start + n ≤ self.old.high + 1 }
        ensures { TakesRun self.old start n result self.new }
    {
        let from = start as usize;
        if flags::run_at(&self.free, from, n) < n {
            return false;
        }
        flags::mark(&mut self.free, from, from + n as usize, false);
        true
    }

    /// Frees the `n` ports from `start` on.
    pub fn give(&mut self, start: u16, n: u32)
        requires some { 1 ≤ n }
        requires low { self.old.low ≤ start }
        requires high { start + n ≤ self.old.high + 1 }
        ensures { GivesRun self.old start n self.new }
    {
        let from = start as usize;
        flags::mark(&mut self.free, from, from + n as usize, true);
    }

    /// How many ports are free from `start` on, up to `most`.
    pub fn run_at(&self, start: u16, most: u32) -> u32
        ensures { IsCountAt self.now start most result }
    {
        flags::run_at(&self.free, start as usize, most)
    }

    /// The least start of `n` free ports that has the remainder by 2 that `parity` asks, if it asks
    /// one. None where there is none.
    pub fn first_run(&self, n: u32, parity: Option<u8>) -> Option<u16>
        requires { 1 ≤ n }
        ensures { IsLeast (IsFittingRun self.now n parity) result }
    {
        flags::first_run(&self.free, n, parity)
    }

    /// How many ports the longest run of free ones has that begins with the remainder by 2 that
    /// `parity` asks, if it asks one. It is 0 where there is none.
    pub fn longest_run(&self, parity: Option<u8>) -> u32
        ensures { IsGreatest (HasFittingRun self.now parity) result }
    {
        flags::longest_run(&self.free, parity)
    }
}
