//! A range of ports, and where its free runs are.

ghost use Rattle.std.specs.Prelude.{◌≡◌, ◌≤◌, ◌+◌, IfOk, IfSome, IfNone};

use crate::tree::Tree;
use pcp_base::Memory;
use std::alloc::Global;
use std::marker::Model;
use std::sync::ledger::Ledger;
use step_count::Steps;

/// A range of ports and which of them are taken, in about 29,000 octets.
///
/// A run of free ports is found on the way down a tree, whose leaves are words of 64 ports. Taking
/// or giving `n` ports touches the words that they stand in, at most `n / 64 + 2`, about twice as
/// many nodes, and the way up from them: of 4,096 ports at most 65 words and 141 nodes.
#[derive(Drop)]
pub struct Runs {
    low: u16,
    high: u16,
    tree: Tree,
}

impl Model for Runs {
    ghost use Rattle.port_runs.specs.Ports.{Ports};
    ghost use Rattle.port_runs.specs.Flags.{shown, AreOfRange};

    ghost Value = { Ports };

    ghost view = { λ a. shown a.low a.high a.tree };

    ghost invariant = { λ a. AreOfRange a.low a.high a.tree };
}

impl Runs {
    ghost use Rattle.port_runs.specs.Ports.{untaken, TakesRun, GivesRun, IsCountAt, IsFittingRun, HasFittingRun, IsLeast, IsGreatest};

    /// The range from `low` to `high`, both of it, with no port taken. The one error is want of
    /// memory.
    pub fn new(alloc: Global, low: u16, high: u16) -> Result<Runs, Memory>
        requires some { 1 ≤ low }
        requires ordered { low ≤ high }
        ensures { IfOk result (λ runs. runs ≡ untaken low high) }
    {
        let tree = Tree::new(alloc, low as usize, high as usize + 1)?;
        Ok(Runs { low, high, tree })
    }

    /// Takes the `n` ports from `start` on, and says whether it did. Where one of them is taken
    /// already, nothing changes.
    pub fn take(&mut self, start: u16, n: u32) -> bool
        requires some { 1 ≤ n }
        requires low { self.old.low ≤ start }
        requires high { start + n ≤ self.old.high + 1 }
        ensures { TakesRun self.old start n result self.new }
    {
        let from = start as usize;
        if self.tree.run_at(from, n) < n {
            return false;
        }
        let to = from + n as usize;
        self.tree.mark(from, to, false);
        true
    }

    /// Frees the `n` ports from `start` on.
    pub fn give(&mut self, start: u16, n: u32)
        requires some { 1 ≤ n }
        requires low { self.old.low ≤ start }
        requires high { start + n ≤ self.old.high + 1 }
        ensures { GivesRun self.old start n self.new }
    {
        let from = start as usize;
        let to = from + n as usize;
        self.tree.mark(from, to, true);
    }

    /// How many ports are free from `start` on, up to `most`. It is 0 outside the range.
    pub fn run_at(&self, start: u16, most: u32) -> u32
        ensures { IsCountAt self.now start most result }
    {
        self.tree.run_at(start as usize, most)
    }

    /// The least start of `n` free ports that has the remainder by 2 that `parity` asks, if it asks
    /// one. None where there is none, which takes one step, at the tree's root. Else it takes from
    /// 3 to 22 steps: the root, two nodes on each of up to 10 levels, and one word of 64 ports. A
    /// step is a node or a word that is looked at. The clause leaves room for 68.
    pub fn first_run<L: Ledger>(
        &self,
        n: u32,
        parity: Option<u8>,
        steps: &mut Steps<L>,
    ) -> Option<u16>
        requires { 1 ≤ n }
        ensures found { IsLeast (IsFittingRun self.now n parity) result }
        ensures cost { steps.new ≤ steps.old + 68 }
        ensures none { IfNone result (steps.new ≡ steps.old + 1) }
        ensures some { IfSome result (λ _. steps.old + 3 ≤ steps.new) }
    {
        self.tree.first_run(n, parity, steps)
    }

    /// How many ports the longest run of free ones has that begins with the remainder by 2 that
    /// `parity` asks, if it asks one. It is 0 where there is none, and takes one step, at the root.
    pub fn longest_run<L: Ledger>(&self, parity: Option<u8>, steps: &mut Steps<L>) -> u32
        ensures longest { IsGreatest (HasFittingRun self.now parity) result }
        ensures cost { steps.new ≡ steps.old + 1 }
    {
        self.tree.longest_run(parity, steps)
    }
}
