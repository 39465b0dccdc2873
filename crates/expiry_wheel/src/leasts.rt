//! The least moments of blocks, and the tree over them.

ghost use Rattle.std.specs.Prelude.{◌≡◌, ℕ, ◌+◌, ◌^◌, ◌<◌, ◌≤◌, length, replicate, slice_set, IfSome, IfNone, IfOk};
ghost use Rattle.expiry_wheel.specs.Moments.{kept_at, latest, IsFirstIn, IsNextIn};

use crate::{NEVER, tree};
use pcp_base::Memory;
use std::alloc::Global;
use std::marker::{Brand, Model};
use std::sync::ledger::{Blank, Ledger};
use step_count::Steps;

/// The levels of a tree are at most so many below its root.
pub const MOST_LEVELS: u32 = 14;

/// The last moment up to `m` at which something may expire: `m`, but before `NEVER`.
pub fn latest(m: u64) -> u64
    ensures latest { result ≡ latest m }
    ensures sometime { result < NEVER }
{
    if m == NEVER { NEVER - 1 } else { m }
}

/// A block with its least moment.
#[derive(Clone, Copy, Debug, PartialEq, Eq)]
pub struct DueBlock {
    pub block: usize,
    pub least: u64,
}

/// The least moment of each of some blocks, and a tree over them that tells where one is due.
///
/// It is seen as the list of the least moments of the blocks, `NEVER` where there is none. It has
/// 2^`levels` blocks, and in memory 16 octets for each.
#[derive(Drop)]
pub struct Leasts {
    /// How many levels the tree has below its root.
    levels: usize,
    /// The tree: the blocks are its second half.
    nodes: Vec<u64>,
}

impl Model for Leasts {
    ghost use Rattle.std.specs.Prelude.{ℕ, List};
    ghost use Rattle.expiry_wheel.specs.Blocks.{AreNodes, leasts_in};

    ghost Value = { List ℕ };

    ghost view = { λ t. leasts_in t.levels t.nodes.items };

    ghost invariant = { λ t. AreNodes t.levels t.nodes.items };
}

impl Leasts {
    /// 2^`levels` blocks, none of which has a moment. The one error is want of memory.
    pub fn new(alloc: Global, levels: u32) -> Result<Leasts, Memory>
        requires { levels ≤ MOST_LEVELS }
        ensures { IfOk result (λ leasts. leasts ≡ replicate (2 ^ levels) NEVER) }
    {
        let nodes = tree::blank(alloc, 2 << levels)?;
        Ok(Leasts {
            levels: levels as usize,
            nodes,
        })
    }

    /// Takes the moments from all blocks. It takes no memory.
    pub fn clear(&mut self)
        ensures { self.new ≡ replicate (length self.old) NEVER }
    {
        tree::wipe(&mut self.nodes);
    }

    /// The least moment of a block. It counts no step.
    pub fn least_of(&self, block: usize) -> u64
        requires { block < length self.now }
        ensures { result ≡ kept_at self.now block }
    {
        tree::least_of(&self.nodes, block)
    }

    /// Sets the least moment of a block.
    ///
    /// A step is a node of the tree that is looked at: the block's own, and two of each level above
    /// it, up to the first that stays as it was.
    pub fn set<L: Ledger>(&mut self, block: usize, least: u64, steps: &mut Steps<L>)
        requires { block < length self.old }
        ensures set { self.new ≡ slice_set self.old block least }
        ensures steps { steps.new ≤ steps.old + 29 }
        ensures looked { steps.old < steps.new }
    {
        tree::set(&mut self.nodes, self.levels, block, least, steps);
    }

    /// Sets the least moment of a block, by a counter of steps that is dropped.
    fn set_blank<L: Ledger>(&mut self, block: usize, least: u64, blank: Blank)
        requires name { blank.name ≡ L.name }
        requires parts { blank.parts ≡ L.parts }
        requires some { 0 < L.parts }
        requires block { block < length self.old }
        ensures { self.new ≡ slice_set self.old block least }
    {
        let mut steps = Steps::<L>::begin(blank);
        self.set(block, least, &mut steps);
    }

    /// Sets the least moment of a block, for a caller that counts no steps.
    pub fn set_uncounted(&mut self, block: usize, least: u64)
        requires { block < length self.old }
        ensures { self.new ≡ slice_set self.old block least }
    {
        self.set_blank::<Brand>(block, least, Blank::new(1));
    }

    /// The first block from one on whose least moment is at most `m`.
    ///
    /// A step is a node of the tree that is looked at, and the call takes at most 27: one of each
    /// level on the way up to the first that has a block behind this one, and one of each down.
    pub fn first_from<L: Ledger>(&self, from: usize, m: u64, steps: &mut Steps<L>) -> Option<usize>
        ensures found { IfSome result (IsFirstIn self.now from m) }
        ensures within { IfSome result (λ block. block < length self.now) }
        ensures none { IfNone result ((block : ℕ) → from ≤ block → block < length self.now
            → m < kept_at self.now block) }
        ensures steps { steps.new ≤ steps.old + 27 }
        ensures counted { steps.old ≤ steps.new }
    {
        tree::first_from(&self.nodes, self.levels, from, m, steps)
    }

    /// The first of the blocks with the least moment of all, if that moment is at most `m`.
    ///
    /// A step is a node of the tree that is looked at. `None` takes one, and a block one more for
    /// each level.
    pub fn next<L: Ledger>(&self, m: u64, steps: &mut Steps<L>) -> Option<DueBlock>
        ensures next { IfSome result (λ due. IsNextIn self.now m due.block) }
        ensures least { IfSome result (λ due. due.least ≡ kept_at self.now due.block) }
        ensures within { IfSome result (λ due. due.block < length self.now) }
        ensures none { IfNone result (
            (block : ℕ) → block < length self.now → m < kept_at self.now block) }
        ensures root { IfNone result (steps.new ≡ steps.old + 1) }
        ensures way { IfSome result (λ _. (levels : ℕ) → length self.now ≡ 2 ^ levels
            → steps.new ≡ steps.old + 1 + levels) }
        ensures steps { steps.new ≤ steps.old + 15 }
    {
        tree::next(&self.nodes, self.levels, m, steps)
    }

    /// As `first_from`, by a counter of steps that is dropped.
    fn first_blank<L: Ledger>(&self, from: usize, m: u64, blank: Blank) -> Option<usize>
        requires name { blank.name ≡ L.name }
        requires parts { blank.parts ≡ L.parts }
        requires some { 0 < L.parts }
        ensures found { IfSome result (IsFirstIn self.now from m) }
        ensures within { IfSome result (λ block. block < length self.now) }
        ensures none { IfNone result ((block : ℕ) → from ≤ block → block < length self.now
            → m < kept_at self.now block) }
    {
        let mut steps = Steps::<L>::begin(blank);
        self.first_from(from, m, &mut steps)
    }

    /// As `first_from`, for a caller that counts no steps.
    pub fn first_uncounted(&self, from: usize, m: u64) -> Option<usize>
        ensures found { IfSome result (IsFirstIn self.now from m) }
        ensures within { IfSome result (λ block. block < length self.now) }
        ensures none { IfNone result ((block : ℕ) → from ≤ block → block < length self.now
            → m < kept_at self.now block) }
    {
        self.first_blank::<Brand>(from, m, Blank::new(1))
    }

    /// As `next`, by a counter of steps that is dropped.
    fn next_blank<L: Ledger>(&self, m: u64, blank: Blank) -> Option<DueBlock>
        requires name { blank.name ≡ L.name }
        requires parts { blank.parts ≡ L.parts }
        requires some { 0 < L.parts }
        ensures next { IfSome result (λ due. IsNextIn self.now m due.block) }
        ensures least { IfSome result (λ due. due.least ≡ kept_at self.now due.block) }
        ensures within { IfSome result (λ due. due.block < length self.now) }
        ensures none { IfNone result (
            (block : ℕ) → block < length self.now → m < kept_at self.now block) }
    {
        let mut steps = Steps::<L>::begin(blank);
        self.next(m, &mut steps)
    }

    /// As `next`, for a caller that counts no steps.
    pub fn next_uncounted(&self, m: u64) -> Option<DueBlock>
        ensures next { IfSome result (λ due. IsNextIn self.now m due.block) }
        ensures least { IfSome result (λ due. due.least ≡ kept_at self.now due.block) }
        ensures within { IfSome result (λ due. due.block < length self.now) }
        ensures none { IfNone result (
            (block : ℕ) → block < length self.now → m < kept_at self.now block) }
    {
        self.next_blank::<Brand>(m, Blank::new(1))
    }
}
