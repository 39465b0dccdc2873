//! A tree over the least moments of blocks. Each of its nodes keeps the least moment of the blocks
//! below it.
//!
//! The nodes lie in one list, level by level: the root at 1, the children of the node at `i` at
//! `2 * i` and `2 * i + 1`, and the nodes of blocks in its second half. Place 0 is not used.
//! `levels` is how many there are from the root down to the blocks.

ghost use Rattle.std.specs.Prelude.{◌≡◌, ◌⊎◌, ℕ, ◌+◌, ◌-◌, ◌*◌, ◌/◌, ◌%◌, ◌==◌, ◌<◌, ◌≤◌, if◌then◌else◌, length, vec_len, slice_set, IfOk, IfSome, IfNone};
ghost use Rattle.std.specs.Bool.{OnTrue, OnFalse};
ghost use Rattle.expiry_wheel.specs.Moments.{kept_at, IsFirstIn, IsNextIn};
ghost use Rattle.expiry_wheel.specs.Blocks.{row, leasts_in, AreNodes, IsInRow, IsFirstBelow};

use crate::{DueBlock, NEVER};
use std::alloc::{AllocError, Global};
use std::sync::ledger::Ledger;
use step_count::Steps;

/// Looks at a moment or at a node, which is a step. Nothing else that counts steps reads one.
pub fn look<L: Ledger>(cells: &[u64], i: usize, steps: &mut Steps<L>) -> u64
    requires { i < length cells.now }
    ensures value { result ≡ kept_at cells.now i }
    ensures step { steps.new ≡ steps.old + 1 }
{
    steps.tick();
    cells[i]
}

/// The moment of a block. It counts no step.
pub fn least_of(nodes: &[u64], block: usize) -> u64
    requires { length nodes.now / 2 + block < length nodes.now }
    ensures { result ≡ kept_at nodes.now (length nodes.now / 2 + block) }
{
    nodes[nodes.len() / 2 + block]
}

/// `count` moments or nodes, of which each is `NEVER`.
pub fn blank(alloc: Global, count: usize) -> Result<Vec<u64>, AllocError>
    ensures all { IfOk result (λ cells. vec_len cells ≡ count) }
    ensures never { IfOk result (λ cells. (i : ℕ) → kept_at cells.items i ≡ NEVER) }
{
    let cells = vec![in alloc; NEVER; count]?;
    Ok(cells)
}

/// Sets all to `NEVER`.
pub fn wipe(cells: &mut [u64])
    ensures len { length cells.new ≡ length cells.old }
    ensures never { (i : ℕ) → kept_at cells.new i ≡ NEVER }
{
    for i in 0..cells.len() {
        cells[i] = NEVER;
    }
}

/// Looks at the node beside the one at `i`, below the same parent.
fn look_beside<L: Ledger>(nodes: &[u64], i: usize, steps: &mut Steps<L>) -> u64
    requires inner { 1 < i }
    requires within { 2 * (i / 2) + 1 < length nodes.now }
    ensures value { result ≡ kept_at nodes.now (if i % 2 == 0 then i + 1 else i - 1) }
    ensures cost { steps.new ≡ steps.old + 1 }
{
    if i % 2 == 0 {
        look(nodes, i + 1, steps)
    } else {
        look(nodes, i - 1, steps)
    }
}

/// Writes the node of a block, and the nodes above it up to the first that stays as it was.
fn write<L: Ledger>(nodes: &mut [u64], levels: usize, leaf: usize, least: u64, steps: &mut Steps<L>)
    requires nodes { AreNodes levels nodes.old }
    requires leaf { row levels ≤ leaf }
    requires within { leaf < 2 * row levels }
    ensures nodes { AreNodes levels nodes.new }
    ensures own { kept_at nodes.new leaf ≡ least }
    ensures others { (i : ℕ) → row levels ≤ i → (i ≡ leaf → ⊥) →
        kept_at nodes.new i ≡ kept_at nodes.old i }
    ensures cost { steps.new ≤ steps.old + 1 + 2 * levels }
    ensures looked { steps.old < steps.new }
{
    if look(nodes, leaf, steps) == least {
        return;
    }
    nodes[leaf] = least;
    let mut i = leaf;
    let mut kept = least;
    for level in 0..levels {
        kept = kept.min(look_beside(nodes, i, steps));
        i /= 2;
        if look(nodes, i, steps) == kept {
            return;
        }
        nodes[i] = kept;
    }
}

/// Sets the moment of a block.
pub fn set<L: Ledger>(
    nodes: &mut [u64],
    levels: usize,
    block: usize,
    least: u64,
    steps: &mut Steps<L>,
)
    requires nodes { AreNodes levels nodes.old }
    requires block { block < row levels }
    ensures nodes { AreNodes levels nodes.new }
    ensures set { leasts_in levels nodes.new ≡ slice_set (leasts_in levels nodes.old) block least }
    ensures cost { steps.new ≤ steps.old + 1 + 2 * levels }
    ensures looked { steps.old < steps.new }
{
    let leaf = nodes.len() / 2 + block;
    write(nodes, levels, leaf, least, steps);
}

/// The first child of a node whose least moment is at most `m`, as the node's own is. It looks at
/// the left one.
fn first_child<L: Ledger>(nodes: &[u64], node: usize, m: u64, steps: &mut Steps<L>) -> usize
    requires { 2 * node < length nodes.now }
    ensures child { ((result ≡ 2 * node) × (kept_at nodes.now (2 * node) ≤ m))
        ⊎ ((result ≡ 2 * node + 1) × (m < kept_at nodes.now (2 * node))) }
    ensures cost { steps.new ≡ steps.old + 1 }
{
    if look(nodes, 2 * node, steps) <= m {
        2 * node
    } else {
        2 * node + 1
    }
}

/// The first block below a node whose least moment is at most `m`, as the node's own is. The node
/// is `depth` levels below the root.
fn first_block<L: Ledger>(
    nodes: &[u64],
    levels: usize,
    depth: usize,
    node: usize,
    m: u64,
    steps: &mut Steps<L>,
) -> usize
    requires nodes { AreNodes levels nodes.now }
    requires depth { depth ≤ levels }
    requires row { IsInRow depth node }
    requires due { kept_at nodes.now node ≤ m }
    ensures first { IsFirstBelow levels nodes.now m (levels - depth) node result }
    ensures cost { steps.new ≡ steps.old + (levels - depth) }
{
    let mut i = node;
    let mut left = levels - depth;
    while left > 0 {
        i = first_child(nodes, i, m, steps);
        left -= 1;
    }
    i
}

/// Whether a node is the left one of two, and the least moment of the right one is at most `m`.
fn is_right_due<L: Ledger>(nodes: &[u64], node: usize, m: u64, steps: &mut Steps<L>) -> bool
    requires { 2 * (node / 2) + 1 < length nodes.now }
    ensures left { OnTrue result (node % 2 ≡ 0) }
    ensures due { OnTrue result (kept_at nodes.now (node + 1) ≤ m) }
    ensures later { OnFalse result (node % 2 ≡ 0 → m < kept_at nodes.now (node + 1)) }
    ensures cost { steps.new ≤ steps.old + 1 }
    ensures counted { steps.old ≤ steps.new }
{
    if node % 2 == 1 {
        return false;
    }
    look(nodes, node + 1, steps) <= m
}

/// The first block after this one whose least moment is at most `m`.
fn next_block<L: Ledger>(
    nodes: &[u64],
    levels: usize,
    leaf: usize,
    m: u64,
    steps: &mut Steps<L>,
) -> Option<usize>
    requires nodes { AreNodes levels nodes.now }
    requires leaf { row levels ≤ leaf }
    requires within { leaf < 2 * row levels }
    ensures found { IfSome result (IsFirstIn nodes.now (leaf + 1) m) }
    ensures within { IfSome result (λ block. block < 2 * row levels) }
    ensures none { IfNone result ((block : ℕ) → leaf < block → block < 2 * row levels
        → m < kept_at nodes.now block) }
    ensures cost { steps.new ≤ steps.old + (2 * levels - 1) }
    ensures counted { steps.old ≤ steps.new }
{
    let mut node = leaf;
    for level in 0..levels {
        if is_right_due(nodes, node, m, steps) {
            return Some(first_block(nodes, levels, levels - level, node + 1, m, steps));
        }
        node /= 2;
    }
    None
}

/// The first of all blocks whose moment is at most `m`. Where there is none the root tells it.
fn first<L: Ledger>(nodes: &[u64], levels: usize, m: u64, steps: &mut Steps<L>) -> Option<usize>
    requires nodes { AreNodes levels nodes.now }
    ensures found { IfSome result (IsFirstIn (leasts_in levels nodes.now) 0 m) }
    ensures within { IfSome result (λ block. block < length (leasts_in levels nodes.now)) }
    ensures none { IfNone result ((block : ℕ) → block < length (leasts_in levels nodes.now)
        → m < kept_at (leasts_in levels nodes.now) block) }
    ensures cost { steps.new ≤ steps.old + 1 + levels }
    ensures counted { steps.old ≤ steps.new }
{
    if m < look(nodes, 1, steps) {
        return None;
    }
    let leaf = first_block(nodes, levels, 0, 1, m, steps);
    Some(leaf - nodes.len() / 2)
}

/// The first block from one on whose moment is at most `m`.
pub fn first_from<L: Ledger>(
    nodes: &[u64],
    levels: usize,
    from: usize,
    m: u64,
    steps: &mut Steps<L>,
) -> Option<usize>
    requires nodes { AreNodes levels nodes.now }
    ensures found { IfSome result (IsFirstIn (leasts_in levels nodes.now) from m) }
    ensures within { IfSome result (λ block. block < length (leasts_in levels nodes.now)) }
    ensures none { IfNone result ((block : ℕ) → from ≤ block
        → block < length (leasts_in levels nodes.now)
        → m < kept_at (leasts_in levels nodes.now) block) }
    ensures cost { steps.new ≤ steps.old + 27 }
    ensures counted { steps.old ≤ steps.new }
{
    if from == 0 {
        return first(nodes, levels, m, steps);
    }
    let blocks = nodes.len() / 2;
    if from > blocks {
        return None;
    }
    let Some(leaf) = next_block(nodes, levels, blocks + from - 1, m, steps) else {
        return None;
    };
    Some(leaf - blocks)
}

/// The first of the blocks with the least moment of all, if that one is at most `m`. Where there is
/// none the root tells it.
pub fn next<L: Ledger>(
    nodes: &[u64],
    levels: usize,
    m: u64,
    steps: &mut Steps<L>,
) -> Option<DueBlock>
    requires nodes { AreNodes levels nodes.now }
    ensures next { IfSome result (λ due. IsNextIn (leasts_in levels nodes.now) m due.block) }
    ensures least { IfSome result (λ due.
        due.least ≡ kept_at (leasts_in levels nodes.now) due.block) }
    ensures within { IfSome result (λ due. due.block < length (leasts_in levels nodes.now)) }
    ensures none { IfNone result ((block : ℕ) → block < length (leasts_in levels nodes.now)
        → m < kept_at (leasts_in levels nodes.now) block) }
    ensures root { IfNone result (steps.new ≡ steps.old + 1) }
    ensures way { IfSome result (λ _. steps.new ≡ steps.old + 1 + levels) }
    ensures cost { steps.new ≤ steps.old + 1 + levels }
{
    let least = look(nodes, 1, steps);
    if m < least {
        return None;
    }
    let leaf = first_block(nodes, levels, 0, 1, least, steps);
    let block = leaf - nodes.len() / 2;
    Some(DueBlock { block, least })
}
