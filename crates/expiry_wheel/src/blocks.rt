//! Blocks of ids: the least moment of each of them.

ghost use Rattle.std.specs.Prelude.{◌≡◌, ℕ, ◌+◌, ◌-◌, ◌*◌, ◌<◌, ◌≤◌, length, slice_set, IfSome, IfNone};
ghost use Rattle.expiry_wheel.specs.Moments.{kept_at, IsFirstIn, IsNextIn};
ghost use Rattle.expiry_wheel.specs.Blocks.{least_at, IsWheel};

use crate::tree::look;
use crate::{IDS, Leasts, NEVER};
use std::sync::ledger::Ledger;
use step_count::Steps;

/// How many ids a block has.
pub const BLOCK: usize = 8;

/// How many blocks there are.
pub const BLOCKS: usize = 16_384;

/// The least of the moments of a block, each of which is looked at.
fn least_of<L: Ledger>(moments: &[u64], block: usize, steps: &mut Steps<L>) -> u64
    requires ids { length moments.now ≡ IDS }
    requires block { block < BLOCKS }
    ensures least { result ≡ least_at (kept_at moments.now) (8 * block) 8 }
    ensures cost { steps.new ≡ steps.old + 8 }
{
    let mut least = NEVER;
    for i in 0..BLOCK {
        least = least.min(look(moments, BLOCK * block + i, steps));
    }
    least
}

/// Sets the moment of an id.
pub fn set<L: Ledger>(
    moments: &mut Vec<u64>,
    leasts: &mut Leasts,
    id: usize,
    moment: u64,
    steps: &mut Steps<L>,
)
    requires id { id < IDS }
    requires wheel { IsWheel moments.old.items leasts.old }
    ensures moments { moments.new.items ≡ slice_set moments.old.items id moment }
    ensures wheel { IsWheel moments.new.items leasts.new }
    ensures cost { steps.new ≤ steps.old + 37 }
    ensures looked { steps.old < steps.new }
{
    moments[id] = moment;
    let least = least_of(moments, id / BLOCK, steps);
    leasts.set(id / BLOCK, least, steps);
}

/// The first id from `from` up to `to`, which isn't among them, whose moment is at most `m`.
fn first_in<L: Ledger>(
    moments: &[u64],
    from: usize,
    to: usize,
    m: u64,
    steps: &mut Steps<L>,
) -> Option<usize>
    requires ordered { from ≤ to }
    requires within { to ≤ length moments.now }
    ensures found { IfSome result (IsFirstIn moments.now from m) }
    ensures below { IfSome result (λ id. id < to) }
    ensures none { IfNone result ((id : ℕ) → from ≤ id → id < to → m < kept_at moments.now id) }
    ensures cost { steps.new ≤ steps.old + (to - from) }
    ensures looked { from < to → steps.old < steps.new }
{
    for id in from..to {
        if look(moments, id, steps) <= m {
            return Some(id);
        }
    }
    None
}

/// The first id of a block whose moment is at most `m`.
fn first_of<L: Ledger>(moments: &[u64], block: usize, m: u64, steps: &mut Steps<L>) -> Option<usize>
    requires ids { length moments.now ≡ IDS }
    requires block { block < BLOCKS }
    ensures found { IfSome result (IsFirstIn moments.now (8 * block) m) }
    ensures below { IfSome result (λ id. id < 8 * block + 8) }
    ensures none { IfNone result (
        (id : ℕ) → 8 * block ≤ id → id < 8 * block + 8 → m < kept_at moments.now id) }
    ensures cost { steps.new ≤ steps.old + 8 }
    ensures looked { steps.old < steps.new }
{
    let first = BLOCK * block;
    first_in(moments, first, first + BLOCK, m, steps)
}

/// The least id whose moment is the least of all, if that one is at most `m`.
///
/// Where there is none the root of the tree tells it. Else it looks at a node of each level, and at
/// moments of one block.
pub fn next<L: Ledger>(
    moments: &[u64],
    leasts: &Leasts,
    m: u64,
    steps: &mut Steps<L>,
) -> Option<usize>
    requires wheel { IsWheel moments.now leasts.now }
    requires sometime { m < NEVER }
    ensures next { IfSome result (IsNextIn moments.now m) }
    ensures within { IfSome result (λ id. id < IDS) }
    ensures none { IfNone result ((id : ℕ) → id < IDS → m < kept_at moments.now id) }
    ensures root { IfNone result (steps.new ≡ steps.old + 1) }
    ensures looked { IfSome result (λ _. steps.old + 16 ≤ steps.new) }
    ensures cost { steps.new ≤ steps.old + 23 }
{
    let Some(due) = leasts.next(m, steps) else {
        return None;
    };
    first_of(moments, due.block, due.least, steps)
}

/// The first id from `from` on whose moment is at most `m`.
///
/// It looks at moments of the id's own block, at nodes on the way to the next that has one, and at
/// moments of that block.
pub fn first_from<L: Ledger>(
    moments: &[u64],
    leasts: &Leasts,
    from: usize,
    m: u64,
    steps: &mut Steps<L>,
) -> Option<usize>
    requires wheel { IsWheel moments.now leasts.now }
    requires from { from < IDS }
    requires sometime { m < NEVER }
    ensures found { IfSome result (IsFirstIn moments.now from m) }
    ensures within { IfSome result (λ id. id < IDS) }
    ensures none { IfNone result (
        (id : ℕ) → from ≤ id → id < IDS → m < kept_at moments.now id) }
    ensures cost { steps.new ≤ steps.old + 43 }
    ensures looked { steps.old < steps.new }
{
    let block = from / BLOCK;
    let found = first_in(moments, from, BLOCK * block + BLOCK, m, steps);
    if found.is_some() {
        return found;
    }
    let Some(later) = leasts.first_from(block + 1, m, steps) else {
        return None;
    };
    first_of(moments, later, m, steps)
}
