//! Chains of cells.
ghost use Rattle.std.specs.Prelude.{◌≡◌, ℕ, ◌+◌, ◌-◌, ◌<◌, ◌≤◌, [], length, IfOk, slice_index};
ghost use Rattle.lane_index.specs.declared.links.TheConstants.{CELLS};
ghost use Rattle.lane_index.specs.Links.{joined, skipped, relinked};

use crate::links::{CELLS, set_run, zeros};
use pcp_base::Memory;
use std::alloc::Global;
use std::marker::Model;

/// Chains of cells, each told from its last one back. A cell is told by its place and 1 more, none
/// by 0.
#[derive(Drop)]
pub(crate) struct Chains {
    /// For each chain its last cell.
    heads: Vec<u16>,
    /// For each cell the one before it in its chain.
    older: Vec<u16>,
}

impl Model for Chains {
    ghost use Rattle.std.specs.Prelude.{◌≤◌, vec_capacity};
    ghost use Rattle.lane_index.specs.declared.links.TheConstants.{CELLS};
    ghost use Rattle.lane_index.specs.Links.{ChainLists};

    ghost Value = { ChainLists };

    ghost view = { λ c. record { heads = c.heads.items; older = c.older.items } };

    ghost invariant = { λ c. CELLS ≤ vec_capacity c.older };
}

impl Chains {
    /// So many chains without a cell.
    pub(crate) fn new(alloc: Global, count: usize) -> Result<Chains, Memory>
        ensures older { IfOk result (λ c. c.older ≡ []) }
        ensures wide { IfOk result (λ c. length c.heads ≡ count) }
        ensures heads { IfOk result (λ c. (k : ℕ) → slice_index c.heads k ≡ 0) }
    {
        Ok(Chains {
            heads: zeros(alloc, count)?,
            older: Vec::with_capacity(alloc, CELLS)?,
        })
    }

    /// Forgets all cells.
    pub(crate) fn clear(&mut self)
        ensures older { self.new.older ≡ [] }
        ensures wide { length self.new.heads ≡ length self.old.heads }
        ensures heads { (k : ℕ) → slice_index self.new.heads k ≡ 0 }
    {
        self.older.clear();
        zero_all(self.heads.as_mut_slice());
    }

    /// How many cells there are, those of no chain too.
    pub(crate) fn len(&self) -> usize
        ensures { result ≡ length self.now.older }
    {
        self.older.len()
    }

    /// The last cell of a chain.
    pub(crate) fn last(&self, head: usize) -> u16
        requires { head < length self.now.heads }
        ensures { result ≡ slice_index self.now.heads head }
    {
        self.heads[head]
    }

    /// The cell before the one that is told.
    pub(crate) fn before(&self, number: u16) -> u16
        requires some { 0 < number }
        requires inside { number ≤ length self.now.older }
        ensures { result ≡ slice_index self.now.older (number - 1) }
    {
        self.older[usize::from(number) - 1]
    }

    /// One more cell, at the end of a chain.
    pub(crate) fn join(&mut self, head: usize)
        requires room { length self.old.older < CELLS }
        requires inside { head < length self.old.heads }
        ensures { self.new ≡ joined head self.old }
    {
        let number = self.older.len() + 1;
        let last = self.heads[head];
        self.older.push_reserved(last);
        self.heads[head] = number as u16;
    }

    /// One more cell, in no chain.
    pub(crate) fn skip(&mut self)
        requires { length self.old.older < CELLS }
        ensures { self.new ≡ skipped self.old }
    {
        self.older.push_reserved(0);
    }

    /// The one before the cell `newer` becomes `to`; where that is 0, the last one of the chain.
    pub(crate) fn relink(&mut self, head: usize, newer: u16, to: u16)
        requires inside { head < length self.old.heads }
        requires newer { newer ≤ length self.old.older }
        ensures { self.new ≡ relinked head newer to self.old }
    {
        if newer == 0 {
            self.heads[head] = to;
        } else {
            self.older[usize::from(newer) - 1] = to;
        }
    }
}

fn zero_all(slots: &mut [u16])
    ensures long { length slots.new ≡ length slots.old }
    ensures zero { (k : ℕ) → slice_index slots.new k ≡ 0 }
{
    set_run(slots, 0, slots.len(), 0);
}
