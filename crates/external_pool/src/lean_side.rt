//! The ports of one protocol, of which the vacant ones alone are kept. What each is used for,
//! contracts alone know.

ghost use Rattle.std.specs.Prelude.{◌≡◌, ◌+◌, ◌≤◌, length, false, IfOk};
ghost use Rattle.external_pool.specs.PortUses as the;
ghost use Rattle.external_pool.specs.Choosing.{IsLongest};

use crate::asks::Picked;
use crate::uses::{Use, is_free_use};
use crate::vacant::{longest, settle_in_range};
use ghost_notes::{GhostList, Naming};
use pcp_base::Memory;
use port_runs::Runs;
use std::alloc::{AllocError, Global};
use std::marker::{Brand, Model};
use std::sync::ledger::Ledger;
use step_count::Steps;

/// The ports of one protocol: a tree of the range's vacant ones.
///
/// It is seen as a [`Side`](crate::side::Side) is, by a list of uses that contracts alone see.
#[derive(Drop)]
pub struct LeanSide {
    low: u16,
    high: u16,
    runs: Runs,
    each: GhostList<Use>,
}

impl Model for LeanSide {
    ghost use Rattle.external_pool.specs.PortUses.{PortUses};
    ghost use Rattle.external_pool.specs.Kept.{IsKept};

    ghost Value = { PortUses };

    ghost view = { λ a. record { low = a.low; high = a.high; each = a.each } };

    ghost invariant = { λ a. IsKept a.low a.high a.runs a.each };
}

/// Notes that nobody uses any port.
fn note_none_as<B: Naming<Use>>(each: &mut GhostList<Use>)
    requires { B.items ≡ the.all_free 65536 }
    ensures { each.new ≡ the.all_free 65536 }
{
    each.set::<B>(65536);
}

/// Notes of which uses the first is this one, of the `n` ports from `start` on.
fn note_as<B: Naming<Use>>(each: &mut GhostList<Use>, start: u16, n: u32, value: Use)
    requires items { B.items ≡ the.with_run start n value each.old }
    requires within { start + n ≤ length each.old }
    ensures { each.new ≡ the.with_run start n value each.old }
{
    let count = each.len();
    each.set::<B>(count);
}

/// The note that nobody uses any port.
fn none_noted(alloc: Global) -> Result<GhostList<Use>, AllocError>
    ensures { IfOk result (λ each. each ≡ the.all_free 65536) }
{
    let mut each = GhostList::<Use>::none(alloc)?;
    note_none_as::<Brand>(&mut each);
    Ok(each)
}

impl LeanSide {
    /// A range of which no port is used. The one error is want of memory.
    pub fn new(alloc: Global, low: u16, high: u16) -> Result<LeanSide, Memory>
        requires some { 1 ≤ low }
        requires ordered { low ≤ high }
        ensures { IfOk result (λ side. side ≡ the.uses_over low high (the.all_free 65536)) }
    {
        Ok(LeanSide {
            low,
            high,
            runs: Runs::new(alloc, low, high)?,
            each: none_noted(alloc)?,
        })
    }

    /// Gives the `n` ports from `start` on the uses of which this is the first.
    pub fn mark(&mut self, start: u16, n: u32, value: Use)
        requires { start + n ≤ 65536 }
        ensures { self.new ≡ the.with_uses start n value self.old }
    {
        note_as::<Brand>(&mut self.each, start, n, value);
        settle_in_range(
            &mut self.runs,
            self.low,
            self.high,
            start,
            n,
            is_free_use(value),
        );
    }

    /// Gives ports that are used other uses, as [`LeanSide::mark`] does. The tree doesn't change.
    pub fn note(&mut self, start: u16, n: u32, value: Use)
        requires within { start + n ≤ 65536 }
        requires used { the.AreUsed self.old.each start n }
        requires stays { the.is_free_use value ≡ false }
        ensures { self.new ≡ the.with_uses start n value self.old }
    {
        note_as::<Brand>(&mut self.each, start, n, value);
    }

    /// No port is used from now on. It takes no memory.
    pub fn clear(&mut self)
        ensures { self.new ≡ the.uses_over self.old.low self.old.high (the.all_free 65536) }
    {
        let count = self.each.len();
        self.mark(0, count, Use::Free);
    }

    /// The longest run of vacant ports whose first meets the parity asked, of at most `room`, and
    /// of these runs the one with the least start.
    pub fn longest<L: Ledger>(
        &self,
        room: u32,
        parity: Option<u8>,
        steps: &mut Steps<L>,
    ) -> Option<Picked>
        ensures longest { IsLongest self.now parity room result }
        ensures steps { steps.new ≤ steps.old + 69 }
    {
        longest(&self.runs, room, parity, steps)
    }
}
