//! The ports of one protocol: what each is used for, and which of the range are vacant.

ghost use Rattle.std.specs.Prelude.{◌≡◌, ◌+◌, ◌≤◌, ◌↔◌, IsTrue, IfOk};
ghost use Rattle.external_pool.specs.PortUses as the;
ghost use Rattle.external_pool.specs.Choosing.{GoesBack, IsLongest, IsPick};

use crate::asks::Picked;
use crate::uses::{PORTS, Use, cleared, is_free_to, is_free_use, paint};
use crate::vacant::{is_in_range, longest, meets, settle_in_range};
use pcp_base::{Address, Memory};
use port_runs::Runs;
use std::alloc::Global;
use std::marker::Model;
use std::sync::ledger::Ledger;
use step_count::Steps;

/// The ports of one protocol: a use for each number of 16 bits, and a tree of the range's vacant ones.
#[derive(Drop)]
pub struct Side {
    low: u16,
    high: u16,
    runs: Runs,
    each: Vec<Use>,
}

impl Model for Side {
    ghost use Rattle.external_pool.specs.PortUses.{PortUses};
    ghost use Rattle.external_pool.specs.Kept.{IsKept};

    ghost Value = { PortUses };

    ghost view = { λ a. record { low = a.low; high = a.high; each = a.each.items } };

    ghost invariant = { λ a. IsKept a.low a.high a.runs a.each.items };
}

impl Side {
    /// A range of which no port is used. The one error is want of memory.
    pub fn new(alloc: Global, low: u16, high: u16) -> Result<Side, Memory>
        requires some { 1 ≤ low }
        requires ordered { low ≤ high }
        ensures { IfOk result (λ side. side ≡ the.uses_over low high (the.all_free 65536)) }
    {
        Ok(Side {
            low,
            high,
            runs: Runs::new(alloc, low, high)?,
            each: cleared(alloc, PORTS)?,
        })
    }

    /// Gives the `n` ports from `start` on the uses of which this is the first.
    pub fn mark(&mut self, start: u16, n: u32, value: Use)
        requires within { start + n ≤ 65536 }
        requires fits { the.internal_of value + n ≤ 65536 }
        ensures { self.new ≡ the.with_uses start n value self.old }
    {
        paint(&mut self.each, start as usize, n as usize, value);
        settle_in_range(
            &mut self.runs,
            self.low,
            self.high,
            start,
            n,
            is_free_use(value),
        );
    }

    /// No port is used from now on. It takes no memory.
    pub fn clear(&mut self)
        ensures { self.new ≡ the.uses_over self.old.low self.old.high (the.all_free 65536) }
    {
        let count = self.each.len() as u32;
        self.mark(0, count, Use::Free);
    }

    /// What a port is used for.
    pub fn use_at(&self, port: u16) -> Use
        ensures { result ≡ the.use_at self.now.each port }
    {
        self.each[port as usize]
    }

    /// Whether a port is open to an endpoint.
    fn is_open(&self, who: &Address, internal: u64, port: u64) -> bool
        ensures { result ≡ the.is_open self.now who.now internal port }
    {
        if !is_in_range(self.low, self.high, port) {
            return false;
        }
        is_free_to(self.each[port as usize], who, internal)
    }

    /// Whether each of the `n` ports from `start` on is open to the endpoint that it would be given
    /// to, and the parity asked is met. It is one step for each port that is looked at.
    fn goes_back<L: Ledger>(
        &self,
        who: &Address,
        internal: u16,
        start: u16,
        n: u32,
        parity: Option<u8>,
        steps: &mut Steps<L>,
    ) -> bool
        ensures back { IsTrue result ↔ GoesBack self.now who.now internal parity start n }
        ensures steps { steps.new ≤ steps.old + n }
    {
        if !meets(start, parity) {
            return false;
        }
        for i in 0..n {
            steps.tick();
            if !self.is_open(
                who,
                u64::from(internal) + u64::from(i),
                u64::from(start) + u64::from(i),
            ) {
                return false;
            }
        }
        true
    }

    /// The longest run of vacant ports, of at most `room`, and of these the one with the least
    /// start.
    fn longest<L: Ledger>(
        &self,
        room: u32,
        parity: Option<u8>,
        steps: &mut Steps<L>,
    ) -> Option<Picked>
        ensures longest { IsLongest self.now parity room result }
        ensures steps { steps.new ≤ steps.old + 69 }
    {
        longest(&self.runs, room, parity, steps)
    }

    /// The ports to pick: those suggested, where each can go back to its endpoint, and else the
    /// longest run.
    pub fn pick<L: Ledger>(
        &self,
        who: &Address,
        internal: u16,
        suggested: u16,
        room: u32,
        parity: Option<u8>,
        steps: &mut Steps<L>,
    ) -> Option<Picked>
        ensures pick { IsPick self.now who.now internal suggested parity room result }
        ensures steps { steps.new ≤ steps.old + 69 + room }
    {
        if suggested != 0 {
            if self.goes_back(who, internal, suggested, room, parity, steps) {
                return Some(Picked {
                    start: suggested,
                    count: room,
                });
            }
        }
        self.longest(room, parity, steps)
    }
}
