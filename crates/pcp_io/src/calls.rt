//! The calls of an object in memory.
ghost use Rattle.std.specs.Prelude.{◌≡◌};
ghost use Rattle.pcp_io.specs.CallLogs.{one_more};

use pcp_base::{Failed, Memory};
use std::alloc::Global;
use std::marker::Model;

/// The calls that an object in memory counts: how many were made, which are to fail, and how many
/// did. Calls are numbered from 0, those that fail too. A count that stands at 2^64 - 1 stands still,
/// so all calls from that number on have it.
#[derive(Drop)]
pub struct Calls {
    made: u64,
    failing: Vec<u64>,
    stop: Option<u64>,
    faults: u64,
    starved: u64,
}

impl Model for Calls {
    ghost use Rattle.pcp_io.specs.CallLogs.{CallLog};

    ghost Value = { CallLog };

    ghost view = { λ c. record {
      made = c.made;
      failing = c.failing.items;
      stop = c.stop;
      faults = c.faults;
      starved = c.starved;
    } };
}

impl Calls {
    ghost use Rattle.std.specs.Prelude.{◌↔◌, IsTrue, OnOk, OnErr};
    ghost use Rattle.pcp_io.specs.CallLogs.{no_calls, IsNamed, with_call, with_failing, with_stop};

    /// No call was made, and none is to fail.
    pub fn new(alloc: Global) -> Calls
        ensures { result ≡ no_calls }
    {
        Calls {
            made: 0,
            failing: Vec::new(alloc),
            stop: None,
            faults: 0,
            starved: 0,
        }
    }

    /// The call of this number is to fail.
    pub fn fail_at(&mut self, call: u64) -> Result<(), Memory>
        ensures ok { OnOk result (self.new ≡ with_failing self.old call) }
        ensures err { OnErr result (self.new ≡ self.old) }
    {
        self.failing.push(call)?;
        Ok(())
    }

    /// The call of this number and all later ones are to fail.
    pub fn stop_at(&mut self, call: u64)
        ensures { self.new ≡ with_stop self.old call }
    {
        let stop = match self.stop {
            Some(stop) => stop.min(call),
            None => call,
        };
        self.stop = Some(stop);
    }

    /// Counts a call and says whether it is to fail.
    pub fn begin(&mut self) -> bool
        ensures named { IsTrue result ↔ IsNamed self.old }
        ensures counted { self.new ≡ with_call self.old }
    {
        let listed = self.failing.contains(&self.made);
        let stopped = match self.stop {
            Some(call) => call <= self.made,
            None => false,
        };
        self.made = self.made.saturating_add(1);
        listed || stopped
    }

    /// Counts a fault.
    pub fn fail(&mut self) -> Failed
        ensures { self.new ≡ record self.old { faults = one_more self.old.faults } }
    {
        self.faults = self.faults.saturating_add(1);
        Failed
    }

    /// Counts a fault for want of memory.
    pub fn starve(&mut self) -> Failed
        ensures { self.new ≡ record self.old {
          faults = one_more self.old.faults;
          starved = one_more self.old.starved;
        } }
    {
        self.starved = self.starved.saturating_add(1);
        self.fail()
    }

    /// How many calls found no memory.
    pub fn starved(&self) -> u64
        ensures { result ≡ self.now.starved }
    {
        self.starved
    }
}
