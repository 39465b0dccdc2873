//! A link of a lane in memory.
use crate::calls::Calls;
use crate::lane_links::{LaneAsk, LaneLink};
use pcp_base::{Endpoint, Failed, Memory};
use std::alloc::Global;
use std::marker::Model;

/// A link that asks what a list says, then stops, and keeps the answers. A call fails and does nothing
/// where `fail_at` named it, and an answer where no memory was found; each of these is counted, and
/// nothing else is.
#[derive(Drop)]
pub struct MemoryLane {
    asks: Vec<LaneAsk>,
    // how many were asked
    at: usize,
    answers: Vec<Option<Endpoint>>,
    calls: Calls,
}

impl Model for MemoryLane {
    ghost use Rattle.std.specs.Prelude.{◌≤◌, drop, vec_len};
    ghost use Rattle.pcp_io.specs.InMemory.{LaneInMemory};

    ghost Value = { LaneInMemory };

    ghost view = { λ s. record {
      asks = drop s.at s.asks.items;
      answers = s.answers.items;
      calls = s.calls;
    } };

    ghost invariant = { λ s. s.at ≤ vec_len s.asks };
}

impl MemoryLane {
    ghost use Rattle.std.specs.Prelude.{◌≡◌, OnOk, OnErr, IfOk};
    ghost use Rattle.pcp_io.specs.CallLogs.{with_failing};
    ghost use Rattle.pcp_io.specs.InMemory.{new_lane};

    /// A link that asks this, no call of which is named to fail.
    pub fn new(alloc: Global, asks: Vec<LaneAsk>) -> Result<MemoryLane, Memory>
        ensures { IfOk result (λ lane. lane ≡ new_lane asks.items) }
    {
        Ok(MemoryLane {
            asks,
            at: 0,
            answers: Vec::new(alloc),
            calls: Calls::new(alloc),
        })
    }

    /// Names a call that is to fail. Asks and answers are numbered together from 0, those that fail
    /// too; all from number 2^64 - 1 on have that number.
    pub fn fail_at(&mut self, _alloc: Global, call: u64) -> Result<(), Memory>
        ensures ok { OnOk result (self.new
            ≡ record self.old { calls = with_failing self.old.calls call }) }
        ensures err { OnErr result (self.new ≡ self.old) }
    {
        self.calls.fail_at(call)
    }

    /// The answers that it took, in order.
    pub fn answers(&self) -> &[Option<Endpoint>]
        ensures { result.now ≡ self.now.answers }
    {
        &self.answers
    }

    /// How many calls found no memory.
    pub fn starved(&self) -> u64
        ensures { result ≡ self.now.calls.starved }
    {
        self.calls.starved()
    }
}

impl LaneLink for MemoryLane {
    ghost use Rattle.std.specs.Prelude.{◌≡◌, ◌↔◌, ◌⊎◌, Some, IsErr, IfOk, OnOk, OnErr};
    ghost use Rattle.pcp_io.specs.Asks.{answers_with, IsNextAsk};
    ghost use Rattle.pcp_io.specs.CallLogs.{IsNamed, with_call, with_fault, with_starved};
    ghost use Rattle.pcp_io.specs.Faults.{HasCause};

    ghost asks = { λ s. Some s.asks };

    ghost answers = { λ s. Some s.answers };

    ghost faults = { λ s. s.calls.faults };

    fn ask(&mut self, _over: bool) -> Result<LaneAsk, Failed>
        ensures asks { IfOk result (IsNextAsk (Some self.old.asks) (Some self.new.asks)) }
        ensures unchanged { OnErr result (self.new.asks ≡ self.old.asks) }
        ensures answers { self.new.answers ≡ self.old.answers }
        ensures cause { HasCause self.old.calls.faults self.new.calls.faults result }

        // It fails where the call is named, and nowhere else.
        ensures fails { IsErr result ↔ IsNamed self.old.calls }
        ensures call { OnOk result (self.new.calls ≡ with_call self.old.calls) }
        ensures fault { OnErr result (self.new.calls ≡ with_fault self.old.calls) }
    {
        if self.calls.begin() {
            return Err(self.calls.fail());
        }
        if self.at == self.asks.len() {
            return Ok(LaneAsk::Stop);
        }
        let ask = self.asks[self.at];
        self.at += 1;
        Ok(ask)
    }

    fn answer(&mut self, owner: Option<Endpoint>) -> Result<(), Failed>
        ensures answers { OnOk result
            (Some self.new.answers ≡ answers_with (Some self.old.answers) owner) }
        ensures unchanged { OnErr result (self.new.answers ≡ self.old.answers) }
        ensures asks { self.new.asks ≡ self.old.asks }
        ensures cause { HasCause self.old.calls.faults self.new.calls.faults result }

        // It fails where the call is named, and else only for want of memory.
        ensures refused { IsNamed self.old.calls → IsErr result }
        ensures fault { IsNamed self.old.calls → self.new.calls ≡ with_fault self.old.calls }
        ensures starved { OnErr result
            (IsNamed self.old.calls ⊎ (self.new.calls ≡ with_starved self.old.calls)) }
        ensures call { OnOk result (self.new.calls ≡ with_call self.old.calls) }
    {
        if self.calls.begin() {
            return Err(self.calls.fail());
        }
        match self.answers.push(owner) {
            Ok(()) => Ok(()),
            Err(_) => Err(self.calls.starve()),
        }
    }
}
