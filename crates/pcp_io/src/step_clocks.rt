//! A clock in memory.
ghost use Rattle.std.specs.Prelude.{◌≡◌, ◌<◌, All};
ghost use Rattle.pcp_io.specs.declared.clocks.TheConstants.{END_OF_TIME_MS};
ghost use Rattle.pcp_io.specs.Times.{last_time};

use crate::clocks::Clock;
use pcp_base::Memory;
use std::alloc::Global;
use std::marker::Model;

/// A clock that gives the times of a list, and then repeats the last one, 0 where there is none.
#[derive(Drop)]
pub struct StepClock {
    times: Vec<u64>,
    // how many were given
    at: usize,
    last: u64,
}

impl Model for StepClock {
    ghost use Rattle.std.specs.Prelude.{◌<◌, ◌≤◌, All, drop, vec_len};
    ghost use Rattle.pcp_io.specs.declared.clocks.TheConstants.{END_OF_TIME_MS};
    ghost use Rattle.pcp_io.specs.Times.{Times};

    ghost Value = { Times };

    ghost view = { λ s. record { coming = drop s.at s.times.items; rest = s.last } };

    ghost invariant = { λ s. (s.at ≤ vec_len s.times) × (s.last < END_OF_TIME_MS)
        × All (λ t. t < END_OF_TIME_MS) s.times.items };
}

impl StepClock {
    ghost use Rattle.std.specs.Prelude.{◌≡◌, ◌<◌, All, IfOk};
    ghost use Rattle.pcp_io.specs.declared.clocks.TheConstants.{END_OF_TIME_MS};
    ghost use Rattle.pcp_io.specs.Times.{stepping};

    /// A clock that gives these times, in milliseconds.
    pub fn new(_alloc: Global, times: Vec<u64>) -> Result<StepClock, Memory>
        requires { All (λ t. t < END_OF_TIME_MS) times.items }
        ensures { IfOk result (λ clock. clock ≡ stepping times.items) }
    {
        let last = last_of(&times);
        Ok(StepClock { times, at: 0, last })
    }
}

/// The last of these times; 0 where there is none.
fn last_of(times: &[u64]) -> u64
    requires { All (λ t. t < END_OF_TIME_MS) times.now }
    ensures last { result ≡ last_time times.now }
    ensures range { result < END_OF_TIME_MS }
{
    match times.last() {
        Some(time) => *time,
        None => 0,
    }
}

impl Clock for StepClock {
    ghost use Rattle.std.specs.Prelude.{◌≡◌, ◌<◌, ◌≤◌, Some};
    ghost use Rattle.pcp_io.specs.declared.clocks.TheConstants.{END_OF_TIME_MS};
    ghost use Rattle.pcp_io.specs.Times.{NeverFalls, time_now, times_later};

    ghost times = { λ s. Some s };

    fn now(&mut self) -> u64
        ensures range { result < END_OF_TIME_MS }
        ensures time { result ≡ time_now self.old }
        ensures later { self.new ≡ times_later self.old }
        ensures never_falls { NeverFalls self.old →
            (result ≤ time_now self.new) × NeverFalls self.new }
    {
        if self.at == self.times.len() {
            return self.last;
        }
        let time = self.times[self.at];
        self.at += 1;
        time
    }
}
