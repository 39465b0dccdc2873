//! The clock of the system. It tells nothing of the times that it will give.
ghost use Rattle.std.specs.Prelude.{◌≡◌, ◌<◌, IfSome};
ghost use Rattle.pcp_io.specs.declared.clocks.TheConstants.{END_OF_TIME_MS};

use crate::clocks::{Clock, END_OF_TIME_MS};
use std::marker::Model;
use std::time;
use std::time::{SystemTime, UNIX_EPOCH};

/// The wall clock of the system, in milliseconds since 1970. Where the system's clock fails, or tells a
/// time before 1970, it tells the last time that it told, 0 before the first; a time past its end
/// it tells as the last one before `END_OF_TIME_MS`.
#[derive(Drop)]
pub struct SystemClock<C: time::Clock + Drop> {
    clock: C,
    last: u64,
}

impl<C: time::Clock + Drop> Model for SystemClock<C> {
    ghost use Rattle.std.specs.Prelude.{ℕ, ◌<◌};
    ghost use Rattle.pcp_io.specs.declared.clocks.TheConstants.{END_OF_TIME_MS};

    // The last time that it told, 0 before the first.
    ghost Value = { ℕ };

    ghost view = { λ c. c.last };

    ghost invariant = { λ c. c.last < END_OF_TIME_MS };
}

impl<C: time::Clock + Drop> SystemClock<C> {
    /// A clock over that of the system, which has told no time.
    pub fn of(clock: C) -> SystemClock<C>
        ensures { result ≡ 0 }
    {
        SystemClock { clock, last: 0 }
    }
}

/// The milliseconds since 1970, where the system's clock tells them.
fn milliseconds<C: time::Clock>(clock: &C) -> Option<u64>
    ensures { IfSome result (λ time. time < END_OF_TIME_MS) }
{
    let now = SystemTime::now(clock).ok()?;
    let since = now.duration_since(UNIX_EPOCH).ok()?;
    let told = since.as_millis();
    if told < END_OF_TIME_MS as u128 {
        Some(told as u64)
    } else {
        Some(END_OF_TIME_MS - 1)
    }
}

/// The time that is told where this was told last.
fn time_after<C: time::Clock>(clock: &C, last: u64) -> u64
    requires { last < END_OF_TIME_MS }
    ensures { result < END_OF_TIME_MS }
{
    match milliseconds(clock) {
        Some(time) => time,
        None => last,
    }
}

impl<C: time::Clock + Drop> Clock for SystemClock<C> {
    ghost use Rattle.std.specs.Prelude.{◌≡◌, ◌<◌, None};
    ghost use Rattle.pcp_io.specs.declared.clocks.TheConstants.{END_OF_TIME_MS};

    ghost times = { λ _. None };

    fn now(&mut self) -> u64
        ensures range { result < END_OF_TIME_MS }
        ensures last { self.new ≡ result }
    {
        let time = time_after(&self.clock, self.last);
        self.last = time;
        time
    }
}
