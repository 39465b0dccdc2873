//! A clock of the program that no step of the system's time moves.
ghost use Rattle.std.specs.Prelude.{◌≡◌, ◌<◌, ◌≤◌, IfSome};
ghost use Rattle.pcp_io.specs.declared.clocks.TheConstants.{END_OF_TIME_MS};

use crate::clocks::{Clock, END_OF_TIME_MS};
use libc::clock_gettime;
use libc::types::timespec;
use std::marker::Model;

/// Linux's clock of the time since the host started, the time in which it was suspended among it. Nobody
/// can set it.
const BOOT_CLOCK: i32 = 7;

/// A clock that goes on from a start by the time since the host started, in milliseconds. It never falls,
/// and counts suspends. Where the system's clock fails it tells the last time that it told, its start
/// before the first; a time past its end it tells as the last one before `END_OF_TIME_MS`.
#[derive(Drop)]
pub struct SteadyClock {
    start: u64,
    // the time since the host started, when this clock did
    begun: u64,
    last: u64,
}

impl Model for SteadyClock {
    ghost use Rattle.std.specs.Prelude.{ℕ, ◌<◌};
    ghost use Rattle.pcp_io.specs.declared.clocks.TheConstants.{END_OF_TIME_MS};

    // The last time that it told, its start before the first.
    ghost Value = { ℕ };

    ghost view = { λ c. c.last };

    ghost invariant = { λ c. c.last < END_OF_TIME_MS };
}

impl SteadyClock {
    ghost use Rattle.std.specs.Prelude.{◌≡◌, ◌<◌};
    ghost use Rattle.pcp_io.specs.declared.clocks.TheConstants.{END_OF_TIME_MS};

    /// A clock that tells this time now, in milliseconds below `END_OF_TIME_MS`.
    pub fn starting_at(start: u64) -> SteadyClock
        requires { start < END_OF_TIME_MS }
        ensures { result ≡ start }
    {
        SteadyClock {
            start,
            begun: since_boot().unwrap_or(0),
            last: start,
        }
    }

    /// Another clock of the same start, which has told the same.
    pub fn same(&self) -> SteadyClock
        ensures { result ≡ self.now }
    {
        SteadyClock {
            start: self.start,
            begun: self.begun,
            last: self.last,
        }
    }

    /// The time by the system's clock, not below the one told last.
    fn read(&self) -> u64
        ensures range { result < END_OF_TIME_MS }
        ensures later { self.now ≤ result }
    {
        let Some(since) = since_boot() else {
            return self.last;
        };
        let time = self.start.saturating_add(since.saturating_sub(self.begun));
        time.min(END_OF_TIME_MS - 1).max(self.last)
    }
}

/// The milliseconds since the host started; none where the system's clock fails.
fn since_boot() -> Option<u64> {
    let mut time = timespec {
        tv_sec: 0,
        tv_nsec: 0,
    };
    if clock_gettime(BOOT_CLOCK, &mut time) != 0 {
        return None;
    }
    let Ok(seconds) = u64::try_from(time.tv_sec) else {
        return None;
    };
    let Ok(nanoseconds) = u64::try_from(time.tv_nsec) else {
        return None;
    };
    Some(
        seconds
            .saturating_mul(1000)
            .saturating_add(nanoseconds / 1_000_000),
    )
}

impl Clock for SteadyClock {
    ghost use Rattle.std.specs.Prelude.{◌≡◌, ◌<◌, ◌≤◌, None};
    ghost use Rattle.pcp_io.specs.declared.clocks.TheConstants.{END_OF_TIME_MS};

    ghost times = { λ _. None };

    fn now(&mut self) -> u64
        ensures range { result < END_OF_TIME_MS }
        ensures never_falls { self.old ≤ result }
        ensures last { self.new ≡ result }
    {
        let time = self.read();
        self.last = time;
        time
    }
}
