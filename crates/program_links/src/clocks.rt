//! The clocks of the program's commands, which no step of the system's time moves.
ghost use Rattle.std.specs.Prelude.{◌≡◌, ◌*◌, ◌<◌, All, IfOk, length, max};
ghost use Rattle.pcp_io.specs.declared.clocks.TheConstants.{END_OF_TIME_MS};
ghost use Rattle.program_links.specs.Clocks.{gap_of};

use pcp_base::{Memory, Moment};
use pcp_io::{Clock, END_OF_TIME_MS, SteadyClock, SystemClock};
use std::alloc::Global;

/// How far the system's time may be behind the last moment of a server's journals before people are told.
pub const MOST_BEHIND_S: u64 = 86_400;

/// How far it may be ahead: ten years of 365 days.
pub const MOST_AHEAD_S: u64 = 315_360_000;

/// The time of the system, in milliseconds since 1970.
pub fn system_time(rt: &HostRuntime) -> u64
    ensures { result < END_OF_TIME_MS }
{
    SystemClock::of(rt).now()
}

/// A clock that goes on from the time of the system.
pub fn clock_from_now(rt: &HostRuntime) -> SteadyClock {
    SteadyClock::starting_at(system_time(rt))
}

/// When a server's clock starts, in milliseconds: at the time of the system, or at the last moment of its
/// journals where that is later.
pub fn start_of(system: u64, last: Moment) -> u64
    requires { system < END_OF_TIME_MS }
    ensures range { result < END_OF_TIME_MS }
    ensures later { result ≡ max system (last * 1000) }
{
    system.max(last.get() * 1000)
}

/// So many clocks of the same start as this one. The one error is want of memory.
pub fn clocks_of(
    alloc: Global,
    clock: &SteadyClock,
    count: usize,
) -> Result<Vec<SteadyClock>, Memory>
    ensures count { IfOk result (λ clocks. length clocks.items ≡ count) }
    ensures start { IfOk result (λ clocks. All (λ c. c ≡ clock.now) clocks.items) }
{
    let mut clocks = Vec::new(alloc);
    for _place in 0..count {
        clocks.push(clock.same())?;
    }
    Ok(clocks)
}

/// How the time of the system stands to the last moment of journals, where people are told of it.
#[derive(Clone, Copy, Debug, PartialEq, Eq)]
pub enum Gap {
    /// It is so many seconds behind.
    Behind(u64),
    /// It is so many seconds ahead.
    Ahead(u64),
}

/// What people are told of the time of the system, where this is the last moment of the journals: that it
/// is behind that by more than a day, or ahead of it by more than ten years.
pub fn gap_of(system: Moment, last: Moment) -> Option<Gap>
    ensures { result ≡ gap_of system last }
{
    let system = system.get();
    let last = last.get();
    if system + MOST_BEHIND_S < last {
        return Some(Gap::Behind(last - system));
    }
    if 0 < last && last + MOST_AHEAD_S < system {
        return Some(Gap::Ahead(system - last));
    }
    None
}
