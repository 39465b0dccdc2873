//! What becomes of the ports of a run in time.

ghost use Rattle.std.specs.Prelude.{◌≡◌, ◌<◌, ◌^◌};
ghost use Rattle.leased_ports.specs.Kept as the;

use pcp_base::REST_SECONDS;

/// What a run's ports are used for. A phase may lag behind the moment reached until it is seen to.
#[derive(Clone, Copy, PartialEq, Eq)]
pub enum Phase {
    /// They are held, until the run's end.
    Holds,
    /// They rest, until 120 seconds after it.
    Rests,
    /// They are free, and the run waits for nothing.
    Over,
}

/// The phase of a run of that end at a moment.
pub fn phase_at(m: u64, end: u64) -> Phase
    requires { end < 2 ^ 41 }
    ensures { result ≡ the.phase_at m end }
{
    if m < end {
        return Phase::Holds;
    }
    if m < end + REST_SECONDS {
        return Phase::Rests;
    }
    Phase::Over
}

/// The phase in which a run of that end waits until then.
pub fn phase_until(end: u64, until: Option<u64>) -> Phase
    ensures { result ≡ the.phase_until end until }
{
    let Some(expiry) = until else {
        return Phase::Over;
    };
    if expiry == end {
        return Phase::Holds;
    }
    Phase::Rests
}

/// Until when a run of that end waits in a phase.
pub fn until(phase: Phase, end: u64) -> Option<u64>
    requires { end < 2 ^ 41 }
    ensures { result ≡ the.until phase end }
{
    match phase {
        Phase::Holds => Some(end),
        Phase::Rests => Some(end + REST_SECONDS),
        Phase::Over => None,
    }
}
