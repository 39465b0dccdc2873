//! The second of a clock's time.
ghost use Rattle.std.specs.Prelude.{◌≡◌, ◌/◌, ◌<◌};
ghost use Rattle.pcp_io.specs.declared.clocks.TheConstants.{END_OF_TIME_MS};

use pcp_base::Moment;

/// The second of a time in milliseconds, below `END_OF_TIME_MS` of `pcp_io`.
pub fn moment_of(time: u64) -> Moment
    requires { time < END_OF_TIME_MS }
    ensures { result ≡ time / 1000 }
{
    match Moment::of(time / 1000) {
        Some(m) => m,
        None => unreachable!(),
    }
}
