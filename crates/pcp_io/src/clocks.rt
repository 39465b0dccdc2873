//! What time it is.
ghost use Rattle.std.specs.Prelude.{◌≡◌, ◌<◌, Option};
ghost use Rattle.pcp_io.specs.declared.clocks.TheConstants.{END_OF_TIME_MS};
ghost use Rattle.pcp_io.specs.Times.{Times, IsTimeNow};

/// All times are below this one: 2^40 seconds, in milliseconds.
pub const END_OF_TIME_MS: u64 = 1000 << 40;

/// A clock of the outside.
pub trait Clock {
    // The times that it will give, where the clock tells them.
    ghost times: { Self → Option Times };

    /// The time, in milliseconds, below `END_OF_TIME_MS`.
    fn now(&mut self) -> u64
        ensures range { result < END_OF_TIME_MS }
        ensures time { IsTimeNow (times self.old) (times self.new) result };
}
