//! What is counted of datagrams.
ghost use Rattle.std.specs.Prelude.{◌≡◌, ◌^◌, ◌<◌};
ghost use Rattle.relay_rates.specs.Rates.{may_pass, new_gate, gate_after};

/// What a relay counts of its clients' datagrams, or of the announcements that it passes on.
#[derive(Clone, Copy, Debug)]
pub struct RateGate {
    /// How many pass in a second of the relay's clock.
    pub rate: u32,
    /// The last second.
    pub second: u64,
    /// How many passed in it.
    pub passed: u32,
    /// How many didn't pass, in all; it stands still at 2^64 - 1.
    pub dropped: u64,
}

impl RateGate {
    /// A gate through which so many pass in a second, at which nothing came.
    pub fn new(rate: u32) -> RateGate
        ensures { result ≡ new_gate rate }
    {
        RateGate {
            rate,
            second: 0,
            passed: 0,
            dropped: 0,
        }
    }

    /// Whether a datagram passes that comes at this time, in milliseconds, and counts it. A second that is
    /// smaller than the last one counts as that.
    pub fn passes(&mut self, now_ms: u64) -> bool
        ensures gives { result ≡ may_pass self.old now_ms }
        ensures counts { self.new ≡ gate_after self.old now_ms }
    {
        let second = now_ms / 1_000;
        if second > self.second {
            self.second = second;
            self.passed = 0;
        }
        if self.passed < self.rate {
            self.passed += 1;
            return true;
        }
        self.dropped = self.dropped.saturating_add(1);
        false
    }
}
