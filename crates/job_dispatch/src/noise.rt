//! What is counted of noise: datagrams that ask for nothing that may be granted.
ghost use Rattle.std.specs.Prelude.{◌≡◌, ◌<◌, IsTrue, if◌then◌else◌};
ghost use Rattle.job_workers.specs.Tallies.{more};

/// How many jobs of a queue are noise at most, when one more is put.
pub const MOST_NOISE: usize = 64;

/// How much noise is put into all queues in a second of the dispatcher's clock at most.
pub const MOST_NOISE_A_SECOND: u16 = 1_000;

/// What the dispatcher counts of noise.
#[derive(Clone, Copy, Debug)]
pub struct NoiseCounts {
    /// a second of its clock
    pub second: u64,
    /// what was put into all queues in that second
    pub put: u16,
    /// what was dropped in all; it stands still at 2^64 - 1
    pub dropped: u64,
}

impl NoiseCounts {
    ghost use Rattle.job_dispatch.specs.Noise.{in_second, no_noise, noise_dropped, noise_put};

    /// Nothing was put or dropped.
    pub fn new() -> NoiseCounts
        ensures { result ≡ no_noise }
    {
        NoiseCounts {
            second: 0,
            put: 0,
            dropped: 0,
        }
    }

    /// It is this second. Where it is another than before, nothing was put in it yet.
    pub fn begin(&mut self, second: u64)
        ensures { self.new ≡ in_second self.old second }
    {
        if self.second != second {
            self.second = second;
            self.put = 0;
        }
    }

    /// A job was put, which is noise or not.
    pub fn count_put(&mut self, is_noise: bool)
        requires { IsTrue is_noise → self.old.put < 1000 }
        ensures { self.new ≡ (if is_noise then noise_put self.old else self.old) }
    {
        if is_noise {
            self.put += 1;
        }
    }

    /// Noise was dropped.
    pub fn count_dropped(&mut self)
        ensures { self.new ≡ noise_dropped self.old }
    {
        self.dropped = self.dropped.saturating_add(1);
    }
}
