//! How long rounds took.

use std::time::{CpuClock, Duration};

/// How many decisions a round has.
pub const DECISIONS: u64 = 5;

/// A checksum of answers, and the processor time that they took.
#[derive(Clone, Copy)]
pub struct Timed {
    pub sum: u64,
    pub took: Duration,
}

impl Timed {
    /// The time since `start`.
    pub fn since<C: CpuClock>(clock: &C, start: Duration, sum: u64) -> anyhow::Result<Timed> {
        let now = clock.process_cpu_time()?;
        Ok(Timed {
            sum,
            took: now.abs_diff(start),
        })
    }

    /// The nanoseconds of a decision.
    pub fn each(&self, rounds: u32) -> u64 {
        let nanos = self.took.as_nanos().min(u128::from(u64::MAX)) as u64;
        nanos / (DECISIONS * u64::from(rounds)).max(1)
    }
}
