//! Numbers that look random, the same in each run.

#[derive(Drop)]
pub(crate) struct Dice {
    state: u32,
}

impl Dice {
    pub(crate) fn of(seed: u32) -> Dice {
        Dice {
            state: seed.wrapping_mul(2_654_435_761),
        }
    }

    /// A number below `n`; 0 where that is 0.
    pub(crate) fn roll(&mut self, n: u32) -> u32 {
        self.state = self
            .state
            .wrapping_mul(1_664_525)
            .wrapping_add(1_013_904_223);
        if n == 0 {
            return 0;
        }
        (self.state >> 8) % n
    }
}
