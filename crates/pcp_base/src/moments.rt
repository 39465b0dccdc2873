//! Moments and the epoch (RFC 6887, section 8.5).
ghost use Rattle.std.specs.Prelude.{◌≡◌, ◌<◌, ◌^◌, SomeIff};
ghost use Rattle.pcp_base.specs.Epoch.{epoch_of};

use std::marker::Model;

/// A whole number of seconds below 2^40, which is handed in and never read from a clock here.
#[derive(Clone, Copy, Debug, PartialEq, Eq, PartialOrd, Ord, Hash)]
pub struct Moment {
    seconds: u64,
}

impl Model for Moment {
    ghost use Rattle.std.specs.Prelude.{ℕ, ◌<◌, ◌^◌};

    ghost Value = { ℕ };

    ghost view = { λ m. m.seconds };

    ghost invariant = { λ m. m.seconds < 2 ^ 40 };

    ghost inverse = { λ n. record { seconds = n } };
}

impl Moment {
    /// The moment of these seconds; none from 2^40 on.
    pub fn of(seconds: u64) -> Option<Moment>
        ensures { SomeIff result (seconds < 2 ^ 40) seconds }
    {
        if seconds < 1 << 40 {
            Some(Moment { seconds })
        } else {
            None
        }
    }

    /// The seconds, below 2^40.
    pub fn get(self) -> u64
        ensures value { result ≡ self }
        ensures bound { result < 2 ^ 40 }
    {
        self.seconds
    }
}

/// The epoch that is told at `m` with this base: the seconds between them, at most 2^32 - 1, and 0 where
/// the base is later (RFC 6887, section 8.5).
pub fn epoch(m: Moment, base: Moment) -> u32
    ensures { result ≡ epoch_of m base }
{
    m.get().saturating_sub(base.get()).min(u64::from(u32::MAX)) as u32
}
