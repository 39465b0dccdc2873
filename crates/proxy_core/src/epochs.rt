//! The epoch that a relay tells (RFC 6887, section 8.5).
ghost use Rattle.std.specs.Prelude.{◌≡◌};
ghost use Rattle.proxy_core.specs.Relays.{told_epoch};

/// An epoch that the upstream server told.
#[derive(Clone, Copy, Debug, PartialEq, Eq)]
pub struct Heard {
    /// Seconds.
    pub epoch: u32,
    /// When it was heard, in milliseconds.
    pub at_ms: u64,
}

impl Heard {
    /// The epoch at a time in milliseconds: the one that was heard and the whole seconds since, at
    /// most 2^32 - 1.
    pub(crate) fn told(self, now_ms: u64) -> u32
        ensures { result ≡ told_epoch self now_ms }
    {
        let since = (now_ms / 1000).saturating_sub(self.at_ms / 1000);
        (u64::from(self.epoch) + since).min(u64::from(u32::MAX)) as u32
    }
}
