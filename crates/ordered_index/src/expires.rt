//! What expires.
ghost use Rattle.std.specs.Prelude.{◌≡◌, ℕ};

use pcp_base::PeerLease;

/// A value that is live at each moment below its expiry, in seconds or whatever its table counts.
pub trait Expires {
    /// Its expiry.
    ghost expiry: { Self → ℕ };

    /// The first moment at which it isn't live.
    fn expires_at(&self) -> u64
        ensures { result ≡ expiry self.now };
}

impl Expires for PeerLease {
    ghost expiry = { λ lease. lease.expiry };

    #[inline]
    fn expires_at(&self) -> u64 {
        self.expiry
    }
}
