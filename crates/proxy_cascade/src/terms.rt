//! A cascade but for its ties.
ghost use Rattle.std.specs.Prelude.{◌≡◌, max};
ghost use Rattle.cascade_ties.specs.Ties.{Ties};
ghost use Rattle.proxy_cascade.specs.FromServers.{hearing, keeps_epoch};
ghost use Rattle.proxy_cascade.specs.Kept.{cascade_of, epoch_of};

use pcp_base::Address;
use proxy_core::Heard;

/// A cascade but for its ties.
#[derive(Clone, Copy)]
pub(crate) struct CascadeTerms {
    /// The address of its own, whose ports are tied.
    pub(crate) own: Address,
    /// The address of the upstream server.
    pub(crate) server: Address,
    /// What no client knows.
    pub(crate) key: [u8; 32],
    /// From when epochs count, in milliseconds.
    pub(crate) base_ms: u64,
    /// The last epoch that the server told.
    pub(crate) heard: Option<Heard>,
    /// The last time, in milliseconds.
    pub(crate) last_ms: u64,
}

impl CascadeTerms {
    /// The same at a time in milliseconds; one that is smaller than the last counts as the last.
    pub(crate) fn at(self, now_ms: u64) -> CascadeTerms
        ensures { result ≡ record self { last_ms = max self.last_ms now_ms } }
    {
        CascadeTerms {
            last_ms: self.last_ms.max(now_ms),
            ..self
        }
    }

    /// The epoch that is told, in seconds (RFC 6887, section 8.5).
    pub(crate) fn epoch(&self) -> u32
        ensures { result ≡ epoch_of self.now }
    {
        let since = self.last_ms.saturating_sub(self.base_ms) / 1000;
        since.min(u64::from(u32::MAX)) as u32
    }

    /// The same after a response with this epoch, which was valid or not.
    pub(crate) fn hearing(self, epoch: u32, valid: bool) -> CascadeTerms
        requires { valid ≡ keeps_epoch self.heard epoch self.last_ms }
        ensures { (ties : Ties) → cascade_of result ties ≡ hearing (cascade_of self ties) epoch }
    {
        CascadeTerms {
            base_ms: if valid { self.base_ms } else { self.last_ms },
            heard: Some(Heard {
                epoch,
                at_ms: self.last_ms,
            }),
            ..self
        }
    }
}
