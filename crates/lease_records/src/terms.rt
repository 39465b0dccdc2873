//! The fields that MAP and PEER leases share.

use pcp_base::{Moment, Nonce};

/// Whose a lease is, and since when and until when it is live.
#[derive(Clone, Copy)]
pub(crate) struct Term {
    pub nonce: Nonce,
    pub granted: Moment,
    /// Seconds.
    pub expiry: u64,
}
