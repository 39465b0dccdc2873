//! A tie, and the request that waits for it.

use ordered_index::Expires;
use pcp_base::{Address, Endpoint, Nonce, Octets};
use pcp_options::Items;

/// A client's endpoint, tied to a local port, and what the upstream server gave for that.
#[derive(Clone, Copy, Debug, PartialEq, Eq)]
pub struct Tie {
    /// The client's address, the protocol and the client's internal port.
    pub client: Endpoint,
    /// The nonce of the client's request.
    pub nonce: Nonce,
    /// The local port, at least 1.
    pub local: u16,
    /// Whether the upstream server granted a lease for the local port.
    pub granted: bool,
    /// The upstream external address, where granted.
    pub address: Address,
    /// The upstream external port, where granted.
    pub external: u16,
    /// When the tie ends, in milliseconds.
    pub until_ms: u64,
}

/// A client's MAP request that waits for its answer from upstream.
#[derive(Drop)]
pub struct Waiting {
    /// The client's UDP port.
    pub port: u16,
    /// The door by which the request came, and by which its reply leaves.
    pub door: u8,
    /// The request as the client sent it.
    pub request: Octets,
    /// The lifetime that it asks for, in seconds.
    pub lifetime: u32,
    /// The external port that it suggests, 0 for none.
    pub suggested: u16,
    /// The external address that it suggests.
    pub address: Address,
    /// Its options that a success repeats, in its order.
    pub items: Items,
    /// When it was asked, in milliseconds.
    pub since_ms: u64,
    /// How many local ports were asked for it after the first, each in place of one that was refused.
    pub tries: u8,
}

/// A tie, and the request that waits for it.
#[derive(Drop)]
pub struct Tied {
    pub tie: Tie,
    pub waiting: Option<Waiting>,
}

impl Expires for Tied {
    ghost expiry = { λ tied. tied.tie.until_ms };

    #[inline]
    fn expires_at(&self) -> u64 {
        self.tie.until_ms
    }
}
