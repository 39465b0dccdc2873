//! What happens to a want.

use pcp_base::Address;

/// How long a lease is taken to last at most, in seconds.
pub const LONGEST_LEASE: u32 = 86_400;

/// How long an error is taken to last at most, in seconds.
pub const LONGEST_ERROR: u32 = 1_800;

/// How long after an error its want is asked for again at the earliest, in seconds.
pub const SHORTEST_ERROR: u32 = 4;

/// How long a success with lifetime 0, which grants nothing, is taken to be an error, in seconds.
pub const NOTHING_GRANTED: u32 = 30;

/// How long after a renewal the next one is sent at the earliest, in milliseconds (RFC 6887, section 11.2.1).
pub const LEAST_GAP_MS: u64 = 4_000;

/// Within how many milliseconds after an invalid epoch all is asked for anew; and for how long another one
/// moves nothing (RFC 6887, section 14.1.3).
pub const ANEW_WITHIN_MS: u64 = 5_000;

/// A lease that a client holds.
#[derive(Clone, Copy, Debug, PartialEq, Eq)]
pub struct HeldLease {
    /// The external address.
    pub address: Address,
    /// The external port; of several the first.
    pub external: u16,
    /// How many ports, from the first on: 1 but for a set (RFC 7753).
    pub count: u16,
    /// When it ends, in the client's milliseconds.
    pub until_ms: u64,
}

/// What a success grants (RFC 6887, sections 11.1 and 12.1).
#[derive(Clone, Copy)]
pub struct Grant {
    /// Seconds, as they are told.
    pub lifetime: u32,
    /// The external address.
    pub address: Address,
    /// The external port; of several the first.
    pub external: u16,
    /// How many ports.
    pub count: u16,
}

/// What happens to a want that is kept. Times are in the client's milliseconds.
#[derive(Clone, Copy)]
pub enum Event {
    /// Its request is sent, with this random word.
    Sent { at_ms: u64, word: u32 },
    /// A success is taken, with this random word.
    Taken { at_ms: u64, word: u32, grant: Grant },
    /// An error comes, with the lifetime in seconds that counts.
    Refused { at_ms: u64, seconds: u32 },
    /// Its lease is to be deleted.
    Ended { at_ms: u64 },
    /// Its lease is over.
    Dropped,
    /// The server tells an epoch by which it lost its leases; with this random word.
    Invalid { at_ms: u64, word: u32 },
}
