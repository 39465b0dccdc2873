//! The client of the Port Control Protocol (RFC 6887): when its wants are asked for, repeated and renewed,
//! which leases it holds, and whether the server lost them. Sockets, clocks and random words are the
//! caller's.
#![tactic(auto)]

mod clients;
mod epochs;
mod errors;
mod events;
mod laws;
mod meanings;
mod reasons;
mod slots;
mod waits;
mod wants;

pub use clients::Client;
pub use epochs::EpochTest;
pub use errors::WantRefused;
pub use events::{
    ANEW_WITHIN_MS, HeldLease, LEAST_GAP_MS, LONGEST_ERROR, LONGEST_LEASE, NOTHING_GRANTED,
    SHORTEST_ERROR,
};
pub use laws::{losses_are_heard, wants_follow_their_events};
pub use meanings::{EpochFound, Heard, What, set_size};
pub use slots::MOST_WANTS;
pub use waits::{FIRST_BASE_MS, LONGEST_BASE_MS, LONGEST_WAIT_MS, next_wait};
