//! What is decided on requests, in the state that records made (RFC 6887, sections 11, 12 and 15).
#![tactic(auto)]

mod answers;
mod applying;
mod core_of;
mod cores;
mod decided;
mod deciding;
mod laws;
mod mapping;
mod peering;

pub use applying::apply;
pub use core_of::Core;
pub use cores::LeaseCore;
pub use decided::Decided;
pub use deciding::decide;
pub use laws::{
    decisions_change_leases, decisions_fit, decisions_keep_owners, nonces_match, rests_are_kept,
};
