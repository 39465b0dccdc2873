//! Leases as JSON, as a dump has them.
#![tactic(auto)]

mod leases;
mod texts;

pub use leases::{maps_of, peers_of};
pub use texts::address_of;
