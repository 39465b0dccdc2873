//! The external ports of one address, as the state of its leases has them at a moment: which are
//! held and for whom, which rest, and until when. What falls due is seen to in steps.
#![tactic(auto)]

mod falls;
pub mod laws;
mod listing;
mod phases;
mod picks;
mod plain;
mod ports;
mod recent;
mod schedule;
mod steps;
mod timed_ends;
mod uses;

pub use ports::LeasedPorts;
