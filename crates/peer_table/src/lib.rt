//! The PEER leases of an external address, in the order granted (RFC 6887, section 12).
#![tactic(auto)]

mod changes;
mod endpoints;
mod keys;
pub mod laws;
mod lists;
mod looks;
mod named;
mod overlaps;
pub mod plain;
mod ports;
mod table;
mod uses;

pub use table::PeerTable;
pub use uses::PortUse;
