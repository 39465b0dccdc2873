//! The MAP leases of an external address, in the order granted (RFC 6887, section 11).
#![tactic(auto)]

mod bare;
mod bare_table;
mod begins;
mod changes;
mod filters;
pub mod laws;
mod lists;
mod looks;
mod overlaps;
mod past;
pub mod plain;
mod table;

pub use table::MapTable;
