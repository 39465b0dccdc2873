//! Free runs of ports: which ports of a range are taken, and where the least run of free ones is.
#![tactic(auto)]

mod flags;
mod leaf;
mod node;
pub mod plain;
mod runs;
mod tree;
mod words;

pub use runs::Runs;
