//! Random words from outside, as a trait with a count of faults; a list of them in memory, whose calls
//! may be named to fail; and a thin adapter over a source such as the file `/dev/urandom`. It belongs to
//! the outside of `pcp_io`, whose sources and counts it uses, and that only the client's commands ask for.
#![tactic(auto)]

mod entropies;
mod list_entropies;
mod source_entropies;
#[cfg(test)]
mod tests;

pub use entropies::Entropy;
pub use list_entropies::ListEntropy;
pub use source_entropies::{FileEntropy, SourceEntropy};
