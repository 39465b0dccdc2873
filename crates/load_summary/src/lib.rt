//! The summary of a load: how its requests counted, and the digest of all replies.
#![tactic(auto)]

mod counts;
mod summaries;
#[cfg(test)]
mod tests;

pub use counts::{LoadCounts, LoadKind};
pub use summaries::write_summary;
