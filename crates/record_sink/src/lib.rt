//! Who takes records one by one, so that no list of them need be in memory.
#![tactic(auto)]

mod sinks;

pub use sinks::RecordSink;
