//! The run of `watch`: journals that are looked at, links in memory, and the lines that are told.
#![tactic(auto)]

mod faults;
mod links;
mod memory_looks;
mod runs;
mod tellings;
#[cfg(test)]
mod tests;

pub use faults::WatchFault;
pub use links::{JournalLooks, Look, LookFault};
pub use memory_looks::MemoryLooks;
pub use runs::run_watch;
