//! What a server tells of itself while it runs: numbers that its threads leave in atomic words, and the
//! text that is made of them. Nothing waits for them, and they change nothing.
#![tactic(auto)]

mod boards;
mod numbers;
#[cfg(test)]
mod tests;
mod texts;

pub use boards::Board;
pub use numbers::{JobCounts, ShardNumbers};
