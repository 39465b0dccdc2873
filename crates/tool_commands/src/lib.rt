//! The commands of the tools: how a call of one ends.
#![tactic(auto)]

mod statuses;
#[cfg(test)]
mod tests;

pub use statuses::ToolStatus;
