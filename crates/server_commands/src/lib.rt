//! The commands of the server: their words, and how a call of one ends.
#![tactic(auto)]

mod commands;
mod statuses;
#[cfg(test)]
mod tests;

pub use commands::{Command, LoadPlan, MOST_REQUESTS, command_of};
pub use statuses::{ConfigCause, Status};
