//! The words of the command `serve`.
#![tactic(auto)]

mod commands;
#[cfg(test)]
mod tests;

pub use commands::{LAST_LANE_PORT, LAST_PORT, ServePlan, serve_of};
