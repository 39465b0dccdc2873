//! The words of orders to a server that runs, and the lines that say them to it.
#![tactic(auto)]

mod commands;
mod lines;
#[cfg(test)]
mod tests;

pub use commands::{OrderPlan, order_of};
pub use lines::line_of;
