//! The configuration that a source has.
#![tactic(auto)]

mod reading;
#[cfg(test)]
mod tests;

pub use reading::{ConfigFault, config_of};
