//! Runs of the client's commands over links in memory: what they send, what they print and their status.
#![tactic(auto)]

#[cfg(test)]
mod keeps;
mod links;
#[cfg(test)]
mod runs;
#[cfg(test)]
mod unmaps;

pub use links::{Came, Ended, Failing, SOUND, keep_in_memory, run_in_memory};
