//! The server's commands over streams in memory, and tests of plays over journals in memory that stop
//! or fail at some call.
#![tactic(auto)]

#[cfg(test)]
mod configs;
#[cfg(test)]
mod crashes;
#[cfg(test)]
mod faults;
mod in_memory;
#[cfg(test)]
mod octets;
#[cfg(test)]
mod runs;
#[cfg(test)]
mod stops;

pub use in_memory::{Ended, Failing, run_in_memory};
