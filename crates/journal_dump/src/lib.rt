//! What journals hold, as a text in JSON, and what they are found to be.
#![tactic(auto)]

mod dumps;
mod faults;
mod looks;
mod readings;
mod terms;

pub use dumps::dump;
pub use faults::DumpFault;
pub use looks::{Looked, looked_in};
