//! What the journals hold and what becomes of it, told reading by reading.
#![tactic(auto)]

mod happenings;
mod laws;

pub use happenings::Happening;
pub use laws::{changes_are_told, readings_are_told};
