//! What is told of leases while a server runs, a line of JSON for each happening.
#![tactic(auto)]

mod doubts;
mod lines;
mod members;
mod settings;
mod texts;

pub use doubts::{Doubt, doubt_line_of};
pub use lines::{line_of, lines_of, ready_line_of};
pub use settings::Setting;
