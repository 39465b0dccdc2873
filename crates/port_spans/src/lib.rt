//! Values of places, as of ports, kept by runs: places in a row that were given one value together
//! are one entry.
#![tactic(auto)]

mod ends;
mod runs;
mod slots;
mod spans;
mod steps;

pub use ends::{Ends, end_along, spot, spot_of};
pub use runs::{PLACES, Run};
pub use spans::Spans;
