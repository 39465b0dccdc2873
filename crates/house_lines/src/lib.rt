//! A house on one thread answers the lines of a script, and serves the requests of a load, over
//! journals.
#![tactic(auto)]

mod faults;
mod laws;
mod lines;
mod loads;
mod seen;

pub use laws::lines_make_histories;
pub use lines::HouseLines;
pub use seen::SeenHouse;
