//! The loops that answer who owns an external port, one for each lane, each in a thread of its own
//! where one can be made.
#![tactic(auto)]

mod loops;
mod moments;
mod threads;

pub use loops::{Turn, run_lane};
pub use moments::moment_of;
pub use threads::run_lanes;
