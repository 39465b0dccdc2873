//! Lookups of who owns an external port, beside the writer of the lease table and without a lock.
//!
//! There are two copies of an index: lookups read one while the writer brings the other up, and
//! publishing exchanges the two. What a lane knows is at all times a beginning of what its writer
//! has published.
#![tactic(auto)]

mod cells;
mod chains;
mod ending;
mod filling;
mod history;
mod index;
mod keys;
mod lanes;
mod laws;
mod links;
mod opening;
mod operations;
mod pushed;
mod reading;
mod replicas;
mod senders;
mod showing;
mod shown;

pub use filling::lane;
pub use lanes::{Lane, LaneWriter, Told};
pub use laws::{looks_depend_on_tables, nobody_knows_more};
