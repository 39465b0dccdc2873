//! Shards behind turns: an external address with its book and its lane, the legal history that its
//! turn keeps, and what is published of it.
#![tactic(auto)]

mod counting;
mod doubts;
mod laws;
mod marks;
mod moments;
mod openings;
mod passes;
mod publishing;
mod reading;
mod shards;
mod turning;
mod waiting;

pub use laws::{journals_have_what_is_noted, passes_share_histories, published_records_were_noted};
pub use marks::Mark;
pub use openings::Opening;
pub use passes::{HousePass, give_up};
pub use publishing::{publish_held, publish_rest};
pub use shards::Shard;
pub use turning::{Unturned, end_one, turn_of, untake};
