//! A house whose external addresses are served by any number of threads. Each external address has
//! one legal history, which the passes of all threads share.
#![tactic(auto)]

mod beginning;
mod ending;
mod findings;
mod houses;
mod laws;
mod passing;
mod seats;
mod served;
mod serving;
mod turned;

pub use beginning::Begun;
pub use houses::House;
pub use laws::replies_are_noted_once;
pub use served::Served;
pub use turned_shards::{
    HousePass, Opening, Shard, Unturned, end_one, give_up, passes_share_histories,
    published_records_were_noted, turn_of,
};
