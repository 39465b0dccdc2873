//! The workers of external addresses: each takes the jobs of its queue in order, has the house do
//! them, and hands on the replies. The house is whatever does as `JobHouse` says.
#![tactic(auto)]

mod finishing;
mod houses;
mod outcomes;
mod pauses;
mod sends;
mod tallies;
mod work_loop;
mod worker_threads;
mod workers;

pub use finishing::finish;
pub use houses::JobHouse;
pub use outcomes::Outcome;
pub use pauses::Pause;
pub use sends::{send_all, send_one, send_to_groups};
pub use tallies::{Sends, Tally, TallyRow};
pub use work_loop::{work, work_off};
pub use worker_threads::run_workers;
pub use workers::{Desk, Next, do_round};
