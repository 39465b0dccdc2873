//! The call of the command `serve`: a server with threads of its own, from its words to its tally.
#![tactic(auto)]

mod lost;
mod running;
mod serving;
mod tally_texts;
mod telling;
mod updates;

pub use running::run_serve;
