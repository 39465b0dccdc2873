//! The run of `keep`: a mapping is asked for and renewed until the inbox gives a stop, and each change is
//! printed. Links, clocks and random words are the caller's.
#![tactic(auto)]

mod keepers;
mod news;
mod runs;
mod steps;
mod turns;

pub use runs::run_keep;
pub use tool_commands::ToolStatus;
