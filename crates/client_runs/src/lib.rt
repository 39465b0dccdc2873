//! Runs of the client's commands: a server is asked for a mapping or for its epoch, and what it answers is
//! printed. Links, clocks and random words are the caller's.
#![tactic(auto)]

mod askers;
mod asking;
mod calls;
mod epoch_askers;
mod lines;
mod openings;
mod tries;
mod turns;

pub use asking::asked_by;
pub use calls::{run_client, status_without};
pub use lines::push_line;
pub use openings::{nonce_by, wanting_from};
pub use tool_commands::ToolStatus;
pub use tries::{SERVER_PORT, Unanswered, hand_over};
pub use turns::MOST_TURNS;
