//! The relay beside a translator of its own as a command: what comes into its inbox goes to the
//! cascade, in order, and what that gives goes down to clients and up to the server.
#![tactic(auto)]

mod machines;
mod runs;

pub use relay_runs::SERVER_PORT;
pub use runs::run_cascade;
