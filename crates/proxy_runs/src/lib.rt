//! The relay as a command: what comes into its inbox goes to the relay, in order, and what the
//! relay gives goes down to clients and up to the server.
#![tactic(auto)]

mod laws;
mod machines;
mod runs;

pub use laws::what_goes_down_is_answered;
pub use relay_runs::SERVER_PORT;
pub use runs::run_proxy;
