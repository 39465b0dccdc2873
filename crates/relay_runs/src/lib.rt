//! The run of a relay, whatever it makes of datagrams: what comes into its inbox goes to the relay,
//! in order, and what the relay gives goes down to clients and up to the server.
#![tactic(auto)]

mod machines;
mod packets;
mod runs;
mod sends;

pub use machines::RelayMachine;
pub use packets::SERVER_PORT;
pub use runs::run_relay;
