//! The commands of the relays: their words, which `clap` reads, and their help.
#![tactic(auto)]

mod commands;
mod laws;
mod options;
mod parses;
mod values;

pub use commands::{CascadeCommand, ProxyCommand, cascade_command_of, command_of, help_of};
pub use laws::plain_words_are_commands;
