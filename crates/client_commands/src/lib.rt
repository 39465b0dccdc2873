//! The commands of the client: their words, which `clap` reads, and their help.
#![tactic(auto)]

mod commands;
mod laws;
mod options;
mod parses;
mod values;

pub use commands::{
    ClientCommand, DEFAULT_LIFETIME, DEFAULT_TRIES, MOST_TRIES, MapWanted, Mapping, PeerWanted,
    Target, command_of, help_of, is_help,
};
pub use laws::plain_words_are_commands;
