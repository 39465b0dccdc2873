//! Journals that another program writes, looked at by their files, which are opened to be read alone and
//! kept from nobody; and the command `watch` over them.
#![tactic(auto)]

mod commands;
mod files;
mod links;
#[cfg(test)]
mod tests;

pub use commands::{may_watch, watch_over};
