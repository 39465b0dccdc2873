//! What people are told of words that are no command and of a text that is no line of a script.
#![tactic(auto)]

mod commands;
mod fields;
mod lines;
mod options;
#[cfg(test)]
mod tests;

pub use commands::words_cause;
pub use lines::line_cause;
pub use options::tool_cause;
