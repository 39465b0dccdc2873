//! Serves the requests of a load, and sums them up. What serves them is a trait, which says what a
//! request does and what a crash may leave of it.
#![tactic(auto)]

mod answerers;
mod player;
#[cfg(test)]
mod tests;

pub use answerers::{LoadAnswerer, LoadReply};
pub use player::{LoadStatus, play_load};
