//! Tests of a turn: what one thread and two threads note, and how often a pass can be split.
#![tactic(auto)]

#[cfg(test)]
mod turns;
