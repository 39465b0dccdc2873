//! Tests of a relay over time.
#![tactic(auto)]

#[cfg(test)]
mod relays;
