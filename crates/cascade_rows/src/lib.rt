//! Tests of a relay beside a translator of its own, over time.
#![tactic(auto)]

#[cfg(test)]
mod cascades;
