//! Tests of the run of `cascade` over links in memory.
#![tactic(auto)]

#[cfg(test)]
mod packets;
#[cfg(test)]
mod runs;
