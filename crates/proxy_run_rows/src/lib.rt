//! Tests of the relay's command: its words, and its run over links in memory.
#![tactic(auto)]

#[cfg(test)]
mod packets;
#[cfg(test)]
mod runs;
#[cfg(test)]
mod words;
