//! Tests of what a client writes and reads, and of what it does over time; an example of a host that embeds one.
#![tactic(auto)]

mod keeping;

pub use keeping::Keeper;

#[cfg(test)]
mod clients;
#[cfg(test)]
mod heads;
#[cfg(test)]
mod hours;
#[cfg(test)]
mod more_words;
#[cfg(test)]
mod wants;
#[cfg(test)]
mod words;
