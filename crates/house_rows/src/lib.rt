//! Tests of a house: its opening and its replies, and scripts, loads and dumps over its journals, octet
//! by octet. And the laws of histories, cited for one of three entries.
#![tactic(auto)]

#[cfg(test)]
mod configs;
#[cfg(test)]
mod disks;
#[cfg(test)]
mod dumps;
mod histories;
#[cfg(test)]
mod lines;
#[cfg(test)]
mod opening;
#[cfg(test)]
mod serving;

pub use histories::three_entries;
