//! Tests of the lowest layer: the types and texts that every part speaks of, sources and sinks, and
//! the octets of messages and of their options.
#![tactic(auto)]

#[cfg(test)]
mod options;
#[cfg(test)]
mod packets;
#[cfg(test)]
mod rows;
#[cfg(test)]
mod streams;
#[cfg(test)]
mod texts;
#[cfg(test)]
mod values;
