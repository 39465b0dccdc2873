//! Tests of lanes: what they find of records that were published, and two of them beside a writer.
#![tactic(auto)]

#[cfg(test)]
mod beside;
#[cfg(test)]
mod grants;
#[cfg(test)]
mod lanes;
