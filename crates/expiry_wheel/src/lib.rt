//! Ids with the moments at which they expire, and which of them falls due next.
//!
//! `Wheel` is seen as a finite map from ids to expiries: a list of pairs of an id and an expiry,
//! ids distinct.
//! `plain::PlainWheel` keeps the same contract by a list that is searched, to compare with.
//! `Leasts` is the tree by itself, for a caller that has the moments: it is told the least one of
//! each block of them.
#![tactic(auto)]

mod blocks;
mod leasts;
mod pair;
pub mod plain;
mod tree;
mod wheel;

pub use leasts::{DueBlock, Leasts, MOST_LEVELS, latest};
pub use wheel::Wheel;

/// Ids from this number on are refused, as for want of memory.
pub const IDS: u32 = 131_072;

/// The moment at which nothing expires: an expiry is less.
pub const NEVER: u64 = u64::MAX;
