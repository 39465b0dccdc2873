//! What a table keeps.

use crate::expires::Expires;
use crate::slots::Slots;
use std::collections::BTreeMap;

/// Leases by numbers that grow, and the numbers by keys and by external ports. The table that owns
/// it keeps the maps in step.
#[derive(Drop)]
pub struct Numbered<L: Expires, K: Ord, P: Ord> {
    /// A multiple of 32,768, above the numbers of all leases that were granted.
    pub next: u64,
    /// The leases by their numbers, so in the order granted, and by their expiries.
    pub leases: Slots<L>,
    /// The number under each key.
    pub keys: BTreeMap<K, u64>,
    /// The number under each external port.
    pub ports: BTreeMap<P, u64>,
}
