//! What a shard says of itself beside each entry of its history.
use lease_disk::{DiskPair, LeaseDisk};
use pcp_base::Entry;
use std::collections::LinkedList;

/// How it stood when an entry was noted. No value of it is made: it is seen by contracts alone.
pub struct Mark<D: LeaseDisk> {
    /// The pair of the journal.
    pub pair: DiskPair<D>,
    /// The entries that were in doubt.
    pub doubt: LinkedList<Entry>,
}
