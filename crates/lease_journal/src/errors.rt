//! What an opening found, or why it failed.
use journal_sides::JournalFault;
use lease_disk::DiskPair;

/// An opening that failed, with the pair that it was handed.
#[derive(Drop)]
pub struct Unopened<D> {
    pub fault: JournalFault,
    pub pair: DiskPair<D>,
}

/// What an opening found on the two sides.
#[derive(Clone, Copy, Debug, PartialEq, Eq)]
pub enum Found {
    /// the records of the open side that counts
    Recovered,
    /// no open side
    Blank,
    /// an open side that isn't in the grammar
    Damaged,
}
