//! What was done to a disk in memory.

/// A change of the octets, or a sync.
#[derive(Drop)]
pub(crate) enum Change {
    Wrote { place: usize, piece: Vec<u8> },
    CutTo(usize),
    Synced,
}
