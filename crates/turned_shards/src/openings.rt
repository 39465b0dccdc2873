//! What the history of an external address begins with.
use ghost_notes::GhostValue;
use lane_index::Lane;
use lease_disk::LeaseDisk;
use pcp_base::Config;
use shard_book::Book;

/// What a shard began with. Contracts see the configuration, the book as it was opened, and the
/// lane as it was made; only the index of the external address takes octets.
#[derive(Drop)]
pub struct Opening<D: LeaseDisk> {
    pub config: GhostValue<Config>,
    /// The index of the external address in the configuration.
    pub place: u32,
    pub book: GhostValue<Book<D>>,
    pub lane: GhostValue<Lane>,
}
