//! What a call of a house answers.

use lane_index::Told;
use pcp_base::Datagram;

/// The replies to a batch, each to its sender by the door of its request, and what the lane of its
/// external address may learn: all records that are published.
#[derive(Drop)]
pub struct Served {
    pub replies: Vec<Datagram>,
    pub told: Told,
}
