//! What a cascade gives for a datagram from upstream.

use pcp_base::{Datagram, Octets};

/// What is to be sent for a datagram from upstream.
#[derive(Debug, Drop)]
pub enum CascadeOut {
    /// Nothing.
    Nothing,
    /// A reply for the client whose request waited, or an announcement to all.
    Down(Datagram),
    /// The request of a client that waits, for another local port, to the upstream server.
    Up(Octets),
}
