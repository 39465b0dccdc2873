//! Datagrams, and the entries of a lease history.

use crate::addresses::Address;
use crate::lists::Octets;
use crate::moments::Moment;
use crate::records::Record;

/// A datagram and its peer: the sender of one that came, the receiver of one that goes.
#[derive(Debug, Drop)]
pub struct Datagram {
    /// The address of the peer.
    pub peer: Address,
    /// The peer's UDP port.
    pub port: u16,
    /// The door by which it came or goes: the number of a socket of this host.
    pub door: u8,
    pub octets: Octets,
}

/// One event of the history of an external address: a datagram that came and the reply to it, or, where
/// both have no octets, what the server itself did.
#[derive(Debug, Drop)]
pub struct Entry {
    /// When it took effect.
    pub moment: Moment,
    /// The request and its sender.
    pub from: Datagram,
    /// The octets of the reply, which goes to that sender by the door of the request.
    pub reply: Octets,
    /// What the lease table and its journal keep of it.
    pub kept: Option<Record>,
    /// The base by which the reply tells its epoch.
    pub base: Moment,
}
