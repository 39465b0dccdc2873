//! The records of a lease journal: what changes a lease table.

use crate::addresses::Address;
use crate::leases::{Endpoint, MapLease, PeerLease};
use crate::moments::Moment;

/// One change of a lease table.
#[derive(Clone, Copy, Debug, PartialEq, Eq, Hash)]
pub enum Change {
    /// The table begins, empty, and no external address is known.
    Start,
    /// A MAP lease is granted, or renewed in its place.
    Map(MapLease),
    /// A PEER lease is granted, or renewed in its place.
    Peer(PeerLease),
    /// The MAP lease whose first internal endpoint this is, is deleted.
    DropMap(Endpoint),
    /// The PEER lease of this endpoint, remote address and remote port is deleted.
    DropPeer(Endpoint, Address, u16),
    /// The table is lost, and begins again, empty.
    Lose,
    /// Nothing changes but the last moment.
    Mark,
    /// The external port, at least 1, was owned by this endpoint until this moment, in seconds.
    Rest(Endpoint, u16, u64),
    /// The external address is this one from now on.
    Renumber(Address),
}

/// A change and its moment.
#[derive(Clone, Copy, Debug, PartialEq, Eq, Hash)]
pub struct Record {
    /// When the change took effect.
    pub moment: Moment,
    /// What changed.
    pub change: Change,
}
