//! What becomes of the leases of an external address.
use pcp_base::{Address, MapLease, PeerLease};

/// What is told of the leases of an external address, one after the other.
#[derive(Clone, Copy)]
pub enum Happening {
    /// A life of a side is followed from here on, of this generation; whether records before it may
    /// have been missed.
    Begins(u64, bool),
    /// By comparing: it is shown from here on.
    FoundMap(MapLease),
    /// By comparing: it is shown from here on.
    FoundPeer(PeerLease),
    /// By comparing: it isn't there any more.
    GoneMap(MapLease),
    /// By comparing: it isn't there any more.
    GonePeer(PeerLease),
    /// By a record: its key wasn't live.
    GrantedMap(MapLease),
    /// By a record: its key wasn't live.
    GrantedPeer(PeerLease),
    /// By a record: its key was live.
    RenewedMap(MapLease),
    /// By a record: its key was live.
    RenewedPeer(PeerLease),
    /// By a record: it was so.
    DeletedMap(MapLease),
    /// By a record: it was so.
    DeletedPeer(PeerLease),
    /// By a record: all leases are lost, of which so many were live.
    AreLost(u64),
    /// By a record: the external address is this one.
    Named(Address),
    /// By a moment: its expiry isn't above it.
    EndedMap(MapLease),
    /// By a moment: its expiry isn't above it.
    EndedPeer(PeerLease),
}
