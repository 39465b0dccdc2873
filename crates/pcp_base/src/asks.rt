//! What a request asks for, and what it is answered (RFC 6887, sections 7, 11 and 12).

use crate::addresses::{Address, Nonce};
use crate::codes::Code;
use crate::leases::{Endpoint, FilterList};

/// The ports that a PORT_SET option asks for or tells (RFC 7753, section 4.1).
#[derive(Clone, Copy, Debug, PartialEq, Eq, Hash)]
pub struct PortSet {
    /// How many ports.
    pub size: u16,
    /// The first internal port.
    pub first: u16,
    /// Whether the external start is to be even or odd as the internal one is.
    pub parity: bool,
}

/// A MAP request (RFC 6887, section 11.1).
#[derive(Debug, Drop)]
pub struct MapAsk {
    /// The internal endpoint, whose address is that of THIRD_PARTY where the request has it.
    pub endpoint: Endpoint,
    /// The mapping nonce, which must be that of the lease that the request renews or deletes.
    pub nonce: Nonce,
    /// Seconds; 0 asks for deletion.
    pub lifetime: u32,
    /// The suggested external port, 0 for none.
    pub port: u16,
    /// The suggested external address.
    pub address: Address,
    /// Whether the request has PREFER_FAILURE.
    pub prefer: bool,
    /// The PORT_SET of the request.
    pub set: Option<PortSet>,
    /// The filters in request order, with prefixes 0 to 128.
    pub filters: FilterList,
}

/// A PEER request (RFC 6887, section 12.1).
#[derive(Clone, Copy, Debug, PartialEq, Eq, Hash)]
pub struct PeerAsk {
    /// The internal endpoint, whose address is that of THIRD_PARTY where the request has it.
    pub endpoint: Endpoint,
    /// The mapping nonce, which must be that of the lease that the request renews or deletes.
    pub nonce: Nonce,
    /// Seconds; 0 asks for deletion.
    pub lifetime: u32,
    /// The suggested external port, 0 for none.
    pub port: u16,
    /// The suggested external address.
    pub address: Address,
    pub remote: Address,
    /// The remote port, at least 1.
    pub remote_port: u16,
}

/// A request that is refused before the lease table is asked.
#[derive(Clone, Copy, Debug, PartialEq, Eq, Hash)]
pub struct Refusal {
    pub code: Code,
    /// Whether the request could be read, its options too; octets 12 to 23 of the reply are zero then.
    pub parsed: bool,
    /// The seconds that the error reply tells: those of the code, or, where the nonce of a live lease
    /// differs, what the lease still has.
    pub lifetime: u32,
}

/// What is asked of the lease table.
#[derive(Debug, Drop)]
pub enum Ask {
    /// Nothing: it is known already how the request is refused.
    Known(Refusal),
    /// An ANNOUNCE request (RFC 6887, section 14.1).
    Announce,
    /// A MAP request.
    Map(MapAsk),
    /// A PEER request.
    Peer(PeerAsk),
}

/// What is answered.
#[derive(Clone, Copy, Debug, PartialEq, Eq, Hash)]
pub enum Answer {
    /// An error reply.
    Refused(Refusal),
    /// A SUCCESS that tells nothing but the epoch.
    Announced,
    /// There is no lease now.
    Gone,
    /// A MAP lease is granted or renewed.
    Mapped {
        /// Seconds granted.
        lifetime: u32,
        /// The external port that is told.
        external: u16,
        /// The external address.
        address: Address,
        /// The ports of the lease, where the request asked for a set and the lease has more than one.
        set: Option<PortSet>,
    },
    /// A PEER lease is granted or renewed.
    Peered {
        /// Seconds granted.
        lifetime: u32,
        /// The external port.
        external: u16,
        /// The external address.
        address: Address,
    },
}
