//! Numbers and places of a message (RFC 6886, sections 3, 3.2 and 3.3).

/// The version of this protocol, in octet 0.
pub const VERSION: u8 = 0;

/// What a reply adds to the operation in octet 1: from this number on that octet is a reply's.
pub const REPLY_BIT: u8 = 128;

/// The operation that asks for the external address.
pub const ADDRESS_OPERATION: u8 = 0;

/// The operation that asks for a mapping of UDP.
pub const MAP_UDP_OPERATION: u8 = 1;

/// The operation that asks for a mapping of TCP.
pub const MAP_TCP_OPERATION: u8 = 2;

/// How many octets a request for a mapping has; those past it are ignored.
pub const MAP_OCTETS: usize = 12;

/// Where the internal port stands in a request for a mapping.
pub const INTERNAL_PLACE: usize = 4;

/// Where the suggested external port stands there.
pub const SUGGESTED_PLACE: usize = 6;

/// Where the requested lifetime stands there.
pub const LIFETIME_PLACE: usize = 8;
