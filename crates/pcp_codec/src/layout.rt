//! Sizes, places and numbers of a message (RFC 6887, sections 7, 7.1, 7.2, 11.1 and 12.1).

/// The version of this protocol, in octet 0.
pub const VERSION: u8 = 2;

/// The R bit in octet 1: 0 in a request, set in a response. The opcode is in the seven bits after it.
pub const R_BIT: u8 = 128;

/// The opcode of ANNOUNCE.
pub const ANNOUNCE_OPCODE: u8 = 0;

/// The opcode of MAP.
pub const MAP_OPCODE: u8 = 1;

/// The opcode of PEER.
pub const PEER_OPCODE: u8 = 2;

/// How many octets a message has at most.
pub const MESSAGE_OCTETS: usize = 1100;

/// How many octets of header a message has.
pub const HEAD_OCTETS: usize = 24;

/// How many octets of data MAP has.
pub const MAP_OCTETS: usize = 36;

/// How many octets of data PEER has.
pub const PEER_OCTETS: usize = 56;

/// Where the result code stands in a response.
pub const CODE_PLACE: usize = 3;

/// Where the epoch stands in a response.
pub const EPOCH_PLACE: usize = 8;

/// Where the lifetime stands.
pub const LIFETIME_PLACE: usize = 4;

/// Where the client address stands in a request.
pub const CLIENT_PLACE: usize = 8;

/// Where the last 12 octets of a header stand: in a request they are the last 96 bits of the client
/// address.
pub const LAST_PLACE: usize = 12;

/// Where the nonce of MAP and PEER stands.
pub const NONCE_PLACE: usize = 24;

/// Where their protocol stands.
pub const PROTOCOL_PLACE: usize = 36;

/// Where their internal port stands.
pub const INTERNAL_PLACE: usize = 40;

/// Where their external port stands.
pub const EXTERNAL_PLACE: usize = 42;

/// Where their external address stands.
pub const ADDRESS_PLACE: usize = 44;

/// Where the remote port of PEER stands.
pub const REMOTE_PORT_PLACE: usize = 60;

/// Where the remote address of PEER stands.
pub const REMOTE_PLACE: usize = 64;
