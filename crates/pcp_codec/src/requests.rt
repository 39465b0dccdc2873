//! Requests (RFC 6887, sections 7.1, 8.2, 11.1, 12.1 and 14.1).
ghost use Rattle.std.specs.Prelude.{◌≡◌, ℕ, ◌≤◌, List, drop};
ghost use Rattle.pcp_base.specs.Cases.{first_case};
ghost use Rattle.pcp_codec.specs.Packets.{IsRequest};
ghost use Rattle.pcp_codec.specs.Requests.{opcode_of, data_length, common_of, body_of};
ghost use Rattle.pcp_base.specs.Refusals.{unparsed};
ghost use Rattle.pcp_codec.specs.Framing.{frame_steps, is_plain_map, reading_of};

use crate::fields::{octet_of, octets_of, opcode_in, u16_of, u32_of};
use crate::layout::*;
use pcp_base::{Address, Code, Nonce, Refusal};

/// The data that MAP and PEER share (RFC 6887, sections 11.1 and 12.1), in requests and in responses.
#[derive(Clone, Copy, Debug, PartialEq, Eq)]
pub struct Common {
    /// The mapping nonce, 12 octets.
    pub nonce: Nonce,
    /// The number of the transport protocol, 0 to 255; 0 stands for all protocols.
    pub protocol: u8,
    /// The internal port, 0 for all ports.
    pub internal: u16,
    /// The external port, suggested in a request, 0 for none, and assigned in a response.
    pub external: u16,
    /// The external address, suggested in a request and assigned in a response.
    pub address: Address,
}

/// The opcode of a message with its data (RFC 6887, section 7.1).
#[derive(Clone, Copy, Debug, PartialEq, Eq)]
pub enum Body {
    /// Opcode 0, without data (section 14.1).
    Announce,
    /// Opcode 1, 36 octets (section 11.1).
    Map(Common),
    /// Opcode 2, 56 octets (section 12.1).
    Peer {
        common: Common,
        /// The port of the remote peer, 0 to 65535.
        remote_port: u16,
        /// The address of the remote peer.
        remote: Address,
    },
}

/// A request but for its options (RFC 6887, section 7.1).
#[derive(Clone, Copy, Debug, PartialEq, Eq)]
pub struct Frame {
    /// 0 to 2, the number of the body's opcode.
    pub opcode: u8,
    /// The requested lifetime in seconds, 0 to 2^32 - 1.
    pub lifetime: u32,
    pub body: Body,
    /// The place in the message where the options begin: 24, 60 or 80.
    pub options: usize,
}

/// What a datagram is, before its options are read.
#[derive(Clone, Copy, Debug, PartialEq, Eq)]
pub enum Framed {
    /// It gets no answer: it has fewer than 2 octets, it is a response, or it is of version 2 and has
    /// fewer than 24.
    Silent,
    /// A request that is refused before it is understood, with code 1, 3, 4 or 12.
    Refuse(Refusal),
    /// A request whose options are still to be read.
    Whole(Frame),
}

/// What a datagram of any length from `source` is. The first that fails of five steps decides: version
/// (code 1), length (3), opcode (4), room for the data (3) and client address (12). Octets past the end
/// read as zero (RFC 6887, section 8.2; the order is our own).
pub fn read_request(octets: &[u8], source: &Address) -> Framed
    ensures exact { result ≡ reading_of octets.now source.now }
    ensures grammar { (frame : Frame) → result ≡ Framed.Whole frame
        → IsRequest octets.now source.now frame (drop frame.options octets.now) }
    ensures only { (frame : Frame) (options : List ℕ)
        → IsRequest octets.now source.now frame options
        → result ≡ Framed.Whole frame }
{
    first_steps(octets, source)
}

/// Whether a datagram from `source` is a MAP request without options that [`read_request`] reads as whole:
/// by its length, version, opcode and client address alone.
pub fn is_plain_map(octets: &[u8], source: &Address) -> bool
    ensures { result ≡ is_plain_map octets.now source.now }
{
    octets.len() == HEAD_OCTETS + MAP_OCTETS
        && octet_of(octets, 0) == VERSION
        && octet_of(octets, 1) == MAP_OPCODE
        && Address(octets_of(octets, CLIENT_PLACE)) == *source
}

/// The answer of the first five steps.
fn first_steps(octets: &[u8], source: &Address) -> Framed
    ensures { result ≡ reading_of octets.now source.now }
{
    let version = octet_of(octets, 0);
    if octets.len() < 2
        || octet_of(octets, 1) >= R_BIT
        || (version == VERSION && octets.len() < HEAD_OCTETS)
    {
        return Framed::Silent;
    }
    match refused_with(octets, source) {
        Some(refusal) => Framed::Refuse(refusal),
        None => Framed::Whole(Frame {
            opcode: opcode_in(octets),
            lifetime: u32_of(octets, LIFETIME_PLACE),
            body: read_body(octets),
            options: HEAD_OCTETS + data_len(octets),
        }),
    }
}

/// A request that is refused before it is understood, with the lifetime of the code.
fn refusal(code: Code) -> Refusal
    ensures { result ≡ unparsed code }
{
    Refusal {
        code,
        parsed: false,
        lifetime: code.lifetime(),
    }
}

/// The refusal of the first of the five steps that fails.
fn refused_with(octets: &[u8], source: &Address) -> Option<Refusal>
    ensures { result ≡ first_case (frame_steps octets.now source.now) }
{
    let client = Address(octets_of(octets, CLIENT_PLACE));
    if octet_of(octets, 0) != VERSION {
        Some(refusal(Code::UnsuppVersion))
    } else if octets.len() > MESSAGE_OCTETS || octets.len() % 4 != 0 {
        Some(refusal(Code::MalformedRequest))
    } else if opcode_in(octets) > PEER_OPCODE {
        Some(refusal(Code::UnsuppOpcode))
    } else if octets.len() < HEAD_OCTETS + data_len(octets) {
        Some(refusal(Code::MalformedRequest))
    } else if client != *source {
        Some(refusal(Code::AddressMismatch))
    } else {
        None
    }
}

/// How many octets of data the opcode of a message has, where that is 0 to 2.
pub(crate) fn data_len(octets: &[u8]) -> usize
    ensures value { result ≡ data_length (opcode_of octets.now) }
    ensures bound { result ≤ PEER_OCTETS }
{
    match opcode_in(octets) {
        ANNOUNCE_OPCODE => 0,
        MAP_OPCODE => MAP_OCTETS,
        _ => PEER_OCTETS,
    }
}

/// The opcode of a message with its data, where it has an opcode of 0 to 2 and room for the data. Octets
/// past its end read as zero.
pub fn read_body(octets: &[u8]) -> Body
    ensures { result ≡ body_of octets.now }
{
    match opcode_in(octets) {
        ANNOUNCE_OPCODE => Body::Announce,
        MAP_OPCODE => Body::Map(read_common(octets)),
        _ => Body::Peer {
            common: read_common(octets),
            remote_port: u16_of(octets, REMOTE_PORT_PLACE),
            remote: Address(octets_of(octets, REMOTE_PLACE)),
        },
    }
}

/// The data that MAP and PEER share, at the octets 24 to 59 of a message with one of these opcodes
/// (RFC 6887, sections 11.1 and 12.1). Octets past its end read as zero.
pub fn read_common(octets: &[u8]) -> Common
    ensures { result ≡ common_of octets.now }
{
    Common {
        nonce: Nonce(octets_of(octets, NONCE_PLACE)),
        protocol: octet_of(octets, PROTOCOL_PLACE),
        internal: u16_of(octets, INTERNAL_PLACE),
        external: u16_of(octets, EXTERNAL_PLACE),
        address: Address(octets_of(octets, ADDRESS_PLACE)),
    }
}
