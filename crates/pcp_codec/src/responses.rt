//! Responses (RFC 6887, section 7.2).
ghost use Rattle.std.specs.Prelude.{◌≡◌, ◌&&◌, Some, None, slice_get, IfOk, MatchResult};
ghost use Rattle.pcp_codec.specs.Responses.{IsResponseHead, code_of, head_of, is_framed};

use crate::fields::{octet_of, opcode_in, u32_of};
use crate::layout::*;
use crate::requests::data_len;
use pcp_base::Code;
use thiserror::Error;

/// The result codes in the order of their numbers, from 0 (RFC 6887, section 7.4).
pub const CODES: [Code; 14] = [
    Code::Success,
    Code::UnsuppVersion,
    Code::NotAuthorized,
    Code::MalformedRequest,
    Code::UnsuppOpcode,
    Code::UnsuppOption,
    Code::MalformedOption,
    Code::NetworkFailure,
    Code::NoResources,
    Code::UnsuppProtocol,
    Code::UserExQuota,
    Code::CannotProvideExternal,
    Code::AddressMismatch,
    Code::ExcessiveRemotePeers,
];

/// The head of a response (RFC 6887, section 7.2).
#[derive(Clone, Copy, Debug, PartialEq, Eq)]
pub struct Head {
    /// 0 to 2, the opcode of the request.
    pub opcode: u8,
    /// The result.
    pub code: Code,
    /// Seconds, 0 to 2^32 - 1: those granted, or how long an error is to be taken to last.
    pub lifetime: u32,
    /// The server's epoch in seconds, 0 to 2^32 - 1.
    pub epoch: u32,
}

/// The octets are no response.
#[derive(Clone, Copy, Debug, PartialEq, Eq, Error)]
#[error("not a response")]
pub struct NotResponse;

/// The head of a response. Refused exactly where the octets aren't 24 to 1100 in whole words, with
/// version 2, the R bit, an opcode of 0 to 2 with room for its data, and a code of at most 13 (RFC 6887,
/// sections 7, 7.2 and 7.4). Takes no memory.
pub fn read_response_head(octets: &[u8]) -> Result<Head, NotResponse>
    ensures exact { MatchResult result (λ head. head_of octets.now ≡ Some head)
        (λ _. head_of octets.now ≡ None) }
    ensures grammar { IfOk result (λ head. IsResponseHead octets.now head) }
    ensures only { (head : Head) → IsResponseHead octets.now head → result ≡ Ok head }
{
    match head_in(octets) {
        Some(head) => Ok(head),
        None => Err(NotResponse),
    }
}

/// The head of a response; none where the octets are no response.
fn head_in(octets: &[u8]) -> Option<Head>
    ensures { result ≡ head_of octets.now }
{
    let code = code_of(octet_of(octets, CODE_PLACE));
    if !is_framed(octets) {
        return None;
    }
    Some(Head {
        opcode: opcode_in(octets),
        code: code?,
        lifetime: u32_of(octets, LIFETIME_PLACE),
        epoch: u32_of(octets, EPOCH_PLACE),
    })
}

/// Whether the octets are those of a response but for its code.
fn is_framed(octets: &[u8]) -> bool
    ensures { result ≡ is_framed octets.now }
{
    octets.len() >= HEAD_OCTETS
        && octets.len() <= MESSAGE_OCTETS
        && octets.len() % 4 == 0
        && octet_of(octets, 0) == VERSION
        && octet_of(octets, 1) >= R_BIT
        && opcode_in(octets) <= PEER_OPCODE
        && octets.len() >= HEAD_OCTETS + data_len(octets)
}

/// The code that has this number.
fn code_of(number: u8) -> Option<Code>
    ensures { result ≡ code_of number }
{
    CODES.get(usize::from(number)).copied()
}
