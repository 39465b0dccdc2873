//! Replies (RFC 6886, sections 3 and 3.2 to 3.6).
ghost use Rattle.std.specs.Prelude.{◌≡◌, ◌<◌, ◌++◌, drop, OnOk, OnErr};
ghost use Rattle.natpmp_front.specs.Replies.{address_reply, address_told, external_told, front_text, head, lifetime_told, map_reply, result_of, result_told};

use crate::fields::{is_of_map, operation_in, u16_of};
use crate::layout::*;
use pcp_base::{Address, Answer, Code, Memory};
use std::alloc::Global;

/// How many octets every reply begins with, and a reply to an unknown operation has.
const HEAD_OCTETS: usize = 8;

/// How many octets a reply with the external address has.
const ADDRESS_REPLY_OCTETS: usize = 12;

/// How many octets a reply to a request for a mapping has.
const MAP_REPLY_OCTETS: usize = 16;

/// Appends the reply to a request (RFC 6886, sections 3 and 3.2 to 3.6): version 0, 128 and the operation,
/// the result and the epoch in seconds; then, for operation 0, the IPv4 address in the last 4 octets of
/// `address`, or zeros where the answer is a refusal; for the operations 1 and 2 the internal port of the
/// request, the external port and the granted seconds, both 0 where there is no lease. It has 12, 16 and,
/// for any other operation, 8 octets. Octets past the request's end read as zero. After `Memory` nothing
/// was appended.
pub fn write_front(
    _alloc: Global,
    out: &mut Vec<u8>,
    request: &[u8],
    address: &Address,
    answer: &Answer,
    epoch: u32,
) -> Result<(), Memory>
    ensures ok { OnOk result (out.new.items
        ≡ out.old.items ++ front_text request.now address.now answer.now epoch) }
    ensures err { OnErr result (out.new.items ≡ out.old.items) }
{
    let operation = operation_in(request);
    if operation == ADDRESS_OPERATION {
        out.extend_from_slice(&address_reply(address, answer, epoch))?;
        return Ok(());
    }
    if is_of_map(request) {
        let internal = u16_of(request, INTERNAL_PLACE);
        out.extend_from_slice(&map_reply(operation, internal, answer, epoch))?;
        return Ok(());
    }
    out.extend_from_slice(&head(operation, result_told(answer), epoch))?;
    Ok(())
}

/// The result of a refusal's code (RFC 6886, section 3.5): 3 for a network failure, 4 where resources are
/// out, 5 for an operation that isn't supported, and 2, refused, for any other.
fn result_of(code: Code) -> u16
    ensures { result ≡ result_of code }
{
    match code {
        Code::NetworkFailure => 3,
        Code::NoResources | Code::UserExQuota => 4,
        Code::UnsuppOpcode => 5,
        _ => 2,
    }
}

/// The result that an answer tells, 0 for success.
fn result_told(answer: &Answer) -> u16
    ensures { result ≡ result_told answer.now }
{
    match answer {
        Answer::Refused(refusal) => result_of(refusal.code),
        _ => 0,
    }
}

/// What every reply begins with.
fn head(operation: u8, told: u16, epoch: u32) -> [u8; HEAD_OCTETS]
    requires { operation < 128 }
    ensures value { result ≡ head operation told epoch }
{
    let [r0, r1] = told.to_be_bytes();
    let [e0, e1, e2, e3] = epoch.to_be_bytes();
    [VERSION, REPLY_BIT + operation, r0, r1, e0, e1, e2, e3]
}

/// The reply to operation 0.
fn address_reply(address: &Address, answer: &Answer, epoch: u32) -> [u8; ADDRESS_REPLY_OCTETS]
    ensures { result ≡ address_reply address.now answer.now epoch }
{
    let [h0, h1, h2, h3, h4, h5, h6, h7] = head(ADDRESS_OPERATION, result_told(answer), epoch);
    let [a0, a1, a2, a3] = address_told(address, answer);
    [h0, h1, h2, h3, h4, h5, h6, h7, a0, a1, a2, a3]
}

/// The IPv4 address that an answer to operation 0 tells, zeros where it is a refusal.
fn address_told(address: &Address, answer: &Answer) -> [u8; 4]
    ensures { result ≡ address_told address.now answer.now }
{
    match answer {
        Answer::Refused(_refusal) => [0; 4],
        _ => last_four(address),
    }
}

/// The last four octets of an address.
fn last_four(address: &Address) -> [u8; 4]
    ensures { result ≡ drop 12 address.now.0 }
{
    let [.., a, b, c, d] = address.0;
    [a, b, c, d]
}

/// The reply to a request for a mapping of an internal port.
fn map_reply(operation: u8, internal: u16, answer: &Answer, epoch: u32) -> [u8; MAP_REPLY_OCTETS]
    requires { operation < 128 }
    ensures { result ≡ map_reply operation internal answer.now epoch }
{
    let [h0, h1, h2, h3, h4, h5, h6, h7] = head(operation, result_told(answer), epoch);
    let [i0, i1] = internal.to_be_bytes();
    let [x0, x1] = external_told(answer).to_be_bytes();
    let [l0, l1, l2, l3] = lifetime_told(answer).to_be_bytes();
    [
        h0, h1, h2, h3, h4, h5, h6, h7, i0, i1, x0, x1, l0, l1, l2, l3,
    ]
}

/// The external port that an answer to a request for a mapping tells, 0 where there is no lease.
fn external_told(answer: &Answer) -> u16
    ensures { result ≡ external_told answer.now }
{
    match answer {
        Answer::Mapped { external, .. } => *external,
        _ => 0,
    }
}

/// The seconds that it tells, 0 where there is no lease.
fn lifetime_told(answer: &Answer) -> u32
    ensures { result ≡ lifetime_told answer.now }
{
    match answer {
        Answer::Mapped { lifetime, .. } => *lifetime,
        _ => 0,
    }
}
