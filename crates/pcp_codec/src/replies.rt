//! Replies (RFC 6887, sections 7.2 and 8.2).
ghost use Rattle.std.specs.Prelude.{◌≡◌, ◌≤◌, ◌++◌, length, OnOk, OnErr};
ghost use Rattle.pcp_base.specs.Codes.{code_number};
ghost use Rattle.pcp_codec.specs.Replies.{head, reply_length, refusal_text};

use crate::fields::{copy_octets, octets_of, opcode_in};
use crate::layout::*;
use pcp_base::{Memory, Refusal};
use std::alloc::Global;

/// Error replies of at most so many octets have an array that is soon cleared. Those to a MAP or PEER
/// request with few options are.
const SHORT_OCTETS: usize = 128;

/// Writes the head of a reply (RFC 6887, section 7.2): version 2, the R bit and the low 7 bits of `opcode`,
/// the result code, the lifetime and the epoch in seconds, and the octets 12 to 23.
pub fn write_head(
    out: &mut [u8; HEAD_OCTETS],
    opcode: u8,
    code: u8,
    lifetime: u32,
    epoch: u32,
    last: &[u8; 12],
)
    ensures { out.new ≡ head opcode code lifetime epoch last.now }
{
    let [l0, l1, l2, l3] = lifetime.to_be_bytes();
    let [e0, e1, e2, e3] = epoch.to_be_bytes();
    let [r0, r1, r2, r3, r4, r5, r6, r7, r8, r9, r10, r11] = *last;
    *out = [
        VERSION,
        R_BIT + opcode % R_BIT,
        0,
        code,
        l0,
        l1,
        l2,
        l3,
        e0,
        e1,
        e2,
        e3,
        r0,
        r1,
        r2,
        r3,
        r4,
        r5,
        r6,
        r7,
        r8,
        r9,
        r10,
        r11,
    ];
}

/// How many octets an error reply to the request has, 24 to 1100.
fn reply_len(request: &[u8]) -> usize
    ensures value { result ≡ reply_length request.now }
    ensures least { HEAD_OCTETS ≤ result }
    ensures most { result ≤ MESSAGE_OCTETS }
{
    request
        .len()
        .min(MESSAGE_OCTETS)
        .next_multiple_of(4)
        .max(HEAD_OCTETS)
}

/// Appends the error reply to a request of at least 2 octets: the request with zeros past its end, cut at
/// [`MESSAGE_OCTETS`], under a new head (RFC 6887, sections 7.2 and 8.2; zeros and cut are our own). It
/// has 24 to 1100 octets, a multiple of 4. `epoch` is in seconds. After `Memory` nothing was appended.
pub fn write_refusal(
    _alloc: Global,
    out: &mut Vec<u8>,
    request: &[u8],
    refusal: Refusal,
    epoch: u32,
) -> Result<(), Memory>
    requires { 2 ≤ length request.now }
    ensures ok { OnOk result (out.new.items
        ≡ out.old.items ++ refusal_text request.now refusal epoch) }
    ensures err { OnErr result (out.new.items ≡ out.old.items) }
{
    if reply_len(request) <= SHORT_OCTETS {
        append_refusal::<SHORT_OCTETS>(out, request, refusal, epoch)
    } else {
        append_refusal::<MESSAGE_OCTETS>(out, request, refusal, epoch)
    }
}

/// Appends an error reply, which is put together in an array of `N` octets.
fn append_refusal<const N: usize>(
    out: &mut Vec<u8>,
    request: &[u8],
    refusal: Refusal,
    epoch: u32,
) -> Result<(), Memory>
    requires room { reply_length request.now ≤ N }
    requires most { N ≤ MESSAGE_OCTETS }
    ensures ok { OnOk result (out.new.items
        ≡ out.old.items ++ refusal_text request.now refusal epoch) }
    ensures err { OnErr result (out.new.items ≡ out.old.items) }
{
    let mut reply = [0; N];
    let length = reply_len(request);
    refuse(request, refusal, epoch, &mut reply[..length]);
    out.extend_from_slice(&reply[..length])?;
    Ok(())
}

/// Writes the error reply to a request over a piece of its length.
fn refuse(request: &[u8], refusal: Refusal, epoch: u32, reply: &mut [u8])
    requires { length reply.old ≡ reply_length request.now }
    ensures { reply.new ≡ refusal_text request.now refusal epoch }
{
    let last = if refusal.parsed {
        [0; 12]
    } else {
        octets_of(request, LAST_PLACE)
    };
    let mut head = [0; HEAD_OCTETS];
    write_head(
        &mut head,
        opcode_in(request),
        refusal.code.number(),
        refusal.lifetime,
        epoch,
        &last,
    );
    let (front, rest) = reply.split_at_mut(HEAD_OCTETS);
    front.copy_from_slice(&head);
    copy_octets(request, HEAD_OCTETS, rest);
}
