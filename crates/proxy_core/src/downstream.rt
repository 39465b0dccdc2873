//! What a client gets of the upstream reply to its request.
ghost use Rattle.std.specs.Prelude.{◌≡◌, ◌≤◌, ◌++◌, length, not, filter, IfOk, OnOk, OnErr};
ghost use Rattle.pcp_codec.specs.Replies.{refusal_text};
ghost use Rattle.pcp_options.specs.ReadResponses.{is_third};
ghost use Rattle.pcp_options.specs.Replies.{success_text};
ghost use Rattle.proxy_core.specs.Down.{down_body, down_error, down_items, down_success, down_text, is_success, nonce_of, refuses_added, relayed_text, with_nonce};
ghost use Rattle.proxy_core.specs.Relays.{announced, reply_to};

use crate::outs::CLIENTS_PORT;
use crate::waits::Waiting;
use pcp_base::{Address, Code, Datagram, Memory, Nonce, Octets, Refusal};
use pcp_codec::{Body, Common, HEAD_OCTETS, NONCE_PLACE, octets_of, write_refusal};
use pcp_options::{Item, Response, write_success_with};
use std::alloc::Global;

/// Appends the error reply to a request of at least 24 octets that could be read, its options too
/// (RFC 6887, section 7.2): this code, a lifetime in seconds, and an epoch in seconds. After
/// `Memory` nothing was appended.
pub fn write_relayed(
    alloc: Global,
    out: &mut Vec<u8>,
    request: &[u8],
    code: Code,
    lifetime: u32,
    epoch: u32,
) -> Result<(), Memory>
    requires { HEAD_OCTETS ≤ length request.now }
    ensures ok { OnOk result (out.new.items
        ≡ out.old.items ++ relayed_text request.now code lifetime epoch) }
    ensures err { OnErr result (out.new.items ≡ out.old.items) }
{
    let refusal = Refusal {
        code,
        parsed: true,
        lifetime,
    };
    write_refusal(alloc, out, request, refusal, epoch)
}

/// An ANNOUNCE response as it goes on to all clients (RFC 6887, section 14.1).
pub(crate) fn announced(alloc: Global, datagram: &Datagram) -> Result<Datagram, Memory>
    ensures { IfOk result (λ out. out ≡ announced datagram.now) }
{
    Ok(Datagram {
        peer: Address::v4(224, 0, 0, 1),
        port: CLIENTS_PORT,
        door: 0,
        octets: Octets::of(datagram.octets.items().to_vec(alloc)?),
    })
}

/// What a client that waits is told.
pub(crate) fn reply_to(
    alloc: Global,
    waiting: &Waiting,
    response: &Response,
) -> Result<Datagram, Memory>
    requires { HEAD_OCTETS ≤ length waiting.now.request }
    ensures { IfOk result (λ out. out ≡ reply_to response.now waiting.now) }
{
    let mut text = Vec::new(alloc);
    let request = waiting.request.items();
    write_down(alloc, &mut text, request, waiting.added, response)?;
    Ok(Datagram {
        peer: waiting.client,
        port: waiting.port,
        door: waiting.door,
        octets: Octets::of(text),
    })
}

/// Appends the octets for the client that asked this request; `added`: the relay added THIRD_PARTY
/// to it.
fn write_down(
    alloc: Global,
    text: &mut Vec<u8>,
    request: &[u8],
    added: bool,
    response: &Response,
) -> Result<(), Memory>
    requires { HEAD_OCTETS ≤ length request.now }
    ensures { OnOk result (text.new.items
        ≡ text.old.items ++ down_text request.now added response.now) }
{
    if is_success(response.code) {
        write_down_success(alloc, text, request, added, response)
    } else {
        write_down_error(alloc, text, request, added, response)
    }
}

fn is_success(code: Code) -> bool
    ensures { result ≡ is_success code }
{
    match code {
        Code::Success => true,
        _ => false,
    }
}

/// Whether the upstream server refused the THIRD_PARTY that the relay added.
fn refuses_added(added: bool, code: Code) -> bool
    ensures { result ≡ refuses_added added code }
{
    match code {
        Code::UnsuppOption => added,
        _ => false,
    }
}

fn write_down_error(
    alloc: Global,
    text: &mut Vec<u8>,
    request: &[u8],
    added: bool,
    response: &Response,
) -> Result<(), Memory>
    requires { HEAD_OCTETS ≤ length request.now }
    ensures { OnOk result (text.new.items
        ≡ text.old.items ++ down_error request.now added response.now) }
{
    let (code, lifetime) = if refuses_added(added, response.code) {
        (Code::NotAuthorized, Code::NotAuthorized.lifetime())
    } else {
        (response.code, response.lifetime)
    };
    write_relayed(alloc, text, request, code, lifetime, response.epoch)
}

fn write_down_success(
    alloc: Global,
    text: &mut Vec<u8>,
    request: &[u8],
    added: bool,
    response: &Response,
) -> Result<(), Memory>
    ensures { OnOk result (text.new.items
        ≡ text.old.items ++ down_success request.now added response.now) }
{
    let body = down_body(nonce_in(request), response.body);
    let items = down_items(alloc, added, response.items.items())?;
    write_success_with(
        alloc,
        text,
        response.lifetime,
        response.epoch,
        &body,
        &items,
    )
}

/// The nonce of a MAP or PEER request.
fn nonce_in(request: &[u8]) -> Nonce
    ensures { result ≡ nonce_of request.now }
{
    Nonce(octets_of(request, NONCE_PLACE))
}

/// The data of a reply, with the client's nonce.
fn down_body(nonce: Nonce, body: Body) -> Body
    ensures { result ≡ down_body nonce body }
{
    match body {
        Body::Announce => Body::Announce,
        Body::Map(common) => Body::Map(with_nonce(common, nonce)),
        Body::Peer {
            common,
            remote_port,
            remote,
        } => Body::Peer {
            common: with_nonce(common, nonce),
            remote_port,
            remote,
        },
    }
}

fn with_nonce(common: Common, nonce: Nonce) -> Common
    ensures { result ≡ with_nonce common nonce }
{
    Common { nonce, ..common }
}

/// The options of a reply: without THIRD_PARTY where the relay added that.
fn down_items(alloc: Global, added: bool, items: &[Item]) -> Result<Vec<Item>, Memory>
    ensures { IfOk result (λ list. list.items ≡ down_items added items.now) }
{
    if !added {
        return Ok(items.to_vec(alloc)?);
    }
    let kept = items.iter().copied().filter(|item| !is_third(item));
    Ok(kept.collect(alloc)?)
}

fn is_third(item: &Item) -> bool
    ensures { result ≡ is_third item.now }
{
    match item {
        Item::ThirdParty(_address) => true,
        _ => false,
    }
}
