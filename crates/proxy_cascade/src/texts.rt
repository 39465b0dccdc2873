//! The texts that a cascade sends.
ghost use Rattle.std.specs.Prelude.{◌≡◌, ◌≤◌, [], length, IfOk};
ghost use Rattle.pcp_base.specs.declared.asks.Answer.TheVariants.{Refused};
ghost use Rattle.pcp_codec.specs.declared.layout.TheConstants.{HEAD_OCTETS};
ghost use Rattle.pcp_codec.specs.declared.requests.Body.TheVariants.{Announce};
ghost use Rattle.pcp_options.specs.Replies.{reply_text, success_text};
ghost use Rattle.pcp_options.specs.Requests.{asked_common};
ghost use Rattle.proxy_core.specs.Down.{relayed_text};
ghost use Rattle.proxy_cascade.specs.FromClients.{is_repeated, lease_text, repeated, up_text};
ghost use Rattle.proxy_cascade.specs.FromServers.{again_text};

use cascade_ties::{Tie, Waiting};
use pcp_base::{Address, Answer, Ask, Code, Endpoint, MapAsk, Memory, Nonce, Octets, Refusal};
use pcp_codec::{Body, Common};
use pcp_options::{Item, Items, write_reply, write_request_with, write_success_with};
use proxy_core::{upstream_nonce, write_relayed};
use std::alloc::Global;

fn is_repeated(item: &Item) -> bool
    ensures { result ≡ is_repeated item.now }
{
    match item {
        Item::ThirdParty(_address) => false,
        Item::PreferFailure => true,
        Item::Filter(_filter) => true,
        Item::PortSet(_set) => false,
    }
}

/// The options of a request that are asked upstream, and repeated in a success: PREFER_FAILURE and
/// FILTER (RFC 6887, sections 13.2 and 13.3).
pub(crate) fn repeated(alloc: Global, items: &Items) -> Result<Items, Memory>
    ensures { IfOk result (λ list. list ≡ repeated items.now) }
{
    let kept = items.items().iter().copied().filter(is_repeated);
    Ok(Items::of(kept.collect(alloc)?))
}

/// The data of MAP for an endpoint.
fn map_data(client: &Endpoint, nonce: Nonce, external: u16, address: Address) -> Common
    ensures { result ≡ asked_common client.now nonce external address }
{
    Common {
        nonce,
        protocol: client.protocol.number(),
        internal: client.port,
        external,
        address,
    }
}

/// The success that tells an endpoint its external port and address (RFC 6887, section 11.1);
/// `lifetime` and `epoch` are in seconds.
pub(crate) fn lease_text(
    alloc: Global,
    client: &Endpoint,
    nonce: Nonce,
    lifetime: u32,
    epoch: u32,
    external: u16,
    address: Address,
    items: &Items,
) -> Result<Octets, Memory>
    ensures { IfOk result (λ text. text
        ≡ lease_text client.now nonce lifetime epoch external address items.now) }
{
    let body = Body::Map(map_data(client, nonce, external, address));
    let mut text = Vec::new(alloc);
    write_success_with(alloc, &mut text, lifetime, epoch, &body, items.items())?;
    Ok(Octets::of(text))
}

/// The request that goes upstream for a local port, with these options.
pub(crate) fn up_text(
    alloc: Global,
    key: &[u8; 32],
    own: &Address,
    ask: &MapAsk,
    items: &Items,
    local: u16,
) -> Result<Octets, Memory>
    ensures { IfOk result (λ text. text ≡ up_text key.now own.now ask.now items.now local) }
{
    let asked = Endpoint {
        address: *own,
        protocol: ask.endpoint.protocol,
        port: local,
    };
    let nonce = upstream_nonce(key, &ask.endpoint.address, &ask.nonce);
    let body = Body::Map(map_data(&asked, nonce, ask.port, ask.address));
    let items = repeated(alloc, items)?;
    let mut text = Vec::new(alloc);
    write_request_with(alloc, &mut text, own, ask.lifetime, &body, items.items())?;
    Ok(Octets::of(text))
}

/// The request of a client that waits, for another local port.
pub(crate) fn again_text(
    alloc: Global,
    key: &[u8; 32],
    own: &Address,
    tie: &Tie,
    waiting: &Waiting,
    local: u16,
) -> Result<Octets, Memory>
    ensures { IfOk result (λ text. text
        ≡ again_text key.now own.now tie.now waiting.now local) }
{
    let asked = Endpoint {
        address: *own,
        protocol: tie.client.protocol,
        port: local,
    };
    let nonce = upstream_nonce(key, &tie.client.address, &tie.nonce);
    let body = Body::Map(map_data(&asked, nonce, waiting.suggested, waiting.address));
    let mut text = Vec::new(alloc);
    let items = waiting.items.items();
    write_request_with(alloc, &mut text, own, waiting.lifetime, &body, items)?;
    Ok(Octets::of(text))
}

/// A refusal of a request of at least 2 octets, with an epoch in seconds.
pub(crate) fn refusal_text(
    alloc: Global,
    request: &[u8],
    refusal: Refusal,
    epoch: u32,
) -> Result<Octets, Memory>
    requires { 2 ≤ length request.now }
    ensures { IfOk result (λ text. text ≡ reply_text request.now [] (Refused refusal) epoch) }
{
    let none = Items::of(Vec::new(alloc));
    let mut text = Vec::new(alloc);
    let ask = Ask::Known(refusal);
    let answer = Answer::Refused(refusal);
    write_reply(alloc, &mut text, request, &ask, &none, &answer, epoch)?;
    Ok(Octets::of(text))
}

/// An ANNOUNCE response (RFC 6887, section 14.1), with an epoch in seconds.
pub(crate) fn announce_text(alloc: Global, epoch: u32) -> Result<Octets, Memory>
    ensures { IfOk result (λ text. text ≡ success_text 0 epoch Announce []) }
{
    let mut text = Vec::new(alloc);
    write_success_with(alloc, &mut text, 0, epoch, &Body::Announce, &[])?;
    Ok(Octets::of(text))
}

/// The error reply to a request that was read, with the upstream code and lifetime, and an epoch in
/// seconds.
pub(crate) fn error_text(
    alloc: Global,
    request: &[u8],
    code: Code,
    lifetime: u32,
    epoch: u32,
) -> Result<Octets, Memory>
    requires { HEAD_OCTETS ≤ length request.now }
    ensures { IfOk result (λ text. text ≡ relayed_text request.now code lifetime epoch) }
{
    let mut text = Vec::new(alloc);
    write_relayed(alloc, &mut text, request, code, lifetime, epoch)?;
    Ok(Octets::of(text))
}
