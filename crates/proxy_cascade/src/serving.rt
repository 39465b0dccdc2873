//! What is sent for datagrams from upstream.
ghost use Rattle.std.specs.Prelude.{◌≡◌, ◌+◌, ◌-◌, ◌*◌, ◌^◌, ◌<◌, ◌≤◌, length, if◌then◌else◌, IfOk, OnErr};
ghost use Rattle.proxy_cascade.specs.declared.outs.CascadeOut.TheVariants.{Nothing, Down};
ghost use Rattle.pcp_codec.specs.declared.layout.TheConstants.{HEAD_OCTETS};
ghost use Rattle.std.specs.Option.{option_copied};
ghost use Rattle.pcp_base.specs.Protocols.{protocol_of};
ghost use Rattle.proxy_core.specs.Down.{is_success};
ghost use Rattle.proxy_core.specs.Relays.{response_from};
ghost use Rattle.cascade_ties.specs.Ties.{MakesTies, with_rest, without};
ghost use Rattle.proxy_cascade.specs.FromServers.{announcement, ended, for_body, for_protocol, granted, is_asked_by, is_taken, is_tried_on, lease_after, moved, next_local, still_waits, text_after, ties_after, ties_given, ties_left, told_lifetime};
ghost use Rattle.proxy_cascade.specs.Kept.{AreKept, IsTime, IsTied, cascade_of, epoch_of};

use crate::outs::CascadeOut;
use crate::terms::CascadeTerms;
use crate::texts::{again_text, announce_text, error_text, lease_text};
use cascade_ties::{Tie, TieTable, Tied, Waiting};
use client_core::LONGEST_LEASE;
use pcp_base::{Address, Code, Datagram, Memory, Nonce, Octets, Protocol};
use pcp_codec::{Body, Common};
use pcp_options::{Items, Response, ResponseRefused, read_response};
use proxy_core::{CLIENTS_PORT, WAIT_MS, upstream_nonce};
use std::alloc::Global;

/// How many other local ports are asked for one request of a client, at most.
pub const MOST_TRIES: u8 = 16;

/// What the server says; none where the datagram isn't the server's, or is no response.
pub(crate) fn response_in(
    alloc: Global,
    server: &Address,
    datagram: &Datagram,
) -> Result<Option<Response>, Memory>
    ensures { IfOk result (λ response. response ≡ response_from server.now datagram.now) }
{
    if datagram.peer != *server {
        return Ok(None);
    }
    match read_response(alloc, datagram.octets.items()) {
        Ok(response) => Ok(Some(response)),
        Err(ResponseRefused::NotResponse) => Ok(None),
        Err(ResponseRefused::Memory) => Err(Memory),
    }
}

/// What is to be sent for a response of the server, whose epoch was valid or not.
pub(crate) fn answer_server(
    alloc: Global,
    terms: &CascadeTerms,
    ties: &mut TieTable,
    response: &Response,
    valid: bool,
) -> Result<CascadeOut, Memory>
    requires time { IsTime terms.now.last_ms }
    requires kept { AreKept ties.old.each }
    ensures ok { IfOk result (λ out.
        for_body (cascade_of terms.now ties.old) response.now valid response.now.body
        ≡ record { cascade = cascade_of terms.now ties.new; out = out }) }
    ensures kept { AreKept ties.new.each }
    ensures err { OnErr result (ties.new ≡ ties.old) }
{
    match &response.body {
        Body::Announce => announce(alloc, terms, valid),
        Body::Map(common) => answer_map(alloc, terms, ties, response, common),
        Body::Peer { .. } => Ok(CascadeOut::Nothing),
    }
}

/// All clients are told where epochs began anew (RFC 6887, section 14.1).
fn announce(alloc: Global, terms: &CascadeTerms, valid: bool) -> Result<CascadeOut, Memory>
    ensures { IfOk result (λ out.
        out ≡ (if valid then Nothing else Down (announcement (epoch_of terms.now)))) }
{
    if valid {
        return Ok(CascadeOut::Nothing);
    }
    Ok(CascadeOut::Down(Datagram {
        peer: Address::v4(224, 0, 0, 1),
        port: CLIENTS_PORT,
        door: 0,
        octets: announce_text(alloc, terms.epoch())?,
    }))
}

/// What is to be sent for a MAP response.
fn answer_map(
    alloc: Global,
    terms: &CascadeTerms,
    ties: &mut TieTable,
    response: &Response,
    common: &Common,
) -> Result<CascadeOut, Memory>
    requires time { IsTime terms.now.last_ms }
    requires kept { AreKept ties.old.each }
    ensures ok { IfOk result (λ out. for_protocol (cascade_of terms.now ties.old) response.now
        common.now (protocol_of common.now.protocol)
        ≡ record { cascade = cascade_of terms.now ties.new; out = out }) }
    ensures kept { AreKept ties.new.each }
    ensures err { OnErr result (ties.new ≡ ties.old) }
{
    let Some(protocol) = Protocol::of(common.protocol) else {
        return Ok(CascadeOut::Nothing);
    };
    let Some(tied) = ties.at_local(protocol, common.internal) else {
        return Ok(CascadeOut::Nothing);
    };
    let tie = tied.tie;
    let Some(waiting) = still_waits(&tied.waiting, terms.last_ms) else {
        return Ok(CascadeOut::Nothing);
    };
    if !is_asked_by(&terms.key, &tie, &common.nonce) {
        return Ok(CascadeOut::Nothing);
    }
    if let Some(local) = next_local(ties, response, &tie, waiting) {
        let text = again_text(alloc, &terms.key, &terms.own, &tie, waiting, local)?;
        let tied = moved(alloc, tie, waiting, local)?;
        let until_ms = rest_until(response, terms.last_ms);
        ties.move_on(alloc, tie.local, tied, until_ms)?;
        return Ok(CascadeOut::Up(text));
    }
    let reply = reply_for(alloc, terms, response, common, &tie, waiting)?;
    settle(alloc, ties, response, common, tie, terms.last_ms)?;
    Ok(CascadeOut::Down(reply))
}

/// Whether upstream the port is leased to another nonce.
fn is_taken(code: Code) -> bool
    ensures { result ≡ is_taken code }
{
    match code {
        Code::NotAuthorized => true,
        _ => false,
    }
}

/// Whether another local port is asked for, where one is vacant.
fn is_tried_on(response: &Response, tie: &Tie, waiting: &Waiting) -> bool
    ensures { result ≡ is_tried_on response.now tie.now waiting.now }
{
    is_taken(response.code) && !tie.granted && waiting.tries < MOST_TRIES
}

/// The local port that is asked for next; none where the error goes to the client.
fn next_local(ties: &TieTable, response: &Response, tie: &Tie, waiting: &Waiting) -> Option<u16>
    ensures { result ≡ next_local ties.now response.now tie.now waiting.now }
{
    if !is_tried_on(response, tie, waiting) {
        return None;
    }
    ties.vacant_for(&tie.client)
}

/// Until when the local port rests of which a response tells a lifetime, in milliseconds.
fn rest_until(response: &Response, now_ms: u64) -> u64
    requires { IsTime now_ms }
    ensures until { result ≡ now_ms + 1000 * response.now.lifetime }
    ensures sometime { result < 2 ^ 64 - 1 }
{
    now_ms + 1000 * u64::from(response.lifetime)
}

/// The tie to another local port, and the request, which waits on.
fn moved(alloc: Global, tie: Tie, waiting: &Waiting, local: u16) -> Result<Tied, Memory>
    requires { waiting.now.tries < MOST_TRIES }
    ensures { IfOk result (λ tied. tied ≡ moved tie waiting.now local) }
{
    let door = waiting.door;
    let waiting = Waiting {
        port: waiting.port,
        door,
        request: Octets::of(waiting.request.items().to_vec(alloc)?),
        lifetime: waiting.lifetime,
        suggested: waiting.suggested,
        address: waiting.address,
        items: Items::of(waiting.items.items().to_vec(alloc)?),
        since_ms: waiting.since_ms,
        tries: waiting.tries + 1,
    };
    Ok(Tied {
        tie: Tie { local, ..tie },
        waiting: Some(waiting),
    })
}

/// The request that waits, unless it waited for longer than its time.
fn still_waits(waiting: &Option<Waiting>, now_ms: u64) -> Option<&Waiting>
    ensures { option_copied result ≡ still_waits now_ms waiting.now }
{
    let Some(waiting) = waiting else {
        return None;
    };
    if now_ms.saturating_sub(waiting.since_ms) > WAIT_MS {
        return None;
    }
    Some(waiting)
}

/// Whether this is the nonce by which a tie is asked for upstream.
fn is_asked_by(key: &[u8; 32], tie: &Tie, nonce: &Nonce) -> bool
    ensures { result ≡ is_asked_by key.now tie.now nonce.now }
{
    upstream_nonce(key, &tie.client.address, &tie.nonce) == *nonce
}

fn is_success(code: Code) -> bool
    ensures { result ≡ is_success code }
{
    match code {
        Code::Success => true,
        _ => false,
    }
}

/// The lifetime that is told, in seconds: a day at most.
fn told_lifetime(lifetime: u32) -> u32
    ensures { result ≡ told_lifetime lifetime }
{
    lifetime.min(LONGEST_LEASE)
}

/// The reply for the client whose request waits.
fn reply_for(
    alloc: Global,
    terms: &CascadeTerms,
    response: &Response,
    common: &Common,
    tie: &Tie,
    waiting: &Waiting,
) -> Result<Datagram, Memory>
    requires { HEAD_OCTETS ≤ length waiting.now.request }
    ensures { IfOk result (λ out. out ≡ record {
      peer = tie.now.client.address;
      port = waiting.now.port;
      door = waiting.now.door;
      octets = text_after (epoch_of terms.now) response.now common.now tie.now waiting.now;
    }) }
{
    Ok(Datagram {
        peer: tie.client.address,
        port: waiting.port,
        door: waiting.door,
        octets: text_after(alloc, terms, response, common, tie, waiting)?,
    })
}

/// The octets of that reply.
fn text_after(
    alloc: Global,
    terms: &CascadeTerms,
    response: &Response,
    common: &Common,
    tie: &Tie,
    waiting: &Waiting,
) -> Result<Octets, Memory>
    requires { HEAD_OCTETS ≤ length waiting.now.request }
    ensures { IfOk result (λ text. text
        ≡ text_after (epoch_of terms.now) response.now common.now tie.now waiting.now) }
{
    let epoch = terms.epoch();
    if !is_success(response.code) {
        let request = waiting.request.items();
        return error_text(alloc, request, response.code, response.lifetime, epoch);
    }
    lease_after(alloc, epoch, response, common, tie, waiting)
}

/// The octets of a success: the upstream external port and address, or with lifetime 0 the client's
/// own suggestion.
fn lease_after(
    alloc: Global,
    epoch: u32,
    response: &Response,
    common: &Common,
    tie: &Tie,
    waiting: &Waiting,
) -> Result<Octets, Memory>
    ensures { IfOk result (λ text. text
        ≡ lease_after epoch response.now common.now tie.now waiting.now) }
{
    let lifetime = told_lifetime(response.lifetime);
    let (external, address) = if response.lifetime == 0 {
        (waiting.suggested, waiting.address)
    } else {
        (common.external, common.address)
    };
    lease_text(
        alloc,
        &tie.client,
        tie.nonce,
        lifetime,
        epoch,
        external,
        address,
        &waiting.items,
    )
}

/// The tie without what waited.
fn ended(tie: Tie) -> Tied
    ensures { result ≡ ended tie }
{
    Tied { tie, waiting: None }
}

/// The tie as it is granted for a time in seconds, of a day at most.
fn granted(tie: Tie, common: &Common, lifetime: u32, now_ms: u64) -> Tie
    requires time { IsTime now_ms }
    ensures { result ≡ granted tie common.now lifetime now_ms }
{
    Tie {
        granted: true,
        address: common.address,
        external: common.external,
        until_ms: now_ms + 1000 * u64::from(lifetime),
        ..tie
    }
}

/// Takes out a tie, whose local port then rests until a time. The one error is want of memory, which
/// changes nothing.
fn let_rest(alloc: Global, ties: &mut TieTable, tie: Tie, until_ms: u64) -> Result<(), Memory>
    requires tied { IsTied ties.old tie.client tie }
    requires sometime { until_ms < 2 ^ 64 - 1 }
    ensures { MakesTies ties.old
        (without (with_rest ties.old tie.client.protocol tie.local until_ms) tie.client)
        result ties.new }
{
    ties.rest(alloc, &tie.client, tie.local, until_ms)?;
    ties.remove(&tie.client);
    Ok(())
}

/// What becomes of a tie after a success. The one error is want of memory, which changes nothing.
fn settle_success(
    alloc: Global,
    ties: &mut TieTable,
    response: &Response,
    common: &Common,
    tie: Tie,
    now_ms: u64,
) -> Result<(), Memory>
    requires time { IsTime now_ms }
    requires tied { IsTied ties.old tie.client tie }
    ensures { MakesTies ties.old (ties_given now_ms response.now common.now tie ties.old)
        result ties.new }
{
    let until_ms = rest_until(response, now_ms);
    if response.lifetime == 0 {
        return let_rest(alloc, ties, tie, until_ms);
    }
    let lifetime = told_lifetime(response.lifetime);
    ties.grant(
        alloc,
        ended(granted(tie, common, lifetime, now_ms)),
        until_ms,
    )
}

/// What becomes of a tie after an error. The one error is want of memory, which changes nothing.
fn settle_error(
    alloc: Global,
    ties: &mut TieTable,
    response: &Response,
    tie: Tie,
    now_ms: u64,
) -> Result<(), Memory>
    requires time { IsTime now_ms }
    requires tied { IsTied ties.old tie.client tie }
    ensures { MakesTies ties.old (ties_left now_ms response.now tie ties.old) result ties.new }
{
    if tie.granted {
        return ties.change(ended(tie));
    }
    if is_taken(response.code) {
        return let_rest(alloc, ties, tie, rest_until(response, now_ms));
    }
    ties.remove(&tie.client);
    Ok(())
}

/// What becomes of a tie after a response to it. The one error is want of memory, which changes
/// nothing.
fn settle(
    alloc: Global,
    ties: &mut TieTable,
    response: &Response,
    common: &Common,
    tie: Tie,
    now_ms: u64,
) -> Result<(), Memory>
    requires time { IsTime now_ms }
    requires tied { IsTied ties.old tie.client tie }
    ensures { MakesTies ties.old (ties_after now_ms response.now common.now tie ties.old)
        result ties.new }
{
    if !is_success(response.code) {
        return settle_error(alloc, ties, response, tie, now_ms);
    }
    settle_success(alloc, ties, response, common, tie, now_ms)
}
