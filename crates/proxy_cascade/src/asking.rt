//! What is sent for datagrams of clients.
ghost use Rattle.std.specs.Prelude.{◌≡◌, ◌≤◌, ◌<◌, true, [], length, None, IfOk, OnErr};
ghost use Rattle.pcp_base.specs.declared.asks.Answer.TheVariants.{Announced, Refused};
ghost use Rattle.pcp_base.specs.Refusals.{parsed};
ghost use Rattle.pcp_codec.specs.declared.layout.TheConstants.{HEAD_OCTETS};
ghost use Rattle.pcp_options.specs.Replies.{reply_text};
ghost use Rattle.pcp_options.specs.Verdicts.{verdict_of};
ghost use Rattle.cascade_ties.specs.Ties.{is_vacant, tie_of};
ghost use Rattle.proxy_cascade.specs.Cascades.{for_itself};
ghost use Rattle.proxy_cascade.specs.FromClients.{asked, asked_again, for_again, for_map, for_new, judged, lease_text, new_tie, of_another, repeated, seconds_left, tied, to_client, waiting_of};
ghost use Rattle.proxy_cascade.specs.Kept.{AreKept, IsTime, IsTied, cascade_of, epoch_of};

use crate::terms::CascadeTerms;
use crate::texts::{announce_text, lease_text, refusal_text, repeated, up_text};
use cascade_ties::{NoLocal, Tie, TieTable, Tied, Waiting};
use pcp_base::{Address, Ask, Code, Datagram, MapAsk, Memory, Octets, Refusal};
use pcp_options::{Items, Verdict};
use proxy_core::{ProxyOut, WAIT_MS};
use std::alloc::Global;

/// How many ties there may be.
pub const MOST_TIES: usize = 4_096;

/// What is to be sent for a datagram of a client with this verdict.
pub(crate) fn answer_client(
    alloc: Global,
    terms: &CascadeTerms,
    ties: &mut TieTable,
    datagram: &Datagram,
    verdict: Verdict,
) -> Result<ProxyOut, Memory>
    requires judged { verdict ≡ verdict_of for_itself datagram.now.peer datagram.now.octets }
    requires time { IsTime terms.now.last_ms }
    requires kept { AreKept ties.old.each }
    ensures ok { IfOk result (λ out. judged (cascade_of terms.now ties.old) datagram.now verdict
        ≡ record { cascade = cascade_of terms.now ties.new; out = out }) }
    ensures kept { AreKept ties.new.each }
    ensures err { OnErr result (ties.new ≡ ties.old) }
{
    match verdict {
        Verdict::Silent => Ok(ProxyOut::Nothing),
        Verdict::Refuse(refusal) => refuse(alloc, terms, datagram, refusal),
        Verdict::Asked { ask, items, .. } => answer_ask(alloc, terms, ties, datagram, ask, &items),
    }
}

/// What is to be sent for a request that isn't refused, with these options.
fn answer_ask(
    alloc: Global,
    terms: &CascadeTerms,
    ties: &mut TieTable,
    datagram: &Datagram,
    ask: Ask,
    items: &Items,
) -> Result<ProxyOut, Memory>
    requires head { HEAD_OCTETS ≤ length datagram.now.octets }
    requires time { IsTime terms.now.last_ms }
    requires kept { AreKept ties.old.each }
    ensures ok { IfOk result (λ out.
        asked (cascade_of terms.now ties.old) datagram.now items.now ask
        ≡ record { cascade = cascade_of terms.now ties.new; out = out }) }
    ensures kept { AreKept ties.new.each }
    ensures err { OnErr result (ties.new ≡ ties.old) }
{
    match ask {
        Ask::Known(refusal) => refuse(alloc, terms, datagram, refusal),
        Ask::Announce => announce(alloc, terms, datagram),
        Ask::Map(ask) => answer_map(alloc, terms, ties, datagram, items, &ask),
        Ask::Peer(_ask) => refuse(alloc, terms, datagram, refusal_of(Code::UnsuppOpcode)),
    }
}

/// The refusal with a code.
fn refusal_of(code: Code) -> Refusal
    ensures { result ≡ parsed code }
{
    Refusal {
        code,
        parsed: true,
        lifetime: code.lifetime(),
    }
}

/// Octets for the client that asked.
fn to_client(datagram: &Datagram, octets: Octets) -> ProxyOut
    ensures { result ≡ to_client datagram.now octets }
{
    ProxyOut::Reply(Datagram {
        peer: datagram.peer,
        port: datagram.port,
        door: datagram.door,
        octets,
    })
}

fn refuse(
    alloc: Global,
    terms: &CascadeTerms,
    datagram: &Datagram,
    refusal: Refusal,
) -> Result<ProxyOut, Memory>
    requires { 2 ≤ length datagram.now.octets }
    ensures { IfOk result (λ out. out ≡ to_client datagram.now
        (reply_text datagram.now.octets [] (Refused refusal) (epoch_of terms.now))) }
{
    let text = refusal_text(alloc, datagram.octets.items(), refusal, terms.epoch())?;
    Ok(to_client(datagram, text))
}

fn announce(alloc: Global, terms: &CascadeTerms, datagram: &Datagram) -> Result<ProxyOut, Memory>
    ensures { IfOk result (λ out. out ≡ to_client datagram.now
        (reply_text datagram.now.octets [] Announced (epoch_of terms.now))) }
{
    Ok(to_client(datagram, announce_text(alloc, terms.epoch())?))
}

/// What is to be sent for a MAP request (RFC 6887, section 11.3).
fn answer_map(
    alloc: Global,
    terms: &CascadeTerms,
    ties: &mut TieTable,
    datagram: &Datagram,
    items: &Items,
    ask: &MapAsk,
) -> Result<ProxyOut, Memory>
    requires head { HEAD_OCTETS ≤ length datagram.now.octets }
    requires time { IsTime terms.now.last_ms }
    requires kept { AreKept ties.old.each }
    ensures ok { IfOk result (λ out. for_map (cascade_of terms.now ties.old) datagram.now
        items.now ask.now (tie_of ask.now.endpoint ties.old.each)
        ≡ record { cascade = cascade_of terms.now ties.new; out = out }) }
    ensures kept { AreKept ties.new.each }
    ensures err { OnErr result (ties.new ≡ ties.old) }
{
    let Some(tied) = ties.find(&ask.endpoint) else {
        return answer_new(alloc, terms, ties, datagram, items, ask);
    };
    let tie = tied.tie;
    answer_again(alloc, terms, ties, datagram, items, ask, tie)
}

/// What is to be sent for a MAP request of an endpoint with this tie.
fn answer_again(
    alloc: Global,
    terms: &CascadeTerms,
    ties: &mut TieTable,
    datagram: &Datagram,
    items: &Items,
    ask: &MapAsk,
    tie: Tie,
) -> Result<ProxyOut, Memory>
    requires head { HEAD_OCTETS ≤ length datagram.now.octets }
    requires time { IsTime terms.now.last_ms }
    requires kept { AreKept ties.old.each }
    requires tied { IsTied ties.old ask.now.endpoint tie }
    ensures ok { IfOk result (λ out.
        for_again (cascade_of terms.now ties.old) datagram.now items.now ask.now tie
        ≡ record { cascade = cascade_of terms.now ties.new; out = out }) }
    ensures kept { AreKept ties.new.each }
    ensures err { OnErr result (ties.new ≡ ties.old) }
{
    if tie.nonce != ask.nonce {
        return refuse(alloc, terms, datagram, of_another(&tie, terms.last_ms));
    }
    let text = up_text(alloc, &terms.key, &terms.own, ask, items, tie.local)?;
    let waiting = waiting_of(alloc, datagram, items, ask, terms.last_ms)?;
    let again = asked_again(tie, terms.last_ms);
    ties.change(Tied {
        tie: again,
        waiting: Some(waiting),
    })?;
    Ok(ProxyOut::Up(text))
}

/// What is to be sent for a MAP request of an endpoint without a tie.
fn answer_new(
    alloc: Global,
    terms: &CascadeTerms,
    ties: &mut TieTable,
    datagram: &Datagram,
    items: &Items,
    ask: &MapAsk,
) -> Result<ProxyOut, Memory>
    requires head { HEAD_OCTETS ≤ length datagram.now.octets }
    requires time { IsTime terms.now.last_ms }
    requires kept { AreKept ties.old.each }
    requires none { tie_of ask.now.endpoint ties.old.each ≡ None }
    ensures ok { IfOk result (λ out.
        for_new (cascade_of terms.now ties.old) datagram.now items.now ask.now
        ≡ record { cascade = cascade_of terms.now ties.new; out = out }) }
    ensures kept { AreKept ties.new.each }
    ensures err { OnErr result (ties.new ≡ ties.old) }
{
    if ask.lifetime == 0 {
        return tell_gone(alloc, terms, datagram, items, ask);
    }
    if ties.len() >= MOST_TIES {
        return refuse(alloc, terms, datagram, refusal_of(Code::NoResources));
    }
    match ties.local_for(&ask.endpoint) {
        Ok(local) => make_tie(alloc, terms, ties, datagram, items, ask, local),
        Err(NoLocal::Quota) => refuse(alloc, terms, datagram, refusal_of(Code::UserExQuota)),
        Err(NoLocal::NoPort) => refuse(alloc, terms, datagram, refusal_of(Code::NoResources)),
    }
}

/// Nothing is to be deleted.
fn tell_gone(
    alloc: Global,
    terms: &CascadeTerms,
    datagram: &Datagram,
    items: &Items,
    ask: &MapAsk,
) -> Result<ProxyOut, Memory>
    ensures { IfOk result (λ out. out ≡ to_client datagram.now
        (lease_text ask.now.endpoint ask.now.nonce 0 (epoch_of terms.now) ask.now.port
        ask.now.address (repeated items.now))) }
{
    let items = repeated(alloc, items)?;
    let text = lease_text(
        alloc,
        &ask.endpoint,
        ask.nonce,
        0,
        terms.epoch(),
        ask.port,
        ask.address,
        &items,
    )?;
    Ok(to_client(datagram, text))
}

/// Ties the endpoint of a MAP request to a vacant local port.
fn make_tie(
    alloc: Global,
    terms: &CascadeTerms,
    ties: &mut TieTable,
    datagram: &Datagram,
    items: &Items,
    ask: &MapAsk,
    local: u16,
) -> Result<ProxyOut, Memory>
    requires head { HEAD_OCTETS ≤ length datagram.now.octets }
    requires time { IsTime terms.now.last_ms }
    requires kept { AreKept ties.old.each }
    requires fewer { length ties.old.each < MOST_TIES }
    requires none { tie_of ask.now.endpoint ties.old.each ≡ None }
    requires vacant { is_vacant ties.old ask.now.endpoint.protocol local ≡ true }
    ensures ok { IfOk result (λ out.
        tied (cascade_of terms.now ties.old) datagram.now items.now ask.now local
        ≡ record { cascade = cascade_of terms.now ties.new; out = out }) }
    ensures kept { AreKept ties.new.each }
    ensures err { OnErr result (ties.new ≡ ties.old) }
{
    let text = up_text(alloc, &terms.key, &terms.own, ask, items, local)?;
    let waiting = waiting_of(alloc, datagram, items, ask, terms.last_ms)?;
    let tie = new_tie(ask, local, terms.last_ms);
    ties.put(
        alloc,
        Tied {
            tie,
            waiting: Some(waiting),
        },
    )?;
    Ok(ProxyOut::Up(text))
}

/// How long a tie still lasts, in seconds.
fn seconds_left(tie: &Tie, now_ms: u64) -> u32
    ensures { result ≡ seconds_left tie.now now_ms }
{
    let left = tie.until_ms.saturating_sub(now_ms) / 1000;
    left.min(u64::from(u32::MAX)) as u32
}

/// The refusal of a request with another nonce than the tie's.
fn of_another(tie: &Tie, now_ms: u64) -> Refusal
    ensures { result ≡ of_another tie.now now_ms }
{
    Refusal {
        code: Code::NotAuthorized,
        parsed: true,
        lifetime: seconds_left(tie, now_ms),
    }
}

/// A request as it waits.
fn waiting_of(
    alloc: Global,
    datagram: &Datagram,
    items: &Items,
    ask: &MapAsk,
    now_ms: u64,
) -> Result<Waiting, Memory>
    ensures { IfOk result (λ waiting. waiting
        ≡ waiting_of datagram.now items.now ask.now now_ms) }
{
    Ok(Waiting {
        port: datagram.port,
        door: datagram.door,
        request: Octets::of(datagram.octets.items().to_vec(alloc)?),
        lifetime: ask.lifetime,
        suggested: ask.port,
        address: ask.address,
        items: repeated(alloc, items)?,
        since_ms: now_ms,
        tries: 0,
    })
}

/// A tie of the endpoint of a request to a local port, of which nothing is granted yet.
fn new_tie(ask: &MapAsk, local: u16, now_ms: u64) -> Tie
    requires { IsTime now_ms }
    ensures { result ≡ new_tie ask.now local now_ms }
{
    Tie {
        client: ask.endpoint,
        nonce: ask.nonce,
        local,
        granted: false,
        address: Address([0; 16]),
        external: 0,
        until_ms: now_ms + WAIT_MS,
    }
}

/// A tie that is asked for again: where it isn't granted, it lasts as a new one.
fn asked_again(tie: Tie, now_ms: u64) -> Tie
    requires { IsTime now_ms }
    ensures { result ≡ asked_again tie now_ms }
{
    let until_ms = if tie.granted {
        tie.until_ms
    } else {
        now_ms + WAIT_MS
    };
    Tie { until_ms, ..tie }
}
