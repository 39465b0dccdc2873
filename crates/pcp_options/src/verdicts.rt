//! The verdict on a datagram (RFC 6887, section 8.2).
ghost use Rattle.std.specs.Prelude.{◌≡◌, ◌≤◌, Option, Some, None, [], Result, Ok, Err, length, option_map, if◌then◌else◌, IfOk, OnErr};
ghost use Rattle.std.specs.List.{list_any};
ghost use Rattle.pcp_base.specs.Cases.{first_case};
ghost use Rattle.pcp_base.specs.Pairing.{holds, place_of};
ghost use Rattle.pcp_base.specs.Refusals.{unparsed};
ghost use Rattle.pcp_codec.specs.Fields.{u32_at};
ghost use Rattle.pcp_codec.specs.Requests.{common_of};
ghost use Rattle.pcp_codec.specs.declared.layout.TheConstants.{LIFETIME_PLACE};
ghost use Rattle.pcp_options.specs.Asking.{endpoint_of, filters_of, map_ask, peer_ask, seen_of};
ghost use Rattle.pcp_options.specs.Options.{found_in, items_of};
ghost use Rattle.pcp_base.specs.Refusals.{parsed};
ghost use Rattle.pcp_options.specs.declared.slots.TheConstants.{MOST_OPTION_OCTETS};
ghost use Rattle.pcp_options.specs.Verdicts.{IsAsked, asked_by, asked_for, later_steps, third_steps, verdict_by, verdict_of};

use crate::options::{Item, Items, Seen, check_options, collect_filters, options_text};
use crate::slots::ItemSlots;
use pcp_base::{
    Address, Ask, Code, Config, Endpoint, FilterList, MapAsk, Memory, PeerAsk, Protocol, Refusal,
    pair,
};
use pcp_codec::{
    Body, Common, Frame, Framed, LIFETIME_PLACE, is_plain_map, read_common, read_request, u32_of,
};
use std::alloc::Global;

/// What a datagram is.
#[derive(Debug, Drop)]
pub enum Verdict {
    /// Nothing that is answered.
    Silent,
    /// A request that is refused before the lease table is asked.
    Refuse(Refusal),
    /// A request to the lease table of an external address.
    Asked {
        /// The index of the external address.
        shard: u32,
        /// What is asked for.
        ask: Ask,
        /// The processed options, in order.
        items: Items,
    },
}

/// The verdict on a datagram of any length from `source`: the first of nine steps that fails decides
/// (RFC 6887, section 8.2; the order is our own). Memory is taken, and can be wanting, only for a request
/// that no step refuses.
pub fn judge(
    alloc: Global,
    config: &Config,
    source: &Address,
    octets: &[u8],
) -> Result<Verdict, Memory>
    ensures ok { IfOk result (λ verdict. verdict ≡ verdict_of config.now source.now octets.now) }
    ensures memory { OnErr result (IsAsked (verdict_of config.now source.now octets.now)) }
{
    if is_plain_map(octets, source) {
        return Ok(judge_plain_map(alloc, config, source, octets));
    }
    judge_any(alloc, config, source, octets)
}

/// The verdict on a plain MAP request from `source`, which has no options and takes no memory.
fn judge_plain_map(alloc: Global, config: &Config, source: &Address, octets: &[u8]) -> Verdict
    ensures { result ≡ asked_by [] (map_ask (u32_at octets.now LIFETIME_PLACE)
        (common_of octets.now) (seen_of []) [] (endpoint_of source.now (common_of octets.now)))
        (place_of config.now.subscribers source.now) }
{
    let common = read_common(octets);
    let Some(endpoint) = endpoint_in(*source, &common) else {
        return Verdict::Refuse(refusal(Code::UnsuppProtocol, true));
    };
    let Some(shard) = pair(config, source) else {
        return Verdict::Refuse(refusal(Code::NotAuthorized, true));
    };
    Verdict::Asked {
        shard,
        ask: Ask::Map(MapAsk {
            endpoint,
            nonce: common.nonce,
            lifetime: u32_of(octets, LIFETIME_PLACE),
            port: common.external,
            address: common.address,
            prefer: false,
            set: None,
            filters: FilterList::of(Vec::new(alloc)),
        }),
        items: Items::of(Vec::new(alloc)),
    }
}

/// The verdict on any datagram. It stands apart because most datagrams are plain MAP requests, which needn't
/// clear room for the parts that it reads.
#[inline(never)]
fn judge_any(
    alloc: Global,
    config: &Config,
    source: &Address,
    octets: &[u8],
) -> Result<Verdict, Memory>
    ensures ok { IfOk result (λ verdict. verdict ≡ verdict_of config.now source.now octets.now) }
    ensures memory { OnErr result (IsAsked (verdict_of config.now source.now octets.now)) }
{
    match read_request(octets, source) {
        Framed::Silent => Ok(Verdict::Silent),
        Framed::Refuse(refusal) => Ok(Verdict::Refuse(refusal)),
        Framed::Whole(frame) => {
            let text = options_text(&frame, octets);
            judge_frame(alloc, config, source, &frame, text)
        }
    }
}

/// The verdict on a request whose frame was read, and that has this text behind its data.
fn judge_frame(
    alloc: Global,
    config: &Config,
    source: &Address,
    frame: &Frame,
    text: &[u8],
) -> Result<Verdict, Memory>
    requires few { length text.now ≤ MOST_OPTION_OCTETS }
    ensures ok { IfOk result (λ verdict. verdict ≡ verdict_by config.now source.now frame.now
        (items_of (found_in text.now))
        (first_case (later_steps config.now source.now frame.now (found_in text.now)))) }
    ensures memory { OnErr result (IsAsked (verdict_by config.now source.now frame.now
        (items_of (found_in text.now))
        (first_case (later_steps config.now source.now frame.now (found_in text.now))))) }
{
    if text.is_empty() {
        return judge_options(alloc, config, source, frame, &Seen::none(), &[]);
    }
    judge_text(alloc, config, source, frame, text)
}

// The same for a request with options, whose slots others needn't fill.
fn judge_text(
    alloc: Global,
    config: &Config,
    source: &Address,
    frame: &Frame,
    text: &[u8],
) -> Result<Verdict, Memory>
    requires few { length text.now ≤ MOST_OPTION_OCTETS }
    ensures ok { IfOk result (λ verdict. verdict ≡ verdict_by config.now source.now frame.now
        (items_of (found_in text.now))
        (first_case (later_steps config.now source.now frame.now (found_in text.now)))) }
    ensures memory { OnErr result (IsAsked (verdict_by config.now source.now frame.now
        (items_of (found_in text.now))
        (first_case (later_steps config.now source.now frame.now (found_in text.now))))) }
{
    let mut items = ItemSlots::none();
    match check_options(frame, text, &mut items) {
        Ok(seen) => judge_options(alloc, config, source, frame, &seen, items.items()),
        Err(code) => Ok(Verdict::Refuse(refusal(code, false))),
    }
}

/// The verdict on a request with these options, which passed.
fn judge_options(
    alloc: Global,
    config: &Config,
    source: &Address,
    frame: &Frame,
    seen: &Seen,
    items: &[Item],
) -> Result<Verdict, Memory>
    requires { seen.now ≡ seen_of items.now }
    ensures ok { IfOk result (λ verdict. verdict ≡ verdict_by config.now source.now frame.now
        items.now (first_case (third_steps config.now source.now seen.now.third))) }
    ensures memory { OnErr result (IsAsked (verdict_by config.now source.now frame.now
        items.now (first_case (third_steps config.now source.now seen.now.third)))) }
{
    if let Some(code) = third_fault(config, source, seen.third) {
        return Ok(Verdict::Refuse(refusal(code, true)));
    }
    judge_asking(
        alloc,
        config,
        frame,
        seen,
        items,
        seen.third.unwrap_or(*source),
    )
}

/// The verdict on a request that no step before the ask refuses, and that is for this address.
fn judge_asking(
    alloc: Global,
    config: &Config,
    frame: &Frame,
    seen: &Seen,
    items: &[Item],
    subject: Address,
) -> Result<Verdict, Memory>
    requires { seen.now ≡ seen_of items.now }
    ensures ok { IfOk result (λ verdict. verdict
        ≡ asked_for config.now frame.now items.now subject) }
    ensures memory { OnErr result (IsAsked (asked_for config.now frame.now items.now subject)) }
{
    match &frame.body {
        Body::Announce => judge_ask(alloc, config, Ask::Announce, items, &subject),
        Body::Map(common) => {
            judge_map(alloc, config, frame.lifetime, common, seen, items, subject)
        }
        Body::Peer {
            common,
            remote_port,
            remote,
        } => match peer_asked(frame.lifetime, common, *remote_port, *remote, subject) {
            Ok(ask) => judge_ask(alloc, config, ask, items, &subject),
            Err(code) => Ok(Verdict::Refuse(refusal(code, true))),
        },
    }
}

/// The verdict on a MAP request for this address.
fn judge_map(
    alloc: Global,
    config: &Config,
    lifetime: u32,
    common: &Common,
    seen: &Seen,
    items: &[Item],
    subject: Address,
) -> Result<Verdict, Memory>
    ensures ok { IfOk result (λ verdict. verdict ≡ asked_by items.now
        (map_ask lifetime common.now seen.now (filters_of items.now) (endpoint_of subject common.now))
        (place_of config.now.subscribers subject)) }
    ensures memory { OnErr result (IsAsked (asked_by items.now
        (map_ask lifetime common.now seen.now (filters_of items.now) (endpoint_of subject common.now))
        (place_of config.now.subscribers subject))) }
{
    let Some(endpoint) = endpoint_in(subject, common) else {
        return Ok(Verdict::Refuse(refusal(Code::UnsuppProtocol, true)));
    };
    let Some(shard) = pair(config, &subject) else {
        return Ok(Verdict::Refuse(refusal(Code::NotAuthorized, true)));
    };
    let filters = collect_filters(alloc, items)?;
    let items = items.to_vec(alloc)?;
    Ok(Verdict::Asked {
        shard,
        ask: Ask::Map(MapAsk {
            endpoint,
            nonce: common.nonce,
            lifetime,
            port: common.external,
            address: common.address,
            prefer: seen.prefers,
            set: seen.set,
            filters: FilterList::of(filters),
        }),
        items: Items::of(items),
    })
}

/// The verdict on what can be asked for an address, where it has no filters.
fn judge_ask(
    alloc: Global,
    config: &Config,
    ask: Ask,
    items: &[Item],
    subject: &Address,
) -> Result<Verdict, Memory>
    ensures ok { IfOk result (λ verdict. verdict
        ≡ asked_by items.now (Ok ask) (place_of config.now.subscribers subject.now)) }
    ensures memory { OnErr result (IsAsked (asked_by items.now (Ok ask)
        (place_of config.now.subscribers subject.now))) }
{
    let Some(shard) = pair(config, subject) else {
        return Ok(Verdict::Refuse(refusal(Code::NotAuthorized, true)));
    };
    Ok(Verdict::Asked {
        shard,
        ask,
        items: Items::of(items.to_vec(alloc)?),
    })
}

/// A refusal with the lifetime of its code.
fn refusal(code: Code, read: bool) -> Refusal
    ensures { result ≡ if read then parsed code else unparsed code }
{
    Refusal {
        code,
        parsed: read,
        lifetime: code.lifetime(),
    }
}

/// The code with which THIRD_PARTY is refused.
fn third_fault(config: &Config, source: &Address, third: Option<Address>) -> Option<Code>
    ensures { option_map parsed result ≡ first_case (third_steps config.now source.now third) }
{
    let third = third?;
    if !may_ask_for_others(config, source) {
        Some(Code::UnsuppOption)
    } else if third == *source {
        Some(Code::MalformedRequest)
    } else {
        None
    }
}

/// Whether the host may use THIRD_PARTY.
fn may_ask_for_others(config: &Config, source: &Address) -> bool
    ensures { result ≡ list_any (λ p. holds p source.now) config.now.third_party }
{
    config
        .third_party
        .items()
        .iter()
        .any(|prefix| prefix.holds(source))
}

/// The endpoint that a request names; none where its protocol isn't mapped, or its internal port is 0.
fn endpoint_in(address: Address, common: &Common) -> Option<Endpoint>
    ensures { result ≡ endpoint_of address common.now }
{
    let protocol = Protocol::of(common.protocol)?;
    if common.internal == 0 {
        return None;
    }
    Some(Endpoint {
        address,
        protocol,
        port: common.internal,
    })
}

/// What a PEER request asks for, or the code of what can't be asked for.
fn peer_asked(
    lifetime: u32,
    common: &Common,
    remote_port: u16,
    remote: Address,
    address: Address,
) -> Result<Ask, Code>
    ensures { result
        ≡ peer_ask lifetime common.now remote_port remote (endpoint_of address common.now) }
{
    let Some(endpoint) = endpoint_in(address, common) else {
        return Err(Code::UnsuppProtocol);
    };
    if remote_port == 0 {
        return Err(Code::MalformedRequest);
    }
    Ok(Ask::Peer(PeerAsk {
        endpoint,
        nonce: common.nonce,
        lifetime,
        port: common.external,
        address: common.address,
        remote,
        remote_port,
    }))
}
