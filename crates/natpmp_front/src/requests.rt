//! Requests (RFC 6886, sections 3 and 3.2 to 3.5).
ghost use Rattle.std.specs.Prelude.{◌≡◌, ℕ, true, option_map, Ok};
ghost use Rattle.pcp_base.specs.declared.asks.MapAsk.{MapAsk};
ghost use Rattle.pcp_base.specs.declared.asks.Ask.TheVariants as Asks;
ghost use Rattle.pcp_base.specs.Cases.{first_case};
ghost use Rattle.pcp_base.specs.Refusals.{parsed};
ghost use Rattle.natpmp_front.specs.Packets.{IsAddressAsked, IsMapAsked};
ghost use Rattle.natpmp_front.specs.Requests.{asked, is_front, is_silent, is_v4, protocol_asked};
ghost use Rattle.natpmp_front.specs.Verdicts.{ask_by, front_of, has_v4_external, refusal_steps};

use crate::fields::{is_of_map, octet_of, operation_in, u16_of, u32_of};
use crate::layout::*;
use pcp_base::{
    Address, Ask, Code, Config, Endpoint, FilterList, MapAsk, Memory, Nonce, Protocol, Refusal,
    pair,
};
use std::alloc::Global;

/// What an IPv4 address begins with (RFC 6887, section 5).
const V4_FRONT: [u8; 12] = [0, 0, 0, 0, 0, 0, 0, 0, 0, 0, 255, 255];

/// The address `::`, by which a request suggests none.
const NO_ADDRESS: Address = Address([0; 16]);

/// The nonce of every lease of this protocol, whose requests have none.
const NONCE: Nonce = Nonce([0; 12]);

/// What a datagram of version 0 is.
#[derive(Debug, Drop)]
pub enum Front {
    /// Nothing that is answered: a reply, or a request for a mapping that isn't whole.
    Silent,
    /// A request to the lease table of an external address, refused ones too.
    Asked {
        /// The index of the external address: that of the source, 0 where no subscriber row holds it.
        shard: u32,
        /// What is asked for: `Known`, `Announce` or `Map`.
        ask: Ask,
    },
}

/// Whether a datagram of any length is of this protocol: it has at least 2 octets, and the first is 0.
pub fn is_front(octets: &[u8]) -> bool
    ensures { result ≡ is_front octets.now }
{
    octets.len() >= 2 && octet_of(octets, 0) == VERSION
}

/// What a datagram of this protocol from `source` asks for (RFC 6886, sections 3.2 to 3.5). The first that
/// fails of four steps decides: an operation of 0 to 2 (code 4), a source with a subscriber row and an IPv4
/// address (2), an IPv4 external address for operation 0 (7), and an internal port above 0 for the others
/// (2). Then operation 0 asks `Announce`, and the operations 1 and 2 ask `Map` over UDP and TCP for the
/// source, with the nonce of zeros. No memory is taken.
pub fn read_front(
    alloc: Global,
    config: &Config,
    source: &Address,
    octets: &[u8],
) -> Result<Front, Memory>
    requires { is_front octets.now ≡ true }
    ensures exact { result ≡ Ok (front_of config.now source.now octets.now) }
    ensures map { (shard : ℕ) (a : MapAsk) → result ≡ Ok (Front.Asked shard (Asks.Map a))
        → IsMapAsked config.now source.now octets.now shard a }
    ensures map_only { (shard : ℕ) (a : MapAsk)
        → IsMapAsked config.now source.now octets.now shard a
        → result ≡ Ok (Front.Asked shard (Asks.Map a)) }
    ensures address { (shard : ℕ) → result ≡ Ok (Front.Asked shard Asks.Announce)
        → IsAddressAsked config.now source.now octets.now shard }
    ensures address_only { (shard : ℕ)
        → IsAddressAsked config.now source.now octets.now shard
        → result ≡ Ok (Front.Asked shard Asks.Announce) }
{
    Ok(front_in(alloc, config, source, octets))
}

/// The same, of any octets.
fn front_in(alloc: Global, config: &Config, source: &Address, octets: &[u8]) -> Front
    ensures { result ≡ front_of config.now source.now octets.now }
{
    if is_silent(octets) {
        return Front::Silent;
    }
    let place = pair(config, source);
    Front::Asked {
        shard: place.unwrap_or(0),
        ask: ask_in(alloc, config, source, place, octets),
    }
}

/// Whether nothing answers the datagram.
fn is_silent(octets: &[u8]) -> bool
    ensures { result ≡ is_silent octets.now }
{
    octet_of(octets, 1) >= REPLY_BIT || is_of_map(octets) && octets.len() < MAP_OCTETS
}

/// What a host asks for, whose external address has this index.
fn ask_in(
    alloc: Global,
    config: &Config,
    source: &Address,
    place: Option<u32>,
    octets: &[u8],
) -> Ask
    ensures { result ≡ ask_by source.now octets.now
        (first_case (refusal_steps config.now source.now place octets.now)) }
{
    match refused_with(config, source, place, octets) {
        Some(code) => Ask::Known(Refusal {
            code,
            parsed: true,
            lifetime: code.lifetime(),
        }),
        None => asked(alloc, source, octets),
    }
}

/// The code of the first of the four steps that fails.
fn refused_with(
    config: &Config,
    source: &Address,
    place: Option<u32>,
    octets: &[u8],
) -> Option<Code>
    ensures { option_map parsed result
        ≡ first_case (refusal_steps config.now source.now place octets.now) }
{
    if operation_in(octets) > MAP_TCP_OPERATION {
        Some(Code::UnsuppOpcode)
    } else if place.is_none() || !is_v4(source) {
        Some(Code::NotAuthorized)
    } else if operation_in(octets) == ADDRESS_OPERATION && !has_v4_external(config, place) {
        Some(Code::NetworkFailure)
    } else if is_of_map(octets) && u16_of(octets, INTERNAL_PLACE) == 0 {
        Some(Code::NotAuthorized)
    } else {
        None
    }
}

/// Whether this is an IPv4 address.
fn is_v4(address: &Address) -> bool
    ensures { result ≡ is_v4 address.now }
{
    address.0.starts_with(&V4_FRONT)
}

/// Whether the external address of this index is an IPv4 address.
fn has_v4_external(config: &Config, place: Option<u32>) -> bool
    ensures { result ≡ has_v4_external config.now place }
{
    let Some(place) = place else {
        return false;
    };
    match config.externals.items().get(place as usize) {
        Some(external) => is_v4(&external.address),
        None => false,
    }
}

/// What a request asks for that nothing refuses.
fn asked(alloc: Global, source: &Address, octets: &[u8]) -> Ask
    ensures { result ≡ asked source.now octets.now }
{
    if !is_of_map(octets) {
        return Ask::Announce;
    }
    Ask::Map(MapAsk {
        endpoint: Endpoint {
            address: *source,
            protocol: protocol_in(octets),
            port: u16_of(octets, INTERNAL_PLACE),
        },
        nonce: NONCE,
        lifetime: u32_of(octets, LIFETIME_PLACE),
        port: u16_of(octets, SUGGESTED_PLACE),
        address: NO_ADDRESS,
        prefer: false,
        set: None,
        filters: FilterList::of(Vec::new(alloc)),
    })
}

/// The protocol of a request for a mapping.
fn protocol_in(octets: &[u8]) -> Protocol
    ensures { result ≡ protocol_asked octets.now }
{
    if operation_in(octets) == MAP_UDP_OPERATION {
        Protocol::Udp
    } else {
        Protocol::Tcp
    }
}
