//! Requests of hosts, and what is answered.
ghost use Rattle.std.specs.Prelude.{◌≡◌, ◌<◌, ◌≤◌, IfSome};
ghost use Rattle.std.specs.Bool.{OnTrue};
ghost use Rattle.std.specs.List.{AllByRecursion};
ghost use Rattle.pcp_base.specs.Asks.{IsMapAsk, IsPeerAsk, IsPort, IsWellFormedAsk};

use pcp_base::{
    Address, Answer, Ask, Endpoint, Filter, FilterList, MapAsk, Nonce, PeerAsk, PortSet, Protocol,
};
use std::alloc::Global;
use std::test::Fail;

/// What a request asks for beside a lease.
#[derive(Clone, Copy)]
pub(crate) enum Wish {
    Nothing,
    /// PREFER_FAILURE
    AllOrNothing,
    /// PORT_SET of so many ports
    Set(u16),
    /// FILTERs, each with its prefix, the remote IPv4 address and its port
    Filters(&'static [(u8, [u8; 4], u16)]),
    /// a PEER lease for this remote IPv4 address and port
    Peer([u8; 4], u16),
}

/// What is answered, with lifetimes in seconds.
#[derive(Clone, Copy, PartialEq, Eq)]
pub(crate) enum Told {
    /// lifetime and external port
    Leased(u32, u16),
    /// the same, and of PORT_SET the size and the first internal port
    LeasedSet(u32, u16, u16, u16),
    Gone,
    Announced,
    /// code and lifetime
    Refused(u8, u32),
}

/// A request over UDP: the number H of the host 10.0.0.H, its port, each octet of the nonce, the
/// lifetime, the suggested port, and what else it wishes.
#[derive(Clone, Copy)]
pub(crate) struct Request(
    pub(crate) u8,
    pub(crate) u16,
    pub(crate) u8,
    pub(crate) u32,
    pub(crate) u16,
    pub(crate) Wish,
);

pub(crate) fn told_of(answer: &Answer) -> Told {
    match answer {
        Answer::Refused(refusal) => Told::Refused(refusal.code.number(), refusal.lifetime),
        Answer::Announced => Told::Announced,
        Answer::Gone => Told::Gone,
        Answer::Mapped {
            lifetime,
            external,
            address: _,
            set,
        } => match set {
            None => Told::Leased(*lifetime, *external),
            Some(set) => Told::LeasedSet(*lifetime, *external, set.size, set.first),
        },
        Answer::Peered {
            lifetime,
            external,
            address: _,
        } => Told::Leased(*lifetime, *external),
    }
}

pub(crate) fn host(number: u8) -> Address {
    Address::v4(10, 0, 0, number)
}

pub(crate) fn remote([a, b, c, d]: [u8; 4]) -> Address {
    Address::v4(a, b, c, d)
}

fn endpoint_of(request: &Request) -> Endpoint {
    Endpoint {
        address: host(request.0),
        protocol: Protocol::Udp,
        port: request.1,
    }
}

fn set_of(wish: Wish, first: u16) -> Option<PortSet> {
    match wish {
        Wish::Set(size) => Some(PortSet {
            size,
            first,
            parity: false,
        }),
        _ => None,
    }
}

fn filters_of(alloc: Global, wish: Wish) -> Result<Vec<Filter>, Fail> {
    let mut filters = Vec::new(alloc);
    if let Wish::Filters(rows) = wish {
        for (prefix, octets, port) in rows {
            filters.push(Filter {
                prefix: *prefix,
                port: *port,
                remote: remote(*octets),
            })?;
        }
    }
    Ok(filters)
}

fn peer_ask(request: &Request, octets: [u8; 4], remote_port: u16) -> PeerAsk {
    PeerAsk {
        endpoint: endpoint_of(request),
        nonce: Nonce([request.2; 12]),
        lifetime: request.3,
        port: request.4,
        address: Address([0; 16]),
        remote: remote(octets),
        remote_port,
    }
}

fn map_ask(request: &Request, filters: FilterList) -> MapAsk {
    MapAsk {
        endpoint: endpoint_of(request),
        nonce: Nonce([request.2; 12]),
        lifetime: request.3,
        port: request.4,
        address: Address([0; 16]),
        prefer: matches!(request.5, Wish::AllOrNothing),
        set: set_of(request.5, request.1),
        filters,
    }
}

/// What the request asks.
pub(crate) fn ask_of(alloc: Global, request: &Request) -> Result<Ask, Fail> {
    match request.5 {
        Wish::Peer(octets, port) => Ok(Ask::Peer(peer_ask(request, octets, port))),
        _ => {
            let filters = filters_of(alloc, request.5)?;
            Ok(Ask::Map(map_ask(request, FilterList::of(filters))))
        }
    }
}

fn is_port(port: u16) -> bool
    ensures { OnTrue result (IsPort port) }
{
    port > 0
}

fn have_prefixes(filters: &[Filter]) -> bool
    ensures { OnTrue result (AllByRecursion (λ f. f.prefix ≤ 128) filters.now) }
{
    match filters {
        [] => true,
        [first, rest @ ..] => first.prefix <= 128 && have_prefixes(rest),
    }
}

fn is_set(set: Option<PortSet>, first: u16) -> bool
    ensures { OnTrue result (IfSome set (λ set. (0 < set.size) × (set.first ≡ first))) }
{
    match set {
        None => true,
        Some(set) => set.size > 0 && set.first == first,
    }
}

fn is_map_ask(ask: &MapAsk) -> bool
    ensures { OnTrue result (IsMapAsk ask.now) }
{
    let _suggested = ask.port;
    let filters = ask.filters.items();
    is_port(ask.endpoint.port)
        && is_set(ask.set, ask.endpoint.port)
        && have_prefixes(filters)
        && (ask.lifetime > 0 || filters.is_empty())
}

fn is_peer_ask(ask: &PeerAsk) -> bool
    ensures { OnTrue result (IsPeerAsk ask.now) }
{
    let _suggested = ask.port;
    is_port(ask.endpoint.port) && is_port(ask.remote_port)
}

/// Whether the request is one that the verdict lets through.
pub(crate) fn is_well_formed(ask: &Ask) -> bool
    ensures { OnTrue result (IsWellFormedAsk ask.now) }
{
    match ask {
        Ask::Map(ask) => is_map_ask(ask),
        Ask::Peer(ask) => is_peer_ask(ask),
        _ => true,
    }
}
