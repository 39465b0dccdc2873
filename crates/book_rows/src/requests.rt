//! Requests of hosts, and what is answered.
ghost use Rattle.std.specs.Prelude.{◌≡◌, ◌≤◌, length, IfOk};
ghost use Rattle.std.specs.Bool.{OnTrue};
ghost use Rattle.std.specs.List.{AllByRecursion};
ghost use Rattle.pcp_base.specs.Asks.{IsMapAsk, IsPort, IsWellFormedAsk};
ghost use Rattle.journal_sides.specs.declared.layout.TheConstants.{MOST_RECORDS};

use lease_journal::MOST_RECORDS;
use pcp_base::{Address, Answer, Ask, Endpoint, Filter, FilterList, MapAsk, Nonce, Protocol};
use std::alloc::Global;
use std::test::Fail;

/// A request over UDP.
#[derive(Clone, Copy)]
pub(crate) enum Request {
    Announce,
    /// A MAP request: the number H of the host 10.0.0.H, its port, seconds, the suggested port, and
    /// how many filters, each for a remote host.
    Map(u8, u16, u32, u16, u8),
}

/// What is answered.
#[derive(Clone, Copy, PartialEq, Eq)]
pub(crate) enum Told {
    Announced,
    Gone,
    /// seconds and the external port
    Leased(u32, u16),
    /// code and seconds
    Refused(u8, u32),
}

pub(crate) fn told_of(answer: &Answer) -> Told {
    match answer {
        Answer::Refused(refusal) => Told::Refused(refusal.code.number(), refusal.lifetime),
        Answer::Announced => Told::Announced,
        Answer::Gone => Told::Gone,
        Answer::Mapped {
            lifetime,
            external,
            address: _,
            set: _,
        } => Told::Leased(*lifetime, *external),
        Answer::Peered {
            lifetime,
            external,
            address: _,
        } => Told::Leased(*lifetime, *external),
    }
}

fn filters_of(alloc: Global, count: u8) -> Result<Vec<Filter>, Fail> {
    let mut filters = Vec::new(alloc);
    for number in 0..count {
        filters.push(Filter {
            prefix: 128,
            port: 0,
            remote: Address::v4(198, 51, 100, number),
        })?;
    }
    Ok(filters)
}

/// What the request asks.
fn ask_of(alloc: Global, request: &Request) -> Result<Ask, Fail> {
    match *request {
        Request::Announce => Ok(Ask::Announce),
        Request::Map(host, port, lifetime, suggested, count) => {
            let filters = filters_of(alloc, count)?;
            Ok(Ask::Map(MapAsk {
                endpoint: Endpoint {
                    address: Address::v4(10, 0, 0, host),
                    protocol: Protocol::Udp,
                    port,
                },
                nonce: Nonce([0, 1, 2, 3, 4, 5, 6, 7, 8, 9, 10, 11]),
                lifetime,
                port: suggested,
                address: Address([0; 16]),
                prefer: false,
                set: None,
                filters: FilterList::of(filters),
            }))
        }
    }
}

fn is_port(port: u16) -> bool
    ensures { OnTrue result (IsPort port) }
{
    port > 0
}

fn have_prefixes(filters: &[Filter]) -> bool
    ensures { OnTrue result (AllByRecursion (λ f. f.prefix ≤ 128) filters.now) }
{
    match filters {
        [] => true,
        [first, rest @ ..] => first.prefix <= 128 && have_prefixes(rest),
    }
}

fn is_map_ask(ask: &MapAsk) -> bool
    ensures { OnTrue result (IsMapAsk ask.now) }
{
    let _suggested = ask.port;
    let filters = ask.filters.items();
    is_port(ask.endpoint.port)
        && ask.set.is_none()
        && have_prefixes(filters)
        && (ask.lifetime > 0 || filters.is_empty())
}

/// Whether the request is one that the verdict lets through.
fn is_well_formed(ask: &Ask) -> bool
    ensures { OnTrue result (IsWellFormedAsk ask.now) }
{
    match ask {
        Ask::Announce => true,
        Ask::Map(ask) => is_map_ask(ask),
        _ => false,
    }
}

/// What the request asks, alone.
pub(crate) fn one_ask_of(alloc: Global, request: &Request) -> Result<Ask, Fail>
    ensures { IfOk result IsWellFormedAsk }
{
    let ask = ask_of(alloc, request)?;
    if !is_well_formed(&ask) {
        return Err("no book may be asked this".into());
    }
    Ok(ask)
}

fn are_well_formed(asks: &[Ask]) -> bool
    ensures { OnTrue result (AllByRecursion IsWellFormedAsk asks.now) }
{
    match asks {
        [] => true,
        [first, rest @ ..] => is_well_formed(first) && are_well_formed(rest),
    }
}

/// So many requests alike, no more than a batch may have.
pub(crate) fn asks_of(alloc: Global, request: &Request, count: usize) -> Result<Vec<Ask>, Fail>
    ensures few { IfOk result (λ asks. length asks.items ≤ MOST_RECORDS) }
    ensures formed { IfOk result (λ asks. AllByRecursion IsWellFormedAsk asks.items) }
{
    let mut asks = Vec::new(alloc);
    for _ in 0..count {
        asks.push(ask_of(alloc, request)?)?;
    }
    if asks.len() > MOST_RECORDS || !are_well_formed(&asks) {
        return Err("no batch may have these requests".into());
    }
    Ok(asks)
}
