//! The router of this host, as the system's table of IPv4 routes tells it.
ghost use Rattle.std.specs.Prelude.{◌≡◌, ◌≤◌, ◌==◌, IfOk, map, option_map, slice_get};
ghost use Rattle.std.specs.List.{slice_split};
ghost use Rattle.program_links.specs.Routes.{default_in, default_of, default_router, is_default, least_default, lesser, number_at, number_in, route_of, route_with, router_of};

use pcp_base::{Address, Memory};
use std::alloc::{AllocError, Global};
use std::fs;

/// Where the system tells its IPv4 routes.
const IPV4_ROUTES: &str = "/proc/self/net/route";

/// A route of the table, as its columns number it.
#[derive(Clone, Copy, Debug, PartialEq, Eq)]
struct Route {
    network: u32,
    router: u32,
    flags: u32,
    metric: u32,
    mask: u32,
}

/// The router of IPv4's default route of the least metric that the text of the system's table tells; none
/// where it tells no default route by a router. The one error is want of memory.
pub fn default_router(alloc: Global, text: &str) -> Result<Option<Address>, Memory>
    ensures { IfOk result (λ router. router ≡ default_router text.now) }
{
    let lines = lines_of(alloc, text)?;
    let route = least_default(alloc, &lines)?;
    Ok(router_in(route))
}

/// The router of this host; none where its table can't be read, or tells none.
pub fn router_of_host(rt: &HostRuntime) -> Result<Option<Address>, Memory> {
    match fs::read_to_string(rt, IPV4_ROUTES) {
        Ok(text) => default_router(rt.alloc(), text.as_str()),
        Err(_) => Ok(None),
    }
}

fn lines_of(alloc: Global, text: &str) -> Result<Vec<&str>, AllocError>
    ensures { IfOk result (λ lines.
        map (λ line. line.now) lines.items ≡ slice_split (λ octet. octet == 10) text.now) }
{
    text.split('\n').collect(alloc)
}

fn columns_of(alloc: Global, line: &str) -> Result<Vec<&str>, AllocError>
    ensures { IfOk result (λ columns.
        map (λ column. column.now) columns.items ≡ slice_split (λ octet. octet == 9) line.now) }
{
    line.split('\t').collect(alloc)
}

/// The first default route of the least metric in these lines.
#[tactic(auto, using(crate::proofs::RouteLemmas::lesser_joins))]
fn least_default(alloc: Global, lines: &[&str]) -> Result<Option<Route>, Memory>
    ensures { IfOk result (λ route. route ≡ least_default (map (λ line. line.now) lines.now)) }
{
    let mut least = None;
    for line in lines {
        least = lesser(least, default_in(alloc, line)?);
    }
    Ok(least)
}

/// The default route that a line tells.
fn default_in(alloc: Global, line: &str) -> Result<Option<Route>, Memory>
    ensures { IfOk result (λ route. route ≡ default_in line.now) }
{
    let columns = columns_of(alloc, line)?;
    Ok(default_of(route_of(&columns)))
}

/// The route of these columns.
fn route_of(columns: &[&str]) -> Option<Route>
    ensures { result ≡ route_of (map (λ column. column.now) columns.now) }
{
    route_with(
        number_at(columns, 1, 16),
        number_at(columns, 2, 16),
        number_at(columns, 3, 16),
        number_at(columns, 6, 10),
        number_at(columns, 7, 16),
    )
}

fn route_with(
    network: Option<u32>,
    router: Option<u32>,
    flags: Option<u32>,
    metric: Option<u32>,
    mask: Option<u32>,
) -> Option<Route>
    ensures { result ≡ route_with network router flags metric mask }
{
    Some(Route {
        network: network?,
        router: router?,
        flags: flags?,
        metric: metric?,
        mask: mask?,
    })
}

/// The number of this base in the column of this place.
fn number_at(columns: &[&str], place: usize, base: u32) -> Option<u32>
    requires least { 2 ≤ base }
    requires most { base ≤ 36 }
    ensures { result
        ≡ number_at base (slice_get (map (λ column. column.now) columns.now) place) }
{
    number_in(columns.get(place)?, base)
}

/// The number that a text writes in this base.
fn number_in(text: &str, base: u32) -> Option<u32>
    requires least { 2 ≤ base }
    requires most { base ≤ 36 }
    ensures { result ≡ number_in base text.now }
{
    u32::from_str_radix(text, base).ok()
}

/// The route, where it is a default one.
fn default_of(route: Option<Route>) -> Option<Route>
    ensures { result ≡ default_of route }
{
    let route = route?;
    if is_default(route) { Some(route) } else { None }
}

/// Whether the route leads to every address, is up, and goes by a router.
fn is_default(route: Route) -> bool
    ensures { result ≡ is_default route }
{
    route.network == 0 && route.mask == 0 && route.flags % 4 == 3
}

/// The one of the lesser metric, the former of equal ones.
fn lesser(a: Option<Route>, b: Option<Route>) -> Option<Route>
    ensures { result ≡ lesser a b }
{
    match a {
        Some(a) => match b {
            Some(b) => Some(if b.metric < a.metric { b } else { a }),
            None => Some(a),
        },
        None => b,
    }
}

/// The router of a route.
fn router_in(route: Option<Route>) -> Option<Address>
    ensures { result ≡ option_map router_of route }
{
    Some(router_of(route?))
}

fn router_of(route: Route) -> Address
    ensures { result ≡ router_of route }
{
    let [a, b, c, d] = route.router.to_le_bytes();
    Address::v4(a, b, c, d)
}
