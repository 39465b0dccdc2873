//! To which external address a datagram goes, and what it asks there.
ghost use Rattle.std.specs.Prelude.{◌≡◌, ◌<◌, [], true, length, Ok, Option, None, Some, option_map, unwrap_or, IsOk, IfOk, IfSome, OnErr};
ghost use Rattle.pcp_base.specs.Configs.{IsConfig};
ghost use Rattle.pcp_base.specs.Pairing.{place_of};
ghost use Rattle.pcp_options.specs.Responses.{AreOctets};
ghost use Rattle.pcp_options.specs.Verdicts.{IsAsked};
ghost use Rattle.natpmp_front.specs.Requests.{is_front};
ghost use Rattle.natpmp_front.specs.Verdicts.{front_of};
ghost use Rattle.lease_histories.specs.Routes.{front_verdict, judged, place_by, route_of, verdict_of_datagram};
ghost use Rattle.lease_house.specs.Routings.{MayBeAsked, routed_by};

use lease_histories::datagram_asks_are_well_formed;
use natpmp_front::{Front, is_front, read_front};
use pcp_base::{Address, Ask, Config, Datagram, Memory, pair};
use pcp_options::{Items, Verdict, judge};
use std::alloc::Global;

/// A request, and the index of the external address to which it goes.
#[derive(Drop)]
pub struct Routed {
    pub place: u32,
    pub ask: Ask,
    /// the options that came with it
    pub items: Items,
}

/// The index of the external address of a source; the first where it has none.
fn place_of_source(config: &Config, source: &Address) -> u32
    ensures { result ≡ unwrap_or (place_of config.now.subscribers source.now) 0 }
{
    match pair(config, source) {
        Some(place) => place,
        None => 0,
    }
}

/// The index of the external address to which a datagram goes: that of what it asks, else that of its
/// source, else 0. Memory is taken, and can be wanting, only for a request of PCP that isn't refused.
pub fn route(alloc: Global, config: &Config, datagram: &Datagram) -> Result<u32, Memory>
    ensures ok { IfOk result (λ place. place ≡ route_of config.now datagram.now) }
    ensures memory { OnErr result (IsAsked (judged config.now datagram.now)) }
    ensures front { is_front datagram.now.octets ≡ true → IsOk result }
    // So it is that of one that there is.
    ensures inside { IsConfig config.now →
        route_of config.now datagram.now < length config.now.externals }
{
    match judge_octets(alloc, config, &datagram.peer, datagram.octets.items())? {
        Verdict::Asked { shard, .. } => Ok(shard),
        Verdict::Refuse(_) => Ok(place_of_source(config, &datagram.peer)),
        Verdict::Silent => Ok(place_of_source(config, &datagram.peer)),
    }
}

/// The verdict on octets that came from a source, by octet 0. Each of them is below 256.
fn judge_octets(
    alloc: Global,
    config: &Config,
    source: &Address,
    octets: &[u8],
) -> Result<Verdict, Memory>
    ensures ok { IfOk result (λ verdict. verdict
        ≡ verdict_of_datagram config.now source.now octets.now) }
    ensures memory { OnErr result
        (IsAsked (verdict_of_datagram config.now source.now octets.now)) }
    ensures front { is_front octets.now ≡ true → IsOk result }
    ensures octets { AreOctets octets.now }
{
    if is_front(octets) {
        return judge_front(alloc, config, source, octets);
    }
    judge(alloc, config, source, octets)
}

/// The verdict on octets of NAT-PMP.
fn judge_front(
    alloc: Global,
    config: &Config,
    source: &Address,
    octets: &[u8],
) -> Result<Verdict, Memory>
    requires { is_front octets.now ≡ true }
    ensures { result ≡ Ok (front_verdict (front_of config.now source.now octets.now)) }
{
    match read_front(alloc, config, source, octets)? {
        Front::Silent => Ok(Verdict::Silent),
        Front::Asked { shard, ask } => Ok(Verdict::Asked {
            shard,
            ask,
            items: Items::of(Vec::new(alloc)),
        }),
    }
}

/// What a datagram asks, and where; none where it is silent. [`SoloHouse::serve_read`] answers it.
///
/// [`SoloHouse::serve_read`]: crate::SoloHouse::serve_read
pub fn read_datagram(
    alloc: Global,
    config: &Config,
    datagram: &Datagram,
) -> Result<Option<Routed>, Memory>
    requires { IsConfig config.now }
    ensures routed { IfOk result (λ routed. routed ≡ routed_by config.now datagram.now) }
    ensures may_be_asked { IfOk result (λ routed. IfSome routed
        (λ request. MayBeAsked config.now datagram.now request.place request.ask)) }
{
    datagram_asks_are_well_formed();
    let octets = datagram.octets.items();
    match judge_octets(alloc, config, &datagram.peer, octets)? {
        Verdict::Asked { shard, ask, items } => Ok(Some(Routed {
            place: shard,
            ask,
            items,
        })),
        Verdict::Refuse(refusal) => Ok(Some(Routed {
            place: place_of_source(config, &datagram.peer),
            ask: Ask::Known(refusal),
            items: Items::of(Vec::new(alloc)),
        })),
        Verdict::Silent => Ok(None),
    }
}
