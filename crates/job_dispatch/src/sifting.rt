//! Which octets are noise, and where they go.
ghost use Rattle.std.specs.Prelude.{◌≡◌, ◌<◌, true, length, unwrap_or, Ok, IfOk, OnErr};
ghost use Rattle.pcp_base.specs.Configs.{IsConfig};
ghost use Rattle.pcp_base.specs.Pairing.{place_of};
ghost use Rattle.pcp_options.specs.Verdicts.{IsAsked};
ghost use Rattle.natpmp_front.specs.Requests.{is_front};
ghost use Rattle.natpmp_front.specs.Verdicts.{front_of};
ghost use Rattle.lease_histories.specs.Routes.{front_verdict, place_by, verdict_of_datagram};
ghost use Rattle.job_queue.specs.Noise.{is_hopeless, is_known};

use natpmp_front::{Front, is_front, read_front};
use pcp_base::{Address, Ask, Config, Memory, pair};
use pcp_options::{Items, Verdict, judge};
use std::alloc::Global;

/// To which external address octets go, and whether they are noise.
#[derive(Clone, Copy, Debug)]
pub struct Sifted {
    /// the index of the external address
    pub place: u32,
    /// whether they ask for nothing that may be granted
    pub is_noise: bool,
}

/// To which external address octets of a source go, and whether they are noise: silent, or a request
/// that is refused whatever the leases are. Memory is taken, and can be wanting, only for a request of
/// PCP that isn't refused by its octets.
pub fn sift(
    alloc: Global,
    config: &Config,
    source: &Address,
    octets: &[u8],
) -> Result<Sifted, Memory>
    ensures place { IfOk result (λ sifted. sifted.place ≡ place_by config.now source.now
        (verdict_of_datagram config.now source.now octets.now)) }
    ensures noise { IfOk result (λ sifted. sifted.is_noise
        ≡ is_hopeless (verdict_of_datagram config.now source.now octets.now)) }
    ensures memory { OnErr result
        (IsAsked (verdict_of_datagram config.now source.now octets.now)) }
    // So it is that of one that there is.
    ensures inside { IsConfig config.now → place_by config.now source.now
        (verdict_of_datagram config.now source.now octets.now) < length config.now.externals }
{
    match judge_octets(alloc, config, source, octets)? {
        Verdict::Asked { shard, ask, .. } => Ok(Sifted {
            place: shard,
            is_noise: is_known(&ask),
        }),
        Verdict::Refuse(_) => Ok(noise_of(config, source)),
        Verdict::Silent => Ok(noise_of(config, source)),
    }
}

/// What octets of this source are that no request is read of.
fn noise_of(config: &Config, source: &Address) -> Sifted
    ensures { result ≡ record {
      place = unwrap_or (place_of config.now.subscribers source.now) 0;
      is_noise = true;
    } }
{
    Sifted {
        place: pair(config, source).unwrap_or(0),
        is_noise: true,
    }
}

/// Whether it is known already that the request is refused.
fn is_known(ask: &Ask) -> bool
    ensures { result ≡ is_known ask.now }
{
    match ask {
        Ask::Known(_) => true,
        _ => false,
    }
}

/// The verdict on octets that came from a source, by octet 0.
fn judge_octets(
    alloc: Global,
    config: &Config,
    source: &Address,
    octets: &[u8],
) -> Result<Verdict, Memory>
    ensures ok { IfOk result (λ verdict. verdict
        ≡ verdict_of_datagram config.now source.now octets.now) }
    ensures memory { OnErr result
        (IsAsked (verdict_of_datagram config.now source.now octets.now)) }
{
    if is_front(octets) {
        return judge_front(alloc, config, source, octets);
    }
    judge(alloc, config, source, octets)
}

/// The verdict on octets of NAT-PMP.
fn judge_front(
    alloc: Global,
    config: &Config,
    source: &Address,
    octets: &[u8],
) -> Result<Verdict, Memory>
    requires { is_front octets.now ≡ true }
    ensures { result ≡ Ok (front_verdict (front_of config.now source.now octets.now)) }
{
    match read_front(alloc, config, source, octets)? {
        Front::Silent => Ok(Verdict::Silent),
        Front::Asked { shard, ask } => Ok(Verdict::Asked {
            shard,
            ask,
            items: Items::of(Vec::new(alloc)),
        }),
    }
}
