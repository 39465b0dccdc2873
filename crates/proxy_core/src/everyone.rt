//! The configuration by which a relay judges requests.
ghost use Rattle.std.specs.Prelude.{◌≡◌, true, IfOk};
ghost use Rattle.pcp_base.specs.Pairing.{holds};
ghost use Rattle.proxy_core.specs.Everyone.{every_address, judged_by};

use pcp_base::{
    Address, Addresses, Config, External, Externals, Memory, Orders, Prefix, Prefixes, Subscriber,
    Subscribers,
};
use std::alloc::Global;

/// The prefix that holds every address.
const EVERY_ADDRESS: Prefix = Prefix {
    bits: 0,
    address: Address([0; 16]),
};

/// A configuration in which every address may ask, and what has one of these prefixes also for
/// others. Whether the relay itself may is the upstream server's to say. No lease is made by it.
pub(crate) fn judged_by(alloc: Global, third_party: Prefixes) -> Result<Config, Memory>
    ensures { IfOk result (λ config. config ≡ judged_by third_party) }
{
    let external = External {
        address: Address([0; 16]),
        low: 1,
        high: 1,
    };
    let subscriber = Subscriber {
        prefix: EVERY_ADDRESS,
        external: 0,
    };
    Ok(Config {
        quota: 1,
        lifetime_min: 1,
        lifetime_max: 1,
        third_party,
        externals: Externals::of(vec![in alloc; external]?),
        subscribers: Subscribers::of(vec![in alloc; subscriber]?),
        listen: Addresses::of(Vec::new(alloc)),
        orders: Orders::Both,
    })
}

/// The prefix of that configuration holds every address.
pub fn every_address_may_ask(address: &Address)
    ensures { holds every_address address.now ≡ true }
{
    let _number = u128::from_be_bytes(address.0);
}
