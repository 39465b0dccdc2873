//! The configuration by which a cascade judges requests.
ghost use Rattle.std.specs.Prelude.{◌≡◌, IfOk};
ghost use Rattle.proxy_cascade.specs.Cascades.{for_itself};

use pcp_base::{
    Address, Addresses, Config, External, Externals, Memory, Orders, Prefix, Prefixes, Subscriber,
    Subscribers,
};
use std::alloc::Global;

/// A configuration in which every address may ask, for itself alone. No lease is made by it.
pub(crate) fn for_itself(alloc: Global) -> Result<Config, Memory>
    ensures { IfOk result (λ config. config ≡ for_itself) }
{
    let external = External {
        address: Address([0; 16]),
        low: 1,
        high: 1,
    };
    let subscriber = Subscriber {
        prefix: Prefix {
            bits: 0,
            address: Address([0; 16]),
        },
        external: 0,
    };
    Ok(Config {
        quota: 1,
        lifetime_min: 1,
        lifetime_max: 1,
        third_party: Prefixes::of(Vec::new(alloc)),
        externals: Externals::of(vec![in alloc; external]?),
        subscribers: Subscribers::of(vec![in alloc; subscriber]?),
        listen: Addresses::of(Vec::new(alloc)),
        orders: Orders::Both,
    })
}
