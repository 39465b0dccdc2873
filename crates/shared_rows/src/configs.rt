//! Configurations of one external address and of two.
ghost use Rattle.std.specs.Prelude.{◌≡◌, ◌≤◌, length, IfOk};
ghost use Rattle.pcp_base.specs.Configs.{IsConfig, IsExternal};

use pcp_base::{
    Address, Addresses, Config, External, Externals, Memory, Moment, Orders, Prefix, Prefixes,
    Subscriber, Subscribers,
};
use std::alloc::Global;

pub(crate) fn moment(seconds: u32) -> Moment {
    Moment::of(u64::from(seconds)).unwrap()
}

/// 192.0.2.`last`, with the ports from 1024 on.
fn external(last: u8) -> External
    ensures { IsExternal result }
{
    External {
        address: Address::v4(192, 0, 2, last),
        low: 1_024,
        high: 65_535,
    }
}

/// The hosts of 10.`second`.0.0/9.
fn hosts(second: u8, external: u32) -> Subscriber
    ensures bits { result.prefix.bits ≤ 128 }
    ensures external { result.external ≡ external }
{
    Subscriber {
        prefix: Prefix {
            bits: 105,
            address: Address::v4(10, second, 0, 0),
        },
        external,
    }
}

/// 192.0.2.1 serves the hosts of 10.0.0.0/9.
pub(crate) fn one_address(alloc: Global) -> Result<Config, Memory>
    ensures { IfOk result IsConfig }
{
    Ok(Config {
        quota: 64,
        lifetime_min: 120,
        lifetime_max: 86_400,
        third_party: Prefixes::of(Vec::new(alloc)),
        externals: Externals::of(Vec::from_array(alloc, [external(1)])?),
        subscribers: Subscribers::of(Vec::from_array(alloc, [hosts(0, 0)])?),
        listen: Addresses::of(Vec::new(alloc)),
        orders: Orders::Both,
    })
}

/// 192.0.2.1 serves the hosts of 10.0.0.0/9, and 192.0.2.2 those of 10.128.0.0/9.
pub(crate) fn two_addresses(alloc: Global) -> Result<Config, Memory>
    ensures { IfOk result IsConfig }
{
    let first = external(1);
    let second = external(2);
    if first.address == second.address {
        return Err(Memory);
    }
    Ok(Config {
        quota: 64,
        lifetime_min: 120,
        lifetime_max: 86_400,
        third_party: Prefixes::of(Vec::new(alloc)),
        externals: Externals::of(Vec::from_array(alloc, [first, second])?),
        subscribers: Subscribers::of(Vec::from_array(alloc, [hosts(0, 0), hosts(128, 1)])?),
        listen: Addresses::of(Vec::new(alloc)),
        orders: Orders::Both,
    })
}
