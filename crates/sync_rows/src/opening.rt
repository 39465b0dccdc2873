//! An external address with a few ports, and lifetimes of 120 to 86,400 seconds.
ghost use Rattle.std.specs.Prelude.{◌≡◌, IfOk};
ghost use Rattle.pcp_base.specs.Configs.{IsConfig, IsExternal};

use pcp_base::{
    Address, Addresses, Config, External, Externals, Moment, Orders, Prefixes, Subscribers,
};
use std::alloc::Global;
use std::test::Fail;

pub(crate) fn moment(seconds: u64) -> Result<Moment, Fail>
    ensures { IfOk result (λ m. m ≡ seconds) }
{
    Ok(Moment::of(seconds).ok_or("no moment")?)
}

/// The external address 192.0.2.1 with a few ports.
pub(crate) fn external() -> External
    ensures { IsExternal result }
{
    External {
        address: Address::v4(192, 0, 2, 1),
        low: 1024,
        high: 1055,
    }
}

/// A configuration without subscribers, since a book pairs nothing.
pub(crate) fn config(alloc: Global, external: &External) -> Result<Config, Fail>
    requires { IsExternal external.now }
    ensures { IfOk result IsConfig }
{
    let externals = Vec::from_array(alloc, [*external])?;
    Ok(Config {
        quota: 64,
        lifetime_min: 120,
        lifetime_max: 86_400,
        third_party: Prefixes::of(Vec::new(alloc)),
        externals: Externals::of(externals),
        subscribers: Subscribers::of(Vec::new(alloc)),
        listen: Addresses::of(Vec::new(alloc)),
        orders: Orders::Both,
    })
}
