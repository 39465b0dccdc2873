//! A configuration of one external address, and a house of it.
ghost use Rattle.std.specs.Prelude.{◌≡◌, ◌≤◌, length, IfOk, IfSome};
ghost use Rattle.pcp_base.specs.Configs.{IsConfig};
ghost use Rattle.house_lines.specs.Rests.{IsAtRest};

use lease_disk::{DiskPair, LeaseDisk};
use lease_house::{SoloHouse, opened_houses_begin};
use pcp_base::{
    Address, Addresses, Config, External, Externals, Memory, Moment, Orders, Prefix, Prefixes,
    Subscriber, Subscribers,
};
use std::alloc::Global;

pub(crate) fn moment(seconds: u32) -> Moment {
    Moment::of(u64::from(seconds)).unwrap()
}

/// 192.0.2.1 serves the hosts of 10.0.0.0/8.
fn one_address(alloc: Global) -> Result<Config, Memory>
    ensures config { IfOk result IsConfig }
    ensures one { IfOk result (λ config. length config.externals ≡ 1) }
{
    let external = External {
        address: Address::v4(192, 0, 2, 1),
        low: 1_024,
        high: 65_535,
    };
    let subscriber = Subscriber {
        prefix: Prefix {
            bits: 104,
            address: Address::v4(10, 0, 0, 0),
        },
        external: 0,
    };
    Ok(Config {
        quota: 64,
        lifetime_min: 120,
        lifetime_max: 86_400,
        third_party: Prefixes::of(Vec::new(alloc)),
        externals: Externals::of(Vec::from_array(alloc, [external])?),
        subscribers: Subscribers::of(Vec::from_array(alloc, [subscriber])?),
        listen: Addresses::of(Vec::new(alloc)),
        orders: Orders::Both,
    })
}

/// A house of one external address over the first of these pairs, at 1000; none where a disk failed.
pub(crate) fn begun<D: LeaseDisk + Drop>(
    alloc: Global,
    disks: Vec<DiskPair<D>>,
) -> Result<Option<SoloHouse<D>>, Memory>
    requires { 1 ≤ length disks.items }
    ensures { IfOk result (λ house. IfSome house (IsAtRest D.tells D.seen D.may_leave)) }
{
    opened_houses_begin::<D>();
    let config = one_address(alloc)?;
    match SoloHouse::begin(alloc, &config, disks, moment(1_000)) {
        Ok(house) => Ok(Some(house)),
        Err(_) => Ok(None),
    }
}
