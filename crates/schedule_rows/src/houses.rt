//! A house of one external address, which a relay may ask for others.
ghost use Rattle.std.specs.Prelude.{◌≡◌, length, IfOk};
ghost use Rattle.pcp_base.specs.Configs.{IsConfig};

use lease_disk::{DiskPair, LeaseDisk, MemoryDisk};
use lease_house::SoloHouse;
use pcp_base::{
    Address, Addresses, Config, External, Externals, Memory, Moment, Orders, Prefix, Prefixes,
    Subscriber, Subscribers,
};
use std::alloc::Global;

pub(crate) fn moment(seconds: u32) -> Moment {
    Moment::of(u64::from(seconds)).unwrap()
}

/// 192.0.2.1 serves the hosts of 10.0.0.0/8, for which `relay` may ask.
fn config(alloc: Global, relay: Address) -> Result<Config, Memory>
    ensures config { IfOk result IsConfig }
    ensures one { IfOk result (λ config. length config.externals ≡ 1) }
{
    let external = External {
        address: Address::v4(192, 0, 2, 1),
        low: 1_024,
        high: 1_151,
    };
    let subscriber = Subscriber {
        prefix: Prefix {
            bits: 104,
            address: Address::v4(10, 0, 0, 0),
        },
        external: 0,
    };
    let asking = Prefix {
        bits: 128,
        address: relay,
    };
    Ok(Config {
        quota: 64,
        lifetime_min: 120,
        lifetime_max: 86_400,
        third_party: Prefixes::of(Vec::from_array(alloc, [asking])?),
        externals: Externals::of(Vec::from_array(alloc, [external])?),
        subscribers: Subscribers::of(Vec::from_array(alloc, [subscriber])?),
        listen: Addresses::of(Vec::new(alloc)),
        orders: Orders::Both,
    })
}

/// A blank pair of disks.
pub(crate) fn blank(alloc: Global) -> Result<DiskPair<MemoryDisk>, Memory> {
    Ok(DiskPair {
        a: MemoryDisk::new(alloc, 1 << 20)?,
        b: MemoryDisk::new(alloc, 1 << 20)?,
    })
}

fn one<T: Drop>(alloc: Global, item: T) -> Result<Vec<T>, Memory>
    ensures { IfOk result (λ items. length items.items ≡ 1) }
{
    let mut items = Vec::new(alloc);
    items.push(item)?;
    Ok(items)
}

/// A house over a pair, at `second`; none where a disk failed.
pub(crate) fn begun<D: LeaseDisk + Drop>(
    alloc: Global,
    relay: Address,
    disks: DiskPair<D>,
    second: u32,
) -> Result<Option<SoloHouse<D>>, Memory> {
    let config = config(alloc, relay)?;
    let disks = one(alloc, disks)?;
    match SoloHouse::begin(alloc, &config, disks, moment(second)) {
        Ok(house) => Ok(Some(house)),
        Err(_) => Ok(None),
    }
}

/// Whether all leases are lost.
pub(crate) fn loses<D: LeaseDisk + Drop>(
    alloc: Global,
    house: &mut SoloHouse<D>,
    second: u32,
) -> bool {
    if house.config().externals.items().is_empty() {
        return false;
    }
    house.lose(alloc, 0, moment(second)).is_ok()
}
