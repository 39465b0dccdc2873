//! How many leases the journals of pairs have.
ghost use Rattle.std.specs.Prelude.{◌≡◌, None};
ghost use Rattle.std.specs.List.{AllByRecursion};
ghost use Rattle.pcp_base.specs.Configs.{IsConfig};

use crate::configs::moment;
use lease_disk::{DiskPair, LeaseDisk};
use lease_house::{SoloHouse, opened_houses_begin};
use pcp_base::Config;
use std::alloc::Global;

/// How many leases the external address with this index has at `m`; 0 where there is none.
fn leases_at<D: LeaseDisk + Drop>(house: &SoloHouse<D>, shard: u32, m: u32) -> u32
    requires { AllByRecursion (λ b. b.fault ≡ None) house.now.books }
{
    if shard as usize >= house.config().externals.items().len() {
        return 0;
    }
    house.leases(shard, moment(m))
}

/// How many leases the first two external addresses have at `m`, by the journals of these pairs. None
/// where a journal isn't opened.
pub(crate) fn leases<D: LeaseDisk + Drop>(
    alloc: Global,
    config: &Config,
    disks: Vec<DiskPair<D>>,
    m: u32,
) -> Option<(u32, u32)>
    requires { IsConfig config.now }
{
    opened_houses_begin::<D>();
    if disks.len() < config.externals.items().len() {
        return None;
    }
    let Ok(house) = SoloHouse::begin(alloc, config, disks, moment(m)) else {
        return None;
    };
    Some((leases_at(&house, 0, m), leases_at(&house, 1, m)))
}
