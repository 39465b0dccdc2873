//! Cores over both stores: the one that a server uses, and a plain one to compare it with.
ghost use Rattle.std.specs.Prelude.{◌≡◌, ◌≤◌, IfOk};
ghost use Rattle.pcp_base.specs.Configs.{IsConfig, IsExternal};
ghost use Rattle.pcp_base.specs.declared.configs.TheConstants.{MOST_QUOTA};
ghost use Rattle.lease_store.specs.LeaseTerms.{AreTerms};

use lease_core::{Core, LeaseCore};
use lease_store::Terms;
use pcp_base::{
    Address, Addresses, Config, External, Externals, MOST_QUOTA, Orders, Prefixes, Subscribers,
};
use plain_store::PlainStore;
use std::alloc::Global;
use std::test::Fail;

/// The first and the last port that are given, and the quota.
#[derive(Clone, Copy)]
pub(crate) struct Profile(pub(crate) u16, pub(crate) u16, pub(crate) u32);

pub(crate) const WIDE: Profile = Profile(1024, 65535, 64);

/// The external address 192.0.2.1 with these ports.
fn external(low: u16, high: u16) -> External
    requires some { 1 ≤ low }
    requires ordered { low ≤ high }
    ensures { IsExternal result }
{
    External {
        address: Address::v4(192, 0, 2, 1),
        low,
        high,
    }
}

/// A configuration with one external address, lifetimes from 120 to 86,400 seconds, and no
/// subscriber, since a core pairs nothing.
fn config(alloc: Global, external: &External, quota: u32) -> Result<Config, Fail>
    requires external { IsExternal external.now }
    requires some { 1 ≤ quota }
    requires most { quota ≤ MOST_QUOTA }
    ensures { IfOk result IsConfig }
{
    Ok(Config {
        quota,
        lifetime_min: 120,
        lifetime_max: 86_400,
        third_party: Prefixes::of(Vec::new(alloc)),
        externals: Externals::of(Vec::from_array(alloc, [*external])?),
        subscribers: Subscribers::of(Vec::new(alloc)),
        listen: Addresses::of(Vec::new(alloc)),
        orders: Orders::Both,
    })
}

/// The external address and the configuration of a profile with ports from 1 on.
fn configured(alloc: Global, profile: Profile) -> Result<(External, Config), Fail>
    ensures external { IfOk result (λ made. IsExternal made.0) }
    ensures config { IfOk result (λ made. IsConfig made.1) }
{
    let Profile(low, high, quota) = profile;
    if low < 1 || low > high || quota < 1 || quota > MOST_QUOTA {
        return Err("no such profile".into());
    }
    let external = external(low, high);
    let config = config(alloc, &external, quota)?;
    Ok((external, config))
}

/// The core that a server uses.
pub(crate) fn indexed(alloc: Global, profile: Profile) -> Result<Core, Fail>
    ensures { IfOk result (λ core. AreTerms core.terms) }
{
    let (external, config) = configured(alloc, profile)?;
    Ok(Core::new(alloc, &external, &config)?)
}

/// A core over plain lists.
pub(crate) fn plain(alloc: Global, profile: Profile) -> Result<LeaseCore<PlainStore>, Fail>
    ensures { IfOk result (λ core. AreTerms core.terms) }
{
    let (external, config) = configured(alloc, profile)?;
    let store = PlainStore::new(alloc, Terms::of(&external, &config))?;
    Ok(LeaseCore::over(store))
}
