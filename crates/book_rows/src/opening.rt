//! Opening books of one external address, with the ports from 1024 on and lifetimes of 120 to
//! 86,400 seconds.
ghost use Rattle.std.specs.Prelude.{◌≡◌, None, IfOk};
ghost use Rattle.pcp_base.specs.Configs.{IsConfig, IsExternal};

use indexed_store::IndexedStore;
use lease_disk::{DiskPair, LeaseDisk};
use pcp_base::{
    Address, Addresses, Config, External, Externals, Moment, Orders, Prefixes, Subscribers,
};
use shard_book::{Book, Found, LeaseBook, Unopened};
use std::alloc::Global;
use std::test::Fail;

/// What an opening gives.
pub(crate) type Opened<D, S> = Result<(LeaseBook<D, S>, Found), Unopened<D>>;

pub(crate) fn moment(seconds: u64) -> Result<Moment, Fail>
    ensures { IfOk result (λ m. m ≡ seconds) }
{
    Ok(Moment::of(seconds).ok_or("no moment")?)
}

/// The external address 192.0.2.1.
fn external() -> External
    ensures { IsExternal result }
{
    External {
        address: Address::v4(192, 0, 2, 1),
        low: 1024,
        high: 65535,
    }
}

/// A configuration without subscribers, since a book pairs nothing.
fn config(alloc: Global, external: &External) -> Result<Config, Fail>
    requires { IsExternal external.now }
    ensures { IfOk result IsConfig }
{
    let externals = Vec::from_array(alloc, [*external])?;
    Ok(Config {
        quota: 64,
        lifetime_min: 120,
        lifetime_max: 86_400,
        third_party: Prefixes::of(Vec::new(alloc)),
        externals: Externals::of(externals),
        subscribers: Subscribers::of(Vec::new(alloc)),
        listen: Addresses::of(Vec::new(alloc)),
        orders: Orders::Both,
    })
}

/// Opens a book at `m`.
pub(crate) fn open<D: LeaseDisk + Drop>(
    alloc: Global,
    pair: DiskPair<D>,
    m: u64,
) -> Result<Opened<D, IndexedStore>, Fail>
    ensures { IfOk result (λ opened. IfOk opened (λ opened. opened.0.fault ≡ None)) }
{
    let m = moment(m)?;
    let external = external();
    let config = config(alloc, &external)?;
    Ok(Book::begin(alloc, &external, &config, pair, m))
}
