//! Opening a house, and what clients are told then. Octets are those of the formats.
ghost use Rattle.std.specs.Prelude.{◌≡◌, ◌≤◌, length, IfOk};
ghost use Rattle.pcp_base.specs.Configs.{IsConfig, IsExternal};

use crate::configs::moment;
use crate::disks::{NEVER, pair, three, two, written};
use lease_disk::{DiskPair, LeaseDisk, MemoryDisk};
use lease_house::{HouseFault, SoloHouse, opened_houses_begin};
use pcp_base::{
    Address, Addresses, Config, Datagram, External, Externals, Memory, Orders, Prefixes,
    Subscribers,
};
use std::alloc::Global;
use std::test::Fail;

// A journal that was begun at 1000 for 192.0.2.77.
static FIRST: [u8; 59] = [
    0x01, 0x50, 0x43, 0x50, 0x4a, 0x02, 0x00, 0x00, 0x00, 0x00, 0x00, 0x00, 0x00, 0x00, 0x01, 0x00,
    0x00, 0x00, 0x09, 0x01, 0x00, 0x00, 0x00, 0x00, 0x00, 0x00, 0x03, 0xe8, 0x01, 0x00, 0x00, 0x00,
    0x19, 0x09, 0x00, 0x00, 0x00, 0x00, 0x00, 0x00, 0x03, 0xe8, 0x00, 0x00, 0x00, 0x00, 0x00, 0x00,
    0x00, 0x00, 0x00, 0x00, 0xff, 0xff, 0xc0, 0x00, 0x02, 0x4d, 0x00,
];

// The same for 192.0.2.2.
static SECOND: [u8; 59] = [
    0x01, 0x50, 0x43, 0x50, 0x4a, 0x02, 0x00, 0x00, 0x00, 0x00, 0x00, 0x00, 0x00, 0x00, 0x01, 0x00,
    0x00, 0x00, 0x09, 0x01, 0x00, 0x00, 0x00, 0x00, 0x00, 0x00, 0x03, 0xe8, 0x01, 0x00, 0x00, 0x00,
    0x19, 0x09, 0x00, 0x00, 0x00, 0x00, 0x00, 0x00, 0x03, 0xe8, 0x00, 0x00, 0x00, 0x00, 0x00, 0x00,
    0x00, 0x00, 0x00, 0x00, 0xff, 0xff, 0xc0, 0x00, 0x02, 0x02, 0x00,
];

// A journal of 192.0.2.1 with a MAP lease and a PEER lease of one endpoint,
// from 1010 to 4610.
pub(crate) static LEASED: [u8; 206] = [
    0x01, 0x50, 0x43, 0x50, 0x4a, 0x02, 0x00, 0x00, 0x00, 0x00, 0x00, 0x00, 0x00, 0x00, 0x01, 0x00,
    0x00, 0x00, 0x09, 0x01, 0x00, 0x00, 0x00, 0x00, 0x00, 0x00, 0x03, 0xe8, 0x01, 0x00, 0x00, 0x00,
    0x19, 0x09, 0x00, 0x00, 0x00, 0x00, 0x00, 0x00, 0x03, 0xe8, 0x00, 0x00, 0x00, 0x00, 0x00, 0x00,
    0x00, 0x00, 0x00, 0x00, 0xff, 0xff, 0xc0, 0x00, 0x02, 0x01, 0x01, 0x00, 0x00, 0x00, 0x3d, 0x02,
    0x00, 0x00, 0x00, 0x00, 0x00, 0x00, 0x03, 0xf2, 0x00, 0x00, 0x00, 0x00, 0x00, 0x00, 0x00, 0x00,
    0x00, 0x00, 0xff, 0xff, 0x0a, 0x00, 0x00, 0x05, 0x11, 0x13, 0x88, 0x00, 0x01, 0x04, 0x00, 0x00,
    0x01, 0x02, 0x03, 0x04, 0x05, 0x06, 0x07, 0x08, 0x09, 0x0a, 0x0b, 0x00, 0x00, 0x00, 0x00, 0x00,
    0x00, 0x03, 0xf2, 0x00, 0x00, 0x00, 0x00, 0x00, 0x00, 0x12, 0x02, 0x00, 0x01, 0x00, 0x00, 0x00,
    0x4c, 0x03, 0x00, 0x00, 0x00, 0x00, 0x00, 0x00, 0x03, 0xf2, 0x00, 0x00, 0x00, 0x00, 0x00, 0x00,
    0x00, 0x00, 0x00, 0x00, 0xff, 0xff, 0x0a, 0x00, 0x00, 0x05, 0x11, 0x13, 0x88, 0x04, 0x00, 0x00,
    0x00, 0x00, 0x00, 0x00, 0x00, 0x00, 0x00, 0x00, 0x00, 0xff, 0xff, 0xc6, 0x33, 0x64, 0x07, 0x00,
    0x35, 0x00, 0x01, 0x02, 0x03, 0x04, 0x05, 0x06, 0x07, 0x08, 0x09, 0x0a, 0x0b, 0x00, 0x00, 0x00,
    0x00, 0x00, 0x00, 0x03, 0xf2, 0x00, 0x00, 0x00, 0x00, 0x00, 0x00, 0x12, 0x02, 0x00,
];

// What clients are told at 1500, when the address is 192.0.2.77.
static MAP_UPDATE: [u8; 60] = [
    0x02, 0x81, 0x00, 0x00, 0x00, 0x00, 0x0c, 0x26, 0x00, 0x00, 0x00, 0x00, 0x00, 0x00, 0x00, 0x00,
    0x00, 0x00, 0x00, 0x00, 0x00, 0x00, 0x00, 0x00, 0x00, 0x01, 0x02, 0x03, 0x04, 0x05, 0x06, 0x07,
    0x08, 0x09, 0x0a, 0x0b, 0x11, 0x00, 0x00, 0x00, 0x13, 0x88, 0x04, 0x00, 0x00, 0x00, 0x00, 0x00,
    0x00, 0x00, 0x00, 0x00, 0x00, 0x00, 0xff, 0xff, 0xc0, 0x00, 0x02, 0x4d,
];

static PEER_UPDATE: [u8; 80] = [
    0x02, 0x82, 0x00, 0x00, 0x00, 0x00, 0x0c, 0x26, 0x00, 0x00, 0x00, 0x00, 0x00, 0x00, 0x00, 0x00,
    0x00, 0x00, 0x00, 0x00, 0x00, 0x00, 0x00, 0x00, 0x00, 0x01, 0x02, 0x03, 0x04, 0x05, 0x06, 0x07,
    0x08, 0x09, 0x0a, 0x0b, 0x11, 0x00, 0x00, 0x00, 0x13, 0x88, 0x04, 0x00, 0x00, 0x00, 0x00, 0x00,
    0x00, 0x00, 0x00, 0x00, 0x00, 0x00, 0xff, 0xff, 0xc0, 0x00, 0x02, 0x4d, 0x00, 0x35, 0x00, 0x00,
    0x00, 0x00, 0x00, 0x00, 0x00, 0x00, 0x00, 0x00, 0x00, 0x00, 0xff, 0xff, 0xc6, 0x33, 0x64, 0x07,
];

fn external(last: u8) -> External
    ensures { IsExternal result }
{
    External {
        address: Address::v4(192, 0, 2, last),
        low: 1024,
        high: 65_535,
    }
}

/// A configuration with the external addresses 192.0.2.`last` and 192.0.2.2.
fn config(alloc: Global, last: u8) -> Result<Config, Fail>
    ensures config { IfOk result IsConfig }
    ensures two { IfOk result (λ config. length config.externals ≡ 2) }
{
    let first = external(last);
    let second = external(2);
    if first.address == second.address {
        return Err("one address".into());
    }
    Ok(Config {
        quota: 64,
        lifetime_min: 120,
        lifetime_max: 86_400,
        third_party: Prefixes::of(Vec::new(alloc)),
        externals: Externals::of(Vec::from_array(alloc, [first, second])?),
        subscribers: Subscribers::of(Vec::new(alloc)),
        listen: Addresses::of(Vec::new(alloc)),
        orders: Orders::Both,
    })
}

/// A pair whose side a holds these octets. The next device call of side b fails where that is asked
/// for.
fn holding(alloc: Global, octets: &[u8], fails: bool) -> Result<DiskPair<MemoryDisk>, Memory> {
    let failing = if fails { 2 } else { NEVER };
    pair(written(alloc, octets, NEVER), written(alloc, &[], failing))
}

/// Whether the disk holds these octets, at most 299.
fn holds<D: LeaseDisk>(disk: &mut D, octets: &[u8]) -> bool {
    let mut piece = [0; 300];
    match disk.read_at(0, &mut piece) {
        Ok(count) => &piece[..count] == octets,
        Err(_) => false,
    }
}

/// Whether these pairs hold these octets on side a.
fn hold<D: LeaseDisk + Drop>(disks: Vec<DiskPair<D>>, texts: &[&[u8]]) -> bool {
    if disks.len() != texts.len() {
        return false;
    }
    for (mut pair, text) in disks.into_iter().zip(texts) {
        if !holds(&mut pair.a, text) {
            return false;
        }
    }
    true
}

/// Opens a house at 1000 and ends it: the fault, and the pairs.
fn begun<D: LeaseDisk + Drop>(
    alloc: Global,
    config: &Config,
    disks: Vec<DiskPair<D>>,
) -> (Option<HouseFault>, Vec<DiskPair<D>>)
    requires config { IsConfig config.now }
    requires enough { length config.now.externals ≤ length disks.items }
{
    match SoloHouse::begin(alloc, config, disks, moment(1_000)) {
        Ok(house) => (None, house.end()),
        Err(refused) => (Some(refused.fault), refused.disks),
    }
}

/// Three blank pairs, of which the second may fail.
fn blank_pairs(alloc: Global, fails: bool) -> Result<Vec<DiskPair<MemoryDisk>>, Memory>
    ensures { IfOk result (λ disks. length disks.items ≡ 3) }
{
    three(
        alloc,
        holding(alloc, &[], false),
        holding(alloc, &[], fails),
        holding(alloc, &[], false),
    )
}

/// Whether an opening of three blank pairs, of which the second may fail, ends so.
fn is_begun(
    alloc: Global,
    fails: bool,
    wanted: Option<HouseFault>,
    texts: &[&[u8]],
) -> Result<bool, Fail> {
    let config = config(alloc, 77)?;
    let (fault, disks) = begun(alloc, &config, blank_pairs(alloc, fails)?);
    Ok(fault == wanted && hold(disks, texts))
}

#[test]
fn opened(rt: HostRuntime) -> Result<(), Fail> {
    let texts = [FIRST.as_slice(), SECOND.as_slice(), &[]];
    assert!(rt; is_begun(rt.alloc(), false, None, &texts)?);
    let fault = Some(HouseFault::Disk(1));
    let texts = [FIRST.as_slice(), &[], &[]];
    assert!(rt; is_begun(rt.alloc(), true, fault, &texts)?);
    Ok(())
}

/// Opens a house at `m` and ends it: the updates, and the pairs.
fn updates<D: LeaseDisk + Drop>(
    alloc: Global,
    config: &Config,
    disks: Vec<DiskPair<D>>,
    m: u32,
) -> Result<(Vec<Datagram>, Vec<DiskPair<D>>), Fail>
    requires config { IsConfig config.now }
    requires enough { length config.now.externals ≤ length disks.items }
{
    opened_houses_begin::<D>();
    let Ok(house) = SoloHouse::begin(alloc, config, disks, moment(m)) else {
        return Err("not begun".into());
    };
    let updates = house.updates(alloc);
    let disks = house.end();
    Ok((updates?, disks))
}

/// Whether this is an update of 10.0.0.5 in these octets.
fn is_update(update: &Datagram, octets: &[u8]) -> bool {
    update.peer == Address::v4(10, 0, 0, 5)
        && update.port == 5_350
        && update.door == 0
        && update.octets.items() == octets
}

/// Whether the first opening makes these two updates, and a later one makes none.
fn are_made_once<D: LeaseDisk + Drop>(
    alloc: Global,
    config: &Config,
    disks: Vec<DiskPair<D>>,
) -> Result<bool, Fail>
    requires config { IsConfig config.now }
    requires two { length config.now.externals ≡ 2 }
    requires enough { 2 ≤ length disks.items }
{
    let (first, disks) = updates(alloc, config, disks, 1_500)?;
    if disks.len() != 2 {
        return Err("pairs are missing".into());
    }
    let (second, _disks) = updates(alloc, config, disks, 1_600)?;
    Ok(second.is_empty() && are_two(&first))
}

fn are_two(updates: &[Datagram]) -> bool {
    match updates {
        [map, peer] => is_update(map, &MAP_UPDATE) && is_update(peer, &PEER_UPDATE),
        _ => false,
    }
}

/// A pair that holds two leases of another external address, and a blank one.
fn renumbered_pairs(alloc: Global) -> Result<Vec<DiskPair<MemoryDisk>>, Memory>
    ensures { IfOk result (λ disks. length disks.items ≡ 2) }
{
    two(
        alloc,
        holding(alloc, &LEASED, false),
        holding(alloc, &[], false),
    )
}

#[test]
fn renumbered(rt: HostRuntime) -> Result<(), Fail> {
    let alloc = rt.alloc();
    let config = config(alloc, 77)?;
    let made = are_made_once(alloc, &config, renumbered_pairs(alloc)?)?;
    assert!(rt; made);
    Ok(())
}
