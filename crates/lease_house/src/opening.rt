//! Opening the books of a house, and handing their pairs back.
ghost use Rattle.std.specs.Prelude.{◌≡◌, ◌+◌, ◌<◌, ◌≤◌, [], ◌∷◌, ◌++◌, length, map, vec_capacity, IfOk, IfErr, OnOk};
ghost use Rattle.std.specs.List.{AllByRecursion};
ghost use Rattle.pcp_base.specs.Configs.{IsConfig, IsExternal};
ghost use Rattle.shard_book.specs.Books.{IsBook};
ghost use Rattle.lease_house.specs.SoloCalls.{fault_at};
ghost use Rattle.lease_house.specs.SoloOpenings.{AreFound, HandsBackAll, IsOfPlace, OpensAll};
ghost use Rattle.lease_house.specs.Turns.{OpensNext, RefusesNext};

use crate::faults::{HouseFault, Unbegun};
use lease_disk::{DiskPair, LeaseDisk};
use lease_journal::JournalFault;
use pcp_base::{
    Addresses, Config, External, Externals, ListenAddress, Memory, Moment, Octets, Prefix,
    Prefixes, Subscriber, Subscribers,
};
use shard_book::{Book, Found};
use std::alloc::Global;

/// The fault of the external address with this index.
pub fn fault_at(place: u32, fault: JournalFault) -> HouseFault
    ensures { result ≡ fault_at place fault }
{
    match fault {
        JournalFault::Disk => HouseFault::Disk(place),
        JournalFault::Memory => HouseFault::Memory,
    }
}

/// The same address at which a server listens.
fn copy_of_address(alloc: Global, listen: &ListenAddress) -> Result<ListenAddress, Memory>
    ensures { IfOk result (λ copy. copy ≡ listen.now) }
{
    let link: Vec<u8> = Vec::from_slice(alloc, listen.link.items())?;
    Ok(ListenAddress {
        address: listen.address,
        link: Octets::of(link),
    })
}

/// The same addresses at which a server listens.
fn copies_of(alloc: Global, listen: &[ListenAddress]) -> Result<Vec<ListenAddress>, Memory>
    ensures { IfOk result (λ copies. copies.items ≡ listen.now) }
{
    let mut copies = Vec::new(alloc);
    for address in listen {
        copies.push(copy_of_address(alloc, address)?)?;
    }
    Ok(copies)
}

/// The same configuration.
pub fn copy_of(alloc: Global, config: &Config) -> Result<Config, Memory>
    ensures { IfOk result (λ copy. copy ≡ config.now) }
{
    let third_party: Vec<Prefix> = Vec::from_slice(alloc, config.third_party.items())?;
    let externals: Vec<External> = Vec::from_slice(alloc, config.externals.items())?;
    let subscribers: Vec<Subscriber> = Vec::from_slice(alloc, config.subscribers.items())?;
    let listen = copies_of(alloc, config.listen.items())?;
    Ok(Config {
        quota: config.quota,
        lifetime_min: config.lifetime_min,
        lifetime_max: config.lifetime_max,
        third_party: Prefixes::of(third_party),
        externals: Externals::of(externals),
        subscribers: Subscribers::of(subscribers),
        listen: Addresses::of(listen),
        orders: config.orders,
    })
}

/// Puts a pair before others. There is room for it.
pub fn put_first<D: LeaseDisk + Drop>(pairs: &mut Vec<DiskPair<D>>, pair: DiskPair<D>)
    requires { length pairs.old.items < vec_capacity pairs.old }
    ensures items { pairs.new.items ≡ pair ∷ pairs.old.items }
    ensures capacity { vec_capacity pairs.new ≡ vec_capacity pairs.old }
{
    if pairs.insert(0, pair).is_err() {
        unreachable!()
    }
}

/// The pairs of these books, before others, in the vector that has those.
pub fn hand_back<D: LeaseDisk + Drop>(
    books: Vec<Book<D>>,
    pairs: Vec<DiskPair<D>>,
) -> Vec<DiskPair<D>>
    requires { length books.items + length pairs.items ≤ vec_capacity pairs }
    ensures { result.items ≡ map (λ b. b.journal.pair) books.items ++ pairs.items }
{
    let mut books = books;
    let mut pairs = pairs;
    while let Some(book) = books.pop() {
        put_first(&mut pairs, book.close());
    }
    pairs
}

/// Opens a book for the external address at this place, over the first of the pairs, and says what its
/// journal was found to be. After a fault that pair is put back.
fn open_next<D: LeaseDisk + Drop>(
    alloc: Global,
    books: &mut Vec<Book<D>>,
    founds: &mut Vec<Found>,
    pairs: &mut Vec<DiskPair<D>>,
    external: &External,
    config: &Config,
    m: Moment,
    place: u32,
) -> Result<(), HouseFault>
    requires some { 0 < length pairs.old.items }
    requires room { length books.old.items < vec_capacity books.old }
    requires founds_room { length founds.old.items < vec_capacity founds.old }
    requires spare { length pairs.old.items ≤ vec_capacity pairs.old }
    requires external { IsExternal external.now }
    requires config { IsConfig config.now }
    ensures opened { OnOk result (OpensNext D.tells D.seen D.moment D.left_since D.may_leave
        D.faults config.now m external.now books.old.items books.new.items founds.old.items
        founds.new.items pairs.old.items pairs.new.items) }
    ensures refused { IfErr result (RefusesNext D.tells D.seen D.moment D.left_since D.may_leave
        D.faults m external.now place books.old.items books.new.items
        pairs.old.items pairs.new.items) }
    ensures books_room { vec_capacity books.new ≡ vec_capacity books.old }
    ensures founds_kept { vec_capacity founds.new ≡ vec_capacity founds.old }
    ensures pairs_room { vec_capacity pairs.new ≡ vec_capacity pairs.old }
{
    match Book::begin(alloc, external, config, pairs.remove(0), m) {
        Ok((book, found)) => {
            books.push_reserved(book);
            founds.push_reserved(found);
            Ok(())
        }
        Err(refused) => {
            put_first(pairs, refused.pair);
            Err(fault_at(place, refused.fault))
        }
    }
}

/// Books that were opened, what their journals were found to be, and the pairs that are left.
#[derive(Drop)]
pub struct Opened<D: LeaseDisk> {
    pub books: Vec<Book<D>>,
    pub founds: Vec<Found>,
    pub spare: Vec<DiskPair<D>>,
}

/// Room for so many books, and for what their journals are found to be.
fn room_for<D: LeaseDisk + Drop>(
    alloc: Global,
    count: usize,
) -> Result<(Vec<Book<D>>, Vec<Found>), Memory>
    ensures books { IfOk result
        (λ room. (room.0.items ≡ []) × (count ≤ vec_capacity room.0)) }
    ensures founds { IfOk result
        (λ room. (room.1.items ≡ []) × (count ≤ vec_capacity room.1)) }
{
    let books = Vec::with_capacity(alloc, count)?;
    let founds = Vec::with_capacity(alloc, count)?;
    Ok((books, founds))
}

/// Opens a book for each external address, over the first pairs in order. The vector of the pairs has
/// room to take those of the books back.
pub fn open_books<D: LeaseDisk + Drop>(
    alloc: Global,
    config: &Config,
    disks: Vec<DiskPair<D>>,
    m: Moment,
) -> Result<Opened<D>, Unbegun<D>>
    requires config { IsConfig config.now }
    requires enough { length config.now.externals ≤ length disks.items }
    ensures opened { IfOk result (λ opened. OpensAll D.tells D.seen D.moment D.left_since
        D.may_leave D.faults config.now m config.now.externals disks.items opened.books.items
        opened.spare.items) }
    ensures founds { IfOk result (λ opened. AreFound D.tells D.seen config.now m
        config.now.externals disks.items opened.books.items opened.founds.items) }
    ensures books { IfOk result
        (λ opened. AllByRecursion (IsBook D.tells D.seen D.may_leave) opened.books.items) }
    ensures room { IfOk result (λ opened. length opened.books.items + length opened.spare.items
        ≤ vec_capacity opened.spare) }
    ensures refused { IfErr result (λ refused. HandsBackAll D.tells D.seen D.moment
        D.left_since D.may_leave D.faults m 0 refused.fault config.now.externals disks.items
        refused.disks.items) }
    ensures place { IfErr result
        (λ refused. IsOfPlace (length config.now.externals) refused.fault) }
{
    let mut pairs = disks;
    let externals = config.externals.items();
    let Ok((mut books, mut founds)) = room_for(alloc, externals.len()) else {
        return Err(Unbegun {
            fault: HouseFault::Memory,
            disks: pairs,
        });
    };
    let mut place = 0;
    for external in externals {
        let next = open_next(
            alloc,
            &mut books,
            &mut founds,
            &mut pairs,
            external,
            config,
            m,
            place,
        );
        if let Err(fault) = next {
            return Err(Unbegun {
                fault,
                disks: hand_back(books, pairs),
            });
        }
        place += 1;
    }
    Ok(Opened {
        books,
        founds,
        spare: pairs,
    })
}
