//! What clients are told when their external address has changed (RFC 6887, section 14.2).
ghost use Rattle.std.specs.Prelude.{◌≡◌, ◌<◌, ◌++◌, map, flat_map, Some, None, IfOk, OnOk};
ghost use Rattle.std.specs.List.{AllByRecursion};
ghost use Rattle.pcp_announce.specs.Updates.{map_update, peer_update};
ghost use Rattle.shard_book.specs.Books.{IsBook};
ghost use Rattle.lease_house.specs.SoloHouses.{plain_shard};
ghost use Rattle.lease_house.specs.SoloOpenings.{book_updates, shard_updates, update_to};

use lease_disk::LeaseDisk;
use pcp_announce::{write_map_update, write_peer_update};
use pcp_base::{Address, Datagram, MapLease, Memory, Moment, Octets, PeerLease};
use shard_book::Book;
use std::alloc::Global;

/// The UDP port of a client to which a server sends without being asked (RFC 6887, section 14).
pub const CLIENT_PORT: u16 = 5_350;

/// What a client is sent, by door 0.
fn update_to(address: Address, octets: Vec<u8>) -> Datagram
    ensures { result ≡ update_to address octets.items }
{
    Datagram {
        peer: address,
        port: CLIENT_PORT,
        door: 0,
        octets: Octets::of(octets),
    }
}

/// Appends the update of each of these MAP leases, which are live at `m`.
fn push_maps(
    alloc: Global,
    updates: &mut Vec<Datagram>,
    leases: &[MapLease],
    address: &Address,
    m: Moment,
    base: Moment,
) -> Result<(), Memory>
    requires { AllByRecursion (λ l. m < l.expiry) leases.now }
    ensures { OnOk result (updates.new.items ≡ updates.old.items
        ++ map (λ l. update_to l.address (map_update l address.now m base)) leases.now) }
{
    for lease in leases {
        let mut text = Vec::new(alloc);
        write_map_update(alloc, &mut text, lease, address, m, base)?;
        updates.push(update_to(lease.address, text))?;
    }
    Ok(())
}

/// Appends the update of each of these PEER leases, which are live at `m`.
fn push_peers(
    alloc: Global,
    updates: &mut Vec<Datagram>,
    leases: &[PeerLease],
    address: &Address,
    m: Moment,
    base: Moment,
) -> Result<(), Memory>
    requires { AllByRecursion (λ l. m < l.expiry) leases.now }
    ensures { OnOk result (updates.new.items ≡ updates.old.items
        ++ map (λ l. update_to l.endpoint.address (peer_update l address.now m base)) leases.now) }
{
    for lease in leases {
        let mut text = Vec::new(alloc);
        write_peer_update(alloc, &mut text, lease, address, m, base)?;
        updates.push(update_to(lease.endpoint.address, text))?;
    }
    Ok(())
}

/// Appends the updates of an external address with this address.
fn push_leases<D: LeaseDisk + Drop>(
    alloc: Global,
    updates: &mut Vec<Datagram>,
    book: &Book<D>,
    address: &Address,
    base: Moment,
) -> Result<(), Memory>
    requires settled { book.now.fault ≡ None }
    requires address { address.now ≡ book.now.terms.external.address }
    ensures { OnOk result
        (updates.new.items ≡ updates.old.items ++ shard_updates base (plain_shard book.now)) }
{
    let core = book.core();
    let m = core.last();
    let maps = core.maps(alloc, m)?;
    let peers = core.peers(alloc, m)?;
    push_maps(alloc, updates, &maps, address, m, base)?;
    push_peers(alloc, updates, &peers, address, m, base)
}

/// Appends the updates of an external address, if the opening found it renumbered.
fn push_updates<D: LeaseDisk + Drop>(
    alloc: Global,
    updates: &mut Vec<Datagram>,
    book: &Book<D>,
    base: Moment,
) -> Result<(), Memory>
    requires settled { book.now.fault ≡ None }
    requires address { book.now.state.address ≡ Some book.now.terms.external.address }
    ensures { OnOk result
        (updates.new.items ≡ updates.old.items ++ book_updates base book.now) }
{
    if !book.renumbered() {
        return Ok(());
    }
    match book.core().address() {
        Some(address) => push_leases(alloc, updates, book, &address, base),
        None => Ok(()),
    }
}

/// The updates of all these external addresses, in order.
pub fn updates_of<D: LeaseDisk + Drop>(
    alloc: Global,
    books: &[Book<D>],
    base: Moment,
) -> Result<Vec<Datagram>, Memory>
    requires settled { AllByRecursion (λ b. b.fault ≡ None) books.now }
    requires books { AllByRecursion (IsBook D.tells D.seen D.may_leave) books.now }
    ensures { IfOk result (λ updates. updates.items ≡ flat_map (book_updates base) books.now) }
{
    let mut updates = Vec::new(alloc);
    for book in books {
        push_updates(alloc, &mut updates, book, base)?;
    }
    Ok(updates)
}
