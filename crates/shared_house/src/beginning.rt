//! Opening a house of many threads.
ghost use Rattle.std.specs.Prelude.{◌≡◌, ◌+◌, ◌-◌, ◌^◌, ◌<◌, ◌≤◌, length, flat_map, vec_capacity};
ghost use Rattle.std.specs.Prelude.{None, IfOk, IfErr};
ghost use Rattle.std.specs.List.{AllByRecursion};
ghost use Rattle.pcp_base.specs.declared.configs.TheConstants.{MOST_EXTERNALS};
ghost use Rattle.pcp_base.specs.Configs.{IsConfig};
ghost use Rattle.epoch_word.specs.Rule.{seat_knowledge};
ghost use Rattle.shard_book.specs.Books.{IsBook};
ghost use Rattle.lease_house.specs.SoloOpenings.{IsOfPlace, book_updates};
ghost use Rattle.shared_house.specs.Beginnings.{Begins, BeginsWith, ComeBack, RefusesBegin};
ghost use Rattle.shared_house.specs.Beginnings.{first_base};
ghost use Rattle.shared_house.specs.Endings.{AreAtHome, AreLanesOf};
ghost use Rattle.shared_house.specs.Findings.{is_fresh, update_places};
ghost use Rattle.shared_house.specs.HouseCalls.{IsPassOf};
ghost use Rattle.shared_house.specs.Seats.{AreSeats};
ghost use Rattle.shared_house.specs.Turned.{AllMayBegin};

use crate::findings::{is_fresh, update_places};
use crate::houses::House;
use crate::seats::seats_of;
use crate::turned::{Turned, turn_all};
use epoch_word::{EpochSeat, EpochWord};
use lane_index::Lane;
use lease_disk::{DiskPair, LeaseDisk};
use lease_house::{
    HouseFault, Opened, Unbegun, copy_of, greatest_base, hand_back, open_books, updates_of,
};
use lease_journal::Found;
use pcp_base::{Config, Datagram, Memory, Moment};
use shard_book::Book;
use std::alloc::Global;
use std::sync::Wait;
use turned_shards::HousePass;

/// A house that was opened, and what its callers begin with. It isn't `Drop`, as the house isn't.
pub struct Begun<D: LeaseDisk> {
    pub house: House<D>,
    /// Whether a journal was found blank or damaged, or an external address was renumbered: then
    /// clients are told that the server begins anew (RFC 6887, section 14.1).
    pub fresh: bool,
    /// The first pass of each external address, in order.
    pub passes: Vec<HousePass<D>>,
    /// The lane of each external address, in order.
    pub lanes: Vec<Lane>,
    /// What clients of renumbered external addresses are told (RFC 6887, section 14.2), by door 0.
    pub updates: Vec<Datagram>,
    /// The index of the external address of each update.
    pub update_shards: Vec<u32>,
}

/// What a house has beside its turns.
#[derive(Drop)]
struct Prepared {
    fresh: bool,
    word: EpochWord,
    seats: Vec<EpochSeat>,
    updates: Vec<Datagram>,
    update_shards: Vec<u32>,
}

/// What a house of these books has beside its turns: an epoch word that stands at their greatest
/// base.
fn prepare<D: LeaseDisk + Drop>(
    alloc: Global,
    books: &[Book<D>],
    founds: &[Found],
) -> Result<Prepared, Memory>
    requires some { 0 < length books.now }
    requires few { length books.now ≤ MOST_EXTERNALS }
    requires settled { AllByRecursion (λ b. b.fault ≡ None) books.now }
    requires books { AllByRecursion (IsBook D.tells D.seen D.may_leave) books.now }
    ensures fresh { IfOk result (λ prepared. prepared.fresh ≡ is_fresh founds.now books.now) }
    ensures seats { IfOk result (λ prepared. AreSeats (length books.now)
        (seat_knowledge prepared.word (first_base books.now) (first_base books.now) 0 (2 ^ 64 - 1))
        prepared.seats.items) }
    ensures updates { IfOk result (λ prepared. prepared.updates.items
        ≡ flat_map (book_updates (first_base books.now)) books.now) }
    ensures update_shards { IfOk result (λ prepared. prepared.update_shards.items
        ≡ update_places (first_base books.now) 0 books.now) }
{
    let fresh = is_fresh(founds, books);
    let base = greatest_base(books);
    let updates = updates_of(alloc, books, base)?;
    let update_shards = update_places(alloc, books)?;
    let (word, seat) = EpochWord::new(alloc, base)?;
    let seats = seats_of(alloc, &word, seat, books.len())?;
    Ok(Prepared {
        fresh,
        word,
        seats,
        updates,
        update_shards,
    })
}

/// A house of books that were opened for this configuration. Without memory all pairs come back.
fn begin_with<D: LeaseDisk + Drop, R: Wait>(
    rt: &R,
    alloc: Global,
    config: Config,
    opened: Opened<D>,
) -> Result<Begun<D>, Vec<DiskPair<D>>>
    requires config { IsConfig config }
    requires books { AllMayBegin D.tells D.seen D.may_leave config 0 opened.books.items }
    requires count { length opened.books.items ≡ length config.externals }
    requires room { length opened.books.items + length opened.spare.items
        ≤ vec_capacity opened.spare }
    ensures config { IfOk result (λ begun. begun.house.config ≡ config) }
    ensures spare { IfOk result (λ begun. begun.house.spare ≡ opened.spare.items) }
    ensures begun { IfOk result (BeginsWith config opened.books.items opened.founds.items) }
    ensures back { IfErr result (λ pairs. ComeBack D.tells D.moment D.left_since D.may_leave
        D.faults opened.books.items opened.spare.items pairs.items) }
{
    let Opened {
        books,
        spare,
        founds,
    } = opened;
    let Ok(prepared) = prepare(alloc, &books, &founds) else {
        return Err(hand_back(books, spare));
    };
    let Prepared {
        fresh,
        word,
        seats,
        updates,
        update_shards,
    } = prepared;
    match turn_all(rt, alloc, &config, books, spare, seats) {
        Ok((made, spare)) => {
            let Turned {
                turns,
                passes,
                lanes,
            } = made;
            Ok(Begun {
                house: House {
                    config,
                    turns,
                    word,
                    spare,
                },
                fresh,
                passes,
                lanes,
                updates,
                update_shards,
            })
        }
        Err(pairs) => Err(pairs),
    }
}

impl<D: LeaseDisk + Drop> House<D> {
    /// Opens the journals of the first pairs, one for each external address in order, as
    /// [`LeaseBook::begin`](shard_book::LeaseBook::begin) does, and puts each book behind a turn.
    /// The epoch word begins with the greatest base, and each lane with the leases that were found.
    /// Pairs past the external addresses get no call. After a fault all pairs are handed back in
    /// their order, in the vector that was given. It waits for no other thread.
    pub fn begin<R: Wait>(
        rt: &R,
        alloc: Global,
        config: &Config,
        disks: Vec<DiskPair<D>>,
        m: Moment,
    ) -> Result<Begun<D>, Unbegun<D>>
        requires config { IsConfig config.now }
        requires enough { length config.now.externals ≤ length disks.items }
        ensures config { IfOk result (λ begun. begun.house.config ≡ config.now) }
        ensures begun { IfOk result (Begins D.tells D.seen D.moment D.left_since D.may_leave
            D.faults config.now m disks.items) }
        ensures passes { IfOk result
            (λ begun. AllByRecursion (IsPassOf begun.house) begun.passes.items) }
        ensures home { IfOk result
            (λ begun. AreAtHome begun.house.turns begun.passes.items) }
        ensures lanes { IfOk result
            (λ begun. AreLanesOf begun.house.turns begun.lanes.items) }
        ensures refused { IfErr result (λ refused. RefusesBegin D.tells D.seen D.moment
            D.left_since D.may_leave D.faults config.now m refused.fault disks.items
            refused.disks.items) }
        ensures place { IfErr result
            (λ refused. IsOfPlace (length config.now.externals) refused.fault) }
    {
        let copy = match copy_of(alloc, config) {
            Ok(copy) => copy,
            Err(_) => {
                return Err(Unbegun {
                    fault: HouseFault::Memory,
                    disks,
                });
            }
        };
        let opened = match open_books(alloc, config, disks, m) {
            Ok(opened) => opened,
            Err(refused) => return Err(refused),
        };
        match begin_with(rt, alloc, copy, opened) {
            Ok(begun) => Ok(begun),
            Err(disks) => Err(Unbegun {
                fault: HouseFault::Memory,
                disks,
            }),
        }
    }
}
