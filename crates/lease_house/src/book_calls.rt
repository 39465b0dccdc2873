//! A call on one of the books of a house.
ghost use Rattle.std.specs.Prelude.{◌≡◌, ◌<◌, length, map, max, Err, IfOk, IfErr, OnOk};
ghost use Rattle.pcp_base.specs.Asks.{IsWellFormedAsk};
ghost use Rattle.journal_sides.specs.declared.errors.JournalFault.TheVariants.{Disk};
ghost use Rattle.lease_store.specs.Lookups.{lease_count};
ghost use Rattle.shard_book.specs.Keepings.{Doubts, Keeps};
ghost use Rattle.shard_book.specs.Settlings.{HasSettled, KeepsDoubt};
ghost use Rattle.lease_histories.specs.HouseHistories.{greatest};
ghost use Rattle.lease_house.specs.BookCalls.{ChangesAt, IsSettledIn, StaysBook, ask_answer};
ghost use Rattle.lease_house.specs.SoloCalls.{ask_records, loss_records, told_at};

use crate::faults::HouseFault;
use crate::moments::greatest_base;
use crate::opening::fault_at;
use lease_disk::LeaseDisk;
use lease_journal::JournalFault;
use pcp_base::{Ask, Moment};
use shard_book::{Book, DatedAnswer};
use std::alloc::Global;

/// What a call of the book at this place told, as the house tells it.
pub(crate) fn told_at<T>(place: u32, told: Result<T, JournalFault>) -> Result<T, HouseFault>
    ensures { result ≡ told_at place told }
{
    match told {
        Ok(told) => Ok(told),
        Err(fault) => Err(fault_at(place, fault)),
    }
}

/// Settles the book at this place where its last call was refused.
pub(crate) fn settle_at<D: LeaseDisk + Drop>(
    alloc: Global,
    books: &mut Vec<Book<D>>,
    place: u32,
    now: Moment,
) -> Result<(), JournalFault>
    requires { place < length books.old.items }
    ensures { ChangesAt place books.old.items books.new.items (λ b c.
        StaysBook D.tells D.seen D.may_leave D.faults (result ≡ Err Disk) b c
        × (OnOk result (HasSettled D.tells D.moment D.left_since D.may_leave now b c)
        × IfErr result (λ _. KeepsDoubt D.tells D.moment D.left_since D.may_leave b c))) }
{
    books[place as usize].settle_if_refused(alloc, now)
}

/// Asks the book at this place, which is settled. The base told is the greatest of all books'.
pub(crate) fn ask_at<D: LeaseDisk + Drop>(
    alloc: Global,
    books: &mut Vec<Book<D>>,
    place: u32,
    ask: &Ask,
    now: Moment,
) -> Result<DatedAnswer, JournalFault>
    requires place { place < length books.old.items }
    requires settled { IsSettledIn place books.old.items }
    requires formed { IsWellFormedAsk ask.now }
    ensures { ChangesAt place books.old.items books.new.items (λ b c.
        StaysBook D.tells D.seen D.may_leave D.faults (result ≡ Err Disk) b c
        × (IfOk result (λ answer. (answer
        ≡ ask_answer now (greatest (map (λ b. b.state.base) books.old.items)) ask.now b)
        × Keeps D.tells D.moment D.left_since D.may_leave (max now b.last)
        (ask_records now ask.now b) b c)
        × IfErr result (Doubts D.tells D.moment D.left_since D.may_leave
        (ask_records now ask.now b) b c))) }
{
    let base = greatest_base(books);
    books[place as usize].ask(alloc, ask, now, base)
}

/// Loses the leases of the book at this place, which is settled.
pub(crate) fn lose_at<D: LeaseDisk + Drop>(
    alloc: Global,
    books: &mut Vec<Book<D>>,
    place: u32,
    now: Moment,
) -> Result<u32, JournalFault>
    requires place { place < length books.old.items }
    requires settled { IsSettledIn place books.old.items }
    ensures { ChangesAt place books.old.items books.new.items (λ b c.
        StaysBook D.tells D.seen D.may_leave D.faults (result ≡ Err Disk) b c
        × (IfOk result (λ count.
        (count ≡ lease_count b.state.table (max now b.last))
        × Keeps D.tells D.moment D.left_since D.may_leave (max now b.last)
        (loss_records now b) b c)
        × IfErr result (Doubts D.tells D.moment D.left_since D.may_leave
        (loss_records now b) b c))) }
{
    books[place as usize].lose(alloc, now)
}
