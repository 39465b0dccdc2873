//! What the opening of a house found, for those who tell its clients.
ghost use Rattle.std.specs.Prelude.{◌≡◌, ◌≤◌, ℕ, ◌++◌, None, length, replicate, IfOk, OnOk};
ghost use Rattle.std.specs.List.{AllByRecursion, list_any};
ghost use Rattle.pcp_base.specs.declared.configs.TheConstants.{MOST_EXTERNALS};
ghost use Rattle.lease_house.specs.SoloOpenings.{book_updates};
ghost use Rattle.shared_house.specs.Findings.{is_anew, is_fresh, update_places};

use lease_disk::LeaseDisk;
use lease_journal::Found;
use pcp_base::Memory;
use shard_book::Book;
use std::alloc::Global;

/// Whether a journal had no records, and was started.
fn is_anew(found: &Found) -> bool
    ensures { result ≡ is_anew found.now }
{
    match found {
        Found::Recovered => false,
        Found::Blank => true,
        Found::Damaged => true,
    }
}

/// Whether one of the journals was started.
fn has_anew(founds: &[Found]) -> bool
    ensures { result ≡ list_any is_anew founds.now }
{
    founds.iter().any(|found| is_anew(found))
}

/// Whether one of the external addresses was renumbered.
fn has_renumbered<D: LeaseDisk + Drop>(books: &[Book<D>]) -> bool
    ensures { result ≡ list_any (λ b. b.renumbered) books.now }
{
    books.iter().any(|book| book.renumbered())
}

/// Whether clients are to be told that the server begins anew.
pub(crate) fn is_fresh<D: LeaseDisk + Drop>(founds: &[Found], books: &[Book<D>]) -> bool
    ensures { result ≡ is_fresh founds.now books.now }
{
    has_anew(founds) || has_renumbered(books)
}

/// How many updates there are for an external address.
fn update_count<D: LeaseDisk + Drop>(book: &Book<D>) -> u32
    requires { book.now.fault ≡ None }
    ensures { (base : ℕ) → result ≡ length (book_updates base book.now) }
{
    if !book.renumbered() {
        return 0;
    }
    let core = book.core();
    core.leases(core.last())
}

/// Appends the index of an external address, as often as said.
fn push_place(shards: &mut Vec<u32>, place: u32, count: u32) -> Result<(), Memory>
    ensures { OnOk result (shards.new.items ≡ shards.old.items ++ replicate count place) }
{
    for _ in 0..count {
        shards.push(place)?;
    }
    Ok(())
}

/// For each of the updates of all these external addresses the index of its own, in order.
pub(crate) fn update_places<D: LeaseDisk + Drop>(
    alloc: Global,
    books: &[Book<D>],
) -> Result<Vec<u32>, Memory>
    requires few { length books.now ≤ MOST_EXTERNALS }
    requires settled { AllByRecursion (λ b. b.fault ≡ None) books.now }
    ensures { (base : ℕ) → IfOk result
        (λ shards. shards.items ≡ update_places base 0 books.now) }
{
    let mut shards = Vec::new(alloc);
    let mut place = 0;
    for book in books {
        push_place(&mut shards, place, update_count(book))?;
        place += 1;
    }
    Ok(shards)
}
