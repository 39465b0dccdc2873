//! What stands in a book.
ghost use Rattle.std.specs.Prelude.{◌≡◌, None};

use lease_disk::LeaseDisk;
use lease_store::LeaseStore;
use pcp_base::MapLease;
use shard_book::LeaseBook;
use std::alloc::Global;
use std::test::Fail;

/// What stands in a book: of its state the base, the last moment, how many leases there are, when
/// the first of them ends, and how many ends there are.
#[derive(Clone, Copy, PartialEq, Eq)]
pub(crate) struct Seen(
    pub(crate) u64,
    pub(crate) u64,
    pub(crate) u32,
    pub(crate) u64,
    pub(crate) usize,
);

fn first_expiry(leases: &[MapLease]) -> u64 {
    match leases {
        [first, ..] => first.expiry,
        [] => 0,
    }
}

/// What stands in a book that is settled.
pub(crate) fn what_stands<D: LeaseDisk, S: LeaseStore + Drop>(
    alloc: Global,
    book: &LeaseBook<D, S>,
) -> Result<Seen, Fail>
    requires { book.now.fault ≡ None }
{
    let core = book.core();
    let last = core.last();
    let maps = core.maps(alloc, last)?;
    let ends = core.ends(alloc)?;
    Ok(Seen(
        book.base().get(),
        last.get(),
        core.leases(last),
        first_expiry(&maps),
        ends.len(),
    ))
}
