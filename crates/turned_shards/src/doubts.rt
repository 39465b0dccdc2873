//! Entries that contracts alone see: those that a call adds to the history of a shard, and those
//! that are in doubt until its journal is read again.
ghost use Rattle.std.specs.Prelude.{◌≡◌, ◌∷◌, [], length};
ghost use Rattle.turned_shards.specs.BatchEntries.{asked_in, entries_along, entries_by, fault_at};
ghost use Rattle.turned_shards.specs.BatchEntries.{loss_at};
ghost use Rattle.shard_book.specs.declared.standings.Standing.TheVariants.{Fresh};

use ghost_notes::{GhostList, Naming};
use lease_disk::LeaseDisk;
use pcp_base::{Config, Datagram, Entry, Moment, Record};
use shard_book::Book;

/// A fault entry.
pub(crate) fn set_fault<B: Naming<Entry>>(list: &mut GhostList<Entry>, m: Moment, base: Moment)
    requires { B.items ≡ fault_at m base ∷ [] }
    ensures { list.new ≡ fault_at m base ∷ [] }
{
    list.set::<B>(1);
}

/// The entry of a loss.
pub(crate) fn set_loss<B: Naming<Entry>>(list: &mut GhostList<Entry>, m: Moment, base: Moment)
    requires { B.items ≡ loss_at m base ∷ [] }
    ensures { list.new ≡ loss_at m base ∷ [] }
{
    list.set::<B>(1);
}

/// The entries of the records with which a journal begins anew, one or two of them.
pub(crate) fn set_anew<B: Naming<Entry>>(
    list: &mut GhostList<Entry>,
    base: Moment,
    begins: &Record,
    address: &Option<Record>,
    count: u32,
)
    requires items { B.items ≡ entries_by base [] address.now (Fresh begins.now) }
    requires count { length B.items ≡ count }
    ensures { list.new ≡ entries_by base [] address.now (Fresh begins.now) }
{
    list.set::<B>(count);
}

/// The entries of a batch, of which the book's state tells what is decided.
pub(crate) fn set_batch<D: LeaseDisk, B: Naming<Entry>>(
    list: &mut GhostList<Entry>,
    book: &Book<D>,
    config: &Config,
    batch: &[Datagram],
    m: Moment,
    base: Moment,
    count: u32,
)
    requires items { B.items ≡ entries_along book.now.terms book.now.state m base
        (asked_in config.now batch.now) }
    requires count { length B.items ≡ count }
    ensures { list.new ≡ entries_along book.now.terms book.now.state m base
        (asked_in config.now batch.now) }
{
    list.set::<B>(count);
}
