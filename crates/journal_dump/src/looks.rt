//! What a journal is found to be.
ghost use Rattle.std.specs.Prelude.{◌≡◌, Err, IfOk};
ghost use Rattle.lease_disk.specs.Pairs.{PairHasCause};
ghost use Rattle.journal_sides.specs.Reads.{ArePairRead, AreSeenStill};
ghost use Rattle.journal_sides.specs.declared.errors.JournalFault.TheVariants.{Disk};
ghost use Rattle.journal_dump.specs.Readings.{IsLookedAs};

use crate::terms::widest_terms;
use indexed_store::IndexedStore;
use lease_core::LeaseCore;
use lease_disk::{DiskPair, LeaseDisk};
use lease_journal::{Found, Journal, JournalFault};
use lease_store::LeaseStore;
use pcp_base::Moment;
use std::alloc::Global;

/// What a journal is found to be, and how far it goes.
#[derive(Clone, Copy, Debug, PartialEq, Eq)]
pub struct Looked {
    /// what an opening of the same octets finds
    pub found: Found,
    /// the last moment of its records, 0 where it has none
    pub last: Moment,
}

/// What the journal of a pair is found to be. It is read and nothing is written; where no fault comes,
/// an opening of the same octets finds the same.
pub fn looked_in<D: LeaseDisk>(
    alloc: Global,
    pair: &mut DiskPair<D>,
) -> Result<Looked, JournalFault>
    ensures looked { D.tells → IfOk result
        (IsLookedAs (D.seen pair.old.a) (D.seen pair.old.b)) }
    ensures read { ArePairRead D.moment D.left_since D.may_leave pair.old pair.new }
    ensures seen { D.tells → AreSeenStill D.seen pair.old pair.new }
    ensures cause { PairHasCause D.faults pair.old pair.new (result ≡ Err Disk) }
{
    let store = IndexedStore::new(alloc, widest_terms())?;
    looked_by(alloc, pair, LeaseCore::over(store))
}

/// The same, by a core that is handed in.
fn looked_by<D: LeaseDisk, S: LeaseStore + Drop>(
    alloc: Global,
    pair: &mut DiskPair<D>,
    core: LeaseCore<S>,
) -> Result<Looked, JournalFault>
    ensures looked { D.tells → IfOk result
        (IsLookedAs (D.seen pair.old.a) (D.seen pair.old.b)) }
    ensures read { ArePairRead D.moment D.left_since D.may_leave pair.old pair.new }
    ensures seen { D.tells → AreSeenStill D.seen pair.old pair.new }
    ensures cause { PairHasCause D.faults pair.old pair.new (result ≡ Err Disk) }
{
    let mut core = core;
    let found = Journal::view(alloc, pair, &mut core)?;
    let last = core.last();
    Ok(Looked { found, last })
}
