//! Opening a book.
ghost use Rattle.std.specs.Prelude.{◌≡◌, ◌≢◌, ◌⊎◌, ◌≤◌, ◌<◌, ◌-◌, ◌^◌, ◌∷◌, [], max, length, true, false, None, Some, Ok, Err, IfOk, IfErr, OnOk};
ghost use Rattle.pcp_base.specs.Apply.{apply, apply_all, is_another, state_of};
ghost use Rattle.pcp_base.specs.Configs.{IsConfig, IsExternal};
ghost use Rattle.pcp_base.specs.Fits.{AllFit, Fits};
ghost use Rattle.pcp_base.specs.Reached.{IsReached};
ghost use Rattle.pcp_base.specs.States.{State, empty_state};
ghost use Rattle.lease_store.specs.LeaseTerms.{AreTerms, terms_of};
ghost use Rattle.lease_disk.specs.Pairs.{PairHasCause, PairLeavesOnly};
ghost use Rattle.lease_journal.specs.declared.errors.Found.TheVariants.{Recovered};
ghost use Rattle.journal_sides.specs.declared.errors.JournalFault.TheVariants.{Disk};
ghost use Rattle.pcp_base.specs.Snapshots.{snapshot};
ghost use Rattle.journal_sides.specs.Formats.{HasNext};
ghost use Rattle.journal_sides.specs.Journals.{StandsFor, StandsForWithOrWithout};
ghost use Rattle.lease_journal.specs.Openings.{HasStarted, LeavesOld};
ghost use Rattle.lease_journal.specs.Views.{IsSettled};
ghost use Rattle.shard_book.specs.Addresses.{is_named, renumbering};
ghost use Rattle.shard_book.specs.Books.{IsBook, IsWritable};
ghost use Rattle.shard_book.specs.Keepings.{IsAppended};
ghost use Rattle.shard_book.specs.Openings.{IsFirstLength, IsOnOther, IsOpened, OpensBook};

use crate::books::LeaseBook;
use crate::committing::{keep, write_anew};
use crate::snapshots::texts_of_state;
use crate::texts::KeptTexts;
use indexed_store::IndexedStore;
use lease_core::{Core, LeaseCore};
use lease_disk::{DiskPair, LeaseDisk};
use lease_journal::{Found, Journal, JournalFault, Unopened};
use lease_store::LeaseStore;
use pcp_base::{
    Address, Change, Config, External, Moment, Record, new_leases_need_room, states_are_sound,
};
use std::alloc::Global;

/// The book of an external address.
pub type Book<D> = LeaseBook<D, IndexedStore>;

impl<D: LeaseDisk> LeaseBook<D, IndexedStore> {
    /// Opens the journal of a pair, as [`Journal::recover`](lease_journal::Journal::recover) does,
    /// for this external address under the configuration. Records that are found, in either format,
    /// are written anew on the other side, unless the generation is 2^64 - 1; where none are found, a
    /// side b that has octets is shut anew. Where the journal names no address or another one, it is
    /// told this one. After a fault the pair is handed back.
    pub fn begin(
        alloc: Global,
        external: &External,
        config: &Config,
        pair: DiskPair<D>,
        m: Moment,
    ) -> Result<(Book<D>, Found), Unopened<D>>
        requires external { IsExternal external.now }
        requires config { IsConfig config.now }
        ensures opened { IfOk result (λ opened.
            IsOpened D.tells D.seen pair (terms_of external.now config.now) m opened.0
            opened.1) }
        ensures book { IfOk result (λ opened. IsBook D.tells D.seen D.may_leave opened.0) }
        ensures moments { D.tells → IfOk result (λ opened.
            OpensBook D.seen D.moment D.left_since D.may_leave m external.now.address pair
            opened.0.journal.pair) }
        ensures refused_moments { D.tells → IfErr result (λ refused.
            OpensBook D.seen D.moment D.left_since D.may_leave m external.now.address pair
            refused.pair
            ⊎ LeavesOld D.moment D.left_since D.may_leave pair refused.pair) }
        ensures later { IfOk result
            (λ opened. PairHasCause D.faults pair opened.0.journal.pair ⊥) }
        ensures cause { IfErr result
            (λ refused. PairHasCause D.faults pair refused.pair (refused.fault ≡ Disk)) }
    {
        match Core::new(alloc, external, config) {
            Ok(core) => LeaseBook::open(alloc, core, external.address, pair, m),
            Err(_) => Err(Unopened {
                fault: JournalFault::Memory,
                pair,
            }),
        }
    }
}

/// The greater of two moments.
pub(crate) fn later(m: Moment, other: Moment) -> Moment
    ensures value { result ≡ max m other }
    ensures bound { result < 2 ^ 40 }
{
    if m.get() < other.get() { other } else { m }
}

/// Whether a journal names this address.
fn is_named(address: &Address, told: Option<Address>) -> bool
    ensures { result ≡ is_named address.now told }
{
    match told {
        Some(told) => *address == told,
        None => false,
    }
}

/// Whether a journal names another address.
fn is_another(address: &Address, told: Option<Address>) -> bool
    ensures { result ≡ is_another address.now told }
{
    match told {
        Some(told) => *address != told,
        None => false,
    }
}

/// Tells a journal the address, at `m` or the last moment if that is later, where it names no address
/// or another one.
fn name_address<D: LeaseDisk, S: LeaseStore>(
    alloc: Global,
    journal: &mut Journal<D>,
    core: &mut LeaseCore<S>,
    address: &Address,
    m: Moment,
) -> Result<(), JournalFault>
    requires writable { IsWritable D.tells D.seen D.may_leave journal.old (S.state core.old) }
    requires reached { IsReached (S.state core.old) }
    requires started { (S.state core.old).started ≡ true }
    requires past { S.reached core.old ≤ (S.state core.old).last }
    ensures state { OnOk result (S.state core.new
        ≡ apply_all (S.state core.old) (renumbering m address.now (S.state core.old))) }
    ensures past { OnOk result (S.reached core.new ≤ (S.state core.new).last) }
    ensures kept { OnOk result (IsReached (S.state core.new)) }
    ensures started { OnOk result ((S.state core.new).started ≡ true) }
    ensures named { OnOk result ((S.state core.new).address ≡ Some address.now) }
    ensures terms { S.terms core.new ≡ S.terms core.old }
    ensures writable { OnOk result
        (IsWritable D.tells D.seen D.may_leave journal.new (S.state core.new)) }
    ensures appended { OnOk result (IsAppended D.tells D.seen
        (renumbering m address.now (S.state core.old)) journal.old journal.new) }
    ensures moments { D.tells
        → PairLeavesOnly D.moment D.left_since D.may_leave journal.old.pair journal.new.pair
        (StandsForWithOrWithout (S.state core.old)
        (renumbering m address.now (S.state core.old))) }
    ensures cause { PairHasCause D.faults journal.old.pair journal.new.pair
        (result ≡ Err Disk) }
{
    if is_named(address, core.address()) {
        return Ok(());
    }
    new_leases_need_room();
    states_are_sound();
    let renumber = Record {
        moment: later(m, core.last()),
        change: Change::Renumber(*address),
    };
    keep(alloc, journal, core, &renumber)
}

/// What is known of a journal that was opened.
#[derive(Drop)]
struct Opening {
    texts: KeptTexts,
    renumbered: bool,
}

/// Writes records anew that were found in a journal, and tells it the address.
fn finish<D: LeaseDisk, S: LeaseStore>(
    alloc: Global,
    journal: &mut Journal<D>,
    core: &mut LeaseCore<S>,
    address: &Address,
    m: Moment,
    found: Found,
) -> Result<Opening, JournalFault>
    requires read { journal.old.unread ≡ false }
    requires next { HasNext journal.old.standing.format journal.old.standing.generation }
    requires start { HasStarted m journal.old.side journal.old.standing (S.state core.old) found }
    requires first_length { journal.old.first_length ≡ journal.old.standing.length }
    requires reached { IsReached (S.state core.old) }
    requires started { (S.state core.old).started ≡ true }
    requires past { S.reached core.old ≤ (S.state core.old).last }
    requires settled { D.tells
        → IsSettled D.seen D.may_leave journal.old (S.state core.old) }
    ensures state { OnOk result (S.state core.new
        ≡ apply_all (S.state core.old) (renumbering m address.now (S.state core.old))) }
    ensures past { OnOk result (S.reached core.new ≤ (S.state core.new).last) }
    ensures kept { OnOk result (IsReached (S.state core.new)) }
    ensures started { OnOk result ((S.state core.new).started ≡ true) }
    ensures named { OnOk result ((S.state core.new).address ≡ Some address.now) }
    ensures terms { S.terms core.new ≡ S.terms core.old }
    ensures writable { OnOk result
        (IsWritable D.tells D.seen D.may_leave journal.new (S.state core.new)) }
    ensures texts { IfOk result (λ opening.
        opening.texts ≡ record { sure = snapshot (S.state core.new); added = [] }) }
    ensures renumbered { IfOk result (λ opening.
        opening.renumbered ≡ is_another address.now (S.state core.old).address) }
    ensures anew { found ≡ Recovered → journal.old.standing.generation < 2 ^ 64 - 1
        → OnOk result
        (IsOnOther journal.old.side journal.old.standing.generation journal.new) }
    ensures beside { D.tells → found ≢ Recovered
        → OnOk result (D.seen journal.new.pair.b ≡ D.seen journal.old.pair.b) }
    ensures first_length { OnOk result (IsFirstLength D.tells
        (renumbering m address.now (S.state core.old)) journal.new) }
    ensures moments { D.tells
        → PairLeavesOnly D.moment D.left_since D.may_leave journal.old.pair journal.new.pair
        (StandsForWithOrWithout (S.state core.old)
        (renumbering m address.now (S.state core.old))) }
    ensures cause { PairHasCause D.faults journal.old.pair journal.new.pair
        (result ≡ Err Disk) }
{
    write_anew(alloc, journal, core, found)?;
    let renumbered = is_another(address, core.address());
    name_address(alloc, journal, core, address, m)?;
    let texts = texts_of_state(alloc, core)?;
    Ok(Opening { texts, renumbered })
}

impl<D: LeaseDisk, S: LeaseStore + Drop> LeaseBook<D, S> {
    /// Opens the journal of a pair for a core of this address.
    pub(crate) fn open(
        alloc: Global,
        core: LeaseCore<S>,
        address: Address,
        pair: DiskPair<D>,
        m: Moment,
    ) -> Result<(LeaseBook<D, S>, Found), Unopened<D>>
        requires terms { AreTerms (S.terms core) }
        requires address { address ≡ (S.terms core).external.address }
        ensures opened { IfOk result (λ opened.
            IsOpened D.tells D.seen pair (S.terms core) m opened.0 opened.1) }
        ensures book { IfOk result (λ opened. IsBook D.tells D.seen D.may_leave opened.0) }
        ensures moments { D.tells → IfOk result (λ opened.
            OpensBook D.seen D.moment D.left_since D.may_leave m address pair
            opened.0.journal.pair) }
        ensures refused_moments { D.tells → IfErr result (λ refused.
            OpensBook D.seen D.moment D.left_since D.may_leave m address pair refused.pair
            ⊎ LeavesOld D.moment D.left_since D.may_leave pair refused.pair) }
        ensures later { IfOk result
            (λ opened. PairHasCause D.faults pair opened.0.journal.pair ⊥) }
        ensures cause { IfErr result
            (λ refused. PairHasCause D.faults pair refused.pair (refused.fault ≡ Disk)) }
    {
        let mut core = core;
        let (journal, found) = Journal::recover(alloc, pair, m, &mut core)?;
        let mut journal = journal;
        match finish(alloc, &mut journal, &mut core, &address, m, found) {
            Ok(opening) => {
                let last = core.last();
                let base = core.base();
                Ok((
                    LeaseBook {
                        core,
                        journal,
                        texts: opening.texts,
                        fault: None,
                        last,
                        base,
                        address,
                        renumbered: opening.renumbered,
                    },
                    found,
                ))
            }
            Err(fault) => Err(Unopened {
                fault,
                pair: journal.close(),
            }),
        }
    }
}
