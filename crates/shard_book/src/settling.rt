//! Settling a book: what its journal has of a call that was refused.
ghost use Rattle.std.specs.Prelude.{◌≡◌, ◌≢◌, ◌⊎◌, ◌≤◌, ◌<◌, ◌^◌, List, [], true, false, None, Some, IsSome, Err, IfOk, IfErr, OnOk};
ghost use Rattle.pcp_base.specs.declared.records.Record.{Record};
ghost use Rattle.pcp_base.specs.Apply.{apply, apply_all, state_of};
ghost use Rattle.pcp_base.specs.Fits.{AllFit};
ghost use Rattle.pcp_base.specs.Reached.{IsReached};
ghost use Rattle.pcp_base.specs.Snapshots.{snapshot};
ghost use Rattle.pcp_base.specs.States.{State, empty_state};
ghost use Rattle.lease_disk.specs.Pairs.{HoldsNow, PairHasCause, PairIsQuiet, PairLeavesOnly};
ghost use Rattle.lease_journal.specs.declared.errors.Found.TheVariants.{Recovered};
ghost use Rattle.journal_sides.specs.declared.errors.JournalFault.TheVariants.{Disk};
ghost use Rattle.journal_sides.specs.Journals.{StandsForWithOrWithout, fresh_state};
ghost use Rattle.journal_sides.specs.Quiet.{UnlessDisk};
ghost use Rattle.shard_book.specs.Addresses.{renumber_at, state_anew};
ghost use Rattle.shard_book.specs.Books.{IsBook, IsWritable};
ghost use Rattle.shard_book.specs.Openings.{IsStartUnless};
ghost use Rattle.shard_book.specs.Settlings.{BeginsAnew, HasSettled, IsEmptySince, IsExpected, IsFound, IsJudgedAs, IsOneOf, IsRebuilt, KeepsDoubt, Settles, StandingMeans};

use crate::books::{BookFault, LeaseBook};
use crate::committing::{keep, use_second};
use crate::opening::later;
use crate::snapshots::texts_of_state;
use crate::standings::{Settled, Standing};
use crate::texts::KeptTexts;
use lease_core::LeaseCore;
use lease_disk::LeaseDisk;
use lease_journal::{Found, Journal, JournalFault, one_journal};
use lease_store::LeaseStore;
use pcp_base::{
    Address, Change, Memory, Moment, Record, Replay, new_leases_need_room, snapshots_stand,
    states_are_sound,
};
use std::alloc::Global;

/// The states that a journal may stand for after a refused call, and the last moment of the second.
#[derive(Drop)]
struct Expected {
    without: KeptTexts,
    with: KeptTexts,
    last: Moment,
}

/// The states that records which are kept stand for, without those that were added and with them.
fn states_expected<S: LeaseStore>(
    alloc: Global,
    core: &mut LeaseCore<S>,
    texts: &KeptTexts,
) -> Result<Expected, Memory>
    requires fit { AllFit empty_state texts.now.sure }
    requires fit_added { AllFit (state_of texts.now.sure) texts.now.added }
    ensures without { IfOk result (λ expected. expected.without
        ≡ record { sure = snapshot (state_of texts.now.sure); added = [] }) }
    ensures with { IfOk result (λ expected. expected.with
        ≡ record {
          sure = snapshot (apply_all (state_of texts.now.sure) texts.now.added);
          added = [];
        }) }
    ensures last { IfOk result (λ expected. expected.last
        ≡ (apply_all (state_of texts.now.sure) texts.now.added).last) }
    ensures terms { S.terms core.new ≡ S.terms core.old }
{
    states_are_sound();
    core.clear();
    texts.replay_sure(alloc, core)?;
    let without = texts_of_state(alloc, core)?;
    texts.replay_added(alloc, core)?;
    let with = texts_of_state(alloc, core)?;
    Ok(Expected {
        without,
        with,
        last: core.last(),
    })
}

/// Begins a journal anew that was read at `m` and stands for something unexpected: says the Start
/// that the reading made, or appends a Lose.
fn begin_anew<D: LeaseDisk, S: LeaseStore>(
    alloc: Global,
    journal: &mut Journal<D>,
    core: &mut LeaseCore<S>,
    found: Found,
    m: Moment,
) -> Result<Record, JournalFault>
    requires bound { m < 2 ^ 40 }
    requires writable { IsWritable D.tells D.seen D.may_leave journal.old (S.state core.old) }
    requires reached { IsReached (S.state core.old) }
    requires started { (S.state core.old).started ≡ true }
    requires past { S.reached core.old ≤ (S.state core.old).last }
    requires start { IsStartUnless m (S.state core.old) found }
    ensures begins { IfOk result (BeginsAnew m (S.state core.old)) }
    ensures bound { IfOk result (λ r. r.moment < 2 ^ 40) }
    ensures empty { IfOk result (λ r. IsEmptySince r.moment (S.state core.new)) }
    ensures kept { OnOk result (IsReached (S.state core.new)) }
    ensures started { OnOk result ((S.state core.new).started ≡ true) }
    ensures past { IfOk result (λ r. S.reached core.new ≤ r.moment) }
    ensures terms { S.terms core.new ≡ S.terms core.old }
    ensures writable { OnOk result
        (IsWritable D.tells D.seen D.may_leave journal.new (S.state core.new)) }
    ensures cause { PairHasCause D.faults journal.old.pair journal.new.pair
        (result ≡ Err Disk) }
    ensures quiet { UnlessDisk result (PairIsQuiet D.faults journal.old.pair journal.new.pair) }
{
    let Found::Recovered = found else {
        return Ok(Record {
            moment: m,
            change: Change::Start,
        });
    };
    new_leases_need_room();
    states_are_sound();
    let lose = Record {
        moment: later(m, core.last()),
        change: Change::Lose,
    };
    keep(alloc, journal, core, &lose)?;
    Ok(lose)
}

/// What was found in a journal, and the texts of its state.
#[derive(Drop)]
struct Outcome {
    settled: Settled,
    texts: KeptTexts,
}

/// Begins a journal anew, and tells it the address.
fn rebuild<D: LeaseDisk, S: LeaseStore>(
    alloc: Global,
    journal: &mut Journal<D>,
    core: &mut LeaseCore<S>,
    found: Found,
    m: Moment,
    address: &Address,
) -> Result<Outcome, JournalFault>
    requires bound { m < 2 ^ 40 }
    requires writable { IsWritable D.tells D.seen D.may_leave journal.old (S.state core.old) }
    requires reached { IsReached (S.state core.old) }
    requires started { (S.state core.old).started ≡ true }
    requires past { S.reached core.old ≤ (S.state core.old).last }
    requires start { IsStartUnless m (S.state core.old) found }
    ensures rebuilt { IfOk result (λ outcome.
        IsRebuilt m address.now (S.state core.old) (S.state core.new) outcome.settled) }
    ensures texts { IfOk result (λ outcome.
        outcome.texts ≡ record { sure = snapshot (S.state core.new); added = [] }) }
    ensures kept { OnOk result (IsReached (S.state core.new)) }
    ensures started { OnOk result ((S.state core.new).started ≡ true) }
    ensures past { OnOk result (S.reached core.new ≤ (S.state core.new).last) }
    ensures terms { S.terms core.new ≡ S.terms core.old }
    ensures writable { OnOk result
        (IsWritable D.tells D.seen D.may_leave journal.new (S.state core.new)) }
    ensures cause { PairHasCause D.faults journal.old.pair journal.new.pair
        (result ≡ Err Disk) }
    ensures quiet { UnlessDisk result (PairIsQuiet D.faults journal.old.pair journal.new.pair) }
{
    let record = begin_anew(alloc, journal, core, found, m)?;
    new_leases_need_room();
    states_are_sound();
    let renumber = Record {
        moment: record.moment,
        change: Change::Renumber(*address),
    };
    keep(alloc, journal, core, &renumber)?;
    let texts = texts_of_state(alloc, core)?;
    Ok(Outcome {
        settled: Settled {
            journal: Standing::Fresh(record),
            address: Some(renumber),
        },
        texts,
    })
}

/// Reads a journal again at `m`, and brings it into the second format.
fn read_again<D: LeaseDisk, S: LeaseStore>(
    alloc: Global,
    journal: &mut Journal<D>,
    core: &mut LeaseCore<S>,
    m: Moment,
) -> Result<Found, JournalFault>
    ensures start { IfOk result (IsStartUnless m (S.state core.new)) }
    ensures reached { OnOk result (IsReached (S.state core.new)) }
    ensures started { OnOk result ((S.state core.new).started ≡ true) }
    ensures past { OnOk result (S.reached core.new ≤ (S.state core.new).last) }
    ensures terms { S.terms core.new ≡ S.terms core.old }
    ensures writable { OnOk result
        (IsWritable D.tells D.seen D.may_leave journal.new (S.state core.new)) }
    ensures expected { D.tells → (s : State) → (rs : List Record)
        → HoldsNow D.may_leave (StandsForWithOrWithout s rs) journal.old.pair
        → OnOk result ((S.state core.new ≡ s) ⊎ (S.state core.new ≡ apply_all s rs)) }
    ensures moments { D.tells → (s : State) → (rs : List Record)
        → HoldsNow D.may_leave (StandsForWithOrWithout s rs) journal.old.pair
        → PairLeavesOnly D.moment D.left_since D.may_leave journal.old.pair journal.new.pair
        (StandsForWithOrWithout s rs) }
    ensures cause { PairHasCause D.faults journal.old.pair journal.new.pair
        (result ≡ Err Disk) }
    ensures quiet { UnlessDisk result (PairIsQuiet D.faults journal.old.pair journal.new.pair) }
{
    one_journal();
    let found = journal.again(alloc, m, core)?;
    use_second(alloc, journal, core)?;
    Ok(found)
}

/// Which of the expected states these texts are of, if one is; with the records of the call only
/// after `Disk`.
fn standing_of(fault: JournalFault, expected: &Expected, texts: &KeptTexts) -> Option<Standing>
    requires with { expected.now.with.added ≡ [] }
    requires without { expected.now.without.added ≡ [] }
    requires texts { texts.now.added ≡ [] }
    ensures { IsFound fault expected.now.without.sure expected.now.with.sure texts.now.sure result }
{
    if fault == JournalFault::Disk {
        if texts.is_same(&expected.with) {
            return Some(Standing::In);
        }
    }
    if texts.is_same(&expected.without) {
        return Some(Standing::Out);
    }
    None
}

/// Says which of the expected states a journal stands for that was read, or begins it anew.
fn judge<D: LeaseDisk, S: LeaseStore>(
    alloc: Global,
    journal: &mut Journal<D>,
    core: &mut LeaseCore<S>,
    fault: JournalFault,
    expected: &Expected,
    found: Found,
    m: Moment,
    address: &Address,
) -> Result<Outcome, JournalFault>
    requires bound { m < 2 ^ 40 }
    requires writable { IsWritable D.tells D.seen D.may_leave journal.old (S.state core.old) }
    requires reached { IsReached (S.state core.old) }
    requires started { (S.state core.old).started ≡ true }
    requires past { S.reached core.old ≤ (S.state core.old).last }
    requires start { IsStartUnless m (S.state core.old) found }
    requires with { expected.now.with.added ≡ [] }
    requires without { expected.now.without.added ≡ [] }
    ensures judged { IfOk result (λ outcome. IsJudgedAs m address.now fault
        expected.now.without.sure expected.now.with.sure (S.state core.old) (S.state core.new)
        outcome.settled) }
    ensures unchanged { IsOneOf fault expected.now.without.sure expected.now.with.sure
        (snapshot (S.state core.old)) → journal.new ≡ journal.old }
    ensures texts { IfOk result (λ outcome.
        outcome.texts ≡ record { sure = snapshot (S.state core.new); added = [] }) }
    ensures kept { OnOk result (IsReached (S.state core.new)) }
    ensures started { OnOk result ((S.state core.new).started ≡ true) }
    ensures past { OnOk result (S.reached core.new ≤ (S.state core.new).last) }
    ensures terms { S.terms core.new ≡ S.terms core.old }
    ensures writable { OnOk result
        (IsWritable D.tells D.seen D.may_leave journal.new (S.state core.new)) }
    ensures cause { PairHasCause D.faults journal.old.pair journal.new.pair
        (result ≡ Err Disk) }
    ensures quiet { UnlessDisk result (PairIsQuiet D.faults journal.old.pair journal.new.pair) }
{
    let texts = texts_of_state(alloc, core)?;
    match standing_of(fault, expected, &texts) {
        Some(standing) => Ok(Outcome {
            settled: Settled {
                journal: standing,
                address: None,
            },
            texts,
        }),
        None => rebuild(alloc, journal, core, found, m, address),
    }
}

/// Reads a journal again after a refused call, and says what it has of that call.
fn find<D: LeaseDisk, S: LeaseStore>(
    alloc: Global,
    journal: &mut Journal<D>,
    core: &mut LeaseCore<S>,
    texts: &KeptTexts,
    fault: JournalFault,
    now: Moment,
    address: &Address,
) -> Result<Outcome, JournalFault>
    requires fit { AllFit empty_state texts.now.sure }
    requires fit_added { AllFit (state_of texts.now.sure) texts.now.added }
    requires started { (state_of texts.now.sure).started ≡ true }
    requires sure { fault ≢ Disk → texts.now.added ≡ [] }
    ensures means { IfOk result (λ outcome. StandingMeans now address.now
        (record {
          fault = Some fault;
          without = state_of texts.now.sure;
          with_ = apply_all (state_of texts.now.sure) texts.now.added;
        })
        (S.state core.new) outcome.settled.address outcome.settled.journal) }
    ensures expected { D.tells
        → HoldsNow D.may_leave (StandsForWithOrWithout (state_of texts.now.sure) texts.now.added)
        journal.old.pair
        → IfOk result (λ outcome. IsExpected outcome.settled.journal) }
    ensures texts { IfOk result (λ outcome.
        outcome.texts ≡ record { sure = snapshot (S.state core.new); added = [] }) }
    ensures reached { OnOk result (IsReached (S.state core.new)) }
    ensures started { OnOk result ((S.state core.new).started ≡ true) }
    ensures past { OnOk result (S.reached core.new ≤ (S.state core.new).last) }
    ensures terms { S.terms core.new ≡ S.terms core.old }
    ensures writable { OnOk result
        (IsWritable D.tells D.seen D.may_leave journal.new (S.state core.new)) }
    ensures moments { D.tells
        → HoldsNow D.may_leave (StandsForWithOrWithout (state_of texts.now.sure) texts.now.added)
        journal.old.pair
        → PairLeavesOnly D.moment D.left_since D.may_leave journal.old.pair journal.new.pair
        (StandsForWithOrWithout (state_of texts.now.sure) texts.now.added) }
    ensures cause { PairHasCause D.faults journal.old.pair journal.new.pair
        (result ≡ Err Disk) }
    ensures quiet { UnlessDisk result (PairIsQuiet D.faults journal.old.pair journal.new.pair) }
{
    snapshots_stand();
    states_are_sound();
    let expected = states_expected(alloc, core, texts)?;
    let m = later(now, expected.last);
    let found = read_again(alloc, journal, core, m)?;
    judge(alloc, journal, core, fault, &expected, found, m, address)
}

impl<D: LeaseDisk, S: LeaseStore + Drop> LeaseBook<D, S> {
    /// Settles a book after this fault.
    #[cold]
    #[inline(never)] // its frame is large, and would be cleared at each request
    pub(crate) fn resume(
        &mut self,
        alloc: Global,
        now: Moment,
        fault: JournalFault,
    ) -> Result<Settled, BookFault>
        requires { self.old.fault ≡ Some fault }
        ensures settled { IfOk result
            (Settles D.tells D.moment D.left_since D.may_leave now self.old self.new) }
        ensures refused { IfErr result
            (λ _. KeepsDoubt D.tells D.moment D.left_since D.may_leave self.old self.new) }
        ensures book { IsBook D.tells D.seen D.may_leave self.new }
        ensures cause { PairHasCause D.faults self.old.journal.pair self.new.journal.pair
            (result ≡ Err Disk) }
        ensures quiet { UnlessDisk result
            (PairIsQuiet D.faults self.old.journal.pair self.new.journal.pair) }
    {
        let m = later(now, self.last);
        let outcome = find(
            alloc,
            &mut self.journal,
            &mut self.core,
            &self.texts,
            fault,
            m,
            &self.address,
        )?;
        self.texts = outcome.texts;
        self.last = later(self.last, self.core.last());
        self.base = self.core.base();
        self.fault = None;
        Ok(outcome.settled)
    }

    /// Settles a book after this fault, and doesn't say what it found.
    #[cold]
    #[inline(never)] // what it found is large, and would be cleared at each request
    pub(crate) fn resume_untold(
        &mut self,
        alloc: Global,
        now: Moment,
        fault: JournalFault,
    ) -> Result<(), BookFault>
        requires { self.old.fault ≡ Some fault }
        ensures settled { OnOk result
            (HasSettled D.tells D.moment D.left_since D.may_leave now self.old self.new) }
        ensures refused { IfErr result
            (λ _. KeepsDoubt D.tells D.moment D.left_since D.may_leave self.old self.new) }
        ensures book { IsBook D.tells D.seen D.may_leave self.new }
        ensures cause { PairHasCause D.faults self.old.journal.pair self.new.journal.pair
            (result ≡ Err Disk) }
        ensures quiet { UnlessDisk result
            (PairIsQuiet D.faults self.old.journal.pair self.new.journal.pair) }
    {
        self.resume(alloc, now, fault)?;
        Ok(())
    }
}
