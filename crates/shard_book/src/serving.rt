//! Writing what a batch or a loss keeps.
ghost use Rattle.std.specs.Prelude.{◌≡◌, ◌↔◌, ◌≤◌, ◌<◌, ◌^◌, ◌∷◌, [], false, length, IsTrue, IfOk, IfErr, OnOk, Err};
ghost use Rattle.std.specs.List.{AllByRecursion};
ghost use Rattle.pcp_base.specs.declared.records.Change.TheVariants.{Lose};
ghost use Rattle.pcp_base.specs.Apply.{apply, apply_all};
ghost use Rattle.pcp_base.specs.Asks.{IsWellFormedAsk};
ghost use Rattle.lease_core.specs.Decide.{decide};
ghost use Rattle.lease_store.specs.Lookups.{lease_count};
ghost use Rattle.lease_disk.specs.Pairs.{PairHasCause, PairIsQuiet, PairLeavesOnly};
ghost use Rattle.journal_sides.specs.declared.errors.JournalFault.TheVariants.{Disk};
ghost use Rattle.journal_sides.specs.declared.layout.TheConstants.{MOST_APPENDED};
ghost use Rattle.journal_sides.specs.Journals.{StandsForWithOrWithout};
ghost use Rattle.journal_sides.specs.Quiet.{UnlessDisk};
ghost use Rattle.shard_book.specs.Batches.{answers_at, decide_all, records_kept};
ghost use Rattle.shard_book.specs.Books.{IsWritable};
ghost use Rattle.shard_book.specs.Insides.{MayDecideAt, MayFollow, StandAlone};
ghost use Rattle.shard_book.specs.Keepings.{Journals, unsure_after};

use crate::batches::{Answered, decide_applied, decide_batch};
use crate::committing::{commit, renew_if_overlong};
use crate::texts::KeptTexts;
use lease_core::LeaseCore;
use lease_disk::LeaseDisk;
use lease_journal::{Journal, JournalFault};
use lease_store::LeaseStore;
use pcp_base::{Answer, Ask, Change, Moment, Record, new_leases_need_room, states_are_sound};
use std::alloc::Global;

/// Whether there is nothing to write: no record is, and the journal isn't compacted.
fn is_idle(anew: bool, records: &[Record]) -> bool
    ensures { IsTrue result ↔ ((anew ≡ false) × (records.now ≡ [])) }
{
    !anew && records.is_empty()
}

/// Decides on the requests at `m`, and writes what is kept of them. The answers tell this base.
pub(crate) fn write_batch<D: LeaseDisk, S: LeaseStore>(
    alloc: Global,
    core: &mut LeaseCore<S>,
    journal: &mut Journal<D>,
    texts: &mut KeptTexts,
    asks: &[Ask],
    m: Moment,
    base: Moment,
) -> Result<Vec<Answered>, JournalFault>
    requires ready { MayDecideAt (S.terms core.old) (S.state core.old) (S.reached core.old) m }
    requires texts { StandAlone texts.old.sure (S.state core.old) }
    requires none { texts.old.added ≡ [] }
    requires writable { IsWritable D.tells D.seen D.may_leave journal.old (S.state core.old) }
    requires few { length asks.now ≤ MOST_APPENDED }
    requires asks { AllByRecursion IsWellFormedAsk asks.now }
    ensures answers { IfOk result (λ answers. answers.items
        ≡ answers_at m base (decide_all (S.terms core.old) (S.state core.old) m asks.now)) }
    ensures state { OnOk result (S.state core.new ≡ apply_all (S.state core.old)
        (records_kept (decide_all (S.terms core.old) (S.state core.old) m asks.now))) }
    ensures ready { OnOk result
        (MayDecideAt (S.terms core.new) (S.state core.new) (S.reached core.new) m) }
    ensures address { OnOk result ((S.state core.new).address ≡ (S.state core.old).address) }
    ensures texts { OnOk result (StandAlone texts.new.sure (S.state core.new)) }
    ensures none { OnOk result (texts.new.added ≡ []) }
    ensures writable { OnOk result
        (IsWritable D.tells D.seen D.may_leave journal.new (S.state core.new)) }
    ensures moments { D.tells → OnOk result
        (PairLeavesOnly D.moment D.left_since D.may_leave journal.old.pair journal.new.pair
        (StandsForWithOrWithout (S.state core.old)
        (records_kept (decide_all (S.terms core.old) (S.state core.old) m asks.now)))) }
    ensures journal { OnOk result (Journals D.tells
        (records_kept (decide_all (S.terms core.old) (S.state core.old) m asks.now))
        journal.old journal.new) }
    ensures refused_texts { IfErr result (λ _. StandAlone texts.new.sure (S.state core.old)) }
    ensures refused_added { IfErr result (λ fault. texts.new.added ≡ unsure_after fault
        (records_kept (decide_all (S.terms core.old) (S.state core.old) m asks.now))) }
    ensures refused_fit { IfErr result (λ _. MayFollow (S.state core.old) texts.new.added) }
    ensures refused_moments { D.tells → IfErr result (λ fault.
        PairLeavesOnly D.moment D.left_since D.may_leave journal.old.pair journal.new.pair
        (StandsForWithOrWithout (S.state core.old) (unsure_after fault
        (records_kept (decide_all (S.terms core.old) (S.state core.old) m asks.now))))) }
    ensures terms { S.terms core.new ≡ S.terms core.old }
    ensures cause { PairHasCause D.faults journal.old.pair journal.new.pair
        (result ≡ Err Disk) }
    ensures quiet { UnlessDisk result (PairIsQuiet D.faults journal.old.pair journal.new.pair) }
{
    let anew = renew_if_overlong(alloc, core, journal, texts)?;
    let batch = decide_batch(alloc, core, asks, m, base)?;
    if is_idle(anew, &batch.records) {
        return Ok(batch.answers);
    }
    texts.add(alloc, &batch.records)?;
    commit(alloc, journal, texts, anew, &batch.records)?;
    Ok(batch.answers)
}

/// Decides on a request at `m`, and writes what is kept of it.
pub(crate) fn write_one<D: LeaseDisk, S: LeaseStore>(
    alloc: Global,
    core: &mut LeaseCore<S>,
    journal: &mut Journal<D>,
    texts: &mut KeptTexts,
    ask: &Ask,
    m: Moment,
) -> Result<Answer, JournalFault>
    requires ready { MayDecideAt (S.terms core.old) (S.state core.old) (S.reached core.old) m }
    requires texts { StandAlone texts.old.sure (S.state core.old) }
    requires none { texts.old.added ≡ [] }
    requires writable { IsWritable D.tells D.seen D.may_leave journal.old (S.state core.old) }
    requires ask { IsWellFormedAsk ask.now }
    ensures answer { IfOk result (λ answer. answer
        ≡ (decide (S.terms core.old) (S.state core.old) m ask.now).answer) }
    ensures state { OnOk result (S.state core.new ≡ apply_all (S.state core.old)
        (records_kept (decide_all (S.terms core.old) (S.state core.old) m (ask.now ∷ [])))) }
    ensures ready { OnOk result
        (MayDecideAt (S.terms core.new) (S.state core.new) (S.reached core.new) m) }
    ensures address { OnOk result ((S.state core.new).address ≡ (S.state core.old).address) }
    ensures texts { OnOk result (StandAlone texts.new.sure (S.state core.new)) }
    ensures none { OnOk result (texts.new.added ≡ []) }
    ensures writable { OnOk result
        (IsWritable D.tells D.seen D.may_leave journal.new (S.state core.new)) }
    ensures moments { D.tells → OnOk result
        (PairLeavesOnly D.moment D.left_since D.may_leave journal.old.pair journal.new.pair
        (StandsForWithOrWithout (S.state core.old)
        (records_kept (decide_all (S.terms core.old) (S.state core.old) m (ask.now ∷ []))))) }
    ensures journal { OnOk result (Journals D.tells
        (records_kept (decide_all (S.terms core.old) (S.state core.old) m (ask.now ∷ [])))
        journal.old journal.new) }
    ensures refused_texts { IfErr result (λ _. StandAlone texts.new.sure (S.state core.old)) }
    ensures refused_added { IfErr result (λ fault. texts.new.added ≡ unsure_after fault
        (records_kept (decide_all (S.terms core.old) (S.state core.old) m (ask.now ∷ [])))) }
    ensures refused_fit { IfErr result (λ _. MayFollow (S.state core.old) texts.new.added) }
    ensures refused_moments { D.tells → IfErr result (λ fault.
        PairLeavesOnly D.moment D.left_since D.may_leave journal.old.pair journal.new.pair
        (StandsForWithOrWithout (S.state core.old) (unsure_after fault
        (records_kept (decide_all (S.terms core.old) (S.state core.old) m (ask.now ∷ [])))))) }
    ensures terms { S.terms core.new ≡ S.terms core.old }
    ensures cause { PairHasCause D.faults journal.old.pair journal.new.pair
        (result ≡ Err Disk) }
    ensures quiet { UnlessDisk result (PairIsQuiet D.faults journal.old.pair journal.new.pair) }
{
    let anew = renew_if_overlong(alloc, core, journal, texts)?;
    let mut kept = None;
    let answer = decide_applied(alloc, core, ask, m, &mut kept)?;
    let records = kept.as_slice();
    if is_idle(anew, records) {
        return Ok(answer);
    }
    texts.add(alloc, records)?;
    commit(alloc, journal, texts, anew, records)?;
    Ok(answer)
}

/// Writes a Lose at `m`, and says how many leases were live.
pub(crate) fn write_lose<D: LeaseDisk, S: LeaseStore>(
    alloc: Global,
    core: &mut LeaseCore<S>,
    journal: &mut Journal<D>,
    texts: &mut KeptTexts,
    m: Moment,
) -> Result<u32, JournalFault>
    requires bound { m < 2 ^ 40 }
    requires ready { MayDecideAt (S.terms core.old) (S.state core.old) (S.reached core.old) m }
    requires texts { StandAlone texts.old.sure (S.state core.old) }
    requires none { texts.old.added ≡ [] }
    requires writable { IsWritable D.tells D.seen D.may_leave journal.old (S.state core.old) }
    ensures count { IfOk result (λ count. count ≡ lease_count (S.state core.old).table m) }
    ensures state { OnOk result (S.state core.new
        ≡ apply (S.state core.old) (record { moment = m; change = Lose })) }
    ensures ready { OnOk result
        (MayDecideAt (S.terms core.new) (S.state core.new) (S.reached core.new) m) }
    ensures address { OnOk result ((S.state core.new).address ≡ (S.state core.old).address) }
    ensures texts { OnOk result (StandAlone texts.new.sure (S.state core.new)) }
    ensures none { OnOk result (texts.new.added ≡ []) }
    ensures writable { OnOk result
        (IsWritable D.tells D.seen D.may_leave journal.new (S.state core.new)) }
    ensures moments { D.tells → OnOk result
        (PairLeavesOnly D.moment D.left_since D.may_leave journal.old.pair journal.new.pair
        (StandsForWithOrWithout (S.state core.old)
        (record { moment = m; change = Lose } ∷ []))) }
    ensures generation { OnOk result
        (journal.new.standing.generation ≡ journal.old.standing.generation) }
    ensures refused_texts { IfErr result (λ _. StandAlone texts.new.sure (S.state core.old)) }
    ensures refused_added { IfErr result (λ fault. texts.new.added
        ≡ unsure_after fault (record { moment = m; change = Lose } ∷ [])) }
    ensures refused_fit { IfErr result (λ _. MayFollow (S.state core.old) texts.new.added) }
    ensures refused_moments { D.tells → IfErr result (λ fault.
        PairLeavesOnly D.moment D.left_since D.may_leave journal.old.pair journal.new.pair
        (StandsForWithOrWithout (S.state core.old)
        (unsure_after fault (record { moment = m; change = Lose } ∷ [])))) }
    ensures terms { S.terms core.new ≡ S.terms core.old }
    ensures cause { PairHasCause D.faults journal.old.pair journal.new.pair
        (result ≡ Err Disk) }
    ensures quiet { UnlessDisk result (PairIsQuiet D.faults journal.old.pair journal.new.pair) }
{
    new_leases_need_room();
    states_are_sound();
    let count = core.leases(m);
    let lose = Record {
        moment: m,
        change: Change::Lose,
    };
    core.apply(alloc, &lose)?;
    texts.add(alloc, &[lose])?;
    commit(alloc, journal, texts, false, &[lose])?;
    Ok(count)
}
