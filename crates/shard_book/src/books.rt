//! The calls of a book.

use crate::batches::{Answered, DatedAnswer};
use crate::opening::later;
use crate::serving::{write_batch, write_lose, write_one};
use crate::standings::{Settled, Standing};
use crate::texts::KeptTexts;
use lease_core::LeaseCore;
use lease_disk::{DiskPair, LeaseDisk};
use lease_journal::{Journal, JournalFault};
use lease_store::LeaseStore;
use pcp_base::{Address, Ask, Memory, Moment, Record};
use std::alloc::Global;
use std::marker::Model;

/// Why a call of a book had no result: a call of a disk of its pair failed, which that disk
/// counted, or no memory was found.
pub type BookFault = JournalFault;

/// The leases of an external address over a store, and the journal that keeps them. After a fault
/// the next `batch`, `ask` or `lose` reads the journal again, as `settle` does.
#[derive(Drop)]
pub struct LeaseBook<D: LeaseDisk, S: LeaseStore> {
    pub(crate) core: LeaseCore<S>,
    pub(crate) journal: Journal<D>,
    /// records that stand for the state, and those of a call that answered `Disk`
    pub(crate) texts: KeptTexts,
    pub(crate) fault: Option<JournalFault>,
    pub(crate) last: Moment,
    pub(crate) base: Moment,
    pub(crate) address: Address,
    pub(crate) renumbered: bool,
}

impl<D: LeaseDisk, S: LeaseStore> Model for LeaseBook<D, S> {
    ghost use Rattle.pcp_base.specs.Apply.{state_of};
    ghost use Rattle.shard_book.specs.Books.{BookView};
    ghost use Rattle.shard_book.specs.Insides.{IsKeptBook};

    ghost Value = { BookView D };

    ghost view = { λ b. record {
      state = state_of b.texts.sure;
      last = b.last;
      terms = S.terms b.core;
      renumbered = b.renumbered;
      fault = b.fault;
      unsure = b.texts.added;
      journal = b.journal;
    } };

    ghost invariant = { λ b. IsKeptBook D.tells D.seen D.may_leave (S.state b.core)
        (S.reached b.core) b.texts b.base b.address (record {
          state = state_of b.texts.sure;
          last = b.last;
          terms = S.terms b.core;
          renumbered = b.renumbered;
          fault = b.fault;
          unsure = b.texts.added;
          journal = b.journal;
        }) };
}

impl<D: LeaseDisk, S: LeaseStore + Drop> LeaseBook<D, S> {
    ghost use Rattle.std.specs.Prelude.{◌≡◌, ◌≤◌, ◌∷◌, [], max, length, None, Err, IfOk, IfErr, OnOk};
    ghost use Rattle.std.specs.List.{AllByRecursion};
    ghost use Rattle.pcp_base.specs.Asks.{IsWellFormedAsk};
    ghost use Rattle.pcp_base.specs.Reached.{IsReached};
    ghost use Rattle.lease_store.specs.Lookups.{lease_count};
    ghost use Rattle.lease_disk.specs.Pairs.{PairHasCause, PairIsQuiet};
    ghost use Rattle.journal_sides.specs.declared.errors.JournalFault.TheVariants.{Disk};
    ghost use Rattle.journal_sides.specs.declared.layout.TheConstants.{MOST_APPENDED};
    ghost use Rattle.journal_sides.specs.Quiet.{UnlessDisk};
    ghost use Rattle.shard_book.specs.Books.{IsBook};
    ghost use Rattle.shard_book.specs.Keepings.{Doubts, IsRefused, Journals, Keeps, Loses, Serves, ServesOne, batch_answers, batch_records, lose_records, dated_answer};
    ghost use Rattle.shard_book.specs.Settlings.{HasSettled, KeepsDoubt, Settles};

    /// Answers at most [`MOST_APPENDED`](lease_journal::MOST_APPENDED) well formed requests, at the
    /// greater of `now` and the moment of the last batch; the base told is the greater of `base` and
    /// the book's own. Their records go into the journal all or none. First the book is settled,
    /// and a journal that has grown long is compacted. After a fault the journal has all the records
    /// or none, after `Memory` none.
    pub fn batch(
        &mut self,
        alloc: Global,
        asks: &[Ask],
        now: Moment,
        base: Moment,
    ) -> Result<Vec<Answered>, BookFault>
        requires few { length asks.now ≤ MOST_APPENDED }
        requires asks { AllByRecursion IsWellFormedAsk asks.now }
        ensures served { IfOk result
            (λ answers. Serves D.tells D.moment D.left_since D.may_leave now base asks.now
            self.old self.new answers.items) }
        ensures refused { IfErr result
            (IsRefused D.tells D.moment D.left_since D.may_leave now
            (batch_records now asks.now) self.old self.new) }
        ensures book { IsBook D.tells D.seen D.may_leave self.new }
        ensures cause { PairHasCause D.faults self.old.journal.pair self.new.journal.pair
            (result ≡ Err Disk) }
        ensures quiet { UnlessDisk result
            (PairIsQuiet D.faults self.old.journal.pair self.new.journal.pair) }
    {
        self.settle_if_refused(alloc, now)?;
        self.serve(alloc, asks, now, base)
    }

    /// Answers one well formed request as a `batch` of it alone does, with its moments, its base and
    /// its faults, and no list.
    pub fn ask(
        &mut self,
        alloc: Global,
        ask: &Ask,
        now: Moment,
        base: Moment,
    ) -> Result<DatedAnswer, BookFault>
        requires { IsWellFormedAsk ask.now }
        ensures served { IfOk result
            (λ answer. ServesOne D.tells D.moment D.left_since D.may_leave now base ask.now
            self.old self.new answer) }
        ensures refused { IfErr result
            (IsRefused D.tells D.moment D.left_since D.may_leave now
            (batch_records now (ask.now ∷ [])) self.old self.new) }
        ensures book { IsBook D.tells D.seen D.may_leave self.new }
        ensures cause { PairHasCause D.faults self.old.journal.pair self.new.journal.pair
            (result ≡ Err Disk) }
        ensures quiet { UnlessDisk result
            (PairIsQuiet D.faults self.old.journal.pair self.new.journal.pair) }
    {
        self.settle_if_refused(alloc, now)?;
        self.serve_one(alloc, ask, now, base)
    }

    /// Loses all leases at the greater of `now` and the moment of the last batch, and says how many
    /// were live. First the book is settled. After a fault the journal has the Lose or not, after
    /// `Memory` not.
    pub fn lose(&mut self, alloc: Global, now: Moment) -> Result<u32, BookFault>
        ensures lost { IfOk result
            (Loses D.tells D.moment D.left_since D.may_leave now self.old self.new) }
        ensures refused { IfErr result
            (IsRefused D.tells D.moment D.left_since D.may_leave now (lose_records now)
            self.old self.new) }
        ensures book { IsBook D.tells D.seen D.may_leave self.new }
        ensures cause { PairHasCause D.faults self.old.journal.pair self.new.journal.pair
            (result ≡ Err Disk) }
        ensures quiet { UnlessDisk result
            (PairIsQuiet D.faults self.old.journal.pair self.new.journal.pair) }
    {
        self.settle_if_refused(alloc, now)?;
        self.forget(alloc, now)
    }

    /// Where a call was refused, reads the journal again and says what it has of that call. A journal
    /// that stands for something else begins anew, at a moment that isn't below `now`. After a fault
    /// what was in doubt is so still.
    pub fn settle(&mut self, alloc: Global, now: Moment) -> Result<Settled, BookFault>
        ensures settled { IfOk result
            (Settles D.tells D.moment D.left_since D.may_leave now self.old self.new) }
        ensures refused { IfErr result
            (λ _. KeepsDoubt D.tells D.moment D.left_since D.may_leave self.old self.new) }
        ensures book { IsBook D.tells D.seen D.may_leave self.new }
        ensures cause { PairHasCause D.faults self.old.journal.pair self.new.journal.pair
            (result ≡ Err Disk) }
        ensures quiet { UnlessDisk result
            (PairIsQuiet D.faults self.old.journal.pair self.new.journal.pair) }
    {
        let Some(fault) = self.fault else {
            return Ok(Settled {
                journal: Standing::Clean,
                address: None,
            });
        };
        self.resume(alloc, now, fault)
    }

    /// Settles the book where a call was refused, as `settle` does, and doesn't say what it found.
    pub fn settle_if_refused(&mut self, alloc: Global, now: Moment) -> Result<(), BookFault>
        ensures settled { OnOk result
            (HasSettled D.tells D.moment D.left_since D.may_leave now self.old self.new) }
        ensures refused { IfErr result
            (λ _. KeepsDoubt D.tells D.moment D.left_since D.may_leave self.old self.new) }
        ensures book { IsBook D.tells D.seen D.may_leave self.new }
        ensures cause { PairHasCause D.faults self.old.journal.pair self.new.journal.pair
            (result ≡ Err Disk) }
        ensures quiet { UnlessDisk result
            (PairIsQuiet D.faults self.old.journal.pair self.new.journal.pair) }
    {
        let Some(fault) = self.fault else {
            return Ok(());
        };
        self.resume_untold(alloc, now, fault)
    }

    /// Answers requests where no call was refused since the book was settled.
    fn serve(
        &mut self,
        alloc: Global,
        asks: &[Ask],
        now: Moment,
        base: Moment,
    ) -> Result<Vec<Answered>, BookFault>
        requires settled { self.old.fault ≡ None }
        requires few { length asks.now ≤ MOST_APPENDED }
        requires asks { AllByRecursion IsWellFormedAsk asks.now }
        ensures answers { IfOk result
            (λ answers. answers.items ≡ batch_answers now base asks.now self.old) }
        ensures keeps { OnOk result
            (Keeps D.tells D.moment D.left_since D.may_leave (max now self.old.last)
            (batch_records now asks.now self.old) self.old self.new) }
        ensures journal { OnOk result (Journals D.tells (batch_records now asks.now self.old)
            self.old.journal self.new.journal) }
        ensures refused { IfErr result
            (Doubts D.tells D.moment D.left_since D.may_leave
            (batch_records now asks.now self.old) self.old self.new) }
        ensures book { IsBook D.tells D.seen D.may_leave self.new }
        ensures cause { PairHasCause D.faults self.old.journal.pair self.new.journal.pair
            (result ≡ Err Disk) }
        ensures quiet { UnlessDisk result
            (PairIsQuiet D.faults self.old.journal.pair self.new.journal.pair) }
    {
        let m = later(now, self.last);
        let told = later(base, self.base);
        let served = write_batch(
            alloc,
            &mut self.core,
            &mut self.journal,
            &mut self.texts,
            asks,
            m,
            told,
        );
        match served {
            Ok(answers) => {
                self.last = m;
                self.base = self.core.base();
                Ok(answers)
            }
            Err(fault) => {
                self.fault = Some(fault);
                Err(fault)
            }
        }
    }

    /// Answers a request where no call was refused since the book was settled.
    fn serve_one(
        &mut self,
        alloc: Global,
        ask: &Ask,
        now: Moment,
        base: Moment,
    ) -> Result<DatedAnswer, BookFault>
        requires settled { self.old.fault ≡ None }
        requires ask { IsWellFormedAsk ask.now }
        ensures answer { IfOk result
            (λ answer. answer ≡ dated_answer now base ask.now self.old) }
        ensures keeps { OnOk result
            (Keeps D.tells D.moment D.left_since D.may_leave (max now self.old.last)
            (batch_records now (ask.now ∷ []) self.old) self.old self.new) }
        ensures journal { OnOk result (Journals D.tells (batch_records now (ask.now ∷ []) self.old)
            self.old.journal self.new.journal) }
        ensures refused { IfErr result
            (Doubts D.tells D.moment D.left_since D.may_leave
            (batch_records now (ask.now ∷ []) self.old) self.old self.new) }
        ensures book { IsBook D.tells D.seen D.may_leave self.new }
        ensures cause { PairHasCause D.faults self.old.journal.pair self.new.journal.pair
            (result ≡ Err Disk) }
        ensures quiet { UnlessDisk result
            (PairIsQuiet D.faults self.old.journal.pair self.new.journal.pair) }
    {
        let m = later(now, self.last);
        let told = later(base, self.base);
        let served = write_one(
            alloc,
            &mut self.core,
            &mut self.journal,
            &mut self.texts,
            ask,
            m,
        );
        match served {
            Ok(answer) => {
                self.last = m;
                self.base = self.core.base();
                Ok(DatedAnswer {
                    moment: m,
                    base: told,
                    answer,
                })
            }
            Err(fault) => {
                self.fault = Some(fault);
                Err(fault)
            }
        }
    }

    /// Loses all leases where no call was refused since the book was settled.
    fn forget(&mut self, alloc: Global, now: Moment) -> Result<u32, BookFault>
        requires settled { self.old.fault ≡ None }
        ensures count { IfOk result (λ count. count
            ≡ lease_count self.old.state.table (max now self.old.last)) }
        ensures keeps { OnOk result
            (Keeps D.tells D.moment D.left_since D.may_leave (max now self.old.last)
            (lose_records now self.old) self.old self.new) }
        ensures generation { OnOk result (self.new.journal.standing.generation
            ≡ self.old.journal.standing.generation) }
        ensures refused { IfErr result
            (Doubts D.tells D.moment D.left_since D.may_leave (lose_records now self.old)
            self.old self.new) }
        ensures book { IsBook D.tells D.seen D.may_leave self.new }
        ensures cause { PairHasCause D.faults self.old.journal.pair self.new.journal.pair
            (result ≡ Err Disk) }
        ensures quiet { UnlessDisk result
            (PairIsQuiet D.faults self.old.journal.pair self.new.journal.pair) }
    {
        let m = later(now, self.last);
        let lost = write_lose(alloc, &mut self.core, &mut self.journal, &mut self.texts, m);
        match lost {
            Ok(count) => {
                self.last = m;
                self.base = self.core.base();
                Ok(count)
            }
            Err(fault) => {
                self.fault = Some(fault);
                Err(fault)
            }
        }
    }

    /// The base of the epoch: the moment of the last Start, Lose, or Renumber that found another
    /// address. After a fault it is the base before the refused call.
    pub fn base(&self) -> Moment
        ensures { result ≡ self.now.state.base }
    {
        self.base
    }

    /// The greatest moment of a batch, of a Lose, or of a record. It never falls.
    pub fn last(&self) -> Moment
        ensures { result ≡ self.now.last }
    {
        self.last
    }

    /// The lease table, which may be looked into where no call was refused since the book was
    /// settled.
    pub fn core(&self) -> &LeaseCore<S>
        ensures terms { S.terms result.now ≡ self.now.terms }
        ensures state { self.now.fault ≡ None → S.state result.now ≡ self.now.state }
        ensures reached { self.now.fault ≡ None → IsReached (S.state result.now) }
    {
        &self.core
    }

    /// The records of the last call that answered `Disk` and wasn't settled since: the journal has all
    /// of them or none.
    pub fn unsure(&self, alloc: Global) -> Result<Vec<Record>, Memory>
        ensures { IfOk result (λ records. records.items ≡ self.now.unsure) }
    {
        self.texts.added(alloc)
    }

    /// Whether the opening of this book told its journal another address than it named before.
    pub fn renumbered(&self) -> bool
        ensures { result ≡ self.now.renumbered }
    {
        self.renumbered
    }

    /// The pair, as it is.
    pub fn close(self) -> DiskPair<D>
        ensures { result ≡ self.journal.pair }
    {
        self.journal.close()
    }
}
