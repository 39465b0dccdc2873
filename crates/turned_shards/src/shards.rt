//! The value behind a shard's turn.
use crate::doubts::{set_anew, set_batch, set_fault, set_loss};
use crate::marks::Mark;
use crate::moments::later;
use crate::openings::Opening;
use crate::reading::{read_batch, replies_of};
use crate::waiting::{await_found, await_kept, await_one};
use ghost_notes::GhostList;
use lane_index::LaneWriter;
use lease_disk::{DiskPair, LeaseDisk};
use lease_histories::{entries_come_next, histories_grow};
use lease_journal::JournalFault;
use pcp_base::{Address, Ask, Change, Config, Datagram, Entry, Moment, Record};
use shard_book::{Answered, Book, BookFault, Settled, Standing};
use std::alloc::Global;
use std::marker::Brand;
use std::sync::Wait;
use turn_lock::Kept;

/// An external address: its book, what is known of the last entry of its history, and who publishes
/// its records to its lane. The entries that a call adds, and those that are in doubt, are seen by
/// contracts alone. It isn't `Drop`, since the writer of a lane isn't: `close` it.
pub struct Shard<D: LeaseDisk> {
    /// The external address, which replies tell.
    pub address: Address,
    pub book: Book<D>,
    /// Of the last entry; before the first one the last moment of the opening state.
    pub moment: Moment,
    /// That the last entry told; before the first one that of the opening state.
    pub base: Moment,
    /// Entries since the last note.
    pub added: GhostList<Entry>,
    /// Entries of the last call whose journal failed: it has all of their records or none.
    pub doubt: GhostList<Entry>,
    /// The moment of the entries in doubt.
    pub doubt_moment: Moment,
    /// The base that the entries in doubt told.
    pub doubt_base: Moment,
    /// Publishes the records of the history to the lane.
    pub writer: LaneWriter,
    /// The last records of the history, which the writer hasn't got yet, in order.
    pub unpushed: Vec<Record>,
}

impl<D: LeaseDisk> Kept for Shard<D> {
    ghost use Rattle.std.specs.Prelude.{[]};
    ghost use Rattle.turned_shards.specs.Shards.{StandsFor, mark_of, noted_shard};

    type Entry = Entry;

    type Key = Opening<D>;

    type Mark = Mark<D>;

    type Lasting = Shard<D>;

    ghost stands = { StandsFor D.tells D.seen D.moment D.left_since D.may_leave D.faults };

    ghost added = { λ s. s.added };

    ghost mark = { mark_of };

    ghost lasts = { noted_shard };

    fn noted(&mut self) {
        self.added.clear();
    }
}

impl<D: LeaseDisk + Drop> Shard<D> {
    ghost use Rattle.std.specs.Prelude.{◌≡◌, ◌≤◌, ◌∷◌, ◌++◌, [], max, length, vec_len, List, Some};
    ghost use Rattle.std.specs.Prelude.{None, Err, IfOk, IfErr, OnOk};
    ghost use Rattle.std.specs.List.{AllByRecursion};
    ghost use Rattle.pcp_base.specs.declared.datagrams.Entry.{Entry};
    ghost use Rattle.pcp_base.specs.Asks.{IsWellFormedAsk};
    ghost use Rattle.pcp_base.specs.Configs.{IsConfig};
    ghost use Rattle.lease_disk.specs.Pairs.{PairHasCause, PairIsQuiet};
    ghost use Rattle.journal_sides.specs.declared.errors.JournalFault.TheVariants.{Disk};
    ghost use Rattle.journal_sides.specs.declared.errors.JournalFault.TheVariants as Faults;
    ghost use Rattle.journal_sides.specs.declared.layout.TheConstants.{MOST_RECORDS};
    ghost use Rattle.journal_sides.specs.Quiet.{UnlessDisk};
    ghost use Rattle.shard_book.specs.Books.{IsBook};
    ghost use Rattle.shard_book.specs.Keepings.{IsRefused, Loses, Serves, batch_records};
    ghost use Rattle.shard_book.specs.Keepings.{lose_records};
    ghost use Rattle.turned_shards.specs.declared.marks.Mark.{Mark};
    ghost use Rattle.turned_shards.specs.declared.openings.Opening.{Opening};
    ghost use Rattle.turned_shards.specs.BatchEntries.{asked_in, entries_along, entries_settled};
    ghost use Rattle.turned_shards.specs.Inside.{HasRoom, IsMoved, anew_shard, asked_shard};
    ghost use Rattle.turned_shards.specs.Inside.{come_in_shard, fresh_shard, left_shard};
    ghost use Rattle.turned_shards.specs.Inside.{settled_shard};
    ghost use Rattle.turned_shards.specs.ShardCalls.{AddsLoss, AnswersBatch, IsBatchOf};
    ghost use Rattle.turned_shards.specs.ShardCalls.{LeavesInDoubt, RefusesBatch, SettlesShard};
    ghost use Rattle.turned_shards.specs.ShardCalls.{StaysInDoubt, faults_of, loss_entries};
    ghost use Rattle.turned_shards.specs.Shards.{StandsFor, marks_added};

    /// The shard of a book that was just opened for this external address, and of the writer of its
    /// lane, which has no record yet. The lists are without entries.
    pub fn of(
        alloc: Global,
        address: Address,
        book: Book<D>,
        writer: LaneWriter,
        added: GhostList<Entry>,
        doubt: GhostList<Entry>,
    ) -> Shard<D>
        requires { (added ≡ []) × (doubt ≡ []) }
        ensures shard { result ≡ fresh_shard address book writer result }
        ensures unpushed { result.unpushed.items ≡ [] }
    {
        let moment = book.last();
        let base = book.base();
        Shard {
            address,
            book,
            moment,
            base,
            added,
            doubt,
            doubt_moment: moment,
            doubt_base: base,
            writer,
            unpushed: Vec::new(alloc),
        }
    }

    /// Finds out what the journal has of a call that was refused. Then nothing is in doubt, and the
    /// records of what this adds wait to be published. After a fault all that was in doubt is so
    /// still; without memory for its records the journal isn't read.
    pub fn settle(&mut self, alloc: Global, now: Moment) -> Result<(), BookFault>
        requires { self.old.added ≡ [] }
        ensures stands { (o : Opening D) (log : List Entry) (marks : List (Mark D)) →
            StandsFor D.tells D.seen D.moment D.left_since D.may_leave D.faults o self.old log marks →
            StandsFor D.tells D.seen D.moment D.left_since D.may_leave D.faults o self.new (log ++ self.new.added)
            (marks ++ marks_added self.new) }
        ensures settled { OnOk result
            (SettlesShard D.tells D.moment D.left_since D.may_leave now self.old self.new) }
        ensures refused { IfErr result
            (StaysInDoubt D.tells D.moment D.left_since D.may_leave self.old self.new) }
        ensures cause { PairHasCause D.faults self.old.book.journal.pair self.new.book.journal.pair
            (result ≡ Err Disk) }
        ensures quiet { UnlessDisk result
            (PairIsQuiet D.faults self.old.book.journal.pair self.new.book.journal.pair) }
    {
        histories_grow();
        entries_come_next();
        let unsure = self.get_ready(alloc)?;
        let m = later(now, self.moment);
        match self.book.settle(alloc, m) {
            Ok(settled) => {
                self.take_in(&settled);
                await_found(&mut self.unpushed, &settled, unsure);
                Ok(())
            }
            Err(fault) => {
                self.add_fault(fault);
                Err(fault)
            }
        }
    }

    /// Copies the records of which the book isn't sure, and makes room for those of a settling.
    fn get_ready(&mut self, alloc: Global) -> Result<Vec<Record>, BookFault>
        ensures moved { IsMoved self.old self.new }
        ensures unsure { IfOk result (λ records. records.items ≡ self.old.book.unsure) }
        ensures room { IfOk result (λ records. HasRoom (max 2 (vec_len records)) self.new) }
        ensures memory { IfErr result (λ fault. fault ≡ Faults.Memory) }
    {
        let unsure = self.book.unsure(alloc)?;
        // A journal that begins anew has two records.
        let count = if unsure.len() < 2 { 2 } else { unsure.len() };
        self.make_room(count)?;
        Ok(unsure)
    }

    /// Makes room for so many records that are to wait.
    fn make_room(&mut self, count: usize) -> Result<(), BookFault>
        ensures moved { IsMoved self.old self.new }
        ensures room { OnOk result (HasRoom count self.new) }
        ensures memory { IfErr result (λ fault. fault ≡ Faults.Memory) }
    {
        if self.unpushed.reserve(count).is_err() {
            return Err(JournalFault::Memory);
        }
        Ok(())
    }

    /// Takes in what a settled book found, whose entries it adds.
    fn take_in(&mut self, settled: &Settled)
        requires { self.old.added ≡ [] }
        ensures { self.new ≡ settled_shard settled.now self.old }
    {
        match &settled.journal {
            Standing::Clean => {}
            Standing::In => self.come_in(),
            Standing::Out => {}
            Standing::Fresh(begins) => self.begin_anew(begins, &settled.address),
        }
        self.doubt.clear();
    }

    /// The entries in doubt are added.
    fn come_in(&mut self)
        ensures { self.new ≡ record self.old {
          added = self.old.doubt;
          doubt = [];
          moment = self.old.doubt_moment;
          base = self.old.doubt_base;
        } }
    {
        self.added.take_over(&mut self.doubt);
        self.moment = self.doubt_moment;
        self.base = self.doubt_base;
    }

    /// A fault entry is added, where a disk failed.
    fn add_fault(&mut self, fault: JournalFault)
        requires { self.old.added ≡ [] }
        ensures { self.new
            ≡ record self.old { added = faults_of self.old.moment self.old.base fault } }
    {
        match fault {
            JournalFault::Disk => set_fault::<Brand>(&mut self.added, self.moment, self.base),
            JournalFault::Memory => {}
        }
    }

    /// A journal began anew with this record, a Start or a Lose, and was told the address.
    fn begin_anew(&mut self, begins: &Record, address: &Option<Record>)
        ensures { self.new ≡ anew_shard begins.now address.now self.old }
    {
        let count = if address.is_some() { 2 } else { 1 };
        set_anew::<Brand>(&mut self.added, self.base, begins, address, count);
        self.moment = begins.moment;
        self.base = later(self.base, begins.moment);
        if let Some(address) = address {
            self.moment = address.moment;
            self.base = later(self.base, address.moment);
        }
    }

    /// Answers the datagrams of a batch, in order: at the greater of `now` and the moment of the
    /// last entry, and with the greater of `base` and the one told last. Silent ones have no reply.
    /// The records of the entries wait to be published. After `Disk` the entries are in doubt.
    /// After `Memory` nothing was done, or memory was wanting for a reply alone: then they are
    /// added.
    pub fn answer(
        &mut self,
        alloc: Global,
        config: &Config,
        batch: &[Datagram],
        now: Moment,
        base: Moment,
    ) -> Result<Vec<Datagram>, BookFault>
        requires config { IsConfig config.now }
        requires few { length batch.now ≤ MOST_RECORDS }
        requires settled { self.old.book.fault ≡ None }
        requires noted { self.old.added ≡ [] }
        ensures stands { (o : Opening D) (log : List Entry) (marks : List (Mark D)) → IsBatchOf o config.now batch.now →
            StandsFor D.tells D.seen D.moment D.left_since D.may_leave D.faults o self.old log marks →
            StandsFor D.tells D.seen D.moment D.left_since D.may_leave D.faults o self.new (log ++ self.new.added)
            (marks ++ marks_added self.new) }
        ensures answered { (o : Opening D) (log : List Entry) (marks : List (Mark D)) → IsBatchOf o config.now batch.now →
            StandsFor D.tells D.seen D.moment D.left_since D.may_leave D.faults o self.old log marks →
            IfOk result (λ replies. AnswersBatch config.now now base batch.now self.old self.new
            replies.items) }
        ensures refused { (o : Opening D) (log : List Entry) (marks : List (Mark D)) → IsBatchOf o config.now batch.now →
            StandsFor D.tells D.seen D.moment D.left_since D.may_leave D.faults o self.old log marks →
            IfErr result (RefusesBatch config.now now base batch.now self.old self.new) }
        ensures cause { PairHasCause D.faults self.old.book.journal.pair self.new.book.journal.pair
            (result ≡ Err Disk) }
        ensures quiet { UnlessDisk result
            (PairIsQuiet D.faults self.old.book.journal.pair self.new.book.journal.pair) }
    {
        histories_grow();
        entries_come_next();
        let requests = read_batch(alloc, config, batch)?;
        if requests.asks.is_empty() {
            return Ok(Vec::new(alloc));
        }
        self.make_room(requests.asks.len())?;
        let m = later(now, self.moment);
        let told = later(base, self.base);
        let answers = self.ask(alloc, config, batch, &requests.asks, m, told)?;
        await_kept(&mut self.unpushed, &answers);
        let replies = replies_of(alloc, &self.address, config, batch, &requests, &answers)?;
        Ok(replies)
    }

    /// Asks the book, which is settled, these requests of the batch, and adds their entries.
    fn ask(
        &mut self,
        alloc: Global,
        config: &Config,
        batch: &[Datagram],
        asks: &[Ask],
        m: Moment,
        base: Moment,
    ) -> Result<Vec<Answered>, BookFault>
        requires few { length asks.now ≤ MOST_RECORDS }
        requires formed { AllByRecursion IsWellFormedAsk asks.now }
        requires settled { self.old.book.fault ≡ None }
        requires noted { self.old.added ≡ [] }
        requires count { length asks.now ≡ length (asked_in config.now batch.now) }
        ensures added { OnOk result (self.new
            ≡ record (come_in_shard (asked_shard (entries_along self.old.book.terms
            self.old.book.state m base (asked_in config.now batch.now)) m base self.old))
            { book = self.new.book }) }
        ensures left { IfErr result (λ fault. self.new
            ≡ record (left_shard fault (asked_shard (entries_along self.old.book.terms
            self.old.book.state m base (asked_in config.now batch.now)) m base self.old))
            { book = self.new.book }) }
        ensures served { IfOk result (λ answers. Serves D.tells D.moment D.left_since D.may_leave
            m base asks.now self.old.book self.new.book answers.items) }
        ensures refused { IfErr result
            (IsRefused D.tells D.moment D.left_since D.may_leave m (batch_records m asks.now)
            self.old.book self.new.book) }
        ensures book { IsBook D.tells D.seen D.may_leave self.new.book }
        ensures cause { PairHasCause D.faults self.old.book.journal.pair self.new.book.journal.pair
            (result ≡ Err Disk) }
        ensures quiet { UnlessDisk result
            (PairIsQuiet D.faults self.old.book.journal.pair self.new.book.journal.pair) }
    {
        let count = asks.len() as u32;
        set_batch::<D, Brand>(&mut self.doubt, &self.book, config, batch, m, base, count);
        self.doubt_moment = m;
        self.doubt_base = base;
        match self.book.batch(alloc, asks, m, base) {
            Ok(answers) => {
                self.come_in();
                Ok(answers)
            }
            Err(fault) => {
                self.leave_in_doubt(fault);
                Err(fault)
            }
        }
    }

    /// Loses all leases, at the greater of `now` and the moment of the last entry, and says how
    /// many were live. The record of the loss waits to be published. After `Disk` its entry is in
    /// doubt; after `Memory` nothing was done.
    pub fn lose(&mut self, alloc: Global, now: Moment, base: Moment) -> Result<u32, BookFault>
        requires settled { self.old.book.fault ≡ None }
        requires noted { self.old.added ≡ [] }
        ensures stands { (o : Opening D) (log : List Entry) (marks : List (Mark D)) →
            StandsFor D.tells D.seen D.moment D.left_since D.may_leave D.faults o self.old log marks →
            StandsFor D.tells D.seen D.moment D.left_since D.may_leave D.faults o self.new (log ++ self.new.added)
            (marks ++ marks_added self.new) }
        ensures lost { (o : Opening D) (log : List Entry) (marks : List (Mark D)) →
            StandsFor D.tells D.seen D.moment D.left_since D.may_leave D.faults o self.old log marks →
            IfOk result (AddsLoss now base self.old self.new) }
        ensures refused { (o : Opening D) (log : List Entry) (marks : List (Mark D)) →
            StandsFor D.tells D.seen D.moment D.left_since D.may_leave D.faults o self.old log marks →
            IfErr result (LeavesInDoubt (loss_entries now base self.old) self.old self.new) }
        ensures cause { PairHasCause D.faults self.old.book.journal.pair self.new.book.journal.pair
            (result ≡ Err Disk) }
        ensures quiet { UnlessDisk result
            (PairIsQuiet D.faults self.old.book.journal.pair self.new.book.journal.pair) }
    {
        histories_grow();
        entries_come_next();
        self.make_room(1)?;
        let m = later(now, self.moment);
        let told = later(base, self.base);
        set_loss::<Brand>(&mut self.doubt, m, told);
        self.doubt_moment = m;
        self.doubt_base = later(told, m);
        match self.book.lose(alloc, m) {
            Ok(count) => {
                self.come_in();
                let change = Change::Lose;
                await_one(&mut self.unpushed, &Record { moment: m, change });
                Ok(count)
            }
            Err(fault) => {
                self.leave_in_doubt(fault);
                Err(fault)
            }
        }
    }

    /// A call whose entries are in doubt was refused: without memory it did nothing.
    fn leave_in_doubt(&mut self, fault: JournalFault)
        requires { self.old.added ≡ [] }
        ensures { self.new ≡ left_shard fault self.old }
    {
        match fault {
            JournalFault::Disk => self.add_fault(fault),
            JournalFault::Memory => self.doubt.clear(),
        }
    }

    /// How many entries were added since the last note.
    pub fn added_count(&self) -> u32
        ensures { result ≡ length self.now.added }
    {
        self.added.len()
    }

    /// The base of the book's state.
    pub fn book_base(&self) -> Moment
        ensures { result ≡ self.now.book.state.base }
    {
        self.book.base()
    }

    /// The pair, as it is. The lane is ended, which waits for a lookup that still has a copy of its
    /// index.
    pub fn close<R: Wait>(self, rt: &R) -> DiskPair<D>
        ensures { result ≡ self.book.journal.pair }
    {
        let Shard {
            address: _,
            book,
            moment: _,
            base: _,
            added: _added,
            doubt: _doubt,
            doubt_moment: _,
            doubt_base: _,
            writer,
            unpushed: _unpushed,
        } = self;
        writer.end(rt);
        book.close()
    }
}
