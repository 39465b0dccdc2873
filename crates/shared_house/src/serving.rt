//! A call behind the turn of an external address.
ghost use Rattle.std.specs.Prelude.{◌≡◌, ◌≤◌, ◌++◌, ℕ, [], List, length, map, max, true, false};
ghost use Rattle.std.specs.Prelude.{None, IfOk, IfErr, OnOk, OnErr};
ghost use Rattle.pcp_base.specs.declared.datagrams.Entry.{Entry};
ghost use Rattle.pcp_base.specs.Configs.{IsConfig};
ghost use Rattle.lease_disk.specs.Pairs.{PairIsQuiet};
ghost use Rattle.journal_sides.specs.declared.layout.TheConstants.{MOST_RECORDS};
ghost use Rattle.journal_sides.specs.Quiet.{UnlessDisk};
ghost use Rattle.lease_store.specs.Lookups.{lease_count};
ghost use Rattle.turn_lock.specs.Passes.{after_note};
ghost use Rattle.turned_shards.specs.BatchEntries.{reply_in};
ghost use Rattle.shared_house.specs.HeldCalls.{FailsHeld, HearsAndRaises, HearsMore, IsPassBehind};
ghost use Rattle.shared_house.specs.HeldCalls.{LosesHeld, MarksIfDisk, NotesOwn, RefusesHeld, RefusesLoss};
ghost use Rattle.shared_house.specs.HeldCalls.{ServesHeld, SettlesHeld, raised_to};
ghost use Rattle.shared_house.specs.HouseCalls.{LosesHouse, RefusesHouse, ServesHouse};
ghost use Rattle.shared_house.specs.HouseCalls.{batch_behind, loss_behind, raised_behind};
ghost use Rattle.shared_house.specs.HouseCalls.{raised_by_loss};
ghost use Rattle.turned_shards.specs.HeldShards.{IsHeldBy};
ghost use Rattle.turned_shards.specs.Publishing.{told_of};
ghost use Rattle.turned_shards.specs.ShardCalls.{IsBatchOf, batch_entries, faults_of, loss_entries};
ghost use Rattle.turned_shards.specs.Shards.{StandsFor, mark_of, marks_added};

use crate::served::Served;
use epoch_word::EpochWord;
use lane_index::Told;
use lease_disk::LeaseDisk;
use pcp_base::{Config, Datagram, Moment};
use shard_book::BookFault;
use status_board::ShardNumbers;
use std::alloc::Global;
use std::sync::Wait;
use turn_lock::{Held, Pass, Turn};
use turned_shards::{HousePass, Shard, publish_held, publish_rest};

/// Notes what the held shard has added.
fn note_added<D: LeaseDisk + Drop>(
    turn: &Turn<Shard<D>>,
    pass: &mut Pass<Shard<D>>,
    held: &mut Held<Shard<D>>,
    own: bool,
)
    requires pass { (pass.old.turn ≡ turn.now.id) × (pass.old.out ≡ true) }
    requires stands { StandsFor D.tells D.seen D.moment D.left_since D.may_leave D.faults turn.now.key held.old
        (pass.old.seen ++ held.old.added) (pass.old.marks ++ marks_added held.old) }
    ensures pass { pass.new ≡ after_note own held.old.added (mark_of held.old) pass.old }
    ensures held { held.new ≡ record held.old { added = [] } }
    ensures by { IsHeldBy D.tells D.seen D.moment D.left_since D.may_leave D.faults turn.now held.new pass.new }
{
    let count = held.value().added_count();
    turn.note(pass, held, count, own);
}

/// Settles the held shard, notes what that adds, and raises the epoch word to its base.
fn settle_held<D: LeaseDisk + Drop>(
    alloc: Global,
    turn: &Turn<Shard<D>>,
    word: &EpochWord,
    pass: &mut HousePass<D>,
    held: &mut Held<Shard<D>>,
    now: Moment,
) -> Result<(), BookFault>
    requires held { IsHeldBy D.tells D.seen D.moment D.left_since D.may_leave D.faults turn.now held.old
        pass.old.history }
    requires word { pass.old.epoch.word ≡ word.now }
    ensures held { IsHeldBy D.tells D.seen D.moment D.left_since D.may_leave D.faults turn.now held.new
        pass.new.history }
    ensures shard { pass.new.shard ≡ pass.old.shard }
    ensures epoch { pass.new.epoch ≡ raised_to held.new.book.state.base pass.old.epoch }
    ensures settled { OnOk result (SettlesHeld D.tells D.seen D.moment D.left_since D.may_leave
        D.faults turn.now.key now pass.old pass.new held.new) }
    ensures refused { IfErr result
        (λ fault. NotesOwn (faults_of held.old.moment held.old.base fault) pass.old pass.new) }
    ensures same { OnErr result (held.new.book.state ≡ held.old.book.state) }
    ensures marked { (wanted : List Entry → List Entry) →
        IfErr result (MarksIfDisk turn.now.key wanted pass.new) }
    ensures quiet { UnlessDisk result
        (PairIsQuiet D.faults held.old.book.journal.pair held.new.book.journal.pair) }
{
    let told = held.value().settle(alloc, now);
    note_added(turn, &mut pass.history, held, told.is_err());
    let base = held.value().book_base();
    word.raise(&mut pass.epoch, base);
    told
}

/// Settles the held shard, and publishes what then isn't published yet.
fn settle_and_publish<D: LeaseDisk + Drop, R: Wait>(
    rt: &R,
    alloc: Global,
    turn: &Turn<Shard<D>>,
    word: &EpochWord,
    pass: &mut HousePass<D>,
    held: &mut Held<Shard<D>>,
    now: Moment,
) -> Result<(), BookFault>
    requires held { IsHeldBy D.tells D.seen D.moment D.left_since D.may_leave D.faults turn.now held.old
        pass.old.history }
    requires word { pass.old.epoch.word ≡ word.now }
    ensures held { IsHeldBy D.tells D.seen D.moment D.left_since D.may_leave D.faults turn.now held.new
        pass.new.history }
    ensures shard { pass.new.shard ≡ pass.old.shard }
    ensures epoch { pass.new.epoch ≡ raised_to held.new.book.state.base pass.old.epoch }
    ensures settled { OnOk result (SettlesHeld D.tells D.seen D.moment D.left_since D.may_leave
        D.faults turn.now.key now pass.old pass.new held.new) }
    ensures refused { (own : List Entry → List Entry) → (raised : List Entry → ℕ → ℕ) →
        IfErr result (FailsHeld D.tells D.seen D.moment D.left_since D.may_leave D.faults
        turn.now.key now own raised pass.old pass.new) }
    ensures marked { (wanted : List Entry → List Entry) →
        IfErr result (MarksIfDisk turn.now.key wanted pass.new) }
    ensures quiet { UnlessDisk result
        (PairIsQuiet D.faults held.old.book.journal.pair held.new.book.journal.pair) }
{
    match settle_held(alloc, turn, word, pass, held, now) {
        Ok(()) => publish_rest(rt, alloc, turn, &pass.history, held),
        Err(fault) => Err(fault),
    }
}

/// Answers a batch with the held shard, which is settled, and notes its entries.
fn answer_held<D: LeaseDisk + Drop>(
    alloc: Global,
    config: &Config,
    turn: &Turn<Shard<D>>,
    word: &EpochWord,
    pass: &mut HousePass<D>,
    held: &mut Held<Shard<D>>,
    batch: &[Datagram],
    now: Moment,
) -> Result<Vec<Datagram>, BookFault>
    requires config { IsConfig config.now }
    requires few { length batch.now ≤ MOST_RECORDS }
    requires batch { IsBatchOf turn.now.key config.now batch.now }
    requires held { IsHeldBy D.tells D.seen D.moment D.left_since D.may_leave D.faults turn.now held.old
        pass.old.history }
    requires settled { held.old.book.fault ≡ None }
    requires word { pass.old.epoch.word ≡ word.now }
    ensures held { IsHeldBy D.tells D.seen D.moment D.left_since D.may_leave D.faults turn.now held.new
        pass.new.history }
    ensures shard { pass.new.shard ≡ pass.old.shard }
    ensures heard { HearsMore pass.old.epoch pass.new.epoch }
    ensures served { OnOk result (NotesOwn (batch_entries config.now now pass.new.epoch.heard
        batch.now held.old) pass.old pass.new) }
    ensures told { IfOk result (λ replies. replies.items ≡ map reply_in (batch_entries config.now
        now pass.new.epoch.heard batch.now held.old)) }
    ensures refused { IfErr result (RefusesHeld held.old (batch_entries config.now now
        pass.new.epoch.heard batch.now held.old) pass.old pass.new) }
    ensures marked { IfErr result (MarksIfDisk turn.now.key
        (λ log. batch_behind turn.now.key log now pass.new.epoch.heard batch.now) pass.new) }
    ensures quiet { UnlessDisk result
        (PairIsQuiet D.faults held.old.book.journal.pair held.new.book.journal.pair) }
{
    let heard = word.told(&mut pass.epoch);
    let told = held.value().answer(alloc, config, batch, now, heard);
    note_added(turn, &mut pass.history, held, true);
    told
}

/// Loses the leases of the held shard, which is settled, notes the entry of the loss, and raises
/// the epoch word to the base.
fn lose_held<D: LeaseDisk + Drop>(
    alloc: Global,
    turn: &Turn<Shard<D>>,
    word: &EpochWord,
    pass: &mut HousePass<D>,
    held: &mut Held<Shard<D>>,
    now: Moment,
) -> Result<u32, BookFault>
    requires held { IsHeldBy D.tells D.seen D.moment D.left_since D.may_leave D.faults turn.now held.old
        pass.old.history }
    requires settled { held.old.book.fault ≡ None }
    requires word { pass.old.epoch.word ≡ word.now }
    ensures held { IsHeldBy D.tells D.seen D.moment D.left_since D.may_leave D.faults turn.now held.new
        pass.new.history }
    ensures shard { pass.new.shard ≡ pass.old.shard }
    ensures heard { HearsAndRaises pass.old.epoch pass.new.epoch held.new.book.state.base }
    ensures lost { OnOk result
        (NotesOwn (loss_entries now pass.new.epoch.heard held.old) pass.old pass.new) }
    ensures counted { IfOk result (λ count. count
        ≡ lease_count held.old.book.state.table (max now held.old.moment)) }
    ensures refused { IfErr result
        (λ fault. NotesOwn (faults_of held.old.moment held.old.base fault) pass.old pass.new) }
    ensures same { OnErr result (held.new.book.state ≡ held.old.book.state) }
    ensures marked { IfErr result (MarksIfDisk turn.now.key
        (λ log. loss_behind turn.now.key log now pass.new.epoch.heard) pass.new) }
    ensures quiet { UnlessDisk result
        (PairIsQuiet D.faults held.old.book.journal.pair held.new.book.journal.pair) }
{
    let heard = word.told(&mut pass.epoch);
    let told = held.value().lose(alloc, now, heard);
    note_added(turn, &mut pass.history, held, true);
    let begun = held.value().book_base();
    word.raise(&mut pass.epoch, begun);
    told
}

/// Answers a batch with the held shard, which is settled, notes its entries, and publishes their
/// records.
fn answer_and_publish<D: LeaseDisk + Drop, R: Wait>(
    rt: &R,
    alloc: Global,
    config: &Config,
    turn: &Turn<Shard<D>>,
    word: &EpochWord,
    pass: &mut HousePass<D>,
    held: &mut Held<Shard<D>>,
    batch: &[Datagram],
    now: Moment,
) -> Result<Served, BookFault>
    requires config { IsConfig config.now }
    requires few { length batch.now ≤ MOST_RECORDS }
    requires batch { IsBatchOf turn.now.key config.now batch.now }
    requires held { IsHeldBy D.tells D.seen D.moment D.left_since D.may_leave D.faults turn.now held.old
        pass.old.history }
    requires settled { held.old.book.fault ≡ None }
    requires word { pass.old.epoch.word ≡ word.now }
    ensures held { IsHeldBy D.tells D.seen D.moment D.left_since D.may_leave D.faults turn.now held.new
        pass.new.history }
    ensures shard { pass.new.shard ≡ pass.old.shard }
    ensures heard { HearsMore pass.old.epoch pass.new.epoch }
    ensures served { OnOk result (NotesOwn (batch_entries config.now now pass.new.epoch.heard
        batch.now held.old) pass.old pass.new) }
    ensures told { IfOk result (λ served. served.replies.items ≡ map reply_in (batch_entries
        config.now now pass.new.epoch.heard batch.now held.old)) }
    ensures published { IfOk result
        (λ served. served.told ≡ told_of turn.now.key pass.new.history.seen) }
    ensures refused { IfErr result (RefusesHeld held.old (batch_entries config.now now
        pass.new.epoch.heard batch.now held.old) pass.old pass.new) }
    ensures marked { IfErr result (MarksIfDisk turn.now.key
        (λ log. batch_behind turn.now.key log now pass.new.epoch.heard batch.now) pass.new) }
    ensures quiet { UnlessDisk result
        (PairIsQuiet D.faults held.old.book.journal.pair held.new.book.journal.pair) }
{
    let replies = match answer_held(alloc, config, turn, word, pass, held, batch, now) {
        Ok(replies) => replies,
        Err(fault) => return Err(fault),
    };
    match publish_held(rt, alloc, turn, &pass.history, held) {
        Ok(told) => Ok(Served { replies, told }),
        Err(fault) => Err(fault),
    }
}

/// Loses the leases of the held shard, which is settled, notes the entry of the loss, raises the
/// epoch word, and publishes the loss.
fn lose_and_publish<D: LeaseDisk + Drop, R: Wait>(
    rt: &R,
    alloc: Global,
    turn: &Turn<Shard<D>>,
    word: &EpochWord,
    pass: &mut HousePass<D>,
    held: &mut Held<Shard<D>>,
    now: Moment,
) -> Result<(u32, Told), BookFault>
    requires held { IsHeldBy D.tells D.seen D.moment D.left_since D.may_leave D.faults turn.now held.old
        pass.old.history }
    requires settled { held.old.book.fault ≡ None }
    requires word { pass.old.epoch.word ≡ word.now }
    ensures held { IsHeldBy D.tells D.seen D.moment D.left_since D.may_leave D.faults turn.now held.new
        pass.new.history }
    ensures shard { pass.new.shard ≡ pass.old.shard }
    ensures heard { HearsAndRaises pass.old.epoch pass.new.epoch held.new.book.state.base }
    ensures lost { OnOk result
        (NotesOwn (loss_entries now pass.new.epoch.heard held.old) pass.old pass.new) }
    ensures counted { IfOk result (λ lost. lost.0
        ≡ lease_count held.old.book.state.table (max now held.old.moment)) }
    ensures published { IfOk result
        (λ lost. lost.1 ≡ told_of turn.now.key pass.new.history.seen) }
    ensures refused { IfErr result (RefusesLoss held.old held.new
        (loss_entries now pass.new.epoch.heard held.old) pass.old pass.new) }
    ensures marked { IfErr result (MarksIfDisk turn.now.key
        (λ log. loss_behind turn.now.key log now pass.new.epoch.heard) pass.new) }
    ensures quiet { UnlessDisk result
        (PairIsQuiet D.faults held.old.book.journal.pair held.new.book.journal.pair) }
{
    let count = match lose_held(alloc, turn, word, pass, held, now) {
        Ok(count) => count,
        Err(fault) => return Err(fault),
    };
    match publish_held(rt, alloc, turn, &pass.history, held) {
        Ok(told) => Ok((count, told)),
        Err(fault) => Err(fault),
    }
}

/// Settles the held shard, and answers a batch with it. All records are published.
fn settle_and_answer<D: LeaseDisk + Drop, R: Wait>(
    rt: &R,
    alloc: Global,
    config: &Config,
    turn: &Turn<Shard<D>>,
    word: &EpochWord,
    pass: &mut HousePass<D>,
    held: &mut Held<Shard<D>>,
    batch: &[Datagram],
    now: Moment,
) -> Result<Served, BookFault>
    requires config { IsConfig config.now }
    requires few { length batch.now ≤ MOST_RECORDS }
    requires batch { IsBatchOf turn.now.key config.now batch.now }
    requires held { IsHeldBy D.tells D.seen D.moment D.left_since D.may_leave D.faults turn.now held.old
        pass.old.history }
    requires word { pass.old.epoch.word ≡ word.now }
    ensures held { IsHeldBy D.tells D.seen D.moment D.left_since D.may_leave D.faults turn.now held.new
        pass.new.history }
    ensures shard { pass.new.shard ≡ pass.old.shard }
    ensures word { pass.new.epoch.word ≡ pass.old.epoch.word }
    ensures served { IfOk result (λ served. ServesHeld D.tells D.seen D.moment D.left_since
        D.may_leave D.faults turn.now.key now batch.now pass.old pass.new served.replies.items) }
    ensures published { IfOk result
        (λ served. served.told ≡ told_of turn.now.key pass.new.history.seen) }
    ensures refused { IfErr result (FailsHeld D.tells D.seen D.moment D.left_since D.may_leave
        D.faults turn.now.key now
        (λ log. batch_behind turn.now.key log now pass.new.epoch.heard batch.now)
        (raised_behind turn.now.key)
        pass.old pass.new) }
    ensures marked { IfErr result (MarksIfDisk turn.now.key
        (λ log. batch_behind turn.now.key log now pass.new.epoch.heard batch.now) pass.new) }
    ensures quiet { UnlessDisk result
        (PairIsQuiet D.faults held.old.book.journal.pair held.new.book.journal.pair) }
{
    match settle_and_publish(rt, alloc, turn, word, pass, held, now) {
        Ok(()) => { answer_and_publish(rt, alloc, config, turn, word, pass, held, batch, now) }
        Err(fault) => Err(fault),
    }
}

/// Settles the held shard, and loses its leases. All records are published.
fn settle_and_lose<D: LeaseDisk + Drop, R: Wait>(
    rt: &R,
    alloc: Global,
    turn: &Turn<Shard<D>>,
    word: &EpochWord,
    pass: &mut HousePass<D>,
    held: &mut Held<Shard<D>>,
    now: Moment,
) -> Result<(u32, Told), BookFault>
    requires held { IsHeldBy D.tells D.seen D.moment D.left_since D.may_leave D.faults turn.now held.old
        pass.old.history }
    requires word { pass.old.epoch.word ≡ word.now }
    ensures held { IsHeldBy D.tells D.seen D.moment D.left_since D.may_leave D.faults turn.now held.new
        pass.new.history }
    ensures shard { pass.new.shard ≡ pass.old.shard }
    ensures word { pass.new.epoch.word ≡ pass.old.epoch.word }
    ensures lost { IfOk result (λ lost. LosesHeld D.tells D.seen D.moment D.left_since
        D.may_leave D.faults turn.now.key now pass.old pass.new lost.0) }
    ensures published { IfOk result
        (λ lost. lost.1 ≡ told_of turn.now.key pass.new.history.seen) }
    ensures refused { IfErr result (FailsHeld D.tells D.seen D.moment D.left_since D.may_leave
        D.faults turn.now.key now
        (λ log. loss_behind turn.now.key log now pass.new.epoch.heard)
        (raised_by_loss turn.now.key now) pass.old pass.new) }
    ensures marked { IfErr result (MarksIfDisk turn.now.key
        (λ log. loss_behind turn.now.key log now pass.new.epoch.heard) pass.new) }
    ensures quiet { UnlessDisk result
        (PairIsQuiet D.faults held.old.book.journal.pair held.new.book.journal.pair) }
{
    match settle_and_publish(rt, alloc, turn, word, pass, held, now) {
        Ok(()) => lose_and_publish(rt, alloc, turn, word, pass, held, now),
        Err(fault) => Err(fault),
    }
}

/// Counts what the held shard has, which is settled, and answers no datagram. There is no count where
/// memory was wanting for it.
fn count_and_publish<D: LeaseDisk + Drop, R: Wait>(
    rt: &R,
    alloc: Global,
    config: &Config,
    turn: &Turn<Shard<D>>,
    word: &EpochWord,
    pass: &mut HousePass<D>,
    held: &mut Held<Shard<D>>,
    now: Moment,
) -> Result<(Option<ShardNumbers>, Told), BookFault>
    requires config { IsConfig config.now }
    requires batch { IsBatchOf turn.now.key config.now [] }
    requires held { IsHeldBy D.tells D.seen D.moment D.left_since D.may_leave D.faults turn.now held.old
        pass.old.history }
    requires settled { held.old.book.fault ≡ None }
    requires word { pass.old.epoch.word ≡ word.now }
    ensures held { IsHeldBy D.tells D.seen D.moment D.left_since D.may_leave D.faults turn.now held.new
        pass.new.history }
    ensures shard { pass.new.shard ≡ pass.old.shard }
    ensures heard { HearsMore pass.old.epoch pass.new.epoch }
    ensures counted { OnOk result (NotesOwn (batch_entries config.now now pass.new.epoch.heard
        [] held.old) pass.old pass.new) }
    ensures published { IfOk result
        (λ counted. counted.1 ≡ told_of turn.now.key pass.new.history.seen) }
    ensures refused { IfErr result (RefusesHeld held.old (batch_entries config.now now
        pass.new.epoch.heard [] held.old) pass.old pass.new) }
    ensures marked { IfErr result (MarksIfDisk turn.now.key
        (λ log. batch_behind turn.now.key log now pass.new.epoch.heard []) pass.new) }
    ensures quiet { UnlessDisk result
        (PairIsQuiet D.faults held.old.book.journal.pair held.new.book.journal.pair) }
{
    let numbers = held.value().numbers(alloc, config, now).ok();
    match answer_and_publish(rt, alloc, config, turn, word, pass, held, &[], now) {
        Ok(served) => Ok((numbers, served.told)),
        Err(fault) => Err(fault),
    }
}

/// Settles the held shard, and counts what it has. All records are published.
fn settle_and_count<D: LeaseDisk + Drop, R: Wait>(
    rt: &R,
    alloc: Global,
    config: &Config,
    turn: &Turn<Shard<D>>,
    word: &EpochWord,
    pass: &mut HousePass<D>,
    held: &mut Held<Shard<D>>,
    now: Moment,
) -> Result<(Option<ShardNumbers>, Told), BookFault>
    requires config { IsConfig config.now }
    requires batch { IsBatchOf turn.now.key config.now [] }
    requires held { IsHeldBy D.tells D.seen D.moment D.left_since D.may_leave D.faults turn.now held.old
        pass.old.history }
    requires word { pass.old.epoch.word ≡ word.now }
    ensures held { IsHeldBy D.tells D.seen D.moment D.left_since D.may_leave D.faults turn.now held.new
        pass.new.history }
    ensures shard { pass.new.shard ≡ pass.old.shard }
    ensures word { pass.new.epoch.word ≡ pass.old.epoch.word }
    ensures counted { OnOk result (ServesHeld D.tells D.seen D.moment D.left_since
        D.may_leave D.faults turn.now.key now [] pass.old pass.new []) }
    ensures published { IfOk result
        (λ counted. counted.1 ≡ told_of turn.now.key pass.new.history.seen) }
    ensures refused { IfErr result (FailsHeld D.tells D.seen D.moment D.left_since D.may_leave
        D.faults turn.now.key now
        (λ log. batch_behind turn.now.key log now pass.new.epoch.heard [])
        (raised_behind turn.now.key)
        pass.old pass.new) }
    ensures marked { IfErr result (MarksIfDisk turn.now.key
        (λ log. batch_behind turn.now.key log now pass.new.epoch.heard []) pass.new) }
    ensures quiet { UnlessDisk result
        (PairIsQuiet D.faults held.old.book.journal.pair held.new.book.journal.pair) }
{
    match settle_and_publish(rt, alloc, turn, word, pass, held, now) {
        Ok(()) => count_and_publish(rt, alloc, config, turn, word, pass, held, now),
        Err(fault) => Err(fault),
    }
}

/// Answers a batch in one turn.
pub(crate) fn serve_behind<D: LeaseDisk + Drop, R: Wait>(
    rt: &R,
    alloc: Global,
    config: &Config,
    turn: &Turn<Shard<D>>,
    word: &EpochWord,
    pass: &mut HousePass<D>,
    batch: &[Datagram],
    now: Moment,
) -> Result<Served, BookFault>
    requires config { IsConfig config.now }
    requires few { length batch.now ≤ MOST_RECORDS }
    requires batch { IsBatchOf turn.now.key config.now batch.now }
    requires pass { IsPassBehind turn.now word.now pass.old }
    ensures pass { IsPassBehind turn.now word.now pass.new }
    ensures shard { pass.new.shard ≡ pass.old.shard }
    ensures served { IfOk result (λ served. ServesHouse turn.now.key D.tells D.seen D.moment
        D.left_since D.may_leave D.faults now batch.now pass.old pass.new served.replies.items
        served.told) }
    ensures refused { IfErr result (RefusesHouse turn.now.key D.tells D.seen D.moment D.left_since
        D.may_leave D.faults now
        (λ log. batch_behind turn.now.key log now pass.new.epoch.heard batch.now)
        (raised_behind turn.now.key)
        pass.old pass.new) }
{
    let mut held = turn.take(rt, &mut pass.history);
    let told = settle_and_answer(rt, alloc, config, turn, word, pass, &mut held, batch, now);
    turn.give(&mut pass.history, held);
    told
}

/// Loses all leases in one turn.
pub(crate) fn lose_behind<D: LeaseDisk + Drop, R: Wait>(
    rt: &R,
    alloc: Global,
    turn: &Turn<Shard<D>>,
    word: &EpochWord,
    pass: &mut HousePass<D>,
    now: Moment,
) -> Result<(u32, Told), BookFault>
    requires pass { IsPassBehind turn.now word.now pass.old }
    ensures pass { IsPassBehind turn.now word.now pass.new }
    ensures shard { pass.new.shard ≡ pass.old.shard }
    ensures lost { IfOk result (λ lost. LosesHouse turn.now.key D.tells D.seen D.moment
        D.left_since D.may_leave D.faults now pass.old pass.new lost.0 lost.1) }
    ensures refused { IfErr result (RefusesHouse turn.now.key D.tells D.seen D.moment D.left_since
        D.may_leave D.faults now
        (λ log. loss_behind turn.now.key log now pass.new.epoch.heard)
        (raised_by_loss turn.now.key now) pass.old pass.new) }
{
    let mut held = turn.take(rt, &mut pass.history);
    let told = settle_and_lose(rt, alloc, turn, word, pass, &mut held, now);
    turn.give(&mut pass.history, held);
    told
}

/// Counts what an external address has, in one turn. There is no count where memory was wanting for it.
pub(crate) fn count_behind<D: LeaseDisk + Drop, R: Wait>(
    rt: &R,
    alloc: Global,
    config: &Config,
    turn: &Turn<Shard<D>>,
    word: &EpochWord,
    pass: &mut HousePass<D>,
    now: Moment,
) -> Result<(Option<ShardNumbers>, Told), BookFault>
    requires config { IsConfig config.now }
    requires batch { IsBatchOf turn.now.key config.now [] }
    requires pass { IsPassBehind turn.now word.now pass.old }
    ensures pass { IsPassBehind turn.now word.now pass.new }
    ensures shard { pass.new.shard ≡ pass.old.shard }
    ensures counted { IfOk result (λ counted. ServesHouse turn.now.key D.tells D.seen D.moment
        D.left_since D.may_leave D.faults now [] pass.old pass.new [] counted.1) }
    ensures refused { IfErr result (RefusesHouse turn.now.key D.tells D.seen D.moment D.left_since
        D.may_leave D.faults now
        (λ log. batch_behind turn.now.key log now pass.new.epoch.heard [])
        (raised_behind turn.now.key)
        pass.old pass.new) }
{
    let mut held = turn.take(rt, &mut pass.history);
    let told = settle_and_count(rt, alloc, config, turn, word, pass, &mut held, now);
    turn.give(&mut pass.history, held);
    told
}
