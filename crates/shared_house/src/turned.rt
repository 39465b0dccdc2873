//! Books that are put behind turns one after the other.
ghost use Rattle.std.specs.Prelude.{◌≡◌, ◌≤◌, ◌<◌, ◌+◌, ℕ, [], ◌∷◌, length, map, vec_capacity};
ghost use Rattle.std.specs.Prelude.{IfOk, IfErr, OnOk, OnErr};
ghost use Rattle.pcp_base.specs.declared.configs.TheConstants.{MOST_EXTERNALS};
ghost use Rattle.shared_house.specs.Beginnings.{BeginAll, ComeBack};
ghost use Rattle.shared_house.specs.Turned.{AddsOne, AllMayBegin, AreUnshared, HasRoomFor};
ghost use Rattle.shared_house.specs.Turned.{TakesApart};
ghost use Rattle.turned_shards.specs.Turnings.{MayBegin};

use epoch_word::EpochSeat;
use lane_index::Lane;
use lease_disk::{DiskPair, LeaseDisk};
use lease_house::hand_back;
use pcp_base::{Config, Memory};
use shard_book::Book;
use std::alloc::Global;
use std::sync::Wait;
use turn_lock::Turn;
use turned_shards::{HousePass, Shard, Unturned, turn_of, untake};

/// External addresses whose books stand behind turns, in order, with their first passes and lanes.
pub(crate) struct Turned<D: LeaseDisk> {
    pub turns: Vec<Turn<Shard<D>>>,
    pub passes: Vec<HousePass<D>>,
    pub lanes: Vec<Lane>,
}

/// None so far, with room for so many.
fn none_turned<D: LeaseDisk>(alloc: Global, count: usize) -> Result<Turned<D>, Memory>
    ensures turns { IfOk result (λ made. made.turns.items ≡ []) }
    ensures passes { IfOk result (λ made. made.passes.items ≡ []) }
    ensures lanes { IfOk result (λ made. made.lanes.items ≡ []) }
    ensures room { IfOk result (HasRoomFor count) }
{
    let lanes = Vec::with_capacity(alloc, count)?;
    let passes = Vec::with_capacity(alloc, count)?;
    match Vec::with_capacity(alloc, count) {
        Ok(turns) => Ok(Turned {
            turns,
            passes,
            lanes,
        }),
        Err(_) => {
            passes.destroy_empty();
            Err(Memory)
        }
    }
}

/// Puts one more book behind a turn. Without memory it comes back.
fn turn_next<D: LeaseDisk + Drop, R: Wait>(
    rt: &R,
    alloc: Global,
    config: &Config,
    made: &mut Turned<D>,
    book: Book<D>,
    epoch: EpochSeat,
    place: u32,
) -> Result<(), Unturned<D>>
    requires book { MayBegin D.tells D.seen D.may_leave config.now place book }
    requires room { HasRoomFor 1 made.old }
    ensures added { OnOk result (AddsOne config.now place book epoch made.old made.new) }
    ensures room { OnOk result ((n : ℕ) → HasRoomFor (n + 1) made.old → HasRoomFor n made.new) }
    ensures back { IfErr result (λ refused. refused.book ≡ book) }
    ensures same { OnErr result (made.new ≡ made.old) }
{
    match turn_of(rt, alloc, config, place, book) {
        Ok((turn, history, lane)) => {
            made.turns.push_reserved(turn);
            made.passes.push_reserved(HousePass {
                shard: place,
                history,
                epoch,
            });
            made.lanes.push_reserved(lane);
            Ok(())
        }
        Err(refused) => Err(refused),
    }
}

/// Puts a book before others. There is room for it.
fn put_book<D: LeaseDisk + Drop>(books: &mut Vec<Book<D>>, book: Book<D>)
    requires { length books.old.items < vec_capacity books.old }
    ensures items { books.new.items ≡ book ∷ books.old.items }
    ensures capacity { vec_capacity books.new ≡ vec_capacity books.old }
{
    if books.insert(0, book).is_err() {
        unreachable!()
    }
}

/// Takes the books out of turns that nobody shares. They come before the others, in the vector that
/// has those.
fn take_apart<D: LeaseDisk + Drop, R: Wait>(rt: &R, made: Turned<D>, books: &mut Vec<Book<D>>)
    requires unshared { AreUnshared made.turns.items made.passes.items }
    requires room { length made.turns.items + length books.old.items ≤ vec_capacity books.old }
    ensures { TakesApart D.tells D.moment D.left_since D.may_leave D.faults made.turns.items
        books.old.items books.new.items }
{
    let Turned {
        turns,
        passes,
        lanes: _lanes,
    } = made;
    let mut turns = turns;
    let mut passes = passes;
    for _ in 0..turns.len() {
        let turn = turns.pop().unwrap();
        let HousePass {
            shard: _,
            history,
            epoch: _epoch,
        } = passes.pop().unwrap();
        put_book(books, untake(rt, turn, history));
    }
    turns.destroy_empty();
    passes.destroy_empty();
}

/// Puts each book behind a turn, in order, with a seat of its own. Without memory all pairs come
/// back, before the spare ones, in the vector that has those.
pub(crate) fn turn_all<D: LeaseDisk + Drop, R: Wait>(
    rt: &R,
    alloc: Global,
    config: &Config,
    books: Vec<Book<D>>,
    spare: Vec<DiskPair<D>>,
    seats: Vec<EpochSeat>,
) -> Result<(Turned<D>, Vec<DiskPair<D>>), Vec<DiskPair<D>>>
    requires books { AllMayBegin D.tells D.seen D.may_leave config.now 0 books.items }
    requires few { length books.items ≤ MOST_EXTERNALS }
    requires seats { length seats.items ≡ length books.items }
    requires room { length books.items + length spare.items ≤ vec_capacity spare }
    ensures begun { IfOk result (λ made. BeginAll config.now 0 books.items
        made.0.turns.items made.0.passes.items made.0.lanes.items) }
    ensures seats { IfOk result
        (λ made. map (λ p. p.epoch) made.0.passes.items ≡ seats.items) }
    ensures spare { IfOk result (λ made. made.1 ≡ spare) }
    ensures back { IfErr result (λ pairs. ComeBack D.tells D.moment D.left_since D.may_leave
        D.faults books.items spare.items pairs.items) }
{
    let mut books = books;
    let mut seats = seats;
    let count = books.len();
    let mut made = match none_turned(alloc, count) {
        Ok(made) => made,
        Err(_) => return Err(hand_back(books, spare)),
    };
    for place in 0..count as u32 {
        let book = books.remove(0);
        let seat = seats.remove(0);
        let next = turn_next(rt, alloc, config, &mut made, book, seat, place);
        if let Err(refused) = next {
            put_book(&mut books, refused.book);
            take_apart(rt, made, &mut books);
            return Err(hand_back(books, spare));
        }
    }
    Ok((made, spare))
}
