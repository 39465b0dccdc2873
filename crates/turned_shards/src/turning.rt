//! Putting a book behind a turn, and taking it out.
ghost use Rattle.std.specs.Prelude.{◌≡◌, ◌-◌, ◌^◌, ◌<◌, [], length, false, None, IfOk, IfErr};
ghost use Rattle.pcp_base.specs.Configs.{IsConfig};
ghost use Rattle.lane_index.specs.Lanes.{lane_of};
ghost use Rattle.turn_lock.specs.Passes.{new_pass};
ghost use Rattle.turned_shards.specs.Turnings.{EndsOne, KnowsFirst, MayBegin, StandsStill};
ghost use Rattle.turned_shards.specs.Turnings.{first_lane, first_leases, first_writer, opening_of};

use crate::openings::Opening;
use crate::passes::HousePass;
use crate::shards::Shard;
use ghost_notes::{GhostList, GhostValue};
use lane_index::{Lane, LaneWriter, lane};
use lease_disk::{DiskPair, LeaseDisk};
use lease_histories::{histories_grow, legal_histories_keep_promises};
use lease_house::address_at;
use pcp_base::{Config, Entry, External, Memory};
use shard_book::Book;
use std::alloc::{AllocError, Global};
use std::sync::Wait;
use turn_lock::{Pass, Turn, Unmade};

/// No memory was found. The book comes back.
#[derive(Drop)]
pub struct Unturned<D: LeaseDisk> {
    pub book: Book<D>,
}

/// A lane with the leases of a book that was just opened, and its writer.
fn lane_over<D: LeaseDisk + Drop, R: Wait>(
    rt: &R,
    alloc: Global,
    external: &External,
    book: &Book<D>,
) -> Result<(LaneWriter, Lane), Memory>
    requires { book.now.fault ≡ None }
    ensures writer { IfOk result (λ made. made.0 ≡ first_writer made.1 book.now) }
    ensures lane { IfOk result (λ made. made.1 ≡ first_lane made.0 book.now) }
{
    let core = book.core();
    let last = core.last();
    let maps = core.maps(alloc, last)?;
    let peers = core.peers(alloc, last)?;
    lane(rt, alloc, external, &maps, &peers, last)
}

/// What of a shard takes memory, but for its book and its lane.
#[derive(Drop)]
struct Parts<D: LeaseDisk> {
    opening: Opening<D>,
    added: GhostList<Entry>,
    doubt: GhostList<Entry>,
}

/// What the history of the external address at this place begins with, and lists without entries.
fn parts_of<D: LeaseDisk + Drop>(
    alloc: Global,
    config: &Config,
    place: u32,
    book: &Book<D>,
    lane: &Lane,
) -> Result<Parts<D>, AllocError>
    ensures opening { IfOk result
        (λ parts. parts.opening ≡ opening_of config.now place book.now lane.now) }
    ensures added { IfOk result (λ parts. parts.added ≡ []) }
    ensures doubt { IfOk result (λ parts. parts.doubt ≡ []) }
{
    let config = GhostValue::of(alloc, config)?;
    let book = GhostValue::of(alloc, book)?;
    let lane = GhostValue::of(alloc, lane)?;
    let added = GhostList::<Entry>::none(alloc)?;
    let doubt = GhostList::<Entry>::none(alloc)?;
    Ok(Parts {
        opening: Opening {
            config,
            place,
            book,
            lane,
        },
        added,
        doubt,
    })
}

/// Ends the writer of a shard's lane, and hands the book out.
fn book_of<D: LeaseDisk + Drop, R: Wait>(rt: &R, shard: Shard<D>) -> Book<D>
    ensures { result ≡ shard.book }
{
    let Shard {
        address: _,
        book,
        moment: _,
        base: _,
        added: _added,
        doubt: _doubt,
        doubt_moment: _,
        doubt_base: _,
        writer,
        unpushed: _unpushed,
    } = shard;
    writer.end(rt);
    book
}

/// A book that was just opened for the external address at this place, behind a turn, with the
/// first pass and the lane of its leases. Without memory the book comes back as it is.
pub fn turn_of<D: LeaseDisk + Drop, R: Wait>(
    rt: &R,
    alloc: Global,
    config: &Config,
    place: u32,
    book: Book<D>,
) -> Result<(Turn<Shard<D>>, Pass<Shard<D>>, Lane), Unturned<D>>
    requires { MayBegin D.tells D.seen D.may_leave config.now place book }
    ensures key { IfOk result (λ made. made.0.key ≡ opening_of config.now place book made.2) }
    ensures pass { IfOk result (λ made. made.1 ≡ new_pass made.0.id (2 ^ 64 - 1) [] []) }
    ensures lane { IfOk result (λ made. made.2 ≡ lane_of made.2.index (first_leases book) []) }
    ensures back { IfErr result (λ refused. refused.book ≡ book) }
{
    histories_grow();
    let address = address_at(config, place);
    let external = &config.externals.items()[place as usize];
    let (writer, lane) = match lane_over(rt, alloc, external, &book) {
        Ok(made) => made,
        Err(_) => return Err(Unturned { book }),
    };
    let parts = match parts_of(alloc, config, place, &book, &lane) {
        Ok(parts) => parts,
        Err(_) => {
            writer.end(rt);
            return Err(Unturned { book });
        }
    };
    let Parts {
        opening,
        added,
        doubt,
    } = parts;
    let shard = Shard::of(alloc, address, book, writer, added, doubt);
    match Turn::new(alloc, shard, &opening) {
        Ok((turn, pass)) => Ok((turn, pass, lane)),
        Err(refused) => {
            let Unmade { value } = refused;
            Err(Unturned {
                book: book_of(rt, value),
            })
        }
    }
}

/// Takes a book out of a turn that nobody shares, and in which nothing was noted: it is as it was
/// opened, but for what its disks counted. The lane is ended, which waits for a lookup that still
/// has a copy of its index.
pub fn untake<D: LeaseDisk + Drop, R: Wait>(
    rt: &R,
    turn: Turn<Shard<D>>,
    pass: Pass<Shard<D>>,
) -> Book<D>
    requires pass { pass ≡ new_pass turn.id (2 ^ 64 - 1) [] [] }
    ensures { StandsStill D.tells D.moment D.left_since D.may_leave D.faults turn.key.book result }
{
    book_of(rt, turn.into_value(pass))
}

/// Ends a turn whose value was taken for good. There is nothing behind it.
fn leave<D: LeaseDisk + Drop, R: Wait>(rt: &R, turn: Turn<Shard<D>>) {
    match turn.into_slot() {
        None => {}
        Some(shard) => drop(shard.close(rt)),
    }
}

/// Takes the turn for good, and hands the pair out. The pass has then seen the whole history, of
/// whose records the lane knows some first ones.
pub fn end_one<D: LeaseDisk + Drop, R: Wait>(
    rt: &R,
    turn: Turn<Shard<D>>,
    pass: &mut HousePass<D>,
    lane: &Lane,
) -> DiskPair<D>
    requires turn { pass.old.history.turn ≡ turn.id }
    requires home { pass.old.history.out ≡ false }
    requires lane { lane.now.index ≡ turn.key.lane.index }
    ensures ended { EndsOne D.tells D.seen D.moment D.left_since D.may_leave D.faults turn.key
        pass.old pass.new result }
    ensures lane { KnowsFirst turn.key pass.new.history.seen lane.now }
{
    legal_histories_keep_promises();
    let held = turn.take(rt, &mut pass.history);
    leave(rt, turn);
    let shard = held.keep();
    shard.writer.meet(rt, lane);
    shard.close(rt)
}
