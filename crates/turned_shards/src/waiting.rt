//! Records of a history that wait to be published.
ghost use Rattle.std.specs.Prelude.{◌≡◌, ◌+◌, ◌<◌, ◌≤◌, ◌++◌, ◌∷◌, [], drop, length, max, take};
ghost use Rattle.std.specs.Prelude.{vec_capacity, vec_len};
ghost use Rattle.std.specs.List.{cons_option, filter_map};
ghost use Rattle.turned_shards.specs.BatchEntries.{records_found};
ghost use Rattle.turned_shards.specs.Publishing.{MayPush};

use lane_index::LaneWriter;
use pcp_base::Record;
use shard_book::{Answered, Settled, Standing};
use std::alloc::Global;
use std::slice;

/// A record waits. There is room for it.
pub(crate) fn await_one(waiting: &mut Vec<Record>, kept: &Record)
    requires { vec_len waiting.old < vec_capacity waiting.old }
    ensures items { waiting.new.items ≡ waiting.old.items ++ kept.now ∷ [] }
    ensures capacity { vec_capacity waiting.old ≤ vec_capacity waiting.new }
    ensures len { vec_len waiting.new ≡ vec_len waiting.old + 1 }
{
    if waiting.extend_from_slice(slice::from_ref(kept)).is_err() {
        unreachable!()
    }
}

/// A record waits, if there is one. There is room for it.
fn await_some(waiting: &mut Vec<Record>, kept: &Option<Record>)
    requires { vec_len waiting.old < vec_capacity waiting.old }
    ensures items { waiting.new.items ≡ waiting.old.items ++ cons_option kept.now [] }
    ensures capacity { vec_capacity waiting.old ≤ vec_capacity waiting.new }
    ensures len { vec_len waiting.new ≤ vec_len waiting.old + 1 }
{
    match kept {
        Some(kept) => await_one(waiting, kept),
        None => {}
    }
}

/// The records that were kept of a batch wait. There is room for one of each answer.
pub(crate) fn await_kept(waiting: &mut Vec<Record>, answers: &[Answered])
    requires { vec_len waiting.old + length answers.now ≤ vec_capacity waiting.old }
    ensures { waiting.new.items ≡ waiting.old.items ++ filter_map (λ a. a.kept) answers.now }
{
    for answered in answers {
        await_some(waiting, &answered.kept);
    }
}

/// The records that a settling found or made wait. There is room for them. The others are those of
/// which the book wasn't sure.
pub(crate) fn await_found(waiting: &mut Vec<Record>, settled: &Settled, unsure: Vec<Record>)
    requires { vec_len waiting.old + max 2 (vec_len unsure) ≤ vec_capacity waiting.old }
    ensures { waiting.new.items ≡ waiting.old.items
        ++ records_found unsure.items settled.now.address settled.now.journal }
{
    match &settled.journal {
        Standing::Clean => {}
        Standing::In => await_all(waiting, unsure),
        Standing::Out => {}
        Standing::Fresh(begins) => {
            await_one(waiting, begins);
            await_some(waiting, &settled.address);
        }
    }
}

/// All these records wait. There is room for them.
fn await_all(waiting: &mut Vec<Record>, mut records: Vec<Record>)
    requires { vec_len waiting.old + vec_len records ≤ vec_capacity waiting.old }
    ensures { waiting.new.items ≡ waiting.old.items ++ records.items }
{
    if waiting.append(&mut records).is_err() {
        unreachable!()
    }
}

/// Pushes the records to the writer of a lane, in order, and says how many: all of them, or those
/// before the one for which no memory was found.
pub(crate) fn push_each(alloc: Global, writer: &mut LaneWriter, records: &[Record]) -> usize
    requires { MayPush writer.old records.now }
    ensures few { result ≤ length records.now }
    ensures pushed { writer.new
        ≡ record writer.old { pending = writer.old.pending ++ take result records.now } }
{
    let mut count = 0;
    for kept in records {
        if writer.push(alloc, kept).is_err() {
            return count;
        }
        count += 1;
    }
    count
}

/// Takes the first records out, so many.
pub(crate) fn drop_first(waiting: &mut Vec<Record>, count: usize)
    requires { count ≤ vec_len waiting.old }
    ensures { waiting.new.items ≡ drop count waiting.old.items }
{
    let left = waiting.len() - count;
    waiting.rotate_left(count);
    waiting.truncate(left);
}
