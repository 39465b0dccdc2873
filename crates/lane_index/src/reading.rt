//! How a lane reads the copy that is shown.
ghost use Rattle.std.specs.Prelude.{◌≡◌, IfSome};
ghost use mathlib.Core.List.{IsPrefix};
ghost use Rattle.filter_rules.specs.Lookups.{look};
ghost use Rattle.left_right.specs.Sides.{view};
ghost use Rattle.lane_index.specs.Histories.{state_left};
ghost use Rattle.lane_index.specs.Keeping.{IsSeenSoFar};
ghost use Rattle.lane_index.specs.Shown.{NamesIndex};

use crate::history::SeenHistory;
use crate::senders::Sender;
use crate::shown::{Enters, LaneReader};
use pcp_base::{Endpoint, Moment};
use std::sync::Wait;

/// What was found in a copy, and the history that this had.
#[derive(Drop)]
pub(crate) struct FoundOwner {
    owner: Option<Endpoint>,
    seen: SeenHistory,
    count: u64,
}

/// Looks up in the copy that is shown. None where the writer is gone, or this copy lacks what is
/// known.
fn try_read(
    reader: LaneReader,
    seen: &SeenHistory,
    count: u64,
    sender: &Sender,
    m: Moment,
) -> (LaneReader, Option<FoundOwner>)
    requires told { NamesIndex seen.now.book (view reader.place) }
    requires known { IsSeenSoFar seen.now.log count }
    ensures told { NamesIndex seen.now.book (view result.0.place) }
    ensures book { IfSome result.1 (λ f. f.seen.book ≡ seen.now.book) }
    ensures known { IfSome result.1 (λ f. IsSeenSoFar f.seen.log f.count) }
    ensures more { IfSome result.1 (λ f. IsPrefix seen.now.log f.seen.log) }
    ensures owner { IfSome result.1 (λ f. f.owner ≡ look (state_left f.seen.log)
        sender.now.protocol sender.now.port sender.now.remote sender.now.remote_port m) }
{
    let reading = match reader.enter_as::<Enters>() {
        Ok(reading) => reading,
        Err(reader) => return (reader, None),
    };
    let copy = reading.get();
    let owner = copy.look(sender, m);
    let mut both = seen.again();
    both.learn(&copy.seen);
    let (shown, length) = (copy.seen.again(), copy.count);
    let reader = reading.leave();
    if length < count {
        return (reader, None);
    }
    let found = FoundOwner {
        owner,
        seen: shown,
        count: length,
    };
    (reader, Some(found))
}

/// Looks up in the copy that is shown, once it has all that is known, and knows what it has.
pub(crate) fn read<R: Wait>(
    rt: &R,
    reader: LaneReader,
    seen: &mut SeenHistory,
    count: &mut u64,
    sender: &Sender,
    m: Moment,
) -> (LaneReader, Option<Endpoint>)
    requires told { NamesIndex seen.old.book (view reader.place) }
    requires known { IsSeenSoFar seen.old.log count.old }
    ensures told { NamesIndex seen.new.book (view result.0.place) }
    ensures known { IsSeenSoFar seen.new.log count.new }
    ensures book { seen.new.book ≡ seen.old.book }
    ensures more { IsPrefix seen.old.log seen.new.log }
    ensures owner { result.1 ≡ look (state_left seen.new.log) sender.now.protocol sender.now.port
        sender.now.remote sender.now.remote_port m }
{
    let mut reader = reader;
    for _ in rt.forever() {
        let (back, found) = try_read(reader, seen, *count, sender, m);
        reader = back;
        if let Some(found) = found {
            *seen = found.seen;
            *count = found.count;
            return (reader, found.owner);
        }
    }
    unreachable!()
}
