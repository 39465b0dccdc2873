//! How the writer shows a copy.
ghost use Rattle.std.specs.Prelude.{◌≡◌, ◌++◌, ◌∷◌, [], Some, drop, fold, IfOk};
ghost use Rattle.left_right.specs.Sides.{view};
ghost use Rattle.lane_index.specs.Operations.{absorbed};
ghost use Rattle.lane_index.specs.Replicas.{IsReplica};
ghost use Rattle.lane_index.specs.Shown.{MayBeShown, reached_by};

use crate::history::Reached;
use crate::operations::Operation;
use crate::replicas::Replica;
use crate::shown::{Both, IndexRule, LaneReader, Publishes, Takes};
use left_right::writer::Writer;
use pcp_base::Memory;
use std::alloc::Global;
use std::sync::Wait;

pub(crate) type ShownWriter = Writer<Replica, Operation, Option<Reached>, IndexRule>;

/// Shows a copy that has all that was appended.
pub(crate) fn show<R: Wait>(rt: &R, writer: ShownWriter) -> ShownWriter
    requires { MayBeShown writer.desk.shown.value
        (fold absorbed writer.desk.shown.value (drop writer.behind writer.log.items)) }
    ensures shown { result.desk.shown.value
        ≡ fold absorbed writer.desk.shown.value (drop writer.behind writer.log.items) }
    ensures whole { drop result.behind result.log.items ≡ [] }
    ensures view { view result.desk.place ≡ Some (reached_by result.desk.shown.value) }
{
    let mut writer = writer;
    for _ in rt.forever() {
        let (back, shown) = writer.publish_as::<Publishes, R>(rt);
        writer = back;
        if shown.is_ok() {
            return writer;
        }
    }
    unreachable!()
}

/// Appends an operation, and waits for the memory that it takes.
fn append<R: Wait>(rt: &R, writer: &mut ShownWriter, operation: Operation)
    ensures desk { writer.new.desk ≡ writer.old.desk }
    ensures more { drop writer.new.behind writer.new.log.items
        ≡ drop writer.old.behind writer.old.log.items ++ operation ∷ [] }
{
    let mut operation = operation;
    for _ in rt.forever() {
        match writer.append(operation) {
            Ok(()) => return,
            Err(back) => operation = back,
        }
    }
    unreachable!()
}

/// Appends operations in their order.
pub(crate) fn append_all<R: Wait>(rt: &R, writer: &mut ShownWriter, operations: Vec<Operation>)
    ensures desk { writer.new.desk ≡ writer.old.desk }
    ensures more { drop writer.new.behind writer.new.log.items
        ≡ drop writer.old.behind writer.old.log.items ++ operations.items }
{
    for operation in operations {
        append(rt, writer, operation);
    }
}

/// A writer that shows the first of two equal copies, and a reader that was told of it.
pub(crate) fn tied<R: Wait>(
    rt: &R,
    alloc: Global,
    first: Replica,
    second: Replica,
) -> Result<(ShownWriter, LaneReader), Memory>
    requires alike { first ≡ second }
    requires copy { IsReplica first.seen.book first }
    ensures shown { IfOk result (λ t. t.0.desk.shown.value ≡ first) }
    ensures whole { IfOk result (λ t. drop t.0.behind t.0.log.items ≡ []) }
    ensures reader { IfOk result (λ t. view t.1.place ≡ Some (reached_by first)) }
{
    let Ok(writer) = Writer::new(alloc, first, second, 1) else {
        return Err(Memory);
    };
    let mut writer = show(rt, writer);
    match writer.factory().reader() {
        Ok(mut reader) => {
            reader.learn::<Takes>(writer.tell::<Both>());
            Ok((writer, reader))
        }
        Err(_) => {
            drop(writer.take(rt));
            Err(Memory)
        }
    }
}
