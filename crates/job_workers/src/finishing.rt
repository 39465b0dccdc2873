//! What is left of a worker's jobs once its thread has ended.
ghost use Rattle.std.specs.Prelude.{◌≡◌, []};
ghost use Rattle.job_workers.specs.Gatherings.{Finishes, IsDesk};

use crate::houses::JobHouse;
use crate::work_loop::work_off;
use crate::workers::Desk;
use job_queue::{JobQueue, Putter};
use pcp_io::{Clock, Gate, Outbox};
use status_board::Board;
use std::alloc::Global;
use std::sync::Wait;

/// Both ends of the queue meet, and what is left is done: then all that was put was taken.
pub fn finish<R: Wait, O: Outbox, T: Clock, G: Gate, P, H: JobHouse<P>>(
    rt: &R,
    alloc: Global,
    house: &H,
    gate: &G,
    board: &Board,
    queue: &JobQueue,
    putter: Putter,
    desk: Desk<P>,
    out: &mut O,
    clock: &mut T,
) -> Desk<P>
    requires putter { putter.queue ≡ queue.now }
    requires route { putter.route ≡ desk.taker.route }
    requires desk { IsDesk (H.calls house.now) queue.now desk.pass desk.taker }
    requires batch { desk.batch ≡ [] }
    ensures { Finishes (H.calls house.now)
        (record {
          pass = desk.pass;
          row = desk.row;
          sent = O.sent out.old;
          faults = O.faults out.old;
          times = T.times clock.old;
        })
        (record {
          pass = result.pass;
          row = result.row;
          sent = O.sent out.new;
          faults = O.faults out.new;
          times = T.times clock.new;
        })
        desk.taker.taken putter.put }
{
    let Desk {
        shard,
        pass,
        taker,
        row,
        batch,
        parker,
    } = desk;
    let mut whole = Desk {
        shard,
        pass,
        taker: queue.meet(putter, taker),
        row,
        batch,
        parker,
    };
    work_off(rt, alloc, house, gate, board, queue, &mut whole, out, clock);
    whole
}
