//! A worker's loop: until the dispatcher has ended, and then until its queue is empty.
ghost use Rattle.std.specs.Prelude.{◌≡◌, []};
ghost use Rattle.job_queue.specs.Queues.{MayBeEmpty};
ghost use Rattle.job_workers.specs.Gatherings.{HasWorked, IsDesk};

use crate::houses::JobHouse;
use crate::pauses::Pause;
use crate::workers::{Desk, do_round};
use crossbeam_utils::sync::Parker;
use job_queue::JobQueue;
use pcp_io::{Clock, Gate, Outbox};
use status_board::Board;
use std::alloc::Global;
use std::sync::Wait;
use std::sync::atomic::{AtomicBool, Ordering};

/// Whether a worker that found its queue as this is to end. It sleeps where it has nothing to do.
fn is_over<R: Wait>(rt: &R, parker: &Parker, dry: bool, over: bool) -> bool {
    if !dry {
        return false;
    }
    if over {
        return true;
    }
    parker.park(rt);
    false
}

/// Works until the dispatcher has ended and the queue is empty. Behind a call in which a disk failed it
/// waits, so that a disk that keeps failing isn't read all the time.
pub fn work<R: Wait, O: Outbox, T: Clock, G: Gate, P, H: JobHouse<P>>(
    rt: &R,
    alloc: Global,
    house: &H,
    gate: &G,
    board: &Board,
    ended: &AtomicBool,
    queue: &JobQueue,
    desk: &mut Desk<P>,
    out: &mut O,
    clock: &mut T,
)
    requires desk { IsDesk (H.calls house.now) queue.now desk.old.pass desk.old.taker }
    requires batch { desk.old.batch ≡ [] }
    ensures works { HasWorked (H.calls house.now)
        (record {
          pass = desk.old.pass;
          row = desk.old.row;
          sent = O.sent out.old;
          faults = O.faults out.old;
          times = T.times clock.old;
        })
        (record {
          pass = desk.new.pass;
          row = desk.new.row;
          sent = O.sent out.new;
          faults = O.faults out.new;
          times = T.times clock.new;
        })
        desk.old.taker desk.new.taker }
    ensures batch { desk.new.batch ≡ [] }
{
    let mut pause = Pause::new();
    for _ in rt.forever() {
        let over = ended.load(Ordering::SeqCst);
        let dry = do_round(
            rt, alloc, house, gate, board, queue, desk, out, clock, &mut pause,
        );
        pause.wait(ended);
        if is_over(rt, &desk.parker, dry, over) {
            return;
        }
    }
    unreachable!()
}

/// Does what is left in the queue. Where both ends have met, all that was put is then taken.
pub fn work_off<R: Wait, O: Outbox, T: Clock, G: Gate, P, H: JobHouse<P>>(
    rt: &R,
    alloc: Global,
    house: &H,
    gate: &G,
    board: &Board,
    queue: &JobQueue,
    desk: &mut Desk<P>,
    out: &mut O,
    clock: &mut T,
)
    requires desk { IsDesk (H.calls house.now) queue.now desk.old.pass desk.old.taker }
    requires batch { desk.old.batch ≡ [] }
    ensures works { HasWorked (H.calls house.now)
        (record {
          pass = desk.old.pass;
          row = desk.old.row;
          sent = O.sent out.old;
          faults = O.faults out.old;
          times = T.times clock.old;
        })
        (record {
          pass = desk.new.pass;
          row = desk.new.row;
          sent = O.sent out.new;
          faults = O.faults out.new;
          times = T.times clock.new;
        })
        desk.old.taker desk.new.taker }
    ensures all { MayBeEmpty desk.new.taker }
    ensures batch { desk.new.batch ≡ [] }
{
    let mut pause = Pause::new();
    for _ in rt.forever() {
        if do_round(
            rt, alloc, house, gate, board, queue, desk, out, clock, &mut pause,
        ) {
            return;
        }
    }
    unreachable!()
}
