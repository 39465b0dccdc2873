//! The workers of all external addresses, each in a thread of its own where one can be made.
ghost use Rattle.std.specs.Prelude.{◌≡◌, ◌<◌, length, map};
ghost use Rattle.std.specs.Thread.{IsSend, IsSync};
ghost use Rattle.job_workers.specs.Stations.{AllWorked, AreStations, OutState, stations};

use crate::houses::JobHouse;
use crate::work_loop::work;
use crate::workers::Desk;
use crossbeam_utils::sync::Parker;
use job_queue::JobQueue;
use pcp_io::{Clock, Gate, Outbox};
use status_board::Board;
use std::alloc::Global;
use std::sync::Wait;
use std::sync::atomic::{AtomicBool, AtomicU32, Ordering};
use std::thread::{Threads, join_mut};

/// The first worker, which counts that it is here.
fn work_first<R: Wait, O: Outbox, T: Clock, G: Gate, P, H: JobHouse<P>>(
    rt: &R,
    alloc: Global,
    house: &H,
    gate: &G,
    board: &Board,
    ended: &AtomicBool,
    here: &AtomicU32,
    queues: &[JobQueue],
    desks: &mut [Desk<P>],
    outs: &mut [O],
    clocks: &mut [T],
)
    requires one { (length desks.old ≡ 1) × (length outs.old ≡ 1) × (length clocks.old ≡ 1) }
    requires desks { AreStations (H.calls house.now) queues.now desks.old }
    ensures { AllWorked (H.calls house.now)
        (stations desks.old (map (λ o. record { sent = O.sent o; faults = O.faults o }) outs.old)
        (map T.times clocks.old))
        (stations desks.new (map (λ o. record { sent = O.sent o; faults = O.faults o }) outs.new)
        (map T.times clocks.new)) }
{
    let _before = here.fetch_add(1, Ordering::SeqCst);
    work(
        rt,
        alloc,
        house,
        gate,
        board,
        ended,
        &queues[0],
        &mut desks[0],
        &mut outs[0],
        &mut clocks[0],
    );
}

/// Has each worker work until the dispatcher has ended and its queue is empty. Each counts first that
/// it is here.
#[cycle(workers)]
pub fn run_workers<
    R: Threads + Wait + Sync,
    O: Outbox + Send,
    T: Clock + Send,
    G: Gate + Sync,
    P: Send,
    H: JobHouse<P> + Sync,
>(
    rt: &R,
    alloc: Global,
    house: &H,
    gate: &G,
    board: &Board,
    ended: &AtomicBool,
    here: &AtomicU32,
    queues: &[JobQueue],
    desks: &mut [Desk<P>],
    outs: &mut [O],
    clocks: &mut [T],
)
    requires outs { length outs.old ≡ length desks.old }
    requires clocks { length clocks.old ≡ length desks.old }
    requires desks { AreStations (H.calls house.now) queues.now desks.old }
    ensures { AllWorked (H.calls house.now)
        (stations desks.old (map (λ o. record { sent = O.sent o; faults = O.faults o }) outs.old)
        (map T.times clocks.old))
        (stations desks.new (map (λ o. record { sent = O.sent o; faults = O.faults o }) outs.new)
        (map T.times clocks.new)) }
{
    if desks.len() == 0 {
        return;
    }
    let (queue, more_queues) = queues.split_at(1);
    let (desk, more_desks) = desks.split_at_mut(1);
    let (out, more_outs) = outs.split_at_mut(1);
    let (clock, more_clocks) = clocks.split_at_mut(1);
    run_both(
        rt,
        alloc,
        house,
        gate,
        board,
        ended,
        here,
        queue,
        desk,
        out,
        clock,
        more_queues,
        more_desks,
        more_outs,
        more_clocks,
    );
}

/// The first worker in a new thread, the others beside it. Where no thread can be made the first
/// works last, in this one.
#[cycle(workers)]
fn run_both<
    R: Threads + Wait + Sync,
    O: Outbox + Send,
    T: Clock + Send,
    G: Gate + Sync,
    P: Send,
    H: JobHouse<P> + Sync,
>(
    rt: &R,
    alloc: Global,
    house: &H,
    gate: &G,
    board: &Board,
    ended: &AtomicBool,
    here: &AtomicU32,
    queue: &[JobQueue],
    desk: &mut [Desk<P>],
    out: &mut [O],
    clock: &mut [T],
    queues: &[JobQueue],
    desks: &mut [Desk<P>],
    outs: &mut [O],
    clocks: &mut [T],
)
    requires one { (length desk.old ≡ 1) × (length out.old ≡ 1) × (length clock.old ≡ 1) }
    requires first { AreStations (H.calls house.now) queue.now desk.old }
    requires outs { length outs.old ≡ length desks.old }
    requires clocks { length clocks.old ≡ length desks.old }
    requires desks { AreStations (H.calls house.now) queues.now desks.old }
    ensures first { AllWorked (H.calls house.now)
        (stations desk.old (map (λ o. record { sent = O.sent o; faults = O.faults o }) out.old)
        (map T.times clock.old))
        (stations desk.new (map (λ o. record { sent = O.sent o; faults = O.faults o }) out.new)
        (map T.times clock.new)) }
    ensures rest { AllWorked (H.calls house.now)
        (stations desks.old (map (λ o. record { sent = O.sent o; faults = O.faults o }) outs.old)
        (map T.times clocks.old))
        (stations desks.new (map (λ o. record { sent = O.sent o; faults = O.faults o }) outs.new)
        (map T.times clocks.new)) }
{
    let mut one = move ||
        requires { IsSync R.row × IsSync G.row × IsSend O.row × IsSend T.row × IsSync H.row
            × IsSend P.row × (length desk.now ≡ 1) × (length out.now ≡ 1) × (length clock.now ≡ 1)
            × AreStations (H.calls house.now) queue.now desk.now }
        ensures { AllWorked (H.calls house.entry.now)
            (stations desk.entry.now
            (map (λ o. record { sent = O.sent o; faults = O.faults o }) out.entry.now)
            (map T.times clock.entry.now))
            (stations desk.exit.now
            (map (λ o. record { sent = O.sent o; faults = O.faults o }) out.exit.now)
            (map T.times clock.exit.now)) }
    {
        work_first(
            rt, alloc, house, gate, board, ended, here, queue, desk, out, clock,
        )
    };
    let mut rest = move ||
        requires { IsSync R.row × IsSync G.row × IsSend O.row × IsSend T.row × IsSync H.row
            × IsSend P.row × (length outs.now ≡ length desks.now)
            × (length clocks.now ≡ length desks.now)
            × AreStations (H.calls house.now) queues.now desks.now }
        ensures { AllWorked (H.calls house.entry.now)
            (stations desks.entry.now
            (map (λ o. record { sent = O.sent o; faults = O.faults o }) outs.entry.now)
            (map T.times clocks.entry.now))
            (stations desks.exit.now
            (map (λ o. record { sent = O.sent o; faults = O.faults o }) outs.exit.now)
            (map T.times clocks.exit.now)) }
    {
        run_workers(
            rt, alloc, house, gate, board, ended, here, queues, desks, outs, clocks,
        )
    };
    join_mut(rt, &mut one, &mut rest);
}
