//! What is done once all threads have ended.
ghost use Rattle.std.specs.Prelude.{◌≡◌, [], ◌+◌, ◌≤◌, length, map, vec_capacity, vec_len};
ghost use Rattle.request_workers.specs.Parts.{outs_told};
ghost use Rattle.request_workers.specs.Seats.{AreLeft, FinishesAll};

use crate::seats::take_first;
use job_dispatch::Port;
use job_queue::JobQueue;
use job_workers::{Desk, JobHouse, TallyRow, finish};
use pcp_io::{Clock, Gate, Outbox};
use status_board::Board;
use std::alloc::Global;
use std::sync::Wait;

/// What is left of the jobs of each external address is done. The passes and the rows are added, in
/// order.
pub fn finish_all<R: Wait, O: Outbox, T: Clock, G: Gate, P, H: JobHouse<P>>(
    rt: &R,
    alloc: Global,
    house: &H,
    gate: &G,
    board: &Board,
    queues: &[JobQueue],
    desks: &mut Vec<Desk<P>>,
    ports: &mut Vec<Port>,
    outs: &mut [O],
    clocks: &mut [T],
    passes: &mut Vec<P>,
    rows: &mut Vec<TallyRow>,
)
    requires left { AreLeft (H.calls house.now) queues.now desks.old.items ports.old.items }
    requires outs { length outs.old ≡ length queues.now }
    requires clocks { length clocks.old ≡ length queues.now }
    requires passes { vec_len passes.old + length queues.now ≤ vec_capacity passes.old }
    requires rows { vec_len rows.old + length queues.now ≤ vec_capacity rows.old }
    ensures done { FinishesAll (H.calls house.now) desks.old.items ports.old.items
        (outs_told O.sent O.faults outs.old)
        (outs_told O.sent O.faults outs.new)
        (map T.times clocks.old) (map T.times clocks.new)
        passes.old.items passes.new.items rows.old.items rows.new.items }
    ensures empty { desks.new.items ≡ [] }
{
    let Some((queue, queues)) = queues.split_first() else {
        return;
    };
    let Some((out, outs)) = outs.split_first_mut() else {
        return;
    };
    let Some((clock, clocks)) = clocks.split_first_mut() else {
        return;
    };
    let Port { putter, row, .. } = take_first(ports);
    let desk = take_first(desks);
    let done = finish(
        rt, alloc, house, gate, board, queue, putter, desk, out, clock,
    );
    let Desk {
        shard: _,
        pass,
        taker: _taker,
        row: worked,
        batch: _batch,
        parker: _parker,
    } = done;
    rows.push_reserved(worked.joined(&row));
    passes.push_reserved(pass);
    finish_all(
        rt, alloc, house, gate, board, queues, desks, ports, outs, clocks, passes, rows,
    );
}
