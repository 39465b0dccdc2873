//! The worker of an external address.
ghost use Rattle.std.specs.Prelude.{◌≡◌, ℕ, ◌/◌, ◌<◌, ◌≤◌, ◌++◌, ◌∷◌, List, [], length, map, Option, IfNone, IfSome, IsTrue};
ghost use Rattle.std.specs.List.{AllByRecursion};
ghost use Rattle.pcp_base.specs.declared.datagrams.Datagram.{Datagram};
ghost use Rattle.pcp_io.specs.declared.clocks.TheConstants.{END_OF_TIME_MS};
ghost use Rattle.lease_histories.specs.Routes.{route_of};
ghost use Rattle.job_queue.specs.declared.batches.TheConstants.{MOST_BATCH};
ghost use Rattle.job_queue.specs.Queues.{IsJobFor, MayBeEmpty};
ghost use Rattle.job_workers.specs.Works.{AnswersBatch, Counts, LosesAll, Works};
ghost use Rattle.job_workers.specs.Gatherings.{Gathers, HasWorked, IsDesk, behind};

use crate::houses::JobHouse;
use crate::outcomes::{CallEnd, Outcome, leave_count, leave_end, leave_numbers};
use crate::pauses::Pause;
use crate::sends::send_all;
use crate::tallies::{Sends, TallyRow};
use crossbeam_utils::sync::Parker;
use job_queue::{Batch, Job, JobQueue, MOST_BATCH, Taker};
use lane_loops::moment_of;
use pcp_base::Datagram;
use pcp_io::{Clock, Gate, Outbox};
use status_board::{Board, ShardNumbers};
use std::alloc::Global;
use std::sync::Wait;

/// What comes behind the datagrams of a batch.
#[derive(Clone, Copy, Debug, PartialEq, Eq)]
pub enum Next {
    /// The batch is full.
    More,
    /// All leases are to be lost.
    Loss,
    /// The queue was empty.
    Dry,
}

/// What a worker has of its own.
pub struct Desk<P> {
    pub shard: u32,
    pub pass: P,
    pub taker: Taker,
    pub row: TallyRow,
    pub batch: Batch,
    /// where it sleeps
    pub parker: Parker,
}

impl<P> Desk<P> {
    ghost use Rattle.job_workers.specs.Tallies.{no_jobs};

    /// A desk at which nothing was done.
    pub fn new(shard: u32, pass: P, taker: Taker, batch: Batch, parker: Parker) -> Desk<P>
        ensures { (result.shard ≡ shard) × (result.pass ≡ pass) × (result.taker ≡ taker)
            × (result.row ≡ no_jobs) × (result.batch ≡ batch) }
    {
        Desk {
            shard,
            pass,
            taker,
            row: TallyRow::new(),
            batch,
            parker,
        }
    }
}

/// Takes the first job. What was put before, nobody tells a worker but the queue.
fn take_job<R: Wait>(rt: &R, queue: &JobQueue, taker: &mut Taker) -> Option<Job>
    requires { taker.old.queue ≡ queue.now }
    ensures taken { IfSome result (λ job.
        (taker.new ≡ record taker.old { taken = taker.old.taken ++ job ∷ [] })
        × IsJobFor taker.old.route job) }
    ensures none { IfNone result ((taker.new ≡ taker.old) × MayBeEmpty taker.old) }
{
    let news = queue.news_of_taken(taker);
    queue.take(rt, taker, news)
}

/// Takes datagrams up to a full batch, a loss, or the end of what the queue holds.
fn gather<R: Wait>(rt: &R, queue: &JobQueue, taker: &mut Taker, batch: &mut Batch) -> Next
    requires queue { taker.old.queue ≡ queue.now }
    requires batch { batch.old ≡ [] }
    ensures { Gathers taker.old taker.new batch.new result }
{
    while batch.len() < MOST_BATCH {
        let Some(job) = take_job(rt, queue, taker) else {
            return Next::Dry;
        };
        match job {
            Job::Packet(datagram) => batch.push(datagram),
            Job::Lose => return Next::Loss,
        }
    }
    Next::More
}

/// Has a batch answered and hands on its replies. After a fault of the house there are none.
fn answer_batch<R: Wait, O: Outbox, T: Clock, P, H: JobHouse<P>>(
    rt: &R,
    alloc: Global,
    house: &H,
    pass: &mut P,
    batch: &[Datagram],
    row: &mut TallyRow,
    out: &mut O,
    clock: &mut T,
) -> CallEnd
    requires pass { (H.calls house.now).is_pass pass.old }
    requires most { length batch.now ≤ MOST_BATCH }
    requires routed { AllByRecursion
        (λ d. route_of (H.calls house.now).config d
        ≡ (H.calls house.now).place_of pass.old) batch.now }
    ensures { AnswersBatch (H.calls house.now) batch.now
        (record {
          pass = pass.old;
          row = row.old;
          sent = O.sent out.old;
          faults = O.faults out.old;
          times = T.times clock.old;
        })
        (record {
          pass = pass.new;
          row = row.new;
          sent = O.sent out.new;
          faults = O.faults out.new;
          times = T.times clock.new;
        }) }
{
    let now = moment_of(clock.now());
    let jobs = batch.len();
    let replies = match house.serve(rt, alloc, pass, batch, now) {
        Ok(replies) => replies,
        Err(fault) => {
            row.count_refused(jobs as u64, fault);
            return CallEnd {
                moment: now,
                outcome: Outcome::of(fault),
            };
        }
    };
    let sends = send_all(out, &replies);
    let silent = jobs.saturating_sub(replies.len());
    row.count_replied(jobs as u64, silent as u64, sends);
    CallEnd {
        moment: now,
        outcome: Outcome::Fine,
    }
}

/// Has all leases lost.
fn lose_all<R: Wait, T: Clock, P, H: JobHouse<P>>(
    rt: &R,
    alloc: Global,
    house: &H,
    pass: &mut P,
    row: &mut TallyRow,
    clock: &mut T,
) -> CallEnd
    requires { (H.calls house.now).is_pass pass.old }
    ensures { LosesAll (H.calls house.now) pass.old pass.new row.old row.new
        (T.times clock.old) (T.times clock.new) }
{
    let now = moment_of(clock.now());
    match house.lose(rt, alloc, pass, now) {
        Ok(_lost) => {
            row.count_lost();
            CallEnd {
                moment: now,
                outcome: Outcome::Fine,
            }
        }
        Err(fault) => {
            row.count_refused(1, fault);
            CallEnd {
                moment: now,
                outcome: Outcome::of(fault),
            }
        }
    }
}

/// Has the house count what the external address has. It is a call without a job.
fn count_all<R: Wait, T: Clock, P, H: JobHouse<P>>(
    rt: &R,
    alloc: Global,
    house: &H,
    pass: &mut P,
    row: &mut TallyRow,
    clock: &mut T,
) -> (CallEnd, Option<ShardNumbers>)
    requires { (H.calls house.now).is_pass pass.old }
    ensures { Counts (H.calls house.now) pass.old pass.new row.old row.new
        (T.times clock.old) (T.times clock.new) }
{
    let now = moment_of(clock.now());
    match house.count(rt, alloc, pass, now) {
        Ok(numbers) => {
            row.count_replied(0, 0, Sends { sent: 0, failed: 0 });
            let end = CallEnd {
                moment: now,
                outcome: Outcome::Fine,
            };
            (end, numbers)
        }
        Err(fault) => {
            row.count_refused(0, fault);
            let end = CallEnd {
                moment: now,
                outcome: Outcome::of(fault),
            };
            (end, None)
        }
    }
}

/// Has the batch of a desk answered, where it isn't empty.
fn do_batch<R: Wait, O: Outbox, T: Clock, G: Gate, P, H: JobHouse<P>>(
    rt: &R,
    alloc: Global,
    house: &H,
    gate: &G,
    board: &Board,
    desk: &mut Desk<P>,
    out: &mut O,
    clock: &mut T,
) -> Outcome
    requires pass { (H.calls house.now).is_pass desk.old.pass }
    requires routed { AllByRecursion
        (λ d. route_of (H.calls house.now).config d
        ≡ (H.calls house.now).place_of desk.old.pass) desk.old.batch }
    ensures works { Works (H.calls house.now) (map Job.Packet desk.old.batch)
        (record {
          pass = desk.old.pass;
          row = desk.old.row;
          sent = O.sent out.old;
          faults = O.faults out.old;
          times = T.times clock.old;
        })
        (record {
          pass = desk.new.pass;
          row = desk.new.row;
          sent = O.sent out.new;
          faults = O.faults out.new;
          times = T.times clock.new;
        }) }
    ensures taker { desk.new.taker ≡ desk.old.taker }
    ensures batch { desk.new.batch ≡ [] }
{
    if desk.batch.len() == 0 {
        return Outcome::Idle;
    }
    gate.pause(desk.shard);
    let Desk {
        shard,
        pass,
        row,
        batch,
        ..
    } = desk;
    let end = answer_batch(rt, alloc, house, pass, batch.items(), row, out, clock);
    batch.clear();
    leave_end(board, *shard, row, end)
}

/// Has all leases lost, where that comes behind the batch.
fn do_loss<R: Wait, T: Clock, G: Gate, P, H: JobHouse<P>>(
    rt: &R,
    alloc: Global,
    house: &H,
    gate: &G,
    board: &Board,
    desk: &mut Desk<P>,
    clock: &mut T,
    next: Next,
) -> Outcome
    requires { (H.calls house.now).is_pass desk.old.pass }
    ensures works { (sent : Option (List Datagram)) (faults : ℕ) →
        Works (H.calls house.now) (behind next)
        (record {
          pass = desk.old.pass;
          row = desk.old.row;
          sent = sent;
          faults = faults;
          times = T.times clock.old;
        })
        (record {
          pass = desk.new.pass;
          row = desk.new.row;
          sent = sent;
          faults = faults;
          times = T.times clock.new;
        }) }
    ensures taker { desk.new.taker ≡ desk.old.taker }
    ensures batch { desk.new.batch ≡ desk.old.batch }
{
    if next != Next::Loss {
        return Outcome::Idle;
    }
    gate.pause(desk.shard);
    let Desk {
        shard,
        pass,
        row,
        ..
    } = desk;
    let end = lose_all(rt, alloc, house, pass, row, clock);
    leave_end(board, *shard, row, end)
}

/// Counts what the external address has, where somebody asks for it, and leaves it on the board.
fn do_count<R: Wait, T: Clock, G: Gate, P, H: JobHouse<P>>(
    rt: &R,
    alloc: Global,
    house: &H,
    gate: &G,
    board: &Board,
    desk: &mut Desk<P>,
    clock: &mut T,
) -> Outcome
    requires { (H.calls house.now).is_pass desk.old.pass }
    ensures works { (sent : Option (List Datagram)) (faults : ℕ) →
        Works (H.calls house.now) []
        (record {
          pass = desk.old.pass;
          row = desk.old.row;
          sent = sent;
          faults = faults;
          times = T.times clock.old;
        })
        (record {
          pass = desk.new.pass;
          row = desk.new.row;
          sent = sent;
          faults = faults;
          times = T.times clock.new;
        }) }
    ensures taker { desk.new.taker ≡ desk.old.taker }
    ensures batch { desk.new.batch ≡ desk.old.batch }
{
    if !board.is_asked(desk.shard) {
        return Outcome::Idle;
    }
    gate.pause(desk.shard);
    let Desk {
        shard,
        pass,
        row,
        ..
    } = desk;
    // What is asked from here on isn't answered by these numbers.
    let asked = board.asks();
    let counted = count_all(rt, alloc, house, pass, row, clock);
    let (end, numbers) = counted;
    let outcome = leave_count(board, *shard, row, end);
    leave_numbers(board, *shard, asked, numbers);
    outcome
}

/// Takes jobs and does them, and counts where somebody asks for that. It says whether the queue was
/// empty then.
pub fn do_round<R: Wait, O: Outbox, T: Clock, G: Gate, P, H: JobHouse<P>>(
    rt: &R,
    alloc: Global,
    house: &H,
    gate: &G,
    board: &Board,
    queue: &JobQueue,
    desk: &mut Desk<P>,
    out: &mut O,
    clock: &mut T,
    pause: &mut Pause,
) -> bool
    requires desk { IsDesk (H.calls house.now) queue.now desk.old.pass desk.old.taker }
    requires batch { desk.old.batch ≡ [] }
    ensures works { HasWorked (H.calls house.now)
        (record {
          pass = desk.old.pass;
          row = desk.old.row;
          sent = O.sent out.old;
          faults = O.faults out.old;
          times = T.times clock.old;
        })
        (record {
          pass = desk.new.pass;
          row = desk.new.row;
          sent = O.sent out.new;
          faults = O.faults out.new;
          times = T.times clock.new;
        })
        desk.old.taker desk.new.taker }
    ensures dry { IsTrue result → MayBeEmpty desk.new.taker }
    ensures batch { desk.new.batch ≡ [] }
{
    let Desk { taker, batch, .. } = &mut *desk;
    let next = gather(rt, queue, taker, batch);
    let answered = do_batch(rt, alloc, house, gate, board, desk, out, clock);
    let lost = do_loss(rt, alloc, house, gate, board, desk, clock, next);
    let counted = do_count(rt, alloc, house, gate, board, desk, clock);
    pause.note(answered.followed_by(lost).followed_by(counted));
    next == Next::Dry
}
