//! The dispatcher, the workers and the loops of the lanes, all at once.
ghost use Rattle.std.specs.Prelude.{◌≡◌, ◌≤◌, length, map};
ghost use Rattle.std.specs.Thread.{IsSend, IsSync};
ghost use Rattle.pcp_base.specs.Configs.{IsConfig};
ghost use Rattle.pcp_io.specs.declared.inboxes.TheConstants.{LONGEST_DATAGRAM};
ghost use Rattle.pcp_announce.specs.Doors.{groups};
ghost use Rattle.job_dispatch.specs.declared.ports.TheConstants.{ANNOUNCEMENT_PORT};
ghost use Rattle.job_dispatch.specs.Dispatches.{ArePorts};
ghost use Rattle.lane_loops.specs.LaneSets.{AllRun, lane_states};
ghost use Rattle.job_workers.specs.Stations.{AllWorked, AreStations, stations};
ghost use Rattle.request_workers.specs.Leads.{Leads, led_as};
ghost use Rattle.request_workers.specs.Parts.{links_told, outs_told};

use crate::faults::RunFault;
use job_dispatch::{NoiseCounts, Port, dispatch, nap};
use job_queue::JobQueue;
use job_workers::{Desk, JobHouse, run_workers};
use lane_index::Lane;
use lane_loops::run_lanes;
use pcp_announce::Announcer;
use pcp_base::{Config, Failed};
use pcp_io::{Clock, Gate, Inbox, LaneLink, Outbox};
use status_board::Board;
use std::alloc::Global;
use std::sync::Wait;
use std::sync::atomic::{AtomicBool, AtomicU32, Ordering};
use std::thread::{Threads, join_mut};

/// The workers and the loops of the lanes.
fn run_followers<
    R: Threads + Wait + Sync,
    O: Outbox + Send,
    L: LaneLink + Send,
    T: Clock + Send,
    G: Gate + Sync,
    P: Send,
    H: JobHouse<P> + Sync,
>(
    rt: &R,
    alloc: Global,
    house: &H,
    gate: &G,
    board: &Board,
    ended: &AtomicBool,
    here: &AtomicU32,
    queues: &[JobQueue],
    desks: &mut [Desk<P>],
    outs: &mut [O],
    clocks: &mut [T],
    lanes: &mut [Lane],
    links: &mut [L],
    lane_clocks: &mut [T],
)
    requires outs { length outs.old ≡ length desks.old }
    requires clocks { length clocks.old ≡ length desks.old }
    requires desks { AreStations (H.calls house.now) queues.now desks.old }
    requires links { length links.old ≡ length lanes.old }
    requires lane_clocks { length lane_clocks.old ≡ length lanes.old }
    ensures workers { AllWorked (H.calls house.now)
        (stations desks.old (outs_told O.sent O.faults outs.old)
        (map T.times clocks.old))
        (stations desks.new (outs_told O.sent O.faults outs.new)
        (map T.times clocks.new)) }
    ensures lanes { AllRun
        (lane_states lanes.old
        (links_told L.asks L.answers L.faults links.old)
        (map T.times lane_clocks.old))
        (lane_states lanes.new
        (links_told L.asks L.answers L.faults links.new)
        (map T.times lane_clocks.new)) }
{
    let mut working = move ||
        requires { IsSync R.row × IsSync G.row × IsSend O.row × IsSend T.row × IsSync H.row
            × IsSend P.row × (length outs.now ≡ length desks.now)
            × (length clocks.now ≡ length desks.now)
            × AreStations (H.calls house.now) queues.now desks.now }
        ensures { AllWorked (H.calls house.entry.now)
            (stations desks.entry.now
            (outs_told O.sent O.faults outs.entry.now)
            (map T.times clocks.entry.now))
            (stations desks.exit.now
            (outs_told O.sent O.faults outs.exit.now)
            (map T.times clocks.exit.now)) }
    {
        run_workers(
            rt, alloc, house, gate, board, ended, here, queues, desks, outs, clocks,
        )
    };
    let mut looking = move ||
        requires { IsSync R.row × IsSend L.row × IsSend T.row
            × (length links.now ≡ length lanes.now) × (length lane_clocks.now ≡ length lanes.now) }
        ensures { AllRun
            (lane_states lanes.entry.now
            (links_told L.asks L.answers L.faults links.entry.now)
            (map T.times lane_clocks.entry.now))
            (lane_states lanes.exit.now
            (links_told L.asks L.answers L.faults links.exit.now)
            (map T.times lane_clocks.exit.now)) }
    { run_lanes(rt, ended, here, lanes, links, lane_clocks) };
    join_mut(rt, &mut working, &mut looking);
}

/// Tells all who wait that the dispatcher has ended.
fn tell_end(ended: &AtomicBool, ports: &[Port]) {
    ended.store(true, Ordering::SeqCst);
    for port in ports {
        port.unparker.unpark();
    }
}

/// How often the dispatcher looks at most whether all threads are there.
const MOST_LOOKS: u32 = 500;

/// How long it sleeps between two looks, in nanoseconds.
const NAP: i64 = 10_000_000;

/// Whether so many threads are there. They are waited for, some 5 seconds at most.
fn are_here(here: &AtomicU32, count: usize) -> bool {
    for _ in 0..MOST_LOOKS {
        if here.load(Ordering::SeqCst) as usize >= count {
            return true;
        }
        nap(NAP);
    }
    false
}

/// The dispatcher's result, as that of a run.
fn led_as(read: Result<(), Failed>) -> Result<(), RunFault>
    ensures { result ≡ led_as read }
{
    match read {
        Ok(()) => Ok(()),
        Err(failed) => Err(RunFault::Inbox(failed)),
    }
}

/// Dispatches once so many threads are there, and tells the end to all who wait for it. Where they
/// aren't, nothing is dispatched.
fn lead<R: Wait, I: Inbox, O: Outbox, T: Clock, P, H: JobHouse<P>>(
    rt: &R,
    alloc: Global,
    house: &H,
    config: &Config,
    board: &Board,
    queues: &[JobQueue],
    ended: &AtomicBool,
    here: &AtomicU32,
    count: usize,
    pass: &mut P,
    announcer: &mut Announcer,
    ports: &mut [Port],
    noise: &mut NoiseCounts,
    inbox: &mut I,
    out: &mut O,
    clock: &mut T,
    piece: &mut [u8],
) -> Result<(), RunFault>
    requires config { IsConfig config.now }
    requires pass { (H.calls house.now).is_pass pass.old }
    requires ports { ArePorts config.now queues.now ports.old }
    requires all { length ports.old ≡ length config.now.externals }
    requires piece { LONGEST_DATAGRAM ≤ length piece.old }
    ensures { Leads (H.calls house.now) config.now (groups config.now)
        ANNOUNCEMENT_PORT
        (record {
          ports = ports.old;
          noise = noise.old;
          announcing = record {
            pass = pass.old;
            schedule = announcer.old;
            sent = O.sent out.old;
            faults = O.faults out.old;
            times = T.times clock.old;
          };
          left = I.left inbox.old;
          faults = I.faults inbox.old;
        })
        (record {
          ports = ports.new;
          noise = noise.new;
          announcing = record {
            pass = pass.new;
            schedule = announcer.new;
            sent = O.sent out.new;
            faults = O.faults out.new;
            times = T.times clock.new;
          };
          left = I.left inbox.new;
          faults = I.faults inbox.new;
        })
        result }
{
    if !are_here(here, count) {
        tell_end(ended, ports);
        return Err(RunFault::Threads);
    }
    let read = dispatch(
        rt, alloc, house, config, board, queues, pass, announcer, ports, noise, inbox, out, clock,
        piece,
    );
    tell_end(ended, ports);
    led_as(read)
}

/// Runs all until the inbox stops or fails and all others have ended. Where a thread can't be made,
/// the dispatcher goes first: it misses that thread, dispatches nothing, and then all end. `here` counts
/// the threads that are there, and begins with none.
pub fn run_threads<
    R: Threads + Wait + Sync,
    I: Inbox,
    O: Outbox + Send,
    L: LaneLink + Send,
    T: Clock + Send,
    G: Gate + Sync,
    P: Send,
    H: JobHouse<P> + Sync,
>(
    rt: &R,
    alloc: Global,
    house: &H,
    config: &Config,
    gate: &G,
    board: &Board,
    ended: &AtomicBool,
    here: &AtomicU32,
    queues: &[JobQueue],
    desks: &mut [Desk<P>],
    outs: &mut [O],
    clocks: &mut [T],
    lanes: &mut [Lane],
    links: &mut [L],
    lane_clocks: &mut [T],
    pass: &mut P,
    announcer: &mut Announcer,
    ports: &mut [Port],
    noise: &mut NoiseCounts,
    inbox: &mut I,
    out: &mut O,
    clock: &mut T,
    piece: &mut [u8],
) -> Result<(), RunFault>
    requires outs { length outs.old ≡ length desks.old }
    requires clocks { length clocks.old ≡ length desks.old }
    requires desks { AreStations (H.calls house.now) queues.now desks.old }
    requires links { length links.old ≡ length lanes.old }
    requires lane_clocks { length lane_clocks.old ≡ length lanes.old }
    requires config { IsConfig config.now }
    requires pass { (H.calls house.now).is_pass pass.old }
    requires ports { ArePorts config.now queues.now ports.old }
    requires all { length ports.old ≡ length config.now.externals }
    requires piece { LONGEST_DATAGRAM ≤ length piece.old }
    ensures workers { AllWorked (H.calls house.now)
        (stations desks.old (outs_told O.sent O.faults outs.old)
        (map T.times clocks.old))
        (stations desks.new (outs_told O.sent O.faults outs.new)
        (map T.times clocks.new)) }
    ensures lanes { AllRun
        (lane_states lanes.old
        (links_told L.asks L.answers L.faults links.old)
        (map T.times lane_clocks.old))
        (lane_states lanes.new
        (links_told L.asks L.answers L.faults links.new)
        (map T.times lane_clocks.new)) }
    ensures dispatcher { Leads (H.calls house.now) config.now
        (groups config.now)
        ANNOUNCEMENT_PORT
        (record {
          ports = ports.old;
          noise = noise.old;
          announcing = record {
            pass = pass.old;
            schedule = announcer.old;
            sent = O.sent out.old;
            faults = O.faults out.old;
            times = T.times clock.old;
          };
          left = I.left inbox.old;
          faults = I.faults inbox.old;
        })
        (record {
          ports = ports.new;
          noise = noise.new;
          announcing = record {
            pass = pass.new;
            schedule = announcer.new;
            sent = O.sent out.new;
            faults = O.faults out.new;
            times = T.times clock.new;
          };
          left = I.left inbox.new;
          faults = I.faults inbox.new;
        })
        result }
{
    let count = desks.len().saturating_add(lanes.len());
    let mut following = move ||
        requires { IsSync R.row × IsSync G.row × IsSend O.row × IsSend T.row × IsSend L.row
            × IsSync H.row × IsSend P.row × (length outs.now ≡ length desks.now)
            × (length clocks.now ≡ length desks.now)
            × AreStations (H.calls house.now) queues.now desks.now
            × (length links.now ≡ length lanes.now) × (length lane_clocks.now ≡ length lanes.now) }
        ensures { AllWorked (H.calls house.entry.now)
            (stations desks.entry.now
            (outs_told O.sent O.faults outs.entry.now)
            (map T.times clocks.entry.now))
            (stations desks.exit.now
            (outs_told O.sent O.faults outs.exit.now)
            (map T.times clocks.exit.now))
            × AllRun
            (lane_states lanes.entry.now
            (links_told L.asks L.answers L.faults links.entry.now)
            (map T.times lane_clocks.entry.now))
            (lane_states lanes.exit.now
            (links_told L.asks L.answers L.faults links.exit.now)
            (map T.times lane_clocks.exit.now)) }
    {
        run_followers(
            rt,
            alloc,
            house,
            gate,
            board,
            ended,
            here,
            queues,
            desks,
            outs,
            clocks,
            lanes,
            links,
            lane_clocks,
        )
    };
    let mut leading = move || -> Result<(), RunFault>
        requires { IsConfig config.now × (H.calls house.now).is_pass pass.now
            × ArePorts config.now queues.now ports.now
            × (length ports.now ≡ length config.now.externals)
            × (LONGEST_DATAGRAM ≤ length piece.now) }
        ensures { Leads (H.calls house.entry.now) config.entry.now
            (groups config.entry.now)
            ANNOUNCEMENT_PORT
            (record {
              ports = ports.entry.now;
              noise = noise.entry.now;
              announcing = record {
                pass = pass.entry.now;
                schedule = announcer.entry.now;
                sent = O.sent out.entry.now;
                faults = O.faults out.entry.now;
                times = T.times clock.entry.now;
              };
              left = I.left inbox.entry.now;
              faults = I.faults inbox.entry.now;
            })
            (record {
              ports = ports.exit.now;
              noise = noise.exit.now;
              announcing = record {
                pass = pass.exit.now;
                schedule = announcer.exit.now;
                sent = O.sent out.exit.now;
                faults = O.faults out.exit.now;
                times = T.times clock.exit.now;
              };
              left = I.left inbox.exit.now;
              faults = I.faults inbox.exit.now;
            })
            result }
    {
        lead(
            rt, alloc, house, config, board, queues, ended, here, count, pass, announcer, ports,
            noise, inbox, out, clock, piece,
        )
    };
    let (_, read) = join_mut(rt, &mut following, &mut leading);
    read
}
