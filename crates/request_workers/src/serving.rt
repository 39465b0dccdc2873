//! All threads of a server, from the desks at which passes sit to what is left at the end.
ghost use Rattle.std.specs.Prelude.{◌≡◌, ◌≤◌, ◌+◌, [], length, map, vec_capacity, vec_len};
ghost use Rattle.pcp_base.specs.Configs.{IsConfig};
ghost use Rattle.pcp_announce.specs.Doors.{groups};
ghost use Rattle.job_dispatch.specs.Noise.{no_noise};
ghost use Rattle.job_dispatch.specs.declared.ports.TheConstants.{ANNOUNCEMENT_PORT};
ghost use Rattle.lane_loops.specs.LaneSets.{lane_states};
ghost use Rattle.request_workers.specs.Parts.{links_told, outs_told};
ghost use Rattle.request_workers.specs.Seats.{AreSeated};
ghost use Rattle.request_workers.specs.Served.{RunsAll};

use crate::endings::finish_all;
use crate::faults::RunFault;
use crate::threads::run_threads;
use job_dispatch::{NoiseCounts, Port};
use job_queue::JobQueue;
use job_workers::{Desk, JobHouse, TallyRow};
use lane_index::Lane;
use pcp_announce::Announcer;
use pcp_base::Config;
use pcp_io::{Clock, Gate, Inbox, LONGEST_DATAGRAM, LaneLink, Outbox};
use status_board::Board;
use std::alloc::Global;
use std::sync::Wait;
use std::sync::atomic::{AtomicBool, AtomicU32};
use std::thread::Threads;

/// Runs all threads, and does what they left, so that all that was put is done.
pub fn run_seated<
    R: Threads + Wait + Sync,
    I: Inbox,
    O: Outbox + Send,
    L: LaneLink + Send,
    T: Clock + Send,
    G: Gate + Sync,
    P: Send,
    H: JobHouse<P> + Sync,
>(
    rt: &R,
    alloc: Global,
    house: &H,
    config: &Config,
    gate: &G,
    board: &Board,
    queues: &[JobQueue],
    desks: &mut Vec<Desk<P>>,
    outs: &mut [O],
    clocks: &mut [T],
    lanes: &mut [Lane],
    links: &mut [L],
    lane_clocks: &mut [T],
    pass: &mut P,
    announcer: &mut Announcer,
    ports: &mut Vec<Port>,
    inbox: &mut I,
    out: &mut O,
    clock: &mut T,
    passes: &mut Vec<P>,
    rows: &mut Vec<TallyRow>,
) -> Result<(), RunFault>
    requires seated { AreSeated (H.calls house.now) 0 queues.now desks.old.items ports.old.items }
    requires config { (config.now ≡ (H.calls house.now).config) × IsConfig config.now }
    requires all { length queues.now ≡ length config.now.externals }
    requires outs { length outs.old ≡ length queues.now }
    requires clocks { length clocks.old ≡ length queues.now }
    requires links { length links.old ≡ length lanes.old }
    requires lane_clocks { length lane_clocks.old ≡ length lanes.old }
    requires pass { (H.calls house.now).is_pass pass.old }
    requires passes { vec_len passes.old + length queues.now ≤ vec_capacity passes.old }
    requires rows { vec_len rows.old + length queues.now ≤ vec_capacity rows.old }
    ensures runs { RunsAll (H.calls house.now) config.now (groups config.now)
        ANNOUNCEMENT_PORT
        (record {
          ports = ports.old.items;
          noise = no_noise;
          announcing = record {
            pass = pass.old;
            schedule = announcer.old;
            sent = O.sent out.old;
            faults = O.faults out.old;
            times = T.times clock.old;
          };
          left = I.left inbox.old;
          faults = I.faults inbox.old;
        })
        (record {
          pass = pass.new;
          schedule = announcer.new;
          sent = O.sent out.new;
          faults = O.faults out.new;
          times = T.times clock.new;
        })
        (I.left inbox.new) (I.faults inbox.new) result
        (map (λ d. d.pass) desks.old.items)
        (outs_told O.sent O.faults outs.old)
        (outs_told O.sent O.faults outs.new)
        (map T.times clocks.old) (map T.times clocks.new)
        (lane_states lanes.old
        (links_told L.asks L.answers L.faults links.old)
        (map T.times lane_clocks.old))
        (lane_states lanes.new
        (links_told L.asks L.answers L.faults links.new)
        (map T.times lane_clocks.new))
        passes.old.items passes.new.items rows.old.items rows.new.items }
    ensures empty { desks.new.items ≡ [] }
{
    let ended = AtomicBool::new(false);
    let here = AtomicU32::new(0);
    let mut piece = [0; LONGEST_DATAGRAM];
    let mut noise = NoiseCounts::new();
    let read = run_threads(
        rt,
        alloc,
        house,
        config,
        gate,
        board,
        &ended,
        &here,
        queues,
        desks,
        outs,
        clocks,
        lanes,
        links,
        lane_clocks,
        pass,
        announcer,
        ports,
        &mut noise,
        inbox,
        out,
        clock,
        &mut piece,
    );
    board.drop_noise(noise.dropped);
    finish_all(
        rt, alloc, house, gate, board, queues, desks, ports, outs, clocks, passes, rows,
    );
    read
}
