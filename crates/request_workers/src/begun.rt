//! Serving, from the passes of a house that has begun to what is told at the end.
ghost use Rattle.std.specs.Prelude.{◌≡◌, length, map};
ghost use Rattle.pcp_base.specs.Configs.{IsConfig};
ghost use Rattle.pcp_announce.specs.Doors.{groups};
ghost use Rattle.job_dispatch.specs.declared.ports.TheConstants.{ANNOUNCEMENT_PORT};
ghost use Rattle.lane_loops.specs.LaneSets.{lane_states};
ghost use Rattle.request_workers.specs.Parts.{links_told, outs_told};
ghost use Rattle.request_workers.specs.Rooms.{IsRoom};
ghost use Rattle.request_workers.specs.Seats.{ArePasses};
ghost use Rattle.request_workers.specs.Served.{BeginsAnnouncer, ServesAll};

use crate::faults::RunFault;
use crate::rooms::Room;
use crate::seats::seat_all;
use crate::serving::run_seated;
use job_workers::{JobHouse, TallyRow};
use lane_index::Lane;
use pcp_announce::Announcer;
use pcp_base::Config;
use pcp_io::{Clock, Gate, Inbox, LaneLink, Outbox};
use status_board::Board;
use std::alloc::Global;
use std::sync::Wait;
use std::thread::Threads;

/// The announcer of what the epoch word tells now.
fn begin_announcer<T: Clock, P, H: JobHouse<P>>(
    house: &H,
    fresh: bool,
    pass: &mut P,
    clock: &mut T,
) -> Announcer
    requires { (H.calls house.now).is_pass pass.old }
    ensures begins { BeginsAnnouncer (H.calls house.now) fresh pass.old pass.new
        (T.times clock.old) (T.times clock.new) result }
    ensures pass { (H.calls house.now).is_pass pass.new }
{
    let base = house.told(pass);
    let time = clock.now();
    Announcer::new(base, fresh, time)
}

/// Serves with this room until the inbox stops or fails, and until all that was put is done. The
/// passes come back in order, and the rows of the tally.
pub fn serve_room<
    R: Threads + Wait + Sync,
    I: Inbox,
    O: Outbox + Send,
    L: LaneLink + Send,
    T: Clock + Send,
    G: Gate + Sync,
    P: Send,
    H: JobHouse<P> + Sync,
>(
    rt: &R,
    alloc: Global,
    house: &H,
    fresh: bool,
    room: Room<P>,
    asking: &mut P,
    passes: &mut Vec<P>,
    lanes: &mut [Lane],
    config: &Config,
    inbox: &mut I,
    outs: &mut [O],
    out: &mut O,
    links: &mut [L],
    clocks: &mut [T],
    lane_clocks: &mut [T],
    clock: &mut T,
    gate: &G,
    board: &Board,
) -> (Result<(), RunFault>, Vec<TallyRow>)
    requires config { (config.now ≡ (H.calls house.now).config) × IsConfig config.now }
    requires room { IsRoom config.now (length config.now.externals) room }
    requires asking { (H.calls house.now).is_pass asking.old }
    requires passes { ArePasses (H.calls house.now) 0 passes.old.items }
    requires all { length passes.old.items ≡ length config.now.externals }
    requires outs { length outs.old ≡ length config.now.externals }
    requires clocks { length clocks.old ≡ length config.now.externals }
    requires links { length links.old ≡ length lanes.old }
    requires lane_clocks { length lane_clocks.old ≡ length lanes.old }
    ensures { ServesAll (H.calls house.now) config.now (groups config.now)
        ANNOUNCEMENT_PORT fresh asking.old asking.new
        (record { sent = O.sent out.old; faults = O.faults out.old })
        (record { sent = O.sent out.new; faults = O.faults out.new })
        (T.times clock.old) (T.times clock.new)
        (I.left inbox.old) (I.left inbox.new) (I.faults inbox.old) (I.faults inbox.new)
        result.0
        (outs_told O.sent O.faults outs.old)
        (outs_told O.sent O.faults outs.new)
        (map T.times clocks.old) (map T.times clocks.new)
        (lane_states lanes.old
        (links_told L.asks L.answers L.faults links.old)
        (map T.times lane_clocks.old))
        (lane_states lanes.new
        (links_told L.asks L.answers L.faults links.new)
        (map T.times lane_clocks.new))
        passes.old.items passes.new.items result.1.items }
{
    let Room {
        mut seats,
        mut queues,
        mut desks,
        mut ports,
        mut rows,
    } = room;
    seat_all(
        house,
        0,
        passes,
        &mut seats,
        &mut queues,
        &mut desks,
        &mut ports,
    );
    let mut announcer = begin_announcer(house, fresh, asking, clock);
    let read = run_seated(
        rt,
        alloc,
        house,
        config,
        gate,
        board,
        &queues,
        &mut desks,
        outs,
        clocks,
        lanes,
        links,
        lane_clocks,
        asking,
        &mut announcer,
        &mut ports,
        inbox,
        out,
        clock,
        passes,
        &mut rows,
    );
    desks.destroy_empty();
    (read, rows)
}
