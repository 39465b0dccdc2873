//! Whose outboxes, links and clocks are.
ghost use Rattle.std.specs.Prelude.{◌≡◌, ◌+◌, ◌*◌, length, map};
ghost use Rattle.pcp_base.specs.Configs.{IsConfig};
ghost use Rattle.pcp_base.specs.declared.configs.TheConstants.{MOST_EXTERNALS};
ghost use Rattle.pcp_announce.specs.Doors.{groups};
ghost use Rattle.job_dispatch.specs.declared.ports.TheConstants.{ANNOUNCEMENT_PORT};
ghost use Rattle.request_workers.specs.BegunHouses.{ServesParts};
ghost use Rattle.request_workers.specs.Parts.{links_told, outs_told};
ghost use Rattle.request_workers.specs.Rooms.{IsRoom};
ghost use Rattle.request_workers.specs.Seats.{ArePasses};

use crate::begun::serve_room;
use crate::faults::RunFault;
use crate::rooms::Room;
use job_workers::{JobHouse, TallyRow};
use lane_index::Lane;
use pcp_base::{Config, MOST_EXTERNALS};
use pcp_io::{Clock, Gate, Inbox, LaneLink, Outbox};
use status_board::Board;
use std::alloc::Global;
use std::sync::Wait;
use std::thread::Threads;

/// Serves with the outboxes, links and clocks of the external addresses that there are: worker `i`
/// has outbox `i` and clock `i`, lane `i` has link `i` and clock `MOST_EXTERNALS + i`, and the
/// dispatcher the last outbox and the last clock. The others get no call.
pub fn serve_parts<
    R: Threads + Wait + Sync,
    I: Inbox,
    O: Outbox + Send,
    L: LaneLink + Send,
    T: Clock + Send,
    G: Gate + Sync,
    P: Send,
    H: JobHouse<P> + Sync,
>(
    rt: &R,
    alloc: Global,
    house: &H,
    fresh: bool,
    room: Room<P>,
    asking: &mut P,
    passes: &mut Vec<P>,
    lanes: &mut [Lane],
    config: &Config,
    inbox: &mut I,
    outs: &mut [O],
    links: &mut [L],
    clocks: &mut [T],
    gate: &G,
    board: &Board,
) -> (Result<(), RunFault>, Vec<TallyRow>)
    requires config { (config.now ≡ (H.calls house.now).config) × IsConfig config.now }
    requires room { IsRoom config.now (length config.now.externals) room }
    requires asking { (H.calls house.now).is_pass asking.old }
    requires passes { ArePasses (H.calls house.now) 0 passes.old.items }
    requires all { length passes.old.items ≡ length config.now.externals }
    requires lanes { length lanes.old ≡ length config.now.externals }
    requires outs { length outs.old ≡ MOST_EXTERNALS + 1 }
    requires links { length links.old ≡ MOST_EXTERNALS }
    requires clocks { length clocks.old ≡ 2 * MOST_EXTERNALS + 1 }
    ensures { ServesParts (H.calls house.now) config.now (groups config.now)
        ANNOUNCEMENT_PORT fresh asking.old asking.new
        (record {
          passes = passes.old.items;
          lanes = lanes.old;
          left = I.left inbox.old;
          faults = I.faults inbox.old;
          outs = outs_told O.sent O.faults outs.old;
          links = links_told L.asks L.answers L.faults links.old;
          clocks = map T.times clocks.old;
        })
        (record {
          passes = passes.new.items;
          lanes = lanes.new;
          left = I.left inbox.new;
          faults = I.faults inbox.new;
          outs = outs_told O.sent O.faults outs.new;
          links = links_told L.asks L.answers L.faults links.new;
          clocks = map T.times clocks.new;
        })
        result.0 result.1.items }
{
    let count = passes.len();
    let (front_outs, last_outs) = outs.split_at_mut(MOST_EXTERNALS);
    let (front_clocks, last_clocks) = clocks.split_at_mut(2 * MOST_EXTERNALS);
    let (worker_outs, _) = front_outs.split_at_mut(count);
    let (first_clocks, later_clocks) = front_clocks.split_at_mut(MOST_EXTERNALS);
    let (worker_clocks, _) = first_clocks.split_at_mut(count);
    let (lane_clocks, _) = later_clocks.split_at_mut(count);
    let (lane_links, _) = links.split_at_mut(count);
    serve_room(
        rt,
        alloc,
        house,
        fresh,
        room,
        asking,
        passes,
        lanes,
        config,
        inbox,
        worker_outs,
        &mut last_outs[0],
        lane_links,
        worker_clocks,
        lane_clocks,
        &mut last_clocks[0],
        gate,
        board,
    )
}
