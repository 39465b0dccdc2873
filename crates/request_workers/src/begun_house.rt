//! Serving a house that has begun.
ghost use Rattle.std.specs.Prelude.{◌≡◌, ◌+◌, ◌*◌, length, map};
ghost use Rattle.pcp_base.specs.Configs.{IsConfig};
ghost use Rattle.pcp_base.specs.declared.configs.TheConstants.{MOST_EXTERNALS};
ghost use Rattle.pcp_announce.specs.Doors.{groups};
ghost use Rattle.job_dispatch.specs.declared.ports.TheConstants.{ANNOUNCEMENT_PORT};
ghost use Rattle.request_workers.specs.BegunHouses.{AnswersBegun, served_as};
ghost use Rattle.request_workers.specs.Parts.{links_told, outs_told};
ghost use Rattle.request_workers.specs.Seats.{ArePasses};

use crate::faults::{RunFault, ServeFault};
use crate::parting::serve_parts;
use crate::rooms::make_room;
use crate::splitting::split_first;
use job_workers::{JobHouse, Tally};
use lane_index::Lane;
use pcp_base::{Config, Listed};
use pcp_io::{Clock, Gate, Inbox, LaneLink, Outbox};
use status_board::Board;
use std::alloc::Global;
use std::sync::Wait;
use std::thread::Threads;

/// What a run's fault is to who serves.
fn served_as(fault: RunFault) -> ServeFault
    ensures { result ≡ served_as fault }
{
    match fault {
        RunFault::Inbox(_failed) => ServeFault::Read,
        RunFault::Threads => ServeFault::Threads,
    }
}

/// Serves a house that has begun, with a dispatcher, a worker for each external address and a loop for
/// each lane, until the inbox stops or fails and all that was put is done. The passes come back in
/// order. Of `MOST_EXTERNALS + 1` outboxes, `MOST_EXTERNALS` links and `2 * MOST_EXTERNALS + 1` clocks
/// worker `i` has outbox `i` and clock `i`, lane `i` has link `i` and clock `MOST_EXTERNALS + i`, and
/// the dispatcher the last outbox and the last clock. Those of external addresses that aren't get no
/// call. `Read` comes only where the inbox's count rose. After `Memory` nothing was served, and nothing
/// got a call. After `Threads` the inbox is as it was, and nothing was put or announced.
pub fn serve_begun<
    R: Threads + Wait + Sync,
    I: Inbox,
    O: Outbox + Send,
    L: LaneLink + Send,
    T: Clock + Send,
    G: Gate + Sync,
    P: Send,
    H: JobHouse<P> + Sync,
>(
    rt: &R,
    alloc: Global,
    house: &H,
    fresh: bool,
    passes: &mut Vec<P>,
    lanes: &mut [Lane],
    config: &Config,
    inbox: &mut I,
    outs: &mut [O],
    links: &mut [L],
    clocks: &mut [T],
    gate: &G,
    board: &Board,
) -> Result<Tally, ServeFault>
    requires config { (config.now ≡ (H.calls house.now).config) × IsConfig config.now }
    requires passes { ArePasses (H.calls house.now) 0 passes.old.items }
    requires all { length passes.old.items ≡ length config.now.externals }
    requires lanes { length lanes.old ≡ length config.now.externals }
    requires outs { length outs.old ≡ MOST_EXTERNALS + 1 }
    requires links { length links.old ≡ MOST_EXTERNALS }
    requires clocks { length clocks.old ≡ 2 * MOST_EXTERNALS + 1 }
    ensures { AnswersBegun (H.calls house.now) config.now (groups config.now)
        ANNOUNCEMENT_PORT fresh
        (record {
          passes = passes.old.items;
          lanes = lanes.old;
          left = I.left inbox.old;
          faults = I.faults inbox.old;
          outs = outs_told O.sent O.faults outs.old;
          links = links_told L.asks L.answers L.faults links.old;
          clocks = map T.times clocks.old;
        })
        (record {
          passes = passes.new.items;
          lanes = lanes.new;
          left = I.left inbox.new;
          faults = I.faults inbox.new;
          outs = outs_told O.sent O.faults outs.new;
          links = links_told L.asks L.answers L.faults links.new;
          clocks = map T.times clocks.new;
        })
        result }
{
    let Ok(room) = make_room(alloc, config, passes.len() as u32) else {
        return Err(ServeFault::Memory);
    };
    let mut asking = match split_first(house, alloc, passes) {
        Ok(asking) => asking,
        Err(_memory) => {
            room.close();
            return Err(ServeFault::Memory);
        }
    };
    let (read, rows) = serve_parts(
        rt,
        alloc,
        house,
        fresh,
        room,
        &mut asking,
        passes,
        lanes,
        config,
        inbox,
        outs,
        links,
        clocks,
        gate,
        board,
    );
    house.give_up(asking);
    match read {
        Ok(()) => {}
        Err(fault) => return Err(served_as(fault)),
    }
    Ok(Listed::of(rows))
}
