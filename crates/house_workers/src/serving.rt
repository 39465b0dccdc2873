//! Serving with a house that has begun, to its end.
ghost use Rattle.std.specs.Prelude.{◌≡◌, ◌+◌, ◌*◌, length, map, IfOk};
ghost use Rattle.pcp_base.specs.Configs.{IsConfig};
ghost use Rattle.pcp_base.specs.declared.configs.TheConstants.{MOST_EXTERNALS};
ghost use Rattle.pcp_announce.specs.Doors.{groups};
ghost use Rattle.job_dispatch.specs.declared.ports.TheConstants.{ANNOUNCEMENT_PORT};
ghost use Rattle.request_workers.specs.Parts.{links_told, outs_told};
ghost use Rattle.house_workers.specs.ServingAll.{IsBegunFor, ServesToEnd};

use crate::giving_up::give_all_up;
use crate::houses::ServingHouse;
use job_workers::Tally;
use lease_disk::{DiskPair, LeaseDisk};
use pcp_base::Config;
use pcp_io::{Clock, Gate, Inbox, LaneLink, Outbox};
use request_workers::{ServeFault, serve_begun};
use shared_house::Begun;
use status_board::Board;
use std::alloc::Global;
use std::sync::Wait;
use std::thread::Threads;

/// Serves with a dispatcher, a worker for each external address and a loop for each lane, until the
/// inbox stops or fails and all that was put is done, and then ends the house. The pairs come back in
/// the order in which the house got them, whatever the result. Of `MOST_EXTERNALS + 1` outboxes,
/// `MOST_EXTERNALS` links and `2 * MOST_EXTERNALS + 1` clocks worker `i` has outbox `i` and clock
/// `i`, lane `i` has link `i` and clock `MOST_EXTERNALS + i`, and the dispatcher the last outbox and
/// the last clock. Those of external addresses that aren't get no call. `Read` comes only where the
/// inbox's count rose. After `Memory` nothing was served, and after `Threads`, where one couldn't be made,
/// nothing was dispatched.
pub fn serve_all<
    R: Threads + Wait + Sync,
    I: Inbox,
    O: Outbox + Send,
    L: LaneLink + Send,
    T: Clock + Send,
    G: Gate + Sync,
    D: LeaseDisk + Drop + Send + Sync,
>(
    rt: &R,
    alloc: Global,
    begun: Begun<D>,
    config: &Config,
    inbox: &mut I,
    outs: &mut [O],
    lanes: &mut [L],
    clocks: &mut [T],
    gate: &G,
    board: &Board,
) -> (Result<Tally, ServeFault>, Vec<DiskPair<D>>)
    requires config { IsConfig config.now }
    requires begun { IsBegunFor D.tells D.seen D.moment D.left_since D.may_leave D.faults
        config.now begun }
    requires outs { length outs.old ≡ MOST_EXTERNALS + 1 }
    requires lanes { length lanes.old ≡ MOST_EXTERNALS }
    requires clocks { length clocks.old ≡ 2 * MOST_EXTERNALS + 1 }
    ensures served { ServesToEnd D.tells D.seen D.moment D.left_since D.may_leave D.faults
        config.now (groups config.now) ANNOUNCEMENT_PORT begun
        (record {
          left = I.left inbox.old;
          faults = I.faults inbox.old;
          outs = outs_told O.sent O.faults outs.old;
          links = links_told L.asks L.answers L.faults lanes.old;
          clocks = map T.times clocks.old;
        })
        (record {
          left = I.left inbox.new;
          faults = I.faults inbox.new;
          outs = outs_told O.sent O.faults outs.new;
          links = links_told L.asks L.answers L.faults lanes.new;
          clocks = map T.times clocks.new;
        })
        result.0 result.1.items }
    ensures rows { IfOk result.0 (λ rows. length rows ≡ length config.now.externals) }
    ensures count { length result.1.items
        ≡ length begun.house.turns + length begun.house.spare }
{
    let Begun {
        house,
        fresh,
        mut passes,
        lanes: mut readers,
        updates: _updates,
        update_shards: _update_shards,
    } = begun;
    let house = ServingHouse::of(house);
    let readers = readers.as_mut_slice();
    let tally = serve_begun(
        rt,
        alloc,
        &house,
        fresh,
        &mut passes,
        readers,
        config,
        inbox,
        outs,
        lanes,
        clocks,
        gate,
        board,
    );
    let pairs = house.into_house().end(rt, &mut passes, readers);
    give_all_up(passes);
    (tally, pairs)
}
