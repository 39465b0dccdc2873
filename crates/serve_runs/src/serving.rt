//! A house is opened, served to its end, and its tally told.
ghost use Rattle.std.specs.Prelude.{◌≡◌, ◌⊎◌, ◌+◌, ◌*◌, ◌≢◌, ◌≤◌, ℕ, List, length, map, IfOk};
ghost use Rattle.pcp_base.specs.Configs.{IsConfig};
ghost use Rattle.pcp_base.specs.declared.configs.TheConstants.{MOST_EXTERNALS};
ghost use Rattle.pcp_io.specs.Faults.{HasRisen};
ghost use Rattle.journal_dump.specs.Dumps.{HasPairFault};
ghost use Rattle.request_workers.specs.Parts.{links_told, outs_told};
ghost use Rattle.lease_disk.specs.declared.disks.DiskPair.{DiskPair};
ghost use Rattle.shared_house.specs.Beginnings.{Begins};
ghost use Rattle.house_workers.specs.ServingAll.{IsBegunFor};
ghost use Rattle.server_commands.specs.declared.statuses.Status.TheVariants as Statuses;
ghost use Rattle.pcp_server.specs.Outsides.{disks_by};
ghost use Rattle.serve_runs.specs.Served.{GivesStart, IsLostAt, ServesConfig, SendsAndServes};

use crate::telling::tell_tally;
use crate::updates::send_updates;
use house_workers::{faulted_rows_have_causes, promises_are_kept, serve_all};
use job_workers::Tally;
use lane_loops::moment_of;
use lease_disk::{DiskPair, LeaseDisk};
use pcp_base::{Config, MOST_EXTERNALS, Moment};
use pcp_io::{Clock, Gate, Inbox, LaneLink, Outbox, Sink};
use pcp_server::unopened_as;
use request_workers::ServeFault;
use server_commands::Status;
use shared_house::{Begun, House};
use status_board::Board;
use std::alloc::Global;
use std::sync::Wait;
use std::thread::Threads;

/// The second that the dispatcher's clock gives.
fn start_of<T: Clock>(clocks: &mut [T]) -> Moment
    requires { length clocks.old ≡ 2 * MOST_EXTERNALS + 1 }
    ensures start { GivesStart (map T.times clocks.old) (map T.times clocks.new) result }
    ensures same { length clocks.new ≡ length clocks.old }
{
    let Some((clock, _others)) = clocks.split_last_mut() else {
        unreachable!()
    };
    moment_of(clock.now())
}

/// Sends the updates of a house that has begun, and serves it to its end.
fn serve_house<
    R: Threads + Wait + Sync,
    I: Inbox,
    O: Outbox + Send,
    L: LaneLink + Send,
    T: Clock + Send,
    G: Gate + Sync,
    D: LeaseDisk + Drop + Send + Sync,
>(
    rt: &R,
    alloc: Global,
    begun: Begun<D>,
    config: &Config,
    inbox: &mut I,
    outs: &mut [O],
    lanes: &mut [L],
    clocks: &mut [T],
    gate: &G,
    board: &Board,
) -> (Result<Tally, ServeFault>, Vec<DiskPair<D>>)
    requires config { IsConfig config.now }
    requires begun { IsBegunFor D.tells D.seen D.moment D.left_since D.may_leave D.faults
        config.now begun }
    requires outs { length outs.old ≡ MOST_EXTERNALS + 1 }
    requires lanes { length lanes.old ≡ MOST_EXTERNALS }
    requires clocks { length clocks.old ≡ 2 * MOST_EXTERNALS + 1 }
    ensures rows { IfOk result.0 (λ rows. length rows ≤ MOST_EXTERNALS) }
    ensures serves { (m : ℕ) (pairs : List (DiskPair D)) → (b : Begins D.tells D.seen D.moment D.left_since
        D.may_leave D.faults config.now m pairs begun) → SendsAndServes
        (disks_by D.tells D.seen D.moment D.left_since D.may_leave D.faults) config.now
        begun b.books
        (record {
          left = I.left inbox.old;
          faults = I.faults inbox.old;
          outs = outs_told O.sent O.faults outs.old;
          links = links_told L.asks L.answers L.faults lanes.old;
          clocks = map T.times clocks.old;
        })
        (record {
          left = I.left inbox.new;
          faults = I.faults inbox.new;
          outs = outs_told O.sent O.faults outs.new;
          links = links_told L.asks L.answers L.faults lanes.new;
          clocks = map T.times clocks.new;
        })
        result.0 result.1.items }
{
    send_updates(outs, config, 0, &begun.updates, &begun.update_shards);
    serve_all(
        rt, alloc, begun, config, inbox, outs, lanes, clocks, gate, board,
    )
}

/// Opens the house of this configuration, serves it to its end and tells the tally.
pub(crate) fn serve_config<
    R: Threads + Wait + Sync,
    I: Inbox,
    O: Outbox + Send,
    L: LaneLink + Send,
    T: Clock + Send,
    G: Gate + Sync,
    W: Sink,
    D: LeaseDisk + Drop + Send + Sync,
>(
    rt: &R,
    alloc: Global,
    config: &Config,
    inbox: &mut I,
    outs: &mut [O],
    lanes: &mut [L],
    clocks: &mut [T],
    gate: &G,
    board: &Board,
    out: &mut W,
    disks: Vec<DiskPair<D>>,
) -> (Status, Vec<DiskPair<D>>)
    requires config { IsConfig config.now }
    requires enough { length config.now.externals ≤ length disks.items }
    requires outs { length outs.old ≡ MOST_EXTERNALS + 1 }
    requires lanes { length lanes.old ≡ MOST_EXTERNALS }
    requires clocks { length clocks.old ≡ 2 * MOST_EXTERNALS + 1 }
    ensures served { ServesConfig
        (disks_by D.tells D.seen D.moment D.left_since D.may_leave D.faults) D.lost config.now
        (record {
          out = out.old;
          held = W.held out.old;
          inbox = inbox.old;
          pairs = disks.items;
          edges = record {
            left = I.left inbox.old;
            faults = I.faults inbox.old;
            outs = outs_told O.sent O.faults outs.old;
            links = links_told L.asks L.answers L.faults lanes.old;
            clocks = map T.times clocks.old;
          };
        })
        (record {
          out = out.new;
          held = W.held out.new;
          inbox = inbox.new;
          pairs = result.1.items;
          edges = record {
            left = I.left inbox.new;
            faults = I.faults inbox.new;
            outs = outs_told O.sent O.faults outs.new;
            links = links_told L.asks L.answers L.faults lanes.new;
            clocks = map T.times clocks.new;
          };
        })
        result.0 }

    // A fault is told only where a count of faults rose.
    ensures read_fault { result.0 ≡ Statuses.ReadFault →
        HasRisen (I.faults inbox.old) (I.faults inbox.new) }
    ensures write_fault { result.0 ≡ Statuses.WriteFault →
        HasRisen (W.faults out.old) (W.faults out.new) }
    ensures disk_fault { (shard : ℕ) → result.0 ≡ Statuses.DiskFault shard →
        HasPairFault D.faults disks.items result.1.items shard }

    // It ended the opening, or a side of that pair is lost.
    ensures no_items { (shard : ℕ) → result.0 ≡ Statuses.DiskFault shard →
        (inbox.new ≡ inbox.old) ⊎ IsLostAt D.lost result.1.items shard }
    ensures writes { W.faults out.old ≤ W.faults out.new }
    ensures words { result.0 ≢ Statuses.WordsRefused }
{
    let start = start_of(clocks);
    match House::begin(rt, alloc, config, disks, start) {
        Ok(begun) => {
            let (tally, disks) = serve_house(
                rt, alloc, begun, config, inbox, outs, lanes, clocks, gate, board,
            );
            faulted_rows_have_causes::<D>();
            promises_are_kept::<D>();
            (tell_tally(alloc, tally, &disks, out), disks)
        }
        Err(refused) => (unopened_as(refused.fault), refused.disks),
    }
}
