//! The call that the program makes for `serve`.
ghost use Rattle.std.specs.Prelude.{◌≡◌, ◌↔◌, ◌⊎◌, ◌+◌, ◌*◌, ◌≢◌, ◌≤◌, ℕ, length, map, string_bytes};
ghost use Rattle.pcp_base.specs.declared.configs.TheConstants.{MOST_EXTERNALS};
ghost use Rattle.pcp_io.specs.Faults.{HasRisen};
ghost use Rattle.journal_dump.specs.Dumps.{HasPairFault};
ghost use Rattle.request_workers.specs.Parts.{links_told, outs_told};
ghost use Rattle.server_commands.specs.declared.statuses.Status.TheVariants as Statuses;
ghost use Rattle.serve_commands.specs.Words.{IsServeWords};
ghost use Rattle.serve_commands.specs.declared.commands.ServePlan.{ServePlan};
ghost use Rattle.pcp_server.specs.Outsides.{disks_by};
ghost use Rattle.serve_runs.specs.Answers.{AnswersByCause};
ghost use Rattle.serve_runs.specs.Served.{IsLostAt, Serves};

use crate::serving::serve_config;
use config_source::config_of;
use lease_disk::{DiskPair, LeaseDisk};
use pcp_io::{Clock, Gate, Inbox, LaneLink, Outbox, Sink, Source};
use pcp_server::unread_as;
use serve_commands::serve_of;
use server_commands::Status;
use status_board::Board;
use std::alloc::Global;
use std::sync::Wait;
use std::thread::Threads;

/// Reads the configuration, and serves by it.
fn serve_by<
    R: Threads + Wait + Sync,
    C: Source,
    I: Inbox,
    O: Outbox + Send,
    L: LaneLink + Send,
    T: Clock + Send,
    G: Gate + Sync,
    W: Sink,
    D: LeaseDisk + Drop + Send + Sync,
>(
    rt: &R,
    alloc: Global,
    config: &mut C,
    inbox: &mut I,
    outs: &mut [O],
    lanes: &mut [L],
    clocks: &mut [T],
    gate: &G,
    board: &Board,
    out: &mut W,
    disks: Vec<DiskPair<D>>,
) -> (Status, Vec<DiskPair<D>>)
    requires pairs { MOST_EXTERNALS ≤ length disks.items }
    requires outs { length outs.old ≡ MOST_EXTERNALS + 1 }
    requires lanes { length lanes.old ≡ MOST_EXTERNALS }
    requires clocks { length clocks.old ≡ 2 * MOST_EXTERNALS + 1 }
    ensures serve { Serves
        (disks_by D.tells D.seen D.moment D.left_since D.may_leave D.faults) D.lost
        (C.left config.old) (C.left config.new)
        (record {
          out = out.old;
          held = W.held out.old;
          inbox = inbox.old;
          pairs = disks.items;
          edges = record {
            left = I.left inbox.old;
            faults = I.faults inbox.old;
            outs = outs_told O.sent O.faults outs.old;
            links = links_told L.asks L.answers L.faults lanes.old;
            clocks = map T.times clocks.old;
          };
        })
        (record {
          out = out.new;
          held = W.held out.new;
          inbox = inbox.new;
          pairs = result.1.items;
          edges = record {
            left = I.left inbox.new;
            faults = I.faults inbox.new;
            outs = outs_told O.sent O.faults outs.new;
            links = links_told L.asks L.answers L.faults lanes.new;
            clocks = map T.times clocks.new;
          };
        })
        result.0 }

    // A fault is told only where a count of faults rose.
    ensures read_fault { result.0 ≡ Statuses.ReadFault →
        HasRisen (C.faults config.old) (C.faults config.new)
        ⊎ HasRisen (I.faults inbox.old) (I.faults inbox.new) }
    ensures write_fault { result.0 ≡ Statuses.WriteFault →
        HasRisen (W.faults out.old) (W.faults out.new) }
    ensures disk_fault { (shard : ℕ) → result.0 ≡ Statuses.DiskFault shard →
        HasPairFault D.faults disks.items result.1.items shard }
    ensures no_items { (shard : ℕ) → result.0 ≡ Statuses.DiskFault shard →
        (inbox.new ≡ inbox.old) ⊎ IsLostAt D.lost result.1.items shard }
    ensures config_reads { C.faults config.old ≤ C.faults config.new }
    ensures writes { W.faults out.old ≤ W.faults out.new }
    ensures words { result.0 ≢ Statuses.WordsRefused }
{
    match config_of(alloc, config) {
        Ok(served) => serve_config(
            rt, alloc, &served, inbox, outs, lanes, clocks, gate, board, out, disks,
        ),
        Err(fault) => (unread_as(fault), disks),
    }
}

/// Does what the words of `serve CONFIG JOURNALS PORT LANEPORT` say, but for its sockets, which the
/// caller makes.
///
/// First the words are read, then the configuration whole; then the dispatcher's clock is read once,
/// and the journals are opened at its second, in the order of the external addresses: pair `i` of
/// `disks` has the two sides of the journal of external address `i`. What clients of renumbered external
/// addresses are told is sent, each by the outbox of its own and by all doors by which the client is
/// reached. Then requests are served as [`serve_all`](house_workers::serve_all) says, with a dispatcher, a
/// worker for each external address and a loop for each lane, until `inbox` stops; the lines of the tally
/// come last. All pairs come back in the same order, whatever the status. What it tells of
/// itself is left on `board`.
///
/// `DiskFault` names the external address whose journal wasn't opened, and then the inbox has had no call; or,
/// once the lines of the tally are written, the first one of which disks refused jobs and of whose pair a side is
/// lost ([`LeaseDisk::is_lost`]). `Done` comes only where there is none.
///
/// Of the 17 outboxes, 16 lanes and 33 clocks worker `i` has outbox `i` and clock `i`, lane `i` has clock
/// `16 + i`, and the dispatcher the last outbox and the last clock.
pub fn run_serve<
    R: Threads + Wait + Sync,
    C: Source,
    I: Inbox,
    O: Outbox + Send,
    L: LaneLink + Send,
    T: Clock + Send,
    G: Gate + Sync,
    W: Sink,
    D: LeaseDisk + Drop + Send + Sync,
>(
    rt: &R,
    alloc: Global,
    words: &[String],
    config: &mut C,
    inbox: &mut I,
    outs: &mut [O],
    lanes: &mut [L],
    clocks: &mut [T],
    gate: &G,
    board: &Board,
    out: &mut W,
    disks: Vec<DiskPair<D>>,
) -> (Status, Vec<DiskPair<D>>)
    requires pairs { MOST_EXTERNALS ≤ length disks.items }
    requires outs { length outs.old ≡ MOST_EXTERNALS + 1 }
    requires lanes { length lanes.old ≡ MOST_EXTERNALS }
    requires clocks { length clocks.old ≡ 2 * MOST_EXTERNALS + 1 }

    // The words are refused exactly where they are no `serve`, and then nothing has a call.
    ensures words { (result.0 ≡ Statuses.WordsRefused)
        ↔ ((plan : ServePlan) → ¬ (IsServeWords (map string_bytes words.now) plan)) }
    ensures no_config { result.0 ≡ Statuses.WordsRefused → config.new ≡ config.old }
    ensures no_inbox { result.0 ≡ Statuses.WordsRefused → inbox.new ≡ inbox.old }
    ensures no_outs { result.0 ≡ Statuses.WordsRefused → outs.new ≡ outs.old }
    ensures no_lanes { result.0 ≡ Statuses.WordsRefused → lanes.new ≡ lanes.old }
    ensures no_clocks { result.0 ≡ Statuses.WordsRefused → clocks.new ≡ clocks.old }
    ensures no_output { result.0 ≡ Statuses.WordsRefused → out.new ≡ out.old }
    ensures no_disks { result.0 ≡ Statuses.WordsRefused → result.1.items ≡ disks.items }

    // What was read, served, handed on and written, and what a crash may leave of the journals, by the
    // status.
    ensures serve { (plan : ServePlan) → IsServeWords (map string_bytes words.now) plan → Serves
        (disks_by D.tells D.seen D.moment D.left_since D.may_leave D.faults) D.lost
        (C.left config.old) (C.left config.new)
        (record {
          out = out.old;
          held = W.held out.old;
          inbox = inbox.old;
          pairs = disks.items;
          edges = record {
            left = I.left inbox.old;
            faults = I.faults inbox.old;
            outs = outs_told O.sent O.faults outs.old;
            links = links_told L.asks L.answers L.faults lanes.old;
            clocks = map T.times clocks.old;
          };
        })
        (record {
          out = out.new;
          held = W.held out.new;
          inbox = inbox.new;
          pairs = result.1.items;
          edges = record {
            left = I.left inbox.new;
            faults = I.faults inbox.new;
            outs = outs_told O.sent O.faults outs.new;
            links = links_told L.asks L.answers L.faults lanes.new;
            clocks = map T.times clocks.new;
          };
        })
        result.0 }

    // A fault is told only where a count of faults rose in this call, of that pair where it is a
    // disk's. That of a disk ended the opening, and then the inbox has had no call, or a side of that pair
    // is lost.
    ensures read_fault { result.0 ≡ Statuses.ReadFault →
        HasRisen (C.faults config.old) (C.faults config.new)
        ⊎ HasRisen (I.faults inbox.old) (I.faults inbox.new) }
    ensures write_fault { result.0 ≡ Statuses.WriteFault →
        HasRisen (W.faults out.old) (W.faults out.new) }
    ensures disk_fault { (shard : ℕ) → result.0 ≡ Statuses.DiskFault shard →
        HasPairFault D.faults disks.items result.1.items shard }
    ensures no_items { (shard : ℕ) → result.0 ≡ Statuses.DiskFault shard →
        (inbox.new ≡ inbox.old) ⊎ IsLostAt D.lost result.1.items shard }
    ensures config_reads { C.faults config.old ≤ C.faults config.new }
    ensures writes { W.faults out.old ≤ W.faults out.new }

    // So each answer has its cause, and where no count rises it is Done, Memory, or a refusal of the words or
    // of the configuration.
    ensures causes { AnswersByCause
        (disks_by D.tells D.seen D.moment D.left_since D.may_leave D.faults) D.lost
        (map string_bytes words.now) (C.left config.old) (C.left config.new)
        (record { source = C.faults config.old; sink = W.faults out.old })
        (record { source = C.faults config.new; sink = W.faults out.new })
        (record {
          out = out.old;
          held = W.held out.old;
          inbox = inbox.old;
          pairs = disks.items;
          edges = record {
            left = I.left inbox.old;
            faults = I.faults inbox.old;
            outs = outs_told O.sent O.faults outs.old;
            links = links_told L.asks L.answers L.faults lanes.old;
            clocks = map T.times clocks.old;
          };
        })
        (record {
          out = out.new;
          held = W.held out.new;
          inbox = inbox.new;
          pairs = result.1.items;
          edges = record {
            left = I.left inbox.new;
            faults = I.faults inbox.new;
            outs = outs_told O.sent O.faults outs.new;
            links = links_told L.asks L.answers L.faults lanes.new;
            clocks = map T.times clocks.new;
          };
        })
        result.0 }
{
    match serve_of(words) {
        Some(_plan) => serve_by(
            rt, alloc, config, inbox, outs, lanes, clocks, gate, board, out, disks,
        ),
        None => (Status::WordsRefused, disks),
    }
}
