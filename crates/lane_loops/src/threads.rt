//! The loops of all lanes, each in a thread of its own where one can be made.
ghost use Rattle.std.specs.Prelude.{◌≡◌, length, map};
ghost use Rattle.std.specs.Thread.{IsSend, IsSync};
ghost use Rattle.lane_loops.specs.LaneSets.{AllRun, lane_states};

use crate::loops::run_lane;
use lane_index::Lane;
use pcp_io::{Clock, LaneLink};
use std::sync::Wait;
use std::sync::atomic::{AtomicBool, AtomicU32, Ordering};
use std::thread::{Threads, join_mut};

/// The first lane, which counts that it is here.
fn run_first<R: Wait, L: LaneLink, T: Clock>(
    rt: &R,
    ended: &AtomicBool,
    here: &AtomicU32,
    lanes: &mut [Lane],
    links: &mut [L],
    clocks: &mut [T],
)
    requires { (length lanes.old ≡ 1) × (length links.old ≡ 1) × (length clocks.old ≡ 1) }
    ensures { AllRun
        (lane_states lanes.old
        (map (λ l. record { asks = L.asks l; answers = L.answers l; faults = L.faults l }) links.old)
        (map T.times clocks.old))
        (lane_states lanes.new
        (map (λ l. record { asks = L.asks l; answers = L.answers l; faults = L.faults l }) links.new)
        (map T.times clocks.new)) }
{
    let _before = here.fetch_add(1, Ordering::SeqCst);
    run_lane(rt, ended, &mut lanes[0], &mut links[0], &mut clocks[0]);
}

/// Runs the loop of each lane until it ends. Each counts first that it is here.
#[cycle(lanes)]
pub fn run_lanes<R: Threads + Wait + Sync, L: LaneLink + Send, T: Clock + Send>(
    rt: &R,
    ended: &AtomicBool,
    here: &AtomicU32,
    lanes: &mut [Lane],
    links: &mut [L],
    clocks: &mut [T],
)
    requires links { length links.old ≡ length lanes.old }
    requires clocks { length clocks.old ≡ length lanes.old }
    ensures { AllRun
        (lane_states lanes.old
        (map (λ l. record { asks = L.asks l; answers = L.answers l; faults = L.faults l }) links.old)
        (map T.times clocks.old))
        (lane_states lanes.new
        (map (λ l. record { asks = L.asks l; answers = L.answers l; faults = L.faults l }) links.new)
        (map T.times clocks.new)) }
{
    if lanes.len() == 0 {
        return;
    }
    let (lane, more_lanes) = lanes.split_at_mut(1);
    let (link, more_links) = links.split_at_mut(1);
    let (clock, more_clocks) = clocks.split_at_mut(1);
    run_both(
        rt,
        ended,
        here,
        lane,
        link,
        clock,
        more_lanes,
        more_links,
        more_clocks,
    );
}

/// The first lane in a new thread, the others beside it. Where no thread can be made the first runs
/// last, in this one.
#[cycle(lanes)]
fn run_both<R: Threads + Wait + Sync, L: LaneLink + Send, T: Clock + Send>(
    rt: &R,
    ended: &AtomicBool,
    here: &AtomicU32,
    lane: &mut [Lane],
    link: &mut [L],
    clock: &mut [T],
    lanes: &mut [Lane],
    links: &mut [L],
    clocks: &mut [T],
)
    requires one { (length lane.old ≡ 1) × (length link.old ≡ 1) × (length clock.old ≡ 1) }
    requires links { length links.old ≡ length lanes.old }
    requires clocks { length clocks.old ≡ length lanes.old }
    ensures first { AllRun
        (lane_states lane.old
        (map (λ l. record { asks = L.asks l; answers = L.answers l; faults = L.faults l }) link.old)
        (map T.times clock.old))
        (lane_states lane.new
        (map (λ l. record { asks = L.asks l; answers = L.answers l; faults = L.faults l }) link.new)
        (map T.times clock.new)) }
    ensures rest { AllRun
        (lane_states lanes.old
        (map (λ l. record { asks = L.asks l; answers = L.answers l; faults = L.faults l }) links.old)
        (map T.times clocks.old))
        (lane_states lanes.new
        (map (λ l. record { asks = L.asks l; answers = L.answers l; faults = L.faults l }) links.new)
        (map T.times clocks.new)) }
{
    let mut one = move ||
        requires { IsSync R.row × IsSend L.row × IsSend T.row × (length lane.now ≡ 1)
            × (length link.now ≡ 1) × (length clock.now ≡ 1) }
        ensures { AllRun
            (lane_states lane.entry.now
            (map (λ l. record { asks = L.asks l; answers = L.answers l; faults = L.faults l }) link.entry.now)
            (map T.times clock.entry.now))
            (lane_states lane.exit.now
            (map (λ l. record { asks = L.asks l; answers = L.answers l; faults = L.faults l }) link.exit.now)
            (map T.times clock.exit.now)) }
    { run_first(rt, ended, here, lane, link, clock) };
    let mut rest = move ||
        requires { IsSync R.row × IsSend L.row × IsSend T.row
            × (length links.now ≡ length lanes.now) × (length clocks.now ≡ length lanes.now) }
        ensures { AllRun
            (lane_states lanes.entry.now
            (map (λ l. record { asks = L.asks l; answers = L.answers l; faults = L.faults l }) links.entry.now)
            (map T.times clocks.entry.now))
            (lane_states lanes.exit.now
            (map (λ l. record { asks = L.asks l; answers = L.answers l; faults = L.faults l }) links.exit.now)
            (map T.times clocks.exit.now)) }
    { run_lanes(rt, ended, here, lanes, links, clocks) };
    join_mut(rt, &mut one, &mut rest);
}
