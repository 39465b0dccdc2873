//! The loop of a lane.
ghost use Rattle.std.specs.Prelude.{◌≡◌, Option};
ghost use Rattle.pcp_base.specs.declared.leases.Endpoint.{Endpoint};
ghost use Rattle.lane_loops.specs.LaneRuns.{IsTurn, RunsLane};

use crate::moments::moment_of;
use lane_index::Lane;
use pcp_io::{Clock, LaneAsk, LaneLink};
use std::sync::Wait;
use std::sync::atomic::{AtomicBool, Ordering};

/// How a turn of a lane's loop went.
#[derive(Clone, Copy, Debug, PartialEq, Eq)]
pub enum Turn {
    /// An ask was answered.
    Answered,
    /// Nothing was asked.
    Quiet,
    /// The link stopped, or failed.
    Over,
}

/// One ask, and its answer. The link is told whether the work is over.
fn do_turn<R: Wait, L: LaneLink, T: Clock>(
    rt: &R,
    over: bool,
    lane: &mut Lane,
    link: &mut L,
    clock: &mut T,
) -> Turn
    ensures { IsTurn result
        (record {
          lane = lane.old;
          asks = L.asks link.old;
          answers = L.answers link.old;
          faults = L.faults link.old;
          times = T.times clock.old;
        })
        (record {
          lane = lane.new;
          asks = L.asks link.new;
          answers = L.answers link.new;
          faults = L.faults link.new;
          times = T.times clock.new;
        }) }
{
    let Ok(ask) = link.ask(over) else {
        return Turn::Over;
    };
    match ask {
        LaneAsk::Stop => Turn::Over,
        LaneAsk::Quiet => Turn::Quiet,
        LaneAsk::Look {
            protocol,
            port,
            remote,
            remote_port,
        } => {
            let m = moment_of(clock.now());
            let owner = lane.look(rt, protocol, port, &remote, remote_port, m);
            if link.answer(owner).is_err() {
                return Turn::Over;
            }
            Turn::Answered
        }
    }
}

/// Answers the asks of a link until it stops, fails, or is quiet once the dispatcher has ended.
pub fn run_lane<R: Wait, L: LaneLink, T: Clock>(
    rt: &R,
    ended: &AtomicBool,
    lane: &mut Lane,
    link: &mut L,
    clock: &mut T,
)
    ensures { RunsLane
        (record {
          lane = lane.old;
          asks = L.asks link.old;
          answers = L.answers link.old;
          faults = L.faults link.old;
          times = T.times clock.old;
        })
        (record {
          lane = lane.new;
          asks = L.asks link.new;
          answers = L.answers link.new;
          faults = L.faults link.new;
          times = T.times clock.new;
        }) }
{
    for _ in rt.forever() {
        let over = ended.load(Ordering::SeqCst);
        match do_turn(rt, over, lane, link, clock) {
            Turn::Answered => {}
            Turn::Quiet => {
                if over {
                    return;
                }
            }
            Turn::Over => return,
        }
    }
    unreachable!()
}
