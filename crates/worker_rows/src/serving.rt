//! A house over blank disks in memory, served from its beginning to its end.
ghost use Rattle.pcp_base.specs.Configs.{IsConfig};
ghost use Rattle.pcp_base.specs.declared.configs.TheConstants.{MOST_EXTERNALS};

use crate::edges::{clocks, disks};
use house_workers::serve_all;
use job_workers::Tally;
use pcp_base::{Config, MOST_EXTERNALS, Memory, Moment};
use pcp_io::{Gate, Inbox, LaneLink, Outbox, StepClock};
use request_workers::ServeFault;
use shared_house::House;
use status_board::Board;
use std::alloc::Global;
use std::sync::Wait;
use std::thread::Threads;

/// What serving gave: its tally, and how many pairs of disks came back.
#[derive(Drop)]
pub(crate) struct Ended {
    pub tally: Result<Tally, ServeFault>,
    pub pairs: usize,
}

/// Serves with these edges, and this clock of the dispatcher, until the inbox stops or fails.
pub(crate) fn serve_blank<
    R: Threads + Wait + Sync,
    I: Inbox,
    O: Outbox + Send,
    L: LaneLink + Send,
    G: Gate + Sync,
>(
    rt: &R,
    alloc: Global,
    config: &Config,
    clock: StepClock,
    inbox: &mut I,
    outs: &mut [O],
    links: &mut [L],
    gate: &G,
) -> Result<Ended, Memory>
    requires { IsConfig config.now }
{
    let disks = disks(alloc, MOST_EXTERNALS)?;
    let mut clocks = clocks(alloc, 2 * MOST_EXTERNALS)?;
    clocks.push(clock)?;
    if disks.len() < config.externals.items().len()
        || outs.len() != MOST_EXTERNALS + 1
        || links.len() != MOST_EXTERNALS
        || clocks.len() != 2 * MOST_EXTERNALS + 1
    {
        return Err(Memory);
    }
    let board = Board::new(alloc, MOST_EXTERNALS)?;
    let Ok(begun) = House::begin(rt, alloc, config, disks, Moment::of(1_000).unwrap()) else {
        return Err(Memory);
    };
    let (tally, pairs) = serve_all(
        rt,
        alloc,
        begun,
        config,
        inbox,
        outs,
        links,
        &mut clocks,
        gate,
        &board,
    );
    Ok(Ended {
        tally,
        pairs: pairs.len(),
    })
}
