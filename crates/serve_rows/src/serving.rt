//! `serve` over edges in memory.
ghost use Rattle.pcp_base.specs.declared.configs.TheConstants.{MOST_EXTERNALS};

use crate::edges::{NEVER, Times, clocks, outboxes, silent_links};
use lease_disk::{DiskPair, LeaseDisk};
use pcp_base::{MOST_EXTERNALS, Memory};
use pcp_io::{
    Gate, Inbox, InboxItem, LaneLink, MemoryInbox, MemoryOutbox, MemorySink, MemorySource, NoGate,
    Outbox,
};
use serve_runs::run_serve;
use server_commands::Status;
use status_board::Board;
use std::alloc::Global;
use std::sync::Wait;
use std::thread::Threads;

/// A command: its words with a space between each two, what it reads, which read and which write of
/// it fail, and when it runs.
#[derive(Clone, Copy)]
pub(crate) struct Step {
    pub words: &'static str,
    pub config: &'static str,
    pub read: u64,
    pub write: u64,
    pub times: Times,
}

/// Two external addresses, each for half of 10.0.0.0/8, begun at 1000 and asked at 1010.
pub(crate) static SERVE: Step = Step {
    words: "serve c j 5351 5400",
    config: "[[external]]
address = \"192.0.2.1\"
low = 1024
high = 65535
[[external]]
address = \"192.0.2.2\"
low = 1024
high = 65535
[[subscriber]]
prefix = \"10.0.0.0/9\"
external = \"192.0.2.1\"
[[subscriber]]
prefix = \"10.128.0.0/9\"
external = \"192.0.2.2\"
",
    read: NEVER,
    write: NEVER,
    times: Times {
        at: 1_010_000,
        dispatching: [1_000_000, 1_010_000, 1_010_000, 1_010_249, 1_010_250],
    },
};

/// The same, begun and asked at this millisecond.
pub(crate) fn serve_at(at: u32) -> Step {
    Step {
        times: Times {
            at,
            dispatching: [at; 5],
        },
        ..SERVE
    }
}

/// How a command ended, what it put out, and the journals that it left.
#[derive(Drop)]
pub(crate) struct Ended<D: LeaseDisk + Drop> {
    pub status: Status,
    pub out: MemorySink,
    pub pairs: Vec<DiskPair<D>>,
}

fn words_of(alloc: Global, line: &str) -> Result<Vec<String>, Memory> {
    let mut words = Vec::new(alloc);
    for word in line.split(' ') {
        words.push(String::from_str(alloc, word)?)?;
    }
    Ok(words)
}

/// Runs the command over these journals with these edges.
pub(crate) fn serve_by<
    R: Threads + Wait + Sync,
    I: Inbox,
    O: Outbox + Send,
    L: LaneLink + Send,
    G: Gate + Sync,
    D: LeaseDisk + Drop + Send + Sync,
>(
    rt: &R,
    alloc: Global,
    step: &Step,
    inbox: &mut I,
    outs: &mut [O],
    links: &mut [L],
    gate: &G,
    pairs: Vec<DiskPair<D>>,
) -> Result<Ended<D>, Memory> {
    let words = words_of(alloc, step.words)?;
    let mut config = MemorySource::new(alloc, step.config.as_bytes().to_vec(alloc)?)?;
    config.fail_at(alloc, step.read)?;
    let mut out = MemorySink::new(alloc, 4_096)?;
    out.fail_at(alloc, step.write)?;
    let mut clocks = clocks(alloc, &step.times)?;
    if pairs.len() < MOST_EXTERNALS
        || outs.len() != MOST_EXTERNALS + 1
        || links.len() != MOST_EXTERNALS
        || clocks.len() != 2 * MOST_EXTERNALS + 1
    {
        return Err(Memory);
    }
    let (status, pairs) = run_serve(
        rt,
        alloc,
        &words,
        &mut config,
        inbox,
        outs,
        links,
        &mut clocks,
        gate,
        &Board::new(alloc, MOST_EXTERNALS)?,
        &mut out,
        pairs,
    );
    Ok(Ended { status, out, pairs })
}

/// Runs the command over these journals with what comes in, of which this take fails, and with links
/// that ask nothing.
pub(crate) fn serve_items<R: Threads + Wait + Sync, D: LeaseDisk + Drop + Send + Sync>(
    rt: &R,
    alloc: Global,
    step: &Step,
    items: Vec<InboxItem>,
    failing: u64,
    outs: &mut [MemoryOutbox],
    pairs: Vec<DiskPair<D>>,
) -> Result<Ended<D>, Memory> {
    let mut inbox = MemoryInbox::new(alloc, items)?;
    inbox.fail_at(alloc, failing)?;
    let mut links = silent_links(alloc)?;
    serve_by(
        rt, alloc, step, &mut inbox, outs, &mut links, &NoGate, pairs,
    )
}

/// A run and what it sent.
#[derive(Drop)]
pub(crate) struct Run<D: LeaseDisk + Drop> {
    pub ended: Ended<D>,
    pub outs: Vec<MemoryOutbox>,
}

/// The same, with new outboxes.
pub(crate) fn run_items<R: Threads + Wait + Sync, D: LeaseDisk + Drop + Send + Sync>(
    rt: &R,
    alloc: Global,
    step: &Step,
    items: Vec<InboxItem>,
    failing: u64,
    pairs: Vec<DiskPair<D>>,
) -> Result<Run<D>, Memory> {
    let mut outs = outboxes(alloc)?;
    let ended = serve_items(rt, alloc, step, items, failing, &mut outs, pairs)?;
    Ok(Run { ended, outs })
}

/// The journals that a run left.
pub(crate) fn pairs_of<D: LeaseDisk + Drop>(run: Run<D>) -> Vec<DiskPair<D>> {
    let Run { ended, .. } = run;
    let Ended { pairs, .. } = ended;
    pairs
}
