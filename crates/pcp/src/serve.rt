//! `serve`: the server over the sockets, clocks and journals of this host.
ghost use Rattle.std.specs.Prelude.{◌≡◌, ◌+◌, ◌≤◌, IfOk, length};
ghost use Rattle.pcp_base.specs.Configs.{IsConfig};
ghost use Rattle.pcp_base.specs.declared.configs.TheConstants.{MOST_EXTERNALS};

use crate::meetings::can_meet;
use config_source::ConfigFault;
use journal_dump::Looked;
use lane_loops::moment_of;
use lease_disk::DiskPair;
use pcp_base::{Config, MOST_EXTERNALS, Memory};
use pcp_io::{MemorySource, NoGate, Sink, SteadyClock};
use program_links::{
    LinksFault, ServerInbox, ServerLinks, clocks_of, gap_of, links_of, no_links, start_of,
    system_time,
};
use program_texts::{
    ToldDisk, beginning_of, door_cause, doors_of, gap_text, last_of, look_at, pair_cause,
    threads_cause, told_journals_in,
};
use serve_commands::ServePlan;
use serve_runs::run_serve;
use server_commands::Status;
use status_board::Board;
use std::alloc::Global;
use std::os::unix::net::UnixStream;
use std::sync::Wait;
use std::thread::Threads;

/// How serving ended.
#[derive(Drop)]
pub(crate) struct Served<'a> {
    pub(crate) status: Status,
    /// the journals' disks
    pub(crate) disks: Vec<DiskPair<ToldDisk<'a>>>,
    /// the connections that ordered the stop, which are to stay open until the program ends
    pub(crate) stopped: Vec<UnixStream>,
    /// what people are told of that in any case
    pub(crate) told: Vec<String>,
    /// what people are told who ask for more than a status
    pub(crate) cause: Option<String>,
}

impl<'a> Served<'a> {
    /// Nothing was served, and no journal was touched.
    fn not(status: Status, alloc: Global) -> Served<'a> {
        Served {
            status,
            disks: Vec::new(alloc),
            stopped: Vec::new(alloc),
            told: Vec::new(alloc),
            cause: None,
        }
    }
}

/// Serves over this host in these threads, at the doors that the configuration names, and leaves what it
/// tells of itself on the board. Where a door can't be had, or a thread can't be made, no journal is
/// touched. An operator is told of the doors once they are had, and where `explains` of what is served
/// there. `kept` is what was read of the configuration.
pub(crate) fn serve_over<'a, R: Threads + Wait + Sync, W: Sink>(
    threads: &R,
    rt: &'a HostRuntime,
    words: &[String],
    plan: ServePlan,
    journals: &str,
    kept: Option<&[u8]>,
    read: &Result<Config, ConfigFault>,
    board: &'a Board,
    explains: bool,
    out: &mut W,
) -> Result<Served<'a>, Memory>
    requires { IfOk read.now IsConfig }
{
    let alloc = rt.alloc();
    let links = match links_by(rt, plan, read) {
        Ok(links) => links,
        Err(LinksFault::Memory) => return Err(Memory),
        Err(LinksFault::Refused(at, error)) => {
            let mut served = Served::not(Status::ReadFault, alloc);
            served.cause = Some(door_cause(alloc, at, error)?);
            return Ok(served);
        }
    };
    tell_doors(rt, &links);
    let count = externals_in(read);
    if read.is_ok() && !can_meet(threads, alloc, threads_of(count))? {
        let mut served = Served::not(Status::Memory, alloc);
        served.told.push(threads_cause(alloc, threads_of(count))?)?;
        return Ok(served);
    }
    let looks = look_at(rt, journals, count);
    if explains {
        tell_beginning(rt, plan, read, &looks);
    }
    let clock = clock_behind(rt, &looks);
    let mut again = again(alloc, kept, read)?;
    serve_by(
        threads, rt, words, journals, &mut again, links, clock, board, out,
    )
}

/// Serves by these links and this clock.
fn serve_by<'a, R: Threads + Wait + Sync, W: Sink>(
    threads: &R,
    rt: &'a HostRuntime,
    words: &[String],
    journals: &str,
    config: &mut MemorySource,
    links: ServerLinks<'a>,
    clock: SteadyClock,
    board: &'a Board,
    out: &mut W,
) -> Result<Served<'a>, Memory>
    requires outs { length links.outs.items ≡ MOST_EXTERNALS + 1 }
    requires lanes { length links.lanes.items ≡ MOST_EXTERNALS }
{
    let alloc = rt.alloc();
    let ServerLinks {
        ears,
        mut outs,
        mut lanes,
        ..
    } = links;
    let mut inbox = ServerInbox::of(rt, ears, board, clock.same(), journals)?;
    let mut clocks = clocks_of(alloc, &clock, 2 * MOST_EXTERNALS + 1)?;
    let disks = told_journals_in(rt, board, journals)?;
    // So each worker leaves its numbers at its beginning.
    board.ask();
    let (status, disks) = run_serve(
        threads,
        alloc,
        words,
        config,
        &mut inbox,
        &mut outs,
        &mut lanes,
        &mut clocks,
        &NoGate,
        board,
        out,
        disks,
    );
    let stopped = inbox.end();
    tell_dropped(rt, board.dropped());
    Ok(Served {
        status,
        told: served_causes(alloc, board, status, &disks)?,
        disks,
        stopped,
        cause: None,
    })
}

/// How many threads a server of so many external addresses has beside its first one.
fn threads_of(externals: usize) -> u32
    requires { externals ≤ MOST_EXTERNALS }
{
    2 * externals as u32 + 2
}

/// The clock of a server whose journals are found so. An operator is told where the time of the system is
/// far from them.
fn clock_behind(rt: &HostRuntime, looks: &[Option<Looked>]) -> SteadyClock {
    let system = system_time(rt);
    let Some(last) = last_of(looks) else {
        return SteadyClock::starting_at(system);
    };
    if let Some(gap) = gap_of(moment_of(system), last) {
        if let Ok(text) = gap_text(rt.alloc(), gap) {
            let _ = eprintln!(rt; "pcp: {text}");
        }
    }
    SteadyClock::starting_at(start_of(system, last))
}

/// Why a disk failed that ended what was served.
fn served_causes(
    alloc: Global,
    board: &Board,
    status: Status,
    disks: &[DiskPair<ToldDisk<'_>>],
) -> Result<Vec<String>, Memory> {
    let mut told = Vec::new(alloc);
    if let Status::DiskFault(place) = status
        && board.serves()
        && let Some(pair) = disks.get(place as usize)
        && let Some(cause) = pair_cause(alloc, pair)?
    {
        told.push(cause)?;
    }
    Ok(told)
}

/// How many external addresses this configuration has; none where there is none.
pub(crate) fn externals_in(read: &Result<Config, ConfigFault>) -> usize
    requires { IfOk read.now IsConfig }
    ensures { result ≤ MOST_EXTERNALS }
{
    match read {
        Ok(config) => config.externals.items().len(),
        Err(_) => 0,
    }
}

/// The links by this configuration; none of them where there is none, by which the server then ends.
fn links_by<'a>(
    rt: &'a HostRuntime,
    plan: ServePlan,
    read: &Result<Config, ConfigFault>,
) -> Result<ServerLinks<'a>, LinksFault>
    requires { IfOk read.now IsConfig }
    ensures outs { IfOk result (λ links. length links.outs.items ≡ MOST_EXTERNALS + 1) }
    ensures lanes { IfOk result (λ links. length links.lanes.items ≡ MOST_EXTERNALS) }
{
    match read {
        Ok(config) => links_of(rt, config, plan.port, plan.lane_port),
        Err(_) => no_links(rt),
    }
}

/// What was read of the configuration, to be read again; a source that fails where that one did.
fn again(
    alloc: Global,
    kept: Option<&[u8]>,
    read: &Result<Config, ConfigFault>,
) -> Result<MemorySource, Memory> {
    let Some(kept) = kept else {
        return Err(Memory);
    };
    let mut source = MemorySource::new(alloc, kept.to_vec(alloc)?)?;
    match read {
        Err(ConfigFault::Read) => source.fail_at(alloc, 0)?,
        Err(ConfigFault::Memory) => return Err(Memory),
        Ok(_) | Err(ConfigFault::Refused(_)) => {}
    }
    Ok(source)
}

/// Tells an operator at which doors is served. Without memory for it nothing is told.
fn tell_doors(rt: &HostRuntime, links: &ServerLinks<'_>) {
    if let Ok(lines) = doors_of(rt.alloc(), &links.places, links.lacking) {
        tell_lines(rt, &lines);
    }
}

/// Tells an operator what is served, before it is. Where the configuration can't be read, nothing is
/// told: the command then ends by that.
fn tell_beginning(
    rt: &HostRuntime,
    plan: ServePlan,
    read: &Result<Config, ConfigFault>,
    looks: &[Option<Looked>],
) {
    let Ok(config) = read else {
        return;
    };
    if let Ok(lines) = beginning_of(rt.alloc(), plan, config, looks) {
        tell_lines(rt, &lines);
    }
}

/// Tells an operator how much noise was dropped, if any.
fn tell_dropped(rt: &HostRuntime, count: u64) {
    if count > 0 {
        let _ = eprintln!(rt; "pcp: dropped as noise: {count}");
    }
}

fn tell_lines(rt: &HostRuntime, lines: &[String]) {
    for line in lines {
        let _ = eprintln!(rt; "pcp: {line}");
    }
}
