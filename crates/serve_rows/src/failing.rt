//! Runs that end by a fault: of the inbox at each of its takes, of the configuration's source, of the
//! sink, and of a disk in the opening.

use crate::edges::{NEVER, blank_pairs, pairs_failing};
use crate::requests::{Ask, Client, is_grant, is_others, push_ask};
use crate::serving::{Run, SERVE, Step, pairs_of, run_items, serve_at};
use lease_disk::{DiskPair, LeaseDisk};
use pcp_base::Memory;
use pcp_io::{InboxItem, MemoryOutbox};
use server_commands::Status;
use std::alloc::Global;
use std::sync::Wait;
use std::test::Fail;
use std::thread::Threads;

/// A client's requests for three ports of a host.
fn three(alloc: Global, client: Client) -> Result<Vec<InboxItem>, Memory> {
    let mut items = Vec::new(alloc);
    for port in 5_000..5_003u16 {
        let ask = Ask {
            second: 0,
            port,
            client,
        };
        push_ask(alloc, &mut items, ask)?;
    }
    Ok(items)
}

/// Whether the outbox took grants alone, and so many.
fn has_grants(out: &MemoryOutbox, count: u64) -> bool {
    out.sent().len() as u64 == count && out.sent().iter().all(|d| is_grant(d.octets.items()))
}

/// Whether the outbox took so many refusals to another client, and then grants alone, three in all.
fn finds_others(out: &MemoryOutbox, count: u64) -> bool {
    let refused = out.sent().iter().filter(|d| is_others(d.octets.items()));
    let granted = out.sent().iter().filter(|d| is_grant(d.octets.items()));
    refused.count() as u64 == count && granted.count() as u64 == 3u64.saturating_sub(count)
}

/// Whether the run ended by a read that failed, with this many grants and without a tally.
fn ends_with<D: LeaseDisk + Drop>(run: &Run<D>, grants: u64) -> bool {
    match run.outs.first() {
        Some(out) => {
            run.ended.status == Status::ReadFault
                && run.ended.out.held().is_empty()
                && has_grants(out, grants)
        }
        None => false,
    }
}

/// Whether a run whose inbox fails at this take answers what came before, and a run behind it finds
/// these leases in the journals, and no others.
fn keeps_until<R: Threads + Wait + Sync, D: LeaseDisk + Drop + Send + Sync>(
    rt: &R,
    alloc: Global,
    call: u64,
    pairs: Vec<DiskPair<D>>,
) -> Result<bool, Memory> {
    let items = three(alloc, Client::First)?;
    let run = run_items(rt, alloc, &SERVE, items, call, pairs)?;
    if !ends_with(&run, call) {
        return Ok(false);
    }
    let items = three(alloc, Client::Second)?;
    let later = run_items(rt, alloc, &serve_at(1_020_000), items, NEVER, pairs_of(run))?;
    match later.outs.first() {
        Some(out) => Ok(later.ended.status == Status::Done && finds_others(out, call)),
        None => Ok(false),
    }
}

/// How a run of three requests ends, and how many replies it sends.
fn end_of<R: Threads + Wait + Sync, D: LeaseDisk + Drop + Send + Sync>(
    rt: &R,
    alloc: Global,
    step: &Step,
    pairs: Vec<DiskPair<D>>,
) -> Result<(Status, usize), Memory> {
    let items = three(alloc, Client::First)?;
    let run = run_items(rt, alloc, step, items, NEVER, pairs)?;
    let replies = run.outs.first().map_or(0, |out| out.sent().len());
    Ok((run.ended.status, replies))
}

#[test]
fn the_inbox_fails(rt: HostRuntime) -> Result<(), Fail> {
    for call in 0..4u64 {
        assert!(rt;
            keeps_until(&rt, rt.alloc(), call, blank_pairs(rt.alloc())?)?,
            "{call}"
        );
    }
    Ok(())
}

#[test]
fn the_configuration_or_the_sink_fails(rt: HostRuntime) -> Result<(), Fail> {
    let unread = Step { read: 0, ..SERVE };
    let untold = Step { write: 0, ..SERVE };
    let alloc = rt.alloc();
    let unread = end_of(&rt, alloc, &unread, blank_pairs(alloc)?)?;
    let untold = end_of(&rt, alloc, &untold, blank_pairs(alloc)?)?;
    assert!(rt; unread == (Status::ReadFault, 0) && untold == (Status::WriteFault, 3));
    Ok(())
}

#[test]
fn a_disk_fails_in_the_opening(rt: HostRuntime) -> Result<(), Fail> {
    for place in 0..2usize {
        let ended = end_of(&rt, rt.alloc(), &SERVE, pairs_failing(rt.alloc(), place)?)?;
        assert!(rt; ended == (Status::DiskFault(place as u32), 0), "{ended:?}");
    }
    Ok(())
}
