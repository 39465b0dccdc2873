//! Many jobs at as many external addresses as may be.

use crate::configs::config_of;
use crate::edges::{outboxes, silent_links, still_clock};
use crate::requests::{Ask, granted_by, request};
use crate::serving::serve_blank;
use job_workers::TallyRow;
use pcp_base::{Datagram, Memory};
use pcp_io::{InboxItem, MemoryInbox, MemoryOutbox, NoGate};
use std::alloc::Global;
use std::sync::Wait;
use std::test::Fail;
use std::thread::Threads;

/// How many requests are put for each external address.
const EACH: u16 = 6_250;

/// So many requests for each of 16 external addresses, in turns.
fn crowd(alloc: Global) -> Result<MemoryInbox, Memory> {
    let mut items = Vec::new(alloc);
    for number in 0..EACH {
        for shard in 0..16u8 {
            items.push(InboxItem::Packet(request(alloc, Ask { shard, number })?))?;
        }
    }
    MemoryInbox::new(alloc, items)
}

/// Marks the request of a reply. Whether it is one of the shard's, for the first time.
fn is_first(seen: &mut [bool], shard: u8, reply: &Datagram) -> bool {
    let Some(ask) = granted_by(reply.octets.items()) else {
        return false;
    };
    match seen.get_mut(ask.number as usize) {
        Some(mark) => {
            let first = !*mark && ask.shard == shard;
            *mark = true;
            first
        }
        None => false,
    }
}

/// Whether these are grants of distinct requests of the shard.
fn are_distinct(alloc: Global, shard: u8, replies: &[Datagram]) -> Result<bool, Memory> {
    let mut seen = Vec::new(alloc);
    for _ in 0..EACH {
        seen.push(false)?;
    }
    for reply in replies {
        if !is_first(&mut seen, shard, reply) {
            return Ok(false);
        }
    }
    Ok(true)
}

/// Whether the row counts each request once, and what the outbox took.
fn counts_all(row: &TallyRow, out: &MemoryOutbox) -> bool {
    let put = row.taken.saturating_add(row.full);
    put == u64::from(EACH)
        && row.starved == 0
        && row.replied == row.taken
        && row.replied == out.sent().len() as u64
}

/// Whether each external address has its row, and its replies.
fn are_whole(alloc: Global, rows: &[TallyRow], outs: &[MemoryOutbox]) -> Result<bool, Memory> {
    if rows.len() != 16 {
        return Ok(false);
    }
    let mut shard = 0u8;
    for (row, out) in rows.iter().zip(outs) {
        if !counts_all(row, out) || !are_distinct(alloc, shard, out.sent())? {
            return Ok(false);
        }
        shard = shard.saturating_add(1);
    }
    Ok(true)
}

/// Whether a crowd is served whole.
fn serve_crowd<R: Threads + Wait + Sync>(rt: &R, alloc: Global) -> Result<bool, Memory> {
    let config = config_of(alloc, 16)?;
    let mut inbox = crowd(alloc)?;
    let mut outs = outboxes(alloc)?;
    let mut links = silent_links(alloc)?;
    let clock = still_clock(alloc)?;
    let ended = serve_blank(
        rt, alloc, &config, clock, &mut inbox, &mut outs, &mut links, &NoGate,
    )?;
    match &ended.tally {
        Ok(tally) => are_whole(alloc, tally.items(), &outs),
        Err(_) => Ok(false),
    }
}

#[test]
fn a_crowd_at_sixteen_addresses(rt: HostRuntime) -> Result<(), Fail> {
    assert!(rt; serve_crowd(&rt, rt.alloc())?);
    Ok(())
}
