//! A shard that is held while another one and a lane go on.

use crate::configs::config_of;
use crate::edges::still_clock;
use crate::flags::{Flags, HoldingGate, HoldingInbox, TellingLink, TellingOutbox};
use crate::requests::{Ask, request};
use crate::serving::serve_blank;
use pcp_base::{MOST_EXTERNALS, Memory};
use pcp_io::{InboxItem, MemoryInbox};
use std::alloc::Global;
use std::sync::Wait;
use std::sync::atomic::Ordering;
use std::test::Fail;
use std::thread::Threads;

/// A request at each of two external addresses.
fn one_each(alloc: Global) -> Result<MemoryInbox, Memory> {
    let mut items = Vec::new(alloc);
    for shard in 0..2u8 {
        items.push(InboxItem::Packet(request(alloc, Ask { shard, number: 0 })?))?;
    }
    MemoryInbox::new(alloc, items)
}

fn telling_outboxes(alloc: Global, flags: &Flags) -> Result<Vec<TellingOutbox>, Memory> {
    let mut outs = Vec::new(alloc);
    for shard in 0..MOST_EXTERNALS + 1 {
        outs.push(TellingOutbox {
            flags,
            shard,
            grants: 0,
        })?;
    }
    Ok(outs)
}

/// Lane 0 asks, and no other one.
fn telling_links(alloc: Global, flags: &Flags) -> Result<Vec<TellingLink>, Memory> {
    let mut links = Vec::new(alloc);
    for lane in 0..MOST_EXTERNALS {
        let left = if lane == 0 { 2 } else { 0 };
        links.push(TellingLink { flags, left })?;
    }
    Ok(links)
}

/// How many grants each of two external addresses sent.
fn serve_held<R: Threads + Wait + Sync>(
    rt: &R,
    alloc: Global,
    flags: &Flags,
) -> Result<Option<(u32, u32)>, Memory> {
    let config = config_of(alloc, 2)?;
    let mut inbox = HoldingInbox {
        flags,
        inbox: one_each(alloc)?,
    };
    let mut outs = telling_outboxes(alloc, flags)?;
    let mut links = telling_links(alloc, flags)?;
    let gate = HoldingGate { flags };
    let clock = still_clock(alloc)?;
    let ended = serve_blank(
        rt, alloc, &config, clock, &mut inbox, &mut outs, &mut links, &gate,
    )?;
    if ended.tally.is_err() || outs.len() < 2 {
        return Ok(None);
    }
    Ok(Some((outs[0].grants, outs[1].grants)))
}

#[test]
fn a_held_shard_holds_nobody(rt: HostRuntime) -> Result<(), Fail> {
    let flags = Flags::new();
    let grants = serve_held(&rt, rt.alloc(), &flags)?;
    assert!(rt; grants == Some((1, 1)));
    assert!(rt; flags.answered.load(Ordering::SeqCst) && !flags.late.load(Ordering::SeqCst));
    Ok(())
}
