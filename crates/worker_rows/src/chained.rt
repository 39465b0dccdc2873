//! Requests each of which comes once the reply to the one before has left.

use crate::configs::config_of;
use crate::counts::{ChainedInbox, Counts, counting_outboxes};
use crate::edges::{silent_links, still_clock};
use crate::requests::{Ask, request};
use crate::serving::serve_blank;
use job_workers::TallyRow;
use pcp_base::Memory;
use pcp_io::{InboxItem, MemoryInbox, NoGate};
use std::alloc::Global;
use std::sync::Wait;
use std::test::Fail;
use std::thread::Threads;

/// How many requests there are.
const MOST: u16 = 40;

/// Requests at two external addresses by turns, and a stop that is given once: the take behind it fails.
fn by_turns(alloc: Global) -> Result<MemoryInbox, Memory> {
    let mut items = Vec::new(alloc);
    for number in 0..MOST {
        let shard = if number % 2 == 0 { 0 } else { 1 };
        items.push(InboxItem::Packet(request(alloc, Ask { shard, number })?))?;
    }
    let mut inbox = MemoryInbox::new(alloc, items)?;
    inbox.fail_at(alloc, u64::from(MOST) + 1)?;
    Ok(inbox)
}

/// Whether half of the requests were taken here, and answered.
fn took_half(row: &TallyRow) -> bool {
    row.taken == u64::from(MOST / 2) && row.replied == row.taken
}

/// Whether all are answered, and serving ends at the stop.
fn answers_all<R: Threads + Wait + Sync>(
    rt: &R,
    alloc: Global,
    counts: &Counts,
) -> Result<bool, Memory> {
    let config = config_of(alloc, 2)?;
    let mut inbox = ChainedInbox {
        counts,
        inbox: by_turns(alloc)?,
        do_lanes_ask: false,
        given: 0,
    };
    let mut outs = counting_outboxes(alloc, counts)?;
    let mut links = silent_links(alloc)?;
    let clock = still_clock(alloc)?;
    let ended = serve_blank(
        rt, alloc, &config, clock, &mut inbox, &mut outs, &mut links, &NoGate,
    )?;
    match &ended.tally {
        Ok(tally) => Ok(tally.items().len() == 2 && tally.items().iter().all(took_half)),
        Err(_) => Ok(false),
    }
}

#[test]
fn each_reply_leaves_before_the_next_request(rt: HostRuntime) -> Result<(), Fail> {
    let counts = Counts::new();
    let done = answers_all(&rt, rt.alloc(), &counts)?;
    assert!(rt; done && !counts.is_late());
    Ok(())
}
