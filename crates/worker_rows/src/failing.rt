//! An inbox and outboxes that fail in turn at each of their first calls.

use crate::configs::config_of;
use crate::edges::{outboxes, silent_links};
use crate::requests::{Ask, request};
use crate::serving::{Ended, serve_blank};
use job_workers::TallyRow;
use pcp_base::{Address, Datagram, MOST_EXTERNALS, Memory};
use pcp_io::{InboxItem, MemoryInbox, MemoryOutbox, NoGate, StepClock};
use request_workers::ServeFault;
use std::alloc::Global;
use std::sync::Wait;
use std::test::Fail;
use std::thread::Threads;

/// Two requests at each of two external addresses.
fn two_each(alloc: Global) -> Result<MemoryInbox, Memory> {
    let mut items = Vec::new(alloc);
    for number in 0..2u16 {
        for shard in 0..2u8 {
            items.push(InboxItem::Packet(request(alloc, Ask { shard, number })?))?;
        }
    }
    MemoryInbox::new(alloc, items)
}

/// The dispatcher's clock: each item comes 200 seconds after the one before, when the next announcement
/// is long due.
fn late_clock(alloc: Global) -> Result<StepClock, Memory> {
    let times = Vec::from_array(
        alloc,
        [1_000_000, 1_200_000, 1_400_000, 1_600_000, 1_800_000],
    )?;
    StepClock::new(alloc, times)
}

/// Serves two external addresses.
fn serve_two<R: Threads + Wait + Sync>(
    rt: &R,
    alloc: Global,
    inbox: &mut MemoryInbox,
    outs: &mut [MemoryOutbox],
) -> Result<Ended, Memory> {
    let config = config_of(alloc, 2)?;
    let mut links = silent_links(alloc)?;
    let clock = late_clock(alloc)?;
    serve_blank(rt, alloc, &config, clock, inbox, outs, &mut links, &NoGate)
}

/// Whether serving ends with the fault of an inbox that fails at this call, and all pairs are back.
fn ends_at<R: Threads + Wait + Sync>(rt: &R, alloc: Global, call: u64) -> Result<bool, Memory> {
    let mut inbox = two_each(alloc)?;
    inbox.fail_at(alloc, call)?;
    let mut outs = outboxes(alloc)?;
    let ended = serve_two(rt, alloc, &mut inbox, &mut outs)?;
    let read = match &ended.tally {
        Ok(_) => false,
        Err(fault) => *fault == ServeFault::Read,
    };
    Ok(read && ended.pairs == MOST_EXTERNALS)
}

/// Whether the row counts two replies, of which so many were unsent, and the outbox took the rest.
fn counts(row: &TallyRow, out: &MemoryOutbox, unsent: u64) -> bool {
    row.taken == 2
        && row.unsent == unsent
        && row.replied.saturating_add(unsent) == 2
        && out.sent().len() as u64 == row.replied
}

/// Whether this is the announcement to a group that comes as so many-th, from 0: one for each item and
/// group, by the door of its family, with the seconds since 1000 (RFC 6887, sections 7.2 and 14.1).
fn is_announcement(datagram: &Datagram, number: u32) -> bool {
    let group = if number % 2 == 0 {
        Address::v4(224, 0, 0, 1)
    } else {
        Address([0xff, 2, 0, 0, 0, 0, 0, 0, 0, 0, 0, 0, 0, 0, 0, 1])
    };
    let items = (number / 2).saturating_add(1);
    let seconds = items.saturating_mul(200).to_be_bytes();
    let mut octets = [0; 24];
    octets[0] = 2;
    octets[1] = 0x80;
    octets[8] = seconds[0];
    octets[9] = seconds[1];
    octets[10] = seconds[2];
    octets[11] = seconds[3];
    datagram.peer == group
        && datagram.port == 5_350
        && u32::from(datagram.door) == number % 2
        && datagram.octets.items() == octets.as_slice()
}

/// Whether these are the announcements for four items, but for that of this number.
fn are_announcements(sent: &[Datagram], failing: Option<u64>) -> bool {
    let mut at = 0usize;
    for number in 0..8u32 {
        if failing == Some(u64::from(number)) {
            continue;
        }
        let Some(datagram) = sent.get(at) else {
            return false;
        };
        if !is_announcement(datagram, number) {
            return false;
        }
        at = at.saturating_add(1);
    }
    at == sent.len()
}

/// Whether the one send that an outbox refuses at this call is counted, and all others are made.
fn counts_at<R: Threads + Wait + Sync>(
    rt: &R,
    alloc: Global,
    outbox: usize,
    call: u64,
) -> Result<bool, Memory> {
    let mut inbox = two_each(alloc)?;
    let mut outs = outboxes(alloc)?;
    if outbox >= outs.len() || outs.len() <= MOST_EXTERNALS {
        return Ok(false);
    }
    outs[outbox].fail_at(alloc, call)?;
    let ended = serve_two(rt, alloc, &mut inbox, &mut outs)?;
    let unannounced = if outbox == MOST_EXTERNALS {
        Some(call)
    } else {
        None
    };
    match &ended.tally {
        Ok(tally) => match tally.items() {
            [first, second] => {
                let failed = [u64::from(outbox == 0), u64::from(outbox == 1)];
                Ok(
                    counts(first, &outs[0], failed[0])
                        && counts(second, &outs[1], failed[1])
                        && are_announcements(outs[MOST_EXTERNALS].sent(), unannounced),
                )
            }
            _ => Ok(false),
        },
        Err(_) => Ok(false),
    }
}

#[test]
fn the_inbox_fails(rt: HostRuntime) -> Result<(), Fail> {
    for call in 0..5u64 {
        assert!(rt; ends_at(&rt, rt.alloc(), call)?);
    }
    Ok(())
}

#[test]
fn outboxes_fail(rt: HostRuntime) -> Result<(), Fail> {
    for outbox in 0..2usize {
        for call in 0..2u64 {
            assert!(rt; counts_at(&rt, rt.alloc(), outbox, call)?);
        }
    }
    Ok(())
}

#[test]
fn the_outbox_of_announcements_fails(rt: HostRuntime) -> Result<(), Fail> {
    for call in 0..8u64 {
        assert!(rt; counts_at(&rt, rt.alloc(), MOST_EXTERNALS, call)?);
    }
    Ok(())
}
