//! A loss that finds its queue full behind a held gate.
ghost use Rattle.std.specs.Prelude.{◌≤◌, length};
ghost use Rattle.pcp_io.specs.declared.inboxes.TheConstants.{LONGEST_DATAGRAM};

use crate::configs::config_of;
use crate::edges::{outboxes, silent_links, still_clock};
use crate::requests::{Ask, request};
use crate::serving::serve_blank;
use job_workers::TallyRow;
use pcp_base::{Address, Failed, Memory};
use pcp_io::{Gate, Inbox, InboxItem, Incoming, MemoryInbox};
use std::alloc::Global;
use std::sync::Wait;
use std::sync::atomic::{AtomicBool, Ordering};
use std::test::Fail;
use std::thread;
use std::thread::Threads;

/// How many jobs a queue holds.
const MOST_JOBS: u16 = 1_024;

/// How often a flag is looked for.
const MOST_LOOKS: u32 = 1_000_000;

/// What has happened.
#[derive(Drop)]
struct Flags {
    /// a batch stands at the gate
    held: AtomicBool,
    /// the dispatcher has handed on all items
    handed: AtomicBool,
    /// a flag was looked for too often
    late: AtomicBool,
}

impl Flags {
    /// Looks for a flag of these, with a yield each time.
    fn wait_for(&self, flag: &AtomicBool) {
        for _ in 0..MOST_LOOKS {
            if flag.load(Ordering::SeqCst) {
                return;
            }
            thread::yield_now();
        }
        self.late.store(true, Ordering::SeqCst);
    }
}

/// Holds each batch until all items are handed on.
#[derive(Clone, Copy)]
struct HeldGate<'a> {
    flags: &'a Flags,
}

impl<'a> Gate for HeldGate<'a> {
    fn pause(&self, _shard: u32) {
        self.flags.held.store(true, Ordering::SeqCst);
        self.flags.wait_for(&self.flags.handed);
    }
}

/// Gives an item, the others once that one stands at the gate, and then its stop.
#[derive(Drop)]
struct FillingInbox<'a> {
    flags: &'a Flags,
    inbox: MemoryInbox,
    left: u16,
    is_first: bool,
}

impl<'a> Inbox for FillingInbox<'a> {
    ghost use Rattle.std.specs.Prelude.{Some};

    ghost left = { λ s. Some s.inbox.left };

    ghost faults = { λ s. s.inbox.calls.faults };

    fn take(&mut self, room: &mut [u8]) -> Result<Incoming, Failed> {
        if self.left == 0 {
            self.flags.handed.store(true, Ordering::SeqCst);
        } else if !self.is_first {
            self.flags.wait_for(&self.flags.held);
        }
        self.is_first = false;
        self.left = self.left.saturating_sub(1);
        self.inbox.take(room)
    }

    fn answered(&mut self, order: u32, text: &[u8]) {
        self.inbox.answered(order, text);
    }
}

/// A request for the gate, as many as the queue holds, and a loss.
fn filling_items(alloc: Global) -> Result<Vec<InboxItem>, Memory> {
    let mut items = Vec::new(alloc);
    for number in 0..MOST_JOBS + 1 {
        items.push(InboxItem::Packet(request(alloc, Ask { shard: 0, number })?))?;
    }
    items.push(InboxItem::Lose(1, Address::v4(192, 0, 2, 100)))?;
    Ok(items)
}

/// Whether all were taken, the loss too, and none was dropped.
fn took_all(row: &TallyRow) -> bool {
    row.taken == u64::from(MOST_JOBS) + 2 && row.full == 0 && row.starved == 0
}

/// Whether the loss waits for room, and is done before the stop.
fn waits<R: Threads + Wait + Sync>(rt: &R, alloc: Global, flags: &Flags) -> Result<bool, Memory> {
    let config = config_of(alloc, 1)?;
    let mut inbox = FillingInbox {
        flags,
        inbox: MemoryInbox::new(alloc, filling_items(alloc)?)?,
        left: MOST_JOBS + 2,
        is_first: true,
    };
    let mut outs = outboxes(alloc)?;
    let mut links = silent_links(alloc)?;
    let gate = HeldGate { flags };
    let clock = still_clock(alloc)?;
    let ended = serve_blank(
        rt, alloc, &config, clock, &mut inbox, &mut outs, &mut links, &gate,
    )?;
    match &ended.tally {
        Ok(tally) => Ok(tally.items().first().map_or(false, took_all)),
        Err(_) => Ok(false),
    }
}

#[test]
fn a_loss_waits_at_a_full_queue(rt: HostRuntime) -> Result<(), Fail> {
    let flags = Flags {
        held: AtomicBool::new(false),
        handed: AtomicBool::new(false),
        late: AtomicBool::new(false),
    };
    let done = waits(&rt, rt.alloc(), &flags)?;
    assert!(rt; done && !flags.late.load(Ordering::SeqCst));
    Ok(())
}
