//! A queue that overflows behind a held gate, is emptied, and is filled again.
ghost use Rattle.std.specs.Prelude.{◌≤◌, length};
ghost use Rattle.pcp_io.specs.declared.inboxes.TheConstants.{LONGEST_DATAGRAM};

use crate::configs::config_of;
use crate::counts::{Counts, counting_outboxes};
use crate::edges::{silent_links, still_clock};
use crate::requests::{Ask, request};
use crate::serving::serve_blank;
use job_workers::TallyRow;
use pcp_base::{Failed, Memory};
use pcp_io::{Gate, Inbox, InboxItem, Incoming, MemoryInbox};
use std::alloc::Global;
use std::sync::Wait;
use std::sync::atomic::{AtomicBool, AtomicU32, Ordering};
use std::test::Fail;
use std::thread::Threads;

/// How many jobs a queue holds.
const MOST_JOBS: u16 = 1_024;

/// How many datagrams a call of the house answers at most.
const MOST_BATCH: u32 = 16;

/// How many requests find the queue full.
const TOO_MANY: u16 = 10;

/// A request for the gate, as many as the queue holds, and some more.
const FIRST: u16 = 1 + MOST_JOBS + TOO_MANY;

/// What has happened at the gate.
#[derive(Drop)]
struct Passed {
    /// batches that stood at the gate
    batches: AtomicU32,
    /// those that do or may go on
    open: AtomicU32,
    /// replies that had left at the last batch
    sent: AtomicU32,
    /// a batch stood at the gate although none of the replies before had left
    kept: AtomicBool,
    /// batches that answered what was put first
    first: AtomicU32,
}

/// Holds the first batch until the queue has overflowed.
#[derive(Clone, Copy)]
struct CountingGate<'a> {
    counts: &'a Counts,
    passed: &'a Passed,
}

impl<'a> Gate for CountingGate<'a> {
    fn pause(&self, _shard: u32) {
        let sent = self.counts.sent.load(Ordering::SeqCst);
        let before = self.passed.sent.swap(sent, Ordering::SeqCst);
        let batches = self.passed.batches.fetch_add(1, Ordering::SeqCst);
        if batches > 0 && sent == before {
            self.passed.kept.store(true, Ordering::SeqCst);
        }
        self.counts.wait_for(&self.passed.open, 1);
    }
}

/// Gives a request, then those that overflow the queue once that one stands at the gate, and the others
/// once all that were put are answered.
#[derive(Drop)]
struct FillingInbox<'a> {
    counts: &'a Counts,
    passed: &'a Passed,
    inbox: MemoryInbox,
    given: u16,
}

impl<'a> FillingInbox<'a> {
    /// Waits for what comes before the next item.
    fn wait(&self) {
        if self.given == 1 {
            self.counts.wait_for(&self.passed.batches, 1);
        }
        if self.given == FIRST {
            self.passed.open.store(1, Ordering::SeqCst);
            let put = u32::from(MOST_JOBS) + 1;
            self.counts.wait_for(&self.counts.sent, put);
            let batches = self.passed.batches.load(Ordering::SeqCst);
            self.passed.first.store(batches, Ordering::SeqCst);
        }
    }
}

impl<'a> Inbox for FillingInbox<'a> {
    ghost use Rattle.std.specs.Prelude.{Some};

    ghost left = { λ s. Some s.inbox.left };

    ghost faults = { λ s. s.inbox.calls.faults };

    fn take(&mut self, room: &mut [u8]) -> Result<Incoming, Failed> {
        self.wait();
        self.given = self.given.saturating_add(1);
        self.inbox.take(room)
    }

    fn answered(&mut self, order: u32, text: &[u8]) {
        self.inbox.answered(order, text);
    }
}

/// Requests that overflow the queue, and then as many as it holds.
fn items(alloc: Global) -> Result<Vec<InboxItem>, Memory> {
    let mut items = Vec::new(alloc);
    for number in 0..FIRST + MOST_JOBS {
        items.push(InboxItem::Packet(request(alloc, Ask { shard: 0, number })?))?;
    }
    Ok(items)
}

/// Whether those that found the queue full were dropped, and all others answered.
fn dropped_few(row: &TallyRow) -> bool {
    row.full == u64::from(TOO_MANY)
        && row.taken == 2 * u64::from(MOST_JOBS) + 1
        && row.replied == row.taken
        && row.starved == 0
}

/// Whether the queue takes jobs again.
fn takes_again<R: Threads + Wait + Sync>(
    rt: &R,
    alloc: Global,
    counts: &Counts,
    passed: &Passed,
) -> Result<bool, Memory> {
    let config = config_of(alloc, 1)?;
    let mut inbox = FillingInbox {
        counts,
        passed,
        inbox: MemoryInbox::new(alloc, items(alloc)?)?,
        given: 0,
    };
    let mut outs = counting_outboxes(alloc, counts)?;
    let mut links = silent_links(alloc)?;
    let gate = CountingGate { counts, passed };
    let clock = still_clock(alloc)?;
    let ended = serve_blank(
        rt, alloc, &config, clock, &mut inbox, &mut outs, &mut links, &gate,
    )?;
    match &ended.tally {
        Ok(tally) => Ok(tally.items().first().map_or(false, dropped_few)),
        Err(_) => Ok(false),
    }
}

#[test]
fn a_queue_that_overflowed_takes_jobs_again(rt: HostRuntime) -> Result<(), Fail> {
    let counts = Counts::new();
    let passed = Passed {
        batches: AtomicU32::new(0),
        open: AtomicU32::new(0),
        sent: AtomicU32::new(0),
        kept: AtomicBool::new(false),
        first: AtomicU32::new(0),
    };
    let taken = takes_again(&rt, rt.alloc(), &counts, &passed)?;
    let first = passed.first.load(Ordering::SeqCst);
    assert!(rt; taken && !counts.is_late());
    assert!(rt; !passed.kept.load(Ordering::SeqCst));
    assert!(rt; first <= 1 + u32::from(MOST_JOBS) / MOST_BATCH, "{first}");
    Ok(())
}
