//! Edges that count what is done, and wait for one another by these counts.
ghost use Rattle.std.specs.Prelude.{◌≤◌, length};
ghost use Rattle.pcp_io.specs.declared.inboxes.TheConstants.{LONGEST_DATAGRAM};

use crate::requests::granted_by;
use pcp_base::{Address, Failed, MOST_EXTERNALS, Memory};
use pcp_io::{Inbox, Incoming, MemoryInbox, Outbox};
use std::alloc::Global;
use std::sync::atomic::{AtomicBool, AtomicU32, Ordering};
use std::thread;

/// How often a count is looked at.
const MOST_LOOKS: u32 = 1_000_000;

/// What has happened.
#[derive(Drop)]
pub(crate) struct Counts {
    /// grants that were sent
    pub sent: AtomicU32,
    /// answers of lanes that were taken
    pub answered: AtomicU32,
    /// a count was looked at too often
    pub late: AtomicBool,
}

impl Counts {
    pub(crate) fn new() -> Counts {
        Counts {
            sent: AtomicU32::new(0),
            answered: AtomicU32::new(0),
            late: AtomicBool::new(false),
        }
    }

    /// Waits until a count is as great, with a yield each time. It waits no more once that took too long.
    pub(crate) fn wait_for(&self, count: &AtomicU32, least: u32) {
        for _ in 0..MOST_LOOKS {
            if count.load(Ordering::SeqCst) >= least || self.is_late() {
                return;
            }
            thread::yield_now();
        }
        self.late.store(true, Ordering::SeqCst);
    }

    pub(crate) fn is_late(&self) -> bool {
        self.late.load(Ordering::SeqCst)
    }
}

/// Gives each item once there are as many replies, and as many answers of lanes where lanes ask, as items
/// were given before.
#[derive(Drop)]
pub(crate) struct ChainedInbox<'a> {
    pub counts: &'a Counts,
    pub inbox: MemoryInbox,
    pub do_lanes_ask: bool,
    pub given: u32,
}

impl<'a> Inbox for ChainedInbox<'a> {
    ghost use Rattle.std.specs.Prelude.{Some};

    ghost left = { λ s. Some s.inbox.left };

    ghost faults = { λ s. s.inbox.calls.faults };

    fn take(&mut self, room: &mut [u8]) -> Result<Incoming, Failed> {
        self.counts.wait_for(&self.counts.sent, self.given);
        if self.do_lanes_ask {
            self.counts.wait_for(&self.counts.answered, self.given);
        }
        self.given = self.given.saturating_add(1);
        self.inbox.take(room)
    }

    fn answered(&mut self, order: u32, text: &[u8]) {
        self.inbox.answered(order, text);
    }
}

/// Counts the grants that it took.
#[derive(Drop)]
pub(crate) struct CountingOutbox<'a> {
    pub counts: &'a Counts,
}

impl<'a> Outbox for CountingOutbox<'a> {
    ghost use Rattle.std.specs.Prelude.{None};

    ghost sent = { λ _. None };

    ghost faults = { λ _. 0 };

    fn send(&mut self, _door: u8, _peer: Address, _port: u16, octets: &[u8]) -> Result<(), Failed> {
        if granted_by(octets).is_some() {
            self.counts.sent.fetch_add(1, Ordering::SeqCst);
        }
        Ok(())
    }
}

/// An outbox for each external address that may be, and one for the dispatcher.
pub(crate) fn counting_outboxes(
    alloc: Global,
    counts: &Counts,
) -> Result<Vec<CountingOutbox>, Memory> {
    let mut outs = Vec::new(alloc);
    for _ in 0..MOST_EXTERNALS + 1 {
        outs.push(CountingOutbox { counts })?;
    }
    Ok(outs)
}
