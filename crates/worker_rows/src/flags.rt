//! Edges that hold one another by flags.
ghost use Rattle.std.specs.Prelude.{◌≤◌, length};
ghost use Rattle.pcp_io.specs.declared.inboxes.TheConstants.{LONGEST_DATAGRAM};

use crate::requests::granted_by;
use pcp_base::{Address, Endpoint, Failed, Protocol};
use pcp_io::{Gate, Inbox, Incoming, LaneAsk, LaneLink, MemoryInbox, Outbox};
use std::sync::atomic::{AtomicBool, Ordering};
use std::thread;

/// How often a flag is looked for.
const MOST_LOOKS: u32 = 1_000_000;

/// What has happened.
#[derive(Drop)]
pub(crate) struct Flags {
    /// shard 1's reply was sent
    pub replied: AtomicBool,
    /// lane 0's answer was taken
    pub answered: AtomicBool,
    /// a flag was looked for too often
    pub late: AtomicBool,
}

impl Flags {
    pub(crate) fn new() -> Flags {
        Flags {
            replied: AtomicBool::new(false),
            answered: AtomicBool::new(false),
            late: AtomicBool::new(false),
        }
    }

    /// Looks for a flag of these, with a yield each time.
    fn wait_for(&self, flag: &AtomicBool) {
        for _ in 0..MOST_LOOKS {
            if flag.load(Ordering::SeqCst) {
                return;
            }
            thread::yield_now();
        }
        self.late.store(true, Ordering::SeqCst);
    }
}

/// Holds shard 0 until shard 1's reply is sent.
#[derive(Clone, Copy)]
pub(crate) struct HoldingGate<'a> {
    pub flags: &'a Flags,
}

impl<'a> Gate for HoldingGate<'a> {
    fn pause(&self, shard: u32) {
        if shard == 0 {
            self.flags.wait_for(&self.flags.replied);
        }
    }
}

/// Holds its stop until lane 0 has answered.
#[derive(Drop)]
pub(crate) struct HoldingInbox<'a> {
    pub flags: &'a Flags,
    pub inbox: MemoryInbox,
}

impl<'a> Inbox for HoldingInbox<'a> {
    ghost use Rattle.std.specs.Prelude.{Some};

    ghost left = { λ s. Some s.inbox.left };

    ghost faults = { λ s. s.inbox.calls.faults };

    fn take(&mut self, room: &mut [u8]) -> Result<Incoming, Failed> {
        let incoming = self.inbox.take(room)?;
        if incoming == Incoming::Stop {
            self.flags.wait_for(&self.flags.answered);
        }
        Ok(incoming)
    }

    fn answered(&mut self, order: u32, text: &[u8]) {
        self.inbox.answered(order, text);
    }
}

/// Counts the grants that it took, and sets the flag of shard 1 where it is that one's.
#[derive(Drop)]
pub(crate) struct TellingOutbox<'a> {
    pub flags: &'a Flags,
    pub shard: usize,
    pub grants: u32,
}

impl<'a> Outbox for TellingOutbox<'a> {
    ghost use Rattle.std.specs.Prelude.{None};

    ghost sent = { λ _. None };

    ghost faults = { λ _. 0 };

    fn send(&mut self, _door: u8, _peer: Address, _port: u16, octets: &[u8]) -> Result<(), Failed> {
        if granted_by(octets).is_some() {
            self.grants = self.grants.saturating_add(1);
        }
        if self.shard == 1 {
            self.flags.replied.store(true, Ordering::SeqCst);
        }
        Ok(())
    }
}

/// Asks what is left of: quiet, then a look, then a stop. It sets the flag of an answer.
#[derive(Drop)]
pub(crate) struct TellingLink<'a> {
    pub flags: &'a Flags,
    pub left: u8,
}

// Whose UDP port 1024 is.
fn look() -> LaneAsk {
    LaneAsk::Look {
        protocol: Protocol::Udp,
        port: 1_024,
        remote: Address::v4(198, 51, 100, 7),
        remote_port: 53,
    }
}

impl<'a> LaneLink for TellingLink<'a> {
    ghost use Rattle.std.specs.Prelude.{None};

    ghost asks = { λ _. None };

    ghost answers = { λ _. None };

    ghost faults = { λ _. 0 };

    fn ask(&mut self, _over: bool) -> Result<LaneAsk, Failed> {
        let left = self.left;
        self.left = left.saturating_sub(1);
        Ok(match left {
            0 => LaneAsk::Stop,
            1 => look(),
            _ => LaneAsk::Quiet,
        })
    }

    fn answer(&mut self, _owner: Option<Endpoint>) -> Result<(), Failed> {
        self.flags.answered.store(true, Ordering::SeqCst);
        Ok(())
    }
}
