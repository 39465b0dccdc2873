//! Disks that fail while a house is served, and an inbox that waits for that.
ghost use Rattle.std.specs.Prelude.{◌≡◌, ◌≤◌, length};
ghost use Rattle.pcp_io.specs.CallLogs.{one_more};
ghost use Rattle.pcp_io.specs.declared.inboxes.TheConstants.{LONGEST_DATAGRAM};

use lease_disk::{DiskPair, LeaseDisk, MemoryDisk};
use pcp_base::{Failed, MOST_EXTERNALS, Memory};
use pcp_io::{Inbox, Incoming, MemoryInbox};
use std::alloc::Global;
use std::sync::atomic::{AtomicBool, AtomicU32, Ordering};
use std::thread;

/// How often the inbox looks whether all disks have failed.
const MOST_LOOKS: u32 = 1_000_000;

const ROOM: u64 = 1 << 16;

/// What the inbox and the disks tell each other.
#[derive(Drop)]
pub(crate) struct Flags {
    /// the inbox had a call
    pub serving: AtomicBool,
    /// how many disks have failed
    pub failed: AtomicU32,
    /// the inbox waited too long
    pub late: AtomicBool,
}

impl Flags {
    pub(crate) fn new() -> Flags {
        Flags {
            serving: AtomicBool::new(false),
            failed: AtomicU32::new(0),
            late: AtomicBool::new(false),
        }
    }

    /// Waits until so many disks have failed, with a yield each time.
    fn wait_for(&self, count: u32) {
        for _ in 0..MOST_LOOKS {
            if self.failed.load(Ordering::SeqCst) >= count {
                return;
            }
            thread::yield_now();
        }
        self.late.store(true, Ordering::SeqCst);
    }
}

/// What fails of a disk.
#[derive(Clone, Copy, PartialEq, Eq)]
pub(crate) enum Failing {
    /// Nothing does.
    Nothing,
    /// The first write while the house is served does.
    Write,
    /// The first sync while the house is served does, and each write, cut and sync behind it.
    Sync,
    /// Nothing does, though it says that it is lost.
    Claimed,
}

/// A disk in memory that tells nothing of its octets.
#[derive(Drop)]
pub(crate) struct FailingDisk<'a> {
    flags: &'a Flags,
    disk: MemoryDisk,
    failing: Failing,
    lost: bool,
    faults: u64,
}

impl<'a> FailingDisk<'a> {
    /// Counts a fault.
    fn fail(&mut self) -> Failed
        ensures { self.new.faults ≡ one_more self.old.faults }
    {
        self.faults = self.faults.saturating_add(1);
        Failed
    }

    /// Whether it is lost, and takes nothing any more.
    fn refuses(&self) -> bool {
        self.lost && self.failing != Failing::Claimed
    }

    /// Whether this call is the first of its kind that is to fail, which then is told.
    fn begins_to_fail(&mut self, failing: Failing) -> bool
        ensures { self.new.faults ≡ self.old.faults }
    {
        if self.failing != failing || !self.flags.serving.load(Ordering::SeqCst) {
            return false;
        }
        self.failing = Failing::Nothing;
        self.flags.failed.fetch_add(1, Ordering::SeqCst);
        true
    }
}

impl<'a> LeaseDisk for FailingDisk<'a> {
    ghost use Rattle.std.specs.Prelude.{[]};

    ghost tells = { ⊥ };

    ghost lost = { λ d. d.lost };

    ghost seen = { λ _. [] };

    ghost may_leave = { λ _ _. ⊥ };

    ghost moment = { λ _. 0 };

    ghost left_since = { λ _ _ _. ⊥ };

    ghost faults = { λ d. d.faults };

    ghost seen_now = { λ _ told. told };

    ghost counts_now = { λ _ _ _ _ now. now };

    ghost since_earlier = { λ _ _ _ _ _ was. was };

    ghost only_now = { λ _ _ was. was };

    fn len(&mut self) -> Result<u64, Failed> {
        match self.disk.len() {
            Ok(size) => Ok(size),
            Err(Failed) => Err(self.fail()),
        }
    }

    fn read_at(&mut self, place: u64, piece: &mut [u8]) -> Result<usize, Failed> {
        match self.disk.read_at(place, piece) {
            Ok(count) => Ok(count),
            Err(Failed) => Err(self.fail()),
        }
    }

    fn write_at(&mut self, place: u64, piece: &[u8]) -> Result<(), Failed> {
        if self.refuses() || self.begins_to_fail(Failing::Write) {
            return Err(self.fail());
        }
        match self.disk.write_at(place, piece) {
            Ok(()) => Ok(()),
            Err(Failed) => Err(self.fail()),
        }
    }

    fn cut(&mut self, length: u64) -> Result<(), Failed> {
        if self.refuses() {
            return Err(self.fail());
        }
        match self.disk.cut(length) {
            Ok(()) => Ok(()),
            Err(Failed) => Err(self.fail()),
        }
    }

    fn sync(&mut self) -> Result<(), Failed> {
        if self.refuses() {
            return Err(self.fail());
        }
        if self.begins_to_fail(Failing::Sync) {
            self.lost = true;
            return Err(self.fail());
        }
        match self.disk.sync() {
            Ok(()) => Ok(()),
            Err(Failed) => Err(self.fail()),
        }
    }

    fn is_lost(&self) -> bool {
        self.lost
    }
}

fn blank(alloc: Global, flags: &Flags, failing: Failing) -> Result<FailingDisk, Memory> {
    Ok(FailingDisk {
        flags,
        disk: MemoryDisk::new(alloc, ROOM)?,
        failing,
        lost: failing == Failing::Claimed,
        faults: 0,
    })
}

/// Pairs of blank disks for all external addresses that may be. Of the first ones the first sides fail so.
pub(crate) fn failing_pairs<'a>(
    alloc: Global,
    flags: &'a Flags,
    failing: &[Failing],
) -> Result<Vec<DiskPair<FailingDisk<'a>>>, Memory> {
    let mut pairs = Vec::new(alloc);
    for place in 0..MOST_EXTERNALS {
        let first = failing.get(place).copied().unwrap_or(Failing::Nothing);
        pairs.push(DiskPair {
            a: blank(alloc, flags, first)?,
            b: blank(alloc, flags, Failing::Nothing)?,
        })?;
    }
    Ok(pairs)
}

/// Gives so many items at once, and the others once as many disks have failed.
#[derive(Drop)]
pub(crate) struct WaitingInbox<'a> {
    pub flags: &'a Flags,
    pub inbox: MemoryInbox,
    pub at_once: u32,
    pub taken: u32,
}

impl<'a> Inbox for WaitingInbox<'a> {
    ghost use Rattle.std.specs.Prelude.{Some};

    ghost left = { λ s. Some s.inbox.left };

    ghost faults = { λ s. s.inbox.calls.faults };

    fn take(&mut self, room: &mut [u8]) -> Result<Incoming, Failed> {
        self.flags.serving.store(true, Ordering::SeqCst);
        if self.taken == self.at_once {
            self.flags.wait_for(self.at_once);
        }
        self.taken = self.taken.saturating_add(1);
        self.inbox.take(room)
    }

    fn answered(&mut self, order: u32, text: &[u8]) {
        self.inbox.answered(order, text);
    }
}
