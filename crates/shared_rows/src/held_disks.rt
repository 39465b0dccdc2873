//! Disks whose syncs wait for a lookup.

use lease_disk::{DiskPair, LeaseDisk, MemoryDisk};
use pcp_base::{Failed, Memory};
use std::alloc::Global;
use std::sync::Wait;
use std::sync::atomic::{AtomicBool, Ordering};
use std::thread;

/// How often a sync looks for the answer of the lookup.
const MOST_LOOKS: u32 = 1_000_000;

/// What syncs and a thread that looks up tell each other.
#[derive(Drop)]
pub(crate) struct Flags {
    /// syncs are to wait
    pub holds: AtomicBool,
    /// a sync waits
    pub held: AtomicBool,
    /// the lookup was answered
    pub looked: AtomicBool,
    /// the batch was served
    pub served: AtomicBool,
    /// a sync waited too long
    pub late: AtomicBool,
}

impl Flags {
    pub(crate) fn new() -> Flags {
        Flags {
            holds: AtomicBool::new(false),
            held: AtomicBool::new(false),
            looked: AtomicBool::new(false),
            served: AtomicBool::new(false),
            late: AtomicBool::new(false),
        }
    }

    /// Where syncs are to wait, waits until the lookup was answered, with a yield each time.
    fn hold(&self) {
        if !self.holds.load(Ordering::SeqCst) {
            return;
        }
        self.held.store(true, Ordering::SeqCst);
        for _ in 0..MOST_LOOKS {
            if self.looked.load(Ordering::SeqCst) {
                return;
            }
            thread::yield_now();
        }
        self.late.store(true, Ordering::SeqCst);
    }

    /// Waits until a sync waits, or none will.
    pub(crate) fn wait_for_sync<R: Wait>(&self, rt: &R) {
        for _ in rt.forever() {
            if self.held.load(Ordering::SeqCst) || self.served.load(Ordering::SeqCst) {
                return;
            }
            thread::yield_now();
        }
        unreachable!()
    }
}

/// A disk in memory that tells nothing of its octets.
#[derive(Drop)]
pub(crate) struct HeldDisk<'a> {
    flags: &'a Flags,
    disk: MemoryDisk,
}

impl<'a> LeaseDisk for HeldDisk<'a> {
    ghost use Rattle.std.specs.Prelude.{[], false};

    ghost tells = { ⊥ };

    ghost lost = { λ _. false };

    ghost seen = { λ _. [] };

    ghost may_leave = { λ _ _. ⊥ };

    ghost moment = { λ _. 0 };

    ghost left_since = { λ _ _ _. ⊥ };

    ghost faults = { λ d. d.disk.calls.faults };

    ghost seen_now = { λ _ told. told };

    ghost counts_now = { λ _ _ _ _ now. now };

    ghost since_earlier = { λ _ _ _ _ _ was. was };

    ghost only_now = { λ _ _ was. was };

    fn len(&mut self) -> Result<u64, Failed> {
        self.disk.len()
    }

    fn read_at(&mut self, place: u64, piece: &mut [u8]) -> Result<usize, Failed> {
        self.disk.read_at(place, piece)
    }

    fn write_at(&mut self, place: u64, piece: &[u8]) -> Result<(), Failed> {
        self.disk.write_at(place, piece)
    }

    fn cut(&mut self, length: u64) -> Result<(), Failed> {
        self.disk.cut(length)
    }

    fn sync(&mut self) -> Result<(), Failed> {
        self.flags.hold();
        self.disk.sync()
    }

    fn is_lost(&self) -> bool {
        false
    }
}

fn blank(alloc: Global, flags: &Flags) -> Result<HeldDisk, Memory> {
    let disk = MemoryDisk::new(alloc, 1 << 24)?;
    Ok(HeldDisk { flags, disk })
}

/// One blank pair.
pub(crate) fn held_pair(alloc: Global, flags: &Flags) -> Result<Vec<DiskPair<HeldDisk>>, Memory> {
    let mut pairs = Vec::new(alloc);
    pairs.push(DiskPair {
        a: blank(alloc, flags)?,
        b: blank(alloc, flags)?,
    })?;
    Ok(pairs)
}
