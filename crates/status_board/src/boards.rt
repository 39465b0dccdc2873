//! The words that the threads of a server leave their numbers in.
use crate::numbers::{JobCounts, ShardNumbers};
use pcp_base::{Memory, Moment};
use std::alloc::Global;
use std::sync::atomic::{AtomicBool, AtomicI64, AtomicU64, Ordering};

/// Where there is no moment.
const NEVER: u64 = u64::MAX;

/// How long people aren't told again of one external address whose disk fails, in milliseconds.
const TOLD_AGAIN_MS: u64 = 60_000;

/// The error of a disk that has none.
const NO_ERROR: i64 = 0;

/// The error of a disk that isn't the system's.
const OWN_ERROR: i64 = -1;

/// What is left of one external address.
#[derive(Drop)]
pub(crate) struct ShardWords {
    // the ask for which its numbers were left last
    answered: AtomicU64,
    moment: AtomicU64,
    base: AtomicU64,
    leases: AtomicU64,
    free_tcp: AtomicU64,
    free_udp: AtomicU64,
    taken: AtomicU64,
    replied: AtomicU64,
    silent: AtomicU64,
    unsent: AtomicU64,
    faulted: AtomicU64,
    starved: AtomicU64,
    // what the dispatcher dropped: at a full queue, and for want of memory
    full: AtomicU64,
    starved_before: AtomicU64,
    // whether its last call met a fault of a disk, and when one did last
    fails: AtomicBool,
    fault_moment: AtomicU64,
    // when people were told last that its disk fails, in milliseconds
    told: AtomicU64,
    // of each side: its octets, and the error of its last call that failed
    octets: [AtomicU64; 2],
    errors: [AtomicI64; 2],
}

/// The count that a word has.
fn count_in(word: &AtomicU64) -> u32 {
    u32::try_from(word.load(Ordering::SeqCst)).unwrap_or(u32::MAX)
}

/// The error that a word has, if any: the system's number, or none where it isn't the system's.
fn error_in(word: &AtomicI64) -> Option<Option<i32>> {
    match word.load(Ordering::SeqCst) {
        NO_ERROR => None,
        OWN_ERROR => Some(None),
        number => Some(i32::try_from(number).ok()),
    }
}

impl ShardWords {
    fn new() -> ShardWords {
        ShardWords {
            answered: AtomicU64::new(0),
            moment: AtomicU64::new(0),
            base: AtomicU64::new(0),
            leases: AtomicU64::new(0),
            free_tcp: AtomicU64::new(0),
            free_udp: AtomicU64::new(0),
            taken: AtomicU64::new(0),
            replied: AtomicU64::new(0),
            silent: AtomicU64::new(0),
            unsent: AtomicU64::new(0),
            faulted: AtomicU64::new(0),
            starved: AtomicU64::new(0),
            full: AtomicU64::new(0),
            starved_before: AtomicU64::new(0),
            fails: AtomicBool::new(false),
            fault_moment: AtomicU64::new(NEVER),
            told: AtomicU64::new(NEVER),
            octets: [AtomicU64::new(0), AtomicU64::new(0)],
            errors: [AtomicI64::new(NO_ERROR), AtomicI64::new(NO_ERROR)],
        }
    }

    fn leave(&self, numbers: &ShardNumbers) {
        self.moment.store(numbers.moment, Ordering::SeqCst);
        self.base.store(numbers.base, Ordering::SeqCst);
        self.leases
            .store(u64::from(numbers.leases), Ordering::SeqCst);
        self.free_tcp
            .store(u64::from(numbers.free_tcp), Ordering::SeqCst);
        self.free_udp
            .store(u64::from(numbers.free_udp), Ordering::SeqCst);
    }

    fn count(&self, counts: &JobCounts) {
        self.taken.store(counts.taken, Ordering::SeqCst);
        self.replied.store(counts.replied, Ordering::SeqCst);
        self.silent.store(counts.silent, Ordering::SeqCst);
        self.unsent.store(counts.unsent, Ordering::SeqCst);
        self.faulted.store(counts.faulted, Ordering::SeqCst);
        self.starved.store(counts.starved, Ordering::SeqCst);
    }

    /// The numbers that were left last.
    pub(crate) fn numbers(&self) -> ShardNumbers {
        ShardNumbers {
            moment: self.moment.load(Ordering::SeqCst),
            base: self.base.load(Ordering::SeqCst),
            leases: count_in(&self.leases),
            free_tcp: count_in(&self.free_tcp),
            free_udp: count_in(&self.free_udp),
        }
    }

    /// What became of its jobs, what the dispatcher dropped for want of memory among it.
    pub(crate) fn counts(&self) -> JobCounts {
        let starved = self.starved.load(Ordering::SeqCst);
        let before = self.starved_before.load(Ordering::SeqCst);
        JobCounts {
            taken: self.taken.load(Ordering::SeqCst),
            replied: self.replied.load(Ordering::SeqCst),
            silent: self.silent.load(Ordering::SeqCst),
            unsent: self.unsent.load(Ordering::SeqCst),
            faulted: self.faulted.load(Ordering::SeqCst),
            starved: starved.saturating_add(before),
        }
    }

    /// What was dropped at its full queue.
    pub(crate) fn full(&self) -> u64 {
        self.full.load(Ordering::SeqCst)
    }

    /// Whether its last call met a fault of a disk.
    pub(crate) fn fails(&self) -> bool {
        self.fails.load(Ordering::SeqCst)
    }

    /// When a call met a fault of a disk last, if one did.
    pub(crate) fn fault_moment(&self) -> Option<Moment> {
        Moment::of(self.fault_moment.load(Ordering::SeqCst))
    }

    /// How many octets both sides of its journal have.
    pub(crate) fn octets(&self) -> u64 {
        let [a, b] = &self.octets;
        a.load(Ordering::SeqCst)
            .saturating_add(b.load(Ordering::SeqCst))
    }

    /// Whether people are to be told now that its disk fails. Of several who ask at once one is to tell
    /// them.
    fn is_to_tell(&self, time: u64) -> bool {
        let before = self.told.load(Ordering::SeqCst);
        let is_due = before == NEVER || before.saturating_add(TOLD_AGAIN_MS) <= time;
        is_due
            && self
                .told
                .compare_exchange(before, time, Ordering::SeqCst, Ordering::SeqCst)
                .is_ok()
    }

    /// Which side had an error last, the even one first, and the system's number of it; none where it
    /// isn't the system's.
    pub(crate) fn error(&self) -> Option<(usize, Option<i32>)> {
        let [a, b] = &self.errors;
        match error_in(a) {
            Some(error) => Some((0, error)),
            None => Some((1, error_in(b)?)),
        }
    }
}

/// The numbers of a server, as its threads left them. Calls for an external address that isn't change
/// nothing.
#[derive(Drop)]
pub struct Board {
    pub(crate) shards: Vec<ShardWords>,
    // how often somebody asked for the numbers of all external addresses
    asked: AtomicU64,
    dropped: AtomicU64,
    clock_offset: AtomicI64,
    serves: AtomicBool,
    is_lost: AtomicBool,
}

impl Board {
    /// The board of so many external addresses, without a number. The one error is want of memory.
    pub fn new(alloc: Global, externals: usize) -> Result<Board, Memory> {
        let mut shards = Vec::new(alloc);
        for _ in 0..externals {
            shards.push(ShardWords::new())?;
        }
        Ok(Board {
            shards,
            asked: AtomicU64::new(0),
            dropped: AtomicU64::new(0),
            clock_offset: AtomicI64::new(0),
            serves: AtomicBool::new(false),
            is_lost: AtomicBool::new(false),
        })
    }

    fn shard(&self, place: u32) -> Option<&ShardWords> {
        self.shards.get(place as usize)
    }

    /// Asks each worker for the numbers of its external address.
    pub fn ask(&self) {
        let _before = self.asked.fetch_add(1, Ordering::SeqCst);
    }

    /// Whether the worker of this external address is asked for its numbers, and hasn't left them.
    pub fn is_asked(&self, place: u32) -> bool {
        match self.shard(place) {
            Some(words) => {
                words.answered.load(Ordering::SeqCst) < self.asked.load(Ordering::SeqCst)
            }
            None => false,
        }
    }

    /// Whether all workers have left their numbers since they were asked last.
    pub fn is_answered(&self) -> bool {
        let asked = self.asked.load(Ordering::SeqCst);
        self.shards
            .iter()
            .all(|words| words.answered.load(Ordering::SeqCst) >= asked)
    }

    /// Leaves the numbers of an external address. Which ask they answer is read before: what is asked
    /// later isn't answered by them.
    pub fn leave(&self, place: u32, asked: u64, numbers: &ShardNumbers) {
        if let Some(words) = self.shard(place) {
            words.leave(numbers);
            words.answered.store(asked, Ordering::SeqCst);
        }
    }

    /// Leaves that the numbers of an external address that were left last answer this ask too: it had no
    /// others.
    pub fn keep(&self, place: u32, asked: u64) {
        if let Some(words) = self.shard(place) {
            words.answered.store(asked, Ordering::SeqCst);
        }
    }

    /// How often somebody asked.
    pub fn asks(&self) -> u64 {
        self.asked.load(Ordering::SeqCst)
    }

    /// Leaves what became of the jobs of an external address.
    pub fn count(&self, place: u32, counts: &JobCounts) {
        if let Some(words) = self.shard(place) {
            words.count(counts);
        }
    }

    /// Leaves what the dispatcher dropped for an external address: at its full queue, and for want of
    /// memory.
    pub fn count_dropped(&self, place: u32, full: u64, starved: u64) {
        if let Some(words) = self.shard(place) {
            words.full.store(full, Ordering::SeqCst);
            words.starved_before.store(starved, Ordering::SeqCst);
        }
    }

    /// Leaves how a call for an external address ended at this moment: by a fault of a disk, or not.
    pub fn call_ended(&self, place: u32, moment: Moment, is_fault: bool) {
        if let Some(words) = self.shard(place) {
            words.fails.store(is_fault, Ordering::SeqCst);
            if is_fault {
                words.fault_moment.store(moment.get(), Ordering::SeqCst);
            }
        }
    }

    /// Leaves how many octets a side of a journal has: side 0 is the even one.
    pub fn size(&self, place: u32, side: usize, octets: u64) {
        if let Some(words) = self.shard(place)
            && let Some(word) = words.octets.get(side)
        {
            word.store(octets, Ordering::SeqCst);
        }
    }

    /// Leaves the error of a side's last call that failed: the system's number, or none where it isn't
    /// the system's.
    pub fn disk_failed(&self, place: u32, side: usize, error: Option<i32>) {
        if let Some(words) = self.shard(place)
            && let Some(word) = words.errors.get(side)
        {
            let number = match error {
                Some(number) => i64::from(number),
                None => OWN_ERROR,
            };
            word.store(number, Ordering::SeqCst);
        }
    }

    /// Leaves that a side had no error lately.
    pub fn disk_works(&self, place: u32, side: usize) {
        if let Some(words) = self.shard(place)
            && let Some(word) = words.errors.get(side)
        {
            word.store(NO_ERROR, Ordering::SeqCst);
        }
    }

    /// Whether people are to be told at this time in milliseconds that a disk of this external address
    /// fails: once it is served, and at most once a minute.
    pub fn is_to_tell(&self, place: u32, time: u64) -> bool {
        match self.shard(place) {
            Some(words) => self.serves() && words.is_to_tell(time),
            None => false,
        }
    }

    /// Leaves that the journals are open, and it is served.
    pub fn begin_serving(&self) {
        self.serves.store(true, Ordering::SeqCst);
    }

    /// Whether it is served.
    pub fn serves(&self) -> bool {
        self.serves.load(Ordering::SeqCst)
    }

    /// Leaves how much noise was dropped.
    pub fn drop_noise(&self, dropped: u64) {
        self.dropped.store(dropped, Ordering::SeqCst);
    }

    /// How much noise was dropped.
    pub fn dropped(&self) -> u64 {
        self.dropped.load(Ordering::SeqCst)
    }

    /// Leaves how many seconds the server's clock is ahead of the system's.
    pub fn set_clock_offset(&self, seconds: i64) {
        self.clock_offset.store(seconds, Ordering::SeqCst);
    }

    /// How many seconds the server's clock is ahead of the system's.
    pub fn clock_offset(&self) -> i64 {
        self.clock_offset.load(Ordering::SeqCst)
    }

    /// Leaves that a disk takes nothing any more, so that the server has to end.
    pub fn lose_disk(&self) {
        self.is_lost.store(true, Ordering::SeqCst);
    }

    /// Whether a disk takes nothing any more.
    pub fn has_lost_disk(&self) -> bool {
        self.is_lost.load(Ordering::SeqCst)
    }
}
