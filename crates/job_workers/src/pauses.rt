//! How long a worker waits behind a call in which a disk failed.
use crate::outcomes::Outcome;
use libc::types::timespec;
use std::sync::atomic::{AtomicBool, Ordering};

/// The first pause, in milliseconds.
const FIRST_PAUSE: u32 = 1;

/// The longest pause, in milliseconds.
const LONGEST_PAUSE: u32 = 1_000;

/// How long a pause sleeps at a time, in milliseconds: so late it finds that the dispatcher has ended.
const SLICE: u32 = 50;

/// How long a worker waits behind its last round. Each wait behind another fault is twice as long, up to
/// a second.
#[derive(Clone, Copy, Debug)]
pub struct Pause {
    /// in milliseconds
    due: u32,
    /// behind the next fault, in milliseconds
    next: u32,
}

impl Pause {
    /// No disk failed yet.
    pub fn new() -> Pause {
        Pause {
            due: 0,
            next: FIRST_PAUSE,
        }
    }

    /// The last call of a round ended so.
    pub fn note(&mut self, outcome: Outcome) {
        self.due = 0;
        match outcome {
            Outcome::Idle => {}
            Outcome::Fine => self.next = FIRST_PAUSE,
            Outcome::Fault => {
                self.due = self.next;
                self.next = self.next.saturating_mul(2).min(LONGEST_PAUSE);
            }
        }
    }

    /// Waits as long as is due, or until the dispatcher has ended.
    pub fn wait(&self, ended: &AtomicBool) {
        let mut left = self.due;
        while left > 0 && !ended.load(Ordering::SeqCst) {
            let slice = left.min(SLICE);
            nap(slice);
            left -= slice;
        }
    }
}

// A signal may end it early: then the next one begins early.
fn nap(milliseconds: u32) {
    let asked = timespec {
        tv_sec: 0,
        tv_nsec: i64::from(milliseconds.min(SLICE)) * 1_000_000,
    };
    let mut left = timespec {
        tv_sec: 0,
        tv_nsec: 0,
    };
    let _status = libc::nanosleep(&asked, &mut left);
}
