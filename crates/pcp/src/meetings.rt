//! Whether the system makes as many threads as are needed.
use pcp_base::Memory;
use std::alloc::Global;
use std::sync::Arc;
use std::sync::atomic::{AtomicBool, AtomicU32, Ordering};
use std::thread::{JoinHandle, Threads, spawn, yield_now};

/// A place at which threads wait for one another.
#[derive(Drop)]
struct Meeting {
    wanted: u32,
    arrived: AtomicU32,
    // whether no more are waited for
    is_over: AtomicBool,
}

impl Meeting {
    /// Waits until all are there, or no more are waited for.
    fn attend(&self) {
        let _before = self.arrived.fetch_add(1, Ordering::SeqCst);
        for _ in 0..u64::MAX {
            let is_whole = self.arrived.load(Ordering::SeqCst) >= self.wanted;
            if is_whole || self.is_over.load(Ordering::SeqCst) {
                return;
            }
            yield_now();
        }
    }
}

/// Whether so many threads can be there at once beside this one. They are made, meet, and are joined.
pub(crate) fn can_meet<R: Threads>(
    threads: &R,
    alloc: Global,
    wanted: u32,
) -> Result<bool, Memory> {
    let meeting = Arc::new(
        alloc,
        Meeting {
            wanted,
            arrived: AtomicU32::new(0),
            is_over: AtomicBool::new(false),
        },
    )?;
    let mut guests = Vec::new(alloc);
    let invited = invite(threads, &meeting, wanted, &mut guests);
    if invited != Ok(true) {
        meeting.is_over.store(true, Ordering::SeqCst);
    }
    for guest in guests {
        guest.join(threads);
    }
    invited
}

/// Makes so many threads that attend; whether all could be made.
fn invite<R: Threads>(
    threads: &R,
    meeting: &Arc<Meeting>,
    wanted: u32,
    guests: &mut Vec<JoinHandle<()>>,
) -> Result<bool, Memory> {
    for _ in 0..wanted {
        let place = Arc::try_clone(meeting)?;
        match spawn(threads, move || place.attend()) {
            Ok(guest) => guests.push(guest)?,
            Err(_) => return Ok(false),
        }
    }
    Ok(true)
}
