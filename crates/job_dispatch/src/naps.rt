//! Short sleeps.
use libc::types::timespec;

/// Sleeps so many nanoseconds, below 1,000,000,000. A signal may end it early.
pub fn nap(nanoseconds: i64) {
    let asked = timespec {
        tv_sec: 0,
        tv_nsec: nanoseconds,
    };
    let mut left = timespec {
        tv_sec: 0,
        tv_nsec: 0,
    };
    let _status = libc::nanosleep(&asked, &mut left);
}
