//! When announcements are due (RFC 6887, section 14.1; their number and gaps are our own).
ghost use Rattle.std.specs.Prelude.{◌≡◌, ◌+◌, ◌*◌, ◌/◌, ◌^◌, ◌<◌, ◌≤◌, ◌&&◌, nat_lt, nat_le, if◌then◌else◌};
ghost use Rattle.pcp_base.specs.Epoch.{epoch_of};
ghost use Rattle.pcp_announce.specs.declared.announcer.TheConstants.{ANNOUNCEMENTS};
ghost use Rattle.pcp_announce.specs.Schedules.{announcement, after_due, begun, is_due, after_seen, wait_of};

use pcp_base::{Moment, epoch};
use pcp_codec::{ANNOUNCE_OPCODE, write_head};
use std::marker::Model;

/// How many announcements follow a rise of the base.
pub const ANNOUNCEMENTS: u8 = 10;

/// The milliseconds between the first two; each later gap is twice the one before.
pub const FIRST_GAP_MS: u64 = 250;

/// The announcements that follow a rise of the base. Times are in milliseconds, below 1000 * 2^40; one
/// that is smaller than the last one handed in counts as that one.
#[derive(Debug, Drop)]
pub struct Announcer {
    base: Moment,
    since: u64,
    made: u8,
    last: u64,
}

impl Model for Announcer {
    ghost use Rattle.pcp_announce.specs.Schedules.{Schedule, IsSchedule};

    ghost Value = { Schedule };

    ghost view = { λ a. record { base = a.base; since = a.since; made = a.made; last = a.last } };

    ghost invariant = { λ a. IsSchedule (record {
      base = a.base;
      since = a.since;
      made = a.made;
      last = a.last;
    }) };
}

impl Announcer {
    /// An announcer that sees this base first. It makes [`ANNOUNCEMENTS`] from now on where the base is
    /// fresh, else none.
    pub fn new(base: Moment, fresh: bool, now_ms: u64) -> Announcer
        requires { now_ms < 1000 * 2 ^ 40 }
        ensures { result ≡ begun base fresh now_ms }
    {
        Announcer {
            base,
            since: now_ms,
            made: if fresh { 0 } else { ANNOUNCEMENTS },
            last: now_ms,
        }
    }

    /// Sees a base. One that is greater than that before begins the announcements anew.
    pub fn seen(&mut self, base: Moment, now_ms: u64)
        requires { now_ms < 1000 * 2 ^ 40 }
        ensures { self.new ≡ after_seen self.old base now_ms }
    {
        self.last = self.last.max(now_ms);
        if base.get() > self.base.get() {
            self.since = self.last;
            self.made = 0;
        }
        self.base = base;
    }

    /// Whether an announcement is due: fewer than [`ANNOUNCEMENTS`] were made since the rise, and the
    /// time of the next has come, `FIRST_GAP_MS * (2^k - 1)` after the rise for the k-th from 0. `out`
    /// is then the head of an ANNOUNCE success with lifetime 0 and the epoch of this second and the base
    /// seen last (RFC 6887, section 14.1), and the announcement counts as made. Else `out` is as before.
    pub fn due(&mut self, now_ms: u64, out: &mut [u8; 24]) -> bool
        requires { now_ms < 1000 * 2 ^ 40 }
        ensures due { result ≡ is_due self.old now_ms }
        ensures made { self.new ≡ after_due self.old now_ms }
        ensures head { out.new
            ≡ (if is_due self.old now_ms then announcement self.old now_ms else out.old) }
    {
        self.last = self.last.max(now_ms);
        let is_due = self.made < ANNOUNCEMENTS && self.since + wait_of(self.made) <= self.last;
        if is_due {
            self.made += 1;
            let epoch = epoch_at(self.last, self.base);
            write_head(out, ANNOUNCE_OPCODE, 0, 0, epoch, &[0; 12]);
        }
        is_due
    }
}

/// How long after the rise an announcement is due, in milliseconds.
fn wait_of(made: u8) -> u64
    requires { made < ANNOUNCEMENTS }
    ensures value { result ≡ wait_of made }
    ensures bound { result ≤ 127750 }
{
    match made {
        0 => 0,
        1 => 250,
        2 => 750,
        3 => 1_750,
        4 => 3_750,
        5 => 7_750,
        6 => 15_750,
        7 => 31_750,
        8 => 63_750,
        _ => 127_750,
    }
}

/// The epoch of a second, where that is a moment.
fn epoch_at(now_ms: u64, base: Moment) -> u32
    requires { now_ms < 1000 * 2 ^ 40 }
    ensures { result ≡ epoch_of (now_ms / 1000) base }
{
    match Moment::of(now_ms / 1000) {
        Some(m) => epoch(m, base),
        None => 0,
    }
}
