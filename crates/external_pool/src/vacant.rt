//! The tree of the vacant ports of a range: marking them, and the longest run of them.

ghost use Rattle.std.specs.Prelude.{◌≡◌, ◌+◌, ◌≤◌, ◌↔◌, ◌&&◌, ℕ, List, true, not, IsTrue, if◌then◌else◌};
ghost use Rattle.port_runs.specs.Ports.{is_taken, is_in_run, HasParity};
ghost use Rattle.external_pool.specs.PortUses.{uses_over, is_in_range};
ghost use Rattle.external_pool.specs.Choosing.{IsLongest};
ghost use Rattle.external_pool.specs.Kept.{IsKept};
ghost use Rattle.external_pool.specs.declared.uses.Use.{Use};

use crate::asks::Picked;
use port_runs::Runs;
use std::sync::ledger::Ledger;
use step_count::Steps;

/// Whether a port has the remainder by 2 that is asked, if one is.
pub fn meets(port: u16, parity: Option<u8>) -> bool
    ensures { IsTrue result ↔ HasParity parity port }
{
    match parity {
        Some(remainder) => port % 2 == u16::from(remainder),
        None => true,
    }
}

/// Whether a port is in a range.
pub fn is_in_range(low: u16, high: u16, port: u64) -> bool
    ensures { result ≡ is_in_range low high port }
{
    u64::from(low) <= port && port <= u64::from(high)
}

/// Takes a port of the range, unless it is taken already.
fn take_one(runs: &mut Runs, port: u16)
    requires low { runs.old.low ≤ port }
    requires high { port ≤ runs.old.high }
    ensures low { runs.new.low ≡ runs.old.low }
    ensures high { runs.new.high ≡ runs.old.high }
    ensures taken { (other : ℕ) → is_taken runs.new other
        ≡ (if is_in_run port 1 other then true else is_taken runs.old other) }
{
    runs.take(port, 1);
}

/// Takes ports of the range, some of which may be taken already.
fn take_all(runs: &mut Runs, start: u16, n: u32)
    requires some { 1 ≤ n }
    requires low { runs.old.low ≤ start }
    requires high { start + n ≤ runs.old.high + 1 }
    ensures low { runs.new.low ≡ runs.old.low }
    ensures high { runs.new.high ≡ runs.old.high }
    ensures taken { (port : ℕ) → is_taken runs.new port
        ≡ (if is_in_run start n port then true else is_taken runs.old port) }
{
    runs.give(start, n);
    runs.take(start, n);
}

/// Marks ports of the range as vacant or not. The tree changes once, but twice where some of
/// several ports to take are taken already, and not at all where one is.
fn settle(runs: &mut Runs, start: u16, n: u32, vacant: bool)
    requires some { 1 ≤ n }
    requires low { runs.old.low ≤ start }
    requires high { start + n ≤ runs.old.high + 1 }
    ensures low { runs.new.low ≡ runs.old.low }
    ensures high { runs.new.high ≡ runs.old.high }
    ensures taken { (port : ℕ) → is_taken runs.new port
        ≡ (if is_in_run start n port then not vacant else is_taken runs.old port) }
{
    if vacant {
        runs.give(start, n);
        return;
    }
    if n == 1 {
        take_one(runs, start);
        return;
    }
    if runs.take(start, n) {
        return;
    }
    take_all(runs, start, n);
}

/// Marks those of the `n` ports from `start` on that lie in the range as vacant or not.
pub fn settle_in_range(runs: &mut Runs, low: u16, high: u16, start: u16, n: u32, vacant: bool)
    requires low { runs.old.low ≡ low }
    requires high { runs.old.high ≡ high }
    requires within { start + n ≤ 65536 }
    ensures low { runs.new.low ≡ low }
    ensures high { runs.new.high ≡ high }
    ensures taken { (port : ℕ) → is_taken runs.new port
        ≡ (if is_in_range low high port && is_in_run start n port
        then not vacant else is_taken runs.old port) }
{
    let from = start.max(low);
    let to = (u32::from(start) + n).min(u32::from(high) + 1);
    if u32::from(from) < to {
        settle(runs, from, to - u32::from(from), vacant);
    }
}

/// The least vacant port that meets the parity asked, which is the longest run of at most one.
fn first<L: Ledger>(runs: &Runs, parity: Option<u8>, steps: &mut Steps<L>) -> Option<Picked>
    ensures longest { (low high : ℕ) (each : List Use) → IsKept low high runs.now each →
        IsLongest (uses_over low high each) parity 1 result }
    ensures steps { steps.new ≤ steps.old + 68 }
{
    let Some(start) = runs.first_run(1, parity, steps) else {
        return None;
    };
    Some(Picked { start, count: 1 })
}

/// The longest run of vacant ports whose first meets the parity asked, of at most `room`, and of
/// these runs the one with the least start.
pub fn longest<L: Ledger>(
    runs: &Runs,
    room: u32,
    parity: Option<u8>,
    steps: &mut Steps<L>,
) -> Option<Picked>
    ensures longest { (low high : ℕ) (each : List Use) → IsKept low high runs.now each →
        IsLongest (uses_over low high each) parity room result }
    ensures steps { steps.new ≤ steps.old + 69 }
{
    if room == 1 {
        return first(runs, parity, steps);
    }
    let count = runs.longest_run(parity, steps).min(room);
    if count == 0 {
        return None;
    }
    let Some(start) = runs.first_run(count, parity, steps) else {
        return None;
    };
    Some(Picked { start, count })
}
