//! What falls due at a moment.

ghost use Rattle.std.specs.Prelude.{◌≡◌, ◌≢◌, ◌<◌, ◌≤◌, ◌+◌, ◌*◌, ℕ, false};
ghost use Rattle.std.specs.Bool.{OnTrue, OnFalse};
ghost use Rattle.leased_ports.specs.Kept.{IsOn, AreInStep, AreSettled, HaveBegun};
ghost use Rattle.std.specs.FinMap.{get};
ghost use Rattle.leased_ports.specs.Falling.{IsDueAt, NoneDue, due_below, is_due};
ghost use Rattle.port_spans.specs.declared.runs.TheConstants.{PLACES};

use crate::schedule::{next_due, phase_of, remove, reschedule};
use crate::timed_ends::TimedEnds;
use crate::uses::free_ports;
use expiry_wheel::Wheel;
use external_pool::Vacancies;
use pcp_base::REST_SECONDS;
use std::sync::ledger::Ledger;
use step_count::Steps;

/// How many runs that are due a call of `reach` sees to at most.
pub const MOST_RUNS: u64 = 2;

/// How many steps it takes at most to see to a run, beside those that find it: 39 moments and nodes
/// of the wheel, one to tell its phase and 38 to move or take out what waits, and two looks
/// at the count of its address, of 64 levels at most. What marks its ports, by words of 64 and by
/// nodes of a tree, isn't counted.
pub const RUN_STEPS: u64 = 167;

/// Sees to a run that falls due by `m`: where its end came it begins to rest, and where its rest is
/// over its ports are free.
pub fn see_to<L: Ledger>(
    pool: &mut Vacancies,
    wheel: &mut Wheel,
    ends: &TimedEnds,
    m: u64,
    id: u32,
    steps: &mut Steps<L>,
)
    requires in_step { AreInStep ends.now pool.old wheel.old }
    requires begun { HaveBegun m ends.now wheel.old }
    requires due { IsDueAt m wheel.old id }
    ensures on { (low high most : ℕ) →
        IsOn pool.old low high most → IsOn pool.new low high most }
    ensures in_step { AreInStep ends.now pool.new wheel.new }
    ensures begun { HaveBegun m ends.now wheel.new }
    ensures late { (seen : ℕ) → seen ≤ m → NoneDue seen wheel.old → NoneDue seen wheel.new }
    ensures seen { is_due m (get wheel.new id) ≡ false }
    ensures others { (other : ℕ) → other ≢ id → get wheel.new other ≡ get wheel.old other }
    ensures fewer { due_below m wheel.new PLACES < due_below m wheel.old PLACES }
    ensures steps { steps.new ≤ steps.old + RUN_STEPS }
{
    let Some(run) = ends.run_at(id) else {
        return;
    };
    steps.take(RUN_STEPS);
    let over = run.value.end + REST_SECONDS;
    if over <= m {
        free_ports(pool, &run, phase_of(wheel, &run));
        remove(wheel, run.first);
        return;
    }
    pool.retire(run.value.external, &run.value.endpoint, run.count);
    reschedule(wheel, run.first, over);
}

/// Sees to the run that falls due next, where one does by `m`. False where none does.
fn fall<L: Ledger>(
    pool: &mut Vacancies,
    wheel: &mut Wheel,
    ends: &TimedEnds,
    m: u64,
    steps: &mut Steps<L>,
) -> bool
    requires in_step { AreInStep ends.now pool.old wheel.old }
    requires begun { HaveBegun m ends.now wheel.old }
    ensures on { (low high most : ℕ) →
        IsOn pool.old low high most → IsOn pool.new low high most }
    ensures in_step { AreInStep ends.now pool.new wheel.new }
    ensures begun { HaveBegun m ends.now wheel.new }
    ensures late { (seen : ℕ) → seen ≤ m → NoneDue seen wheel.old → NoneDue seen wheel.new }
    ensures fewer { OnTrue result (due_below m wheel.new PLACES < due_below m wheel.old PLACES) }
    ensures none { OnFalse result (NoneDue m wheel.new) }
    ensures more { OnTrue result (steps.new ≤ steps.old + 23 + RUN_STEPS) }
    ensures last { OnFalse result (steps.new ≡ steps.old + 1) }
{
    let Some(id) = next_due(wheel, m, steps) else {
        return false;
    };
    see_to(pool, wheel, ends, m, id, steps);
    true
}

/// Sees to the first two runs at most that fall due by `m`, where none falls due by `settled` any
/// more. By the moment that it gives none does then: `m`, where that was all. It looks at nothing
/// where all was seen to at `m` before, as it is for most requests.
pub fn see_to_some<L: Ledger>(
    pool: &mut Vacancies,
    wheel: &mut Wheel,
    ends: &TimedEnds,
    settled: u64,
    m: u64,
    steps: &mut Steps<L>,
) -> u64
    requires in_step { AreInStep ends.now pool.old wheel.old }
    requires begun { HaveBegun m ends.now wheel.old }
    requires later { settled ≤ m }
    requires late { NoneDue settled wheel.old }
    ensures on { (low high most : ℕ) →
        IsOn pool.old low high most → IsOn pool.new low high most }
    ensures in_step { AreInStep ends.now pool.new wheel.new }
    ensures begun { HaveBegun m ends.now wheel.new }
    ensures from { settled ≤ result }
    ensures most { result ≤ m }
    ensures late { NoneDue result wheel.new }
    ensures all { due_below m wheel.old PLACES < MOST_RUNS → result ≡ m }
    ensures steps { steps.new ≤ steps.old + (23 + RUN_STEPS) * MOST_RUNS }
    ensures few { steps.new
        ≤ steps.old + 1 + (23 + RUN_STEPS) * due_below m wheel.old PLACES }
{
    if settled == m {
        return m;
    }
    let mut left = MOST_RUNS;
    while left > 0 {
        if !fall(pool, wheel, ends, m, steps) {
            return m;
        }
        left -= 1;
    }
    settled
}

/// Sees to all runs that fall due by `m`, where none falls due by `settled` any more.
pub fn see_to_all<L: Ledger>(
    pool: &mut Vacancies,
    wheel: &mut Wheel,
    ends: &TimedEnds,
    settled: u64,
    m: u64,
    steps: &mut Steps<L>,
)
    requires in_step { AreInStep ends.now pool.old wheel.old }
    requires begun { HaveBegun m ends.now wheel.old }
    requires late { NoneDue settled wheel.old }
    ensures on { (low high most : ℕ) →
        IsOn pool.old low high most → IsOn pool.new low high most }
    ensures in_step { AreInStep ends.now pool.new wheel.new }
    ensures begun { HaveBegun m ends.now wheel.new }
    ensures none { NoneDue m wheel.new }
    ensures settled { AreSettled m ends.now wheel.new }
    ensures steps { steps.new
        ≤ steps.old + 1 + (23 + RUN_STEPS) * due_below m wheel.old PLACES }
{
    if settled == m {
        return;
    }
    while fall(pool, wheel, ends, m, steps) {}
}
