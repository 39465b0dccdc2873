//! Runs that come, change and go, with their uses and what falls due.

ghost use Rattle.std.specs.Prelude.{◌≡◌, ◌≢◌, ◌≤◌, ◌<◌, ◌+◌, ◌-◌, ◌*◌, ◌^◌, ℕ, List, Some, None, IfSome, IfNone, OnOk, true, unwrap_or};
ghost use Rattle.std.specs.Ordering.{nat_cmp};
ghost use Rattle.std.specs.FinMap.{FinMap};
ghost use Rattle.pcp_base.specs.declared.leases.End.{End};
ghost use Rattle.port_spans.specs.declared.runs.Run.{Run};
ghost use Rattle.port_spans.specs.Runs.{AreRuns, but_from, has_place, run_at};
ghost use Rattle.external_pool.specs.declared.uses.Use.TheVariants.{Free};
ghost use Rattle.leased_ports.specs.Kept.{IsOn, IsSet, AreScheduled, AreInStep, HaveBegun, phase_by, use_told, use_in};
ghost use Rattle.leased_ports.specs.Falling.{NoneDue};
ghost use Rattle.leased_ports.specs.Among.{starts_at, starts_among, runs_among};
ghost use Rattle.leased_ports.specs.Steps.{GivesUses, AreUsedBy, Waits, AreAssigned, AreFreed, AreFreeing, last_along};
ghost use Rattle.port_spans.specs.Along.{end_told, BeginsAt};

use crate::phases::{Phase, phase_at, until};
use crate::schedule;
use crate::schedule::phase_of;
use crate::timed_ends::TimedEnds;
use crate::uses::{change_use, free_ports};
use expiry_wheel::Wheel;
use external_pool::Vacancies;
use pcp_base::{End, Memory};
use port_spans::{Run, end_along};
use std::alloc::Global;
use std::sync::ledger::Ledger;
use step_count::Steps;

/// How many steps it takes at most to take out a run: one look at the run, one to tell its phase,
/// 38 moments and nodes of the wheel by which it falls due, two looks at the count of its address,
/// of 64 levels at most, and 39 for the run and when its rest is over. What marks its ports, by words
/// of 64 and by nodes of a tree, isn't counted.
pub const TAKEN_STEPS: u64 = 207;

/// How many steps it takes at most to part the run that has a spot: seven looks at runs, one at a
/// moment, 37 spots and nodes for each of both when its rest is over, and 38 for when the part
/// behind falls due.
pub const PART_STEPS: u64 = 120;

/// How many steps it takes at most to free ports in a row, beside those for each run among them:
/// two runs are parted, and a last look finds no more.
pub const FREE_STEPS: u64 = 241;

/// How many steps it takes at most to give ports that have none their last ends: 128 for the count
/// of their address, 38 for when they fall due, and 76 for the run and when its rest is over.
const INSERT_STEPS: u64 = 242;

/// How many steps it takes at most to give a run another moment: one to tell its phase, 128 for the
/// count of its address, 38 for when it falls due, and 39 for the run and when its rest is over.
const RENEW_STEPS: u64 = 206;

/// How many steps it takes at most to give ports in a row their last ends, beside those for each
/// run among them: one look for their own run, and then to free them and to insert one run, which
/// is more than to renew theirs.
pub const PUT_STEPS: u64 = 484;

/// Takes out a run: its ports are free then.
fn take_out(pool: &mut Vacancies, wheel: &mut Wheel, ends: &mut TimedEnds, run: &Run<End>)
    requires set { IsSet run.now }
    requires used { AreUsedBy pool.old run.now (use_in (phase_by wheel.old run.now) run.now.value) }
    ensures apart { AreRuns ends.new }
    ensures runs { (at : ℕ) → run_at ends.new at ≡ but_from run.now.first (run_at ends.old at) }
    ensures used { GivesUses pool.old run.now.value.endpoint.protocol run.now.value.external
        run.now.count Free pool.new }
    ensures waits { Waits wheel.old run.now.first None wheel.new }
{
    free_ports(pool, run, phase_of(wheel, run));
    schedule::remove(wheel, run.first);
    ends.remove(run.first);
}

/// Parts the run that has a spot, so that one begins there. Each port keeps its last end and its
/// use.
fn part<L: Ledger>(
    wheel: &mut Wheel,
    ends: &mut TimedEnds,
    alloc: Global,
    at: u32,
    steps: &mut Steps<L>,
) -> Result<(), Memory>
    requires { AreScheduled ends.old wheel.old }
    ensures scheduled { OnOk result (AreScheduled ends.new wheel.new) }
    ensures begun { OnOk result ((m : ℕ) →
        HaveBegun m ends.old wheel.old → HaveBegun m ends.new wheel.new) }
    ensures late { OnOk result ((seen : ℕ) →
        NoneDue seen wheel.old → NoneDue seen wheel.new) }
    ensures begins { OnOk result (BeginsAt at ends.new) }
    ensures others { OnOk result ((other : ℕ) → BeginsAt other ends.old → BeginsAt other ends.new) }
    ensures ends { OnOk result ((spot : ℕ) →
        end_told spot (run_at ends.new spot) ≡ end_told spot (run_at ends.old spot)) }
    ensures uses { OnOk result ((spot : ℕ) →
        use_told wheel.new spot (run_at ends.new spot)
        ≡ use_told wheel.old spot (run_at ends.old spot)) }
    ensures starts { OnOk result ((other : ℕ) → other ≢ at →
        starts_at other (run_at ends.new other) ≡ starts_at other (run_at ends.old other)) }
    ensures steps { steps.new ≡ steps.old + PART_STEPS }
{
    steps.take(PART_STEPS);
    let Some(run) = ends.run_at(at) else {
        return Ok(());
    };
    if run.first == at {
        return Ok(());
    }
    let last = end_along(at - run.first, &run.value);
    ends.cut(alloc, at)?;
    ends.set_value(at, last);
    let expiry = wheel.expiry(run.first);
    schedule::set(wheel, alloc, at, expiry)
}

/// Takes out the first run that begins at a spot, over which no run goes on, or between it and
/// another. The spot behind it; None where none begins there.
fn take_next<L: Ledger>(
    pool: &mut Vacancies,
    wheel: &mut Wheel,
    ends: &mut TimedEnds,
    at: u32,
    to: u32,
    steps: &mut Steps<L>,
) -> Option<u32>
    requires in_step { AreInStep ends.old pool.old wheel.old }
    requires at_begins { BeginsAt at ends.old }
    requires to_begins { BeginsAt to ends.old }
    ensures on { (low high most : ℕ) →
        IsOn pool.old low high most → IsOn pool.new low high most }
    ensures late { (seen : ℕ) → NoneDue seen wheel.old → NoneDue seen wheel.new }
    ensures behind { IfSome result (λ next. at < next) }
    ensures within { IfSome result (λ next. next ≤ to) }
    ensures freeing { (from : ℕ) (start : List (Run End)) (before : FinMap nat_cmp ℕ) →
        from ≤ at → AreFreeing from at to start before ends.old pool.old wheel.old →
        AreFreeing from (unwrap_or result to) to start before ends.new pool.new wheel.new }
    ensures taken { IfSome result (λ next.
        steps.new + TAKEN_STEPS * starts_among ends.new next (to - next)
        ≤ steps.old + TAKEN_STEPS * starts_among ends.old at (to - at)) }
    ensures last { IfNone result (steps.new ≤ steps.old + 1) }
{
    let Some(run) = ends.next_run(at, to) else {
        steps.tick();
        return None;
    };
    steps.take(TAKEN_STEPS);
    take_out(pool, wheel, ends, &run);
    Some(run.first + run.count)
}

/// Takes out all runs between two spots, over which no run goes on.
fn take_between<L: Ledger>(
    pool: &mut Vacancies,
    wheel: &mut Wheel,
    ends: &mut TimedEnds,
    from: u32,
    to: u32,
    steps: &mut Steps<L>,
)
    requires in_step { AreInStep ends.old pool.old wheel.old }
    requires from_begins { BeginsAt from ends.old }
    requires to_begins { BeginsAt to ends.old }
    ensures on { (low high most : ℕ) →
        IsOn pool.old low high most → IsOn pool.new low high most }
    ensures late { (seen : ℕ) → NoneDue seen wheel.old → NoneDue seen wheel.new }
    ensures freeing { AreFreeing from to to ends.old wheel.old ends.new pool.new wheel.new }
    ensures steps { steps.new
        ≤ steps.old + 1 + TAKEN_STEPS * starts_among ends.old from (to - from) }
{
    let mut at = from;
    while let Some(next) = take_next(pool, wheel, ends, at, to, steps) {
        at = next;
    }
}

/// Frees the ports of a run, which may be parts of runs or of several ones. Where memory is
/// wanting, nothing is said but the pool's range.
pub fn free<L: Ledger>(
    pool: &mut Vacancies,
    wheel: &mut Wheel,
    ends: &mut TimedEnds,
    alloc: Global,
    from: u32,
    count: u32,
    steps: &mut Steps<L>,
) -> Result<(), Memory>
    requires in_step { AreInStep ends.old pool.old wheel.old }
    requires within { from + count < 2 ^ 32 }
    ensures on { (low high most : ℕ) →
        IsOn pool.old low high most → IsOn pool.new low high most }
    ensures late { OnOk result ((seen : ℕ) →
        NoneDue seen wheel.old → NoneDue seen wheel.new) }
    ensures ok { OnOk result (AreFreed from count ends.old wheel.old
        ends.new pool.new wheel.new) }
    ensures behind { OnOk result ((n : ℕ) →
        runs_among ends.new (from + count) n ≡ runs_among ends.old (from + count) n) }
    ensures steps { steps.new
        ≤ steps.old + FREE_STEPS + TAKEN_STEPS * runs_among ends.old from count }
{
    part(wheel, ends, alloc, from, steps)?;
    part(wheel, ends, alloc, from + count, steps)?;
    take_between(pool, wheel, ends, from, from + count, steps);
    Ok(())
}

/// Gives the ports of a run, which have none, their last ends.
pub fn insert<L: Ledger>(
    pool: &mut Vacancies,
    wheel: &mut Wheel,
    ends: &mut TimedEnds,
    alloc: Global,
    run: &Run<End>,
    reached: u64,
    steps: &mut Steps<L>,
) -> Result<(), Memory>
    requires set { IsSet run.now }
    requires in_step { AreInStep ends.old pool.old wheel.old }
    requires begun { HaveBegun reached ends.old wheel.old }
    requires free { (at : ℕ) → has_place at run.now ≡ true → run_at ends.old at ≡ None }
    ensures on { (low high most : ℕ) →
        IsOn pool.old low high most → IsOn pool.new low high most }
    ensures late { OnOk result ((seen : ℕ) → seen ≤ reached →
        NoneDue seen wheel.old → NoneDue seen wheel.new) }
    ensures ok { OnOk result (AreAssigned reached ends.old run.now.value.endpoint.protocol
        run.now.value.external run.now.count (last_along run.now.value)
        ends.new pool.new wheel.new) }
    ensures run { OnOk result (run_at ends.new run.now.first ≡ Some run.now) }
    ensures behind { OnOk result ((n : ℕ) → runs_among ends.new (run.now.first + run.now.count) n
        ≡ runs_among ends.old (run.now.first + run.now.count) n) }
    ensures steps { steps.new ≡ steps.old + INSERT_STEPS }
{
    steps.take(INSERT_STEPS);
    let phase = phase_at(reached, run.value.end);
    change_use(pool, alloc, run, Phase::Over, phase)?;
    schedule::set(wheel, alloc, run.first, until(phase, run.value.end))?;
    ends.insert(alloc, *run)?;
    Ok(())
}

/// Gives a run last ends of the same endpoints that come at another moment. The run isn't parted,
/// and its ports are only marked anew where they come into another phase.
pub fn renew<L: Ledger>(
    pool: &mut Vacancies,
    wheel: &mut Wheel,
    ends: &mut TimedEnds,
    alloc: Global,
    run: &Run<End>,
    last: &End,
    reached: u64,
    steps: &mut Steps<L>,
) -> Result<(), Memory>
    requires in_step { AreInStep ends.old pool.old wheel.old }
    requires begun { HaveBegun reached ends.old wheel.old }
    requires there { run_at ends.old run.now.first ≡ Some run.now }
    requires same { run.now.value ≡ record last.now { end = run.now.value.end } }
    requires near { last.now.end < 2 ^ 41 }
    ensures on { (low high most : ℕ) →
        IsOn pool.old low high most → IsOn pool.new low high most }
    ensures late { OnOk result ((seen : ℕ) → seen ≤ reached →
        NoneDue seen wheel.old → NoneDue seen wheel.new) }
    ensures ok { OnOk result (AreAssigned reached ends.old last.now.endpoint.protocol
        last.now.external run.now.count (last_along last.now) ends.new pool.new wheel.new) }
    ensures run { OnOk result (run_at ends.new run.now.first
        ≡ Some (record { first = run.now.first; count = run.now.count; value = last.now })) }
    ensures among { OnOk result ((at n : ℕ) → runs_among ends.new at n ≡ runs_among ends.old at n) }
    ensures steps { steps.new ≡ steps.old + RENEW_STEPS }
{
    steps.take(RENEW_STEPS);
    let phase = phase_at(reached, last.end);
    change_use(pool, alloc, run, phase_of(wheel, run), phase)?;
    schedule::set(wheel, alloc, run.first, until(phase, last.end))?;
    ends.set_value(run.first, *last);
    Ok(())
}
