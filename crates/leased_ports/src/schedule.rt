//! When runs fall due.

ghost use Rattle.std.specs.Prelude.{◌≡◌, ◌<◌, ◌≤◌, ◌+◌, ℕ, true, Some, None, OnOk, IfSome, IfNone};
ghost use Rattle.std.specs.FinMap as fin;
ghost use Rattle.expiry_wheel.specs.Due.{IsNextDue};
ghost use Rattle.expiry_wheel.specs.declared.TheConstants.{NEVER};
ghost use Rattle.leased_ports.specs.Kept.{phase_by};
ghost use Rattle.leased_ports.specs.Steps.{Waits};

use crate::phases::{Phase, phase_until};
use expiry_wheel::Wheel;
use pcp_base::{End, Memory};
use port_spans::Run;
use std::alloc::Global;
use std::sync::ledger::Ledger;
use step_count::Steps;

/// Sets when an id falls due; where it is None, the id doesn't wait.
pub fn set(wheel: &mut Wheel, alloc: Global, id: u32, until: Option<u64>) -> Result<(), Memory>
    ensures { OnOk result (Waits wheel.old id until wheel.new) }
{
    let Some(expiry) = until else {
        remove(wheel, id);
        return Ok(());
    };
    wheel.put(alloc, id, expiry)?;
    Ok(())
}

/// Sets when an id that waits falls due.
pub fn reschedule(wheel: &mut Wheel, id: u32, expiry: u64)
    requires there { fin.contains_key wheel.old id ≡ true }
    requires sometime { expiry < NEVER }
    ensures { Waits wheel.old id (Some expiry) wheel.new }
{
    wheel.reschedule(id, expiry);
}

/// Takes out an id.
pub fn remove(wheel: &mut Wheel, id: u32)
    ensures { Waits wheel.old id None wheel.new }
{
    wheel.remove(id);
}

/// The phase of a run.
pub fn phase_of(wheel: &Wheel, run: &Run<End>) -> Phase
    ensures { result ≡ phase_by wheel.now run.now }
{
    phase_until(run.value.end, wheel.expiry(run.first))
}

/// The id that falls due next. It takes a step where none does, and at most 23 else.
pub fn next_due<L: Ledger>(wheel: &Wheel, m: u64, steps: &mut Steps<L>) -> Option<u32>
    ensures next { IfSome result (IsNextDue wheel.now m) }
    ensures none { IfNone result (
        (id expiry : ℕ) → fin.get wheel.now id ≡ Some expiry → m < expiry) }
    ensures root { IfNone result (steps.new ≡ steps.old + 1) }
    ensures steps { steps.new ≤ steps.old + 23 }
{
    wheel.next_due(m, steps)
}
