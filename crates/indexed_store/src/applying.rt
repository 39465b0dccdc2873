//! A record that fits, applied to the state.
ghost use Rattle.std.specs.Prelude.{◌≡◌, ◌≤◌, ◌+◌, ℕ, true, false, IfSome, IfOk, OnOk};
ghost use Rattle.pcp_base.specs.declared.leases.Protocol.{Protocol};
ghost use Rattle.pcp_base.specs.States.{State};
ghost use Rattle.pcp_base.specs.Tables.{Table, live};
ghost use Rattle.pcp_base.specs.Records.{IsWellFormedChange};
ghost use Rattle.pcp_base.specs.Reached.{IsReached};
ghost use Rattle.pcp_base.specs.Fits.{Fits};
ghost use Rattle.pcp_base.specs.Apply.{table_1, table_2};
ghost use Rattle.pcp_base.specs.Apply as by_apply;
ghost use Rattle.lease_store.specs.declared.terms.Terms.{Terms};
ghost use Rattle.leased_ports.specs.declared.steps.TheConstants.{PUT_STEPS, TAKEN_STEPS};
ghost use Rattle.leased_ports.specs.Leased.{IsPortsOf, IsOnTerms, end_of};
ghost use Rattle.leased_ports.specs.Recorded.{end_by_rest};
ghost use Rattle.indexed_store.specs.Looks.{apply_steps, ports_steps, touched_steps};
ghost use Rattle.indexed_store.specs.Runs.{touched_run};
ghost use Rattle.indexed_store.specs.Holding.{AreNearAt, IsEvenRun};
ghost use Rattle.indexed_store.specs.Indexed.{IsKept};

use crate::facts::empties;
use crate::holding::{Unowned, hold_touched};
use crate::leases::Leases;
use crate::owning::OwnerRun;
use crate::state::IndexedState;
use leased_ports::LeasedPorts;
use leased_ports::laws::{ends_are_last_ends, ports_follow_states, records_tell_last_ends};
use pcp_base::{Change, End, Memory, Moment, Record, states_are_sound};
use std::alloc::Global;
use std::sync::ledger::Ledger;
use step_count::Steps;

/// Lets a port rest, where the change is a Rest; the ports stay where it touches those of a lease.
fn hold_rest<L: Ledger>(
    ports: &mut LeasedPorts,
    alloc: Global,
    m: Moment,
    change: &Change,
    steps: &mut Steps<L>,
) -> Result<(), Memory>
    requires formed { IsWellFormedChange m change.now }
    requires reached { ports.old.reached ≡ m }
    ensures terms { (terms : Terms) → IsOnTerms ports.old terms → IsOnTerms ports.new terms }
    ensures reached { OnOk result (ports.new.reached ≡ m) }
    ensures ports { OnOk result ((protocol : Protocol) (port : ℕ) →
        end_of ports.new protocol port
        ≡ end_by_rest change.now protocol port (end_of ports.old protocol port)) }
    ensures stay { (t : Table) → IfSome (touched_run change.now t) (λ run.
        ports.new ≡ ports.old) }
    ensures steps { steps.new ≤ steps.old + (PUT_STEPS + TAKEN_STEPS) }
{
    let Change::Rest(endpoint, external, end) = change else {
        return Ok(());
    };
    let rest = End {
        endpoint: *endpoint,
        external: *external,
        end: *end,
    };
    ports.put(alloc, &rest, steps)
}

/// Brings the ports of a state to those after the record, beside its leases then.
fn move_ports<L: Ledger>(
    ports: &mut LeasedPorts,
    alloc: Global,
    leases: &Leases,
    kept: &Record,
    touched: Option<OwnerRun>,
    steps: &mut Steps<L>,
) -> Result<(), Memory>
    requires formed { IsWellFormedChange kept.now.moment kept.now.change }
    requires leases { AreNearAt kept.now.moment leases.now.found }
    requires touched { IfSome touched (IsEvenRun leases.now.found.maps) }
    requires later { ports.old.reached ≤ kept.now.moment }
    ensures terms { (terms : Terms) → IsOnTerms ports.old terms → IsOnTerms ports.new terms }
    ensures reached { OnOk result (ports.new.reached ≡ kept.now.moment) }
    ensures ports { OnOk result ((s : State) → IsReached s → Fits s kept.now
        → by_apply.empties kept.now.change ≡ false → IsPortsOf ports.old s
        → live leases.now.found kept.now.moment ≡ table_2 s kept.now
        → touched ≡ touched_run kept.now.change (table_1 s kept.now)
        → IsPortsOf ports.new (by_apply.apply s kept.now)) }
    ensures steps { (t : Table) → touched ≡ touched_run kept.now.change t →
        steps.new ≤ steps.old + (ports_steps + (PUT_STEPS + TAKEN_STEPS)
        + touched_steps ports.old leases.now.found.peers touched) }
{
    ports_follow_states();
    records_tell_last_ends();
    ports.reach(kept.moment, steps);
    hold_rest(ports, alloc, kept.moment, &kept.change, steps)?;
    hold_touched(
        ports,
        alloc,
        leases,
        kept.moment,
        touched,
        Unowned::Rests,
        steps,
    )
}

/// Applies a record that doesn't forget all. After an error nothing is said of the state.
fn change<L: Ledger>(
    state: &mut IndexedState,
    alloc: Global,
    kept: &Record,
    steps: &mut Steps<L>,
) -> Result<(), Memory>
    requires sound { IsReached state.old.state }
    requires kept { IsKept state.old }
    requires fits { Fits state.old.state kept.now }
    requires keeps { by_apply.empties kept.now.change ≡ false }
    requires later { state.old.ports.reached ≤ kept.now.moment }
    ensures terms { (terms : Terms) → IsOnTerms state.old.ports terms
        → IsOnTerms state.new.ports terms }
    ensures applied { OnOk result (state.new.state ≡ by_apply.apply state.old.state kept.now) }
    ensures kept { OnOk result (IsKept state.new) }
    ensures reached { OnOk result (state.new.ports.reached ≡ kept.now.moment) }
    ensures steps { steps.new ≤ steps.old + apply_steps state.old kept.now }
{
    states_are_sound();
    ends_are_last_ends();
    let touched = state
        .leases
        .change(alloc, kept.moment, &kept.change, steps)?;
    move_ports(&mut state.ports, alloc, &state.leases, kept, touched, steps)?;
    state.leases.drop_some(kept.moment, steps);
    state.leases.tell_all();
    state.note(kept);
    Ok(())
}

/// Applies a record that forgets all.
pub(crate) fn begin<L: Ledger>(state: &mut IndexedState, kept: &Record, steps: &mut Steps<L>)
    requires { by_apply.empties kept.now.change ≡ true }
    ensures terms { (terms : Terms) → IsOnTerms state.old.ports terms
        → IsOnTerms state.new.ports terms }
    ensures applied { state.new.state ≡ by_apply.apply state.old.state kept.now }
    ensures kept { IsKept state.new }
    ensures reached { state.new.ports.reached ≡ kept.now.moment }
    ensures steps { steps.new ≤ steps.old + ports_steps }
{
    records_tell_last_ends();
    state.leases.clear();
    state.ports.clear();
    state.ports.reach(kept.moment, steps);
    state.note(kept);
}

/// Applies a record that fits. After an error nothing is said of the state.
pub(crate) fn apply<L: Ledger>(
    state: &mut IndexedState,
    alloc: Global,
    kept: &Record,
    steps: &mut Steps<L>,
) -> Result<(), Memory>
    requires sound { IsReached state.old.state }
    requires kept { IsKept state.old }
    requires fits { Fits state.old.state kept.now }
    requires later { state.old.ports.reached ≤ kept.now.moment }
    ensures terms { (terms : Terms) → IsOnTerms state.old.ports terms
        → IsOnTerms state.new.ports terms }
    ensures applied { OnOk result (state.new.state ≡ by_apply.apply state.old.state kept.now) }
    ensures kept { OnOk result (IsKept state.new) }
    ensures reached { OnOk result (state.new.ports.reached ≡ kept.now.moment) }
    ensures steps { steps.new ≤ steps.old + apply_steps state.old kept.now }
{
    if empties(&kept.change) {
        begin(state, kept, steps);
        return Ok(());
    }
    change(state, alloc, kept, steps)
}
