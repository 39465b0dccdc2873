//! Records of the first format, which knows no ends and no address.
ghost use Rattle.std.specs.Prelude.{◌≡◌, ◌≤◌, ◌↔◌, false, IsTrue, IfOk, OnOk};
ghost use Rattle.std.specs.List.{AllByRecursion};
ghost use Rattle.pcp_base.specs.States.{State};
ghost use Rattle.pcp_base.specs.Tables.{live};
ghost use Rattle.pcp_base.specs.Records.{IsWellFormedRecord};
ghost use Rattle.pcp_base.specs.Reached.{IsReached, IsReachedFirst};
ghost use Rattle.pcp_base.specs.Fits.{IsOfFirst, FitsFirst};
ghost use Rattle.pcp_base.specs.Rooms.{SuitsFirst};
ghost use Rattle.pcp_base.specs.Apply.{table_changed};
ghost use Rattle.pcp_base.specs.Apply as by_apply;
ghost use Rattle.lease_store.specs.declared.terms.Terms.{Terms};
ghost use Rattle.leased_ports.specs.Leased.{IsPortsOf, IsOnTerms};
ghost use Rattle.indexed_store.specs.Holding.{AreEndsOf, AreHeld, AreLiveAt, AreNearAt, AreReadyFor, IsAgreed};
ghost use Rattle.indexed_store.specs.Tabled.{AreTabled};
ghost use Rattle.indexed_store.specs.Indexed.{IsKept};

use crate::applying::begin;
use crate::facts::empties;
use crate::holding::{Unowned, hold_run, hold_touched};
use crate::judging::{is_next, suits_table};
use crate::leases::Leases;
use crate::owning::OwnerRun;
use crate::state::IndexedState;
use leased_ports::LeasedPorts;
use leased_ports::laws::{ends_are_last_ends, ports_follow_states};
use mapping_table::laws::sound_tables_have_sound_maps;
use pcp_base::{Change, Memory, Moment, Record, first_states_are_sound};
use peer_table::laws::sound_tables_have_sound_peers;
use std::alloc::Global;
use std::sync::ledger::Ledger;
use step_count::Steps;

/// Whether the first format has such a change.
fn is_of_first(change: &Change) -> bool
    ensures { IsTrue result ↔ IsOfFirst change.now }
{
    !matches!(change, Change::Rest(..) | Change::Renumber(_))
}

/// Whether the record fits in the first format.
pub(crate) fn suits_first(
    state: &IndexedState,
    alloc: Global,
    kept: &Record,
) -> Result<bool, Memory>
    requires reached { IsReached state.now.state }
    requires kept { IsKept state.now }
    requires at_last { state.now.ports.reached ≡ state.now.state.last }
    ensures { IfOk result (λ b. IsTrue b ↔ SuitsFirst state.now.state kept.now) }
{
    if !is_of_first(&kept.change) {
        return Ok(false);
    }
    if !is_next(state, kept) {
        return Ok(false);
    }
    suits_table(state, alloc, kept)
}

/// Gives the ports of these runs the last ends by which the leases hold them; others of them are free.
fn hold_all<L: Ledger>(
    ports: &mut LeasedPorts,
    alloc: Global,
    leases: &Leases,
    m: Moment,
    runs: &[OwnerRun],
    steps: &mut Steps<L>,
) -> Result<(), Memory>
    requires near { AreNearAt m leases.now.found }
    requires live { AreLiveAt m leases.now.found }
    requires runs { AllByRecursion (IsAgreed leases.now.found) runs.now }
    requires reached { ports.old.reached ≡ m }
    ensures terms { (terms : Terms) → IsOnTerms ports.old terms → IsOnTerms ports.new terms }
    ensures reached { OnOk result (ports.new.reached ≡ m) }
    ensures ports { OnOk result (AreHeld leases.now.found runs.now ports.old ports.new) }
{
    for run in runs {
        hold_run(ports, alloc, leases, m, run, Unowned::IsFree, steps)?;
    }
    Ok(())
}

/// Takes out the leases that have ended by `m`, and brings the ports of those that were live at `last`
/// to what the others hold. Others may have got the ports of those that had ended by then.
fn drop_dead<L: Ledger>(
    leases: &mut Leases,
    ports: &mut LeasedPorts,
    alloc: Global,
    last: Moment,
    m: Moment,
    steps: &mut Steps<L>,
) -> Result<(), Memory>
    requires near { AreNearAt last leases.old.found }
    requires later { last ≤ m }
    requires reached { ports.old.reached ≡ m }
    ensures terms { (terms : Terms) → IsOnTerms ports.old terms → IsOnTerms ports.new terms }
    ensures table { OnOk result (leases.new.found ≡ live leases.old.found m) }
    ensures past { leases.new.past ≡ leases.old.past }
    ensures reached { OnOk result (ports.new.reached ≡ m) }
    ensures ports { OnOk result ((s : State) → IsReachedFirst s
        → s.table ≡ live leases.old.found last → s.last ≤ m
        → IsPortsOf ports.old s → AreEndsOf m (live leases.old.found m) ports.new) }
{
    sound_tables_have_sound_maps();
    sound_tables_have_sound_peers();
    ports_follow_states();
    let _ended = leases.drop_dead(alloc, last, steps)?;
    let left = leases.drop_dead(alloc, m, steps)?;
    hold_all(ports, alloc, leases, m, &left, steps)
}

/// Makes a change, and brings the ports that it touches to what the leases hold.
fn make_change<L: Ledger>(
    leases: &mut Leases,
    ports: &mut LeasedPorts,
    alloc: Global,
    kept: &Record,
    steps: &mut Steps<L>,
) -> Result<(), Memory>
    requires formed { IsWellFormedRecord kept.now }
    requires keeps { by_apply.empties kept.now.change ≡ false }
    requires ready { AreReadyFor kept.now leases.old.found }
    requires reached { ports.old.reached ≡ kept.now.moment }
    requires ports { AreEndsOf kept.now.moment leases.old.found ports.old }
    ensures terms { (terms : Terms) → IsOnTerms ports.old terms → IsOnTerms ports.new terms }
    ensures tabled { OnOk result (AreTabled leases.new.found) }
    ensures past { leases.new.past ≡ leases.old.past }
    ensures table { OnOk result
        (live leases.new.found kept.now.moment ≡ table_changed kept.now.change leases.old.found) }
    ensures reached { OnOk result (ports.new.reached ≡ kept.now.moment) }
    ensures ports { OnOk result
        (AreEndsOf kept.now.moment (table_changed kept.now.change leases.old.found) ports.new) }
{
    let touched = leases.change(alloc, kept.moment, &kept.change, steps)?;
    hold_touched(
        ports,
        alloc,
        leases,
        kept.moment,
        touched,
        Unowned::IsFree,
        steps,
    )
}

/// Applies a record that doesn't forget all. After an error nothing is said of the state.
fn change<L: Ledger>(
    state: &mut IndexedState,
    alloc: Global,
    kept: &Record,
    steps: &mut Steps<L>,
) -> Result<(), Memory>
    requires sound { IsReachedFirst state.old.state }
    requires kept { IsKept state.old }
    requires fits { FitsFirst state.old.state kept.now }
    requires keeps { by_apply.empties kept.now.change ≡ false }
    requires at_last { state.old.ports.reached ≡ state.old.state.last }
    ensures terms { (terms : Terms) → IsOnTerms state.old.ports terms
        → IsOnTerms state.new.ports terms }
    ensures applied { OnOk result
        (state.new.state ≡ by_apply.apply_first state.old.state kept.now) }
    ensures kept { OnOk result (IsKept state.new) }
    ensures reached { OnOk result (state.new.ports.reached ≡ kept.now.moment) }
{
    first_states_are_sound();
    sound_tables_have_sound_maps();
    sound_tables_have_sound_peers();
    ports_follow_states();
    ends_are_last_ends();
    state.ports.reach(kept.moment, steps);
    drop_dead(
        &mut state.leases,
        &mut state.ports,
        alloc,
        state.last,
        kept.moment,
        steps,
    )?;
    make_change(&mut state.leases, &mut state.ports, alloc, kept, steps)?;
    state.leases.tell_all();
    state.note(kept);
    Ok(())
}

/// Applies a record that fits in the first format. All leases that have ended and haven't left go at
/// once, and their ports are free. After an error nothing is said of the state.
pub(crate) fn apply_first<L: Ledger>(
    state: &mut IndexedState,
    alloc: Global,
    kept: &Record,
    steps: &mut Steps<L>,
) -> Result<(), Memory>
    requires sound { IsReachedFirst state.old.state }
    requires kept { IsKept state.old }
    requires fits { FitsFirst state.old.state kept.now }
    requires at_last { state.old.ports.reached ≡ state.old.state.last }
    ensures terms { (terms : Terms) → IsOnTerms state.old.ports terms
        → IsOnTerms state.new.ports terms }
    ensures applied { OnOk result
        (state.new.state ≡ by_apply.apply_first state.old.state kept.now) }
    ensures kept { OnOk result (IsKept state.new) }
    ensures reached { OnOk result (state.new.ports.reached ≡ kept.now.moment) }
{
    if empties(&kept.change) {
        begin(state, kept, steps);
        return Ok(());
    }
    change(state, alloc, kept, steps)
}
