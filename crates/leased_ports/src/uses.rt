//! Giving the ports of a run another use.

ghost use Rattle.std.specs.Prelude.{ℕ, OnOk};
ghost use Rattle.external_pool.specs.declared.uses.Use.TheVariants.{Free, Held, Resting};
ghost use Rattle.leased_ports.specs.Kept.{IsOn, IsSet, use_in};
ghost use Rattle.leased_ports.specs.Steps.{GivesUses, AreUsedBy};

use crate::phases::Phase;
use external_pool::Vacancies;
use pcp_base::{End, Memory};
use port_spans::Run;
use std::alloc::Global;

/// Frees the ports of a run.
pub fn free_ports(pool: &mut Vacancies, run: &Run<End>, phase: Phase)
    requires set { IsSet run.now }
    requires used { AreUsedBy pool.old run.now (use_in phase run.now.value) }
    ensures { GivesUses pool.old run.now.value.endpoint.protocol run.now.value.external
        run.now.count Free pool.new }
{
    let last = &run.value;
    if phase == Phase::Holds {
        pool.release(
            &last.endpoint.address,
            last.endpoint.protocol,
            last.external,
            run.count,
        );
        return;
    }
    if phase == Phase::Rests {
        pool.wake_run(last.endpoint.protocol, last.external, run.count);
    }
}

/// Holds the ports of a run.
fn hold_ports(
    pool: &mut Vacancies,
    alloc: Global,
    run: &Run<End>,
    phase: Phase,
) -> Result<(), Memory>
    requires set { IsSet run.now }
    requires used { AreUsedBy pool.old run.now (use_in phase run.now.value) }
    ensures on { (low high most : ℕ) →
        IsOn pool.old low high most → IsOn pool.new low high most }
    ensures ok { OnOk result (GivesUses pool.old run.now.value.endpoint.protocol
        run.now.value.external run.now.count (Held run.now.value.endpoint.address) pool.new) }
{
    if phase == Phase::Holds {
        return Ok(());
    }
    let last = &run.value;
    pool.hold(
        alloc,
        &last.endpoint.address,
        last.endpoint.protocol,
        last.external,
        run.count,
    )?;
    Ok(())
}

/// Lets the ports of a run rest.
fn rest_ports(
    pool: &mut Vacancies,
    alloc: Global,
    run: &Run<End>,
    phase: Phase,
) -> Result<(), Memory>
    requires set { IsSet run.now }
    requires used { AreUsedBy pool.old run.now (use_in phase run.now.value) }
    ensures on { (low high most : ℕ) →
        IsOn pool.old low high most → IsOn pool.new low high most }
    ensures ok { OnOk result (GivesUses pool.old run.now.value.endpoint.protocol
        run.now.value.external run.now.count
        (Resting run.now.value.endpoint.address run.now.value.endpoint.port) pool.new) }
{
    let last = &run.value;
    if phase == Phase::Rests {
        return Ok(());
    }
    if phase == Phase::Holds {
        pool.retire(last.external, &last.endpoint, run.count);
        return Ok(());
    }
    pool.rest_run(alloc, last.external, &last.endpoint, run.count)?;
    Ok(())
}

/// Uses the ports of a run by another phase than before.
pub fn change_use(
    pool: &mut Vacancies,
    alloc: Global,
    run: &Run<End>,
    phase: Phase,
    next: Phase,
) -> Result<(), Memory>
    requires set { IsSet run.now }
    requires used { AreUsedBy pool.old run.now (use_in phase run.now.value) }
    ensures on { (low high most : ℕ) →
        IsOn pool.old low high most → IsOn pool.new low high most }
    ensures ok { OnOk result (GivesUses pool.old run.now.value.endpoint.protocol
        run.now.value.external run.now.count (use_in next run.now.value) pool.new) }
{
    if next == Phase::Holds {
        return hold_ports(pool, alloc, run, phase);
    }
    if next == Phase::Rests {
        return rest_ports(pool, alloc, run, phase);
    }
    free_ports(pool, run, phase);
    Ok(())
}
