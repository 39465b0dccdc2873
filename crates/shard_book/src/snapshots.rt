//! The records that stand for the state of a core by themselves.
ghost use Rattle.std.specs.Prelude.{◌≡◌, ◌++◌, ◌∷◌, [], IfOk, OnOk};
ghost use Rattle.pcp_base.specs.declared.records.Change.TheVariants.{Start};
ghost use Rattle.pcp_base.specs.Reached.{IsReached};
ghost use Rattle.pcp_base.specs.Snapshots.{address_records, snapshot};

use crate::texts::KeptTexts;
use lease_core::LeaseCore;
use lease_store::LeaseStore;
use pcp_base::{Address, Change, Memory, Moment, Record};
use record_sink::RecordSink;
use std::alloc::Global;

/// Hands on a Start at the base, and the address.
fn put_start<K: RecordSink>(
    out: &mut K,
    base: Moment,
    address: Option<Address>,
) -> Result<(), Memory>
    ensures { OnOk result (K.taken out.new ≡ K.taken out.old
        ++ record { moment = base; change = Start } ∷ address_records base address) }
{
    out.take(&Record {
        moment: base,
        change: Change::Start,
    })?;
    if let Some(address) = address {
        out.take(&Record {
            moment: base,
            change: Change::Renumber(address),
        })?;
    }
    Ok(())
}

/// Hands on the records that stand for the state of a core.
fn put_snapshot<S: LeaseStore, K: RecordSink>(
    core: &LeaseCore<S>,
    out: &mut K,
) -> Result<(), Memory>
    requires reached { IsReached (S.state core.now) }
    requires none { K.taken out.old ≡ [] }
    ensures { OnOk result (K.taken out.new ≡ snapshot (S.state core.now)) }
{
    put_start(out, core.base(), core.address())?;
    out.take(&Record {
        moment: core.last(),
        change: Change::Mark,
    })?;
    core.add_records(out)
}

/// The texts of the records that stand for the state of a core.
pub(crate) fn texts_of_state<S: LeaseStore>(
    alloc: Global,
    core: &LeaseCore<S>,
) -> Result<KeptTexts, Memory>
    requires { IsReached (S.state core.now) }
    ensures { IfOk result
        (λ texts. texts ≡ record { sure = snapshot (S.state core.now); added = [] }) }
{
    let mut texts = KeptTexts::new(alloc);
    put_snapshot(core, &mut texts)?;
    texts.confirm();
    Ok(texts)
}
