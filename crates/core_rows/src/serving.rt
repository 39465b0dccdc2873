//! Requests served one after the other: what is decided is applied.
ghost use Rattle.std.specs.Prelude.{◌≡◌, ◌≤◌, IfSome, IfOk, OnOk};
ghost use Rattle.pcp_base.specs.Apply.{apply};
ghost use Rattle.pcp_base.specs.Fits.{Fits};
ghost use Rattle.lease_store.specs.LeaseTerms.{AreTerms};
ghost use Rattle.core_rows.specs.Serving.{MayServe};

use crate::requests::is_well_formed;
use lease_core::{LeaseCore, decisions_fit};
use lease_store::LeaseStore;
use pcp_base::{Address, Answer, Ask, Change, Memory, Moment, Record, Replay, states_are_sound};
use std::alloc::Global;
use std::test::Fail;

pub(crate) fn moment(seconds: u32) -> Moment
    ensures { result ≡ seconds }
{
    Moment::of(u64::from(seconds)).unwrap()
}

/// Admits a record of this change at 1000, which fits.
fn begin<S: LeaseStore>(alloc: Global, core: &mut LeaseCore<S>, change: Change) -> Result<(), Fail>
    requires ready { S.replaying core.old }
    requires reached { S.reached core.old ≡ (S.state core.old).last }
    ensures applied { OnOk result
        (S.state core.new ≡ apply (S.state core.old) (record { moment = 1000; change = change })) }
    ensures ready { OnOk result (S.replaying core.new) }
    ensures reached { OnOk result (S.reached core.new ≡ (S.state core.new).last) }
    ensures terms { S.terms core.new ≡ S.terms core.old }
{
    let kept = Record {
        moment: moment(1000),
        change,
    };
    if !core.admit(alloc, &kept)? {
        return Err("the record doesn't fit".into());
    }
    Ok(())
}

/// Begins anew with a Start and the external address at 1000.
fn start<S: LeaseStore>(alloc: Global, core: &mut LeaseCore<S>) -> Result<(), Fail>
    requires { AreTerms (S.terms core.old) }
    ensures may { OnOk result (MayServe (S.state core.new) (S.terms core.new)) }
    ensures reached { OnOk result (S.reached core.new ≡ 1000) }
{
    core.clear();
    begin(alloc, core, Change::Start)?;
    begin(alloc, core, Change::Renumber(Address::v4(192, 0, 2, 1)))
}

/// The core that was made, begun by a Start and the external address at 1000.
pub(crate) fn begun<S: LeaseStore + Drop>(
    alloc: Global,
    made: Result<LeaseCore<S>, Fail>,
) -> Result<LeaseCore<S>, Fail>
    requires { IfOk made (λ core. AreTerms (S.terms core)) }
    ensures may { IfOk result (λ core. MayServe (S.state core) (S.terms core)) }
    ensures reached { IfOk result (λ core. S.reached core ≡ 1000) }
{
    let mut core = made?;
    start(alloc, &mut core)?;
    Ok(core)
}

/// Applies the record of a decision at `m`, if there is one.
fn keep<S: LeaseStore>(
    alloc: Global,
    core: &mut LeaseCore<S>,
    kept: Option<Record>,
    m: Moment,
) -> Result<(), Memory>
    requires may { MayServe (S.state core.old) (S.terms core.old) }
    requires fits { IfSome kept (λ r. Fits (S.state core.old) r × (r.moment ≡ m)) }
    requires reached { S.reached core.old ≡ m }
    ensures may { OnOk result (MayServe (S.state core.new) (S.terms core.new)) }
    ensures reached { OnOk result (S.reached core.new ≡ m) }
{
    states_are_sound();
    match kept {
        None => Ok(()),
        Some(kept) => core.apply(alloc, &kept),
    }
}

/// Answers a request at `m`, and applies what is kept of it.
pub(crate) fn serve<S: LeaseStore>(
    alloc: Global,
    core: &mut LeaseCore<S>,
    ask: &Ask,
    m: Moment,
) -> Result<Answer, Fail>
    requires may { MayServe (S.state core.old) (S.terms core.old) }
    requires later { S.reached core.old ≤ m }
    ensures may { OnOk result (MayServe (S.state core.new) (S.terms core.new)) }
    ensures reached { OnOk result (S.reached core.new ≡ m) }
{
    decisions_fit();
    if !is_well_formed(ask) {
        return Err("the request isn't well formed".into());
    }
    let _last = core.last();
    let decided = core.decide(alloc, ask, m)?;
    keep(alloc, core, decided.kept, m)?;
    Ok(decided.answer)
}
