//! What applies a record to a store.
ghost use Rattle.std.specs.Prelude.{◌≡◌, ◌+◌, ◌<◌, ◌≤◌, OnOk};
ghost use Rattle.pcp_base.specs.Apply.{apply};
ghost use Rattle.pcp_base.specs.Fits.{Fits};
ghost use Rattle.pcp_base.specs.Reached.{IsReached};

use lease_store::LeaseStore;
use pcp_base::{Memory, Record};
use std::alloc::Global;
use std::sync::ledger::{Blank, Ledger};
use step_count::Steps;

/// Applies a record that fits, and whose moment isn't below the one reached. The one error is want
/// of memory, after which the store is to be cleared. It takes what the store's `apply` takes, also
/// then.
pub fn apply<S: LeaseStore, L: Ledger>(
    store: &mut S,
    alloc: Global,
    kept: &Record,
    steps: &mut Steps<L>,
) -> Result<(), Memory>
    requires sound { IsReached (S.state store.old) }
    requires fits { Fits (S.state store.old) kept.now }
    requires later { S.reached store.old ≤ kept.now.moment }
    ensures applied { OnOk result (S.state store.new ≡ apply (S.state store.old) kept.now) }
    ensures reached { OnOk result (S.reached store.new ≡ kept.now.moment) }
    ensures terms { S.terms store.new ≡ S.terms store.old }
    ensures steps { steps.new ≤ steps.old + S.apply_steps store.old kept.now }
{
    store.apply(alloc, kept, steps)
}

/// Applies for a caller that counts no steps.
pub(crate) fn apply_uncounted<S: LeaseStore, L: Ledger>(
    store: &mut S,
    alloc: Global,
    kept: &Record,
    blank: Blank,
) -> Result<(), Memory>
    requires name { blank.name ≡ L.name }
    requires parts { blank.parts ≡ L.parts }
    requires part { 0 < L.parts }
    requires sound { IsReached (S.state store.old) }
    requires fits { Fits (S.state store.old) kept.now }
    requires later { S.reached store.old ≤ kept.now.moment }
    ensures applied { OnOk result (S.state store.new ≡ apply (S.state store.old) kept.now) }
    ensures reached { OnOk result (S.reached store.new ≡ kept.now.moment) }
    ensures terms { S.terms store.new ≡ S.terms store.old }
{
    let mut steps = Steps::<L>::begin(blank);
    apply(store, alloc, kept, &mut steps)
}
