//! The laws of histories cited for a history of three entries.
ghost use Rattle.std.specs.Prelude.{[], ◌∷◌, Contains};
ghost use Rattle.std.specs.List.{AllByRecursion};
ghost use Rattle.lease_histories.specs.Laws.{IsWithinAge};
ghost use Rattle.lease_histories.specs.Legal.{IsLegal, IsOpening, state_after};
ghost use Rattle.house_rows.specs.ThreeEntries.{failed, lease, lost, opening, served};

use lease_histories::{entries_come_next, epochs_disclose, histories_grow, nonces_decide};

/// Three entries are a legal history: the lease is there after the first, a fault, and no epoch that is
/// told from its loss on is above its age.
pub fn three_entries()
    ensures opens { IsOpening served opening }
    ensures legal { IsLegal served opening (failed 1000 900 ∷ lost ∷ failed 1100 1100 ∷ []) }
    ensures kept { Contains (state_after opening (failed 1000 900 ∷ [])).table.maps lease }
    ensures epochs { AllByRecursion (IsWithinAge 1000) (lost ∷ failed 1100 1100 ∷ []) }
{
    histories_grow();
    entries_come_next();
    nonces_decide();
    epochs_disclose();
}
