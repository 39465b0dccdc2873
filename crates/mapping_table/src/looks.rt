//! Looks into what a table keeps, counted.

ghost use Rattle.std.specs.Prelude.{◌≡◌, ◌+◌, length};
ghost use Rattle.std.specs.Option.{option_copied};
ghost use Rattle.std.specs.Ordering.{nat_cmp};
ghost use Rattle.std.specs.BTreeMap.{get, values};
ghost use Rattle.step_count.specs.Levels.{levels};
ghost use Rattle.mapping_table.specs.Kept.{IsInSlot};

use crate::bare::BareLease;
use ordered_index::{Owned, Place};
use std::sync::ledger::Ledger;
use step_count::{Steps, levels};

/// Counts a look: at a slot, into an array, or into an ordered map, which has at most so many levels.
pub(crate) fn look<L: Ledger>(kept: &Owned<BareLease, Place>, steps: &mut Steps<L>)
    ensures { steps.new ≡ steps.old + levels (length (values kept.now.leases)) }
{
    steps.take(levels(kept.len()));
}

/// The lease with a number, by one look.
pub(crate) fn lease_at<'a, L: Ledger>(
    kept: &'a Owned<BareLease, Place>,
    number: u64,
    steps: &mut Steps<L>,
) -> Option<&'a BareLease>
    ensures lease { option_copied result ≡ get nat_cmp kept.now.leases number }
    ensures steps { steps.new ≡ steps.old + levels (length (values kept.now.leases)) }
{
    look(kept, steps);
    kept.get(&number)
}

/// The lease in a slot, by one look.
pub(crate) fn lease_in<'a, L: Ledger>(
    kept: &'a Owned<BareLease, Place>,
    slot: usize,
    steps: &mut Steps<L>,
) -> Option<&'a BareLease>
    ensures lease { IsInSlot kept.now slot (option_copied result) }
    ensures steps { steps.new ≡ steps.old + levels (length (values kept.now.leases)) }
{
    look(kept, steps);
    let Some(entry) = kept.in_slot(slot) else {
        return None;
    };
    let (_number, lease) = entry;
    Some(lease)
}
