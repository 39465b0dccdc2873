//! Leases that come and change.

ghost use Rattle.std.specs.Prelude.{◌≡◌, ◌≤◌, ◌+◌, ◌*◌, ℕ, List, Some, None, OnErr, length};
ghost use Rattle.std.specs.BTreeMap.{get, values};
ghost use Rattle.step_count.specs.Levels.{levels};
ghost use Rattle.ordered_index.specs.Orders.{place_cmp};
ghost use Rattle.mapping_table.specs.MapLists.{AreSoundMaps, with_map, PutsMap};
ghost use Rattle.mapping_table.specs.Kept.{place_of_lease, AreCountedMaps, SievesMaps, KeepsNumbers};

use crate::bare::BareLease;
use ordered_index::{Hints, Owned, Place, Sieve};
use pcp_base::Memory;
use std::sync::ledger::Ledger;
use step_count::{Steps, levels};

/// Appends a lease whose key has no number. It takes a slot, puts an entry into the ordered map, a
/// port into an array, and an expiry into its block; where the map fails, the slot is given back.
pub(crate) fn append<L: Ledger>(
    kept: &mut Owned<BareLease, Place>,
    sieve: &mut Sieve,
    hints: &mut Hints,
    sets: &mut u32,
    lease: BareLease,
    steps: &mut Steps<L>,
) -> Result<(), Memory>
    requires counted { AreCountedMaps kept.old sets.old }
    requires sieved { SievesMaps sieve.old (values kept.old.leases) }
    requires free { get place_cmp kept.old.keys (place_of_lease lease) ≡ None }
    requires sound { AreSoundMaps (with_map lease (values kept.old.leases)) }
    ensures counted { AreCountedMaps kept.new sets.new }
    ensures sieved { SievesMaps sieve.new (values kept.new.leases) }
    ensures put { PutsMap (values kept.old.leases) lease result (values kept.new.leases) }
    ensures numbers { KeepsNumbers kept.old kept.new }
    ensures err { OnErr result (kept.new.leases.entries ≡ kept.old.leases.entries) }
    ensures steps { steps.new ≤ steps.old + 7 * levels (length (values kept.old.leases) + 1) }
{
    steps.take(7 * levels(kept.len() + 1));
    let place = lease.place();
    let number = kept.append(lease, place, lease.port())?;
    *sets += lease.sets();
    sieve.add(&place);
    hints.note(&place, number);
    Ok(())
}

/// Puts a lease in the place of the one with its key, which has this number. It looks at that one,
/// puts a port in, takes one out, and writes the lease and its expiry. It takes no memory.
pub(crate) fn replace<L: Ledger>(
    kept: &mut Owned<BareLease, Place>,
    sets: &mut u32,
    number: u64,
    lease: BareLease,
    steps: &mut Steps<L>,
)
    requires counted { AreCountedMaps kept.old sets.old }
    requires key { get place_cmp kept.old.keys (place_of_lease lease) ≡ Some number }
    requires sound { AreSoundMaps (with_map lease (values kept.old.leases)) }
    ensures counted { AreCountedMaps kept.new sets.new }
    ensures sieved { (sieve : List ℕ) → SievesMaps sieve (values kept.old.leases)
        → SievesMaps sieve (values kept.new.leases) }
    ensures put { values kept.new.leases ≡ with_map lease (values kept.old.leases) }
    ensures numbers { KeepsNumbers kept.old kept.new }
    ensures steps { steps.new ≤ steps.old + 6 * levels (length (values kept.old.leases) + 1) }
{
    steps.take(6 * levels(kept.len() + 1));
    let old = kept.leases()[&number];
    kept.replace(number, lease, old.port(), lease.port());
    *sets = *sets + lease.sets() - old.sets();
}
