//! Leases that come and change.

ghost use Rattle.std.specs.Prelude.{◌≡◌, ◌+◌, ◌*◌, length, Some, None};
ghost use Rattle.std.specs.BTreeMap.{get, values};
ghost use Rattle.step_count.specs.Levels.{levels};
ghost use Rattle.peer_table.specs.PeerLists.{AreSoundPeers, with_peer, PutsPeer};
ghost use Rattle.peer_table.specs.Kept.{key_cmp, key_of_lease, AreKeptPeers, StaysApart};

use crate::keys::{Key, Opening, key_of, opening_of};
use crate::looks::look_beside_one_more;
use ordered_index::Numbered;
use pcp_base::{Memory, PeerLease};
use std::sync::ledger::Ledger;
use step_count::Steps;

/// Appends a lease whose key has no number. It looks into three maps and the tree of expiries, and
/// where the last map finds no memory, once more into those before.
pub(crate) fn append<L: Ledger>(
    kept: &mut Numbered<PeerLease, Key, Opening>,
    lease: PeerLease,
    steps: &mut Steps<L>,
) -> Result<(), Memory>
    requires kept { AreKeptPeers kept.old }
    requires free { get key_cmp kept.old.keys (key_of_lease lease) ≡ None }
    requires sound { AreSoundPeers (with_peer lease (values kept.old.leases)) }
    ensures kept { AreKeptPeers kept.new }
    ensures put { PutsPeer (values kept.old.leases) lease result (values kept.new.leases) }
    ensures apart { StaysApart kept.old kept.new result }
    ensures steps { steps.new ≡ steps.old + 7 * levels (length (values kept.old.leases) + 1) }
{
    look_beside_one_more(kept, 7, steps);
    kept.append(lease, key_of(&lease), opening_of(&lease))?;
    Ok(())
}

/// Puts a lease in the place of the one with its key, which has this number. It looks at that one,
/// twice into the map of openings and the tree of expiries, and once more into the leases.
pub(crate) fn replace<L: Ledger>(
    kept: &mut Numbered<PeerLease, Key, Opening>,
    number: u64,
    lease: PeerLease,
    steps: &mut Steps<L>,
) -> Result<(), Memory>
    requires kept { AreKeptPeers kept.old }
    requires key { get key_cmp kept.old.keys (key_of_lease lease) ≡ Some number }
    requires sound { AreSoundPeers (with_peer lease (values kept.old.leases)) }
    ensures kept { AreKeptPeers kept.new }
    ensures put { PutsPeer (values kept.old.leases) lease result (values kept.new.leases) }
    ensures apart { StaysApart kept.old kept.new result }
    ensures steps { steps.new ≡ steps.old + 6 * levels (length (values kept.old.leases) + 1) }
{
    look_beside_one_more(kept, 6, steps);
    let old = kept.leases[&number];
    let openings = (opening_of(&old), opening_of(&lease));
    kept.replace(number, lease, openings)
}
