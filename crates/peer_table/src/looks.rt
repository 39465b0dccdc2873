//! Looks into the maps of a table, counted.

ghost use Rattle.std.specs.Prelude.{◌≡◌, ◌+◌, ◌*◌, length};
ghost use Rattle.std.specs.Option.{option_copied};
ghost use Rattle.std.specs.Ordering.{nat_cmp};
ghost use Rattle.std.specs.BTreeMap.{get, values};
ghost use Rattle.step_count.specs.Levels.{levels};
ghost use Rattle.peer_table.specs.Kept.{key_cmp, AreKeptPeers};

use crate::keys::{Key, Opening};
use ordered_index::Numbered;
use pcp_base::PeerLease;
use std::sync::ledger::Ledger;
use step_count::{Steps, levels};

/// Counts a look into one of the maps, of which each has as many levels at most as the leases' own.
pub(crate) fn look<L: Ledger>(kept: &Numbered<PeerLease, Key, Opening>, steps: &mut Steps<L>)
    ensures { steps.new ≡ steps.old + levels (length (values kept.now.leases)) }
{
    steps.take(levels(kept.leases.len()));
}

/// Counts looks into maps that may get a lease more.
pub(crate) fn look_beside_one_more<L: Ledger>(
    kept: &Numbered<PeerLease, Key, Opening>,
    looks: u32,
    steps: &mut Steps<L>,
)
    requires { AreKeptPeers kept.now }
    ensures { steps.new ≡ steps.old + looks * levels (length (values kept.now.leases) + 1) }
{
    steps.take(u64::from(looks) * levels(kept.leases.len() + 1));
}

/// The number under a key, by one look.
pub(crate) fn number_under<L: Ledger>(
    kept: &Numbered<PeerLease, Key, Opening>,
    key: Key,
    steps: &mut Steps<L>,
) -> Option<u64>
    ensures number { result ≡ get key_cmp kept.now.keys key }
    ensures steps { steps.new ≡ steps.old + levels (length (values kept.now.leases)) }
{
    look(kept, steps);
    kept.keys.get(&key).copied()
}

/// The lease with a number, by one look.
pub(crate) fn lease_at<'a, L: Ledger>(
    kept: &'a Numbered<PeerLease, Key, Opening>,
    number: u64,
    steps: &mut Steps<L>,
) -> Option<&'a PeerLease>
    ensures lease { option_copied result ≡ get nat_cmp kept.now.leases number }
    ensures steps { steps.new ≡ steps.old + levels (length (values kept.now.leases)) }
{
    look(kept, steps);
    kept.leases.get(&number)
}
