//! The leases of an external port, between two openings.
ghost use Rattle.std.specs.Prelude.{◌≡◌, ◌≤◌, ◌+◌, ◌*◌, None, false, length};
ghost use Rattle.std.specs.Ordering.{nat_cmp, is_gt};
ghost use Rattle.std.specs.BTreeMap.{get, values};
ghost use Rattle.std.specs.BTreeMap.Range.{entries_between};
ghost use Rattle.std.specs.declared.ops.Bound.TheVariants.{Included, Excluded};
ghost use Rattle.step_count.specs.Levels.{levels};
ghost use Rattle.pcp_base.specs.declared.leases.TheConstants.{MOST_PEERS};
ghost use Rattle.peer_table.specs.Kept.{opening_cmp, expiry_in, later, last_of};

use crate::keys::{Key, Opening};
use crate::looks::{lease_at, look};
use ordered_index::Numbered;
use pcp_base::PeerLease;
use std::sync::ledger::Ledger;
use step_count::Steps;

/// The later of two moments, of which each may be missing.
fn later(first: Option<u64>, second: Option<u64>) -> Option<u64>
    ensures { result ≡ later first second }
{
    match (first, second) {
        (Some(a), Some(b)) => if a < b { Some(b) } else { Some(a) },
        (Some(a), None) => Some(a),
        (None, b) => b,
    }
}

/// The expiry of the lease with this number, by one look.
fn expiry_at<L: Ledger>(
    kept: &Numbered<PeerLease, Key, Opening>,
    number: u64,
    steps: &mut Steps<L>,
) -> Option<u64>
    ensures expiry { result ≡ expiry_in (get nat_cmp kept.now.leases number) }
    ensures steps { steps.new ≡ steps.old + levels (length (values kept.now.leases)) }
{
    match lease_at(kept, number, steps) {
        Some(lease) => Some(lease.expiry),
        None => None,
    }
}

/// The latest expiry of the leases whose numbers stand from one opening to before another.
pub(crate) fn last_expiry<L: Ledger>(
    kept: &Numbered<PeerLease, Key, Opening>,
    from: Opening,
    to: Opening,
    steps: &mut Steps<L>,
) -> Option<u64>
    requires forward { is_gt (opening_cmp from to) ≡ false }
    requires few { length (entries_between opening_cmp (Included from) (Excluded to)
        kept.now.ports.entries) ≤ MOST_PEERS }
    ensures last { result ≡ last_of (λ e. expiry_in (get nat_cmp kept.now.leases e.1)) None
        (entries_between opening_cmp (Included from) (Excluded to) kept.now.ports.entries) }
    ensures steps { steps.new
        ≤ steps.old + (1 + MOST_PEERS) * levels (length (values kept.now.leases)) }
{
    let mut last = None;
    look(kept, steps);
    for (_, number) in kept.ports.range(from..to) {
        last = later(last, expiry_at(kept, *number, steps));
    }
    last
}
