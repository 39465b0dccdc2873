//! The leases of an endpoint that are live or have ended, between two keys.
ghost use Rattle.std.specs.Prelude.{◌≡◌, ◌≤◌, ◌+◌, ◌*◌, false, length, find, count_by};
ghost use Rattle.std.specs.Option.{option_map};
ghost use Rattle.std.specs.Ordering.{nat_cmp, is_gt};
ghost use Rattle.std.specs.BTreeMap.{get, values};
ghost use Rattle.std.specs.BTreeMap.Range.{entries_between};
ghost use Rattle.std.specs.declared.ops.Bound.TheVariants.{Included, Excluded};
ghost use Rattle.step_count.specs.Levels.{levels};
ghost use Rattle.pcp_base.specs.declared.leases.TheConstants.{MOST_PEERS};
ghost use Rattle.peer_table.specs.Kept.{key_cmp, some_that};
ghost use Rattle.peer_table.specs.PeerLists.{is_live_peer, is_ended_peer};

use crate::keys::{Key, Opening};
use crate::looks::{lease_at, look};
use ordered_index::Numbered;
use pcp_base::{Moment, PeerLease};
use std::sync::ledger::Ledger;
use step_count::Steps;

/// Whether the lease with this number is live at `m`, by one look.
fn is_live_at<L: Ledger>(
    kept: &Numbered<PeerLease, Key, Opening>,
    number: u64,
    m: Moment,
    steps: &mut Steps<L>,
) -> bool
    ensures live { result ≡ some_that (is_live_peer m) (get nat_cmp kept.now.leases number) }
    ensures steps { steps.new ≡ steps.old + levels (length (values kept.now.leases)) }
{
    match lease_at(kept, number, steps) {
        Some(lease) => lease.is_live(m),
        None => false,
    }
}

/// Whether the lease with this number has ended by `m`, by one look.
fn is_ended_at<L: Ledger>(
    kept: &Numbered<PeerLease, Key, Opening>,
    number: u64,
    m: Moment,
    steps: &mut Steps<L>,
) -> bool
    ensures ended { result ≡ some_that (is_ended_peer m) (get nat_cmp kept.now.leases number) }
    ensures steps { steps.new ≡ steps.old + levels (length (values kept.now.leases)) }
{
    match lease_at(kept, number, steps) {
        Some(lease) => !lease.is_live(m),
        None => false,
    }
}

/// The first number from one key to before another whose lease is live at `m`.
pub(crate) fn first_live<L: Ledger>(
    kept: &Numbered<PeerLease, Key, Opening>,
    from: Key,
    to: Key,
    m: Moment,
    steps: &mut Steps<L>,
) -> Option<u64>
    requires forward { is_gt (key_cmp from to) ≡ false }
    requires few { length
        (entries_between key_cmp (Included from) (Excluded to) kept.now.keys.entries) ≤ MOST_PEERS }
    ensures first { result ≡ option_map (λ e. e.1)
        (find (λ e. some_that (is_live_peer m) (get nat_cmp kept.now.leases e.1))
        (entries_between key_cmp (Included from) (Excluded to) kept.now.keys.entries)) }
    ensures steps { steps.new
        ≤ steps.old + (1 + MOST_PEERS) * levels (length (values kept.now.leases)) }
{
    look(kept, steps);
    if kept.keys.is_empty() {
        return None;
    }
    for (_, number) in kept.keys.range(from..to) {
        if is_live_at(kept, *number, m, steps) {
            return Some(*number);
        }
    }
    None
}

/// The first number from one key to before another whose lease has ended by `m`.
pub(crate) fn first_ended<L: Ledger>(
    kept: &Numbered<PeerLease, Key, Opening>,
    from: Key,
    to: Key,
    m: Moment,
    steps: &mut Steps<L>,
) -> Option<u64>
    requires forward { is_gt (key_cmp from to) ≡ false }
    requires few { length
        (entries_between key_cmp (Included from) (Excluded to) kept.now.keys.entries) ≤ MOST_PEERS }
    ensures first { result ≡ option_map (λ e. e.1)
        (find (λ e. some_that (is_ended_peer m) (get nat_cmp kept.now.leases e.1))
        (entries_between key_cmp (Included from) (Excluded to) kept.now.keys.entries)) }
    ensures steps { steps.new
        ≤ steps.old + (1 + MOST_PEERS) * levels (length (values kept.now.leases)) }
{
    look(kept, steps);
    for (_, number) in kept.keys.range(from..to) {
        if is_ended_at(kept, *number, m, steps) {
            return Some(*number);
        }
    }
    None
}

/// How many numbers from one key to before another have a lease that is live at `m`.
pub(crate) fn count_live<L: Ledger>(
    kept: &Numbered<PeerLease, Key, Opening>,
    from: Key,
    to: Key,
    m: Moment,
    steps: &mut Steps<L>,
) -> u32
    requires forward { is_gt (key_cmp from to) ≡ false }
    requires few { length
        (entries_between key_cmp (Included from) (Excluded to) kept.now.keys.entries) ≤ MOST_PEERS }
    ensures count { result
        ≡ count_by (λ e. some_that (is_live_peer m) (get nat_cmp kept.now.leases e.1))
        (entries_between key_cmp (Included from) (Excluded to) kept.now.keys.entries) }
    ensures steps { steps.new
        ≤ steps.old + (1 + MOST_PEERS) * levels (length (values kept.now.leases)) }
{
    let mut count = 0;
    look(kept, steps);
    for (_, number) in kept.keys.range(from..to) {
        if is_live_at(kept, *number, m, steps) {
            count += 1;
        }
    }
    count
}
