//! Leases of a table that another one may overlap.

ghost use Rattle.std.specs.Prelude.{◌≡◌, ◌≤◌, ◌+◌, ◌*◌, ◌&&◌, ◌==◌, false, not, length, find, count_by};
ghost use Rattle.std.specs.Option.{option_copied, option_map};
ghost use Rattle.std.specs.Ordering.{is_gt};
ghost use Rattle.std.specs.BTreeMap.{values};
ghost use Rattle.std.specs.BTreeMap.Range.{entries_between};
ghost use Rattle.std.specs.declared.ops.Bound.TheVariants.{Included, Excluded};
ghost use Rattle.step_count.specs.Levels.{levels};
ghost use Rattle.pcp_base.specs.Owners.{is_port, peer_owner};
ghost use Rattle.pcp_base.specs.Tables.{is_peer_of};
ghost use Rattle.peer_table.specs.PeerLists.{has_other_port, has_other_endpoint, overlaps};
ghost use Rattle.peer_table.specs.Kept.{AreKeptPeers, key_cmp, opening_cmp, has_remote, first_number, overlapped, TellsOther};

use crate::keys::{Key, Opening, bound_at, opening_bound};
use crate::looks::{lease_at, look};
use ordered_index::Numbered;
use pcp_base::PeerLease;
use std::sync::ledger::Ledger;
use step_count::Steps;

/// Whether the other lease has the key of this one.
fn has_key_of(other: &PeerLease, lease: &PeerLease) -> bool
    ensures { result
        ≡ is_peer_of lease.now.endpoint lease.now.remote lease.now.remote_port other.now }
{
    other.endpoint == lease.endpoint
        && other.remote == lease.remote
        && other.remote_port == lease.remote_port
}

/// Whether the other lease has the endpoint of this one, and another external port.
fn has_other_port(lease: &PeerLease, other: &PeerLease) -> bool
    ensures { result ≡ has_other_port lease.now other.now }
{
    other.endpoint == lease.endpoint && other.external != lease.external
}

/// Whether the lease owns the external port of the other one.
fn has_port_of(lease: &PeerLease, other: &PeerLease) -> bool
    ensures { result
        ≡ is_port other.now.endpoint.protocol other.now.external (peer_owner lease.now) }
{
    lease.endpoint.protocol == other.endpoint.protocol && lease.external == other.external
}

/// Whether the other lease owns the external port of this one, and has another endpoint.
fn has_other_endpoint(lease: &PeerLease, other: &PeerLease) -> bool
    ensures { result ≡ has_other_endpoint lease.now other.now }
{
    has_port_of(other, lease) && other.endpoint != lease.endpoint
}

/// Whether the other lease has another key than this one and isn't its fellow.
pub(crate) fn overlaps(lease: &PeerLease, other: &PeerLease) -> bool
    ensures { result ≡ overlaps lease.now other.now }
{
    !has_key_of(other, lease) && (has_other_port(lease, other) || has_other_endpoint(lease, other))
}

/// What was looked up, where the lease overlaps it.
pub(crate) fn overlapped<'a>(
    lease: &PeerLease,
    found: Option<&'a PeerLease>,
) -> Option<&'a PeerLease>
    ensures { option_copied result ≡ overlapped lease.now (option_copied found.entry) }
{
    let Some(other) = found else {
        return None;
    };
    if overlaps(lease, other) {
        Some(other)
    } else {
        None
    }
}

/// Whether the key has the remote of the lease.
fn has_remote(key: Key, lease: &PeerLease) -> bool
    ensures { result ≡ has_remote lease.now.remote lease.now.remote_port key }
{
    key.remote == lease.remote.0 && key.remote_port == lease.remote_port
}

/// The first number from one key to before another whose key hasn't the remote of the lease. As one
/// key at most has it, that is the first or the second, which takes one look more.
fn first_elsewhere<L: Ledger>(
    kept: &Numbered<PeerLease, Key, Opening>,
    from: Key,
    to: Key,
    lease: &PeerLease,
    steps: &mut Steps<L>,
) -> Option<u64>
    requires forward { is_gt (key_cmp from to) ≡ false }
    requires one { count_by (λ e. has_remote lease.now.remote lease.now.remote_port e.0)
        (entries_between key_cmp (Included from) (Excluded to) kept.now.keys.entries) ≤ 1 }
    ensures first { result ≡ option_map (λ e. e.1)
        (find (λ e. not (has_remote lease.now.remote lease.now.remote_port e.0))
        (entries_between key_cmp (Included from) (Excluded to) kept.now.keys.entries)) }
    ensures steps { steps.new ≤ steps.old + 2 * levels (length (values kept.now.leases)) }
{
    look(kept, steps);
    for (key, number) in kept.keys.range(from..to) {
        if !has_remote(*key, lease) {
            return Some(*number);
        }
        look(kept, steps);
    }
    None
}

/// The first number from one opening to before another.
fn first_open<L: Ledger>(
    kept: &Numbered<PeerLease, Key, Opening>,
    from: Opening,
    to: Opening,
    steps: &mut Steps<L>,
) -> Option<u64>
    requires { is_gt (opening_cmp from to) ≡ false }
    ensures first { result ≡ first_number
        (entries_between opening_cmp (Included from) (Excluded to) kept.now.ports.entries) }
    ensures steps { steps.new ≡ steps.old + levels (length (values kept.now.leases)) }
{
    look(kept, steps);
    let Some((_, number)) = kept.ports.range(from..to).next() else {
        return None;
    };
    Some(*number)
}

/// A lease of the endpoint with another remote. All of them have one external port.
pub(crate) fn of_endpoint<'a, L: Ledger>(
    kept: &'a Numbered<PeerLease, Key, Opening>,
    lease: &PeerLease,
    steps: &mut Steps<L>,
) -> Option<&'a PeerLease>
    requires { AreKeptPeers kept.now }
    ensures told { TellsOther has_other_port lease.now (values kept.now.leases)
        (option_copied result) }
    ensures steps { steps.new ≤ steps.old + 3 * levels (length (values kept.now.leases)) }
{
    let from = bound_at(&lease.endpoint, 0);
    let to = bound_at(&lease.endpoint, 2);
    let Some(number) = first_elsewhere(kept, from, to, lease, steps) else {
        return None;
    };
    lease_at(kept, number, steps)
}

/// A lease that owns the external port. All of them have one endpoint.
pub(crate) fn of_port<'a, L: Ledger>(
    kept: &'a Numbered<PeerLease, Key, Opening>,
    lease: &PeerLease,
    steps: &mut Steps<L>,
) -> Option<&'a PeerLease>
    requires { AreKeptPeers kept.now }
    ensures told { TellsOther has_other_endpoint lease.now (values kept.now.leases)
        (option_copied result) }
    ensures steps { steps.new ≤ steps.old + 2 * levels (length (values kept.now.leases)) }
{
    let from = opening_bound(lease.endpoint.protocol, lease.external, 0);
    let to = opening_bound(lease.endpoint.protocol, lease.external, 2);
    let Some(number) = first_open(kept, from, to, steps) else {
        return None;
    };
    lease_at(kept, number, steps)
}
