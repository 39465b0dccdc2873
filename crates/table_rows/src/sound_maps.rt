//! Whether MAP leases may stand in a table together, and so with one more.
ghost use Rattle.std.specs.Prelude.{◌≡◌, ◌+◌, ◌<◌, ◌≤◌, IsTrue, false, position, IfOk, OnOk, OnErr};
ghost use Rattle.std.specs.Bool.{OnTrue};
ghost use Rattle.std.specs.List.{AllByRecursion};
ghost use Rattle.pcp_base.specs.Tables.{EachTwo, HasPorts, IsMapLease, AreLeaseFilters, is_map_of};
ghost use Rattle.mapping_table.specs.MapLists.{runs_meet, AreSeparate, AreSoundMaps, with_map};

use pcp_base::{Endpoint, Filter, MOST_LEASES, MOST_PORTS, MapLease};
use std::alloc::{AllocError, Global};

/// Whether these leases, with at most one filter each, may be the MAP leases of a sound table.
fn are_sound(leases: &[MapLease]) -> bool
    ensures { OnTrue result (AreSoundMaps leases.now) }
{
    leases.len() <= MOST_LEASES && are_leases(leases) && are_all_separate(leases)
}

/// Whether each may stand in a table.
fn are_leases(leases: &[MapLease]) -> bool
    ensures { OnTrue result (AllByRecursion IsMapLease leases.now) }
{
    match leases {
        [] => true,
        [first, rest @ ..] => is_lease(first) && are_leases(rest),
    }
}

/// Whether the lease has ports that are in their ranges, and at most one filter.
fn is_lease(lease: &MapLease) -> bool
    ensures { OnTrue result (IsMapLease lease.now) }
{
    has_ports(lease) && are_filters(lease.filters.items())
}

/// Whether there is at most one filter, and its prefix is in its range.
fn are_filters(filters: &[Filter]) -> bool
    ensures { OnTrue result (AreLeaseFilters filters.now) }
{
    match filters {
        [] => true,
        [filter] => 0 < filter.prefix && filter.prefix <= 128,
        _ => false,
    }
}

fn has_ports(lease: &MapLease) -> bool
    ensures { OnTrue result (HasPorts lease.now) }
{
    let count = u32::from(lease.count);
    lease.internal >= 1
        && lease.external >= 1
        && lease.count >= 1
        && lease.count <= MOST_PORTS
        && u32::from(lease.internal) + count <= 65536
        && u32::from(lease.external) + count <= 65536
}

/// Whether no port is covered or owned by two of them.
fn are_all_separate(leases: &[MapLease]) -> bool
    ensures { OnTrue result (EachTwo AreSeparate leases.now) }
{
    match leases {
        [] => true,
        [first, rest @ ..] => is_separate_from_all(first, rest) && are_all_separate(rest),
    }
}

fn is_separate_from_all(lease: &MapLease, others: &[MapLease]) -> bool
    ensures { OnTrue result (AllByRecursion (λ x. AreSeparate lease.now x) others.now) }
{
    others.iter().all(|other| are_separate(lease, other))
}

fn are_separate(first: &MapLease, second: &MapLease) -> bool
    ensures { OnTrue result (AreSeparate first.now second.now) }
{
    let inside = first.address == second.address
        && first.protocol == second.protocol
        && runs_meet(first.internal, first.count, second.internal, second.count);
    let outside = first.protocol == second.protocol
        && runs_meet(first.external, first.count, second.external, second.count);
    !inside && !outside
}

/// Whether the `n` ports from `a` on and the `k` ports from `b` on have one in common.
fn runs_meet(a: u16, n: u16, b: u16, k: u16) -> bool
    ensures { result ≡ runs_meet a n b k }
{
    u32::from(a) < u32::from(b) + u32::from(k) && u32::from(b) < u32::from(a) + u32::from(n)
}

/// The place of the lease with this key.
fn place_of(leases: &[MapLease], key: &Endpoint) -> Option<usize>
    ensures { result ≡ position (is_map_of key.now) leases.now }
{
    leases
        .iter()
        .position(|lease| lease.first_endpoint() == *key)
}

/// Puts a lease in the place of the one with its key, or at the end.
fn put_into(leases: &mut Vec<MapLease>, lease: MapLease) -> Result<(), AllocError>
    ensures ok { OnOk result (leases.new.items ≡ with_map lease leases.old.items) }
    ensures err { OnErr result (leases.new.items ≡ leases.old.items) }
{
    match place_of(leases, &lease.first_endpoint()) {
        Some(place) => leases[place] = lease,
        None => leases.push(lease)?,
    }
    Ok(())
}

/// Whether the leases are sound with one more.
pub(crate) fn are_sound_with(
    alloc: Global,
    leases: &[MapLease],
    lease: &MapLease,
) -> Result<bool, AllocError>
    ensures { IfOk result (λ sound. OnTrue sound (AreSoundMaps (with_map lease.now leases.now))) }
{
    let mut after = leases.to_vec(alloc)?;
    put_into(&mut after, *lease)?;
    Ok(are_sound(&after))
}
