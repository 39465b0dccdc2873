//! Whether PEER leases may stand in a table together, and so with one more.
ghost use Rattle.std.specs.Prelude.{◌≡◌, ◌≤◌, length, count_by, position, IfOk, OnOk, OnErr};
ghost use Rattle.std.specs.Bool.{OnTrue};
ghost use Rattle.std.specs.List.{AllByRecursion};
ghost use Rattle.pcp_base.specs.declared.leases.TheConstants.{MOST_PEERS};
ghost use Rattle.pcp_base.specs.declared.leases.Endpoint.{Endpoint};
ghost use Rattle.pcp_base.specs.Tables.{EachTwo, IsPeerLease, is_peer_of, names};
ghost use Rattle.peer_table.specs.PeerLists.{AreFellows, AreSoundPeers, with_peer};

use pcp_base::{MOST_LEASES, MOST_PEERS, PeerLease};
use std::alloc::{AllocError, Global};

/// Whether these leases may be the PEER leases of a sound table.
fn are_sound(leases: &[PeerLease]) -> bool
    ensures { OnTrue result (AreSoundPeers leases.now) }
{
    leases.len() <= MOST_LEASES && are_leases(leases) && are_all_fellows(leases) && are_few(leases)
}

/// Whether each may stand in a table.
fn are_leases(leases: &[PeerLease]) -> bool
    ensures { OnTrue result (AllByRecursion IsPeerLease leases.now) }
{
    match leases {
        [] => true,
        [first, rest @ ..] => is_lease(first) && are_leases(rest),
    }
}

fn is_lease(lease: &PeerLease) -> bool
    ensures { OnTrue result (IsPeerLease lease.now) }
{
    lease.endpoint.port >= 1 && lease.external >= 1 && lease.remote_port >= 1
}

/// Whether each two may stand in a table together.
fn are_all_fellows(leases: &[PeerLease]) -> bool
    ensures { OnTrue result (EachTwo AreFellows leases.now) }
{
    match leases {
        [] => true,
        [first, rest @ ..] => is_fellow_of_all(first, rest) && are_all_fellows(rest),
    }
}

fn is_fellow_of_all(lease: &PeerLease, others: &[PeerLease]) -> bool
    ensures { OnTrue result (AllByRecursion (λ x. AreFellows lease.now x) others.now) }
{
    others.iter().all(|other| are_fellows(lease, other))
}

fn are_fellows(first: &PeerLease, second: &PeerLease) -> bool
    ensures { OnTrue result (AreFellows first.now second.now) }
{
    let one = first.endpoint == second.endpoint;
    let shares = first.endpoint.protocol == second.endpoint.protocol
        && first.external == second.external;
    !first.is_of(&second.endpoint, &second.remote, second.remote_port) && shares == one
}

/// Whether there are no more leases than one endpoint may have.
fn are_few(leases: &[PeerLease]) -> bool
    ensures { OnTrue result ((e : Endpoint) → count_by (λ l. names l e) leases.now ≤ MOST_PEERS) }
{
    leases.len() <= MOST_PEERS
}

/// The place of the lease with the key of this one.
fn place_of(leases: &[PeerLease], new: &PeerLease) -> Option<usize>
    ensures { result ≡
        position (is_peer_of new.now.endpoint new.now.remote new.now.remote_port) leases.now }
{
    leases.iter().position(|lease| lease.is_of(&new.endpoint, &new.remote, new.remote_port))
}

/// Puts a lease in the place of the one with its key, or at the end.
fn put_into(leases: &mut Vec<PeerLease>, lease: PeerLease) -> Result<(), AllocError>
    ensures ok { OnOk result (leases.new.items ≡ with_peer lease leases.old.items) }
    ensures err { OnErr result (leases.new.items ≡ leases.old.items) }
{
    match place_of(leases, &lease) {
        Some(place) => leases[place] = lease,
        None => leases.push(lease)?,
    }
    Ok(())
}

/// Whether the leases are sound with one more.
pub(crate) fn are_sound_with(
    alloc: Global,
    leases: &[PeerLease],
    lease: &PeerLease,
) -> Result<bool, AllocError>
    ensures { IfOk result (λ sound. OnTrue sound (AreSoundPeers (with_peer lease.now leases.now))) }
{
    let mut after = leases.to_vec(alloc)?;
    put_into(&mut after, *lease)?;
    Ok(are_sound(&after))
}
