//! Whether a table has room for a lease, and whether the ports of a lease are free of other hosts' rests.
ghost use Rattle.std.specs.Prelude.{◌≡◌, ◌↔◌, ◌&&◌, ◌<◌, ◌+◌, length, count_by, IsTrue};
ghost use Rattle.std.specs.List.{AllByRecursion, list_all};
ghost use Rattle.pcp_base.specs.Tables.{AreApart, names};
ghost use Rattle.pcp_base.specs.Rooms.{Agree};
ghost use Rattle.plain_replay.specs.Agreeing.{agrees, all_agree, both_cover, no_first_covered, leaves, leave_all};

use crate::owners::is_of_port;
use pcp_base::{End, Endpoint, MapLease, Owner, PeerLease};

/// Whether one endpoint has one port, and one port one endpoint.
fn do_agree(first: &Owner, second: &Owner) -> bool
    ensures { result ≡ agrees first.now second.now }
{
    if first.endpoint == second.endpoint {
        first.external == second.external
    } else {
        !is_of_port(second.protocol, second.external, first)
    }
}

fn agrees_with_all(owner: &Owner, others: &[Owner]) -> bool
    ensures { result ≡ list_all (agrees owner.now) others.now }
{
    others.iter().all(|other| do_agree(owner, other))
}

fn do_all_agree(owners: &[Owner], others: &[Owner]) -> bool
    ensures { result ≡ all_agree owners.now others.now }
{
    owners.iter().all(|owner| agrees_with_all(owner, others))
}

/// Whether a port of both lists has one owner, and an endpoint of both one port.
pub(crate) fn may_join(owners: &[Owner], others: &[Owner]) -> bool
    ensures { IsTrue result ↔ Agree owners.now others.now }
{
    do_all_agree(owners, others)
}

fn do_both_cover(first: &MapLease, second: &MapLease, endpoint: &Endpoint) -> bool
    ensures { result ≡ both_cover first.now second.now endpoint.now }
{
    first.covers(endpoint) && second.covers(endpoint)
}

/// Whether no endpoint is covered by both. Where one is, so is one's first.
fn are_apart(first: &MapLease, second: &MapLease) -> bool
    ensures { result ≡ no_first_covered first.now second.now }
{
    !do_both_cover(first, second, &first.first_endpoint())
        && !do_both_cover(first, second, &second.first_endpoint())
}

fn are_all_apart(maps: &[MapLease], lease: &MapLease) -> bool
    ensures { result ≡ list_all (λ x. no_first_covered x lease.now) maps.now }
{
    maps.iter().all(|held| are_apart(held, lease))
}

/// Whether no endpoint is covered by the lease and one of the others.
pub(crate) fn is_apart(maps: &[MapLease], lease: &MapLease) -> bool
    ensures { IsTrue result ↔ AllByRecursion (λ x. AreApart x lease.now) maps.now }
{
    are_all_apart(maps, lease)
}

/// How many of the leases name the endpoint.
pub(crate) fn count_of_peers(peers: &[PeerLease], endpoint: &Endpoint) -> usize
    ensures { result ≡ count_by (λ x. names x endpoint.now) peers.now }
{
    peers
        .iter()
        .filter(|lease| lease.endpoint == *endpoint)
        .count()
}

/// Whether the port didn't end for another endpoint.
fn is_left(owner: &Owner, rest: &End) -> bool
    ensures { result ≡ leaves owner.now rest.now }
{
    !is_of_port(rest.endpoint.protocol, rest.external, owner) || rest.endpoint == owner.endpoint
}

fn is_left_by_all(owner: &Owner, ends: &[End]) -> bool
    ensures { result ≡ list_all (leaves owner.now) ends.now }
{
    ends.iter().all(|rest| is_left(owner, rest))
}

/// Whether none of the ports ended for another endpoint.
pub(crate) fn are_left(ends: &[End], owners: &[Owner]) -> bool
    ensures { result ≡ leave_all ends.now owners.now }
{
    owners.iter().all(|owner| is_left_by_all(owner, ends))
}
