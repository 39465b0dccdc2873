//! Ends of ports, in the order of protocol number and port.
ghost use Rattle.std.specs.Prelude.{◌≡◌, ◌++◌, ◌&&◌, filter, flat_map, map, position, not, IfOk, OnOk, OnErr};
ghost use Rattle.std.specs.List.{AllByRecursion, list_any};
ghost use Rattle.pcp_base.specs.Tables.{IsMapLease};
ghost use Rattle.pcp_base.specs.Owners.{map_owners, peer_owner};
ghost use Rattle.pcp_base.specs.Ends.{end_at, is_before, with_end, with_ends, is_owned_by, is_recent, is_end_of};
ghost use Rattle.pcp_base.specs.Records.{IsWellFormedRecord};
ghost use Rattle.pcp_base.specs.Apply.{ends_changed};

use crate::owners::{is_end_owned, owner_of_peer, owners_of_map};
use pcp_base::{Change, End, MapLease, Moment, Owner, PeerLease, Protocol, REST_SECONDS, Record};
use std::alloc::{AllocError, Global};

/// The owner's port ended then.
fn ended_at(moment: u64, owner: &Owner) -> End
    ensures { result ≡ end_at moment owner.now }
{
    End {
        endpoint: owner.endpoint,
        external: owner.external,
        end: moment,
    }
}

/// Adds ends of these ports, at one moment.
pub(crate) fn add_ended(
    left: &mut Vec<End>,
    owners: &[Owner],
    moment: u64,
) -> Result<(), AllocError>
    ensures { OnOk result (left.new.items ≡ left.old.items ++ map (end_at moment) owners.now) }
{
    for owner in owners {
        left.push(ended_at(moment, owner))?;
    }
    Ok(())
}

/// The ports of MAP leases, each ended at its lease's expiry.
pub(crate) fn ends_of_maps(alloc: Global, maps: &[MapLease]) -> Result<Vec<End>, AllocError>
    requires { AllByRecursion IsMapLease maps.now }
    ensures { IfOk result
        (λ v. v.items ≡ flat_map (λ l. map (end_at l.expiry) (map_owners l)) maps.now) }
{
    let mut left = Vec::new(alloc);
    for lease in maps {
        let owners = owners_of_map(alloc, lease)?;
        add_ended(&mut left, &owners, lease.expiry)?;
    }
    Ok(left)
}

/// Adds the ports of PEER leases, each ended at its lease's expiry.
pub(crate) fn add_ends_of_peers(left: &mut Vec<End>, peers: &[PeerLease]) -> Result<(), AllocError>
    ensures { OnOk result
        (left.new.items ≡ left.old.items ++ map (λ l. end_at l.expiry (peer_owner l)) peers.now) }
{
    for lease in peers {
        left.push(ended_at(lease.expiry, &owner_of_peer(lease)))?;
    }
    Ok(())
}

/// Whether the first stands before the second.
fn stands_before(first: &End, second: &End) -> bool
    ensures { result ≡ is_before first.now second.now }
{
    let (a, b) = (
        first.endpoint.protocol.number(),
        second.endpoint.protocol.number(),
    );
    a < b || (a == b && first.external < second.external)
}

/// The place of the first end that doesn't stand before this one.
fn place_of(ends: &[End], rest: &End) -> Option<usize>
    ensures { result ≡ position (λ x. not (is_before x rest.now)) ends.now }
{
    ends.iter().position(|held| !stands_before(held, rest))
}

/// Adds an end in its place; where its port has an end, the later of the two counts.
pub(crate) fn add_end(ends: &mut Vec<End>, rest: End) -> Result<(), AllocError>
    ensures { OnOk result (ends.new.items ≡ with_end rest ends.old.items) }
{
    let Some(place) = place_of(ends, &rest) else {
        ends.push(rest)?;
        return Ok(());
    };
    let held = ends[place];
    if stands_before(&rest, &held) {
        ends.insert(place, rest)?;
    } else if held.end < rest.end {
        ends[place] = rest;
    }
    Ok(())
}

/// Adds what leases left, but for the ports that are owned.
pub(crate) fn add_left(
    ends: &mut Vec<End>,
    owners: &[Owner],
    mut left: Vec<End>,
) -> Result<(), AllocError>
    ensures { OnOk result (ends.new.items ≡
        with_ends (filter (λ e. not (is_owned_by owners.now e)) left.items) ends.old.items) }
{
    while let Some(rest) = left.pop() {
        if !is_end_owned(owners, &rest) {
            add_end(ends, rest)?;
        }
    }
    Ok(())
}

/// Takes out the ends of owned ports.
pub(crate) fn drop_owned(ends: &mut Vec<End>, owners: &[Owner])
    ensures { ends.new.items ≡ filter (λ e. not (is_owned_by owners.now e)) ends.old.items }
{
    ends.retain(|rest| !is_end_owned(owners, rest));
}

/// Whether a port that ended then rests at `m`.
fn may_rest(m: Moment, rest: &End) -> bool
    ensures { result ≡ is_recent m rest.now }
{
    m.get().saturating_sub(rest.end) < REST_SECONDS
}

/// Takes out the ends that aren't recent at `m`.
pub(crate) fn drop_old(ends: &mut Vec<End>, m: Moment)
    ensures { ends.new.items ≡ filter (is_recent m) ends.old.items }
{
    ends.retain(|rest| may_rest(m, rest));
}

/// Takes out the ends that aren't recent at `m`, and those of owned ports.
pub(crate) fn drop_over(ends: &mut Vec<End>, m: Moment, owners: &[Owner])
    ensures { ends.new.items ≡
        filter (λ e. is_recent m e && not (is_owned_by owners.now e)) ends.old.items }
{
    ends.retain(|rest| may_rest(m, rest) && !is_end_owned(owners, rest));
}

/// Whether one of them is an end of this port.
pub(crate) fn has_end(ends: &[End], protocol: Protocol, port: u16) -> bool
    ensures { result ≡ list_any (is_end_of protocol port) ends.now }
{
    ends.iter().any(|rest| {
        rest.endpoint.protocol.number() == protocol.number() && rest.external == port
    })
}

/// Makes the change of a record. After an error the ends aren't to be used again.
pub(crate) fn change_ends(
    alloc: Global,
    ends: &mut Vec<End>,
    kept: &Record,
) -> Result<(), AllocError>
    requires { IsWellFormedRecord kept.now }
    ensures { OnOk result (ends.new.items ≡ ends_changed kept.now.change ends.old.items) }
{
    match &kept.change {
        Change::Start | Change::Lose => ends.clear(),
        Change::Map(lease) => {
            let owners = owners_of_map(alloc, lease)?;
            drop_owned(ends, &owners);
        }
        Change::Peer(lease) => drop_owned(ends, &[owner_of_peer(lease)]),
        Change::Rest(endpoint, external, end) => {
            let rest = End {
                endpoint: *endpoint,
                external: *external,
                end: *end,
            };
            add_end(ends, rest)?;
        }
        Change::DropMap(_) | Change::DropPeer(..) | Change::Mark | Change::Renumber(_) => {}
    }
    Ok(())
}
