//! Leases that leave a table, and what it tells of them.

ghost use Rattle.std.specs.Prelude.{◌≡◌, ◌<◌};

use crate::making::{all_are_so, at, map_of, moment, peer_of, remote};
use crate::{maps, peers};
use mapping_table::MapTable;
use mapping_table::plain::PlainMapTable;
use pcp_base::Protocol::Udp;
use pcp_base::{MapLease, Memory, PeerLease};
use peer_table::PeerTable;
use peer_table::plain::PlainPeerTable;
use std::alloc::Global;
use std::marker::Brand;
use std::sync::ledger::{Blank, Ledger};
use step_count::Steps;

/// A lease of one port of the host, with this expiry.
fn map_lease(host: u8, external: u16, expiry: u64) -> MapLease {
    map_of(&at(Udp, host, 5000), 1, external, moment(0), expiry)
}

/// The same to a remote peer.
fn peer_lease(host: u8, external: u16, expiry: u64) -> PeerLease {
    peer_of(&at(Udp, host, 5000), external, (1, 443), moment(0), expiry)
}

/// Puts two leases. Whether they may be put.
fn put_maps<L: Ledger>(
    alloc: Global,
    table: &mut MapTable,
    plain: &mut PlainMapTable,
    steps: &mut Steps<L>,
) -> Result<bool, Memory>
    requires { table.old.found ≡ plain.old }
{
    if !maps::put_both(alloc, table, plain, &map_lease(1, 1021, 10), steps)? {
        return Ok(false);
    }
    maps::put_both(alloc, table, plain, &map_lease(2, 1022, 20), steps)
}

fn put_peers<L: Ledger>(
    alloc: Global,
    table: &mut PeerTable,
    plain: &mut PlainPeerTable,
    steps: &mut Steps<L>,
) -> Result<bool, Memory>
    requires { table.old.found ≡ plain.old }
{
    if !peers::put_both(alloc, table, plain, &peer_lease(1, 1021, 10), steps)? {
        return Ok(false);
    }
    peers::put_both(alloc, table, plain, &peer_lease(2, 1022, 20), steps)
}

/// Whether so many leases are live at a moment, and have these external ports, in this order.
fn are_maps(alloc: Global, table: &MapTable, m: u32, wanted: &[u16]) -> Result<bool, Memory> {
    let mut live = Vec::new(alloc);
    table.copy_live(alloc, moment(m), &mut live)?;
    let same = live
        .iter()
        .map(|lease| lease.external)
        .eq(wanted.iter().copied());
    Ok(same)
}

fn are_peers(alloc: Global, table: &PeerTable, m: u32, wanted: &[u16]) -> Result<bool, Memory> {
    let mut live = Vec::new(alloc);
    table.copy_live(alloc, moment(m), &mut live)?;
    let same = live
        .iter()
        .map(|lease| lease.external)
        .eq(wanted.iter().copied());
    Ok(same)
}

/// Whether the first lease isn't found any more, and counts before its end alone.
fn is_left<L: Ledger>(table: &MapTable, steps: &mut Steps<L>) -> bool {
    let found = table.find(&at(Udp, 1, 5000), steps).is_some();
    let counts = (table.len(), table.live(moment(9)), table.live(moment(10)));
    !found && counts == (1, 2, 1)
}

fn is_left_peer<L: Ledger>(table: &PeerTable, steps: &mut Steps<L>) -> bool {
    let found = table
        .find(&at(Udp, 1, 5000), &remote(1), 443, steps)
        .is_some();
    let counts = (table.len(), table.live(moment(9)), table.live(moment(10)));
    !found && counts == (1, 2, 1)
}

/// Whether it covers its endpoint before its end alone.
fn covers_once(table: &MapTable) -> bool {
    let endpoint = at(Udp, 1, 5000);
    let (early, late) = (
        table.past_covers(&endpoint, moment(9)),
        table.past_covers(&endpoint, moment(10)),
    );
    early && !late
}

/// Whether it owns its external port before its end alone.
fn owned_once(table: &MapTable) -> bool {
    let (early, late) = (
        table.past_owner(Udp, 1021, moment(9)).is_some(),
        table.past_owner(Udp, 1021, moment(10)).is_some(),
    );
    early && !late
}

fn opened_once(table: &PeerTable) -> bool {
    let remote = remote(1);
    let (early, late) = (
        table
            .past_opening(Udp, 1021, &remote, 443, moment(9))
            .is_some(),
        table
            .past_opening(Udp, 1021, &remote, 443, moment(10))
            .is_some(),
    );
    early && !late
}

/// Whether one of both leaves at 15, and none before or behind it.
fn retires_one<L: Ledger>(table: &mut MapTable, steps: &mut Steps<L>) -> Result<bool, Memory> {
    let early = table.retire(moment(9), steps)?;
    let once = table.retire(moment(15), steps)?;
    let twice = table.retire(moment(15), steps)?;
    Ok(!early && once && !twice)
}

fn retires_one_peer<L: Ledger>(
    table: &mut PeerTable,
    steps: &mut Steps<L>,
) -> Result<bool, Memory> {
    let early = table.retire(moment(9), steps)?;
    let once = table.retire(moment(15), steps)?;
    let twice = table.retire(moment(15), steps)?;
    Ok(!early && once && !twice)
}

/// The number of the first answer that is another than is wanted.
fn first_other_map<L: Ledger>(
    alloc: Global,
    table: &mut MapTable,
    steps: &mut Steps<L>,
) -> Result<Option<usize>, Memory> {
    table.tell_all();
    if !retires_one(table, steps)? {
        return Ok(Some(1));
    }
    if !is_left(table, steps) || !covers_once(table) || !owned_once(table) {
        return Ok(Some(2));
    }
    if !are_maps(alloc, table, 9, &[1021, 1022])? {
        return Ok(Some(3));
    }
    if !table.forget_one(steps) || table.forget_one(steps) {
        return Ok(Some(4));
    }
    if !are_maps(alloc, table, 9, &[1022])? {
        return Ok(Some(5));
    }
    Ok(None)
}

fn first_other_peer<L: Ledger>(
    alloc: Global,
    table: &mut PeerTable,
    steps: &mut Steps<L>,
) -> Result<Option<usize>, Memory> {
    table.tell_all();
    if !retires_one_peer(table, steps)? {
        return Ok(Some(1));
    }
    if !is_left_peer(table, steps) || !opened_once(table) {
        return Ok(Some(2));
    }
    if !are_peers(alloc, table, 9, &[1021, 1022])? {
        return Ok(Some(3));
    }
    if !table.forget_one(steps) || table.forget_one(steps) {
        return Ok(Some(4));
    }
    if !are_peers(alloc, table, 9, &[1022])? {
        return Ok(Some(5));
    }
    Ok(None)
}

/// Of two leases one leaves, and is forgotten.
fn first_other_of_maps<L: Ledger>(alloc: Global, blank: Blank) -> Result<Option<usize>, Memory>
    requires name { blank.name ≡ L.name }
    requires parts { blank.parts ≡ L.parts }
    requires some { 0 < L.parts }
{
    let mut steps = Steps::<L>::begin(blank);
    let mut plain = PlainMapTable::new(alloc)?;
    let mut table = MapTable::new(alloc)?;
    if !put_maps(alloc, &mut table, &mut plain, &mut steps)? {
        return Ok(Some(0));
    }
    first_other_map(alloc, &mut table, &mut steps)
}

fn first_other_of_peers<L: Ledger>(alloc: Global, blank: Blank) -> Result<Option<usize>, Memory>
    requires name { blank.name ≡ L.name }
    requires parts { blank.parts ≡ L.parts }
    requires some { 0 < L.parts }
{
    let mut steps = Steps::<L>::begin(blank);
    let mut plain = PlainPeerTable::new(alloc)?;
    let mut table = PeerTable::new(alloc)?;
    if !put_peers(alloc, &mut table, &mut plain, &mut steps)? {
        return Ok(Some(0));
    }
    first_other_peer(alloc, &mut table, &mut steps)
}

#[test]
fn a_map_lease_leaves_and_is_forgotten(rt: HostRuntime) {
    all_are_so(&rt, first_other_of_maps::<Brand>(rt.alloc(), Blank::new(1)));
}

#[test]
fn a_peer_lease_leaves_and_is_forgotten(rt: HostRuntime) {
    all_are_so(
        &rt,
        first_other_of_peers::<Brand>(rt.alloc(), Blank::new(1)),
    );
}
