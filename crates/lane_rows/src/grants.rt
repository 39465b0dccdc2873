//! What a lane finds of records that one thread publishes.
ghost use Rattle.std.specs.Prelude.{◌≡◌};

use crate::lanes::{FittingWriter, empty_lane, host, moment};
use lane_index::Lane;
use pcp_base::{
    Address, Change, Filter, Filters, MapLease, Nonce, PeerLease, Prefix, Protocol, Record,
};
use std::alloc::Global;
use std::sync::Wait;
use std::test::Fail;

// The external port, the last octet of the remote address, the remote port and the moment of a look,
// and the port that is found, 0 for none.
struct Ask(u16, u8, u16, u32, u16);

// The remote address with this last octet.
fn remote(last: u8) -> Address {
    Address::v4(198, 51, 100, last)
}

fn answer<R: Wait>(rt: &R, lane: &mut Lane, protocol: Protocol, ask: &Ask) -> u16
    ensures { lane.new.index ≡ lane.old.index }
{
    match lane.look(rt, protocol, ask.0, &remote(ask.1), ask.2, moment(ask.3)) {
        Some(endpoint) => endpoint.port,
        None => 0,
    }
}

// The number of the first ask of UDP that is answered otherwise, from 1 on; 0 where none is.
fn first_other<R: Wait>(rt: &R, lane: &mut Lane, asks: &[Ask]) -> usize
    ensures { lane.new.index ≡ lane.old.index }
{
    for i in 0..asks.len() {
        if answer(rt, lane, Protocol::Udp, &asks[i]) != asks[i].4 {
            return i + 1;
        }
    }
    0
}

// Publishes records, and lets the lane learn each.
fn publish_all<R: Wait>(
    rt: &R,
    alloc: Global,
    writer: &mut FittingWriter,
    lane: &mut Lane,
    records: &[Record],
) -> bool
    requires { lane.old.index ≡ writer.old }
    ensures { (lane.new.index ≡ lane.old.index) × (writer.new ≡ writer.old) }
{
    for kept in records {
        match writer.publish_one(rt, alloc, kept) {
            Some(told) => lane.learn(&told),
            None => return false,
        }
    }
    true
}

// A MAP lease of UDP from an internal port on, and its first external port.
fn map(internal: u16, count: u16, external: u16, granted: u32, expiry: u32) -> MapLease {
    let first = host(internal);
    MapLease {
        address: first.address,
        protocol: first.protocol,
        internal,
        count,
        external,
        nonce: Nonce([7; 12]),
        granted: moment(granted),
        expiry: u64::from(expiry),
        filters: Filters::none(),
    }
}

// The same, for one remote address alone.
fn filtered(lease: MapLease, last: u8) -> MapLease {
    let mut lease = lease;
    lease.filters.push(Filter {
        prefix: 128,
        port: 0,
        remote: remote(last),
    });
    lease
}

// A PEER lease of UDP, to one port of one remote address.
fn peer(
    internal: u16,
    external: u16,
    last: u8,
    remote_port: u16,
    granted: u32,
    expiry: u32,
) -> PeerLease {
    PeerLease {
        endpoint: host(internal),
        external,
        remote: remote(last),
        remote_port,
        nonce: Nonce([7; 12]),
        granted: moment(granted),
        expiry: u64::from(expiry),
    }
}

fn at(seconds: u32, change: Change) -> Record {
    Record {
        moment: moment(seconds),
        change,
    }
}

// Of a grant at 10 with the external ports 1024 and 1025.
static GRANTED: [Ask; 5] = [
    Ask(1024, 7, 53, 10, 5000),
    Ask(1025, 8, 54, 99, 5001),
    Ask(1026, 7, 53, 10, 0),
    Ask(1023, 7, 53, 10, 0),
    Ask(1025, 7, 53, 100, 0),
];

static NOTHING: [Ask; 2] = [Ask(1024, 7, 53, 10, 0), Ask(1025, 8, 54, 99, 0)];

// A set is found at each of its ports once it was published, and not after its expiry or a loss.
fn grant_and_lose<R: Wait>(
    rt: &R,
    alloc: Global,
    writer: &mut FittingWriter,
    lane: &mut Lane,
) -> bool
    requires { lane.old.index ≡ writer.old }
    ensures { lane.new.index ≡ lane.old.index }
{
    let pushed = writer.push(alloc, &at(5, Change::Start))
        && writer.push(alloc, &at(10, Change::Map(map(5000, 2, 1024, 10, 100))));
    if !pushed || first_other(rt, lane, &NOTHING) != 0 {
        return false;
    }
    lane.learn(&writer.publish(rt));
    if first_other(rt, lane, &GRANTED) != 0 || answer(rt, lane, Protocol::Tcp, &GRANTED[0]) != 0 {
        return false;
    }
    publish_all(rt, alloc, writer, lane, &[at(20, Change::Lose)])
        && first_other(rt, lane, &NOTHING) == 0
}

#[test]
fn a_grant_is_found_once_published(rt: HostRuntime) -> Result<(), Fail> {
    let (mut writer, mut lane) = empty_lane(&rt, rt.alloc()).ok_or("memory")?;
    let went = grant_and_lose(&rt, rt.alloc(), &mut writer, &mut lane);
    writer.end(&rt);
    assert!(rt; went);
    Ok(())
}

// Leases with a filter, to a remote peer, and two whose keys fall into one bucket, of which one was
// deleted.
static LET_IN: [Ask; 6] = [
    Ask(1024, 7, 53, 10, 5000),
    Ask(1024, 8, 53, 10, 0),
    Ask(2000, 9, 53, 10, 6000),
    Ask(2000, 9, 54, 10, 0),
    Ask(3000, 7, 53, 10, 0),
    Ask(3001, 7, 53, 10, 33749),
];

fn several_kinds() -> [Record; 6] {
    [
        at(5, Change::Start),
        at(10, Change::Map(filtered(map(5000, 1, 1024, 10, 100), 7))),
        at(10, Change::Peer(peer(6000, 2000, 9, 53, 10, 100))),
        at(10, Change::Map(map(1000, 1, 3000, 10, 100))),
        at(10, Change::Map(map(33749, 1, 3001, 10, 100))),
        at(10, Change::DropMap(host(1000))),
    ]
}

#[test]
fn who_may_send_is_found(rt: HostRuntime) -> Result<(), Fail> {
    let (mut writer, mut lane) = empty_lane(&rt, rt.alloc()).ok_or("memory")?;
    let went = publish_all(&rt, rt.alloc(), &mut writer, &mut lane, &several_kinds());
    let other = first_other(&rt, &mut lane, &LET_IN);
    writer.end(&rt);
    assert!(rt; went && other == 0);
    Ok(())
}

// A lease that is renewed each second, so often that cells are freed.
fn renew_often<R: Wait>(
    rt: &R,
    alloc: Global,
    writer: &mut FittingWriter,
    lane: &mut Lane,
    times: u32,
) -> bool
    requires { lane.old.index ≡ writer.old }
    ensures { lane.new.index ≡ lane.old.index }
{
    if !writer.push(alloc, &at(0, Change::Start)) {
        return false;
    }
    for i in 0..times {
        if !writer.push(alloc, &at(i, Change::Map(map(5000, 2, 1024, 0, i + 1)))) {
            return false;
        }
    }
    lane.learn(&writer.publish(rt));
    true
}

static RENEWED: [Ask; 3] = [
    Ask(1025, 7, 53, 0, 5001),
    Ask(1024, 7, 53, 39_999, 5000),
    Ask(1024, 7, 53, 40_000, 0),
];

#[test]
fn a_lease_is_renewed_past_all_cells(rt: HostRuntime) -> Result<(), Fail> {
    let (mut writer, mut lane) = empty_lane(&rt, rt.alloc()).ok_or("memory")?;
    let went = renew_often(&rt, rt.alloc(), &mut writer, &mut lane, 40_000);
    let other = first_other(&rt, &mut lane, &RENEWED);
    writer.end(&rt);
    assert!(rt; went && other == 0);
    Ok(())
}
