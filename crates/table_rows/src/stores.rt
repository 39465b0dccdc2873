//! A store that some records made, and what it tells at moments that come later.
ghost use Rattle.std.specs.Prelude.{◌≡◌, ◌<◌, OnOk, IfOk, IfSome};
ghost use Rattle.pcp_base.specs.Reached.{IsReached, IsReachedFirst};
ghost use Rattle.lease_store.specs.LeaseTerms.{AreTerms};

use crate::making::{at, moment, remote};
use crate::records::{Act, Ports, record};
use PickRefused::{CannotProvide, Quota};
use Protocol::{Tcp, Udp};
use external_pool::{PickAsk, PickRefused, Picked};
use lease_store::{LeaseStore, Terms};
use pcp_base::{Address, Endpoint, External, MapLease, Memory, PeerLease, Protocol, Record};
use plain_store::PlainStore;
use std::alloc::Global;
use std::marker::Brand;
use std::sync::ledger::{Blank, Ledger};
use step_count::Steps;

static RECORDS: [(u32, Act); 10] = [
    (1000, Act::Start),
    (1000, Act::Renumber(1)),
    (
        1010,
        Act::Filtered(Ports(Udp, 5, 5000, 2, 1024, 1010, 1130)),
    ),
    // A second lease of an endpoint has its port.
    (1015, Act::Peer(5, 5000, 1024, 9, 1015, 1135)),
    (1020, Act::Peer(6, 6000, 1026, 7, 1020, 1200)),
    // A renewal changes the expiry.
    (
        1030,
        Act::Filtered(Ports(Udp, 5, 5000, 2, 1024, 1010, 1140)),
    ),
    (1040, Act::Map(Ports(Udp, 7, 7000, 1, 1028, 1040, 1500))),
    (1045, Act::Map(Ports(Tcp, 10, 7000, 1, 1027, 1045, 1500))),
    (1050, Act::DropMap(7, 7000)),
    // This host owns its quota, outside the range.
    (1055, Act::Map(Ports(Udp, 9, 9000, 4, 2000, 1055, 1300))),
];

/// The moment, host, internal port, suggestion, room, parity, whether nothing else will do, and the
/// answer. The range is 1024 to 1031, the quota 4.
struct Ask(
    u32,
    u8,
    u16,
    u16,
    u32,
    Option<u8>,
    bool,
    Result<(u16, u32), PickRefused>,
);

static ASKS: [Ask; 19] = [
    // 1024 to 1026 are owned, and 1028 rests for the port 7000 of host 7.
    Ask(1060, 8, 8000, 0, 1, None, false, Ok((1027, 1))),
    Ask(1060, 8, 8000, 0, 2, None, false, Ok((1029, 2))),
    Ask(1060, 8, 8000, 0, 4, None, false, Ok((1029, 3))),
    Ask(1060, 8, 8000, 0, 4, Some(0), false, Ok((1030, 2))),
    Ask(1060, 8, 8000, 1028, 1, None, false, Ok((1027, 1))),
    Ask(1060, 7, 7000, 1028, 1, None, false, Ok((1028, 1))),
    Ask(1060, 7, 7001, 1028, 1, None, false, Ok((1027, 1))),
    Ask(1060, 8, 8000, 1030, 1, Some(1), false, Ok((1027, 1))),
    Ask(1060, 8, 8000, 1024, 1, None, true, Err(CannotProvide)),
    // Host 5 owns two ports by two leases, and host 9 four.
    Ask(1060, 5, 5100, 0, 4, None, false, Ok((1029, 2))),
    Ask(1060, 9, 9100, 0, 1, None, false, Err(Quota(4))),
    // The leases of host 5 ended at 1140: its ports rest for their endpoints.
    Ask(1140, 8, 8000, 0, 8, None, false, Ok((1029, 3))),
    Ask(1140, 5, 5000, 1024, 2, None, false, Ok((1024, 2))),
    Ask(1140, 5, 5001, 1024, 1, None, false, Ok((1027, 1))),
    // At 1260 the rest is over; 1026 ended at 1200.
    Ask(1259, 8, 8000, 1025, 1, None, false, Ok((1027, 1))),
    Ask(1260, 8, 8000, 1025, 1, None, false, Ok((1025, 1))),
    Ask(1260, 8, 8000, 0, 8, None, false, Ok((1027, 4))),
    Ask(1299, 9, 9000, 2000, 1, None, false, Err(Quota(4))),
    // Outside the range nothing is given.
    Ask(1300, 9, 9000, 2000, 1, None, false, Ok((1024, 1))),
];

/// The moment, protocol, external port, the last number of the remote address, and the host and
/// internal port.
struct Sight(u32, Protocol, u16, u8, Option<(u8, u16)>);

static SIGHTS: [Sight; 8] = [
    Sight(1060, Udp, 1024, 7, Some((5, 5000))),
    Sight(1060, Udp, 1025, 7, Some((5, 5001))),
    // A filter, and a remote that only the PEER lease has.
    Sight(1060, Udp, 1025, 9, None),
    Sight(1060, Udp, 1024, 9, Some((5, 5000))),
    Sight(1060, Tcp, 1024, 7, None),
    Sight(1060, Udp, 1026, 8, None),
    Sight(1140, Udp, 1024, 7, None),
    // A moment before the last one.
    Sight(0, Udp, 2003, 1, Some((9, 9003))),
];

/// Protocol, external port, host and internal port, in order.
static OWNERS: [(Protocol, u16, u8, u16); 8] = [
    (Tcp, 1027, 10, 7000),
    (Udp, 1024, 5, 5000),
    (Udp, 1025, 5, 5001),
    (Udp, 1026, 6, 6000),
    (Udp, 2000, 9, 9000),
    (Udp, 2001, 9, 9001),
    (Udp, 2002, 9, 9002),
    (Udp, 2003, 9, 9003),
];

fn terms() -> Terms
    ensures { AreTerms result }
{
    Terms {
        external: External {
            address: Address::v4(192, 0, 2, 1),
            low: 1024,
            high: 1031,
        },
        quota: 4,
        lifetime_min: 120,
        lifetime_max: 86_400,
    }
}

/// Applies a record, where the other store, which stands for the same, admits it.
fn applies<L: Ledger>(
    alloc: Global,
    store: &mut PlainStore,
    other: &mut PlainStore,
    row: &(u32, Act),
    steps: &mut Steps<L>,
) -> Result<bool, Memory>
    requires reached { IsReached store.old.state }
    requires same { other.old.state ≡ store.old.state }
    requires moment { store.old.reached ≡ store.old.state.last }
    ensures reached { OnOk result (IsReached store.new.state) }
    ensures same { OnOk result (other.new.state ≡ store.new.state) }
    ensures moment { OnOk result (store.new.reached ≡ store.new.state.last) }
{
    let kept = record(row.0, row.1);
    if kept.moment.get() < store.last().get() {
        return Ok(false);
    }
    if !other.admit(alloc, &kept)? {
        return Ok(false);
    }
    store.apply(alloc, &kept, steps)?;
    Ok(true)
}

/// Applies records, as long as they fit. Whether all did.
fn apply_all<L: Ledger>(
    alloc: Global,
    store: &mut PlainStore,
    other: &mut PlainStore,
    rows: &[(u32, Act)],
    blank: Blank,
) -> Result<bool, Memory>
    requires name { blank.name ≡ L.name }
    requires parts { blank.parts ≡ L.parts }
    requires some { 0 < L.parts }
    requires reached { IsReached store.old.state }
    requires same { other.old.state ≡ store.old.state }
    requires moment { store.old.reached ≡ store.old.state.last }
    ensures reached { OnOk result (IsReached store.new.state) }
    ensures moment { OnOk result (store.new.reached ≡ store.new.state.last) }
{
    let mut steps = Steps::<L>::begin(blank);
    for row in rows {
        if !applies(alloc, store, other, row, &mut steps)? {
            return Ok(false);
        }
    }
    Ok(true)
}

/// The store that these records made; none where one doesn't fit.
fn made(alloc: Global, rows: &[(u32, Act)]) -> Result<Option<PlainStore>, Memory>
    ensures reached { IfOk result (λ made. IfSome made (λ s. IsReached s.state)) }
    ensures moment { IfOk result (λ made. IfSome made (λ s. s.reached ≡ s.state.last)) }
{
    let mut store = PlainStore::new(alloc, terms())?;
    let mut other = PlainStore::new(alloc, terms())?;
    if !apply_all::<Brand>(alloc, &mut store, &mut other, rows, Blank::new(1))? {
        return Ok(None);
    }
    Ok(Some(store))
}

fn picked_of(row: Result<(u16, u32), PickRefused>) -> Result<Picked, PickRefused> {
    let (start, count) = row?;
    Ok(Picked { start, count })
}

/// Whether the ask is answered so.
fn is_answered<L: Ledger>(store: &mut PlainStore, ask: &Ask, steps: &mut Steps<L>) -> bool
    requires { IsReached store.old.state }
    ensures state { store.new.state ≡ store.old.state }
    ensures reached { store.new.reached ≡ store.old.reached }
{
    if ask.4 == 0 {
        return false;
    }
    let first = at(Udp, ask.1, ask.2);
    let picked = store.pick(
        &first,
        &PickAsk {
            internal: first.port,
            suggested: ask.3,
            asked: ask.4,
            room: ask.4,
            parity: ask.5,
            must: ask.6,
            here: true,
        },
        steps,
    );
    picked == picked_of(ask.7)
}

/// The first ask that is answered otherwise.
fn first_other<L: Ledger>(store: &mut PlainStore, asks: &[Ask], blank: Blank) -> Option<usize>
    requires name { blank.name ≡ L.name }
    requires parts { blank.parts ≡ L.parts }
    requires some { 0 < L.parts }
    requires reached { IsReached store.old.state }
    requires moment { store.old.reached ≡ store.old.state.last }
{
    let mut steps = Steps::<L>::begin(blank);
    let mut now = store.last();
    for (i, ask) in asks.iter().enumerate() {
        let m = moment(ask.0);
        if m.get() < now.get() {
            return Some(i);
        }
        store.reach(m, &mut steps);
        now = m;
        if !is_answered(store, ask, &mut steps) {
            return Some(i);
        }
    }
    None
}

fn owner_of(row: Option<(u8, u16)>) -> Option<Endpoint> {
    let (host, port) = row?;
    Some(at(Udp, host, port))
}

/// The first remote peer that sees something else.
fn first_unseen(store: &PlainStore, sights: &[Sight]) -> Option<usize>
    requires { IsReached store.now.state }
{
    for (i, sight) in sights.iter().enumerate() {
        let m = moment(sight.0);
        let seen = store.look(sight.1, sight.2, &remote(sight.3), 443, m);
        if seen != owner_of(sight.4) {
            return Some(i);
        }
    }
    None
}

fn map_told(lease: Option<MapLease>) -> Option<u16> {
    Some(lease?.external)
}

fn peer_told(lease: Option<PeerLease>) -> Option<u16> {
    Some(lease?.external)
}

/// Whether the leases are found that cover and name these endpoints.
fn finds_leases<L: Ledger>(store: &PlainStore, steps: &mut Steps<L>) -> bool
    requires { IsReached store.now.state }
{
    let covered = map_told(store.covering(&at(Udp, 5, 5001), steps));
    let uncovered = map_told(store.covering(&at(Udp, 5, 5002), steps));
    let other = at(Udp, 6, 6000);
    let named = peer_told(store.peering(&other, &remote(7), 443, steps));
    let unnamed = peer_told(store.peering(&other, &remote(8), 443, steps));
    (covered, uncovered, named, unnamed) == (Some(1024), None, Some(1026), None)
}

/// Whether the PEER leases are told and counted that name these endpoints.
fn tells_names<L: Ledger>(store: &PlainStore, steps: &mut Steps<L>) -> bool
    requires { IsReached store.now.state }
{
    let (first, second) = (at(Udp, 5, 5000), at(Udp, 5, 5001));
    let named = store.named_port(&first, steps);
    let named = (named, store.named_port(&second, steps));
    let count = store.peer_count(&first, steps);
    let counts = (count, store.peer_count(&second, steps));
    named == (Some(1024), None) && counts == (1, 0)
}

/// Whether the ports inside and the leases are told and counted.
fn tells_leases<L: Ledger>(store: &PlainStore, steps: &mut Steps<L>) -> bool
    requires { IsReached store.now.state }
{
    let first = at(Udp, 5, 5000);
    let next = store.room_inside(&at(Udp, 5, 4000), 4096, steps);
    let second = store.room_inside(&first, 8, steps);
    let inside = (next, second, store.room_inside(&at(Udp, 5, 5001), 8, steps));
    let (live, over) = (moment(1139), moment(1140));
    let covered = (store.covered(&first, live), store.covered(&first, over));
    let counts = (store.leases(store.last()), store.leases(over));
    inside == (1000, 1, 8) && covered == (true, false) && counts == (5, 3) && store.has_room(steps)
}

/// Whether the next port inside and the number of leases are told.
fn tells_next(store: &PlainStore) -> bool
    requires { IsReached store.now.state }
{
    let next = store.next_inside(&at(Udp, 5, 4000));
    let none = store.next_inside(&at(Udp, 5, 5001));
    (next, none) == (Some(5000), None) && store.lease_count() == 5
}

/// Whether the lists are those of the records.
fn tells_lists(alloc: Global, store: &PlainStore) -> Result<bool, Memory>
    requires { IsReached store.now.state }
{
    let over = moment(1140);
    let maps = store.maps(alloc, over)?;
    let peers = store.peers(alloc, over)?;
    let ends = store.ends(alloc)?;
    Ok(
        maps.iter().map(|lease| lease.external).eq([1027, 2000])
            && peers.iter().map(|lease| lease.external).eq([1026])
            && ends.iter().map(|rest| rest.external).eq([1028]),
    )
}

/// Whether the end and the leases are kept by a record each, at the last moment.
fn tells_records(alloc: Global, store: &PlainStore) -> Result<bool, Memory>
    requires { IsReached store.now.state }
{
    let mut records: Vec<Record> = Vec::new(alloc);
    store.add_records(&mut records)?;
    Ok(records.len() == 6 && records.iter().all(|record| record.moment.get() == 1055))
}

/// Whether the owned ports stand in their order.
fn tells_owners(alloc: Global, store: &PlainStore) -> Result<bool, Memory>
    requires { IsReached store.now.state }
{
    let owners = store.owners(alloc, moment(1060))?;
    Ok(
        owners.len() == OWNERS.len()
            && owners.iter().zip(&OWNERS).all(|(owner, want)| {
                owner.protocol == want.0
                    && owner.external == want.1
                    && owner.endpoint == at(want.0, want.2, want.3)
            }),
    )
}

/// Whether what the last records of their kinds told is told.
fn tells_the_rest(store: &PlainStore) -> bool
    requires { IsReached store.now.state }
{
    let moments = (store.base().get(), store.last().get());
    moments == (1000, 1055)
        && store.address() == Some(Address::v4(192, 0, 2, 1))
        && store.terms() == terms()
}

/// Whether the store that the records made tells its state.
fn is_told(alloc: Global) -> Result<bool, Memory> {
    let Some(store) = made(alloc, &RECORDS)? else {
        return Ok(false);
    };
    tells_state(alloc, &store)
}

/// Whether the leases are found, told and counted, for a caller that counts no steps.
fn finds_from<L: Ledger>(store: &PlainStore, blank: Blank) -> bool
    requires name { blank.name ≡ L.name }
    requires parts { blank.parts ≡ L.parts }
    requires some { 0 < L.parts }
    requires reached { IsReached store.now.state }
{
    let mut steps = Steps::<L>::begin(blank);
    finds_leases(store, &mut steps)
        && tells_names(store, &mut steps)
        && tells_leases(store, &mut steps)
}

fn tells_state(alloc: Global, store: &PlainStore) -> Result<bool, Memory>
    requires { IsReached store.now.state }
{
    let finds = finds_from::<Brand>(store, Blank::new(1));
    let lists = tells_lists(alloc, store)? && tells_records(alloc, store)?;
    let told = tells_next(store) && tells_the_rest(store);
    Ok(finds && lists && told && tells_owners(alloc, store)?)
}

#[test]
fn tells_the_state(rt: HostRuntime) {
    assert!(rt; is_told(rt.alloc()) == Ok(true));
}

/// Whether the record is admitted by the rules of the first format.
fn admits_first(alloc: Global, store: &mut PlainStore, act: Act) -> Result<bool, Memory>
    requires { IsReachedFirst store.old.state }
    ensures { OnOk result (IsReachedFirst store.new.state) }
{
    let kept = record(5, act);
    store.admit_first(alloc, &kept)
}

/// Whether the store forgets its state, and admits a Start by the first format then, and no second
/// record, which names the external address.
fn forgets(alloc: Global, store: &mut PlainStore) -> Result<bool, Memory> {
    store.clear();
    let none = store.leases(moment(0)) == 0 && store.last().get() == 0;
    let begins = admits_first(alloc, store, Act::Start)?;
    let renumbers = admits_first(alloc, store, Act::Renumber(1))?;
    Ok(none && begins && !renumbers && store.base().get() == 5 && store.address() == None)
}

fn is_forgotten(alloc: Global) -> Result<bool, Memory> {
    let Some(mut store) = made(alloc, &RECORDS)? else {
        return Ok(false);
    };
    forgets(alloc, &mut store)
}

#[test]
fn forgets_and_begins_in_the_first_format(rt: HostRuntime) {
    assert!(rt; is_forgotten(rt.alloc()) == Ok(true));
}

/// The first remote peer that sees something else, and the first ask that is answered otherwise.
fn first_others(alloc: Global) -> Result<(Option<usize>, Option<usize>), Memory> {
    let Some(mut store) = made(alloc, &RECORDS)? else {
        return Ok((Some(0), Some(0)));
    };
    Ok((
        first_unseen(&store, &SIGHTS),
        first_other::<Brand>(&mut store, &ASKS, Blank::new(1)),
    ))
}

#[test]
fn answers_by_the_state(rt: HostRuntime) {
    let others = first_others(rt.alloc());
    assert!(rt; others == Ok((None, None)), "{others:?}");
}
