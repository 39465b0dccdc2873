//! Two lanes on threads of their own, beside one that publishes to both.
ghost use Rattle.std.specs.Prelude.{◌≡◌, IfSome};

use crate::lanes::{FittingWriter, empty_lane, host, moment};
use lane_index::{Lane, LaneWriter, Told};
use pcp_base::{Address, Change, Filters, MapLease, Nonce, Protocol, Record};
use std::alloc::Global;
use std::sync::Wait;
use std::test::Fail;
use std::thread::{Threads, join};

const PORT: u16 = 1024;

// The owner of the port that the lane finds, 0 for none.
fn owner<R: Wait>(rt: &R, lane: &mut Lane) -> u16
    ensures { lane.new.index ≡ lane.old.index }
{
    let remote = Address::v4(198, 51, 100, 7);
    match lane.look(rt, Protocol::Udp, PORT, &remote, 53, moment(0)) {
        Some(endpoint) => endpoint.port,
        None => 0,
    }
}

// Looks up so often. Whether each owner that was found was that or a later one from then on.
fn look_often<R: Wait>(rt: &R, mut lane: Lane, times: u32) -> (Lane, bool)
    ensures { result.0.index ≡ lane.index }
{
    let mut last = 0;
    for _ in 0..times {
        let found = owner(rt, &mut lane);
        if found < last {
            return (lane, false);
        }
        last = found;
    }
    (lane, true)
}

// The port goes from one endpoint to the next one, which is live until the one after it.
fn granted(round: u16) -> Record {
    let first = host(round.saturating_add(1));
    let start = 200 * u32::from(round);
    Record {
        moment: moment(start),
        change: Change::Map(MapLease {
            address: first.address,
            protocol: first.protocol,
            internal: first.port,
            count: 1,
            external: PORT,
            nonce: Nonce([7; 12]),
            granted: moment(start),
            expiry: u64::from(start) + 200,
            filters: Filters::none(),
        }),
    }
}

fn deleted(round: u16) -> Record {
    Record {
        moment: moment(200 * u32::from(round) + 50),
        change: Change::DropMap(host(round.saturating_add(1))),
    }
}

// The port goes on to the next endpoint, in one step.
fn pass_on<R: Wait>(rt: &R, alloc: Global, writer: &mut FittingWriter, round: u16) -> Option<Told>
    ensures index { writer.new ≡ writer.old }
    ensures told { IfSome result (λ told. told.index ≡ writer.old) }
{
    if !writer.push(alloc, &deleted(round)) {
        return None;
    }
    writer.publish_one(rt, alloc, &granted(round.saturating_add(1)))
}

// A Start and the first grant.
fn begin<R: Wait>(rt: &R, alloc: Global, writer: &mut FittingWriter) -> Option<Told>
    ensures index { writer.new ≡ writer.old }
    ensures told { IfSome result (λ told. told.index ≡ writer.old) }
{
    let start = Record {
        moment: moment(0),
        change: Change::Start,
    };
    if !writer.push(alloc, &start) {
        return None;
    }
    writer.publish_one(rt, alloc, &granted(0))
}

// The port goes through so many endpoints, in both indexes by turns. What is told in the end.
fn publish_rounds<R: Wait>(
    rt: &R,
    alloc: Global,
    first: &mut FittingWriter,
    second: &mut FittingWriter,
    rounds: u16,
) -> Option<(Told, Told)>
    ensures { IfSome result (λ told. (told.0.index ≡ first.old) × (told.1.index ≡ second.old)) }
{
    let mut told = begin(rt, alloc, first)?;
    let mut also = begin(rt, alloc, second)?;
    for round in 0..rounds {
        told = pass_on(rt, alloc, first, round)?;
        also = pass_on(rt, alloc, second, round)?;
    }
    Some((told, also))
}

// The lane learns what it was told, and finds the last owner.
fn finds_last<R: Wait>(rt: &R, lane: &mut Lane, told: &Told, last: u16) -> bool
    requires { told.now.index ≡ lane.old.index }
{
    lane.learn(told);
    owner(rt, lane) == last.saturating_add(1)
}

// Each lane learns what it was told, and finds the last owner.
fn find_last<R: Wait>(
    rt: &R,
    told: Option<(Told, Told)>,
    mut one: Lane,
    mut other: Lane,
    last: u16,
) -> bool
    requires { IfSome told (λ t. (t.0.index ≡ one.index) × (t.1.index ≡ other.index)) }
{
    match told {
        Some((first, second)) => {
            finds_last(rt, &mut one, &first, last) && finds_last(rt, &mut other, &second, last)
        }
        None => false,
    }
}

// Two threads look up beside one that publishes. Whether no look went back, and each lane found the
// last owner once it was told of it.
fn look_beside<R: Threads + Wait + Sync>(
    rt: &R,
    alloc: Global,
    looks: u32,
    rounds: u16,
) -> Option<bool> {
    let (mut first, one) = empty_lane(rt, alloc)?;
    let Some((mut second, other)) = empty_lane(rt, alloc) else {
        first.end(rt);
        return None;
    };
    let writer = &mut first;
    let also = &mut second;
    let (told, ((one, rose), (other, also_rose))) = join(
        rt,
        move || -> Option<(Told, Told)>
            ensures { IfSome result (λ told. (told.0.index ≡ writer.entry.now)
                × (told.1.index ≡ also.entry.now)) }
        { publish_rounds(rt, alloc, writer, also, rounds) },
        move || -> ((Lane, bool), (Lane, bool))
            ensures { (result.0.0.index ≡ one.index) × (result.1.0.index ≡ other.index) }
        { look_in_two(rt, one, other, looks) },
    );
    let found = find_last(rt, told, one, other, rounds);
    first.end(rt);
    second.end(rt);
    Some(rose && also_rose && found)
}

fn look_in_two<R: Threads + Wait + Sync>(
    rt: &R,
    one: Lane,
    other: Lane,
    looks: u32,
) -> ((Lane, bool), (Lane, bool))
    ensures { (result.0.0.index ≡ one.index) × (result.1.0.index ≡ other.index) }
{
    join(
        rt,
        move || -> (Lane, bool)
            ensures { result.0.index ≡ one.index }
        { look_often(rt, one, looks) },
        move || -> (Lane, bool)
            ensures { result.0.index ≡ other.index }
        { look_often(rt, other, looks) },
    )
}

#[test]
fn lanes_go_on_beside_a_writer(rt: HostRuntime) -> Result<(), Fail> {
    assert!(rt; look_beside(&rt, rt.alloc(), 100_000, 2_500).ok_or("memory")?);
    Ok(())
}

fn sends<T: Send>() {}

// Each may go to another thread.
fn crosses_threads() {
    sends::<Lane>();
    sends::<LaneWriter>();
    sends::<Told>();
}
