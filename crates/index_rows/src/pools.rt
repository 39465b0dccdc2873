//! The calls of both bodies of a pool, by the way of a port from its lease to its rest and back. What
//! is picked where others are held and rest is compared in the tests of the ports that follow a state.
ghost use Rattle.std.specs.Prelude.{◌≡◌, ◌<◌, ◌≤◌};
ghost use Rattle.external_pool.specs.Calls.{ArePorts, IsAsk, MayHold};
ghost use Rattle.external_pool.specs.Holdings.{IsWhole};

use external_pool::plain::PlainPool;
use external_pool::{PickAsk, Pool};
use pcp_base::Protocol::Udp;
use pcp_base::{Address, Endpoint, Memory};
use std::alloc::Global;
use std::marker::Brand;
use std::process::Abort;
use std::sync::ledger::{Blank, Ledger};
use step_count::Steps;

/// A UDP port of the host 10.0.0.N.
pub(crate) fn at(host: u8, port: u16) -> Endpoint
    ensures { result.port ≡ port }
{
    Endpoint {
        address: Address::v4(10, 0, 0, host),
        protocol: Udp,
        port,
    }
}

/// An ask for this one port, and no other.
fn ask_for(port: u16, internal: u16) -> PickAsk
    ensures { IsAsk result }
{
    PickAsk {
        internal,
        suggested: port,
        asked: 1,
        room: 1,
        parity: None,
        must: true,
        here: true,
    }
}

/// Whether each body picks the port for an endpoint that wants no other.
fn picks_from<L: Ledger>(
    pool: &Pool,
    plain: &PlainPool,
    port: u16,
    whom: &Endpoint,
    blank: Blank,
) -> (bool, bool)
    requires name { blank.name ≡ L.name }
    requires parts { blank.parts ≡ L.parts }
    requires some { 0 < L.parts }
{
    let mut steps = Steps::<L>::begin(blank);
    let ask = ask_for(port, whom.port);
    let found = pool.pick(&whom.address, whom.protocol, &ask, &mut steps);
    let expected = plain.pick(&whom.address, whom.protocol, &ask, &mut steps);
    (found.is_ok(), expected.is_ok())
}

/// The same of a caller that counts no steps.
fn picks(pool: &Pool, plain: &PlainPool, port: u16, whom: &Endpoint) -> (bool, bool) {
    picks_from::<Brand>(pool, plain, port, whom, Blank::new(1))
}

/// Whether the UDP port is picked for an internal port that wants no other.
fn is_picked_from<L: Ledger>(
    pool: &Pool,
    port: u16,
    who: &Address,
    internal: u16,
    blank: Blank,
) -> bool
    requires name { blank.name ≡ L.name }
    requires parts { blank.parts ≡ L.parts }
    requires some { 0 < L.parts }
{
    let mut steps = Steps::<L>::begin(blank);
    pool.pick(who, Udp, &ask_for(port, internal), &mut steps)
        .is_ok()
}

/// The same of a caller that counts no steps.
fn is_picked(pool: &Pool, port: u16, who: &Address, internal: u16) -> bool {
    is_picked_from::<Brand>(pool, port, who, internal, Blank::new(1))
}

/// To whom a port is open: to an endpoint, to the port before it, and to another host.
type Openness = (bool, bool, bool);

/// To whom a port is open, where it is to be so to no more than an endpoint.
fn openness(pool: &Pool, port: u16, whom: &Endpoint) -> Openness {
    (
        is_picked(pool, port, &whom.address, whom.port),
        is_picked(pool, port, &whom.address, whom.port.wrapping_sub(1)),
        is_picked(pool, port, &Address::v4(10, 0, 0, 9), whom.port),
    )
}

/// A port that may be held is held, released, at rest and awake, in both bodies.
fn hold_and_rest(
    rt: &impl Abort,
    alloc: Global,
    pool: &mut Pool,
    plain: &mut PlainPool,
    port: u16,
    last: &Endpoint,
) -> Result<(), Memory>
    requires same { pool.old ≡ plain.old }
    requires whole { IsWhole pool.old }
    requires may { MayHold pool.old last.now.protocol port 1 }
{
    pool.hold(alloc, &last.address, last.protocol, port, 1)?;
    plain.hold(&last.address, last.protocol, port, 1)?;
    assert!(rt; picks(pool, plain, port, last) == (false, false));
    pool.release(&last.address, last.protocol, port, 1);
    plain.release(&last.address, last.protocol, port, 1);
    pool.rest(alloc, port, last)?;
    plain.rest(port, last)?;
    assert!(rt; picks(pool, plain, port, last) == (true, true));
    assert!(rt; openness(pool, port, last) == (true, false, false));
    assert!(rt; pool.wake(last.protocol, port) && plain.wake(last.protocol, port));
    assert!(rt; !pool.wake(last.protocol, port) && !plain.wake(last.protocol, port));
    Ok(())
}

/// The same of pools from `low` to `high`.
fn hold_and_rest_in_new(
    rt: &impl Abort,
    alloc: Global,
    low: u16,
    high: u16,
    last: &Endpoint,
) -> Result<(), Memory>
    requires some { 1 ≤ low }
    requires ordered { low ≤ high }
    requires ports { ArePorts low 1 }
{
    let mut pool = Pool::new(alloc, low, high, 24)?;
    let mut plain = PlainPool::new(alloc, low, high, 24)?;
    hold_and_rest(rt, alloc, &mut pool, &mut plain, low, last)
}

#[test]
fn both_pools_hold_and_rest(rt: HostRuntime) -> Result<(), Memory> {
    hold_and_rest_in_new(&rt, rt.alloc(), 1024, 1063, &at(5, 5000))
}
