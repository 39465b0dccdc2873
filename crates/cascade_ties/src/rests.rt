//! Until when local ports rest.
ghost use Rattle.std.specs.Prelude.{◌≡◌, ◌<◌, ℕ, true, Some, not, if◌then◌else◌, IfOk, IfSome, IfNone, OnErr};
ghost use Rattle.std.specs.Bool.{OnFalse, OnTrue};
ghost use Rattle.std.specs.FinMap.{contains_key, get, insert, remove};
ghost use Rattle.expiry_wheel.specs.Due.{IsNextDue};
ghost use Rattle.expiry_wheel.specs.declared.TheConstants.{NEVER};
ghost use Rattle.external_pool.specs.Calls.{MayRelease};
ghost use Rattle.external_pool.specs.Holdings.{IsWhole};
ghost use Rattle.cascade_ties.specs.Kept.{left_use, protocol_at, port_of_spot, reserved};
ghost use Rattle.cascade_ties.specs.Ties.{spot};

use expiry_wheel::Wheel;
use external_pool::Pool;
use pcp_base::{Address, Endpoint, Memory, Protocol};
use std::alloc::Global;
use std::marker::Brand;
use std::sync::ledger::{Blank, Ledger};
use step_count::Steps;

/// Where the rest of a port stands.
pub(crate) fn spot(protocol: Protocol, port: u16) -> u32
    ensures { result ≡ spot protocol port }
{
    match protocol {
        Protocol::Tcp => 2 * u32::from(port),
        Protocol::Udp => 2 * u32::from(port) + 1,
    }
}

/// The protocol of the port whose rest stands there.
pub(crate) fn protocol_at(at: u32) -> Protocol
    ensures { result ≡ protocol_at at }
{
    if at % 2 == 0 {
        Protocol::Tcp
    } else {
        Protocol::Udp
    }
}

/// The port whose rest stands there.
pub(crate) fn port_of_spot(at: u32) -> u16
    requires { at < 131072 }
    ensures { result ≡ port_of_spot at }
{
    (at / 2) as u16
}

/// Makes room for a rest until a time, and tells whether there was none. The one error is want of
/// memory, which changes nothing.
pub(crate) fn reserve(
    alloc: Global,
    rests: &mut Wheel,
    at: u32,
    until_ms: u64,
) -> Result<bool, Memory>
    ensures fresh { IfOk result (λ fresh. fresh ≡ not (contains_key rests.old at)) }
    ensures ok { IfOk result (λ _. rests.new ≡ reserved rests.old at until_ms) }
    ensures err { OnErr result (rests.new ≡ rests.old) }
{
    if rests.expiry(at).is_some() {
        return Ok(false);
    }
    rests.put(alloc, at, until_ms)?;
    Ok(true)
}

/// Writes the rest for which room was made, where that is to be, and else gives the room back.
pub(crate) fn conclude(rests: &mut Wheel, at: u32, until_ms: u64, fresh: bool, made: bool)
    requires there { contains_key rests.old at ≡ true }
    requires sometime { until_ms < NEVER }
    ensures made { OnTrue made (rests.new ≡ insert rests.old at until_ms) }
    ensures back { OnFalse made
        (rests.new ≡ (if fresh then remove rests.old at else rests.old)) }
{
    if made {
        rests.reschedule(at, until_ms);
    } else if fresh {
        rests.remove(at);
    }
}

/// Ends the hold of a tie's local port, which then rests, where it is to.
pub(crate) fn leave(alloc: Global, pool: &mut Pool, rests: &Wheel, client: &Endpoint, local: u16)
    requires may { MayRelease pool.old client.now.address client.now.protocol local 1 }
    requires whole { IsWhole pool.old }
    ensures { pool.new ≡ left_use client.now.protocol local
        (get rests.now (spot client.now.protocol local)) pool.old }
{
    pool.release(&client.address, client.protocol, local, 1);
    if rests.expiry(spot(client.protocol, local)).is_none() {
        return;
    }
    let nobody = Endpoint {
        address: Address([0; 16]),
        protocol: client.protocol,
        port: 0,
    };
    let _rested = pool.rest(alloc, local, &nobody);
}

/// Takes out a rest that is over, for a caller that counts no steps.
fn take_over<L: Ledger>(rests: &mut Wheel, now_ms: u64, blank: Blank) -> Option<u32>
    requires name { blank.name ≡ L.name }
    requires parts { blank.parts ≡ L.parts }
    requires part { 0 < L.parts }
    ensures next { IfSome result (IsNextDue rests.old now_ms) }
    ensures taken { IfSome result (λ at. rests.new ≡ remove rests.old at) }
    ensures none { IfNone result (
        (at until : ℕ) → get rests.old at ≡ Some until → now_ms < until) }
    ensures unchanged { IfNone result (rests.new ≡ rests.old) }
{
    let mut steps = Steps::<L>::begin(blank);
    rests.due(now_ms, &mut steps)
}

/// Takes out a rest that is over.
pub(crate) fn next_over(rests: &mut Wheel, now_ms: u64) -> Option<u32>
    ensures next { IfSome result (IsNextDue rests.old now_ms) }
    ensures taken { IfSome result (λ at. rests.new ≡ remove rests.old at) }
    ensures none { IfNone result (
        (at until : ℕ) → get rests.old at ≡ Some until → now_ms < until) }
    ensures unchanged { IfNone result (rests.new ≡ rests.old) }
{
    take_over::<Brand>(rests, now_ms, Blank::new(1))
}
