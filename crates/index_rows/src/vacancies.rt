//! The calls of vacant ports beside those of the plain pool, by the way of ports in a row from
//! their lease to their rest and back.
ghost use Rattle.std.specs.Prelude.{◌≡◌, ◌+◌, ◌<◌, ◌≤◌, OnOk};
ghost use Rattle.external_pool.specs.Calls.{ArePorts, IsAsk, MayHold, MayRelease};
ghost use Rattle.external_pool.specs.Holdings.{AllFree, AllRest, IsWhole, with_use};
ghost use Rattle.external_pool.specs.declared.uses.Use.TheVariants.{Free, Held, Resting};

use crate::pools::at;
use external_pool::plain::PlainPool;
use external_pool::{PickAsk, Picked, Vacancies};
use pcp_base::Protocol::Udp;
use pcp_base::{Address, Endpoint, Memory, Protocol};
use std::alloc::Global;
use std::marker::Brand;
use std::sync::ledger::{Blank, Ledger};
use step_count::Steps;

/// The longest run of vacant ports, by the vacancies and by the plain pool, how many ports more a
/// host may own, and whether it is below its quota.
type Told = (Option<Picked>, Option<Picked>, Result<u32, u32>, bool);

/// An ask for 24 ports, from any on that has this remainder by 2.
fn ask_any(parity: Option<u8>) -> PickAsk
    ensures { IsAsk result }
{
    PickAsk {
        internal: 0,
        suggested: 0,
        asked: 24,
        room: 24,
        parity,
        must: false,
        here: true,
    }
}

/// What both bodies tell of at most 24 ports, the plain one to a host that holds none.
fn told_from<L: Ledger>(
    pool: &Vacancies,
    plain: &PlainPool,
    who: &Address,
    parity: Option<u8>,
    blank: Blank,
) -> Told
    requires name { blank.name ≡ L.name }
    requires parts { blank.parts ≡ L.parts }
    requires some { 0 < L.parts }
{
    let mut steps = Steps::<L>::begin(blank);
    let found = pool.longest(Udp, 24, parity, &mut steps);
    let host = Address::v4(10, 0, 0, 9);
    let expected = plain.pick(&host, Udp, &ask_any(parity), &mut steps);
    let left = pool.room_for(who, &mut steps);
    let is_below = pool.is_below_quota(who, &mut steps);
    (found, expected.ok(), left, is_below)
}

/// The same of a caller that counts no steps.
fn told(pool: &Vacancies, plain: &PlainPool, who: &Address, parity: Option<u8>) -> Told {
    told_from::<Brand>(pool, plain, who, parity, Blank::new(1))
}

/// Holds ports in a row, in both bodies.
fn hold(
    alloc: Global,
    pool: &mut Vacancies,
    plain: &mut PlainPool,
    who: &Address,
    protocol: Protocol,
    start: u16,
    n: u32,
) -> Result<(), Memory>
    requires same { pool.old ≡ plain.old }
    requires may { MayHold pool.old protocol start n }
    ensures pool { OnOk result (pool.new ≡ with_use protocol start n (Held who.now) pool.old) }
    ensures same { OnOk result (pool.new ≡ plain.new) }
{
    pool.hold(alloc, who, protocol, start, n)?;
    plain.hold(who, protocol, start, n)
}

/// Releases ports in a row, in both bodies.
fn release(
    pool: &mut Vacancies,
    plain: &mut PlainPool,
    who: &Address,
    protocol: Protocol,
    start: u16,
    n: u32,
)
    requires same { pool.old ≡ plain.old }
    requires may { MayRelease pool.old who.now protocol start n }
    ensures pool { pool.new ≡ with_use protocol start n Free pool.old }
    ensures same { pool.new ≡ plain.new }
{
    pool.release(who, protocol, start, n);
    plain.release(who, protocol, start, n);
}

/// Lets ports in a row that are held rest, in both bodies.
fn retire(pool: &mut Vacancies, plain: &mut PlainPool, external: u16, last: &Endpoint, n: u32)
    requires same { pool.old ≡ plain.old }
    requires held { MayRelease pool.old last.now.address last.now.protocol external n }
    requires internal { last.now.port + n ≤ 65536 }
    ensures pool { pool.new ≡ with_use last.now.protocol external n
        (Resting last.now.address last.now.port) pool.old }
    ensures same { pool.new ≡ plain.new }
{
    pool.retire(external, last, n);
    plain.retire(external, last, n);
}

/// Lets free ports in a row rest, in both bodies.
fn rest(
    alloc: Global,
    pool: &mut Vacancies,
    plain: &mut PlainPool,
    external: u16,
    last: &Endpoint,
    n: u32,
) -> Result<(), Memory>
    requires same { pool.old ≡ plain.old }
    requires free { AllFree pool.old last.now.protocol external n }
    requires within { external + n ≤ 65536 }
    requires internal { last.now.port + n ≤ 65536 }
    ensures pool { pool.new ≡ with_use last.now.protocol external n
        (Resting last.now.address last.now.port) pool.old }
    ensures same { pool.new ≡ plain.new }
{
    pool.rest_run(alloc, external, last, n)?;
    plain.rest_run(external, last, n)
}

/// Ends the rest of ports in a row, in both bodies.
fn wake(pool: &mut Vacancies, plain: &mut PlainPool, protocol: Protocol, external: u16, n: u32)
    requires same { pool.old ≡ plain.old }
    requires rests { AllRest pool.old protocol external n }
    requires within { external + n ≤ 65536 }
    ensures pool { pool.new ≡ with_use protocol external n Free pool.old }
    ensures same { pool.new ≡ plain.new }
{
    pool.wake_run(protocol, external, n);
    plain.wake_run(protocol, external, n);
}

/// Free ports in a row are held, go to rest, awake, and rest and awake without a hold. What is told
/// after each call.
fn rest_and_wake(
    alloc: Global,
    pool: &mut Vacancies,
    plain: &mut PlainPool,
    start: u16,
    last: &Endpoint,
    n: u32,
    parity: Option<u8>,
) -> Result<[Told; 5], Memory>
    requires same { pool.old ≡ plain.old }
    requires whole { IsWhole pool.old }
    requires free { AllFree pool.old last.now.protocol start n }
    requires ports { ArePorts start n }
    requires internal { last.now.port + n ≤ 65536 }
{
    let who = last.address;
    hold(alloc, pool, plain, &who, last.protocol, start, n)?;
    let held = told(pool, plain, &who, parity);
    retire(pool, plain, start, last, n);
    let retired = told(pool, plain, &who, parity);
    wake(pool, plain, last.protocol, start, n);
    let awake = told(pool, plain, &who, parity);
    rest(alloc, pool, plain, start, last, n)?;
    let rests = told(pool, plain, &who, parity);
    wake(pool, plain, last.protocol, start, n);
    let again = told(pool, plain, &who, parity);
    Ok([held, retired, awake, rests, again])
}

/// The same of new pools from 1024 to 1063, in which an address may own 24 ports.
fn rest_and_wake_in_new(
    alloc: Global,
    start: u16,
    last: &Endpoint,
    n: u32,
    parity: Option<u8>,
) -> Result<[Told; 5], Memory>
    requires ports { ArePorts start n }
    requires internal { last.now.port + n ≤ 65536 }
{
    let mut pool = Vacancies::new(alloc, 1024, 1063, 24)?;
    let mut plain = PlainPool::new(alloc, 1024, 1063, 24)?;
    rest_and_wake(alloc, &mut pool, &mut plain, start, last, n, parity)
}

/// Free ports in a row are held and released. What is told after each call.
fn hold_and_release(
    alloc: Global,
    pool: &mut Vacancies,
    plain: &mut PlainPool,
    start: u16,
    last: &Endpoint,
    n: u32,
) -> Result<[Told; 2], Memory>
    requires same { pool.old ≡ plain.old }
    requires whole { IsWhole pool.old }
    requires free { AllFree pool.old last.now.protocol start n }
    requires ports { ArePorts start n }
{
    let who = last.address;
    hold(alloc, pool, plain, &who, last.protocol, start, n)?;
    let held = told(pool, plain, &who, None);
    release(pool, plain, &who, last.protocol, start, n);
    Ok([held, told(pool, plain, &who, None)])
}

/// The same of new pools from 1024 to 1063, in which an address may own 24 ports.
fn hold_and_release_in_new(
    alloc: Global,
    start: u16,
    last: &Endpoint,
    n: u32,
) -> Result<[Told; 2], Memory>
    requires { ArePorts start n }
{
    let mut pool = Vacancies::new(alloc, 1024, 1063, 24)?;
    let mut plain = PlainPool::new(alloc, 1024, 1063, 24)?;
    hold_and_release(alloc, &mut pool, &mut plain, start, last, n)
}

/// What is told where both bodies find this run, and so many ports are left.
fn both(start: u16, count: u32, left: Result<u32, u32>) -> Told {
    let run = Some(Picked { start, count });
    (run, run, left, left.is_ok())
}

#[test]
fn ports_in_a_row_rest_and_awake(rt: HostRuntime) -> Result<(), Memory> {
    let told = rest_and_wake_in_new(rt.alloc(), 1044, &at(5, 5000), 4, None)?;
    let wanted = [
        both(1024, 20, Ok(20)),
        both(1024, 20, Ok(24)),
        both(1024, 24, Ok(24)),
        both(1024, 20, Ok(24)),
        both(1024, 24, Ok(24)),
    ];
    assert!(rt; told == wanted, "{told:?}");
    Ok(())
}

#[test]
fn a_whole_quota_rests_and_awakes(rt: HostRuntime) -> Result<(), Memory> {
    let told = rest_and_wake_in_new(rt.alloc(), 1030, &at(5, 5000), 24, Some(1))?;
    let wanted = [
        both(1055, 9, Err(24)),
        both(1055, 9, Ok(24)),
        both(1025, 24, Ok(24)),
        both(1055, 9, Ok(24)),
        both(1025, 24, Ok(24)),
    ];
    assert!(rt; told == wanted, "{told:?}");
    Ok(())
}

#[test]
fn ports_past_the_range_count_and_are_released(rt: HostRuntime) -> Result<(), Memory> {
    let told = hold_and_release_in_new(rt.alloc(), 1034, &at(5, 5000), 40)?;
    let wanted = [both(1024, 10, Err(40)), both(1024, 24, Ok(24))];
    assert!(rt; told == wanted, "{told:?}");
    Ok(())
}
