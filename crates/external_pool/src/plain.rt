//! The plain body of a pool: a list for each protocol that is searched from the lowest port on, and
//! nothing beside it.

ghost use Rattle.std.specs.Prelude.{◌≡◌, ◌+◌, ◌≤◌, ◌<◌, ◌↔◌, ℕ, length, count_by, IsTrue, IfOk};
ghost use Rattle.port_runs.specs.Ports.{IsLeast};
ghost use Rattle.external_pool.specs.PortUses.{uses_over, is_held_by, is_vacant, is_open};
ghost use Rattle.external_pool.specs.Choosing.{IsVacantRun, IsLongest, IsPick};
ghost use Rattle.external_pool.specs.PortUses.{internal_of};
ghost use Rattle.external_pool.specs.Holdings.{use_of, fresh_pool, with_use, AllFree, AllRest};
ghost use Rattle.external_pool.specs.Asking.{IsPickAnswer};
ghost use Rattle.external_pool.specs.Calls.{IsAsk, MayHold, MayRelease, HoldsPorts, RestsPort, RestsPorts, WakesPort};
ghost use Rattle.external_pool.specs.Plain.{plainly};
ghost use Rattle.external_pool.specs.declared.uses.Use.TheVariants.{Free, Resting};

use crate::asks::{PickAsk, PickRefused, Picked, judge};
use crate::uses::{PORTS, Use, cleared, is_free_to, is_free_use, paint, resting};
use crate::vacant::meets;
use pcp_base::{Address, Endpoint, Memory, Protocol};
use std::alloc::Global;
use std::marker::Model;
use std::sync::ledger::Ledger;
use step_count::Steps;

/// The external ports of one address, with the same clauses as [`Pool`](crate::Pool) and
/// [`Vacancies`](crate::Vacancies).
#[derive(Drop)]
pub struct PlainPool {
    low: u16,
    high: u16,
    quota: u32,
    tcp: Vec<Use>,
    udp: Vec<Use>,
}

impl Model for PlainPool {
    ghost use Rattle.external_pool.specs.Holdings.{Holdings};
    ghost use Rattle.external_pool.specs.Plain.{plainly, ArePlain};

    ghost Value = { Holdings };

    ghost view = { λ a. plainly a.low a.high a.quota a.tcp.items a.udp.items };

    ghost invariant = { λ a. ArePlain a.tcp.items a.udp.items };
}

/// Whether the address holds it.
fn is_of(value: Use, who: &Address) -> bool
    ensures { result ≡ is_held_by who.now value }
{
    match value {
        Use::Free => false,
        Use::Held(holder) => holder == *who,
        Use::Resting(_, _) => false,
    }
}

/// How many of these ports the address holds.
fn count(each: &[Use], who: &Address) -> usize
    ensures { result ≡ count_by (is_held_by who.now) each.now }
{
    each.iter().filter(|value| is_of(**value, who)).count()
}

/// Whether the `n` ports from `start` on are vacant.
fn is_vacant_run(low: u16, high: u16, each: &[Use], start: u16, n: u32) -> bool
    requires { length each.now ≡ 65536 }
    ensures { IsTrue result ↔ ((port : ℕ) → start ≤ port → port < start + n →
        IsTrue (is_vacant (uses_over low high each.now) port)) }
{
    for i in 0..n {
        let port = u64::from(start) + u64::from(i);
        if port < u64::from(low) || port > u64::from(high) || !is_free_use(each[port as usize]) {
            return false;
        }
    }
    true
}

/// Whether the `n` ports from `start` on are open to the endpoints that they would be given to.
fn is_open_run(
    low: u16,
    high: u16,
    each: &[Use],
    who: &Address,
    internal: u16,
    start: u16,
    n: u32,
) -> bool
    requires { length each.now ≡ 65536 }
    ensures { IsTrue result ↔ ((i : ℕ) → i < n →
        IsTrue (is_open (uses_over low high each.now) who.now (internal + i) (start + i))) }
{
    for i in 0..n {
        let port = u64::from(start) + u64::from(i);
        if port < u64::from(low)
            || port > u64::from(high)
            || !is_free_to(each[port as usize], who, u64::from(internal) + u64::from(i))
        {
            return false;
        }
    }
    true
}

/// The least start of `n` vacant ports that meets the parity asked.
fn first_vacant(low: u16, high: u16, each: &[Use], n: u32, parity: Option<u8>) -> Option<u16>
    requires some { 1 ≤ n }
    requires all { length each.now ≡ 65536 }
    ensures { IsLeast (IsVacantRun (uses_over low high each.now) n parity) result }
{
    for port in usize::from(low)..usize::from(high) + 1 {
        let start = port as u16;
        if meets(start, parity) && is_vacant_run(low, high, each, start, n) {
            return Some(start);
        }
    }
    None
}

/// The longest run of vacant ports, of at most `room`, and of those the one with the least start.
fn longest(low: u16, high: u16, each: &[Use], room: u32, parity: Option<u8>) -> Option<Picked>
    requires { length each.now ≡ 65536 }
    ensures { IsLongest (uses_over low high each.now) parity room result }
{
    for less in 0..room {
        let count = room - less;
        if let Some(start) = first_vacant(low, high, each, count, parity) {
            return Some(Picked { start, count });
        }
    }
    None
}

/// The ports to pick.
fn choose(
    low: u16,
    high: u16,
    each: &[Use],
    who: &Address,
    ask: &PickAsk,
    room: u32,
) -> Option<Picked>
    requires { length each.now ≡ 65536 }
    ensures { IsPick (uses_over low high each.now) who.now
        ask.now.internal ask.now.suggested ask.now.parity room result }
{
    if ask.suggested != 0 {
        if meets(ask.suggested, ask.parity) {
            if is_open_run(low, high, each, who, ask.internal, ask.suggested, room) {
                return Some(Picked {
                    start: ask.suggested,
                    count: room,
                });
            }
        }
    }
    longest(low, high, each, room, ask.parity)
}

/// Gives ports of one protocol the uses of which this is the first.
fn mark(tcp: &mut [Use], udp: &mut [Use], protocol: Protocol, start: u16, n: u32, value: Use)
    requires end { start + n ≤ 65536 }
    requires fits { internal_of value + n ≤ 65536 }
    requires tcp { length tcp.old ≡ 65536 }
    requires udp { length udp.old ≡ 65536 }
    ensures { (low high quota : ℕ) → plainly low high quota tcp.new udp.new
        ≡ with_use protocol start n value (plainly low high quota tcp.old udp.old) }
{
    match protocol {
        Protocol::Tcp => paint(tcp, start as usize, n as usize, value),
        Protocol::Udp => paint(udp, start as usize, n as usize, value),
    }
}

impl PlainPool {
    /// The range from `low` to `high` of both protocols. The one error is want of memory.
    pub fn new(alloc: Global, low: u16, high: u16, quota: u32) -> Result<PlainPool, Memory>
        requires some { 1 ≤ low }
        requires ordered { low ≤ high }
        ensures { IfOk result (λ pool. pool ≡ fresh_pool low high quota) }
    {
        Ok(PlainPool {
            low,
            high,
            quota,
            tcp: cleared(alloc, PORTS)?,
            udp: cleared(alloc, PORTS)?,
        })
    }

    /// The ports that an address would be given. It looks at no tree and no ordered map.
    pub fn pick<L: Ledger>(
        &self,
        who: &Address,
        protocol: Protocol,
        ask: &PickAsk,
        _steps: &mut Steps<L>,
    ) -> Result<Picked, PickRefused>
        requires { IsAsk ask.now }
        ensures pick { IsPickAnswer self.now who.now protocol ask.now result }
        ensures steps { _steps.new ≡ _steps.old }
    {
        let owned = count(&self.tcp, who) as u32 + count(&self.udp, who) as u32;
        if owned >= self.quota {
            return Err(PickRefused::Quota(owned));
        }
        let room = ask.room.min(self.quota - owned);
        let choice = match protocol {
            Protocol::Tcp => choose(self.low, self.high, &self.tcp, who, ask, room),
            Protocol::Udp => choose(self.low, self.high, &self.udp, who, ask, room),
        };
        judge(ask, choice)
    }

    /// Marks `n` ports that aren't held as held, and ends their rest.
    pub fn hold(
        &mut self,
        who: &Address,
        protocol: Protocol,
        start: u16,
        n: u32,
    ) -> Result<(), Memory>
        requires { MayHold self.old protocol start n }
        ensures { HoldsPorts self.old who.now protocol start n result self.new }
    {
        mark(
            &mut self.tcp,
            &mut self.udp,
            protocol,
            start,
            n,
            Use::Held(*who),
        );
        Ok(())
    }

    /// Ends what an address holds of `n` ports.
    pub fn release(&mut self, _who: &Address, protocol: Protocol, start: u16, n: u32)
        requires { MayRelease self.old _who.now protocol start n }
        ensures { self.new ≡ with_use protocol start n Free self.old }
    {
        mark(&mut self.tcp, &mut self.udp, protocol, start, n, Use::Free);
    }

    /// Ends the hold of `n` ports, and lets each rest for the endpoint that owned it.
    pub fn retire(&mut self, external: u16, last: &Endpoint, n: u32)
        requires held { MayRelease self.old last.now.address last.now.protocol external n }
        requires internal { last.now.port + n ≤ 65536 }
        ensures { self.new ≡ with_use last.now.protocol external n
            (Resting last.now.address last.now.port) self.old }
    {
        mark(
            &mut self.tcp,
            &mut self.udp,
            last.protocol,
            external,
            n,
            Use::Resting(last.address, last.port),
        );
    }

    /// Marks `n` ports as resting for the endpoints that owned them last.
    pub fn rest_run(&mut self, external: u16, last: &Endpoint, n: u32) -> Result<(), Memory>
        requires free { AllFree self.old last.now.protocol external n }
        requires within { external + n ≤ 65536 }
        requires internal { last.now.port + n ≤ 65536 }
        ensures { RestsPorts self.old external last.now n result self.new }
    {
        mark(
            &mut self.tcp,
            &mut self.udp,
            last.protocol,
            external,
            n,
            Use::Resting(last.address, last.port),
        );
        Ok(())
    }

    /// Ends the rest of `n` ports.
    pub fn wake_run(&mut self, protocol: Protocol, external: u16, n: u32)
        requires rests { AllRest self.old protocol external n }
        requires within { external + n ≤ 65536 }
        ensures { self.new ≡ with_use protocol external n Free self.old }
    {
        mark(
            &mut self.tcp,
            &mut self.udp,
            protocol,
            external,
            n,
            Use::Free,
        );
    }

    /// Marks a port as resting for the endpoint that owned it last.
    pub fn rest(&mut self, external: u16, last: &Endpoint) -> Result<(), Memory>
        requires { use_of self.old last.now.protocol external ≡ Free }
        ensures { RestsPort self.old external last.now result self.new }
    {
        mark(
            &mut self.tcp,
            &mut self.udp,
            last.protocol,
            external,
            1,
            resting(last.address, last.port),
        );
        Ok(())
    }

    /// What a port is used for.
    pub fn use_of(&self, protocol: Protocol, port: u16) -> Use
        ensures { result ≡ use_of self.now protocol port }
    {
        match protocol {
            Protocol::Tcp => self.tcp[port as usize],
            Protocol::Udp => self.udp[port as usize],
        }
    }

    /// Ends the rest of a port; false where it doesn't rest.
    pub fn wake(&mut self, protocol: Protocol, external: u16) -> bool
        ensures { WakesPort self.old protocol external result self.new }
    {
        let Use::Resting(_, _) = self.use_of(protocol, external) else {
            return false;
        };
        mark(
            &mut self.tcp,
            &mut self.udp,
            protocol,
            external,
            1,
            Use::Free,
        );
        true
    }
}
