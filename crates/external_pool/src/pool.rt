//! The pool of both protocols.

ghost use Rattle.std.specs.Prelude.{◌≡◌, ◌+◌, ◌≤◌, ℕ, IfOk};
ghost use Rattle.external_pool.specs.PortUses.{internal_of};
ghost use Rattle.external_pool.specs.Holdings.{uses_of, use_of, fresh_pool, emptied, with_use, pool_of};
ghost use Rattle.external_pool.specs.Asking.{IsPickAnswer};
ghost use Rattle.external_pool.specs.Calls.{IsAsk, MayHold, MayRelease, HoldsPorts, RestsPort, WakesPort};
ghost use Rattle.external_pool.specs.declared.uses.Use.TheVariants.{Free, Resting};

use crate::asks::{PickAsk, PickRefused, Picked, judge};
use crate::host_counts::HostCounts;
use crate::side::Side;
use crate::uses::{Use, resting};
use pcp_base::{Address, Endpoint, Memory, Protocol};
use std::alloc::Global;
use std::marker::Model;
use std::sync::ledger::Ledger;
use step_count::Steps;

/// The external ports of one address: who holds which, and for whom others rest.
///
/// It is seen as its quota and, for each protocol, the range and what each port is used for.
#[derive(Drop)]
pub struct Pool {
    quota: u32,
    tcp: Side,
    udp: Side,
    counts: HostCounts,
}

impl Model for Pool {
    ghost use Rattle.external_pool.specs.Holdings.{Holdings, pool_of};
    ghost use Rattle.external_pool.specs.Kept.{IsCounted};

    ghost Value = { Holdings };

    ghost view = { λ a. pool_of a.quota a.tcp a.udp };

    ghost invariant = { λ a. IsCounted (pool_of a.quota a.tcp a.udp) a.counts };
}

/// Gives ports of one protocol the uses of which this is the first.
fn mark(tcp: &mut Side, udp: &mut Side, protocol: Protocol, start: u16, n: u32, value: Use)
    requires within { start + n ≤ 65536 }
    requires fits { internal_of value + n ≤ 65536 }
    ensures { (quota : ℕ) → pool_of quota tcp.new udp.new
        ≡ with_use protocol start n value (pool_of quota tcp.old udp.old) }
{
    match protocol {
        Protocol::Tcp => tcp.mark(start, n, value),
        Protocol::Udp => udp.mark(start, n, value),
    }
}

impl Pool {
    /// The range from `low` to `high` of both protocols, of which no port is held and none rests.
    /// No address may own more ports than the quota. The one error is want of memory.
    pub fn new(alloc: Global, low: u16, high: u16, quota: u32) -> Result<Pool, Memory>
        requires some { 1 ≤ low }
        requires ordered { low ≤ high }
        ensures { IfOk result (λ pool. pool ≡ fresh_pool low high quota) }
    {
        Ok(Pool {
            quota,
            tcp: Side::new(alloc, low, high)?,
            udp: Side::new(alloc, low, high)?,
            counts: HostCounts::new(alloc)?,
        })
    }

    /// The ports of a protocol.
    fn side(&self, protocol: Protocol) -> &Side
        ensures { result.now ≡ uses_of self.now protocol }
    {
        match protocol {
            Protocol::Tcp => &self.tcp,
            Protocol::Udp => &self.udp,
        }
    }

    /// The ports that an address would be given. They are those suggested, where each of them is
    /// open to the endpoint that it would go to and the first meets the parity asked. Else they are
    /// the longest run of vacant ports whose first meets it, of at most the room and of what the
    /// quota leaves, and of these runs the one with the least start. The refusal is the first of
    /// [`PickRefused`] that applies. The ask is for at least one port, with room for one.
    ///
    /// A step is a node of a tree that is looked at, or a port that is suggested, or a look for how
    /// many ports the address holds, which takes 64 at most.
    pub fn pick<L: Ledger>(
        &self,
        who: &Address,
        protocol: Protocol,
        ask: &PickAsk,
        steps: &mut Steps<L>,
    ) -> Result<Picked, PickRefused>
        requires { IsAsk ask.now }
        ensures pick { IsPickAnswer self.now who.now protocol ask.now result }
        ensures steps { steps.new ≤ steps.old + 133 + ask.now.room }
    {
        steps.take(self.counts.looks());
        let owned = self.counts.count(who);
        if owned >= self.quota {
            return Err(PickRefused::Quota(owned));
        }
        let room = ask.room.min(self.quota - owned);
        let choice = self
            .side(protocol)
            .pick(who, ask.internal, ask.suggested, room, ask.parity, steps);
        judge(ask, choice)
    }

    /// Marks the `n` ports from `start` on, of 1 to 65535 and at least one, as held, and ends their
    /// rest. Nobody holds them before. A port outside the range counts for the quota alone. The one
    /// error is want of memory, which changes nothing.
    pub fn hold(
        &mut self,
        _alloc: Global,
        who: &Address,
        protocol: Protocol,
        start: u16,
        n: u32,
    ) -> Result<(), Memory>
        requires { MayHold self.old protocol start n }
        ensures { HoldsPorts self.old who.now protocol start n result self.new }
    {
        self.counts.raise(who, n)?;
        mark(
            &mut self.tcp,
            &mut self.udp,
            protocol,
            start,
            n,
            Use::Held(*who),
        );
        Ok(())
    }

    /// Ends the hold of the `n` ports from `start` on, all of which the address holds.
    pub fn release(&mut self, who: &Address, protocol: Protocol, start: u16, n: u32)
        requires { MayRelease self.old who.now protocol start n }
        ensures { self.new ≡ with_use protocol start n Free self.old }
    {
        self.counts.lower(who, n);
        mark(&mut self.tcp, &mut self.udp, protocol, start, n, Use::Free);
    }

    /// Marks a port that isn't held and doesn't rest as resting for the endpoint that owned it
    /// last. It takes no memory, and so is never refused.
    pub fn rest(&mut self, _alloc: Global, external: u16, last: &Endpoint) -> Result<(), Memory>
        requires { use_of self.old last.now.protocol external ≡ Free }
        ensures { RestsPort self.old external last.now result self.new }
    {
        mark(
            &mut self.tcp,
            &mut self.udp,
            last.protocol,
            external,
            1,
            resting(last.address, last.port),
        );
        Ok(())
    }

    /// Ends the rest of a port; false where it doesn't rest.
    pub fn wake(&mut self, protocol: Protocol, external: u16) -> bool
        ensures { WakesPort self.old protocol external result self.new }
    {
        let Use::Resting(_, _) = self.side(protocol).use_at(external) else {
            return false;
        };
        mark(
            &mut self.tcp,
            &mut self.udp,
            protocol,
            external,
            1,
            Use::Free,
        );
        true
    }

    /// No port is held from now on, and none rests. Quota and range stay. It takes no memory.
    pub fn clear(&mut self)
        ensures { self.new ≡ emptied self.old }
    {
        self.counts.clear();
        self.tcp.clear();
        self.udp.clear();
    }
}
