//! The vacant ports of both protocols, and how many ports each address holds.

ghost use Rattle.std.specs.Prelude.{◌≡◌, ◌+◌, ◌-◌, ◌<◌, ◌≤◌, ℕ, false, nat_lt, IfOk, IfErr};
ghost use Rattle.external_pool.specs.PortUses.{AreUsed, is_free_use};
ghost use Rattle.external_pool.specs.Holdings.{uses_of, ports_held, fresh_pool, emptied, with_use, pool_of, AllFree, AllRest};
ghost use Rattle.external_pool.specs.Choosing.{IsLongest};
ghost use Rattle.external_pool.specs.Calls.{MayHold, MayRelease, HoldsPorts, RestsPorts};
ghost use Rattle.external_pool.specs.declared.uses.Use.TheVariants.{Free, Resting};

use crate::asks::Picked;
use crate::host_counts::HostCounts;
use crate::lean_side::LeanSide;
use crate::uses::Use;
use pcp_base::{Address, Endpoint, Memory, Protocol};
use std::alloc::Global;
use std::marker::Model;
use std::sync::ledger::Ledger;
use step_count::Steps;

/// The external ports of one address for a caller that knows by itself who holds which, and for
/// whom others rest: which are vacant, and how many ports each address holds.
///
/// It is seen as a [`Pool`](crate::Pool) is, but keeps no use of a port: contracts alone see them.
/// So it takes memory for two trees and the counts alone.
#[derive(Drop)]
pub struct Vacancies {
    quota: u32,
    tcp: LeanSide,
    udp: LeanSide,
    counts: HostCounts,
}

impl Model for Vacancies {
    ghost use Rattle.external_pool.specs.Holdings.{Holdings, pool_of};
    ghost use Rattle.external_pool.specs.Kept.{IsCounted};

    ghost Value = { Holdings };

    ghost view = { λ a. pool_of a.quota a.tcp a.udp };

    ghost invariant = { λ a. IsCounted (pool_of a.quota a.tcp a.udp) a.counts };
}

/// Gives ports of one protocol the uses of which this is the first.
fn mark(tcp: &mut LeanSide, udp: &mut LeanSide, protocol: Protocol, start: u16, n: u32, value: Use)
    requires { start + n ≤ 65536 }
    ensures { (quota : ℕ) → pool_of quota tcp.new udp.new
        ≡ with_use protocol start n value (pool_of quota tcp.old udp.old) }
{
    match protocol {
        Protocol::Tcp => tcp.mark(start, n, value),
        Protocol::Udp => udp.mark(start, n, value),
    }
}

/// Gives ports of one protocol that are used other uses. No tree changes.
fn note(tcp: &mut LeanSide, udp: &mut LeanSide, protocol: Protocol, start: u16, n: u32, value: Use)
    requires within { start + n ≤ 65536 }
    requires used { AreUsed (uses_of (pool_of 0 tcp.old udp.old) protocol).each start n }
    requires stays { is_free_use value ≡ false }
    ensures { (quota : ℕ) → pool_of quota tcp.new udp.new
        ≡ with_use protocol start n value (pool_of quota tcp.old udp.old) }
{
    match protocol {
        Protocol::Tcp => tcp.note(start, n, value),
        Protocol::Udp => udp.note(start, n, value),
    }
}

impl Vacancies {
    /// The range from `low` to `high` of both protocols, of which no port is held and none rests.
    /// No address may own more ports than the quota. The one error is want of memory.
    pub fn new(alloc: Global, low: u16, high: u16, quota: u32) -> Result<Vacancies, Memory>
        requires some { 1 ≤ low }
        requires ordered { low ≤ high }
        ensures { IfOk result (λ pool. pool ≡ fresh_pool low high quota) }
    {
        Ok(Vacancies {
            quota,
            tcp: LeanSide::new(alloc, low, high)?,
            udp: LeanSide::new(alloc, low, high)?,
            counts: HostCounts::new(alloc)?,
        })
    }

    /// The ports of a protocol.
    fn side(&self, protocol: Protocol) -> &LeanSide
        ensures { result.now ≡ uses_of self.now protocol }
    {
        match protocol {
            Protocol::Tcp => &self.tcp,
            Protocol::Udp => &self.udp,
        }
    }

    /// How many ports more the address may own: what its quota leaves, which is one at least. Where
    /// it leaves none, the error tells how many ports the address owns.
    ///
    /// A step is a look for how many ports the address holds, 64 at most: at one slot, where most
    /// addresses have one of their own, and else at each level of an ordered map.
    pub fn room_for<L: Ledger>(&self, who: &Address, steps: &mut Steps<L>) -> Result<u32, u32>
        ensures below { IfOk result (λ left. (ports_held self.now who.now < self.now.quota)
            × (left ≡ self.now.quota - ports_held self.now who.now)) }
        ensures full { IfErr result (λ owned. (owned ≡ ports_held self.now who.now)
            × (self.now.quota ≤ owned)) }
        ensures steps { steps.new ≤ steps.old + 64 }
    {
        steps.take(self.counts.looks());
        let owned = self.counts.count(who);
        if owned >= self.quota {
            return Err(owned);
        }
        Ok(self.quota - owned)
    }

    /// Whether the address owns fewer ports than the quota: whether [`Vacancies::room_for`] leaves
    /// it any.
    ///
    /// A step is a look for how many ports the address holds, as there. None is made where nobody
    /// ever held as many as the quota, but they are counted all the same.
    pub fn is_below_quota<L: Ledger>(&self, who: &Address, steps: &mut Steps<L>) -> bool
        ensures below { result ≡ nat_lt (ports_held self.now who.now) self.now.quota }
        ensures steps { steps.new ≤ steps.old + 64 }
    {
        steps.take(self.counts.looks());
        self.counts.is_below(who, self.quota)
    }

    /// The longest run of vacant ports whose first meets the parity asked, of at most `room`, and
    /// of these runs the one with the least start. None where there is none.
    ///
    /// A step is a node of a tree that is looked at.
    pub fn longest<L: Ledger>(
        &self,
        protocol: Protocol,
        room: u32,
        parity: Option<u8>,
        steps: &mut Steps<L>,
    ) -> Option<Picked>
        ensures longest { IsLongest (uses_of self.now protocol) parity room result }
        ensures steps { steps.new ≤ steps.old + 69 }
    {
        self.side(protocol).longest(room, parity, steps)
    }

    /// Marks the `n` ports from `start` on, of 1 to 65535 and at least one, as held, and ends their
    /// rest. Nobody holds them before. A port outside the range counts for the quota alone. The one
    /// error is want of memory, which changes nothing.
    pub fn hold(
        &mut self,
        _alloc: Global,
        who: &Address,
        protocol: Protocol,
        start: u16,
        n: u32,
    ) -> Result<(), Memory>
        requires { MayHold self.old protocol start n }
        ensures { HoldsPorts self.old who.now protocol start n result self.new }
    {
        self.counts.raise(who, n)?;
        mark(
            &mut self.tcp,
            &mut self.udp,
            protocol,
            start,
            n,
            Use::Held(*who),
        );
        Ok(())
    }

    /// Ends the hold of the `n` ports from `start` on, all of which the address holds.
    pub fn release(&mut self, who: &Address, protocol: Protocol, start: u16, n: u32)
        requires { MayRelease self.old who.now protocol start n }
        ensures { self.new ≡ with_use protocol start n Free self.old }
    {
        self.counts.lower(who, n);
        mark(&mut self.tcp, &mut self.udp, protocol, start, n, Use::Free);
    }

    /// Ends the hold of the `n` ports from `external` on, and lets each rest for the endpoint that
    /// owned it: the first for `last`, and those behind it for its ports behind that of `last`. It
    /// looks at no port, and takes no memory.
    pub fn retire(&mut self, external: u16, last: &Endpoint, n: u32)
        requires held { MayRelease self.old last.now.address last.now.protocol external n }
        requires internal { last.now.port + n ≤ 65536 }
        ensures { self.new ≡ with_use last.now.protocol external n
            (Resting last.now.address last.now.port) self.old }
    {
        self.counts.lower(&last.address, n);
        note(
            &mut self.tcp,
            &mut self.udp,
            last.protocol,
            external,
            n,
            Use::Resting(last.address, last.port),
        );
    }

    /// Marks the `n` ports from `external` on, which aren't held and don't rest, as resting for the
    /// endpoints that owned them last, as [`Vacancies::retire`] does. It takes no memory, and so is
    /// never refused.
    pub fn rest_run(
        &mut self,
        _alloc: Global,
        external: u16,
        last: &Endpoint,
        n: u32,
    ) -> Result<(), Memory>
        requires free { AllFree self.old last.now.protocol external n }
        requires within { external + n ≤ 65536 }
        requires internal { last.now.port + n ≤ 65536 }
        ensures { RestsPorts self.old external last.now n result self.new }
    {
        mark(
            &mut self.tcp,
            &mut self.udp,
            last.protocol,
            external,
            n,
            Use::Resting(last.address, last.port),
        );
        Ok(())
    }

    /// Ends the rest of the `n` ports from `external` on, all of which rest.
    pub fn wake_run(&mut self, protocol: Protocol, external: u16, n: u32)
        requires rests { AllRest self.old protocol external n }
        requires within { external + n ≤ 65536 }
        ensures { self.new ≡ with_use protocol external n Free self.old }
    {
        mark(
            &mut self.tcp,
            &mut self.udp,
            protocol,
            external,
            n,
            Use::Free,
        );
    }

    /// No port is held from now on, and none rests. Quota and range stay. It takes no memory.
    pub fn clear(&mut self)
        ensures { self.new ≡ emptied self.old }
    {
        self.counts.clear();
        self.tcp.clear();
        self.udp.clear();
    }
}
