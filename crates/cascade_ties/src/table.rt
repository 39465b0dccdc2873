//! The table of ties.
ghost use Rattle.std.specs.Prelude.{◌≡◌, ◌<◌, ◌≤◌, ◌-◌, ◌^◌, length, map, IfOk};
ghost use Rattle.std.specs.Option.{option_copied};
ghost use Rattle.std.specs.BTreeMap.{values};
ghost use Rattle.cascade_ties.specs.Ties.{MakesTies, MayChange, MayMove, MayRest, MayTie, local_for, no_ties, still, tie_at, tie_of, vacant_for, with_change, with_rest, with_tie, without};

use crate::locals::{NoLocal, local_for, vacant_for};
use crate::lookups::Numbers;
use crate::steps::{change_tie, drop_over, grant_tie, move_tie, put_counted, rest_tie, take_tie};
use crate::ties::{Tie, Tied};
use expiry_wheel::Wheel;
use external_pool::Pool;
use external_pool::host_counts::HostCounts;
use ordered_index::{Numbered, Slots, place_of, port_at};
use pcp_base::{Endpoint, Memory, Protocol};
use std::alloc::{AllocError, Global};
use std::marker::Model;

/// Ties, seen as the range of local ports, the list of ties in the order made, and until when local
/// ports rest. Each call but `list` takes logarithmic time for each tie that it finds, makes, changes
/// or drops, and for each rest that it ends.
#[derive(Drop)]
pub struct TieTable {
    /// The ties by clients, by local ports and by their times.
    kept: Numbers,
    /// Who holds which local ports, and which rest.
    pool: Pool,
    /// How many ties each address has.
    counts: HostCounts,
    /// Until when local ports rest, tied ones too.
    rests: Wheel,
    /// What the pool is handed where a port goes to rest, which takes no memory.
    alloc: Global,
}

impl Model for TieTable {
    ghost use Rattle.std.specs.BTreeMap.{values};
    ghost use Rattle.cascade_ties.specs.Ties.{Ties, ties_code};
    ghost use Rattle.cascade_ties.specs.contracts.ties.Tied as tied;
    ghost use Rattle.cascade_ties.specs.Kept.{AreCounted, IsTieTable, ties_of};

    ghost Value = { Ties };

    ghost coded = { ties_code tied.the_row.coded };

    ghost view = { λ t. ties_of t.pool t.rests (values t.kept.leases) };

    ghost invariant = { λ t.
        IsTieTable t.kept t.pool t.rests × AreCounted t.counts (values t.kept.leases) };
}

impl TieTable {
    /// A table without a tie, over the local ports from `low` to `high`, which are of both
    /// protocols. The one error is want of memory.
    pub fn new(alloc: Global, low: u16, high: u16) -> Result<TieTable, Memory>
        requires some { 1 ≤ low }
        requires ordered { low ≤ high }
        ensures { IfOk result (λ ties. ties ≡ no_ties low high) }
    {
        let kept = Numbered::new(alloc)?;
        let pool = Pool::new(alloc, low, high, u32::MAX)?;
        let counts = HostCounts::new(alloc)?;
        let rests = Wheel::new(alloc)?;
        Ok(TieTable {
            kept,
            pool,
            counts,
            rests,
            alloc,
        })
    }

    /// How many ties there are.
    pub fn len(&self) -> usize
        ensures { result ≡ length self.now.each }
    {
        self.kept.leases.len()
    }

    /// The tie of a client's endpoint.
    pub fn find(&self, client: &Endpoint) -> Option<&Tied>
        ensures { option_copied result ≡ tie_of client.now self.now.each }
    {
        let Some(number) = self.kept.keys.get(&place_of(client)).copied() else {
            return None;
        };
        self.kept.leases.get(&number)
    }

    /// The tie to a local port.
    pub fn at_local(&self, protocol: Protocol, port: u16) -> Option<&Tied>
        ensures { option_copied result ≡ tie_at protocol port self.now.each }
    {
        let Some(number) = self.kept.ports.get(&port_at(protocol, port)).copied() else {
            return None;
        };
        self.kept.leases.get(&number)
    }

    /// The vacant local port for an endpoint: its own where that is vacant, else the least one.
    pub fn vacant_for(&self, client: &Endpoint) -> Option<u16>
        ensures { result ≡ vacant_for self.now client.now }
    {
        vacant_for(&self.pool, client)
    }

    /// The local port for a new tie of an endpoint: its own where that is vacant, else the least
    /// vacant one. The refusal is the first of [`NoLocal`] that applies.
    pub fn local_for(&self, client: &Endpoint) -> Result<u16, NoLocal>
        ensures { result ≡ local_for self.now client.now }
    {
        local_for(&self.pool, &self.counts, client)
    }

    /// Appends a tie of an endpoint that has none, to a vacant port. The one error is want of
    /// memory, which changes nothing.
    pub fn put(&mut self, alloc: Global, tied: Tied) -> Result<(), Memory>
        requires { MayTie self.old tied }
        ensures { MakesTies self.old (with_tie self.old tied) result self.new }
    {
        let (kept, pool) = (&mut self.kept, &mut self.pool);
        put_counted(alloc, kept, pool, &mut self.counts, &self.rests, tied)
    }

    /// Puts a tie in the place of its endpoint's, which is to the same local port. The one error is
    /// want of memory, which changes nothing.
    pub fn change(&mut self, tied: Tied) -> Result<(), Memory>
        requires { MayChange self.old tied }
        ensures { MakesTies self.old (with_change self.old tied) result self.new }
    {
        change_tie(&mut self.kept, &self.pool, &self.rests, tied)
    }

    /// Puts a tie in the place of its endpoint's, which is to the same local port, and lets the port
    /// rest behind it until a time. The one error is want of memory, which changes nothing.
    pub fn grant(&mut self, alloc: Global, tied: Tied, until_ms: u64) -> Result<(), Memory>
        requires may { MayChange self.old tied }
        requires sometime { until_ms < 2 ^ 64 - 1 }
        ensures { MakesTies self.old (with_rest (with_change self.old tied)
            tied.tie.client.protocol tied.tie.local until_ms) result self.new }
    {
        let (kept, rests) = (&mut self.kept, &mut self.rests);
        grant_tie(alloc, kept, &self.pool, rests, tied, until_ms)
    }

    /// Puts a tie to a vacant port in the place of its endpoint's, which is to the port `from`, and
    /// lets that one rest until a time. The one error is want of memory, which changes nothing.
    pub fn move_on(
        &mut self,
        alloc: Global,
        from: u16,
        tied: Tied,
        until_ms: u64,
    ) -> Result<(), Memory>
        requires may { MayMove self.old from tied }
        requires sometime { until_ms < 2 ^ 64 - 1 }
        ensures { MakesTies self.old (with_rest (with_change self.old tied)
            tied.tie.client.protocol from until_ms) result self.new }
    {
        let (kept, pool, rests) = (&mut self.kept, &mut self.pool, &mut self.rests);
        move_tie(alloc, kept, pool, rests, from, tied, until_ms)
    }

    /// Lets the local port of a tie rest behind it until a time. The one error is want of memory,
    /// which changes nothing.
    pub fn rest(
        &mut self,
        alloc: Global,
        client: &Endpoint,
        local: u16,
        until_ms: u64,
    ) -> Result<(), Memory>
        requires may { MayRest self.old client.now local }
        requires sometime { until_ms < 2 ^ 64 - 1 }
        ensures { MakesTies self.old (with_rest self.old client.now.protocol local until_ms)
            result self.new }
    {
        rest_tie(alloc, &mut self.rests, client, local, until_ms)
    }

    /// Takes out the tie of an endpoint, where it has one, and frees its local port, which then rests
    /// where it is to.
    pub fn remove(&mut self, client: &Endpoint)
        ensures { self.new ≡ without self.old client.now }
    {
        let alloc = self.alloc;
        let (kept, pool) = (&mut self.kept, &mut self.pool);
        take_tie(alloc, kept, pool, &mut self.counts, &self.rests, client);
    }

    /// Takes out the ties whose time has come, frees their local ports, ends the rests that are over,
    /// and counts the ties. It looks at these alone, and at one more of each.
    pub fn drop_over(&mut self, now_ms: u64) -> usize
        ensures ties { self.new ≡ still now_ms self.old }
        ensures count { result ≡ length self.old.each - length self.new.each }
    {
        let before = self.kept.leases.len();
        let (kept, pool, rests) = (&mut self.kept, &mut self.pool, &mut self.rests);
        drop_over(self.alloc, kept, pool, &mut self.counts, rests, now_ms);
        before.saturating_sub(self.kept.leases.len())
    }

    /// The ties, in the order made. The one error is want of memory.
    pub fn list(&self, alloc: Global) -> Result<Vec<Tie>, Memory>
        ensures { IfOk result (λ list. list.items ≡ map (λ t. t.tie) self.now.each) }
    {
        Ok(ties_in(alloc, &self.kept.leases)?)
    }
}

/// The ties, in the order of their numbers.
fn ties_in(alloc: Global, ties: &Slots<Tied>) -> Result<Vec<Tie>, AllocError>
    ensures { IfOk result (λ list. list.items ≡ map (λ t. t.tie) (values ties.now)) }
{
    let mut list = Vec::new(alloc);
    for tied in ties.values()? {
        list.push(tied.tie)?;
    }
    Ok(list)
}
