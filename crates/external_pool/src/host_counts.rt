//! How many ports each address holds: most are found by one look.

ghost use Rattle.std.specs.Prelude.{◌≡◌, ◌+◌, ◌-◌, ◌≤◌, ◌<◌, ◌^◌, nat_lt, length, IfOk, OnOk, OnErr, if◌then◌else◌};
ghost use Rattle.pcp_base.specs.declared.addresses.Address.{Address};
ghost use Rattle.pcp_base.specs.Tables.{same_address};
ghost use Rattle.step_count.specs.Levels.{levels};
ghost use Rattle.external_pool.specs.HeldCounts as the;

use crate::counts::{count_of, lower, raise};
use crate::hosts::{Host, SLOTS};
use pcp_base::{Address, Memory};
use std::alloc::{AllocError, Global};
use std::collections::BTreeMap;
use std::marker::Model;
use step_count::levels;

/// How many ports of a host are counted in a slot: 0 where the slot is free, whatever its host.
#[derive(Clone, Copy)]
pub struct HostSlot {
    host: Host,
    count: u32,
}

/// How many ports each address holds. A host is counted in its slot, if that was free when its
/// first port came, and else beside the slots until it holds none.
///
/// Who makes hosts that share a slot, makes each look-up of these take a descent of an ordered map.
#[derive(Drop)]
pub struct HostCounts {
    slots: Vec<HostSlot>,
    others: BTreeMap<Host, u32>,
    // No address has held more since the last `clear`.
    most: u32,
}

impl Model for HostCounts {
    ghost use Rattle.external_pool.specs.HeldCounts.{HeldCounts, held_counts, AreKept};

    ghost Value = { HeldCounts };

    ghost view = { λ c. held_counts c.slots.items c.others.entries };

    ghost invariant = { λ c. AreKept c.slots.items c.others.entries c.most };
}

fn free_slot() -> HostSlot
    ensures { result ≡ the.free_slot }
{
    HostSlot {
        host: Host { octets: [0; 16] },
        count: 0,
    }
}

#[tactic(auto, unfolding(crate::specs::HeldCounts::free_slots))]
fn free_slots(alloc: Global, count: usize) -> Result<Vec<HostSlot>, AllocError>
    ensures { IfOk result (λ slots. slots.items ≡ the.free_slots count) }
{
    let free = free_slot();
    let slots = vec![in alloc; free; count]?;
    Ok(slots)
}

/// The slot that a host has.
fn slot_at(slots: &[HostSlot], host: &Host) -> HostSlot
    requires { length slots.now ≡ SLOTS }
    ensures { result ≡ the.slot_at slots.now host.now }
{
    slots[host.slot()]
}

/// How many ports of a host are counted in its slot.
fn count_in(slots: &[HostSlot], host: &Host) -> u32
    requires { length slots.now ≡ SLOTS }
    ensures { result ≡ the.in_slot slots.now host.now }
{
    let slot = slot_at(slots, host);
    if slot.host.is(host) {
        return slot.count;
    }
    0
}

/// Whether a host is counted in its slot. Where that is free it is, if nothing is counted beside
/// the slots.
fn is_in_slot(slots: &[HostSlot], others: &BTreeMap<Host, u32>, host: &Host) -> bool
    requires { length slots.now ≡ SLOTS }
    ensures { result ≡ the.is_in_slot slots.now others.now.entries host.now }
{
    let slot = slot_at(slots, host);
    if slot.count == 0 {
        return count_of(others, host) == 0;
    }
    slot.host.is(host)
}

/// Counts so many ports of a host in its slot, and none of another.
fn recount(slots: &mut Vec<HostSlot>, host: Host, count: u32)
    requires { length slots.old.items ≡ SLOTS }
    ensures { slots.new.items ≡ the.with_slot slots.old.items host count }
{
    slots[host.slot()] = HostSlot { host, count };
}

impl HostCounts {
    /// Nobody holds a port. The one error is want of memory.
    pub fn new(alloc: Global) -> Result<HostCounts, Memory>
        ensures { IfOk result (λ counts. (who : Address) → the.held_by counts who ≡ 0) }
    {
        Ok(HostCounts {
            slots: free_slots(alloc, SLOTS)?,
            others: BTreeMap::new(alloc),
            most: 0,
        })
    }

    /// Nobody holds a port from now on. It takes no memory.
    pub fn clear(&mut self)
        ensures { (who : Address) → the.held_by self.new who ≡ 0 }
    {
        self.slots.fill(free_slot());
        self.others.clear();
        self.most = 0;
    }

    /// How many ports an address holds.
    pub fn count(&self, who: &Address) -> u32
        ensures { result ≡ the.held_by self.now who.now }
    {
        let host = Host { octets: who.0 };
        let count = count_in(&self.slots, &host);
        if count != 0 {
            return count;
        }
        count_of(&self.others, &host)
    }

    /// Whether an address holds fewer ports than so many. Where nobody ever held as many, nothing is
    /// looked up.
    pub fn is_below(&self, who: &Address, quota: u32) -> bool
        ensures { result ≡ nat_lt (the.held_by self.now who.now) quota }
    {
        self.most < quota || self.count(who) < quota
    }

    /// How many looks `count` takes at most: one at a slot, and one at each level of the ordered
    /// map that stands beside the slots.
    pub fn looks(&self) -> u64
        ensures looks { result ≡ 1 + levels (length self.now.others) }
        ensures most { result ≤ 64 }
    {
        1 + levels(self.others.len())
    }

    /// Counts `n` more. The one error is want of memory, which changes nothing.
    pub fn raise(&mut self, who: &Address, n: u32) -> Result<(), Memory>
        requires { the.held_by self.old who.now + n < 2 ^ 32 }
        ensures ok { OnOk result ((other : Address) → the.held_by self.new other
            ≡ the.held_by self.old other + (if same_address who.now other then n else 0)) }
        ensures err { OnErr result ((other : Address) →
            the.held_by self.new other ≡ the.held_by self.old other) }
    {
        let host = Host { octets: who.0 };
        if !is_in_slot(&self.slots, &self.others, &host) {
            let count = raise(&mut self.others, host, n)?;
            self.most = self.most.max(count);
            return Ok(());
        }
        let count = count_in(&self.slots, &host) + n;
        recount(&mut self.slots, host, count);
        self.most = self.most.max(count);
        Ok(())
    }

    /// Counts `n` fewer.
    pub fn lower(&mut self, who: &Address, n: u32)
        requires { n ≤ the.held_by self.old who.now }
        ensures { (other : Address) → the.held_by self.new other
            ≡ the.held_by self.old other - (if same_address who.now other then n else 0) }
    {
        let host = Host { octets: who.0 };
        if !is_in_slot(&self.slots, &self.others, &host) {
            lower(&mut self.others, &host, n);
            return;
        }
        let count = count_in(&self.slots, &host);
        recount(&mut self.slots, host, count - n);
    }
}
