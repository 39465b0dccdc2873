//! Leases in slots, by numbers that name their slots, and the least expiry of each block of slots.
ghost use Rattle.std.specs.Prelude.{◌≡◌, ◌≤◌, ◌<◌, ◌+◌, ◌%◌, ◌^◌, Some, None, IfOk, IfSome, OnErr, IsSome, ℕ, ⊤, map, count_by};
ghost use Rattle.std.specs.Option.{option_copied};
ghost use Rattle.std.specs.Ordering.{nat_cmp};
ghost use Rattle.std.specs.BTreeMap.{BTreeMap, IsOrdered, btree_map_len, get, keys, values};
ghost use Rattle.std.specs.Map.Iter.{TakesFirst, deref};
ghost use Rattle.std.specs.Iterator.{item_count};
ghost use Rattle.slab.specs.Slab.{ContainsKey, Updates, entries};
ghost use Rattle.ordered_index.specs.Ended.{has_ended, IsOneEnded};
ghost use Rattle.ordered_index.specs.MapSteps.{IsBlankMap, Inserts, Overwrites, Removes};
ghost use Rattle.ordered_index.specs.Slots.{AreSlots, lease_at, number_of};

use crate::due::{count_ended, first_ended, moment_at, tell_least};
use crate::expires::Expires;
use crate::numbers::Numbers;
use expiry_wheel::{Leasts, NEVER};
use pcp_base::Memory;
use slab::Slab;
use std::alloc::{AllocError, Global};
use std::marker::Model;
use std::ops::Index;

/// How many slots there may be. A lease's number modulo this is its slot.
pub(crate) const MOST_SLOTS: u64 = 32_768;

/// How many blocks of 8 slots they are.
pub(crate) const BLOCKS: usize = 4_096;

/// The levels of a tree over so many blocks.
const LEVELS: u32 = 12;

/// Leases by their numbers, seen as an ordered map. Each stands in a slot that its number names, so
/// that a look-up is one look into an array.
#[derive(Drop)]
pub struct Slots<L: Expires> {
    /// The leases, each beside its number.
    slots: Slab<(u64, L)>,
    /// The numbers, in order. Contracts alone see them.
    order: Numbers,
    /// The least expiry of each block of slots.
    leasts: Leasts,
    /// Where memory for a list of the numbers is taken.
    alloc: Global,
}

impl<L: Expires> Model for Slots<L> {
    ghost use Rattle.std.specs.Prelude.{ℕ};
    ghost use Rattle.std.specs.Coded.{coded_ℕ};
    ghost use Rattle.std.specs.BTreeMap.{BTreeMap as Map};
    ghost use Rattle.std_collections.specs.Layout.BTreeMap.{btree_map_code};
    ghost use Rattle.ordered_index.specs.Slots.{AreDueSlots, leases_of};

    ghost Value = { Map ℕ L };

    ghost coded = { btree_map_code coded_ℕ L.code };

    ghost view = { λ s. leases_of s.slots s.order };

    ghost invariant = { λ s. AreDueSlots L.expiry s.slots s.order s.leasts };
}

/// The lease in the slot that the number names, if it has this number.
fn find<L>(slots: &Slab<(u64, L)>, number: u64) -> Option<&L>
    ensures { option_copied result ≡ lease_at slots.now number }
{
    let Some((held, lease)) = slots.get((number % MOST_SLOTS) as usize) else {
        return None;
    };
    if *held == number { Some(lease) } else { None }
}

/// The numbers of all slots that have a lease, in the order of the slots. The one error is want of
/// memory.
fn gather<L>(alloc: Global, slots: &Slab<(u64, L)>) -> Result<Vec<u64>, AllocError>
    ensures { IfOk result (λ numbers. numbers.items ≡ map number_of (entries slots.now)) }
{
    let mut numbers = Vec::with_capacity(alloc, slots.len())?;
    for (_slot, entry) in slots.iter() {
        let (number, _lease) = entry;
        numbers.push(*number)?;
    }
    Ok(numbers)
}

/// The numbers of all leases, in order. The one error is want of memory.
fn numbers_in<L>(alloc: Global, slots: &Slab<(u64, L)>) -> Result<Vec<u64>, AllocError>
    ensures { IfOk result (λ numbers. (order : BTreeMap ℕ ⊤) → AreSlots slots.now order
        → numbers.items ≡ keys order) }
{
    let mut numbers = gather(alloc, slots)?;
    numbers.sort_unstable();
    Ok(numbers)
}

/// Writes another value in a slot that has one.
fn write<T: Drop>(slots: &mut Slab<T>, slot: usize, value: T)
    requires { ContainsKey slots.old slot }
    ensures { Updates slots.old slots.new slot (Some value) }
{
    if let Some(place) = slots.get_mut(slot) {
        *place = value;
    }
}

impl<L: Expires + Drop> Slots<L> {
    /// No lease. The one error is want of memory.
    pub fn new(alloc: Global) -> Result<Slots<L>, Memory>
        ensures { IfOk result (λ slots. IsBlankMap nat_cmp slots) }
    {
        let leasts = Leasts::new(alloc, LEVELS)?;
        let order = Numbers::new(alloc)?;
        Ok(Slots {
            slots: Slab::new(alloc),
            order,
            leasts,
            alloc,
        })
    }

    /// Forgets all leases. It takes no memory.
    pub fn clear(&mut self)
        ensures { IsBlankMap nat_cmp self.new }
    {
        self.slots.clear();
        self.order.clear();
        self.leasts.clear();
    }

    /// How many leases there are.
    pub fn len(&self) -> usize
        ensures len { result ≡ btree_map_len self.now }
        ensures small { result < 2 ^ 63 }
        ensures ordered { IsOrdered nat_cmp self.now }
    {
        self.order.len()
    }

    /// The lease with a number, by one look into the slots.
    pub fn get(&self, number: &u64) -> Option<&L>
        ensures value { option_copied result ≡ get nat_cmp self.now number.now }
    {
        find(&self.slots, *number)
    }

    /// What stands in a slot: a number and its lease.
    #[inline]
    pub fn in_slot(&self, slot: usize) -> Option<&(u64, L)>
        ensures held { IfSome result (λ entry.
            get nat_cmp self.now entry.now.0 ≡ Some entry.now.1) }
        ensures own { (n : ℕ) (lease : L) → get nat_cmp self.now n ≡ Some lease
            → slot ≡ n % MOST_SLOTS → option_copied result ≡ Some (n, lease) }
    {
        self.slots.get(slot)
    }

    /// The numbers of all leases, in order, gathered and sorted for the call. The one error is want
    /// of memory.
    pub(crate) fn numbers(&self) -> Result<Vec<u64>, AllocError>
        ensures numbers { IfOk result (λ numbers. numbers.items ≡ keys self.now) }
    {
        numbers_in(self.alloc, &self.slots)
    }

    /// The leases, in the order of their numbers, which are gathered and sorted for the call. The
    /// one error is want of memory.
    pub fn values(&self) -> Result<Values<'_, L>, AllocError>
        ensures rest { IfOk result (λ rest. rest ≡ values self.now) }
    {
        let numbers = numbers_in(self.alloc, &self.slots)?;
        Ok(Values {
            slots: &self.slots,
            numbers,
            at: 0,
        })
    }

    /// Puts a lease in under a number from `next` on and below `next` and 32,768 more, which names
    /// a free slot, and gives the number. The one error is want of memory or of slots, which changes
    /// nothing.
    pub fn append(&mut self, next: u64, lease: L) -> Result<u64, AllocError>
        requires step { next % MOST_SLOTS ≡ 0 }
        requires room { next + MOST_SLOTS < 2 ^ 64 }
        ensures from { IfOk result (λ number. next ≤ number) }
        ensures below { IfOk result (λ number. number < next + MOST_SLOTS) }
        ensures free { IfOk result (λ number. get nat_cmp self.old number ≡ None) }
        ensures inserts { IfOk result (λ number.
            Inserts nat_cmp self.old self.new number lease) }
        ensures err { OnErr result (self.new.entries ≡ self.old.entries) }
    {
        let slot = self.slots.vacant_key() as u64;
        if slot >= MOST_SLOTS {
            return Err(AllocError);
        }
        let number = next + slot;
        self.slots.reserve(1)?;
        self.order.insert(number);
        self.slots.insert_reserved((number, lease));
        tell_least(&self.slots, &mut self.leasts, slot as usize, NEVER);
        Ok(number)
    }

    /// Writes another lease at a number that has one.
    pub fn overwrite(&mut self, number: u64, lease: L)
        requires { IsSome (get nat_cmp self.old number) }
        ensures { Overwrites nat_cmp self.old self.new number lease }
    {
        let slot = (number % MOST_SLOTS) as usize;
        let was = moment_at(&self.slots, slot);
        write(&mut self.slots, slot, (number, lease));
        tell_least(&self.slots, &mut self.leasts, slot, was);
    }

    /// Takes out the lease with a number.
    pub fn remove(&mut self, number: &u64) -> Option<L>
        ensures value { result ≡ get nat_cmp self.old number.now }
        ensures removed { Removes nat_cmp self.old self.new number.now }
    {
        if find(&self.slots, *number).is_none() {
            return None;
        }
        let slot = (*number % MOST_SLOTS) as usize;
        let was = moment_at(&self.slots, slot);
        self.order.remove(*number);
        let (_, lease) = self.slots.remove(slot);
        tell_least(&self.slots, &mut self.leasts, slot, was);
        Some(lease)
    }

    /// How many leases have an expiry of at most `m`. It looks at the blocks of slots in which one
    /// has alone.
    pub fn ended(&self, m: u64) -> usize
        ensures { result ≡ count_by (has_ended L.expiry m) (values self.now) }
    {
        count_ended(&self.slots, &self.leasts, m)
    }

    /// The number of one of the leases that expire first, where their expiry is at most `m`. It
    /// looks at one block of slots, or at the last moment of all at each slot.
    pub fn one_ended(&self, m: u64) -> Option<u64>
        ensures { IsOneEnded L.expiry m self.now result }
    {
        first_ended(&self.slots, &self.leasts, m)
    }
}

impl<L: Expires> Index<&u64> for Slots<L> {
    type Output = L;

    ghost can_index = { λ slots number. IsSome (get nat_cmp slots number.now) };

    ghost index_gives = { λ slots number lease. get nat_cmp slots number.now ≡ Some lease };

    fn index(&self, number: &u64) -> &L {
        find(&self.slots, *number).unwrap()
    }
}

/// The leases, in the order of their numbers.
#[derive(Drop)]
pub struct Values<'a, L> {
    /// Where they stand.
    slots: &'a Slab<(u64, L)>,
    /// Their numbers.
    numbers: Vec<u64>,
    /// How many of them have been told.
    at: usize,
}

impl<'a, L> Model for Values<'a, L> {
    ghost use Rattle.std.specs.Prelude.{List, IsSome, drop};
    ghost use Rattle.std.specs.Coded.{coded_list};
    ghost use Rattle.std.specs.List.{AllByRecursion, filter_map};
    ghost use Rattle.ordered_index.specs.Slots.{lease_at};

    ghost Value = { List L };

    ghost coded = { coded_list L.code };

    ghost view = { λ v. filter_map (lease_at v.slots.now) (drop v.at v.numbers.items) };

    ghost invariant = { λ v.
        AllByRecursion (λ n. IsSome (lease_at v.slots.now n)) v.numbers.items };
}

impl<'a, L> Iterator for Values<'a, L> {
    type Item = &'a L;

    ghost next_gives = { TakesFirst deref };

    ghost remaining = { item_count (λ left. left) };

    fn next(&mut self) -> Option<&'a L> {
        let Some(number) = self.numbers.get(self.at) else {
            return None;
        };
        let found = find(self.slots, *number);
        self.at += 1;
        found
    }
}
