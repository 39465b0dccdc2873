//! The numbers that leases have, in order. Contracts alone see them.
ghost use Rattle.std.specs.Prelude.{◌≡◌, ◌≤◌, ◌<◌, ◌^◌, None, IfOk, IsSome, length};
ghost use Rattle.std.specs.Ordering.{nat_cmp};
ghost use Rattle.std.specs.Map.{lookup, remove_entry};
ghost use Rattle.std.specs.BTreeMap.{btree_map_len, get, insert_entry, is_at};
ghost use Rattle.ordered_index.specs.MapSteps.{IsBlankMap, Inserts, Removes};
ghost use Rattle.ordered_index.specs.declared.slots.TheConstants.{MOST_SLOTS};

use ghost_notes::{GhostList, Naming};
use std::alloc::{AllocError, Global};
use std::marker::{Brand, Model};

/// Numbers, seen as the keys of an ordered map. Code knows how many they are, and no more, so they
/// take no octets each.
#[derive(Drop)]
pub(crate) struct Numbers {
    each: GhostList<(u64, ())>,
}

impl Model for Numbers {
    ghost use Rattle.std.specs.Prelude.{ℕ, ⊤};
    ghost use Rattle.std.specs.Coded.{coded_ℕ};
    ghost use Rattle.std.specs.BTreeMap.{BTreeMap as Map};
    ghost use Rattle.std_collections.specs.Layout.BTreeMap.{btree_map_code};
    ghost use Rattle.ordered_index.specs.Slots.{AreOrdered, order_of};
    ghost use base.Stored.{coded_unit};

    ghost Value = { Map ℕ ⊤ };

    ghost coded = { btree_map_code coded_ℕ coded_unit };

    ghost view = { λ n. order_of n.each };

    ghost invariant = { λ n. AreOrdered n.each };
}

/// Notes a number more.
fn note_more<B: Naming<(u64, ())>>(each: &mut GhostList<(u64, ())>, number: u64)
    requires items { B.items ≡ insert_entry nat_cmp each.old number tt }
    requires anew { lookup (is_at (nat_cmp number)) each.old ≡ None }
    requires few { length each.old ≤ MOST_SLOTS }
    ensures { each.new ≡ insert_entry nat_cmp each.old number tt }
{
    let count = each.len() + 1;
    each.set::<B>(count);
}

/// Notes a number less.
fn note_less<B: Naming<(u64, ())>>(each: &mut GhostList<(u64, ())>, number: u64)
    requires items { B.items ≡ remove_entry (is_at (nat_cmp number)) each.old }
    requires there { IsSome (lookup (is_at (nat_cmp number)) each.old) }
    ensures { each.new ≡ remove_entry (is_at (nat_cmp number)) each.old }
{
    let count = each.len() - 1;
    each.set::<B>(count);
}

impl Numbers {
    /// No number. The one error is want of memory.
    pub(crate) fn new(alloc: Global) -> Result<Numbers, AllocError>
        ensures { IfOk result (λ numbers. IsBlankMap nat_cmp numbers) }
    {
        Ok(Numbers {
            each: GhostList::none(alloc)?,
        })
    }

    /// Forgets all numbers.
    pub(crate) fn clear(&mut self)
        ensures { IsBlankMap nat_cmp self.new }
    {
        self.each.clear();
    }

    /// How many numbers there are.
    pub(crate) fn len(&self) -> usize
        ensures len { result ≡ btree_map_len self.now }
        ensures small { result < 2 ^ 32 }
    {
        self.each.len() as usize
    }

    /// A number more. It takes no memory.
    pub(crate) fn insert(&mut self, number: u64)
        requires anew { get nat_cmp self.old number ≡ None }
        requires few { btree_map_len self.old ≤ MOST_SLOTS }
        ensures { Inserts nat_cmp self.old self.new number tt }
    {
        note_more::<Brand>(&mut self.each, number);
    }

    /// A number less.
    pub(crate) fn remove(&mut self, number: u64)
        requires { IsSome (get nat_cmp self.old number) }
        ensures { Removes nat_cmp self.old self.new number }
    {
        note_less::<Brand>(&mut self.each, number);
    }
}
