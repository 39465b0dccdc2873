//! Leases by numbers, by keys and by external ports.

ghost use Rattle.std.specs.Prelude.{◌≡◌, ◌<◌, ◌%◌, ◌^◌, ℕ, Some, IfOk, IfSome, OnErr, IsSome, count_by};
ghost use Rattle.std.specs.Option.{option_copied};
ghost use Rattle.std.specs.Ordering.{nat_cmp};
ghost use Rattle.std.specs.BTreeMap.{btree_map_len, get, values};
ghost use Rattle.ordered_index.specs.Ended.{has_ended, IsOneEnded};
ghost use Rattle.ordered_index.specs.MapSteps.{HasEntry};
ghost use Rattle.ordered_index.specs.Orders.{port_at, port_cmp, IsLast};
ghost use Rattle.ordered_index.specs.PortSlots.{slot_of, IsLastSlot};
ghost use Rattle.ordered_index.specs.Steps.{IsBlank, Appends, Replaces, Forgets, Stays};
ghost use Rattle.ordered_index.specs.declared.slots.TheConstants.{MOST_SLOTS};

use crate::expires::Expires;
use crate::keys::last_up_to;
use crate::maps::{insert_into, remove_from};
use crate::port_slots::{External, PortSlots};
use crate::slots::{MOST_SLOTS, Slots};
use pcp_base::{Memory, Moment};
use std::alloc::Global;
use std::collections::BTreeMap;
use std::marker::Model;

/// Leases by numbers that grow, and the numbers by keys and by external ports, of which slots are
/// kept. The table that owns it keeps the maps in step.
///
/// It is seen as a [`Numbered`](crate::numbered::Numbered).
#[derive(Drop)]
pub struct Owned<L: Expires, K: Ord> {
    next: u64,
    leases: Slots<L>,
    keys: BTreeMap<K, u64>,
    ports: PortSlots,
}

impl<L: Expires, K: Ord> Model for Owned<L, K> {
    ghost use Rattle.std.specs.Prelude.{ℕ};
    ghost use Rattle.ordered_index.specs.declared.numbered.Numbered.{Numbered as Maps};
    ghost use Rattle.ordered_index.specs.Owned.{owned_code};

    ghost Value = { Maps L K (ℕ × ℕ) };

    ghost coded = { owned_code L.code K.code };

    ghost view = { λ o. record {
      next = o.next;
      leases = o.leases;
      keys = o.keys;
      ports = o.ports;
    } };
}

impl<L: Expires + Drop, K: Ord + Copy> Owned<L, K> {
    /// No lease. The one error is want of memory.
    pub fn new(alloc: Global) -> Result<Owned<L, K>, Memory>
        ensures { IfOk result (λ it. IsBlank K.cmp port_cmp it) }
    {
        let leases = Slots::new(alloc)?;
        let ports = PortSlots::new(alloc)?;
        Ok(Owned {
            next: 0,
            leases,
            keys: BTreeMap::new(alloc),
            ports,
        })
    }

    /// Forgets all leases. It takes no memory.
    pub fn clear(&mut self)
        ensures { IsBlank K.cmp port_cmp self.new }
    {
        self.next = 0;
        self.leases.clear();
        self.keys.clear();
        self.ports.clear();
    }

    /// The leases by their numbers.
    #[inline]
    pub fn leases(&self) -> &Slots<L>
        ensures { result.now ≡ self.now.leases }
    {
        &self.leases
    }

    /// The number under each key.
    #[inline]
    pub fn keys(&self) -> &BTreeMap<K, u64>
        ensures { result.now ≡ self.now.keys }
    {
        &self.keys
    }

    /// How many leases there are.
    #[inline]
    pub fn len(&self) -> usize
        ensures len { result ≡ btree_map_len self.now.leases }
        ensures small { result < 2 ^ 63 }
    {
        self.leases.len()
    }

    /// The lease with a number, by one look into the slots.
    #[inline]
    pub fn get(&self, number: &u64) -> Option<&L>
        ensures value { option_copied result ≡ get nat_cmp self.now.leases number.now }
    {
        self.leases.get(number)
    }

    /// What stands in a slot: a number and its lease.
    #[inline]
    pub fn in_slot(&self, slot: usize) -> Option<&(u64, L)>
        ensures held { IfSome result (λ entry.
            get nat_cmp self.now.leases entry.now.0 ≡ Some entry.now.1) }
        ensures own { (n : ℕ) (lease : L) → get nat_cmp self.now.leases n ≡ Some lease
            → slot ≡ n % MOST_SLOTS → option_copied result ≡ Some (n, lease) }
    {
        self.leases.in_slot(slot)
    }

    /// The number at the last key up to this one.
    pub fn last_number(&self, key: K) -> Option<u64>
        ensures { IsLast K.cmp self.now.keys key result }
    {
        last_up_to(&self.keys, key)
    }

    /// The slot of the lease under an external port.
    #[inline]
    pub fn slot_at(&self, port: External) -> Option<usize>
        ensures { result ≡ slot_of (get port_cmp self.now.ports (port_at port.0 port.1)) }
    {
        self.ports.slot_at(port)
    }

    /// The slot of the lease under the last external port up to this one.
    pub fn last_slot(&self, port: External) -> Option<usize>
        ensures { IsLastSlot self.now.ports (port_at port.0 port.1) result }
    {
        self.ports.last_slot(port)
    }

    /// Appends a lease under a key and a port, and gives its number. The one error is want of
    /// memory, of slots or of numbers, which changes nothing.
    pub fn append(&mut self, lease: L, key: K, port: External) -> Result<u64, Memory>
        requires { self.old.next % MOST_SLOTS ≡ 0 }
        ensures ok { IfOk result (λ number.
            Appends K.cmp port_cmp self.old self.new lease key (port_at port.0 port.1) number) }
        ensures err { OnErr result (Stays self.old self.new) }
    {
        let Some(after) = self.next.checked_add(MOST_SLOTS) else {
            return Err(Memory);
        };
        let number = self.leases.append(self.next, lease)?;
        if let Err(error) = insert_into(&mut self.keys, key, number) {
            self.leases.remove(&number);
            return Err(error.into());
        }
        self.ports.insert(port, number);
        self.next = after;
        Ok(number)
    }

    /// Writes a lease at a number that has one with this key, and moves the number from the first
    /// port to the second.
    pub fn replace(&mut self, number: u64, lease: L, from: External, to: External)
        requires there { IsSome (get nat_cmp self.old.leases number) }
        requires port { HasEntry port_cmp self.old.ports (port_at from.0 from.1) number }
        ensures { Replaces port_cmp self.old self.new number lease
            (port_at from.0 from.1) (port_at to.0 to.1) }
    {
        self.ports.shift(from, to, number);
        self.leases.overwrite(number, lease);
    }

    /// Takes out the lease with a number, and the number under this key and port.
    pub fn forget(&mut self, number: u64, key: K, port: External)
        ensures { Forgets K.cmp port_cmp self.old self.new number key (port_at port.0 port.1) }
    {
        self.leases.remove(&number);
        remove_from(&mut self.keys, key);
        self.ports.remove(port);
    }

    /// How many leases have an expiry of at most `m`. It looks at the blocks of slots in which one
    /// has alone.
    pub fn ended(&self, m: Moment) -> usize
        ensures { result ≡ count_by (has_ended L.expiry m) (values self.now.leases) }
    {
        self.leases.ended(m.get())
    }

    /// The number of one of the leases that expire first, where their expiry is at most `m`. It
    /// looks at one block of slots.
    pub fn one_ended(&self, m: Moment) -> Option<u64>
        ensures { IsOneEnded L.expiry m self.now.leases result }
    {
        self.leases.one_ended(m.get())
    }
}
