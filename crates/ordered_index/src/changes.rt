//! Leases that come, change and go.
ghost use Rattle.std.specs.Prelude.{◌≡◌, ◌%◌, None, IfOk, OnOk, OnErr, IsSome, count_by};
ghost use Rattle.std.specs.Ordering.{nat_cmp};
ghost use Rattle.std.specs.BTreeMap.{get, values};
ghost use Rattle.ordered_index.specs.Ended.{has_ended, IsOneEnded};
ghost use Rattle.ordered_index.specs.MapSteps.{HasEntry};
ghost use Rattle.ordered_index.specs.Steps.{IsBlank, Appends, Replaces, Forgets, Stays};

use crate::expires::Expires;
use crate::maps::{insert_both, insert_other, remove_from, remove_other};
use crate::numbered::Numbered;
use crate::slots::{MOST_SLOTS, Slots};
use pcp_base::{Memory, Moment};
use std::alloc::Global;
use std::collections::BTreeMap;

impl<L: Expires + Drop, K: Ord + Copy, P: Ord + Copy> Numbered<L, K, P> {
    /// No lease. The one error is want of memory.
    pub fn new(alloc: Global) -> Result<Numbered<L, K, P>, Memory>
        ensures { IfOk result (λ it. IsBlank K.cmp P.cmp it) }
    {
        let leases = Slots::new(alloc)?;
        Ok(Numbered {
            next: 0,
            leases,
            keys: BTreeMap::new(alloc),
            ports: BTreeMap::new(alloc),
        })
    }

    /// Forgets all leases. It takes no memory.
    pub fn clear(&mut self)
        ensures { IsBlank K.cmp P.cmp self.new }
    {
        self.next = 0;
        self.leases.clear();
        self.keys.clear();
        self.ports.clear();
    }

    /// Appends a lease under a key and a port that have none, and gives its number. The one error is
    /// want of memory, of slots or of numbers, which changes nothing.
    pub fn append(&mut self, lease: L, key: K, port: P) -> Result<u64, Memory>
        requires step { self.old.next % MOST_SLOTS ≡ 0 }
        requires key { get K.cmp self.old.keys key ≡ None }
        requires port { get P.cmp self.old.ports port ≡ None }
        ensures ok { IfOk result (λ number.
            Appends K.cmp P.cmp self.old self.new lease key port number) }
        ensures err { OnErr result (Stays self.old self.new) }
    {
        let Some(after) = self.next.checked_add(MOST_SLOTS) else {
            return Err(Memory);
        };
        let number = self.leases.append(self.next, lease)?;
        if let Err(error) = insert_both(
            &mut self.keys,
            &mut self.ports,
            (key, number),
            (port, number),
        ) {
            self.leases.remove(&number);
            return Err(error.into());
        }
        self.next = after;
        Ok(number)
    }

    /// Writes a lease at a number that has one with this key: its port moves from the first to the
    /// second; one that stays isn't touched. The one error is want of memory, which changes nothing.
    pub fn replace(&mut self, number: u64, lease: L, ports: (P, P)) -> Result<(), Memory>
        requires there { IsSome (get nat_cmp self.old.leases number) }
        requires port { HasEntry P.cmp self.old.ports ports.0 number }
        ensures ok { OnOk result
            (Replaces P.cmp self.old self.new number lease ports.0 ports.1) }
        ensures err { OnErr result (Stays self.old self.new) }
    {
        let (from, to) = ports;
        insert_other(&mut self.ports, from, to, number)?;
        remove_other(&mut self.ports, from, to);
        self.leases.overwrite(number, lease);
        Ok(())
    }

    /// Takes out the lease with a number, and the number under this key and port.
    pub fn forget(&mut self, number: u64, key: K, port: P)
        ensures { Forgets K.cmp P.cmp self.old self.new number key port }
    {
        self.leases.remove(&number);
        remove_from(&mut self.keys, key);
        remove_from(&mut self.ports, port);
    }

    /// How many leases have an expiry of at most `m`. It looks at the blocks of slots in which one
    /// has alone.
    pub fn ended(&self, m: Moment) -> usize
        ensures { result ≡ count_by (has_ended L.expiry m) (values self.now.leases) }
    {
        self.leases.ended(m.get())
    }

    /// The number of one of the leases that expire first, where their expiry is at most `m`. It
    /// looks at one block of slots.
    pub fn one_ended(&self, m: Moment) -> Option<u64>
        ensures { IsOneEnded L.expiry m self.now.leases result }
    {
        self.leases.one_ended(m.get())
    }
}
