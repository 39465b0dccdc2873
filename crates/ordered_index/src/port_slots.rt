//! The slots of leases by the external ports at which they begin.

ghost use Rattle.std.specs.Prelude.{◌≡◌, ◌<◌, ◌%◌, IfOk, length, slice_set};
ghost use Rattle.std.specs.BTreeMap.{get, is_at};
ghost use Rattle.ordered_index.specs.MapSteps.{HasEntry, IsBlankMap, Inserts, Moves, Removes};
ghost use Rattle.ordered_index.specs.Orders.{port_at, port_cmp};
ghost use Rattle.ordered_index.specs.PortSlots.{port_of, slot_of, with_port, without_port, IsLastSlot};
ghost use Rattle.ordered_index.specs.declared.marks.TheConstants.{MOST_MARKS};
ghost use Rattle.ordered_index.specs.declared.slots.TheConstants.{MOST_SLOTS};

use crate::keys::{Port, port_at};
use crate::marks::{MOST_MARKS, MarkSet};
use crate::slots::MOST_SLOTS;
use ghost_notes::{GhostList, Naming};
use pcp_base::Protocol;
use std::alloc::{AllocError, Global};
use std::collections::BTreeMap;
use std::marker::{Brand, Model};

/// A protocol and an external port of it.
pub type External = (Protocol, u16);

/// The numbers of leases by protocol and external port, of which the slots alone are kept.
///
/// It is seen as an ordered map from protocol numbers and ports to the numbers. A look-up is a look
/// at a bit and one into an array; after it was made it takes no memory.
#[derive(Drop)]
pub struct PortSlots {
    /// The slot of the number under each port that has one.
    slots: Vec<u16>,
    /// Which ports have one.
    marks: MarkSet,
    /// The map, for contracts alone.
    map: GhostList<BTreeMap<Port, u64>>,
}

impl Model for PortSlots {
    ghost use Rattle.std.specs.Prelude.{ℕ};
    ghost use Rattle.std.specs.BTreeMap.{BTreeMap as Map};
    ghost use Rattle.ordered_index.specs.PortSlots.{ArePortSlots, noted, port_map_code};

    ghost Value = { Map (ℕ × ℕ) ℕ };

    ghost coded = { port_map_code };

    ghost view = { λ p. noted p.map };

    ghost invariant = { λ p. ArePortSlots p.slots.items p.marks (noted p.map) };
}

/// So many slots.
fn blank_slots(alloc: Global, count: usize) -> Result<Vec<u16>, AllocError>
    ensures { IfOk result (λ slots. length slots.items ≡ count) }
{
    vec![in alloc; 0; count]
}

/// The place of a port.
#[inline]
fn place_at(port: External) -> usize
    ensures within { result < MOST_MARKS }
    ensures port { port_at port.0 port.1 ≡ port_of result }
{
    let (protocol, port) = port;
    match protocol {
        Protocol::Tcp => usize::from(port),
        Protocol::Udp => 65_536 + usize::from(port),
    }
}

/// Whether both ports are one.
fn is_same(first: External, second: External) -> bool
    ensures { result ≡ is_at (port_cmp (port_at first.0 first.1)) (port_at second.0 second.1) }
{
    place_at(first) == place_at(second)
}

/// Writes the slot that a number names.
fn write_slot(slots: &mut Vec<u16>, place: usize, number: u64)
    requires { place < length slots.old.items }
    ensures { slots.new.items ≡ slice_set slots.old.items place (number % MOST_SLOTS) }
{
    slots[place] = (number % MOST_SLOTS) as u16;
}

/// Notes a number under a port.
fn note_as<B: Naming<BTreeMap<Port, u64>>>(
    map: &mut GhostList<BTreeMap<Port, u64>>,
    port: External,
    number: u64,
)
    requires { B.items ≡ with_port (port_at port.0 port.1) number map.old }
    ensures { map.new ≡ with_port (port_at port.0 port.1) number map.old }
{
    map.set::<B>(1);
}

/// Notes that there is no number under a port.
fn forget_as<B: Naming<BTreeMap<Port, u64>>>(
    map: &mut GhostList<BTreeMap<Port, u64>>,
    port: External,
)
    requires { B.items ≡ without_port (port_at port.0 port.1) map.old }
    ensures { map.new ≡ without_port (port_at port.0 port.1) map.old }
{
    map.set::<B>(1);
}

impl PortSlots {
    /// No port has a number. The one error is want of memory.
    pub fn new(alloc: Global) -> Result<PortSlots, AllocError>
        ensures { IfOk result (λ it. IsBlankMap port_cmp it) }
    {
        let slots = blank_slots(alloc, MOST_MARKS)?;
        let marks = MarkSet::new(alloc)?;
        let map = GhostList::none(alloc)?;
        Ok(PortSlots { slots, marks, map })
    }

    /// Forgets all numbers.
    pub fn clear(&mut self)
        ensures { IsBlankMap port_cmp self.new }
    {
        self.marks.clear();
        self.map.clear();
    }

    /// The slot that the number under a port names.
    #[inline]
    pub fn slot_at(&self, port: External) -> Option<usize>
        ensures { result ≡ slot_of (get port_cmp self.now (port_at port.0 port.1)) }
    {
        let place = place_at(port);
        if !self.marks.contains(place) {
            return None;
        }
        Some(usize::from(self.slots[place]))
    }

    /// The slot that the number under the last port up to this one names.
    pub fn last_slot(&self, port: External) -> Option<usize>
        ensures { IsLastSlot self.now (port_at port.0 port.1) result }
    {
        let Some(place) = self.marks.last_up_to(place_at(port)) else {
            return None;
        };
        Some(usize::from(self.slots[place]))
    }

    /// Puts a number in under a port.
    pub fn insert(&mut self, port: External, number: u64)
        ensures { Inserts port_cmp self.old self.new (port_at port.0 port.1) number }
    {
        let place = place_at(port);
        write_slot(&mut self.slots, place, number);
        self.marks.set(place, true);
        note_as::<Brand>(&mut self.map, port, number);
    }

    /// Takes out the number under a port.
    pub fn remove(&mut self, port: External)
        ensures { Removes port_cmp self.old self.new (port_at port.0 port.1) }
    {
        self.marks.set(place_at(port), false);
        forget_as::<Brand>(&mut self.map, port);
    }

    /// Puts the number that stands under one port under another, which may be the same.
    pub fn shift(&mut self, from: External, to: External, number: u64)
        requires { HasEntry port_cmp self.old (port_at from.0 from.1) number }
        ensures { Moves port_cmp self.old self.new
            (port_at from.0 from.1) (port_at to.0 to.1) number }
    {
        if is_same(from, to) {
            return;
        }
        self.insert(to, number);
        self.remove(from);
    }
}
