//! What leads to the cells of an index: the slots of external ports, and the keys of leases.
ghost use Rattle.std.specs.Prelude.{◌≡◌, ℕ, List, ◌+◌, ◌<◌, ◌≤◌, ◌&&◌, ◌∷◌, ◌++◌, [], nat_le, nat_lt, length, map, vec_len, IfOk, slice_index, if◌then◌else◌};
ghost use Rattle.lane_index.specs.Applying.{ended};
ghost use Rattle.lane_index.specs.declared.keys.TheConstants.{BUCKETS};
ghost use Rattle.lane_index.specs.Keys.{is_keyed};
ghost use Rattle.lane_index.specs.Links.{AreChained, AreLinks, AreTaken};
ghost use Rattle.lane_index.specs.Slots.{HasSlots, stands_in};

use crate::cells::Cell;
use crate::chains::Chains;
use crate::ending::end_all;
use crate::keys::{BUCKETS, LeaseKey};
use pcp_base::Memory;
use std::alloc::Global;
use std::marker::Model;

/// How many slots there are: one for each protocol and port.
pub(crate) const PORT_SLOTS: usize = 131_072;

/// How many leases an index has room for. It is more than may be live at once, so that the cells of
/// others are seldom to be freed.
pub(crate) const CELLS: usize = 36_864;

/// What leads to the cells. A cell is told by its place and 1 more, none by 0.
#[derive(Drop)]
pub(crate) struct Links {
    /// For each slot the last MAP lease that took it.
    maps: Vec<u16>,
    /// For each bucket of keys the leases that weren't ended.
    keys: Chains,
    /// For each slot the PEER leases that stand in it and weren't ended.
    peers: Chains,
}

impl Model for Links {
    ghost use Rattle.std.specs.Prelude.{◌≡◌, length, vec_len};
    ghost use Rattle.lane_index.specs.declared.keys.TheConstants.{BUCKETS};
    ghost use Rattle.lane_index.specs.declared.links.TheConstants.{PORT_SLOTS};
    ghost use Rattle.lane_index.specs.Links.{LinkLists};

    ghost Value = { LinkLists };

    ghost view = { λ l. record { maps = l.maps.items; keys = l.keys; peers = l.peers } };

    ghost invariant = { λ l. (vec_len l.maps ≡ PORT_SLOTS)
        × (length l.keys.heads ≡ BUCKETS) × (length l.peers.heads ≡ PORT_SLOTS) };
}

/// Writes `to` into the `count` slots from `from` on.
pub(crate) fn set_run(slots: &mut [u16], from: usize, count: usize, to: u16)
    requires { from + count ≤ length slots.old }
    ensures long { length slots.new ≡ length slots.old }
    ensures run { (k : ℕ) → slice_index slots.new k ≡
        (if nat_le from k && nat_lt k (from + count) then to else slice_index slots.old k) }
{
    for k in from..from + count {
        slots[k] = to;
    }
}

/// So many slots that tell of no lease.
pub(crate) fn zeros(alloc: Global, count: usize) -> Result<Vec<u16>, Memory>
    ensures long { IfOk result (λ slots. vec_len slots ≡ count) }
    ensures zero { IfOk result (λ slots. (k : ℕ) → slice_index slots.items k ≡ 0) }
{
    Ok(Vec::from_elem(alloc, 0, count)?)
}

impl Links {
    /// Links that tell of no lease.
    pub(crate) fn new(alloc: Global) -> Result<Links, Memory>
        ensures { IfOk result (AreLinks []) }
    {
        Ok(Links {
            maps: zeros(alloc, PORT_SLOTS)?,
            keys: Chains::new(alloc, BUCKETS)?,
            peers: Chains::new(alloc, PORT_SLOTS)?,
        })
    }

    /// Forgets all leases.
    pub(crate) fn clear(&mut self)
        ensures { AreLinks [] self.new }
    {
        set_run(self.maps.as_mut_slice(), 0, PORT_SLOTS, 0);
        self.keys.clear();
        self.peers.clear();
    }

    /// The last MAP lease that took a slot.
    pub(crate) fn last_map(&self, slot: usize) -> u16
        requires { slot < PORT_SLOTS }
        ensures { result ≡ slice_index self.now.maps slot }
    {
        self.maps[slot]
    }

    /// The PEER leases that stand in slots.
    pub(crate) fn peers(&self) -> &Chains
        ensures { result.now ≡ self.now.peers }
    {
        &self.peers
    }

    /// Tells of one more cell.
    pub(crate) fn add(&mut self, cell: &Cell)
        requires keys { length self.old.keys.older < CELLS }
        requires peers { length self.old.peers.older < CELLS }
        requires placed { HasSlots cell.now }
        ensures { (cells : List Cell) → AreLinks cells self.old →
            AreLinks (cells ++ cell.now ∷ []) self.new }
    {
        let number = self.keys.len() + 1;
        tell_map(self.maps.as_mut_slice(), cell, number as u16);
        add_key(&mut self.keys, cell);
        add_peer(&mut self.peers, cell);
    }

    /// Ends the leases with this key.
    pub(crate) fn end(&mut self, cells: &mut [Cell], key: &LeaseKey)
        requires { AreLinks cells.old self.old }
        ensures ended { cells.new ≡ map (ended key.now) cells.old }
        ensures links { AreLinks cells.new self.new }
    {
        end_all(cells, &mut self.keys, &mut self.peers, key);
    }
}

/// The slots of a MAP lease tell of it.
fn tell_map(maps: &mut [u16], cell: &Cell, number: u16)
    requires wide { length maps.old ≡ PORT_SLOTS }
    requires placed { HasSlots cell.now }
    ensures wide { length maps.new ≡ PORT_SLOTS }
    ensures taken { (cells : List Cell) → number ≡ length cells + 1 → AreTaken cells maps.old →
        AreTaken (cells ++ cell.now ∷ []) maps.new }
{
    match cell {
        Cell::Mapping(map) => set_run(maps, map.slot(), map.count(), number),
        Cell::Peering(_peer) => {}
    }
}

/// One more cell, in the chain of its key.
fn add_key(keys: &mut Chains, cell: &Cell)
    requires room { length keys.old.older < CELLS }
    requires wide { length keys.old.heads ≡ BUCKETS }
    ensures wide { length keys.new.heads ≡ BUCKETS }
    ensures chained { (cells : List Cell) → AreChained BUCKETS is_keyed cells keys.old →
        AreChained BUCKETS is_keyed (cells ++ cell.now ∷ []) keys.new }
{
    if cell.is_ended() {
        keys.skip();
    } else {
        keys.join(cell.key().bucket());
    }
}

/// One more cell, in the chain of its slot where it is of a PEER lease.
fn add_peer(peers: &mut Chains, cell: &Cell)
    requires room { length peers.old.older < CELLS }
    requires wide { length peers.old.heads ≡ PORT_SLOTS }
    ensures wide { length peers.new.heads ≡ PORT_SLOTS }
    ensures chained { (cells : List Cell) → AreChained PORT_SLOTS stands_in cells peers.old →
        AreChained PORT_SLOTS stands_in (cells ++ cell.now ∷ []) peers.new }
{
    match cell.standing() {
        None => peers.skip(),
        Some(slot) => peers.join(slot),
    }
}
