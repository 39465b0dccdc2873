//! How leases are ended: along the chain of their key, and out of their chains.
ghost use Rattle.std.specs.Prelude.{◌≡◌, ℕ, List, ◌-◌, ◌<◌, ◌≤◌, false, length, map, set, slice_index};
ghost use Rattle.lane_index.specs.declared.keys.TheConstants.{BUCKETS};
ghost use Rattle.lane_index.specs.declared.links.TheConstants.{PORT_SLOTS};
ghost use Rattle.lane_index.specs.Applying.{ended};
ghost use Rattle.lane_index.specs.Chains.{HasPassing, IsEnding};
ghost use Rattle.lane_index.specs.Keys.{bucket_of, is_keyed};
ghost use Rattle.lane_index.specs.Links.{AreChained};
ghost use Rattle.lane_index.specs.Slots.{stands_in};

use crate::cells::Cell;
use crate::chains::Chains;
use crate::keys::LeaseKey;

/// Ends the leases with this key, along the chain of its bucket. Those that are ended leave their
/// chains.
pub(crate) fn end_all(cells: &mut [Cell], keys: &mut Chains, peers: &mut Chains, key: &LeaseKey)
    requires keyed { AreChained BUCKETS is_keyed cells.old keys.old }
    requires standing { AreChained PORT_SLOTS stands_in cells.old peers.old }
    ensures ended { cells.new ≡ map (ended key.now) cells.old }
    ensures keyed { AreChained BUCKETS is_keyed cells.new keys.new }
    ensures standing { AreChained PORT_SLOTS stands_in cells.new peers.new }
{
    let mut newer = 0;
    let mut at = keys.last(key.bucket());
    while at > 0 {
        let older = keys.before(at);
        newer = end_one(cells, keys, peers, key, newer, at);
        at = older;
    }
}

/// Ends the lease of the cell that is told, where it has the key, and takes it out of its chains. In
/// that of the key `newer` tells it before. What tells the next one of this chain then.
fn end_one(
    cells: &mut [Cell],
    keys: &mut Chains,
    peers: &mut Chains,
    key: &LeaseKey,
    newer: u16,
    at: u16,
) -> u16
    requires some { 0 < at }
    requires passing { HasPassing (is_keyed (bucket_of key.now)) cells.old (at - 1) }
    requires newer { newer ≤ length cells.old }
    requires keyed { AreChained BUCKETS is_keyed cells.old keys.old }
    requires standing { AreChained PORT_SLOTS stands_in cells.old peers.old }
    ensures ending { (first : List Cell) → IsEnding key.now first cells.old keys.old newer at →
        IsEnding key.now first cells.new keys.new result (slice_index keys.old.older (at - 1)) }
    ensures standing { AreChained PORT_SLOTS stands_in cells.new peers.new }
{
    let place = usize::from(at) - 1;
    if !cells[place].has_key(key) {
        return at;
    }
    leave_slot(cells, peers, at);
    cells[place].end();
    let older = keys.before(at);
    keys.relink(key.bucket(), newer, older);
    newer
}

/// Takes the cell that is told out of the chain of its slot, where it stands in one.
fn leave_slot(cells: &[Cell], peers: &mut Chains, number: u16)
    requires some { 0 < number }
    requires inside { number ≤ length cells.now }
    requires standing { AreChained PORT_SLOTS stands_in cells.now peers.old }
    ensures { (y : Cell) → ((slot : ℕ) → stands_in slot y ≡ false) →
        AreChained PORT_SLOTS stands_in (set cells.now (number - 1) y) peers.new }
{
    let place = usize::from(number) - 1;
    if let Some(slot) = cells[place].standing() {
        take_out(cells, peers, slot, number);
    }
}

/// Takes the cell that is told out of the chain of this slot.
fn take_out(cells: &[Cell], peers: &mut Chains, slot: usize, number: u16)
    requires some { 0 < number }
    requires there { HasPassing (stands_in slot) cells.now (number - 1) }
    requires inside { slot < PORT_SLOTS }
    requires standing { AreChained PORT_SLOTS stands_in cells.now peers.old }
    ensures { (y : Cell) → ((s : ℕ) → stands_in s y ≡ false) →
        AreChained PORT_SLOTS stands_in (set cells.now (number - 1) y) peers.new }
{
    let mut newer = 0;
    let mut at = peers.last(slot);
    while at != number {
        newer = at;
        at = peers.before(at);
    }
    let older = peers.before(number);
    peers.relink(slot, newer, older);
}
