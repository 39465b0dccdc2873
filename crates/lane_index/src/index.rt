//! The leases of an external address, by their external ports. Only `new` takes memory.
ghost use Rattle.std.specs.Prelude.{◌≡◌, ℕ, List, ◌+◌, ◌-◌, ◌<◌, ◌≤◌, ◌∷◌, ◌++◌, [], true, false, length, map, filter, take, nat_lt, slice_get, slice_index, vec_len, vec_capacity, IfOk, IfSome, IfNone, unwrap_or, if◌then◌else◌};
ghost use Rattle.std.specs.Arc.{arc_value};
ghost use Rattle.std.specs.Option.{option_map};
ghost use Rattle.std.specs.List.{AllByRecursion};
ghost use Rattle.pcp_base.proofs.Members.{IsIn};
ghost use Rattle.lane_index.specs.declared.links.TheConstants.{PORT_SLOTS};
ghost use Rattle.lane_index.specs.Ports.{slot_at};
ghost use Rattle.lane_index.specs.Slots.{is_live, stands_in, HasSlots};
ghost use Rattle.lane_index.specs.Links.{AreChained, AreLinks};
ghost use Rattle.lane_index.specs.Openings.{lets_in, IsOpen, IsClosedTo, NoneOpens, EachLaterWins};
ghost use Rattle.lane_index.specs.Applying.{ended, with_room, ChangeHasSlots, filters_in, fitted};

use crate::cells::{Cell, MapCell, PeerCell, slot_of};
use crate::chains::Chains;
use crate::keys::LeaseKey;
use crate::links::{CELLS, Links};
use crate::senders::Sender;
use pcp_base::{Address, Change, Endpoint, Filters, MapLease, Memory, Moment, PeerLease, Record};
use std::alloc::Global;
use std::marker::Model;
use std::sync::Arc;

/// Cells with leases, in the order in which they were taken, and the slots that lead to them.
#[derive(Drop)]
pub(crate) struct Index {
    cells: Vec<Cell>,
    links: Links,
}

impl Model for Index {
    ghost use Rattle.std.specs.Prelude.{List, ◌≤◌, vec_capacity};
    ghost use Rattle.lane_index.specs.declared.cells.Cell.{Cell};
    ghost use Rattle.lane_index.specs.declared.links.TheConstants.{CELLS};
    ghost use Rattle.lane_index.specs.Links.{IsIndex};

    ghost Value = { List Cell };

    ghost view = { λ x. x.cells.items };

    ghost invariant = { λ x. IsIndex x.cells.items x.links × (CELLS ≤ vec_capacity x.cells) };
}

/// The cell told by this number, where it is live at `m` and lets the remote peer in.
fn open_at(cells: &[Cell], number: u16, sender: &Sender, m: Moment) -> Option<Endpoint>
    requires { number ≤ length cells.now }
    ensures some { IfSome result (λ e. IsOpen m sender.now cells.now e) }
    ensures none { IfNone result (IsClosedTo m sender.now number cells.now) }
{
    if number == 0 {
        return None;
    }
    let cell = &cells[usize::from(number) - 1];
    if !cell.is_live(m) {
        return None;
    }
    if !cell.lets_in(sender) {
        return None;
    }
    Some(cell.behind(sender.port))
}

/// The last PEER lease in the slot of the port that is live at `m` and lets the remote peer in.
fn open_from(cells: &[Cell], peers: &Chains, sender: &Sender, m: Moment) -> Option<Endpoint>
    requires { AreChained PORT_SLOTS stands_in cells.now peers.now }
    ensures some { IfSome result (λ e. IsOpen m sender.now cells.now e) }
    ensures none { IfNone result (
        NoneOpens m sender.now
        (stands_in (slot_at sender.now.protocol sender.now.port)) cells.now) }
{
    let mut at = peers.last(slot_of(sender.protocol, sender.port));
    while at > 0 {
        if let Some(endpoint) = open_at(cells, at, sender, m) {
            return Some(endpoint);
        }
        at = peers.before(at);
    }
    None
}

impl Index {
    /// An index with no lease, and room for all.
    pub(crate) fn new(alloc: Global) -> Result<Index, Memory>
        ensures { IfOk result (λ index. index ≡ []) }
    {
        Ok(Index {
            cells: Vec::with_capacity(alloc, CELLS)?,
            links: Links::new(alloc)?,
        })
    }

    /// Forgets all leases.
    pub(crate) fn clear(&mut self)
        ensures { self.new ≡ [] }
    {
        self.cells.clear();
        self.links.clear();
    }

    /// Ends the lease with this key.
    fn end(&mut self, key: &LeaseKey)
        ensures { self.new ≡ map (ended key.now) self.old }
    {
        self.links.end(self.cells.as_mut_slice(), key);
    }

    /// Where no cell is free, frees those of leases that aren't live at `m`.
    pub(crate) fn make_room(&mut self, m: Moment)
        ensures { self.new ≡ with_room m self.old }
    {
        if self.cells.len() == CELLS {
            self.cells.retain(|cell| cell.is_live(m));
            link_all(&mut self.links, self.cells.as_slice());
        }
    }

    /// One more lease.
    pub(crate) fn add(&mut self, cell: Cell)
        requires room { length self.old < CELLS }
        requires placed { HasSlots cell }
        ensures { self.new ≡ self.old ++ cell ∷ [] }
    {
        self.links.add(&cell);
        self.cells.push_reserved(cell);
    }

    /// Whether a cell is free.
    fn has_room(&self) -> bool
        ensures { result ≡ nat_lt (length self.now) CELLS }
    {
        self.cells.len() < CELLS
    }

    /// One more MAP lease, with its filters, where there is a cell.
    fn fit_map(&mut self, lease: &MapLease, filters: Option<Arc<Filters>>, m: Moment)
        requires placed { ChangeHasSlots (Change.Map lease.now) }
        requires filters { unwrap_or (option_map arc_value filters) [] ≡ lease.now.filters }
        ensures { self.new
            ≡ fitted (record { moment = m; change = Change.Map lease.now }) self.old }
    {
        self.end(&LeaseKey::OfMap(lease.first_endpoint()));
        self.make_room(m);
        if self.has_room() {
            self.add(Cell::Mapping(MapCell::of(lease, filters)));
        }
    }

    /// One more PEER lease, where there is a cell.
    fn fit_peer(&mut self, lease: &PeerLease, m: Moment)
        ensures { self.new
            ≡ fitted (record { moment = m; change = Change.Peer lease.now }) self.old }
    {
        self.end(&LeaseKey::OfPeer(lease.endpoint, lease.remote, lease.remote_port));
        self.make_room(m);
        if self.has_room() {
            self.add(Cell::Peering(PeerCell::of(lease)));
        }
    }

    /// Takes in a record, whose lease is left out where there is no cell; `filters` are those of
    /// its lease.
    pub(crate) fn fit(&mut self, kept: &Record, filters: Option<Arc<Filters>>)
        requires placed { ChangeHasSlots kept.now.change }
        requires filters { unwrap_or (option_map arc_value filters) []
            ≡ filters_in kept.now.change }
        ensures { self.new ≡ fitted kept.now self.old }
    {
        match &kept.change {
            Change::Start => self.clear(),
            Change::Lose => self.clear(),
            Change::Map(lease) => self.fit_map(lease, filters, kept.moment),
            Change::Peer(lease) => self.fit_peer(lease, kept.moment),
            Change::DropMap(endpoint) => self.end(&LeaseKey::OfMap(*endpoint)),
            Change::DropPeer(endpoint, remote, port) => {
                self.end(&LeaseKey::OfPeer(*endpoint, *remote, *port));
            }
            Change::Mark => {}
            Change::Rest(_endpoint, _port, _end) => {}
            Change::Renumber(_address) => {}
        }
    }

    /// Whose is what the remote peer sends to the external port at `m`.
    pub(crate) fn look(&self, sender: &Sender, m: Moment) -> Option<Endpoint>
        ensures some { IfSome result (λ e. IsOpen m sender.now self.now e) }
        ensures none { IfNone result (EachLaterWins m self.now →
            NoneOpens m sender.now (λ c. true) self.now) }
    {
        let cells = self.cells.as_slice();
        let last = self.links.last_map(slot_of(sender.protocol, sender.port));
        if let Some(endpoint) = open_at(cells, last, sender, m) {
            return Some(endpoint);
        }
        open_from(cells, self.links.peers(), sender, m)
    }
}

/// Links that lead to these cells.
fn link_all(links: &mut Links, cells: &[Cell])
    requires few { length cells.now ≤ CELLS }
    requires placed { AllByRecursion HasSlots cells.now }
    ensures { AreLinks cells.now links.new }
{
    links.clear();
    for cell in cells {
        links.add(cell);
    }
}
