//! What a cell says of its lease: whether it is live, whom it lets in, and whose it is.
ghost use Rattle.std.specs.Prelude.{◌≡◌, ℕ, ◌+◌, ◌-◌, ◌<◌, ◌&&◌, ◌==◌, min, nat_le, nat_lt, true, false, IfSome, IfNone, if◌then◌else◌};
ghost use Rattle.pcp_base.specs.Tables.{first_endpoint, is_map_of, is_peer_of};
ghost use Rattle.filter_rules.specs.Filters.{allows};
ghost use Rattle.lane_index.specs.Ports.{slot_at};
ghost use Rattle.lane_index.specs.Slots.{is_ended, is_live, map_slot, stands_in, takes};
ghost use Rattle.lane_index.specs.Openings.{lets_in, behind};
ghost use Rattle.lane_index.specs.Applying.{finished};
ghost use Rattle.lane_index.specs.Keys.{key_of, has_key};
ghost use Rattle.lane_index.specs.declared.links.TheConstants.{PORT_SLOTS};

use crate::cells::{Cell, MapCell, PeerCell, slot_of};
use crate::keys::LeaseKey;
use crate::senders::Sender;
use filter_rules::allows;
use pcp_base::{Address, Endpoint, Moment};

impl MapCell {
    /// Whether it is live at `m`.
    fn is_live(&self, m: Moment) -> bool
        ensures { result ≡ nat_lt m self.now.expiry }
    {
        m.get() < self.expiry
    }

    /// Whether its filters let the remote peer in.
    fn allows(&self, sender: &Sender) -> bool
        ensures { result ≡ allows self.now.filters sender.now.remote sender.now.remote_port }
    {
        match &self.filters {
            None => true,
            Some(filters) => allows(filters, &sender.remote, sender.remote_port),
        }
    }

    /// Whether it owns the port.
    fn owns(&self, slot: usize) -> bool
        ensures { result ≡ takes slot (Cell.Mapping self.now) }
    {
        self.slot() <= slot && slot < self.slot() + self.count()
    }

    /// The endpoint behind one of its ports.
    fn behind(&self, port: u16) -> Endpoint
        ensures { result ≡ behind port (Cell.Mapping self.now) }
    {
        Endpoint {
            address: self.address,
            protocol: self.protocol,
            port: self
                .internal
                .saturating_add(port.saturating_sub(self.external)),
        }
    }

    /// Whether this is its key: its first internal endpoint.
    fn is_of(&self, key: &Endpoint) -> bool
        ensures { result ≡ is_map_of key.now self.now }
    {
        self.address == key.address && self.protocol == key.protocol && self.internal == key.port
    }

    /// Its first internal endpoint.
    fn key(&self) -> Endpoint
        ensures { result ≡ first_endpoint self.now }
    {
        Endpoint {
            address: self.address,
            protocol: self.protocol,
            port: self.internal,
        }
    }
}

impl PeerCell {
    /// Whether it is live at `m`.
    fn is_live(&self, m: Moment) -> bool
        ensures { result ≡ nat_lt m self.now.expiry }
    {
        m.get() < self.expiry
    }

    /// Whether it owns the port for this remote peer.
    fn lets_in(&self, sender: &Sender) -> bool
        ensures { result ≡ lets_in sender.now (Cell.Peering self.now) }
    {
        self.endpoint.protocol == sender.protocol
            && self.external == sender.port
            && self.remote == sender.remote
            && self.remote_port == sender.remote_port
    }

    /// The endpoint behind its port.
    fn behind(&self) -> Endpoint
        ensures { result ≡ self.now.endpoint }
    {
        self.endpoint
    }

    /// Whether this is its key: its endpoint, remote address and remote port.
    fn is_of(&self, endpoint: &Endpoint, remote: &Address, remote_port: u16) -> bool
        ensures { result ≡ is_peer_of endpoint.now remote.now remote_port self.now }
    {
        self.endpoint == *endpoint && self.remote == *remote && self.remote_port == remote_port
    }

    /// The slot that it stands in, unless it was ended.
    fn standing(&self) -> Option<usize>
        ensures some { IfSome result (λ slot. (stands_in slot (Cell.Peering self.now) ≡ true)
            × (slot < PORT_SLOTS)) }
        ensures none { IfNone result ((slot : ℕ) → stands_in slot (Cell.Peering self.now) ≡ false) }
    {
        if self.expiry == 0 {
            return None;
        }
        Some(self.slot())
    }
}

impl Cell {
    /// Whether its lease is live at `m`.
    pub(crate) fn is_live(&self, m: Moment) -> bool
        ensures { result ≡ is_live m self.now }
    {
        match self {
            Cell::Mapping(map) => map.is_live(m),
            Cell::Peering(peer) => peer.is_live(m),
        }
    }

    /// Whether its lease owns the port and lets the remote peer in.
    pub(crate) fn lets_in(&self, sender: &Sender) -> bool
        ensures { result ≡ lets_in sender.now self.now }
    {
        match self {
            Cell::Mapping(map) => {
                map.owns(slot_of(sender.protocol, sender.port)) && map.allows(sender)
            }
            Cell::Peering(peer) => peer.lets_in(sender),
        }
    }

    /// The endpoint behind the port.
    pub(crate) fn behind(&self, port: u16) -> Endpoint
        ensures { result ≡ behind port self.now }
    {
        match self {
            Cell::Mapping(map) => map.behind(port),
            Cell::Peering(peer) => peer.behind(),
        }
    }

    /// The key of its lease.
    pub(crate) fn key(&self) -> LeaseKey
        ensures { result ≡ key_of self.now }
    {
        match self {
            Cell::Mapping(map) => LeaseKey::OfMap(map.key()),
            Cell::Peering(peer) => LeaseKey::OfPeer(peer.endpoint, peer.remote, peer.remote_port),
        }
    }

    /// Whether its lease was ended.
    pub(crate) fn is_ended(&self) -> bool
        ensures { result ≡ is_ended self.now }
    {
        match self {
            Cell::Mapping(map) => map.expiry == 0,
            Cell::Peering(peer) => peer.expiry == 0,
        }
    }

    /// Whether its lease has this key.
    pub(crate) fn has_key(&self, key: &LeaseKey) -> bool
        ensures { result ≡ has_key key.now self.now }
    {
        match key {
            LeaseKey::OfMap(endpoint) => self.is_map_of(endpoint),
            LeaseKey::OfPeer(endpoint, remote, port) => self.is_peer_of(endpoint, remote, *port),
        }
    }

    fn is_map_of(&self, key: &Endpoint) -> bool
        ensures { result ≡ has_key (LeaseKey.OfMap key.now) self.now }
    {
        match self {
            Cell::Mapping(map) => map.is_of(key),
            Cell::Peering(_peer) => false,
        }
    }

    fn is_peer_of(&self, endpoint: &Endpoint, remote: &Address, remote_port: u16) -> bool
        ensures { result ≡ has_key (LeaseKey.OfPeer endpoint.now remote.now remote_port) self.now }
    {
        match self {
            Cell::Mapping(_map) => false,
            Cell::Peering(peer) => peer.is_of(endpoint, remote, remote_port),
        }
    }

    /// The slot that its PEER lease stands in. None where it is another, or was ended.
    pub(crate) fn standing(&self) -> Option<usize>
        ensures some { IfSome result (λ slot. (stands_in slot self.now ≡ true)
            × (slot < PORT_SLOTS)) }
        ensures none { IfNone result ((slot : ℕ) → stands_in slot self.now ≡ false) }
    {
        match self {
            Cell::Mapping(_map) => None,
            Cell::Peering(peer) => peer.standing(),
        }
    }

    /// Its lease isn't live any more.
    pub(crate) fn end(&mut self)
        ensures { self.new ≡ finished self.old }
    {
        match self {
            Cell::Mapping(map) => map.expiry = 0,
            Cell::Peering(peer) => peer.expiry = 0,
        }
    }
}
