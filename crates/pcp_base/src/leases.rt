//! Leases, what they map and who owns a port (RFC 6887, section 11; PEER leases: section 12).

use crate::addresses::{Address, Nonce};
use crate::lists::Listed;
use crate::moments::Moment;
use std::marker::Model;

/// A transport protocol that has ports.
#[derive(Clone, Copy, Debug, PartialEq, Eq, PartialOrd, Ord, Hash)]
pub enum Protocol {
    /// Protocol number 6.
    Tcp,
    /// Protocol number 17.
    Udp,
}

impl Protocol {
    ghost use Rattle.std.specs.Prelude.{◌≡◌};
    ghost use Rattle.pcp_base.specs.Protocols.{protocol_number, protocol_of};

    /// The number of the protocol in a message.
    pub fn number(self) -> u8
        ensures { result ≡ protocol_number self }
    {
        match self {
            Protocol::Tcp => 6,
            Protocol::Udp => 17,
        }
    }

    /// The protocol that has this number; none where neither has it.
    pub fn of(number: u8) -> Option<Protocol>
        ensures { result ≡ protocol_of number }
    {
        match number {
            6 => Some(Protocol::Tcp),
            17 => Some(Protocol::Udp),
            _ => None,
        }
    }
}

/// A port of an internal host.
#[derive(Clone, Copy, Debug, PartialEq, Eq, PartialOrd, Ord, Hash)]
pub struct Endpoint {
    pub address: Address,
    pub protocol: Protocol,
    /// 1 to 65535.
    pub port: u16,
}

/// Remote peers that may send to a mapping (RFC 6887, section 13.3).
#[derive(Clone, Copy, Debug, PartialEq, Eq, Hash)]
pub struct Filter {
    /// How many leading bits of `remote` count, 0 to 128; in a request 0 empties the list.
    pub prefix: u8,
    /// The remote port, 0 for every one.
    pub port: u16,
    pub remote: Address,
}

impl Filter {
    /// What stands in the places of [`Filters`] that hold no filter.
    const BLANK: Filter = Filter {
        prefix: 0,
        port: 0,
        remote: Address([0; 16]),
    };
}

/// Filters of a request, in its order.
pub type FilterList = Listed<Filter>;

/// The filters of a lease: at most [`MOST_FILTERS`], in the order added. They take no memory of their own.
#[derive(Clone, Copy, Debug, PartialEq, Eq, Hash)]
pub struct Filters {
    slots: [Filter; MOST_FILTERS],
    count: usize,
}

impl Model for Filters {
    ghost use Rattle.std.specs.Prelude.{List, ◌≡◌, take};
    ghost use Rattle.pcp_base.specs.declared.leases.Filter.{Filter};

    ghost Value = { List Filter };

    ghost use Rattle.pcp_base.specs.FilterSlots.{IsPadded, slots_of, slots_of-view};

    ghost view = { λ f. take f.count f.slots };

    ghost invariant = { IsPadded };

    ghost inverse = { slots_of };

    ghost inverse_ok = { slots_of-view };
}

impl Filters {
    ghost use Rattle.std.specs.Bool.{OnTrue, OnFalse};
    ghost use Rattle.std.specs.Prelude.{◌≡◌, ◌<◌, ◌≤◌, ◌↔◌, [], ◌∷◌, ◌++◌, length, IsTrue};
    ghost use Rattle.pcp_base.specs.declared.leases.TheConstants.{MOST_FILTERS};

    /// No filter.
    pub fn none() -> Filters
        ensures { result ≡ [] }
    {
        Filters {
            slots: [Filter::BLANK; MOST_FILTERS],
            count: 0,
        }
    }

    /// The filters, in the order added.
    pub fn items(&self) -> &[Filter]
        ensures value { result.now ≡ self.now }
        ensures few { length self.now ≤ MOST_FILTERS }
    {
        &self.slots[..self.count]
    }

    /// Adds a filter at the end; false, and nothing changes, where there are [`MOST_FILTERS`].
    pub fn push(&mut self, filter: Filter) -> bool
        ensures room { IsTrue result ↔ (length self.old < MOST_FILTERS) }
        ensures added { OnTrue result (self.new ≡ self.old ++ filter ∷ []) }
        ensures full { OnFalse result (self.new ≡ self.old) }
    {
        if self.count == MOST_FILTERS {
            return false;
        }
        self.slots[self.count] = filter;
        self.count += 1;
        true
    }
}

/// A mapping that a MAP request made (RFC 6887, section 11). It covers `count` internal ports from
/// `internal` on, and owns `count` external ports from `external` on, one to one.
#[derive(Clone, Copy, Debug, PartialEq, Eq, Hash)]
pub struct MapLease {
    /// The internal address.
    pub address: Address,
    pub protocol: Protocol,
    /// The first internal port, at least 1, and with `count` at most 65536.
    pub internal: u16,
    /// How many ports, 1 to [`MOST_PORTS`].
    pub count: u16,
    /// The first external port, at least 1, and with `count` at most 65536.
    pub external: u16,
    /// The mapping nonce, which a renewal or a deletion must repeat.
    pub nonce: Nonce,
    /// When it was granted first.
    pub granted: Moment,
    /// It is live at each moment below this one, in seconds, below 2^41.
    pub expiry: u64,
    pub filters: Filters,
}

impl MapLease {
    ghost use Rattle.std.specs.Prelude.{◌≡◌, nat_lt};
    ghost use Rattle.pcp_base.specs.Tables.{first_endpoint, covers};

    /// The first internal endpoint, which is the key of the lease.
    pub fn first_endpoint(&self) -> Endpoint
        ensures { result ≡ first_endpoint self.now }
    {
        Endpoint {
            address: self.address,
            protocol: self.protocol,
            port: self.internal,
        }
    }

    /// Whether the endpoint's port is one of the internal ports of the lease.
    pub fn covers(&self, endpoint: &Endpoint) -> bool
        ensures { result ≡ covers self.now endpoint.now }
    {
        self.address == endpoint.address
            && self.protocol == endpoint.protocol
            && self.internal <= endpoint.port
            && u32::from(endpoint.port) < u32::from(self.internal) + u32::from(self.count)
    }

    /// Whether the lease is live at `m`.
    pub fn is_live(&self, m: Moment) -> bool
        ensures { result ≡ nat_lt m self.now.expiry }
    {
        m.get() < self.expiry
    }
}

/// A mapping for one remote peer that a PEER request made (RFC 6887, section 12).
#[derive(Clone, Copy, Debug, PartialEq, Eq, Hash)]
pub struct PeerLease {
    pub endpoint: Endpoint,
    /// The external port, at least 1.
    pub external: u16,
    pub remote: Address,
    /// The remote port, at least 1.
    pub remote_port: u16,
    /// The mapping nonce, which a renewal or a deletion must repeat.
    pub nonce: Nonce,
    /// When it was granted first.
    pub granted: Moment,
    /// It is live at each moment below this one, in seconds, below 2^41.
    pub expiry: u64,
}

impl PeerLease {
    ghost use Rattle.std.specs.Prelude.{◌≡◌, nat_lt};
    ghost use Rattle.pcp_base.specs.Tables.{is_peer_of};

    /// Whether this is the key of the lease: its endpoint, remote address and remote port.
    pub fn is_of(&self, endpoint: &Endpoint, remote: &Address, remote_port: u16) -> bool
        ensures { result ≡ is_peer_of endpoint.now remote.now remote_port self.now }
    {
        self.endpoint == *endpoint && self.remote == *remote && self.remote_port == remote_port
    }

    /// Whether the lease is live at `m`.
    pub fn is_live(&self, m: Moment) -> bool
        ensures { result ≡ nat_lt m self.now.expiry }
    {
        m.get() < self.expiry
    }
}

/// An external port and the endpoint that owns it.
#[derive(Clone, Copy, Debug, PartialEq, Eq, PartialOrd, Ord, Hash)]
pub struct Owner {
    pub protocol: Protocol,
    /// At least 1.
    pub external: u16,
    pub endpoint: Endpoint,
}

/// How long a port rests after its last lease, in seconds.
pub const REST_SECONDS: u64 = 120;

/// How many leases an external address may have, MAP and PEER together.
pub const MOST_LEASES: usize = 32_768;

/// How many PEER leases may name one endpoint.
pub const MOST_PEERS: usize = 16;

/// How many ports a MAP lease may have.
pub const MOST_PORTS: u16 = 4_096;

/// How many filters a lease may have.
pub const MOST_FILTERS: usize = 8;

/// The last lease that owned an external port was one of this endpoint, and ended then.
#[derive(Clone, Copy, Debug, PartialEq, Eq, Hash)]
pub struct End {
    pub endpoint: Endpoint,
    /// At least 1.
    pub external: u16,
    /// In seconds.
    pub end: u64,
}

/// Owned ports.
pub type OwnerList = Listed<Owner>;
