//! Leases as an index keeps them: without their nonces, and without when they were granted.
ghost use Rattle.std.specs.Prelude.{◌≡◌, ◌<◌};
ghost use Rattle.std.specs.Arc.{arc_value};
ghost use Rattle.lane_index.specs.Ports.{slot_at};

use crate::links::PORT_SLOTS;
use filter_rules::allows;
use pcp_base::{Address, Endpoint, Filters, MapLease, Moment, PeerLease, Protocol};
use std::alloc::Global;
use std::marker::Model;
use std::sync::Arc;

/// A MAP lease.
#[derive(Drop)]
pub(crate) struct MapCell {
    pub(crate) address: Address,
    pub(crate) protocol: Protocol,
    pub(crate) internal: u16,
    pub(crate) count: u16,
    pub(crate) external: u16,
    pub(crate) expiry: u64,
    /// None where everyone may send.
    pub(crate) filters: Option<Arc<Filters>>,
}

impl Model for MapCell {
    ghost use Rattle.std.specs.Arc.{arc_value};
    ghost use Rattle.std.specs.Prelude.{unwrap_or, []};
    ghost use Rattle.std.specs.Option.{option_map};
    ghost use Rattle.pcp_base.specs.declared.leases.MapLease.{MapLease};
    ghost use Rattle.lane_index.specs.Nonces.{no_nonce};

    ghost Value = { MapLease };

    ghost view = { λ c. record {
      address = c.address;
      protocol = c.protocol;
      internal = c.internal;
      count = c.count;
      external = c.external;
      nonce = no_nonce;
      granted = 0;
      expiry = c.expiry;
      filters = unwrap_or (option_map arc_value c.filters) [];
    } };
}

/// A PEER lease.
#[derive(Drop)]
pub(crate) struct PeerCell {
    pub(crate) endpoint: Endpoint,
    pub(crate) external: u16,
    pub(crate) remote: Address,
    pub(crate) remote_port: u16,
    pub(crate) expiry: u64,
}

impl Model for PeerCell {
    ghost use Rattle.pcp_base.specs.declared.leases.PeerLease.{PeerLease};
    ghost use Rattle.lane_index.specs.Nonces.{no_nonce};

    ghost Value = { PeerLease };

    ghost view = { λ c. record {
      endpoint = c.endpoint;
      external = c.external;
      remote = c.remote;
      remote_port = c.remote_port;
      nonce = no_nonce;
      granted = 0;
      expiry = c.expiry;
    } };
}

/// A lease of an index.
#[derive(Drop)]
pub(crate) enum Cell {
    Mapping(MapCell),
    Peering(PeerCell),
}

/// Where the slots of a protocol begin.
fn first_slot(protocol: Protocol) -> usize
    ensures { result ≡ slot_at protocol 0 }
{
    match protocol {
        Protocol::Tcp => 0,
        Protocol::Udp => 65_536,
    }
}

/// The number of the slot of an external port.
pub(crate) fn slot_of(protocol: Protocol, port: u16) -> usize
    ensures slot { result ≡ slot_at protocol port }
    ensures inside { result < PORT_SLOTS }
{
    first_slot(protocol) + usize::from(port)
}

impl MapCell {
    ghost use Rattle.std.specs.Arc.{arc_value};
    ghost use Rattle.std.specs.Prelude.{unwrap_or, []};
    ghost use Rattle.std.specs.Option.{option_map};
    ghost use Rattle.lane_index.specs.Slots.{map_kept, map_slot};

    /// What is kept of a lease, with its filters, which stand apart.
    pub(crate) fn of(lease: &MapLease, filters: Option<Arc<Filters>>) -> MapCell
        requires { unwrap_or (option_map arc_value filters) [] ≡ lease.now.filters }
        ensures { result ≡ map_kept lease.now }
    {
        MapCell {
            address: lease.address,
            protocol: lease.protocol,
            internal: lease.internal,
            count: lease.count,
            external: lease.external,
            expiry: lease.expiry,
            filters,
        }
    }

    /// The slot of its first external port.
    pub(crate) fn slot(&self) -> usize
        ensures slot { result ≡ map_slot self.now }
        ensures inside { result < PORT_SLOTS }
    {
        slot_of(self.protocol, self.external)
    }

    /// How many external ports it has.
    pub(crate) fn count(&self) -> usize
        ensures count { result ≡ self.now.count }
        ensures bound { result < 65536 }
    {
        usize::from(self.count)
    }
}

impl PeerCell {
    ghost use Rattle.lane_index.specs.Slots.{peer_kept, peer_slot};

    /// What is kept of a lease.
    pub(crate) fn of(lease: &PeerLease) -> PeerCell
        ensures { result ≡ peer_kept lease.now }
    {
        PeerCell {
            endpoint: lease.endpoint,
            external: lease.external,
            remote: lease.remote,
            remote_port: lease.remote_port,
            expiry: lease.expiry,
        }
    }

    /// The slot of its external port.
    pub(crate) fn slot(&self) -> usize
        ensures slot { result ≡ peer_slot self.now }
        ensures inside { result < PORT_SLOTS }
    {
        slot_of(self.endpoint.protocol, self.external)
    }
}
