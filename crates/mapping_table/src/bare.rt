//! Leases without their filters: most leases have none, and room for them takes three quarters of a
//! lease's octets.

ghost use Rattle.std.specs.Prelude.{◌≡◌, ◌+◌, ◌-◌, ◌<◌, ◌==◌, nat_lt};
ghost use Rattle.pcp_base.specs.Owners.{owns};
ghost use Rattle.pcp_base.specs.Tables.{covers, first_endpoint, is_map_of};
ghost use Rattle.mapping_table.specs.MapLists.{runs_meet, meet_inside, meet_outside, overlaps};
ghost use Rattle.ordered_index.specs.Orders.{port_at};
ghost use Rattle.mapping_table.specs.Kept.{bare, with_filters, place_of_lease, port_of_lease, sets_of, IsLastBefore, IsLastPlace, IsLastPort};

use ordered_index::{Expires, External, Place, place_of};
use pcp_base::{Address, Endpoint, Filters, MapLease, Moment, Nonce, Protocol};
use std::marker::Model;

/// What a lease has beside its filters. It is seen as a lease that has none.
#[derive(Clone, Copy)]
pub(crate) struct BareLease {
    address: Address,
    protocol: Protocol,
    internal: u16,
    count: u16,
    external: u16,
    nonce: Nonce,
    granted: Moment,
    expiry: u64,
}

impl Model for BareLease {
    ghost use Rattle.std.specs.Prelude.{[]};
    ghost use Rattle.pcp_base.specs.declared.leases.MapLease.{MapLease};

    ghost Value = { MapLease };

    ghost view = { λ l. record {
      address = l.address;
      protocol = l.protocol;
      internal = l.internal;
      count = l.count;
      external = l.external;
      nonce = l.nonce;
      granted = l.granted;
      expiry = l.expiry;
      filters = [];
    } };

    ghost inverse = { λ l. record {
      address = l.address;
      protocol = l.protocol;
      internal = l.internal;
      count = l.count;
      external = l.external;
      nonce = l.nonce;
      granted = l.granted;
      expiry = l.expiry;
    } };
}

impl Expires for BareLease {
    ghost expiry = { λ lease. lease.expiry };

    #[inline]
    fn expires_at(&self) -> u64 {
        self.expiry
    }
}

/// The last of `count` ports from the first one on, where that is at most 65535.
fn last_of(first: u16, count: u16) -> u16
    ensures { IsLastBefore (first + count) result }
{
    let end = u32::from(first) + u32::from(count);
    if end > u32::from(u16::MAX) {
        return u16::MAX;
    }
    (end as u16).saturating_sub(1)
}

/// Whether the `n` ports from `a` on and the `k` ports from `b` on have one in common.
fn runs_meet(a: u16, n: u16, b: u16, k: u16) -> bool
    ensures { result ≡ runs_meet a n b k }
{
    u32::from(a) < u32::from(b) + u32::from(k) && u32::from(b) < u32::from(a) + u32::from(n)
}

impl BareLease {
    /// The lease without its filters.
    pub(crate) fn of(lease: &MapLease) -> BareLease
        ensures { result ≡ bare lease.now }
    {
        BareLease {
            address: lease.address,
            protocol: lease.protocol,
            internal: lease.internal,
            count: lease.count,
            external: lease.external,
            nonce: lease.nonce,
            granted: lease.granted,
            expiry: lease.expiry,
        }
    }

    /// The lease with these filters.
    pub(crate) fn with(&self, filters: Filters) -> MapLease
        ensures { result ≡ with_filters filters self.now }
    {
        MapLease {
            address: self.address,
            protocol: self.protocol,
            internal: self.internal,
            count: self.count,
            external: self.external,
            nonce: self.nonce,
            granted: self.granted,
            expiry: self.expiry,
            filters,
        }
    }

    /// The place of the first endpoint.
    pub(crate) fn place(&self) -> Place
        ensures { result ≡ place_of_lease self.now }
    {
        place_of(&Endpoint {
            address: self.address,
            protocol: self.protocol,
            port: self.internal,
        })
    }

    /// The first external port.
    pub(crate) fn port(&self) -> External
        ensures { port_at result.0 result.1 ≡ port_of_lease self.now }
    {
        (self.protocol, self.external)
    }

    /// The first endpoint, which is the key.
    pub(crate) fn first_endpoint(&self) -> Endpoint
        ensures { result ≡ first_endpoint self.now }
    {
        Endpoint {
            address: self.address,
            protocol: self.protocol,
            port: self.internal,
        }
    }

    pub(crate) fn protocol(&self) -> Protocol
        ensures { result ≡ self.now.protocol }
    {
        self.protocol
    }

    /// The first internal port.
    pub(crate) fn internal(&self) -> u16
        ensures { result ≡ self.now.internal }
    {
        self.internal
    }

    pub(crate) fn external(&self) -> u16
        ensures { result ≡ self.now.external }
    {
        self.external
    }

    /// The place of the last endpoint.
    pub(crate) fn last_place(&self) -> Place
        ensures { IsLastPlace self.now result }
    {
        place_of(&Endpoint {
            address: self.address,
            protocol: self.protocol,
            port: last_of(self.internal, self.count),
        })
    }

    /// The last external port.
    pub(crate) fn last_port(&self) -> External
        ensures { IsLastPort self.now (port_at result.0 result.1) }
    {
        (self.protocol, last_of(self.external, self.count))
    }

    /// The port before the first external one.
    pub(crate) fn port_before(&self) -> External
        requires { 0 < self.now.external }
        ensures { port_at result.0 result.1 ≡ port_at self.now.protocol (self.now.external - 1) }
    {
        (self.protocol, self.external - 1)
    }

    /// One for a set of ports, and none for a single port.
    pub(crate) fn sets(&self) -> u32
        ensures { result ≡ sets_of self.now }
    {
        u32::from(self.count > 1)
    }

    /// Whether it has a single port.
    pub(crate) fn is_single(&self) -> bool
        ensures { result ≡ (self.now.count == 1) }
    {
        self.count == 1
    }

    /// Whether its key is that of the other.
    pub(crate) fn has_key_of(&self, other: &BareLease) -> bool
        ensures { result ≡ is_map_of (first_endpoint other.now) self.now }
    {
        self.first_endpoint() == other.first_endpoint()
    }

    /// Whether both cover an endpoint.
    fn meets_inside(&self, other: &BareLease) -> bool
        ensures { result ≡ meet_inside self.now other.now }
    {
        self.address == other.address
            && self.protocol == other.protocol
            && runs_meet(self.internal, self.count, other.internal, other.count)
    }

    /// Whether both own an external port.
    fn meets_outside(&self, other: &BareLease) -> bool
        ensures { result ≡ meet_outside self.now other.now }
    {
        self.protocol == other.protocol
            && runs_meet(self.external, self.count, other.external, other.count)
    }

    /// Whether the other has another key and isn't separate from it.
    pub(crate) fn overlaps(&self, other: &BareLease) -> bool
        ensures { result ≡ overlaps self.now other.now }
    {
        !other.has_key_of(self) && (self.meets_inside(other) || self.meets_outside(other))
    }

    /// Whether the endpoint's port is one of the internal ports.
    pub(crate) fn covers(&self, endpoint: &Endpoint) -> bool
        ensures { result ≡ covers self.now endpoint.now }
    {
        self.address == endpoint.address
            && self.protocol == endpoint.protocol
            && self.internal <= endpoint.port
            && u32::from(endpoint.port) < u32::from(self.internal) + u32::from(self.count)
    }

    /// Whether it owns the external port.
    pub(crate) fn owns(&self, protocol: Protocol, port: u16) -> bool
        ensures { result ≡ owns protocol port self.now }
    {
        self.protocol == protocol
            && self.external <= port
            && u32::from(port) < u32::from(self.external) + u32::from(self.count)
    }

    /// Whether it is live at `m`.
    pub(crate) fn is_live(&self, m: Moment) -> bool
        ensures { result ≡ nat_lt m self.now.expiry }
    {
        m.get() < self.expiry
    }
}
