//! The places of endpoints, in an order that takes few steps to tell.
ghost use Rattle.std.specs.Prelude.{◌≡◌, ◌↔◌, ◌==◌, IsTrue, refl};
ghost use Rattle.std.specs.Ordering.{eq_by_cmp, as_partial_cmp};
ghost use Rattle.std.specs.Cmp.{partial_equiv_from_equiv, partial_order_from_total, eq_by_cmp_equiv};
ghost use Rattle.pcp_base.specs.Protocols.{protocol_number};
ghost use Rattle.ordered_index.specs.Orders.{place_of, place_cmp, place_total};
ghost use Rattle.ordered_index.specs.Sieves.{bucket_of};

use crate::keys::{Port, port_at};
use crate::sieves::BUCKETS;
use octet_order::compare_octets;
use pcp_base::Endpoint;
use std::cmp::Ordering;
use std::marker::Model;

/// The octets of an internal address, a protocol number and an internal port.
#[derive(Clone, Copy)]
pub struct Place {
    address: [u8; 16],
    port: Port,
}

impl Model for Place {
    ghost use Rattle.std.specs.Prelude.{ℕ, List};

    ghost Value = { List ℕ × (ℕ × ℕ) };

    ghost view = { λ p. (p.address, p.port) };

    ghost inverse = { λ v. record { address = v.0; port = v.1 } };
}

impl PartialEq for Place {
    ghost eq = { eq_by_cmp place_cmp };

    ghost laws = { partial_equiv_from_equiv (eq_by_cmp_equiv place_total) };

    fn eq(&self, other: &Place) -> bool {
        self.cmp(other).is_eq()
    }
}

impl Eq for Place {
    ghost laws = { eq_by_cmp_equiv place_total };
}

impl PartialOrd for Place {
    ghost partial_cmp = { as_partial_cmp place_cmp };

    ghost laws = { partial_order_from_total place_total };

    fn partial_cmp(&self, other: &Place) -> Option<Ordering> {
        Some(self.cmp(other))
    }
}

impl Ord for Place {
    ghost cmp = { place_cmp };

    ghost total = { place_total };

    ghost matches_partial_cmp = { λ x y. refl };

    ghost matches_eq = { λ x y. refl };

    fn cmp(&self, other: &Place) -> Ordering {
        let first = compare_octets(&self.address, &other.address);
        if first.is_ne() {
            return first;
        }
        self.port.cmp(&other.port)
    }
}

/// An odd number near 2^128 over the golden ratio: its products spread hosts over the buckets.
pub(crate) const MIXER: u128 = 0x9e37_79b9_7f4a_7c15_f39c_c060_5ced_c835;

impl Place {
    /// The bucket, below 2^17, that it falls on. Ports in a row fall on buckets in a row, so that what
    /// is kept of a host's stays near.
    #[inline]
    pub(crate) fn bucket(&self) -> usize
        ensures { result ≡ bucket_of self.now }
    {
        let (protocol, port) = self.port;
        let protocol = u128::from(protocol) * (1 << 64);
        let number = u128::from_be_bytes(self.address).wrapping_add(protocol);
        let first = (number.wrapping_mul(MIXER) >> 111) as usize;
        (first + usize::from(port)) % BUCKETS
    }

    /// Whether the other falls on the same bucket.
    #[inline]
    pub fn falls_with(&self, other: &Place) -> bool
        ensures { result ≡ (bucket_of self.now == bucket_of other.now) }
    {
        self.bucket() == other.bucket()
    }
}

pub fn place_of(endpoint: &Endpoint) -> Place
    ensures { result ≡ place_of endpoint.now }
{
    Place {
        address: endpoint.address.0,
        port: port_at(endpoint.protocol, endpoint.port),
    }
}

/// Whether the place has the address and the protocol of the endpoint.
pub fn is_beside(place: Place, endpoint: &Endpoint) -> bool
    ensures { IsTrue result ↔ ((place.0 ≡ endpoint.now.address.0)
        × (place.1.0 ≡ protocol_number endpoint.now.protocol)) }
{
    let (protocol, _) = place.port;
    place.address == endpoint.address.0 && protocol == endpoint.protocol.number()
}

/// The port of a place.
pub fn port_in(place: Place) -> u16
    ensures { result ≡ place.1.1 }
{
    let (_, port) = place.port;
    port
}
