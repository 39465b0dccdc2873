//! What leases are looked up by.
ghost use Rattle.std.specs.Prelude.{◌≡◌, IfSome, IfNone, refl};
ghost use Rattle.std.specs.Ordering.{eq_by_cmp, as_partial_cmp};
ghost use Rattle.std.specs.Cmp.{partial_equiv_from_equiv, partial_order_from_total, eq_by_cmp_equiv};
ghost use Rattle.pcp_base.specs.Protocols.{protocol_number};
ghost use Rattle.peer_table.specs.Kept.{key_at, opening_at, key_cmp, key_total, opening_cmp, opening_total, key_of_lease, opening_of_lease, IsBound, IsOpeningBound};

use octet_order::compare_octets;
use pcp_base::{Address, Endpoint, PeerLease, Protocol};
use std::cmp::Ordering;
use std::marker::Model;

/// An endpoint and a remote, in the order of their fields.
#[derive(Clone, Copy)]
pub(crate) struct Key {
    /// The octets of the internal address.
    address: [u8; 16],
    /// The protocol number.
    protocol: u8,
    /// The internal port.
    port: u16,
    /// 1, or 0 before all remotes and 2 behind them.
    side: u8,
    /// The octets of the remote address.
    pub(crate) remote: [u8; 16],
    pub(crate) remote_port: u16,
}

impl Model for Key {
    ghost use Rattle.std.specs.Prelude.{ℕ, List};

    ghost Value = { List ℕ × ℕ × ℕ × ℕ × List ℕ × ℕ };

    ghost view = { λ k. (k.address, k.protocol, k.port, k.side, k.remote, k.remote_port) };

    ghost inverse = { λ v. record {
      address = v.0;
      protocol = v.1;
      port = v.2;
      side = v.3;
      remote = v.4;
      remote_port = v.5;
    } };
}

impl PartialEq for Key {
    ghost eq = { eq_by_cmp key_cmp };

    ghost laws = { partial_equiv_from_equiv (eq_by_cmp_equiv key_total) };

    fn eq(&self, other: &Key) -> bool {
        self.cmp(other).is_eq()
    }
}

impl Eq for Key {
    ghost laws = { eq_by_cmp_equiv key_total };
}

impl PartialOrd for Key {
    ghost partial_cmp = { as_partial_cmp key_cmp };

    ghost laws = { partial_order_from_total key_total };

    fn partial_cmp(&self, other: &Key) -> Option<Ordering> {
        Some(self.cmp(other))
    }
}

impl Ord for Key {
    ghost cmp = { key_cmp };

    ghost total = { key_total };

    ghost matches_partial_cmp = { λ x y. refl };

    ghost matches_eq = { λ x y. refl };

    fn cmp(&self, other: &Key) -> Ordering {
        compare_octets(&self.address, &other.address)
            .then(self.protocol.cmp(&other.protocol))
            .then(self.port.cmp(&other.port))
            .then(self.side.cmp(&other.side))
            .then(compare_octets(&self.remote, &other.remote))
            .then(self.remote_port.cmp(&other.remote_port))
    }
}

/// An external port and a remote that may send there, in the order of their fields.
#[derive(Clone, Copy)]
pub(crate) struct Opening {
    /// The protocol number.
    protocol: u8,
    /// The external port.
    port: u16,
    /// 1, or 0 before all remotes and 2 behind them.
    side: u8,
    /// The octets of the remote address.
    remote: [u8; 16],
    remote_port: u16,
}

impl Model for Opening {
    ghost use Rattle.std.specs.Prelude.{ℕ, List};

    ghost Value = { ℕ × ℕ × ℕ × List ℕ × ℕ };

    ghost view = { λ o. (o.protocol, o.port, o.side, o.remote, o.remote_port) };

    ghost inverse = { λ v. record {
      protocol = v.0;
      port = v.1;
      side = v.2;
      remote = v.3;
      remote_port = v.4;
    } };
}

impl PartialEq for Opening {
    ghost eq = { eq_by_cmp opening_cmp };

    ghost laws = { partial_equiv_from_equiv (eq_by_cmp_equiv opening_total) };

    fn eq(&self, other: &Opening) -> bool {
        self.cmp(other).is_eq()
    }
}

impl Eq for Opening {
    ghost laws = { eq_by_cmp_equiv opening_total };
}

impl PartialOrd for Opening {
    ghost partial_cmp = { as_partial_cmp opening_cmp };

    ghost laws = { partial_order_from_total opening_total };

    fn partial_cmp(&self, other: &Opening) -> Option<Ordering> {
        Some(self.cmp(other))
    }
}

impl Ord for Opening {
    ghost cmp = { opening_cmp };

    ghost total = { opening_total };

    ghost matches_partial_cmp = { λ x y. refl };

    ghost matches_eq = { λ x y. refl };

    fn cmp(&self, other: &Opening) -> Ordering {
        self.protocol
            .cmp(&other.protocol)
            .then(self.port.cmp(&other.port))
            .then(self.side.cmp(&other.side))
            .then(compare_octets(&self.remote, &other.remote))
            .then(self.remote_port.cmp(&other.remote_port))
    }
}

pub(crate) fn key_at(endpoint: &Endpoint, remote: &Address, port: u16) -> Key
    ensures { result ≡ key_at endpoint.now remote.now port }
{
    Key {
        address: endpoint.address.0,
        protocol: endpoint.protocol.number(),
        port: endpoint.port,
        side: 1,
        remote: remote.0,
        remote_port: port,
    }
}

/// A key of the endpoint on this side of those of its leases: 0 before them, 2 behind them.
pub(crate) fn bound_at(endpoint: &Endpoint, side: u8) -> Key
    ensures { IsBound endpoint.now side result }
{
    Key {
        address: endpoint.address.0,
        protocol: endpoint.protocol.number(),
        port: endpoint.port,
        side,
        remote: [0; 16],
        remote_port: 0,
    }
}

/// The port of the key, where it has the address and the protocol of the endpoint.
pub(crate) fn port_beside(key: Key, endpoint: &Endpoint) -> Option<u16>
    ensures some { IfSome result (λ port. (key.0 ≡ endpoint.now.address.0)
        × (key.1 ≡ protocol_number endpoint.now.protocol) × (port ≡ key.2)) }
    ensures none { IfNone result ((key.0 ≡ endpoint.now.address.0)
        × (key.1 ≡ protocol_number endpoint.now.protocol) → ⊥) }
{
    if key.address == endpoint.address.0 && key.protocol == endpoint.protocol.number() {
        Some(key.port)
    } else {
        None
    }
}

pub(crate) fn opening_at(
    protocol: Protocol,
    port: u16,
    remote: &Address,
    remote_port: u16,
) -> Opening
    ensures { result ≡ opening_at protocol port remote.now remote_port }
{
    Opening {
        protocol: protocol.number(),
        port,
        side: 1,
        remote: remote.0,
        remote_port,
    }
}

/// An opening of the external port on this side of those of its leases: 0 before them, 2 behind
/// them.
pub(crate) fn opening_bound(protocol: Protocol, port: u16, side: u8) -> Opening
    ensures { IsOpeningBound protocol port side result }
{
    Opening {
        protocol: protocol.number(),
        port,
        side,
        remote: [0; 16],
        remote_port: 0,
    }
}

/// The external port of the opening, where it is one of the protocol.
pub(crate) fn port_of(opening: Opening, protocol: Protocol) -> Option<u16>
    ensures some { IfSome result (λ port.
        (opening.0 ≡ protocol_number protocol) × (port ≡ opening.1)) }
    ensures none { IfNone result (opening.0 ≡ protocol_number protocol → ⊥) }
{
    if opening.protocol == protocol.number() {
        Some(opening.port)
    } else {
        None
    }
}

/// The key of the lease.
pub(crate) fn key_of(lease: &PeerLease) -> Key
    ensures { result ≡ key_of_lease lease.now }
{
    key_at(&lease.endpoint, &lease.remote, lease.remote_port)
}

/// What the lease opens.
pub(crate) fn opening_of(lease: &PeerLease) -> Opening
    ensures { result ≡ opening_of_lease lease.now }
{
    opening_at(
        lease.endpoint.protocol,
        lease.external,
        &lease.remote,
        lease.remote_port,
    )
}
