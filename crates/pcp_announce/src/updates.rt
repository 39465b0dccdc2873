//! Updates of leases whose external address changed (RFC 6887, section 14.2).
ghost use Rattle.std.specs.Prelude.{◌≡◌, ◌<◌, ◌++◌, OnOk, OnErr};
ghost use Rattle.pcp_announce.specs.Updates.{left_of, map_body, map_update, peer_body, peer_update};

use pcp_base::{Address, MapLease, Memory, Moment, PeerLease, PortSet, epoch};
use pcp_codec::{Body, Common};
use pcp_options::{Item, write_success};
use std::alloc::Global;

/// Appends the update of a MAP lease that is live at `m`: a success with the lease's nonce and ports, this
/// external address, the lifetime that the lease still has, and the epoch of `m` and `base`; where the
/// lease has more than one port, with PORT_SET. After `Memory` nothing was appended.
pub fn write_map_update(
    alloc: Global,
    out: &mut Vec<u8>,
    lease: &MapLease,
    address: &Address,
    m: Moment,
    base: Moment,
) -> Result<(), Memory>
    requires { m < lease.now.expiry }
    ensures ok { OnOk result (out.new.items
        ≡ out.old.items ++ map_update lease.now address.now m base) }
    ensures err { OnErr result (out.new.items ≡ out.old.items) }
{
    let body = map_body(lease, address);
    let lifetime = left_of(lease.expiry, m);
    let epoch = epoch(m, base);
    if lease.count > 1 {
        let set = PortSet {
            size: lease.count,
            first: lease.internal,
            parity: false,
        };
        write_success(
            alloc,
            out,
            lifetime,
            epoch,
            &body,
            Some(set),
            &[Item::PortSet(set)],
        )
    } else {
        write_success(alloc, out, lifetime, epoch, &body, None, &[])
    }
}

/// Appends the update of a PEER lease that is live at `m`: a success with the lease's nonce, ports and
/// remote, this external address, the lifetime that the lease still has, and the epoch of `m` and `base`.
/// After `Memory` nothing was appended.
pub fn write_peer_update(
    alloc: Global,
    out: &mut Vec<u8>,
    lease: &PeerLease,
    address: &Address,
    m: Moment,
    base: Moment,
) -> Result<(), Memory>
    requires { m < lease.now.expiry }
    ensures ok { OnOk result (out.new.items
        ≡ out.old.items ++ peer_update lease.now address.now m base) }
    ensures err { OnErr result (out.new.items ≡ out.old.items) }
{
    let body = peer_body(lease, address);
    let lifetime = left_of(lease.expiry, m);
    write_success(alloc, out, lifetime, epoch(m, base), &body, None, &[])
}

/// The seconds that a lease still has, as they are told.
fn left_of(expiry: u64, m: Moment) -> u32
    ensures { result ≡ left_of expiry m }
{
    expiry.saturating_sub(m.get()).min(u64::from(u32::MAX)) as u32
}

fn map_body(lease: &MapLease, address: &Address) -> Body
    ensures { result ≡ map_body lease.now address.now }
{
    Body::Map(Common {
        nonce: lease.nonce,
        protocol: lease.protocol.number(),
        internal: lease.internal,
        external: lease.external,
        address: *address,
    })
}

fn peer_body(lease: &PeerLease, address: &Address) -> Body
    ensures { result ≡ peer_body lease.now address.now }
{
    Body::Peer {
        common: Common {
            nonce: lease.nonce,
            protocol: lease.endpoint.protocol.number(),
            internal: lease.endpoint.port,
            external: lease.external,
            address: *address,
        },
        remote_port: lease.remote_port,
        remote: lease.remote,
    }
}
