//! Keys of leases, and the buckets that they fall into.
ghost use Rattle.std.specs.Prelude.{◌≡◌, ◌<◌};
ghost use Rattle.lane_index.specs.declared.keys.TheConstants.{BUCKETS};
ghost use Rattle.lane_index.specs.Keys.{bucket_at};

use pcp_base::{Address, Endpoint};

/// How many buckets there are. It is a prime, so that each octet of an address counts.
pub(crate) const BUCKETS: usize = 32_749;

/// By what a lease is replaced or deleted.
#[derive(Clone, Copy)]
pub(crate) enum LeaseKey {
    /// The first internal endpoint of a MAP lease.
    OfMap(Endpoint),
    /// The endpoint, the remote address and the remote port of a PEER lease.
    OfPeer(Endpoint, Address, u16),
}

/// The bucket of an address and a port.
fn bucket_at(address: &Address, port: u16) -> usize
    ensures exact { result ≡ bucket_at address.now port }
    ensures inside { result < BUCKETS }
{
    let number = (u128::from_be_bytes(address.0) % 32_749) as usize;
    (number + 20_239 * usize::from(port)) % BUCKETS
}

impl LeaseKey {
    ghost use Rattle.lane_index.specs.Keys.{bucket_of};

    /// The bucket of leases with this key.
    pub(crate) fn bucket(&self) -> usize
        ensures exact { result ≡ bucket_of self.now }
        ensures inside { result < BUCKETS }
    {
        match self {
            LeaseKey::OfMap(endpoint) => bucket_at(&endpoint.address, endpoint.port),
            LeaseKey::OfPeer(endpoint, remote, port) => {
                let inner = bucket_at(&endpoint.address, endpoint.port);
                (inner + 12_503 * bucket_at(remote, *port)) % BUCKETS
            }
        }
    }
}
