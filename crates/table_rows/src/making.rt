//! Endpoints, moments and leases, and what a test says of a table of rows.
ghost use Rattle.std.specs.Prelude.{◌≡◌};

use pcp_base::{Address, Endpoint, Filters, MapLease, Memory, Moment, Nonce, PeerLease, Protocol};
use std::process::Abort;

/// An endpoint of the host 10.0.0.H.
pub(crate) fn at(protocol: Protocol, host: u8, port: u16) -> Endpoint
    ensures { result.port ≡ port }
{
    Endpoint {
        address: Address::v4(10, 0, 0, host),
        protocol,
        port,
    }
}

/// The remote peer 198.51.100.N.
pub(crate) fn remote(number: u8) -> Address {
    Address::v4(198, 51, 100, number)
}

pub(crate) fn moment(seconds: u32) -> Moment
    ensures { result ≡ seconds }
{
    Moment::of(u64::from(seconds)).unwrap()
}

/// A MAP lease without filters, of `count` ports from this endpoint on.
pub(crate) fn map_of(
    first: &Endpoint,
    count: u16,
    external: u16,
    granted: Moment,
    expiry: u64,
) -> MapLease {
    MapLease {
        address: first.address,
        protocol: first.protocol,
        internal: first.port,
        count,
        external,
        nonce: Nonce([7; 12]),
        granted,
        expiry,
        filters: Filters::none(),
    }
}

/// A PEER lease of this endpoint, to a remote peer and its port.
pub(crate) fn peer_of(
    endpoint: &Endpoint,
    external: u16,
    remote: (u8, u16),
    granted: Moment,
    expiry: u64,
) -> PeerLease {
    PeerLease {
        endpoint: *endpoint,
        external,
        remote: self::remote(remote.0),
        remote_port: remote.1,
        nonce: Nonce([7; 12]),
        granted,
        expiry,
    }
}

/// Ends the test where a row came out otherwise, by its number, or memory was wanting.
pub(crate) fn all_are_so(rt: &impl Abort, other: Result<Option<usize>, Memory>) {
    assert!(rt; other == Ok(None), "{other:?}");
}
