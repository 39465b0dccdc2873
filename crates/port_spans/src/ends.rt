//! Ends by runs of ports that were given theirs together.

ghost use Rattle.std.specs.Prelude.{◌≡◌, ◌<◌, ◌+◌};
ghost use Rattle.port_spans.specs.Along as the;

use crate::spans::Spans;
use pcp_base::{End, Endpoint, Protocol};

/// Runs of ports, each with the end of its first port. Behind it both ports of an end go along. The
/// place of a port is its [`spot`].
pub type Ends = Spans<End>;

/// Where a port stands among those of both protocols: those of TCP come first.
pub fn spot(protocol: Protocol, port: u16) -> u32
    ensures value { result ≡ the.spot protocol port }
    ensures bound { result < 131072 }
{
    match protocol {
        Protocol::Tcp => u32::from(port),
        Protocol::Udp => 65_536 + u32::from(port),
    }
}

/// Where an end's port stands.
pub fn spot_of(last: &End) -> u32
    ensures value { result ≡ the.spot_of last.now }
    ensures bound { result < 131072 }
{
    spot(last.endpoint.protocol, last.external)
}

/// The end of the port `i` behind that of an end; its internal port is as far behind.
pub fn end_along(i: u32, first: &End) -> End
    requires external { first.now.external + i < 65536 }
    requires internal { first.now.endpoint.port + i < 65536 }
    ensures { result ≡ the.end_along i first.now }
{
    End {
        endpoint: Endpoint {
            address: first.endpoint.address,
            protocol: first.endpoint.protocol,
            port: first.endpoint.port + i as u16,
        },
        external: first.external + i as u16,
        end: first.end,
    }
}
