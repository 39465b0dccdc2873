//! Records of hosts, as rows of tables tell them.
use crate::making::{at, map_of, moment, peer_of, remote};
use pcp_base::Protocol::Udp;
use pcp_base::{Address, Change, Filter, Filters, MapLease, Protocol, Record};

/// MAP leases of the host 10.0.0.H: protocol, host, internal port, how many ports, external port,
/// moment granted, expiry.
#[derive(Clone, Copy)]
pub(crate) struct Ports(
    pub(crate) Protocol,
    pub(crate) u8,
    pub(crate) u16,
    pub(crate) u16,
    pub(crate) u16,
    pub(crate) u32,
    pub(crate) u32,
);

/// A change of the host 10.0.0.H. Remote peers have the port 443.
#[derive(Clone, Copy)]
pub(crate) enum Act {
    Start,
    Lose,
    Mark,
    /// 192.0.2.N
    Renumber(u8),
    Map(Ports),
    /// The same, where 198.51.100.7 alone may send, from port 443.
    Filtered(Ports),
    /// Host, internal port, external port, the last number of the remote address 198.51.100.N,
    /// moment granted, expiry.
    Peer(u8, u16, u16, u8, u32, u32),
    /// Host, internal port.
    DropMap(u8, u16),
    /// The same, of the lease to 198.51.100.7.
    DropPeer(u8, u16),
    /// Host, internal port, external port, end.
    Rest(u8, u16, u16, u32),
}

fn one_filter() -> Filters {
    let mut filters = Filters::none();
    let _has_room = filters.push(Filter {
        prefix: 128,
        port: 443,
        remote: remote(7),
    });
    filters
}

fn map(ports: Ports, filters: Filters) -> MapLease {
    let Ports(protocol, host, port, count, external, granted, expiry) = ports;
    let first = at(protocol, host, port);
    let mut lease = map_of(&first, count, external, moment(granted), u64::from(expiry));
    lease.filters = filters;
    lease
}

fn change(act: Act) -> Change {
    match act {
        Act::Start => Change::Start,
        Act::Lose => Change::Lose,
        Act::Mark => Change::Mark,
        Act::Renumber(n) => Change::Renumber(Address::v4(192, 0, 2, n)),
        Act::Map(ports) => Change::Map(map(ports, Filters::none())),
        Act::Filtered(ports) => Change::Map(map(ports, one_filter())),
        Act::Peer(host, port, external, number, granted, expiry) => Change::Peer(peer_of(
            &at(Udp, host, port),
            external,
            (number, 443),
            moment(granted),
            u64::from(expiry),
        )),
        Act::DropMap(host, port) => Change::DropMap(at(Udp, host, port)),
        Act::DropPeer(host, port) => Change::DropPeer(at(Udp, host, port), remote(7), 443),
        Act::Rest(host, port, external, end) => {
            Change::Rest(at(Udp, host, port), external, u64::from(end))
        }
    }
}

/// The record of a change at a moment.
pub(crate) fn record(seconds: u32, act: Act) -> Record {
    Record {
        moment: moment(seconds),
        change: change(act),
    }
}
