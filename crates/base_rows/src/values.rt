//! What moments, codes, leases and pairs mean, and that calls succeed with ample memory.
use crate::rows::none_other;
use pcp_base::{
    Address, Addresses, Change, Code, Config, Endpoint, Externals, Filter, Filters, MapLease,
    Memory, Moment, Nonce, Orders, PeerLease, Prefix, Prefixes, Protocol, Record, Subscriber,
    Subscribers, epoch, pair,
};
use std::alloc::{AllocError, Global};

// 2001:db8::af
const LONG: Address = Address([
    0x20, 0x01, 0x0d, 0xb8, 0, 0, 0, 0, 0, 0, 0, 0, 0, 0, 0, 0xaf,
]);

fn seconds_of(seconds: u64) -> Option<u64> {
    Some(Moment::of(seconds)?.get())
}

#[test]
fn moments_are_below_2_to_the_40(rt: HostRuntime) {
    let last = seconds_of(1_099_511_627_775);
    assert!(rt; last == Some(1_099_511_627_775));
    assert!(rt; seconds_of(1_099_511_627_776).is_none());
}

// A moment, and the epoch that is told there where the base is 5.
static EPOCHS: [(u64, u32); 6] = [
    (5, 0),
    (15, 10),
    (0, 0),
    (4_294_967_300, 4_294_967_295),
    (4_294_967_301, 4_294_967_295),
    (1_099_511_627_775, 4_294_967_295),
];

fn epoch_at(seconds: u64) -> Option<u32> {
    Some(epoch(Moment::of(seconds)?, Moment::of(5)?))
}

#[test]
fn epochs(rt: HostRuntime) {
    for (seconds, told) in &EPOCHS {
        assert!(rt; epoch_at(*seconds) == Some(*told), "at {seconds}");
    }
}

// A code, its number, and the seconds that an error reply tells of it.
static CODES: [(Code, u8, u32); 14] = [
    (Code::Success, 0, 0),
    (Code::UnsuppVersion, 1, 1800),
    (Code::NotAuthorized, 2, 1800),
    (Code::MalformedRequest, 3, 1800),
    (Code::UnsuppOpcode, 4, 1800),
    (Code::UnsuppOption, 5, 1800),
    (Code::MalformedOption, 6, 1800),
    (Code::NetworkFailure, 7, 30),
    (Code::NoResources, 8, 30),
    (Code::UnsuppProtocol, 9, 1800),
    (Code::UserExQuota, 10, 30),
    (Code::CannotProvideExternal, 11, 30),
    (Code::AddressMismatch, 12, 1800),
    (Code::ExcessiveRemotePeers, 13, 1800),
];

fn first_other_code() -> Option<usize> {
    for (i, (code, number, lifetime)) in CODES.iter().enumerate() {
        if code.number() != *number || code.lifetime() != *lifetime {
            return Some(i);
        }
    }
    None
}

#[test]
fn codes_on_the_wire(rt: HostRuntime) {
    none_other(&rt, Ok(first_other_code()));
}

#[test]
fn eight_filters(rt: HostRuntime) {
    let mut filters = Filters::none();
    for port in 1..=9 {
        let filter = Filter {
            prefix: 128,
            port,
            remote: LONG,
        };
        assert!(rt; filters.push(filter) == (port <= 8));
    }
    let ports = [1, 2, 3, 4, 5, 6, 7, 8];
    assert!(rt; filters.items().iter().map(|filter| filter.port).eq(ports));
}

// Of 10.1.0.0/16, and then of 10.0.0.0/8.
fn subscribers(alloc: Global) -> Result<Vec<Subscriber>, AllocError> {
    let near = Subscriber {
        prefix: Prefix {
            bits: 112,
            address: Address::v4(10, 1, 0, 0),
        },
        external: 1,
    };
    let wide = Subscriber {
        prefix: Prefix {
            bits: 104,
            address: Address::v4(10, 0, 0, 0),
        },
        external: 0,
    };
    Ok(vec![in alloc; near, wide]?)
}

#[test]
fn pairs_by_the_first_row(rt: HostRuntime) -> Result<(), Memory> {
    let alloc = rt.alloc();
    let config = Config {
        quota: 16,
        lifetime_min: 120,
        lifetime_max: 86400,
        third_party: Prefixes::of(Vec::new(alloc)),
        externals: Externals::of(Vec::new(alloc)),
        subscribers: Subscribers::of(subscribers(alloc)?),
        listen: Addresses::of(Vec::new(alloc)),
        orders: Orders::Both,
    };
    let near = pair(&config, &Address::v4(10, 1, 255, 7));
    let wide = pair(&config, &Address::v4(10, 2, 0, 7));
    let other = pair(&config, &Address::v4(11, 0, 0, 7));
    assert!(rt; (near, wide, other) == (Some(1), Some(0), None));
    Ok(())
}

// 10.0.0.5
const HOST: Address = Address([0, 0, 0, 0, 0, 0, 0, 0, 0, 0, 0xff, 0xff, 10, 0, 0, 5]);

fn endpoint_of(port: u16) -> Endpoint {
    Endpoint {
        address: HOST,
        protocol: Protocol::Udp,
        port,
    }
}

fn moment(seconds: u32) -> Moment {
    Moment::of(u64::from(seconds)).unwrap()
}

// Of the ports 65534 and 65535, to 130.
fn map_lease(granted: Moment) -> MapLease {
    MapLease {
        address: HOST,
        protocol: Protocol::Udp,
        internal: 65534,
        count: 2,
        external: 1024,
        nonce: Nonce([7; 12]),
        granted,
        expiry: 130,
        filters: Filters::none(),
    }
}

// Of the port 5000 towards port 53, to 130.
fn peer_lease(granted: Moment) -> PeerLease {
    PeerLease {
        endpoint: endpoint_of(5000),
        external: 1024,
        remote: LONG,
        remote_port: 53,
        nonce: Nonce([7; 12]),
        granted,
        expiry: 130,
    }
}

#[test]
fn ports_of_a_lease(rt: HostRuntime) {
    let map = map_lease(moment(10));
    assert!(rt; map.first_endpoint() == endpoint_of(65534));
    for (port, covered) in [(65533, false), (65534, true), (65535, true)] {
        assert!(rt; map.covers(&endpoint_of(port)) == covered);
    }
}

#[test]
fn keys_of_a_peer_lease(rt: HostRuntime) {
    let peer = peer_lease(moment(10));
    for (port, remote_port, same) in [(5000, 53, true), (5001, 53, false), (5000, 54, false)] {
        assert!(rt; peer.is_of(&endpoint_of(port), &LONG, remote_port) == same);
    }
}

#[test]
fn leases_are_live_until_their_expiry(rt: HostRuntime) {
    let (map, peer) = (map_lease(moment(10)), peer_lease(moment(10)));
    for (seconds, live) in [(129, true), (130, false)] {
        let m = moment(seconds);
        assert!(rt; map.is_live(m) == live && peer.is_live(m) == live);
    }
}

#[test]
fn well_formed_records(rt: HostRuntime) {
    let moment = moment(10);
    let granted = Record {
        moment,
        change: Change::Map(map_lease(moment)),
    };
    let without_port = Record {
        moment,
        change: Change::DropMap(endpoint_of(0)),
    };
    assert!(rt; granted.is_well_formed() && !without_port.is_well_formed());
}

#[test]
fn protocols_by_their_numbers(rt: HostRuntime) {
    assert!(rt; Protocol::of(Protocol::Tcp.number()) == Some(Protocol::Tcp));
    assert!(rt; Protocol::of(0).is_none());
}
