//! When announcements come and by which doors, and what updates say.
use super::*;
use pcp_base::{Address, Endpoint, Filters, MapLease, Moment, Nonce, PeerLease, Protocol};
use std::alloc::Global;
use std::test::Fail;

// the times of the ten announcements after a rise, and times just before them
static TIMES: [(u64, bool); 20] = [
    (5_000, true),
    (5_249, false),
    (5_250, true),
    (5_749, false),
    (5_750, true),
    (6_749, false),
    (6_750, true),
    (8_749, false),
    (8_750, true),
    (12_749, false),
    (12_750, true),
    (20_749, false),
    (20_750, true),
    (36_749, false),
    (36_750, true),
    (68_749, false),
    (68_750, true),
    (132_749, false),
    (132_750, true),
    (900_000, false),
];

// The announcement of this epoch, below 256.
fn announced(epoch: u8) -> [u8; 24] {
    let mut want = [0; 24];
    want[0] = 2;
    want[1] = 0x80;
    want[11] = epoch;
    want
}

#[test]
fn announcements(rt: HostRuntime) -> Result<(), Fail> {
    let base = Moment::of(2).ok_or("base")?;
    let mut out = [0; 24];
    let mut announcer = Announcer::new(base, true, 5_000);
    for (now_ms, due) in &TIMES {
        announcer.seen(base, *now_ms);
        assert!(rt; announcer.due(*now_ms, &mut out) == *due, "at {now_ms}");
    }
    // 132 seconds less the base
    assert!(rt; out == announced(130));
    Ok(())
}

// Nothing is announced before a rise, and at a rise also where the time goes back then.
#[test]
fn a_rise_is_announced(rt: HostRuntime) -> Result<(), Fail> {
    let base = Moment::of(2).ok_or("base")?;
    let later = Moment::of(901).ok_or("later")?;
    let mut out = [0; 24];
    let mut announcer = Announcer::new(base, false, 5_000);
    assert!(rt; !announcer.due(6_000, &mut out));
    announcer.seen(later, 910_000);
    assert!(rt; announcer.due(3, &mut out) && out == announced(9));
    Ok(())
}

const NONCE: Nonce = Nonce([0, 1, 2, 3, 4, 5, 6, 7, 8, 9, 10, 11]);

// the update of a lease that was granted to 10.0.0.5 for UDP port 5000 and has 3110 seconds left
static UPDATE: [u8; 60] = [
    2, 0x81, 0, 0, 0, 0, 0x0c, 0x26, 0, 0, 0, 0, 0, 0, 0, 0, 0, 0, 0, 0, 0, 0, 0, 0, 0, 1, 2, 3, 4,
    5, 6, 7, 8, 9, 10, 11, 0x11, 0, 0, 0, 0x13, 0x88, 4, 0, 0, 0, 0, 0, 0, 0, 0, 0, 0, 0, 0xff,
    0xff, 192, 0, 2, 0x4d,
];

// what a PEER lease to 198.51.100.7, port 53, adds
static REMOTE: [u8; 20] = [
    0, 53, 0, 0, 0, 0, 0, 0, 0, 0, 0, 0, 0, 0, 0xff, 0xff, 198, 51, 100, 7,
];

// what a lease of five ports adds
static SET: [u8; 12] = [130, 0, 0, 5, 0, 5, 0x13, 0x88, 0, 0, 0, 0];

fn map_update(alloc: Global, count: u16) -> Result<Vec<u8>, Fail> {
    let m = Moment::of(1_500).ok_or("m")?;
    let lease = MapLease {
        address: Address::v4(10, 0, 0, 5),
        protocol: Protocol::Udp,
        internal: 5000,
        count,
        external: 1024,
        nonce: NONCE,
        granted: Moment::of(1_010).ok_or("granted")?,
        expiry: 4_610,
        filters: Filters::none(),
    };
    let mut out = Vec::new(alloc);
    write_map_update(alloc, &mut out, &lease, &Address::v4(192, 0, 2, 77), m, m)?;
    Ok(out)
}

fn peer_update(alloc: Global) -> Result<Vec<u8>, Fail> {
    let m = Moment::of(1_500).ok_or("m")?;
    let lease = PeerLease {
        endpoint: Endpoint {
            address: Address::v4(10, 0, 0, 5),
            protocol: Protocol::Udp,
            port: 5000,
        },
        external: 1024,
        remote: Address::v4(198, 51, 100, 7),
        remote_port: 53,
        nonce: NONCE,
        granted: Moment::of(1_010).ok_or("granted")?,
        expiry: 4_610,
    };
    let mut out = Vec::new(alloc);
    write_peer_update(alloc, &mut out, &lease, &Address::v4(192, 0, 2, 77), m, m)?;
    Ok(out)
}

#[test]
fn updates_of_map_leases(rt: HostRuntime) -> Result<(), Fail> {
    assert!(rt; map_update(rt.alloc(), 1)?.as_slice() == UPDATE.as_slice());
    let set = map_update(rt.alloc(), 5)?;
    assert!(rt; set.starts_with(&UPDATE) && set.ends_with(&SET) && set.len() == 72);
    Ok(())
}

#[test]
fn updates_of_peer_leases(rt: HostRuntime) -> Result<(), Fail> {
    let update = peer_update(rt.alloc())?;
    let mut front = UPDATE;
    front[1] = 0x82;
    assert!(rt; update.starts_with(&front) && update.ends_with(&REMOTE) && update.len() == 80);
    Ok(())
}

// A door announces to the hosts of its link, and one on the loopback to nobody.
#[test]
fn doors_announce(rt: HostRuntime) {
    let inside = Door {
        number: 3,
        address: Address::v4(10, 0, 0, 1),
    };
    let own = Door {
        number: ORDER_DOOR,
        address: Address::v4(127, 0, 0, 1),
    };
    let group = group_of(&inside).map(|group| (group.door, group.hosts));
    assert!(rt; group == Some((3, ALL_HOSTS_V4)), "{group:?}");
    assert!(rt; group_of(&own).is_none() && reaches(&own, &inside.address));
}
