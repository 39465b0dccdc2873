//! What clients find of an epoch after a loss, alone and behind a relay, and that calls succeed with
//! ample memory.
use client_core::{Client, EpochFound};
use pcp_base::{Address, Datagram, Memory, Octets, Prefixes};
use proxy_core::{Proxy, ProxyOut};
use std::alloc::Global;
use std::test::Fail;

const CLIENT: Address = Address([0, 0, 0, 0, 0, 0, 0, 0, 0, 0, 255, 255, 10, 0, 0, 5]);

const RELAY: Address = Address([0, 0, 0, 0, 0, 0, 0, 0, 0, 0, 255, 255, 10, 0, 0, 2]);

const SERVER: Address = Address([0, 0, 0, 0, 0, 0, 0, 0, 0, 0, 255, 255, 192, 0, 2, 9]);

// ANNOUNCE of 10.0.0.5
static REQUEST: [u8; 24] = [
    2, 0, 0, 0, 0, 0, 0, 0, 0, 0, 0, 0, 0, 0, 0, 0, 0, 0, 0xff, 0xff, 10, 0, 0, 5,
];

// An epoch and the millisecond at which it is heard, the next ones, and what is found of the second.
// The server loses its leases at 2000, and at 0.
static ROWS: [(u32, u32, u32, u32, EpochFound); 4] = [
    (600, 1_600_000, 3, 2_003_000, EpochFound::Invalid),
    (2, 2_000_000, 3, 2_003_000, EpochFound::Valid),
    (10, 0, 100, 100_000, EpochFound::Invalid),
    (8, 0, 100, 100_000, EpochFound::Valid),
];

fn datagram(alloc: Global, peer: Address, octets: &[u8]) -> Result<Datagram, Memory> {
    Ok(Datagram {
        peer,
        port: 5_351,
        door: 0,
        octets: Octets::of(octets.to_vec(alloc)?),
    })
}

// an ANNOUNCE response from this address, which tells this epoch
fn response(alloc: Global, peer: Address, epoch: u32) -> Result<Datagram, Memory> {
    let mut octets = Vec::new(alloc);
    octets.extend_from_slice(&[2, 0x80, 0, 0, 0, 0, 0, 0])?;
    octets.extend_from_slice(&epoch.to_be_bytes())?;
    octets.extend_from_slice(&[0; 12])?;
    datagram(alloc, peer, octets.as_slice())
}

// what the client finds of the epoch of a packet
fn found(
    alloc: Global,
    client: &mut Client,
    packet: &Datagram,
    now_ms: u32,
) -> Result<EpochFound, Memory> {
    Ok(client.heard(alloc, packet, u64::from(now_ms), 0)?.epoch)
}

// whether the second epoch of a row is found as it says, after the first one, which is valid
fn is_found(alloc: Global, row: &(u32, u32, u32, u32, EpochFound)) -> Result<bool, Memory> {
    let mut client = Client::new(alloc, SERVER, CLIENT)?;
    let first = found(alloc, &mut client, &response(alloc, SERVER, row.0)?, row.1)?;
    let second = found(alloc, &mut client, &response(alloc, SERVER, row.2)?, row.3)?;
    Ok(first == EpochFound::Valid && second == row.4)
}

fn replied(out: ProxyOut) -> Option<Octets> {
    match out {
        ProxyOut::Reply(sent) => Some(sent.octets),
        _ => None,
    }
}

#[test]
fn losses_are_found(rt: HostRuntime) -> Result<(), Fail> {
    let alloc = rt.alloc();
    for row in &ROWS {
        assert!(rt; is_found(alloc, row)?);
    }
    Ok(())
}

// The relay hears 10 at second 0 and answers the client's ANNOUNCE at 5. The server loses its leases at
// 1, and tells 104 at 105, which the client hears through the relay.
#[test]
fn a_loss_is_found_behind_a_relay(rt: HostRuntime) -> Result<(), Fail> {
    let alloc = rt.alloc();
    let none = Prefixes::of(Vec::new(alloc));
    let mut relay = Proxy::new(alloc, RELAY, SERVER, [7; 32], none)?;
    let mut client = Client::new(alloc, RELAY, CLIENT)?;
    relay.from_server(alloc, &response(alloc, SERVER, 10)?, 0)?;
    let request = datagram(alloc, CLIENT, &REQUEST)?;
    let told = replied(relay.from_client(alloc, &request, 5_000)?).ok_or("reply")?;
    let told = datagram(alloc, RELAY, told.items())?;
    assert!(rt; told.octets.items() == response(alloc, RELAY, 15)?.octets.items());
    assert!(rt; found(alloc, &mut client, &told, 5_000)? == EpochFound::Valid);
    let passed = relay
        .from_server(alloc, &response(alloc, SERVER, 104)?, 105_000)?
        .ok_or("passed")?;
    let passed = datagram(alloc, RELAY, passed.octets.items())?;
    assert!(rt; found(alloc, &mut client, &passed, 105_000)? == EpochFound::Invalid);
    Ok(())
}
