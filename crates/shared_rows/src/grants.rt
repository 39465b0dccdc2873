//! Requests for a port of a host, each in a batch of its own.
ghost use Rattle.std.specs.Prelude.{◌≡◌, IfSome, IfOk};
ghost use Rattle.shared_house.specs.HouseCalls.{IsPassOf};
ghost use Rattle.shared_rows.specs.Passes.{Follows, IsToldAt};

use crate::configs::moment;
use lease_disk::LeaseDisk;
use lease_house::{HouseFault, route};
use pcp_base::{Address, Config, Datagram, Memory, Octets};
use shared_house::{House, HousePass, Served};
use std::alloc::Global;
use std::slice;
use std::sync::Wait;

/// The internal endpoint 10.`second`.0.`last`, with this UDP port.
#[derive(Clone, Copy)]
pub(crate) struct Host {
    pub second: u8,
    pub last: u8,
    pub port: u16,
}

// A MAP request of 10.0.0.0 for UDP port 0, for an hour (RFC 6887, sections 7.1 and 11.1).
static MAP: [u8; 60] = [
    0x02, 0x01, 0x00, 0x00, 0x00, 0x00, 0x0e, 0x10, 0x00, 0x00, 0x00, 0x00, 0x00, 0x00, 0x00, 0x00,
    0x00, 0x00, 0xff, 0xff, 0x0a, 0x00, 0x00, 0x00, 0x00, 0x01, 0x02, 0x03, 0x04, 0x05, 0x06, 0x07,
    0x08, 0x09, 0x0a, 0x0b, 0x11, 0x00, 0x00, 0x00, 0x00, 0x00, 0x00, 0x00, 0x00, 0x00, 0x00, 0x00,
    0x00, 0x00, 0x00, 0x00, 0x00, 0x00, 0xff, 0xff, 0x00, 0x00, 0x00, 0x00,
];

/// The door by which this host asks, one of four.
fn door_of(host: Host) -> u8 {
    host.last % 4
}

/// The request of this host for its port, by its door.
fn request(alloc: Global, host: Host) -> Result<Datagram, Memory> {
    let port = host.port.to_be_bytes();
    let mut octets = MAP;
    octets[21] = host.second;
    octets[23] = host.last;
    octets[40] = port[0];
    octets[41] = port[1];
    Ok(Datagram {
        peer: Address::v4(10, host.second, 0, host.last),
        port: 40_000,
        door: door_of(host),
        octets: Octets::of(Vec::from_array(alloc, octets)?),
    })
}

/// Serves the request of the host at `now`. None where it goes to the external address of another
/// pass, or has no memory.
pub(crate) fn grant<D: LeaseDisk + Drop, R: Wait>(
    rt: &R,
    alloc: Global,
    house: &House<D>,
    config: &Config,
    pass: &mut HousePass<D>,
    host: Host,
    now: u32,
) -> Option<Result<Served, HouseFault>>
    requires config { house.now.config ≡ config.now }
    requires pass { IsPassOf house.now pass.old }
    ensures pass { Follows house.now pass.old pass.new }
    ensures told { IfSome result
        (λ told. IfOk told (λ served. IsToldAt house.now pass.old.shard served.told)) }
{
    let Ok(request) = request(alloc, host) else {
        return None;
    };
    let Ok(place) = route(alloc, config, &request) else {
        return None;
    };
    if place != pass.shard {
        return None;
    }
    Some(house.serve(rt, alloc, pass, slice::from_ref(&request), moment(now)))
}

/// Whether a reply goes to this host by the door of its request.
fn goes_to(reply: &Datagram, host: Host) -> bool {
    reply.peer == Address::v4(10, host.second, 0, host.last)
        && reply.port == 40_000
        && reply.door == door_of(host)
}

/// Whether the one reply to a request of this host goes to it, and is a success.
pub(crate) fn is_granted(told: &Option<Result<Served, HouseFault>>, host: Host) -> bool {
    let Some(Ok(served)) = told else {
        return false;
    };
    match served.replies.as_slice() {
        [reply] => {
            let octets = reply.octets.items();
            goes_to(reply, host) && octets.len() == 60 && octets[3] == 0
        }
        _ => false,
    }
}
