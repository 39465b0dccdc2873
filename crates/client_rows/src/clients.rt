//! What a client writes and reads, and what a relay writes: that it means these octets, and that calls
//! succeed with ample memory.
use pcp_base::{
    Address, Ask, Code, Endpoint, Filter, FilterList, MapAsk, Memory, Nonce, PeerAsk, PortSet,
    Protocol,
};
use pcp_codec::{Body, Common};
use pcp_options::{
    Item, Response, ResponseRefused, read_response, write_request, write_request_with,
    write_success_with,
};
use std::alloc::{AllocError, Global};
use std::test::Fail;

// MAP of UDP port 5000 from 10.0.0.5, for an hour
pub(crate) static REQUEST: [u8; 60] = [
    2, 1, 0, 0, 0, 0, 0x0e, 0x10, 0, 0, 0, 0, 0, 0, 0, 0, 0, 0, 0xff, 0xff, 10, 0, 0, 5, 0, 1, 2,
    3, 4, 5, 6, 7, 8, 9, 10, 11, 17, 0, 0, 0, 0x13, 0x88, 0, 0, 0, 0, 0, 0, 0, 0, 0, 0, 0, 0, 0xff,
    0xff, 0, 0, 0, 0,
];

// The options of the other request, in the order in which a client writes them: THIRD_PARTY 10.0.0.9,
// PREFER_FAILURE, FILTER 198.51.100.7 with prefix 128 and port 53, PORT_SET of 8 ports from 5000 on with
// parity.
static OPTIONS: [u8; 60] = [
    1, 0, 0, 16, 0, 0, 0, 0, 0, 0, 0, 0, 0, 0, 0xff, 0xff, 10, 0, 0, 9, 2, 0, 0, 0, 3, 0, 0, 20, 0,
    128, 0, 53, 0, 0, 0, 0, 0, 0, 0, 0, 0, 0, 0xff, 0xff, 198, 51, 100, 7, 130, 0, 0, 5, 0, 8,
    0x13, 0x88, 1, 0, 0, 0,
];

// What PEER has behind the data of MAP: port 53 of 198.51.100.7.
static REMOTE: [u8; 20] = [
    0, 53, 0, 0, 0, 0, 0, 0, 0, 0, 0, 0, 0, 0, 0xff, 0xff, 198, 51, 100, 7,
];

// the reply to the first: 192.0.2.1, port 1024, for an hour, at epoch 10
pub(crate) static REPLY: [u8; 60] = [
    2, 0x81, 0, 0, 0, 0, 0x0e, 0x10, 0, 0, 0, 10, 0, 0, 0, 0, 0, 0, 0, 0, 0, 0, 0, 0, 0, 1, 2, 3,
    4, 5, 6, 7, 8, 9, 10, 11, 17, 0, 0, 0, 0x13, 0x88, 4, 0, 0, 0, 0, 0, 0, 0, 0, 0, 0, 0, 0xff,
    0xff, 192, 0, 2, 1,
];

pub(crate) const OWN: Address = Address([0, 0, 0, 0, 0, 0, 0, 0, 0, 0, 0xff, 0xff, 10, 0, 0, 5]);

const THIRD: Address = Address([0, 0, 0, 0, 0, 0, 0, 0, 0, 0, 0xff, 0xff, 10, 0, 0, 9]);

const PEER: Address = Address([0, 0, 0, 0, 0, 0, 0, 0, 0, 0, 0xff, 0xff, 198, 51, 100, 7]);

pub(crate) const NONE: Address = Address([0, 0, 0, 0, 0, 0, 0, 0, 0, 0, 0xff, 0xff, 0, 0, 0, 0]);

pub(crate) const NONCE: Nonce = Nonce([0, 1, 2, 3, 4, 5, 6, 7, 8, 9, 10, 11]);

pub(crate) const FILTER: Filter = Filter {
    prefix: 128,
    port: 53,
    remote: PEER,
};

const SET: PortSet = PortSet {
    size: 8,
    first: 5000,
    parity: true,
};

// the data of the reply
const TOLD: Common = Common {
    nonce: NONCE,
    protocol: 17,
    internal: 5000,
    external: 1024,
    address: Address([0, 0, 0, 0, 0, 0, 0, 0, 0, 0, 0xff, 0xff, 192, 0, 2, 1]),
};

pub(crate) fn endpoint(address: Address) -> Endpoint {
    Endpoint {
        address,
        protocol: Protocol::Udp,
        port: 5000,
    }
}

// UDP port 5000 of the host itself.
#[test]
fn plain_requests(rt: HostRuntime) -> Result<(), Fail> {
    let alloc = rt.alloc();
    let ask = Ask::Map(MapAsk {
        endpoint: endpoint(OWN),
        nonce: NONCE,
        lifetime: 3600,
        port: 0,
        address: NONE,
        prefer: false,
        set: None,
        filters: FilterList::of(Vec::new(alloc)),
    });
    // behind what was there
    let mut out = vec![in alloc; 7]?;
    let mut want = vec![in alloc; 7]?;
    want.extend_from_slice(&REQUEST)?;
    write_request(alloc, &mut out, &OWN, None, &ask)?;
    assert!(rt; out == want);
    Ok(())
}

// The same for another host, with all options.
#[test]
fn requests_with_options(rt: HostRuntime) -> Result<(), Fail> {
    let alloc = rt.alloc();
    let ask = Ask::Map(MapAsk {
        endpoint: endpoint(THIRD),
        nonce: NONCE,
        lifetime: 3600,
        port: 0,
        address: NONE,
        prefer: true,
        set: Some(SET),
        filters: FilterList::of(vec![in alloc; FILTER]?),
    });
    let mut want = REQUEST.to_vec(alloc)?;
    want.extend_from_slice(&OPTIONS)?;
    let mut out = Vec::new(alloc);
    write_request(alloc, &mut out, &OWN, Some(THIRD), &ask)?;
    assert!(rt; out == want);
    Ok(())
}

pub(crate) fn joined(alloc: Global, parts: &[&[u8]]) -> Result<Vec<u8>, AllocError> {
    let mut octets = Vec::new(alloc);
    for part in parts {
        octets.extend_from_slice(part)?;
    }
    Ok(octets)
}

#[test]
fn requests_of_peer(rt: HostRuntime) -> Result<(), Fail> {
    let alloc = rt.alloc();
    let ask = Ask::Peer(PeerAsk {
        endpoint: endpoint(THIRD),
        nonce: NONCE,
        lifetime: 3600,
        port: 0,
        address: NONE,
        remote: PEER,
        remote_port: 53,
    });
    let mut front = REQUEST;
    front[1] = 2;
    let mut out = Vec::new(alloc);
    write_request(alloc, &mut out, &OWN, Some(THIRD), &ask)?;
    assert!(rt; out == joined(alloc, &[&front, &REMOTE, &OPTIONS[..20]])?);
    Ok(())
}

#[test]
fn requests_of_announce(rt: HostRuntime) -> Result<(), Fail> {
    let mut want = [0; 24];
    want.copy_from_slice(&REQUEST[..24]);
    want[1] = 0;
    want[6] = 0;
    want[7] = 0;
    let mut out = Vec::new(rt.alloc());
    write_request(rt.alloc(), &mut out, &OWN, Some(THIRD), &Ask::Announce)?;
    assert!(rt; out.as_slice() == want.as_slice());
    Ok(())
}

// A relay hands on options in another order.
static ITEMS: [Item; 2] = [Item::PreferFailure, Item::ThirdParty(THIRD)];

#[test]
fn requests_of_a_relay(rt: HostRuntime) -> Result<(), Fail> {
    let alloc = rt.alloc();
    let body = Body::Map(Common {
        external: 0,
        address: NONE,
        ..TOLD
    });
    let mut out = Vec::new(alloc);
    write_request_with(alloc, &mut out, &OWN, 3600, &body, &ITEMS)?;
    assert!(rt; out == joined(alloc, &[&REQUEST, &OPTIONS[20..24], &OPTIONS[..20]])?);
    Ok(())
}

#[test]
fn successes_of_a_relay(rt: HostRuntime) -> Result<(), Fail> {
    let alloc = rt.alloc();
    let mut out = Vec::new(alloc);
    write_success_with(alloc, &mut out, 3600, 10, &Body::Map(TOLD), &ITEMS)?;
    assert!(rt; out == joined(alloc, &[&REPLY, &OPTIONS[20..24], &OPTIONS[..20]])?);
    Ok(())
}

// The reply with this code and protocol, and these octets behind it.
fn reply_with(
    alloc: Global,
    code: u8,
    protocol: u8,
    options: &[u8],
) -> Result<Vec<u8>, AllocError> {
    let mut octets = REPLY.to_vec(alloc)?;
    octets[3] = code;
    octets[36] = protocol;
    octets.extend_from_slice(options)?;
    Ok(octets)
}

// The response that the octets are; none where they are none.
fn read(alloc: Global, octets: &[u8]) -> Result<Option<Response>, Memory> {
    match read_response(alloc, octets) {
        Ok(response) => Ok(Some(response)),
        Err(ResponseRefused::NotResponse) => Ok(None),
        Err(ResponseRefused::Memory) => Err(Memory),
    }
}

#[test]
fn whole_responses(rt: HostRuntime) -> Result<(), Fail> {
    let alloc = rt.alloc();
    let octets = reply_with(alloc, 0, 17, &OPTIONS)?;
    let response = read(alloc, &octets)?.ok_or("none")?;
    assert!(rt; (response.opcode, response.code) == (1, Code::Success));
    assert!(rt; (response.lifetime, response.epoch) == (3600, 10));
    assert!(rt; response.body == Body::Map(TOLD));
    let items = [
        Item::ThirdParty(THIRD),
        Item::PreferFailure,
        Item::Filter(FILTER),
        Item::PortSet(SET),
    ];
    assert!(rt; response.items.items() == items.as_slice());
    Ok(())
}

// A code, a protocol, what stands behind the reply, and how many options are read; none where it is no
// response. Of an error the whole options in front are.
static RESPONSES: [(u8, u8, &[u8], Option<usize>); 16] = [
    (0, 17, b"", Some(0)),
    (13, 6, b"", Some(0)),
    (14, 17, b"", None),
    (0, 47, b"", None),
    (8, 47, b"", None),
    // PREFER_FAILURE, and again
    (0, 17, b"\x02\0\0\0", Some(1)),
    (0, 17, b"\x02\0\0\0\x02\0\0\0", None),
    (8, 17, b"\x02\0\0\0\x02\0\0\0", Some(2)),
    // options that aren't known, one of which runs past the end
    (0, 17, b"\x7f\0\0\0\xc8\0\0\x01\x05\0\0\0", Some(0)),
    (0, 17, b"\x02\0\0\0\xc8\0\0\x08", None),
    (8, 17, b"\x02\0\0\0\xc8\0\0\x08\0\0\0\0", Some(1)),
    // PREFER_FAILURE with data, and then without
    (0, 17, b"\x02\0\0\x01\0\0\0\0", None),
    (8, 17, b"\x02\0\0\x01\0\0\0\0\x02\0\0\0", Some(0)),
    // PORT_SET of 4 octets, and of 5
    (0, 17, b"\x82\0\0\x04\0\x05\x17\x70", None),
    (0, 17, b"\x82\0\0\x05\0\x05\x17\x70\0\0\0\0", Some(1)),
    // no whole words
    (0, 17, b"\x02\0\0", None),
];

#[test]
fn responses(rt: HostRuntime) -> Result<(), Fail> {
    let alloc = rt.alloc();
    for (code, protocol, options, want) in &RESPONSES {
        let octets = reply_with(alloc, *code, *protocol, options)?;
        let count = read(alloc, &octets)?.map(|response| response.items.items().len());
        assert!(rt; count == *want, "{}", options.escape_ascii());
    }
    Ok(())
}
