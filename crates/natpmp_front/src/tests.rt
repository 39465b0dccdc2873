//! What the clauses don't say: that requests and replies mean these octets, and that calls succeed with
//! ample memory.
use super::*;
use pcp_base::{
    Address, Addresses, Answer, Ask, Code, Config, External, Externals, Orders, Prefix, Prefixes,
    Protocol, Refusal, Subscriber, Subscribers,
};
use std::alloc::{AllocError, Global};
use std::test::Fail;

const EXTERNAL: Address = Address([0, 0, 0, 0, 0, 0, 0, 0, 0, 0, 0xff, 0xff, 192, 0, 2, 1]);

#[derive(Clone, Copy, PartialEq, Eq)]
enum Outcome {
    Silent,
    Refused(Code, u32),
    Announce,
    // protocol, internal port, suggested port, lifetime
    Map(Protocol, u16, u16, u32),
    Other,
}

fn outcome_of(front: &Front) -> Outcome {
    let Front::Asked { shard: 0, ask } = front else {
        return Outcome::Silent;
    };
    match ask {
        Ask::Known(refusal) => Outcome::Refused(refusal.code, refusal.lifetime),
        Ask::Announce => Outcome::Announce,
        Ask::Map(map) => Outcome::Map(
            map.endpoint.protocol,
            map.endpoint.port,
            map.port,
            map.lifetime,
        ),
        Ask::Peer(_) => Outcome::Other,
    }
}

// 10.0.0.0/8 behind 192.0.2.1
fn config(alloc: Global) -> Result<Config, AllocError> {
    let row = Subscriber {
        prefix: Prefix {
            bits: 104,
            address: Address::v4(10, 0, 0, 0),
        },
        external: 0,
    };
    let external = External {
        address: EXTERNAL,
        low: 1024,
        high: 2047,
    };
    Ok(Config {
        quota: 64,
        lifetime_min: 120,
        lifetime_max: 86400,
        third_party: Prefixes::of(Vec::new(alloc)),
        externals: Externals::of(vec![in alloc; external]?),
        subscribers: Subscribers::of(vec![in alloc; row]?),
        listen: Addresses::of(Vec::new(alloc)),
        orders: Orders::Both,
    })
}

// UDP port 5000, for an hour
static MAPPING: [u8; 12] = [0, 1, 0, 0, 0x13, 0x88, 0, 0, 0, 0, 0x0e, 0x10];

static REQUESTS: [(&[u8], Outcome); 8] = [
    (&[0, 0], Outcome::Announce),
    (&[0, 5], Outcome::Refused(Code::UnsuppOpcode, 1800)),
    (&[0, 127], Outcome::Refused(Code::UnsuppOpcode, 1800)),
    (&[0, 128], Outcome::Silent),
    (
        &[0, 1, 0, 0, 0x13, 0x88, 0, 0, 0, 0, 0x0e, 0x10],
        Outcome::Map(Protocol::Udp, 5000, 0, 3600),
    ),
    // reserved octets that aren't zero, and an octet too many
    (
        &[0, 2, 9, 9, 0x13, 0x88, 4, 1, 0, 1, 0, 0, 7],
        Outcome::Map(Protocol::Tcp, 5000, 1025, 65536),
    ),
    // an octet too few
    (&[0, 1, 0, 0, 0x13, 0x88, 0, 0, 0, 0, 0x0e], Outcome::Silent),
    // all mappings at once
    (
        &[0, 1, 0, 0, 0, 0, 0, 0, 0, 0, 0, 0],
        Outcome::Refused(Code::NotAuthorized, 1800),
    ),
];

#[test]
fn requests(rt: HostRuntime) -> Result<(), Fail> {
    let alloc = rt.alloc();
    let config = config(alloc)?;
    let source = Address::v4(10, 0, 0, 5);
    assert!(rt; !is_front(&[2, 0]));
    for (octets, want) in &REQUESTS {
        assert!(rt; is_front(octets));
        let front = read_front(alloc, &config, &source, octets)?;
        assert!(rt; outcome_of(&front) == *want);
    }
    Ok(())
}

fn refused(code: Code) -> Answer {
    Answer::Refused(Refusal {
        code,
        parsed: true,
        lifetime: code.lifetime(),
    })
}

#[test]
fn replies(rt: HostRuntime) -> Result<(), Fail> {
    let alloc = rt.alloc();
    let mapped = Answer::Mapped {
        lifetime: 3600,
        external: 1024,
        address: EXTERNAL,
        set: None,
    };
    let cases: [(&[u8], Answer, &[u8]); 6] = [
        (
            &[0, 0],
            Answer::Announced,
            &[0, 0x80, 0, 0, 0, 0, 0, 10, 192, 0, 2, 1],
        ),
        (
            &[0, 0],
            refused(Code::NotAuthorized),
            &[0, 0x80, 0, 2, 0, 0, 0, 10, 0, 0, 0, 0],
        ),
        (
            &[0, 5],
            refused(Code::UnsuppOpcode),
            &[0, 0x85, 0, 5, 0, 0, 0, 10],
        ),
        (
            &MAPPING,
            mapped,
            &[
                0, 0x81, 0, 0, 0, 0, 0, 10, 0x13, 0x88, 4, 0, 0, 0, 0x0e, 0x10,
            ],
        ),
        (
            &MAPPING,
            refused(Code::UserExQuota),
            &[0, 0x81, 0, 4, 0, 0, 0, 10, 0x13, 0x88, 0, 0, 0, 0, 0, 0],
        ),
        (
            &MAPPING,
            Answer::Gone,
            &[0, 0x81, 0, 0, 0, 0, 0, 10, 0x13, 0x88, 0, 0, 0, 0, 0, 0],
        ),
    ];
    for (request, answer, want) in cases {
        let mut out = Vec::new(alloc);
        write_front(alloc, &mut out, request, &EXTERNAL, &answer, 10)?;
        assert!(rt; out.as_slice() == want);
    }
    Ok(())
}
