//! That verdicts and replies mean these octets, and that calls succeed with ample memory.
use crate::rows::none_other;
use pcp_base::{
    Address, Addresses, Answer, Code, Config, Externals, Memory, Orders, PortSet, Prefix, Prefixes,
    Subscriber, Subscribers,
};
use pcp_codec::{Framed, read_request};
use pcp_options::{Verdict, judge, read_options, write_reply};
use std::alloc::{AllocError, Global};
use std::test::Fail;

// MAP of UDP port 5000 from 10.0.0.5, for an hour
static REQUEST: [u8; 60] = [
    2, 1, 0, 0, 0, 0, 0x0e, 0x10, 0, 0, 0, 0, 0, 0, 0, 0, 0, 0, 0xff, 0xff, 10, 0, 0, 5, 0, 1, 2,
    3, 4, 5, 6, 7, 8, 9, 10, 11, 17, 0, 0, 0, 0x13, 0x88, 0, 0, 0, 0, 0, 0, 0, 0, 0, 0, 0, 0, 0xff,
    0xff, 0, 0, 0, 0,
];

// THIRD_PARTY 10.0.0.9, an option that is passed over, FILTER 198.51.100.7 with prefix 128 and port 53,
// PREFER_FAILURE, PORT_SET of 8 ports from 5000 on with parity; reserved octets and padding are set
static OPTIONS: [u8; 68] = [
    1, 9, 0, 16, 0, 0, 0, 0, 0, 0, 0, 0, 0, 0, 0xff, 0xff, 10, 0, 0, 9, 200, 0, 0, 1, 5, 6, 7, 8,
    3, 0, 0, 20, 7, 128, 0, 53, 0, 0, 0, 0, 0, 0, 0, 0, 0, 0, 0xff, 0xff, 198, 51, 100, 7, 2, 3, 0,
    0, 130, 0, 0, 5, 0, 8, 0x13, 0x88, 0xff, 9, 9, 9,
];

// the reply to both together: 5 ports from 4998 on, of 192.0.2.1 from 1024 on
static REPLY: [u8; 120] = [
    2, 0x81, 0, 0, 0, 0, 0x0e, 0x10, 0, 0, 0, 10, 0, 0, 0, 0, 0, 0, 0, 0, 0, 0, 0, 0, 0, 1, 2, 3,
    4, 5, 6, 7, 8, 9, 10, 11, 17, 0, 0, 0, 0x13, 0x88, 4, 0, 0, 0, 0, 0, 0, 0, 0, 0, 0, 0, 0xff,
    0xff, 192, 0, 2, 1, 1, 0, 0, 16, 0, 0, 0, 0, 0, 0, 0, 0, 0, 0, 0xff, 0xff, 10, 0, 0, 9, 3, 0,
    0, 20, 0, 128, 0, 53, 0, 0, 0, 0, 0, 0, 0, 0, 0, 0, 0xff, 0xff, 198, 51, 100, 7, 2, 0, 0, 0,
    130, 0, 0, 5, 0, 5, 0x13, 0x86, 1, 0, 0, 0,
];

#[derive(Clone, Copy, PartialEq, Eq)]
enum Outcome {
    Silent,
    // the code, and whether the request could be read
    Refused(Code, bool),
    // the shard
    Asked(u32),
}

fn outcome_of(verdict: &Verdict) -> Outcome {
    match verdict {
        Verdict::Silent => Outcome::Silent,
        Verdict::Refuse(refusal) => Outcome::Refused(refusal.code, refusal.parsed),
        Verdict::Asked { shard, .. } => Outcome::Asked(*shard),
    }
}

// 10.0.0.5
fn host(alloc: Global) -> Result<Vec<Prefix>, AllocError> {
    let host = Prefix {
        bits: 128,
        address: Address::v4(10, 0, 0, 5),
    };
    Ok(vec![in alloc; host]?)
}

// 10.0.0.0/8 behind one external address; these may ask for others
fn config(alloc: Global, third_party: Vec<Prefix>) -> Result<Config, AllocError> {
    let row = Subscriber {
        prefix: Prefix {
            bits: 104,
            address: Address::v4(10, 0, 0, 0),
        },
        external: 0,
    };
    Ok(Config {
        quota: 64,
        lifetime_min: 120,
        lifetime_max: 86400,
        third_party: Prefixes::of(third_party),
        externals: Externals::of(Vec::new(alloc)),
        subscribers: Subscribers::of(vec![in alloc; row]?),
        listen: Addresses::of(Vec::new(alloc)),
        orders: Orders::Both,
    })
}

// The same, where 10.0.0.5 may ask for others.
fn host_config(alloc: Global) -> Result<Config, AllocError> {
    config(alloc, host(alloc)?)
}

// Whether this is the verdict on a datagram from 10.0.0.H, of the number H.
fn is_judged(
    alloc: Global,
    config: &Config,
    from: u8,
    message: &[u8],
    want: Outcome,
) -> Result<bool, Memory> {
    let verdict = judge(alloc, config, &Address::v4(10, 0, 0, from), message)?;
    Ok(outcome_of(&verdict) == want)
}

// The request with these octets behind it.
fn behind(alloc: Global, options: &[u8]) -> Result<Vec<u8>, AllocError> {
    let mut message = REQUEST.to_vec(alloc)?;
    message.extend_from_slice(options)?;
    Ok(message)
}

// Whether this is the verdict on the request of 10.0.0.5 with these octets behind it.
fn is_judged_with(
    alloc: Global,
    config: &Config,
    options: &[u8],
    want: Outcome,
) -> Result<bool, Memory> {
    let message = behind(alloc, options)?;
    is_judged(alloc, config, 5, &message, want)
}

// What stands behind the request, and the verdict; the last is THIRD_PARTY of the source.
static BEHIND: [(&[u8], Outcome); 5] = [
    (b"\x7f\0\0\0", Outcome::Refused(Code::UnsuppOption, false)),
    (b"\xc8\0\0\0", Outcome::Asked(0)),
    (
        b"\xc8\0\0\x08",
        Outcome::Refused(Code::MalformedOption, false),
    ),
    (
        b"\x7f\0\0\x01",
        Outcome::Refused(Code::MalformedOption, false),
    ),
    (
        b"\x01\0\0\x10\0\0\0\0\0\0\0\0\0\0\xff\xff\x0a\0\0\x05",
        Outcome::Refused(Code::MalformedRequest, true),
    ),
];

// The first row with another verdict.
fn first_other(alloc: Global, config: &Config) -> Result<Option<usize>, Memory> {
    for (i, (options, want)) in BEHIND.iter().enumerate() {
        if !is_judged_with(alloc, config, options, *want)? {
            return Ok(Some(i));
        }
    }
    Ok(None)
}

#[test]
fn verdicts(rt: HostRuntime) -> Result<(), Memory> {
    let config = host_config(rt.alloc())?;
    none_other(&rt, first_other(rt.alloc(), &config));
    Ok(())
}

// Whether the request with this octet behind it, up to a length, is refused by this code.
fn is_refused(
    alloc: Global,
    config: &Config,
    length: usize,
    octet: u8,
    code: Code,
) -> Result<bool, Memory> {
    let mut message = behind(alloc, b"")?;
    message.resize(length, octet)?;
    is_judged(alloc, config, 5, &message, Outcome::Refused(code, false))
}

// 1040 octets of THIRD_PARTY's code, and a request of 1104 octets
#[test]
fn verdicts_on_long_requests(rt: HostRuntime) -> Result<(), Memory> {
    let alloc = rt.alloc();
    let config = host_config(alloc)?;
    let malformed = is_refused(alloc, &config, 1100, 1, Code::MalformedOption);
    let long = is_refused(alloc, &config, 1104, 0, Code::MalformedRequest);
    assert!(rt; (malformed, long) == (Ok(true), Ok(true)));
    Ok(())
}

// Where whole options end in the request with options: behind 0, 20, 28, 52, 56 and 68 octets.
fn verdict_at(length: usize) -> Outcome {
    match length {
        0..=23 => Outcome::Silent,
        60 | 80 | 88 | 112 | 116 | 128 => Outcome::Asked(0),
        64.. if length % 4 == 0 => Outcome::Refused(Code::MalformedOption, false),
        _ => Outcome::Refused(Code::MalformedRequest, false),
    }
}

// The first length to which the message is cut with another verdict.
fn first_other_cut(
    alloc: Global,
    config: &Config,
    message: &[u8],
) -> Result<Option<usize>, Memory> {
    for length in 0..=128 {
        let Some(cut) = message.get(..length) else {
            return Ok(Some(length));
        };
        if !is_judged(alloc, config, 5, cut, verdict_at(length))? {
            return Ok(Some(length));
        }
    }
    Ok(None)
}

#[test]
fn cut_requests(rt: HostRuntime) -> Result<(), Memory> {
    let alloc = rt.alloc();
    let config = host_config(alloc)?;
    let message = behind(alloc, &OPTIONS)?;
    none_other(&rt, first_other_cut(alloc, &config, &message));
    Ok(())
}

// Whether these are refused where nobody may ask for others.
fn are_refused(alloc: Global, config: &Config) -> Result<bool, Memory> {
    let old = Outcome::Refused(Code::UnsuppVersion, false);
    let another = Outcome::Refused(Code::AddressMismatch, false);
    let third = Outcome::Refused(Code::UnsuppOption, true);
    Ok(
        is_judged(alloc, config, 5, b"\x01\x01", old)?
            && is_judged(alloc, config, 6, &REQUEST, another)?
            && is_judged_with(alloc, config, &OPTIONS[..20], third)?,
    )
}

#[test]
fn hosts(rt: HostRuntime) -> Result<(), Memory> {
    let config = config(rt.alloc(), Vec::new(rt.alloc()))?;
    assert!(rt; are_refused(rt.alloc(), &config) == Ok(true));
    Ok(())
}

fn count_of(alloc: Global, octets: &[u8]) -> Result<usize, Fail> {
    let source = Address::v4(10, 0, 0, 5);
    if let Framed::Whole(frame) = read_request(octets, &source) {
        return Ok(read_options(alloc, &frame, octets)?.items().len());
    }
    Ok(0)
}

#[test]
fn four_options(rt: HostRuntime) -> Result<(), Fail> {
    let message = behind(rt.alloc(), &OPTIONS)?;
    assert!(rt; count_of(rt.alloc(), &message)? == 4);
    Ok(())
}

// The reply to a request of 10.0.0.5; empty where there is none.
fn reply_to(
    alloc: Global,
    config: &Config,
    message: &[u8],
    answer: &Answer,
) -> Result<Vec<u8>, Memory> {
    let mut out = Vec::new(alloc);
    if message.len() < 2 {
        return Ok(out);
    }
    let source = Address::v4(10, 0, 0, 5);
    if let Verdict::Asked { ask, items, .. } = judge(alloc, config, &source, message)? {
        write_reply(alloc, &mut out, message, &ask, &items, answer, 10)?;
    }
    Ok(out)
}

// Whether the reply is in these octets.
fn is_replied(
    alloc: Global,
    message: Result<Vec<u8>, AllocError>,
    answer: &Answer,
    want: &[u8],
) -> Result<bool, Memory> {
    let message = message?;
    let config = host_config(alloc)?;
    let reply = reply_to(alloc, &config, &message, answer)?;
    Ok(reply.as_slice() == want)
}

#[test]
fn replies(rt: HostRuntime) {
    let alloc = rt.alloc();
    let answer = Answer::Mapped {
        lifetime: 3600,
        external: 1024,
        address: Address::v4(192, 0, 2, 1),
        set: Some(PortSet {
            size: 5,
            first: 4998,
            parity: true,
        }),
    };
    let replied = is_replied(alloc, behind(alloc, &OPTIONS), &answer, &REPLY);
    assert!(rt; replied == Ok(true));
}

// PEER towards 198.51.100.7, port 53: the octets of MAP with this opcode, and the remote behind them.
fn of_peer(alloc: Global, map: &[u8; 60], opcode: u8) -> Result<Vec<u8>, AllocError> {
    let mut peer = map.to_vec(alloc)?;
    peer.extend_from_slice(&[0, 53, 0, 0])?;
    peer.extend_from_slice(&OPTIONS[36..52])?;
    peer[1] = opcode;
    Ok(peer)
}

#[test]
fn replies_to_peer(rt: HostRuntime) -> Result<(), Memory> {
    let alloc = rt.alloc();
    let answer = Answer::Peered {
        lifetime: 3600,
        external: 1024,
        address: Address::v4(192, 0, 2, 1),
    };
    let mut front = [0; 60];
    front.copy_from_slice(&REPLY[..60]);
    let want = of_peer(alloc, &front, 0x82)?;
    let replied = is_replied(alloc, of_peer(alloc, &REQUEST, 2), &answer, &want);
    assert!(rt; replied == Ok(true));
    Ok(())
}

#[test]
fn replies_to_announce(rt: HostRuntime) {
    let alloc = rt.alloc();
    let mut announce = [0; 24];
    announce.copy_from_slice(&REQUEST[..24]);
    announce[1] = 0;
    let head = [
        2, 0x80, 0, 0, 0, 0, 0, 0, 0, 0, 0, 10, 0, 0, 0, 0, 0, 0, 0, 0, 0, 0, 0, 0,
    ];
    let replied = is_replied(alloc, announce.to_vec(alloc), &Answer::Announced, &head);
    assert!(rt; replied == Ok(true));
}
