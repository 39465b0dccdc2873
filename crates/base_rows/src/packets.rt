//! What the clauses don't say: that they mean these octets, and that calls succeed with ample memory.
use crate::rows::none_other;
use pcp_base::{Address, Code, Memory, Nonce, Refusal};
use pcp_codec::{
    Body, Common, Frame, Framed, LIFETIME_PLACE, is_plain_map, read_common, read_request, u32_of,
    write_head, write_refusal,
};
use std::alloc::Global;

// A MAP request of 10.0.0.5 for UDP port 5000, for an hour.
const REQUEST: [u8; 60] = [
    2, 1, 0, 0, 0, 0, 0x0e, 0x10, 0, 0, 0, 0, 0, 0, 0, 0, 0, 0, 0xff, 0xff, 10, 0, 0, 5, 0, 1, 2,
    3, 4, 5, 6, 7, 8, 9, 10, 11, 17, 0, 0, 0, 0x13, 0x88, 0, 0, 0, 0, 0, 0, 0, 0, 0, 0, 0, 0, 0xff,
    0xff, 0, 0, 0, 0,
];

const CLIENT: Address = Address([0, 0, 0, 0, 0, 0, 0, 0, 0, 0, 255, 255, 10, 0, 0, 5]);

const COMMON: Common = Common {
    nonce: Nonce([0, 1, 2, 3, 4, 5, 6, 7, 8, 9, 10, 11]),
    protocol: 17,
    internal: 5000,
    external: 0,
    address: Address([0, 0, 0, 0, 0, 0, 0, 0, 0, 0, 255, 255, 0, 0, 0, 0]),
};

const WHOLE: Framed = Framed::Whole(Frame {
    opcode: 1,
    lifetime: 3600,
    body: Body::Map(COMMON),
    options: 60,
});

// A refusal before the request is understood, none of whose codes tells 30 seconds.
fn unparsed(code: Code) -> Refusal {
    Refusal {
        code,
        parsed: false,
        lifetime: 1800,
    }
}

fn refused(code: Code) -> Framed {
    Framed::Refuse(unparsed(code))
}

#[test]
fn requests(rt: HostRuntime) {
    let mut long = [0; 1104];
    long[..60].copy_from_slice(&REQUEST);
    let other = Address::v4(10, 0, 0, 6);
    assert!(rt; read_request(&long, &CLIENT) == refused(Code::MalformedRequest));
    assert!(rt; read_request(&REQUEST, &other) == refused(Code::AddressMismatch));
    assert!(rt; read_common(&REQUEST) == COMMON);
    assert!(rt; u32_of(&REQUEST, LIFETIME_PLACE) == 3600);
}

#[test]
fn plain_requests(rt: HostRuntime) {
    let other = Address::v4(10, 0, 0, 6);
    assert!(rt; is_plain_map(&REQUEST, &CLIENT));
    assert!(rt; !is_plain_map(&REQUEST, &other));
    assert!(rt; !is_plain_map(&REQUEST[..56], &CLIENT));
    let mut long = [0; 64];
    long[..60].copy_from_slice(&REQUEST);
    assert!(rt; !is_plain_map(&long, &CLIENT));
}

// What the request is when it is cut to this length.
fn framed_at(length: usize) -> Framed {
    match length {
        0..=23 => Framed::Silent,
        24..=59 => refused(Code::MalformedRequest),
        _ => WHOLE,
    }
}

// The same of version 1.
fn old_framed_at(length: usize) -> Framed {
    match length {
        0..=1 => Framed::Silent,
        _ => refused(Code::UnsuppVersion),
    }
}

// The first length to which the request or the old one is cut and is another.
fn first_other_cut(old: &[u8; 60]) -> Option<usize> {
    for length in 0..=60 {
        if read_request(&REQUEST[..length], &CLIENT) != framed_at(length) {
            return Some(length);
        }
        if read_request(&old[..length], &CLIENT) != old_framed_at(length) {
            return Some(length);
        }
    }
    None
}

#[test]
fn cut_requests(rt: HostRuntime) {
    let mut old = REQUEST;
    old[0] = 1;
    none_other(&rt, Ok(first_other_cut(&old)));
}

#[test]
fn heads(rt: HostRuntime) {
    let mut head = [0; 24];
    write_head(&mut head, 1, 0, 3600, 10, &[0; 12]);
    let want = [
        2, 0x81, 0, 0, 0, 0, 0x0e, 0x10, 0, 0, 0, 10, 0, 0, 0, 0, 0, 0, 0, 0, 0, 0, 0, 0,
    ];
    assert!(rt; head == want);
}

// The refusal of a request behind these octets; nothing more where the request is silent.
fn refusal_behind(alloc: Global, front: &[u8], request: &[u8]) -> Result<Vec<u8>, Memory> {
    let mut out = front.to_vec(alloc)?;
    if request.len() >= 2 {
        let refusal = unparsed(Code::UnsuppVersion);
        write_refusal(alloc, &mut out, request, refusal, 10)?;
    }
    Ok(out)
}

// of a request of 2 octets of version 1
#[test]
fn refusal_of_a_short_request(rt: HostRuntime) -> Result<(), Memory> {
    let want = [
        2, 0x81, 0, 1, 0, 0, 7, 8, 0, 0, 0, 10, 0, 0, 0, 0, 0, 0, 0, 0, 0, 0, 0, 0,
    ];
    let refusal = refusal_behind(rt.alloc(), b"", &[1, 1])?;
    assert!(rt; refusal.as_slice() == want.as_slice());
    Ok(())
}

// of a whole request of version 1, behind what was there
#[test]
fn refusal_of_a_whole_request(rt: HostRuntime) -> Result<(), Memory> {
    let mut old = REQUEST;
    old[0] = 1;
    let out = refusal_behind(rt.alloc(), b"front", &old)?;
    let head = [
        b'f', b'r', b'o', b'n', b't', 2, 0x81, 0, 1, 0, 0, 7, 8, 0, 0, 0, 10, 0, 0, 0, 0, 0, 0,
        0xff, 0xff, 10, 0, 0, 5,
    ];
    assert!(rt; out.starts_with(&head) && out.ends_with(&REQUEST[24..]) && out.len() == 65);
    Ok(())
}

// How long the refusal of a request of so many octets is.
fn refusal_length(alloc: Global, length: usize) -> Result<usize, Memory> {
    let request = vec![in alloc; 1u8; length]?;
    Ok(refusal_behind(alloc, b"", &request)?.len())
}

#[test]
fn refusals_are_padded_and_cut(rt: HostRuntime) {
    let padded = refusal_length(rt.alloc(), 26);
    let cut = refusal_length(rt.alloc(), 1102);
    assert!(rt; (padded, cut) == (Ok(28), Ok(1100)));
}
