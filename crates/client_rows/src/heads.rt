//! Heads of responses.
use pcp_base::Code;
use pcp_codec::{Head, read_response_head};

// A success for a MAP request: 192.0.2.1, port 1024, for an hour, at epoch 10.
const REPLY: [u8; 60] = [
    2, 0x81, 0, 0, 0, 0, 0x0e, 0x10, 0, 0, 0, 10, 0, 0, 0, 0, 0, 0, 0, 0, 0, 0, 0, 0, 0, 1, 2, 3,
    4, 5, 6, 7, 8, 9, 10, 11, 17, 0, 0, 0, 0x13, 0x88, 4, 0, 0, 0, 0, 0, 0, 0, 0, 0, 0, 0, 0xff,
    0xff, 192, 0, 2, 1,
];

// The first octets of that reply or of another, and the opcode and code that are read. PEER has no room.
static FRONTS: [([u8; 4], Option<(u8, Code)>); 9] = [
    ([2, 0x81, 0, 0], Some((1, Code::Success))),
    ([2, 0x80, 9, 0], Some((0, Code::Success))),
    ([2, 0x81, 0, 2], Some((1, Code::NotAuthorized))),
    ([2, 0x81, 0, 13], Some((1, Code::ExcessiveRemotePeers))),
    ([2, 0x81, 0, 14], None),
    ([2, 0x82, 0, 0], None),
    ([2, 0x83, 0, 0], None),
    ([2, 1, 0, 0], None),
    ([1, 0x81, 0, 0], None),
];

const WHOLE: Head = Head {
    opcode: 1,
    code: Code::Success,
    lifetime: 3600,
    epoch: 10,
};

#[test]
fn cut_heads(rt: HostRuntime) {
    for n in 0..=60 {
        let want = if n == 60 { Some(WHOLE) } else { None };
        assert!(rt; read_response_head(&REPLY[..n]).ok() == want, "cut to {n}");
    }
}

#[test]
fn heads_of_each_kind(rt: HostRuntime) {
    for (front, want) in &FRONTS {
        let mut reply = REPLY;
        reply[..4].copy_from_slice(front);
        let read = read_response_head(&reply).ok();
        assert!(rt; read.map(|head| (head.opcode, head.code)) == *want);
    }
}

#[test]
fn heads_of_long_responses(rt: HostRuntime) {
    let mut long = [0; 1104];
    long[..60].copy_from_slice(&REPLY);
    assert!(rt; read_response_head(&long[..1100]).ok() == Some(WHOLE));
    assert!(rt; read_response_head(&long).is_err());
}
