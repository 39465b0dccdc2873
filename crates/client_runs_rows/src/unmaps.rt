//! Runs of `unmap`, and of `map` with a nonce that is given.
use crate::links::{Came, SOUND, run_in_memory};
use client_runs::ToolStatus;
use pcp_base::{Address, Code};
use std::test::Fail;

const SERVER: Address = Address([0, 0, 0, 0, 0, 0, 0, 0, 0, 0, 0xff, 0xff, 192, 0, 2, 9]);

const UNMAP: &str =
    "unmap --server 192.0.2.9 --own 10.0.0.5 --protocol udp --port 5000 --nonce 000102030405060708090a0b";

const MAP: &str =
    "map --server 192.0.2.9 --own 10.0.0.5 --protocol udp --port 5000 --lifetime 3600 --nonce 00000000000000000000000b --filter 198.51.100.0/24,443 --third-party 10.0.0.6";

// MAP of UDP port 5000 from 10.0.0.5 with lifetime 0 (RFC 6887, section 15).
static DELETION: [u8; 60] = [
    2, 1, 0, 0, 0, 0, 0, 0, 0, 0, 0, 0, 0, 0, 0, 0, 0, 0, 0xff, 0xff, 10, 0, 0, 5, 0, 1, 2, 3, 4,
    5, 6, 7, 8, 9, 10, 11, 17, 0, 0, 0, 0x13, 0x88, 0, 0, 0, 0, 0, 0, 0, 0, 0, 0, 0, 0, 0xff, 0xff,
    0, 0, 0, 0,
];

// Its success, at epoch 10.
static DELETED: [u8; 60] = [
    2, 0x81, 0, 0, 0, 0, 0, 0, 0, 0, 0, 10, 0, 0, 0, 0, 0, 0, 0, 0, 0, 0, 0, 0, 0, 1, 2, 3, 4, 5,
    6, 7, 8, 9, 10, 11, 17, 0, 0, 0, 0x13, 0x88, 0, 0, 0, 0, 0, 0, 0, 0, 0, 0, 0, 0, 0, 0, 0, 0, 0,
    0,
];

// Code 2 for 30 seconds.
static NOT_AUTHORIZED: [u8; 60] = [
    2, 0x81, 0, 2, 0, 0, 0, 30, 0, 0, 0, 10, 0, 0, 0, 0, 0, 0, 0, 0, 0, 0, 0, 0, 0, 1, 2, 3, 4, 5,
    6, 7, 8, 9, 10, 11, 17, 0, 0, 0, 0x13, 0x88, 0, 0, 0, 0, 0, 0, 0, 0, 0, 0, 0, 0, 0xff, 0xff, 0,
    0, 0, 0,
];

// MAP with THIRD_PARTY (RFC 6887, section 13.1) and FILTER (section 13.3), for an hour.
static MAP_REQUEST: [u8; 104] = [
    2, 1, 0, 0, 0, 0, 0x0e, 0x10, 0, 0, 0, 0, 0, 0, 0, 0, 0, 0, 0xff, 0xff, 10, 0, 0, 5, 0, 0, 0,
    0, 0, 0, 0, 0, 0, 0, 0, 11, 17, 0, 0, 0, 0x13, 0x88, 0, 0, 0, 0, 0, 0, 0, 0, 0, 0, 0, 0, 0xff,
    0xff, 0, 0, 0, 0, 1, 0, 0, 16, 0, 0, 0, 0, 0, 0, 0, 0, 0, 0, 0xff, 0xff, 10, 0, 0, 6, 3, 0, 0,
    20, 0, 120, 1, 0xbb, 0, 0, 0, 0, 0, 0, 0, 0, 0, 0, 0xff, 0xff, 198, 51, 100, 0,
];

#[test]
fn a_mapping_is_deleted(rt: HostRuntime) -> Result<(), Fail> {
    let turns = [(20, Came::Packet(SERVER, &DELETED))];
    let ended = run_in_memory(rt.alloc(), UNMAP, &turns, &SOUND)?;
    assert!(rt; ended.status == ToolStatus::Done);
    assert!(rt; ended.out.held() == b"deleted 10\n".as_slice());
    assert!(rt;
        ended
            .up
            .sent()
            .iter()
            .all(|sent| sent.octets.items() == DELETION.as_slice())
    );
    Ok(())
}

#[test]
fn a_deletion_is_refused(rt: HostRuntime) -> Result<(), Fail> {
    let turns = [(20, Came::Packet(SERVER, &NOT_AUTHORIZED))];
    let ended = run_in_memory(rt.alloc(), UNMAP, &turns, &SOUND)?;
    assert!(rt; ended.status == ToolStatus::Refused(Code::NotAuthorized));
    assert!(rt; ended.out.held() == b"refused 2 30\n".as_slice());
    Ok(())
}

#[test]
fn what_the_words_say_is_asked(rt: HostRuntime) -> Result<(), Fail> {
    let ended = run_in_memory(rt.alloc(), MAP, &[], &SOUND)?;
    assert!(rt; ended.status == ToolStatus::Stopped && ended.up.sent().len() == 1);
    assert!(rt;
        ended
            .up
            .sent()
            .iter()
            .all(|sent| sent.octets.items() == MAP_REQUEST.as_slice())
    );
    Ok(())
}
