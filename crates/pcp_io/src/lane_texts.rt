//! The texts by which a lane is asked over a socket, and answers.
ghost use Rattle.std.specs.Prelude.{◌≤◌, IfOk};

use crate::lane_links::LaneAsk;
use pcp_base::{Address, Endpoint, Protocol, read_number};
use std::io;
use std::io::Write;
use std::net::Ipv6Addr;

/// How many octets of an ask are read, and how many an answer may have. The longest ask has 52, the
/// longest answer 47.
pub(crate) const ROOM: usize = 64;

/// What stands before the first space, and what behind it.
fn split_at_space(text: &[u8]) -> Option<(&[u8], &[u8])> {
    let at = text.iter().position(|octet| *octet == b' ')?;
    Some((&text[..at], &text[at + 1..]))
}

/// A decimal port, of at least this number.
fn read_port(text: &[u8], least: u16) -> Option<u16> {
    let port = read_number(text, u64::from(u16::MAX))?;
    if port < u64::from(least) {
        return None;
    }
    Some(port as u16)
}

/// The number of a protocol.
fn read_protocol(text: &[u8]) -> Option<Protocol> {
    let number = read_number(text, u64::from(u8::MAX))?;
    Protocol::of(number as u8)
}

/// What stands behind `look `: `PROTOCOL PORT REMOTE REMOTEPORT`.
fn read_look(text: &[u8]) -> Option<LaneAsk> {
    let (protocol, text) = split_at_space(text)?;
    let (port, text) = split_at_space(text)?;
    let (remote, remote_port) = split_at_space(text)?;
    Some(LaneAsk::Look {
        protocol: read_protocol(protocol)?,
        port: read_port(port, 1)?,
        remote: Address::read(remote).ok()?,
        remote_port: read_port(remote_port, 0)?,
    })
}

/// What a text asks.
pub(crate) fn read_ask(text: &[u8]) -> LaneAsk {
    if text == b"stop".as_slice() {
        return LaneAsk::Stop;
    }
    match text.strip_prefix(b"look ") {
        Some(look) => read_look(look).unwrap_or(LaneAsk::Quiet),
        None => LaneAsk::Quiet,
    }
}

/// Writes `owner ADDRESS PROTOCOL PORT`.
fn write_owner<W: Write>(out: &mut W, owner: &Endpoint) -> io::Result<()> {
    let address = Ipv6Addr::from_octets(owner.address.0);
    let (protocol, port) = (owner.protocol.number(), owner.port);
    match address.to_ipv4_mapped() {
        Some(v4) => write!(out, "owner {v4} {protocol} {port}"),
        None => write!(out, "owner {:032x} {protocol} {port}", address.to_bits()),
    }
}

/// Writes an answer into the front of the room, and says how many octets it has.
pub(crate) fn write_answer(owner: &Option<Endpoint>, room: &mut [u8; ROOM]) -> io::Result<usize>
    ensures { IfOk result (λ n. n ≤ ROOM) }
{
    let mut rest = room.as_mut_slice();
    match owner {
        Some(owner) => write_owner(&mut rest, owner)?,
        None => rest.write_all(b"none")?,
    }
    Ok(ROOM.saturating_sub(rest.len()))
}
