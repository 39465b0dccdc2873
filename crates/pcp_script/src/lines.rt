//! Lines of a script.
ghost use Rattle.std.specs.Prelude.{◌≡◌, ◌≢◌, ℕ, ◌<◌, ◌⊎◌, ◌↔◌, List, [], ◌∷◌, slice_get, Some, IsTrue, IfOk, IfSome, IfNone, Err, map, length};
ghost use Rattle.std.specs.List.{AllByRecursion};
ghost use Rattle.pcp_base.specs.declared.datagrams.Datagram.{Datagram};
ghost use Rattle.pcp_base.specs.declared.configs.External.{External};
ghost use Rattle.pcp_script.specs.Lines.{IsLine, IsPacket, StandsFor, HasOctets};
ghost use Rattle.pcp_script.specs.FieldTexts.{look_texts, packet_texts};
ghost use Rattle.pcp_script.specs.declared.lines.Line.{Line};
ghost use Rattle.pcp_script.specs.declared.lines.LineRefused.{LineRefused};

use crate::fields::{fields_of, read_external, read_moment, read_octets, read_port, read_protocol};
use pcp_base::{Address, Config, Datagram, External, Moment, Protocol};
use std::alloc::Global;
use thiserror::Error;

/// The most octets that a line of a script may have, without its line feed.
pub const LONGEST_LINE: usize = 8_192;

/// A line of a script. A shard is told by the index of its external address.
#[derive(Debug, Drop)]
pub enum Line {
    /// An empty line or a comment.
    Skip,
    /// A datagram that comes at a moment.
    Packet(Moment, Datagram),
    /// Who owns an external port, as a remote peer sees it.
    Look {
        moment: Moment,
        /// Below 16.
        shard: u32,
        protocol: Protocol,
        /// The external port, 1 to 65535.
        port: u16,
        remote: Address,
        /// 0 to 65535.
        remote_port: u16,
    },
    /// A shard loses its leases at a moment.
    Lose(Moment, u32),
    /// The owners of all ports of a shard at a moment.
    Owners(Moment, u32),
}

/// Why no line was read.
#[derive(Clone, Copy, Debug, PartialEq, Eq, Error)]
pub enum LineRefused {
    /// The text stands for no line.
    #[error("not a line")]
    NotLine,
    /// No memory was found.
    #[error("out of memory")]
    Memory,
}

// The fields of a line that tells a datagram.
#[derive(Clone, Copy)]
struct PacketFields<'a> {
    word: &'a [u8],
    moment: &'a [u8],
    peer: &'a [u8],
    port: &'a [u8],
    hex: &'a [u8],
}

// The fields of a line that asks about an external port.
#[derive(Clone, Copy)]
struct LookFields<'a> {
    word: &'a [u8],
    moment: &'a [u8],
    external: &'a [u8],
    protocol: &'a [u8],
    port: &'a [u8],
    remote: &'a [u8],
    remote_port: &'a [u8],
}

/// The line that the text stands for, which is given without its line feed: `NotLine` exactly where it
/// stands for none.
pub fn read_line(alloc: Global, config: &Config, text: &[u8]) -> Result<Line, LineRefused>
    ensures line { IfOk result (IsLine config.now.externals text.now) }
    ensures octets { IfOk result HasOctets }
    ensures refused { result ≡ Err LineRefused.NotLine →
        (line : Line) → ¬ (IsLine config.now.externals text.now line) }
{
    if text.len() > LONGEST_LINE {
        return Err(LineRefused::NotLine);
    }
    if is_skipped(text) {
        return Ok(Line::Skip);
    }
    let Ok(fields) = fields_of(alloc, text) else {
        return Err(LineRefused::Memory);
    };
    read_fields(alloc, config.externals.items(), &fields)
}

// Whether the line is empty or a comment.
fn is_skipped(text: &[u8]) -> bool
    ensures { IsTrue result ↔ ((text.now ≡ []) ⊎ (slice_get text.now 0 ≡ Some 35)) }
{
    matches!(text, [] | [b'#', ..])
}

/// The line that these fields stand for.
fn read_fields(alloc: Global, externals: &[External], fields: &[&[u8]]) -> Result<Line, LineRefused>
    ensures line { IfOk result (StandsFor externals.now (map (λ f. f.now) fields.now)) }
    ensures octets { IfOk result HasOctets }
    ensures refused { result ≡ Err LineRefused.NotLine →
        (line : Line) → ¬ (StandsFor externals.now (map (λ f. f.now) fields.now) line) }
{
    match fields.len() {
        3 => event_of(externals, fields).ok_or(LineRefused::NotLine),
        5 => {
            let (moment, from) = packet_of(alloc, fields)?;
            Ok(Line::Packet(moment, from))
        }
        7 => look_of(externals, fields).ok_or(LineRefused::NotLine),
        _ => Err(LineRefused::NotLine),
    }
}

// The line of three fields.
fn event_of(externals: &[External], fields: &[&[u8]]) -> Option<Line>
    ensures line { IfSome result (StandsFor externals.now (map (λ f. f.now) fields.now)) }
    ensures octets { IfSome result HasOctets }
    ensures none { IfNone result (length fields.now ≡ 3 →
        (line : Line) → ¬ (StandsFor externals.now (map (λ f. f.now) fields.now) line)) }
{
    let [word, moment, external] = fields else {
        return None;
    };
    read_event(externals, word, moment, external)
}

// The line of five fields.
fn packet_of(alloc: Global, fields: &[&[u8]]) -> Result<(Moment, Datagram), LineRefused>
    ensures packet { IfOk result (λ p. IsPacket (map (λ f. f.now) fields.now) p.0 p.1) }
    ensures octets { IfOk result (λ p. AllByRecursion (λ x. x < 256) p.1.octets) }
    ensures refused { result ≡ Err LineRefused.NotLine → length fields.now ≡ 5 →
        (m : ℕ) (from : Datagram) → ¬ (IsPacket (map (λ f. f.now) fields.now) m from) }
{
    let Some(packet) = packet_fields(fields) else {
        return Err(LineRefused::NotLine);
    };
    read_packet(alloc, packet)
}

fn packet_fields<'a>(fields: &[&'a [u8]]) -> Option<PacketFields<'a>>
    ensures texts { IfSome result (λ packet.
        map (λ f. f.now) fields.now ≡ packet_texts packet) }
    ensures none { IfNone result (length fields.now ≢ 5) }
{
    let [word, moment, peer, port, hex] = fields else {
        return None;
    };
    Some(PacketFields {
        word,
        moment,
        peer,
        port,
        hex,
    })
}

// The line of seven fields.
fn look_of(externals: &[External], fields: &[&[u8]]) -> Option<Line>
    ensures line { IfSome result (StandsFor externals.now (map (λ f. f.now) fields.now)) }
    ensures octets { IfSome result HasOctets }
    ensures none { IfNone result (length fields.now ≡ 7 →
        (line : Line) → ¬ (StandsFor externals.now (map (λ f. f.now) fields.now) line)) }
{
    let Some(look) = look_fields(fields) else {
        return None;
    };
    read_look(externals, look)
}

fn look_fields<'a>(fields: &[&'a [u8]]) -> Option<LookFields<'a>>
    ensures texts { IfSome result (λ look. map (λ f. f.now) fields.now ≡ look_texts look) }
    ensures none { IfNone result (length fields.now ≢ 7) }
{
    let [word, moment, external, protocol, port, remote, remote_port] = fields else {
        return None;
    };
    Some(LookFields {
        word,
        moment,
        external,
        protocol,
        port,
        remote,
        remote_port,
    })
}

/// The line of a word, a moment and an external address.
fn read_event(externals: &[External], word: &[u8], moment: &[u8], external: &[u8]) -> Option<Line>
    ensures line { IfSome result
        (StandsFor externals.now (word.now ∷ moment.now ∷ external.now ∷ [])) }
    ensures octets { IfSome result HasOctets }
    ensures none { IfNone result ((line : Line) →
        ¬ (StandsFor externals.now (word.now ∷ moment.now ∷ external.now ∷ []) line)) }
{
    let moment = read_moment(moment)?;
    let shard = read_external(externals, external)?;
    if word == b"lose".as_slice() {
        Some(Line::Lose(moment, shard))
    } else if word == b"owners".as_slice() {
        Some(Line::Owners(moment, shard))
    } else {
        None
    }
}

/// A datagram and the moment at which it comes.
fn read_packet(alloc: Global, fields: PacketFields<'_>) -> Result<(Moment, Datagram), LineRefused>
    ensures packet { IfOk result (λ p. IsPacket (packet_texts fields.entry) p.0 p.1) }
    ensures octets { IfOk result (λ p. AllByRecursion (λ x. x < 256) p.1.octets) }
    ensures refused { result ≡ Err LineRefused.NotLine → (m : ℕ) (from : Datagram) →
        ¬ (IsPacket (packet_texts fields.entry) m from) }
{
    if fields.word != b"packet".as_slice() {
        return Err(LineRefused::NotLine);
    }
    let Some(moment) = read_moment(fields.moment) else {
        return Err(LineRefused::NotLine);
    };
    let Ok(peer) = Address::read(fields.peer) else {
        return Err(LineRefused::NotLine);
    };
    let Some(port) = read_port(fields.port) else {
        return Err(LineRefused::NotLine);
    };
    let octets = read_octets(alloc, fields.hex)?;
    Ok((
        moment,
        Datagram {
            peer,
            port,
            door: 0,
            octets,
        },
    ))
}

/// What is asked about an external port.
fn read_look(externals: &[External], fields: LookFields<'_>) -> Option<Line>
    ensures line { IfSome result (StandsFor externals.now (look_texts fields.entry)) }
    ensures octets { IfSome result HasOctets }
    ensures none { IfNone result ((line : Line) →
        ¬ (StandsFor externals.now (look_texts fields.entry) line)) }
{
    if fields.word != b"look".as_slice() {
        return None;
    }
    let moment = read_moment(fields.moment)?;
    let shard = read_external(externals, fields.external)?;
    let protocol = read_protocol(fields.protocol)?;
    let port = read_port(fields.port)?;
    let Ok(remote) = Address::read(fields.remote) else {
        return None;
    };
    let remote_port = read_port(fields.remote_port)?;
    if port == 0 {
        return None;
    }
    Some(Line::Look {
        moment,
        shard,
        protocol,
        port,
        remote,
        remote_port,
    })
}
