//! The fields of a line.
ghost use Rattle.std.specs.Prelude.{◌≡◌, ℕ, ◌<◌, List, ◌∷◌, ◌++◌, map, Err, IfSome, IfNone, IfOk};
ghost use Rattle.std.specs.List.{AllByRecursion, position_from};
ghost use Rattle.pcp_base.specs.Tables.{same_address};
ghost use Rattle.pcp_base.specs.declared.configs.External.{External};
ghost use Rattle.pcp_base.specs.declared.leases.Protocol.{Protocol};
ghost use Rattle.pcp_script.specs.Fields.{IsMomentField, IsPortField, IsProtocolField, IsHexField, IsExternalField};
ghost use Rattle.pcp_script.specs.Words.{IsWord, AreFields};
ghost use Rattle.pcp_script.specs.declared.lines.LineRefused.{LineRefused};

use crate::lines::LineRefused;
use hex::FromHexError;
use pcp_base::{Address, External, MOST_EXTERNALS, Memory, Moment, Octets, Protocol, read_number};
use std::alloc::Global;

// The last moment.
const LAST: u64 = (1 << 40) - 1;

// A field of hexadecimal digits has at most these, two for each octet.
const MOST_DIGITS: usize = 4_096;

/// The fields of a line, which its spaces part; at least one.
pub(crate) fn fields_of<'a>(alloc: Global, text: &'a [u8]) -> Result<Vec<&'a [u8]>, Memory>
    ensures { IfOk result (λ fields. AreFields text.now (map (λ f. f.now) fields.items)) }
{
    let mut fields = Vec::new(alloc);
    let mut rest = text;
    while let Some((field, behind)) = split_at_space(rest) {
        fields.push(field)?;
        rest = behind;
    }
    fields.push(rest)?;
    Ok(fields)
}

/// What stands before the first space, and what behind it.
fn split_at_space(text: &[u8]) -> Option<(&[u8], &[u8])>
    ensures parts { IfSome result (λ parts.
        (text.now ≡ parts.0.now ++ 32 ∷ parts.1.now) × IsWord parts.0.now) }
    ensures none { IfNone result (IsWord text.now) }
{
    let at = text.iter().position(|c| *c == b' ')?;
    Some((&text[..at], &text[at + 1..]))
}

/// A decimal moment.
pub(crate) fn read_moment(text: &[u8]) -> Option<Moment>
    ensures value { IfSome result (IsMomentField text.now) }
    ensures none { IfNone result ((moment : ℕ) → ¬ (IsMomentField text.now moment)) }
{
    Moment::of(read_number(text, LAST)?)
}

/// A decimal port, 0 to 65535.
pub(crate) fn read_port(text: &[u8]) -> Option<u16>
    ensures value { IfSome result (IsPortField text.now) }
    ensures none { IfNone result ((port : ℕ) → ¬ (IsPortField text.now port)) }
{
    let port = read_number(text, u64::from(u16::MAX))?;
    Some(port as u16)
}

/// The number of a protocol.
pub(crate) fn read_protocol(text: &[u8]) -> Option<Protocol>
    ensures value { IfSome result (IsProtocolField text.now) }
    ensures none { IfNone result ((protocol : Protocol) → ¬ (IsProtocolField text.now protocol)) }
{
    let number = read_number(text, u64::from(u8::MAX))?;
    Protocol::of(number as u8)
}

/// The index of the external address that the text writes.
pub(crate) fn read_external(externals: &[External], text: &[u8]) -> Option<u32>
    ensures value { IfSome result (IsExternalField externals.now text.now) }
    ensures none { IfNone result ((shard : ℕ) → ¬ (IsExternalField externals.now text.now shard)) }
{
    let Ok(address) = Address::read(text) else {
        return None;
    };
    let shard = place_of_external(externals, &address)?;
    if shard < MOST_EXTERNALS {
        Some(shard as u32)
    } else {
        None
    }
}

/// The place of the first external that has the address.
fn place_of_external(externals: &[External], address: &Address) -> Option<usize>
    ensures { result ≡
        position_from (λ external. same_address external.address address.now) 0 externals.now }
{
    externals
        .iter()
        .position(|external| external.address == *address)
}

/// The octets of a field of hexadecimal digits; `-` for none.
pub(crate) fn read_octets(alloc: Global, text: &[u8]) -> Result<Octets, LineRefused>
    ensures field { IfOk result (IsHexField text.now) }
    ensures octets { IfOk result (AllByRecursion (λ x. x < 256)) }
    ensures refused { result ≡ Err LineRefused.NotLine →
        (octets : List ℕ) → ¬ (IsHexField text.now octets) }
{
    if matches!(text, [b'-']) {
        return Ok(Octets::of(Vec::new(alloc)));
    }
    if text.is_empty() || text.len() > MOST_DIGITS {
        return Err(LineRefused::NotLine);
    }
    match hex::decode(alloc, text) {
        Ok(octets) => Ok(Octets::of(octets)),
        Err(FromHexError::OutOfMemory) => Err(LineRefused::Memory),
        Err(_) => Err(LineRefused::NotLine),
    }
}
