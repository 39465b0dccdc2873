//! Fields of a message, where what lies past its end reads as zero.
ghost use Rattle.std.specs.Prelude.{◌≡◌, ◌+◌, ◌<◌, ◌^◌, length};
ghost use Rattle.std.specs.Int.{from_be_bytes, w16, w32};
ghost use Rattle.pcp_codec.specs.Fields.{octet, octets_at, u16_at, u32_at};
ghost use Rattle.pcp_codec.specs.Requests.{opcode_of};

use crate::layout::R_BIT;

/// The octet at a place.
pub fn octet_of(message: &[u8], place: usize) -> u8
    ensures { result ≡ octet message.now place }
{
    message.get(place).copied().unwrap_or(0)
}

/// The `N` octets from a place on.
pub fn octets_of<const N: usize>(message: &[u8], place: usize) -> [u8; N]
    requires { place + N < 2 ^ 64 }
    ensures { result ≡ octets_at message.now place N }
{
    let start = place.min(message.len());
    match message[start..].first_chunk::<N>() {
        Some(octets) => *octets,
        None => padded_octets(message, place),
    }
}

/// The same where the message may end before.
fn padded_octets<const N: usize>(message: &[u8], place: usize) -> [u8; N]
    requires { place + N < 2 ^ 64 }
    ensures { result ≡ octets_at message.now place N }
{
    let mut octets = [0u8; N];
    copy_octets(message, place, &mut octets);
    octets
}

/// The number of two octets from a place on.
pub fn u16_of(message: &[u8], place: usize) -> u16
    requires { place + 2 < 2 ^ 64 }
    ensures { result ≡ u16_at message.now place }
{
    u16::from_be_bytes(octets_of(message, place))
}

/// The number of four octets from a place on.
pub fn u32_of(message: &[u8], place: usize) -> u32
    requires { place + 4 < 2 ^ 64 }
    ensures { result ≡ u32_at message.now place }
{
    u32::from_be_bytes(octets_of(message, place))
}

/// The seven bits after the R bit.
pub(crate) fn opcode_in(message: &[u8]) -> u8
    ensures value { result ≡ opcode_of message.now }
    ensures seven_bits { result < 128 }
{
    octet_of(message, 1) % R_BIT
}

/// Copies the octets of a message from a place on over the whole piece.
pub(crate) fn copy_octets(message: &[u8], place: usize, piece: &mut [u8])
    requires { place + length piece.old < 2 ^ 64 }
    ensures { piece.new ≡ octets_at message.now place (length piece.old) }
{
    let start = place.min(message.len());
    let there = &message[start..];
    let count = there.len().min(piece.len());
    let (front, behind) = piece.split_at_mut(count);
    front.copy_from_slice(&there[..count]);
    behind.fill(0);
}
