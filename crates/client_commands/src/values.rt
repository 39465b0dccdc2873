//! What the values of options stand for.
ghost use Rattle.std.specs.Prelude.{◌≡◌, option_map};
ghost use Rattle.client_commands.specs.Commands.{IsOnly, external_range, lifetime_range, port_range, size_range, tries_range};
ghost use Rattle.pcp_base.specs.AddressTexts.{IsAddressText};
ghost use Rattle.client_commands.specs.Values.{IsAddressAt, IsNumberAt, IsNumberText, IsProtocolAt, flag_at};

use crate::commands::{DEFAULT_LIFETIME, DEFAULT_TRIES, MOST_TRIES};
use pcp_base::{Address, Protocol, read_number};

/// The address of a value.
pub(crate) fn address_at(given: Option<&str>) -> Option<Address>
    ensures { IsOnly (IsAddressAt (option_map (λ s. s.now) given.entry)) result }
{
    match given {
        Some(text) => read_address(text.as_bytes()),
        None => None,
    }
}

fn read_address(text: &[u8]) -> Option<Address>
    ensures { IsOnly (IsAddressText text.now) result }
{
    match Address::read(text) {
        Ok(address) => Some(address),
        Err(_error) => None,
    }
}

/// The protocol of a value.
pub(crate) fn protocol_at(given: Option<&str>) -> Option<Protocol>
    ensures { IsOnly (IsProtocolAt (option_map (λ s. s.now) given.entry)) result }
{
    let text = given?;
    if text == "tcp" {
        return Some(Protocol::Tcp);
    }
    if text == "udp" {
        return Some(Protocol::Udp);
    }
    None
}

/// The number of a value in its range, or its default.
pub(crate) fn number_at(
    given: Option<&str>,
    default: Option<u64>,
    low: u64,
    high: u64,
) -> Option<u64>
    ensures { IsOnly (IsNumberAt (record { default = default; low = low; high = high })
        (option_map (λ s. s.now) given.entry)) result }
{
    match given {
        Some(text) => number_in(text.as_bytes(), low, high),
        None => default,
    }
}

/// The number of a text in a range.
fn number_in(text: &[u8], low: u64, high: u64) -> Option<u64>
    ensures { IsOnly (IsNumberText low high text.now) result }
{
    let number = read_number(text, high)?;
    if number < low {
        return None;
    }
    Some(number)
}

/// The port of a value that must be there.
pub(crate) fn port_at(given: Option<&str>) -> Option<u16>
    ensures { IsOnly (IsNumberAt port_range (option_map (λ s. s.now) given.entry)) result }
{
    Some(number_at(given, None, 1, 65_535)? as u16)
}

/// The external port of a value, 0 where there is none.
pub(crate) fn external_at(given: Option<&str>) -> Option<u16>
    ensures { IsOnly (IsNumberAt external_range (option_map (λ s. s.now) given.entry)) result }
{
    Some(number_at(given, Some(0), 0, 65_535)? as u16)
}

/// The size of a value, 1 where there is none.
pub(crate) fn size_at(given: Option<&str>) -> Option<u16>
    ensures { IsOnly (IsNumberAt size_range (option_map (λ s. s.now) given.entry)) result }
{
    Some(number_at(given, Some(1), 1, 65_535)? as u16)
}

/// The lifetime of a value in seconds, or its default.
pub(crate) fn lifetime_at(given: Option<&str>) -> Option<u32>
    ensures { IsOnly (IsNumberAt lifetime_range (option_map (λ s. s.now) given.entry)) result }
{
    let default = u64::from(DEFAULT_LIFETIME);
    Some(number_at(given, Some(default), 1, 4_294_967_295)? as u32)
}

/// The tries of a value, or their default.
pub(crate) fn tries_at(given: Option<&str>) -> Option<u32>
    ensures { IsOnly (IsNumberAt tries_range (option_map (λ s. s.now) given.entry)) result }
{
    let default = u64::from(DEFAULT_TRIES);
    Some(number_at(given, Some(default), 1, u64::from(MOST_TRIES))? as u32)
}

/// Whether a flag is given.
pub(crate) fn flag_at(given: Option<&str>) -> bool
    ensures { result ≡ flag_at (option_map (λ s. s.now) given.entry) }
{
    match given {
        Some(text) => text == "true",
        None => false,
    }
}
