//! What the values of options stand for.
ghost use Rattle.std.specs.Prelude.{option_map};
ghost use Rattle.client_commands.specs.Commands.{IsOnly, port_range};
ghost use Rattle.client_commands.specs.Values.{IsAddressAt, IsNumberAt, IsNumberText};
ghost use Rattle.pcp_base.specs.AddressTexts.{IsAddressText};
ghost use Rattle.proxy_commands.specs.Keys.{IsKeyAt, IsKeyText};

use hex::FromHex;
use pcp_base::{Address, read_number};

/// The address of a value.
pub(crate) fn address_at(given: Option<&str>) -> Option<Address>
    ensures { IsOnly (IsAddressAt (option_map (λ s. s.now) given.entry)) result }
{
    match given {
        Some(text) => read_address(text.as_bytes()),
        None => None,
    }
}

fn read_address(text: &[u8]) -> Option<Address>
    ensures { IsOnly (IsAddressText text.now) result }
{
    match Address::read(text) {
        Ok(address) => Some(address),
        Err(_error) => None,
    }
}

/// The key of a value.
pub(crate) fn key_at(given: Option<&str>) -> Option<[u8; 32]>
    ensures { IsOnly (IsKeyAt (option_map (λ s. s.now) given.entry)) result }
{
    match given {
        Some(text) => read_key(text.as_bytes()),
        None => None,
    }
}

fn read_key(text: &[u8]) -> Option<[u8; 32]>
    ensures { IsOnly (IsKeyText text.now) result }
{
    match <[u8; 32] as FromHex>::from_hex(text) {
        Ok(key) => Some(key),
        Err(_error) => None,
    }
}

/// The port of a value that must be there.
pub(crate) fn port_at(given: Option<&str>) -> Option<u16>
    ensures { IsOnly (IsNumberAt port_range (option_map (λ s. s.now) given.entry)) result }
{
    match given {
        Some(text) => read_port(text.as_bytes()),
        None => None,
    }
}

/// The port of a text, from 1 on.
fn read_port(text: &[u8]) -> Option<u16>
    ensures { IsOnly (IsNumberText 1 65535 text.now) result }
{
    let number = read_number(text, 65_535)?;
    if number < 1 {
        return None;
    }
    Some(number as u16)
}
