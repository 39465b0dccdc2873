//! Addresses and prefixes in text.
ghost use Rattle.std.specs.Prelude.{IfOk, map, option_map};
ghost use Rattle.pcp_base.specs.AddressTexts.{IsAddressText, IsPrefixText};
ghost use Rattle.client_commands.specs.Commands.{IsOnly};
ghost use Rattle.relay_words.specs.Lists.{Adds, AreAll};

use pcp_base::{Address, Listed, Memory, Prefix};
use std::alloc::Global;

/// Inner addresses, in the order of their doors.
pub type InnerAddresses = Listed<Address>;

fn address_of(text: &[u8]) -> Option<Address>
    ensures { IsOnly (IsAddressText text.now) result }
{
    match Address::read(text) {
        Ok(address) => Some(address),
        Err(_error) => None,
    }
}

fn prefix_of(text: &[u8]) -> Option<Prefix>
    ensures { IsOnly (IsPrefixText text.now) result }
{
    match Prefix::read(text) {
        Ok(prefix) => Some(prefix),
        Err(_error) => None,
    }
}

/// Appends the addresses of the texts; false where one is none.
fn add_addresses(texts: &[&str], addresses: &mut Vec<Address>) -> Result<bool, Memory>
    ensures { IfOk result (Adds IsAddressText (map (λ s. s.now) texts.now) addresses.old.items
        addresses.new.items) }
{
    let [text, rest @ ..] = texts else {
        return Ok(true);
    };
    let Some(address) = address_of(text.as_bytes()) else {
        return Ok(false);
    };
    addresses.push(address)?;
    add_addresses(rest, addresses)
}

/// Appends the prefixes of the texts; false where one is none.
fn add_prefixes(texts: &[&str], prefixes: &mut Vec<Prefix>) -> Result<bool, Memory>
    ensures { IfOk result (Adds IsPrefixText (map (λ s. s.now) texts.now) prefixes.old.items
        prefixes.new.items) }
{
    let [text, rest @ ..] = texts else {
        return Ok(true);
    };
    let Some(prefix) = prefix_of(text.as_bytes()) else {
        return Ok(false);
    };
    prefixes.push(prefix)?;
    add_prefixes(rest, prefixes)
}

/// The addresses of the texts; none where one is none.
pub(crate) fn addresses_of(alloc: Global, texts: &[&str]) -> Result<Option<Vec<Address>>, Memory>
    ensures { IfOk result (λ found. IsOnly (AreAll IsAddressText (map (λ s. s.now) texts.now))
        (option_map (λ addresses. addresses.items) found)) }
{
    let mut addresses = Vec::new(alloc);
    if add_addresses(texts, &mut addresses)? {
        Ok(Some(addresses))
    } else {
        Ok(None)
    }
}

/// The prefixes of the texts; none where one is none.
pub(crate) fn prefixes_of(alloc: Global, texts: &[&str]) -> Result<Option<Vec<Prefix>>, Memory>
    ensures { IfOk result (λ found. IsOnly (AreAll IsPrefixText (map (λ s. s.now) texts.now))
        (option_map (λ prefixes. prefixes.items) found)) }
{
    let mut prefixes = Vec::new(alloc);
    if add_prefixes(texts, &mut prefixes)? {
        Ok(Some(prefixes))
    } else {
        Ok(None)
    }
}
