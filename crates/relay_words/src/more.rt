//! What the options among the words say of a relay.
ghost use Rattle.std.specs.Prelude.{◌≡◌, ◌≤◌, drop, IfOk, codes, length, map, option_map, string_bytes};
ghost use Rattle.client_commands.specs.Commands.{IsOnly};
ghost use Rattle.client_commands.specs.Values.{IsNumberAt, IsNumberText};
ghost use Rattle.relay_words.specs.Mores.{IsMore, more_with, rate_range};

use crate::lists::{InnerAddresses, addresses_of, prefixes_of};
use crate::splits::{first_of, values_in};
use pcp_base::{Address, Memory, Prefix, Prefixes, read_number};
use std::alloc::Global;

/// At how many inner addresses clients may ask.
pub const MOST_INNER: usize = 16;

/// How many prefixes of THIRD_PARTY the words may give.
pub const MOST_THIRD_PARTIES: usize = 16;

/// How many requests a second a relay takes of its clients, where its words don't say it.
pub const DEFAULT_RATE: u32 = 20;

/// The most requests a second.
pub const MOST_RATE: u32 = 100_000;

/// What the options among the words say of a relay.
#[derive(Drop)]
pub struct RelayMore {
    /// The inner addresses behind the first one, which is that of the command: with it at most
    /// [`MOST_INNER`].
    pub inner: InnerAddresses,
    /// Whose THIRD_PARTY is passed on, at most [`MOST_THIRD_PARTIES`] prefixes.
    pub third_party: Prefixes,
    /// How many requests of clients are taken in a second, 1 to [`MOST_RATE`].
    pub rate: u32,
}

/// The rate of a value, where one is given.
fn rate_at(given: Option<&str>) -> Option<u32>
    ensures { IsOnly (IsNumberAt rate_range (option_map (λ s. s.now) given.entry)) result }
{
    match given {
        Some(text) => read_rate(text.as_bytes()),
        None => Some(DEFAULT_RATE),
    }
}

fn read_rate(text: &[u8]) -> Option<u32>
    ensures { IsOnly (IsNumberText 1 100000 text.now) result }
{
    let number = read_number(text, 100_000)?;
    if number < 1 {
        return None;
    }
    Some(number as u32)
}

fn more_with(
    inner: Option<Vec<Address>>,
    third_party: Option<Vec<Prefix>>,
    rate: Option<u32>,
) -> Option<RelayMore>
    ensures { result ≡ more_with (option_map (λ a. a.items) inner)
        (option_map (λ p. p.items) third_party) rate }
{
    Some(RelayMore {
        inner: InnerAddresses::of(inner?),
        third_party: Prefixes::of(third_party?),
        rate: rate?,
    })
}

/// The texts behind the first one.
fn behind_first<'a, 'b>(texts: &'b [&'a str]) -> &'b [&'a str]
    ensures { map (λ s. s.now) result.now ≡ drop 1 (map (λ s. s.now) texts.now) }
{
    match texts {
        [] => texts,
        [_first, rest @ ..] => rest,
    }
}

/// What the words behind a command's name say.
pub(crate) fn more_in(alloc: Global, words: &[String]) -> Result<Option<RelayMore>, Memory>
    ensures { IfOk result (IsOnly (IsMore (map string_bytes words.now))) }
{
    let inner = values_in(alloc, words, "--inner")?;
    let thirds = values_in(alloc, words, "--third-party")?;
    let rates = values_in(alloc, words, "--rate")?;
    if inner.len() > MOST_INNER || thirds.len() > MOST_THIRD_PARTIES {
        return Ok(None);
    }
    if rates.len() > 1 {
        return Ok(None);
    }
    let addresses = addresses_of(alloc, behind_first(&inner))?;
    let prefixes = prefixes_of(alloc, &thirds)?;
    Ok(more_with(addresses, prefixes, rate_at(first_of(&rates))))
}
