//! Filters in text.
ghost use Rattle.std.specs.Prelude.{◌≡◌, ℕ, ◌<◌, List, IfOk, IfSome, length, map, option_map};
ghost use Rattle.pcp_base.specs.AddressTexts.{IsPrefixText};
ghost use Rattle.client_commands.specs.Commands.{IsOnly};
ghost use Rattle.client_commands.specs.Values.{IsNumberAt, IsNumberText};
ghost use Rattle.client_words.specs.Filters.{AddsFilters, AreFilters, IsFilterText, before_comma, behind_comma, comma_in, filter_with, remote_range};

use pcp_base::{Filter, Memory, Prefix, read_number};
use std::alloc::Global;

/// The most filters that the words may give.
pub const MOST_FILTERS: usize = 8;

fn comma_in(text: &[u8]) -> Option<usize>
    ensures value { result ≡ comma_in text.now }
    ensures there { IfSome result (λ at. at < length text.now) }
{
    text.iter().position(|octet| *octet == b',')
}

fn before_comma(text: &[u8]) -> &[u8]
    ensures { result.now ≡ before_comma text.now }
{
    match comma_in(text) {
        Some(at) => &text[..at],
        None => text,
    }
}

fn behind_comma(text: &[u8]) -> Option<&[u8]>
    ensures { option_map (λ s. s.now) result ≡ behind_comma text.now }
{
    match comma_in(text) {
        Some(at) => Some(&text[at + 1..]),
        None => None,
    }
}

fn prefix_in(text: &[u8]) -> Option<Prefix>
    ensures { IsOnly (IsPrefixText text.now) result }
{
    match Prefix::read(text) {
        Ok(prefix) => Some(prefix),
        Err(_error) => None,
    }
}

/// The remote port of a text, 0 where there is none.
fn port_at(given: Option<&[u8]>) -> Option<u16>
    ensures { IsOnly (IsNumberAt remote_range (option_map (λ s. s.now) given.entry)) result }
{
    match given {
        Some(text) => read_port(text),
        None => Some(0),
    }
}

fn read_port(text: &[u8]) -> Option<u16>
    ensures { IsOnly (IsNumberText 1 65535 text.now) result }
{
    let number = read_number(text, 65_535)?;
    if number < 1 {
        return None;
    }
    Some(number as u16)
}

fn filter_with(prefix: Option<Prefix>, port: Option<u16>) -> Option<Filter>
    ensures { result ≡ filter_with prefix port }
{
    let prefix = prefix?;
    Some(Filter {
        prefix: prefix.bits,
        port: port?,
        remote: prefix.address,
    })
}

/// The filter that a text writes: `PREFIX` or `PREFIX,PORT`.
fn filter_of(text: &[u8]) -> Option<Filter>
    ensures { IsOnly (IsFilterText text.now) result }
{
    filter_with(prefix_in(before_comma(text)), port_at(behind_comma(text)))
}

/// Appends the filters of the texts; false where one is none.
fn add_filters(texts: &[&str], filters: &mut Vec<Filter>) -> Result<bool, Memory>
    ensures { IfOk result (AddsFilters (map (λ s. s.now) texts.now) filters.old.items
        filters.new.items) }
{
    let [text, rest @ ..] = texts else {
        return Ok(true);
    };
    let Some(filter) = filter_of(text.as_bytes()) else {
        return Ok(false);
    };
    filters.push(filter)?;
    add_filters(rest, filters)
}

/// The filters of the texts; none where one is none.
pub(crate) fn filters_of(alloc: Global, texts: &[&str]) -> Result<Option<Vec<Filter>>, Memory>
    ensures { IfOk result (λ found. IsOnly (AreFilters (map (λ s. s.now) texts.now))
        (option_map (λ filters. filters.items) found)) }
{
    let mut filters = Vec::new(alloc);
    if add_filters(texts, &mut filters)? {
        Ok(Some(filters))
    } else {
        Ok(None)
    }
}
