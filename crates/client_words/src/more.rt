//! What the options among the words say of a mapping.
ghost use Rattle.std.specs.Prelude.{◌≡◌, Some, IfOk, map, option_map, string_bytes};
ghost use Rattle.pcp_base.specs.AddressTexts.{IsAddressText};
ghost use Rattle.client_commands.specs.Commands.{IsOnly};
ghost use Rattle.client_words.specs.Mores.{IsMore, IsThirdAt, more_with};

use crate::filters::{MOST_FILTERS, filters_of};
use crate::nonces::nonce_given;
use crate::splits::{first_of, values_in};
use pcp_base::{Address, Filter, FilterList, Memory, Nonce};
use std::alloc::Global;

/// What the options among the words say of a mapping.
#[derive(Drop)]
pub struct More {
    /// The nonce; none where it is to be drawn.
    pub nonce: Option<Nonce>,
    /// The host that the mapping is for, where that isn't the client (RFC 6887, section 13.1).
    pub third: Option<Address>,
    /// The remote peers that may send to the mapping, at most [`MOST_FILTERS`]; where there is none, all.
    pub filters: FilterList,
}

fn address_of(text: &[u8]) -> Option<Address>
    ensures { IsOnly (IsAddressText text.now) result }
{
    match Address::read(text) {
        Ok(address) => Some(address),
        Err(_error) => None,
    }
}

fn third_with(address: Option<Address>) -> Option<Option<Address>>
    ensures { result ≡ option_map (λ a. Some a) address }
{
    Some(Some(address?))
}

/// The third host; in it none where none is given.
fn third_at(given: Option<&str>) -> Option<Option<Address>>
    ensures { IsOnly (IsThirdAt (option_map (λ s. s.now) given.entry)) result }
{
    match given {
        Some(text) => third_with(address_of(text.as_bytes())),
        None => Some(None),
    }
}

fn more_with(
    nonce: Option<Option<Nonce>>,
    third: Option<Option<Address>>,
    filters: Option<Vec<Filter>>,
) -> Option<More>
    ensures { result ≡ more_with nonce third (option_map (λ f. f.items) filters) }
{
    Some(More {
        nonce: nonce?,
        third: third?,
        filters: FilterList::of(filters?),
    })
}

/// What the words behind a command's name say, with the text of the file that they name.
pub(crate) fn more_in(
    alloc: Global,
    words: &[String],
    filed: Option<&[u8]>,
) -> Result<Option<More>, Memory>
    ensures { IfOk result (IsOnly (IsMore (map string_bytes words.now)
        (option_map (λ s. s.now) filed.entry))) }
{
    let digits = values_in(alloc, words, "--nonce")?;
    let files = values_in(alloc, words, "--nonce-file")?;
    let thirds = values_in(alloc, words, "--third-party")?;
    let texts = values_in(alloc, words, "--filter")?;
    if texts.len() > MOST_FILTERS {
        return Ok(None);
    }
    if thirds.len() > 1 {
        return Ok(None);
    }
    let filters = filters_of(alloc, &texts)?;
    Ok(more_with(
        nonce_given(&digits, &files, filed),
        third_at(first_of(&thirds)),
        filters,
    ))
}
