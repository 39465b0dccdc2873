//! Responses as a client reads them (RFC 6887, sections 7.2, 7.3 and 8.3).
ghost use Rattle.std.specs.Prelude.{◌≡◌, ◌≤◌, ◌&&◌, ◌||◌, ◌++◌, Some, length, drop, IfOk, OnOk, count_by, option_to_list};
ghost use Rattle.pcp_codec.specs.Responses.{head_of};
ghost use Rattle.pcp_options.specs.Options.{found_in, items_of};
ghost use Rattle.pcp_options.specs.ResponseGrammar.{IsResponse};
ghost use Rattle.pcp_options.specs.Raw.{found_of};
ghost use Rattle.pcp_options.specs.ReadResponses.{ReadsResponse, are_single, are_whole, is_known, is_mapped, is_preference, is_set, is_third, is_whole, response_by, response_of, has_mapped, text_behind, whole_front};

use crate::layout::*;
use crate::options::{Item, Items, RawOption, has_another_length, read_item, split_option};
use pcp_base::{Code, Protocol};
use pcp_codec::{
    Body, Common, HEAD_OCTETS, Head, MAP_OCTETS, PEER_OCTETS, read_body, read_response_head,
};
use std::alloc::{AllocError, Global};
use thiserror::Error;

/// A response (RFC 6887, section 7.2).
#[derive(Debug, Drop)]
pub struct Response {
    /// 0 to 2, the number of the body's opcode.
    pub opcode: u8,
    /// The result.
    pub code: Code,
    /// Seconds, 0 to 2^32 - 1: those granted, or how long an error is to be taken to last.
    pub lifetime: u32,
    /// The server's epoch in seconds, 0 to 2^32 - 1.
    pub epoch: u32,
    pub body: Body,
    /// Its options that are known, in order; of an error those before the first that isn't whole, also
    /// where they stand again.
    pub items: Items,
}

/// Why octets aren't read as a response.
#[derive(Clone, Copy, Debug, PartialEq, Eq, Error)]
pub enum ResponseRefused {
    /// They are no response.
    #[error("not a response")]
    NotResponse,
    /// Memory for the list of options wasn't found.
    #[error("out of memory")]
    Memory,
}

impl From<AllocError> for ResponseRefused {
    ghost use Rattle.pcp_options.specs.declared.responses.ResponseRefused.TheVariants as Causes;

    ghost from_gives = { λ _ e. e ≡ Causes.Memory };

    fn from(_error: AllocError) -> ResponseRefused {
        ResponseRefused::Memory
    }
}

/// The options in front of the first that isn't whole.
#[derive(Drop)]
struct Front {
    items: Vec<Item>,
    /// Whether all options are whole.
    all: bool,
}

/// The response that octets are. Refused as [`NotResponse`](ResponseRefused::NotResponse) exactly where
/// they have no head of a response, where MAP and PEER have another protocol than TCP and UDP, or where an
/// option of a success runs past the end, has another length than its code, or is a second THIRD_PARTY,
/// PREFER_FAILURE or PORT_SET (RFC 6887, sections 7.2, 7.3 and 8.3). Options that aren't known are passed
/// over; those of an error are read as far as they are whole (our own).
pub fn read_response(alloc: Global, octets: &[u8]) -> Result<Response, ResponseRefused>
    ensures exact { ReadsResponse result (response_of octets.now) }
    ensures grammar { (r : Response) → response_of octets.now ≡ Some r → IsResponse octets.now r }
    ensures only { (r : Response) → IsResponse octets.now r → response_of octets.now ≡ Some r }
{
    response_in(alloc, octets)
}

fn response_in(alloc: Global, octets: &[u8]) -> Result<Response, ResponseRefused>
    ensures { ReadsResponse result (response_of octets.now) }
{
    let Ok(head) = read_response_head(octets) else {
        return Err(ResponseRefused::NotResponse);
    };
    read_behind(alloc, head, octets)
}

/// The response with this head.
fn read_behind(alloc: Global, head: Head, octets: &[u8]) -> Result<Response, ResponseRefused>
    requires { head_of octets.now ≡ Some head }
    ensures { ReadsResponse result (response_of octets.now) }
{
    let body = read_body(octets);
    let front = whole_front(alloc, text_behind(octets, &body))?;
    response_with(head, body, front)
}

/// The response of these parts.
fn response_with(head: Head, body: Body, front: Front) -> Result<Response, ResponseRefused>
    ensures { ReadsResponse result (response_by head body front.items.items front.all) }
{
    let fits = head.code.number() != 0 || (front.all && are_single(&front.items));
    if !(is_mapped(&body) && fits) {
        return Err(ResponseRefused::NotResponse);
    }
    Ok(Response {
        opcode: head.opcode,
        code: head.code,
        lifetime: head.lifetime,
        epoch: head.epoch,
        body,
        items: Items::of(front.items),
    })
}

/// Whether the protocol of MAP and PEER is one that is mapped.
fn is_mapped(body: &Body) -> bool
    ensures { result ≡ is_mapped body.now }
{
    match body {
        Body::Announce => true,
        Body::Map(common) => has_mapped(common),
        Body::Peer { common, .. } => has_mapped(common),
    }
}

fn has_mapped(common: &Common) -> bool
    ensures { result ≡ has_mapped common.now }
{
    Protocol::of(common.protocol).is_some()
}

/// What stands behind the data of the opcode.
fn text_behind<'a>(octets: &'a [u8], body: &Body) -> &'a [u8]
    ensures { result.now ≡ text_behind octets.now body.now }
{
    let place = match body {
        Body::Announce => HEAD_OCTETS,
        Body::Map(_) => HEAD_OCTETS + MAP_OCTETS,
        Body::Peer { .. } => HEAD_OCTETS + PEER_OCTETS,
    };
    octets_behind(octets, place)
}

fn octets_behind(octets: &[u8], place: usize) -> &[u8]
    ensures { result.now ≡ drop place octets.now }
{
    &octets[place.min(octets.len())..]
}

/// The known options in front of the first that isn't whole.
fn whole_front(alloc: Global, text: &[u8]) -> Result<Front, AllocError>
    ensures items { IfOk result (λ front. front.items.items
        ≡ items_of (whole_front (found_in text.now))) }
    ensures all { IfOk result (λ front. front.all ≡ are_whole (found_in text.now)) }
{
    let mut items = Vec::new(alloc);
    let mut rest = text;
    while let Some((option, behind)) = split_option(rest) {
        if !is_whole(&option) {
            return Ok(Front { items, all: false });
        }
        note(&mut items, read_item(&option))?;
        rest = behind;
    }
    Ok(Front { items, all: true })
}

/// Adds an option at the end, if there is one.
pub(crate) fn note(items: &mut Vec<Item>, item: Option<Item>) -> Result<(), AllocError>
    ensures { OnOk result (items.new.items ≡ items.old.items ++ option_to_list item) }
{
    match item {
        Some(item) => Ok(items.push(item)?),
        None => Ok(()),
    }
}

/// Whether the data of the option is there, of the length of its code where that is known.
fn is_whole(option: &RawOption) -> bool
    ensures { result ≡ is_whole (found_of option.now) }
{
    option.claimed <= option.content.len()
        && (!is_known(option.code) || !has_another_length(option))
}

/// Whether the option is one of those that are processed.
fn is_known(code: u8) -> bool
    ensures { result ≡ is_known code }
{
    code == THIRD_PARTY_CODE
        || code == PREFER_FAILURE_CODE
        || code == FILTER_CODE
        || code == PORT_SET_CODE
}

/// Whether each option that stands at most once does.
fn are_single(items: &[Item]) -> bool
    ensures { result ≡ are_single items.now }
{
    thirds(items) <= 1 && preferences(items) <= 1 && sets(items) <= 1
}

fn thirds(items: &[Item]) -> usize
    ensures { result ≡ count_by is_third items.now }
{
    items.iter().filter(|item| is_third(item)).count()
}

fn preferences(items: &[Item]) -> usize
    ensures { result ≡ count_by is_preference items.now }
{
    items.iter().filter(|item| is_preference(item)).count()
}

fn sets(items: &[Item]) -> usize
    ensures { result ≡ count_by is_set items.now }
{
    items.iter().filter(|item| is_set(item)).count()
}

fn is_third(item: &Item) -> bool
    ensures { result ≡ is_third item.now }
{
    matches!(item, Item::ThirdParty(_))
}

fn is_preference(item: &Item) -> bool
    ensures { result ≡ is_preference item.now }
{
    matches!(item, Item::PreferFailure)
}

fn is_set(item: &Item) -> bool
    ensures { result ≡ is_set item.now }
{
    matches!(item, Item::PortSet(_))
}
