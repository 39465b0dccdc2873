//! The options of a request (RFC 6887, sections 7.3 and 13; PORT_SET: RFC 7753, section 4.1).
ghost use Rattle.std.specs.Prelude.{◌≡◌, ◌+◌, ◌≤◌, true, Option, Some, None, List, [], ◌∷◌, ◌++◌, length, drop, is_some, option_map, option_to_list, IfOk, IfErr, IfSome, OnOk, MatchOption};
ghost use Rattle.pcp_base.specs.Cases.{first_case};
ghost use Rattle.pcp_base.specs.Refusals.{unparsed};
ghost use Rattle.pcp_options.specs.Asking.{filter_of, filters_of, seen_of};
ghost use Rattle.pcp_options.specs.Options.{FoundOption, found_in, item_of, items_of};
ghost use Rattle.pcp_options.specs.Raw.{found_of};
ghost use Rattle.pcp_options.specs.Steps.{has_another_length, is_again, is_ignored, is_of_another_opcode, is_unknown, is_wrong, option_steps, options_steps};
ghost use Rattle.pcp_options.specs.Verdicts.{IsFrameOf, behind_data, options_in};
ghost use Rattle.pcp_options.specs.declared.slots.TheConstants.{MOST_OPTION_OCTETS};

use crate::layout::*;
use crate::slots::ItemSlots;
use pcp_base::{Address, Code, Filter, Listed, PortSet};
use pcp_codec::{Body, Frame, octet_of, octets_of, u16_of};
use std::alloc::{AllocError, Global};
use thiserror::Error;

/// A processed option (RFC 6887, section 13; PORT_SET: RFC 7753, section 4.1).
#[derive(Clone, Copy, Debug, PartialEq, Eq, Hash)]
pub enum Item {
    /// Option 1: the internal address that is asked for (section 13.1).
    ThirdParty(Address),
    /// Option 2: the suggested port and address, or nothing (section 13.2).
    PreferFailure,
    /// Option 3: remote peers that may send (section 13.3).
    Filter(Filter),
    /// Option 130: several ports (RFC 7753).
    PortSet(PortSet),
}

/// Processed options, in the order of the message.
pub type Items = Listed<Item>;

/// Why the options of a request aren't read.
#[derive(Clone, Copy, Debug, PartialEq, Eq, Error)]
pub enum OptionsRefused {
    /// The first failing option is refused with this code: UNSUPP_OPTION or MALFORMED_OPTION.
    #[error("an option is refused")]
    Code(Code),
    /// Memory for the list of options wasn't found.
    #[error("out of memory")]
    Memory,
}

impl From<AllocError> for OptionsRefused {
    ghost use Rattle.pcp_options.specs.declared.options.OptionsRefused.TheVariants as Causes;

    ghost from_gives = { λ _ e. e ≡ Causes.Memory };

    fn from(_error: AllocError) -> OptionsRefused {
        OptionsRefused::Memory
    }
}

/// The options that stand at most once.
#[derive(Clone, Copy, Debug, PartialEq, Eq)]
pub(crate) struct Seen {
    pub(crate) third: Option<Address>,
    pub(crate) prefers: bool,
    pub(crate) set: Option<PortSet>,
}

impl Seen {
    /// None of them.
    pub(crate) fn none() -> Seen
        ensures { result ≡ seen_of [] }
    {
        Seen {
            third: None,
            prefers: false,
            set: None,
        }
    }

    /// Whether the option stands at most once, and was seen.
    fn has(&self, code: u8) -> bool
        ensures { (before : List FoundOption) → self.now ≡ seen_of (items_of before)
            → result ≡ is_again before code }
    {
        match code {
            THIRD_PARTY_CODE => self.third.is_some(),
            PREFER_FAILURE_CODE => self.prefers,
            PORT_SET_CODE => self.set.is_some(),
            _ => false,
        }
    }

    /// One option more; none where it is ignored.
    fn with(self, item: Option<Item>) -> Seen
        ensures { (items : List Item) → self ≡ seen_of items
            → result ≡ seen_of (items ++ option_to_list item) }
    {
        match item {
            Some(item) => self.with_item(item),
            None => self,
        }
    }

    fn with_item(self, item: Item) -> Seen
        ensures { (items : List Item) → self ≡ seen_of items
            → result ≡ seen_of (items ++ item ∷ []) }
    {
        match item {
            Item::ThirdParty(address) => Seen {
                third: self.third.or(Some(address)),
                ..self
            },
            Item::PreferFailure => Seen {
                prefers: true,
                ..self
            },
            Item::PortSet(set) => Seen {
                set: self.set.or(Some(set)),
                ..self
            },
            Item::Filter(_filter) => self,
        }
    }
}

/// An option as it stands in a message.
#[derive(Clone, Copy)]
pub(crate) struct RawOption<'a> {
    pub(crate) code: u8,
    /// How many octets of data it claims to have.
    pub(crate) claimed: usize,
    /// Those that are there.
    pub(crate) content: &'a [u8],
}

/// The first option of these octets, and what stands behind its padding; none where no option is left.
pub(crate) fn split_option(text: &[u8]) -> Option<(RawOption<'_>, &[u8])>
    ensures found { MatchOption result (found_in text.now ≡ [])
        (λ parts. found_in text.now ≡ found_of parts.0 ∷ found_in parts.1.now) }
    ensures shorter { IfSome result (λ parts.
        length parts.1.now + (4 + length parts.0.content.now) ≤ length text.now) }
{
    let [code, _, high, low, behind @ ..] = text else {
        return None;
    };
    let claimed = usize::from(u16::from_be_bytes([*high, *low]));
    let padded = claimed.next_multiple_of(4);
    let content = &behind[..claimed.min(behind.len())];
    let rest = &behind[padded.min(behind.len())..];
    let option = RawOption {
        code: *code,
        claimed,
        content,
    };
    Some((option, rest))
}

/// What the option says; none where it is ignored.
pub(crate) fn read_item(option: &RawOption) -> Option<Item>
    ensures { result ≡ item_of (found_of option.now) }
{
    let content = option.content;
    match option.code {
        THIRD_PARTY_CODE => Some(Item::ThirdParty(Address(octets_of(content, 0)))),
        PREFER_FAILURE_CODE => Some(Item::PreferFailure),
        FILTER_CODE => Some(Item::Filter(Filter {
            prefix: octet_of(content, FILTER_PREFIX_PLACE),
            port: u16_of(content, FILTER_PORT_PLACE),
            remote: Address(octets_of(content, FILTER_REMOTE_PLACE)),
        })),
        PORT_SET_CODE => Some(Item::PortSet(PortSet {
            size: u16_of(content, SET_SIZE_PLACE),
            first: u16_of(content, SET_FIRST_PLACE),
            parity: octet_of(content, SET_PARITY_PLACE) % 2 == 1,
        })),
        _ => None,
    }
}

/// Whether the option must be known, and isn't.
fn is_unknown(code: u8) -> bool
    ensures { result ≡ is_unknown code }
{
    code < FIRST_OPTIONAL_CODE
        && !(code == THIRD_PARTY_CODE || code == PREFER_FAILURE_CODE || code == FILTER_CODE)
}

/// Whether the option is passed over.
fn is_ignored(code: u8) -> bool
    ensures { result ≡ is_ignored code }
{
    code >= FIRST_OPTIONAL_CODE && code != PORT_SET_CODE
}

/// Whether it has another length than the options of its code.
pub(crate) fn has_another_length(option: &RawOption) -> bool
    ensures { result ≡ has_another_length (found_of option.now) }
{
    option.claimed
        != match option.code {
            THIRD_PARTY_CODE => THIRD_PARTY_OCTETS,
            PREFER_FAILURE_CODE => PREFER_FAILURE_OCTETS,
            FILTER_CODE => FILTER_OCTETS,
            _ => PORT_SET_OCTETS,
        }
}

/// Whether it goes with other opcodes alone.
fn is_of_another_opcode(body: &Body, code: u8) -> bool
    ensures { result ≡ is_of_another_opcode body.now code }
{
    match body {
        Body::Announce => true,
        Body::Map(_) => false,
        Body::Peer { .. } => code != THIRD_PARTY_CODE,
    }
}

/// Whether it is a FILTER in a deletion or of too many bits, or a PORT_SET of no ports or of others than
/// those from the internal port on.
fn is_wrong(frame: &Frame, option: &RawOption) -> bool
    ensures { result ≡ is_wrong frame.now.lifetime frame.now.body (found_of option.now) }
{
    let Body::Map(common) = &frame.body else {
        return false;
    };
    let content = option.content;
    match option.code {
        FILTER_CODE => {
            frame.lifetime == 0 || octet_of(content, FILTER_PREFIX_PLACE) > LONGEST_PREFIX
        }
        PORT_SET_CODE => {
            u16_of(content, SET_SIZE_PLACE) == 0
                || u16_of(content, SET_FIRST_PLACE) != common.internal
        }
        _ => false,
    }
}

/// The code with which the option is refused; `again` where one of its code stands before and it stands
/// at most once.
fn fault_of(frame: &Frame, again: bool, option: &RawOption) -> Option<Code>
    ensures { option_map unparsed result
        ≡ first_case (option_steps frame.now.lifetime frame.now.body again (found_of option.now)) }
{
    if option.content.len() < option.claimed {
        Some(Code::MalformedOption)
    } else if is_unknown(option.code) {
        Some(Code::UnsuppOption)
    } else if is_ignored(option.code) {
        None
    } else if again
        || has_another_length(option)
        || is_of_another_opcode(&frame.body, option.code)
        || is_wrong(frame, option)
    {
        Some(Code::MalformedOption)
    } else {
        None
    }
}

/// The options that stand at most once, or the code with which the first failing option is refused. The
/// text is that behind the data of the opcode. Its processed options come into the slots, in order.
pub(crate) fn check_options(frame: &Frame, text: &[u8], items: &mut ItemSlots) -> Result<Seen, Code>
    requires few { length text.now ≤ MOST_OPTION_OCTETS }
    requires none { items.old ≡ [] }
    ensures passed { IfOk result (λ seen.
        first_case (options_steps frame.now.lifetime frame.now.body (found_in text.now)) ≡ None) }
    ensures seen { IfOk result (λ seen. seen ≡ seen_of (items_of (found_in text.now))) }
    ensures items { OnOk result (items.new ≡ items_of (found_in text.now)) }
    ensures refused { IfErr result (λ code.
        first_case (options_steps frame.now.lifetime frame.now.body (found_in text.now))
        ≡ Some (unparsed code)) }
{
    let mut seen = Seen::none();
    let mut rest = text;
    while let Some((option, behind)) = split_option(rest) {
        if let Some(code) = fault_of(frame, seen.has(option.code), &option) {
            return Err(code);
        }
        let item = read_item(&option);
        items.note(item);
        seen = seen.with(item);
        rest = behind;
    }
    Ok(seen)
}

/// The filters among the items, in order.
pub(crate) fn collect_filters(alloc: Global, items: &[Item]) -> Result<Vec<Filter>, AllocError>
    ensures { IfOk result (λ filters. filters.items ≡ filters_of items.now) }
{
    let mut filters = Vec::new(alloc);
    for item in items {
        if let Some(filter) = filter_in(item) {
            filters.push(filter)?;
        }
    }
    Ok(filters)
}

/// The filter that an item says; none where it says another option.
fn filter_in(item: &Item) -> Option<Filter>
    ensures { result ≡ filter_of item.now }
{
    match item {
        Item::Filter(filter) => Some(*filter),
        _ => None,
    }
}

/// What stands behind the data of a request's opcode: its options.
pub(crate) fn options_text<'a>(frame: &Frame, octets: &'a [u8]) -> &'a [u8]
    requires { IsFrameOf frame.now octets.now }
    ensures value { result.now ≡ behind_data frame.now octets.now }
    ensures few { length result.now ≤ MOST_OPTION_OCTETS }
{
    octets_from(octets, frame.options)
}

fn octets_from(octets: &[u8], place: usize) -> &[u8]
    requires { place ≤ length octets.now }
    ensures { result.now ≡ drop place octets.now }
{
    &octets[place..]
}

/// The processed options of a request, in order: those that are known. The first option that fails
/// refuses it: its data runs past the end (MALFORMED_OPTION), it must be known and isn't (UNSUPP_OPTION),
/// or it stands again, has another length, goes with other opcodes, or says what can't be
/// (MALFORMED_OPTION). The frame is what `read_request` read of these octets. Memory is taken only where
/// no option fails.
pub fn read_options(alloc: Global, frame: &Frame, octets: &[u8]) -> Result<Items, OptionsRefused>
    requires { IsFrameOf frame.now octets.now }
    ensures items { IfOk result (λ items. items ≡ items_of (options_in frame.now octets.now)) }
    ensures refused { (code : Code) → result ≡ Err (OptionsRefused.Code code)
        → first_case (options_steps frame.now.lifetime frame.now.body
        (options_in frame.now octets.now)) ≡ Some (unparsed code) }
    ensures passed { ((code : Code) → ¬ (result ≡ Err (OptionsRefused.Code code)))
        → first_case (options_steps frame.now.lifetime frame.now.body
        (options_in frame.now octets.now)) ≡ None }
{
    let text = options_text(frame, octets);
    let mut items = ItemSlots::none();
    let Err(code) = check_options(frame, text, &mut items) else {
        return Ok(Items::of(items.items().to_vec(alloc)?));
    };
    Err(OptionsRefused::Code(code))
}
