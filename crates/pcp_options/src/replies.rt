//! The replies to requests (RFC 6887, sections 7.2, 8.2, 11.1, 12.1, 13 and 14.1).
ghost use Rattle.std.specs.Prelude.{◌≡◌, ◌+◌, ◌≤◌, ◌++◌, length, [], ◌∷◌, OnOk, OnErr, option_map, map, replicate, flat_map};
ghost use Rattle.std.specs.Int.{to_be_bytes, w16};
ghost use Rattle.pcp_codec.specs.Replies.{head};
ghost use Rattle.pcp_codec.specs.Requests.{data_length};
ghost use Rattle.pcp_options.specs.declared.options.Item.TheVariants as Items;
ghost use Rattle.pcp_options.specs.Options.{option_of, option_text, options_text};
ghost use Rattle.pcp_options.specs.Replies.{assigned, assigned_common, body_text, common_text, opcode_of_body, remote_text, reply_text, success_text, told_items, told_option, told_text};

use crate::layout::*;
use crate::options::{Item, Items};
use pcp_base::{Address, Answer, Ask, Memory, PortSet};
use pcp_codec::{
    ANNOUNCE_OPCODE, Body, Common, HEAD_OCTETS, MAP_OCTETS, MAP_OPCODE, PEER_OCTETS, PEER_OPCODE,
    read_body, write_head, write_refusal,
};
use std::alloc::{AllocError, Global};

/// How many octets a message without options has at most: the header, and the data of PEER.
const PLAIN_OCTETS: usize = HEAD_OCTETS + PEER_OCTETS;

/// How many octets a success of MAP without options has.
const MAP_SUCCESS_OCTETS: usize = HEAD_OCTETS + MAP_OCTETS;

/// How many octets a processed option has at most: its head, and the data of FILTER.
const LONGEST_OPTION: usize = OPTION_HEAD_OCTETS + FILTER_OCTETS;

/// Appends the reply to a request whose verdict gave the ask and the items: an error reply, or a
/// success with the data of the request, the external port and address of the answer, and the options
/// of the request in its order (RFC 6887, sections 7.2, 8.2, 11.1, 12.1 and 13). A deletion repeats the
/// suggestion; PORT_SET tells the ports of the lease, or is left out. `epoch` is in seconds. After
/// `Memory` nothing was appended.
pub fn write_reply(
    alloc: Global,
    out: &mut Vec<u8>,
    request: &[u8],
    _ask: &Ask,
    items: &Items,
    answer: &Answer,
    epoch: u32,
) -> Result<(), Memory>
    requires { 2 ≤ length request.now }
    ensures ok { OnOk result (out.new.items
        ≡ out.old.items ++ reply_text request.now items.now answer.now epoch) }
    ensures err { OnErr result (out.new.items ≡ out.old.items) }
{
    let items = items.items();
    match answer {
        Answer::Refused(refusal) => write_refusal(alloc, out, request, *refusal, epoch),
        Answer::Announced => write_success(alloc, out, 0, epoch, &Body::Announce, None, &[]),
        Answer::Gone => write_success(alloc, out, 0, epoch, &read_body(request), None, items),
        Answer::Mapped {
            lifetime,
            external,
            address,
            set,
        } => {
            let body = assigned(read_body(request), *external, *address);
            write_success(alloc, out, *lifetime, epoch, &body, *set, items)
        }
        Answer::Peered {
            lifetime,
            external,
            address,
        } => {
            let body = assigned(read_body(request), *external, *address);
            write_success(alloc, out, *lifetime, epoch, &body, None, items)
        }
    }
}

/// The data of an opcode with this external port and address.
fn assigned(body: Body, external: u16, address: Address) -> Body
    ensures { result ≡ assigned body external address }
{
    match body {
        Body::Announce => Body::Announce,
        Body::Map(common) => Body::Map(assigned_common(common, external, address)),
        Body::Peer {
            common,
            remote_port,
            remote,
        } => Body::Peer {
            common: assigned_common(common, external, address),
            remote_port,
            remote,
        },
    }
}

fn assigned_common(common: Common, external: u16, address: Address) -> Common
    ensures { result ≡ assigned_common common external address }
{
    Common {
        external,
        address,
        ..common
    }
}

/// Appends a success of the body's opcode, with this lifetime and epoch in seconds, the body as it is,
/// and the items; in the place of each PORT_SET stands this set, or nothing (RFC 6887, section 7.2).
/// After `Memory` nothing was appended.
pub fn write_success(
    alloc: Global,
    out: &mut Vec<u8>,
    lifetime: u32,
    epoch: u32,
    body: &Body,
    set: Option<PortSet>,
    items: &[Item],
) -> Result<(), Memory>
    ensures ok { OnOk result (out.new.items
        ≡ out.old.items ++ success_text lifetime epoch body.now (told_items set items.now)) }
    ensures err { OnErr result (out.new.items ≡ out.old.items) }
{
    if items.is_empty() {
        return write_plain(out, lifetime, epoch, body);
    }
    // Room for the whole reply at once: its pieces are short and many.
    let mut text = Vec::with_capacity(alloc, room_for(items))?;
    push_head(&mut text, opcode_of_body(body), lifetime, epoch)?;
    push_body(&mut text, body)?;
    push_options(&mut text, set, items)?;
    out.extend_from_slice(&text)?;
    Ok(())
}

/// Appends a success of the body's opcode, with this lifetime and epoch in seconds, the body and the
/// items as they are (RFC 6887, section 7.2). After `Memory` nothing was appended.
pub fn write_success_with(
    alloc: Global,
    out: &mut Vec<u8>,
    lifetime: u32,
    epoch: u32,
    body: &Body,
    items: &[Item],
) -> Result<(), Memory>
    ensures ok { OnOk result (out.new.items
        ≡ out.old.items ++ success_text lifetime epoch body.now items.now) }
    ensures err { OnErr result (out.new.items ≡ out.old.items) }
{
    let mut text = Vec::with_capacity(alloc, room_for(items))?;
    push_head(&mut text, opcode_of_body(body), lifetime, epoch)?;
    push_body(&mut text, body)?;
    push_all(&mut text, items)?;
    out.extend_from_slice(&text)?;
    Ok(())
}

/// The same for a success without options, which most are: it needs no list of its own.
fn write_plain(out: &mut Vec<u8>, lifetime: u32, epoch: u32, body: &Body) -> Result<(), Memory>
    ensures ok { OnOk result (out.new.items
        ≡ out.old.items ++ success_text lifetime epoch body.now []) }
    ensures err { OnErr result (out.new.items ≡ out.old.items) }
{
    match body {
        Body::Announce => append_plain::<HEAD_OCTETS>(out, lifetime, epoch, body),
        Body::Map(_) => append_plain::<MAP_SUCCESS_OCTETS>(out, lifetime, epoch, body),
        Body::Peer { .. } => append_plain::<PLAIN_OCTETS>(out, lifetime, epoch, body),
    }
}

/// Appends a success of `N` octets, which is put together in an array.
fn append_plain<const N: usize>(
    out: &mut Vec<u8>,
    lifetime: u32,
    epoch: u32,
    body: &Body,
) -> Result<(), Memory>
    requires { N ≡ HEAD_OCTETS + data_length (opcode_of_body body.now) }
    ensures ok { OnOk result (out.new.items
        ≡ out.old.items ++ success_text lifetime epoch body.now []) }
    ensures err { OnErr result (out.new.items ≡ out.old.items) }
{
    let mut text = [0; N];
    fill_plain(&mut text, lifetime, epoch, body);
    out.extend_from_slice(&text)?;
    Ok(())
}

/// Writes a success without options over a piece of its length.
fn fill_plain(text: &mut [u8], lifetime: u32, epoch: u32, body: &Body)
    requires { length text.old ≡ HEAD_OCTETS + data_length (opcode_of_body body.now) }
    ensures { text.new ≡ success_text lifetime epoch body.now [] }
{
    let mut head = [0; HEAD_OCTETS];
    write_head(
        &mut head,
        opcode_of_body(body),
        0,
        lifetime,
        epoch,
        &[0; 12],
    );
    let (front, data) = text.split_at_mut(HEAD_OCTETS);
    front.copy_from_slice(&head);
    fill_body(data, body);
}

/// Writes the data of an opcode over a piece of its length.
fn fill_body(piece: &mut [u8], body: &Body)
    requires { length piece.old ≡ data_length (opcode_of_body body.now) }
    ensures { piece.new ≡ body_text body.now }
{
    match body {
        Body::Announce => {}
        Body::Map(common) => fill_common(piece, common),
        Body::Peer {
            common,
            remote_port,
            remote,
        } => {
            let (front, behind) = piece.split_at_mut(MAP_OCTETS);
            fill_common(front, common);
            fill_remote(behind, *remote_port, remote);
        }
    }
}

fn fill_common(piece: &mut [u8], common: &Common)
    requires { length piece.old ≡ MAP_OCTETS }
    ensures { piece.new ≡ common_text common.now }
{
    let (nonce, rest) = piece.split_at_mut(12);
    let (fields, address) = rest.split_at_mut(8);
    nonce.copy_from_slice(&common.nonce.0);
    fill_fields(fields, common);
    address.copy_from_slice(&common.address.0);
}

/// Writes the protocol and the ports over a piece of 8 octets.
fn fill_fields(fields: &mut [u8], common: &Common)
    requires { length fields.old ≡ 8 }
    ensures { fields.new ≡ common.now.protocol ∷ 0 ∷ 0 ∷ 0
        ∷ to_be_bytes w16 common.now.internal ++ to_be_bytes w16 common.now.external }
{
    let (protocol, ports) = fields.split_at_mut(4);
    let (internal, external) = ports.split_at_mut(2);
    protocol.copy_from_slice(&[common.protocol, 0, 0, 0]);
    internal.copy_from_slice(&common.internal.to_be_bytes());
    external.copy_from_slice(&common.external.to_be_bytes());
}

fn fill_remote(piece: &mut [u8], port: u16, remote: &Address)
    requires { length piece.old ≡ 20 }
    ensures { piece.new ≡ remote_text port remote.now }
{
    let (number, rest) = piece.split_at_mut(2);
    let (reserved, address) = rest.split_at_mut(2);
    number.copy_from_slice(&port.to_be_bytes());
    reserved.fill(0);
    address.copy_from_slice(&remote.0);
}

/// How many octets a message with these options has at most.
pub(crate) fn room_for(items: &[Item]) -> usize {
    items
        .len()
        .saturating_mul(LONGEST_OPTION)
        .saturating_add(PLAIN_OCTETS)
}

pub(crate) fn opcode_of_body(body: &Body) -> u8
    ensures { result ≡ opcode_of_body body.now }
{
    match body {
        Body::Announce => ANNOUNCE_OPCODE,
        Body::Map(_) => MAP_OPCODE,
        Body::Peer { .. } => PEER_OPCODE,
    }
}

fn push_head(text: &mut Vec<u8>, opcode: u8, lifetime: u32, epoch: u32) -> Result<(), AllocError>
    ensures { OnOk result (text.new.items
        ≡ text.old.items ++ head opcode 0 lifetime epoch (replicate 12 0)) }
{
    let mut head = [0; HEAD_OCTETS];
    write_head(&mut head, opcode, 0, lifetime, epoch, &[0; 12]);
    text.extend_from_slice(&head)
}

pub(crate) fn push_body(text: &mut Vec<u8>, body: &Body) -> Result<(), AllocError>
    ensures { OnOk result (text.new.items ≡ text.old.items ++ body_text body.now) }
{
    match body {
        Body::Announce => Ok(()),
        Body::Map(common) => push_common(text, common),
        Body::Peer {
            common,
            remote_port,
            remote,
        } => {
            push_common(text, common)?;
            push_remote(text, *remote_port, remote)
        }
    }
}

fn push_common(text: &mut Vec<u8>, common: &Common) -> Result<(), AllocError>
    ensures { OnOk result (text.new.items ≡ text.old.items ++ common_text common.now) }
{
    text.extend_from_slice(&common.nonce.0)?;
    text.extend_from_slice(&[common.protocol, 0, 0, 0])?;
    text.extend_from_slice(&common.internal.to_be_bytes())?;
    text.extend_from_slice(&common.external.to_be_bytes())?;
    text.extend_from_slice(&common.address.0)
}

fn push_remote(text: &mut Vec<u8>, port: u16, remote: &Address) -> Result<(), AllocError>
    ensures { OnOk result (text.new.items ≡ text.old.items ++ remote_text port remote.now) }
{
    text.extend_from_slice(&port.to_be_bytes())?;
    text.extend_from_slice(&[0, 0])?;
    text.extend_from_slice(&remote.0)
}

/// Appends the options of a success.
fn push_options(text: &mut Vec<u8>, set: Option<PortSet>, items: &[Item]) -> Result<(), AllocError>
    ensures { OnOk result (text.new.items
        ≡ text.old.items ++ options_text (map option_of (told_items set items.now))) }
{
    push_items(text, set, items)
}

fn push_items(text: &mut Vec<u8>, set: Option<PortSet>, items: &[Item]) -> Result<(), AllocError>
    ensures { OnOk result (text.new.items ≡ text.old.items ++ flat_map (told_text set) items.now) }
{
    for item in items {
        push_told(text, set, item)?;
    }
    Ok(())
}

/// Appends what a success tells of an option of the request.
fn push_told(text: &mut Vec<u8>, set: Option<PortSet>, item: &Item) -> Result<(), AllocError>
    ensures { OnOk result (text.new.items ≡ text.old.items ++ told_text set item.now) }
{
    match item {
        Item::PortSet(_asked) => push_set(text, set),
        Item::ThirdParty(_address) => push_option(text, item),
        Item::PreferFailure => push_option(text, item),
        Item::Filter(_filter) => push_option(text, item),
    }
}

fn push_set(text: &mut Vec<u8>, set: Option<PortSet>) -> Result<(), AllocError>
    ensures { OnOk result (text.new.items
        ≡ text.old.items ++ told_option (option_map Items.PortSet set)) }
{
    match set {
        Some(set) => push_option(text, &Item::PortSet(set)),
        None => Ok(()),
    }
}

/// Appends the options that say these items.
pub(crate) fn push_all(text: &mut Vec<u8>, items: &[Item]) -> Result<(), AllocError>
    ensures { OnOk result (text.new.items
        ≡ text.old.items ++ options_text (map option_of items.now)) }
{
    push_each(text, items)
}

fn push_each(text: &mut Vec<u8>, items: &[Item]) -> Result<(), AllocError>
    ensures { OnOk result (text.new.items
        ≡ text.old.items ++ flat_map (λ item. option_text (option_of item)) items.now) }
{
    for item in items {
        push_option(text, item)?;
    }
    Ok(())
}

/// Appends the option that says an item.
fn push_option(text: &mut Vec<u8>, item: &Item) -> Result<(), AllocError>
    ensures { OnOk result (text.new.items ≡ text.old.items ++ option_text (option_of item.now)) }
{
    match item {
        Item::ThirdParty(address) => {
            text.extend_from_slice(&[THIRD_PARTY_CODE, 0, 0, THIRD_PARTY_OCTETS as u8])?;
            text.extend_from_slice(&address.0)
        }
        Item::PreferFailure => {
            text.extend_from_slice(&[PREFER_FAILURE_CODE, 0, 0, PREFER_FAILURE_OCTETS as u8])
        }
        Item::Filter(filter) => {
            text.extend_from_slice(&[FILTER_CODE, 0, 0, FILTER_OCTETS as u8, 0, filter.prefix])?;
            text.extend_from_slice(&filter.port.to_be_bytes())?;
            text.extend_from_slice(&filter.remote.0)
        }
        Item::PortSet(set) => {
            text.extend_from_slice(&[PORT_SET_CODE, 0, 0, PORT_SET_OCTETS as u8])?;
            text.extend_from_slice(&set.size.to_be_bytes())?;
            text.extend_from_slice(&set.first.to_be_bytes())?;
            text.extend_from_slice(&[u8::from(set.parity), 0, 0, 0])
        }
    }
}
