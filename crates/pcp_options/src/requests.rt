//! Requests that are written (RFC 6887, sections 7.1, 11.1, 12.1, 13 and 14.1).
ghost use Rattle.std.specs.Prelude.{◌≡◌, ◌∷◌, ◌++◌, map, IfOk, OnOk, OnErr, option_map, option_to_list};
ghost use Rattle.std.specs.Int.{to_be_bytes, w32};
ghost use Rattle.pcp_codec.specs.declared.layout.TheConstants.{VERSION};
ghost use Rattle.pcp_options.specs.declared.options.Item.TheVariants as Items;
ghost use Rattle.pcp_options.specs.Requests.{CanBeWritten, asked_body, asked_common, asked_items, asked_lifetime, asked_preference, asked_third, request_text, request_with};

use crate::options::Item;
use crate::replies::{opcode_of_body, push_all, push_body, room_for};
use crate::responses::note;
use pcp_base::{Address, Ask, Endpoint, Filter, MapAsk, Memory, Nonce};
use pcp_codec::{Body, Common, VERSION};
use std::alloc::{AllocError, Global};

/// How many filters the ask of a request has at most (our own; there would be room for 41).
pub const MOST_ASKED_FILTERS: usize = 40;

/// Appends the request of a client of the address `own`: the header, the data of the opcode, and
/// THIRD_PARTY where there is a third address, PREFER_FAILURE, the filters in their order and PORT_SET as
/// far as the ask has them (RFC 6887, sections 7.1, 11.1, 12.1 and 13). ANNOUNCE has no options (section
/// 14.1). The ask isn't `Known`, and has at most [`MOST_ASKED_FILTERS`]. After `Memory` nothing was
/// appended.
pub fn write_request(
    alloc: Global,
    out: &mut Vec<u8>,
    own: &Address,
    third: Option<Address>,
    ask: &Ask,
) -> Result<(), Memory>
    requires { CanBeWritten ask.now }
    ensures ok { OnOk result (out.new.items
        ≡ out.old.items ++ request_text own.now third ask.now) }
    ensures err { OnErr result (out.new.items ≡ out.old.items) }
{
    let items = asked_items(alloc, third, ask)?;
    write_request_with(
        alloc,
        out,
        own,
        asked_lifetime(ask),
        &asked_body(ask),
        &items,
    )
}

/// Appends a request with this client address, a lifetime in seconds, the body and the items as they are
/// (RFC 6887, section 7.1). After `Memory` nothing was appended.
pub fn write_request_with(
    alloc: Global,
    out: &mut Vec<u8>,
    client: &Address,
    lifetime: u32,
    body: &Body,
    items: &[Item],
) -> Result<(), Memory>
    ensures ok { OnOk result (out.new.items
        ≡ out.old.items ++ request_with client.now lifetime body.now items.now) }
    ensures err { OnErr result (out.new.items ≡ out.old.items) }
{
    // Room for the whole request at once: its pieces are short and many.
    let mut text = Vec::with_capacity(alloc, room_for(items))?;
    push_head(&mut text, opcode_of_body(body), lifetime, client)?;
    push_body(&mut text, body)?;
    push_all(&mut text, items)?;
    out.extend_from_slice(&text)?;
    Ok(())
}

fn push_head(
    text: &mut Vec<u8>,
    opcode: u8,
    lifetime: u32,
    client: &Address,
) -> Result<(), AllocError>
    ensures { OnOk result (text.new.items ≡ text.old.items
        ++ (VERSION ∷ opcode ∷ 0 ∷ 0 ∷ to_be_bytes w32 lifetime ++ client.now.0)) }
{
    text.extend_from_slice(&[VERSION, opcode, 0, 0])?;
    text.extend_from_slice(&lifetime.to_be_bytes())?;
    text.extend_from_slice(&client.0)
}

/// The data of the request's opcode.
fn asked_body(ask: &Ask) -> Body
    ensures { result ≡ asked_body ask.now }
{
    match ask {
        Ask::Known(_) => Body::Announce,
        Ask::Announce => Body::Announce,
        Ask::Map(ask) => Body::Map(asked_common(&ask.endpoint, ask.nonce, ask.port, ask.address)),
        Ask::Peer(ask) => Body::Peer {
            common: asked_common(&ask.endpoint, ask.nonce, ask.port, ask.address),
            remote_port: ask.remote_port,
            remote: ask.remote,
        },
    }
}

fn asked_common(endpoint: &Endpoint, nonce: Nonce, external: u16, address: Address) -> Common
    ensures { result ≡ asked_common endpoint.now nonce external address }
{
    Common {
        nonce,
        protocol: endpoint.protocol.number(),
        internal: endpoint.port,
        external,
        address,
    }
}

fn asked_lifetime(ask: &Ask) -> u32
    ensures { result ≡ asked_lifetime ask.now }
{
    match ask {
        Ask::Known(_) => 0,
        Ask::Announce => 0,
        Ask::Map(ask) => ask.lifetime,
        Ask::Peer(ask) => ask.lifetime,
    }
}

/// The options of the request, in order.
fn asked_items(alloc: Global, third: Option<Address>, ask: &Ask) -> Result<Vec<Item>, AllocError>
    ensures { IfOk result (λ items. items.items ≡ asked_items third ask.now) }
{
    match ask {
        Ask::Known(_) => Ok(Vec::new(alloc)),
        Ask::Announce => Ok(Vec::new(alloc)),
        Ask::Map(ask) => map_items(alloc, third, ask),
        Ask::Peer(_) => third_items(alloc, third),
    }
}

fn map_items(alloc: Global, third: Option<Address>, ask: &MapAsk) -> Result<Vec<Item>, AllocError>
    ensures { IfOk result (λ items. items.items
        ≡ asked_third third ++ asked_preference ask.now.prefer ++ map Items.Filter ask.now.filters
        ++ option_to_list (option_map Items.PortSet ask.now.set)) }
{
    let mut items = third_items(alloc, third)?;
    note_preference(&mut items, ask.prefer)?;
    note_filters(&mut items, ask.filters.items())?;
    note(&mut items, ask.set.map(Item::PortSet))?;
    Ok(items)
}

fn third_items(alloc: Global, third: Option<Address>) -> Result<Vec<Item>, AllocError>
    ensures { IfOk result (λ items. items.items ≡ asked_third third) }
{
    let mut items = Vec::new(alloc);
    note(&mut items, third.map(Item::ThirdParty))?;
    Ok(items)
}

fn note_preference(items: &mut Vec<Item>, prefer: bool) -> Result<(), AllocError>
    ensures { OnOk result (items.new.items ≡ items.old.items ++ asked_preference prefer) }
{
    if prefer {
        return Ok(items.push(Item::PreferFailure)?);
    }
    Ok(())
}

fn note_filters(items: &mut Vec<Item>, filters: &[Filter]) -> Result<(), AllocError>
    ensures { OnOk result (items.new.items ≡ items.old.items ++ map Items.Filter filters.now) }
{
    for filter in filters {
        items.push(Item::Filter(*filter))?;
    }
    Ok(())
}
