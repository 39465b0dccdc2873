//! What a datagram says to a client (RFC 6887, sections 8.3 and 8.5).
ghost use Rattle.std.specs.Prelude.{◌≡◌, ◌<◌, [], ◌∷◌, IfSome, length, position};
ghost use Rattle.pcp_options.specs.Asking.{third_of};
ghost use Rattle.client_core.specs.Meanings.{answers, grant_of, said_at, said_by, said_of, said_to, same_common, same_key, same_third, set_size, size_in, want_at};
ghost use Rattle.client_core.specs.Clients.{what_of};

use crate::events::{Grant, LONGEST_ERROR, NOTHING_GRANTED};
use crate::wants::Want;
use pcp_base::{Address, Ask, Code, Endpoint, Nonce};
use pcp_codec::{Body, Common};
use pcp_options::{Item, Response};

/// What was found of the epoch that a datagram tells.
#[derive(Clone, Copy, Debug, PartialEq, Eq)]
pub enum EpochFound {
    /// The datagram says nothing to the client.
    Unread,
    /// The server may have kept its leases since the one before.
    Valid,
    /// It lost them.
    Invalid,
}

/// What a datagram said.
#[derive(Clone, Copy, Debug, PartialEq, Eq)]
pub enum What {
    /// Nothing to this client.
    NotMine,
    /// The epoch alone: it is a response for ANNOUNCE.
    Told,
    /// That the want of this id has its lease, or that its lease is deleted, and the want is removed.
    Taken(u32),
    /// That the want of this id has an error, with its code and the lifetime in seconds that counts: at most
    /// [`LONGEST_ERROR`]; or the code of a success, and [`NOTHING_GRANTED`], for one that grants nothing.
    ErrorFor(u32, Code, u32),
}

/// What came of a datagram.
#[derive(Clone, Copy, Debug, PartialEq, Eq)]
pub struct Heard {
    pub epoch: EpochFound,
    pub what: What,
}

/// What a response says beside its epoch.
#[derive(Clone, Copy)]
pub enum Notice {
    /// Nothing.
    Epoch,
    /// The want of this id is granted this.
    Grants(u32, Grant),
    /// The want of this id is refused, with the code, and the lifetime in seconds that counts.
    Refuses(u32, Code, u32),
    /// The want of this id, which was ending, has no lease any more.
    Removes(u32),
}

/// What a datagram says to a client.
#[derive(Clone, Copy)]
pub enum Meaning {
    /// Nothing.
    Nothing,
    /// It tells an epoch in seconds, and this.
    Says(u32, Notice),
}

/// What a response says to these wants.
pub(crate) fn said_by(slots: &[Option<Want>], response: &Response) -> Meaning
    requires { length slots.now ≡ 64 }
    ensures { result ≡ said_by slots.now response.now response.now.body }
{
    match &response.body {
        Body::Announce => Meaning::Says(response.epoch, Notice::Epoch),
        Body::Map(common) => { said_of(slots, response, common, answered_id(slots, response)) }
        Body::Peer { common, .. } => {
            said_of(slots, response, common, answered_id(slots, response))
        }
    }
}

/// The id of the first want that the response is for.
fn answered_id(slots: &[Option<Want>], response: &Response) -> Option<usize>
    ensures value { result ≡ position (answers response.now) slots.now }
    ensures there { IfSome result (λ id. id < length slots.now) }
{
    slots.iter().position(|slot| answers(response, slot))
}

/// What a response with these data says to the want of this id.
fn said_of(
    slots: &[Option<Want>],
    response: &Response,
    common: &Common,
    id: Option<usize>,
) -> Meaning
    requires room { length slots.now ≡ 64 }
    requires there { IfSome id (λ id. id < length slots.now) }
    ensures { result ≡ said_of slots.now response.now common.now id }
{
    let Some(id) = id else {
        return Meaning::Nothing;
    };
    said_at(response, common, id as u32, &slots[id])
}

/// What it says to the want in this slot.
fn said_at(response: &Response, common: &Common, id: u32, slot: &Option<Want>) -> Meaning
    ensures { result ≡ said_at response.now common.now id slot.now }
{
    match slot {
        Some(want) => said_to(response, common, id, want.is_ending()),
        None => Meaning::Nothing,
    }
}

/// What it says to a want that is ending, or isn't.
fn said_to(response: &Response, common: &Common, id: u32, ending: bool) -> Meaning
    ensures { result ≡ said_to response.now common.now id ending }
{
    let epoch = response.epoch;
    if response.code.number() != 0 {
        return Meaning::Says(
            epoch,
            Notice::Refuses(id, response.code, response.lifetime.min(LONGEST_ERROR)),
        );
    }
    if ending {
        return if response.lifetime == 0 {
            Meaning::Says(epoch, Notice::Removes(id))
        } else {
            Meaning::Nothing
        };
    }
    if response.lifetime == 0 {
        return Meaning::Says(epoch, Notice::Refuses(id, response.code, NOTHING_GRANTED));
    }
    Meaning::Says(epoch, Notice::Grants(id, grant_of(response, common)))
}

/// What a success with these data grants.
fn grant_of(response: &Response, common: &Common) -> Grant
    ensures { result ≡ grant_of response.now common.now }
{
    Grant {
        lifetime: response.lifetime,
        address: common.address,
        external: common.external,
        count: set_size(response.items.items()),
    }
}

/// The size of the set of ports that the options of a response tell (RFC 7753): 1 where it has no PORT_SET.
pub fn set_size(items: &[Item]) -> u16
    ensures { result ≡ set_size items.now }
{
    for item in items {
        if let Some(size) = size_in(item) {
            return size;
        }
    }
    1
}

fn size_in(item: &Item) -> Option<u16>
    ensures { result ≡ size_in item.now }
{
    match item {
        Item::PortSet(set) => Some(set.size),
        Item::ThirdParty(_address) => None,
        Item::PreferFailure => None,
        Item::Filter(_filter) => None,
    }
}

/// Whether a response is for the want in this slot.
fn answers(response: &Response, slot: &Option<Want>) -> bool
    ensures { result ≡ answers response.now slot.now }
{
    match slot {
        Some(want) => {
            same_key(want.ask(), &response.body)
                && same_third(want.third(), third_in(response.items.items()))
        }
        None => false,
    }
}

/// Whether a response with this body is for what is asked for.
fn same_key(ask: &Ask, body: &Body) -> bool
    ensures { result ≡ same_key ask.now body.now }
{
    match ask {
        Ask::Map(ask) => match body {
            Body::Map(common) => same_common(&ask.endpoint, &ask.nonce, common),
            Body::Announce => false,
            Body::Peer { .. } => false,
        },
        Ask::Peer(ask) => match body {
            Body::Peer {
                common,
                remote_port,
                remote,
            } => {
                same_common(&ask.endpoint, &ask.nonce, common)
                    && ask.remote_port == *remote_port
                    && ask.remote == *remote
            }
            Body::Announce => false,
            Body::Map(_common) => false,
        },
        Ask::Known(_refusal) => false,
        Ask::Announce => false,
    }
}

fn same_common(endpoint: &Endpoint, nonce: &Nonce, common: &Common) -> bool
    ensures { result ≡ same_common endpoint.now nonce.now common.now }
{
    *nonce == common.nonce
        && endpoint.protocol.number() == common.protocol
        && endpoint.port == common.internal
}

fn same_third(a: Option<Address>, b: Option<Address>) -> bool
    ensures { result ≡ same_third a b }
{
    match a {
        Some(a) => match b {
            Some(b) => a == b,
            None => false,
        },
        None => b.is_none(),
    }
}

/// The address of THIRD_PARTY, where it is there.
fn third_in(items: &[Item]) -> Option<Address>
    ensures { result ≡ third_of items.now }
{
    for item in items {
        if let Some(address) = third_by(item) {
            return Some(address);
        }
    }
    None
}

fn third_by(item: &Item) -> Option<Address>
    ensures { result ≡ third_of (item.now ∷ []) }
{
    match item {
        Item::ThirdParty(address) => Some(*address),
        Item::PreferFailure => None,
        Item::Filter(_filter) => None,
        Item::PortSet(_set) => None,
    }
}

/// What a word answers.
pub(crate) fn what_of(word: Notice) -> What
    ensures { result ≡ what_of word }
{
    match word {
        Notice::Epoch => What::Told,
        Notice::Grants(id, _grant) => What::Taken(id),
        Notice::Refuses(id, code, seconds) => What::ErrorFor(id, code, seconds),
        Notice::Removes(id) => What::Taken(id),
    }
}
