//! What a command asks for.
ghost use Rattle.std.specs.Prelude.{◌≡◌, IfOk};
ghost use Rattle.client_runs.specs.Asking.{CanBeAsked, asked_by, endpoint_of, map_asked, nonce_of, peer_asked, set_asked, target_of, unsuggested};
ghost use Rattle.client_core.specs.Wants.{CanBeWanted};

use client_commands::{ClientCommand, MapWanted, Mapping, PeerWanted, Target};
use client_words::More;
use pcp_base::{Address, Ask, Endpoint, FilterList, MapAsk, Memory, Nonce, PeerAsk, PortSet};
use std::alloc::Global;

// What an IPv4-mapped address begins with (RFC 6887, section 5).
const V4_FRONT: [u8; 12] = [0, 0, 0, 0, 0, 0, 0, 0, 0, 0, 255, 255];

/// Three words as a nonce, each written big-endian.
pub(crate) fn nonce_of(first: u32, second: u32, third: u32) -> Nonce
    ensures { result ≡ nonce_of first second third }
{
    let [a, b, c, d] = first.to_be_bytes();
    let [e, f, g, h] = second.to_be_bytes();
    let [i, j, k, l] = third.to_be_bytes();
    Nonce([a, b, c, d, e, f, g, h, i, j, k, l])
}

/// What a command asks for with this nonce, and with more that the words say.
pub fn asked_by(
    alloc: Global,
    command: &ClientCommand,
    more: &More,
    nonce: Nonce,
) -> Result<Ask, Memory>
    ensures { IfOk result (λ ask. ask ≡ asked_by command.now more.now nonce) }
{
    match command {
        ClientCommand::Map(target, wanted) => {
            Ok(Ask::Map(map_asked(alloc, target, wanted, more, nonce)?))
        }
        ClientCommand::Peer(target, wanted) => Ok(Ask::Peer(peer_asked(target, wanted, nonce))),
        ClientCommand::Announce(_target) => Ok(Ask::Announce),
    }
}

fn map_asked(
    alloc: Global,
    target: &Target,
    wanted: &MapWanted,
    more: &More,
    nonce: Nonce,
) -> Result<MapAsk, Memory>
    ensures { IfOk result (λ ask. ask ≡ map_asked target.now wanted.now more.now nonce) }
{
    let filters = more.filters.items().to_vec(alloc)?;
    Ok(MapAsk {
        endpoint: endpoint_of(target, &wanted.mapping),
        nonce,
        lifetime: wanted.mapping.lifetime,
        port: wanted.mapping.external,
        address: unsuggested(&target.own),
        prefer: wanted.prefer,
        set: set_asked(wanted),
        filters: FilterList::of(filters),
    })
}

fn peer_asked(target: &Target, wanted: &PeerWanted, nonce: Nonce) -> PeerAsk
    ensures { result ≡ peer_asked target.now wanted.now nonce }
{
    PeerAsk {
        endpoint: endpoint_of(target, &wanted.mapping),
        nonce,
        lifetime: wanted.mapping.lifetime,
        port: wanted.mapping.external,
        address: unsuggested(&target.own),
        remote: wanted.remote,
        remote_port: wanted.remote_port,
    }
}

/// The client's own address, with the protocol and the internal port.
fn endpoint_of(target: &Target, mapping: &Mapping) -> Endpoint
    ensures { result ≡ endpoint_of target.now mapping.now }
{
    Endpoint {
        address: target.own,
        protocol: mapping.protocol,
        port: mapping.port,
    }
}

/// No address, in the form of one's own.
fn unsuggested(own: &Address) -> Address
    ensures { result ≡ unsuggested own.now }
{
    if own.0.starts_with(&V4_FRONT) {
        Address::v4(0, 0, 0, 0)
    } else {
        Address([0; 16])
    }
}

/// The PORT_SET, where more ports than one are asked for.
fn set_asked(wanted: &MapWanted) -> Option<PortSet>
    ensures { result ≡ set_asked wanted.now }
{
    if wanted.size > 1 {
        Some(PortSet {
            size: wanted.size,
            first: wanted.mapping.port,
            parity: false,
        })
    } else {
        None
    }
}
