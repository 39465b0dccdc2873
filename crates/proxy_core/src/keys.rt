//! By what a reply from upstream is matched with the request that waits for it.
ghost use Rattle.std.specs.Prelude.{◌≡◌};
ghost use Rattle.proxy_core.specs.Keys.{common_key, key_of};

use pcp_base::{Address, Nonce};
use pcp_codec::{Body, Common, MAP_OPCODE, PEER_OPCODE};

/// What a reply from upstream has in common with its request alone (RFC 6887, sections 11.1, 12.1
/// and 13.1).
#[derive(Clone, Copy, Debug, PartialEq, Eq, Hash)]
pub struct WaitingKey {
    /// The nonce by which the relay asked upstream.
    pub nonce: Nonce,
    /// 1 for MAP, 2 for PEER.
    pub opcode: u8,
    /// The number of the transport protocol.
    pub protocol: u8,
    /// The internal port.
    pub internal: u16,
    /// The address in THIRD_PARTY, which every request that goes upstream has.
    pub third: Option<Address>,
    /// The address and port of the remote peer, for PEER alone.
    pub remote: Option<(Address, u16)>,
}

/// The key of a message with this data and this address in THIRD_PARTY; none for ANNOUNCE.
pub(crate) fn key_of(body: &Body, third: Option<Address>) -> Option<WaitingKey>
    ensures { result ≡ key_of body.now third }
{
    match body {
        Body::Announce => None,
        Body::Map(common) => Some(common_key(MAP_OPCODE, common, third, None)),
        Body::Peer {
            common,
            remote_port,
            remote,
        } => Some(common_key(PEER_OPCODE, common, third, Some((*remote, *remote_port)))),
    }
}

fn common_key(
    opcode: u8,
    common: &Common,
    third: Option<Address>,
    remote: Option<(Address, u16)>,
) -> WaitingKey
    ensures { result ≡ common_key opcode common.now third remote }
{
    WaitingKey {
        nonce: common.nonce,
        opcode,
        protocol: common.protocol,
        internal: common.internal,
        third,
        remote,
    }
}
