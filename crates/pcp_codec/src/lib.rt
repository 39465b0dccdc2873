//! The octets of Port Control Protocol messages (RFC 6887, sections 7, 11.1, 12.1 and 14.1): heads and
//! bodies of requests, heads of responses, and the replies to refused requests.
#![tactic(auto)]

mod fields;
mod layout;
mod replies;
mod requests;
mod responses;

pub use fields::{octet_of, octets_of, u16_of, u32_of};
pub use layout::{
    ADDRESS_PLACE, ANNOUNCE_OPCODE, CLIENT_PLACE, CODE_PLACE, EPOCH_PLACE, EXTERNAL_PLACE,
    HEAD_OCTETS, INTERNAL_PLACE, LAST_PLACE, LIFETIME_PLACE, MAP_OCTETS, MAP_OPCODE,
    MESSAGE_OCTETS, NONCE_PLACE, PEER_OCTETS, PEER_OPCODE, PROTOCOL_PLACE, R_BIT, REMOTE_PLACE,
    REMOTE_PORT_PLACE, VERSION,
};
pub use replies::{write_head, write_refusal};
pub use requests::{
    Body, Common, Frame, Framed, is_plain_map, read_body, read_common, read_request,
};
pub use responses::{CODES, Head, NotResponse, read_response_head};
