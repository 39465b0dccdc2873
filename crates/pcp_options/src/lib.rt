//! The options of Port Control Protocol messages (RFC 6887, section 13; PORT_SET: RFC 7753), the whole
//! verdict on a datagram, and the replies to requests; for clients and relays, requests that are written
//! and responses that are read.
#![tactic(auto)]

mod laws;
mod layout;
mod options;
mod replies;
mod requests;
mod responses;
mod slots;
mod verdicts;

pub use laws::{
    asks_are_well_formed, options_are_of_the_grammar, replies_are_responses, requests_are_asked,
    successes_are_read, successes_are_responses,
};
pub use layout::{
    FILTER_CODE, FILTER_OCTETS, FILTER_PORT_PLACE, FILTER_PREFIX_PLACE, FILTER_REMOTE_PLACE,
    FIRST_OPTIONAL_CODE, LONGEST_PREFIX, OPTION_HEAD_OCTETS, PORT_SET_CODE, PORT_SET_OCTETS,
    PREFER_FAILURE_CODE, PREFER_FAILURE_OCTETS, SET_FIRST_PLACE, SET_PARITY_PLACE, SET_SIZE_PLACE,
    THIRD_PARTY_CODE, THIRD_PARTY_OCTETS,
};
pub use options::{Item, Items, OptionsRefused, read_options};
pub use replies::{write_reply, write_success, write_success_with};
pub use requests::{MOST_ASKED_FILTERS, write_request, write_request_with};
pub use responses::{Response, ResponseRefused, read_response};
pub use verdicts::{Verdict, judge};
