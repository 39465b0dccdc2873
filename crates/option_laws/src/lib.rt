//! What holds of all that is read of messages. A proof that needs a law calls its function.
#![tactic(auto)]

mod laws;

pub use laws::{
    asks_are_of_requests, grants_are_read, messages_are_octets, refusals_are_errors,
    what_is_read_fits,
};
