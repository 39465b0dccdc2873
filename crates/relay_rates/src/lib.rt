//! How many requests of its clients a relay takes in a second, and how many announcements of upstream it
//! passes on in it, whatever the relay is.
#![tactic(auto)]

mod gates;
mod laws;
mod relays;

pub use gates::RateGate;
pub use laws::{gates_sift, rates_are_kept, telling_is_kept};
pub use relays::RatedRelay;
