//! The house: all external addresses of a server, each with its leases and its journal.
#![tactic(auto)]

mod book_calls;
mod crash_laws;
mod faults;
mod moments;
mod opening;
mod opening_laws;
mod replying;
mod routes;
mod solo;
mod updates;

pub use crash_laws::crashes_are_found;
pub use faults::{HouseFault, Unbegun};
pub use moments::greatest_base;
pub use opening::{Opened, copy_of, fault_at, hand_back, open_books, put_first};
pub use opening_laws::{opened_houses_begin, pairs_are_handed_back};
pub use replying::{address_at, reply_of};
pub use routes::{Routed, read_datagram, route};
pub use solo::SoloHouse;
pub use updates::{CLIENT_PORT, updates_of};
