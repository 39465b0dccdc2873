//! Leases in the order granted, and ordered maps by which they are found.
#![tactic(auto)]

mod aged;
mod changes;
mod due;
mod expires;
mod hints;
mod keys;
mod maps;
mod marks;
mod numbered;
mod numbers;
mod owned;
mod places;
mod port_slots;
mod ports;
mod sieves;
mod slots;

pub use aged::numbers_of_both;
pub use expires::Expires;
pub use hints::Hints;
pub use keys::{Port, first_from, last_up_to, port_at};
pub use numbered::Numbered;
pub use owned::Owned;
pub use places::{Place, is_beside, place_of, port_in};
pub use port_slots::{External, PortSlots};
pub use ports::lesser;
pub use sieves::Sieve;
pub use slots::{Slots, Values};
