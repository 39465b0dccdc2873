//! A front for hosts that speak the NAT Port Mapping Protocol (RFC 6886, sections 3 and 3.2 to 3.6): what a
//! request asks of the lease tables, and the octets of its reply. Mappings are asked for and deleted one by
//! one: a request to delete all of a host's at once (section 3.4) names internal port 0, and is refused.
//! Announcements (section 3.2.1) aren't made.
#![tactic(auto)]

mod fields;
mod laws;
mod layout;
mod replies;
mod requests;

pub use laws::front_asks_are_well_formed;
pub use replies::write_front;
pub use requests::{Front, is_front, read_front};

#[cfg(test)]
mod tests;
