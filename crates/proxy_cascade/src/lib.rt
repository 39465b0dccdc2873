//! A relay of the Port Control Protocol beside a translator of its own: it ties each client's
//! endpoint to a local port, asks upstream for that port, and tells the client the upstream external
//! port (RFC 7648 in role; the rules are our own).
#![tactic(auto)]

mod asking;
mod cascades;
mod epochs;
mod judging;
mod laws;
mod outs;
mod serving;
mod terms;
mod texts;

pub use asking::MOST_TIES;
pub use cascade_ties::Tie;
pub use cascades::Cascade;
pub use laws::{own_replies_are_no_leases, sent_is_told, ties_always_differ};
pub use outs::CascadeOut;
pub use serving::MOST_TRIES;
