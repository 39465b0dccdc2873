//! Ties of clients' endpoints to local ports of a host, as a relay beside a translator of its own
//! keeps them, each with the request that waits for it, and until when local ports rest. Ties are seen as
//! a list in the order made.
#![tactic(auto)]

mod changes;
mod locals;
mod lookups;
mod rests;
mod steps;
mod table;
mod ties;

pub use locals::{NoLocal, TIE_QUOTA};
pub use table::TieTable;
pub use ties::{Tie, Tied, Waiting};
