//! The book of an external address: its lease table, and the journal that keeps it over a stop. It
//! answers requests, alone or in batches, once their records are in the journal.
#![tactic(auto)]

mod batches;
mod books;
mod committing;
mod lengths;
mod opening;
mod serving;
mod settling;
mod snapshots;
mod standings;
mod texts;

pub use batches::{Answered, DatedAnswer};
pub use books::{BookFault, LeaseBook};
pub use lease_journal::{Found, Unopened};
pub use opening::Book;
pub use standings::{Settled, Standing};
