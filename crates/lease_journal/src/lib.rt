//! A journal of records in gated frames on two sides. A crash at any moment leaves sides that stand
//! for the records before a call, or for those with all that the call adds.
#![tactic(auto)]

mod appending;
mod compacting;
mod errors;
mod journals;
mod openings;
mod writes;

pub use errors::{Found, Unopened};
pub use journal_sides::{
    JournalFault, MOST_APPENDED, MOST_RECORDS, formats_differ, one_journal, snapshots_take_over,
};
pub use journals::Journal;
