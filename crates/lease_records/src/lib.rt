//! The octets of the records of a lease journal, both ways.
#![tactic(auto)]

mod laws;
mod reading;
mod terms;
mod writing;

pub use laws::one_text;
pub use reading::{NotRecord, read_record};
pub use writing::write_record;
