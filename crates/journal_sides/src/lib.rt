//! One side of a journal and both of them: the octets of heads, frames and gates, what they stand for,
//! and how they are read.
#![tactic(auto)]

mod errors;
mod formats;
mod frames;
mod heads;
mod judging;
mod laws;
mod layout;
mod sides;
mod texts;
mod walks;

pub use errors::JournalFault;
pub use formats::Format;
pub use frames::{frames_of, hidden_of};
pub use judging::{Verdict, judge};
pub use laws::{formats_differ, one_journal, snapshots_take_over};
pub use layout::{MOST_APPENDED, MOST_RECORDS, SHORTEST_SIDE};
pub use sides::Side;
pub use texts::{read_first, texts_of};
pub use walks::{Judged, Standing, fill};
