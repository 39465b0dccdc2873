//! Plays a script: reads it line by line, has each line answered, and writes each result before it
//! looks at the next line. What answers the lines is a trait, which says what a line does and what
//! a crash may leave of it.
#![tactic(auto)]

mod answerers;
mod faults;
mod player;
mod readers;
mod wholes;

pub use answerers::{AnswerFault, LineAnswerer};
pub use player::{MOST_OCTETS, PlayStatus, play};
pub use wholes::{WholeFault, read_whole};
