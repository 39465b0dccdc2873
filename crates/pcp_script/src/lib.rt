//! Scripts: what their lines ask for and what they put out.
#![tactic(auto)]

mod fields;
mod laws;
mod lines;
mod load;
mod results;

pub use laws::texts_stand_for_one_line;
pub use lines::{LONGEST_LINE, Line, LineRefused, read_line};
pub use load::{LOAD_PORT, Load};
pub use results::{LineResult, write_result};
