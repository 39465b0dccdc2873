//! Which files a command reads and writes, and what people are told who ask for more than a status.
#![tactic(auto)]

mod aims;
mod causes;
mod disk_causes;
mod kept;
mod nonce_files;
mod places;
mod told;
mod told_disks;

pub use crate::aims::{Aim, is_aimed, with_aim};
pub use crate::causes::{
    door_cause, dropped_text, families_cause, key_cause, nonce_cause, path_cause, port_cause,
    reach_cause, router_cause, socket_cause, tell_tool_words, threads_cause,
};
pub use crate::disk_causes::{DiskCause, pair_cause};
pub use crate::kept::KeptSource;
pub use crate::nonce_files::{make_nonce_file, read_short_file};
pub use crate::places::{Places, journals_in, may_open, places_of};
pub use crate::told::{beginning_of, doors_of, gap_text, last_of, look_at, told_of};
pub use crate::told_disks::{ToldDisk, told_journals_in};
