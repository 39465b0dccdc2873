//! The calls of the server's commands that wait for nobody: a script is played over journals, the
//! journals are dumped, generated requests are served.
#![tactic(auto)]

mod dumping;
mod loading;
mod playing;
mod run;
mod statuses;
mod updating;

pub use run::run_once;
pub use server_commands::{ConfigCause, Status};
pub use statuses::{unopened_as, unread_as};
