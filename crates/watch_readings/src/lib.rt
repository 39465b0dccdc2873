//! What is told of a journal that is read beside the server that writes it.
#![tactic(auto)]

mod copies;
mod laws;
mod looks;
mod readings;
mod terms;

pub use copies::{Front, SideLook, sides_of};
pub use laws::readings_are_dumps;
pub use looks::told_of;
pub use readings::{Place, Told, told_in};
