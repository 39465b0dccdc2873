//! A lock whose passes know the history of the value behind it.
//!
//! A value stands for a list of entries, which nobody stores. Whoever holds a pass takes a turn,
//! changes the value, notes the entries that it added, and gives the value back. A pass knows what
//! it has seen of the one list, and at which places there the entries stand that were noted with
//! it.
#![tactic(auto)]

mod held;
mod kept;
mod laws;
mod layout;
mod lends;
mod plays;
mod turn;
mod views;

pub use held::Held;
pub use kept::Kept;
pub use laws::{noted_entries_stand_once, passes_share_one_history, tickets_go_on};
pub use turn::{Pass, Turn, Unmade, give_up};
