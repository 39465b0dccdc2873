//! A plain, slow value of the state that records make, in three lists that are searched. Faster bodies
//! of `Replay` are compared with it, and what only judges a journal needs no faster one.
#![tactic(auto)]

mod changes;
mod ends;
mod judging;
mod leases;
mod owners;
mod replay;
mod table;

pub use replay::PlainReplay;
