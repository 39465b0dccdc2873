//! A fast store of the state that records made: leases in ordered maps, and the ports of their external
//! address, whose last ends tell the ends. A lease that has ended stays in its map for a while.
#![tactic(auto)]

mod applying;
mod changes;
mod counted;
mod dropping;
mod facts;
mod first;
mod holding;
mod judging;
mod leases;
mod lists;
mod lookups;
mod making_way;
mod outside;
mod owning;
mod state;
mod store;
mod uncounted;

pub use store::IndexedStore;
