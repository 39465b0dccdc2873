//! A plain, slow store of the state that records made: a
//! [`PlainReplay`](plain_replay::PlainReplay), whose lists are searched. Faster bodies of
//! [`LeaseStore`](lease_store::LeaseStore) are compared with it.
#![tactic(auto)]

mod counts;
mod lookups;
mod order;
mod owned;
mod picks;
mod records;
mod rests;
mod store;

pub use store::PlainStore;
