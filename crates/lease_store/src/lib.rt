//! What a decision on a lease asks of the state that records made: the trait of its stores, and the
//! terms on which ports are leased (RFC 6887, sections 11 and 12).
#![tactic(auto)]

mod store;
mod terms;

pub use store::LeaseStore;
pub use terms::Terms;
