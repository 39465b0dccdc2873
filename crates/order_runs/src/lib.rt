//! Orders to a server that runs: a link as a trait, by which it is asked; a link in memory; and the call
//! of such a command, from its words to its status.
#![tactic(auto)]

mod answers;
mod links;
mod memory_orders;
mod runs;
#[cfg(test)]
mod tests;

pub use links::{OrderAsk, OrderFault, OrderLink};
pub use memory_orders::MemoryOrders;
pub use runs::run_order;
