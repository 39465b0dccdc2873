//! What holds of every decision on a lease. A proof that needs a law calls its function.
#![tactic(auto)]

mod laws;

pub use laws::{answers_tell_the_address, leases_are_granted};
