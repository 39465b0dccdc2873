//! What the history of an external address may be: which entries may come after which, and what
//! holds of all of them.
#![tactic(auto)]

mod laws;

pub use laws::{
    calls_make_histories, datagram_asks_are_well_formed, entries_come_next, epochs_disclose,
    histories_grow, histories_keep_promises, legal_histories_keep_promises, nonces_decide,
    ports_keep_one_owner, ports_rest, states_stand,
};
