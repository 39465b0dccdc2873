//! A relay of the Port Control Protocol: requests go upstream with the relay's address, THIRD_PARTY
//! and a nonce of its own, and replies go back to the client that asked (RFC 7648 in role; the
//! rules of rewriting are our own).
#![tactic(auto)]

mod downstream;
mod epochs;
mod everyone;
mod keys;
mod laws;
mod nonces;
mod outs;
mod proxies;
mod upstream;
mod waits;

pub use downstream::write_relayed;
pub use epochs::Heard;
pub use everyone::every_address_may_ask;
pub use keys::WaitingKey;
pub use laws::{replies_stand_for_pairs, waits_are_kept};
pub use nonces::upstream_nonce;
pub use outs::{CLIENTS_PORT, ProxyOut};
pub use proxies::Proxy;
pub use waits::{MOST_WAITING, WAIT_MS, Waiting};
