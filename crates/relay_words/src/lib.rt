//! The words of the relays with the options that stand among them: inner addresses behind the first one,
//! whose THIRD_PARTY is passed on, how many requests a second, and a file with the key.
#![tactic(auto)]

mod asks;
mod helps;
mod keys;
mod laws;
mod lists;
mod more;
mod splits;

pub use asks::{CascadeAsk, ProxyAsk, cascade_ask_of, proxy_ask_of};
pub use helps::help_of;
pub use keys::key_file_of;
pub use laws::older_words_stay;
pub use lists::InnerAddresses;
pub use more::{DEFAULT_RATE, MOST_INNER, MOST_RATE, MOST_THIRD_PARTIES, RelayMore};
