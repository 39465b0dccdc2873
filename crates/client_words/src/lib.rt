//! The words of the client's commands with those that stand among them: a nonce, filters and a third host.
//! `unmap` and `keep` have the words of `map`.
#![tactic(auto)]

mod asks;
mod filters;
mod helps;
mod keeps;
mod laws;
mod more;
mod nonces;
mod splits;

pub use asks::{ClientAsk, ask_of};
pub use filters::MOST_FILTERS;
pub use helps::help_of;
pub use keeps::{KeepAsk, keep_of};
pub use laws::older_words_stay;
pub use more::More;
pub use nonces::{nonce_file_of, read_nonce, write_nonce};
