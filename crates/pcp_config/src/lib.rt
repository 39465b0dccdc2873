//! The configuration of a server, as a TOML text.
#![tactic(auto)]

mod explanations;
mod faults;
mod listen_texts;
mod listening;
mod lists;
mod tables;
mod texts;
mod values;

pub use explanations::explain;
pub use texts::{ConfigRefused, read_config};

/// The most octets that the text of a configuration may have: 2^20.
pub const LONGEST_CONFIG: usize = 1_048_576;

/// The quota where a configuration tells none.
pub const DEFAULT_QUOTA: u32 = 64;

/// The least lifetime where a configuration tells none, in seconds.
pub const DEFAULT_LIFETIME_MIN: u32 = 120;

/// The most octets that the name of a link may have.
pub const LONGEST_LINK: usize = 15;

// The last port.
pub(crate) const LAST_PORT: u32 = 65_535;
