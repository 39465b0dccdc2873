//! Where and when something is told.
use pcp_base::{Address, Moment};

/// Where and when something is told, and how far the journal goes then.
#[derive(Clone, Copy)]
pub struct Setting {
    /// The external address that the journal names; where it names none, the configured one.
    pub address: Address,
    /// Which external address of the configuration it is, from 0.
    pub shard: u32,
    /// When it happened.
    pub moment: Moment,
    /// The base of the state.
    pub base: Moment,
    /// The last moment of the records.
    pub last: Moment,
}
