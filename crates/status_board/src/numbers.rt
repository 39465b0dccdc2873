//! Numbers of an external address.
/// What an external address has at a moment.
#[derive(Clone, Copy, Debug, PartialEq, Eq)]
pub struct ShardNumbers {
    /// in seconds
    pub moment: u64,
    /// the moment from which its epoch counts, in seconds
    pub base: u64,
    /// how many leases are live, MAP and PEER together
    pub leases: u32,
    /// how many TCP ports nobody holds, and none rests
    pub free_tcp: u32,
    /// the same of UDP
    pub free_udp: u32,
}

/// What became of the jobs of an external address so far, in the words of its tally.
#[derive(Clone, Copy, Debug, PartialEq, Eq)]
pub struct JobCounts {
    pub taken: u64,
    pub replied: u64,
    pub silent: u64,
    pub unsent: u64,
    pub faulted: u64,
    pub starved: u64,
}
