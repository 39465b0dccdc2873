//! What the PEER leases of an endpoint use.

/// The external port of an endpoint's live PEER leases, and how many they are.
#[derive(Clone, Copy, Debug, PartialEq, Eq)]
pub struct PortUse {
    /// At least 1.
    pub external: u16,
    /// 1 to [`MOST_PEERS`](pcp_base::MOST_PEERS).
    pub count: u32,
}
