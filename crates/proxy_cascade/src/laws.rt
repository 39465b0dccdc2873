//! What holds of every cascade. A proof that needs a law calls its function.
ghost use Rattle.proxy_cascade.specs.Laws.{RepliesAreOwn, SentIsTold, TiesAlwaysDiffer};

/// Whatever came to a cascade, two of its ties differ in their client's endpoint, and in protocol or
/// local port.
pub fn ties_always_differ()
    ensures { TiesAlwaysDiffer }
{}

/// Whatever came to a cascade before, what it sends for a datagram from upstream is a told lease, a
/// told deletion, a told error or an announcement: each but the last stands for a request that went
/// upstream, the upstream reply to it, and the tie between them. The epoch in it counts from the
/// last of the start and the replies found invalid.
pub fn sent_is_told()
    ensures { SentIsTold }
{}

/// A cascade's own replies to clients tell no lease, and have that epoch too.
pub fn own_replies_are_no_leases()
    ensures { RepliesAreOwn }
{}
