//! What holds of every relay. A proof that needs a law calls its function.
ghost use Rattle.proxy_core.specs.Runs.{RepliesStandForPairs};
ghost use Rattle.proxy_core.specs.WaitLaws.{WaitsAreKept};

/// Whatever came to a relay before, each datagram that it sends down stands for a request that went
/// upstream and for the upstream reply to it, or is an ANNOUNCE response of the server.
pub fn replies_stand_for_pairs()
    ensures { RepliesStandForPairs }
{}

/// Each step of a relay keeps its addresses, its key and its prefixes, and that what waits is a client's request,
/// judged by whose THIRD_PARTY the relay passes on, under the key of its reply.
pub fn waits_are_kept()
    ensures { WaitsAreKept }
{}
