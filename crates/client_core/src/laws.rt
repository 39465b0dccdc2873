//! What holds of the definitions. A proof that needs a law calls its function.
ghost use Rattle.client_core.specs.EpochTests.{LossesAreHeard};
ghost use Rattle.client_core.specs.EventFolds.{WantsFollowTheirEvents};

/// When a want is due, which lease it holds and what it asks for next are read off the list of its own
/// events.
pub fn wants_follow_their_events()
    ensures { WantsFollowTheirEvents }
{}

/// An epoch that was high enough, and the next one that is told after a loss, aren't both valid (RFC 6887,
/// section 8.5).
pub fn losses_are_heard()
    ensures { LossesAreHeard }
{}
