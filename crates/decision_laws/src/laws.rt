//! The laws.
ghost use Rattle.decision_laws.specs.Addresses.{AnswersTellTheAddress};
ghost use Rattle.decision_laws.specs.Granting.{MapsAreGranted, PeersAreGranted};

/// A lease that a decision keeps is one of the table, of which only the expiry and the filters
/// changed, or it is new; then it is for the endpoint and of the nonce of the ask, and the answer tells
/// its external port.
pub fn leases_are_granted()
    ensures maps { MapsAreGranted }
    ensures peers { PeersAreGranted }
{}

/// An answer that grants tells the external address of the terms.
pub fn answers_tell_the_address()
    ensures { AnswersTellTheAddress }
{}
