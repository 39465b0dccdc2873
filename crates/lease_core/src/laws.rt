//! What holds of decisions. A proof that needs a law calls its function.
ghost use Rattle.lease_core.specs.Laws.{DecisionsChangeLeases, DecisionsFit, DecisionsKeepReached, NoncesMatch, RestsAreKept};

/// The record of a decision grants, renews or deletes a lease, at its moment.
pub fn decisions_change_leases()
    ensures { DecisionsChangeLeases }
{}

use pcp_base::{new_leases_need_room, ports_have_one_owner, states_are_sound};

/// The record of a decision fits, and has its moment.
pub fn decisions_fit()
    ensures { DecisionsFit }
{
    new_leases_need_room();
}

/// After the record of a decision the state is still one that fitting records make, and each
/// external port has one owner at each moment.
pub fn decisions_keep_owners()
    ensures { DecisionsKeepReached }
{
    new_leases_need_room();
    states_are_sound();
    ports_have_one_owner();
}

/// A live lease is replaced or removed by a request with its nonce alone.
pub fn nonces_match()
    ensures { NoncesMatch }
{}

/// No port that rests for one endpoint is given to another.
pub fn rests_are_kept()
    ensures { RestsAreKept }
{}
