//! What is decided on requests of all kinds.
ghost use Rattle.std.specs.Prelude.{◌≡◌, ◌<◌, ◌≤◌, ◌+◌, ◌*◌, None, if◌then◌else◌};
ghost use Rattle.pcp_base.specs.Asks.{IsWellFormedAsk};
ghost use Rattle.pcp_base.specs.Reached.{IsReached};
ghost use Rattle.lease_core.specs.Answers.{decision};
ghost use Rattle.lease_core.specs.Decide.{decide, is_picked, looks_asked, picking};

use crate::decided::Decided;
use crate::mapping::decide_map;
use crate::peering::decide_peer;
use lease_store::LeaseStore;
use pcp_base::{Answer, Ask, Moment, Record};
use std::sync::ledger::{Blank, Ledger};
use step_count::Steps;

/// What is decided on a request at the moment reached. It leaves the record in `kept`.
fn decide_reached<S: LeaseStore, L: Ledger>(
    store: &mut S,
    ask: &Ask,
    m: Moment,
    kept: &mut Option<Record>,
    steps: &mut Steps<L>,
) -> Answer
    requires sound { IsReached (S.state store.old) }
    requires reached { S.reached store.old ≡ m }
    requires ask { IsWellFormedAsk ask.now }
    requires none { kept.old ≡ None }
    ensures decided { decision result kept.new
        ≡ decide (S.terms store.old) (S.state store.old) m ask.now }
    ensures state { S.state store.new ≡ S.state store.old }
    ensures reached { S.reached store.new ≡ m }
    ensures terms { S.terms store.new ≡ S.terms store.old }
    ensures steps { let s = S.state store.old in steps.new
        ≤ steps.old + looks_asked ask.now * S.look_steps s
        + (if is_picked s m ask.now
        then picking (S.look_steps s) (S.pick_steps store.old m) ask.now else 0) }
{
    match ask {
        Ask::Known(refusal) => Answer::Refused(*refusal),
        Ask::Announce => Answer::Announced,
        Ask::Map(map) => decide_map(store, m, map, kept, steps),
        Ask::Peer(peer) => decide_peer(store, m, peer, kept, steps),
    }
}

/// What is decided on a request, as by [`decide`]. It leaves the record in `kept`.
fn decide_kept<S: LeaseStore, L: Ledger>(
    store: &mut S,
    ask: &Ask,
    m: Moment,
    kept: &mut Option<Record>,
    steps: &mut Steps<L>,
) -> Answer
    requires sound { IsReached (S.state store.old) }
    requires later { S.reached store.old ≤ m }
    requires ask { IsWellFormedAsk ask.now }
    requires none { kept.old ≡ None }
    ensures decided { decision result kept.new
        ≡ decide (S.terms store.old) (S.state store.old) m ask.now }
    ensures state { S.state store.new ≡ S.state store.old }
    ensures reached { S.reached store.new ≡ m }
    ensures terms { S.terms store.new ≡ S.terms store.old }
    ensures steps { let s = S.state store.old in steps.new ≤ steps.old + S.reach_steps
        + looks_asked ask.now * S.look_steps s
        + (if is_picked s m ask.now
        then picking (S.look_steps s) (S.pick_steps store.old m) ask.now else 0) }
{
    store.reach(m, steps);
    decide_reached(store, ask, m, kept, steps)
}

/// What is decided on a request at a moment that isn't below the one reached, which it becomes. The
/// state stays: a record that is told is for the caller to apply. Want of memory changes none of this.
/// It takes what `reach` takes, three look-ups for a MAP request and five for a PEER request, and,
/// only where a new lease is asked for whose endpoint has no port, a pick for its address with a
/// look-up for each port of a set.
pub fn decide<S: LeaseStore, L: Ledger>(
    store: &mut S,
    ask: &Ask,
    m: Moment,
    steps: &mut Steps<L>,
) -> Decided
    requires sound { IsReached (S.state store.old) }
    requires later { S.reached store.old ≤ m }
    requires ask { IsWellFormedAsk ask.now }
    ensures decided { result ≡ decide (S.terms store.old) (S.state store.old) m ask.now }
    ensures state { S.state store.new ≡ S.state store.old }
    ensures reached { S.reached store.new ≡ m }
    ensures terms { S.terms store.new ≡ S.terms store.old }
    ensures steps { let s = S.state store.old in steps.new ≤ steps.old + S.reach_steps
        + looks_asked ask.now * S.look_steps s
        + (if is_picked s m ask.now
        then picking (S.look_steps s) (S.pick_steps store.old m) ask.now else 0) }
{
    let mut kept = None;
    let answer = decide_kept(store, ask, m, &mut kept, steps);
    Decided { answer, kept }
}

/// Decides for a caller that counts no steps. It leaves the record in `kept`.
#[inline(never)]
pub(crate) fn decide_uncounted<S: LeaseStore, L: Ledger>(
    store: &mut S,
    ask: &Ask,
    m: Moment,
    kept: &mut Option<Record>,
    blank: Blank,
) -> Answer
    requires name { blank.name ≡ L.name }
    requires parts { blank.parts ≡ L.parts }
    requires part { 0 < L.parts }
    requires sound { IsReached (S.state store.old) }
    requires later { S.reached store.old ≤ m }
    requires ask { IsWellFormedAsk ask.now }
    requires none { kept.old ≡ None }
    ensures decided { decision result kept.new
        ≡ decide (S.terms store.old) (S.state store.old) m ask.now }
    ensures state { S.state store.new ≡ S.state store.old }
    ensures reached { S.reached store.new ≡ m }
    ensures terms { S.terms store.new ≡ S.terms store.old }
{
    let mut steps = Steps::<L>::begin(blank);
    decide_kept(store, ask, m, kept, &mut steps)
}
