//! What holds of legal histories. A proof that needs a law calls its function.
ghost use Rattle.lease_histories.specs.DatagramAsks.{DatagramAsksAreWellFormed};
ghost use Rattle.lease_histories.specs.Laws.{BasesDisclose, BasesRise, CallsMakeHistories, DecisionsComeNext, EpochsDisclose, FaultsComeNext, LastIsGreatest, NextIsLegal, NoncesDecide, NothingIsLegal, OpeningsDisclose, PortsKeepOneOwner, PortsRest, PortsStay, PrefixesAreLegal, ServersComeNext, StartsDisclose, StatesStand};
ghost use Rattle.lease_histories.specs.Promises.{HistoriesKeepPromises, LegalHistoriesKeepPromises};

use lease_core::{decisions_change_leases, decisions_fit, nonces_match};
use natpmp_front::front_asks_are_well_formed;
use pcp_base::{ends_at_a_moment, ends_come_in_steps, ports_have_one_owner, states_are_sound};
use pcp_options::asks_are_well_formed;

/// Whatever a datagram of octets asks for, by either protocol, may be asked of a lease table.
pub fn datagram_asks_are_well_formed()
    ensures { DatagramAsksAreWellFormed }
{
    asks_are_well_formed();
    front_asks_are_well_formed();
}

/// A history begins with nothing, grows entry by entry, and each front of a legal one is legal. Its
/// last moment and its last base are the greatest.
pub fn histories_grow()
    ensures nothing { NothingIsLegal }
    ensures prefixes { PrefixesAreLegal }
    ensures next { NextIsLegal }
    ensures greatest { LastIsGreatest }
{}

/// What a body adds to a legal history: what the table decides on a request, a table that begins
/// anew and the address that it is told, and faults.
pub fn entries_come_next()
    ensures decisions { DecisionsComeNext }
    ensures servers { ServersComeNext }
    ensures faults { FaultsComeNext }
{
    decisions_change_leases();
}

/// After every entry the state is one that fitting records made, the first a Start.
pub fn states_stand()
    ensures { StatesStand }
{
    datagram_asks_are_well_formed();
    decisions_fit();
}

/// After every entry, and at every moment from then on, no external port has two owners.
pub fn ports_keep_one_owner()
    ensures { PortsKeepOneOwner }
{
    states_stand();
    ports_have_one_owner();
}

/// Only a request with the nonce of a live lease renews or deletes it, unless its table begins
/// anew.
pub fn nonces_decide()
    ensures { NoncesDecide }
{
    datagram_asks_are_well_formed();
    decisions_fit();
    decisions_change_leases();
    nonces_match();
}

/// From the end of a lease until 120 seconds later no other endpoint has its ports, unless the
/// table begins anew in between. So it goes on where a later history begins.
pub fn ports_rest()
    ensures rest { PortsRest }
    ensures stay { PortsStay }
{
    datagram_asks_are_well_formed();
    decisions_fit();
    decisions_change_leases();
    ends_at_a_moment();
    ends_come_in_steps();
}

/// The epoch told is at most the age of each lease that was given up early: of each that was granted
/// by the base, and no lease that a record gives up was granted later.
pub fn epochs_disclose()
    ensures bases { BasesDisclose }
    ensures rises { BasesRise }
    ensures entries { EpochsDisclose }
    ensures openings { OpeningsDisclose }
    ensures starts { StartsDisclose }
{
    datagram_asks_are_well_formed();
    decisions_fit();
    states_are_sound();
}

/// The calls of a house on one thread make a history of it: of each external address the entries are
/// legal, and the base told is the greatest so far.
pub fn calls_make_histories()
    ensures { CallsMakeHistories }
{
    decisions_change_leases();
    datagram_asks_are_well_formed();
    decisions_fit();
}

/// What is promised of an external address holds of each legal history.
pub fn legal_histories_keep_promises()
    ensures { LegalHistoriesKeepPromises }
{
    states_stand();
    ports_keep_one_owner();
    nonces_decide();
    ports_rest();
    epochs_disclose();
}

/// What is promised of a house holds of each history of one on one thread.
pub fn histories_keep_promises()
    ensures { HistoriesKeepPromises }
{
    legal_histories_keep_promises();
}
