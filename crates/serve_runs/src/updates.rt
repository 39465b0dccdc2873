//! Updates of renumbered external addresses are sent.
ghost use Rattle.std.specs.Prelude.{◌≡◌, ◌+◌, ◌==◌, ◌<◌, ◌≤◌, ◌^◌, List, [], ◌∷◌, length, map, flat_map, not, unwrap_or, IfSome, if◌then◌else◌};
ghost use Rattle.std.specs.List.{position_from};
ghost use Rattle.pcp_base.specs.declared.datagrams.Datagram.{Datagram};
ghost use Rattle.pcp_base.specs.Configs.{IsConfig};
ghost use Rattle.pcp_announce.specs.Doors.{reaches};
ghost use Rattle.serve_runs.specs.Updates.{Hands, HandsEach, by_doors, places_of};

use job_workers::send_one;
use pcp_announce::{Door, door_at, door_count, reaches};
use pcp_base::{Config, Datagram};
use pcp_io::Outbox;

/// The first of the indexes that isn't this one.
fn first_other(places: &[u32], place: u32) -> Option<usize>
    ensures place { result ≡ position_from (λ at. not (at == place)) 0 places.now }
    ensures bound { IfSome result (λ i. i < length places.now) }
{
    places.iter().position(|at| *at != place)
}

/// How many of the indexes in front are this one.
fn front_count(places: &[u32], place: u32) -> usize
    ensures count { result
        ≡ unwrap_or (position_from (λ at. not (at == place)) 0 places.now) (length places.now) }
    ensures bound { result ≤ length places.now }
{
    match first_other(places, place) {
        Some(count) => count,
        None => places.len(),
    }
}

/// Sends an update by this door, where its receiver is reached by it.
fn send_by<O: Outbox>(out: &mut O, door: &Door, update: &Datagram)
    ensures { Hands (if reaches door.now update.now.peer
        then record update.now { door = door.now.number } ∷ [] else [])
        (record { sent = O.sent out.old; faults = O.faults out.old })
        (record { sent = O.sent out.new; faults = O.faults out.new }) }
{
    if !reaches(door, &update.peer) {
        return;
    }
    let octets = update.octets.items();
    let _sent = send_one(out, door.number, update.peer, update.port, octets);
}

/// Sends an update by each door by which its receiver is reached, in order.
fn send_update<O: Outbox>(out: &mut O, config: &Config, update: &Datagram)
    requires { IsConfig config.now }
    ensures { Hands (by_doors config.now update.now)
        (record { sent = O.sent out.old; faults = O.faults out.old })
        (record { sent = O.sent out.new; faults = O.faults out.new }) }
{
    let count = door_count(config);
    for place in 0..count {
        let door = door_at(config, place);
        send_by(out, &door, update);
    }
}

/// Sends these updates, in order, each once by each door by which its receiver is reached. Where there is
/// none the outbox has no call.
fn send_own<O: Outbox>(out: &mut O, config: &Config, updates: &[Datagram])
    requires { IsConfig config.now }
    ensures { Hands (flat_map (by_doors config.now) updates.now)
        (record { sent = O.sent out.old; faults = O.faults out.old })
        (record { sent = O.sent out.new; faults = O.faults out.new }) }
{
    let count = updates.len();
    for place in 0..count {
        send_update(out, config, &updates[place]);
    }
}

/// The updates of the external addresses from this one on are sent, in order and each once by each door
/// by which its receiver is reached, by the outbox of each. One whose send fails is lost.
pub(crate) fn send_updates<O: Outbox>(
    outs: &mut [O],
    config: &Config,
    place: u32,
    updates: &[Datagram],
    places: &[u32],
)
    requires config { IsConfig config.now }
    requires same { length updates.now ≡ length places.now }
    requires few { place + length outs.old < 2 ^ 32 }
    ensures { (uss : List (List Datagram)) → updates.now ≡ flat_map (λ us. us) uss →
        places.now ≡ places_of place uss → length uss ≤ length outs.old → HandsEach config.now uss
        (map (λ o. record { sent = O.sent o; faults = O.faults o }) outs.old)
        (map (λ o. record { sent = O.sent o; faults = O.faults o }) outs.new) }
{
    let Some((out, outs)) = outs.split_first_mut() else {
        return;
    };
    let count = front_count(places, place);
    let (own, others) = updates.split_at(count);
    let (_, other_places) = places.split_at(count);
    send_own(out, config, own);
    send_updates(outs, config, place + 1, others, other_places);
}
