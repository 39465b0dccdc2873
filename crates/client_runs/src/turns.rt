//! A run turn by turn, until something ends it.
ghost use Rattle.std.specs.Prelude.{◌≡◌, ℕ, ◌*◌, ◌^◌, ◌<◌, ◌≤◌, List, length, IfOk, IfSome, OnOk};
ghost use Rattle.pcp_io.specs.declared.inboxes.TheConstants.{LONGEST_DATAGRAM};
ghost use Rattle.pcp_io.specs.Takes.{filled, item_of};
ghost use Rattle.client_runs.specs.declared.turns.TheConstants.{MOST_TURNS};
ghost use Rattle.client_runs.specs.Links.{Links};
ghost use Rattle.client_runs.specs.Runs.{after_item, answer_in};
ghost use Rattle.client_runs.specs.Ticks.{HasDrawn, IsTicked};
ghost use Rattle.client_runs.specs.Underway.{IsOver, IsTurned, IsUnderway};

use crate::askers::Asker;
use crate::tries::{Tries, Unanswered};
use client_commands::Target;
use pcp_base::{Address, Datagram, Memory, Octets};
use pcp_io::{Clock, Inbox, Incoming, LONGEST_DATAGRAM, Outbox};
use pcp_options::Response;
use random_words::Entropy;
use std::alloc::Global;

/// The most items of the inbox that are waited for.
pub const MOST_TURNS: u32 = 200_000;

/// A datagram that came from this peer by this door.
fn datagram_from(
    alloc: Global,
    peer: Address,
    port: u16,
    door: u8,
    octets: &[u8],
) -> Result<Datagram, Memory>
    ensures { IfOk result
        (λ d. d ≡ record { peer = peer; port = port; door = door; octets = octets.now }) }
{
    Ok(Datagram {
        peer,
        port,
        door,
        octets: Octets::of(octets.to_vec(alloc)?),
    })
}

/// Hears what came; gives the response that is the answer, where it is one.
fn hear<A: Asker>(
    alloc: Global,
    asker: &mut A,
    incoming: Incoming,
    room: &[u8],
    now_ms: u64,
) -> Result<Option<Response>, Memory>
    requires bound { filled incoming ≤ length room.now }
    requires time { now_ms < 1000 * 2 ^ 40 }
    ensures answer { IfSome (item_of incoming room.now)
        (λ item. IfOk result (λ r. r ≡ answer_in A.asking asker.old item now_ms)) }
    ensures after { IfSome (item_of incoming room.now)
        (λ item. OnOk result (asker.new ≡ after_item A.asking asker.old item now_ms)) }
{
    match incoming {
        Incoming::Packet {
            peer,
            port,
            door,
            length,
        } => {
            let datagram = datagram_from(alloc, peer, port, door, &room[..length])?;
            asker.hear(alloc, &datagram, now_ms)
        }
        Incoming::Lose(_order, _address) => Ok(None),
        Incoming::Status(_order) => Ok(None),
        Incoming::Quiet => Ok(None),
        Incoming::Stop => Ok(None),
    }
}

/// Has one that asks give its request, and sends it, if one is due. A request that is due after the last try
/// ends the run.
fn tick<A: Asker, O: Outbox, E: Entropy>(
    alloc: Global,
    server: Address,
    asker: &mut A,
    tries: &mut Tries,
    now_ms: u64,
    up: &mut O,
    entropy: &mut E,
) -> Result<(), Unanswered>
    requires { now_ms < 1000 * 2 ^ 40 }
    ensures { (limit : ℕ) (words : List ℕ) (requests : List (List ℕ)) →
        HasDrawn limit words (length requests) tries.old →
        IsTicked A.asking limit server now_ms words requests asker.old asker.new tries.new
        (record { words = E.words entropy.old; faults = E.faults entropy.old })
        (record { words = E.words entropy.new; faults = E.faults entropy.new })
        (record { sent = O.sent up.old; faults = O.faults up.old })
        (record { sent = O.sent up.new; faults = O.faults up.new })
        result }
{
    let word = tries.next_word(entropy)?;
    let request = asker.next_request(alloc, now_ms, word)?;
    let Some(text) = request else {
        return Ok(());
    };
    tries.send(server, &text, up)
}

/// One item of the inbox, at one time of the clock.
fn turn<A: Asker, O: Outbox, I: Inbox, T: Clock, E: Entropy>(
    alloc: Global,
    target: &Target,
    asker: &mut A,
    tries: &mut Tries,
    room: &mut [u8],
    up: &mut O,
    from: &mut I,
    clock: &mut T,
    entropy: &mut E,
) -> Result<Option<Response>, Unanswered>
    requires { LONGEST_DATAGRAM ≤ length room.old }
    ensures { (state : A) (time : ℕ) (before : Links) (count : ℕ) →
        IsUnderway A.asking target.now state time before count asker.old tries.old
        (record {
          left = I.left from.old;
          faults = I.faults from.old;
          times = T.times clock.old;
          drawing = record { words = E.words entropy.old; faults = E.faults entropy.old };
          sending = record { sent = O.sent up.old; faults = O.faults up.old };
        }) →
        count < MOST_TURNS →
        IsTurned A.asking target.now state time before count asker.new tries.new
        (record {
          left = I.left from.new;
          faults = I.faults from.new;
          times = T.times clock.new;
          drawing = record { words = E.words entropy.new; faults = E.faults entropy.new };
          sending = record { sent = O.sent up.new; faults = O.faults up.new };
        }) result }
{
    let Ok(incoming) = from.take(room) else {
        return Err(Unanswered::LinkFault);
    };
    if incoming == Incoming::Stop {
        return Err(Unanswered::Stopped);
    }
    let now_ms = clock.now();
    let found = hear(alloc, asker, incoming, room, now_ms)?;
    if let Some(response) = found {
        return Ok(Some(response));
    }
    tick(alloc, target.server, asker, tries, now_ms, up, entropy)?;
    Ok(None)
}

/// Asks at once, and then turn by turn until something ends it.
pub(crate) fn ask<A: Asker, O: Outbox, I: Inbox, T: Clock, E: Entropy>(
    alloc: Global,
    target: &Target,
    asker: &mut A,
    start_ms: u64,
    up: &mut O,
    from: &mut I,
    clock: &mut T,
    entropy: &mut E,
) -> Result<Response, Unanswered>
    requires time { start_ms < 1000 * 2 ^ 40 }
    requires tries { 0 < target.now.tries }
    ensures { IsOver A.asking target.now asker.old start_ms
        (record {
          left = I.left from.old;
          faults = I.faults from.old;
          times = T.times clock.old;
          drawing = record { words = E.words entropy.old; faults = E.faults entropy.old };
          sending = record { sent = O.sent up.old; faults = O.faults up.old };
        })
        (record {
          left = I.left from.new;
          faults = I.faults from.new;
          times = T.times clock.new;
          drawing = record { words = E.words entropy.new; faults = E.faults entropy.new };
          sending = record { sent = O.sent up.new; faults = O.faults up.new };
        }) result }
{
    let mut tries = Tries {
        limit: target.tries,
        given: 0,
        word: None,
    };
    tick(
        alloc,
        target.server,
        asker,
        &mut tries,
        start_ms,
        up,
        entropy,
    )?;
    let mut room = [0; LONGEST_DATAGRAM];
    let mut count = 0;
    while count < MOST_TURNS {
        let found = turn(
            alloc, target, asker, &mut tries, &mut room, up, from, clock, entropy,
        )?;
        if let Some(response) = found {
            return Ok(response);
        }
        count += 1;
    }
    Err(Unanswered::Turns)
}
