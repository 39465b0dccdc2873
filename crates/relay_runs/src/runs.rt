//! The run of a relay.
ghost use Rattle.std.specs.Prelude.{◌≡◌, ◌≤◌, length};
ghost use Rattle.pcp_io.specs.declared.inboxes.TheConstants.{LONGEST_DATAGRAM};
ghost use Rattle.relay_runs.specs.Ends.{EndsRelay};
ghost use Rattle.relay_runs.specs.Steps.{IsTurn};

use crate::machines::RelayMachine;
use crate::packets::relay_item;
use crate::sends::announce;
use pcp_base::Address;
use pcp_io::{Clock, Inbox, Incoming, LONGEST_DATAGRAM, Outbox};
use std::alloc::Global;
use std::sync::Wait;
use tool_commands::ToolStatus;

/// One item of the inbox, at one time of the clock. How the run ended, where it did.
fn do_turn<M: RelayMachine, O: Outbox, I: Inbox, T: Clock>(
    alloc: Global,
    server: &Address,
    machine: &mut M,
    down: &mut O,
    up: &mut O,
    from: &mut I,
    clock: &mut T,
    room: &mut [u8],
) -> Option<ToolStatus>
    requires { LONGEST_DATAGRAM ≤ length room.old }
    ensures { IsTurn M.machine server.now machine.old machine.new result
        (record {
          outs = record {
            down = record { sent = O.sent down.old; faults = O.faults down.old };
            up = record { sent = O.sent up.old; faults = O.faults up.old };
          };
          left = I.left from.old;
          faults = I.faults from.old;
          times = T.times clock.old;
        })
        (record {
          outs = record {
            down = record { sent = O.sent down.new; faults = O.faults down.new };
            up = record { sent = O.sent up.new; faults = O.faults up.new };
          };
          left = I.left from.new;
          faults = I.faults from.new;
          times = T.times clock.new;
        }) }
{
    let Ok(incoming) = from.take(room) else {
        return Some(ToolStatus::LinkFault);
    };
    if incoming == Incoming::Stop {
        return Some(ToolStatus::Done);
    }
    let now_ms = clock.now();
    let told = machine.tick(now_ms);
    announce(down, told);
    if relay_item(alloc, server, machine, down, up, incoming, room, now_ms).is_err() {
        return Some(ToolStatus::Memory);
    }
    None
}

/// Relays between clients and an upstream server until the inbox gives a stop. For each item of
/// `from` the clock is read once, the relay ticks, and then hears the item at the same time: a
/// packet whose peer is the server's address came from upstream, and any other from a client. What
/// it gives for clients is sent by `down`, what a tick announces to port 5350 of 224.0.0.1, and its own
/// requests by `up`, to [`SERVER_PORT`] of the server; a send that fails is a lost packet. A `Lose` and
/// a `Status` are ignored.
///
/// `Done` after a stop; `LinkFault` where the inbox failed; `Memory` where none was found for a
/// datagram, for which nothing was sent then.
///
/// [`SERVER_PORT`]: crate::SERVER_PORT
pub fn run_relay<R: Wait, M: RelayMachine, O: Outbox, I: Inbox, T: Clock>(
    rt: &R,
    alloc: Global,
    server: &Address,
    machine: &mut M,
    down: &mut O,
    up: &mut O,
    from: &mut I,
    clock: &mut T,
) -> ToolStatus
    ensures { EndsRelay M.machine server.now machine.old result
        (record {
          outs = record {
            down = record { sent = O.sent down.old; faults = O.faults down.old };
            up = record { sent = O.sent up.old; faults = O.faults up.old };
          };
          left = I.left from.old;
          faults = I.faults from.old;
          times = T.times clock.old;
        })
        (record {
          outs = record {
            down = record { sent = O.sent down.new; faults = O.faults down.new };
            up = record { sent = O.sent up.new; faults = O.faults up.new };
          };
          left = I.left from.new;
          faults = I.faults from.new;
          times = T.times clock.new;
        }) }
{
    let mut room = [0; LONGEST_DATAGRAM];
    for _ in rt.forever() {
        let ended = do_turn(alloc, server, machine, down, up, from, clock, &mut room);
        if let Some(status) = ended {
            return status;
        }
    }
    unreachable!()
}
