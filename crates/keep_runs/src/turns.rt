//! A turn of `keep`.
ghost use Rattle.std.specs.Prelude.{◌≤◌, length};
ghost use Rattle.pcp_io.specs.declared.inboxes.TheConstants.{LONGEST_DATAGRAM};
ghost use Rattle.keep_runs.specs.Ends.{Outside};
ghost use Rattle.keep_runs.specs.Steps.{IsTurned, IsUnderway};
ghost use Rattle.keep_runs.specs.declared.keepers.Keeper.{Keeper};

use crate::keepers::Keeper;
use crate::steps::{do_packet, packet_in};
use pcp_base::Address;
use pcp_io::{Clock, Inbox, Incoming, LONGEST_DATAGRAM, Outbox, Sink};
use random_words::Entropy;
use std::alloc::Global;
use tool_commands::ToolStatus;

/// One item of the inbox, at one time of the clock. How the run ended, where it did.
pub(crate) fn do_turn<O: Outbox, I: Inbox, T: Clock, E: Entropy, W: Sink>(
    alloc: Global,
    server: Address,
    keeper: &mut Keeper,
    room: &mut [u8],
    up: &mut O,
    from: &mut I,
    clock: &mut T,
    entropy: &mut E,
    out: &mut W,
) -> Option<ToolStatus>
    requires { LONGEST_DATAGRAM ≤ length room.old }
    ensures { (start : Keeper) (before : Outside) →
        IsUnderway server start before keeper.old
        (record {
          links = record {
            left = I.left from.old;
            faults = I.faults from.old;
            times = T.times clock.old;
            drawing = record { words = E.words entropy.old; faults = E.faults entropy.old };
            sending = record { sent = O.sent up.old; faults = O.faults up.old };
          };
          held = W.held out.old;
          faults = W.faults out.old;
        }) →
        IsTurned server start before keeper.new
        (record {
          links = record {
            left = I.left from.new;
            faults = I.faults from.new;
            times = T.times clock.new;
            drawing = record { words = E.words entropy.new; faults = E.faults entropy.new };
            sending = record { sent = O.sent up.new; faults = O.faults up.new };
          };
          held = W.held out.new;
          faults = W.faults out.new;
        }) result }
{
    let Ok(incoming) = from.take(room) else {
        return Some(ToolStatus::LinkFault);
    };
    if incoming == Incoming::Stop {
        return Some(ToolStatus::Done);
    }
    let now_ms = clock.now();
    let Ok(packet) = packet_in(alloc, incoming, room) else {
        return Some(ToolStatus::Memory);
    };
    do_packet(alloc, server, keeper, &packet, now_ms, up, entropy, out)
}
