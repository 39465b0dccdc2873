//! The run of the command.
ghost use Rattle.std.specs.Prelude.{◌≡◌, ◌⊎◌, ◌<◌, map, option_map, string_bytes, IfOk};
ghost use Rattle.cascade_runs.specs.CascadeRuns.{RunsCascade};
ghost use Rattle.cascade_runs.specs.Cascading.{announcing_from, cascade_of, cascading};
ghost use Rattle.pcp_io.specs.declared.clocks.TheConstants.{END_OF_TIME_MS};
ghost use Rattle.pcp_io.specs.Faults.{HasRisen};
ghost use Rattle.relay_rates.specs.Rates.{rated, rated_begin};
ghost use Rattle.relay_runs.specs.Ends.{EndsRelay};
ghost use Rattle.relay_words.specs.declared.asks.CascadeAsk.{CascadeAsk};
ghost use Rattle.relay_words.specs.Relaying.{IsCascade};
ghost use Rattle.tool_commands.specs.declared.statuses.ToolStatus.TheVariants.{Done, Memory};

use crate::machines::CascadeMachine;
use pcp_base::Address;
use pcp_io::{Clock, Inbox, Outbox};
use proxy_cascade::Cascade;
use proxy_commands::CascadeCommand;
use relay_rates::RatedRelay;
use relay_runs::run_relay;
use relay_words::{CascadeAsk, cascade_ask_of};
use std::alloc::Global;
use std::sync::Wait;
use tool_commands::ToolStatus;

/// Relays by this cascade, which begins at this time and to which so many datagrams of clients come in a
/// second, until the inbox gives a stop.
fn run_begun<R: Wait, O: Outbox, I: Inbox, T: Clock>(
    rt: &R,
    alloc: Global,
    server: &Address,
    cascade: Cascade,
    now_ms: u64,
    rate: u32,
    down: &mut O,
    up: &mut O,
    from: &mut I,
    clock: &mut T,
    dropped: &mut u64,
) -> ToolStatus
    requires { now_ms < END_OF_TIME_MS }
    ensures { EndsRelay (rated cascading) server.now
        (rated_begin rate (announcing_from now_ms cascade)) result
        (record {
          outs = record {
            down = record { sent = O.sent down.old; faults = O.faults down.old };
            up = record { sent = O.sent up.old; faults = O.faults up.old };
          };
          left = I.left from.old;
          faults = I.faults from.old;
          times = T.times clock.old;
        })
        (record {
          outs = record {
            down = record { sent = O.sent down.new; faults = O.faults down.new };
            up = record { sent = O.sent up.new; faults = O.faults up.new };
          };
          left = I.left from.new;
          faults = I.faults from.new;
          times = T.times clock.new;
        }) }
{
    let mut machine = RatedRelay::of(CascadeMachine::begins(cascade, now_ms), rate);
    let status = run_relay(rt, alloc, server, &mut machine, down, up, from, clock);
    *dropped = machine.dropped();
    status
}

/// Relays between clients behind a translator and an upstream server as the words say (RFC 7648 in
/// role), with the text of the file that they name for the key, until the inbox gives a stop. Of the
/// datagrams of clients no more than the words' rate come to the cascade in a second, and how many
/// didn't is left in `dropped`. The clock is read once for the cascade's beginning, and then
/// once for each item of `from`: the cascade ticks, and then hears the item at the same time: a
/// packet whose peer is the server's address came from upstream, and any other from a client. What
/// it gives for clients is sent by `down`, and its own requests by `up`, to [`SERVER_PORT`] of the
/// server; a send that fails is a lost packet. A `Lose` and a `Status` are ignored.
///
/// Its beginning is announced by `down` to port 5350 of 224.0.0.1 ten times: the k-th one, from 0, at the
/// first item `FIRST_GAP_MS * (2^k - 1)` milliseconds behind it or later, and one at an item.
///
/// `Done` after a stop; `WordsRefused` where the words are no command, and nothing was called then;
/// `LinkFault` where the inbox failed; `Memory` where none was found for the cascade, or for a
/// datagram, for which nothing was sent then.
///
/// [`SERVER_PORT`]: crate::SERVER_PORT
pub fn run_cascade<R: Wait, O: Outbox, I: Inbox, T: Clock>(
    rt: &R,
    alloc: Global,
    words: &[String],
    filed: Option<&str>,
    down: &mut O,
    up: &mut O,
    from: &mut I,
    clock: &mut T,
    dropped: &mut u64,
) -> ToolStatus
    ensures run { RunsCascade (map string_bytes words.now)
        (option_map (λ s. s.now) filed.entry) result
        (record {
          outs = record {
            down = record { sent = O.sent down.old; faults = O.faults down.old };
            up = record { sent = O.sent up.old; faults = O.faults up.old };
          };
          left = I.left from.old;
          faults = I.faults from.old;
          times = T.times clock.old;
        })
        (record {
          outs = record {
            down = record { sent = O.sent down.new; faults = O.faults down.new };
            up = record { sent = O.sent up.new; faults = O.faults up.new };
          };
          left = I.left from.new;
          faults = I.faults from.new;
          times = T.times clock.new;
        }) }

    // Where the words are a command and the inbox counts no fault, it is done, but for memory.
    ensures complete { (ask : CascadeAsk)
        → IsCascade (map string_bytes words.now) (option_map (λ s. s.now) filed.entry) ask
        → ¬ (HasRisen (I.faults from.old) (I.faults from.new))
        → (result ≡ Done) ⊎ (result ≡ Memory) }
{
    let Ok(found) = cascade_ask_of(alloc, words, filed) else {
        return ToolStatus::Memory;
    };
    let Some(CascadeAsk { command, more }) = found else {
        return ToolStatus::WordsRefused;
    };
    let now_ms = clock.now();
    let CascadeCommand { relay, low, high } = command;
    let Ok(cascade) = Cascade::new(alloc, relay.own, relay.server, relay.key, low, high, now_ms)
    else {
        return ToolStatus::Memory;
    };
    let server = &relay.server;
    run_begun(
        rt, alloc, server, cascade, now_ms, more.rate, down, up, from, clock, dropped,
    )
}
