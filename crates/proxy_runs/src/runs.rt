//! The run of the command.
ghost use Rattle.std.specs.Prelude.{◌≡◌, ◌⊎◌, map, option_map, string_bytes};
ghost use Rattle.pcp_io.specs.Faults.{HasRisen};
ghost use Rattle.tool_commands.specs.declared.statuses.ToolStatus.TheVariants.{Done, Memory};
ghost use Rattle.proxy_runs.specs.ProxyRuns.{RunsProxy};
ghost use Rattle.relay_words.specs.declared.asks.ProxyAsk.{ProxyAsk};
ghost use Rattle.relay_words.specs.Relaying.{IsProxy};

use crate::machines::ProxyMachine;
use pcp_io::{Clock, Inbox, Outbox};
use proxy_commands::ProxyCommand;
use proxy_core::Proxy;
use relay_rates::RatedRelay;
use relay_runs::run_relay;
use relay_words::{ProxyAsk, proxy_ask_of};
use std::alloc::Global;
use std::sync::Wait;
use tool_commands::ToolStatus;

/// Relays between clients and an upstream server as the words say (RFC 7648 in role), with the text of
/// the file that they name for the key, until the inbox gives a stop. Of the datagrams of clients no
/// more than the words' rate come to the relay in a second, and how many didn't is left in `dropped`. For each item of `from` the clock is read once, the relay ticks, and then
/// hears the item at the same time: a packet whose peer is the server's address came from upstream,
/// and any other from a client. What it gives for clients is sent by `down`, and its own requests
/// by `up`, to [`SERVER_PORT`] of the server; a send that fails is a lost packet. A `Lose` and a
/// `Status` are ignored.
///
/// `Done` after a stop; `WordsRefused` where the words are no command, and nothing was called then;
/// `LinkFault` where the inbox failed; `Memory` where none was found for the relay, or for a
/// datagram, for which nothing was sent then.
///
/// [`SERVER_PORT`]: crate::SERVER_PORT
pub fn run_proxy<R: Wait, O: Outbox, I: Inbox, T: Clock>(
    rt: &R,
    alloc: Global,
    words: &[String],
    filed: Option<&str>,
    down: &mut O,
    up: &mut O,
    from: &mut I,
    clock: &mut T,
    dropped: &mut u64,
) -> ToolStatus
    ensures run { RunsProxy (map string_bytes words.now)
        (option_map (λ s. s.now) filed.entry) result
        (record {
          outs = record {
            down = record { sent = O.sent down.old; faults = O.faults down.old };
            up = record { sent = O.sent up.old; faults = O.faults up.old };
          };
          left = I.left from.old;
          faults = I.faults from.old;
          times = T.times clock.old;
        })
        (record {
          outs = record {
            down = record { sent = O.sent down.new; faults = O.faults down.new };
            up = record { sent = O.sent up.new; faults = O.faults up.new };
          };
          left = I.left from.new;
          faults = I.faults from.new;
          times = T.times clock.new;
        }) }

    // Where the words are a command and the inbox counts no fault, it is done, but for memory.
    ensures complete { (ask : ProxyAsk)
        → IsProxy (map string_bytes words.now) (option_map (λ s. s.now) filed.entry) ask
        → ¬ (HasRisen (I.faults from.old) (I.faults from.new))
        → (result ≡ Done) ⊎ (result ≡ Memory) }
{
    let Ok(found) = proxy_ask_of(alloc, words, filed) else {
        return ToolStatus::Memory;
    };
    let Some(ProxyAsk { command, more }) = found else {
        return ToolStatus::WordsRefused;
    };
    let ProxyCommand {
        server,
        own,
        key,
        ..
    } = command;
    let Ok(proxy) = Proxy::new(alloc, own, server, key, more.third_party) else {
        return ToolStatus::Memory;
    };
    let mut machine = RatedRelay::of(ProxyMachine::of(proxy), more.rate);
    let status = run_relay(rt, alloc, &server, &mut machine, down, up, from, clock);
    *dropped = machine.dropped();
    status
}
