//! The run of `keep`.
ghost use Rattle.std.specs.Prelude.{◌≡◌, ◌<◌, ◌≤◌, length, map, option_map, string_bytes};
ghost use Rattle.client_core.specs.Wants.{CanBeWanted};
ghost use Rattle.client_runs.specs.Asking.{asked_by};
ghost use Rattle.client_commands.specs.declared.commands.ClientCommand.TheVariants.{Map};
ghost use Rattle.pcp_base.specs.declared.addresses.Nonce.{Nonce};
ghost use Rattle.keep_runs.specs.Ends.{EndsKeep, IsKeepCall};
ghost use Rattle.keep_runs.specs.Steps.{IsBeginning};

use crate::keepers::Keeper;
use crate::news::Told;
use crate::turns::do_turn;
use client_commands::ClientCommand;
use client_runs::{Unanswered, asked_by, nonce_by, status_without, wanting_from};
use client_words::{KeepAsk, keep_of};
use pcp_base::Address;
use pcp_io::{Clock, Inbox, LONGEST_DATAGRAM, Outbox, Sink};
use random_words::Entropy;
use std::alloc::Global;
use std::sync::Wait;
use tool_commands::ToolStatus;

/// One that wants what the words say, from now on.
fn begin<T: Clock, E: Entropy>(
    alloc: Global,
    asked: &KeepAsk,
    clock: &mut T,
    entropy: &mut E,
) -> Result<Keeper, Unanswered>
    requires { (nonce : Nonce) →
        CanBeWanted (asked_by (Map asked.now.target asked.now.wanted) asked.now.more nonce) }
    ensures { IsBeginning asked.now result
        (record { words = E.words entropy.old; faults = E.faults entropy.old })
        (record { words = E.words entropy.new; faults = E.faults entropy.new })
        (T.times clock.old) (T.times clock.new) }
{
    let nonce = nonce_by(asked.more.nonce, entropy)?;
    let start_ms = clock.now();
    let command = ClientCommand::Map(asked.target, asked.wanted);
    let wanted = asked_by(alloc, &command, &asked.more, nonce)?;
    let client = wanting_from(alloc, &asked.target, asked.more.third, wanted, start_ms)?;
    Ok(Keeper {
        command,
        client,
        told: Told::nothing(),
    })
}

/// Keeps what one wants, turn by turn, until something ends it.
fn keep<R: Wait, O: Outbox, I: Inbox, T: Clock, E: Entropy, W: Sink>(
    rt: &R,
    alloc: Global,
    server: Address,
    keeper: &mut Keeper,
    up: &mut O,
    from: &mut I,
    clock: &mut T,
    entropy: &mut E,
    out: &mut W,
) -> ToolStatus
    ensures { EndsKeep server keeper.old
        (record {
          links = record {
            left = I.left from.old;
            faults = I.faults from.old;
            times = T.times clock.old;
            drawing = record { words = E.words entropy.old; faults = E.faults entropy.old };
            sending = record { sent = O.sent up.old; faults = O.faults up.old };
          };
          held = W.held out.old;
          faults = W.faults out.old;
        })
        (record {
          links = record {
            left = I.left from.new;
            faults = I.faults from.new;
            times = T.times clock.new;
            drawing = record { words = E.words entropy.new; faults = E.faults entropy.new };
            sending = record { sent = O.sent up.new; faults = O.faults up.new };
          };
          held = W.held out.new;
          faults = W.faults out.new;
        }) result }
{
    let mut room = [0; LONGEST_DATAGRAM];
    for _ in rt.forever() {
        let ended = do_turn(
            alloc, server, keeper, &mut room, up, from, clock, entropy, out,
        );
        if let Some(status) = ended {
            return status;
        }
    }
    unreachable!()
}

/// Keeps the mapping that the words say: asks for it and renews it (RFC 6887, sections 8.1.1, 11.2.1 and
/// 14.1.3) until the inbox gives a stop, and prints a line to `out` at each change, those of one turn in
/// one piece:
/// - `mapped ADDRESS PORT LIFETIME EPOCH`, with the size behind it where more ports than one are asked for:
///   at the first grant, at one of another address, port or size than was printed last, and at the first
///   behind `lost`, `refused` or `invalid`;
/// - `refused CODE SECONDS` where the code isn't that of the line before;
/// - `lost` where the lease ended; `invalid` at an epoch by which the server lost its leases.
///
/// Each item of `from` is taken at one time of `clock`. Where it is a packet, or something is due, a word
/// of `entropy` is drawn, the packet is heard, and what is due is sent by `up` to
/// [`SERVER_PORT`](client_runs::SERVER_PORT) of the server; a request whose send fails is lost. So the
/// inbox's own waiting time is how late a request may be. `filed` is the text of the file that the words
/// name for the nonce.
///
/// `Done` after a stop, `WordsRefused`, `LinkFault`, `WriteFault`, `Memory` or `EntropyFault`.
pub fn run_keep<R: Wait, O: Outbox, I: Inbox, T: Clock, E: Entropy, W: Sink>(
    rt: &R,
    alloc: Global,
    words: &[String],
    filed: Option<&[u8]>,
    up: &mut O,
    from: &mut I,
    clock: &mut T,
    entropy: &mut E,
    out: &mut W,
) -> ToolStatus
    ensures { IsKeepCall (map string_bytes words.now) (option_map (λ s. s.now) filed.entry)
        (record {
          links = record {
            left = I.left from.old;
            faults = I.faults from.old;
            times = T.times clock.old;
            drawing = record { words = E.words entropy.old; faults = E.faults entropy.old };
            sending = record { sent = O.sent up.old; faults = O.faults up.old };
          };
          held = W.held out.old;
          faults = W.faults out.old;
        })
        (record {
          links = record {
            left = I.left from.new;
            faults = I.faults from.new;
            times = T.times clock.new;
            drawing = record { words = E.words entropy.new; faults = E.faults entropy.new };
            sending = record { sent = O.sent up.new; faults = O.faults up.new };
          };
          held = W.held out.new;
          faults = W.faults out.new;
        }) result }
{
    let Ok(found) = keep_of(alloc, words, filed) else {
        return ToolStatus::Memory;
    };
    let Some(asked) = found else {
        return ToolStatus::WordsRefused;
    };
    let server = asked.target.server;
    match begin(alloc, &asked, clock, entropy) {
        Ok(keeper) => {
            let mut keeper = keeper;
            keep(
                rt,
                alloc,
                server,
                &mut keeper,
                up,
                from,
                clock,
                entropy,
                out,
            )
        }
        Err(why) => status_without(why),
    }
}
