//! Calls of the client's commands.
ghost use Rattle.std.specs.Prelude.{◌≡◌, ◌*◌, ◌^◌, ◌<◌, Ok, map, option_map, string_bytes, IfOk, IfErr};
ghost use Rattle.pcp_base.specs.declared.addresses.Nonce.{Nonce};
ghost use Rattle.pcp_io.specs.Faults.{HasRisen};
ghost use Rattle.client_core.specs.Wants.{CanBeWanted};
ghost use Rattle.client_words.specs.Asks.{IsAsk};
ghost use Rattle.client_words.specs.declared.asks.ClientAsk.{ClientAsk};
ghost use Rattle.tool_commands.specs.declared.statuses.ToolStatus.TheVariants as Statuses;
ghost use Rattle.client_runs.specs.declared.tries.Unanswered.TheVariants as Reasons;
ghost use Rattle.client_runs.specs.Asking.{CanBeAsked, asked_by, target_of};
ghost use Rattle.client_runs.specs.Askers.{started};
ghost use Rattle.client_runs.specs.Calls.{AsksEpoch, IsCall, IsTold, Runs, status_without};
ghost use Rattle.client_runs.specs.Openings.{Wants};

use crate::asking::asked_by;
use crate::epoch_askers::EpochAsker;
use crate::lines::{answer_line, status_of};
use crate::openings::{ending_from, nonce_by, wanting_from};
use crate::tries::Unanswered;
use crate::turns::ask;
use client_commands::{ClientCommand, Target};
use client_core::Client;
use client_words::{ClientAsk, ask_of};
use pcp_base::Nonce;
use pcp_io::{Clock, Inbox, Outbox, Sink, write_all};
use pcp_options::Response;
use random_words::Entropy;
use std::alloc::Global;
use tool_commands::ToolStatus;

/// A client that wants what is asked for from a time on, or has it deleted.
fn client_for(
    alloc: Global,
    asked: &ClientAsk,
    target: &Target,
    nonce: Nonce,
    now_ms: u64,
) -> Result<Client, Unanswered>
    requires target { target.now ≡ target_of asked.now.command }
    requires wanted { CanBeWanted (asked_by asked.now.command asked.now.more nonce) }
    requires time { now_ms < 1000 * 2 ^ 40 }
    ensures client { IfOk result (λ client. client ≡ started asked.now nonce now_ms) }
    ensures reason { IfErr result (λ why. why ≡ Reasons.Memory) }
{
    let wanted = asked_by(alloc, &asked.command, &asked.more, nonce)?;
    if asked.deletes {
        ending_from(alloc, target, asked.more.third, wanted, now_ms)
    } else {
        wanting_from(alloc, target, asked.more.third, wanted, now_ms)
    }
}

/// Asks for a mapping or for its deletion, with a client that wants it.
fn ask_for_mapping<O: Outbox, I: Inbox, T: Clock, E: Entropy>(
    alloc: Global,
    asked: &ClientAsk,
    target: &Target,
    up: &mut O,
    from: &mut I,
    clock: &mut T,
    entropy: &mut E,
) -> Result<Response, Unanswered>
    requires target { target.now ≡ target_of asked.now.command }
    requires tries { 0 < target.now.tries }
    requires wanted { (nonce : Nonce) →
        CanBeWanted (asked_by asked.now.command asked.now.more nonce) }
    ensures { Wants asked.now
        (record {
          left = I.left from.old;
          faults = I.faults from.old;
          times = T.times clock.old;
          drawing = record { words = E.words entropy.old; faults = E.faults entropy.old };
          sending = record { sent = O.sent up.old; faults = O.faults up.old };
        })
        (record {
          left = I.left from.new;
          faults = I.faults from.new;
          times = T.times clock.new;
          drawing = record { words = E.words entropy.new; faults = E.faults entropy.new };
          sending = record { sent = O.sent up.new; faults = O.faults up.new };
        }) result }
{
    let nonce = nonce_by(asked.more.nonce, entropy)?;
    let start_ms = clock.now();
    let mut client = client_for(alloc, asked, target, nonce, start_ms)?;
    ask(
        alloc,
        target,
        &mut client,
        start_ms,
        up,
        from,
        clock,
        entropy,
    )
}

/// Asks for the server's epoch.
fn ask_for_epoch<O: Outbox, I: Inbox, T: Clock, E: Entropy>(
    alloc: Global,
    target: &Target,
    up: &mut O,
    from: &mut I,
    clock: &mut T,
    entropy: &mut E,
) -> Result<Response, Unanswered>
    requires tries { 0 < target.now.tries }
    ensures { AsksEpoch target.now
        (record {
          left = I.left from.old;
          faults = I.faults from.old;
          times = T.times clock.old;
          drawing = record { words = E.words entropy.old; faults = E.faults entropy.old };
          sending = record { sent = O.sent up.old; faults = O.faults up.old };
        })
        (record {
          left = I.left from.new;
          faults = I.faults from.new;
          times = T.times clock.new;
          drawing = record { words = E.words entropy.new; faults = E.faults entropy.new };
          sending = record { sent = O.sent up.new; faults = O.faults up.new };
        }) result }
{
    let start_ms = clock.now();
    let mut asker = EpochAsker::new(target);
    ask(
        alloc, target, &mut asker, start_ms, up, from, clock, entropy,
    )
}

/// The response that answers what was asked; else why none came.
fn answer_to<O: Outbox, I: Inbox, T: Clock, E: Entropy>(
    alloc: Global,
    asked: &ClientAsk,
    up: &mut O,
    from: &mut I,
    clock: &mut T,
    entropy: &mut E,
) -> Result<Response, Unanswered>
    requires { CanBeAsked asked.now.command asked.now.more }
    ensures { Runs asked.now
        (record {
          left = I.left from.old;
          faults = I.faults from.old;
          times = T.times clock.old;
          drawing = record { words = E.words entropy.old; faults = E.faults entropy.old };
          sending = record { sent = O.sent up.old; faults = O.faults up.old };
        })
        (record {
          left = I.left from.new;
          faults = I.faults from.new;
          times = T.times clock.new;
          drawing = record { words = E.words entropy.new; faults = E.faults entropy.new };
          sending = record { sent = O.sent up.new; faults = O.faults up.new };
        }) result }
{
    match &asked.command {
        ClientCommand::Map(target, _wanted) => {
            ask_for_mapping(alloc, asked, target, up, from, clock, entropy)
        }
        ClientCommand::Peer(target, _wanted) => {
            ask_for_mapping(alloc, asked, target, up, from, clock, entropy)
        }
        ClientCommand::Announce(target) => {
            ask_for_epoch(alloc, target, up, from, clock, entropy)
        }
    }
}

/// Prints what a server answered.
fn tell<W: Sink>(alloc: Global, asked: &ClientAsk, response: &Response, out: &mut W) -> ToolStatus
    ensures told { IsTold asked.now (Ok response.now) (W.held out.old) (W.held out.new) result }
    ensures write_fault { result ≡ Statuses.WriteFault →
        HasRisen (W.faults out.old) (W.faults out.new) }
{
    let Ok(line) = answer_line(alloc, asked, response) else {
        return ToolStatus::Memory;
    };
    if write_all(out, &line).is_err() {
        return ToolStatus::WriteFault;
    }
    status_of(asked, response)
}

/// The status where no answer came.
pub fn status_without(why: Unanswered) -> ToolStatus
    ensures { result ≡ status_without why }
{
    match why {
        Unanswered::LinkFault => ToolStatus::LinkFault,
        Unanswered::Memory => ToolStatus::Memory,
        Unanswered::EntropyFault => ToolStatus::EntropyFault,
        Unanswered::Silence => ToolStatus::Silence,
        Unanswered::Turns => ToolStatus::Turns,
        Unanswered::Stopped => ToolStatus::Stopped,
    }
}

/// Does what the words say: `map` and `peer` ask a server for a mapping, `unmap` for the deletion of one,
/// `announce` for its epoch (RFC 6887, sections 8.1, 11, 12, 14.1 and 15), and the answer is printed to
/// `out`, a line. `filed` is the text of the file that the words name for the nonce.
///
/// Requests go by `up` to [`SERVER_PORT`](crate::SERVER_PORT) of the server; one whose send fails is lost.
/// Each item of `from` is taken at one time of `clock`, in milliseconds: a packet is heard, and then what
/// is due is sent. For a nonce that isn't given three words of `entropy` are drawn, and then each request
/// has a word. The run ends by the first answer, by a stop of `from`, by
/// [`MOST_TURNS`](crate::MOST_TURNS) items, or once all tries were sent and one more request is due.
pub fn run_client<O: Outbox, I: Inbox, T: Clock, E: Entropy, W: Sink>(
    alloc: Global,
    words: &[String],
    filed: Option<&[u8]>,
    up: &mut O,
    from: &mut I,
    clock: &mut T,
    entropy: &mut E,
    out: &mut W,
) -> ToolStatus
    // What came, what was sent and what is printed, by the status.
    ensures call { IsCall (map string_bytes words.now) (option_map (λ s. s.now) filed.entry)
        (record {
          left = I.left from.old;
          faults = I.faults from.old;
          times = T.times clock.old;
          drawing = record { words = E.words entropy.old; faults = E.faults entropy.old };
          sending = record { sent = O.sent up.old; faults = O.faults up.old };
        })
        (record {
          left = I.left from.new;
          faults = I.faults from.new;
          times = T.times clock.new;
          drawing = record { words = E.words entropy.new; faults = E.faults entropy.new };
          sending = record { sent = O.sent up.new; faults = O.faults up.new };
        })
        (W.held out.old) (W.held out.new) result }

    // Words are refused only where they ask for nothing.
    ensures words_refused { result ≡ Statuses.WordsRefused → (ask : ClientAsk) →
        ¬ (IsAsk (map string_bytes words.now) (option_map (λ s. s.now) filed.entry) ask) }

    // A fault is told only where a count of faults rose.
    ensures link_fault { result ≡ Statuses.LinkFault →
        HasRisen (I.faults from.old) (I.faults from.new) }
    ensures entropy_fault { result ≡ Statuses.EntropyFault →
        HasRisen (E.faults entropy.old) (E.faults entropy.new) }
    ensures write_fault { result ≡ Statuses.WriteFault →
        HasRisen (W.faults out.old) (W.faults out.new) }
{
    let Ok(found) = ask_of(alloc, words, filed) else {
        return ToolStatus::Memory;
    };
    let Some(asked) = found else {
        return ToolStatus::WordsRefused;
    };
    match answer_to(alloc, &asked, up, from, clock, entropy) {
        Ok(response) => tell(alloc, &asked, &response, out),
        Err(why) => status_without(why),
    }
}
