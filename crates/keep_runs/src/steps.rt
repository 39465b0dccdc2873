//! What comes in a turn, and what is done for it.
ghost use Rattle.std.specs.Prelude.{◌≡◌, ◌*◌, ◌^◌, ◌<◌, ◌≤◌, length, option_to_list, IfOk, IfSome, OnOk};
ghost use Rattle.pcp_io.specs.Takes.{filled, item_of};
ghost use Rattle.client_runs.specs.Links.{RequestsWent};
ghost use Rattle.keep_runs.specs.Keeping.{has_use, packet_of, step_lines, step_request, stepped};
ghost use Rattle.keep_runs.specs.Steps.{Acts, IsDone};

use crate::keepers::Keeper;
use client_runs::hand_over;
use pcp_base::{Address, Datagram, Memory, Octets};
use pcp_io::{Incoming, Outbox, Sink, write_all};
use random_words::Entropy;
use std::alloc::Global;
use tool_commands::ToolStatus;

/// What a step gives: what is told, and what is asked.
#[derive(Drop)]
struct Outcome {
    lines: Vec<u8>,
    request: Option<Octets>,
}

/// A datagram that came from this peer by this door.
fn datagram_from(
    alloc: Global,
    peer: Address,
    port: u16,
    door: u8,
    octets: &[u8],
) -> Result<Datagram, Memory>
    ensures { IfOk result
        (λ d. d ≡ record { peer = peer; port = port; door = door; octets = octets.now }) }
{
    Ok(Datagram {
        peer,
        port,
        door,
        octets: Octets::of(octets.to_vec(alloc)?),
    })
}

/// The packet that a take gave, if it gave one.
pub(crate) fn packet_in(
    alloc: Global,
    incoming: Incoming,
    room: &[u8],
) -> Result<Option<Datagram>, Memory>
    requires { filled incoming ≤ length room.now }
    ensures { IfSome (item_of incoming room.now)
        (λ item. IfOk result (λ packet. packet ≡ packet_of item)) }
{
    match incoming {
        Incoming::Packet {
            peer,
            port,
            door,
            length,
        } => Ok(Some(datagram_from(alloc, peer, port, door, &room[..length])?)),
        Incoming::Lose(_order, _address) => Ok(None),
        Incoming::Status(_order) => Ok(None),
        Incoming::Quiet => Ok(None),
        Incoming::Stop => Ok(None),
    }
}

/// Whether there is something to do.
fn has_use(keeper: &Keeper, packet: &Option<Datagram>, now_ms: u64) -> bool
    ensures { result ≡ has_use keeper.now packet.now now_ms }
{
    packet.is_some() || keeper.is_due(now_ms)
}

/// Hears the packet, if there is one, and ticks.
fn step(
    alloc: Global,
    keeper: &mut Keeper,
    packet: &Option<Datagram>,
    now_ms: u64,
    word: u32,
) -> Result<Outcome, Memory>
    requires { now_ms < 1000 * 2 ^ 40 }
    ensures after { OnOk result (keeper.new ≡ stepped keeper.old packet.now now_ms word) }
    ensures lines { IfOk result
        (λ outcome. outcome.lines.items ≡ step_lines keeper.old packet.now now_ms word) }
    ensures request { IfOk result
        (λ outcome. outcome.request ≡ step_request keeper.old packet.now now_ms word) }
{
    let mut lines = Vec::new(alloc);
    keeper.hear_maybe(alloc, packet, now_ms, word, &mut lines)?;
    let request = keeper.tick(alloc, now_ms, word, &mut lines)?;
    Ok(Outcome { lines, request })
}

/// Sends the request, if there is one; one whose send fails is lost.
fn send_request<O: Outbox>(server: Address, request: &Option<Octets>, up: &mut O)
    ensures { RequestsWent server (option_to_list request.now)
        (record { sent = O.sent up.old; faults = O.faults up.old })
        (record { sent = O.sent up.new; faults = O.faults up.new }) }
{
    if let Some(text) = request {
        hand_over(server, text, up);
    }
}

/// Prints what is told in one write, and then sends the request. How the run ended, where it did.
fn act<O: Outbox, W: Sink>(
    server: Address,
    outcome: &Outcome,
    up: &mut O,
    out: &mut W,
) -> Option<ToolStatus>
    ensures { Acts server outcome.now.lines.items outcome.now.request result (W.held out.old)
        (W.held out.new) (W.faults out.old) (W.faults out.new)
        (record { sent = O.sent up.old; faults = O.faults up.old })
        (record { sent = O.sent up.new; faults = O.faults up.new }) }
{
    if write_all(out, &outcome.lines).is_err() {
        return Some(ToolStatus::WriteFault);
    }
    send_request(server, &outcome.request, up);
    None
}

/// Does what a packet or the time asks for. How the run ended, where it did.
pub(crate) fn do_packet<O: Outbox, E: Entropy, W: Sink>(
    alloc: Global,
    server: Address,
    keeper: &mut Keeper,
    packet: &Option<Datagram>,
    now_ms: u64,
    up: &mut O,
    entropy: &mut E,
    out: &mut W,
) -> Option<ToolStatus>
    requires { now_ms < 1000 * 2 ^ 40 }
    ensures { IsDone server keeper.old keeper.new packet.now now_ms
        (record {
          drawing = record { words = E.words entropy.old; faults = E.faults entropy.old };
          sending = record { sent = O.sent up.old; faults = O.faults up.old };
          held = W.held out.old;
          faults = W.faults out.old;
        })
        (record {
          drawing = record { words = E.words entropy.new; faults = E.faults entropy.new };
          sending = record { sent = O.sent up.new; faults = O.faults up.new };
          held = W.held out.new;
          faults = W.faults out.new;
        }) result }
{
    if !has_use(keeper, packet, now_ms) {
        return None;
    }
    let Ok(word) = entropy.word() else {
        return Some(ToolStatus::EntropyFault);
    };
    let Ok(outcome) = step(alloc, keeper, packet, now_ms, word) else {
        return Some(ToolStatus::Memory);
    };
    act(server, &outcome, up, out)
}
