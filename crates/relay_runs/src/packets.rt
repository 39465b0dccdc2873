//! What a relay sends for what came.
ghost use Rattle.std.specs.Prelude.{◌≡◌, ◌<◌, ◌≤◌, [], ◌∷◌, length, IfOk, IfSome, OnOk, OnErr};
ghost use Rattle.pcp_io.specs.declared.clocks.TheConstants.{END_OF_TIME_MS};
ghost use Rattle.pcp_io.specs.Takes.{filled, item_of};
ghost use Rattle.relay_runs.specs.Handing.{Hands};
ghost use Rattle.relay_runs.specs.Sending.{down_by, up_by};
ghost use Rattle.relay_runs.specs.Steps.{Does};
ghost use Rattle.relay_runs.specs.Turns.{IsPacket, event_of, packet_event};

use crate::machines::RelayMachine;
use crate::sends::send_one;
use pcp_base::{Address, Datagram, Memory, Octets};
use pcp_io::{Incoming, Outbox};
use proxy_core::ProxyOut;
use std::alloc::Global;

/// The port on which servers listen (RFC 6887, section 19.1).
pub const SERVER_PORT: u16 = 5_351;

/// Sends what a relay gives for a datagram.
fn send_out<O: Outbox>(server: &Address, down: &mut O, up: &mut O, out: ProxyOut)
    ensures down { Hands (down_by out)
        (record { sent = O.sent down.old; faults = O.faults down.old })
        (record { sent = O.sent down.new; faults = O.faults down.new }) }
    ensures up { Hands (up_by server.now out)
        (record { sent = O.sent up.old; faults = O.faults up.old })
        (record { sent = O.sent up.new; faults = O.faults up.new }) }
{
    match out {
        ProxyOut::Nothing => {}
        ProxyOut::Reply(reply) => {
            send_one(down, &reply);
        }
        ProxyOut::Up(octets) => {
            send_one(up, &to_server(server, octets));
        }
    }
}

fn to_server(server: &Address, octets: Octets) -> Datagram
    ensures { result
        ≡ record { peer = server.now; port = SERVER_PORT; door = 0; octets = octets } }
{
    Datagram {
        peer: *server,
        port: SERVER_PORT,
        door: 0,
        octets,
    }
}

/// What is sent for a datagram at a time in milliseconds: one whose peer is the server came from
/// upstream, and any other from a client. After `Memory` nothing was sent.
fn relay_packet<M: RelayMachine, O: Outbox>(
    alloc: Global,
    server: &Address,
    machine: &mut M,
    down: &mut O,
    up: &mut O,
    datagram: &Datagram,
    now_ms: u64,
) -> Result<(), Memory>
    requires { now_ms < END_OF_TIME_MS }
    ensures ok { OnOk result (Does M.machine server.now
        (packet_event server.now datagram.now now_ms ∷ []) machine.old machine.new
        (record {
          down = record { sent = O.sent down.old; faults = O.faults down.old };
          up = record { sent = O.sent up.old; faults = O.faults up.old };
        })
        (record {
          down = record { sent = O.sent down.new; faults = O.faults down.new };
          up = record { sent = O.sent up.new; faults = O.faults up.new };
        })) }
    ensures err { OnErr result ((down.new ≡ down.old) × (up.new ≡ up.old)) }
{
    if datagram.peer == *server {
        let out = machine.from_server(alloc, datagram, now_ms)?;
        send_out(server, down, up, out);
        return Ok(());
    }
    let out = machine.from_client(alloc, datagram, now_ms)?;
    send_out(server, down, up, out);
    Ok(())
}

/// A datagram that came from this peer by this door.
fn datagram_from(
    alloc: Global,
    peer: Address,
    port: u16,
    door: u8,
    octets: &[u8],
) -> Result<Datagram, Memory>
    ensures { IfOk result
        (λ d. d ≡ record { peer = peer; port = port; door = door; octets = octets.now }) }
{
    Ok(Datagram {
        peer,
        port,
        door,
        octets: Octets::of(octets.to_vec(alloc)?),
    })
}

/// What is sent for what a take gave, at a time in milliseconds: packets are relayed, and anything
/// else is ignored. After `Memory` nothing was sent for a packet.
pub(crate) fn relay_item<M: RelayMachine, O: Outbox>(
    alloc: Global,
    server: &Address,
    machine: &mut M,
    down: &mut O,
    up: &mut O,
    incoming: Incoming,
    room: &[u8],
    now_ms: u64,
) -> Result<(), Memory>
    requires fits { filled incoming ≤ length room.now }
    requires time { now_ms < END_OF_TIME_MS }
    ensures ok { IfSome (item_of incoming room.now) (λ item. OnOk result
        (Does M.machine server.now (event_of server.now item now_ms) machine.old machine.new
        (record {
          down = record { sent = O.sent down.old; faults = O.faults down.old };
          up = record { sent = O.sent up.old; faults = O.faults up.old };
        })
        (record {
          down = record { sent = O.sent down.new; faults = O.faults down.new };
          up = record { sent = O.sent up.new; faults = O.faults up.new };
        }))) }
    ensures packet { OnErr result (IfSome (item_of incoming room.now) IsPacket) }
    ensures err { OnErr result ((down.new ≡ down.old) × (up.new ≡ up.old)) }
{
    match incoming {
        Incoming::Packet {
            peer,
            port,
            door,
            length,
        } => {
            let datagram = datagram_from(alloc, peer, port, door, &room[..length])?;
            relay_packet(alloc, server, machine, down, up, &datagram, now_ms)
        }
        Incoming::Lose(_order, _address) => Ok(()),
        Incoming::Status(_order) => Ok(()),
        Incoming::Quiet => Ok(()),
        Incoming::Stop => Ok(()),
    }
}
