//! Datagrams to an outbox.
ghost use Rattle.std.specs.Prelude.{◌≡◌, ◌+◌, ◌-◌, ◌^◌, ◌<◌, option_to_list, if◌then◌else◌};
ghost use Rattle.pcp_base.specs.Configs.{IsConfig};
ghost use Rattle.pcp_announce.specs.Doors.{group_of, groups};
ghost use Rattle.job_workers.specs.Sends.{HandsOn, HandsOne, TellsAll};

use crate::tallies::Sends;
use pcp_announce::{Door, door_at, door_count, group_of};
use pcp_base::{Address, Config, Datagram};
use pcp_io::Outbox;

/// Sends octets to a peer by this door, and says whether the outbox took them.
pub fn send_one<O: Outbox>(out: &mut O, door: u8, peer: Address, port: u16, octets: &[u8]) -> bool
    ensures { HandsOne (record { peer = peer; port = port; door = door; octets = octets.now }) result
        (O.sent out.old) (O.sent out.new) (O.faults out.old) (O.faults out.new) }
{
    out.send(door, peer, port, octets).is_ok()
}

/// Sends a reply by its door, and says whether the outbox took it.
fn send_reply<O: Outbox>(out: &mut O, reply: &Datagram) -> bool
    ensures { HandsOne reply.now result
        (O.sent out.old) (O.sent out.new) (O.faults out.old) (O.faults out.new) }
{
    let octets = reply.octets.items();
    send_one(out, reply.door, reply.peer, reply.port, octets)
}

/// One send more.
fn after_one(sends: Sends, sent: bool) -> Sends
    requires { sends.sent + sends.failed < 2 ^ 64 - 1 }
    ensures { result ≡ (if sent then record sends { sent = sends.sent + 1 }
        else record sends { failed = sends.failed + 1 }) }
{
    if sent {
        return Sends {
            sent: sends.sent + 1,
            failed: sends.failed,
        };
    }
    Sends {
        sent: sends.sent,
        failed: sends.failed + 1,
    }
}

/// Sends all replies in order, each once and by its door. One whose send fails is lost.
pub fn send_all<O: Outbox>(out: &mut O, replies: &[Datagram]) -> Sends
    ensures { HandsOn replies.now result
        (O.sent out.old) (O.sent out.new) (O.faults out.old) (O.faults out.new) }
{
    let mut sends = Sends { sent: 0, failed: 0 };
    let count = replies.len();
    for i in 0..count {
        let sent = send_reply(out, &replies[i]);
        sends = after_one(sends, sent);
    }
    sends
}

/// Sends octets by this door, where it announces.
fn send_by<O: Outbox>(out: &mut O, door: &Door, port: u16, octets: &[u8])
    ensures { TellsAll (option_to_list (group_of door.now)) port octets.now
        (O.sent out.old) (O.sent out.new) (O.faults out.old) (O.faults out.new) }
{
    let Some(group) = group_of(door) else {
        return;
    };
    let _sent = send_one(out, group.door, group.hosts, port, octets);
}

/// Sends the same octets to this port of all hosts to whom the server's doors announce, by each of these
/// doors, in order.
pub fn send_to_groups<O: Outbox>(out: &mut O, config: &Config, port: u16, octets: &[u8])
    requires { IsConfig config.now }
    ensures { TellsAll (groups config.now) port octets.now
        (O.sent out.old) (O.sent out.new) (O.faults out.old) (O.faults out.new) }
{
    let count = door_count(config);
    for place in 0..count {
        let door = door_at(config, place);
        send_by(out, &door, port, octets);
    }
}
