//! Datagrams to an outbox.
ghost use Rattle.std.specs.Prelude.{◌∷◌, []};
ghost use Rattle.pcp_base.specs.Pairing.{v4_octets};
ghost use Rattle.relay_runs.specs.Handing.{Hands, HandsAll};
ghost use Rattle.relay_runs.specs.Sending.{announced};

use pcp_base::{Address, Datagram};
use pcp_io::Outbox;
use proxy_core::CLIENTS_PORT;

/// All hosts of a link, by IPv4 (RFC 1112, section 4).
const ALL_HOSTS: Address = Address([0, 0, 0, 0, 0, 0, 0, 0, 0, 0, 0xff, 0xff, 224, 0, 0, 1]);

/// Sends a datagram by its door, and says whether the outbox took it. One that fails is a lost packet.
pub(crate) fn send_one<O: Outbox>(out: &mut O, datagram: &Datagram) -> bool
    ensures { HandsAll (record { datagram = datagram.now; taken = result } ∷ [])
        (record { sent = O.sent out.old; faults = O.faults out.old })
        (record { sent = O.sent out.new; faults = O.faults out.new }) }
{
    let octets = datagram.octets.items();
    out.send(datagram.door, datagram.peer, datagram.port, octets)
        .is_ok()
}

/// Sends what is announced, to all hosts of the clients' links (RFC 6887, section 14.1). One that fails is
/// a lost packet.
pub(crate) fn announce<O: Outbox>(down: &mut O, told: Option<[u8; 24]>)
    ensures { Hands (announced told)
        (record { sent = O.sent down.old; faults = O.faults down.old })
        (record { sent = O.sent down.new; faults = O.faults down.new }) }
{
    if let Some(octets) = told {
        send_to_all(down, &octets);
    }
}

/// Sends octets to all hosts, and says whether the outbox took them.
fn send_to_all<O: Outbox>(out: &mut O, octets: &[u8; 24]) -> bool
    ensures { HandsAll
        (record {
          datagram = record {
            peer = record { 0 = v4_octets 224 0 0 1 };
            port = 5350;
            door = 0;
            octets = octets.now;
          };
          taken = result;
        } ∷ [])
        (record { sent = O.sent out.old; faults = O.faults out.old })
        (record { sent = O.sent out.new; faults = O.faults out.new }) }
{
    out.send(0, ALL_HOSTS, CLIENTS_PORT, octets).is_ok()
}
