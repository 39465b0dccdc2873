//! Picks of one port of any parity, which don't wait for what is due.

ghost use Rattle.std.specs.Prelude.{◌≡◌, ◌≤◌, ◌+◌, ◌==◌, ◌&&◌, is_none};
ghost use Rattle.std.specs.Option.{option_map};
ghost use Rattle.pcp_base.specs.declared.leases.Protocol.{Protocol};
ghost use Rattle.external_pool.specs.declared.asks.Picked.{Picked};
ghost use Rattle.external_pool.specs.PortUses.{is_in_range};
ghost use Rattle.leased_ports.specs.Frees.{IsFirst, is_over};
ghost use Rattle.leased_ports.specs.Plain as the;
ghost use Rattle.leased_ports.specs.Plain.{one_port};
ghost use Rattle.leased_ports.specs.Kept.{port_run};

use crate::timed_ends::TimedEnds;
use external_pool::Picked;
use pcp_base::Protocol;
use port_spans::spot;
use std::sync::ledger::Ledger;
use step_count::Steps;

/// How many steps a pick of one port takes at most that doesn't see to what is due: 64 for the
/// count of its address, one look at the run of the port that is suggested, 69 for the first port
/// that the pool has vacant, and 44 for the first whose rest is over.
pub const PLAIN_STEPS: u64 = 178;

/// Whether what is asked for is one port of any parity.
pub fn is_one_port(room: u32, parity: Option<u8>) -> bool
    ensures { result ≡ (room == 1 && is_none parity) }
{
    room == 1 && parity.is_none()
}

/// The first port of the range, of a protocol, whose last end's rest is over at `m`.
pub fn first_over<L: Ledger>(
    ends: &TimedEnds,
    low: u16,
    high: u16,
    m: u64,
    protocol: Protocol,
    steps: &mut Steps<L>,
) -> Option<u16>
    ensures first { IsFirst (λ port. is_in_range low high port
        && is_over m (port_run ends.now protocol port)) result }
    ensures steps { steps.new ≤ steps.old + 44 }
{
    let from = spot(protocol, low);
    let Some(at) = ends.first_over(from, m, steps) else {
        return None;
    };
    // Ports of UDP come behind those of TCP.
    if spot(protocol, high) < at {
        return None;
    }
    Some(low + (at - from) as u16)
}

/// The first of some ports, if there are any.
pub fn start_of(choice: Option<Picked>) -> Option<u16>
    ensures { result ≡ option_map (λ (run : Picked). run.start) choice }
{
    let Some(run) = choice else {
        return None;
    };
    Some(run.start)
}

/// The lesser of two ports, of which either may be missing.
pub fn lesser(a: Option<u16>, b: Option<u16>) -> Option<u16>
    ensures { result ≡ the.lesser a b }
{
    let Some(one) = a else {
        return b;
    };
    let Some(other) = b else {
        return a;
    };
    if other < one { b } else { a }
}

/// A pick of this port, if there is one.
pub fn one_port(port: Option<u16>) -> Option<Picked>
    ensures { result ≡ option_map one_port port }
{
    let Some(start) = port else {
        return None;
    };
    Some(Picked { start, count: 1 })
}
