//! Picks that see to what is due in the order of ports, and only up to what they pick.

ghost use Rattle.std.specs.Prelude.{◌≡◌, ◌≤◌, ◌<◌, ◌+◌, ◌*◌, ◌↔◌, ℕ, IsTrue, Some, IfSome, IfNone};
ghost use Rattle.std.specs.FinMap as fin;
ghost use Rattle.pcp_base.specs.declared.leases.Protocol.{Protocol};
ghost use Rattle.port_spans.specs.Along as the;
ghost use Rattle.port_spans.specs.Runs.{run_at};
ghost use Rattle.expiry_wheel.specs.Due.{IsFirstDue};
ghost use Rattle.external_pool.specs.PortUses.{is_free_to, is_open};
ghost use Rattle.external_pool.specs.Choosing.{GoesBack, IsLongest};
ghost use Rattle.leased_ports.specs.Kept.{AreInStep, HaveBegun, IsOn, IsSet, end_by, use_by};
ghost use Rattle.leased_ports.specs.Falling.{NoneDue};
ghost use Rattle.leased_ports.specs.Searching as Searching;
ghost use Rattle.leased_ports.specs.Searching.{due_among};
ghost use Rattle.leased_ports.specs.Plain.{uses_by};

use crate::falls::see_to;
use crate::recent::recent_end;
use crate::timed_ends::TimedEnds;
use expiry_wheel::Wheel;
use external_pool::{Picked, Vacancies, is_in_range, meets};
use pcp_base::{Endpoint, Protocol};
use port_spans::spot;
use std::sync::ledger::Ledger;
use step_count::Steps;

/// How many steps it takes at most to find vacant ports, beside those for each run that is seen to:
/// 69 for what the pool has vacant, and 44 for the first run that is due, or whose rest is over.
pub const SEARCH_STEPS: u64 = 113;

/// How many steps it takes at most to see to a run before what is picked: 43 that find it, 167 that
/// see to it, and 69 for what the pool has vacant then.
pub const DUE_STEPS: u64 = 279;

/// Whether nobody holds a port of the endpoint's protocol at `m`, and it rests for nobody but this
/// internal port of the endpoint's address.
fn is_free_to(ends: &TimedEnds, m: u64, endpoint: &Endpoint, internal: u64, port: u16) -> bool
    requires { (at : ℕ) → IfSome (run_at ends.now at) IsSet }
    ensures { result ≡ is_free_to endpoint.now.address internal
        (use_by m (end_by ends.now endpoint.now.protocol port)) }
{
    let Some(last) = recent_end(ends, endpoint.protocol, port, m) else {
        return true;
    };
    if m < last.end {
        return false;
    }
    last.endpoint.address == endpoint.address && u64::from(last.endpoint.port) == internal
}

/// Whether the port `i` behind one is open at `m` to the endpoint whose port is `i` behind: in the
/// range, held by nobody, and at rest for no other endpoint.
fn is_open(
    ends: &TimedEnds,
    low: u16,
    high: u16,
    m: u64,
    endpoint: &Endpoint,
    start: u16,
    i: u32,
) -> bool
    requires { (at : ℕ) → IfSome (run_at ends.now at) IsSet }
    ensures { result ≡ is_open (uses_by low high m ends.now endpoint.now.protocol)
        endpoint.now.address (endpoint.now.port + i) (start + i) }
{
    let port = u64::from(start) + u64::from(i);
    if !is_in_range(low, high, port) {
        return false;
    }
    let internal = u64::from(endpoint.port) + u64::from(i);
    is_free_to(ends, m, endpoint, internal, port as u16)
}

/// Whether each of the `n` ports from `start` on is open at `m` to the endpoint that it would be
/// given to, the first to this one, and the parity asked is met. It is one step for each port that
/// is looked at.
pub fn goes_back<L: Ledger>(
    ends: &TimedEnds,
    low: u16,
    high: u16,
    m: u64,
    endpoint: &Endpoint,
    start: u16,
    n: u32,
    parity: Option<u8>,
    steps: &mut Steps<L>,
) -> bool
    requires { (at : ℕ) → IfSome (run_at ends.now at) IsSet }
    ensures back { IsTrue result ↔ GoesBack (uses_by low high m ends.now endpoint.now.protocol)
        endpoint.now.address endpoint.now.port parity start n }
    ensures steps { steps.new ≤ steps.old + n }
{
    if !meets(start, parity) {
        return false;
    }
    for i in 0..n {
        steps.tick();
        if !is_open(ends, low, high, m, endpoint, start, i) {
            return false;
        }
    }
    true
}

/// The port before which runs that are due may change a choice: the one behind it where it has
/// `room` ports, else the one behind the range.
fn search_end(choice: Option<Picked>, room: u32, high: u16) -> u64
    ensures end { result ≡ Searching.search_end high room choice }
{
    let Some(run) = choice else {
        return u64::from(high) + 1;
    };
    if run.count < room {
        return u64::from(high) + 1;
    }
    u64::from(run.start) + u64::from(run.count)
}

/// The first run of a protocol that is due by `m`, if it begins below a port.
fn first_due<L: Ledger>(
    wheel: &Wheel,
    protocol: Protocol,
    end: u64,
    m: u64,
    steps: &mut Steps<L>,
) -> Option<u32>
    ensures due { IfSome result (IsFirstDue wheel.now (the.spot protocol 0) m) }
    ensures before { IfSome result (λ id. id < the.spot protocol end) }
    ensures none { IfNone result ((port expiry : ℕ) → port < end →
        fin.get wheel.now (the.spot protocol port) ≡ Some expiry → m < expiry) }
    ensures steps { steps.new ≤ steps.old + 43 }
{
    let first = spot(protocol, 0);
    let Some(id) = wheel.first_due(first, m, steps) else {
        return None;
    };
    let port = u64::from(id - first);
    if end <= port {
        return None;
    }
    Some(id)
}

/// The longest run of ports of a protocol that are vacant at `m`, of at most `room`, and of these
/// the one with the least start. Runs that are due are seen to in the order of their ports, as long
/// as they may change that: none that begins behind what is found.
pub fn seek<L: Ledger>(
    pool: &mut Vacancies,
    wheel: &mut Wheel,
    ends: &TimedEnds,
    high: u16,
    m: u64,
    protocol: Protocol,
    room: u32,
    parity: Option<u8>,
    steps: &mut Steps<L>,
) -> Option<Picked>
    requires on { (low : ℕ) × (most : ℕ) × IsOn pool.old low high most }
    requires in_step { AreInStep ends.now pool.old wheel.old }
    requires begun { HaveBegun m ends.now wheel.old }
    ensures on { (low most : ℕ) → IsOn pool.old low high most → IsOn pool.new low high most }
    ensures in_step { AreInStep ends.now pool.new wheel.new }
    ensures begun { HaveBegun m ends.now wheel.new }
    ensures late { (seen : ℕ) → seen ≤ m → NoneDue seen wheel.old → NoneDue seen wheel.new }
    ensures longest { (low most : ℕ) → IsOn pool.old low high most →
        IsLongest (uses_by low high m ends.now protocol) parity room result }
    ensures within { IfSome result (λ run. run.start + run.count ≤ 65536) }
    ensures steps { steps.new
        ≤ steps.old + SEARCH_STEPS + DUE_STEPS * due_among m wheel.old protocol 65536 }
    ensures near { IfSome result (λ run. run.count ≡ room → steps.new ≤ steps.old
        + SEARCH_STEPS + DUE_STEPS * due_among m wheel.old protocol (run.start + run.count)) }
{
    let mut choice = pool.longest(protocol, room, parity, steps);
    while let Some(id) = first_due(wheel, protocol, search_end(choice, room, high), m, steps) {
        see_to(pool, wheel, ends, m, id, steps);
        choice = pool.longest(protocol, room, parity, steps);
    }
    choice
}
