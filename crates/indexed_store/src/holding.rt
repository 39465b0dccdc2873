//! Until when leases hold ports.
ghost use Rattle.std.specs.Prelude.{◌≡◌, ℕ, ◌≤◌, ◌<◌, ◌+◌, ◌*◌, ◌^◌, false, length, IfSome, IfOk, OnOk, if◌then◌else◌};
ghost use Rattle.step_count.specs.Levels.{levels};
ghost use Rattle.pcp_base.specs.declared.leases.Protocol.{Protocol};
ghost use Rattle.pcp_base.specs.Ends.{end_at};
ghost use Rattle.lease_store.specs.declared.terms.Terms.{Terms};
ghost use Rattle.leased_ports.specs.declared.steps.TheConstants.{PUT_STEPS, TAKEN_STEPS};
ghost use Rattle.leased_ports.specs.Leased.{IsOnTerms, end_of};
ghost use Rattle.indexed_store.specs.declared.holding.Unowned.TheVariants.{Rests};
ghost use Rattle.indexed_store.specs.Looks.{hold_steps, is_parted, most_levels, piece_steps, run_steps, touched_steps};
ghost use Rattle.indexed_store.specs.Runs.{IsOwnerRun, has_port, owner_in, up_to};
ghost use Rattle.indexed_store.specs.Holding.{AreNearAt, Holds, HoldsIf, IsEvenRun, IsHold, end_held, held_by_map, later_by};
ghost use Rattle.indexed_store.specs.Holding as the;

use crate::leases::Leases;
use crate::owning::OwnerRun;
use leased_ports::LeasedPorts;
use pcp_base::{End, Memory, Moment, Owner, Protocol};
use peer_table::PeerTable;
use std::alloc::Global;
use std::sync::ledger::Ledger;
use step_count::Steps;
use step_count::laws::levels_grow;

/// What becomes of a port that no lease owns any more.
#[derive(Clone, Copy)]
pub(crate) enum Unowned {
    /// It rests for its last endpoint, from the moment reached on.
    Rests,
    /// It is free: the first format knows no ends.
    IsFree,
}

/// Ports in a row that leases hold until the same moment.
#[derive(Clone, Copy)]
struct Hold {
    /// How many they are, at least 1.
    count: u32,
    /// In seconds.
    until: u64,
}

/// The later of a moment and of another, which may be missing.
fn later(m: u64, other: Option<u64>) -> u64
    ensures { result ≡ later_by m other }
{
    match other {
        Some(end) => if m < end { end } else { m },
        None => m,
    }
}

impl Leases {
    /// The later of `m` and of the expiry of the MAP lease that owns the port. If there is one, it is
    /// most often the endpoint's.
    fn held_by_map<L: Ledger>(&self, m: Moment, owner: &Owner, steps: &mut Steps<L>) -> u64
        requires { AreNearAt m self.now.found }
        ensures value { result
            ≡ held_by_map m self.now.found.maps owner.now.protocol owner.now.external }
        ensures bounds { (m ≤ result) × (result < 2 ^ 41) }
        ensures steps { steps.new ≤ steps.old + 4 * most_levels }
    {
        levels_grow();
        let expiry = self
            .maps
            .owner_expiry(owner.protocol, owner.external, &owner.endpoint, steps);
        later(m.get(), expiry)
    }
}

/// How many ports of the run, from its first on, are held until the same moment, where MAP leases
/// hold all of them until `from`: those before the next one that a PEER lease owns, or that one.
fn hold_along<L: Ledger>(peers: &PeerTable, run: &OwnerRun, from: u64, steps: &mut Steps<L>) -> Hold
    requires { IsOwnerRun run.now }
    ensures hold { IsHold from peers.now.found run.now result }
    ensures whole { is_parted peers.now.found run.now ≡ false → result.count ≡ run.now.count }
    ensures steps { steps.new ≤ steps.old + 18 * levels (length peers.now.found) }
{
    let first = &run.first;
    let Some(next) = peers.next_owned(first.protocol, first.external, steps) else {
        return Hold {
            count: run.count,
            until: from,
        };
    };
    if next == first.external {
        return Hold {
            count: 1,
            until: later(from, peers.last_expiry(first.protocol, next, steps)),
        };
    }
    Hold {
        count: run.count.min(u32::from(next - first.external)),
        until: from,
    }
}

/// The end of an owner's port.
fn end_at(owner: &Owner, end: u64) -> End
    ensures { result ≡ end_at end owner.now }
{
    End {
        endpoint: owner.endpoint,
        external: owner.external,
        end,
    }
}

/// Whether a port that leases hold until then has a last end at `m`.
fn has_end(unowned: Unowned, m: Moment, until: u64) -> bool
    ensures { result ≡ the.has_end unowned m until }
{
    match unowned {
        Unowned::Rests => true,
        Unowned::IsFree => m.get() < until,
    }
}

/// Holds ports in a row until then, or lets them rest or be free. Where memory is wanting, all ports
/// are forgotten.
fn give<L: Ledger>(
    ports: &mut LeasedPorts,
    alloc: Global,
    m: Moment,
    run: &OwnerRun,
    until: u64,
    unowned: Unowned,
    steps: &mut Steps<L>,
) -> Result<(), Memory>
    requires run { IsOwnerRun run.now }
    requires until { (m ≤ until) × (until < 2 ^ 41) }
    requires reached { ports.old.reached ≡ m }
    ensures terms { (terms : Terms) → IsOnTerms ports.old terms → IsOnTerms ports.new terms }
    ensures reached { OnOk result (ports.new.reached ≡ m) }
    ensures ports { OnOk result ((protocol : Protocol) (port : ℕ) →
        end_of ports.new protocol port ≡ (if has_port protocol port run.now
        then end_held unowned m until (owner_in run.now port)
        else end_of ports.old protocol port)) }
    ensures steps { unowned ≡ Rests → steps.new ≤ steps.old + run_steps ports.old run.now }
{
    let first = &run.first;
    if has_end(unowned, m, until) {
        return ports.put_run(alloc, &end_at(first, until), run.count, steps);
    }
    ports.free_run(alloc, first.protocol, first.external, run.count, steps)
}

/// Gives ports of a run their last ends, from the first on as far as these are of the same moment,
/// where MAP leases hold all of the run until `from`. Tells how many.
fn hold_piece<L: Ledger>(
    ports: &mut LeasedPorts,
    alloc: Global,
    leases: &Leases,
    m: Moment,
    run: &OwnerRun,
    from: u64,
    unowned: Unowned,
    steps: &mut Steps<L>,
) -> Result<u32, Memory>
    requires near { AreNearAt m leases.now.found }
    requires run { IsOwnerRun run.now }
    requires from { (i : ℕ) → i < run.now.count → from
        ≡ held_by_map m leases.now.found.maps run.now.first.protocol (run.now.first.external + i) }
    requires bounds { (m ≤ from) × (from < 2 ^ 41) }
    requires reached { ports.old.reached ≡ m }
    ensures terms { (terms : Terms) → IsOnTerms ports.old terms → IsOnTerms ports.new terms }
    ensures reached { OnOk result (ports.new.reached ≡ m) }
    ensures count { IfOk result (λ n. (1 ≤ n) × (n ≤ run.now.count)) }
    ensures ports { IfOk result (λ n.
        Holds unowned m leases.now.found (up_to n run.now) ports.old ports.new) }
    ensures whole { IfOk result (λ n.
        is_parted leases.now.found.peers run.now ≡ false → n ≡ run.now.count) }
    ensures each { IfOk result (λ n. unowned ≡ Rests → steps.new ≤ steps.old
        + n * (18 * most_levels + PUT_STEPS + TAKEN_STEPS)) }
    ensures steps { unowned ≡ Rests →
        steps.new ≤ steps.old + piece_steps ports.old leases.now.found.peers run.now }
{
    levels_grow();
    let hold = hold_along(&leases.peers, run, from, steps);
    let piece = OwnerRun {
        first: run.first,
        count: hold.count,
    };
    give(ports, alloc, m, &piece, hold.until, unowned, steps)?;
    Ok(hold.count)
}

/// Gives ports in a row the last ends by which these leases hold them. Where memory is wanting, all
/// ports are forgotten.
pub(crate) fn hold_run<L: Ledger>(
    ports: &mut LeasedPorts,
    alloc: Global,
    leases: &Leases,
    m: Moment,
    run: &OwnerRun,
    unowned: Unowned,
    steps: &mut Steps<L>,
) -> Result<(), Memory>
    requires near { AreNearAt m leases.now.found }
    requires run { IsEvenRun leases.now.found.maps run.now }
    requires reached { ports.old.reached ≡ m }
    ensures terms { (terms : Terms) → IsOnTerms ports.old terms → IsOnTerms ports.new terms }
    ensures reached { OnOk result (ports.new.reached ≡ m) }
    ensures ports { OnOk result (Holds unowned m leases.now.found run.now ports.old ports.new) }
    ensures steps { unowned ≡ Rests →
        steps.new ≤ steps.old + hold_steps ports.old leases.now.found.peers run.now }
{
    let from = leases.held_by_map(m, &run.first, steps);
    let mut done = 0;
    while done < run.count {
        let rest = run.behind(done);
        let count = hold_piece(ports, alloc, leases, m, &rest, from, unowned, steps)?;
        done += count;
    }
    Ok(())
}

/// The same of one run, if there is one.
pub(crate) fn hold_touched<L: Ledger>(
    ports: &mut LeasedPorts,
    alloc: Global,
    leases: &Leases,
    m: Moment,
    touched: Option<OwnerRun>,
    unowned: Unowned,
    steps: &mut Steps<L>,
) -> Result<(), Memory>
    requires near { AreNearAt m leases.now.found }
    requires touched { IfSome touched (IsEvenRun leases.now.found.maps) }
    requires reached { ports.old.reached ≡ m }
    ensures terms { (terms : Terms) → IsOnTerms ports.old terms → IsOnTerms ports.new terms }
    ensures reached { OnOk result (ports.new.reached ≡ m) }
    ensures ports { OnOk result (HoldsIf unowned m leases.now.found touched ports.old ports.new) }
    ensures steps { unowned ≡ Rests →
        steps.new ≤ steps.old + touched_steps ports.old leases.now.found.peers touched }
{
    match touched {
        Some(run) => hold_run(ports, alloc, leases, m, &run, unowned, steps),
        None => Ok(()),
    }
}
