//! The ports of an external address at a moment.

ghost use Rattle.std.specs.Prelude.{◌≡◌, ◌≢◌, ◌⊎◌, ◌≤◌, ◌<◌, ◌+◌, ◌-◌, ◌*◌, ◌&&◌, ◌++◌, ℕ, [], map, min, nat_le, Some, None, IfOk, IfErr, IfSome, IfNone, OnOk, OnErr, if◌then◌else◌};
ghost use Rattle.std.specs.Bool.{OnTrue, OnFalse};
ghost use Rattle.std.specs.FinMap as fin;
ghost use Rattle.std.specs.List.{AllByRecursion};
ghost use Rattle.pcp_base.specs.declared.leases.Protocol.{Protocol};
ghost use Rattle.pcp_base.specs.Ends.{is_end_of};
ghost use Rattle.pcp_base.specs.Owners.{owned};
ghost use Rattle.pcp_base.specs.Records.{IsWellFormedRecord};
ghost use Rattle.pcp_base.specs.Snapshots.{end_record};
ghost use Rattle.pcp_base.specs.Tables.{same_protocol};
ghost use Rattle.port_runs.specs.Ports.{is_in_run};
ghost use Rattle.pcp_base.specs.States.{State};
ghost use Rattle.pcp_base.specs.Reached.{IsReached};
ghost use Rattle.external_pool.specs.Holdings.{emptied};
ghost use Rattle.external_pool.specs.Calls.{IsAsk};
ghost use Rattle.external_pool.specs.Choosing.{GoesBack, IsLongest};
ghost use Rattle.lease_store.specs.declared.terms.Terms.{Terms};
ghost use Rattle.lease_store.specs.Picks.{pick_answer};
ghost use Rattle.leased_ports.specs.Leased.{AreLastEnds, IsLastEnd, IsPortsOf, IsOnTerms, OnlyEndsChange, as_settled, at_moment, end_of, fresh_ports, vacated, while_recent};
ghost use Rattle.port_spans.specs.Along as the;
ghost use Rattle.port_spans.specs.Along.{end_along};
ghost use Rattle.port_spans.specs.Runs.{run_at};
ghost use Rattle.port_spans.specs.declared.runs.Run.{Run};
ghost use Rattle.pcp_base.specs.declared.leases.End.{End};
ghost use Rattle.leased_ports.specs.Among.{runs_among};
ghost use Rattle.leased_ports.specs.Counts.{due_before, held_since, ports_due};
ghost use Rattle.leased_ports.specs.Plain.{held_now, is_plain, uses_now};
ghost use Rattle.leased_ports.specs.declared.plain.TheConstants.{PLAIN_STEPS};
ghost use Rattle.leased_ports.specs.declared.picks.TheConstants.{DUE_STEPS, SEARCH_STEPS};
ghost use Rattle.leased_ports.specs.declared.ports.TheConstants.{PICK_STEPS};
ghost use Rattle.leased_ports.specs.Falling.{NoneDue};
ghost use Rattle.leased_ports.specs.declared.falls.TheConstants.{MOST_RUNS, RUN_STEPS};
ghost use Rattle.leased_ports.specs.declared.steps.TheConstants.{FREE_STEPS, PUT_STEPS, TAKEN_STEPS};
ghost use Rattle.leased_ports.specs.Listed.{ends_come};
ghost use Rattle.leased_ports.specs.Kept.{IsOn, AreInStep, HaveBegun};
ghost use Rattle.leased_ports.specs.Steps.{AreAssigned, IsOwnRun, last_along, no_last};

use crate::falls::{see_to_all, see_to_some};
use crate::listing::{append_records, copy};
use crate::picks::{goes_back, seek};
use crate::plain::{first_over, is_one_port, lesser, one_port, start_of};
use crate::recent::recent_end;
use crate::steps::{free, insert, renew};
use crate::timed_ends::TimedEnds;
use expiry_wheel::Wheel;
use external_pool::{PickAsk, PickRefused, Picked, Vacancies, judge};
use pcp_base::{Address, End, Endpoint, Memory, Moment, Protocol};
use port_spans::{Run, spot, spot_of};
use record_sink::RecordSink;
use std::alloc::Global;
use std::marker::Model;
use std::sync::ledger::Ledger;
use step_count::Steps;

/// How many steps a pick takes at most, beside one for each port that is suggested and those for
/// what is due: twice 64 for the count of its address, one where nothing is due any more, and 113
/// for vacant ports.
pub const PICK_STEPS: u64 = 242;

/// The ports of an external address at the moment reached.
///
/// It is seen as the range, the quota, the moment, the one by which all that fell due is seen to,
/// and the runs of ports with their last ends. A port is held by its last endpoint until the end,
/// and for 120 seconds more it rests for it; then it is free, and its last end stays known until it
/// gets another. Ports that are given their last ends together are kept as one run, also in memory,
/// until a part of them gets others. What falls due is seen to a few runs at a time, and before a
/// pick as far as it may change what is picked.
#[derive(Drop)]
pub struct LeasedPorts {
    low: u16,
    high: u16,
    quota: u32,
    // The moment by which all that fell due is seen to.
    settled: u64,
    reached: u64,
    ends: TimedEnds,
    pool: Vacancies,
    wheel: Wheel,
}

impl Model for LeasedPorts {
    ghost use Rattle.leased_ports.specs.Leased.{Leased, leased};
    ghost use Rattle.leased_ports.specs.Kept.{IsKept};

    ghost Value = { Leased };

    ghost view = { λ a. leased a.low a.high a.quota a.settled a.reached a.ends };

    ghost invariant = { λ a.
        IsKept a.low a.high a.quota a.settled a.reached a.ends a.pool a.wheel };
}

/// Whether both last ends are of the same port and endpoint.
fn same_port(before: &End, last: &End) -> bool
    ensures same { OnTrue result (before.now ≡ record last.now { end = before.now.end }) }
    ensures other { OnFalse result (before.now ≡ record last.now { end = before.now.end } → ⊥) }
{
    before.endpoint == last.endpoint && before.external == last.external
}

/// The run of exactly these ports and endpoints, if there is one.
fn own_run(ends: &TimedEnds, first: &End, count: u32) -> Option<Run<End>>
    ensures some { IfSome result (IsOwnRun ends.now first.now count) }
    ensures none { IfNone result ((run : Run End) →
        IsOwnRun ends.now first.now count run → ⊥) }
{
    let from = spot_of(first);
    let Some(run) = ends.run_at(from) else {
        return None;
    };
    if run.first != from {
        return None;
    }
    if run.count != count {
        return None;
    }
    if same_port(&run.value, first) {
        return Some(run);
    }
    None
}

/// Gives ports in a row these last ends, and uses them so. Where memory is wanting, nothing is said
/// but the pool's range.
fn assign<L: Ledger>(
    pool: &mut Vacancies,
    wheel: &mut Wheel,
    ends: &mut TimedEnds,
    alloc: Global,
    first: &End,
    count: u32,
    reached: u64,
    steps: &mut Steps<L>,
) -> Result<(), Memory>
    requires in_step { AreInStep ends.old pool.old wheel.old }
    requires begun { HaveBegun reached ends.old wheel.old }
    requires last { AreLastEnds first.now count }
    ensures on { (low high most : ℕ) →
        IsOn pool.old low high most → IsOn pool.new low high most }
    ensures late { OnOk result ((seen : ℕ) → seen ≤ reached →
        NoneDue seen wheel.old → NoneDue seen wheel.new) }
    ensures ok { OnOk result (AreAssigned reached ends.old first.now.endpoint.protocol
        first.now.external count (last_along first.now) ends.new pool.new wheel.new) }
    ensures run { OnOk result (run_at ends.new (the.spot_of first.now)
        ≡ Some (record { first = the.spot_of first.now; count = count; value = first.now })) }
    ensures behind { OnOk result ((n : ℕ) → runs_among ends.new (the.spot_of first.now + count) n
        ≡ runs_among ends.old (the.spot_of first.now + count) n) }
    ensures own { (run : Run End) → IsOwnRun ends.old first.now count run →
        steps.new ≤ steps.old + PUT_STEPS }
    ensures steps { steps.new
        ≤ steps.old + PUT_STEPS + TAKEN_STEPS * runs_among ends.old (the.spot_of first.now) count }
{
    steps.tick();
    if let Some(run) = own_run(ends, first, count) {
        return renew(pool, wheel, ends, alloc, &run, first, reached, steps);
    }
    let run = Run {
        first: spot_of(first),
        count,
        value: *first,
    };
    free(pool, wheel, ends, alloc, run.first, count, steps)?;
    insert(pool, wheel, ends, alloc, &run, reached, steps)
}

/// Frees ports in a row. Where memory is wanting, nothing is said but the pool's range.
fn release<L: Ledger>(
    pool: &mut Vacancies,
    wheel: &mut Wheel,
    ends: &mut TimedEnds,
    alloc: Global,
    protocol: Protocol,
    start: u16,
    count: u32,
    steps: &mut Steps<L>,
) -> Result<(), Memory>
    requires in_step { AreInStep ends.old pool.old wheel.old }
    requires within { start + count ≤ 65536 }
    ensures on { (low high most : ℕ) →
        IsOn pool.old low high most → IsOn pool.new low high most }
    ensures late { OnOk result ((seen : ℕ) →
        NoneDue seen wheel.old → NoneDue seen wheel.new) }
    ensures ok { (m : ℕ) → HaveBegun m ends.old wheel.old →
        OnOk result (AreAssigned m ends.old protocol start count no_last
        ends.new pool.new wheel.new) }
    ensures behind { OnOk result ((n : ℕ) → runs_among ends.new (the.spot protocol start + count) n
        ≡ runs_among ends.old (the.spot protocol start + count) n) }
    ensures steps { steps.new
        ≤ steps.old + FREE_STEPS
        + TAKEN_STEPS * runs_among ends.old (the.spot protocol start) count }
{
    free(
        pool,
        wheel,
        ends,
        alloc,
        spot(protocol, start),
        count,
        steps,
    )
}

/// How many ports one is, of these external and internal ones.
fn single(_external: u16, _internal: u16) -> u32
    ensures one { result ≡ 1 }
    ensures external { _external + result ≤ 65536 }
    ensures internal { _internal + result ≤ 65536 }
{
    1
}

/// Forgets all ports.
fn vacate(pool: &mut Vacancies, wheel: &mut Wheel, ends: &mut TimedEnds)
    ensures pool { pool.new ≡ emptied pool.old }
    ensures wheel { wheel.new ≡ fin.empty }
    ensures ends { ends.new ≡ [] }
{
    pool.clear();
    wheel.clear();
    ends.clear();
}

impl LeasedPorts {
    /// The ports from `low` to `high` of both protocols, of which none is held or rests, at the
    /// moment 0. No address may own more ports than the quota. The one error is want of memory.
    pub fn new(alloc: Global, low: u16, high: u16, quota: u32) -> Result<LeasedPorts, Memory>
        requires some { 1 ≤ low }
        requires ordered { low ≤ high }
        ensures { IfOk result (λ ports. ports ≡ fresh_ports low high quota) }
    {
        Ok(LeasedPorts {
            low,
            high,
            quota,
            settled: 0,
            reached: 0,
            ends: TimedEnds::new(alloc)?,
            pool: Vacancies::new(alloc, low, high, quota)?,
            wheel: Wheel::new(alloc)?,
        })
    }

    /// Begins anew, at the moment 0. It takes no memory.
    pub fn clear(&mut self)
        ensures { self.new ≡ vacated self.old }
    {
        vacate(&mut self.pool, &mut self.wheel, &mut self.ends);
        self.settled = 0;
        self.reached = 0;
    }

    /// Moves on to a moment that isn't below the one reached. Of the runs of ports that go to rest
    /// or awake by then it sees to two at most, whatever falls due; the others wait for later
    /// calls. Where something falls due at fewer ports, it sees to all. One step is taken where
    /// nothing falls due, and steps for each run that is seen to. It takes no memory.
    pub fn reach<L: Ledger>(&mut self, m: Moment, steps: &mut Steps<L>)
        requires { self.old.reached ≤ m }
        ensures moved { self.new
            ≡ record (at_moment m self.old) { settled = self.new.settled } }
        ensures from { self.old.settled ≤ self.new.settled }
        ensures all { ports_due (at_moment m self.old) < MOST_RUNS → self.new.settled ≡ m }
        ensures steps { steps.new ≤ steps.old + (23 + RUN_STEPS) * MOST_RUNS }
        ensures few { steps.new
            ≤ steps.old + 1 + (23 + RUN_STEPS) * ports_due (at_moment m self.old) }
    {
        let now = m.get();
        self.settled = see_to_some(
            &mut self.pool,
            &mut self.wheel,
            &self.ends,
            self.settled,
            now,
            steps,
        );
        self.reached = now;
    }

    /// Sees to all runs of ports that go to rest or awake by the moment reached, so that nothing is
    /// left to [`LeasedPorts::pick`] at this moment. It takes no memory. One step is taken where
    /// nothing is due, and steps for each such run, so for no more runs than ports at which
    /// something fell due since all was seen to last.
    pub fn settle<L: Ledger>(&mut self, steps: &mut Steps<L>)
        ensures settled { self.new ≡ as_settled self.old }
        ensures from { self.old.settled ≤ self.new.settled }
        ensures steps { steps.new ≤ steps.old + 1 + (23 + RUN_STEPS) * ports_due self.old }
    {
        see_to_all(
            &mut self.pool,
            &mut self.wheel,
            &self.ends,
            self.settled,
            self.reached,
            steps,
        );
        self.settled = self.reached;
    }

    /// Gives a port this last end: it is held for the endpoint until then, and rests for it after.
    /// Where memory is wanting, all ports are forgotten, as by `clear`. It takes a constant number
    /// of steps.
    pub fn put<L: Ledger>(
        &mut self,
        alloc: Global,
        last: &End,
        steps: &mut Steps<L>,
    ) -> Result<(), Memory>
        requires { IsLastEnd last.now }
        ensures ok { OnOk result (OnlyEndsChange self.old self.new) }
        ensures ports { OnOk result ((protocol : Protocol) (port : ℕ) →
            end_of self.new protocol port
            ≡ (if is_end_of protocol port last.now then Some last.now
            else end_of self.old protocol port)) }
        ensures err { OnErr result (self.new ≡ vacated self.old) }
        ensures steps { steps.new ≤ steps.old + PUT_STEPS + TAKEN_STEPS }
    {
        let one = single(last.external, last.endpoint.port);
        self.put_run(alloc, last, one, steps)
    }

    /// Gives `count` ports in a row their last ends: the first this one, and each behind it the one
    /// whose ports are as many behind those of the first. So they are held for their endpoints
    /// until then, and rest for them after. Where these ports and endpoints are a run already, it
    /// gets another moment in a constant number of steps, however many they are; its ports are
    /// marked anew, which isn't counted, where it comes into another phase. Else steps are taken
    /// for each run that has one of these ports. Where memory is wanting, all ports are forgotten,
    /// as by `clear`.
    pub fn put_run<L: Ledger>(
        &mut self,
        alloc: Global,
        first: &End,
        count: u32,
        steps: &mut Steps<L>,
    ) -> Result<(), Memory>
        requires { AreLastEnds first.now count }
        ensures ok { OnOk result (OnlyEndsChange self.old self.new) }
        ensures ports { OnOk result ((protocol : Protocol) (port : ℕ) →
            end_of self.new protocol port
            ≡ (if same_protocol first.now.endpoint.protocol protocol
            && is_in_run first.now.external count port
            then Some (end_along (port - first.now.external) first.now)
            else end_of self.old protocol port)) }
        ensures run { OnOk result (run_at self.new.runs (the.spot_of first.now)
            ≡ Some (record { first = the.spot_of first.now; count = count; value = first.now })) }
        ensures behind { OnOk result ((n : ℕ) →
            runs_among self.new.runs (the.spot_of first.now + count) n
            ≡ runs_among self.old.runs (the.spot_of first.now + count) n) }
        ensures err { OnErr result (self.new ≡ vacated self.old) }
        ensures own { (run : Run End) → IsOwnRun self.old.runs first.now count run →
            steps.new ≤ steps.old + PUT_STEPS }
        ensures steps { steps.new ≤ steps.old + PUT_STEPS
            + TAKEN_STEPS * runs_among self.old.runs (the.spot_of first.now) count }
    {
        let Err(refused) = assign(
            &mut self.pool,
            &mut self.wheel,
            &mut self.ends,
            alloc,
            first,
            count,
            self.reached,
            steps,
        ) else {
            return Ok(());
        };
        vacate(&mut self.pool, &mut self.wheel, &mut self.ends);
        self.settled = 0;
        self.reached = 0;
        Err(refused)
    }

    /// Takes the last ends from `count` ports in a row: they are free. Steps are taken for each run
    /// that has one of these ports. Where memory is wanting, all ports are forgotten, as by
    /// `clear`.
    pub fn free_run<L: Ledger>(
        &mut self,
        alloc: Global,
        protocol: Protocol,
        start: u16,
        count: u32,
        steps: &mut Steps<L>,
    ) -> Result<(), Memory>
        requires { start + count ≤ 65536 }
        ensures ok { OnOk result (OnlyEndsChange self.old self.new) }
        ensures ports { OnOk result ((other : Protocol) (port : ℕ) →
            end_of self.new other port
            ≡ (if same_protocol protocol other && is_in_run start count port then None
            else end_of self.old other port)) }
        ensures behind { OnOk result ((n : ℕ) →
            runs_among self.new.runs (the.spot protocol start + count) n
            ≡ runs_among self.old.runs (the.spot protocol start + count) n) }
        ensures err { OnErr result (self.new ≡ vacated self.old) }
        ensures steps { steps.new ≤ steps.old + FREE_STEPS
            + TAKEN_STEPS * runs_among self.old.runs (the.spot protocol start) count }
    {
        let Err(refused) = release(
            &mut self.pool,
            &mut self.wheel,
            &mut self.ends,
            alloc,
            protocol,
            start,
            count,
            steps,
        ) else {
            return Ok(());
        };
        vacate(&mut self.pool, &mut self.wheel, &mut self.ends);
        self.settled = 0;
        self.reached = 0;
        Err(refused)
    }

    /// The last end of a port, where it is held or rests.
    pub fn last_end(&self, protocol: Protocol, port: u16) -> Option<End>
        ensures { result ≡ while_recent self.now.reached (end_of self.now protocol port) }
    {
        recent_end(&self.ends, protocol, port, self.reached)
    }

    /// The last ends that came by `m` and are recent then, in the order of protocol number and
    /// port. The one error is want of memory.
    pub fn copy_ends(&self, alloc: Global, m: Moment) -> Result<Vec<End>, Memory>
        ensures { IfOk result (λ all. all.items ≡ ends_come m self.now) }
    {
        copy(&self.ends, alloc, m)
    }

    /// Hands on a record at `m` for each last end that came by `m` and is recent then, in the order
    /// of protocol number and port. The one error is want of memory.
    pub fn add_end_records<K: RecordSink>(&self, m: Moment, out: &mut K) -> Result<(), Memory>
        requires { AllByRecursion IsWellFormedRecord (map (end_record m) (ends_come m self.now)) }
        ensures { OnOk result (K.taken out.new
            ≡ K.taken out.old ++ map (end_record m) (ends_come m self.now)) }
    {
        append_records(&self.ends, m, out)
    }

    /// Whether the quota leaves this many ports to an address by the counts, which may have ports
    /// that rest by now.
    fn has_room<L: Ledger>(&self, who: &Address, most: u32, steps: &mut Steps<L>) -> bool
        requires some { 1 ≤ most }
        ensures yes { OnTrue result (held_now self.now who.now + most ≤ self.now.quota) }
        ensures no { OnFalse result (self.now.quota < held_since self.now who.now + most) }
        ensures steps { steps.new ≤ steps.old + 64 }
    {
        let Ok(left) = self.pool.room_for(who, steps) else {
            return false;
        };
        most <= left
    }

    /// Whether an address is below the quota by the counts, which may have ports that rest by now.
    fn is_below_quota<L: Ledger>(&self, who: &Address, steps: &mut Steps<L>) -> bool
        ensures yes { OnTrue result (held_now self.now who.now < self.now.quota) }
        ensures no { OnFalse result (self.now.quota ≤ held_since self.now who.now) }
        ensures steps { steps.new ≤ steps.old + 64 }
    {
        self.pool.is_below_quota(who, steps)
    }

    /// How many ports, of at most so many, the quota leaves to an address where all that is due is
    /// seen to. Where it has its quota, how many it has.
    fn room_left<L: Ledger>(
        &self,
        who: &Address,
        most: u32,
        steps: &mut Steps<L>,
    ) -> Result<u32, u32>
        requires settled { self.now.settled ≡ self.now.reached }
        ensures below { IfOk result (λ _. held_now self.now who.now < self.now.quota) }
        ensures room { IfOk result (λ room.
            room ≡ min most (self.now.quota - held_now self.now who.now)) }
        ensures owned { IfErr result (λ owned. owned ≡ held_now self.now who.now) }
        ensures full { IfErr result (λ owned. self.now.quota ≤ owned) }
        ensures steps { steps.new ≤ steps.old + 64 }
    {
        match self.pool.room_for(who, steps) {
            Ok(left) => Ok(most.min(left)),
            Err(owned) => Err(owned),
        }
    }

    /// Whether ports are suggested, and `n` from the suggested one on go back to their endpoints.
    fn goes_back<L: Ledger>(
        &self,
        endpoint: &Endpoint,
        ask: &PickAsk,
        n: u32,
        steps: &mut Steps<L>,
    ) -> bool
        ensures some { OnTrue result (ask.now.suggested ≢ 0) }
        ensures back { OnTrue result (GoesBack (uses_now self.now endpoint.now.protocol)
            endpoint.now.address endpoint.now.port ask.now.parity ask.now.suggested n) }
        ensures other { OnFalse result ((ask.now.suggested ≡ 0)
            ⊎ (¬ GoesBack (uses_now self.now endpoint.now.protocol)
            endpoint.now.address endpoint.now.port ask.now.parity ask.now.suggested n)) }
        ensures steps { steps.new ≤ steps.old + n }
    {
        let ends = &self.ends;
        let (low, high, m) = (self.low, self.high, self.reached);
        if ask.suggested == 0 {
            return false;
        }
        goes_back(
            ends,
            low,
            high,
            m,
            endpoint,
            ask.suggested,
            n,
            ask.parity,
            steps,
        )
    }

    /// The first vacant port of a protocol, though what is due isn't seen to. The pool alone knows it
    /// where nothing is.
    fn first_vacant<L: Ledger>(&self, protocol: Protocol, steps: &mut Steps<L>) -> Option<Picked>
        ensures first { IsLongest (uses_now self.now protocol) None 1 result }
        ensures steps { steps.new ≤ steps.old + SEARCH_STEPS }
    {
        let known = self.pool.longest(protocol, 1, None, steps);
        if self.settled == self.reached {
            return known;
        }
        let (low, high, m) = (self.low, self.high, self.reached);
        let over = first_over(&self.ends, low, high, m, protocol, steps);
        one_port(lesser(start_of(known), over))
    }

    /// The longest run of vacant ports of a protocol, of at most `room`, and of these the one with
    /// the least start. What is due is seen to as far as it may change that.
    fn seek<L: Ledger>(
        &mut self,
        protocol: Protocol,
        room: u32,
        parity: Option<u8>,
        steps: &mut Steps<L>,
    ) -> Option<Picked>
        ensures same { self.new ≡ self.old }
        ensures longest { IsLongest (uses_now self.old protocol) parity room result }
        ensures steps { steps.new ≤ steps.old + SEARCH_STEPS + DUE_STEPS * ports_due self.old }
        ensures near { IfSome result (λ run. run.count ≡ room → steps.new ≤ steps.old
            + SEARCH_STEPS + DUE_STEPS * due_before self.old protocol (run.start + run.count)) }
    {
        seek(
            &mut self.pool,
            &mut self.wheel,
            &self.ends,
            self.high,
            self.reached,
            protocol,
            room,
            parity,
            steps,
        )
    }

    /// The same, without a look at what is due where it is one port of any parity.
    fn longest<L: Ledger>(
        &mut self,
        protocol: Protocol,
        room: u32,
        parity: Option<u8>,
        steps: &mut Steps<L>,
    ) -> Option<Picked>
        ensures same { self.new ≡ self.old }
        ensures longest { IsLongest (uses_now self.old protocol) parity room result }
        ensures steps { steps.new ≤ steps.old + SEARCH_STEPS + DUE_STEPS * ports_due self.old }
        ensures near { IfSome result (λ run. run.count ≡ room → steps.new ≤ steps.old
            + SEARCH_STEPS + DUE_STEPS * due_before self.old protocol (run.start + run.count)) }
        ensures plain { room ≡ 1 → parity ≡ None → steps.new ≤ steps.old + SEARCH_STEPS }
    {
        if is_one_port(room, parity) {
            return self.first_vacant(protocol, steps);
        }
        self.seek(protocol, room, parity, steps)
    }

    /// The answer to an ask with the room that the quota leaves.
    fn pick_with<L: Ledger>(
        &mut self,
        endpoint: &Endpoint,
        ask: &PickAsk,
        room: u32,
        steps: &mut Steps<L>,
    ) -> Result<Picked, PickRefused>
        requires ask { IsAsk ask.now }
        requires internal { ask.now.internal ≡ endpoint.now.port }
        requires below { held_now self.old endpoint.now.address < self.old.quota }
        requires room { room ≡ min ask.now.room
            (self.old.quota - held_now self.old endpoint.now.address) }
        ensures same { self.new ≡ self.old }
        ensures pick { (terms : Terms) (s : State) →
            IsReached s → IsPortsOf self.old s → IsOnTerms self.old terms →
            result ≡ pick_answer terms s self.old.reached endpoint.now ask.now }
        ensures steps { steps.new
            ≤ steps.old + SEARCH_STEPS + ask.now.room + DUE_STEPS * ports_due self.old }
        ensures near { IfOk result (λ run. run.count ≡ room → steps.new
            ≤ steps.old + SEARCH_STEPS + room
            + DUE_STEPS * due_before self.old endpoint.now.protocol (run.start + run.count)) }
        ensures plain { OnTrue (is_plain ask.now) (steps.new ≤ steps.old + SEARCH_STEPS + 1) }
    {
        if self.goes_back(endpoint, ask, room, steps) {
            return judge(
                ask,
                Some(Picked {
                    start: ask.suggested,
                    count: room,
                }),
            );
        }
        let choice = self.longest(endpoint.protocol, room, ask.parity, steps);
        judge(ask, choice)
    }

    /// The answer to an ask where all that is due is seen to first, since the counts don't leave
    /// what it has room for.
    fn pick_settled<L: Ledger>(
        &mut self,
        endpoint: &Endpoint,
        ask: &PickAsk,
        steps: &mut Steps<L>,
    ) -> Result<Picked, PickRefused>
        requires ask { IsAsk ask.now }
        requires internal { ask.now.internal ≡ endpoint.now.port }
        ensures settled { self.new ≡ as_settled self.old }
        ensures from { self.old.settled ≤ self.new.settled }
        ensures pick { (terms : Terms) (s : State) →
            IsReached s → IsPortsOf self.old s → IsOnTerms self.old terms →
            result ≡ pick_answer terms s self.old.reached endpoint.now ask.now }
        ensures steps { steps.new ≤ steps.old + 65 + SEARCH_STEPS + ask.now.room
            + (23 + RUN_STEPS) * ports_due self.old }
    {
        self.settle(steps);
        match self.room_left(&endpoint.address, ask.room, steps) {
            Ok(room) => self.pick_with(endpoint, ask, room, steps),
            Err(owned) => Err(PickRefused::Quota(owned)),
        }
    }

    /// Whether an address holds as many ports as the quota allows. Where it is below that by the counts
    /// nothing else is looked at, else all that is due is seen to first, as by
    /// [`settle`](LeasedPorts::settle). It takes no memory.
    pub fn is_at_quota<L: Ledger>(&mut self, who: &Address, steps: &mut Steps<L>) -> bool
        ensures moved { self.new ≡ record self.old { settled = self.new.settled } }
        ensures from { self.old.settled ≤ self.new.settled }
        ensures quota { (terms : Terms) (s : State) →
            IsReached s → IsPortsOf self.old s → IsOnTerms self.old terms →
            result ≡ nat_le terms.quota (owned s.table self.old.reached who.now) }
        ensures plain { held_since self.old who.now < self.old.quota →
            steps.new ≤ steps.old + 64 }
        ensures kept { held_since self.old who.now < self.old.quota → self.new ≡ self.old }
        ensures steps { steps.new
            ≤ steps.old + 129 + (23 + RUN_STEPS) * ports_due self.old }
    {
        if self.is_below_quota(who, steps) {
            return false;
        }
        self.settle(steps);
        match self.room_left(who, 1, steps) {
            Ok(_left) => false,
            Err(_owned) => true,
        }
    }

    /// The ports that would be given, the first one to this endpoint. They are those suggested,
    /// where each of them is open to the endpoint that it would go to and the first meets the
    /// parity asked. Else they are the longest run of vacant ports whose first meets it, of at most
    /// the room and of what the quota leaves, and of these runs the one with the least start. The
    /// refusal is the first of [`PickRefused`] that applies. It takes no memory.
    ///
    /// Where the counts leave the address what the ask has room for, no run is seen to that begins
    /// behind the picked ports, if these are all that there is room for, and none at all for one
    /// port of any parity. Else all that is due is seen to first, as by
    /// [`settle`](LeasedPorts::settle). The counts have at most the ports whose last ends are the
    /// address's own and come after the moment by which all was seen to. The bounds have `room`
    /// steps for ports that are suggested, also where none is.
    pub fn pick<L: Ledger>(
        &mut self,
        endpoint: &Endpoint,
        ask: &PickAsk,
        steps: &mut Steps<L>,
    ) -> Result<Picked, PickRefused>
        requires ask { IsAsk ask.now }
        requires internal { ask.now.internal ≡ endpoint.now.port }
        ensures moved { self.new ≡ record self.old { settled = self.new.settled } }
        ensures from { self.old.settled ≤ self.new.settled }
        ensures pick { (terms : Terms) (s : State) →
            IsReached s → IsPortsOf self.old s → IsOnTerms self.old terms →
            result ≡ pick_answer terms s self.old.reached endpoint.now ask.now }
        ensures plain { OnTrue (is_plain ask.now)
            (held_since self.old endpoint.now.address < self.old.quota →
            steps.new ≤ steps.old + PLAIN_STEPS) }
        ensures kept { OnTrue (is_plain ask.now)
            (held_since self.old endpoint.now.address < self.old.quota → self.new ≡ self.old) }
        ensures near { IfOk result (λ run.
            held_since self.old endpoint.now.address + ask.now.room ≤ self.old.quota →
            run.count ≡ ask.now.room →
            steps.new ≤ steps.old + PLAIN_STEPS + ask.now.room
            + DUE_STEPS * due_before self.old endpoint.now.protocol (run.start + run.count)) }
        ensures steps { steps.new
            ≤ steps.old + PICK_STEPS + ask.now.room + DUE_STEPS * ports_due self.old }
    {
        if !self.has_room(&endpoint.address, ask.room, steps) {
            return self.pick_settled(endpoint, ask, steps);
        }
        self.pick_with(endpoint, ask, ask.room, steps)
    }
}
