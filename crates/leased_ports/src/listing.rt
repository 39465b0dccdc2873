//! The last ends of ports, one by one.

ghost use Rattle.std.specs.Prelude.{◌≡◌, ◌<◌, ◌^◌, ◌++◌, ℕ, filter, map, Some, IfSome, IfOk, OnOk};
ghost use Rattle.std.specs.List.{AllByRecursion};
ghost use Rattle.pcp_base.specs.Records.{IsWellFormedRecord};
ghost use Rattle.pcp_base.specs.Snapshots.{end_record};
ghost use Rattle.port_spans.specs.Along.{end_told};
ghost use Rattle.port_spans.specs.Runs.{AreRuns, run_at};
ghost use Rattle.port_spans.specs.declared.runs.TheConstants.{PLACES};
ghost use Rattle.leased_ports.specs.Kept.{IsSet};
ghost use Rattle.leased_ports.specs.Listed.{spot_end, listed};
ghost use Rattle.leased_ports.specs.Listed as the;

use crate::timed_ends::TimedEnds;
use pcp_base::{Change, End, Memory, Moment, REST_SECONDS, Record};
use port_spans::{PLACES, Run, end_along};
use record_sink::RecordSink;
use std::alloc::Global;

/// Whether a last end came by `m`, and is recent then.
fn has_come(m: Moment, last: &End) -> bool
    requires { last.now.end < 2 ^ 41 }
    ensures { result ≡ the.has_come m last.now }
{
    let now = m.get();
    last.end <= now && now < last.end + REST_SECONDS
}

/// Adds the last ends of a run.
fn push_ends(all: &mut Vec<End>, run: &Run<End>) -> Result<(), Memory>
    requires { IsSet run.now }
    ensures { OnOk result (all.new.items
        ≡ all.old.items ++ listed (λ at. end_told at (Some run.now)) run.now.first run.now.count) }
{
    for i in 0..run.count {
        all.push(end_along(i, &run.value))?;
    }
    Ok(())
}

/// Adds the last ends of a run, if they came by `m` and are recent then.
fn push_come(all: &mut Vec<End>, m: Moment, run: &Run<End>) -> Result<(), Memory>
    requires { IsSet run.now }
    ensures { OnOk result (all.new.items ≡ all.old.items ++ filter (the.has_come m)
        (listed (λ at. end_told at (Some run.now)) run.now.first run.now.count)) }
{
    let come = has_come(m, &run.value);
    if come {
        return push_ends(all, run);
    }
    Ok(())
}

/// The last ends that came by `m` and are recent then, in the order of their spots.
pub fn copy(ends: &TimedEnds, alloc: Global, m: Moment) -> Result<Vec<End>, Memory>
    requires apart { AreRuns ends.now }
    requires set { (at : ℕ) → IfSome (run_at ends.now at) IsSet }
    ensures { IfOk result (λ all. all.items
        ≡ filter (the.has_come m) (listed (spot_end ends.now) 0 PLACES)) }
{
    let mut all = Vec::new(alloc);
    let mut from = 0;
    while let Some(run) = ends.next_run(from, PLACES as u32) {
        push_come(&mut all, m, &run)?;
        from = run.first + run.count;
    }
    Ok(all)
}

/// Hands on a record at `m` for each last end of a run.
fn append_ends<K: RecordSink>(out: &mut K, m: Moment, run: &Run<End>) -> Result<(), Memory>
    requires set { IsSet run.now }
    requires formed { AllByRecursion IsWellFormedRecord (map (end_record m)
        (listed (λ at. end_told at (Some run.now)) run.now.first run.now.count)) }
    ensures { OnOk result (K.taken out.new ≡ K.taken out.old ++ map (end_record m)
        (listed (λ at. end_told at (Some run.now)) run.now.first run.now.count)) }
{
    for i in 0..run.count {
        let last = end_along(i, &run.value);
        out.take(&Record {
            moment: m,
            change: Change::Rest(last.endpoint, last.external, last.end),
        })?;
    }
    Ok(())
}

/// Hands them on, if they came by `m` and are recent then.
fn append_come<K: RecordSink>(out: &mut K, m: Moment, run: &Run<End>) -> Result<(), Memory>
    requires set { IsSet run.now }
    requires formed { AllByRecursion IsWellFormedRecord (map (end_record m)
        (filter (the.has_come m)
        (listed (λ at. end_told at (Some run.now)) run.now.first run.now.count))) }
    ensures { OnOk result (K.taken out.new ≡ K.taken out.old ++ map (end_record m)
        (filter (the.has_come m)
        (listed (λ at. end_told at (Some run.now)) run.now.first run.now.count))) }
{
    let come = has_come(m, &run.value);
    if come {
        return append_ends(out, m, run);
    }
    Ok(())
}

/// Hands on a record at `m` for each last end that came by `m` and is recent then, in the order of
/// their spots.
pub fn append_records<K: RecordSink>(ends: &TimedEnds, m: Moment, out: &mut K) -> Result<(), Memory>
    requires apart { AreRuns ends.now }
    requires set { (at : ℕ) → IfSome (run_at ends.now at) IsSet }
    requires formed { AllByRecursion IsWellFormedRecord (map (end_record m)
        (filter (the.has_come m) (listed (spot_end ends.now) 0 PLACES))) }
    ensures { OnOk result (K.taken out.new ≡ K.taken out.old ++ map (end_record m)
        (filter (the.has_come m) (listed (spot_end ends.now) 0 PLACES))) }
{
    let mut from = 0;
    while let Some(run) = ends.next_run(from, PLACES as u32) {
        append_come(out, m, &run)?;
        from = run.first + run.count;
    }
    Ok(())
}
