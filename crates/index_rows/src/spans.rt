//! Calls of values that are kept by runs of places, with answers that are worked out by hand.

ghost use Rattle.std.specs.Prelude.{◌≡◌, ◌≤◌, ◌+◌, ℕ, true, None};
ghost use Rattle.std.specs.Bool.{OnFalse, OnTrue};
ghost use Rattle.port_spans.specs.Runs as the;
ghost use Rattle.port_spans.specs.Runs.{has_place};

use Call::{At, Clear, Cut, Insert, Next, Remove, Set, Taken};
use pcp_base::Memory;
use port_spans::{PLACES, Run, Spans};
use std::alloc::Global;

/// How many places there are.
const ALL: u32 = PLACES as u32;

/// A call, with the run that is wanted: its first place, how many it has, and their value.
#[derive(Clone, Copy)]
enum Call {
    At(u32, Option<(u32, u32, u8)>),
    /// From a place on and before an end.
    Next(u32, u32, Option<(u32, u32, u8)>),
    /// A run of places that have no value.
    Insert(u32, u32, u8),
    /// A run of places of which one has a value.
    Taken(u32, u32),
    Cut(u32),
    Set(u32, u8),
    Remove(u32),
    Clear,
}

static INSERTED: [Call; 26] = [
    At(7, None),
    Next(0, 131_072, None),
    Insert(10, 4, 1),
    At(9, None),
    At(10, Some((10, 4, 1))),
    At(13, Some((10, 4, 1))),
    At(14, None),
    Next(0, 131_072, Some((10, 4, 1))),
    Next(10, 131_072, Some((10, 4, 1))),
    Next(11, 131_072, None),
    // It begins at the end of the stretch, or in it.
    Next(0, 10, None),
    Next(0, 11, Some((10, 4, 1))),
    Next(10, 10, None),
    Taken(13, 2),
    Taken(8, 3),
    // Neighbours aren't joined.
    Insert(14, 1, 1),
    At(14, Some((14, 1, 1))),
    Next(11, 131_072, Some((14, 1, 1))),
    // The last place that a run may have.
    Insert(131_071, 1, 3),
    At(131_071, Some((131_071, 1, 3))),
    Next(15, 131_072, Some((131_071, 1, 3))),
    Next(15, u32::MAX, Some((131_071, 1, 3))),
    Next(15, 131_071, None),
    Taken(131_071, 2),
    At(131_072, None),
    At(u32::MAX, None),
];

static CHANGED: [Call; 28] = [
    Insert(10, 4, 1),
    Cut(12),
    At(11, Some((10, 2, 1))),
    At(12, Some((12, 2, 1))),
    At(13, Some((12, 2, 1))),
    // No run has this place, and one begins there.
    Cut(9),
    Cut(12),
    At(10, Some((10, 2, 1))),
    At(13, Some((12, 2, 1))),
    Set(12, 5),
    At(11, Some((10, 2, 1))),
    At(13, Some((12, 2, 5))),
    // No run begins there.
    Set(13, 9),
    Remove(13),
    At(13, Some((12, 2, 5))),
    Remove(12),
    At(11, Some((10, 2, 1))),
    At(12, None),
    Next(11, 131_072, None),
    // A run in the place of one that went, and one more.
    Insert(13, 3, 7),
    Insert(20, 1, 8),
    At(12, None),
    At(11, Some((10, 2, 1))),
    At(15, Some((13, 3, 7))),
    At(20, Some((20, 1, 8))),
    Clear,
    At(13, None),
    Next(0, 131_072, None),
];

/// The run's parts.
fn told(run: Option<Run<u8>>) -> Option<(u32, u32, u8)> {
    let run = run?;
    Some((run.first, run.count, run.value))
}

/// Whether a place has a value.
fn has_value(spans: &Spans<u8>, place: u32) -> bool
    ensures { OnFalse result (the.run_at spans.now place ≡ None) }
{
    spans.run_at(place).is_some()
}

/// Whether none of these places has a value.
fn are_free(spans: &Spans<u8>, run: &Run<u8>) -> bool
    requires { run.now.first + run.now.count ≤ PLACES }
    ensures { OnTrue result ((at : ℕ) →
        has_place at run.now ≡ true → the.run_at spans.now at ≡ None) }
{
    for place in run.first..run.first + run.count {
        if has_value(spans, place) {
            return false;
        }
    }
    true
}

/// Gives a run of places its value, where none of them has one. Whether that is so.
fn is_inserted(spans: &mut Spans<u8>, run: Run<u8>) -> Result<bool, Memory> {
    if run.count == 0 || run.count > ALL || run.first > ALL - run.count {
        return Ok(false);
    }
    if !are_free(spans, &run) {
        return Ok(false);
    }
    spans.insert(run)?;
    Ok(true)
}

/// Makes a call. Whether it is answered so.
fn is_answered(spans: &mut Spans<u8>, call: &Call) -> Result<bool, Memory> {
    match *call {
        At(place, wanted) => return Ok(told(spans.run_at(place)) == wanted),
        Next(place, end, wanted) => return Ok(told(spans.next_run(place, end)) == wanted),
        Insert(first, count, value) => {
            return is_inserted(
                spans,
                Run {
                    first,
                    count,
                    value,
                },
            );
        }
        Taken(first, count) => {
            let run = Run {
                first,
                count,
                value: 0,
            };
            return Ok(!is_inserted(spans, run)?);
        }
        Cut(place) => spans.cut(place)?,
        Set(first, value) => spans.set_value(first, value),
        Remove(first) => spans.remove(first),
        Clear => spans.clear(),
    }
    Ok(true)
}

/// Makes calls, one after the other, from no value on. The first that is answered otherwise.
fn first_other(alloc: Global, calls: &[Call]) -> Result<Option<usize>, Memory> {
    let mut spans = Spans::new(alloc)?;
    for (number, call) in calls.iter().enumerate() {
        if !is_answered(&mut spans, call)? {
            return Ok(Some(number));
        }
    }
    Ok(None)
}

#[test]
fn runs_are_told_by_their_places(rt: HostRuntime) -> Result<(), Memory> {
    let other = first_other(rt.alloc(), &INSERTED)?;
    assert!(rt; other.is_none(), "{other:?}");
    Ok(())
}

#[test]
fn runs_are_cut_and_changed(rt: HostRuntime) -> Result<(), Memory> {
    let other = first_other(rt.alloc(), &CHANGED)?;
    assert!(rt; other.is_none(), "{other:?}");
    Ok(())
}
