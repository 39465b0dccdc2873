//! Runs of which each device call in turn is the last one.

use crate::acts::{Seen, Went};
use crate::doings::{Done, done_of, run};
use crate::runs::{Run, long, short};
use crate::sides::{NOTHING, stopped, stopping};
use lease_disk::{DiskPair, MemoryDisk};
use std::alloc::Global;
use std::test::Fail;

/// Whether this may stand where so many steps were answered, if the opening went well: all of them
/// are in it.
fn may_stand(run: &Run, done: Option<usize>, stands: &Seen) -> bool {
    match done {
        Some(done) => {
            run.states.get(done) == Some(stands)
                || run.states.get(done.saturating_add(1)) == Some(stands)
        }
        None => {
            run.states.first() == Some(stands) || run.before.iter().any(|state| state == stands)
        }
    }
}

/// Whether each image of the sides is one that may stand.
fn are_left(
    alloc: Global,
    tried: &Run,
    pair: &DiskPair<MemoryDisk>,
    done: Option<usize>,
) -> Result<bool, Fail> {
    for choice in 0..3 {
        let image = stopped(alloc, pair, choice)?;
        let Some(stands) = done_of(alloc, image, 2000, &[])?.stands else {
            return Ok(false);
        };
        if !may_stand(tried, done, &stands) {
            return Ok(false);
        }
    }
    Ok(true)
}

/// How many steps were answered, if the opening went well.
fn answered(done: &Done) -> Option<usize> {
    match done.found {
        Some(_) => Some(done.done),
        None => None,
    }
}

/// Does the run where this device call of a side is the last one. Whether that leaves what it may,
/// and whether the run went to its end.
fn stop(alloc: Global, tried: &Run, stops_b: bool, call: u64) -> Result<(bool, bool), Fail> {
    let pair = stopping(alloc, tried.side, NOTHING, stops_b, call)?;
    let (done, pair) = run(alloc, pair, tried.at, tried.steps)?;
    let kept = done.went != Went::Otherwise && are_left(alloc, tried, &pair, answered(&done))?;
    Ok((kept, done.went == Went::AsSaid))
}

/// Stops the run at each device call of a side. The first one at which that leaves what it may not,
/// or after which there is no end; none where all is well.
fn first_lost(alloc: Global, tried: &Run, stops_b: bool) -> Result<Option<u64>, Fail> {
    for call in 0..2000 {
        if !stops_b && tried.is_skipped(call) {
            continue;
        }
        let (kept, ended) = stop(alloc, tried, stops_b, call)?;
        if !kept {
            return Ok(Some(call));
        }
        if ended {
            return Ok(None);
        }
    }
    Ok(Some(2000))
}

#[test]
fn stops(rt: HostRuntime) -> Result<(), Fail> {
    for stops_b in [false, true] {
        let lost = first_lost(rt.alloc(), &short(), stops_b)?;
        assert!(rt; lost == None, "side b {stops_b}, call {lost:?}");
    }
    Ok(())
}

#[test]
fn stops_of_a_long_run(rt: HostRuntime) -> Result<(), Fail> {
    for stops_b in [false, true] {
        let lost = first_lost(rt.alloc(), &long(), stops_b)?;
        assert!(rt; lost == None, "side b {stops_b}, call {lost:?}");
    }
    Ok(())
}
