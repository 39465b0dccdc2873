//! Runs of which each device call in turn fails.
ghost use Rattle.std.specs.Prelude.{◌≡◌, None, IfOk, IsSome};

use crate::acts::{Seen, Step, Went, act_all, what_stands};
use crate::doings::done_of;
use crate::opening::{Opened, moment, open};
use crate::requests::{Request, asks_of};
use crate::runs::{Run, long, short};
use crate::sides::failing;
use lease_disk::LeaseDisk;
use lease_store::LeaseStore;
use pcp_base::Moment;
use shard_book::{BookFault, LeaseBook, Standing, Unopened};
use std::alloc::Global;
use std::test::Fail;

/// Settles a book. What is said of the refused call, if that went well.
fn settle<D: LeaseDisk, S: LeaseStore + Drop>(
    alloc: Global,
    book: &mut LeaseBook<D, S>,
    m: Moment,
) -> Result<Option<Standing>, Fail>
    ensures { IfOk result (λ told. IsSome told → book.new.fault ≡ None) }
{
    match book.settle(alloc, m) {
        Ok(settled) => Ok(Some(settled.journal)),
        Err(_) => Ok(None),
    }
}

/// Asks a book, which settles it. It says nothing of the refused call, if that went well.
fn ask<D: LeaseDisk, S: LeaseStore + Drop>(
    alloc: Global,
    book: &mut LeaseBook<D, S>,
    m: Moment,
) -> Result<Option<Standing>, Fail>
    ensures { IfOk result (λ told. IsSome told → book.new.fault ≡ None) }
{
    let asks = asks_of(alloc, &Request::Announce, 1)?;
    match book.batch(alloc, &asks, m, moment(0)?) {
        Ok(_answers) => Ok(Some(Standing::Clean)),
        Err(_) => Ok(None),
    }
}

/// Settles a book by a call of this kind.
fn resume<D: LeaseDisk, S: LeaseStore + Drop>(
    alloc: Global,
    book: &mut LeaseBook<D, S>,
    now: u64,
    asks: bool,
) -> Result<Option<Standing>, Fail>
    ensures { IfOk result (λ told. IsSome told → book.new.fault ≡ None) }
{
    let m = moment(now)?;
    if asks {
        return ask(alloc, book, m);
    }
    settle(alloc, book, m)
}

/// The step to go on with, where this step was refused, and this is said and stands then: the step
/// again, or the next one. None where it may not stand.
fn next_step(run: &Run, refused: usize, told: Standing, stands: &Seen) -> Option<usize> {
    let next = refused.saturating_add(1);
    let is_in = run.states.get(next) == Some(stands);
    let is_out = run.states.get(refused) == Some(stands);
    let may_be_in = told != Standing::Out
        || matches!(run.steps.get(refused), Some((_, Step::Renewed(_))));
    if is_in && may_be_in {
        Some(next)
    } else if is_out && told != Standing::In {
        Some(refused)
    } else {
        None
    }
}

/// Whether the steps from this one on go as said, and leave what the run does.
fn is_finished<D: LeaseDisk, S: LeaseStore + Drop>(
    alloc: Global,
    book: &mut LeaseBook<D, S>,
    run: &Run,
    next: usize,
) -> Result<bool, Fail>
    requires { book.old.fault ≡ None }
{
    let rest = run.steps.get(next..).unwrap_or(&[]);
    let (_done, went) = act_all(alloc, book, rest)?;
    if went != Went::AsSaid {
        return Ok(false);
    }
    let stands = what_stands(alloc, book)?;
    Ok(run.states.last() == Some(&stands))
}

/// Whether the next call settles a book that refused this step, and all others go as said then.
fn is_resumed<D: LeaseDisk, S: LeaseStore + Drop>(
    alloc: Global,
    book: &mut LeaseBook<D, S>,
    run: &Run,
    refused: usize,
    asks: bool,
) -> Result<bool, Fail> {
    let Some((now, _step)) = run.steps.get(refused) else {
        return Ok(false);
    };
    let Some(told) = resume(alloc, book, *now, asks)? else {
        return Ok(false);
    };
    let stands = what_stands(alloc, book)?;
    let Some(next) = next_step(run, refused, told, &stands) else {
        return Ok(false);
    };
    is_finished(alloc, book, run, next)
}

/// What comes of a run in which a device call fails.
#[derive(Clone, Copy)]
enum Came {
    /// No call was refused.
    Unharmed,
    /// A call answered `Disk`, and the next one settled that.
    Mended,
    Otherwise,
}

fn mended_if(holds: bool) -> Came {
    if holds { Came::Mended } else { Came::Otherwise }
}

/// Does the steps in a book that was opened.
fn do_steps<D: LeaseDisk, S: LeaseStore + Drop>(
    alloc: Global,
    book: &mut LeaseBook<D, S>,
    run: &Run,
    asks: bool,
) -> Result<Came, Fail>
    requires { book.old.fault ≡ None }
{
    let (done, went) = act_all(alloc, book, run.steps)?;
    match went {
        Went::AsSaid => Ok(Came::Unharmed),
        Went::Refused(BookFault::Disk) => {
            Ok(mended_if(is_resumed(alloc, book, run, done, asks)?))
        }
        _ => Ok(Came::Otherwise),
    }
}

/// Opens the sides, where that was refused, and does the run.
fn open_again<D: LeaseDisk + Drop>(
    alloc: Global,
    unopened: Unopened<D>,
    run: &Run,
) -> Result<Came, Fail> {
    if unopened.fault != BookFault::Disk {
        return Ok(Came::Otherwise);
    }
    let done = done_of(alloc, unopened.pair, run.at, run.steps)?;
    Ok(mended_if(done.stands.as_ref() == run.states.last()))
}

/// Does the steps in a book, if it was opened.
fn do_opened<D: LeaseDisk + Drop, S: LeaseStore + Drop>(
    alloc: Global,
    opened: Opened<D, S>,
    run: &Run,
    asks: bool,
) -> Result<Came, Fail>
    requires { IfOk opened (λ opened. opened.0.fault ≡ None) }
{
    match opened {
        Ok((mut book, _found)) => do_steps(alloc, &mut book, run, asks),
        Err(unopened) => open_again(alloc, unopened, run),
    }
}

/// Does the run where this device call of a side fails.
fn fail(alloc: Global, run: &Run, fails_b: bool, call: u64, asks: bool) -> Result<Came, Fail> {
    let pair = failing(alloc, run.side, fails_b, call)?;
    do_opened(alloc, open(alloc, pair, run.at)?, run, asks)
}

/// Lets each device call of a side fail, and settles by a request or alone. The first one of which
/// something else comes, or after which there is no end; none where all is well.
fn first_harmed(
    alloc: Global,
    tried: &Run,
    fails_b: bool,
    asks: bool,
) -> Result<Option<u64>, Fail> {
    for call in 0..2000 {
        if !fails_b && tried.is_skipped(call) {
            continue;
        }
        match fail(alloc, tried, fails_b, call, asks)? {
            Came::Unharmed => return Ok(None),
            Came::Mended => {}
            Came::Otherwise => return Ok(Some(call)),
        }
    }
    Ok(Some(2000))
}

// Of which side a call fails, and whether a request comes then.
static WAYS: [(bool, bool); 4] = [(false, false), (false, true), (true, false), (true, true)];

#[test]
fn faults(rt: HostRuntime) -> Result<(), Fail> {
    for (fails_b, asks) in WAYS {
        let harmed = first_harmed(rt.alloc(), &short(), fails_b, asks)?;
        assert!(rt;
            harmed == None,
            "side b {fails_b}, asks {asks}, call {harmed:?}"
        );
    }
    Ok(())
}

#[test]
fn faults_of_a_long_run(rt: HostRuntime) -> Result<(), Fail> {
    for (fails_b, asks) in WAYS {
        let harmed = first_harmed(rt.alloc(), &long(), fails_b, asks)?;
        assert!(rt;
            harmed == None,
            "side b {fails_b}, asks {asks}, call {harmed:?}"
        );
    }
    Ok(())
}
