//! What is done with a book, and what comes of it.
ghost use Rattle.std.specs.Prelude.{◌≡◌, Ok, None, IfOk};
ghost use Rattle.book_rows.specs.declared.acts.Went.TheVariants.{AsSaid};

use crate::opening::moment;
use crate::requests::{Request, Told, asks_of, one_ask_of, told_of};
use lease_disk::LeaseDisk;
use lease_store::LeaseStore;
use pcp_base::{MapLease, Moment, epoch};
use shard_book::{Answered, BookFault, DatedAnswer, LeaseBook};
use std::alloc::Global;
use std::test::Fail;

/// What is done, and what comes of it.
#[derive(Clone, Copy)]
pub(crate) enum Step {
    /// A batch of a request alone, what is answered, and the epoch that is told.
    Asked(Request, Told, u32),
    /// The same, by the call that has no batch.
    Alone(Request, Told, u32),
    /// So many batches of 16 renewals of 10.0.0.5's port 5000.
    Renewed(u16),
    /// All leases are lost, of which so many were live.
    Lost(u32),
}

/// What came of a step.
#[derive(Clone, Copy, PartialEq, Eq)]
pub(crate) enum Went {
    AsSaid,
    Otherwise,
    Refused(BookFault),
}

/// What stands in a book: of its state the base, the last moment, how many leases there are, when
/// the first of them ends, and how many ends there are.
#[derive(Clone, Copy, PartialEq, Eq)]
pub(crate) struct Seen(
    pub(crate) u64,
    pub(crate) u64,
    pub(crate) u32,
    pub(crate) u64,
    pub(crate) usize,
);

fn went_if(holds: bool) -> Went {
    if holds { Went::AsSaid } else { Went::Otherwise }
}

fn is_answer(answer: &DatedAnswer, told: Told, seconds: u32) -> bool {
    told_of(&answer.answer) == told && epoch(answer.moment, answer.base) == seconds
}

fn is_told(answers: &[Answered], told: Told, seconds: u32) -> bool {
    match answers {
        [answered] => is_answer(&answered.dated(), told, seconds),
        _ => false,
    }
}

fn ask<D: LeaseDisk, S: LeaseStore + Drop>(
    alloc: Global,
    book: &mut LeaseBook<D, S>,
    m: Moment,
    request: &Request,
    told: Told,
    seconds: u32,
) -> Result<Went, Fail>
    ensures { result ≡ Ok AsSaid → book.new.fault ≡ None }
{
    let asks = asks_of(alloc, request, 1)?;
    match book.batch(alloc, &asks, m, moment(0)?) {
        Ok(answers) => Ok(went_if(is_told(&answers, told, seconds))),
        Err(fault) => Ok(Went::Refused(fault)),
    }
}

fn ask_alone<D: LeaseDisk, S: LeaseStore + Drop>(
    alloc: Global,
    book: &mut LeaseBook<D, S>,
    m: Moment,
    request: &Request,
    told: Told,
    seconds: u32,
) -> Result<Went, Fail>
    ensures { result ≡ Ok AsSaid → book.new.fault ≡ None }
{
    let ask = one_ask_of(alloc, request)?;
    match book.ask(alloc, &ask, m, moment(0)?) {
        Ok(answer) => Ok(went_if(is_answer(&answer, told, seconds))),
        Err(fault) => Ok(Went::Refused(fault)),
    }
}

fn renew<D: LeaseDisk, S: LeaseStore + Drop>(
    alloc: Global,
    book: &mut LeaseBook<D, S>,
    m: Moment,
    count: u16,
) -> Result<Went, Fail>
    requires { book.old.fault ≡ None }
    ensures { result ≡ Ok AsSaid → book.new.fault ≡ None }
{
    let asks = asks_of(alloc, &Request::Map(5, 5000, 3600, 0, 0), 16)?;
    for _ in 0..count {
        if let Err(fault) = book.batch(alloc, &asks, m, moment(0)?) {
            return Ok(Went::Refused(fault));
        }
    }
    Ok(Went::AsSaid)
}

fn lose<D: LeaseDisk, S: LeaseStore + Drop>(
    alloc: Global,
    book: &mut LeaseBook<D, S>,
    m: Moment,
    count: u32,
) -> Result<Went, Fail>
    ensures { result ≡ Ok AsSaid → book.new.fault ≡ None }
{
    match book.lose(alloc, m) {
        Ok(lost) => Ok(went_if(lost == count)),
        Err(fault) => Ok(Went::Refused(fault)),
    }
}

/// Does this at `now`.
pub(crate) fn act<D: LeaseDisk, S: LeaseStore + Drop>(
    alloc: Global,
    book: &mut LeaseBook<D, S>,
    now: u64,
    step: &Step,
) -> Result<Went, Fail>
    requires { book.old.fault ≡ None }
    ensures { result ≡ Ok AsSaid → book.new.fault ≡ None }
{
    let m = moment(now)?;
    match step {
        Step::Asked(request, told, seconds) => ask(alloc, book, m, request, *told, *seconds),
        Step::Alone(request, told, seconds) => {
            ask_alone(alloc, book, m, request, *told, *seconds)
        }
        Step::Renewed(count) => renew(alloc, book, m, *count),
        Step::Lost(count) => lose(alloc, book, m, *count),
    }
}

/// Does the steps one after the other, until one goes otherwise. How many went as said, and what
/// came of the next one.
pub(crate) fn act_all<D: LeaseDisk, S: LeaseStore + Drop>(
    alloc: Global,
    book: &mut LeaseBook<D, S>,
    steps: &[(u64, Step)],
) -> Result<(usize, Went), Fail>
    requires { book.old.fault ≡ None }
    ensures { IfOk result (λ done. done.1 ≡ AsSaid → book.new.fault ≡ None) }
{
    for (number, (now, step)) in steps.iter().enumerate() {
        let went = act(alloc, book, *now, step)?;
        if went != Went::AsSaid {
            return Ok((number, went));
        }
    }
    Ok((steps.len(), Went::AsSaid))
}

fn first_expiry(leases: &[MapLease]) -> u64 {
    match leases {
        [first, ..] => first.expiry,
        [] => 0,
    }
}

/// What stands in a book that is settled.
pub(crate) fn what_stands<D: LeaseDisk, S: LeaseStore + Drop>(
    alloc: Global,
    book: &LeaseBook<D, S>,
) -> Result<Seen, Fail>
    requires { book.now.fault ≡ None }
{
    let core = book.core();
    let last = core.last();
    let maps = core.maps(alloc, last)?;
    let ends = core.ends(alloc)?;
    Ok(Seen(
        book.base().get(),
        last.get(),
        core.leases(last),
        first_expiry(&maps),
        ends.len(),
    ))
}
