//! Whole runs: a book is opened, and steps are done one after the other.
ghost use Rattle.std.specs.Prelude.{◌≡◌, None, IfOk};

use crate::acts::{Seen, Step, Went, act_all, what_stands};
use crate::opening::{Opened, open};
use lease_disk::{DiskPair, LeaseDisk};
use lease_store::LeaseStore;
use shard_book::{Found, LeaseBook};
use std::alloc::Global;
use std::test::Fail;

/// What came of a run.
#[derive(Clone, Copy)]
pub(crate) struct Done {
    /// what was found, if the opening went well
    pub(crate) found: Option<Found>,
    pub(crate) renumbered: bool,
    /// how many steps went as said
    pub(crate) done: usize,
    /// what came of the step after them, or of the opening
    pub(crate) went: Went,
    /// what stands after all steps, if they went as said
    pub(crate) stands: Option<Seen>,
}

fn do_steps<D: LeaseDisk, S: LeaseStore + Drop>(
    alloc: Global,
    book: &mut LeaseBook<D, S>,
    found: Found,
    steps: &[(u64, Step)],
) -> Result<Done, Fail>
    requires { book.old.fault ≡ None }
{
    let renumbered = book.renumbered();
    let (done, went) = act_all(alloc, book, steps)?;
    let mut done = Done {
        found: Some(found),
        renumbered,
        done,
        went,
        stands: None,
    };
    if went == Went::AsSaid {
        done.stands = Some(what_stands(alloc, book)?);
    }
    Ok(done)
}

fn do_all<D: LeaseDisk + Drop, S: LeaseStore + Drop>(
    alloc: Global,
    opened: Opened<D, S>,
    steps: &[(u64, Step)],
) -> Result<(Done, DiskPair<D>), Fail>
    requires { IfOk opened (λ opened. opened.0.fault ≡ None) }
{
    match opened {
        Ok((mut book, found)) => {
            let done = do_steps(alloc, &mut book, found, steps)?;
            Ok((done, book.close()))
        }
        Err(unopened) => {
            let done = Done {
                found: None,
                renumbered: false,
                done: 0,
                went: Went::Refused(unopened.fault),
                stands: None,
            };
            Ok((done, unopened.pair))
        }
    }
}

/// Opens a book at `m`, and does the steps until one goes otherwise. What came of that, and the pair.
pub(crate) fn run<D: LeaseDisk + Drop>(
    alloc: Global,
    pair: DiskPair<D>,
    m: u64,
    steps: &[(u64, Step)],
) -> Result<(Done, DiskPair<D>), Fail> {
    do_all(alloc, open(alloc, pair, m)?, steps)
}

/// The same without the pair.
pub(crate) fn done_of<D: LeaseDisk + Drop>(
    alloc: Global,
    pair: DiskPair<D>,
    m: u64,
    steps: &[(u64, Step)],
) -> Result<Done, Fail> {
    let (done, _pair) = run(alloc, pair, m, steps)?;
    Ok(done)
}
