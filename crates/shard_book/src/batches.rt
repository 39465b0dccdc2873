//! Deciding on the requests of a batch one after the other.
ghost use Rattle.std.specs.Prelude.{◌≡◌, ◌≤◌, ◌++◌, ◌∷◌, [], None, length, IfOk, IfSome, OnOk};
ghost use Rattle.std.specs.List.{AllByRecursion};
ghost use Rattle.pcp_base.specs.Apply.{apply_all};
ghost use Rattle.pcp_base.specs.Asks.{IsWellFormedAsk};
ghost use Rattle.pcp_base.specs.Fits.{AllFit, Fits};
ghost use Rattle.pcp_base.specs.Reached.{IsReached};
ghost use Rattle.lease_core.specs.Answers.{decision};
ghost use Rattle.lease_core.specs.Decide.{decide};
ghost use Rattle.shard_book.specs.Insides.{MayDecideAt};
ghost use Rattle.shard_book.specs.Batches.{answer_at, answers_at, decide_all, kept_before, records_kept, dated_of, with_kept};

use lease_core::{LeaseCore, decisions_fit, decisions_keep_owners};
use lease_store::LeaseStore;
use pcp_base::{Answer, Ask, Memory, Moment, Record};
use std::alloc::Global;
use std::slice;

/// What is answered to a request.
#[derive(Clone, Copy, Debug, PartialEq, Eq)]
pub struct Answered {
    /// When it was decided.
    pub moment: Moment,
    /// The base of the epoch that is told.
    pub base: Moment,
    pub answer: Answer,
    /// The record that was kept of the request, if any.
    pub kept: Option<Record>,
}

/// What a request is answered, when, and with which base; not what is kept of it.
#[derive(Clone, Copy, Debug, PartialEq, Eq)]
pub struct DatedAnswer {
    /// When it was decided.
    pub moment: Moment,
    /// The base of the epoch that is told.
    pub base: Moment,
    pub answer: Answer,
}

impl Answered {
    /// The answer, when, and with which base.
    pub fn dated(&self) -> DatedAnswer
        ensures { result ≡ dated_of self.now }
    {
        DatedAnswer {
            moment: self.moment,
            base: self.base,
            answer: self.answer,
        }
    }
}

/// What is decided on a batch.
#[derive(Drop)]
pub(crate) struct Batch {
    pub(crate) answers: Vec<Answered>,
    pub(crate) records: Vec<Record>,
}

/// Applies a record that fits, if there is one.
fn apply_kept<S: LeaseStore>(
    alloc: Global,
    core: &mut LeaseCore<S>,
    kept: &Option<Record>,
    m: Moment,
) -> Result<(), Memory>
    requires reached { IsReached (S.state core.old) }
    requires fits { IfSome kept.now (λ r. Fits (S.state core.old) r × (r.moment ≡ m)) }
    requires past { S.reached core.old ≤ m }
    ensures state { OnOk result (S.state core.new ≡ with_kept (S.state core.old) kept.now) }
    ensures past { OnOk result (S.reached core.new ≤ m) }
    ensures terms { S.terms core.new ≡ S.terms core.old }
{
    match kept {
        Some(kept) => core.apply(alloc, kept),
        None => Ok(()),
    }
}

/// Appends a record.
pub(crate) fn push(records: &mut Vec<Record>, kept: &Record) -> Result<(), Memory>
    ensures { OnOk result (records.new.items ≡ records.old.items ++ kept.now ∷ []) }
{
    records.extend_from_slice(slice::from_ref(kept))?;
    Ok(())
}

/// Appends a record, if there is one.
fn push_kept(records: &mut Vec<Record>, kept: &Option<Record>) -> Result<(), Memory>
    ensures { OnOk result (records.new.items ≡ records.old.items ++ kept_before kept.now []) }
{
    match kept {
        Some(kept) => push(records, kept),
        None => Ok(()),
    }
}

/// Decides on a request, and applies what is kept of it, which it leaves in `kept`.
pub(crate) fn decide_applied<S: LeaseStore>(
    alloc: Global,
    core: &mut LeaseCore<S>,
    ask: &Ask,
    m: Moment,
    kept: &mut Option<Record>,
) -> Result<Answer, Memory>
    requires ready { MayDecideAt (S.terms core.old) (S.state core.old) (S.reached core.old) m }
    requires ask { IsWellFormedAsk ask.now }
    requires none { kept.old ≡ None }
    ensures decided { IfOk result (λ answer. decision answer kept.new
        ≡ decide (S.terms core.old) (S.state core.old) m ask.now) }
    ensures kept { kept.new ≡ (decide (S.terms core.old) (S.state core.old) m ask.now).kept }
    ensures state { OnOk result (S.state core.new ≡ with_kept (S.state core.old)
        (decide (S.terms core.old) (S.state core.old) m ask.now).kept) }
    ensures fits { IfSome (decide (S.terms core.old) (S.state core.old) m ask.now).kept
        (Fits (S.state core.old)) }
    ensures ready { OnOk result
        (MayDecideAt (S.terms core.new) (S.state core.new) (S.reached core.new) m) }
    ensures address { OnOk result ((S.state core.new).address ≡ (S.state core.old).address) }
    ensures terms { S.terms core.new ≡ S.terms core.old }
{
    decisions_fit();
    decisions_keep_owners();
    let answer = core.decide_kept(ask, m, kept);
    apply_kept(alloc, core, kept, m)?;
    Ok(answer)
}

/// Decides on a request, applies what is kept of it, and appends both what is answered and the
/// record.
fn decide_one<S: LeaseStore>(
    alloc: Global,
    core: &mut LeaseCore<S>,
    ask: &Ask,
    m: Moment,
    base: Moment,
    batch: &mut Batch,
) -> Result<(), Memory>
    requires ready { MayDecideAt (S.terms core.old) (S.state core.old) (S.reached core.old) m }
    requires ask { IsWellFormedAsk ask.now }
    ensures answers { OnOk result (batch.new.answers.items ≡ batch.old.answers.items
        ++ answer_at m base (decide (S.terms core.old) (S.state core.old) m ask.now) ∷ []) }
    ensures records { OnOk result (batch.new.records.items ≡ batch.old.records.items
        ++ kept_before (decide (S.terms core.old) (S.state core.old) m ask.now).kept []) }
    ensures state { OnOk result (S.state core.new ≡ with_kept (S.state core.old)
        (decide (S.terms core.old) (S.state core.old) m ask.now).kept) }
    ensures fits { IfSome (decide (S.terms core.old) (S.state core.old) m ask.now).kept
        (Fits (S.state core.old)) }
    ensures ready { OnOk result
        (MayDecideAt (S.terms core.new) (S.state core.new) (S.reached core.new) m) }
    ensures address { OnOk result ((S.state core.new).address ≡ (S.state core.old).address) }
    ensures terms { S.terms core.new ≡ S.terms core.old }
{
    let mut kept = None;
    let answer = decide_applied(alloc, core, ask, m, &mut kept)?;
    push_kept(&mut batch.records, &kept)?;
    batch.answers.push(Answered {
        moment: m,
        base,
        answer,
        kept,
    })?;
    Ok(())
}

/// Decides on the requests at `m` one after the other. The answers tell this base.
pub(crate) fn decide_batch<S: LeaseStore>(
    alloc: Global,
    core: &mut LeaseCore<S>,
    asks: &[Ask],
    m: Moment,
    base: Moment,
) -> Result<Batch, Memory>
    requires ready { MayDecideAt (S.terms core.old) (S.state core.old) (S.reached core.old) m }
    requires asks { AllByRecursion IsWellFormedAsk asks.now }
    ensures answers { IfOk result (λ batch. batch.answers.items
        ≡ answers_at m base (decide_all (S.terms core.old) (S.state core.old) m asks.now)) }
    ensures records { IfOk result (λ batch. batch.records.items
        ≡ records_kept (decide_all (S.terms core.old) (S.state core.old) m asks.now)) }
    ensures state { IfOk result (λ batch. S.state core.new
        ≡ apply_all (S.state core.old) batch.records.items) }
    ensures fit { IfOk result (λ batch. AllFit (S.state core.old) batch.records.items) }
    ensures few { IfOk result (λ batch. length batch.records.items ≤ length asks.now) }
    ensures ready { OnOk result
        (MayDecideAt (S.terms core.new) (S.state core.new) (S.reached core.new) m) }
    ensures address { OnOk result ((S.state core.new).address ≡ (S.state core.old).address) }
    ensures terms { S.terms core.new ≡ S.terms core.old }
{
    let mut batch = Batch {
        answers: Vec::with_capacity(alloc, asks.len())?,
        records: Vec::new(alloc),
    };
    for ask in asks {
        decide_one(alloc, core, ask, m, base, &mut batch)?;
    }
    Ok(batch)
}
