//! What workers ask of a house.
ghost use Rattle.std.specs.Prelude.{◌≡◌, ◌≤◌, [], length, IfOk, IfErr, OnOk, OnErr};
ghost use Rattle.std.specs.List.{AllByRecursion};
ghost use Rattle.lease_histories.specs.Routes.{route_of};
ghost use Rattle.job_queue.specs.declared.batches.TheConstants.{MOST_BATCH};
ghost use Rattle.job_workers.specs.HouseCalls.{AnswersBatchOf, HouseCalls, IsTold, LosesAllOf, RefusesBatchOf, RefusesLossOf, SplitsOff, StaysPass};

use lease_house::HouseFault;
use pcp_base::{Datagram, Memory, Moment};
use status_board::ShardNumbers;
use std::alloc::Global;
use std::sync::Wait;

/// A house of many threads, as its workers see it. A pass `P` is what one caller knows of the
/// history of an external address. Passes needn't be `Drop`.
pub trait JobHouse<P> {
    // What its calls do to passes.
    ghost calls: { Self → HouseCalls P };

    /// Answers the datagrams of a batch, which all go to the pass's external address. It gives the
    /// replies in order; silent datagrams have none.
    fn serve<R: Wait>(
        &self,
        rt: &R,
        alloc: Global,
        pass: &mut P,
        batch: &[Datagram],
        now: Moment,
    ) -> Result<Vec<Datagram>, HouseFault>
        requires pass { (calls self.now).is_pass pass.old }
        requires few { length batch.now ≤ MOST_BATCH }
        requires routed { AllByRecursion (λ d. route_of (calls self.now).config d
            ≡ (calls self.now).place_of pass.old) batch.now }
        ensures served { IfOk result (λ replies.
            AnswersBatchOf (calls self.now) now batch.now pass.old pass.new replies.items) }
        ensures refused { IfErr result
            (RefusesBatchOf (calls self.now) now batch.now pass.old pass.new) };

    /// Loses all leases of the pass's external address, and says how many were live.
    fn lose<R: Wait>(
        &self,
        rt: &R,
        alloc: Global,
        pass: &mut P,
        now: Moment,
    ) -> Result<u32, HouseFault>
        requires { (calls self.now).is_pass pass.old }
        ensures lost { IfOk result (λ _. LosesAllOf (calls self.now) now pass.old pass.new) }
        ensures refused { IfErr result (RefusesLossOf (calls self.now) now pass.old pass.new) };

    /// Counts what the pass's external address has at this moment. There is no count where memory was
    /// wanting for it. For all else it does as `serve` does with a batch without datagrams.
    fn count<R: Wait>(
        &self,
        rt: &R,
        alloc: Global,
        pass: &mut P,
        now: Moment,
    ) -> Result<Option<ShardNumbers>, HouseFault>
        requires { (calls self.now).is_pass pass.old }
        ensures served { OnOk result
            (AnswersBatchOf (calls self.now) now [] pass.old pass.new []) }
        ensures refused { IfErr result
            (RefusesBatchOf (calls self.now) now [] pass.old pass.new) };

    /// The greatest base that any pass raised, as the epoch word tells it.
    fn told(&self, pass: &mut P) -> Moment
        requires { (calls self.now).is_pass pass.old }
        ensures { IsTold (calls self.now) pass.old pass.new result };

    /// Another pass of the same external address, which knows as much and has noted nothing.
    fn split(&self, alloc: Global, pass: &mut P) -> Result<P, Memory>
        requires { (calls self.now).is_pass pass.old }
        ensures other { IfOk result (SplitsOff (calls self.now) pass.old pass.new) }
        ensures unchanged { OnErr result (pass.new ≡ pass.old) };

    /// Gives up a pass that nobody uses any more. What it has noted stays noted.
    fn give_up(&self, pass: P);
}
