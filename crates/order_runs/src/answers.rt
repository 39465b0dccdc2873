//! What an answer to an order says.
ghost use Rattle.std.specs.Prelude.{◌≡◌, Ok, if◌then◌else◌};
ghost use Rattle.pcp_io.specs.Faults.{HasRisen};
ghost use Rattle.tool_commands.specs.declared.statuses.ToolStatus.TheVariants as Statuses;
ghost use Rattle.order_runs.specs.OrderRuns.{EndsOrder, said_by, status_without, unrefused_by};

use crate::links::OrderFault;
use order_commands::OrderPlan;
use pcp_io::{Sink, write_all};
use tool_commands::ToolStatus;

/// What a server answers to an order that it doesn't take.
const REFUSED: &[u8] = b"refused\n";

/// What it answers where a loss was ordered, once it is.
const DONE: &[u8] = b"done\n";

/// The status that an answer says; none where it is to be printed.
fn said_by(plan: OrderPlan, answer: &[u8]) -> Option<ToolStatus>
    ensures { result ≡ said_by plan answer.now }
{
    if answer == REFUSED {
        Some(ToolStatus::OrderRefused)
    } else {
        unrefused_by(plan, answer)
    }
}

/// The same of an answer that isn't `refused`.
fn unrefused_by(plan: OrderPlan, answer: &[u8]) -> Option<ToolStatus>
    ensures { result ≡ unrefused_by plan answer.now }
{
    match plan {
        OrderPlan::Stop => Some(done_if(answer.is_empty())),
        OrderPlan::Lose(_address) => Some(done_if(answer == DONE)),
        OrderPlan::Status if answer.is_empty() => Some(ToolStatus::LinkFault),
        OrderPlan::Status => None,
    }
}

fn done_if(is_done: bool) -> ToolStatus
    ensures { result ≡ (if is_done then Statuses.Done else Statuses.LinkFault) }
{
    if is_done {
        ToolStatus::Done
    } else {
        ToolStatus::LinkFault
    }
}

/// How an order ends that was answered so; what is to be printed goes to `out`.
pub(crate) fn end_by<W: Sink>(plan: OrderPlan, answer: &[u8], out: &mut W) -> ToolStatus
    ensures ends { EndsOrder plan (Ok answer.now) (W.held out.old) (W.held out.new) result }
    ensures write_fault { result ≡ Statuses.WriteFault →
        HasRisen (W.faults out.old) (W.faults out.new) }
{
    if let Some(status) = said_by(plan, answer) {
        return status;
    }
    match write_all(out, answer) {
        Ok(()) => ToolStatus::Done,
        Err(_) => ToolStatus::WriteFault,
    }
}

/// The status where there is no answer.
pub(crate) fn status_without(why: OrderFault) -> ToolStatus
    ensures { result ≡ status_without why }
{
    match why {
        OrderFault::Silent => ToolStatus::Silence,
        OrderFault::Broken => ToolStatus::LinkFault,
        OrderFault::Memory => ToolStatus::Memory,
    }
}
