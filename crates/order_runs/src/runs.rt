//! The call of an order.
ghost use Rattle.std.specs.Prelude.{◌≡◌, ◌↔◌, map, string_bytes};
ghost use Rattle.pcp_io.specs.Faults.{HasRisen};
ghost use Rattle.order_commands.specs.OrderWords.{IsOrderWords};
ghost use Rattle.order_commands.specs.declared.commands.OrderPlan.{OrderPlan};
ghost use Rattle.tool_commands.specs.declared.statuses.ToolStatus.TheVariants as Statuses;
ghost use Rattle.order_runs.specs.OrderRuns.{IsOrderRun, ask_of, waits};
ghost use Rattle.order_runs.specs.Orders.{Asks};

use crate::answers::{end_by, status_without};
use crate::links::{OrderFault, OrderLink};
use order_commands::{OrderPlan, line_of, order_of};
use pcp_base::Octets;
use pcp_io::Sink;
use std::alloc::Global;
use tool_commands::ToolStatus;

/// Whether the answer to an order is waited for however long it takes.
fn waits(plan: OrderPlan) -> bool
    ensures { result ≡ waits plan }
{
    match plan {
        OrderPlan::Stop => true,
        OrderPlan::Lose(_address) => false,
        OrderPlan::Status => false,
    }
}

/// What is answered to an order.
fn answer_to<L: OrderLink>(
    alloc: Global,
    plan: OrderPlan,
    link: &mut L,
) -> Result<Octets, OrderFault>
    ensures { Asks (ask_of plan)
        (record {
          left = L.left link.old;
          asked = L.asked link.old;
          faults = L.faults link.old;
        })
        (record {
          left = L.left link.new;
          asked = L.asked link.new;
          faults = L.faults link.new;
        }) result }
{
    let Ok(line) = line_of(alloc, plan) else {
        return Err(OrderFault::Memory);
    };
    link.ask(alloc, &line, waits(plan))
}

/// Orders what the words say of a server that runs, which `link` asks: `stop` waits for its end without a
/// limit, `lose` for its answer, and what it answers to `status` is printed to `out`. Words that are no
/// order ask nobody.
pub fn run_order<L: OrderLink, W: Sink>(
    alloc: Global,
    words: &[String],
    link: &mut L,
    out: &mut W,
) -> ToolStatus
    // What was asked and answered, and what is printed, by the status.
    ensures run { IsOrderRun (map string_bytes words.now)
        (record {
          left = L.left link.old;
          asked = L.asked link.old;
          faults = L.faults link.old;
        })
        (record {
          left = L.left link.new;
          asked = L.asked link.new;
          faults = L.faults link.new;
        })
        (W.held out.old) (W.held out.new) result }

    // Words are refused where they are no order, and nowhere else.
    ensures words_refused { (result ≡ Statuses.WordsRefused) ↔
        ((plan : OrderPlan) → ¬ (IsOrderWords (map string_bytes words.now) plan)) }

    // A fault is told only where a count of faults rose.
    ensures silence { result ≡ Statuses.Silence →
        HasRisen (L.faults link.old) (L.faults link.new) }
    ensures write_fault { result ≡ Statuses.WriteFault →
        HasRisen (W.faults out.old) (W.faults out.new) }
{
    let Some(plan) = order_of(words) else {
        return ToolStatus::WordsRefused;
    };
    match answer_to(alloc, plan, link) {
        Ok(answer) => end_by(plan, answer.items(), out),
        Err(why) => status_without(why),
    }
}
