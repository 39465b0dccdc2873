//! The lines of orders.
ghost use Rattle.std.specs.Prelude.{◌≡◌, IfOk};
ghost use Rattle.order_commands.specs.OrderLines.{order_line};

use crate::commands::OrderPlan;
use pcp_base::Memory;
use std::alloc::Global;

/// The line that says this order to a server: at most 38 octets.
pub fn line_of(alloc: Global, plan: OrderPlan) -> Result<Vec<u8>, Memory>
    ensures { IfOk result (λ line. line.items ≡ order_line plan) }
{
    let mut line = Vec::new(alloc);
    match plan {
        OrderPlan::Stop => line.extend_from_slice(b"stop")?,
        OrderPlan::Status => line.extend_from_slice(b"status")?,
        OrderPlan::Lose(address) => {
            line.extend_from_slice(b"lose ")?;
            address.write(alloc, &mut line)?;
        }
    }
    line.push(b'\n')?;
    Ok(line)
}
