//! A link to a server in memory.
ghost use Rattle.std.specs.Prelude.{◌≡◌, IfSome};

use crate::links::{OrderAsk, OrderFault, OrderLink};
use pcp_base::Octets;
use std::alloc::Global;
use std::collections::VecDeque;
use std::marker::Model;

/// A link that answers what a list says, is silent behind that, and keeps what it was asked. Each ask that
/// finds a fault, or no memory, is counted, and nothing else is; the count stands still at 2^64 - 1.
#[derive(Drop)]
pub struct MemoryOrders {
    answers: VecDeque<Result<Octets, OrderFault>>,
    asked: Vec<OrderAsk>,
    faults: u64,
}

impl Model for MemoryOrders {
    ghost use Rattle.order_runs.specs.InMemory.{OrdersInMemory};

    ghost Value = { OrdersInMemory };

    ghost view = { λ s. record {
      left = s.answers.items;
      asked = s.asked.items;
      faults = s.faults;
    } };
}

/// What a server is asked, for keeping; none where no memory is found.
fn kept(alloc: Global, line: &[u8], without_limit: bool) -> Option<OrderAsk>
    ensures { IfSome result (λ ask. ask
        ≡ record { line = line.now; without_limit = without_limit }) }
{
    let line = line.to_vec(alloc).ok()?;
    Some(OrderAsk {
        line: Octets::of(line),
        without_limit,
    })
}

impl MemoryOrders {
    ghost use Rattle.std.specs.Prelude.{◌≡◌};
    ghost use Rattle.pcp_io.specs.CallLogs.{one_more};
    ghost use Rattle.order_runs.specs.InMemory.{new_orders};

    /// A link that will answer so, an answer or a fault for each ask.
    pub fn new(alloc: Global, answers: Vec<Result<Octets, OrderFault>>) -> MemoryOrders
        ensures { result ≡ new_orders answers.items }
    {
        MemoryOrders {
            answers: VecDeque::from(answers),
            asked: Vec::new(alloc),
            faults: 0,
        }
    }

    /// What it was asked, in order.
    pub fn asked(&self) -> &[OrderAsk]
        ensures { result.now ≡ self.now.asked }
    {
        &self.asked
    }

    // Counts a fault.
    fn fail(&mut self, why: OrderFault) -> OrderFault
        ensures same { result ≡ why }
        ensures counted { self.new
            ≡ record self.old { faults = one_more self.old.faults } }
    {
        self.faults = self.faults.saturating_add(1);
        why
    }
}

impl OrderLink for MemoryOrders {
    ghost use Rattle.std.specs.Prelude.{Some};
    ghost use Rattle.order_runs.specs.InMemory.{state_of};
    ghost use Rattle.order_runs.specs.Orders.{Asks};

    ghost left = { λ s. Some s.left };

    ghost asked = { λ s. Some s.asked };

    ghost faults = { λ s. s.faults };

    fn ask(&mut self, alloc: Global, line: &[u8], without_limit: bool) -> Result<Octets, OrderFault>
        ensures { Asks (record { line = line.now; without_limit = without_limit })
            (state_of self.old) (state_of self.new) result }
    {
        let Some(ask) = kept(alloc, line, without_limit) else {
            return Err(self.fail(OrderFault::Memory));
        };
        if self.asked.push(ask).is_err() {
            return Err(self.fail(OrderFault::Memory));
        }
        match self.answers.pop_front() {
            Some(Ok(answer)) => Ok(answer),
            Some(Err(why)) => Err(self.fail(why)),
            None => Err(self.fail(OrderFault::Silent)),
        }
    }
}
