//! Requests of hosts.
ghost use Rattle.std.specs.Prelude.{◌≤◌, length, IfOk};
ghost use Rattle.std.specs.List.{AllByRecursion};
ghost use Rattle.pcp_base.specs.Asks.{IsWellFormedAsk};
ghost use Rattle.journal_sides.specs.declared.layout.TheConstants.{MOST_RECORDS};

use pcp_base::{Address, Ask, Endpoint, FilterList, MapAsk, Memory, Nonce, Protocol};
use std::alloc::Global;

/// A MAP request of 10.0.0.`host` for its UDP port 5000, for an hour.
fn map_ask(alloc: Global, host: u8) -> Ask
    ensures { IsWellFormedAsk result }
{
    Ask::Map(MapAsk {
        endpoint: Endpoint {
            address: Address::v4(10, 0, 0, host),
            protocol: Protocol::Udp,
            port: 5000,
        },
        nonce: Nonce([0, 1, 2, 3, 4, 5, 6, 7, 8, 9, 10, 11]),
        lifetime: 3600,
        port: 0,
        address: Address([0; 16]),
        prefer: false,
        set: None,
        filters: FilterList::of(Vec::new(alloc)),
    })
}

/// A batch with that request alone.
pub(crate) fn batch_of(alloc: Global, host: u8) -> Result<Vec<Ask>, Memory>
    ensures few { IfOk result (λ asks. length asks.items ≤ MOST_RECORDS) }
    ensures formed { IfOk result (λ asks. AllByRecursion IsWellFormedAsk asks.items) }
{
    let mut asks = Vec::new(alloc);
    asks.push(map_ask(alloc, host))?;
    Ok(asks)
}
