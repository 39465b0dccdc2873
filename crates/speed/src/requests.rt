//! Requests of hosts.
ghost use Rattle.std.specs.Prelude.{◌≡◌, ◌<◌, ◌≤◌};
ghost use Rattle.pcp_base.specs.Asks.{IsWellFormedAsk};

use pcp_base::{Address, Ask, Endpoint, FilterList, MapAsk, Nonce, Protocol};
use std::alloc::Global;

/// In which order leases come.
#[derive(Clone, Copy)]
pub enum Order {
    /// One behind the other, as they were granted first.
    Granted,
    /// By numbers that look random, and are the same in each run.
    Chance,
}

/// The number, below `leases`, of the lease that comes next.
pub fn next_number(order: Order, leases: u32, state: &mut u64) -> u32
    requires { 0 < leases }
    ensures { result < leases }
{
    match order {
        Order::Granted => {
            *state = state.wrapping_add(1);
            (*state % u64::from(leases)) as u32
        }
        Order::Chance => {
            *state = state.wrapping_mul(0x5851_F42D_4C95_7F2D).wrapping_add(1);
            (*state >> 33) as u32 % leases
        }
    }
}

/// One of 65,536 endpoints, of which each 256 are of one host.
fn endpoint(number: u32) -> Endpoint
    ensures { 1 ≤ result.port }
{
    let [_, _, high, low] = number.to_be_bytes();
    Endpoint {
        address: Address::v4(10, 0, 0, high),
        protocol: Protocol::Udp,
        port: 1024 + u16::from(low),
    }
}

/// A MAP request of an endpoint for so many seconds, without options.
pub fn map_ask(alloc: Global, number: u32, lifetime: u32) -> Ask
    ensures { IsWellFormedAsk result }
{
    Ask::Map(MapAsk {
        endpoint: endpoint(number),
        nonce: Nonce([7; 12]),
        lifetime,
        port: 0,
        address: Address([0; 16]),
        prefer: false,
        set: None,
        filters: FilterList::of(Vec::new(alloc)),
    })
}
