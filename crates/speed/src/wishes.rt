//! Requests of hosts that ask for sets of ports, and of a host that asks for filters.
ghost use Rattle.std.specs.Prelude.{◌≡◌, ◌<◌, ◌≤◌, IfSome, IfOk};
ghost use Rattle.pcp_base.specs.Asks.{IsWellFormedAsk};

use pcp_base::{Address, Ask, Endpoint, Filter, FilterList, MapAsk, Nonce, PortSet, Protocol};
use std::alloc::Global;

/// What a host asks for.
#[derive(Clone, Copy)]
pub(crate) struct Wish {
    /// The host, below 2^24.
    pub(crate) host: u32,
    /// Its first internal port; 0 counts as 1.
    pub(crate) internal: u16,
    /// Each octet of the nonce.
    pub(crate) nonce: u8,
    /// How many ports; by PORT_SET where it isn't 1.
    pub(crate) ports: u16,
    /// In seconds; 0 asks for deletion.
    pub(crate) lifetime: u32,
    /// The external port that is suggested, 0 for none.
    pub(crate) suggested: u16,
    /// Whether it wants another external address, or none, by PREFER_FAILURE.
    pub(crate) elsewhere: bool,
}

/// A host that asks for so many ports, from its internal port 1 on, for so many seconds.
pub(crate) fn wish_for(host: u32, ports: u16, lifetime: u32) -> Wish {
    Wish {
        host,
        internal: 1,
        nonce: 7,
        ports,
        lifetime,
        suggested: 0,
        elsewhere: false,
    }
}

/// Port 1 of a host. Hosts from 32,000 to 65,535 ask for TCP, so that both protocols' ports are enough
/// for all leases.
pub(crate) fn endpoint(host: u32) -> Endpoint
    ensures { result.port ≡ 1 }
{
    let [_, high, middle, low] = host.to_be_bytes();
    let protocol = match host {
        32_000..=65_535 => Protocol::Tcp,
        _ => Protocol::Udp,
    };
    Endpoint {
        address: Address::v4(10, high, middle, low),
        protocol,
        port: 1,
    }
}

/// The ports that PORT_SET asks for, where it is there.
fn set_of(ports: u16, first: u16) -> Option<PortSet>
    ensures { IfSome result (λ set. (0 < set.size) × (set.first ≡ first)) }
{
    if ports > 1 {
        return Some(PortSet {
            size: ports,
            first,
            parity: false,
        });
    }
    None
}

/// The external address that is suggested.
fn address_of(wish: &Wish) -> Address {
    if wish.elsewhere {
        return Address::v4(203, 0, 113, 9);
    }
    Address::v4(192, 0, 2, 1)
}

/// The request of a host that suggests a port.
fn ask_suggesting(alloc: Global, wish: &Wish, port: u16) -> Ask
    ensures { IsWellFormedAsk result }
{
    let endpoint = Endpoint {
        port: wish.internal.max(1),
        ..endpoint(wish.host)
    };
    Ask::Map(MapAsk {
        endpoint,
        nonce: Nonce([wish.nonce; 12]),
        lifetime: wish.lifetime,
        port,
        address: address_of(wish),
        prefer: wish.elsewhere,
        set: set_of(wish.ports, endpoint.port),
        filters: FilterList::of(Vec::new(alloc)),
    })
}

/// The request of a host.
pub(crate) fn ask_of(alloc: Global, wish: &Wish) -> Ask
    ensures { IsWellFormedAsk result }
{
    ask_suggesting(alloc, wish, wish.suggested)
}

/// A filter for all ports of a remote peer.
fn filter(remote: u8) -> Filter
    ensures { result.prefix ≤ 128 }
{
    Filter {
        prefix: 128,
        port: 0,
        remote: Address::v4(198, 51, 100, remote),
    }
}

/// The request of a host with nine filters, one more than a lease may have.
pub(crate) fn filtered_ask(alloc: Global, host: u32) -> anyhow::Result<Ask>
    ensures { IfOk result IsWellFormedAsk }
{
    let filters = Vec::from_array(
        alloc,
        [
            filter(1),
            filter(2),
            filter(3),
            filter(4),
            filter(5),
            filter(6),
            filter(7),
            filter(8),
            filter(9),
        ],
    )?;
    Ok(Ask::Map(MapAsk {
        endpoint: endpoint(host),
        nonce: Nonce([7; 12]),
        lifetime: 3600,
        port: 0,
        address: Address([0; 16]),
        prefer: false,
        set: None,
        filters: FilterList::of(filters),
    }))
}
