//! What a server is configured with.
ghost use Rattle.std.specs.Prelude.{◌≡◌};
ghost use Rattle.pcp_base.specs.Pairing.{place_of};

use crate::addresses::{Address, Prefix};
use crate::lists::{Listed, Octets};

/// How many external addresses a server may have.
pub const MOST_EXTERNALS: usize = 16;

/// How many subscriber rows a configuration may have.
pub const MOST_SUBSCRIBERS: usize = 1_024;

/// At how many addresses a server may listen.
pub const MOST_DOORS: usize = 16;

/// How many prefixes of hosts may ask for others.
pub const MOST_THIRD_PARTIES: usize = 256;

/// How many external ports an internal address may be allowed to own.
pub const MOST_QUOTA: u32 = 65_535;

/// The longest lifetime that may be granted, in seconds: a day.
pub const LONGEST_LIFETIME: u32 = 86_400;

/// An external address and the ports that are given out of it: `1 <= low <= high`.
#[derive(Clone, Copy, Debug, PartialEq, Eq, Hash)]
pub struct External {
    /// What hosts outside see.
    pub address: Address,
    /// The first port, at least 1.
    pub low: u16,
    /// The last port, not below `low`.
    pub high: u16,
}

/// Internal hosts and the external address that they share.
#[derive(Clone, Copy, Debug, PartialEq, Eq, Hash)]
pub struct Subscriber {
    /// The internal addresses of the hosts.
    pub prefix: Prefix,
    /// The index of the external address, below their number.
    pub external: u32,
}

/// Prefixes, the first one first.
pub type Prefixes = Listed<Prefix>;

/// External addresses, by their index.
pub type Externals = Listed<External>;

/// Subscribers, of which the first that holds an address counts.
pub type Subscribers = Listed<Subscriber>;

/// An address at which the server listens.
#[derive(Debug, Drop)]
pub struct ListenAddress {
    /// Neither all-zero nor a multicast one.
    pub address: Address,
    /// The name of the link on which a link-local address stands, at most 15 octets; empty where none is
    /// named.
    pub link: Octets,
}

/// Addresses at which the server listens, one door each.
pub type Addresses = Listed<ListenAddress>;

/// Where orders come from.
#[derive(Clone, Copy, Debug, PartialEq, Eq, Hash)]
pub enum Orders {
    /// From 127.0.0.1, and by the folder of the journals.
    Both,
    /// By the folder of the journals alone.
    Folder,
}

/// The configuration of a server.
#[derive(Debug, Drop)]
pub struct Config {
    /// How many external ports an internal address may own, 1 to [`MOST_QUOTA`].
    pub quota: u32,
    /// The least lifetime that is granted, in seconds, 1 to [`LONGEST_LIFETIME`].
    pub lifetime_min: u32,
    /// The greatest lifetime that is granted, in seconds, `lifetime_min` to [`LONGEST_LIFETIME`].
    pub lifetime_max: u32,
    /// Hosts that may ask for others by THIRD_PARTY, at most [`MOST_THIRD_PARTIES`] prefixes.
    pub third_party: Prefixes,
    /// 1 to [`MOST_EXTERNALS`], with different addresses.
    pub externals: Externals,
    /// At most [`MOST_SUBSCRIBERS`].
    pub subscribers: Subscribers,
    /// Where the server listens, at most [`MOST_DOORS`] different ones: a door each, counted from 0. None
    /// where it listens at all addresses of the host, by IPv4 at door 0 and by IPv6 at door 1.
    pub listen: Addresses,
    pub orders: Orders,
}

/// The external index of the first subscriber row whose prefix holds the address; none where none does.
pub fn pair(config: &Config, address: &Address) -> Option<u32>
    ensures { result ≡ place_of config.now.subscribers address.now }
{
    let subscriber = config
        .subscribers
        .items()
        .iter()
        .find(|subscriber| subscriber.prefix.holds(address))?;
    Some(subscriber.external)
}
