//! Who is where: a house, two relays in a row with two inner addresses each, a cascade, and four clients.

use pcp_base::Address;

/// All hosts of a side.
pub(crate) const ALL: Address = Address([0, 0, 0, 0, 0, 0, 0, 0, 0, 0, 255, 255, 224, 0, 0, 1]);

pub(crate) const SERVER: Address = Address([0, 0, 0, 0, 0, 0, 0, 0, 0, 0, 255, 255, 192, 0, 2, 9]);

/// The relay that asks the house, and its inner addresses.
pub(crate) const FAR: Address = Address([0, 0, 0, 0, 0, 0, 0, 0, 0, 0, 255, 255, 10, 0, 9, 2]);

pub(crate) const FAR_FIRST: Address = Address([
    0, 0, 0, 0, 0, 0, 0, 0, 0, 0, 255, 255, 10, 0, 1, 1,
]);

pub(crate) const FAR_SECOND: Address = Address([
    0, 0, 0, 0, 0, 0, 0, 0, 0, 0, 255, 255, 10, 0, 2, 1,
]);

pub(crate) const FAR_KEY: u8 = 9;

/// The relay that asks at the first of these, and its own two, each for a client.
pub(crate) const NEAR: Address = Address([0, 0, 0, 0, 0, 0, 0, 0, 0, 0, 255, 255, 10, 0, 1, 2]);

pub(crate) const NEAR_FIRST: Address = Address([
    0, 0, 0, 0, 0, 0, 0, 0, 0, 0, 255, 255, 10, 0, 3, 1,
]);

pub(crate) const NEAR_SECOND: Address = Address([
    0, 0, 0, 0, 0, 0, 0, 0, 0, 0, 255, 255, 10, 0, 4, 1,
]);

pub(crate) const NEAR_KEY: u8 = 7;

/// The cascade, which asks at the far relay's second one, and its inner address, for two clients.
pub(crate) const BESIDE: Address = Address([0, 0, 0, 0, 0, 0, 0, 0, 0, 0, 255, 255, 10, 0, 2, 2]);

pub(crate) const BESIDE_INNER: Address = Address([
    0, 0, 0, 0, 0, 0, 0, 0, 0, 0, 255, 255, 10, 0, 5, 1,
]);

pub(crate) const BESIDE_KEY: u8 = 8;

/// Its local ports.
pub(crate) const LOW: u16 = 20_000;

pub(crate) const HIGH: u16 = 20_007;

/// The internal port of each client.
pub(crate) const PORT: u16 = 5_000;

/// A client, and how its requests come to the house.
#[derive(Clone, Copy)]
pub(crate) struct Way {
    pub(crate) own: Address,
    /// The inner address that it asks.
    pub(crate) server: Address,
    /// The relay there, by its own address, and the key of that one.
    pub(crate) relay: (Address, u8),
    /// For whom the house is asked.
    pub(crate) asked_for: Address,
    /// The first and the last internal port for which it may be asked.
    pub(crate) ports: (u16, u16),
}

pub(crate) static WAYS: [Way; 4] = [
    Way {
        own: Address([0, 0, 0, 0, 0, 0, 0, 0, 0, 0, 255, 255, 10, 0, 3, 5]),
        server: NEAR_FIRST,
        relay: (NEAR, NEAR_KEY),
        asked_for: Address([0, 0, 0, 0, 0, 0, 0, 0, 0, 0, 255, 255, 10, 0, 3, 5]),
        ports: (PORT, PORT),
    },
    Way {
        own: Address([0, 0, 0, 0, 0, 0, 0, 0, 0, 0, 255, 255, 10, 0, 4, 6]),
        server: NEAR_SECOND,
        relay: (NEAR, NEAR_KEY),
        asked_for: Address([0, 0, 0, 0, 0, 0, 0, 0, 0, 0, 255, 255, 10, 0, 4, 6]),
        ports: (PORT, PORT),
    },
    Way {
        own: Address([0, 0, 0, 0, 0, 0, 0, 0, 0, 0, 255, 255, 10, 0, 5, 7]),
        server: BESIDE_INNER,
        relay: (BESIDE, BESIDE_KEY),
        asked_for: BESIDE,
        ports: (LOW, HIGH),
    },
    Way {
        own: Address([0, 0, 0, 0, 0, 0, 0, 0, 0, 0, 255, 255, 10, 0, 5, 8]),
        server: BESIDE_INNER,
        relay: (BESIDE, BESIDE_KEY),
        asked_for: BESIDE,
        ports: (LOW, HIGH),
    },
];
