//! Tests of clients, relays, a cascade and a house in a world that loses, repeats and reorders packets.
#![tactic(auto)]

#[cfg(test)]
mod cascades;
#[cfg(test)]
mod dice;
#[cfg(test)]
mod epochs;
#[cfg(test)]
mod hosts;
#[cfg(test)]
mod houses;
#[cfg(test)]
mod packets;
#[cfg(test)]
mod places;
#[cfg(test)]
mod relays;
#[cfg(test)]
mod schedules;
#[cfg(test)]
mod worlds;
