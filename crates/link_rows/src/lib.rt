//! Tests of links: inboxes, outboxes, links of lanes, clocks and gates in memory, links over sockets of
//! this host, by one door and by several, and the clock of the system.
#![tactic(auto)]

#[cfg(test)]
mod clocks;
#[cfg(test)]
mod doors;
#[cfg(test)]
mod links;
#[cfg(test)]
mod orders;
#[cfg(test)]
mod routes;
#[cfg(test)]
mod sockets;
