//! Tests of the book of an external address by whole runs: its answers, its octets, and what stands
//! after a stop or a fault of any device call.
#![tactic(auto)]

#[cfg(test)]
mod acts;
#[cfg(test)]
mod cuts;
#[cfg(test)]
mod doings;
#[cfg(test)]
mod faults;
#[cfg(test)]
mod lengths;
#[cfg(test)]
mod octets;
#[cfg(test)]
mod opening;
#[cfg(test)]
mod requests;
#[cfg(test)]
mod rows;
#[cfg(test)]
mod runs;
#[cfg(test)]
mod sides;
#[cfg(test)]
mod stops;
