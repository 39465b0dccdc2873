//! Tests of the command `serve` over edges in memory: a whole run and what its journals keep, shards
//! that don't wait for one another, by which doors what is sent, and runs that end by a fault or are
//! refused.
#![tactic(auto)]

#[cfg(test)]
mod doors;
#[cfg(test)]
mod edges;
#[cfg(test)]
mod failing;
#[cfg(test)]
mod failing_disks;
#[cfg(test)]
mod flags;
#[cfg(test)]
mod held;
#[cfg(test)]
mod lost;
#[cfg(test)]
mod refused;
#[cfg(test)]
mod requests;
#[cfg(test)]
mod serving;
#[cfg(test)]
mod whole;
