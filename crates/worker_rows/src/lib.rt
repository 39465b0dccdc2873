//! Tests of a house that is served by workers: shards that don't wait for one another, many jobs at
//! once, replies that leave in time, queues that overflow, and inboxes and outboxes that fail.
#![tactic(auto)]

#[cfg(test)]
mod chained;
#[cfg(test)]
mod configs;
#[cfg(test)]
mod counts;
#[cfg(test)]
mod crowds;
#[cfg(test)]
mod edges;
#[cfg(test)]
mod endless;
#[cfg(test)]
mod failing;
#[cfg(test)]
mod flags;
#[cfg(test)]
mod fresh;
#[cfg(test)]
mod held;
#[cfg(test)]
mod late_loss;
#[cfg(test)]
mod refilled;
#[cfg(test)]
mod requests;
#[cfg(test)]
mod serving;
