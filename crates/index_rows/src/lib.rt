//! Tests of the indexes and of the pool of an external address by rows of calls, each beside its plain
//! twin where it has one.
#![tactic(auto)]

#[cfg(test)]
mod host_counts;
#[cfg(test)]
mod leasts;
#[cfg(test)]
mod pools;
#[cfg(test)]
mod runs;
#[cfg(test)]
mod spans;
#[cfg(test)]
mod vacancies;
#[cfg(test)]
mod wheels;
