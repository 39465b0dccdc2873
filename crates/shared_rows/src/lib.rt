//! Tests of a house of many threads: disks that fail, what a lane learns, a lookup
//! while a sync waits, and eight threads at once.
#![tactic(auto)]

#[cfg(test)]
mod configs;
#[cfg(test)]
mod disks;
#[cfg(test)]
mod ends;
#[cfg(test)]
mod faults;
#[cfg(test)]
mod grants;
#[cfg(test)]
mod held;
#[cfg(test)]
mod held_disks;
#[cfg(test)]
mod lanes;
#[cfg(test)]
mod reopened;
#[cfg(test)]
mod threads;
