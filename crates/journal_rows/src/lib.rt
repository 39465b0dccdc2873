//! Tests of journals: what is found on sides of octets, and what whole runs write and leave after a
//! stop or a fault of any device call.
#![tactic(auto)]

#[cfg(test)]
mod acts;
#[cfg(test)]
mod deeds;
#[cfg(test)]
mod disks;
#[cfg(test)]
mod fronts;
#[cfg(test)]
mod gates;
#[cfg(test)]
mod octets;
#[cfg(test)]
mod sides;
#[cfg(test)]
mod snapshots;
#[cfg(test)]
mod stops;
