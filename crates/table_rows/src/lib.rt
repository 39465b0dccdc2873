//! Tests of the tables of an external address by rows of calls, worked out by hand, and of the plain
//! bodies that stand for the state that records made.
#![tactic(auto)]

#[cfg(test)]
mod leased;
#[cfg(test)]
mod leaving;
#[cfg(test)]
mod making;
#[cfg(test)]
mod maps;
#[cfg(test)]
mod peers;
#[cfg(test)]
mod records;
#[cfg(test)]
mod replays;
#[cfg(test)]
mod sound_maps;
#[cfg(test)]
mod sound_peers;
#[cfg(test)]
mod stores;
