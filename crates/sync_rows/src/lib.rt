//! Tests of the book of an external address over files of which a sync fails: what the next program
//! finds in them, and what a power loss leaves of that.
#![tactic(auto)]

#[cfg(test)]
mod failed_syncs;
#[cfg(test)]
mod lossy_files;
#[cfg(test)]
mod octets;
#[cfg(test)]
mod opening;
#[cfg(test)]
mod requests;
#[cfg(test)]
mod seen;
