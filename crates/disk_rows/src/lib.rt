//! Tests of what a journal stands on: the octets of records, and disks in memory and over files.
#![tactic(auto)]

#[cfg(test)]
mod disks;
#[cfg(test)]
mod fake_files;
#[cfg(test)]
mod files;
#[cfg(test)]
mod records;
