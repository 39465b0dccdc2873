//! The disk of a journal, whose meaning says what a crash may leave at any moment, with a form in
//! memory and a thin one over a file.
#![tactic(auto)]

mod changes;
mod disks;
mod files;
mod memory;
mod replays;

pub use disks::{DiskPair, LeaseDisk};
pub use files::{FileDisk, Keepable};
pub use memory::MemoryDisk;
