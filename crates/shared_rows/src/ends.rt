//! The passes of a house that was ended.

use lease_disk::LeaseDisk;
use shared_house::{HousePass, give_up};

/// Gives up each pass.
pub(crate) fn give_up_all<D: LeaseDisk + Drop>(mut passes: Vec<HousePass<D>>) {
    for _ in 0..passes.len() {
        give_up(passes.pop().unwrap());
    }
    passes.destroy_empty();
}
