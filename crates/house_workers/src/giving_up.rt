//! Passes that nobody uses any more.
ghost use Rattle.std.specs.Prelude.{length};

use lease_disk::LeaseDisk;
use shared_house::{HousePass, give_up};

/// Gives all these passes up.
pub(crate) fn give_all_up<D: LeaseDisk + Drop>(passes: Vec<HousePass<D>>) {
    let mut passes = passes;
    for _ in 0..passes.len() {
        give_up(passes.pop().unwrap());
    }
    passes.destroy_empty();
}
