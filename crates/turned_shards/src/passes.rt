//! What one caller knows of an external address.
use crate::shards::Shard;
use epoch_word::EpochSeat;
use lease_disk::LeaseDisk;
use turn_lock::Pass;

/// What one caller knows of the history of an external address and of the epoch word. Of it only
/// two numbers take octets.
#[derive(Drop)]
pub struct HousePass<D: LeaseDisk> {
    /// The index of the external address.
    pub shard: u32,
    /// The entries that it has seen, and the places of its own and of those of settlings.
    pub history: Pass<Shard<D>>,
    /// What it raised, and what it was told.
    pub epoch: EpochSeat,
}

/// Gives a pass up, as a drop does: a drop would ask for that of the shard, whose lane has to be
/// ended. What it has noted stays noted.
pub fn give_up<D: LeaseDisk + Drop>(pass: HousePass<D>) {
    let HousePass {
        shard: _,
        history,
        epoch: _epoch,
    } = pass;
    turn_lock::give_up(history);
}
