//! A house as contracts see it.

use pcp_base::Config;
use std::marker::Model;

/// What lines act on: an external address is its state. No value of it is made.
#[derive(Drop)]
pub struct SeenHouse {
    config: Config,
}

impl Model for SeenHouse {
    ghost use Rattle.std.specs.Prelude.{[]};
    ghost use Rattle.lease_histories.specs.PlainHouses.{PlainHouse};

    ghost Value = { PlainHouse };

    ghost view = { λ house. record { config = house.config; shards = [] } };
}
