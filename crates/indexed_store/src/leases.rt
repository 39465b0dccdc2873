//! The leases of an external address.

use mapping_table::MapTable;
use peer_table::PeerTable;
use std::marker::Model;

/// MAP and PEER leases, seen as a table of those that are looked up, beside those that have left and all.
/// Those that have ended stay until they are taken out, or leave.
#[derive(Drop)]
pub(crate) struct Leases {
    pub(crate) maps: MapTable,
    pub(crate) peers: PeerTable,
}

impl Model for Leases {
    ghost use Rattle.indexed_store.specs.Tabled.{Tables, tables};

    ghost Value = { Tables };

    ghost view = { λ t. tables t.maps t.peers };
}
