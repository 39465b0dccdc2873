//! A lease table in two lists.
ghost use Rattle.std.specs.Prelude.{◌≡◌, ◌↔◌, ◌+◌, nat_le, length, IsTrue, IfOk, OnOk};
ghost use Rattle.pcp_base.specs.declared.leases.TheConstants.{MOST_LEASES};
ghost use Rattle.pcp_base.specs.declared.records.Change.TheVariants.{Map, Peer};
ghost use Rattle.pcp_base.specs.Tables.{empty_table, live, dead, IsMapLease};
ghost use Rattle.pcp_base.specs.Owners.{owners};
ghost use Rattle.pcp_base.specs.Ends.{ends_at_expiry};
ghost use Rattle.pcp_base.specs.Records.{IsWellFormedRecord};
ghost use Rattle.pcp_base.specs.Apply.{table_changed, deleted};
ghost use Rattle.pcp_base.specs.Fits.{IsAllowed};
ghost use Rattle.pcp_base.specs.Rooms.{HasRoom, HasRoomForMap, HasRoomForPeer};

use crate::ends::{add_ends_of_peers, ends_of_maps};
use crate::judging::{count_of_peers, is_apart, may_join};
use crate::leases::{
    dead_maps, dead_peers, drop_map, drop_peer, held_map, held_peer, holds_map, holds_peer,
    is_renewed_map, live_maps, live_peers, map_of, maps_of, peer_of, peers_of, put_map, put_peer,
};
use crate::owners::{add_owners_of_peers, owner_of_peer, owners_of_map, owners_of_maps};
use pcp_base::{
    Change, End, MOST_LEASES, MOST_PEERS, MapLease, Memory, Moment, Owner, PeerLease, Record,
};
use std::alloc::Global;
use std::marker::Model;

/// MAP and PEER leases, each in the order granted.
#[derive(Debug, Drop)]
pub(crate) struct PlainTable {
    maps: Vec<MapLease>,
    peers: Vec<PeerLease>,
}

impl Model for PlainTable {
    ghost use Rattle.std.specs.List.{AllByRecursion};
    ghost use Rattle.pcp_base.specs.Tables.{Table, IsMapLease};

    ghost Value = { Table };

    ghost view = { λ t. record { maps = t.maps.items; peers = t.peers.items } };

    ghost invariant = { λ t. AllByRecursion IsMapLease t.maps.items };
}

impl PlainTable {
    /// A table without a lease.
    pub(crate) fn new(alloc: Global) -> PlainTable
        ensures { result ≡ empty_table }
    {
        PlainTable {
            maps: Vec::new(alloc),
            peers: Vec::new(alloc),
        }
    }

    /// Takes out all leases.
    pub(crate) fn clear(&mut self)
        ensures { self.new ≡ empty_table }
    {
        self.maps.clear();
        self.peers.clear();
    }

    /// The MAP leases, in the order granted.
    pub(crate) fn maps(&self) -> &[MapLease]
        ensures { result.now ≡ self.now.maps }
    {
        &self.maps
    }

    /// The PEER leases, in the order granted.
    pub(crate) fn peers(&self) -> &[PeerLease]
        ensures { result.now ≡ self.now.peers }
    {
        &self.peers
    }

    /// The leases that are live at `m`.
    pub(crate) fn live(&self, alloc: Global, m: Moment) -> Result<PlainTable, Memory>
        ensures { IfOk result (λ t. t ≡ live self.now m) }
    {
        Ok(PlainTable {
            maps: live_maps(alloc, &self.maps, m)?,
            peers: live_peers(alloc, &self.peers, m)?,
        })
    }

    /// The leases that aren't live at `m`.
    pub(crate) fn dead(&self, alloc: Global, m: Moment) -> Result<PlainTable, Memory>
        ensures { IfOk result (λ t. t ≡ dead self.now m) }
    {
        Ok(PlainTable {
            maps: dead_maps(alloc, &self.maps, m)?,
            peers: dead_peers(alloc, &self.peers, m)?,
        })
    }

    /// Each owned port beside its owner.
    pub(crate) fn owners(&self, alloc: Global) -> Result<Vec<Owner>, Memory>
        ensures { IfOk result (λ v. v.items ≡ owners self.now) }
    {
        let mut owners = owners_of_maps(alloc, &self.maps)?;
        add_owners_of_peers(&mut owners, &self.peers)?;
        Ok(owners)
    }

    /// The ports of the leases, each ended at its lease's expiry.
    pub(crate) fn ends_at_expiry(&self, alloc: Global) -> Result<Vec<End>, Memory>
        ensures { IfOk result (λ v. v.items ≡ ends_at_expiry self.now) }
    {
        let mut left = ends_of_maps(alloc, &self.maps)?;
        add_ends_of_peers(&mut left, &self.peers)?;
        Ok(left)
    }

    /// The leases that a deletion takes out.
    pub(crate) fn deleted(&self, alloc: Global, change: &Change) -> Result<PlainTable, Memory>
        ensures { IfOk result (λ t. t ≡ deleted change.now self.now) }
    {
        match change {
            Change::DropMap(key) => Ok(PlainTable {
                maps: maps_of(alloc, &self.maps, key)?,
                peers: Vec::new(alloc),
            }),
            Change::DropPeer(endpoint, remote, port) => Ok(PlainTable {
                maps: Vec::new(alloc),
                peers: peers_of(alloc, &self.peers, endpoint, remote, *port)?,
            }),
            _ => Ok(PlainTable::new(alloc)),
        }
    }

    /// Makes the change of a record. After `Memory` the table isn't to be used again.
    pub(crate) fn change(&mut self, kept: &Record) -> Result<(), Memory>
        requires { IsWellFormedRecord kept.now }
        ensures { OnOk result (self.new ≡ table_changed kept.now.change self.old) }
    {
        match &kept.change {
            Change::Start | Change::Lose => self.clear(),
            Change::Map(lease) => put_map(&mut self.maps, *lease)?,
            Change::Peer(lease) => put_peer(&mut self.peers, *lease)?,
            Change::DropMap(key) => drop_map(&mut self.maps, key),
            Change::DropPeer(endpoint, remote, port) => {
                drop_peer(&mut self.peers, endpoint, remote, *port);
            }
            Change::Mark | Change::Rest(..) | Change::Renumber(_) => {}
        }
        Ok(())
    }

    /// Whether a renewal keeps every field but the expiry and the filters, and what is deleted is there.
    pub(crate) fn is_allowed(&self, change: &Change) -> bool
        ensures { IsTrue result ↔ IsAllowed self.now change.now }
    {
        match change {
            Change::Map(lease) => self.allows_map(lease),
            Change::Peer(lease) => self.allows_peer(lease),
            Change::DropMap(key) => map_of(&self.maps, key).is_some(),
            Change::DropPeer(endpoint, remote, port) => {
                peer_of(&self.peers, endpoint, remote, *port).is_some()
            }
            _ => true,
        }
    }

    fn allows_map(&self, lease: &MapLease) -> bool
        ensures { IsTrue result ↔ IsAllowed self.now (Map lease.now) }
    {
        let Some(held) = held_map(&self.maps, lease) else {
            return true;
        };
        is_renewed_map(held, lease)
    }

    fn allows_peer(&self, lease: &PeerLease) -> bool
        ensures { IsTrue result ↔ IsAllowed self.now (Peer lease.now) }
    {
        let Some(held) = held_peer(&self.peers, lease) else {
            return true;
        };
        let renewed = PeerLease {
            expiry: lease.expiry,
            ..*held
        };
        *lease == renewed
    }

    /// Whether the table has room for a new lease.
    pub(crate) fn has_room(&self, alloc: Global, kept: &Record) -> Result<bool, Memory>
        requires { IsWellFormedRecord kept.now }
        ensures { IfOk result (λ b. IsTrue b ↔ HasRoom self.now kept.now.change) }
    {
        match &kept.change {
            Change::Map(lease) => self.has_room_where_new_map(alloc, lease),
            Change::Peer(lease) => self.has_room_where_new_peer(alloc, lease),
            _ => Ok(true),
        }
    }

    fn has_room_where_new_map(&self, alloc: Global, lease: &MapLease) -> Result<bool, Memory>
        requires { IsMapLease lease.now }
        ensures { IfOk result (λ b. IsTrue b ↔ HasRoom self.now (Map lease.now)) }
    {
        if holds_map(&self.maps, lease) {
            return Ok(true);
        }
        self.has_room_for_map(alloc, lease)
    }

    fn has_room_where_new_peer(&self, alloc: Global, lease: &PeerLease) -> Result<bool, Memory>
        ensures { IfOk result (λ b. IsTrue b ↔ HasRoom self.now (Peer lease.now)) }
    {
        if holds_peer(&self.peers, lease) {
            return Ok(true);
        }
        self.has_room_for_peer(alloc, lease)
    }

    fn is_full(&self) -> bool
        ensures { result ≡ nat_le MOST_LEASES (length self.now.maps + length self.now.peers) }
    {
        MOST_LEASES.saturating_sub(self.maps.len()) <= self.peers.len()
    }

    fn has_room_for_map(&self, alloc: Global, lease: &MapLease) -> Result<bool, Memory>
        requires { IsMapLease lease.now }
        ensures { IfOk result (λ b. IsTrue b ↔ HasRoomForMap self.now lease.now) }
    {
        if self.is_full() || !is_apart(&self.maps, lease) {
            return Ok(false);
        }
        let owners = self.owners(alloc)?;
        let new = owners_of_map(alloc, lease)?;
        Ok(may_join(&owners, &new))
    }

    fn has_room_for_peer(&self, alloc: Global, lease: &PeerLease) -> Result<bool, Memory>
        ensures { IfOk result (λ b. IsTrue b ↔ HasRoomForPeer self.now lease.now) }
    {
        if self.is_full() || count_of_peers(&self.peers, &lease.endpoint) >= MOST_PEERS {
            return Ok(false);
        }
        let owners = self.owners(alloc)?;
        Ok(may_join(&owners, &[owner_of_peer(lease)]))
    }
}
