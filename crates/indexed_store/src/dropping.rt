//! Leases that have ended go out of the tables.
ghost use Rattle.std.specs.Prelude.{◌≡◌, ◌<◌, length, Ok, true, false, IfOk, OnOk};
ghost use Rattle.pcp_base.specs.Tables.{Table, live};
ghost use Rattle.indexed_store.specs.Tabled.{AreTabled};
ghost use Rattle.mapping_table.specs.MapLists.{IsDeadMap};
ghost use Rattle.peer_table.specs.PeerLists.{IsDeadPeer};
ghost use Rattle.indexed_store.specs.Leaving.{AreLeaving, AreOfDead};

use crate::leases::Leases;
use crate::owning::{OwnerRun, run_of_map, run_of_peer};
use mapping_table::laws::fewer_maps_are_sound;
use pcp_base::{MapLease, Memory, Moment, PeerLease};
use peer_table::laws::fewer_peers_are_sound;
use std::alloc::Global;
use std::sync::ledger::Ledger;
use step_count::Steps;

impl Leases {
    /// One of the MAP leases that aren't live at `m`.
    fn ended_map<L: Ledger>(&self, m: Moment, steps: &mut Steps<L>) -> Option<MapLease>
        ensures { IsDeadMap m self.now.found.maps result }
    {
        self.maps.one_ended(m, steps)
    }

    /// One of the PEER leases that aren't live at `m`.
    fn ended_peer<L: Ledger>(&self, m: Moment, steps: &mut Steps<L>) -> Option<PeerLease>
        ensures { IsDeadPeer m self.now.found.peers result }
    {
        self.peers.one_ended(m, steps).copied()
    }

    /// Takes out a MAP lease that isn't live at `m`, and adds its ports; false where there is none.
    fn drop_map<L: Ledger>(
        &mut self,
        m: Moment,
        left: &mut Vec<OwnerRun>,
        steps: &mut Steps<L>,
    ) -> Result<bool, Memory>
        requires { AreTabled self.old.found }
        ensures leaving { OnOk result ((start : Table) →
            AreLeaving m start self.old.found left.old.items
            → AreLeaving m start self.new.found left.new.items) }
        ensures sound { OnOk result (AreTabled self.new.found) }
        ensures peers { self.new.found.peers ≡ self.old.found.peers }
        ensures fewer { result ≡ Ok true →
            length self.new.found.maps < length self.old.found.maps }
        ensures all { result ≡ Ok false → self.new.found.maps ≡ (live self.new.found m).maps }
        ensures past { self.new.past ≡ self.old.past }
    {
        fewer_maps_are_sound();
        let Some(lease) = self.ended_map(m, steps) else {
            return Ok(false);
        };
        left.push(run_of_map(&lease))?;
        self.maps.remove(&lease.first_endpoint(), steps);
        Ok(true)
    }

    /// The same of a PEER lease.
    fn drop_peer<L: Ledger>(
        &mut self,
        m: Moment,
        left: &mut Vec<OwnerRun>,
        steps: &mut Steps<L>,
    ) -> Result<bool, Memory>
        requires { AreTabled self.old.found }
        ensures leaving { OnOk result ((start : Table) →
            AreLeaving m start self.old.found left.old.items
            → AreLeaving m start self.new.found left.new.items) }
        ensures sound { OnOk result (AreTabled self.new.found) }
        ensures maps { self.new.found.maps ≡ self.old.found.maps }
        ensures fewer { result ≡ Ok true →
            length self.new.found.peers < length self.old.found.peers }
        ensures all { result ≡ Ok false → self.new.found.peers ≡ (live self.new.found m).peers }
        ensures past { self.new.past ≡ self.old.past }
    {
        fewer_peers_are_sound();
        let Some(lease) = self.ended_peer(m, steps) else {
            return Ok(false);
        };
        left.push(run_of_peer(&lease))?;
        self.peers
            .remove(&lease.endpoint, &lease.remote, lease.remote_port, steps);
        Ok(true)
    }

    /// Takes out the MAP leases that aren't live at `m`, and adds their ports.
    fn drop_maps<L: Ledger>(
        &mut self,
        m: Moment,
        left: &mut Vec<OwnerRun>,
        steps: &mut Steps<L>,
    ) -> Result<(), Memory>
        requires { AreTabled self.old.found }
        ensures leaving { OnOk result ((start : Table) →
            AreLeaving m start self.old.found left.old.items
            → AreLeaving m start self.new.found left.new.items) }
        ensures sound { OnOk result (AreTabled self.new.found) }
        ensures peers { self.new.found.peers ≡ self.old.found.peers }
        ensures all { OnOk result (self.new.found.maps ≡ (live self.new.found m).maps) }
        ensures past { self.new.past ≡ self.old.past }
    {
        while self.drop_map(m, left, steps)? {}
        Ok(())
    }

    /// The same of PEER leases.
    fn drop_peers<L: Ledger>(
        &mut self,
        m: Moment,
        left: &mut Vec<OwnerRun>,
        steps: &mut Steps<L>,
    ) -> Result<(), Memory>
        requires { AreTabled self.old.found }
        ensures leaving { OnOk result ((start : Table) →
            AreLeaving m start self.old.found left.old.items
            → AreLeaving m start self.new.found left.new.items) }
        ensures maps { self.new.found.maps ≡ self.old.found.maps }
        ensures all { OnOk result (self.new.found.peers ≡ (live self.new.found m).peers) }
        ensures past { self.new.past ≡ self.old.past }
    {
        while self.drop_peer(m, left, steps)? {}
        Ok(())
    }

    /// Takes out the leases that aren't live at `m`. Tells their ports.
    pub(crate) fn drop_dead<L: Ledger>(
        &mut self,
        alloc: Global,
        m: Moment,
        steps: &mut Steps<L>,
    ) -> Result<Vec<OwnerRun>, Memory>
        requires { AreTabled self.old.found }
        ensures table { OnOk result (self.new.found ≡ live self.old.found m) }
        ensures left { IfOk result (λ left. AreOfDead m self.old.found left.items) }
        ensures past { self.new.past ≡ self.old.past }
    {
        let mut left = Vec::new(alloc);
        self.drop_maps(m, &mut left, steps)?;
        self.drop_peers(m, &mut left, steps)?;
        Ok(left)
    }
}
