//! What a change makes of the leases.
ghost use Rattle.std.specs.Prelude.{◌≡◌, ◌<◌, ◌≤◌, ◌+◌, ◌*◌, false, Contains, IfSome, IfOk, OnOk};
ghost use Rattle.pcp_base.specs.declared.leases.PeerLease.{PeerLease};
ghost use Rattle.pcp_base.specs.Tables.{IsMapLease, IsPeerLease, live};
ghost use Rattle.pcp_base.specs.declared.records.Change.TheVariants.{Map, Peer, DropMap, DropPeer};
ghost use Rattle.pcp_base.specs.Sound.{Sound};
ghost use Rattle.pcp_base.specs.Records.{IsWellFormedChange};
ghost use Rattle.pcp_base.specs.Apply.{table_changed};
ghost use Rattle.pcp_base.specs.Apply as by_apply;
ghost use Rattle.pcp_base.specs.Fits.{IsAllowed};
ghost use Rattle.indexed_store.specs.Holding.{IsEvenRun};
ghost use Rattle.indexed_store.specs.Tabled.{AreTabled, no_tables};
ghost use Rattle.indexed_store.specs.Runs.{touched_run};
ghost use Rattle.indexed_store.specs.Looks.{change_steps, most_levels, puts_peer};

use crate::leases::Leases;
use crate::owning::{OwnerRun, run_of_map, run_of_peer};
use mapping_table::laws::{fewer_maps_are_sound, maps_are_sound_with_one_more};
use pcp_base::{Address, Change, Endpoint, MapLease, Memory, Moment, PeerLease};
use peer_table::laws::{fewer_peers_are_sound, peers_are_sound_with_one_more};
use std::alloc::Global;
use std::sync::ledger::Ledger;
use step_count::Steps;
use step_count::laws::levels_grow;

impl Leases {
    /// No leases.
    pub(crate) fn clear(&mut self)
        ensures { self.new ≡ no_tables }
    {
        self.maps.clear();
        self.peers.clear();
    }

    /// Puts a MAP lease, of which those that are in its way have ended by `m` and go. Tells its ports.
    fn put_map<L: Ledger>(
        &mut self,
        alloc: Global,
        m: Moment,
        lease: &MapLease,
        steps: &mut Steps<L>,
    ) -> Result<Option<OwnerRun>, Memory>
        requires tabled { AreTabled self.old.found }
        requires after { Sound (table_changed (Map lease.now) (live self.old.found m)) }
        requires lease { IsMapLease lease.now }
        requires later { m < lease.now.expiry }
        ensures tabled { OnOk result (AreTabled self.new.found) }
        ensures table { OnOk result (live self.new.found m
            ≡ table_changed (Map lease.now) (live self.old.found m)) }
        ensures touched { IfOk result (λ run.
            run ≡ touched_run (Map lease.now) (live self.old.found m)) }
        ensures formed { IfOk result (λ run. IfSome run (IsEvenRun self.new.found.maps)) }
        ensures peers_from { OnOk result ((l : PeerLease) → Contains self.new.found.peers l
            → Contains self.old.found.peers l) }
        ensures past { self.new.past ≡ self.old.past }
        ensures steps { steps.new ≤ steps.old
            + change_steps m (Map lease.now) self.old.found }
    {
        levels_grow();
        maps_are_sound_with_one_more();
        self.make_way_for_map(m, lease, steps);
        self.maps.put(alloc, *lease, steps)?;
        Ok(Some(run_of_map(lease)))
    }

    /// Puts a PEER lease, likewise. Tells its port.
    fn put_peer<L: Ledger>(
        &mut self,
        alloc: Global,
        m: Moment,
        lease: &PeerLease,
        steps: &mut Steps<L>,
    ) -> Result<Option<OwnerRun>, Memory>
        requires tabled { AreTabled self.old.found }
        requires after { Sound (table_changed (Peer lease.now) (live self.old.found m)) }
        requires lease { IsPeerLease lease.now }
        requires later { m < lease.now.expiry }
        ensures tabled { OnOk result (AreTabled self.new.found) }
        ensures table { OnOk result (live self.new.found m
            ≡ table_changed (Peer lease.now) (live self.old.found m)) }
        ensures touched { IfOk result (λ run.
            run ≡ touched_run (Peer lease.now) (live self.old.found m)) }
        ensures formed { IfOk result (λ run. IfSome run (IsEvenRun self.new.found.maps)) }
        ensures past { self.new.past ≡ self.old.past }
        ensures steps { steps.new ≤ steps.old
            + change_steps m (Peer lease.now) self.old.found }
    {
        levels_grow();
        peers_are_sound_with_one_more();
        self.make_way_for_peer(m, lease, steps);
        self.peers.put(alloc, *lease, steps)?;
        Ok(Some(run_of_peer(lease)))
    }

    /// Takes out a MAP lease that is live at `m`. Tells its ports.
    fn delete_map<L: Ledger>(
        &mut self,
        m: Moment,
        key: &Endpoint,
        steps: &mut Steps<L>,
    ) -> Option<OwnerRun>
        requires tabled { AreTabled self.old.found }
        requires there { IsAllowed (live self.old.found m) (DropMap key.now) }
        ensures tabled { AreTabled self.new.found }
        ensures table { live self.new.found m
            ≡ table_changed (DropMap key.now) (live self.old.found m) }
        ensures touched { result ≡ touched_run (DropMap key.now) (live self.old.found m) }
        ensures formed { IfSome result (IsEvenRun self.new.found.maps) }
        ensures peers { self.new.found.peers ≡ self.old.found.peers }
        ensures past { self.new.past ≡ self.old.past }
        ensures steps { steps.new ≤ steps.old + 8 * most_levels }
    {
        levels_grow();
        fewer_maps_are_sound();
        let Some(lease) = self.maps.remove(key, steps) else {
            return None;
        };
        Some(run_of_map(&lease))
    }

    /// Takes out a PEER lease that is live at `m`. Tells its port.
    fn delete_peer<L: Ledger>(
        &mut self,
        m: Moment,
        endpoint: &Endpoint,
        remote: &Address,
        port: u16,
        steps: &mut Steps<L>,
    ) -> Option<OwnerRun>
        requires tabled { AreTabled self.old.found }
        requires there { IsAllowed (live self.old.found m)
            (DropPeer endpoint.now remote.now port) }
        ensures tabled { AreTabled self.new.found }
        ensures table { live self.new.found m
            ≡ table_changed (DropPeer endpoint.now remote.now port) (live self.old.found m) }
        ensures touched { result
            ≡ touched_run (DropPeer endpoint.now remote.now port) (live self.old.found m) }
        ensures formed { IfSome result (IsEvenRun self.new.found.maps) }
        ensures peers_from { (l : PeerLease) → Contains self.new.found.peers l
            → Contains self.old.found.peers l }
        ensures past { self.new.past ≡ self.old.past }
        ensures steps { steps.new ≤ steps.old + 6 * most_levels }
    {
        levels_grow();
        fewer_peers_are_sound();
        let Some(lease) = self.peers.remove(endpoint, remote, port, steps) else {
            return None;
        };
        Some(run_of_peer(&lease))
    }

    /// Makes a change of the leases that are live at `m`. Tells the ports of the lease that it puts or
    /// takes out.
    pub(crate) fn change<L: Ledger>(
        &mut self,
        alloc: Global,
        m: Moment,
        change: &Change,
        steps: &mut Steps<L>,
    ) -> Result<Option<OwnerRun>, Memory>
        requires formed { IsWellFormedChange m change.now }
        requires keeps { by_apply.empties change.now ≡ false }
        requires tabled { AreTabled self.old.found }
        requires allowed { IsAllowed (live self.old.found m) change.now }
        requires after { Sound (table_changed change.now (live self.old.found m)) }
        ensures tabled { OnOk result (AreTabled self.new.found) }
        ensures table { OnOk result (live self.new.found m
            ≡ table_changed change.now (live self.old.found m)) }
        ensures touched { IfOk result (λ run.
            run ≡ touched_run change.now (live self.old.found m)) }
        ensures formed { IfOk result (λ run. IfSome run (IsEvenRun self.new.found.maps)) }
        ensures peers_from { OnOk result (puts_peer change.now ≡ false → (l : PeerLease) →
            Contains self.new.found.peers l → Contains self.old.found.peers l) }
        ensures past { self.new.past ≡ self.old.past }
        ensures steps { steps.new ≤ steps.old + change_steps m change.now self.old.found }
    {
        match change {
            Change::Map(lease) => self.put_map(alloc, m, lease, steps),
            Change::Peer(lease) => self.put_peer(alloc, m, lease, steps),
            Change::DropMap(key) => Ok(self.delete_map(m, key, steps)),
            Change::DropPeer(endpoint, remote, port) => {
                Ok(self.delete_peer(m, endpoint, remote, *port, steps))
            }
            _ => Ok(None),
        }
    }
}
