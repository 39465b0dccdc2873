//! How an index is made.
ghost use Rattle.std.specs.Prelude.{◌≡◌, ◌+◌, ◌≤◌, ◌++◌, [], map, length, IfOk};
ghost use Rattle.std.specs.List.{AllByRecursion};
ghost use Rattle.pcp_base.specs.Tables.{IsMapLease};
ghost use Rattle.lane_index.specs.declared.links.TheConstants.{CELLS};
ghost use Rattle.pcp_base.specs.Sound.{Sound};
ghost use Rattle.lane_index.specs.Histories.{only_opening};
ghost use Rattle.lane_index.specs.Replicas.{IsReplica};
ghost use Rattle.lane_index.specs.Lanes.{lane_of, writer_of, opening_state};
ghost use Rattle.lane_index.specs.Slots.{map_kept, peer_kept};

use crate::cells::{Cell, MapCell, PeerCell};
use crate::history::{History, SeenHistory};
use crate::index::Index;
use crate::lanes::{Lane, LaneWriter};
use crate::pushed::kept_filters;
use crate::replicas::Replica;
use crate::showing::tied;
use pcp_base::{External, MapLease, Memory, Moment, PeerLease};
use std::alloc::Global;
use std::sync::Wait;

/// Gives each MAP lease a cell.
fn fill_maps(alloc: Global, index: &mut Index, maps: &[MapLease]) -> Result<(), Memory>
    requires few { length index.old + length maps.now ≤ CELLS }
    requires placed { AllByRecursion IsMapLease maps.now }
    ensures { IfOk result (λ _. index.new
        ≡ index.old ++ map (λ l. Cell.Mapping (map_kept l)) maps.now) }
{
    for lease in maps {
        let filters = kept_filters(alloc, &lease.filters)?;
        index.add(Cell::Mapping(MapCell::of(lease, filters)));
    }
    Ok(())
}

/// Gives each PEER lease a cell.
fn fill_peers(index: &mut Index, peers: &[PeerLease])
    requires few { length index.old + length peers.now ≤ CELLS }
    ensures { index.new ≡ index.old ++ map (λ l. Cell.Peering (peer_kept l)) peers.now }
{
    for lease in peers {
        index.add(Cell::Peering(PeerCell::of(lease)));
    }
}

/// A copy of an index with these leases.
fn filled(
    alloc: Global,
    maps: &[MapLease],
    peers: &[PeerLease],
    last: Moment,
    seen: &SeenHistory,
    count: u64,
) -> Result<Replica, Memory>
    requires sound { Sound (record { maps = maps.now; peers = peers.now }) }
    requires opened { seen.now.log ≡ only_opening maps.now peers.now last }
    requires counted { count ≡ length seen.now.log }
    ensures copy { IfOk result (λ r. IsReplica seen.now.book r) }
    ensures rest { IfOk result (λ r. (r.seen ≡ seen.now) × (r.count ≡ count) × (r.last ≡ last)) }
    ensures alike { IfOk result (λ r. r.index ≡ map (λ l. Cell.Mapping (map_kept l)) maps.now
        ++ map (λ l. Cell.Peering (peer_kept l)) peers.now) }
{
    let mut index = Index::new(alloc)?;
    fill_maps(alloc, &mut index, maps)?;
    fill_peers(&mut index, peers);
    Ok(Replica {
        index,
        last,
        seen: seen.again(),
        count,
    })
}

/// An index of the leases of a sound table, by its writer and its lane. `last` is the moment of the
/// last record before. Nothing is published, and the lane knows no record. All leases stand in it,
/// also where their ports are outside those of the external address, which isn't read. It waits for
/// no other thread. The one error is want of memory.
pub fn lane<R: Wait>(
    rt: &R,
    alloc: Global,
    _external: &External,
    maps: &[MapLease],
    peers: &[PeerLease],
    last: Moment,
) -> Result<(LaneWriter, Lane), Memory>
    requires sound { Sound (record { maps = maps.now; peers = peers.now }) }
    ensures writer { IfOk result (λ made.
        made.0 ≡ writer_of made.1.index (opening_state maps.now peers.now last) [] []) }
    ensures lane { IfOk result (λ made.
        made.1 ≡ lane_of made.0.index (opening_state maps.now peers.now last) []) }
{
    let Some(history) = History::open(maps, peers, last) else {
        return Err(Memory);
    };
    let seen = history.seen();
    let count = history.len();
    let shown = filled(alloc, maps, peers, last, &seen, count)?;
    let spare = filled(alloc, maps, peers, last, &seen, count)?;
    let (writer, reader) = tied(rt, alloc, shown, spare)?;
    let writer = LaneWriter {
        alloc,
        writer: Some(writer),
        shown: history.seen(),
        waiting: Vec::new(alloc),
        history,
    };
    let lane = Lane {
        reader: Some(reader),
        seen,
        count,
    };
    Ok((writer, lane))
}
