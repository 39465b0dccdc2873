//! What is told of a journal that is read once.
ghost use Rattle.std.specs.Prelude.{◌≡◌, ◌++◌, ◌∷◌, true, Err, IfOk, OnOk, map, max};
ghost use Rattle.pcp_base.specs.Reached.{IsReached};
ghost use Rattle.lease_disk.specs.Pairs.{PairHasCause};
ghost use Rattle.journal_sides.specs.Reads.{ArePairRead, AreSeenStill};
ghost use Rattle.journal_sides.specs.declared.errors.JournalFault.TheVariants.{Disk};
ghost use Rattle.journal_watch.specs.declared.happenings.Happening.TheVariants.{Begins, FoundMap, FoundPeer};
ghost use Rattle.watch_lines.specs.declared.doubts.Doubt.TheVariants as Doubts;
ghost use Rattle.watch_readings.specs.Readings.{IsReachedBy, IsToldAs, IsToldOf, once_reading_of};
ghost use Rattle.watch_readings.specs.Readings.OnceReading.{Counts, Doubtful};

use crate::terms::widest_terms;
use indexed_store::IndexedStore;
use journal_sides::{JournalFault, Verdict, judge};
use journal_watch::Happening;
use lease_core::LeaseCore;
use lease_disk::{DiskPair, LeaseDisk};
use lease_store::LeaseStore;
use pcp_base::{External, MapLease, Memory, Moment, Octets, PeerLease};
use std::alloc::Global;
use watch_lines::{Doubt, Setting, doubt_line_of, lines_of};

/// What is told of a journal that was read.
#[derive(Drop)]
pub struct Told {
    /// Why no leases are told, if none are.
    pub doubt: Option<Doubt>,
    /// How many leases are live.
    pub leases: usize,
    /// The lines.
    pub lines: Octets,
}

/// Which external address is read, and when.
#[derive(Clone, Copy)]
pub struct Place {
    pub external: External,
    /// Which of the configuration it is, from 0.
    pub shard: u32,
    /// The clock's time before anything was read.
    pub time: Moment,
}

/// Reads the journal of a pair, and tells the leases that are live at the greater of the time and the
/// journal's last moment. The pair is only read.
pub fn told_in<D: LeaseDisk>(
    alloc: Global,
    place: &Place,
    pair: &mut DiskPair<D>,
) -> Result<Told, JournalFault>
    ensures told { IfOk result
        (IsToldAs D.tells (D.seen pair.old.a) (D.seen pair.old.b)
        place.now.external place.now.shard place.now.time) }
    ensures read { ArePairRead D.moment D.left_since D.may_leave pair.old pair.new }
    ensures seen { D.tells → AreSeenStill D.seen pair.old pair.new }
    ensures cause { PairHasCause D.faults pair.old pair.new (result ≡ Err Disk) }
{
    let store = IndexedStore::new(alloc, widest_terms())?;
    told_by(alloc, place, pair, LeaseCore::over(store))
}

/// The same, by a core that is handed in.
fn told_by<D: LeaseDisk, S: LeaseStore + Drop>(
    alloc: Global,
    place: &Place,
    pair: &mut DiskPair<D>,
    core: LeaseCore<S>,
) -> Result<Told, JournalFault>
    ensures told { IfOk result
        (IsToldAs D.tells (D.seen pair.old.a) (D.seen pair.old.b)
        place.now.external place.now.shard place.now.time) }
    ensures read { ArePairRead D.moment D.left_since D.may_leave pair.old pair.new }
    ensures seen { D.tells → AreSeenStill D.seen pair.old pair.new }
    ensures cause { PairHasCause D.faults pair.old pair.new (result ≡ Err Disk) }
{
    let mut core = core;
    let verdict = judge(alloc, pair, &mut core)?;
    Ok(verdict_told(alloc, place, verdict, &core)?)
}

/// What is told of a journal that was judged so, and whose records the core holds.
fn verdict_told<S: LeaseStore>(
    alloc: Global,
    place: &Place,
    verdict: Verdict,
    core: &LeaseCore<S>,
) -> Result<Told, Memory>
    requires { IsReachedBy verdict (S.state core.now) }
    ensures { IfOk result (IsToldOf place.now.external place.now.shard place.now.time
        (once_reading_of verdict (S.state core.now))) }
{
    match verdict {
        Verdict::Counting(_side, standing) => live_told(alloc, place, standing.generation, core),
        Verdict::Neither => doubt_told(alloc, place, Doubt::Blank),
        Verdict::Broken(_a, _b) => doubt_told(alloc, place, Doubt::Damaged),
    }
}

/// What is told where the sides changed at each look.
pub(crate) fn unsettled_told(alloc: Global, place: &Place) -> Result<Told, Memory>
    ensures { IfOk result (IsToldOf place.now.external place.now.shard place.now.time
        (Doubtful Doubts.Unsettled)) }
{
    doubt_told(alloc, place, Doubt::Unsettled)
}

fn doubt_told(alloc: Global, place: &Place, doubt: Doubt) -> Result<Told, Memory>
    ensures { IfOk result (IsToldOf place.now.external place.now.shard place.now.time
        (Doubtful doubt)) }
{
    let setting = Setting {
        address: place.external.address,
        shard: place.shard,
        moment: place.time,
        base: place.time,
        last: place.time,
    };
    Ok(Told {
        doubt: Some(doubt),
        leases: 0,
        lines: Octets::of(doubt_line_of(alloc, &setting, doubt)?),
    })
}

/// The later of two moments.
fn later_of(time: Moment, last: Moment) -> Moment
    ensures { result ≡ max time last }
{
    if time < last { last } else { time }
}

/// What is told of the leases of a state.
fn live_told<S: LeaseStore>(
    alloc: Global,
    place: &Place,
    generation: u64,
    core: &LeaseCore<S>,
) -> Result<Told, Memory>
    requires { IsReached (S.state core.now) }
    ensures { IfOk result (IsToldOf place.now.external place.now.shard place.now.time
        (Counts generation (S.state core.now))) }
{
    let moment = later_of(place.time, core.last());
    let maps = core.maps(alloc, moment)?;
    let peers = core.peers(alloc, moment)?;
    let happenings = found(alloc, generation, &maps, &peers)?;
    let setting = Setting {
        address: core.address().unwrap_or(place.external.address),
        shard: place.shard,
        moment,
        base: core.base(),
        last: core.last(),
    };
    Ok(Told {
        doubt: None,
        leases: maps.len() + peers.len(),
        lines: Octets::of(lines_of(alloc, &setting, &happenings)?),
    })
}

/// A life that begins, and all these leases.
fn found(
    alloc: Global,
    generation: u64,
    maps: &[MapLease],
    peers: &[PeerLease],
) -> Result<Vec<Happening>, Memory>
    ensures { IfOk result (λ told. told.items
        ≡ Begins generation true ∷ (map FoundMap maps.now ++ map FoundPeer peers.now)) }
{
    let mut told = Vec::new(alloc);
    told.push(Happening::Begins(generation, true))?;
    put_maps(&mut told, maps)?;
    put_peers(&mut told, peers)?;
    Ok(told)
}

fn put_maps(told: &mut Vec<Happening>, maps: &[MapLease]) -> Result<(), Memory>
    ensures { OnOk result (told.new.items ≡ told.old.items ++ map FoundMap maps.now) }
{
    for lease in maps {
        told.push(Happening::FoundMap(*lease))?;
    }
    Ok(())
}

fn put_peers(told: &mut Vec<Happening>, peers: &[PeerLease]) -> Result<(), Memory>
    ensures { OnOk result (told.new.items ≡ told.old.items ++ map FoundPeer peers.now) }
{
    for lease in peers {
        told.push(Happening::FoundPeer(*lease))?;
    }
    Ok(())
}
