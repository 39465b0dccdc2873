//! What one journal holds, as JSON.
ghost use Rattle.std.specs.Prelude.{◌≡◌, [], ◌∷◌, Err, IfOk, codes};
ghost use Rattle.pcp_base.specs.Reached.{IsReached};
ghost use Rattle.serde_json.specs.Data.{object, string};
ghost use Rattle.serde_json.specs.View.{view};
ghost use Rattle.lease_disk.specs.Pairs.{PairHasCause};
ghost use Rattle.journal_sides.specs.Reads.{ArePairRead, AreSeenStill};
ghost use Rattle.journal_sides.specs.declared.errors.JournalFault.TheVariants.{Disk};
ghost use Rattle.lease_json.specs.Objects.{address_value, maps_value, members, named, peers_value};
ghost use Rattle.journal_dump.specs.Dumps.{reading_value};
ghost use Rattle.journal_dump.specs.Readings.{reading_of};
ghost use Rattle.journal_dump.specs.Turns.{IsReadAs};
ghost use Rattle.journal_dump.specs.Readings.JournalReading.{Recovered};

use crate::terms::widest_terms;
use indexed_store::IndexedStore;
use lease_core::LeaseCore;
use lease_disk::{DiskPair, LeaseDisk};
use lease_journal::{Found, Journal, JournalFault};
use lease_json::{address_of, maps_of, peers_of};
use lease_store::LeaseStore;
use pcp_base::{External, Memory};
use serde_json::{Map, Value, put};
use std::alloc::Global;

/// Reads the journal of a pair, and says as JSON what it holds.
pub(crate) fn reading_in<D: LeaseDisk>(
    alloc: Global,
    external: &External,
    pair: &mut DiskPair<D>,
) -> Result<Value, JournalFault>
    ensures value { IfOk result
        (λ v. IsReadAs D.tells D.seen external.now pair.old (view v)) }
    ensures read { ArePairRead D.moment D.left_since D.may_leave pair.old pair.new }
    ensures seen { D.tells → AreSeenStill D.seen pair.old pair.new }
    ensures cause { PairHasCause D.faults pair.old pair.new (result ≡ Err Disk) }
{
    let store = IndexedStore::new(alloc, widest_terms())?;
    read_into(alloc, external, pair, LeaseCore::over(store))
}

/// The same, by a core that is handed in.
fn read_into<D: LeaseDisk, S: LeaseStore + Drop>(
    alloc: Global,
    external: &External,
    pair: &mut DiskPair<D>,
    core: LeaseCore<S>,
) -> Result<Value, JournalFault>
    ensures value { IfOk result
        (λ v. IsReadAs D.tells D.seen external.now pair.old (view v)) }
    ensures read { ArePairRead D.moment D.left_since D.may_leave pair.old pair.new }
    ensures seen { D.tells → AreSeenStill D.seen pair.old pair.new }
    ensures cause { PairHasCause D.faults pair.old pair.new (result ≡ Err Disk) }
{
    let mut core = core;
    let found = Journal::view(alloc, pair, &mut core)?;
    Ok(value_of(alloc, external, found, &core)?)
}

fn value_of<S: LeaseStore>(
    alloc: Global,
    external: &External,
    found: Found,
    core: &LeaseCore<S>,
) -> Result<Value, Memory>
    requires { IsReached (S.state core.now) }
    ensures { IfOk result (λ v. view v
        ≡ reading_value external.now (reading_of found (S.state core.now))) }
{
    match found {
        Found::Recovered => recovered_value(alloc, external, core),
        Found::Blank => state_value(alloc, external, "blank"),
        Found::Damaged => state_value(alloc, external, "damaged"),
    }
}

// The object of a journal that has no leases.
fn state_value(alloc: Global, external: &External, state: &str) -> Result<Value, Memory>
    ensures { IfOk result (λ v. view v ≡ object (members (
        named (codes "address") (address_value external.now.address)
        ∷ named (codes "state") (string state.now)
        ∷ []))) }
{
    let mut object = Map::new(alloc);
    put(
        &mut object,
        alloc,
        "address",
        address_of(alloc, &external.address)?,
    )?;
    put(
        &mut object,
        alloc,
        "state",
        Value::try_from_str(alloc, state)?,
    )?;
    Ok(Value::Object(object))
}

/// The MAP leases of the state: each is live at the last moment.
fn maps_in<S: LeaseStore>(alloc: Global, core: &LeaseCore<S>) -> Result<Value, Memory>
    requires { IsReached (S.state core.now) }
    ensures { IfOk result (λ v. view v ≡ maps_value (S.state core.now).table.maps) }
{
    let maps = core.maps(alloc, core.last())?;
    maps_of(alloc, &maps)
}

/// The PEER leases of the state: each is live at the last moment.
fn peers_in<S: LeaseStore>(alloc: Global, core: &LeaseCore<S>) -> Result<Value, Memory>
    requires { IsReached (S.state core.now) }
    ensures { IfOk result (λ v. view v ≡ peers_value (S.state core.now).table.peers) }
{
    let peers = core.peers(alloc, core.last())?;
    peers_of(alloc, &peers)
}

fn recovered_value<S: LeaseStore>(
    alloc: Global,
    external: &External,
    core: &LeaseCore<S>,
) -> Result<Value, Memory>
    requires { IsReached (S.state core.now) }
    ensures { IfOk result (λ v. view v
        ≡ reading_value external.now (Recovered (S.state core.now))) }
{
    let mut object = Map::new(alloc);
    put(
        &mut object,
        alloc,
        "address",
        address_of(alloc, &external.address)?,
    )?;
    put(&mut object, alloc, "base", Value::from(core.base().get()))?;
    put(&mut object, alloc, "last", Value::from(core.last().get()))?;
    put(&mut object, alloc, "maps", maps_in(alloc, core)?)?;
    put(&mut object, alloc, "peers", peers_in(alloc, core)?)?;
    put(
        &mut object,
        alloc,
        "state",
        Value::try_from_str(alloc, "recovered")?,
    )?;
    Ok(Value::Object(object))
}
