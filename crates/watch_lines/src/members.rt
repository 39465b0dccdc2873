//! The objects of lines.
ghost use Rattle.std.specs.Prelude.{◌≡◌, IfOk, codes};
ghost use Rattle.serde_json.specs.Data.{object};
ghost use Rattle.serde_json.specs.View.{members_view, view};
ghost use Rattle.lease_json.specs.Objects.{map_value, members, peer_value};
ghost use Rattle.watch_lines.specs.Lines.{begin_value, lost_value, map_line, named_value, peer_line, place_members};

use crate::settings::Setting;
use lease_json::{address_of, maps_of, peers_of};
use pcp_base::{Address, MapLease, Memory, PeerLease};
use serde_json::{Map, Value, put};
use std::alloc::Global;

/// What each line of an external address has but for the moment.
pub(crate) fn place_of(
    alloc: Global,
    setting: &Setting,
    what: &str,
) -> Result<Map<String, Value>, Memory>
    ensures { IfOk result (λ m. members_view m.entries
        ≡ members (place_members setting.now what.now)) }
{
    let mut object = Map::new(alloc);
    put(
        &mut object,
        alloc,
        "address",
        address_of(alloc, &setting.address)?,
    )?;
    put(&mut object, alloc, "shard", Value::from(setting.shard))?;
    put(
        &mut object,
        alloc,
        "what",
        Value::try_from_str(alloc, what)?,
    )?;
    Ok(object)
}

/// A life of a side that begins.
pub(crate) fn begin_of(
    alloc: Global,
    setting: &Setting,
    generation: u64,
    gap: bool,
) -> Result<Value, Memory>
    ensures { IfOk result (λ v. view v ≡ begin_value setting.now generation gap) }
{
    let mut object = place_of(alloc, setting, "begin")?;
    put(&mut object, alloc, "base", Value::from(setting.base.get()))?;
    put(&mut object, alloc, "gap", Value::from(gap))?;
    put(&mut object, alloc, "generation", Value::from(generation))?;
    put(&mut object, alloc, "last", Value::from(setting.last.get()))?;
    put(
        &mut object,
        alloc,
        "moment",
        Value::from(setting.moment.get()),
    )?;
    Ok(Value::Object(object))
}

/// A MAP lease as a JSON object.
fn map_of(alloc: Global, lease: &MapLease) -> Result<Value, Memory>
    ensures { IfOk result (λ v. view v ≡ map_value lease.now) }
{
    let mut values = maps_of(alloc, &[*lease])?;
    match values.get_mut(0) {
        Some(value) => Ok(value.take()),
        None => unreachable!(),
    }
}

/// A PEER lease as a JSON object.
fn peer_of(alloc: Global, lease: &PeerLease) -> Result<Value, Memory>
    ensures { IfOk result (λ v. view v ≡ peer_value lease.now) }
{
    let mut values = peers_of(alloc, &[*lease])?;
    match values.get_mut(0) {
        Some(value) => Ok(value.take()),
        None => unreachable!(),
    }
}

/// What became of a MAP lease.
pub(crate) fn map_line_of(
    alloc: Global,
    setting: &Setting,
    what: &str,
    lease: &MapLease,
) -> Result<Value, Memory>
    ensures { IfOk result (λ v. view v ≡ map_line setting.now what.now lease.now) }
{
    let mut object = place_of(alloc, setting, what)?;
    put(&mut object, alloc, "map", map_of(alloc, lease)?)?;
    put(
        &mut object,
        alloc,
        "moment",
        Value::from(setting.moment.get()),
    )?;
    Ok(Value::Object(object))
}

/// What became of a PEER lease.
pub(crate) fn peer_line_of(
    alloc: Global,
    setting: &Setting,
    what: &str,
    lease: &PeerLease,
) -> Result<Value, Memory>
    ensures { IfOk result (λ v. view v ≡ peer_line setting.now what.now lease.now) }
{
    let mut object = place_of(alloc, setting, what)?;
    put(
        &mut object,
        alloc,
        "moment",
        Value::from(setting.moment.get()),
    )?;
    put(&mut object, alloc, "peer", peer_of(alloc, lease)?)?;
    Ok(Value::Object(object))
}

/// So many live leases that are lost.
pub(crate) fn lost_of(alloc: Global, setting: &Setting, leases: u64) -> Result<Value, Memory>
    ensures { IfOk result (λ v. view v ≡ lost_value setting.now leases) }
{
    let mut object = place_of(alloc, setting, "lost")?;
    put(&mut object, alloc, "base", Value::from(setting.base.get()))?;
    put(&mut object, alloc, "leases", Value::from(leases))?;
    put(
        &mut object,
        alloc,
        "moment",
        Value::from(setting.moment.get()),
    )?;
    Ok(Value::Object(object))
}

/// An external address that is named.
pub(crate) fn named_of(alloc: Global, setting: &Setting, address: &Address) -> Result<Value, Memory>
    ensures { IfOk result (λ v. view v ≡ named_value setting.now address.now) }
{
    let mut object = Map::new(alloc);
    put(&mut object, alloc, "address", address_of(alloc, address)?)?;
    put(&mut object, alloc, "base", Value::from(setting.base.get()))?;
    put(
        &mut object,
        alloc,
        "moment",
        Value::from(setting.moment.get()),
    )?;
    put(&mut object, alloc, "shard", Value::from(setting.shard))?;
    put(
        &mut object,
        alloc,
        "what",
        Value::try_from_str(alloc, "named")?,
    )?;
    Ok(Value::Object(object))
}
