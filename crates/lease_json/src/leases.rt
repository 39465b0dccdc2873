//! Leases as JSON.
ghost use Rattle.std.specs.Prelude.{◌≡◌, IfOk};
ghost use Rattle.serde_json.specs.View.{view};
ghost use Rattle.lease_json.specs.Objects.{filter_value, filters_value, map_value, maps_value, peer_value, peers_value};

use crate::texts::{address_of, nonce_of};
use pcp_base::{Filter, MapLease, Memory, PeerLease};
use serde_json::{Map, Value, put};
use std::alloc::Global;

fn filter_of(alloc: Global, filter: &Filter) -> Result<Value, Memory>
    ensures { IfOk result (λ v. view v ≡ filter_value filter.now) }
{
    let mut object = Map::new(alloc);
    put(&mut object, alloc, "port", Value::from(filter.port))?;
    put(&mut object, alloc, "prefix", Value::from(filter.prefix))?;
    put(
        &mut object,
        alloc,
        "remote",
        address_of(alloc, &filter.remote)?,
    )?;
    Ok(Value::Object(object))
}

fn filters_of(alloc: Global, filters: &[Filter]) -> Result<Value, Memory>
    ensures { IfOk result (λ v. view v ≡ filters_value filters.now) }
{
    let mut values = Vec::new(alloc);
    for filter in filters {
        values.push(filter_of(alloc, filter)?)?;
    }
    Ok(Value::Array(values))
}

// A MAP lease as a JSON object.
fn map_of(alloc: Global, lease: &MapLease) -> Result<Value, Memory>
    ensures { IfOk result (λ v. view v ≡ map_value lease.now) }
{
    let mut object = Map::new(alloc);
    put(
        &mut object,
        alloc,
        "address",
        address_of(alloc, &lease.address)?,
    )?;
    put(&mut object, alloc, "count", Value::from(lease.count))?;
    put(&mut object, alloc, "expiry", Value::from(lease.expiry))?;
    put(&mut object, alloc, "external", Value::from(lease.external))?;
    put(
        &mut object,
        alloc,
        "filters",
        filters_of(alloc, lease.filters.items())?,
    )?;
    put(
        &mut object,
        alloc,
        "granted",
        Value::from(lease.granted.get()),
    )?;
    put(&mut object, alloc, "internal", Value::from(lease.internal))?;
    put(&mut object, alloc, "nonce", nonce_of(alloc, &lease.nonce)?)?;
    put(
        &mut object,
        alloc,
        "protocol",
        Value::from(lease.protocol.number()),
    )?;
    Ok(Value::Object(object))
}

// A PEER lease as a JSON object.
fn peer_of(alloc: Global, lease: &PeerLease) -> Result<Value, Memory>
    ensures { IfOk result (λ v. view v ≡ peer_value lease.now) }
{
    let mut object = Map::new(alloc);
    put(
        &mut object,
        alloc,
        "address",
        address_of(alloc, &lease.endpoint.address)?,
    )?;
    put(&mut object, alloc, "expiry", Value::from(lease.expiry))?;
    put(&mut object, alloc, "external", Value::from(lease.external))?;
    put(
        &mut object,
        alloc,
        "granted",
        Value::from(lease.granted.get()),
    )?;
    put(
        &mut object,
        alloc,
        "internal",
        Value::from(lease.endpoint.port),
    )?;
    put(&mut object, alloc, "nonce", nonce_of(alloc, &lease.nonce)?)?;
    put(
        &mut object,
        alloc,
        "protocol",
        Value::from(lease.endpoint.protocol.number()),
    )?;
    put(
        &mut object,
        alloc,
        "remote",
        address_of(alloc, &lease.remote)?,
    )?;
    put(
        &mut object,
        alloc,
        "remote_port",
        Value::from(lease.remote_port),
    )?;
    Ok(Value::Object(object))
}

/// MAP leases as a JSON array of objects.
pub fn maps_of(alloc: Global, leases: &[MapLease]) -> Result<Value, Memory>
    ensures { IfOk result (λ v. view v ≡ maps_value leases.now) }
{
    let mut values = Vec::new(alloc);
    for lease in leases {
        values.push(map_of(alloc, lease)?)?;
    }
    Ok(Value::Array(values))
}

/// PEER leases as a JSON array of objects.
pub fn peers_of(alloc: Global, leases: &[PeerLease]) -> Result<Value, Memory>
    ensures { IfOk result (λ v. view v ≡ peers_value leases.now) }
{
    let mut values = Vec::new(alloc);
    for lease in leases {
        values.push(peer_of(alloc, lease)?)?;
    }
    Ok(Value::Array(values))
}
