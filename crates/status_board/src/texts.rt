//! The numbers of a server as JSON.
use crate::boards::{Board, ShardWords};
use crate::numbers::{JobCounts, ShardNumbers};
use pcp_base::{Address, Config, Memory, Moment};
use serde_json::{Map, Value, put};
use std::alloc::Global;
use std::io;
use std::net::{IpAddr, Ipv6Addr};

impl Board {
    /// The numbers at this moment as a JSON object without spaces, and a line feed. Addresses are written
    /// by RFC 5952. The one error is want of memory.
    pub fn text(&self, alloc: Global, config: &Config, moment: Moment) -> Result<Vec<u8>, Memory> {
        let mut externals = Vec::new(alloc);
        for (external, words) in config.externals.items().iter().zip(self.shards.iter()) {
            externals.push(external_value(alloc, &external.address, words)?)?;
        }
        let mut dispatcher = Map::new(alloc);
        put(
            &mut dispatcher,
            alloc,
            "dropped",
            Value::from(self.dropped()),
        )?;
        let mut object = Map::new(alloc);
        put(
            &mut object,
            alloc,
            "clock_offset",
            Value::from(self.clock_offset()),
        )?;
        put(&mut object, alloc, "dispatcher", Value::Object(dispatcher))?;
        put(&mut object, alloc, "externals", Value::Array(externals))?;
        put(&mut object, alloc, "moment", Value::from(moment.get()))?;
        let mut text = Value::Object(object).to_string(alloc)?.into_bytes();
        text.push(b'\n')?;
        Ok(text)
    }
}

/// An external address and its numbers.
fn external_value(alloc: Global, address: &Address, words: &ShardWords) -> Result<Value, Memory> {
    let ShardNumbers {
        moment,
        base,
        leases,
        free_tcp,
        free_udp,
    } = words.numbers();
    let mut object = Map::new(alloc);
    put(
        &mut object,
        alloc,
        "address",
        address_value(alloc, address)?,
    )?;
    put(&mut object, alloc, "base", Value::from(base))?;
    put(&mut object, alloc, "fault", fault_value(alloc, words)?)?;
    put(
        &mut object,
        alloc,
        "fault_moment",
        moment_value(words.fault_moment()),
    )?;
    put(&mut object, alloc, "free_tcp", Value::from(free_tcp))?;
    put(&mut object, alloc, "free_udp", Value::from(free_udp))?;
    put(&mut object, alloc, "journal", Value::from(words.octets()))?;
    put(&mut object, alloc, "leases", Value::from(leases))?;
    put(&mut object, alloc, "moment", Value::from(moment))?;
    put(
        &mut object,
        alloc,
        "tally",
        tally_value(alloc, words.counts(), words.full())?,
    )?;
    Ok(Value::Object(object))
}

/// The counts of an external address, by their names in the tally.
fn tally_value(alloc: Global, counts: JobCounts, full: u64) -> Result<Value, Memory> {
    let mut object = Map::new(alloc);
    put(&mut object, alloc, "faulted", Value::from(counts.faulted))?;
    put(&mut object, alloc, "full", Value::from(full))?;
    put(&mut object, alloc, "replied", Value::from(counts.replied))?;
    put(&mut object, alloc, "silent", Value::from(counts.silent))?;
    put(&mut object, alloc, "starved", Value::from(counts.starved))?;
    put(&mut object, alloc, "taken", Value::from(counts.taken))?;
    put(&mut object, alloc, "unsent", Value::from(counts.unsent))?;
    Ok(Value::Object(object))
}

/// A moment, or null where there is none.
fn moment_value(moment: Option<Moment>) -> Value {
    match moment {
        Some(moment) => Value::from(moment.get()),
        None => Value::Null,
    }
}

/// Why the last call for an external address met a fault of a disk: the side, and what the system says;
/// null where it met none.
fn fault_value(alloc: Global, words: &ShardWords) -> Result<Value, Memory> {
    if !words.fails() {
        return Ok(Value::Null);
    }
    let text = match words.error() {
        Some((side, Some(number))) => {
            let side = side_name(side);
            let error = io::Error::from_raw_os_error(number);
            format!(in alloc; "side {side}: {error}")?
        }
        Some((side, None)) => {
            let side = side_name(side);
            format!(in alloc; "side {side}: a sync failed before")?
        }
        None => format!(in alloc; "a disk failed")?,
    };
    Ok(Value::String(text))
}

/// The letter of a side.
fn side_name(side: usize) -> &'static str {
    if side == 0 { "a" } else { "b" }
}

/// An address as text.
fn address_value(alloc: Global, address: &Address) -> Result<Value, Memory> {
    let v6 = Ipv6Addr::from_octets(address.0);
    let ip = match v6.to_ipv4_mapped() {
        Some(v4) => IpAddr::V4(v4),
        None => IpAddr::V6(v6),
    };
    Ok(Value::String(format!(in alloc; "{ip}")?))
}
