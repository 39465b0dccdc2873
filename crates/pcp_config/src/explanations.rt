//! What a person is told of a text that is no configuration.
ghost use Rattle.std.specs.Prelude.{◌≤◌, length};
ghost use Rattle.pcp_base.specs.declared.configs.TheConstants.{MOST_EXTERNALS};

use crate::faults::{Expected, Fault, Place};
use crate::listen_texts::{around_percent, host_address, is_link_local, listen_parts};
use crate::listening::{is_door_count, listen_in, orders_in};
use crate::lists::{Unread, externals_in, is_count};
use crate::tables::{EXTERNAL_KEYS, SUBSCRIBER_KEYS, index_of};
use crate::texts::{
    CONFIG_KEYS, ConfigRefused, lifetime_max_in, lifetime_min_in, quota_in, read_config,
};
use crate::values::{address_at, is_one_of, number_at, prefix_at, prefix_of, value_at};
use crate::{LAST_PORT, LONGEST_CONFIG};
use pcp_base::{
    Address, External, LONGEST_LIFETIME, MOST_QUOTA, MOST_SUBSCRIBERS, MOST_THIRD_PARTIES, Memory,
};
use std::alloc::Global;
use toml::de::Error;
use toml::{Table, Value};

/// One line, without a line feed, that tells a person the first fault of the text and what was expected
/// there; none where the text stands for a configuration.
pub fn explain(alloc: Global, text: &[u8]) -> Result<Option<String>, Memory> {
    match read_config(alloc, text) {
        Ok(_) => Ok(None),
        Err(ConfigRefused::Memory) => Err(Memory),
        Err(ConfigRefused::TooLong) => {
            let line = format!(in alloc; "expected at most {LONGEST_CONFIG} octets")?;
            Ok(Some(line))
        }
        Err(ConfigRefused::NotToml | ConfigRefused::NotConfig) => explain_short(alloc, text),
    }
}

fn explain_short(alloc: Global, text: &[u8]) -> Result<Option<String>, Memory> {
    match toml::table_from_slice(alloc, text) {
        Ok(table) => explain_table(alloc, &table),
        Err(error) => explain_error(alloc, text, &error),
    }
}

// Tells the line of the text, and what isn't TOML there.
fn explain_error(alloc: Global, text: &[u8], error: &Error) -> Result<Option<String>, Memory> {
    let Some(span) = error.span() else {
        return Err(Memory);
    };
    let before = text.iter().take(span.start);
    let feeds = before.filter(|octet| **octet == b'\n').count();
    let line = format!(in alloc; "line {}: {}", feeds.saturating_add(1), error.message())?;
    Ok(Some(line))
}

fn explain_table(alloc: Global, table: &Table) -> Result<Option<String>, Memory> {
    if let Some(fault) = fault_of_table(table) {
        return told(alloc, fault);
    }
    match externals_in(alloc, table) {
        Ok(externals) => match fault_of_subscribers(&externals, table) {
            Some(fault) => told(alloc, fault),
            None => explain_listen(alloc, table),
        },
        Err(Unread::Memory) => Err(Memory),
        Err(Unread::NotConfig) => told(
            alloc,
            Fault {
                place: Place::Key("external"),
                expected: Expected::DifferentAddresses,
            },
        ),
    }
}

// Of the addresses at which the server listens, each of which may be one, tells whether two are equal.
fn explain_listen(alloc: Global, table: &Table) -> Result<Option<String>, Memory> {
    match listen_in(alloc, table) {
        Ok(_) => Ok(None),
        Err(Unread::Memory) => Err(Memory),
        Err(Unread::NotConfig) => told(
            alloc,
            Fault {
                place: Place::Key("listen"),
                expected: Expected::DifferentDoors,
            },
        ),
    }
}

fn told(alloc: Global, fault: Fault<'_>) -> Result<Option<String>, Memory> {
    let line = format!(in alloc; "{fault}")?;
    Ok(Some(line))
}

// The first fault of the table, but for equal addresses and subscribers.
fn fault_of_table(table: &Table) -> Option<Fault<'_>> {
    if let Some(key) = unknown_key(table, &CONFIG_KEYS) {
        return Some(Fault {
            place: Place::Key(key),
            expected: Expected::NoSuchKey,
        });
    }
    if let Some(fault) = fault_of_numbers(table) {
        return Some(fault);
    }
    if let Some(fault) = fault_of_third_parties(table) {
        return Some(fault);
    }
    if let Some(fault) = fault_of_doors(table) {
        return Some(fault);
    }
    fault_of_externals(table)
}

fn fault_of_doors(table: &Table) -> Option<Fault<'_>> {
    if orders_in(table).is_none() {
        return Some(Fault {
            place: Place::Key("orders"),
            expected: Expected::Orders,
        });
    }
    fault_of_listen(table)
}

fn fault_of_listen(table: &Table) -> Option<Fault<'_>> {
    let list = Fault {
        place: Place::Key("listen"),
        expected: Expected::Listen,
    };
    let value = value_at(table, "listen")?;
    let Some(rows) = value.as_array() else {
        return Some(list);
    };
    if !is_door_count(rows.len()) {
        return Some(list);
    }
    for (index, row) in rows.iter().enumerate() {
        if let Some(expected) = fault_of_entry(row) {
            return Some(Fault {
                place: Place::Row("listen", index),
                expected,
            });
        }
    }
    None
}

fn fault_of_entry(row: &Value) -> Option<Expected> {
    let Some(text) = row.as_str() else {
        return Some(Expected::Address);
    };
    match listen_parts(text.as_bytes()) {
        Some(_) => None,
        None => Some(expected_of_entry(text.as_bytes())),
    }
}

// What was expected of a text that is no entry of `listen`.
fn expected_of_entry(text: &[u8]) -> Expected {
    let front = match around_percent(text) {
        Some((front, _link)) => front,
        None => text,
    };
    if Address::read(front).is_err() {
        return Expected::Address;
    }
    match host_address(front) {
        None => Expected::HostAddress,
        Some(address) if is_link_local(&address) => Expected::LinkName,
        Some(_) => Expected::LinkLocal,
    }
}

// The first key of the table that is none of these.
fn unknown_key<'a>(table: &'a Table, keys: &[&str]) -> Option<&'a str> {
    for (key, _value) in table.iter() {
        if !is_one_of(key.as_str(), keys) {
            return Some(key.as_str());
        }
    }
    None
}

fn fault_of_numbers(table: &Table) -> Option<Fault<'_>> {
    if quota_in(table).is_none() {
        return Some(number_fault("quota", 1, MOST_QUOTA));
    }
    let Some(least) = lifetime_min_in(table) else {
        return Some(number_fault("lifetime_min", 1, LONGEST_LIFETIME));
    };
    match lifetime_max_in(table, least) {
        Some(_) => None,
        None => Some(number_fault("lifetime_max", least, LONGEST_LIFETIME)),
    }
}

fn number_fault(key: &str, low: u32, high: u32) -> Fault<'_> {
    Fault {
        place: Place::Key(key),
        expected: Expected::Number(low, high),
    }
}

fn fault_of_third_parties(table: &Table) -> Option<Fault<'_>> {
    let list = Fault {
        place: Place::Key("third_party"),
        expected: Expected::Prefixes,
    };
    let value = value_at(table, "third_party")?;
    let Some(rows) = value.as_array() else {
        return Some(list);
    };
    if rows.len() > MOST_THIRD_PARTIES {
        return Some(list);
    }
    for (index, row) in rows.iter().enumerate() {
        if prefix_of(row).is_none() {
            return Some(Fault {
                place: Place::Row("third_party", index),
                expected: Expected::Prefix,
            });
        }
    }
    None
}

fn fault_of_externals(table: &Table) -> Option<Fault<'_>> {
    let list = Fault {
        place: Place::Key("external"),
        expected: Expected::Externals,
    };
    let Some(value) = value_at(table, "external") else {
        return Some(Fault {
            place: Place::Key("external"),
            expected: Expected::Key,
        });
    };
    let Some(rows) = value.as_array() else {
        return Some(list);
    };
    if !is_count(rows.len()) {
        return Some(list);
    }
    for (index, row) in rows.iter().enumerate() {
        if let Some(fault) = fault_of_external(index, row) {
            return Some(fault);
        }
    }
    None
}

fn fault_of_external(index: usize, row: &Value) -> Option<Fault<'_>> {
    let Some(table) = row.as_table() else {
        return Some(Fault {
            place: Place::Row("external", index),
            expected: Expected::Table,
        });
    };
    let (key, expected) = fault_of_external_table(table)?;
    Some(Fault {
        place: Place::Field("external", index, key),
        expected,
    })
}

// A key that must be there, and what was expected of its value; where it isn't there, that alone.
fn required<'a>(table: &Table, key: &'a str, expected: Expected) -> (&'a str, Expected) {
    match value_at(table, key) {
        Some(_) => (key, expected),
        None => (key, Expected::Key),
    }
}

fn fault_of_external_table(table: &Table) -> Option<(&str, Expected)> {
    if let Some(key) = unknown_key(table, &EXTERNAL_KEYS) {
        return Some((key, Expected::NoSuchKey));
    }
    if address_at(table, "address").is_none() {
        return Some(required(table, "address", Expected::Address));
    }
    let Some(low) = number_at(table, "low", 1, LAST_PORT) else {
        return Some(required(table, "low", Expected::Number(1, LAST_PORT)));
    };
    if number_at(table, "high", low, LAST_PORT).is_none() {
        return Some(required(table, "high", Expected::Number(low, LAST_PORT)));
    }
    None
}

fn fault_of_subscribers<'a>(externals: &[External], table: &'a Table) -> Option<Fault<'a>>
    requires few { length externals.now ≤ MOST_EXTERNALS }
{
    let list = Fault {
        place: Place::Key("subscriber"),
        expected: Expected::Subscribers,
    };
    let value = value_at(table, "subscriber")?;
    let Some(rows) = value.as_array() else {
        return Some(list);
    };
    if rows.len() > MOST_SUBSCRIBERS {
        return Some(list);
    }
    for (index, row) in rows.iter().enumerate() {
        if let Some(fault) = fault_of_subscriber(externals, index, row) {
            return Some(fault);
        }
    }
    None
}

fn fault_of_subscriber<'a>(
    externals: &[External],
    index: usize,
    row: &'a Value,
) -> Option<Fault<'a>>
    requires few { length externals.now ≤ MOST_EXTERNALS }
{
    let Some(table) = row.as_table() else {
        return Some(Fault {
            place: Place::Row("subscriber", index),
            expected: Expected::Table,
        });
    };
    let (key, expected) = fault_of_subscriber_table(externals, table)?;
    Some(Fault {
        place: Place::Field("subscriber", index, key),
        expected,
    })
}

fn fault_of_subscriber_table<'a>(
    externals: &[External],
    table: &'a Table,
) -> Option<(&'a str, Expected)>
    requires few { length externals.now ≤ MOST_EXTERNALS }
{
    if let Some(key) = unknown_key(table, &SUBSCRIBER_KEYS) {
        return Some((key, Expected::NoSuchKey));
    }
    if prefix_at(table, "prefix").is_none() {
        return Some(required(table, "prefix", Expected::Prefix));
    }
    let Some(value) = value_at(table, "external") else {
        return Some(("external", Expected::Key));
    };
    if index_of(externals, value).is_none() {
        return Some(("external", Expected::ExternalAddress));
    }
    None
}
