//! Lists of a configuration.
ghost use Rattle.std.specs.Prelude.{◌≡◌, ◌≢◌, ◌≤◌, ◌↔◌, List, [], Err, IfOk, IsTrue, length};
ghost use Rattle.std.specs.List.{AllByRecursion};
ghost use Rattle.toml.specs.View.{table_view, view};
ghost use Rattle.pcp_base.specs.AddressTexts.{IsPrefixText};
ghost use Rattle.pcp_base.specs.Tables.{EachTwo};
ghost use Rattle.pcp_base.specs.declared.addresses.Address.{Address};
ghost use Rattle.pcp_base.specs.declared.addresses.Prefix.{Prefix};
ghost use Rattle.pcp_base.specs.declared.configs.External.{External};
ghost use Rattle.pcp_base.specs.declared.configs.Subscriber.{Subscriber};
ghost use Rattle.pcp_base.specs.declared.configs.TheConstants.{MOST_EXTERNALS};
ghost use Rattle.pcp_config.specs.ConfigTables.{AreExternals, AreSubscribers, AreThirdParties, IsExternalTable, IsSubscriberTable};
ghost use Rattle.pcp_config.specs.TomlValues.{IsListOf, IsTableOf, IsTextOf};
ghost use Rattle.pcp_config.specs.declared.lists.Unread.{Unread};

use crate::tables::{external_of, subscriber_of};
use crate::values::{prefix_of, value_at};
use pcp_base::{
    Address, External, MOST_EXTERNALS, MOST_SUBSCRIBERS, MOST_THIRD_PARTIES, Prefix, Subscriber,
};
use std::alloc::{AllocError, AllocFailed, Global};
use toml::{Table, Value};

/// Why a table wasn't read.
#[derive(Clone, Copy, Debug, PartialEq, Eq)]
pub(crate) enum Unread {
    /// It stands for no configuration.
    NotConfig,
    /// No memory was found.
    Memory,
}

impl From<AllocError> for Unread {
    ghost from_gives = { λ _ e. e ≡ Unread.Memory };

    fn from(_error: AllocError) -> Unread {
        Unread::Memory
    }
}

impl<T: Drop> From<AllocFailed<T>> for Unread {
    ghost from_gives = { λ _ e. e ≡ Unread.Memory };

    fn from(_error: AllocFailed<T>) -> Unread {
        Unread::Memory
    }
}

/// The prefixes of hosts that may ask for others.
pub(crate) fn third_parties_in(alloc: Global, table: &Table) -> Result<Vec<Prefix>, Unread>
    ensures prefixes { IfOk result (λ found. AreThirdParties (table_view table.now) found.items) }
    ensures refused { result ≡ Err Unread.NotConfig →
        (prefixes : List Prefix) → ¬ (AreThirdParties (table_view table.now) prefixes) }
{
    let Some(value) = value_at(table, "third_party") else {
        return Ok(Vec::new(alloc));
    };
    let prefixes = prefixes_of(alloc, value)?;
    if prefixes.len() > MOST_THIRD_PARTIES {
        return Err(Unread::NotConfig);
    }
    Ok(prefixes)
}

/// The external addresses.
pub(crate) fn externals_in(alloc: Global, table: &Table) -> Result<Vec<External>, Unread>
    ensures externals { IfOk result (λ found. AreExternals (table_view table.now) found.items) }
    ensures refused { result ≡ Err Unread.NotConfig →
        (externals : List External) → ¬ (AreExternals (table_view table.now) externals) }
{
    let Some(value) = value_at(table, "external") else {
        return Err(Unread::NotConfig);
    };
    let externals = externals_of(alloc, value)?;
    if !is_count(externals.len()) {
        return Err(Unread::NotConfig);
    }
    if !are_different(&externals) {
        return Err(Unread::NotConfig);
    }
    Ok(externals)
}

/// The subscribers.
pub(crate) fn subscribers_in(
    alloc: Global,
    externals: &[External],
    table: &Table,
) -> Result<Vec<Subscriber>, Unread>
    requires few { length externals.now ≤ MOST_EXTERNALS }
    ensures subscribers { IfOk result (λ found.
        AreSubscribers externals.now (table_view table.now) found.items) }
    ensures refused { result ≡ Err Unread.NotConfig → (subscribers : List Subscriber) →
        ¬ (AreSubscribers externals.now (table_view table.now) subscribers) }
{
    let Some(value) = value_at(table, "subscriber") else {
        return Ok(Vec::new(alloc));
    };
    let subscribers = subscribers_of(alloc, externals, value)?;
    if subscribers.len() > MOST_SUBSCRIBERS {
        return Err(Unread::NotConfig);
    }
    Ok(subscribers)
}

fn prefixes_of(alloc: Global, value: &Value) -> Result<Vec<Prefix>, Unread>
    ensures prefixes { IfOk result (λ found.
        IsListOf (IsTextOf IsPrefixText) (view value.now) found.items) }
    ensures refused { result ≡ Err Unread.NotConfig → (prefixes : List Prefix) →
        ¬ (IsListOf (IsTextOf IsPrefixText) (view value.now) prefixes) }
{
    let Some(rows) = value.as_array() else {
        return Err(Unread::NotConfig);
    };
    let mut prefixes = Vec::new(alloc);
    'rows: for row in rows {
        let Some(prefix) = prefix_of(row) else {
            return Err(Unread::NotConfig);
        };
        prefixes.push(prefix)?;
    }
    Ok(prefixes)
}

fn externals_of(alloc: Global, value: &Value) -> Result<Vec<External>, Unread>
    ensures externals { IfOk result (λ found.
        IsListOf (IsTableOf IsExternalTable) (view value.now) found.items) }
    ensures refused { result ≡ Err Unread.NotConfig → (externals : List External) →
        ¬ (IsListOf (IsTableOf IsExternalTable) (view value.now) externals) }
{
    let Some(rows) = value.as_array() else {
        return Err(Unread::NotConfig);
    };
    let mut externals = Vec::new(alloc);
    'rows: for row in rows {
        let Some(external) = external_of(row) else {
            return Err(Unread::NotConfig);
        };
        externals.push(external)?;
    }
    Ok(externals)
}

fn subscribers_of(
    alloc: Global,
    externals: &[External],
    value: &Value,
) -> Result<Vec<Subscriber>, Unread>
    requires few { length externals.now ≤ MOST_EXTERNALS }
    ensures subscribers { IfOk result (λ found.
        IsListOf (IsTableOf (IsSubscriberTable externals.now)) (view value.now) found.items) }
    ensures refused { result ≡ Err Unread.NotConfig → (subscribers : List Subscriber) →
        ¬ (IsListOf (IsTableOf (IsSubscriberTable externals.now)) (view value.now) subscribers) }
{
    let Some(rows) = value.as_array() else {
        return Err(Unread::NotConfig);
    };
    let mut subscribers = Vec::new(alloc);
    'rows: for row in rows {
        let Some(subscriber) = subscriber_of(externals, row) else {
            return Err(Unread::NotConfig);
        };
        subscribers.push(subscriber)?;
    }
    Ok(subscribers)
}

/// Whether there may be so many external addresses.
pub(crate) fn is_count(count: usize) -> bool
    ensures { IsTrue result ↔ ((1 ≤ count) × (count ≤ MOST_EXTERNALS)) }
{
    (1..=MOST_EXTERNALS).contains(&count)
}

/// Whether no two external addresses are equal.
pub(crate) fn are_different(externals: &[External]) -> bool
    ensures { IsTrue result ↔ EachTwo (λ x y. x.address ≢ y.address) externals.now }
{
    match externals {
        [] => true,
        [first, rest @ ..] => is_new(first, rest) && are_different(rest),
    }
}

fn is_new(external: &External, others: &[External]) -> bool
    ensures { IsTrue result ↔
        AllByRecursion (λ other. external.now.address ≢ other.address) others.now }
{
    others
        .iter()
        .all(|other| differ(&external.address, &other.address))
}

fn differ(first: &Address, second: &Address) -> bool
    ensures { IsTrue result ↔ (first.now ≢ second.now) }
{
    first != second
}
