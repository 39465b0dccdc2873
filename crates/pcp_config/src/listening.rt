//! Where a server listens, and where its orders come from.
ghost use Rattle.std.specs.Prelude.{◌≡◌, ◌≤◌, ◌↔◌, List, Err, IfOk, IfSome, IfNone, IsTrue};
ghost use Rattle.std.specs.List.{AllByRecursion};
ghost use Rattle.toml.specs.View.{table_view, view};
ghost use Rattle.pcp_base.specs.Configs.{AreApart};
ghost use Rattle.pcp_base.specs.Tables.{EachTwo};
ghost use Rattle.pcp_base.specs.declared.configs.ListenAddress.{ListenAddress};
ghost use Rattle.pcp_base.specs.declared.configs.Orders.{Orders};
ghost use Rattle.pcp_base.specs.declared.configs.TheConstants.{MOST_DOORS};
ghost use Rattle.pcp_config.specs.ConfigTables.{AreListened, AreOrders, IsListenList, IsListenText, IsOrdersText};
ghost use Rattle.pcp_config.specs.TomlValues.{IsListOf, IsTextOf};
ghost use Rattle.pcp_config.specs.declared.lists.Unread.{Unread};

use crate::listen_texts::listen_parts;
use crate::lists::Unread;
use crate::values::value_at;
use pcp_base::{ListenAddress, MOST_DOORS, Octets, Orders};
use std::alloc::Global;
use toml::{Table, Value};

/// The addresses at which a server listens, none where the table doesn't have the key.
pub(crate) fn listen_in(alloc: Global, table: &Table) -> Result<Vec<ListenAddress>, Unread>
    ensures listen { IfOk result (λ found. AreListened (table_view table.now) found.items) }
    ensures refused { result ≡ Err Unread.NotConfig →
        (listen : List ListenAddress) → ¬ (AreListened (table_view table.now) listen) }
{
    match value_at(table, "listen") {
        Some(value) => listen_of(alloc, value),
        None => Ok(Vec::new(alloc)),
    }
}

fn listen_of(alloc: Global, value: &Value) -> Result<Vec<ListenAddress>, Unread>
    ensures listen { IfOk result (λ found. IsListenList (view value.now) found.items) }
    ensures refused { result ≡ Err Unread.NotConfig →
        (listen : List ListenAddress) → ¬ (IsListenList (view value.now) listen) }
{
    let listen = listen_rows(alloc, value)?;
    if !is_door_count(listen.len()) {
        return Err(Unread::NotConfig);
    }
    if !are_apart(&listen) {
        return Err(Unread::NotConfig);
    }
    Ok(listen)
}

fn listen_rows(alloc: Global, value: &Value) -> Result<Vec<ListenAddress>, Unread>
    ensures listen { IfOk result (λ found.
        IsListOf (IsTextOf IsListenText) (view value.now) found.items) }
    ensures refused { result ≡ Err Unread.NotConfig → (listen : List ListenAddress) →
        ¬ (IsListOf (IsTextOf IsListenText) (view value.now) listen) }
{
    let Some(rows) = value.as_array() else {
        return Err(Unread::NotConfig);
    };
    let mut listen = Vec::new(alloc);
    'rows: for row in rows {
        let address = listen_address_of(alloc, row)?;
        listen.push(address)?;
    }
    Ok(listen)
}

fn listen_address_of(alloc: Global, value: &Value) -> Result<ListenAddress, Unread>
    ensures address { IfOk result (IsTextOf IsListenText (view value.now)) }
    ensures refused { result ≡ Err Unread.NotConfig →
        (x : ListenAddress) → ¬ (IsTextOf IsListenText (view value.now) x) }
{
    let Some(text) = value.as_str() else {
        return Err(Unread::NotConfig);
    };
    listen_address_from(alloc, text.as_bytes())
}

fn listen_address_from(alloc: Global, text: &[u8]) -> Result<ListenAddress, Unread>
    ensures address { IfOk result (IsListenText text.now) }
    ensures refused { result ≡ Err Unread.NotConfig →
        (x : ListenAddress) → ¬ (IsListenText text.now x) }
{
    let Some((address, name)) = listen_parts(text) else {
        return Err(Unread::NotConfig);
    };
    let link = Vec::from_slice(alloc, name)?;
    Ok(ListenAddress {
        address,
        link: Octets::of(link),
    })
}

/// Whether a server may listen at so many addresses.
pub(crate) fn is_door_count(count: usize) -> bool
    ensures { IsTrue result ↔ ((1 ≤ count) × (count ≤ MOST_DOORS)) }
{
    (1..=MOST_DOORS).contains(&count)
}

// Whether no two are the same.
fn are_apart(listen: &[ListenAddress]) -> bool
    ensures { IsTrue result ↔ EachTwo AreApart listen.now }
{
    match listen {
        [] => true,
        [first, rest @ ..] => is_apart(first, rest) && are_apart(rest),
    }
}

fn is_apart(first: &ListenAddress, others: &[ListenAddress]) -> bool
    ensures { IsTrue result ↔ AllByRecursion (AreApart first.now) others.now }
{
    match others {
        [] => true,
        [other, rest @ ..] => differ(first, other) && is_apart(first, rest),
    }
}

fn differ(first: &ListenAddress, second: &ListenAddress) -> bool
    ensures { IsTrue result ↔ AreApart first.now second.now }
{
    first.address != second.address || first.link.items() != second.link.items()
}

/// Where orders come from.
pub(crate) fn orders_in(table: &Table) -> Option<Orders>
    ensures orders { IfSome result (AreOrders (table_view table.now)) }
    ensures none { IfNone result ((o : Orders) → ¬ (AreOrders (table_view table.now) o)) }
{
    match value_at(table, "orders") {
        Some(value) => orders_of(value),
        None => Some(Orders::Both),
    }
}

fn orders_of(value: &Value) -> Option<Orders>
    ensures orders { IfSome result (IsTextOf IsOrdersText (view value.now)) }
    ensures none { IfNone result ((o : Orders) → ¬ (IsTextOf IsOrdersText (view value.now) o)) }
{
    orders_from(value.as_str()?)
}

fn orders_from(text: &str) -> Option<Orders>
    ensures orders { IfSome result (IsOrdersText text.now) }
    ensures none { IfNone result ((o : Orders) → ¬ (IsOrdersText text.now o)) }
{
    if text == "loopback" {
        return Some(Orders::Both);
    }
    if text == "folder" {
        return Some(Orders::Folder);
    }
    None
}
