//! Tables of a configuration.
ghost use Rattle.std.specs.Prelude.{◌≡◌, ℕ, ◌≤◌, length, IfSome, IfNone};
ghost use Rattle.std.specs.List.{position_from};
ghost use Rattle.toml.specs.View.{table_view, view};
ghost use Rattle.pcp_base.specs.AddressTexts.{IsAddressText, IsPrefixText};
ghost use Rattle.pcp_base.specs.Tables.{same_address};
ghost use Rattle.pcp_base.specs.declared.configs.TheConstants.{MOST_EXTERNALS};
ghost use Rattle.pcp_base.specs.declared.configs.External.{External};
ghost use Rattle.pcp_base.specs.declared.configs.Subscriber.{Subscriber};
ghost use Rattle.pcp_config.specs.ConfigTables.{IsExternalTable, IsExternalText, IsSubscriberTable};
ghost use Rattle.pcp_config.specs.TomlValues.{IsTableOf, IsTextOf};

use crate::LAST_PORT;
use crate::values::{address_at, address_of, has_only, number_at, prefix_at, value_at};
use pcp_base::{Address, External, Prefix, Subscriber};
use toml::{Table, Value};

/// The keys of a table of an external address.
pub(crate) const EXTERNAL_KEYS: [&str; 3] = ["address", "low", "high"];

/// The keys of a table of a subscriber.
pub(crate) const SUBSCRIBER_KEYS: [&str; 2] = ["prefix", "external"];

/// The external address that the value, a table, tells.
pub(crate) fn external_of(value: &Value) -> Option<External>
    ensures external { IfSome result (IsTableOf IsExternalTable (view value.now)) }
    ensures none { IfNone result ((x : External) →
        ¬ (IsTableOf IsExternalTable (view value.now) x)) }
{
    external_in(value.as_table()?)
}

fn external_in(table: &Table) -> Option<External>
    ensures external { IfSome result (IsExternalTable (table_view table.now)) }
    ensures none { IfNone result ((x : External) → ¬ (IsExternalTable (table_view table.now) x)) }
{
    if !has_only(table, &EXTERNAL_KEYS) {
        return None;
    }
    let address = address_at(table, "address")?;
    let low = number_at(table, "low", 1, LAST_PORT)?;
    let high = number_at(table, "high", low, LAST_PORT)?;
    Some(External {
        address,
        low: low as u16,
        high: high as u16,
    })
}

/// The subscriber that the value, a table, tells.
pub(crate) fn subscriber_of(externals: &[External], value: &Value) -> Option<Subscriber>
    requires few { length externals.now ≤ MOST_EXTERNALS }
    ensures subscriber { IfSome result
        (IsTableOf (IsSubscriberTable externals.now) (view value.now)) }
    ensures none { IfNone result ((s : Subscriber) →
        ¬ (IsTableOf (IsSubscriberTable externals.now) (view value.now) s)) }
{
    subscriber_in(externals, value.as_table()?)
}

fn subscriber_in(externals: &[External], table: &Table) -> Option<Subscriber>
    requires few { length externals.now ≤ MOST_EXTERNALS }
    ensures subscriber { IfSome result (IsSubscriberTable externals.now (table_view table.now)) }
    ensures none { IfNone result ((s : Subscriber) →
        ¬ (IsSubscriberTable externals.now (table_view table.now) s)) }
{
    if !has_only(table, &SUBSCRIBER_KEYS) {
        return None;
    }
    let prefix = prefix_at(table, "prefix")?;
    let external = index_of(externals, value_at(table, "external")?)?;
    Some(Subscriber { prefix, external })
}

/// The index of the external whose address the value, a string, writes.
pub(crate) fn index_of(externals: &[External], value: &Value) -> Option<u32>
    requires few { length externals.now ≤ MOST_EXTERNALS }
    ensures index { IfSome result (IsTextOf (IsExternalText externals.now) (view value.now)) }
    ensures none { IfNone result ((index : ℕ) →
        ¬ (IsTextOf (IsExternalText externals.now) (view value.now) index)) }
{
    let address = address_of(value)?;
    let index = place_of_external(externals, &address)?;
    Some(index as u32)
}

/// The index of the first external that has the address.
fn place_of_external(externals: &[External], address: &Address) -> Option<usize>
    ensures { result ≡
        position_from (λ external. same_address external.address address.now) 0 externals.now }
{
    externals
        .iter()
        .position(|external| external.address == *address)
}
