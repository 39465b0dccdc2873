//! Values of a TOML table.
ghost use Rattle.std.specs.Prelude.{◌≡◌, ℕ, map, option_map, IfSome, IfNone};
ghost use Rattle.toml.specs.Data.{get_member};
ghost use Rattle.toml.specs.View.{table_view, view};
ghost use Rattle.pcp_base.specs.AddressTexts.{IsAddressText, IsPrefixText};
ghost use Rattle.pcp_base.specs.declared.addresses.Address.{Address};
ghost use Rattle.pcp_base.specs.declared.addresses.Prefix.{Prefix};
ghost use Rattle.pcp_config.specs.TomlValues.{has_only, is_one_of, IsNumberIn, IsTextOf, TellsAt, TellsOr};

use pcp_base::{Address, Prefix};
use toml::{Table, Value};

/// Whether each key of the table is one of these.
pub(crate) fn has_only(table: &Table, keys: &[&str]) -> bool
    ensures { result ≡ has_only (map (λ key. key.now) keys.now) (table_view table.now) }
{
    'members: for (key, _value) in table.iter() {
        if !is_one_of(key.as_str(), keys) {
            return false;
        }
    }
    true
}

pub(crate) fn is_one_of(key: &str, keys: &[&str]) -> bool
    ensures { result ≡ is_one_of (map (λ key. key.now) keys.now) key.now }
{
    keys.contains(&key)
}

/// The value that the table has under the key.
pub(crate) fn value_at<'a>(table: &'a Table, key: &str) -> Option<&'a Value>
    ensures { option_map (λ v. view v.now) result ≡ get_member key.now (table_view table.now) }
{
    table.get(key)
}

/// A whole number from `low` to `high`.
pub(crate) fn number_in(value: &Value, low: u32, high: u32) -> Option<u32>
    ensures number { IfSome result (IsNumberIn low high (view value.now)) }
    ensures none { IfNone result ((n : ℕ) → ¬ (IsNumberIn low high (view value.now) n)) }
{
    let number = value.as_integer()?;
    if number < i64::from(low) || i64::from(high) < number {
        return None;
    }
    Some(number as u32)
}

/// The whole number from `low` to `high` that the table has under the key.
pub(crate) fn number_at(table: &Table, key: &str, low: u32, high: u32) -> Option<u32>
    ensures number { IfSome result (TellsAt (table_view table.now) key.now (IsNumberIn low high)) }
    ensures none { IfNone result ((n : ℕ) →
        ¬ (TellsAt (table_view table.now) key.now (IsNumberIn low high) n)) }
{
    number_in(value_at(table, key)?, low, high)
}

/// The same, or `default` where the table doesn't have the key.
pub(crate) fn number_or(table: &Table, key: &str, default: u32, low: u32, high: u32) -> Option<u32>
    ensures number { IfSome result
        (TellsOr (table_view table.now) key.now default (IsNumberIn low high)) }
    ensures none { IfNone result ((n : ℕ) →
        ¬ (TellsOr (table_view table.now) key.now default (IsNumberIn low high) n)) }
{
    match value_at(table, key) {
        None => Some(default),
        Some(value) => number_in(value, low, high),
    }
}

/// The address that a string writes.
pub(crate) fn address_of(value: &Value) -> Option<Address>
    ensures address { IfSome result (IsTextOf IsAddressText (view value.now)) }
    ensures none { IfNone result ((a : Address) → ¬ (IsTextOf IsAddressText (view value.now) a)) }
{
    let Ok(address) = Address::read(value.as_str()?.as_bytes()) else {
        return None;
    };
    Some(address)
}

/// The prefix that a string writes.
pub(crate) fn prefix_of(value: &Value) -> Option<Prefix>
    ensures prefix { IfSome result (IsTextOf IsPrefixText (view value.now)) }
    ensures none { IfNone result ((p : Prefix) → ¬ (IsTextOf IsPrefixText (view value.now) p)) }
{
    let Ok(prefix) = Prefix::read(value.as_str()?.as_bytes()) else {
        return None;
    };
    Some(prefix)
}

/// The address that the table's string under the key writes.
pub(crate) fn address_at(table: &Table, key: &str) -> Option<Address>
    ensures address { IfSome result
        (TellsAt (table_view table.now) key.now (IsTextOf IsAddressText)) }
    ensures none { IfNone result ((a : Address) →
        ¬ (TellsAt (table_view table.now) key.now (IsTextOf IsAddressText) a)) }
{
    address_of(value_at(table, key)?)
}

/// The prefix that the table's string under the key writes.
pub(crate) fn prefix_at(table: &Table, key: &str) -> Option<Prefix>
    ensures prefix { IfSome result
        (TellsAt (table_view table.now) key.now (IsTextOf IsPrefixText)) }
    ensures none { IfNone result ((p : Prefix) →
        ¬ (TellsAt (table_view table.now) key.now (IsTextOf IsPrefixText) p)) }
{
    prefix_of(value_at(table, key)?)
}
