//! Texts of configurations.
ghost use Rattle.std.specs.Prelude.{◌≡◌, ◌⊎◌, ℕ, IfOk, IfErr, IfSome, IfNone, Err};
ghost use Rattle.toml.specs.Data.{Members};
ghost use Rattle.toml.specs.View.{table_view};
ghost use Rattle.toml.specs.Errors.{IsMemory};
ghost use Rattle.pcp_base.specs.Configs.{IsConfig};
ghost use Rattle.pcp_base.specs.declared.configs.Config.{Config};
ghost use Rattle.pcp_config.specs.ConfigTables.{IsConfigTable, IsLifetimeMax, IsLifetimeMin, IsQuota};
ghost use Rattle.pcp_config.specs.ConfigTexts.{IsConfigText, IsRefusedFor, IsTomlText};
ghost use Rattle.pcp_config.specs.declared.lists.Unread.{Unread};
ghost use Rattle.pcp_config.specs.declared.texts.ConfigRefused.{ConfigRefused};

use crate::listening::{listen_in, orders_in};
use crate::lists::{Unread, externals_in, subscribers_in, third_parties_in};
use crate::values::{has_only, number_or};
use crate::{DEFAULT_LIFETIME_MIN, DEFAULT_QUOTA, LONGEST_CONFIG};
use pcp_base::{Addresses, Config, Externals, LONGEST_LIFETIME, MOST_QUOTA, Prefixes, Subscribers};
use std::alloc::Global;
use thiserror::Error;
use toml::Table;

/// The keys of a configuration.
pub(crate) const CONFIG_KEYS: [&str; 8] = [
    "quota",
    "lifetime_min",
    "lifetime_max",
    "third_party",
    "external",
    "subscriber",
    "listen",
    "orders",
];

/// Why a text is no configuration.
#[derive(Clone, Copy, Debug, PartialEq, Eq, Error)]
pub enum ConfigRefused {
    /// The text has more than [`LONGEST_CONFIG`] octets.
    #[error("too long")]
    TooLong,
    /// The text isn't TOML, which is in UTF-8.
    #[error("not toml")]
    NotToml,
    /// The table that the text is stands for no configuration.
    #[error("not a configuration")]
    NotConfig,
    /// No memory was found.
    #[error("out of memory")]
    Memory,
}

/// The configuration for which the text stands: the one alone, which a server may have.
pub fn read_config(alloc: Global, text: &[u8]) -> Result<Config, ConfigRefused>
    ensures config { IfOk result (IsConfigText text.now) }
    ensures only { IfOk result (λ c. (d : Config) → IsConfigText text.now d → d ≡ c) }
    ensures allowed { IfOk result IsConfig }
    ensures refused { IfErr result (IsRefusedFor text.now) }
{
    if text.len() > LONGEST_CONFIG {
        return Err(ConfigRefused::TooLong);
    }
    let table = table_of(alloc, text)?;
    match config_of(alloc, &table) {
        Ok(config) => Ok(config),
        Err(Unread::NotConfig) => Err(ConfigRefused::NotConfig),
        Err(Unread::Memory) => Err(ConfigRefused::Memory),
    }
}

// The table that the text is.
fn table_of(alloc: Global, text: &[u8]) -> Result<Table, ConfigRefused>
    ensures table { IfOk result (λ table. IsTomlText text.now (table_view table)) }
    ensures cause { IfErr result (λ e.
        (e ≡ ConfigRefused.NotToml) ⊎ (e ≡ ConfigRefused.Memory)) }
    ensures refused { result ≡ Err ConfigRefused.NotToml →
        (members : Members) → ¬ (IsTomlText text.now members) }
{
    match toml::table_from_slice(alloc, text) {
        Ok(table) => Ok(table),
        Err(error) => Err(cause_of(&error)),
    }
}

fn cause_of(error: &toml::de::Error) -> ConfigRefused
    ensures cause { (result ≡ ConfigRefused.NotToml) ⊎ (result ≡ ConfigRefused.Memory) }
    ensures memory { result ≡ ConfigRefused.NotToml → ¬ (IsMemory error.now) }
{
    if error.is_memory() {
        ConfigRefused::Memory
    } else {
        ConfigRefused::NotToml
    }
}

/// The configuration for which the table stands.
fn config_of(alloc: Global, table: &Table) -> Result<Config, Unread>
    ensures config { IfOk result (IsConfigTable (table_view table.now)) }
    ensures refused { result ≡ Err Unread.NotConfig →
        (c : Config) → ¬ (IsConfigTable (table_view table.now) c) }
{
    if !has_only(table, &CONFIG_KEYS) {
        return Err(Unread::NotConfig);
    }
    let Some(quota) = quota_in(table) else {
        return Err(Unread::NotConfig);
    };
    let Some(lifetime_min) = lifetime_min_in(table) else {
        return Err(Unread::NotConfig);
    };
    let Some(lifetime_max) = lifetime_max_in(table, lifetime_min) else {
        return Err(Unread::NotConfig);
    };
    let Some(orders) = orders_in(table) else {
        return Err(Unread::NotConfig);
    };
    let third_party = third_parties_in(alloc, table)?;
    let externals = externals_in(alloc, table)?;
    let subscribers = subscribers_in(alloc, &externals, table)?;
    let listen = listen_in(alloc, table)?;
    Ok(Config {
        quota,
        lifetime_min,
        lifetime_max,
        third_party: Prefixes::of(third_party),
        externals: Externals::of(externals),
        subscribers: Subscribers::of(subscribers),
        listen: Addresses::of(listen),
        orders,
    })
}

/// The quota.
pub(crate) fn quota_in(table: &Table) -> Option<u32>
    ensures number { IfSome result (IsQuota (table_view table.now)) }
    ensures none { IfNone result ((n : ℕ) → ¬ (IsQuota (table_view table.now) n)) }
{
    number_or(table, "quota", DEFAULT_QUOTA, 1, MOST_QUOTA)
}

/// The least lifetime, in seconds.
pub(crate) fn lifetime_min_in(table: &Table) -> Option<u32>
    ensures number { IfSome result (IsLifetimeMin (table_view table.now)) }
    ensures none { IfNone result ((n : ℕ) → ¬ (IsLifetimeMin (table_view table.now) n)) }
{
    number_or(
        table,
        "lifetime_min",
        DEFAULT_LIFETIME_MIN,
        1,
        LONGEST_LIFETIME,
    )
}

/// The greatest lifetime, in seconds, above the least one.
pub(crate) fn lifetime_max_in(table: &Table, least: u32) -> Option<u32>
    ensures number { IfSome result (IsLifetimeMax least (table_view table.now)) }
    ensures none { IfNone result ((n : ℕ) → ¬ (IsLifetimeMax least (table_view table.now) n)) }
{
    number_or(
        table,
        "lifetime_max",
        LONGEST_LIFETIME,
        least,
        LONGEST_LIFETIME,
    )
}
