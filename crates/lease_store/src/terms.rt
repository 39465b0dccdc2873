//! The terms on which the ports of an external address are leased.
ghost use Rattle.std.specs.Prelude.{◌≡◌};
ghost use Rattle.pcp_base.specs.Configs.{IsConfig, IsExternal};
ghost use Rattle.lease_store.specs.LeaseTerms.{AreTerms, terms_of};

use pcp_base::{Config, External};

/// The terms on which the ports of an external address are leased.
#[derive(Clone, Copy, Debug, PartialEq, Eq, Hash)]
pub struct Terms {
    /// The external address that is told, and the ports that are given out of it.
    pub external: External,
    /// How many external ports an internal address may own, 1 to
    /// [`MOST_QUOTA`](pcp_base::MOST_QUOTA).
    pub quota: u32,
    /// The least lifetime that is granted, in seconds, 1 to
    /// [`LONGEST_LIFETIME`](pcp_base::LONGEST_LIFETIME).
    pub lifetime_min: u32,
    /// The greatest lifetime that is granted, in seconds, `lifetime_min` to
    /// [`LONGEST_LIFETIME`](pcp_base::LONGEST_LIFETIME).
    pub lifetime_max: u32,
}

impl Terms {
    /// The terms of this external address under the configuration.
    pub fn of(external: &External, config: &Config) -> Terms
        requires external { IsExternal external.now }
        requires config { IsConfig config.now }
        ensures value { result ≡ terms_of external.now config.now }
        ensures allowed { AreTerms result }
    {
        Terms {
            external: *external,
            quota: config.quota,
            lifetime_min: config.lifetime_min,
            lifetime_max: config.lifetime_max,
        }
    }
}
