//! The core of an external address of a configuration.
ghost use Rattle.std.specs.Prelude.{◌≡◌, IfOk};
ghost use Rattle.pcp_base.specs.Configs.{IsConfig, IsExternal};
ghost use Rattle.pcp_base.specs.States.{empty_state};
ghost use Rattle.pcp_base.specs.Reached.{IsReached, IsReachedFirst};
ghost use Rattle.lease_store.specs.LeaseTerms.{terms_of};

use crate::cores::LeaseCore;
use indexed_store::IndexedStore;
use lease_store::Terms;
use pcp_base::{Config, External, Memory};
use std::alloc::Global;

/// The core of an external address.
pub type Core = LeaseCore<IndexedStore>;

impl LeaseCore<IndexedStore> {
    /// The core of this external address under the configuration, without a record.
    pub fn new(alloc: Global, external: &External, config: &Config) -> Result<Core, Memory>
        requires external { IsExternal external.now }
        requires config { IsConfig config.now }
        ensures state { IfOk result (λ core. core.kept.state ≡ empty_state) }
        ensures reached { IfOk result (λ core. core.reached ≡ 0) }
        ensures terms { IfOk result (λ core. core.terms ≡ terms_of external.now config.now) }
        ensures ready { IfOk result (λ core. IsReached core.kept.state) }
        ensures ready_first { IfOk result (λ core. IsReachedFirst core.kept.state) }
    {
        let store = IndexedStore::new(alloc, Terms::of(external, config))?;
        Ok(LeaseCore::over(store))
    }
}
