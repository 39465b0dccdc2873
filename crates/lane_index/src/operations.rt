//! What the two copies take in.
ghost use Rattle.std.specs.Prelude.{◌≡◌, [], true, unwrap_or, IfOk};
ghost use Rattle.std.specs.Option.{option_map};
ghost use Rattle.std.specs.Arc.{arc_value};
ghost use Rattle.lane_index.specs.Applying.{has_slots};

use crate::history::SeenHistory;
use crate::pushed::Pushed;
use crate::replicas::Replica;
use left_right::Absorb;
use pcp_base::Filters;
use std::alloc::AllocError;
use std::sync::Arc;

/// A record, and the history that ends with it.
#[derive(Drop)]
pub struct Operation {
    pub(crate) pushed: Pushed,
    pub(crate) seen: SeenHistory,
    pub(crate) count: u64,
    ghost placed: { has_slots pushed.kept.change ≡ true },
}

/// The same filters, with one more owner.
fn shared(filters: &Option<Arc<Filters>>) -> Result<Option<Arc<Filters>>, AllocError>
    ensures { IfOk result (λ o. unwrap_or (option_map arc_value o) []
        ≡ unwrap_or (option_map arc_value filters.now) []) }
{
    match filters {
        None => Ok(None),
        Some(filters) => Ok(Some(Arc::try_clone(filters)?)),
    }
}

impl Absorb<Operation> for Replica {
    type State = Replica;

    ghost use Rattle.lane_index.specs.Operations.{absorbed};

    ghost state = { λ copy. copy };

    ghost applied = { absorbed };

    fn absorb_first(&mut self, operation: &Operation, _other: &Replica) -> Result<(), AllocError> {
        let filters = shared(&operation.pushed.filters)?;
        self.index.fit(&operation.pushed.kept, filters);
        self.last = operation.pushed.kept.moment;
        self.seen = operation.seen.again();
        self.count = operation.count;
        Ok(())
    }
}
