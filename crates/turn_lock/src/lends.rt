//! How a held value is lent. It stands apart, since its clause names the row of `Held`, which the
//! file that declares `Held` can't import.
ghost use Rattle.std.specs.Prelude.{◌≡◌};
ghost use types.Logic.{sem};
ghost use denote.Follow.{follows};
ghost use Rattle.turn_lock.specs.contracts.held.Held.{the_row};

use crate::held::Held;

impl<V> Held<V> {
    /// Lends the value. What is written to it is held from then on.
    pub fn value(&mut self) -> &mut V
        ensures* writes_back { sem 𝓛
            (follows (the_row V.row) V.row self.entry.ghost_name result.ghost_name (λ x. x)) }
        ensures value { result.now ≡ self.old }
    {
        &mut self.value
    }
}
