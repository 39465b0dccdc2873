//! The value behind a turn, while it is out.
ghost use Rattle.std.specs.Prelude.{◌≡◌};

use std::marker::Model;

/// The value behind a turn, which it owns while the turn lasts. To contracts it is the value.
///
/// One that is dropped never comes back, and every later `take` of the turn waits for ever.
#[derive(Drop)]
pub struct Held<V> {
    pub(crate) value: V,
}

impl<V> Model for Held<V> {
    ghost Value = { V };

    ghost view = { λ h. h.value };
}

impl<V> Held<V> {
    /// Takes the value out for good. Every later `take` of the turn waits for ever.
    pub fn keep(self) -> V
        ensures { result ≡ self }
    {
        let Held { value } = self;
        value
    }
}
