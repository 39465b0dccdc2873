//! What a seat at a turn's table knows, and the rule of the table.
use crate::kept::Kept;
use atomic_table::TableRule;
use std::collections::LinkedList;
use std::marker::PhantomData;

/// An entry of the history, and what the value said of itself when it was noted. No value of it is made.
pub struct Noted<E, M> {
    pub entry: E,
    pub mark: M,
}

/// What a pass knows. No value of it is made.
pub struct TurnView<E> {
    /// It has drawn a ticket, and its turn isn't over.
    pub waits: bool,

    /// Its turn has come, and the value is out with it.
    pub out: bool,

    /// The number of its turn, from 0 on.
    pub ticket: u64,

    /// How many passes may come of it, itself among them.
    pub room: u64,

    /// The entries that it has seen.
    pub seen: LinkedList<E>,

    /// The shorter of two lists that it has put together, until it has found that this begins
    /// `seen`.
    pub told: LinkedList<E>,

    /// The places of the entries that were noted as its own.
    pub mine: LinkedList<u64>,

    /// The places of the entries that were noted as those of a settling.
    pub settled: LinkedList<u64>,
}

/// The rule of the table. Its key is that of the turn.
pub struct TurnRule<V> {
    of: PhantomData<V>,
}

impl<V: Kept> TableRule<Option<V>, TurnView<Noted<V::Entry, V::Mark>>, V::Key> for TurnRule<V> {
    ghost use Rattle.turn_lock.specs.Marks.{added_noted, stands_noted};
    ghost use Rattle.turn_lock.specs.Rule.{IsRuled};
    ghost use Rattle.turn_lock.specs.Views.{founding_view};

    ghost holds = { λ key. IsRuled (stands_noted (V.stands key)) (added_noted V.added V.mark) };

    ghost first = { λ _. founding_view };
}
