//! What each step tells. These types are for the proofs alone.
ghost use Rattle.std.specs.Prelude.{List, [], true, false, IfSome};
ghost use Rattle.turn_lock.specs.Marks.{added_noted, stands_noted};
ghost use Rattle.turn_lock.specs.Tellings.{TellsDraw, TellsLook, TellsNote, TellsGive, TellsLearn};
ghost use Rattle.turn_lock.specs.Views.{keeper_view, newcomer_view, meeting_view, spent_view};

use crate::kept::Kept;
use crate::views::{Noted, TurnView};
use atomic_table::{Join, Play, Split};
use std::marker::{Brand, PhantomData};

/// Names the entries of one note, which no number of the step can tell. Each call picks them.
pub trait Noting<E> {
    ghost use Rattle.std.specs.Prelude.{List};

    ghost entries: { List E };
}

impl<E> Noting<E> for Brand {
    ghost use Rattle.std.specs.Prelude.{[]};

    ghost entries = { [] };
}

/// Names the key of a turn, which no number of a step can tell either.
pub trait Naming<K> {
    ghost use Rattle.std.specs.Prelude.{Option};

    ghost key: { Option K };
}

impl<K> Naming<K> for Brand {
    ghost use Rattle.std.specs.Prelude.{None};

    ghost key = { None };
}

/// A ticket is drawn.
pub struct Draw;

impl<S, E> Play<S, TurnView<E>> for Draw {
    ghost then = { TellsDraw };
}

/// The ticket that is served is looked at, and where it is the seat's own the value is taken.
pub struct Look<V, B> {
    of: PhantomData<(V, B)>,
}

impl<V: Kept, B: Naming<V::Key>> Play<Option<V>, TurnView<Noted<V::Entry, V::Mark>>>
    for Look<V, B> {
    ghost then = { TellsLook
        (λ x log. IfSome B.key (λ key. stands_noted (V.stands key) x log))
        (added_noted V.added V.mark) };
}

/// Entries of the pass's own are noted.
pub struct NoteOwn<B> {
    of: PhantomData<B>,
}

impl<S, E, B: Noting<E>> Play<S, TurnView<E>> for NoteOwn<B> {
    ghost then = { TellsNote true B.entries };
}

/// Entries of a settling are noted.
pub struct NoteSettling<B> {
    of: PhantomData<B>,
}

impl<S, E, B: Noting<E>> Play<S, TurnView<E>> for NoteSettling<B> {
    ghost then = { TellsNote false B.entries };
}

/// The value is given back, and the next ticket is served.
pub struct Give;

impl<S, E> Play<S, TurnView<E>> for Give {
    ghost then = { TellsGive };
}

/// The history is looked at, so that one of two lists that were put together is found to begin the
/// other.
pub struct Learn;

impl<S, E> Play<S, TurnView<E>> for Learn {
    ghost then = { TellsLearn };
}

/// How a view is split, and how two meet.
pub struct SplitAndMeet;

impl<E> Split<TurnView<E>> for SplitAndMeet {
    ghost left = { keeper_view };

    ghost right = { newcomer_view };
}

impl<E> Join<TurnView<E>> for SplitAndMeet {
    ghost both = { meeting_view };

    ghost spent = { spent_view };
}
