//! What holds of the passes of one turn, and of its tickets.
ghost use Rattle.turn_lock.specs.declared.views.Noted.{Noted};
ghost use Rattle.turn_lock.specs.Marks.{added_noted, stands_noted};
ghost use Rattle.turn_lock.specs.Laws.{ViewsShareHistory, ViewsShareNoPlace, TicketsGoOnInTurn, NotedStandsOnce};

use crate::kept::Kept;

/// Of two passes of one turn, what one has seen begins what the other has seen, and no place stands
/// in the lists of both.
pub fn passes_share_one_history<V: Kept>()
    ensures history { (key : V.Key) → ViewsShareHistory V (Noted V.Entry V.Mark)
        (stands_noted (V.stands key)) (added_noted V.added V.mark) }
    ensures places { (key : V.Key) → ViewsShareNoPlace V (Noted V.Entry V.Mark)
        (stands_noted (V.stands key)) (added_noted V.added V.mark) }
{}

/// The tickets out are the numbers from the one served to the last one drawn, each once.
pub fn tickets_go_on<V: Kept>()
    ensures { (key : V.Key) → TicketsGoOnInTurn V (Noted V.Entry V.Mark)
        (stands_noted (V.stands key)) (added_noted V.added V.mark) }
{}

/// An entry that was noted stands at its place in the history from then on, and this place stands
/// once in `mine` or once in `settled`.
pub fn noted_entries_stand_once<V: Kept>()
    ensures { NotedStandsOnce V.Entry V.Mark }
{}
