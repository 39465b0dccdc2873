//! The lock.
ghost use Rattle.std.specs.Prelude.{◌≡◌, ◌<◌, ◌≤◌, ◌+◌, ◌++◌, ◌%◌, ◌^◌, ℕ, [], List, length, true, false, Some, IfOk, IfErr, IfSome, IfNone, OnErr};
ghost use mathlib.Core.List.{IsPrefix};
ghost use mathlib.Core.Option.{some};
ghost use lib.ListN.{get_elem?};
ghost use Rattle.std.specs.Mem.Slots.{slots_items, slots_len, IsFull};
ghost use Rattle.turn_lock.specs.declared.layout.TheConstants.{FIRST_ROOM};
ghost use Rattle.turn_lock.specs.Lengths.{longer};
ghost use Rattle.turn_lock.specs.Marks.{added_noted, marks_beside, stands_noted, with_mark};
ghost use Rattle.turn_lock.specs.Passes.{SplitsPass, IsPlaced, SeesMore, IsIdle, IsWaiting, TakesOut, after_note, after_give, new_pass};
ghost use Rattle.turn_lock.specs.Views.{new_room, waiting_view};

use crate::held::Held;
use crate::kept::Kept;
use crate::layout::{FIRST_ROOM, HISTORY, NEW_ROOM, SERVING, TICKET, VALUE};
use crate::plays::{Draw, Give, Learn, Look, Naming, NoteOwn, NoteSettling, Noting, SplitAndMeet};
use crate::views::{Noted, TurnRule, TurnView};
use atomic_table::{Closed, Refused, Seat, Table};
use libc::types::timespec;
use std::alloc::{AllocError, AllocFailed, Global};
use std::marker::{Brand, Model};
use std::sync::Wait;
use std::{hint, thread};

/// A lock whose passes know the history of the value behind it. To contracts it is a name, with what
/// it was told when it was made.
#[derive(Drop)]
pub struct Turn<V: Kept> {
    table: Table<Option<V>, TurnView<Noted<V::Entry, V::Mark>>, V::Key, TurnRule<V>, Global>,
}

impl<V: Kept> Model for Turn<V> {
    ghost use Rattle.std.specs.Prelude.{◌≡◌};
    ghost use Rattle.turn_lock.specs.Passes.{TurnName};

    ghost Value = { TurnName V.Key };

    ghost view = { λ t. record { id = t.table.shared.table_id; key = t.table.shared.key } };

    ghost invariant = { λ t.
        (t.table.shared.table_id.words ≡ 3) × (t.table.shared.table_id.slots ≡ 1) };
}

/// What one caller knows of a turn: whether its held value is out, the entries that it has seen,
/// and the places of those that it noted, its own and those of settlings. Of this only a number
/// takes octets.
#[derive(Drop)]
pub struct Pass<V: Kept> {
    seat: Seat<Option<V>, TurnView<Noted<V::Entry, V::Mark>>>,
    room: u64,
}

/// Gives a pass up, as a drop does: for a value whose type isn't `Drop`, of which a drop asks. What it has
/// noted stays noted, and its share of the right to make others is lost with it.
pub fn give_up<V: Kept>(pass: Pass<V>) {
    let Pass {
        seat: _seat,
        room: _,
    } = pass;
}

impl<V: Kept> Model for Pass<V> {
    ghost use Rattle.turn_lock.specs.Passes.{PassKnowledge, knowledge_of, IsPass};

    ghost Value = { PassKnowledge V.Entry V.Mark };

    ghost view = { λ p. knowledge_of p.seat.table_id p.seat.me.0 };

    ghost invariant = { λ p. IsPass p.room p.seat.me };
}

impl<V: Kept> Pass<V> {
    /// The places of a pass are below the length of what it has seen, each once. So it has no more
    /// places than entries.
    pub fn places_stand_once(&self)
        ensures once { IsPlaced self.now }
        ensures few { length self.now.mine + length self.now.settled ≤ length self.now.seen }
    {
        // The invariant is known once a field is read.
        let _room = self.room;
    }
}

/// There was no memory. The value comes back.
#[derive(Drop)]
pub struct Unmade<V> {
    pub value: V,
}

impl<V: Kept> Turn<V> {
    /// A turn whose history is empty, and the first pass. The turn keeps in mind what it is told
    /// of the value. The value must stand for no entry and have added none. The one error is want of
    /// memory.
    pub fn new(alloc: Global, value: V, key: &V::Key) -> Result<(Turn<V>, Pass<V>), Unmade<V>>
        requires stands { V.stands key.now value [] [] }
        requires added { V.added value ≡ [] }
        ensures key { IfOk result (λ t. t.0.key ≡ key.now) }
        ensures made { IfOk result (λ t. t.1 ≡ new_pass t.0.id FIRST_ROOM [] []) }
        ensures back { IfErr result (λ u. u.value ≡ value) }
    {
        let mut slots = Vec::new(alloc);
        if let Err(failed) = slots.push(Some(value)) {
            let AllocFailed { value } = failed;
            slots.destroy_empty();
            return Err(Unmade {
                value: value.unwrap(),
            });
        }
        match Table::new(alloc, &[0, 0, 0], slots, key) {
            Ok((table, seat)) => Ok((
                Turn { table },
                Pass {
                    seat,
                    room: FIRST_ROOM,
                },
            )),
            Err(Refused { mut slots }) => {
                let value = slots.pop().unwrap();
                slots.destroy_empty();
                Err(Unmade {
                    value: value.unwrap(),
                })
            }
        }
    }

    // Draws a ticket, and gives its number modulo 2^64.
    fn draw(&self, seat: &mut Seat<Option<V>, TurnView<Noted<V::Entry, V::Mark>>>) -> u64
        requires turn { seat.old.table_id ≡ self.now.id }
        requires idle { IsIdle seat.old.me }
        ensures turn { seat.new.table_id ≡ seat.old.table_id }
        ensures drawn { (t : ℕ) × (result ≡ t % 2 ^ 64)
            × (seat.new.me ≡ (waiting_view t seat.old.me.0, [])) }
    {
        self.table.shared.fetch_add::<Draw>(seat, TICKET, 1)
    }

    // Takes the value out where the seat's turn has come.
    fn come<B: Naming<V::Key>>(
        &self,
        seat: &mut Seat<Option<V>, TurnView<Noted<V::Entry, V::Mark>>>,
        ticket: u64,
    ) -> Option<V>
        requires key { B.key ≡ Some self.now.key }
        requires turn { seat.old.table_id ≡ self.now.id }
        requires waiting { IsWaiting ticket seat.old.me }
        ensures turn { seat.new.table_id ≡ seat.old.table_id }
        ensures not_yet { IfNone result (seat.new.me ≡ seat.old.me) }
        ensures came { IfSome result
            (TakesOut (stands_noted (V.stands self.now.key))
            (added_noted V.added V.mark) seat.old.me seat.new.me) }
    {
        if self.table.shared.load::<Look<V, B>>(seat, SERVING) != ticket {
            return None;
        }
        let value = self.table.shared.exchange(seat, VALUE, None);
        Some(value.unwrap())
    }

    /// Waits for the turn, and takes the value out. The pass must be of this turn, and its value at
    /// home. Turns are handed out in the order of tickets, and nothing here waits but this call.
    pub fn take<R: Wait>(&self, rt: &R, pass: &mut Pass<V>) -> Held<V>
        requires turn { pass.old.turn ≡ self.now.id }
        requires idle { pass.old.out ≡ false }
        ensures pass { SeesMore pass.old pass.new }
        ensures out { pass.new.out ≡ true }
        ensures value { V.stands self.now.key result pass.new.seen pass.new.marks }
        ensures added { V.added result ≡ [] }
    {
        let ticket = self.draw(&mut pass.seat);
        let mut rounds = 0;
        for _ in rt.forever() {
            if let Some(value) = self.come::<Brand>(&mut pass.seat, ticket) {
                return Held { value };
            }
            rounds = pause(rounds);
        }
        unreachable!()
    }

    // Notes entries of the pass's own. It doesn't read the value, which names them.
    fn note_own<B: Noting<Noted<V::Entry, V::Mark>>>(
        &self,
        pass: &mut Pass<V>,
        value: &V,
        count: u32,
    )
        requires pass { (pass.old.turn ≡ self.now.id) × (pass.old.out ≡ true) }
        requires entries { B.entries ≡ with_mark (V.mark value.now) (V.added value.now) }
        requires count { length (V.added value.now) ≡ count }
        ensures { pass.new
            ≡ after_note true (V.added value.now) (V.mark value.now) pass.old }
    {
        self.table
            .shared
            .fetch_add::<NoteOwn<B>>(&mut pass.seat, HISTORY, u64::from(count));
    }

    // Notes entries of a settling. It doesn't read the value, which names them.
    fn note_settling<B: Noting<Noted<V::Entry, V::Mark>>>(
        &self,
        pass: &mut Pass<V>,
        value: &V,
        count: u32,
    )
        requires pass { (pass.old.turn ≡ self.now.id) × (pass.old.out ≡ true) }
        requires entries { B.entries ≡ with_mark (V.mark value.now) (V.added value.now) }
        requires count { length (V.added value.now) ≡ count }
        ensures { pass.new
            ≡ after_note false (V.added value.now) (V.mark value.now) pass.old }
    {
        self.table
            .shared
            .fetch_add::<NoteSettling<B>>(&mut pass.seat, HISTORY, u64::from(count));
    }

    /// The entries that the value has added, `count` of them, join the history in one step, each with the
    /// value's mark. They
    /// count as the pass's own where `own` is true, else as those of a settling. It takes no
    /// memory.
    pub fn note(&self, pass: &mut Pass<V>, held: &mut Held<V>, count: u32, own: bool)
        requires pass { (pass.old.turn ≡ self.now.id) × (pass.old.out ≡ true) }
        requires count { length (V.added held.old) ≡ count }
        requires value { V.stands self.now.key held.old (pass.old.seen ++ V.added held.old)
            (pass.old.marks ++ marks_beside (V.mark held.old) (V.added held.old)) }
        ensures pass { pass.new ≡ after_note own (V.added held.old) (V.mark held.old) pass.old }
        ensures stands { (key : V.Key) (log : List V.Entry) (marks : List V.Mark) →
            V.stands key held.old log marks → V.stands key held.new log marks }
        ensures added { V.added held.new ≡ [] }
        ensures lasts { V.lasts held.new ≡ V.lasts held.old }
    {
        if own {
            self.note_own::<Brand>(pass, &held.value, count);
        } else {
            self.note_settling::<Brand>(pass, &held.value, count);
        }
        held.value.noted();
    }

    /// Gives the value back, which must have added nothing since the last note. It takes no memory.
    pub fn give(&self, pass: &mut Pass<V>, held: Held<V>)
        requires pass { (pass.old.turn ≡ self.now.id) × (pass.old.out ≡ true) }
        requires added { V.added held ≡ [] }
        requires value { V.stands self.now.key held pass.old.seen pass.old.marks }
        ensures { pass.new ≡ after_give pass.old }
    {
        let Held { value } = held;
        let out = self
            .table
            .shared
            .exchange(&mut pass.seat, VALUE, Some(value));
        match out {
            None => {}
            Some(_) => unreachable!(),
        }
        self.table
            .shared
            .fetch_add::<Give>(&mut pass.seat, SERVING, 1);
    }

    /// Takes the value out for good, where nobody shares the turn: the pass has the share of all passes
    /// (each that was split off has met it again), and its value is at home. So nobody else can have
    /// noted more than it has seen. It waits for nobody and takes no memory.
    pub fn into_value(self, pass: Pass<V>) -> V
        requires turn { pass.turn ≡ self.id }
        requires idle { pass.out ≡ false }
        requires whole { pass.room ≡ FIRST_ROOM }
        ensures value { V.stands self.key result pass.seen pass.marks }
        ensures added { V.added result ≡ [] }
    {
        let Pass { seat, room: _ } = pass;
        let Turn { table } = self;
        let value = only_slot(table.close_with(seat));
        value.unwrap()
    }

    /// What is behind a turn that nobody shares any more: its value, or none where that was taken out
    /// and not given back. It waits for nobody and takes no memory.
    pub fn into_slot(self) -> Option<V> {
        let Turn { table } = self;
        only_slot(table.close())
    }

    /// Another pass, which has seen as much and noted nothing. It takes no memory. It is refused, as
    /// for want of memory, where this pass's share of the 2^64 passes that a turn may have is used
    /// up: the first pass has all, and one that is split off gets 2^32, but at most a half.
    pub fn split(&self, _alloc: Global, pass: &mut Pass<V>) -> Result<Pass<V>, AllocError>
        requires { (pass.old.turn ≡ self.now.id) × (pass.old.out ≡ false) }
        ensures ok { IfOk result (SplitsPass pass.old pass.new) }
        ensures refused { OnErr result (pass.old.room < 2) }
        ensures unchanged { OnErr result (pass.new ≡ pass.old) }
    {
        if pass.room < 2 {
            return Err(AllocError);
        }
        let seat = self.table.shared.split_seat::<SplitAndMeet>(&mut pass.seat);
        let room = new_room_of(pass.room);
        pass.room -= room;
        Ok(Pass { seat, room })
    }

    /// Takes another pass in: it has then seen the longer of the two lists, which the other begins,
    /// and has noted what both have. Both must be of this turn, with their values at home.
    pub fn meet(&self, pass: &mut Pass<V>, other: Pass<V>)
        requires turn { (pass.old.turn ≡ self.now.id) × (other.turn ≡ self.now.id) }
        requires idle { (pass.old.out ≡ false) × (other.out ≡ false) }
        ensures pass { (pass.new.turn ≡ pass.old.turn) × (pass.new.out ≡ false) }
        ensures seen { pass.new.seen ≡ longer pass.old.seen other.seen }
        ensures marks { pass.new.marks ≡ longer pass.old.marks other.marks }
        ensures begins { IsPrefix pass.old.seen pass.new.seen × IsPrefix other.seen pass.new.seen }
        ensures mine { pass.new.mine ≡ pass.old.mine ++ other.mine }
        ensures settled { pass.new.settled ≡ pass.old.settled ++ other.settled }
        ensures room { pass.new.room ≡ pass.old.room + other.room }
    {
        let Pass { seat, room } = other;
        self.table
            .shared
            .join_seat::<SplitAndMeet>(&mut pass.seat, seat);
        self.table.shared.load::<Learn>(&mut pass.seat, HISTORY);
        pass.room += room;
    }
}

// The value of the one slot.
fn only_slot<S>(mut closed: Closed<S, Global>) -> S
    requires full { IsFull closed.slots }
    requires one { slots_len closed.slots ≡ 1 }
    ensures { get_elem? (slots_items closed.slots) 0 ≡ some result }
{
    let value = closed.take(VALUE);
    closed.free();
    value
}

// How much of this room a new pass gets: `NEW_ROOM`, but at most a half.
fn new_room_of(room: u64) -> u64
    requires { 2 ≤ room }
    ensures exact { result ≡ new_room room }
    ensures some { (0 < result) × (result < room) }
{
    if 2 * NEW_ROOM < room {
        NEW_ROOM
    } else {
        room / 2
    }
}

/// How long a wait for the turn sleeps at a time, in nanoseconds.
const NAP: i64 = 50_000;

// Spins, longer from round to round; from the eighth on it yields the processor, and from the 64th on it
// sleeps, since whoever has the turn waits for a disk then.
fn pause(rounds: u32) -> u32 {
    match rounds {
        0..=6 => {
            for _ in 0..1u32 << rounds {
                hint::spin_loop();
            }
        }
        7..=63 => thread::yield_now(),
        _ => {
            nap();
            return rounds;
        }
    }
    rounds + 1
}

// A signal may end it early: then the turn is looked at early.
fn nap() {
    let asked = timespec {
        tv_sec: 0,
        tv_nsec: NAP,
    };
    let mut left = timespec {
        tv_sec: 0,
        tv_nsec: 0,
    };
    let _status = libc::nanosleep(&asked, &mut left);
}
