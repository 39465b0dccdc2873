//! The history of a lane's index: what it began with, and then each record that was pushed. It
//! exists in contracts alone; only its length takes octets.
ghost use Rattle.std.specs.Prelude.{◌≡◌, ◌+◌, ◌<◌, ◌^◌, ◌++◌, [], ◌∷◌, length, map, IfSome};
ghost use Rattle.std.specs.Bool.{OnTrue, OnFalse};
ghost use Rattle.lane_index.specs.declared.history.HistoryEntry.TheVariants.{Added};
ghost use Rattle.lane_index.specs.Histories.{only_opening};
ghost use mathlib.Core.List.{IsPrefix};

use logbook::{Gain, Offer, Plain, Play, Rule, Seen, Start, Word};
use pcp_base::{Change, MapLease, Moment, PeerLease, Record};
use std::collections::LinkedList;
use std::marker::{Brand, Model, PhantomData};

/// The leases that an index began with. No value of it is made.
pub struct OpeningLeases {
    pub maps: LinkedList<MapLease>,
    pub peers: LinkedList<PeerLease>,
    pub last: Moment,
}

/// An entry of a history. No value of it is made.
pub enum HistoryEntry {
    /// What the index began with.
    Began(OpeningLeases),
    /// A record that was pushed.
    Added(Record),
}

/// The rule of a history: its word is its length.
pub struct HistoryRule;

impl Rule<HistoryEntry, u64> for HistoryRule {
    ghost use Rattle.std.specs.Prelude.{[]};
    ghost use base.Fml.{ftrue};
    ghost use Rattle.lane_index.specs.Histories.{IsLengthCounted};

    ghost holds = { λ cells log. IsLengthCounted cells log };

    ghost first = { [] };

    ghost hinted = { λ n log. Unit {0} };

    ghost shows = { λ log. [] };

    ghost keeps = { λ names log. ftrue };

    ghost moves = { λ ask before after answer. Unit {0} };
}

/// Nothing is traded.
pub struct Nothing;

impl Gain<HistoryEntry, u64> for Nothing {
    ghost use base.Fml.{ftrue};

    ghost after = { λ names about answer. ftrue };
}

/// Names the entries of one step, which no number of the step can tell. Each call picks them.
pub trait Adding {
    ghost use Rattle.std.specs.Prelude.{List};
    ghost use Rattle.lane_index.specs.declared.history.HistoryEntry.{HistoryEntry};

    ghost entries: { List HistoryEntry };
}

impl Adding for Brand {
    ghost use Rattle.std.specs.Prelude.{[]};

    ghost entries = { [] };
}

/// A step that adds entries.
pub struct Add<B> {
    of: PhantomData<B>,
}

impl<B: Adding> Play<HistoryEntry, u64> for Add<B> {
    ghost use Rattle.lane_index.specs.Histories.{Adds};

    ghost then = { Adds B.entries };
}

impl<B: Adding> Plain<Record, HistoryEntry, u64> for Add<B> {
    ghost use Rattle.std.specs.Prelude.{None};
    ghost use Rattle.lane_index.specs.declared.history.HistoryEntry.TheVariants.{Added};

    ghost ask = { λ kept. Added kept };

    ghost state = { λ kept. None };
}

/// A step that counts the entries.
pub struct Count;

impl Play<HistoryEntry, u64> for Count {
    ghost use Rattle.lane_index.specs.Histories.{TellsLength};

    ghost then = { TellsLength };
}

pub(crate) type SeenHistory = Seen<HistoryEntry, u64, HistoryRule>;

/// How far a history has come, for who knows so much of it.
#[derive(Drop)]
pub struct Reached {
    pub(crate) seen: SeenHistory,
}

/// The history as its writer has it: whole.
#[derive(Drop)]
pub(crate) struct History {
    word: Word<HistoryEntry, u64, HistoryRule>,
    seen: SeenHistory,
    count: u64,
}

impl Model for History {
    ghost use Rattle.std.specs.Prelude.{◌≡◌, length};
    ghost use Rattle.lane_index.specs.Histories.{IndexHistory, word_head};

    ghost Value = { IndexHistory };

    ghost view = { λ h. record { index = h.seen.book; log = h.seen.log } };

    ghost invariant = { λ h. (h.word ≡ word_head h.seen.book) × (h.count ≡ length h.seen.log) };
}

impl History {
    ghost use Rattle.logbook.specs.Pages.{Book};
    ghost use Rattle.lane_index.specs.Histories.{IndexHistory};

    /// A history of what the index began with. None where it wasn't added.
    pub(crate) fn open(maps: &[MapLease], peers: &[PeerLease], last: Moment) -> Option<History>
        ensures { IfSome result (λ h. h.log ≡ only_opening maps.now peers.now last) }
    {
        let (seen, mut first, _second) = Seen::open(Start::alone(), 0, 0);
        let mut history = History {
            word: Word::tracked(0, &mut first),
            seen,
            count: 0,
        };
        if history.begin::<Brand>(maps, peers, last) {
            Some(history)
        } else {
            None
        }
    }

    /// Adds what the index began with, and says whether it did. It reads no lease.
    fn begin<B: Adding>(&mut self, maps: &[MapLease], peers: &[PeerLease], last: Moment) -> bool
        requires empty { self.old.log ≡ [] }
        requires entries { B.entries ≡ only_opening maps.now peers.now last }
        ensures { OnTrue result (self.new.log ≡ only_opening maps.now peers.now last) }
    {
        self.add::<B>(1)
    }

    /// Adds a record, and says whether it did. It doesn't read it.
    pub(crate) fn extend(&mut self, kept: &Record) -> bool
        requires room { length self.old.log + 1 < 2 ^ 64 }
        ensures added { OnTrue result
            (self.new ≡ record self.old { log = self.old.log ++ Added kept.now ∷ [] }) }
        ensures unchanged { OnFalse result (self.new ≡ self.old) }
    {
        self.extend_by::<Brand>(kept)
    }

    fn extend_by<B: Adding>(&mut self, kept: &Record) -> bool
        requires room { length self.old.log + 1 < 2 ^ 64 }
        requires entries { B.entries ≡ Added kept.now ∷ [] }
        ensures added { OnTrue result
            (self.new ≡ record self.old { log = self.old.log ++ Added kept.now ∷ [] }) }
        ensures unchanged { OnFalse result (self.new ≡ self.old) }
    {
        self.add::<B>(1)
    }

    /// Adds entries, `more` of them, in one step, and says whether it did.
    fn add<B: Adding>(&mut self, more: u64) -> bool
        requires count { length B.entries ≡ more }
        requires room { length self.old.log + more < 2 ^ 64 }
        ensures added { OnTrue result
            (self.new ≡ record self.old { log = self.old.log ++ B.entries }) }
        ensures unchanged { OnFalse result (self.new ≡ self.old) }
    {
        let mut seen = self.seen.again();
        let blank = Record {
            moment: Moment::of(0).unwrap(),
            change: Change::Mark,
        };
        let mut offer: Offer<HistoryEntry, u64, HistoryRule, Nothing> = seen.plain::<
            Nothing,
            Record,
            Add<B>,
        >(&blank);
        let mut pen = seen.no_pen();
        let length = self.count;
        let found = self
            .word
            .compare_exchange::<Add<B>, Nothing>(
                length,
                length + more,
                &mut seen,
                &mut offer,
                &mut pen,
            );
        if found != length {
            return false;
        }
        self.seen = seen;
        self.count = length + more;
        true
    }

    /// What was seen of it: all.
    pub(crate) fn seen(&self) -> SeenHistory
        ensures { (result.book ≡ self.now.index) × (result.log ≡ self.now.log) }
    {
        self.seen.again()
    }

    /// Whether its word counts no more than it has here. Then nobody has seen more of it.
    pub(crate) fn covers(&self, seen: &SeenHistory) -> bool
        requires { seen.now.book ≡ self.now.index }
        ensures { OnTrue result (IsPrefix seen.now.log self.now.log) }
    {
        let mut both = self.seen.again();
        both.learn(seen);
        let blank = Record {
            moment: Moment::of(0).unwrap(),
            change: Change::Mark,
        };
        let mut offer: Offer<HistoryEntry, u64, HistoryRule, Nothing> = both.plain::<
            Nothing,
            Record,
            Add<Brand>,
        >(&blank);
        let found = self.word.load::<Count, Nothing>(&mut both, &mut offer);
        found == self.count
    }

    /// How many entries it has.
    pub(crate) fn len(&self) -> u64
        ensures { result ≡ length self.now.log }
    {
        self.count
    }
}
