//! A lane: lookups of who owns an external port, beside the writer that publishes what changed.
ghost use Rattle.std.specs.Prelude.{◌≡◌, ◌≤◌, ◌++◌, ◌∷◌, [], OnOk, OnErr};
ghost use Rattle.pcp_base.specs.Apply.{apply, apply_all};
ghost use Rattle.pcp_base.specs.Sound.{Sound};
ghost use Rattle.filter_rules.specs.Lookups.{look};
ghost use mathlib.Core.List.{IsPrefix};
ghost use Rattle.lane_index.specs.Lanes.{told_records};

use crate::history::{History, SeenHistory};
use crate::operations::Operation;
use crate::pushed::Pushed;
use crate::reading::read;
use crate::senders::Sender;
use crate::showing::{ShownWriter, append_all, show};
use crate::shown::LaneReader;
use pcp_base::{Address, Endpoint, Memory, Moment, Protocol, Record};
use std::alloc::Global;
use std::marker::Model;
use std::mem;
use std::sync::Wait;

/// Who publishes records to a lane. To contracts it is the name of its index, the state that this
/// began with, the records that were published, and those that were pushed since. It isn't `Drop`:
/// end it by `end`.
pub struct LaneWriter {
    pub(crate) alloc: Global,
    /// None only within a call.
    pub(crate) writer: Option<ShownWriter>,
    /// What was published.
    pub(crate) shown: SeenHistory,
    /// Operations for which no memory was found, after those that the writer has.
    pub(crate) waiting: Vec<Operation>,
    pub(crate) history: History,
}

impl Model for LaneWriter {
    ghost use Rattle.std.specs.Prelude.{◌++◌, drop, length, IsSome, IfSome};
    ghost use Rattle.lane_index.specs.Histories.{opening_in, added_in};
    ghost use Rattle.lane_index.specs.Lanes.{WriterKnowledge, writer_of};
    ghost use Rattle.lane_index.specs.Keeping.{IsBehind};

    ghost Value = { WriterKnowledge };

    ghost view = { λ w. writer_of w.history.index (opening_in w.history.log) (added_in w.shown.log)
        (drop (length (added_in w.shown.log)) (added_in w.history.log)) };

    ghost invariant = { λ w. IsSome w.writer × IfSome w.writer (λ writer.
        IsBehind w.history w.shown.log writer.desk.shown.value
        (drop writer.behind writer.log.items ++ w.waiting.items)) };
}

/// Who looks up owners. To contracts it is the name of its index, the state that this began with,
/// and the published records that it knows, which only become more.
#[derive(Drop)]
pub struct Lane {
    /// None only within a lookup.
    pub(crate) reader: Option<LaneReader>,
    pub(crate) seen: SeenHistory,
    pub(crate) count: u64,
}

impl Model for Lane {
    ghost use Rattle.lane_index.specs.Histories.{opening_in, added_in};
    ghost use Rattle.lane_index.specs.Lanes.{LaneKnowledge, lane_of};
    ghost use Rattle.lane_index.specs.Keeping.{IsSeenSoFar};
    ghost use Rattle.std.specs.Prelude.{IsSome, IfSome};
    ghost use Rattle.lane_index.specs.Shown.{NamesIndex};

    ghost Value = { LaneKnowledge };

    ghost view = { λ l. lane_of l.seen.book (opening_in l.seen.log) (added_in l.seen.log) };

    ghost invariant = { λ l. IsSome l.reader
        × IfSome l.reader (λ r. NamesIndex l.seen.book r.place.me.0.client)
        × IsSeenSoFar l.seen.log l.count };
}

/// The records that an index had published at some time, for its lane to learn. It takes 8 octets,
/// however many they are.
#[derive(Drop)]
pub struct Told {
    pub(crate) seen: SeenHistory,
    pub(crate) count: u64,
}

impl Model for Told {
    ghost use Rattle.lane_index.specs.Histories.{added_in};
    ghost use Rattle.lane_index.specs.Lanes.{ToldRecords, told_records};
    ghost use Rattle.lane_index.specs.Keeping.{IsSeenSoFar};

    ghost Value = { ToldRecords };

    ghost view = { λ t. told_records t.seen.book (added_in t.seen.log) };

    ghost invariant = { λ t. IsSeenSoFar t.seen.log t.count };
}

impl LaneWriter {
    /// One more record, which no lookup finds before `publish`. Its moment must not be below `last`,
    /// nor below that of a record before it, and the table after it must be sound. A Rest and a
    /// Renumber change nothing that a lookup tells. The one error is want of memory, or of a number,
    /// of 64 bits, for one more record; then nothing is changed.
    pub fn push(&mut self, alloc: Global, kept: &Record) -> Result<(), Memory>
        requires later { (apply_all self.old.opening
            (self.old.published ++ self.old.pending)).last ≤ kept.now.moment }
        requires sound { Sound (apply (apply_all self.old.opening
            (self.old.published ++ self.old.pending)) kept.now).table }
        ensures pushed { OnOk result
            (self.new ≡ record self.old { pending = self.old.pending ++ kept.now ∷ [] }) }
        ensures unchanged { OnErr result (self.new ≡ self.old) }
    {
        let pushed = Pushed::of(alloc, kept)?;
        self.waiting.reserve(1)?;
        if self.history.len() == u64::MAX || !self.history.extend(kept) {
            return Err(Memory);
        }
        let operation = Operation {
            pushed,
            seen: self.history.seen(),
            count: self.history.len(),
        };
        if !self.waiting.is_empty() {
            self.waiting.push_reserved(operation);
            return Ok(());
        }
        match &mut self.writer {
            None => unreachable!(),
            Some(writer) => {
                if let Err(operation) = writer.append(operation) {
                    self.waiting.push_reserved(operation);
                }
            }
        }
        Ok(())
    }

    /// Shows all that was pushed to the lane, in one step, and tells all that is published now. It
    /// waits for a lookup that still has the other copy. It takes memory only for records for which
    /// `push` found none in the log of the copies, and then waits until there is some.
    pub fn publish<R: Wait>(&mut self, rt: &R) -> Told
        ensures published { self.new ≡ record self.old {
          published = self.old.published ++ self.old.pending;
          pending = [];
        } }
        ensures told { result
            ≡ told_records self.old.index (self.old.published ++ self.old.pending) }
    {
        let waiting = mem::replace(&mut self.waiting, Vec::new(self.alloc));
        let mut writer = self.writer.take().unwrap();
        append_all(rt, &mut writer, waiting);
        let writer = show(rt, writer);
        match mem::replace(&mut self.writer, Some(writer)) {
            None => {}
            Some(_) => unreachable!(),
        }
        self.shown = self.history.seen();
        Told {
            seen: self.history.seen(),
            count: self.history.len(),
        }
    }

    /// What a lane of its own index knows begins what was pushed, and began with the same state.
    /// This is learnt of the history, which is asked again where another had added to it: nobody
    /// but the writer does.
    pub fn meet<R: Wait>(&self, rt: &R, lane: &Lane)
        requires { lane.now.index ≡ self.now.index }
        ensures opening { lane.now.opening ≡ self.now.opening }
        ensures known { IsPrefix lane.now.known (self.now.published ++ self.now.pending) }
    {
        for _ in rt.forever() {
            if self.history.covers(&lane.seen) {
                return;
            }
        }
        unreachable!()
    }

    /// Ends it, and waits for a lookup that still has a copy. From then on lookups of its lane find
    /// no copy, and try for ever.
    pub fn end<R: Wait>(self, rt: &R) {
        let LaneWriter {
            alloc: _,
            writer,
            shown: _shown,
            waiting: _waiting,
            history: _history,
        } = self;
        drop(writer.unwrap().take(rt));
    }
}

impl Lane {
    /// The endpoint to which a remote peer may send through an external port at `m`, by published
    /// records that begin with those that the lane knew; None exactly where there is none by them. A
    /// moment below that of the last of them counts as that. The lane then knows these records. It
    /// takes no memory and no turn, and waits for no disk and no writer that stands still: it tries
    /// again only where the copy that it found has less than the lane knows, or where the writer was
    /// ended.
    pub fn look<R: Wait>(
        &mut self,
        rt: &R,
        protocol: Protocol,
        port: u16,
        remote: &Address,
        remote_port: u16,
        m: Moment,
    ) -> Option<Endpoint>
        ensures index { (self.new.index ≡ self.old.index) × (self.new.opening ≡ self.old.opening) }
        ensures known { IsPrefix self.old.known self.new.known }
        ensures owner { result ≡ look (apply_all self.new.opening self.new.known)
            protocol port remote.now remote_port m }
    {
        let sender = Sender {
            protocol,
            port,
            remote: *remote,
            remote_port,
        };
        let reader = self.reader.take().unwrap();
        let (reader, owner) = read(rt, reader, &mut self.seen, &mut self.count, &sender, m);
        self.reader = Some(reader);
        owner
    }

    /// From now on the lane knows all that was told, by the writer of its own index. It takes no
    /// memory and waits for nobody.
    pub fn learn(&mut self, told: &Told)
        requires { told.now.index ≡ self.old.index }
        ensures index { (self.new.index ≡ self.old.index) × (self.new.opening ≡ self.old.opening) }
        ensures known { IsPrefix self.old.known self.new.known }
        ensures told { IsPrefix told.now.records self.new.known }
    {
        let mut both = self.seen.again();
        both.learn(&told.seen);
        if self.count < told.count {
            self.seen = told.seen.again();
            self.count = told.count;
        }
    }
}
