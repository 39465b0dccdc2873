//! Records, kept by their texts.
ghost use Rattle.std.specs.Prelude.{◌≡◌, ◌↔◌, ◌<◌, ◌≤◌, List, [], ◌∷◌, ◌++◌, drop, length, IfOk, OnOk, OnErr, IsTrue};
ghost use Rattle.std.specs.List.{AllByRecursion};
ghost use Rattle.pcp_base.specs.declared.records.Record.{Record};
ghost use Rattle.pcp_base.specs.Apply.{apply, apply_all};
ghost use Rattle.pcp_base.specs.Fits.{AllFit, Fits};
ghost use Rattle.pcp_base.specs.Records.{IsWellFormedRecord};
ghost use Rattle.journal_sides.specs.Texts.{AreTexts, records_in};

use crate::batches::push;
use journal_sides::{read_first, texts_of};
use lease_records::write_record;
use pcp_base::{Memory, Record, Replay};
use record_sink::RecordSink;
use std::alloc::Global;
use std::marker::Model;

/// Records that are kept for good, and those that were added since, by their texts.
#[derive(Drop)]
pub(crate) struct KeptTexts {
    alloc: Global,
    octets: Vec<u8>,
    /// where the texts of those that were added begin
    place: usize,
}

impl Model for KeptTexts {
    ghost use Rattle.std.specs.Prelude.{take, drop};
    ghost use Rattle.journal_sides.specs.Texts.{records_in};
    ghost use Rattle.shard_book.specs.KeptTexts.{AreKeptAt, KeptRecords};

    ghost Value = { KeptRecords };

    ghost view = { λ t. record {
      sure = records_in (take t.place t.octets.items);
      added = records_in (drop t.place t.octets.items);
    } };

    ghost invariant = { λ t. AreKeptAt t.octets.items t.place };
}

/// Hands the record that stands in front of texts to a replay that it fits, and says how long its
/// text is.
fn replay_first<R: Replay>(alloc: Global, texts: &[u8], replay: &mut R) -> Result<usize, Memory>
    requires ready { R.replaying replay.old }
    requires first { (r : Record) × (rs : List Record) × AreTexts texts.now (r ∷ rs)
        × Fits (R.state replay.old) r }
    ensures first { IfOk result (λ size. (r : Record) → (rs : List Record)
        → AreTexts texts.now (r ∷ rs)
        → (R.state replay.new ≡ apply (R.state replay.old) r)
        × AreTexts (drop size texts.now) rs) }
    ensures some { IfOk result (λ size. 0 < size) }
    ensures within { IfOk result (λ size. size ≤ length texts.now) }
    ensures ready { OnOk result (R.replaying replay.new) }
    ensures lasting { R.lasting replay.new ≡ R.lasting replay.old }
{
    let (record, size) = read_first(texts);
    let _fits = replay.admit(alloc, &record)?;
    Ok(size)
}

/// Hands the records of texts to a replay that they fit.
fn replay_all<R: Replay>(alloc: Global, texts: &[u8], replay: &mut R) -> Result<(), Memory>
    requires ready { R.replaying replay.old }
    requires texts { AreTexts texts.now (records_in texts.now) }
    requires fit { AllFit (R.state replay.old) (records_in texts.now) }
    ensures state { OnOk result
        (R.state replay.new ≡ apply_all (R.state replay.old) (records_in texts.now)) }
    ensures ready { OnOk result (R.replaying replay.new) }
    ensures lasting { R.lasting replay.new ≡ R.lasting replay.old }
{
    let mut at = 0;
    while at < texts.len() {
        at += replay_first(alloc, &texts[at..], replay)?;
    }
    Ok(())
}

/// Appends the record that stands in front of texts to others, and says how long its text is.
fn push_first(texts: &[u8], records: &mut Vec<Record>) -> Result<usize, Memory>
    requires { (r : Record) × (rs : List Record) × AreTexts texts.now (r ∷ rs) }
    ensures first { IfOk result (λ size. (r : Record) → (rs : List Record)
        → AreTexts texts.now (r ∷ rs)
        → (records.new.items ≡ records.old.items ++ r ∷ []) × AreTexts (drop size texts.now) rs) }
    ensures some { IfOk result (λ size. 0 < size) }
    ensures within { IfOk result (λ size. size ≤ length texts.now) }
{
    let (record, size) = read_first(texts);
    push(records, &record)?;
    Ok(size)
}

/// The records of texts.
fn records_of(alloc: Global, texts: &[u8]) -> Result<Vec<Record>, Memory>
    requires { AreTexts texts.now (records_in texts.now) }
    ensures { IfOk result (λ records. records.items ≡ records_in texts.now) }
{
    let mut records = Vec::new(alloc);
    let mut at = 0;
    while at < texts.len() {
        at += push_first(&texts[at..], &mut records)?;
    }
    Ok(records)
}

/// Whether the octets are the same.
fn are_same(octets: &[u8], others: &[u8]) -> bool
    ensures { IsTrue result ↔ (octets.now ≡ others.now) }
{
    octets == others
}

impl KeptTexts {
    /// No record.
    pub(crate) fn new(alloc: Global) -> KeptTexts
        ensures { result ≡ record { sure = []; added = [] } }
    {
        let octets = Vec::new(alloc);
        KeptTexts {
            alloc,
            octets,
            place: 0,
        }
    }

    /// The texts of the records that are kept for good.
    pub(crate) fn sure(&self) -> &[u8]
        ensures records { records_in result.now ≡ self.now.sure }
        ensures texts { AreTexts result.now (records_in result.now) }
    {
        &self.octets[..self.place]
    }

    /// Adds well formed records. After `Memory` nothing has changed.
    pub(crate) fn add(&mut self, alloc: Global, records: &[Record]) -> Result<(), Memory>
        requires { AllByRecursion IsWellFormedRecord records.now }
        ensures ok { OnOk result
            (self.new ≡ record self.old { added = self.old.added ++ records.now }) }
        ensures err { OnErr result (self.new ≡ self.old) }
    {
        let texts = texts_of(alloc, records)?;
        self.octets.extend_from_slice(&texts)?;
        Ok(())
    }

    /// Keeps those that were added for good.
    pub(crate) fn confirm(&mut self)
        ensures { self.new ≡ record { sure = self.old.sure ++ self.old.added; added = [] } }
    {
        self.place = self.octets.len();
    }

    /// Forgets those that were added.
    pub(crate) fn forget(&mut self)
        ensures { self.new ≡ record self.old { added = [] } }
    {
        self.octets.truncate(self.place);
    }

    /// Hands the records that are kept for good to a replay that they fit.
    pub(crate) fn replay_sure<R: Replay>(&self, alloc: Global, replay: &mut R) -> Result<(), Memory>
        requires ready { R.replaying replay.old }
        requires fit { AllFit (R.state replay.old) self.now.sure }
        ensures state { OnOk result
            (R.state replay.new ≡ apply_all (R.state replay.old) self.now.sure) }
        ensures ready { OnOk result (R.replaying replay.new) }
        ensures lasting { R.lasting replay.new ≡ R.lasting replay.old }
    {
        replay_all(alloc, &self.octets[..self.place], replay)
    }

    /// Hands the records that were added to a replay that they fit.
    pub(crate) fn replay_added<R: Replay>(
        &self,
        alloc: Global,
        replay: &mut R,
    ) -> Result<(), Memory>
        requires ready { R.replaying replay.old }
        requires fit { AllFit (R.state replay.old) self.now.added }
        ensures state { OnOk result
            (R.state replay.new ≡ apply_all (R.state replay.old) self.now.added) }
        ensures ready { OnOk result (R.replaying replay.new) }
        ensures lasting { R.lasting replay.new ≡ R.lasting replay.old }
    {
        replay_all(alloc, &self.octets[self.place..], replay)
    }

    /// The records that were added.
    pub(crate) fn added(&self, alloc: Global) -> Result<Vec<Record>, Memory>
        ensures { IfOk result (λ records. records.items ≡ self.now.added) }
    {
        records_of(alloc, &self.octets[self.place..])
    }

    /// Whether the two keep the same records, where none were added.
    pub(crate) fn is_same(&self, other: &KeptTexts) -> bool
        requires none { self.now.added ≡ [] }
        requires other { other.now.added ≡ [] }
        ensures { IsTrue result ↔ (self.now.sure ≡ other.now.sure) }
    {
        are_same(&self.octets, &other.octets)
    }
}

impl RecordSink for KeptTexts {
    ghost taken = { λ texts. texts.sure ++ texts.added };

    fn take(&mut self, kept: &Record) -> Result<(), Memory> {
        write_record(self.alloc, &mut self.octets, kept)?;
        Ok(())
    }
}
