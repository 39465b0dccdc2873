//! Records by their texts, one after the other.
ghost use Rattle.std.specs.Prelude.{◌≡◌, ◌<◌, ◌≤◌, List, ◌∷◌, drop, length, IfOk};
ghost use Rattle.std.specs.List.{AllByRecursion};
ghost use Rattle.pcp_base.specs.declared.records.Record.{Record};
ghost use Rattle.pcp_base.specs.Records.{IsWellFormedRecord};
ghost use Rattle.journal_sides.specs.declared.layout.TheConstants.{MOST_RECORDS};
ghost use Rattle.journal_sides.specs.Texts.{AreBehind, AreTexts, records_in};

use crate::layout::MOST_RECORDS;
use lease_records::{read_record, write_record};
use pcp_base::{Memory, Record};
use std::alloc::Global;

/// The texts of well formed records, one after the other.
pub fn texts_of(alloc: Global, records: &[Record]) -> Result<Vec<u8>, Memory>
    requires { AllByRecursion IsWellFormedRecord records.now }
    ensures { IfOk result (λ texts. AreTexts texts.items records.now) }
{
    let mut texts = Vec::new(alloc);
    for record in records {
        write_record(alloc, &mut texts, record)?;
    }
    Ok(texts)
}

/// The record that stands in front of texts, and how long its text is.
pub fn read_first(texts: &[u8]) -> (Record, usize)
    requires { (r : Record) × (rs : List Record) × AreTexts texts.now (r ∷ rs) }
    ensures first { (r : Record) (rs : List Record) → AreTexts texts.now (r ∷ rs) →
        (result.0 ≡ r) × AreTexts (drop result.1 texts.now) rs }
    ensures some { 0 < result.1 }
    ensures within { result.1 ≤ length texts.now }
{
    let Ok(first) = read_record(texts) else {
        unreachable!()
    };
    first
}

/// How long the first of these texts is, 0 where there is none.
fn first_length(texts: &[u8]) -> usize
    requires { AreTexts texts.now (records_in texts.now) }
    ensures { AreBehind texts.now (records_in texts.now) 1 result }
{
    if texts.is_empty() {
        return 0;
    }
    read_first(texts).1
}

/// How long the texts of the first [`MOST_RECORDS`] records are, or all where they are fewer.
pub(crate) fn batch_length(texts: &[u8]) -> usize
    requires { AreTexts texts.now (records_in texts.now) }
    ensures { AreBehind texts.now (records_in texts.now) MOST_RECORDS result }
{
    let mut at = 0;
    for _read in 0..MOST_RECORDS {
        at += first_length(&texts[at..]);
    }
    at
}
