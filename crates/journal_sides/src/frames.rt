//! Writing the octets of frames and sides.
ghost use Rattle.std.specs.Prelude.{◌≡◌, ◌<◌, ◌≤◌, [], ◌∷◌, ◌++◌, drop, length, take, IfOk, OnOk};
ghost use Rattle.std.specs.Int.{to_be_bytes, w32};
ghost use Rattle.std.specs.List.{AllByRecursion};
ghost use Rattle.pcp_base.specs.Records.{IsWellFormedRecord};
ghost use Rattle.journal_sides.specs.declared.layout.TheConstants.{MOST_FRAMED, MOST_RECORDS};
ghost use Rattle.journal_sides.specs.declared.formats.Format.TheVariants.{Second};
ghost use Rattle.journal_sides.specs.Frames.{frame_text};
ghost use Rattle.journal_sides.specs.Shut.{AreAppended, AreFramed, IsHidden};
ghost use Rattle.journal_sides.specs.Sides.{head_text};
ghost use Rattle.journal_sides.specs.Texts.{AreBehind, AreTexts, records_in};

use crate::formats::Format;
use crate::heads::head_of;
use crate::layout::FRAME_ENDS;
use crate::texts::{batch_length, texts_of};
use pcp_base::{Memory, Record};
use std::alloc::{AllocError, Global};

/// Makes room for the frame of this text and for the gate behind it, so that they take memory once.
fn make_room(out: &mut Vec<u8>, text: &[u8]) -> Result<(), AllocError>
    ensures { out.new.items ≡ out.old.items }
{
    out.reserve(text.len().saturating_add(FRAME_ENDS))
}

/// Appends a frame of these texts, all but its gate.
fn put_frame_text(out: &mut Vec<u8>, texts: &[u8]) -> Result<(), AllocError>
    requires { length texts.now ≤ MOST_FRAMED }
    ensures { OnOk result (out.new.items
        ≡ out.old.items ++ (to_be_bytes w32 (length texts.now) ++ texts.now)) }
{
    make_room(out, texts)?;
    out.extend_from_slice(&(texts.len() as u32).to_be_bytes())?;
    out.extend_from_slice(texts)
}

/// The head of a side in the format that is written, all but its gate.
fn head_behind_gate(alloc: Global, generation: u64) -> Result<Vec<u8>, Memory>
    ensures { IfOk result (λ text. text.items ≡ drop 1 (head_text Second generation)) }
{
    let head = head_of(Format::Second, generation);
    Ok(head[1..].to_vec(alloc)?)
}

/// Appends a frame of the first [`MOST_RECORDS`] records of these texts, or of all where they are
/// fewer, all but its gate. How long their texts are.
fn put_first_frame(out: &mut Vec<u8>, texts: &[u8]) -> Result<usize, AllocError>
    requires some { 0 < length texts.now }
    requires texts { AreTexts texts.now (records_in texts.now) }
    ensures behind { IfOk result
        (λ size. AreBehind texts.now (records_in texts.now) MOST_RECORDS size) }
    ensures some { IfOk result (λ size. 0 < size) }
    ensures within { IfOk result (λ size. size ≤ length texts.now) }
    ensures frame { OnOk result (out.new.items
        ≡ out.old.items ++ frame_text (take MOST_RECORDS (records_in texts.now))) }
{
    let size = batch_length(texts);
    put_frame_text(out, &texts[..size])?;
    Ok(size)
}

/// The same behind an open gate.
fn put_open_frame(out: &mut Vec<u8>, texts: &[u8]) -> Result<usize, AllocError>
    requires some { 0 < length texts.now }
    requires texts { AreTexts texts.now (records_in texts.now) }
    ensures behind { IfOk result
        (λ size. AreBehind texts.now (records_in texts.now) MOST_RECORDS size) }
    ensures some { IfOk result (λ size. 0 < size) }
    ensures within { IfOk result (λ size. size ≤ length texts.now) }
    ensures frame { OnOk result (out.new.items
        ≡ out.old.items ++ 1 ∷ frame_text (take MOST_RECORDS (records_in texts.now))) }
{
    out.push(1)?;
    put_first_frame(out, texts)
}

/// Appends open frames of the records of these texts, [`MOST_RECORDS`] in each but the last.
fn put_open_frames(out: &mut Vec<u8>, texts: &[u8]) -> Result<(), AllocError>
    requires { AreTexts texts.now (records_in texts.now) }
    ensures { OnOk result (AreFramed (records_in texts.now) out.old.items out.new.items) }
{
    let mut at = 0;
    while at < texts.len() {
        at += put_open_frame(out, &texts[at..])?;
    }
    Ok(())
}

/// Writes frames of the records of these texts, [`MOST_RECORDS`] in each but the last: all that
/// stands behind the gate of the first, and the closed gate of the next.
fn put_appended(out: &mut Vec<u8>, texts: &[u8]) -> Result<(), AllocError>
    requires empty { out.old.items ≡ [] }
    requires some { 0 < length texts.now }
    requires texts { AreTexts texts.now (records_in texts.now) }
    ensures { OnOk result (AreAppended (records_in texts.now) out.new.items) }
{
    let first = put_first_frame(out, texts)?;
    put_open_frames(out, &texts[first..])?;
    out.push(0)?;
    Ok(())
}

/// Frames of well formed records, [`MOST_RECORDS`] in each but the last: all that stands behind the
/// gate of the first, and the closed gate of the next.
pub fn frames_of(alloc: Global, batch: &[Record]) -> Result<Vec<u8>, Memory>
    requires some { 0 < length batch.now }
    requires formed { AllByRecursion IsWellFormedRecord batch.now }
    ensures { IfOk result (λ frames. AreAppended batch.now frames.items) }
{
    let texts = texts_of(alloc, batch)?;
    let mut frames = Vec::new(alloc);
    put_appended(&mut frames, &texts)?;
    Ok(frames)
}

/// All that stands behind the gate of a side in the format that is written: the rest of its head,
/// open frames of the records of these texts, [`MOST_RECORDS`] in each but the last, and the closed
/// gate that ends its walk.
pub fn hidden_of(alloc: Global, generation: u64, texts: &[u8]) -> Result<Vec<u8>, Memory>
    requires some { 0 < length (records_in texts.now) }
    requires texts { AreTexts texts.now (records_in texts.now) }
    ensures { IfOk result (λ text. IsHidden generation (records_in texts.now) text.items) }
{
    let mut text = head_behind_gate(alloc, generation)?;
    put_open_frames(&mut text, texts)?;
    text.push(0)?;
    Ok(text)
}
