//! A script is played: line by line its lines are answered, and each result is written.
ghost use Rattle.std.specs.Prelude.{◌≡◌, ℕ, ◌+◌, ◌<◌, ◌≤◌, [], ◌∷◌, Some, Ok, Err, IfErr, IfOk, OnOk};
ghost use Rattle.pcp_io.specs.Faults.{HasRisen};
ghost use Rattle.script_player.specs.Houses.{line_out};
ghost use Rattle.script_player.specs.Played.{HasRun, Streams};
ghost use Rattle.script_player.specs.Playing.{Answers, Fails, IsTurned, IsUnderway, status_at};
ghost use Rattle.script_player.specs.Ways.{HasFault, course_of};
ghost use Rattle.script_player.specs.declared.faults.LineFault.TheVariants.{Disk, Read, Write};
ghost use Rattle.script_player.specs.declared.player.PlayStatus.TheVariants.{DiskFault, ReadFault, WriteFault};
ghost use Rattle.script_player.specs.declared.readers.Ending.TheVariants.{Feed};

use crate::answerers::LineAnswerer;
use crate::faults::LineFault;
use crate::readers::{Ending, Limits, LineReader};
use pcp_base::Memory;
use pcp_io::{Sink, Source, write_all};
use pcp_script::{LONGEST_LINE, LineResult, read_line, write_result};
use std::alloc::Global;

/// The most octets that a script may have.
pub const MOST_OCTETS: u64 = 1 << 30;

/// How a script was played.
#[derive(Clone, Copy, Debug, PartialEq, Eq)]
pub enum PlayStatus {
    /// The script was read to its end, and every line is answered.
    Done,
    /// This line, numbered from 1, is the first that is no line of a script; the lines before it
    /// are answered.
    ScriptRefused(u64),
    /// The source failed.
    ReadFault,
    /// The sink failed.
    WriteFault,
    /// A disk of this shard failed.
    DiskFault(u32),
    /// No memory was found.
    Memory,
}

/// What a line puts out.
fn text_of(alloc: Global, told: &Option<LineResult>) -> Result<Vec<u8>, Memory>
    ensures { IfOk result (λ text. text.items ≡ line_out told.now) }
{
    let mut text = Vec::new(alloc);
    if let Some(told) = told {
        write_result(alloc, &mut text, told)?;
    }
    Ok(text)
}

/// Has a line's text answered, and writes the result whole before it returns.
fn answer_text<W: Sink, A: LineAnswerer>(
    alloc: Global,
    text: &[u8],
    answerer: &mut A,
    out: &mut W,
) -> Result<(), LineFault>
    requires rests { A.rests answerer.old }
    ensures ok { OnOk result
        (Answers (course_of A.effects A.house A.way answerer.old answerer.new) text.now
        (W.held out.old) (W.held out.new)) }
    ensures err { IfErr result
        (Fails (course_of A.effects A.house A.way answerer.old answerer.new) text.now
        (W.held out.old) (W.held out.new)) }
    ensures rests { OnOk result (A.rests answerer.new) }
    ensures write_fault { result ≡ Err Write → HasRisen (W.faults out.old) (W.faults out.new) }
    ensures disk_fault { (shard : ℕ) → result ≡ Err (Disk shard) →
        HasFault (A.faults answerer.old shard) (A.faults answerer.new shard) }
    ensures writes { W.faults out.old ≤ W.faults out.new }
    ensures disks { (shard disk : ℕ) →
        A.faults answerer.old shard disk ≤ A.faults answerer.new shard disk }
{
    let line = read_line(alloc, answerer.config(), text)?;
    let told = answerer.answer(alloc, &line)?;
    let printed = text_of(alloc, &told)?;
    match write_all(out, &printed) {
        Ok(()) => Ok(()),
        Err(_) => Err(LineFault::Write),
    }
}

/// Reads the next line, has it answered, and says how it ended.
fn turn<S: Source, W: Sink, A: LineAnswerer>(
    alloc: Global,
    reader: &mut LineReader,
    input: &mut S,
    answerer: &mut A,
    out: &mut W,
) -> Result<Ending, LineFault>
    requires rests { A.rests answerer.old }
    ensures turned { (first : A) (before : Streams) (number : ℕ) →
        IsUnderway (course_of A.effects A.house A.way first answerer.old) before number reader.old
        (record { left = S.left input.old; held = W.held out.old }) →
        IsTurned (course_of A.effects A.house A.way first answerer.new) before number reader.new
        (record { left = S.left input.new; held = W.held out.new }) result }
    ensures rests { result ≡ Ok Feed → A.rests answerer.new }
    ensures used { result ≡ Ok Feed → (reader.old.used < reader.new.used)
        × (reader.new.used ≤ reader.old.limits.most) }
    ensures limits { reader.new.limits ≡ reader.old.limits }
    ensures read_fault { result ≡ Err Read → HasRisen (S.faults input.old) (S.faults input.new) }
    ensures write_fault { result ≡ Err Write → HasRisen (W.faults out.old) (W.faults out.new) }
    ensures disk_fault { (shard : ℕ) → result ≡ Err (Disk shard) →
        HasFault (A.faults answerer.old shard) (A.faults answerer.new shard) }
    ensures reads { S.faults input.old ≤ S.faults input.new }
    ensures writes { W.faults out.old ≤ W.faults out.new }
    ensures disks { (shard disk : ℕ) →
        A.faults answerer.old shard disk ≤ A.faults answerer.new shard disk }
{
    let mut text = Vec::new(alloc);
    let ending = reader.next_line(input, &mut text)?;
    if ending == Ending::End {
        return Ok(ending);
    }
    answer_text(alloc, &text, answerer, out)?;
    Ok(ending)
}

/// How a run ends at a fault of the line with this number.
fn status_of(fault: LineFault, number: u64) -> PlayStatus
    ensures { result ≡ status_at number fault }
{
    match fault {
        LineFault::Read => PlayStatus::ReadFault,
        LineFault::NotLine => PlayStatus::ScriptRefused(number),
        LineFault::Write => PlayStatus::WriteFault,
        LineFault::Disk(shard) => PlayStatus::DiskFault(shard),
        LineFault::Memory => PlayStatus::Memory,
    }
}

/// Plays the script of `input`: reads it line by line, has each line answered, and writes each
/// result to `out` before it looks at the next line. The script has at most 2^30 octets, and a line
/// 8,192. Octets are read 4,096 at a time, none before all that were read are used.
///
/// When it is called, no line is in doubt, and each image that a crash may leave of the answerer
/// stands for its house.
pub fn play<S: Source, W: Sink, A: LineAnswerer>(
    alloc: Global,
    input: &mut S,
    answerer: &mut A,
    out: &mut W,
) -> PlayStatus
    requires rests { A.rests answerer.old }

    // What was read, answered and written, by the status, and what a crash may leave of it, at each
    // moment and at the end. The script is that of the source where this tells what it has left.
    ensures played { HasRun (course_of A.effects A.house A.way answerer.old answerer.new)
        (record { left = S.left input.old; held = W.held out.old })
        (record { left = S.left input.new; held = W.held out.new }) result }

    // A fault is told only where a count of faults rose.
    ensures read_fault { result ≡ ReadFault → HasRisen (S.faults input.old) (S.faults input.new) }
    ensures write_fault { result ≡ WriteFault → HasRisen (W.faults out.old) (W.faults out.new) }
    ensures disk_fault { (shard : ℕ) → result ≡ DiskFault shard →
        HasFault (A.faults answerer.old shard) (A.faults answerer.new shard) }
    ensures reads { S.faults input.old ≤ S.faults input.new }
    ensures writes { W.faults out.old ≤ W.faults out.new }
    ensures disks { (shard disk : ℕ) →
        A.faults answerer.old shard disk ≤ A.faults answerer.new shard disk }
{
    let mut reader = LineReader::new(Limits {
        longest: LONGEST_LINE,
        most: MOST_OCTETS,
    });
    let mut number = 1;
    loop {
        match turn(alloc, &mut reader, input, answerer, out) {
            Ok(Ending::Feed) => number += 1,
            Ok(_) => return PlayStatus::Done,
            Err(fault) => return status_of(fault, number),
        }
    }
}
