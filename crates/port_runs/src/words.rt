//! Flags of free ports in words of 64, a word's lowest bit being its first flag.

ghost use Rattle.std.specs.Prelude.{◌≡◌, ℕ, ◌+◌, ◌*◌, ◌/◌, ◌<◌, ◌≤◌, false, length, slice_index_or, vec_len, IfOk};
ghost use Rattle.port_runs.specs.Flags.{flags_of, IsMarked, IsSetCountAt};
ghost use Rattle.port_runs.specs.Bits.{IsMask, IsWordMarked, IsBitRun, IsBitSuffix, IsNextRun};

use crate::flags::FLAGS;
use std::alloc::{AllocError, Global};

/// How many words the flags of all numbers of 16 bits have.
pub const WORDS: usize = 1024;

/// `count` words of flags, none of which is set.
pub fn cleared(alloc: Global, count: usize) -> Result<Vec<u64>, AllocError>
    ensures all { IfOk result (λ words. vec_len words ≡ count) }
    ensures clear { IfOk result (λ words.
        (i : ℕ) → slice_index_or (flags_of words.items) i false ≡ false) }
{
    let words = vec![in alloc; 0; count]?;
    Ok(words)
}

/// How many flags of a word are set from `place` on.
pub fn run_from(word: u64, place: usize) -> usize
    requires { place ≤ 64 }
    ensures { IsBitRun word place result }
{
    word.unbounded_shr(place as u32).trailing_ones() as usize
}

/// How many flags of a word are set up to its last.
pub fn suffix_of(word: u64) -> usize
    ensures { IsBitSuffix word result }
{
    word.leading_ones() as usize
}

/// The next run of set flags of a word from `place` on, as the place of its first flag and the one
/// behind its last. Both are 64 where there is none.
pub fn next_run(word: u64, place: usize) -> (usize, usize)
    requires { place ≤ 64 }
    ensures { IsNextRun word place result.0 result.1 }
{
    let start = place + run_from(!word, place);
    let stop = start + run_from(word, start);
    (start, stop)
}

/// The bits from `low` up to `high`, which isn't among them.
fn mask(low: usize, high: usize) -> u64
    requires ordered { low < high }
    requires within { high ≤ 64 }
    ensures { IsMask low high result }
{
    (u64::MAX << low as u32) & (u64::MAX >> (64 - high as u32))
}

/// A word in which the flags from `low` up to `high`, which isn't among them, are set or cleared.
fn marked(word: u64, low: usize, high: usize, value: bool) -> u64
    requires ordered { low < high }
    requires within { high ≤ 64 }
    ensures { IsWordMarked low high value word result }
{
    let bits = mask(low, high);
    if value { word | bits } else { word & !bits }
}

/// Sets or clears the flags from `from` up to `to`, which isn't among them, of one word.
fn mark_in_word(words: &mut [u64], from: usize, to: usize, value: bool)
    requires ordered { from < to }
    requires one { to ≤ 64 * (from / 64) + 64 }
    requires within { to ≤ 64 * length words.old }
    ensures { IsMarked from to value (flags_of words.old) (flags_of words.new) }
{
    let index = from / 64;
    let first = 64 * index;
    words[index] = marked(words[index], from - first, to - first, value);
}

/// Sets or clears the flags from `from` up to `to`, which isn't among them.
pub fn mark(words: &mut [u64], from: usize, to: usize, value: bool)
    requires ordered { from ≤ to }
    requires within { to ≤ 64 * length words.old }
    requires small { to ≤ FLAGS }
    ensures { IsMarked from to value (flags_of words.old) (flags_of words.new) }
{
    let mut place = from;
    while place < to {
        let end = to.min(64 * (place / 64) + 64);
        mark_in_word(words, place, end, value);
        place = end;
    }
}

/// How many flags are set from `start` on, up to `most`.
pub fn run_at(words: &[u64], start: usize, most: u32) -> u32
    requires start { start < FLAGS }
    requires words { length words.now ≡ WORDS }
    ensures { IsSetCountAt (flags_of words.now) start most result }
{
    let mut count = 0;
    while count < most {
        let place = start + count as usize;
        if place >= FLAGS {
            return count;
        }
        let run = run_from(words[place / 64], place % 64);
        let total = count + run as u32;
        if place % 64 + run < 64 {
            return most.min(total);
        }
        count = total;
    }
    most
}
