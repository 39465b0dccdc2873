//! Numbers that are marked by bits in words of 64, and the last one up to another.

ghost use Rattle.std.specs.Prelude.{◌≡◌, ◌*◌, ◌<◌, ℕ, false, length, slice_index, IfOk};
ghost use Rattle.ordered_index.specs.Marks.{has_bit, is_marked, Marks, IsLastPass, IsLastUpTo, IsLastInWord, AreSummed};
ghost use Rattle.ordered_index.specs.declared.marks.TheConstants.{MOST_MARKS};

use std::alloc::{AllocError, Global};
use std::marker::Model;

/// How many numbers there are.
pub(crate) const MOST_MARKS: usize = 131_072;

/// How many words mark them.
const LOW_WORDS: usize = 2_048;

/// How many words mark the low words that have a bit set.
const HIGH_WORDS: usize = 32;

/// So many words without a mark.
fn blank_words(alloc: Global, count: usize) -> Result<Vec<u64>, AllocError>
    ensures all { IfOk result (λ words. length words.items ≡ count) }
    ensures blank { IfOk result (λ words. (i : ℕ) → slice_index words.items i ≡ 0) }
{
    let words = vec![in alloc; 0; count]?;
    Ok(words)
}

/// Whether a number is marked.
#[inline]
fn is_marked(words: &[u64], n: usize) -> bool
    requires { n < 64 * length words.now }
    ensures { result ≡ is_marked words.now n }
{
    (words[n / 64] >> (n % 64) as u32) & 1 == 1
}

/// Marks a number, or takes its mark away.
fn mark(words: &mut [u64], n: usize, value: bool)
    requires { n < 64 * length words.old }
    ensures { Marks words.old n value words.new }
{
    let bit = 1 << (n % 64) as u32;
    let word = words[n / 64];
    if value {
        words[n / 64] = word | bit;
        return;
    }
    words[n / 64] = word & !bit;
}

/// The highest bit of a word.
fn top_bit(word: u64) -> usize
    requires { 0 < word }
    ensures { IsLastPass (has_bit word) 63 result }
{
    word.ilog2() as usize
}

/// The highest bit of a word up to one of its 64.
fn last_bit(word: u64, n: usize) -> Option<usize>
    requires { n < 64 }
    ensures { IsLastUpTo (has_bit word) n result }
{
    let kept = word & (u64::MAX >> (63 - n as u32));
    if kept == 0 {
        return None;
    }
    Some(top_bit(kept))
}

/// The last number up to this one that is marked, among those of its word.
fn last_in_word(words: &[u64], n: usize) -> Option<usize>
    requires { n < 64 * length words.now }
    ensures { IsLastInWord words.now n result }
{
    let Some(bit) = last_bit(words[n / 64], n % 64) else {
        return None;
    };
    Some(64 * (n / 64) + bit)
}

/// The last number up to this one that is marked, by a look at each word.
fn last_mark(words: &[u64], n: usize) -> Option<usize>
    requires within { n < 64 * length words.now }
    requires few { n < MOST_MARKS }
    ensures { IsLastUpTo (is_marked words.now) n result }
{
    let mut end = n + 1;
    while end > 0 {
        let found = last_in_word(words, end - 1);
        if found.is_some() {
            return found;
        }
        end = 64 * ((end - 1) / 64);
    }
    None
}

/// Marks a number in the low words, or takes its mark away, and sees to the high ones.
fn set_mark(low: &mut [u64], high: &mut [u64], n: usize, value: bool)
    requires within { n < MOST_MARKS }
    requires summed { AreSummed low.old high.old }
    ensures marks { Marks low.old n value low.new }
    ensures summed { AreSummed low.new high.new }
{
    mark(low, n, value);
    let has_some = low[n / 64] != 0;
    mark(high, n / 64, has_some);
}

/// The last number up to this one that is marked in the low words. It looks at two of them, and at
/// the high ones.
fn last_marked(low: &[u64], high: &[u64], n: usize) -> Option<usize>
    requires within { n < MOST_MARKS }
    requires summed { AreSummed low.now high.now }
    ensures { IsLastUpTo (is_marked low.now) n result }
{
    let found = last_in_word(low, n);
    if found.is_some() {
        return found;
    }
    if n < 64 {
        return None;
    }
    let Some(before) = last_mark(high, n / 64 - 1) else {
        return None;
    };
    Some(64 * before + top_bit(low[before]))
}

/// Which of the numbers below 131,072 are marked. It is seen as words of bits.
#[derive(Drop)]
pub(crate) struct MarkSet {
    low: Vec<u64>,
    high: Vec<u64>,
}

impl Model for MarkSet {
    ghost use Rattle.std.specs.Prelude.{ℕ, List};
    ghost use Rattle.ordered_index.specs.Marks.{AreSummed};

    ghost Value = { List ℕ };

    ghost view = { λ m. m.low.items };

    ghost invariant = { λ m. AreSummed m.low.items m.high.items };
}

impl MarkSet {
    /// No number is marked. The one error is want of memory.
    pub(crate) fn new(alloc: Global) -> Result<MarkSet, AllocError>
        ensures { IfOk result (λ marks. (n : ℕ) → is_marked marks n ≡ false) }
    {
        let low = blank_words(alloc, LOW_WORDS)?;
        let high = blank_words(alloc, HIGH_WORDS)?;
        Ok(MarkSet { low, high })
    }

    /// Takes all marks away.
    pub(crate) fn clear(&mut self)
        ensures { (n : ℕ) → is_marked self.new n ≡ false }
    {
        self.low.fill(0);
        self.high.fill(0);
    }

    /// Whether a number is marked.
    #[inline]
    pub(crate) fn contains(&self, n: usize) -> bool
        requires { n < MOST_MARKS }
        ensures { result ≡ is_marked self.now n }
    {
        is_marked(&self.low, n)
    }

    /// Marks a number, or takes its mark away.
    pub(crate) fn set(&mut self, n: usize, value: bool)
        requires { n < MOST_MARKS }
        ensures { Marks self.old n value self.new }
    {
        set_mark(&mut self.low, &mut self.high, n, value);
    }

    /// The last number up to this one that is marked.
    pub(crate) fn last_up_to(&self, n: usize) -> Option<usize>
        requires { n < MOST_MARKS }
        ensures { IsLastUpTo (is_marked self.now) n result }
    {
        last_marked(&self.low, &self.high, n)
    }
}
