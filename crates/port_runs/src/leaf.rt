//! What a word of 64 flags tells: the node of its block, and where a run begins in it.

ghost use Rattle.std.specs.Prelude.{◌≡◌, ℕ, ◌+◌, ◌-◌, ◌*◌, ◌%◌, ◌<◌, ◌≤◌, if◌then◌else◌, ◌==◌, length, IfSome, IfNone};
ghost use Rattle.port_runs.specs.Flags.{flags_of, FitsBlock};
ghost use Rattle.port_runs.specs.Nodes.{IsLongest, IsSummary, IsFirstOver};
ghost use Rattle.port_runs.specs.Ports.{HasParity, IsLeast};

use crate::flags::{FLAGS, has_parity};
use crate::node::Node;
use crate::words::{WORDS, next_run, run_from, suffix_of};

/// How many flags a run has from its first place on that has the remainder by 2.
fn counted_from(start: usize, stop: usize, remainder: usize) -> usize
    requires { start ≤ stop }
    ensures { result ≡ (if start % 2 == remainder then stop - start else stop - start - 1) }
{
    let run = stop - start;
    if start % 2 == remainder {
        run
    } else {
        run.saturating_sub(1)
    }
}

/// How many flags the longest runs in a word have, from an even place and from an odd one.
fn longest_in(words: &[u64], index: usize) -> (usize, usize)
    requires index { index < length words.now }
    requires words { length words.now ≡ WORDS }
    ensures even { IsLongest (flags_of words.now) (64 * index) (64 * index + 64) 0 result.0 }
    ensures odd { IsLongest (flags_of words.now) (64 * index) (64 * index + 64) 1 result.1 }
{
    let word = words[index];
    let mut even: usize = 0;
    let mut odd: usize = 0;
    let mut place = 0;
    while place < 64 {
        let (start, stop) = next_run(word, place);
        even = even.max(counted_from(start, stop, 0));
        odd = odd.max(counted_from(start, stop, 1));
        place = stop + 1;
    }
    (even, odd)
}

/// The node of a word's flags.
pub fn leaf(words: &[u64], index: usize) -> Node
    requires index { index < length words.now }
    requires words { length words.now ≡ WORDS }
    ensures { IsSummary (flags_of words.now) (64 * index) (64 * index + 64) result }
{
    let (even, odd) = longest_in(words, index);
    let prefix = run_from(words[index], 0);
    let suffix = suffix_of(words[index]);
    Node {
        prefix: prefix as u16,
        suffix: suffix as u16,
        even: even as u16,
        odd: odd as u16,
        full: prefix == 64,
    }
}

/// The first place from `begins` on that has the remainder by 2 that is asked, where `n` places
/// from it on lie before `ends`. None where there is none.
pub fn first_between(begins: usize, ends: usize, n: u32, parity: Option<u8>) -> Option<u16>
    requires some { 1 ≤ n }
    requires parity { IfSome parity (λ remainder. remainder < 2) }
    requires begins { begins ≤ FLAGS }
    requires ends { ends ≤ FLAGS }
    ensures found { IfSome result (IsFirstOver begins ends n parity) }
    ensures none { IfNone result ((start : ℕ) → HasParity parity start
        → begins ≤ start → ends < start + n) }
{
    let start = if has_parity(begins, parity) {
        begins
    } else {
        begins + 1
    };
    if start + n as usize <= ends {
        Some(start as u16)
    } else {
        None
    }
}

/// The first place in a word from which `n` flags of it are set and that has the remainder by 2
/// that is asked.
pub fn first_in_word(words: &[u64], index: usize, n: u32, parity: Option<u8>) -> Option<u16>
    requires some { 1 ≤ n }
    requires index { index < length words.now }
    requires words { length words.now ≡ WORDS }
    requires parity { IfSome parity (λ remainder. remainder < 2) }
    ensures { IsLeast
        (FitsBlock (flags_of words.now) (64 * index) (64 * index + 64) n parity) result }
{
    let word = words[index];
    let first = 64 * index;
    let mut place = 0;
    while place < 64 {
        let (start, stop) = next_run(word, place);
        let found = first_between(first + start, first + stop, n, parity);
        if found.is_some() {
            return found;
        }
        place = stop + 1;
    }
    None
}
