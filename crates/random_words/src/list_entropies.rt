//! Random words in memory.
ghost use Rattle.std.specs.Prelude.{◌≡◌};
ghost use Rattle.random_words.specs.RandomWords.{last_word};

use crate::entropies::Entropy;
use pcp_base::{Failed, Memory};
use pcp_io::Calls;
use std::alloc::Global;
use std::marker::Model;

/// Gives the words of a list, and then repeats the last one, 0 where there is none. A call fails, and
/// counts that, exactly where `fail_at` named it.
#[derive(Drop)]
pub struct ListEntropy {
    words: Vec<u32>,
    // how many were given
    at: usize,
    last: u32,
    calls: Calls,
}

impl Model for ListEntropy {
    ghost use Rattle.std.specs.Prelude.{◌≤◌, drop, vec_len};
    ghost use Rattle.random_words.specs.ListEntropies.{EntropyInMemory};

    ghost Value = { EntropyInMemory };

    ghost view = { λ s. record {
      words = record { coming = drop s.at s.words.items; rest = s.last };
      calls = s.calls;
    } };

    ghost invariant = { λ s. s.at ≤ vec_len s.words };
}

impl ListEntropy {
    ghost use Rattle.std.specs.Prelude.{OnOk, OnErr, IfOk};
    ghost use Rattle.pcp_io.specs.CallLogs.{with_failing};
    ghost use Rattle.random_words.specs.ListEntropies.{new_entropy};

    /// Gives these words; no call of it fails.
    pub fn new(alloc: Global, words: Vec<u32>) -> Result<ListEntropy, Memory>
        ensures { IfOk result (λ entropy. entropy ≡ new_entropy words.items) }
    {
        let last = last_of(&words);
        Ok(ListEntropy {
            words,
            at: 0,
            last,
            calls: Calls::new(alloc),
        })
    }

    /// Names a call that is to fail. Calls are numbered from 0, those that fail too; all from
    /// number 2^64 - 1 on have that number.
    pub fn fail_at(&mut self, _alloc: Global, call: u64) -> Result<(), Memory>
        ensures ok { OnOk result (self.new
            ≡ record self.old { calls = with_failing self.old.calls call }) }
        ensures err { OnErr result (self.new ≡ self.old) }
    {
        self.calls.fail_at(call)
    }

    /// How many calls found no memory: none, since a call takes none.
    pub fn starved(&self) -> u64
        ensures { result ≡ self.now.calls.starved }
    {
        self.calls.starved()
    }
}

/// The last of these words; 0 where there is none.
fn last_of(words: &[u32]) -> u32
    ensures { result ≡ last_word words.now }
{
    match words.last() {
        Some(word) => *word,
        None => 0,
    }
}

impl Entropy for ListEntropy {
    ghost use Rattle.std.specs.Prelude.{◌↔◌, Some, IsErr, IfOk, OnOk, OnErr};
    ghost use Rattle.pcp_io.specs.CallLogs.{IsNamed, with_call, with_fault};
    ghost use Rattle.pcp_io.specs.Faults.{HasCause};
    ghost use Rattle.random_words.specs.RandomWords.{next_word, words_later};

    ghost words = { λ s. Some s.words };

    ghost faults = { λ s. s.calls.faults };

    fn word(&mut self) -> Result<u32, Failed>
        ensures gives { IfOk result (λ word. word ≡ next_word self.old.words) }
        ensures later { OnOk result (self.new.words ≡ words_later self.old.words) }
        ensures unchanged { OnErr result (self.new.words ≡ self.old.words) }
        ensures cause { HasCause self.old.calls.faults self.new.calls.faults result }

        // It fails where the call is named, and nowhere else.
        ensures fails { IsErr result ↔ IsNamed self.old.calls }
        ensures call { OnOk result (self.new.calls ≡ with_call self.old.calls) }
        ensures fault { OnErr result (self.new.calls ≡ with_fault self.old.calls) }
    {
        if self.calls.begin() {
            return Err(self.calls.fail());
        }
        if self.at == self.words.len() {
            return Ok(self.last);
        }
        let word = self.words[self.at];
        self.at += 1;
        Ok(word)
    }
}
