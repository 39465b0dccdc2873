//! A tree over flags: each node tells of its block where the longest runs of set flags are.
//!
//! The nodes lie in one vector, level by level: the root at 1, and the children of `place` at
//! `2 * place` and `2 * place + 1`. The leaves, at 1,024 and on, are those of the words of 64
//! flags. Place 0 is not used.

ghost use Rattle.std.specs.Prelude.{false, ◌≡◌, ℕ, ◌+◌, ◌-◌, ◌*◌, ◌/◌, ◌<◌, ◌≤◌, length, IfOk, IfSome, IfNone, slice_index_or, vec_len};
ghost use Rattle.std.specs.Bool.{OnFalse};
ghost use Rattle.port_runs.specs.Nodes.{empty_node, node_at, longest, AreLeaves, AreLeavesBut, HaveSameLeaves, AreJoined, AreJoinedBut, IsTreeOf, IsCostOfWay};
ghost use Rattle.port_runs.specs.Flags.{flags_of, IsMarked, FitsFlags, FitsBlock, HasSetRun, IsSetAlone, IsSetCountAt};
ghost use Rattle.port_runs.specs.Ports.{IsLeast, IsGreatest};

use crate::flags::FLAGS;
use crate::leaf::{first_between, first_in_word, leaf};
use crate::node::{EMPTY, Node, joined, longest_run};
use crate::words;
use crate::words::WORDS;
use std::alloc::{AllocError, Global};
use std::marker::Model;
use std::sync::ledger::Ledger;
use step_count::Steps;

/// How many places the nodes have.
const NODES: usize = 2048;

/// How many levels there are from the root down to the leaves, without these.
const LEVELS: usize = 10;

/// `count` places of nodes with no flag set.
fn cleared(alloc: Global, count: usize) -> Result<Vec<Node>, AllocError>
    ensures all { IfOk result (λ nodes. vec_len nodes ≡ count) }
    ensures clear { IfOk result (λ nodes.
        (i : ℕ) → slice_index_or nodes.items i empty_node ≡ empty_node) }
{
    let nodes = vec![in alloc; EMPTY; count]?;
    Ok(nodes)
}

/// Makes the leaves of the words from `low` to `high` anew, leaves their parents to be made anew,
/// and tells whether some leaf is another than before. Where none is, the parents are right already.
fn renew(words: &[u64], nodes: &mut [Node], low: usize, high: usize) -> bool
    requires ordered { low ≤ high }
    requires high { high < WORDS }
    requires words { length words.now ≡ WORDS }
    requires leaves { AreLeavesBut low high (flags_of words.now) nodes.old }
    requires joined { AreJoined nodes.old }
    ensures leaves { AreLeaves (flags_of words.now) nodes.new }
    ensures joined { AreJoinedBut ((WORDS + low) / 2) ((WORDS + high) / 2) nodes.new }
    ensures same { OnFalse result (AreJoined nodes.new) }
{
    let mut changed = false;
    for index in low..high + 1 {
        let node = leaf(words, index);
        let place = WORDS + index;
        if node != nodes[place] {
            nodes[place] = node;
            changed = true;
        }
    }
    changed
}

/// Makes the nodes from `low` to `high` anew, leaves their parents to be made anew, and tells
/// whether some node is another than before. Where none is, the parents are right already.
fn rejoin(nodes: &mut [Node], low: usize, high: usize) -> bool
    requires high { high < WORDS }
    requires joined { AreJoinedBut low high nodes.old }
    ensures leaves { HaveSameLeaves nodes.old nodes.new }
    ensures joined { AreJoinedBut (low / 2) (high / 2) nodes.new }
    ensures same { OnFalse result (AreJoined nodes.new) }
{
    let mut changed = false;
    for place in low..high + 1 {
        let node = joined(nodes[2 * place], nodes[2 * place + 1]);
        if node != nodes[place] {
            nodes[place] = node;
            changed = true;
        }
    }
    changed
}

/// Makes the nodes from `low` to `high` and all above them anew. It stops after a level on which no
/// node is another than before.
fn refresh(nodes: &mut [Node], low: usize, high: usize)
    requires high { high < WORDS }
    requires joined { AreJoinedBut low high nodes.old }
    ensures leaves { HaveSameLeaves nodes.old nodes.new }
    ensures joined { AreJoined nodes.new }
{
    let mut first = low;
    let mut last = high;
    while last > 0 {
        if !rejoin(nodes, first, last) {
            return;
        }
        first /= 2;
        last /= 2;
    }
}

/// Sets or clears the flags from `from` up to `to`, which isn't among them, and makes their nodes
/// anew.
fn change(words: &mut [u64], nodes: &mut [Node], from: usize, to: usize, value: bool)
    requires ordered { from < to }
    requires within { to ≤ FLAGS }
    requires tree { IsTreeOf (flags_of words.old) nodes.old }
    ensures marked { IsMarked from to value (flags_of words.old) (flags_of words.new) }
    ensures tree { IsTreeOf (flags_of words.new) nodes.new }
{
    words::mark(words, from, to, value);
    let low = from / 64;
    let high = (to - 1) / 64;
    if renew(words, nodes, low, high) {
        refresh(nodes, (WORDS + low) / 2, (WORDS + high) / 2);
    }
}

/// Looks at a node, which is a step. Nothing else that counts steps reads one.
fn look<L: Ledger>(nodes: &[Node], place: usize, steps: &mut Steps<L>) -> Node
    requires { place < length nodes.now }
    ensures node { result ≡ node_at nodes.now place }
    ensures cost { steps.new ≡ steps.old + 1 }
{
    steps.tick(); // this node
    nodes[place]
}

/// Looks at a word for the first place in it from which `n` flags of it are set and that has the
/// remainder by 2 that is asked. It is one step.
fn look_in_word<L: Ledger>(
    words: &[u64],
    index: usize,
    n: u32,
    parity: Option<u8>,
    steps: &mut Steps<L>,
) -> Option<u16>
    requires some { 1 ≤ n }
    requires index { index < WORDS }
    requires words { length words.now ≡ WORDS }
    requires parity { IfSome parity (λ remainder. remainder < 2) }
    ensures found { IsLeast
        (FitsBlock (flags_of words.now) (64 * index) (64 * index + 64) n parity) result }
    ensures cost { steps.new ≡ steps.old + 1 }
{
    steps.tick(); // this word
    first_in_word(words, index, n, parity)
}

/// The least place from which `n` flags are set and that has the remainder by 2 that is asked.
///
/// Where there is none the root tells it. Else both nodes of each level are looked at on the way
/// down, of 10 levels at most, and then a word.
fn first_run<L: Ledger>(
    words: &[u64],
    nodes: &[Node],
    n: u32,
    parity: Option<u8>,
    steps: &mut Steps<L>,
) -> Option<u16>
    requires some { 1 ≤ n }
    requires clear { slice_index_or (flags_of words.now) 0 false ≡ false }
    requires tree { IsTreeOf (flags_of words.now) nodes.now }
    ensures found { IsLeast (FitsFlags (flags_of words.now) n parity) result }
    ensures none { IfNone result (steps.new ≡ steps.old + 1) }
    ensures some { IfSome result (λ _. IsCostOfWay steps.old steps.new) }
{
    if longest_run(look(nodes, 1, steps), parity) < n {
        return None;
    }
    let mut place = 1;
    let mut first = 0;
    let mut half = FLAGS / 2;
    for level in 0..LEVELS {
        let left = look(nodes, 2 * place, steps);
        let right = look(nodes, 2 * place + 1, steps);
        if longest_run(left, parity) >= n {
            place = 2 * place;
        } else {
            let middle = first + half;
            let begins = middle - left.suffix as usize;
            let ends = middle + right.prefix as usize;
            let found = first_between(begins, ends, n, parity);
            if found.is_some() {
                return found;
            }
            place = 2 * place + 1;
            first += half;
        }
        half /= 2;
    }
    look_in_word(words, place - WORDS, n, parity, steps)
}

/// A flag for each number of 16 bits, seen as their list, and nodes that tell where runs of set
/// flags are.
#[derive(Drop)]
pub struct Tree {
    words: Vec<u64>,
    nodes: Vec<Node>,
}

impl Model for Tree {
    ghost use Rattle.std.specs.Prelude.{List, Bool};
    ghost use Rattle.port_runs.specs.Flags.{flags_of};
    ghost use Rattle.port_runs.specs.Nodes.{IsTreeOf};

    ghost Value = { List Bool };

    ghost view = { λ t. flags_of t.words.items };

    ghost invariant = { λ t. IsTreeOf (flags_of t.words.items) t.nodes.items };
}

impl Tree {
    /// The tree whose set flags are those from `from` up to `to`, which isn't among them.
    pub fn new(alloc: Global, from: usize, to: usize) -> Result<Tree, AllocError>
        requires ordered { from < to }
        requires within { to ≤ FLAGS }
        ensures { IfOk result (λ tree. IsSetAlone from to tree) }
    {
        let mut words = words::cleared(alloc, WORDS)?;
        let mut nodes = cleared(alloc, NODES)?;
        change(&mut words, &mut nodes, from, to, true);
        Ok(Tree { words, nodes })
    }

    /// Sets or clears the flags from `from` up to `to`, which isn't among them.
    pub fn mark(&mut self, from: usize, to: usize, value: bool)
        requires ordered { from < to }
        requires within { to ≤ FLAGS }
        ensures { IsMarked from to value self.old self.new }
    {
        change(&mut self.words, &mut self.nodes, from, to, value);
    }

    /// How many flags are set from `start` on, up to `most`. It reads words alone, for callers that
    /// count no steps.
    pub fn run_at(&self, start: usize, most: u32) -> u32
        requires { start < FLAGS }
        ensures { IsSetCountAt self.now start most result }
    {
        words::run_at(&self.words, start, most)
    }

    /// The least place from which `n` flags are set and that has the remainder by 2 that is asked.
    /// A step is a node or a word that is looked at.
    pub fn first_run<L: Ledger>(
        &self,
        n: u32,
        parity: Option<u8>,
        steps: &mut Steps<L>,
    ) -> Option<u16>
        requires some { 1 ≤ n }
        requires clear { slice_index_or self.now 0 false ≡ false }
        ensures found { IsLeast (FitsFlags self.now n parity) result }
        ensures none { IfNone result (steps.new ≡ steps.old + 1) }
        ensures some { IfSome result (λ _. IsCostOfWay steps.old steps.new) }
    {
        first_run(&self.words, &self.nodes, n, parity, steps)
    }

    /// How many flags the longest run has that begins with the remainder by 2 that is asked. It is
    /// one look, at the root.
    pub fn longest_run<L: Ledger>(&self, parity: Option<u8>, steps: &mut Steps<L>) -> u32
        requires { slice_index_or self.now 0 false ≡ false }
        ensures longest { IsGreatest (HasSetRun self.now parity) result }
        ensures cost { steps.new ≡ steps.old + 1 }
    {
        longest_run(look(&self.nodes, 1, steps), parity)
    }
}
