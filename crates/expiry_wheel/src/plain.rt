//! The plain body: a list that is searched. It stands beside the fast one to compare with.

ghost use Rattle.std.specs.Prelude.{◌≡◌, ◌≢◌, ℕ, ◌<◌, ◌≤◌, slice_get, Contains, Some, IfSome, IfNone, IfOk, OnOk, OnErr, length};
ghost use Rattle.std.specs.Bool.{OnTrue, OnFalse};
ghost use Rattle.std.specs.FinMap as map;
ghost use Rattle.expiry_wheel.specs.Due.{IsFirstDue, IsNextDue};
ghost use Rattle.expiry_wheel.specs.Order.{IsNoLater};
ghost use Rattle.expiry_wheel.specs.Firsts.{AllFrom, HasDue, is_due_from, lesser, with_due};

use crate::pair::{Pair, sooner};
use pcp_base::Memory;
use std::alloc::Global;
use std::marker::Model;

/// Pairs of an id and an expiry, ids distinct, in the order in which they came.
#[derive(Drop)]
pub struct PlainWheel {
    pairs: Vec<Pair>,
}

impl Model for PlainWheel {
    ghost use Rattle.std.specs.Prelude.{ℕ};
    ghost use Rattle.std.specs.Ordering.{nat_cmp};
    ghost use Rattle.std.specs.Coded.{coded_ℕ};
    ghost use Rattle.std.specs.FinMap as map;

    ghost Value = { map.FinMap nat_cmp ℕ };

    ghost coded = { map.code coded_ℕ coded_ℕ };

    ghost use Rattle.expiry_wheel.specs.Pairs.{expiries_of};
    ghost use Rattle.expiry_wheel.specs.Pairs.{IdsDiffer};

    ghost view = { λ a. expiries_of a.pairs.items };

    ghost invariant = { λ a. IdsDiffer a.pairs.items };
}

/// The index of the pair of an id.
fn place_of(pairs: &[Pair], id: u32) -> Option<usize>
    ensures found { IfSome result (λ i.
        (e : ℕ) × (slice_get pairs.now i ≡ Some (record { expiry = e; id = id }))) }
    ensures none { IfNone result ((i : ℕ) (p : Pair) → slice_get pairs.now i ≡ Some p → p.id ≢ id) }
{
    for (i, pair) in pairs.iter().enumerate() {
        if pair.id == id {
            return Some(i);
        }
    }
    None
}

/// The pair that falls due first.
fn soonest(pairs: &[Pair]) -> Option<Pair>
    ensures present { IfSome result (λ p. Contains pairs.now p) }
    ensures first { (i : ℕ) → IsNoLater result (slice_get pairs.now i) }
{
    let mut best = None;
    for pair in pairs {
        best = sooner(best, Some(*pair));
    }
    best
}

/// Whether a pair has an id from `from` on and an expiry up to `m`.
fn is_due_from(pair: Pair, from: u32, m: u64) -> bool
    ensures { result ≡ is_due_from from m pair }
{
    from <= pair.id && pair.expiry <= m
}

/// The lesser of two ids, if there is one.
fn lesser(best: Option<u32>, id: u32) -> u32
    ensures { result ≡ lesser best id }
{
    match best {
        Some(least) => if least < id { least } else { id },
        None => id,
    }
}

/// The lesser of an id and of that of a pair, if the pair is due.
fn with_due(best: Option<u32>, pair: Pair, from: u32, m: u64) -> Option<u32>
    ensures { result ≡ with_due from m best pair }
{
    if is_due_from(pair, from, m) {
        Some(lesser(best, pair.id))
    } else {
        best
    }
}

/// The least id from `from` on of a pair with an expiry up to `m`.
fn first_due(pairs: &[Pair], from: u32, m: u64) -> Option<u32>
    ensures found { IfSome result (λ id. HasDue pairs.now from m id) }
    ensures first { AllFrom pairs.now from m result (length pairs.now) }
{
    let mut best = None;
    for pair in pairs {
        best = with_due(best, *pair, from, m);
    }
    best
}

impl PlainWheel {
    /// A wheel with no pair. The one error is want of memory.
    pub fn new(alloc: Global) -> Result<PlainWheel, Memory>
        ensures { IfOk result (λ wheel. wheel ≡ map.empty) }
    {
        Ok(PlainWheel {
            pairs: Vec::new(alloc),
        })
    }

    /// Sets the expiry of an id. The one error is want of memory, which changes nothing.
    pub fn put(&mut self, _alloc: Global, id: u32, expiry: u64) -> Result<(), Memory>
        ensures ok { OnOk result (self.new ≡ map.insert self.old id expiry) }
        ensures err { OnErr result (self.new ≡ self.old) }
    {
        let Some(i) = place_of(&self.pairs, id) else {
            self.pairs.push(Pair { expiry, id })?;
            return Ok(());
        };
        self.pairs[i] = Pair { expiry, id };
        Ok(())
    }

    /// Takes out the pair of an id, and tells whether there was one.
    pub fn remove(&mut self, id: u32) -> bool
        ensures found { result ≡ map.contains_key self.old id }
        ensures removed { self.new ≡ map.remove self.old id }
    {
        match place_of(&self.pairs, id) {
            Some(i) => {
                self.pairs.remove(i);
                true
            }
            None => false,
        }
    }

    /// When an id expires, None where the wheel hasn't got it.
    pub fn expiry(&self, id: u32) -> Option<u64>
        ensures { result ≡ map.get self.now id }
    {
        let Some(i) = place_of(&self.pairs, id) else {
            return None;
        };
        Some(self.pairs[i].expiry)
    }

    /// Gives an id that the wheel has another expiry; false where it hasn't got it. It takes no
    /// memory.
    pub fn reschedule(&mut self, id: u32, expiry: u64) -> bool
        ensures found { result ≡ map.contains_key self.old id }
        ensures moved { OnTrue result (self.new ≡ map.insert self.old id expiry) }
        ensures unchanged { OnFalse result (self.new ≡ self.old) }
    {
        let Some(i) = place_of(&self.pairs, id) else {
            return false;
        };
        self.pairs[i] = Pair { expiry, id };
        true
    }

    /// The id with the least expiry, then the least id, if that expiry is at most `m`, else `None`.
    /// It stays in the wheel.
    pub fn next_due(&self, m: u64) -> Option<u32>
        ensures next { IfSome result (IsNextDue self.now m) }
        ensures none { IfNone result (
            (id expiry : ℕ) → map.get self.now id ≡ Some expiry → m < expiry) }
    {
        let Some(next) = soonest(&self.pairs) else {
            return None;
        };
        if m < next.expiry {
            return None;
        }
        Some(next.id)
    }

    /// The least id from `from` on whose expiry is at most `m`, else `None`. It stays in the wheel.
    pub fn first_due(&self, from: u32, m: u64) -> Option<u32>
        ensures first { IfSome result (IsFirstDue self.now from m) }
        ensures none { IfNone result ((id expiry : ℕ)
            → map.get self.now id ≡ Some expiry → from ≤ id → m < expiry) }
    {
        first_due(&self.pairs, from, m)
    }

    /// Takes out the pair with the least expiry, then the least id, if that expiry is at most `m`.
    /// Else it answers `None`, and changes nothing. There are no nodes, and so no steps.
    pub fn due(&mut self, m: u64) -> Option<u32>
        ensures next { IfSome result (IsNextDue self.old m) }
        ensures taken { IfSome result (λ id. self.new ≡ map.remove self.old id) }
        ensures none { IfNone result (
            (id expiry : ℕ) → map.get self.old id ≡ Some expiry → m < expiry) }
        ensures unchanged { IfNone result (self.new ≡ self.old) }
    {
        let Some(next) = soonest(&self.pairs) else {
            return None;
        };
        if m < next.expiry {
            return None;
        }
        self.remove(next.id);
        Some(next.id)
    }
}
