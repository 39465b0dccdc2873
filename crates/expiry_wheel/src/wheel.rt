//! The fast body: a moment for each id, and the least one of each block of them.
//!
//! It is no timing wheel: of two nodes side by side the one above keeps the lesser moment, so that
//! the root keeps the next.

ghost use Rattle.std.specs.Bool.{OnTrue, OnFalse};
ghost use Rattle.std.specs.Prelude.{◌≡◌, ℕ, ◌+◌, ◌<◌, ◌≤◌, length, Some, IfSome, IfNone, IfOk, OnOk, OnErr};
ghost use Rattle.std.specs.FinMap as map;
ghost use Rattle.expiry_wheel.specs.Moments.{kept_at, latest, told, written};
ghost use Rattle.expiry_wheel.specs.Due.{IsFirstDue, IsNextDue};

use crate::blocks::{first_from, set};
use crate::tree::{blank, wipe};
use crate::{IDS, Leasts, MOST_LEVELS, NEVER, blocks, latest};
use pcp_base::Memory;
use std::alloc::Global;
use std::marker::{Brand, Model};
use std::sync::ledger::{Blank, Ledger};
use step_count::Steps;

/// Ids below `IDS` with the moments at which they expire.
///
/// It is seen as a finite map from ids to expiries: a list of pairs of an id and an expiry, ids
/// distinct. In memory it has 1,048,576 octets of moments and 262,144 of nodes, whatever it keeps.
#[derive(Drop)]
pub struct Wheel {
    /// When each id expires, `NEVER` where it isn't in the wheel.
    moments: Vec<u64>,
    /// The least moment of each block of ids.
    leasts: Leasts,
}

impl Model for Wheel {
    ghost use Rattle.std.specs.Prelude.{ℕ};
    ghost use Rattle.std.specs.Ordering.{nat_cmp};
    ghost use Rattle.std.specs.Coded.{coded_ℕ};
    ghost use Rattle.std.specs.FinMap as map;

    ghost Value = { map.FinMap nat_cmp ℕ };

    ghost coded = { map.code coded_ℕ coded_ℕ };

    ghost use Rattle.expiry_wheel.specs.Moments.{expiries_by};
    ghost use Rattle.expiry_wheel.specs.Blocks.{IsWheel};

    ghost view = { λ w. expiries_by w.moments.items };

    ghost invariant = { λ w. IsWheel w.moments.items w.leasts };
}

/// The moment of an id.
fn moment_of(moments: &[u64], id: usize) -> u64
    requires { id < length moments.now }
    ensures { result ≡ kept_at moments.now id }
{
    moments[id]
}

/// The expiry that a moment stands for.
fn told(moment: u64) -> Option<u64>
    ensures { result ≡ told moment }
{
    if moment == NEVER { None } else { Some(moment) }
}

impl Wheel {
    /// A wheel with no pair. The one error is want of memory.
    pub fn new(alloc: Global) -> Result<Wheel, Memory>
        ensures { IfOk result (λ wheel. wheel ≡ map.empty) }
    {
        let moments = blank(alloc, IDS as usize)?;
        let leasts = Leasts::new(alloc, MOST_LEVELS)?;
        Ok(Wheel { moments, leasts })
    }

    /// Takes out all pairs. It takes no memory.
    pub fn clear(&mut self)
        ensures { self.new ≡ map.empty }
    {
        wipe(&mut self.moments);
        self.leasts.clear();
    }

    /// Sets the moment of an id, and counts what is looked at.
    fn set_counted<L: Ledger>(&mut self, id: u32, moment: u64, steps: &mut Steps<L>)
        requires { id < IDS }
        ensures set { self.new ≡ written self.old id moment }
        ensures cost { steps.new ≤ steps.old + 37 }
        ensures looked { steps.old < steps.new }
    {
        set(
            &mut self.moments,
            &mut self.leasts,
            id as usize,
            moment,
            steps,
        );
    }

    /// Sets the moment of an id for a caller that counts no steps.
    fn set_uncounted<L: Ledger>(&mut self, id: u32, moment: u64, blank: Blank)
        requires name { blank.name ≡ L.name }
        requires parts { blank.parts ≡ L.parts }
        requires some { 0 < L.parts }
        requires id { id < IDS }
        ensures { self.new ≡ written self.old id moment }
    {
        let mut steps = Steps::<L>::begin(blank);
        self.set_counted(id, moment, &mut steps);
    }

    /// Sets the moment of an id.
    fn set(&mut self, id: u32, moment: u64)
        requires { id < IDS }
        ensures { self.new ≡ written self.old id moment }
    {
        self.set_uncounted::<Brand>(id, moment, Blank::new(1));
    }

    /// When an id expires, None where the wheel hasn't got it.
    fn find(&self, id: u32) -> Option<u64>
        ensures found { result ≡ map.get self.now id }
        ensures within { IfSome result (λ _. id < IDS) }
    {
        let moments = &self.moments;
        if id >= IDS {
            return None;
        }
        told(moment_of(moments, id as usize))
    }

    /// Sets the expiry of an id. It takes no memory. Ids from `IDS` on, and the expiry `NEVER`, are
    /// refused as for want of memory, which changes nothing.
    pub fn put(&mut self, _alloc: Global, id: u32, expiry: u64) -> Result<(), Memory>
        ensures ok { OnOk result (self.new ≡ map.insert self.old id expiry) }
        ensures err { OnErr result (self.new ≡ self.old) }
    {
        if id >= IDS {
            return Err(Memory);
        }
        if expiry == NEVER {
            return Err(Memory);
        }
        self.set(id, expiry);
        Ok(())
    }

    /// Takes out the pair of an id, and tells whether there was one.
    pub fn remove(&mut self, id: u32) -> bool
        ensures found { result ≡ map.contains_key self.old id }
        ensures removed { self.new ≡ map.remove self.old id }
    {
        let Some(_expiry) = self.find(id) else {
            return false;
        };
        self.set(id, NEVER);
        true
    }

    /// When an id expires, None where the wheel hasn't got it.
    pub fn expiry(&self, id: u32) -> Option<u64>
        ensures { result ≡ map.get self.now id }
    {
        self.find(id)
    }

    /// Gives an id that the wheel has another expiry; false where it hasn't got it. It takes no
    /// memory.
    pub fn reschedule(&mut self, id: u32, expiry: u64) -> bool
        requires { expiry < NEVER }
        ensures found { result ≡ map.contains_key self.old id }
        ensures moved { OnTrue result (self.new ≡ map.insert self.old id expiry) }
        ensures unchanged { OnFalse result (self.new ≡ self.old) }
    {
        let Some(_expiry) = self.find(id) else {
            return false;
        };
        self.set(id, expiry);
        true
    }

    /// As `next_due`, with the bound on the id.
    fn next<L: Ledger>(&self, m: u64, steps: &mut Steps<L>) -> Option<u32>
        ensures next { IfSome result (IsNextDue self.now m) }
        ensures within { IfSome result (λ id. id < IDS) }
        ensures none { IfNone result (
            (id expiry : ℕ) → map.get self.now id ≡ Some expiry → m < expiry) }
        ensures root { IfNone result (steps.new ≡ steps.old + 1) }
        ensures looked { IfSome result (λ _. steps.old + 16 ≤ steps.new) }
        ensures cost { steps.new ≤ steps.old + 23 }
    {
        let Some(id) = blocks::next(&self.moments, &self.leasts, latest(m), steps) else {
            return None;
        };
        Some(id as u32)
    }

    /// The id with the least expiry, then the least id, if that expiry is at most `m`, else `None`.
    /// It stays in the wheel.
    ///
    /// A step is a node of the tree or a moment that is looked at. `None` takes one, and an id at
    /// most 23: the root, a node of each of 14 levels below it, and the moments of a block.
    pub fn next_due<L: Ledger>(&self, m: u64, steps: &mut Steps<L>) -> Option<u32>
        ensures next { IfSome result (IsNextDue self.now m) }
        ensures none { IfNone result (
            (id expiry : ℕ) → map.get self.now id ≡ Some expiry → m < expiry) }
        ensures root { IfNone result (steps.new ≡ steps.old + 1) }
        ensures steps { steps.new ≤ steps.old + 23 }
        ensures looked { IfSome result (λ _. steps.old + 16 ≤ steps.new) }
    {
        self.next(m, steps)
    }

    /// The least id from `from` on whose expiry is at most `m`, else `None`. It stays in the wheel.
    ///
    /// A step is a node of the tree or a moment that is looked at, and the call takes at most 43:
    /// the moments of two blocks, and at most 27 nodes on the way up from the one and down to the
    /// other.
    pub fn first_due<L: Ledger>(&self, from: u32, m: u64, steps: &mut Steps<L>) -> Option<u32>
        ensures first { IfSome result (IsFirstDue self.now from m) }
        ensures none { IfNone result ((id expiry : ℕ)
            → map.get self.now id ≡ Some expiry → from ≤ id → m < expiry) }
        ensures steps { steps.new ≤ steps.old + 43 }
        ensures looked { from < IDS → steps.old < steps.new }
    {
        let moments = &self.moments;
        if from >= IDS {
            return None;
        }
        let Some(id) = first_from(moments, &self.leasts, from as usize, latest(m), steps) else {
            return None;
        };
        Some(id as u32)
    }

    /// Takes out the pair with the least expiry, then the least id, if that expiry is at most `m`.
    /// Else it answers `None`, and changes nothing.
    ///
    /// A step is a node of the tree or a moment that is looked at, and the call takes at most 64.
    pub fn due<L: Ledger>(&mut self, m: u64, steps: &mut Steps<L>) -> Option<u32>
        ensures next { IfSome result (IsNextDue self.old m) }
        ensures taken { IfSome result (λ id. self.new ≡ map.remove self.old id) }
        ensures none { IfNone result (
            (id expiry : ℕ) → map.get self.old id ≡ Some expiry → m < expiry) }
        ensures unchanged { IfNone result (self.new ≡ self.old) }
        ensures steps { steps.new ≤ steps.old + 64 }
        ensures root { IfNone result (steps.new ≡ steps.old + 1) }
        ensures looked { IfSome result (λ _. steps.old + 2 ≤ steps.new) }
    {
        let Some(id) = self.next(m, steps) else {
            return None;
        };
        self.set_counted(id, NEVER, steps);
        Some(id)
    }
}
