//! Where a look-up may begin: the slot of one lease for each bucket that places fall on.

ghost use Rattle.std.specs.Prelude.{◌≡◌, ◌%◌, IfOk, replicate, slice_index, slice_set};
ghost use Rattle.ordered_index.specs.Hints.{no_hints};
ghost use Rattle.ordered_index.specs.Sieves.{bucket_of};
ghost use Rattle.ordered_index.specs.declared.slots.TheConstants.{MOST_SLOTS};

use crate::places::Place;
use crate::sieves::BUCKETS;
use crate::slots::MOST_SLOTS;
use std::alloc::{AllocError, Global};
use std::marker::Model;

/// The slot that was noted last at each bucket, 0 where none was. Nothing follows from it: whoever
/// asks looks at what stands there.
#[derive(Drop)]
pub struct Hints {
    slots: Vec<u16>,
}

impl Model for Hints {
    ghost use Rattle.std.specs.Prelude.{◌≡◌, ℕ, List, length};
    ghost use Rattle.ordered_index.specs.declared.sieves.TheConstants.{BUCKETS};

    ghost Value = { List ℕ };

    ghost view = { λ h. h.slots.items };

    ghost invariant = { λ h. length h.slots.items ≡ BUCKETS };
}

fn zeros(alloc: Global, count: usize) -> Result<Vec<u16>, AllocError>
    ensures { IfOk result (λ slots. slots.items ≡ replicate count 0) }
{
    vec![in alloc; 0; count]
}

impl Hints {
    /// The first slot at each bucket. The one error is want of memory.
    pub fn new(alloc: Global) -> Result<Hints, AllocError>
        ensures { IfOk result (λ hints. hints ≡ no_hints) }
    {
        Ok(Hints {
            slots: zeros(alloc, BUCKETS)?,
        })
    }

    /// The slot that was noted last at this place's bucket.
    #[inline]
    pub fn slot(&self, place: &Place) -> usize
        ensures { result ≡ slice_index self.now (bucket_of place.now) }
    {
        usize::from(self.slots[place.bucket()])
    }

    /// Notes the slot that a number names at this place's bucket.
    #[inline]
    pub fn note(&mut self, place: &Place, number: u64)
        ensures { self.new ≡ slice_set self.old (bucket_of place.now) (number % MOST_SLOTS) }
    {
        self.slots[place.bucket()] = (number % MOST_SLOTS) as u16;
    }
}
