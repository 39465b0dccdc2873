//! How many places fall on each of some buckets, by which most look-ups that miss are told.

ghost use Rattle.std.specs.Prelude.{◌≡◌, IfOk, replicate, slice_index};
ghost use Rattle.ordered_index.specs.Sieves.{bucket_of, no_places, with_place, without_place};

use crate::marks::MarkSet;
use crate::places::Place;
use std::alloc::{AllocError, Global};
use std::marker::Model;

/// How many buckets places may fall on.
pub(crate) const BUCKETS: usize = 131_072;

/// How many places fall on each bucket, up to 254; 255 sticks, and stands for any number.
#[derive(Drop)]
pub struct Sieve {
    counts: Vec<u8>,
    /// The buckets that places fall on. Most look-ups end here, so these bits stay near.
    filled: MarkSet,
}

impl Model for Sieve {
    ghost use Rattle.std.specs.Prelude.{ℕ, List};
    ghost use Rattle.ordered_index.specs.Sieves.{AreFilled};

    ghost Value = { List ℕ };

    ghost view = { λ s. s.counts.items };

    ghost invariant = { λ s. AreFilled s.counts.items s.filled };
}

fn zeros(alloc: Global, count: usize) -> Result<Vec<u8>, AllocError>
    ensures { IfOk result (λ counts. counts.items ≡ replicate count 0) }
{
    vec![in alloc; 0; count]
}

impl Sieve {
    /// No place falls on any bucket. The one error is want of memory.
    pub fn new(alloc: Global) -> Result<Sieve, AllocError>
        ensures { IfOk result (λ sieve. sieve ≡ no_places) }
    {
        let counts = zeros(alloc, BUCKETS)?;
        let filled = MarkSet::new(alloc)?;
        Ok(Sieve { counts, filled })
    }

    /// Forgets all places. It takes no memory.
    pub fn clear(&mut self)
        ensures { self.new ≡ no_places }
    {
        self.counts.fill(0);
        self.filled.clear();
    }

    /// How many places fall on this one's bucket, up to 254; 255 tells nothing.
    #[inline]
    pub fn count(&self, place: &Place) -> u8
        ensures { result ≡ slice_index self.now (bucket_of place.now) }
    {
        let bucket = place.bucket();
        if !self.filled.contains(bucket) {
            return 0;
        }
        self.counts[bucket]
    }

    /// One place more.
    pub fn add(&mut self, place: &Place)
        ensures { self.new ≡ with_place (bucket_of place.now) self.old }
    {
        let bucket = place.bucket();
        let count = self.counts[bucket];
        self.counts[bucket] = count.saturating_add(1);
        self.filled.set(bucket, true);
    }

    /// One place less.
    pub fn take(&mut self, place: &Place)
        ensures { self.new ≡ without_place (bucket_of place.now) self.old }
    {
        let bucket = place.bucket();
        let count = self.counts[bucket];
        if count < 255 {
            self.counts[bucket] = count.saturating_sub(1);
            self.filled.set(bucket, count > 1);
        }
    }
}
