//! The first places of buckets.
ghost use Rattle.std.specs.Prelude.{◌≡◌, ◌≢◌, ℕ, ◌<◌, None, if◌then◌else◌, replicate, slice_set};
ghost use Rattle.std.specs.Int.{bit_at};
ghost use Rattle.maze_route.specs.Buckets.{head_at, IsFirstFull};

use std::marker::Model;

/// How many buckets there are: one for each key of a block, and one for each number of bits in which
/// blocks can differ.
const BUCKETS: usize = 1078;

/// How many words hold a bit for each bucket.
const WORDS: usize = 17;

/// The first place of each bucket, and a bit for each bucket that has one.
#[derive(Debug, Drop)]
pub(crate) struct Heads {
    places: [Option<u32>; BUCKETS],
    full: [u64; WORDS],
}

impl Model for Heads {
    ghost use Rattle.std.specs.Prelude.{ℕ, List, Option};

    ghost Value = { List (Option ℕ) };

    ghost use Rattle.maze_route.specs.Heads.{AreMarked};

    ghost view = { λ heads. heads.places };

    ghost invariant = { λ heads. AreMarked heads.places heads.full };
}

impl Heads {
    /// No bucket has a place.
    pub(crate) fn new() -> Heads
        ensures { result ≡ replicate 1078 None }
    {
        Heads {
            places: [None; BUCKETS],
            full: [0; WORDS],
        }
    }

    /// The first place of a bucket, if it has one.
    #[inline(always)]
    pub(crate) fn at(&self, bucket: usize) -> Option<u32>
        requires { bucket < 1078 }
        ensures { result ≡ head_at self.now bucket }
    {
        self.places[bucket]
    }

    /// Gives a bucket another first place, or none.
    #[inline(always)]
    pub(crate) fn set(&mut self, bucket: usize, head: Option<u32>)
        requires { bucket < 1078 }
        ensures { self.new ≡ slice_set self.old bucket head }
    {
        let word = bucket / 64;
        self.places[bucket] = head;
        self.full[word] = marked(self.full[word], (bucket % 64) as u32, head.is_some());
    }

    /// The first bucket that has a place, where those before one have none.
    #[inline(always)]
    pub(crate) fn first_full(&self, from: usize) -> Option<usize>
        requires few { from < 1024 }
        requires none { (bucket : ℕ) → bucket < from → head_at self.now bucket ≡ None }
        ensures { IsFirstFull self.now result }
    {
        for word in from / 64..WORDS {
            let bits = self.full[word];
            if bits != 0 {
                return Some(word * 64 + bits.trailing_zeros() as usize);
            }
        }
        None
    }
}

/// A word with one bit set or cleared.
#[inline(always)]
fn marked(word: u64, bit: u32, full: bool) -> u64
    requires { bit < 64 }
    ensures own { bit_at result bit ≡ (if full then 1 else 0) }
    ensures others { (other : ℕ) → other < 64 → other ≢ bit → bit_at result other ≡ bit_at word other }
{
    if full {
        word | 1 << bit
    } else {
        word & !(1 << bit)
    }
}
